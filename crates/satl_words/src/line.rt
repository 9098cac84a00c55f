// The command line, as clap reads it.
ghost use Rattle.std.specs.Prelude.{◌≡◌, IfOk, false, true};
ghost use Rattle.clap.specs.Words.{app_of};
ghost use Rattle.clap.specs.declared.builder.command.Command.TheViews.{out-Command};
ghost use Rattle.satl_words.specs.CommandLine.{command_line, generate};

use crate::modes::MOST_REQUESTS;
use clap::builder::ValueParser;
use clap::{Arg, ArgAction, Command, Error};
use std::alloc::Global;

/// `gen --seed N --requests N`.
fn generating<'a>(alloc: Global) -> Result<Command<'a>, Error>
    ensures app { IfOk result (λ c. app_of c ≡ generate) }
    ensures local { IfOk result (λ c. (out-Command c).has_globals ≡ false) }
{
    let seed = Arg::new(alloc, "seed")
        .long("seed")
        .required(true)
        .action(ArgAction::Set)
        .value_parser(ValueParser::Unsigned(0, u64::MAX));
    let requests = Arg::new(alloc, "requests")
        .long("requests")
        .required(true)
        .action(ArgAction::Set)
        .value_parser(ValueParser::Unsigned(0, MOST_REQUESTS as u64));
    let command = Command::new(alloc, "gen").arg(seed)?.arg(requests)?;
    Ok(command)
}

/// The command line of the program (profile): one of its subcommands, and nothing else. `Err`: there is not the memory.
pub fn command<'a>(alloc: Global) -> Result<Command<'a>, Error>
    ensures app { IfOk result (λ c. app_of c ≡ command_line) }
    ensures local { IfOk result (λ c. (out-Command c).has_globals ≡ false) }
    ensures required { IfOk result (λ c. (out-Command c).subcommand_required ≡ true) }
{
    let top = Command::new(alloc, "satl")
        .disable_help_subcommand(true)
        .subcommand_required(true);
    let replay = top.subcommand(Command::new(alloc, "replay"))?;
    let show = replay.subcommand(Command::new(alloc, "show"))?;
    let usb = show.subcommand(Command::new(alloc, "usb"))?;
    let audit = usb.subcommand(Command::new(alloc, "audit"))?;
    let generate = audit.subcommand(generating(alloc)?)?;
    Ok(generate)
}
