// What the words ask for.
ghost use Rattle.std.specs.Prelude.{◌≡◌, IfOk, IfSome, Err, Ok, OnOk, true, map};
ghost use Rattle.std.specs.Rc.{rc_str_bytes};
ghost use Rattle.clap.specs.Words.{has_subcommand, kind_of, subcommand_of, subcommand_rows_of, takes};
ghost use Rattle.satl_words.specs.Asked.{AreRefused, AskFor};
ghost use Rattle.satl_words.specs.CommandLine.{AreTaken, IsModeOf, IsSubcommand, command_line};
ghost use Rattle.satl_words.specs.Plain.{IsInRange, ArePlain};

use crate::line::command;
use crate::modes::{MOST_REQUESTS, Mode};
use crate::numbers::number_given;
use crate::plain::plain_mode;
use clap::error::ErrorKind;
use clap::{ArgMatches, Error};
use std::alloc::Global;
use std::rc::RcStr;

/// Why the words ask for nothing (profile).
#[derive(Clone, Copy, Debug, PartialEq, Eq)]
pub enum WordsFault {
    /// They are not understood.
    Refused,
    /// There was not the memory to read them.
    NoMemory,
}

/// What the words ask for: plain words what they spell, all others what clap makes of them (profile). `Refused` comes only
/// where words are not plain and clap refuses them for another cause than memory; `NoMemory` is free for words that are not
/// plain.
pub fn mode_asked(alloc: Global, words: &[RcStr]) -> Result<Mode, WordsFault>
    ensures plain { (mode : Mode) → IsInRange mode → ArePlain (map rc_str_bytes words.now) mode → result ≡ Ok mode }
    ensures asked { IfOk result (λ mode. IsInRange mode × AskFor (map rc_str_bytes words.now) mode) }
    ensures refused { (result ≡ Err WordsFault.Refused) → AreRefused (map rc_str_bytes words.now) }
    ensures takes { (result ≡ Err WordsFault.Refused) → (takes command_line (map rc_str_bytes words.now) ≡ true) → ⊥ }
{
    match plain_mode(words) {
        Some(mode) => Ok(mode),
        None => parsed_mode(alloc, words),
    }
}

/// What words ask for by clap.
fn parsed_mode(alloc: Global, words: &[RcStr]) -> Result<Mode, WordsFault>
    ensures mode { IfOk result (λ mode. IsInRange mode
        × IsModeOf (subcommand_of command_line (map rc_str_bytes words.now)) mode) }
    ensures taken { OnOk result (AreTaken (map rc_str_bytes words.now)) }
    ensures refused { (result ≡ Err WordsFault.Refused) → AreTaken (map rc_str_bytes words.now) → ⊥ }
    ensures takes { (result ≡ Err WordsFault.Refused) → (takes command_line (map rc_str_bytes words.now) ≡ true) → ⊥ }
{
    let command = match command(alloc) {
        Ok(command) => command,
        Err(_) => return Err(WordsFault::NoMemory),
    };
    match command.try_get_matches_from(words) {
        Ok(matches) => Ok(mode_of(&matches)),
        Err(error) => Err(why(&error)),
    }
}

/// What the matches of a subcommand ask for.
fn mode_of(matches: &ArgMatches<'_>) -> Mode
    requires some { has_subcommand matches.now ≡ true }
    requires known { IfSome (subcommand_rows_of matches.now) (λ p. IsSubcommand p.0) }
    ensures mode { IsModeOf (subcommand_rows_of matches.now) result }
    ensures range { IsInRange result }
{
    let Some((name, found)) = matches.subcommand() else {
        unreachable!();
    };
    if name == "replay" {
        return Mode::Replay;
    }
    if name == "show" {
        return Mode::Show;
    }
    if name == "usb" {
        return Mode::Usb;
    }
    if name == "audit" {
        return Mode::Audit;
    }
    Mode::Generate {
        seed: number_given(found, "seed", u64::MAX),
        requests: number_given(found, "requests", MOST_REQUESTS as u64) as u32,
    }
}

/// Why clap refuses words.
fn why(error: &Error) -> WordsFault
    ensures { (result ≡ WordsFault.Refused) → (kind_of error.now ≡ ErrorKind.OutOfMemory) → ⊥ }
{
    if error.kind() == ErrorKind::OutOfMemory {
        return WordsFault::NoMemory;
    }
    WordsFault::Refused
}
