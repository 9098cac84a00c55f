// ATA commands on the drive.
ghost use Rattle.std.specs.Prelude.{◌≡◌, ◌≤◌, ◌+◌, [], IfOk, OnOk, OnErr, length};
ghost use Rattle.satl_drive.specs.State.{medium_of};
ghost use Rattle.satl_regs.specs.Effects.{own_blocks, pairs_of};
ghost use Rattle.satl_regs.specs.Spelling.{CommandFits};
ghost use Rattle.satl_barrier.specs.Commands.{GivesIdentifyData, HasRun, HasRunBare, IsCutShort, IsNamed, traffic};
ghost use Rattle.satl_barrier.specs.Leaving.{IsFree, Stays};

use satl_base::{Pages, Steps};
use satl_drive::{Drive, LinkDown};
use satl_regs::{AtaCommand, Taskfile, put_command};
use std::sync::ledger::Ledger;

/// Carries out one command on the drive, with its data in pages of 512 bytes: at least as many as it moves. `LinkDown`: the
/// link was lost, and what it writes is written in part (ACS-3).
pub fn run<D: Drive<L>, L: Ledger>(
    drive: &mut D,
    command: &AtaCommand,
    pages: &mut Pages,
    steps: &mut Steps<L>,
) -> Result<Taskfile, LinkDown>
    requires free { IsFree (D.state drive.old) }
    requires named { IsNamed command.now }
    requires fits { CommandFits command.now }
    requires room { own_blocks command.now ≤ length pages.old }
    ensures ok { IfOk result (λ ended. HasRun command.now (traffic command.now pages.old ended pages.new) (D.state drive.old)
        (D.state drive.new)) }
    ensures err { OnErr result (IsCutShort (pairs_of command.now (medium_of (D.state drive.old)) pages.old) (D.state drive.old)
        (D.state drive.new)) }
    ensures stays { Stays (D.state drive.old) (D.state drive.new) }
    ensures size { length pages.new ≡ length pages.old }
    ensures step { steps.new ≡ steps.old + 1 }
{
    let regs = put_command(command);
    match drive.run(&regs, pages, steps) {
        Ok(ended) => Ok(ended),
        Err(LinkDown) => Err(LinkDown),
    }
}

/// Carries out one command that moves no data on the drive. How it ends is not told.
pub fn run_bare<D: Drive<L>, L: Ledger>(
    drive: &mut D,
    command: &AtaCommand,
    steps: &mut Steps<L>,
) -> Result<(), LinkDown>
    requires free { IsFree (D.state drive.old) }
    requires named { IsNamed command.now }
    requires fits { CommandFits command.now }
    requires bare { own_blocks command.now ≡ 0 }
    ensures ok { OnOk result (HasRunBare command.now (D.state drive.old) (D.state drive.new)) }
    ensures err { OnErr result (IsCutShort (pairs_of command.now (medium_of (D.state drive.old)) []) (D.state drive.old)
        (D.state drive.new)) }
    ensures stays { Stays (D.state drive.old) (D.state drive.new) }
    ensures step { steps.new ≡ steps.old + 1 }
{
    run(drive, command, &mut Pages::default(), steps)?;
    Ok(())
}

/// Reads the IDENTIFY DEVICE data, 512 bytes, into the first page. `LinkDown`: the link was lost (ACS-3, IDENTIFY DEVICE).
pub fn tell_identity<D: Drive<L>, L: Ledger>(
    drive: &mut D,
    pages: &mut Pages,
    steps: &mut Steps<L>,
) -> Result<(), LinkDown>
    requires free { IsFree (D.state drive.old) }
    requires room { 1 ≤ length pages.old }
    ensures told { OnOk result (GivesIdentifyData (D.state drive.old) pages.old pages.new (D.state drive.new)) }
    ensures lost { OnErr result (IsCutShort [] (D.state drive.old) (D.state drive.new)) }
    ensures stays { Stays (D.state drive.old) (D.state drive.new) }
    ensures size { length pages.new ≡ length pages.old }
    ensures step { steps.new ≡ steps.old + 1 }
{
    run(drive, &AtaCommand::Identify, pages, steps)?;
    Ok(())
}
