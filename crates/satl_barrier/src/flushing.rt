// Commands that move no data: FLUSH CACHE EXT, and starting and stopping the drive.
ghost use Rattle.std.specs.Prelude.{◌≡◌, ◌≤◌, ◌+◌, [], OnOk, OnErr, map, not, true, false};
ghost use Rattle.satl_base.specs.Cells.{AreSound, settle};
ghost use Rattle.satl_barrier.specs.Commands.{IsCutShort};
ghost use Rattle.satl_barrier.specs.Flushing.{IsLeftWith, IsSwitched, settled_if};
ghost use Rattle.satl_barrier.specs.Leaving.{IsFree, IsLostIn, Stays};

use crate::commands::run_bare;
use satl_base::Steps;
use satl_drive::{Drive, LinkDown};
use satl_regs::AtaCommand;
use std::sync::ledger::Ledger;

/// Writes every sector back. `LinkDown`: the link was lost (SAT-3, SYNCHRONIZE CACHE: FLUSH CACHE EXT).
pub fn flush<D: Drive<L>, L: Ledger>(drive: &mut D, steps: &mut Steps<L>) -> Result<(), LinkDown>
    requires free { IsFree (D.state drive.old) }
    ensures flushed { OnOk result (IsLeftWith (map settle (D.state drive.old).cells) (D.state drive.old).active
        (D.state drive.old) (D.state drive.new)) }
    ensures lost { OnErr result (IsCutShort [] (D.state drive.old) (D.state drive.new)) }
    ensures stays { Stays (D.state drive.old) (D.state drive.new) }
    ensures step { steps.new ≡ steps.old + 1 }
{
    run_bare(drive, &AtaCommand::Flush { ext: true }, steps)
}

/// Writes every sector back, unless that is not to be (SBC-3, START STOP UNIT, NO_FLUSH).
fn flush_unless<D: Drive<L>, L: Ledger>(
    no_flush: bool,
    drive: &mut D,
    steps: &mut Steps<L>,
) -> Result<(), LinkDown>
    requires free { IsFree (D.state drive.old) }
    requires sound { AreSound (D.state drive.old).cells }
    requires up { (D.state drive.old).down ≡ false }
    ensures flushed { OnOk result (IsLeftWith (settled_if (not no_flush) (D.state drive.old).cells) (D.state drive.old).active
        (D.state drive.old) (D.state drive.new)) }
    ensures lost { OnErr result (IsCutShort [] (D.state drive.old) (D.state drive.new)) }
    ensures stays { Stays (D.state drive.old) (D.state drive.new) }
    ensures step { steps.new ≤ steps.old + 1 }
{
    if no_flush {
        return Ok(());
    }
    flush(drive, steps)
}

/// Starts or stops the drive. `LinkDown`: the link was lost (SBC-3, START STOP UNIT).
pub fn switch<D: Drive<L>, L: Ledger>(
    starts: bool,
    no_flush: bool,
    drive: &mut D,
    steps: &mut Steps<L>,
) -> Result<(), LinkDown>
    requires free { IsFree (D.state drive.old) }
    requires sound { AreSound (D.state drive.old).cells }
    requires up { (D.state drive.old).down ≡ false }
    ensures switched { OnOk result (IsSwitched starts no_flush (D.state drive.old) (D.state drive.new)) }
    ensures lost { OnErr result (IsLostIn [] (D.state drive.old) (D.state drive.new)) }
    ensures stays { Stays (D.state drive.old) (D.state drive.new) }
    ensures step { steps.new ≤ steps.old + 2 }
{
    if starts {
        start(drive, steps)
    } else {
        stop(no_flush, drive, steps)
    }
}

/// Stops the drive: all is written back unless NO_FLUSH, and then it is in standby (SAT-3, START STOP UNIT: FLUSH CACHE EXT and
/// STANDBY IMMEDIATE).
fn stop<D: Drive<L>, L: Ledger>(
    no_flush: bool,
    drive: &mut D,
    steps: &mut Steps<L>,
) -> Result<(), LinkDown>
    requires free { IsFree (D.state drive.old) }
    requires sound { AreSound (D.state drive.old).cells }
    requires up { (D.state drive.old).down ≡ false }
    ensures stopped { OnOk result (IsLeftWith (settled_if (not no_flush) (D.state drive.old).cells) false (D.state drive.old)
        (D.state drive.new)) }
    ensures lost { OnErr result (IsLostIn [] (D.state drive.old) (D.state drive.new)) }
    ensures stays { Stays (D.state drive.old) (D.state drive.new) }
    ensures step { steps.new ≤ steps.old + 2 }
{
    flush_unless(no_flush, drive, steps)?;
    run_bare(drive, &AtaCommand::Standby, steps)?;
    Ok(())
}

/// Starts the drive: a read wakes it, whose end does not matter, and then it is active (SAT-3, START STOP UNIT: READ VERIFY
/// SECTOR(S) EXT and IDLE IMMEDIATE).
fn start<D: Drive<L>, L: Ledger>(drive: &mut D, steps: &mut Steps<L>) -> Result<(), LinkDown>
    requires free { IsFree (D.state drive.old) }
    ensures started { OnOk result (IsLeftWith (D.state drive.old).cells true (D.state drive.old) (D.state drive.new)) }
    ensures lost { OnErr result (IsLostIn [] (D.state drive.old) (D.state drive.new)) }
    ensures stays { Stays (D.state drive.old) (D.state drive.new) }
    ensures step { steps.new ≤ steps.old + 2 }
{
    run_bare(
        drive,
        &AtaCommand::Verify {
            ext: true,
            lba: 0,
            sectors: 1,
        },
        steps,
    )?;
    run_bare(drive, &AtaCommand::Idle, steps)?;
    Ok(())
}
