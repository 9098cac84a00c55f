// Trims that are not queued.
ghost use Rattle.std.specs.Prelude.{◌≡◌, ◌≤◌, ◌+◌, IfOk, OnErr, length, true};
ghost use Rattle.std.specs.List.{AllByRecursion};
ghost use Rattle.satl_base.specs.Identify.{has_trim, trim_blocks};
ghost use Rattle.satl_regs.specs.Trim.{IsTrimList};
ghost use Rattle.satl_barrier.specs.Finishing.{FinishesAs, trimming_ranges};
ghost use Rattle.satl_barrier.specs.Leaving.{IsFree, IsLostIn, Stays};

use crate::commands::run;
use crate::finishing::Finish;
use satl_base::{Pages, Range, Steps};
use satl_drive::{Drive, LinkDown};
use satl_regs::{AtaCommand, trim_bytes};
use std::sync::ledger::Ledger;

/// Trims ranges that one block of entries can name, on a drive that has trim. The scratch pages are as many afterwards; what
/// they hold then is not told. `LinkDown`: the link was lost (SAT-3, UNMAP: DATA SET MANAGEMENT).
pub fn trim<D: Drive<L>, L: Ledger>(
    ranges: &[Range],
    scratch: &mut Pages,
    drive: &mut D,
    steps: &mut Steps<L>,
) -> Result<Finish, LinkDown>
    requires free { IsFree (D.state drive.old) }
    requires list { IsTrimList ranges.now }
    requires within { AllByRecursion (λ range. range.lba + range.count ≤ length (D.state drive.old).cells) ranges.now }
    requires has { has_trim (D.state drive.old).identify ≡ true }
    requires takes { 1 ≤ trim_blocks (D.state drive.old).identify }
    requires room { 1 ≤ length scratch.old }
    ensures finishes { IfOk result (λ it. FinishesAs (trimming_ranges ranges.now (D.state drive.old)) 0 it (D.state drive.old)
        (D.state drive.new)) }
    ensures lost { OnErr result (IsLostIn (trimming_ranges ranges.now (D.state drive.old)).writes (D.state drive.old)
        (D.state drive.new)) }
    ensures stays { Stays (D.state drive.old) (D.state drive.new) }
    ensures size { length scratch.new ≡ length scratch.old }
    ensures step { steps.new ≡ steps.old + 1 }
{
    scratch.set_block(0, &trim_bytes(ranges));
    let ended = run(drive, &AtaCommand::Trim { blocks: 1 }, scratch, steps)?;
    Ok(Finish::from(&ended))
}
