// ATA PASS-THROUGH: a host's own ATA command.
ghost use Rattle.std.specs.Prelude.{◌≡◌, ◌+◌, IfOk, OnErr, length};
ghost use Rattle.satl_frame.specs.DataPages.{page_count};
ghost use Rattle.satl_regs.specs.Commands.{command_in};
ghost use Rattle.satl_regs.specs.Effects.{pairs_of};
ghost use Rattle.satl_pass.specs.Reading.{CanGoToDrive};
ghost use Rattle.satl_drive.specs.State.{medium_of};
ghost use Rattle.satl_base.specs.Blocks.{AreWhole};
ghost use Rattle.satl_barrier.specs.Leaving.{IsFree, IsLostIn, Stays};
ghost use Rattle.satl_direct.specs.Tasks as direct;
ghost use Rattle.satl_core.specs.Medium as medium;
ghost use Rattle.satl_core.specs.Medium.{PassesThrough, pages_on};

use crate::turning::Ending;
use satl_barrier::pass_through;
use satl_base::{Pages, Steps};
use satl_drive::{Drive, LinkDown};
use satl_pass::{Pass, pass_of, status_return};
use satl_regs::Taskfile;
use std::sync::ledger::Ledger;

/// Carries the command of an ATA PASS-THROUGH out, with its data in these pages. `LinkDown`: the link was lost meanwhile (SAT-3
/// 12.2).
pub fn run_through<D: Drive<L>, L: Ledger>(
    cdb: &[u8; 16],
    body: &mut Pages,
    drive: &mut D,
    steps: &mut Steps<L>,
) -> Result<Ending, LinkDown>
    requires free { IsFree (D.state drive.old) }
    requires can { CanGoToDrive (direct.pass_of cdb.now) }
    requires room { length body.old ≡ page_count (direct.pass_of cdb.now).length }
    ensures ends { IfOk result (λ ending. PassesThrough (direct.pass_of cdb.now) (pages_on body.old (D.state drive.old)) ending
        (pages_on body.new (D.state drive.new))) }
    ensures lost { OnErr result (IsLostIn (pairs_of (command_in (direct.pass_of cdb.now).regs)
        (medium_of (D.state drive.old)) body.old) (D.state drive.old) (D.state drive.new)) }
    ensures stays { Stays (D.state drive.old) (D.state drive.new) }
    ensures whole { AreWhole body.old }
    ensures size { length body.new ≡ length body.old }
    ensures step { steps.new ≡ steps.old + 1 }
{
    let pass = pass_of(cdb);
    let ended = pass_through(&pass.regs, body, drive, steps)?;
    Ok(passed(&pass, &ended))
}

/// How an ATA PASS-THROUGH ends: with the registers at a bad end, and at a good one where CK_COND is 1 (SAT-3 12.2).
fn passed(pass: &Pass, ended: &Taskfile) -> Ending
    ensures { result ≡ medium.passed pass.now ended.now }
{
    match status_return(pass, ended) {
        None => Ending::Good,
        Some(sense) if ended.is_bad() => Ending::Check(sense),
        Some(sense) => Ending::Informed(sense),
    }
}
