// WRITE SAME: one block at each address of a range.
ghost use Rattle.std.specs.Prelude.{◌≡◌, ◌≤◌, ◌+◌, IfOk, OnErr, OnOk, length, min, replicate, take};
ghost use Rattle.satl_base.specs.Limits.{piece};
ghost use Rattle.satl_barrier.specs.Finishing.{FinishesAs, IsReached, pieces_of, writing_range, writing_same};
ghost use Rattle.satl_barrier.specs.Commands.{IsCutShort};
ghost use Rattle.satl_barrier.specs.Leaving.{IsFree, IsLostIn, Stays};

use crate::commands::run;
use crate::finishing::{Finish, next_piece};
use satl_base::{Block, Pages, Range, Steps};
use satl_drive::{Drive, LinkDown};
use satl_regs::{AtaCommand, How};
use std::sync::ledger::Ledger;

/// Puts the block into each of the pages.
fn fill(pages: &mut Pages, block: &Block)
    ensures { pages.new ≡ replicate (length pages.old) block.now }
{
    let mut filled = Pages::default();
    for _ in 0..pages.blocks() {
        let Some(mut page) = pages.pop_first() else {
            unreachable!();
        };
        page.set(block);
        filled.push_first(page);
    }
    *pages = filled;
}

/// Writes the first of the pages to a range, as many as it has blocks (SAT-3, WRITE SAME: WRITE DMA EXT).
fn write_piece<D: Drive<L>, L: Ledger>(
    range: Range,
    pages: &mut Pages,
    drive: &mut D,
    steps: &mut Steps<L>,
) -> Result<Finish, LinkDown>
    requires free { IsFree (D.state drive.old) }
    requires reached { IsReached range (D.state drive.old) }
    requires room { range.count ≤ length pages.old }
    ensures finishes { IfOk result (λ it. FinishesAs
        (writing_range range (take range.count pages.old) (D.state drive.old)) range.count it
        (D.state drive.old) (D.state drive.new)) }
    ensures lost { OnErr result (IsCutShort (writing_range range (take range.count pages.old) (D.state drive.old)).writes
        (D.state drive.old) (D.state drive.new)) }
    ensures stays { Stays (D.state drive.old) (D.state drive.new) }
    ensures same { OnOk result (pages.new ≡ pages.old) }
    ensures size { length pages.new ≡ length pages.old }
    ensures step { steps.new ≡ steps.old + 1 }
{
    let command = AtaCommand::Write {
        how: How::DmaExt,
        lba: range.lba,
        sectors: range.count,
    };
    let ended = run(drive, &command, pages, steps)?;
    Ok(Finish::from(&ended))
}

/// Writes the same block at each address of a range of 1 to 65,536 blocks, in pieces of 64 blocks upwards, each by one call.
/// The scratch pages, at least 64, are as many afterwards; what they hold then is not told. `LinkDown`: the link was lost
/// (SAT-3, WRITE SAME: WRITE DMA EXT).
pub fn write_same<D: Drive<L>, L: Ledger>(
    range: Range,
    block: &Block,
    scratch: &mut Pages,
    drive: &mut D,
    steps: &mut Steps<L>,
) -> Result<Finish, LinkDown>
    requires free { IsFree (D.state drive.old) }
    requires reached { IsReached range (D.state drive.old) }
    requires room { piece ≤ length scratch.old }
    ensures finishes { IfOk result (λ it. FinishesAs (writing_same range block.now (D.state drive.old))
        (min piece range.count) it (D.state drive.old) (D.state drive.new)) }
    ensures lost { OnErr result (IsLostIn (writing_same range block.now (D.state drive.old)).writes (D.state drive.old)
        (D.state drive.new)) }
    ensures stays { Stays (D.state drive.old) (D.state drive.new) }
    ensures size { length scratch.new ≡ length scratch.old }
    ensures steps { steps.new ≤ steps.old + pieces_of range.count }
{
    fill(scratch, block);
    let mut done = 0;
    while done < range.count {
        let next = next_piece(range, done);
        match write_piece(next, scratch, drive, steps)? {
            Finish::Done => done += next.count,
            stopped => return Ok(stopped),
        }
    }
    Ok(Finish::Done)
}
