// Commands that go over the medium alone on the drive: VERIFY, WRITE SAME and trims that are not queued.
ghost use Rattle.std.specs.Prelude.{◌≡◌, ◌≤◌, ◌+◌, [], IfOk, OnErr, false, length, min, get_or};
ghost use Rattle.satl_base.specs.Blocks.{no_block};
ghost use Rattle.satl_base.specs.Limits.{most_moved, piece};
ghost use Rattle.satl_barrier.specs.Finishing.{IsReached, pieces_of, trimming_ranges, writing_same};
ghost use Rattle.satl_barrier.specs.Leaving.{IsFree, IsLostIn, Stays};
ghost use Rattle.satl_direct.specs.Senses;
ghost use Rattle.satl_core.specs.Medium as medium;
ghost use Rattle.satl_core.specs.Medium.{HasCompared, HasFinished, HasVerified, TakesTrim};

use crate::turning::Ending;
use satl_asks::miscompare;
use satl_barrier::{Comparison, Finish, compare, trim, verify, write_same};
use satl_base::{PIECE, Pages, Range, Steps};
use satl_drive::{Drive, LinkDown};
use satl_pages::Pool;
use satl_pass::error_sense_at;
use satl_regs::{ICRC_ABRT, UNC};
use std::sync::ledger::Ledger;

/// A VERIFY without comparison of a range of 1 to 65,536 blocks (SBC-3, VERIFY commands).
pub fn verify_range<D: Drive<L>, L: Ledger>(
    range: Range,
    drive: &mut D,
    steps: &mut Steps<L>,
) -> Result<Ending, LinkDown>
    requires free { IsFree (D.state drive.old) }
    requires reached { IsReached range (D.state drive.old) }
    ensures ends { IfOk result (λ ending. HasVerified range (D.state drive.old) ending (D.state drive.new)) }
    ensures lost { OnErr result (IsLostIn [] (D.state drive.old) (D.state drive.new)) }
    ensures stays { Stays (D.state drive.old) (D.state drive.new) }
    ensures step { steps.new ≡ steps.old + 1 }
{
    let flaw = verify(range, drive, steps)?;
    Ok(verified(flaw))
}

/// A VERIFY that compares a range of 1 to 4,096 blocks with as many pages (SBC-3, VERIFY commands, BYTCHK).
pub fn compare_range<D: Drive<L>, L: Ledger>(
    range: Range,
    blocks: &Pages,
    pool: &mut Pool,
    drive: &mut D,
    steps: &mut Steps<L>,
) -> Result<Ending, LinkDown>
    requires free { IsFree (D.state drive.old) }
    requires reached { IsReached range (D.state drive.old) }
    requires all { length blocks.now ≡ range.count }
    requires few { range.count ≤ most_moved }
    requires room { piece ≤ pool.old.free }
    ensures ends { IfOk result (λ ending. HasCompared range blocks.now (D.state drive.old) ending (D.state drive.new)) }
    ensures lost { OnErr result (IsLostIn [] (D.state drive.old) (D.state drive.new)) }
    ensures stays { Stays (D.state drive.old) (D.state drive.new) }
    ensures pool { pool.new ≡ pool.old }
    ensures steps { steps.new ≤ steps.old + 1 + pieces_of range.count }
{
    let mut scratch = scratch_pages(pool);
    let comparison = compare(range, blocks, &mut scratch, drive, steps);
    pool.give(scratch);
    Ok(compared(comparison?))
}

/// A WRITE SAME of the first page to a range of 1 to 65,536 blocks (SBC-3, WRITE SAME commands).
pub fn write_range<D: Drive<L>, L: Ledger>(
    range: Range,
    body: &Pages,
    pool: &mut Pool,
    drive: &mut D,
    steps: &mut Steps<L>,
) -> Result<Ending, LinkDown>
    requires free { IsFree (D.state drive.old) }
    requires reached { IsReached range (D.state drive.old) }
    requires block { 1 ≤ length body.now }
    requires room { piece ≤ pool.old.free }
    ensures ends { IfOk result (λ ending. HasFinished (writing_same range (get_or body.now 0 no_block) (D.state drive.old))
        (min piece range.count) (D.state drive.old) ending (D.state drive.new)) }
    ensures lost { OnErr result (IsLostIn (writing_same range (get_or body.now 0 no_block) (D.state drive.old)).writes
        (D.state drive.old) (D.state drive.new)) }
    ensures stays { Stays (D.state drive.old) (D.state drive.new) }
    ensures pool { pool.new ≡ pool.old }
    ensures steps { steps.new ≤ steps.old + pieces_of range.count }
{
    let mut scratch = scratch_pages(pool);
    let finish = write_same(range, body.block(0), &mut scratch, drive, steps);
    pool.give(scratch);
    Ok(finished(finish?))
}

/// A trim of ranges that one block of entries can name (SBC-3, UNMAP and WRITE SAME commands).
pub fn trim_ranges<D: Drive<L>, L: Ledger>(
    ranges: &[Range],
    pool: &mut Pool,
    drive: &mut D,
    steps: &mut Steps<L>,
) -> Result<Ending, LinkDown>
    requires free { IsFree (D.state drive.old) }
    requires takes { TakesTrim ranges.now (D.state drive.old) }
    requires room { piece ≤ pool.old.free }
    ensures ends { IfOk result (λ ending. HasFinished (trimming_ranges ranges.now (D.state drive.old)) 0 (D.state drive.old)
        ending (D.state drive.new)) }
    ensures lost { OnErr result (IsLostIn (trimming_ranges ranges.now (D.state drive.old)).writes (D.state drive.old)
        (D.state drive.new)) }
    ensures stays { Stays (D.state drive.old) (D.state drive.new) }
    ensures pool { pool.new ≡ pool.old }
    ensures step { steps.new ≡ steps.old + 1 }
{
    let mut scratch = scratch_pages(pool);
    let finish = trim(ranges, &mut scratch, drive, steps);
    pool.give(scratch);
    Ok(finished(finish?))
}

/// Pages for the pieces of a command, with whatever they hold.
fn scratch_pages(pool: &mut Pool) -> Pages
    requires { piece ≤ pool.old.free }
    ensures size { length result ≡ piece }
    ensures free { pool.new.free + piece ≡ pool.old.free }
    ensures out { pool.new.out ≡ pool.old.out + piece }
{
    let Some(pages) = pool.take(PIECE) else {
        unreachable!();
    };
    pages
}

/// How a VERIFY without comparison ends: with GOOD, or at the lowest flawed address (SBC-3, VERIFY commands).
fn verified(flaw: Option<u64>) -> Ending
    ensures { result ≡ medium.ending_of_verify flaw }
{
    match flaw {
        None => Ending::Good,
        Some(lba) => read_flaw(lba),
    }
}

/// How a VERIFY with comparison ends; MISCOMPARE DURING VERIFY OPERATION where the blocks differ (SBC-3, VERIFY commands;
/// SPC-4 4.5.6).
fn compared(comparison: Comparison) -> Ending
    ensures { result ≡ medium.ending_of_comparison comparison }
{
    match comparison {
        Comparison::Same => Ending::Good,
        Comparison::Differs => Ending::Check(miscompare()),
        Comparison::Flawed { lba } => read_flaw(lba),
        Comparison::Garbled => garbled(),
    }
}

/// How a WRITE SAME or a trim ends: with GOOD, at the lowest flawed address, or by a CRC error (SAT-3 11).
fn finished(finish: Finish) -> Ending
    ensures { result ≡ medium.ending_of_finish finish }
{
    match finish {
        Finish::Done => Ending::Good,
        Finish::Flawed { lba } => write_flaw(lba),
        Finish::Garbled => garbled(),
    }
}

/// A MEDIUM ERROR at an address that could not be read (SAT-3 11).
fn read_flaw(lba: u64) -> Ending
    ensures { result ≡ Ending.Check (Senses.read_error lba) }
{
    Ending::Check(error_sense_at(false, UNC, lba))
}

/// A MEDIUM ERROR at an address that could not be written (SAT-3 11).
fn write_flaw(lba: u64) -> Ending
    ensures { result ≡ Ending.Check (Senses.write_error lba) }
{
    Ending::Check(error_sense_at(true, UNC, lba))
}

/// A CRC error (SAT-3 11).
fn garbled() -> Ending
    ensures { result ≡ Ending.Check Senses.crc_error }
{
    Ending::Check(error_sense_at(false, ICRC_ABRT, 0))
}
