// VERIFY: a range is read for its flaws, or compared.
ghost use Rattle.std.specs.Prelude.{◌≡◌, ◌≤◌, ◌+◌, ◌↔◌, [], None, IfOk, OnErr, IsTrue, length, take, drop};
ghost use Rattle.satl_base.specs.Limits.{piece};
ghost use Rattle.satl_barrier.specs.Finishing.{ComparesAs, FinishesAs, IsReached, IsVerified, pieces_of, told_flaw, verifying_range};
ghost use Rattle.satl_base.specs.declared.bench.Which.TheVariants as flaws;
ghost use Rattle.satl_base.specs.Cells.{first_flaw, nows};
ghost use Rattle.satl_barrier.specs.declared.finishing.Finish.TheVariants as finishes;
ghost use Rattle.satl_barrier.specs.Commands.{IsCutShort};
ghost use Rattle.satl_barrier.specs.Leaving.{IsFree, IsLostIn, Stays};

use crate::commands::run;
use crate::finishing::{Finish, next_piece};
use satl_base::{Blocks, Pages, Range, Steps};
use satl_drive::{Drive, LinkDown};
use satl_regs::{AtaCommand, How, Taskfile};
use std::sync::ledger::Ledger;

/// How a range compares with the data-out of a VERIFY (SBC-3, VERIFY commands, BYTCHK).
#[derive(Clone, Copy, Debug, PartialEq, Eq)]
pub enum Comparison {
    /// All blocks are those of the data-out.
    Same,
    /// Some block is another.
    Differs,
    /// A read flaw stopped it: the lowest flawed address of the range.
    Flawed { lba: u64 },
    /// A CRC error stopped it.
    Garbled,
}

/// Reads a range of 1 to 65,536 blocks for its flaws: the lowest address with one, if any. `LinkDown`: the link was lost
/// (SAT-3, VERIFY: READ VERIFY SECTOR(S) EXT).
pub fn verify<D: Drive<L>, L: Ledger>(
    range: Range,
    drive: &mut D,
    steps: &mut Steps<L>,
) -> Result<Option<u64>, LinkDown>
    requires free { IsFree (D.state drive.old) }
    requires reached { IsReached range (D.state drive.old) }
    ensures verified { IfOk result (λ flaw. IsVerified range flaw (D.state drive.old) (D.state drive.new)) }
    ensures lost { OnErr result (IsLostIn [] (D.state drive.old) (D.state drive.new)) }
    ensures stays { Stays (D.state drive.old) (D.state drive.new) }
    ensures step { steps.new ≡ steps.old + 1 }
{
    let command = AtaCommand::Verify {
        ext: true,
        lba: range.lba,
        sectors: range.count,
    };
    let ended = run(drive, &command, &mut Pages::default(), steps)?;
    Ok(told_flaw(&ended))
}

/// The flawed address that a taskfile tells of a read for flaws: that of a bad end (ACS-3, error outputs).
fn told_flaw(ended: &Taskfile) -> Option<u64>
    ensures { result ≡ told_flaw ended.now }
{
    if ended.is_bad() {
        Some(ended.lba)
    } else {
        None
    }
}

/// Reads a range into the first of the pages, as many as it has blocks (SAT-3, VERIFY with BYTCHK: READ DMA EXT).
fn read_piece<D: Drive<L>, L: Ledger>(
    range: Range,
    pages: &mut Pages,
    drive: &mut D,
    steps: &mut Steps<L>,
) -> Result<Finish, LinkDown>
    requires free { IsFree (D.state drive.old) }
    requires reached { IsReached range (D.state drive.old) }
    requires room { range.count ≤ length pages.old }
    ensures finishes { IfOk result (λ it. FinishesAs (verifying_range range) range.count it (D.state drive.old)
        (D.state drive.new)) }
    ensures blocks { IfOk result (λ it. it ≡ finishes.Done
        → take range.count pages.new ≡ nows (D.state drive.old).cells range.lba range.count) }
    ensures lost { OnErr result (IsCutShort [] (D.state drive.old) (D.state drive.new)) }
    ensures stays { Stays (D.state drive.old) (D.state drive.new) }
    ensures size { length pages.new ≡ length pages.old }
    ensures step { steps.new ≡ steps.old + 1 }
{
    let command = AtaCommand::Read {
        how: How::DmaExt,
        lba: range.lba,
        sectors: range.count,
    };
    let ended = run(drive, &command, pages, steps)?;
    Ok(Finish::from(&ended))
}

/// Takes as many of the wanted blocks, up to the first that is not the same as that of the pages: whether all are the same.
fn takes_same(wanted: &mut Blocks<'_>, pages: &Pages, count: u32) -> bool
    requires more { count ≤ length wanted.old }
    requires room { count ≤ length pages.now }
    ensures same { IsTrue result ↔ (take count pages.now ≡ take count wanted.old) }
    ensures rest { IsTrue result → wanted.new ≡ drop count wanted.old }
{
    let mut read = pages.iter();
    for _ in 0..count {
        if wanted.next() != read.next() {
            return false;
        }
    }
    true
}

/// Compares a range without flaws, in pieces of 64 blocks, up to the first piece that differs.
fn compare_pieces<D: Drive<L>, L: Ledger>(
    range: Range,
    blocks: &Pages,
    scratch: &mut Pages,
    drive: &mut D,
    steps: &mut Steps<L>,
) -> Result<Comparison, LinkDown>
    requires free { IsFree (D.state drive.old) }
    requires reached { IsReached range (D.state drive.old) }
    requires clean { first_flaw flaws.Read (D.state drive.old).cells range.lba range.count ≡ None }
    requires all { length blocks.now ≡ range.count }
    requires room { piece ≤ length scratch.old }
    ensures compares { IfOk result (λ it. ComparesAs range blocks.now it (D.state drive.old) (D.state drive.new)) }
    ensures lost { OnErr result (IsLostIn [] (D.state drive.old) (D.state drive.new)) }
    ensures stays { Stays (D.state drive.old) (D.state drive.new) }
    ensures size { length scratch.new ≡ length scratch.old }
    ensures steps { steps.new ≤ steps.old + pieces_of range.count }
{
    let mut wanted = blocks.iter();
    let mut done = 0;
    while done < range.count {
        let next = next_piece(range, done);
        match read_piece(next, scratch, drive, steps)? {
            Finish::Done => {}
            Finish::Flawed { lba } => return Ok(Comparison::Flawed { lba }),
            Finish::Garbled => return Ok(Comparison::Garbled),
        }
        if !takes_same(&mut wanted, scratch, next.count) {
            return Ok(Comparison::Differs);
        }
        done += next.count;
    }
    Ok(Comparison::Same)
}

/// Compares a range of 1 to 65,536 blocks with as many pages, first read for its flaws and then in pieces of 64 blocks, each by
/// one call. The scratch pages, at least 64, are left with whatever was read. `LinkDown`: the link was lost (SAT-3, VERIFY with
/// BYTCHK: READ VERIFY SECTOR(S) EXT and READ DMA EXT).
pub fn compare<D: Drive<L>, L: Ledger>(
    range: Range,
    blocks: &Pages,
    scratch: &mut Pages,
    drive: &mut D,
    steps: &mut Steps<L>,
) -> Result<Comparison, LinkDown>
    requires free { IsFree (D.state drive.old) }
    requires reached { IsReached range (D.state drive.old) }
    requires all { length blocks.now ≡ range.count }
    requires room { piece ≤ length scratch.old }
    ensures compares { IfOk result (λ it. ComparesAs range blocks.now it (D.state drive.old) (D.state drive.new)) }
    ensures lost { OnErr result (IsLostIn [] (D.state drive.old) (D.state drive.new)) }
    ensures stays { Stays (D.state drive.old) (D.state drive.new) }
    ensures size { length scratch.new ≡ length scratch.old }
    ensures steps { steps.new ≤ steps.old + 1 + pieces_of range.count }
{
    if let Some(lba) = verify(range, drive, steps)? {
        return Ok(Comparison::Flawed { lba });
    }
    compare_pieces(range, blocks, scratch, drive, steps)
}
