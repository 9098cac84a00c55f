// What tasks do to the sectors that they go over.
ghost use Rattle.std.specs.Prelude.{◌≡◌, ◌≤◌, ◌<◌, ◌+◌, ◌*◌, ◌^◌, OnOk, IfOk, List, ℕ, length};
ghost use Rattle.satl_audit.specs.Following.{GivesBlocks, PendsBlocks, PutsBlocks};

use crate::content::Content;
use crate::sectors::Sectors;
use satl_base::{NoMemory, Range};

/// What a WRITE puts (SBC-3, WRITE commands).
#[derive(Clone, Copy, Debug, PartialEq, Eq)]
pub struct Put {
    /// The sectors that it goes over.
    pub range: Range,
    /// Where its blocks stand in the input, in bytes.
    pub at: usize,
    /// Whether it goes through the write cache.
    pub cached: bool,
}

/// The blocks of a WRITE are put (SBC-3, WRITE commands).
pub fn put_blocks(sectors: &mut Sectors, put: &Put) -> Result<(), NoMemory>
    requires within { put.now.range.lba + put.now.range.count ≤ length sectors.old }
    requires small { put.now.range.lba + put.now.range.count < 2 ^ 64 }
    requires room { put.now.at + 512 * put.now.range.count < 2 ^ 64 }
    ensures length { length sectors.new ≡ length sectors.old }
    ensures puts { (input : List ℕ) → OnOk result (PutsBlocks input put.now sectors.old sectors.new) }
{
    for i in 0..put.range.count as usize {
        let content = Content::Input(put.at + 512 * i);
        sectors.put(put.range.lba as usize + i, content, put.cached)?;
    }
    Ok(())
}

/// The blocks of a WRITE may be left by a loss of power (SBC-3 4.15).
pub fn pend_blocks(sectors: &mut Sectors, range: Range, at: usize) -> Result<(), NoMemory>
    requires within { range.lba + range.count ≤ length sectors.old }
    requires small { range.lba + range.count < 2 ^ 64 }
    requires room { at + 512 * range.count < 2 ^ 64 }
    ensures length { length sectors.new ≡ length sectors.old }
    ensures pends { (input : List ℕ) → OnOk result (PendsBlocks input range at sectors.old sectors.new) }
{
    for i in 0..range.count as usize {
        sectors.pending(range.lba as usize + i, Content::Input(at + 512 * i))?;
    }
    Ok(())
}

/// A READ of a range gave these bytes: whether each sector may have them (SBC-3, READ commands).
pub fn show_blocks(
    sectors: &mut Sectors,
    range: Range,
    input: &[u8],
    given: &[u8],
) -> Result<bool, NoMemory>
    requires within { range.lba + range.count ≤ length sectors.old }
    requires small { range.lba + range.count < 2 ^ 64 }
    requires size { length given.now ≡ 512 * range.count }
    ensures length { length sectors.new ≡ length sectors.old }
    ensures gives { IfOk result (GivesBlocks input.now range.lba given.now sectors.old sectors.new) }
{
    for i in 0..range.count as usize {
        let block = &given[512 * i..512 * i + 512];
        if !sectors.show(range.lba as usize + i, input, block)? {
            return Ok(false);
        }
    }
    Ok(true)
}
