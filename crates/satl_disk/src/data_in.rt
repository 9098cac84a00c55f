// Blocks of sectors into pages.
ghost use Rattle.std.specs.Prelude.{◌≡◌, ◌+◌, ◌≤◌, ◌^◌, ◌<◌, ◌++◌, length, drop, reverse};
ghost use Rattle.satl_base.specs.Cells.{nows};
ghost use Rattle.satl_disk.specs.Sectors.{cells_of};

use crate::sectors::Sectors;
use satl_base::Pages;
use std::mem;

/// Fills the first pages with the blocks of a range: the last one first, so that each page that is put on stands before those
/// that are filled.
pub fn fill(sectors: &Sectors, lba: u32, count: u32, pages: &mut Pages)
    requires range { lba + count ≤ length sectors.now }
    requires room { count ≤ length pages.old }
    ensures { pages.new ≡ nows (cells_of sectors.now) lba count ++ drop count pages.old }
{
    // That the pages are fewer than 2^32 is what putting them on needs.
    prove!(pages.blocks() >= count);
    let mut filled = pages.split(count);
    // As a value, so that no link is written and read again behind a reference.
    let mut blank = mem::take(pages);
    for i in 0..count {
        let Some(mut page) = blank.pop_first() else {
            unreachable!();
        };
        sectors.load(lba as usize + (count - 1 - i) as usize, &mut page);
        filled.push_first(page);
    }
    *pages = filled;
}
