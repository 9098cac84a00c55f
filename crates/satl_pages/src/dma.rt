// The slots through which a drive reaches pages.
ghost use Rattle.std.specs.Prelude.{◌≡◌, Some, None, length, replicate, slice_get, slice_set, List};
ghost use Rattle.std.specs.Option.{option_copied};
ghost use Rattle.satl_base.specs.declared.block.Block.{Block};
ghost use Rattle.satl_pages.specs.Slots.{pages_at};

use crate::stock::fit;
use arrayvec::ArrayVec;
use satl_base::{Pages, QUEUE_DEPTH};
use std::marker::Model;
use std::mem;

/// A slot for each of the 32 tags of a drive (ACS-3, NCQ feature set; the slots are the profile's). Clauses see the
/// list of the slots, each empty or with its blocks.
#[derive(Drop)]
pub struct Dma {
    slots: ArrayVec<Option<Pages>, QUEUE_DEPTH>,
    // Pages beside those in the slots, which were in use not long ago, as many as were asked for last.
    recent: Pages,
    // More of them, which were too many for who asked.
    spare: Pages,
}

impl Model for Dma {
    ghost use Rattle.std.specs.Prelude.{List, Option, ◌+◌, ◌<◌, ◌^◌, length};
    ghost use Rattle.satl_base.specs.declared.pages.Pages.{Pages};

    ghost Value = { List (Option Pages) };

    ghost view = { λ d. d.slots.items };

    ghost invariant = { λ d. length d.recent + length d.spare < 2 ^ 32 };
}

impl Default for Dma {
    ghost is_default = { λ dma. dma ≡ replicate 32 None };

    fn default() -> Dma {
        Dma::new()
    }
}

impl Dma {
    ghost use Rattle.std.specs.Borrow.{sem};
    ghost use Rattle.std.specs.Option.{option_copied_mut};
    ghost use Rattle.satl_pages.specs.Slots.{LendsPages};

    /// 32 slots, all of them empty. It takes no memory (profile).
    pub fn new() -> Dma
        ensures { result ≡ replicate 32 None }
    {
        Dma::keeping(Pages::default())
    }

    /// 32 slots, all of them empty, with pages beside them, which are exchanged for as many. It takes no memory (profile).
    pub fn keeping(recent: Pages) -> Dma
        ensures { result ≡ replicate 32 None }
    {
        let mut slots = ArrayVec::new();
        for _ in 0..32u32 {
            slots.push(None);
        }
        Dma {
            slots,
            recent,
            spare: Pages::default(),
        }
    }

    /// Gives as many pages as it takes, with whatever they hold: those beside the slots where these suffice, and keeps the
    /// ones that it takes in their place (profile).
    // It serves speed alone: a READ is filled into pages of an earlier reply, which a cache still has, and not into those that
    // its task has had since it came.
    pub fn exchange(&mut self, pages: Pages) -> Pages
        ensures as_many { length result ≡ length pages }
        ensures same { self.new ≡ self.old }
    {
        if pages.blocks() != self.recent.blocks() {
            if pages.blocks() == 0 || self.recent.blocks() + self.spare.blocks() < pages.blocks() {
                return pages;
            }
            fit(&mut self.recent, pages.blocks(), &mut self.spare);
        }
        mem::replace(&mut self.recent, pages)
    }

    /// Puts pages into the slot of a tag, which is empty (profile).
    pub fn put(&mut self, tag: u8, pages: Pages)
        requires empty { slice_get self.old tag ≡ Some None }
        ensures { self.new ≡ slice_set self.old tag (Some pages) }
    {
        self.slots[tag as usize] = Some(pages);
    }

    /// Takes the pages out of the slot of a tag, which is filled (profile).
    pub fn take(&mut self, tag: u8) -> Pages
        requires filled { (blocks : List Block) × (pages_at self.old tag ≡ Some blocks) }
        ensures pages { pages_at self.old tag ≡ Some result }
        ensures emptied { self.new ≡ slice_set self.old tag None }
    {
        match self.slots[tag as usize].take() {
            Some(pages) => pages,
            None => unreachable!(),
        }
    }

    /// The pages in the slot of a tag. None exactly where it is empty, or where there is no such slot (profile).
    pub fn pages(&self, tag: u8) -> Option<&Pages>
        ensures { option_copied result ≡ pages_at self.now tag }
    {
        self.slots.get(tag as usize)?.as_ref()
    }

    /// The pages in the slot of a tag, for writing. None exactly where it is empty, or where there is no such slot
    /// (profile).
    pub fn pages_mut(&mut self, tag: u8) -> Option<&mut Pages>
        ensures* writes_back { sem 𝓛 (LendsPages self.entry tag result) }
        ensures value { option_copied_mut result ≡ pages_at self.old tag }
    {
        match self.slots.get_mut(tag as usize) {
            Some(slot) => slot.as_mut(),
            None => None,
        }
    }
}

#[cfg(test)]
mod tests {
    use super::*;
    use satl_base::Block;
    use std::test::Fail;

    #[test]
    fn last_slot_and_none_behind_it(rt: HostRuntime) -> Result<(), Fail> {
        let mut dma = Dma::new();
        assert!(rt; dma.pages(31).is_none() && dma.pages_mut(32).is_none());
        dma.put(31, Pages::zeroed(rt.alloc(), 3)?);
        if let Some(pages) = dma.pages_mut(31) {
            *pages = Pages::zeroed(rt.alloc(), 2)?;
        }
        assert_eq!(rt; dma.pages(31).map(|pages| pages.blocks()), Some(2));
        assert_eq!(rt; dma.take(31).blocks(), 2);
        assert!(rt; dma.pages(31).is_none());
        Ok(())
    }

    #[test]
    fn as_many_pages_are_exchanged(rt: HostRuntime) -> Result<(), Fail> {
        let mut two = Pages::zeroed(rt.alloc(), 2)?;
        two.set_block(1, &Block { bytes: [7; 512] });
        let mut dma = Dma::keeping(two);
        assert_eq!(rt; dma.exchange(Pages::zeroed(rt.alloc(), 3)?).blocks(), 3);
        let other = dma.exchange(Pages::zeroed(rt.alloc(), 2)?);
        assert_eq!(rt; other.blocks(), 2);
        assert_eq!(rt; other.block(1).bytes[0], 7);
        assert_eq!(rt; dma.exchange(other).block(1).bytes[0], 0);
        Ok(())
    }

    #[test]
    fn some_of_many_and_all_again(rt: HostRuntime) -> Result<(), Fail> {
        let mut dma = Dma::keeping(Pages::zeroed(rt.alloc(), 5)?);
        let mut two = Pages::zeroed(rt.alloc(), 2)?;
        two.set_block(0, &Block { bytes: [7; 512] });
        let warm = dma.exchange(two);
        assert_eq!(rt; warm.blocks(), 2);
        assert_eq!(rt; dma.exchange(warm).block(0).bytes[0], 7);
        // Those that were too many for two are there still.
        let five = dma.exchange(Pages::zeroed(rt.alloc(), 5)?);
        assert_eq!(rt; five.blocks(), 5);
        assert!(rt; dma.exchange(Pages::default()).blocks() == 0);
        assert_eq!(rt; dma.exchange(five).blocks(), 5);
        Ok(())
    }
}
