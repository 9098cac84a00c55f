// The blocks that a loss of power may bring back.
ghost use Rattle.std.specs.Prelude.{◌≡◌, ◌<◌, None, Some, IfOk, length, replicate, slice_set};
ghost use Rattle.std.specs.Option.{option_copied};
ghost use Rattle.satl_disk.specs.Sectors.{written_stable};
ghost use Rattle.satl_base.specs.declared.block.Block.{Block};
ghost use Rattle.satl_disk.specs.Layout.{stable_at};

use crate::blocks::Blocks;
use crate::marks::Marks;
use crate::slots::Slots;
use satl_base::{Block, NoMemory};
use std::alloc::Global;
use std::marker::Model;

/// The block of each dirty sector that a loss of power may bring back (profile). A clause sees a list with one, or none, for
/// each sector. The memory for a block a sector is taken when they are made, and touched as slots are first used.
#[derive(Drop)]
pub struct Stables {
    // Apart from the slots: a sector that gets clean by itself keeps its slot until the next flush.
    dirty: Marks,
    slots: Slots,
    // A block for each slot: those that are written between two flushes take the first ones again and again, which stay in a
    // cache.
    kept: Blocks,
}

impl Model for Stables {
    ghost use Rattle.std.specs.Prelude.{List, Option, ◌≡◌, length};
    ghost use Rattle.std.specs.List.{AllZip};
    ghost use Rattle.satl_base.specs.declared.block.Block.{Block};
    ghost use Rattle.satl_base.specs.Lists.{paired};
    ghost use Rattle.satl_disk.specs.Layout.{HasSlot, stable_of};

    ghost Value = { List (Option Block) };

    ghost view = { λ s. paired (stable_of s.kept) s.dirty s.slots };

    ghost invariant = { λ s. AllZip HasSlot s.dirty s.slots × (length s.kept ≡ length s.slots) };
}

impl Stables {
    /// None for any of so many sectors. The error is want of memory (profile).
    pub fn none(alloc: Global, number: u32) -> Result<Stables, NoMemory>
        ensures { IfOk result (λ stables. stables ≡ replicate number None) }
    {
        Ok(Stables {
            dirty: Marks::none(alloc, number)?,
            slots: Slots::none(alloc, number)?,
            kept: Blocks::zeros(alloc, number as usize)?,
        })
    }

    /// The block that a loss of power may bring back, where the sector is dirty.
    pub fn get(&self, place: usize) -> Option<&Block>
        requires { place < length self.now }
        ensures { option_copied result ≡ stable_at self.now place }
    {
        if !self.dirty.has(place) {
            return None;
        }
        let slot = self.slots.get(place)?;
        Some(self.kept.at(slot as usize))
    }

    /// A sector is written over an old block, through the cache or past it.
    pub fn write(&mut self, place: usize, old: &Block, cached: bool)
        requires { place < length self.old }
        ensures { self.new ≡ slice_set self.old place (written_stable cached old.now (stable_at self.old place)) }
    {
        if !cached {
            self.clear(place);
        } else if !self.dirty.has(place) {
            self.keep(place, old);
        }
    }

    /// A clean sector gets dirty: its old block is kept.
    fn keep(&mut self, place: usize, old: &Block)
        requires { place < length self.old }
        ensures { self.new ≡ slice_set self.old place (Some old.now) }
    {
        let slot = self.slots.take(place);
        self.kept.set(slot as usize, old);
        self.dirty.mark(place);
    }

    /// A sector gets clean.
    pub fn clear(&mut self, place: usize)
        requires { place < length self.old }
        ensures { self.new ≡ slice_set self.old place None }
    {
        self.dirty.unmark(place);
    }

    /// All sectors get clean.
    pub fn clear_all(&mut self)
        ensures { self.new ≡ replicate (length self.old) None }
    {
        self.dirty.unmark_all();
        self.slots.clear();
    }
}
