// The slots that the sectors of the modelled drive have in the store of old blocks.
ghost use Rattle.std.specs.Prelude.{◌≡◌, ℕ, ◌<◌, ◌≢◌, None, Option, Some, IfOk, IfSome, length, replicate, slice_set};
ghost use Rattle.satl_disk.specs.Layout.{slot_at};

use crate::marks::Marks;
use satl_base::NoMemory;
use std::alloc::Global;
use std::marker::Model;

/// The slot of each sector that has one (profile): slots are taken in order from 0, and no two sectors have one slot. A clause
/// sees a list of them. To take all slots back takes the same time however many there are, as it is with `Marks`.
#[derive(Drop)]
pub struct Slots {
    // The sectors that have a slot.
    given: Marks,
    // The slot of each of them; of another sector what it had before.
    numbers: Vec<u32>,
    // How many slots are taken.
    used: u32,
}

impl Model for Slots {
    ghost use Rattle.std.specs.Prelude.{List, Option, ℕ, ◌≡◌, length};
    ghost use Rattle.satl_base.specs.Lists.{paired};
    ghost use Rattle.satl_disk.specs.Layout.{AreSlots, slot_given};

    ghost Value = { List (Option ℕ) };

    ghost view = { λ s. paired slot_given s.given s.numbers.items };

    ghost invariant = { λ s. (length s.given ≡ length s.numbers.items)
        × AreSlots s.used (paired slot_given s.given s.numbers.items) };
}

impl Slots {
    /// So many sectors without slots. The error is want of memory (profile).
    pub fn none(alloc: Global, number: u32) -> Result<Slots, NoMemory>
        ensures { IfOk result (λ slots. slots ≡ replicate number None) }
    {
        Ok(Slots {
            given: Marks::none(alloc, number)?,
            numbers: vec![in alloc; 0; number as usize]?,
            used: 0,
        })
    }

    /// The slot of a sector.
    pub fn get(&self, place: usize) -> Option<u32>
        requires { place < length self.now }
        ensures slot { result ≡ slot_at self.now place }
        ensures within { IfSome result (λ slot. slot < length self.now) }
    {
        if self.given.has(place) {
            Some(self.numbers[place])
        } else {
            None
        }
    }

    /// The slot of a sector, which takes the next one where it has none.
    pub fn take(&mut self, place: usize) -> u32
        requires { place < length self.old }
        ensures slots { self.new ≡ slice_set self.old place (Some result) }
        ensures within { result < length self.old }
        ensures alone { (other : ℕ) → other ≢ place → slot_at self.old other ≢ Some result }
    {
        if self.given.has(place) {
            return self.numbers[place];
        }
        let slot = self.used;
        self.given.mark(place);
        self.numbers[place] = slot;
        self.used += 1;
        slot
    }

    /// Takes all slots back.
    pub fn clear(&mut self)
        ensures { self.new ≡ replicate (length self.old) None }
    {
        self.given.unmark_all();
        self.used = 0;
    }
}
