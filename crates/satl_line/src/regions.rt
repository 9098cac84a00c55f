// Which slots have a task near which blocks: so a task that comes is held against few of those that wait.
ghost use Rattle.std.specs.Prelude.{◌≡◌, ◌≤◌, ◌<◌, ◌==◌, ℕ, false, length, slice_index};
ghost use Rattle.std.specs.Int.{bit_at};
ghost use Rattle.satl_line.specs.declared.outline.Outline.{Outline};
ghost use Rattle.satl_line.specs.Regions.{IsNear, HasAllNear, is_broad, region_of, with_mark, without_mark};

use crate::outline::Outline;

/// How many blocks lie in one stretch, which has one region (profile).
const STRETCH: u64 = 64;

/// How many regions there are (profile).
const REGIONS: usize = 256;

/// For each region the slots whose task has the first or the last block of its span there, as the bits of a number. The slots
/// of broad tasks, which stand alone or span more than two stretches, are in a number of their own.
#[derive(Clone, Copy)]
pub(crate) struct Regions {
    near: [u64; REGIONS],
    broad: u64,
}

impl Regions {
    /// No slot.
    pub fn none() -> Regions
        ensures { length result.near ≡ 256 }
    {
        Regions {
            near: [0; REGIONS],
            broad: 0,
        }
    }

    /// Notes the slot of a task.
    pub fn note(&mut self, slot: u8, outline: &Outline)
        requires small { slot < 64 }
        requires room { length self.old.near ≡ 256 }
        ensures noted { IsNear self.new slot outline.now }
        ensures others { (other : ℕ) (o : Outline) → IsNear self.old other o → IsNear self.new other o }
        ensures room { length self.new.near ≡ 256 }
    {
        if is_broad(outline) {
            self.broad |= 1 << slot;
        } else {
            mark(&mut self.near, outline.first(), slot);
            mark(&mut self.near, outline.last(), slot);
        }
    }

    /// Forgets the slot of a task.
    pub fn forget(&mut self, slot: u8, outline: &Outline)
        requires small { slot < 64 }
        requires room { length self.old.near ≡ 256 }
        ensures others { (other : ℕ) (o : Outline) → other < 64 → (other == slot) ≡ false → IsNear self.old other o
            → IsNear self.new other o }
        ensures room { length self.new.near ≡ 256 }
    {
        self.broad &= !(1 << slot);
        unmark(&mut self.near, outline.first(), slot);
        unmark(&mut self.near, outline.last(), slot);
    }

    /// Those of some slots, the bits of a number, whose task may conflict with this one. Each of them that is noted and left out
    /// has a task that lies apart from it.
    // Where there are none, no region is looked at.
    pub fn beside(&self, outline: &Outline, among: u64) -> u64
        requires { length self.now.near ≡ 256 }
        ensures within { (slot : ℕ) → bit_at result slot ≤ bit_at among slot }
        ensures apart { HasAllNear self.now outline.now among result }
    {
        if among == 0 || is_broad(outline) {
            return among;
        }
        let near = marks(&self.near, outline.first()) | marks(&self.near, outline.last());
        among & (self.broad | near)
    }
}

fn region_of(block: u64) -> usize
    ensures value { result ≡ region_of block }
    ensures small { result < 256 }
{
    (block / STRETCH % 256) as usize
}

/// Whether the task is broad: it stands alone or spans more than two stretches.
fn is_broad(outline: &Outline) -> bool
    ensures { result ≡ is_broad outline.now }
{
    outline.is_alone() || outline.first() / STRETCH + 1 < outline.last() / STRETCH
}

/// The slots of the region of a block.
fn marks(near: &[u64], block: u64) -> u64
    requires { length near.now ≡ 256 }
    ensures { result ≡ slice_index near.now (region_of block) }
{
    near[region_of(block)]
}

/// Adds a slot to the region of a block.
fn mark(near: &mut [u64], block: u64, slot: u8)
    requires room { length near.old ≡ 256 }
    requires small { slot < 64 }
    ensures { near.new ≡ with_mark near.old block slot }
{
    near[region_of(block)] |= 1 << slot;
}

/// Takes a slot out of the region of a block.
fn unmark(near: &mut [u64], block: u64, slot: u8)
    requires room { length near.old ≡ 256 }
    requires small { slot < 64 }
    ensures { near.new ≡ without_mark near.old block slot }
{
    near[region_of(block)] &= !(1 << slot);
}
