// All sectors.
ghost use Rattle.std.specs.Prelude.{◌≡◌, ◌≤◌, ◌<◌, ◌==◌, OnOk, OnErr, IfOk, length, map, replicate, drop, if◌then◌else◌, nat_lt, slice_set};
ghost use Rattle.satl_audit.specs.Kept.{ShowsAt, blank_keeping, kept_at, kept_pending, kept_power, kept_put, kept_settle};
ghost use Rattle.satl_audit.specs.Sweeps.{Shows, after_first, caught_up, has_power};

use crate::content::Content;
use crate::kept::Kept;
use satl_base::NoMemory;
use std::alloc::Global;
use std::marker::Model;

/// What is done to all sectors at once (SBC-3 4.15).
#[derive(Clone, Copy, Debug, PartialEq, Eq)]
pub enum Sweep {
    /// All is written back.
    Settled,
    /// The power is lost.
    Powered,
}

/// A sector, and how many sweeps it has seen.
#[derive(Drop)]
struct Stamped {
    kept: Kept,
    seen: usize,
}

/// Writes a sector back, where that came first.
fn settle_first(kept: &mut Kept, first: Option<Sweep>)
    ensures { kept.new ≡ after_first first kept.old }
{
    match first {
        Some(Sweep::Settled) => kept.settle(),
        Some(Sweep::Powered) | None => {}
    }
}

/// The power is lost at a sector, or it is not.
fn power_if(kept: &mut Kept, lost: bool) -> Result<(), NoMemory>
    ensures { OnOk result (kept.new ≡ (if lost then kept_power kept.old else kept.old)) }
{
    if lost {
        kept.power()?;
    }
    Ok(())
}

impl Stamped {
    /// Catches up with the sweeps that it has missed. `swept_at_loss` is how many there were once the power was last lost, that
    /// loss included; 0 before any.
    fn catch_up(&mut self, sweeps: &[Sweep], swept_at_loss: usize) -> Result<(), NoMemory>
        requires seen { self.old.seen ≤ length sweeps.now }
        requires at_loss { has_power (drop self.old.seen sweeps.now) ≡ nat_lt self.old.seen swept_at_loss }
        ensures kept { OnOk result (self.new.kept ≡ caught_up (drop self.old.seen sweeps.now) self.old.kept) }
        ensures seen { OnOk result (self.new.seen ≡ length sweeps.now) }
        ensures within { self.new.seen ≤ length sweeps.now }
    {
        let first = sweeps.get(self.seen).copied();
        settle_first(&mut self.kept, first);
        let lost = self.seen < swept_at_loss;
        power_if(&mut self.kept, lost)?;
        self.seen = sweeps.len();
        Ok(())
    }

    /// Catches up, and a block is put.
    fn put(
        &mut self,
        sweeps: &[Sweep],
        swept_at_loss: usize,
        content: Content,
        cached: bool,
    ) -> Result<(), NoMemory>
        requires seen { self.old.seen ≤ length sweeps.now }
        requires at_loss { has_power (drop self.old.seen sweeps.now) ≡ nat_lt self.old.seen swept_at_loss }
        ensures kept { OnOk result (self.new.kept
            ≡ kept_put content cached (caught_up (drop self.old.seen sweeps.now) self.old.kept)) }
        ensures seen { OnOk result (self.new.seen ≡ length sweeps.now) }
        ensures within { self.new.seen ≤ length sweeps.now }
    {
        self.catch_up(sweeps, swept_at_loss)?;
        self.kept.put(content, cached)
    }

    /// Catches up, and the power is lost where a block may have been put before.
    fn pending(
        &mut self,
        sweeps: &[Sweep],
        swept_at_loss: usize,
        content: Content,
    ) -> Result<(), NoMemory>
        requires seen { self.old.seen ≤ length sweeps.now }
        requires at_loss { has_power (drop self.old.seen sweeps.now) ≡ nat_lt self.old.seen swept_at_loss }
        ensures kept { OnOk result (self.new.kept ≡ kept_pending content (caught_up (drop self.old.seen sweeps.now) self.old.kept)) }
        ensures seen { OnOk result (self.new.seen ≡ length sweeps.now) }
        ensures within { self.new.seen ≤ length sweeps.now }
    {
        self.catch_up(sweeps, swept_at_loss)?;
        self.kept.pending(content)
    }

    /// Catches up, and a READ gave 512 bytes: whether the sector may have them.
    fn show(
        &mut self,
        sweeps: &[Sweep],
        swept_at_loss: usize,
        input: &[u8],
        given: &[u8],
    ) -> Result<bool, NoMemory>
        requires size { length given.now ≡ 512 }
        requires seen { self.old.seen ≤ length sweeps.now }
        requires at_loss { has_power (drop self.old.seen sweeps.now) ≡ nat_lt self.old.seen swept_at_loss }
        ensures shows { IfOk result (Shows input.now given.now
            (caught_up (drop self.old.seen sweeps.now) self.old.kept) self.new.kept) }
        ensures seen { OnOk result (self.new.seen ≡ length sweeps.now) }
        ensures within { self.new.seen ≤ length sweeps.now }
    {
        self.catch_up(sweeps, swept_at_loss)?;
        Ok(self.kept.show(input, given))
    }
}

/// All sectors (profile). A clause sees what is kept of each. A sweep costs the same whatever their number: a sector catches
/// up when it is touched.
#[derive(Drop)]
pub struct Sectors {
    stamped: Vec<Stamped>,
    sweeps: Vec<Sweep>,
    // How many sweeps there were once the power was last lost, that loss included; 0 before any.
    swept_at_loss: usize,
}

impl Model for Sectors {
    ghost use Rattle.std.specs.Prelude.{ℕ, List, ◌≡◌, ◌≤◌, map, drop, length, nat_lt};
    ghost use Rattle.std.specs.List.{AllByRecursion};
    ghost use Rattle.satl_audit.specs.Kept.{Keeping};
    ghost use Rattle.satl_audit.specs.Sweeps.{after_first, caught_up, has_power};

    ghost Value = { List Keeping };

    ghost view = { λ s. map (λ t. caught_up (drop t.seen s.sweeps.items) t.kept) s.stamped.items };

    ghost invariant = { λ s. AllByRecursion (λ t. t.seen ≤ length s.sweeps.items) s.stamped.items
        × ((n : ℕ) → has_power (drop n s.sweeps.items) ≡ nat_lt n s.swept_at_loss) };
}

impl Sectors {
    /// As many sectors of zeros that are written back (profile). `NoMemory` where there is none for them.
    pub fn new(alloc: Global, count: usize) -> Result<Sectors, NoMemory>
        ensures { IfOk result (λ sectors. sectors ≡ replicate count blank_keeping) }
    {
        let mut stamped = Vec::new(alloc);
        for _ in 0..count {
            stamped.push(Stamped {
                kept: Kept::blank(alloc),
                seen: 0,
            })?;
        }
        let sweeps = Vec::new(alloc);
        Ok(Sectors {
            stamped,
            sweeps,
            swept_at_loss: 0,
        })
    }

    /// All is written back (SBC-3, SYNCHRONIZE CACHE). `NoMemory` leaves the sectors as they were.
    pub fn settle(&mut self) -> Result<(), NoMemory>
        ensures settled { OnOk result (self.new ≡ map kept_settle self.old) }
        ensures stays { OnErr result (self.new ≡ self.old) }
    {
        self.sweeps.push(Sweep::Settled)?;
        Ok(())
    }

    /// The power is lost (SBC-3 4.15). `NoMemory` leaves the sectors as they were.
    pub fn power(&mut self) -> Result<(), NoMemory>
        ensures lost { OnOk result (self.new ≡ map kept_power self.old) }
        ensures stays { OnErr result (self.new ≡ self.old) }
    {
        self.sweeps.push(Sweep::Powered)?;
        self.swept_at_loss = self.sweeps.len();
        Ok(())
    }

    /// How many there are (profile).
    pub fn len(&self) -> usize
        ensures { result ≡ length self.now }
    {
        self.stamped.len()
    }

    /// Whether there is none (profile).
    pub fn is_empty(&self) -> bool
        ensures { result ≡ (length self.now == 0) }
    {
        self.stamped.is_empty()
    }

    /// A block is put at an address, through the cache or past it (SBC-3 4.15). `NoMemory` leaves sectors of which nothing is
    /// said.
    pub fn put(&mut self, lba: usize, content: Content, cached: bool) -> Result<(), NoMemory>
        requires { lba < length self.old }
        ensures length { length self.new ≡ length self.old }
        ensures put { OnOk result (self.new ≡ slice_set self.old lba (kept_put content cached (kept_at self.old lba))) }
    {
        self.stamped[lba].put(&self.sweeps, self.swept_at_loss, content, cached)
    }

    /// The power is lost at an address where this block may have been put before (SBC-3 4.15). `NoMemory` leaves sectors of
    /// which nothing is said.
    pub fn pending(&mut self, lba: usize, content: Content) -> Result<(), NoMemory>
        requires { lba < length self.old }
        ensures length { length self.new ≡ length self.old }
        ensures pending { OnOk result (self.new ≡ slice_set self.old lba (kept_pending content (kept_at self.old lba))) }
    {
        self.stamped[lba].pending(&self.sweeps, self.swept_at_loss, content)
    }

    /// A READ gave 512 bytes at an address: whether its sector may have them; then they are its block (SBC-3, READ commands).
    /// `NoMemory` leaves sectors of which nothing is said.
    pub fn show(&mut self, lba: usize, input: &[u8], given: &[u8]) -> Result<bool, NoMemory>
        requires within { lba < length self.old }
        requires size { length given.now ≡ 512 }
        ensures length { length self.new ≡ length self.old }
        ensures shows { IfOk result (ShowsAt input.now lba given.now self.old self.new) }
    {
        self.stamped[lba].show(&self.sweeps, self.swept_at_loss, input, given)
    }
}
