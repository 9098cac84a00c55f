// Places that are marked one by one, and unmarked all at once.
ghost use Rattle.std.specs.Prelude.{◌≡◌, ◌<◌, true, false, IfOk, length, replicate, slice_index_or, slice_set};

use satl_base::NoMemory;
use std::alloc::Global;
use std::marker::Model;

/// For each of some places whether it is marked (profile). A clause sees a list of truth values. To unmark all of them takes
/// the same time however many there are, but for once in 2^32 times.
#[derive(Drop)]
pub struct Marks {
    // The round in which a place was marked; 0 where it was unmarked since, or never marked.
    rounds: Vec<u32>,
    // A place is marked where its round is this one, so as the next one begins none is.
    round: u32,
}

impl Model for Marks {
    ghost use Rattle.std.specs.Prelude.{Bool, List, ◌≤◌};
    ghost use Rattle.std.specs.List.{All};
    ghost use Rattle.satl_disk.specs.Layout.{marked_in};

    ghost Value = { List Bool };

    ghost view = { λ m. marked_in m.round m.rounds.items };

    ghost invariant = { λ m. (1 ≤ m.round) × All (λ r. r ≤ m.round) m.rounds.items };
}

impl Marks {
    /// So many places, of which none is marked. The error is want of memory (profile).
    pub fn none(alloc: Global, number: u32) -> Result<Marks, NoMemory>
        ensures { IfOk result (λ marks. marks ≡ replicate number false) }
    {
        Ok(Marks {
            rounds: vec![in alloc; 0; number as usize]?,
            round: 1,
        })
    }

    /// Whether a place is marked.
    pub fn has(&self, place: usize) -> bool
        requires { place < length self.now }
        ensures { result ≡ slice_index_or self.now place false }
    {
        self.rounds[place] == self.round
    }

    /// Marks a place.
    pub fn mark(&mut self, place: usize)
        requires { place < length self.old }
        ensures { self.new ≡ slice_set self.old place true }
    {
        self.rounds[place] = self.round;
    }

    /// Unmarks a place.
    pub fn unmark(&mut self, place: usize)
        requires { place < length self.old }
        ensures { self.new ≡ slice_set self.old place false }
    {
        self.rounds[place] = 0;
    }

    /// Unmarks all places.
    pub fn unmark_all(&mut self)
        ensures { self.new ≡ replicate (length self.old) false }
    {
        match self.round.checked_add(1) {
            Some(next) => self.round = next,
            None => {
                self.rounds[..].fill(0);
                self.round = 1;
            }
        }
    }
}
