// The tasks that wait.
ghost use Rattle.std.specs.Prelude.{◌≡◌, ◌<◌, ◌≤◌, ◌==◌, ◌++◌, ◌∷◌, [], IfOk, Some, true, false, not, length, slice_get, remove};
ghost use Rattle.std.specs.List.{position_from};
ghost use Rattle.std.specs.Option.{option_map};
ghost use Rattle.satl_base.specs.Limits.{most_tasks};
ghost use Rattle.satl_line.specs.Eligible.{eligible_at};
ghost use Rattle.satl_audit.specs.Waiting.{entries_in, has_name, has_no_room};

use satl_base::{MOST_TASKS, Nexus, NoMemory, Tag};
use satl_line::{Entry, TaskBox, TaskSet};
use std::alloc::Global;
use std::marker::Model;

/// The tasks that wait, in order of arrival, without their pages: the data-out of each stands in the input from a place on.
#[derive(Drop)]
pub struct Waiting {
    tasks: TaskSet,
    // The place of the data-out of the task in each slot.
    places: [usize; MOST_TASKS],
    // Where a task comes from.
    desk: TaskBox,
}

impl Model for Waiting {
    ghost use Rattle.std.specs.Prelude.{List};
    ghost use Rattle.satl_audit.specs.Waiting.{Placed, placed_in};

    ghost Value = { List Placed };

    ghost view = { λ w. placed_in w.places w.tasks };
}

impl Waiting {
    /// No task. It takes all the memory that it ever needs.
    pub fn new(alloc: Global) -> Result<Waiting, NoMemory>
        ensures { IfOk result (λ waiting. waiting ≡ []) }
    {
        let tasks = TaskSet::new(alloc)?;
        let desk = TaskBox::new(alloc)?;
        Ok(Waiting {
            tasks,
            places: [0; MOST_TASKS],
            desk,
        })
    }

    /// How many there are.
    pub fn len(&self) -> usize
        ensures value { result ≡ length self.now }
        ensures few { result ≤ most_tasks }
    {
        self.tasks.len()
    }

    /// Whether there is none.
    pub fn is_empty(&self) -> bool
        ensures { result ≡ (length self.now == 0) }
    {
        self.tasks.is_empty()
    }

    /// A task comes last, unless there is no room for it. Whether there was.
    pub fn add(&mut self, entry: Entry, at: usize) -> bool
        ensures room { result ≡ not (has_no_room self.old entry.blocks) }
        ensures added { result ≡ true → self.new ≡ self.old ++ record { entry = entry; at = at } ∷ [] }
        ensures kept { result ≡ false → self.new ≡ self.old }
    {
        let place = self.tasks.len();
        *self.desk.entry_mut() = entry;
        let Ok(()) = self.tasks.add(&mut self.desk) else {
            return false;
        };
        let slot = self.tasks.slot_of(place);
        self.places[slot as usize] = at;
        true
    }

    /// The place of the task with a nexus and tag.
    pub fn find(&self, nexus: Nexus, tag: Tag) -> Option<usize>
        ensures { result ≡ position_from (has_name nexus tag.0) 0 self.now }
    {
        self.tasks.find(nexus, tag)
    }

    /// Whether no earlier task conflicts with the one at a place.
    pub fn eligible(&self, place: usize) -> bool
        requires { place < length self.now }
        ensures { result ≡ eligible_at (entries_in self.now) place }
    {
        self.tasks.eligible(place)
    }

    /// The task at a place.
    pub fn entry(&self, place: usize) -> &Entry
        requires { place < length self.now }
        ensures { option_map (λ placed. placed.entry) (slice_get self.now place) ≡ Some result.now }
    {
        self.tasks.entry(place)
    }

    /// Where the data-out of the task at a place stands.
    pub fn data_at(&self, place: usize) -> usize
        requires { place < length self.now }
        ensures { option_map (λ placed. placed.at) (slice_get self.now place) ≡ Some result }
    {
        self.places[self.tasks.slot_of(place) as usize]
    }

    /// Takes the task at a place out.
    pub fn remove(&mut self, place: usize)
        requires { place < length self.old }
        ensures { self.new ≡ remove self.old place }
    {
        self.tasks.remove(place, &mut self.desk);
    }

    /// Takes all tasks out.
    pub fn clear(&mut self)
        ensures { self.new ≡ [] }
    {
        while !self.is_empty() {
            self.remove(0);
        }
    }
}
