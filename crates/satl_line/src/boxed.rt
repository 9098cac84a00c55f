// A task in a box of its own.
ghost use Rattle.std.specs.Prelude.{◌≡◌, [], IfOk};
ghost use Rattle.satl_line.specs.Blank.{no_entry};

use crate::entry::{Entry, Kind};
use arrayvec::ArrayVec;
use satl_base::{Nexus, NoMemory, Pages, Tag};
use satl_cdb::Command;
use std::alloc::Global;
use std::marker::Model;
use std::mem;

/// A task in memory of its own, so that it changes hands without being copied: where it comes from, where it lies in its set,
/// and where it lies from leaving until it is answered (profile). A clause sees the task.
#[derive(Drop)]
pub struct TaskBox {
    entry: Box<Entry>,
}

impl Model for TaskBox {
    ghost use Rattle.satl_line.specs.declared.entry.Entry.{Entry};

    ghost Value = { Entry };

    ghost view = { λ b. b.entry.value };
}

impl TaskBox {
    ghost use Rattle.std.specs.Borrow.{sem};
    ghost use Rattle.satl_line.specs.Lending.{LendsEntry};

    /// A box with a task that stands for none. It takes memory for one task, and fails where there is none (profile).
    pub fn new(alloc: Global) -> Result<TaskBox, NoMemory>
        ensures { IfOk result (λ task. task ≡ no_entry) }
    {
        Ok(TaskBox {
            entry: Box::new(alloc, blank())?,
        })
    }

    /// The task in the box (profile).
    pub fn entry(&self) -> &Entry
        ensures { result.now ≡ self.now }
    {
        &self.entry
    }

    /// The task in the box, for writing (profile).
    pub fn entry_mut(&mut self) -> &mut Entry
        ensures* writes_back { sem 𝓛 (LendsEntry self.entry result) }
        ensures value { result.now ≡ self.old }
    {
        let entry = &mut self.entry;
        entry
    }

    /// Takes the pages of the task, which then has none (profile).
    pub fn take_body(&mut self) -> Pages
        ensures value { result ≡ self.old.body }
        ensures rest { self.new ≡ record self.old { body = [] } }
    {
        self.swap_body(Pages::default())
    }

    /// Puts pages into the task, and gives those that it had.
    pub(crate) fn swap_body(&mut self, body: Pages) -> Pages
        ensures value { result ≡ self.old.body }
        ensures rest { self.new ≡ record self.old { body = body } }
    {
        mem::replace(&mut self.entry_mut().body, body)
    }
}

/// What stands for no task.
fn blank() -> Entry
    ensures { result ≡ no_entry }
{
    Entry {
        nexus: Nexus::default(),
        tag: Tag(0),
        kind: Kind::Barrier,
        ordered: false,
        blocks: 0,
        command: Command::TestUnitReady,
        body: Pages::default(),
        change: None,
        expected: None,
        ranges: ArrayVec::new(),
    }
}
