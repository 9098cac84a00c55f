// The queued commands that are outstanding, in order of issue.
ghost use Rattle.std.specs.Prelude.{◌≡◌, ◌≤◌, ◌<◌, ◌==◌, ◌∷◌, ◌++◌, [], false, length};
ghost use Rattle.std.specs.List.{list_any, remove};
ghost use Rattle.satl_drive.specs.Queue.{is_tagged};
ghost use Rattle.satl_disk.specs.Queue.{command_at};

use crate::queue::Noted;
use satl_base::{QUEUE_DEPTH, Sequence};
use std::marker::Model;

/// The room of the order of issue: sixteen times what it holds, so that it is seldom used up and tags seldom move to its front.
const ORDER_ROOM: usize = 16 * QUEUE_DEPTH;

/// The commands that are outstanding, at most 32, in order of issue. Clauses see the list of them.
// Each stands at the place of its tag, and their order is that of the tags: as the first leaves none moves, and as another
// leaves, bytes alone move up.
#[derive(Drop)]
pub struct Commands {
    by_tag: [Noted; QUEUE_DEPTH],
    order: Sequence<u8, ORDER_ROOM>,
}

impl Model for Commands {
    ghost use Rattle.std.specs.Prelude.{List};
    ghost use Rattle.satl_drive.specs.State.{Outstanding};
    ghost use Rattle.satl_disk.specs.Queue.{AreByTag, in_order};

    ghost Value = { List Outstanding };

    ghost view = { λ c. in_order c.by_tag c.order };

    ghost invariant = { λ c. AreByTag c.by_tag c.order };
}

impl Commands {
    /// No command is outstanding.
    pub fn new() -> Self
        ensures { result ≡ [] }
    {
        Commands {
            by_tag: Default::default(),
            order: Sequence::new(),
        }
    }

    /// How many are outstanding.
    pub fn len(&self) -> usize
        ensures value { result ≡ length self.now }
        ensures few { result ≤ 32 }
    {
        self.order.len()
    }

    /// Whether none is outstanding.
    pub fn is_empty(&self) -> bool
        ensures { result ≡ (length self.now == 0) }
    {
        self.order.is_empty()
    }

    /// The command at a place, in order of issue.
    pub fn at(&self, place: usize) -> &Noted
        requires { place < length self.now }
        ensures { result.now ≡ command_at self.now place }
    {
        noted_at(&self.by_tag, self.order.at(place))
    }

    /// A command is issued, under a tag that no other has.
    pub fn push(&mut self, command: Noted)
        requires free { list_any (is_tagged command.command.tag) self.old ≡ false }
        requires small { command.command.tag < 32 }
        requires room { length self.old < 32 }
        ensures { self.new ≡ self.old ++ command ∷ [] }
    {
        let tag = command.command().tag;
        self.by_tag[tag as usize] = command;
        self.order.push(tag);
    }

    /// The command at a place leaves.
    pub fn remove(&mut self, place: usize)
        requires { place < length self.old }
        ensures { self.new ≡ remove self.old place }
    {
        self.order.remove(place);
    }

    /// All leave.
    pub fn clear(&mut self)
        ensures { self.new ≡ [] }
    {
        self.order.clear();
    }
}

fn noted_at(by_tag: &[Noted], tag: u8) -> &Noted
    requires { tag < length by_tag.now }
    ensures { result.now ≡ command_at by_tag.now tag }
{
    &by_tag[tag as usize]
}
