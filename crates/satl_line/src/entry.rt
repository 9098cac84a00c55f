// A task that waits.
ghost use Rattle.std.specs.Prelude.{◌≡◌};

use arrayvec::ArrayVec;
use satl_base::{MOST_RANGES, ModeChange, Nexus, Pages, Range, Tag};
use satl_cdb::Command;

/// How a task goes about the medium (profile, after SAM-5's task set).
#[derive(Clone, Copy, Debug, PartialEq, Eq)]
pub enum Kind {
    /// It reads or writes its ranges alone, by a queued command.
    Ranged {
        /// Whether it writes them.
        write: bool,
    },
    /// It is carried out by itself: no task passes it, and it passes none.
    Barrier,
}

impl Kind {
    ghost use Rattle.satl_line.specs.Kinds.{kind_of};

    /// The kind of a command's task: READ and WRITE are ranged, and so is UNMAP where the drive queues trims (profile).
    pub fn of(command: &Command, queued_trim: bool) -> Kind
        ensures { result ≡ kind_of command.now queued_trim }
    {
        match command {
            Command::Read { .. } => Kind::Ranged { write: false },
            Command::Write { .. } => Kind::Ranged { write: true },
            Command::Unmap { .. } if queued_trim => Kind::Ranged { write: true },
            _ => Kind::Barrier,
        }
    }
}

/// A task that waits (SAM-5, task set).
#[derive(Drop)]
pub struct Entry {
    /// The nexus that sent it.
    pub nexus: Nexus,
    /// The tag that the nexus gave it.
    pub tag: Tag,
    /// Ranged or a barrier.
    pub kind: Kind,
    /// Whether its attribute is ORDERED.
    pub ordered: bool,
    /// How many blocks of 512 bytes it holds room for: at most 32,768 over all tasks of a set.
    pub blocks: u32,
    /// What it does.
    pub command: Command,
    /// Its pages: data-out, room for data-in, or the entries of an UNMAP whose trim is queued.
    pub body: Pages,
    /// What a MODE SELECT changes.
    pub change: Option<ModeChange>,
    /// How many bytes of data-in the host takes, where it said so.
    pub expected: Option<u32>,
    // It is last, so that all other fields, which are read as the task goes on, lie side by side.
    /// The range of a READ or WRITE, the ranges of an UNMAP; none for all others.
    pub ranges: ArrayVec<Range, MOST_RANGES>,
}
