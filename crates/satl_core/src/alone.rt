// What commands do that run alone on the drive.
ghost use Rattle.std.specs.Prelude.{◌≡◌, ◌&&◌, not};
ghost use Rattle.satl_core.specs.Alone.{alone_of};

use satl_base::Range;
use satl_cdb::Command;

/// What a command does that runs alone on the drive (SBC-3 5, SPC-4 6, SAT-3).
#[derive(Clone, Copy, Debug, PartialEq, Eq)]
pub enum Alone {
    /// Writes every sector back.
    Flush,
    /// Sets the drive by the mode values that the task wants.
    Select,
    /// Starts or stops the unit.
    Switch {
        /// Starts it, and does not stop it.
        start: bool,
        /// Stops it without a flush before.
        no_flush: bool,
    },
    /// Reads a range for its flaws.
    Verify(Range),
    /// Compares a range with the data-out.
    Compare(Range),
    /// Writes one block to each address of a range.
    WriteSame(Range),
    /// Trims a range.
    TrimRange(Range),
    /// Trims the ranges of the task.
    TrimList,
    /// A host's own ATA command.
    Through {
        /// The ATA PASS-THROUGH that carries it.
        cdb: [u8; 16],
    },
}

impl Alone {
    ghost use Rattle.satl_core.specs.Alone.{needs_start};

    /// What a command does that runs alone. None for a READ and a WRITE, which go through the queue, and for commands that are
    /// answered on arrival (profile).
    pub fn of(command: &Command) -> Option<Alone>
        ensures { result ≡ alone_of command.now }
    {
        let alone = match *command {
            Command::Flush { .. } => Alone::Flush,
            Command::ModeSelect { .. } => Alone::Select,
            Command::StartStop { start, no_flush } => Alone::Switch { start, no_flush },
            Command::Verify {
                compare: true,
                lba,
                count,
                ..
            } => Alone::Compare(Range { lba, count }),
            Command::Verify { lba, count, .. } => Alone::Verify(Range { lba, count }),
            Command::WriteSame {
                unmap: true,
                lba,
                count,
                ..
            } => Alone::TrimRange(Range { lba, count }),
            Command::WriteSame { lba, count, .. } => Alone::WriteSame(Range { lba, count }),
            Command::Unmap { .. } => Alone::TrimList,
            Command::Pass { cdb } => Alone::Through { cdb },
            _ => return None,
        };
        Some(alone)
    }

    /// Whether it is answered with NOT READY: it needs a started unit, and this one is stopped (SPC-4 4.5.6).
    pub fn is_not_ready(&self, started: bool) -> bool
        ensures { result ≡ (not started && needs_start self.now) }
    {
        !started
            && !matches!(
                *self,
                Alone::Select | Alone::Switch { .. } | Alone::Through { .. }
            )
    }
}
