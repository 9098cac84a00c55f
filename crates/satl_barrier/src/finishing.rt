// How commands end that go over the medium.
ghost use Rattle.std.specs.Prelude.{◌≡◌, ◌<◌, ◌≤◌, ◌+◌, ◌^◌};
ghost use Rattle.satl_barrier.specs.Finishing.{piece_behind};

use satl_base::{PIECE, Range};
use satl_regs::Taskfile;

/// How a command that goes over the medium ended (ACS-3, error outputs).
#[derive(Clone, Copy, Debug, PartialEq, Eq)]
pub enum Finish {
    /// All of it was carried out.
    Done,
    /// A flaw stopped it: the lowest flawed address of its range.
    Flawed { lba: u64 },
    /// A CRC error stopped it.
    Garbled,
}

impl From<&Taskfile> for Finish {
    ghost use Rattle.std.specs.Prelude.{◌≡◌};
    ghost use Rattle.satl_barrier.specs.Finishing.{finish_of};

    ghost from_gives = { λ ended finish. finish ≡ finish_of ended.now };

    /// ERR of STATUS tells a bad end, and ICRC of ERROR a CRC error; else the address at the end is the flawed one.
    fn from(ended: &Taskfile) -> Finish {
        let icrc = ended.error >> 7 & 1 == 1;
        if !ended.is_bad() {
            Finish::Done
        } else if icrc {
            Finish::Garbled
        } else {
            Finish::Flawed { lba: ended.lba }
        }
    }
}

/// The next piece of a range, behind the blocks that are done: 64 blocks, or fewer where fewer are left.
pub fn next_piece(range: Range, done: u32) -> Range
    requires done { done ≤ range.count }
    requires fits { range.lba + range.count < 2 ^ 64 }
    ensures { result ≡ piece_behind range done }
{
    Range {
        lba: range.lba + u64::from(done),
        count: PIECE.min(range.count - done),
    }
}
