// Which tasks conflict.
ghost use Rattle.std.specs.Prelude.{◌≡◌, ◌≤◌};
ghost use Rattle.std.specs.List.{list_any};
ghost use Rattle.satl_line.specs.Conflict.{any_meet, conflicts, is_alone, is_write, ranges_meet};

use crate::entry::{Entry, Kind};
use satl_base::Range;

/// Whether two tasks conflict: one is a barrier or ORDERED, or a range of one meets a range of the other and one of
/// them writes (profile, after SAM-5 8.6, task attributes).
#[tactic(auto, unfolding(crate::specs::Conflict::accesses_conflict))]
pub(crate) fn conflict(a: &Entry, b: &Entry) -> bool
    ensures { result ≡ conflicts a.now b.now }
{
    stands_alone(a)
        || stands_alone(b)
        || ((writes(a) || writes(b)) && lists_meet(&a.ranges, &b.ranges))
}

pub(crate) fn stands_alone(entry: &Entry) -> bool
    ensures { result ≡ is_alone entry.now.kind entry.now.ordered }
{
    match entry.kind {
        Kind::Ranged { .. } => entry.ordered,
        Kind::Barrier => true,
    }
}

pub(crate) fn writes(entry: &Entry) -> bool
    ensures { result ≡ is_write entry.now.kind }
{
    match entry.kind {
        Kind::Ranged { write } => write,
        Kind::Barrier => false,
    }
}

fn lists_meet(ranges: &[Range], others: &[Range]) -> bool
    ensures { result ≡ any_meet ranges.now others.now }
{
    others.iter().any(|other| meets_one_of(ranges, other))
}

fn meets_one_of(ranges: &[Range], other: &Range) -> bool
    ensures { result ≡ list_any (λ range. ranges_meet range other.now) ranges.now }
{
    ranges.iter().any(|range| meet(range, other))
}

/// Whether some block lies in both ranges. Any LBA and any count will do.
fn meet(a: &Range, b: &Range) -> bool
    ensures { result ≡ ranges_meet a.now b.now }
{
    if a.lba <= b.lba {
        reaches(a, b)
    } else {
        reaches(b, a)
    }
}

/// Whether the first block of a range that begins no earlier lies in this one. Without a sum, which may be too large.
fn reaches(range: &Range, later: &Range) -> bool
    requires { range.now.lba ≤ later.now.lba }
    ensures { result ≡ ranges_meet range.now later.now }
{
    later.count > 0 && later.lba - range.lba < u64::from(range.count)
}
