// What is kept of a task beside it, to be asked before the task itself.
ghost use Rattle.std.specs.Prelude.{◌≡◌, ◌==◌, ◌&&◌, ◌||◌};
ghost use Rattle.std.specs.List.{AllByRecursion};
ghost use Rattle.satl_line.specs.Outlines.{IsOutline, Widens, LiesIn, is_active, may_meet, no_outline, spans_meet};

use crate::conflict::{stands_alone, writes};
use crate::entry::Entry;
use satl_base::{Nexus, Range, Tag};

/// The blocks from the lowest to the highest that the ranges of a task name, both inclusive. Of blocks past the last address of
/// 64 bits none counts. Without a block the first is past the last (profile).
#[derive(Clone, Copy)]
pub(crate) struct Span {
    first: u64,
    last: u64,
}

impl Span {
    /// The span of no block.
    fn none() -> Span
        ensures { result ≡ no_outline.span }
    {
        Span {
            first: u64::MAX,
            last: 0,
        }
    }

    /// The blocks that these ranges span.
    fn of(ranges: &[Range]) -> Span
        ensures { AllByRecursion (LiesIn result) ranges.now }
    {
        let mut span = Span::none();
        for range in ranges {
            span = span.with(range);
        }
        span
    }

    /// The span, and the blocks of a range too.
    fn with(self, range: &Range) -> Span
        ensures wide { Widens self result }
        ensures within { LiesIn result range.now }
    {
        if range.count == 0 {
            return self;
        }
        let last = range.lba.saturating_add(u64::from(range.count - 1));
        Span {
            first: self.first.min(range.lba),
            last: self.last.max(last),
        }
    }

    /// Whether some block lies in both spans.
    fn meets(&self, other: &Span) -> bool
        ensures { result ≡ spans_meet self.now other.now }
    {
        self.first <= other.last && other.first <= self.last
    }
}

/// The name of a task and how it goes about the medium, in few bytes: a task itself has more than a thousand (profile).
#[derive(Clone, Copy)]
pub(crate) struct Outline {
    nexus: Nexus,
    tag: Tag,
    alone: bool,
    write: bool,
    span: Span,
}

impl Outline {
    /// What stands where there is no task yet.
    pub(crate) fn none() -> Outline
        ensures { result ≡ no_outline }
    {
        Outline {
            nexus: Nexus::default(),
            tag: Tag(0),
            alone: false,
            write: false,
            span: Span::none(),
        }
    }

    /// The outline of a task.
    pub(crate) fn of(entry: &Entry) -> Outline
        ensures { IsOutline entry.now result }
    {
        Outline {
            nexus: entry.nexus,
            tag: entry.tag,
            alone: stands_alone(entry),
            write: writes(entry),
            span: Span::of(&entry.ranges),
        }
    }

    /// Whether the task is the one of this nexus and tag.
    pub(crate) fn names(&self, nexus: Nexus, tag: Tag) -> bool
        ensures { result ≡ (self.now.nexus == nexus && self.now.tag.0 == tag.0) }
    {
        self.nexus == nexus && self.tag == tag
    }

    /// Whether the task writes or stands alone. Two tasks of which neither does so do not conflict.
    pub(crate) fn is_active(&self) -> bool
        ensures { result ≡ is_active self.now }
    {
        self.alone || self.write
    }

    /// Whether the task is a barrier or ORDERED.
    pub(crate) fn is_alone(&self) -> bool
        ensures { result ≡ self.now.alone }
    {
        self.alone
    }

    /// The lowest block of its span.
    pub(crate) fn first(&self) -> u64
        ensures { result ≡ self.now.span.first }
    {
        self.span.first
    }

    /// The highest block of its span.
    pub(crate) fn last(&self) -> u64
        ensures { result ≡ self.now.span.last }
    {
        self.span.last
    }

    /// Whether one of the two is a barrier or ORDERED: then they conflict.
    pub(crate) fn is_alone_beside(&self, other: &Outline) -> bool
        ensures { result ≡ (self.now.alone || other.now.alone) }
    {
        self.alone || other.alone
    }

    /// Whether one of the two writes, and their spans meet: then their ranges may meet too.
    pub(crate) fn may_meet(&self, other: &Outline) -> bool
        ensures { result ≡ may_meet self.now other.now }
    {
        (self.write || other.write) && self.span.meets(&other.span)
    }
}
