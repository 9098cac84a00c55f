// The loop over the frames of an input, for the units of a target.
ghost use Rattle.std.specs.Prelude.{◌≡◌, ◌≤◌, ◌<◌, ◌+◌, ◌-◌, ◌^◌, None, IfErr, OnOk, vec_len};
ghost use Rattle.satl_pages.specs.Counts.{number_of};
ghost use Rattle.satl_step.specs.Loop.{HasStopCause};
ghost use Rattle.satl_fleet.specs.Loop.{ReachedEnd, StoppedSo, loop_state};
ghost use Rattle.satl_fleet.specs.Rounds.{stage};
ghost use Rattle.satl_fleet.specs.Serving.{CanBegin, KeepsUnits, target};

use crate::frame::serve_frame;
use satl_base::{Replies, Steps};
use satl_core::Satl;
use satl_drive::Bench;
use satl_frame::{FrameReader, LONGEST_EVENT};
use satl_io::{Sink, Source};
use satl_pages::Pool;
use satl_step::{Stop, is_end};
use std::alloc::Global;
use std::sync::ledger::Ledger;

/// Carries out the frames of an input up to END on the units, and tells the answers of each before it reads the next. Frames
/// are read into the pool, whose 4,096 pages hold each whole one. The reader has given no frame, and no unit has a task.
/// `Refused`: the next frame is refused, which is told to nobody, and no byte behind it was waited for, unless none is left; or
/// a read failed, where the source's count of faults rose. `Write` comes only where the sink's count rose (profile).
pub fn serve_frames<S: Source, K: Sink, D: Bench<L>, L: Ledger>(
    alloc: Global,
    reader: &mut FrameReader,
    units: &mut Vec<Satl>,
    drives: &mut Vec<D>,
    pool: &mut Pool,
    source: &mut S,
    sink: &mut K,
    steps: &mut Steps<L>,
) -> Result<(), Stop>
    requires opened { CanBegin (target D.state units.old drives.old) }
    requires pool { number_of pool.old ≡ 4096 }
    requires all_in { pool.old.out ≡ 0 }
    requires fresh { reader.old.refused ≡ None }
    requires unread { reader.old.place ≡ None }
    ensures ended { OnOk result (ReachedEnd (vec_len units.old)
        (loop_state reader.old (S.left source.old) (S.waited source.old)
        (stage (target D.state units.old drives.old) (K.written sink.old)) steps.old)
        (loop_state reader.new (S.left source.new) (S.waited source.new)
        (stage (target D.state units.new drives.new) (K.written sink.new))
        steps.new)) }
    ensures stopped { IfErr result (StoppedSo (vec_len units.old)
        (loop_state reader.old (S.left source.old) (S.waited source.old)
        (stage (target D.state units.old drives.old) (K.written sink.old)) steps.old)
        (loop_state reader.new (S.left source.new) (S.waited source.new)
        (stage (target D.state units.new drives.new) (K.written sink.new))
        steps.new)) }
    ensures keeps { KeepsUnits (target D.state units.old drives.old) (target D.state units.new drives.new) }
    ensures causes { IfErr result (HasStopCause (S.faults source.old) (S.faults source.new) (K.faults sink.old)
        (K.faults sink.new)) }
    ensures later { K.faults sink.old ≤ K.faults sink.new }
{
    let mut replies = Replies::new(alloc);
    let mut room = [0; LONGEST_EVENT];
    'frames: loop {
        let frame = match reader.next(source, pool, &mut room) {
            Ok(frame) => frame,
            Err(fault) => return Err(Stop::Refused(fault)),
        };
        let last = is_end(&frame);
        match serve_frame(units, drives, pool, frame, sink, &mut replies, steps) {
            Ok(()) => {}
            Err(_) => return Err(Stop::Write),
        }
        if last {
            return Ok(());
        }
    }
}
