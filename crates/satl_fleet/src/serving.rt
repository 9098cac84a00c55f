// An input is served by the units of a target.
ghost use Rattle.std.specs.Prelude.{◌≡◌, ◌≤◌, IfErr, OnOk, map, vec_len};
ghost use Rattle.std.specs.List.{AllByRecursion};
ghost use Rattle.satl_base.specs.Limits.{input_limit};
ghost use Rattle.satl_pages.specs.Counts.{number_of};
ghost use Rattle.satl_serve.specs.Moments.{sink_state, source_state};
ghost use Rattle.satl_serve.specs.Stopping.{HasStreamCause};
ghost use Rattle.satl_fleet.specs.Headline.{IsFleetStopped, IsFleetWhole};
ghost use Rattle.satl_fleet.specs.Moments.{fleet_moment};
ghost use Rattle.satl_barrier.specs.Leaving.{IsFree};
ghost use Rattle.satl_fleet.specs.Rounds.{stage};
ghost use Rattle.satl_fleet.specs.Serving.{CanBegin, KeepsUnits, target};
ghost use Rattle.satl_fleet.specs.Stopping.{HasFleetCause, RanTo, RanWhole, spot};

use crate::frames_loop::serve_frames;
use crate::opening::open_units;
use satl_base::{INPUT_LIMIT, MOST_MOVED, Steps};
use satl_core::{OpenFault, Satl};
use satl_drive::Bench;
use satl_frame::{FrameReader, OutFrame, write_frame};
use satl_io::{Sink, Source};
use satl_pages::Pool;
use satl_serve::{Form, ServeFault, tell_stop};
use std::alloc::Global;
use std::sync::ledger::Ledger;

// The pages of the longest data-out of a request.
const POOL_PAGES: u32 = MOST_MOVED;

/// Serves an input of frames of version 1 on one to four drives, the logical units 0 to 3 of one target: opens the layer on
/// each, and carries out one frame after the other up to END, which ends it. A command or a function for LUN n goes to unit n,
/// which sees it at LUN 0, and that for another LUN to unit 0; the target answers REPORT LUNS; I_T NEXUS RESET, turns, events
/// of the bench and END go to every unit in ascending order. Answers are written as frames, each before the next frame is read
/// or waited for, and a frame names their unit before those of one frame. To each LUN the answers are those of its own direct
/// device alone; a unit that a frame does not go to answers nothing to it.
/// Each drive has nothing outstanding and is in no error state, and its IDENTIFY DEVICE data fit it.
/// `Open`: the layer was not opened on each drive, for the cause told of one of them or for want of memory, and nothing was
/// read or written. `BadInput` comes after its FAULT frame was written, with the reason and the offset of the refused frame in
/// bytes, and no byte behind that frame was waited for, unless none is left. `Read` and `Write` come only where the source's or
/// the sink's count of faults rose. Together the drives are called as often at most as there are drives, for their identities,
/// and then as the frames allow (SAM-5 4.6; profile).
pub fn serve_fleet<S: Source, K: Sink, D: Bench<L>, L: Ledger>(
    alloc: Global,
    source: &mut S,
    sink: &mut K,
    drives: &mut Vec<D>,
    steps: &mut Steps<L>,
) -> Result<(), ServeFault>
    requires some { 1 ≤ vec_len drives.old }
    requires few { vec_len drives.old ≤ 4 }
    requires free { AllByRecursion IsFree (map D.state drives.old.items) }
    ensures served { OnOk result (IsFleetWhole input_limit
        (fleet_moment (source_state (S.left source.old) (S.waited source.old) (S.faults source.old))
        (sink_state (K.written sink.old) (K.faults sink.old))
        steps.old (map D.state drives.old.items))
        (fleet_moment (source_state (S.left source.new) (S.waited source.new) (S.faults source.new))
        (sink_state (K.written sink.new) (K.faults sink.new))
        steps.new (map D.state drives.new.items))) }
    ensures stopped { IfErr result (IsFleetStopped input_limit
        (fleet_moment (source_state (S.left source.old) (S.waited source.old) (S.faults source.old))
        (sink_state (K.written sink.old) (K.faults sink.old))
        steps.old (map D.state drives.old.items))
        (fleet_moment (source_state (S.left source.new) (S.waited source.new) (S.faults source.new))
        (sink_state (K.written sink.new) (K.faults sink.new))
        steps.new (map D.state drives.new.items))) }
    ensures causes { IfErr result (HasFleetCause
        (fleet_moment (source_state (S.left source.old) (S.waited source.old) (S.faults source.old))
        (sink_state (K.written sink.old) (K.faults sink.old))
        steps.old (map D.state drives.old.items))
        (fleet_moment (source_state (S.left source.new) (S.waited source.new) (S.faults source.new))
        (sink_state (K.written sink.new) (K.faults sink.new))
        steps.new (map D.state drives.new.items))) }
    ensures drives { vec_len drives.new ≡ vec_len drives.old }
{
    let Ok(mut pool) = Pool::new(alloc, POOL_PAGES) else {
        return Err(ServeFault::Open(OpenFault::NoMemory));
    };
    let mut units = open_units(alloc, drives, steps)?;
    serve_opened(alloc, &mut units, drives, &mut pool, source, sink, steps)
}

/// The same on units that were opened: the magic is written, and the frames are carried out up to END.
fn serve_opened<S: Source, K: Sink, D: Bench<L>, L: Ledger>(
    alloc: Global,
    units: &mut Vec<Satl>,
    drives: &mut Vec<D>,
    pool: &mut Pool,
    source: &mut S,
    sink: &mut K,
    steps: &mut Steps<L>,
) -> Result<(), ServeFault>
    requires opened { CanBegin (target D.state units.old drives.old) }
    requires pool { number_of pool.old ≡ 4096 }
    requires all_in { pool.old.out ≡ 0 }
    ensures whole { OnOk result (RanWhole input_limit (vec_len units.old)
        (spot (S.left source.old) (S.waited source.old)
        (stage (target D.state units.old drives.old) (K.written sink.old)) steps.old)
        (spot (S.left source.new) (S.waited source.new)
        (stage (target D.state units.new drives.new) (K.written sink.new)) steps.new)) }
    ensures stopped { IfErr result (RanTo input_limit (vec_len units.old)
        (spot (S.left source.old) (S.waited source.old)
        (stage (target D.state units.old drives.old) (K.written sink.old)) steps.old)
        (spot (S.left source.new) (S.waited source.new)
        (stage (target D.state units.new drives.new) (K.written sink.new)) steps.new)) }
    ensures keeps { KeepsUnits (target D.state units.old drives.old) (target D.state units.new drives.new) }
    ensures causes { IfErr result (HasStreamCause
        (source_state (S.left source.old) (S.waited source.old) (S.faults source.old))
        (source_state (S.left source.new) (S.waited source.new) (S.faults source.new))
        (sink_state (K.written sink.old) (K.faults sink.old)) (sink_state (K.written sink.new) (K.faults sink.new))) }
{
    write_frame(OutFrame::Magic, sink)?;
    let mut reader = FrameReader::first_only(alloc, INPUT_LIMIT);
    match serve_frames(alloc, &mut reader, units, drives, pool, source, sink, steps) {
        Ok(()) => Ok(()),
        Err(stop) => Err(tell_stop(Form::Frames, stop, sink)),
    }
}
