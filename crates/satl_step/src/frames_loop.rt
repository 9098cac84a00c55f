// The loop over the frames of an input, for one unit.
ghost use Rattle.std.specs.Prelude.{◌≡◌, ◌≤◌, ◌+◌, ◌-◌, ◌^◌, min, [], ◌∷◌, None, IfErr};
ghost use Rattle.satl_core.specs.Layer.{Tied};
ghost use Rattle.satl_step.specs.Events.{scene_of};
ghost use Rattle.satl_step.specs.Loop.{AreAllIn, HasStopCause, Ran, is_end, loop_state};
ghost use Rattle.satl_step.specs.Runs.{requests_in};

use crate::events::serve_event;
use crate::teller::Teller;
use satl_base::{Replies, Steps};
use satl_core::Satl;
use satl_drive::Bench;
use satl_frame::{Frame, FrameFault, FrameReader, LONGEST_EVENT};
use satl_io::{Sink, Source};
use std::alloc::Global;
use std::sync::ledger::Ledger;

/// Why frames are carried out no further (profile).
#[derive(Clone, Copy, Debug, PartialEq, Eq)]
pub enum Stop {
    /// The next frame is refused, or was not read.
    Refused(FrameFault),
    /// A write failed.
    Write,
}

/// Whether a frame is END, which ends an input (profile).
pub fn is_end(frame: &Frame<'_>) -> bool
    ensures { result ≡ is_end frame.now }
{
    match frame {
        Frame::End => true,
        Frame::Request(_) | Frame::Manage(_) | Frame::Turn(_) | Frame::Bench(_) => false,
    }
}

/// A count of requests behind a frame. It stands still at 2^64 - 1.
fn count_request(requests: u64, frame: &Frame<'_>) -> u64
    ensures { result ≡ min (requests + requests_in (frame.now ∷ [])) (2 ^ 64 - 1) }
{
    match frame {
        Frame::Request(_) => requests.saturating_add(1),
        Frame::Manage(_) | Frame::Turn(_) | Frame::Bench(_) | Frame::End => requests,
    }
}

/// Carries out the frames of an input up to END on one unit, and tells the answers of each before it reads the next, or waits
/// for it. Gives the number of requests, which stands still at 2^64 - 1. The reader has given no frame, and the unit has no
/// task. `Refused`: the next frame is refused, which is told to nobody, and no byte behind it was waited for, unless none is
/// left; or a read failed, where the source's count of faults rose. `Write` comes only where the sink's count rose; else no
/// page of the layer is out at the end (profile).
pub fn serve_frames<S: Source, T: Teller, K: Sink, D: Bench<L>, L: Ledger>(
    alloc: Global,
    reader: &mut FrameReader,
    satl: &mut Satl,
    source: &mut S,
    teller: &mut T,
    sink: &mut K,
    drive: &mut D,
    steps: &mut Steps<L>,
) -> Result<u64, Stop>
    requires tied { Tied satl.old (D.state drive.old) }
    requires all_in { satl.old.out ≡ 0 }
    requires idle { satl.old.tasks ≡ [] }
    requires fresh { reader.old.refused ≡ None }
    requires unread { reader.old.place ≡ None }
    ensures tied { Tied satl.new (D.state drive.new) }
    ensures all_in { AreAllIn satl.new.out result }
    ensures ran { Ran T.told T.behind
        (loop_state reader.old (S.left source.old) (S.waited source.old)
        (scene_of satl.old (D.state drive.old) steps.old teller.old (K.written sink.old)))
        (loop_state reader.new (S.left source.new) (S.waited source.new)
        (scene_of satl.new (D.state drive.new) steps.new teller.new (K.written sink.new))) result }
    ensures causes { IfErr result (HasStopCause (S.faults source.old) (S.faults source.new) (K.faults sink.old)
        (K.faults sink.new)) }
    ensures later { K.faults sink.old ≤ K.faults sink.new }
{
    let mut replies = Replies::new(alloc);
    let mut requests = 0;
    let mut room = [0; LONGEST_EVENT];
    'frames: loop {
        let frame = match reader.next(source, satl, &mut room) {
            Ok(frame) => frame,
            Err(fault) => return Err(Stop::Refused(fault)),
        };
        let last = is_end(&frame);
        let counted = count_request(requests, &frame);
        match serve_event(satl, frame, teller, sink, drive, &mut replies, steps) {
            Ok(()) => {}
            Err(_) => return Err(Stop::Write),
        }
        if last {
            return Ok(counted);
        }
        requests = counted;
    }
}
