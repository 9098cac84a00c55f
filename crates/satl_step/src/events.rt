// One event on one unit.
ghost use Rattle.satl_io.specs.Causes.{HasCause};
ghost use Rattle.satl_frame.specs.declared.frames.Frame.{Frame};
ghost use Rattle.satl_step.specs.Events.{Done, DoneInPart, scene_of};
ghost use Rattle.satl_step.specs.Serving.{CanServeEvent, WholeOrInPart, Leaves};

use crate::queue::see_queue;
use crate::replies::tell_replies;
use crate::teller::Teller;
use crate::turns::{serve_end, serve_turns};
use satl_base::{BenchEvent, Manage, Replies, Request, Steps};
use satl_core::Satl;
use satl_drive::{Bench, Drive};
use satl_frame::{Frame, WriteFault};
use satl_io::Sink;
use std::sync::ledger::Ledger;

/// A request arrives.
fn serve_request<T: Teller, K: Sink, D: Drive<L>, L: Ledger>(
    satl: &mut Satl,
    request: Request,
    teller: &mut T,
    sink: &mut K,
    drive: &mut D,
    replies: &mut Replies,
    steps: &mut Steps<L>,
) -> Result<(), WriteFault>
    requires can { CanServeEvent (Frame.Request request) satl.old (D.state drive.old) replies.old }
    ensures done { WholeOrInPart
        (Done T.told T.behind (Frame.Request request)) (DoneInPart T.told T.behind (Frame.Request request))
        (scene_of satl.old (D.state drive.old) steps.old teller.old (K.written sink.old))
        (scene_of satl.new (D.state drive.new) steps.new teller.new (K.written sink.new)) result }
    ensures leaves { Leaves satl.new (D.state drive.new) replies.new result }
    ensures cause { HasCause (K.faults sink.old) (K.faults sink.new) result }
{
    satl.submit(request, drive, replies, steps);
    see_queue(satl);
    tell_replies(satl, teller, sink, replies)
}

/// A task management function is carried out.
fn serve_manage<T: Teller, K: Sink, D: Drive<L>, L: Ledger>(
    satl: &mut Satl,
    manage: Manage,
    teller: &mut T,
    sink: &mut K,
    drive: &mut D,
    replies: &mut Replies,
    steps: &mut Steps<L>,
) -> Result<(), WriteFault>
    requires can { CanServeEvent (Frame.Manage manage) satl.old (D.state drive.old) replies.old }
    ensures done { WholeOrInPart (Done T.told T.behind (Frame.Manage manage)) (DoneInPart T.told T.behind (Frame.Manage manage))
        (scene_of satl.old (D.state drive.old) steps.old teller.old (K.written sink.old))
        (scene_of satl.new (D.state drive.new) steps.new teller.new (K.written sink.new)) result }
    ensures leaves { Leaves satl.new (D.state drive.new) replies.new result }
    ensures cause { HasCause (K.faults sink.old) (K.faults sink.new) result }
{
    let response = satl.manage(&manage, drive, replies, steps);
    see_queue(satl);
    tell_replies(satl, teller, sink, replies)?;
    teller.tell_managed(&manage, response, sink)
}

/// Something happens to the drive.
fn serve_bench<T: Teller, K: Sink, D: Bench<L>, L: Ledger>(
    satl: &mut Satl,
    event: &BenchEvent<'_>,
    teller: &mut T,
    sink: &mut K,
    drive: &mut D,
    replies: &mut Replies,
    steps: &mut Steps<L>,
) -> Result<(), WriteFault>
    requires can { CanServeEvent (Frame.Bench event.now) satl.old (D.state drive.old) replies.old }
    ensures done { WholeOrInPart
        (Done T.told T.behind (Frame.Bench event.now)) (DoneInPart T.told T.behind (Frame.Bench event.now))
        (scene_of satl.old (D.state drive.old) steps.old teller.old (K.written sink.old))
        (scene_of satl.new (D.state drive.new) steps.new teller.new (K.written sink.new)) result }
    ensures leaves { Leaves satl.new (D.state drive.new) replies.new result }
    ensures cause { HasCause (K.faults sink.old) (K.faults sink.new) result }
{
    satl.bench(event, drive, replies, steps);
    see_queue(satl);
    tell_replies(satl, teller, sink, replies)
}

/// Carries out one event on one unit, and tells its answers before it returns. `WriteFault` comes only where the
/// sink's count of faults rose; then a front of the answers was told, of which there is one at least, and the event was carried
/// out in whole, or was cut short behind one of its turns (profile).
pub fn serve_event<T: Teller, K: Sink, D: Bench<L>, L: Ledger>(
    satl: &mut Satl,
    event: Frame<'_>,
    teller: &mut T,
    sink: &mut K,
    drive: &mut D,
    replies: &mut Replies,
    steps: &mut Steps<L>,
) -> Result<(), WriteFault>
    requires can { CanServeEvent event satl.old (D.state drive.old) replies.old }
    ensures done { WholeOrInPart (Done T.told T.behind event.entry) (DoneInPart T.told T.behind event.entry)
        (scene_of satl.old (D.state drive.old) steps.old teller.old (K.written sink.old))
        (scene_of satl.new (D.state drive.new) steps.new teller.new (K.written sink.new)) result }
    ensures leaves { Leaves satl.new (D.state drive.new) replies.new result }
    ensures cause { HasCause (K.faults sink.old) (K.faults sink.new) result }
{
    match event {
        Frame::Request(request) => serve_request(
            satl, request, teller, sink, drive, replies, steps,
        ),
        Frame::Manage(manage) => serve_manage(satl, manage, teller, sink, drive, replies, steps),
        Frame::Turn(count) => serve_turns(satl, count, teller, sink, drive, replies, steps),
        Frame::Bench(ref event) => serve_bench(satl, event, teller, sink, drive, replies, steps),
        Frame::End => serve_end(satl, teller, sink, drive, replies, steps),
    }
}
