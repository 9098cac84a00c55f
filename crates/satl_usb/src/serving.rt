// A request and one turn on the unit.
ghost use Rattle.std.specs.Prelude.{◌≡◌, [], OnOk};
ghost use Rattle.satl_io.specs.Causes.{HasCause};
ghost use Rattle.satl_frame.specs.declared.frames.Frame.{Frame};
ghost use Rattle.satl_step.specs.Events.{scene_of};
ghost use Rattle.satl_step.specs.Serving.{CanServeEvent, WholeOrInPart, Leaves};
ghost use Rattle.satl_usb.specs.Serving.{Exchanged, ExchangedInPart};

use satl_base::{Replies, Request, Steps};
use satl_core::Satl;
use satl_drive::Bench;
use satl_frame::{Frame, WriteFault};
use satl_io::Sink;
use satl_step::{Teller, serve_event};
use std::sync::ledger::Ledger;

/// A request arrives at a unit without tasks, and one turn is taken. Exactly one reply is told, which has the nexus and tag of
/// the request, and no task is left. `WriteFault` comes only where the sink's count of faults rose; then a front of that one
/// reply was told (profile).
pub fn serve_item<T: Teller, K: Sink, D: Bench<L>, L: Ledger>(
    satl: &mut Satl,
    request: Request,
    teller: &mut T,
    sink: &mut K,
    drive: &mut D,
    replies: &mut Replies,
    steps: &mut Steps<L>,
) -> Result<(), WriteFault>
    requires can { CanServeEvent (Frame.Request request) satl.old (D.state drive.old) replies.old }
    requires idle { satl.old.tasks ≡ [] }
    ensures exchanged { WholeOrInPart (Exchanged T.told T.behind request) (ExchangedInPart T.told T.behind request)
        (scene_of satl.old (D.state drive.old) steps.old teller.old (K.written sink.old))
        (scene_of satl.new (D.state drive.new) steps.new teller.new (K.written sink.new)) result }
    ensures leaves { Leaves satl.new (D.state drive.new) replies.new result }
    ensures idle { OnOk result (satl.new.tasks ≡ []) }
    ensures cause { HasCause (K.faults sink.old) (K.faults sink.new) result }
{
    serve_event(
        satl,
        Frame::Request(request),
        teller,
        sink,
        drive,
        replies,
        steps,
    )?;
    serve_event(satl, Frame::Turn(1), teller, sink, drive, replies, steps)
}
