// Turns, and the end of an input.
ghost use Rattle.std.specs.Prelude.{◌≤◌, ◌-◌, OnOk, length};
ghost use Rattle.satl_io.specs.Causes.{HasCause};
ghost use Rattle.satl_frame.specs.declared.frames.Frame.{Frame};
ghost use Rattle.satl_direct.specs.Run.{depth};
ghost use Rattle.satl_core.specs.Layer.{view};
ghost use Rattle.satl_step.specs.Events.{Done, DoneInPart, SomeTurnsTold, TurnsTold, scene_of};
ghost use Rattle.satl_step.specs.Serving.{CanServeEvent, WholeOrInPart, Leaves};

use crate::queue::see_queue;
use crate::replies::tell_replies;
use crate::teller::Teller;
use satl_base::{Replies, Steps};
use satl_core::Satl;
use satl_drive::Drive;
use satl_frame::{Frame, WriteFault};
use satl_io::Sink;
use std::sync::ledger::Ledger;

/// One turn.
fn serve_turn<T: Teller, K: Sink, D: Drive<L>, L: Ledger>(
    satl: &mut Satl,
    teller: &mut T,
    sink: &mut K,
    drive: &mut D,
    replies: &mut Replies,
    steps: &mut Steps<L>,
) -> Result<(), WriteFault>
    requires can { CanServeEvent (Frame.Turn 1) satl.old (D.state drive.old) replies.old }
    ensures turns { WholeOrInPart (TurnsTold T.told T.behind 1) (SomeTurnsTold T.told T.behind 1)
        (scene_of satl.old (D.state drive.old) steps.old teller.old (K.written sink.old))
        (scene_of satl.new (D.state drive.new) steps.new teller.new (K.written sink.new)) result }
    ensures leaves { Leaves satl.new (D.state drive.new) replies.new result }
    ensures fewer { length satl.new.tasks ≤ length satl.old.tasks - 1 }
    ensures cause { HasCause (K.faults sink.old) (K.faults sink.new) result }
{
    satl.turn(drive, replies, steps);
    see_queue(satl);
    tell_replies(satl, teller, sink, replies)
}

/// So many turns, each told before the next.
pub fn serve_turns<T: Teller, K: Sink, D: Drive<L>, L: Ledger>(
    satl: &mut Satl,
    count: u16,
    teller: &mut T,
    sink: &mut K,
    drive: &mut D,
    replies: &mut Replies,
    steps: &mut Steps<L>,
) -> Result<(), WriteFault>
    requires can { CanServeEvent (Frame.Turn count) satl.old (D.state drive.old) replies.old }
    ensures turns { WholeOrInPart (TurnsTold T.told T.behind count) (SomeTurnsTold T.told T.behind count)
        (scene_of satl.old (D.state drive.old) steps.old teller.old (K.written sink.old))
        (scene_of satl.new (D.state drive.new) steps.new teller.new (K.written sink.new)) result }
    ensures leaves { Leaves satl.new (D.state drive.new) replies.new result }
    ensures fewer { OnOk result (length satl.new.tasks ≤ length satl.old.tasks - count) }
    ensures deep { OnOk result (depth (view satl.new (D.state drive.new)) ≤ length (D.state drive.new).outstanding) }
    ensures cause { HasCause (K.faults sink.old) (K.faults sink.new) result }
{
    for _ in 0..count {
        serve_turn(satl, teller, sink, drive, replies, steps)?;
    }
    see_queue(satl);
    Ok(())
}

/// Turns until no task waits, and the end of the output.
pub fn serve_end<T: Teller, K: Sink, D: Drive<L>, L: Ledger>(
    satl: &mut Satl,
    teller: &mut T,
    sink: &mut K,
    drive: &mut D,
    replies: &mut Replies,
    steps: &mut Steps<L>,
) -> Result<(), WriteFault>
    requires can { CanServeEvent Frame.End satl.old (D.state drive.old) replies.old }
    ensures done { WholeOrInPart (Done T.told T.behind Frame.End) (DoneInPart T.told T.behind Frame.End)
        (scene_of satl.old (D.state drive.old) steps.old teller.old (K.written sink.old))
        (scene_of satl.new (D.state drive.new) steps.new teller.new (K.written sink.new)) result }
    ensures leaves { Leaves satl.new (D.state drive.new) replies.new result }
    ensures cause { HasCause (K.faults sink.old) (K.faults sink.new) result }
{
    // Each turn ends one task at least.
    let count = satl.pending() as u16;
    serve_turns(satl, count, teller, sink, drive, replies, steps)?;
    teller.tell_end(sink)
}
