// One event on one unit, whose answers are told under its name.
ghost use Rattle.std.specs.Prelude.{◌≡◌, ◌≤◌, ◌+◌, ◌*◌, ◌∷◌, [], OnErr, OnOk, length};
ghost use Rattle.satl_io.specs.Causes.{HasCause};
ghost use Rattle.satl_frame.specs.declared.frames.Frame.{Frame};
ghost use Rattle.satl_base.specs.Limits.{IsExpectable};
ghost use Rattle.satl_core.specs.Layer.{view};
ghost use Rattle.satl_core.specs.Submitting.{CanSubmit};
ghost use Rattle.satl_core.specs.Turning.{turn_calls};
ghost use Rattle.satl_step.specs.Events.{CallsNone, IsWholeOf};
ghost use Rattle.satl_step.specs.Runs.{calls_of};
ghost use Rattle.satl_step.specs.Serving.{CanServeEvent};
ghost use Rattle.satl_pages.specs.Counts.{number_of};
ghost use Rattle.satl_fleet.specs.Units.{IsTiedUnit, UnitDid, UnitDidInPart, unit_state};

use crate::telling::UnitTeller;
use satl_base::{Lender, Replies, Request, Steps};
use satl_core::Satl;
use satl_drive::Bench;
use satl_frame::{Frame, WriteFault};
use satl_io::Sink;
use satl_pages::Pool;
use satl_step::{see_queue, serve_event};
use std::sync::ledger::Ledger;

/// Lends pages of a unit to a request that was read into the fleet's pool: as many as it has, or all that the unit has free.
/// They go to the pool, which gives as many of the request's own for them; the request's other pages go back to the pool
/// (profile).
pub fn lend(satl: &mut Satl, pool: &mut Pool, mut request: Request) -> Request
    requires all_in { satl.old.out ≡ 0 }
    requires pages { pool.old.out ≡ length request.body }
    requires holds { request.data_len ≤ 512 * length request.body }
    requires expected { IsExpectable request.expected }
    ensures cut { IsWholeOf (Frame.Request result) (Frame.Request request) }
    ensures can { CanSubmit result satl.new.free satl.new.out }
    ensures rest { record satl.new { free = 0; out = 0 } ≡ record satl.old { free = 0; out = 0 } }
    ensures all_in { pool.new.out ≡ 0 }
    ensures number { number_of pool.new ≡ number_of pool.old }
{
    let count = request.body.blocks().min(satl.room());
    let Some(spare) = satl.take_pages(count) else {
        unreachable!();
    };
    pool.give(spare);
    let rest = request.body.split(count);
    pool.give(rest);
    request
}

/// Carries out one event on the unit of this number, and tells its answers under its name. `WriteFault` comes only where the
/// sink's count of faults rose (profile).
pub fn serve_unit<K: Sink, D: Bench<L>, L: Ledger>(
    satl: &mut Satl,
    unit: u8,
    event: Frame<'_>,
    sink: &mut K,
    drive: &mut D,
    replies: &mut Replies,
    steps: &mut Steps<L>,
) -> Result<(), WriteFault>
    requires can { CanServeEvent event satl.old (D.state drive.old) replies.old }
    ensures tied { IsTiedUnit (unit_state satl.new (D.state drive.new)) }
    ensures all_in { OnOk result (satl.new.out ≡ 0) }
    ensures none { OnOk result (replies.new ≡ []) }
    ensures done { (whole : Frame) → IsWholeOf event.entry whole → OnOk result (UnitDid unit whole
        (unit_state satl.old (D.state drive.old)) (unit_state satl.new (D.state drive.new))
        (K.written sink.old) (K.written sink.new)) }
    ensures part { (whole : Frame) → IsWholeOf event.entry whole → OnErr result (UnitDidInPart unit whole
        (unit_state satl.old (D.state drive.old)) (unit_state satl.new (D.state drive.new))
        (K.written sink.old) (K.written sink.new)) }
    ensures calls { steps.new + turn_calls * length satl.new.tasks
        ≤ steps.old + turn_calls * length satl.old.tasks + calls_of event.entry }
    ensures uncalled { CallsNone event.entry (view satl.old (D.state drive.old)) → steps.new ≡ steps.old }
    ensures cause { HasCause (K.faults sink.old) (K.faults sink.new) result }
{
    let mut teller = UnitTeller { unit, named: false };
    let served = serve_event(satl, event, &mut teller, sink, drive, replies, steps);
    see_queue(satl);
    served
}
