// One event on the unit of a number, among all units.
ghost use Rattle.std.specs.Prelude.{◌≡◌, ◌≤◌, ◌<◌, ◌+◌, ◌*◌, ◌∷◌, ℕ, [], OnErr, OnOk, length, vec_len};
ghost use Rattle.satl_io.specs.Causes.{HasCause};
ghost use Rattle.satl_frame.specs.declared.frames.Frame.{Frame};
ghost use Rattle.satl_base.specs.Limits.{IsExpectable};
ghost use Rattle.satl_pages.specs.Counts.{number_of};
ghost use Rattle.satl_step.specs.Runs.{calls_of};
ghost use Rattle.satl_fleet.specs.Rounds.{CallsNoneAt, DidAt, DidAtInPart, stage};
ghost use Rattle.satl_fleet.specs.Serving.{CanServe, KeepsUnits, calls_due, target};
ghost use Rattle.satl_fleet.specs.Shared.{frame_of};

use crate::shared::Shared;
use crate::unit::{lend, serve_unit};
use satl_base::{Replies, Request, Steps};
use satl_core::Satl;
use satl_drive::Bench;
use satl_frame::{Frame, WriteFault};
use satl_io::Sink;
use satl_pages::Pool;
use std::sync::ledger::Ledger;

/// Carries out what goes to each unit on the unit of this number.
pub fn serve_at<K: Sink, D: Bench<L>, L: Ledger>(
    units: &mut Vec<Satl>,
    drives: &mut Vec<D>,
    k: u8,
    event: &Shared<'_, '_>,
    sink: &mut K,
    replies: &mut Replies,
    steps: &mut Steps<L>,
) -> Result<(), WriteFault>
    requires serve { CanServe (target D.state units.old drives.old) replies.old }
    requires within { k < vec_len units.old }
    ensures done { OnOk result (DidAt k (frame_of event.now)
        (stage (target D.state units.old drives.old) (K.written sink.old))
        (stage (target D.state units.new drives.new) (K.written sink.new))) }
    ensures part { OnErr result (DidAtInPart k (frame_of event.now)
        (stage (target D.state units.old drives.old) (K.written sink.old))
        (stage (target D.state units.new drives.new) (K.written sink.new))) }
    ensures ready { OnOk result (CanServe (target D.state units.new drives.new) replies.new) }
    ensures keeps { KeepsUnits (target D.state units.old drives.old) (target D.state units.new drives.new) }
    ensures calls { calls_due (target D.state units.new drives.new) steps.new
        ≤ calls_due (target D.state units.old drives.old) steps.old + calls_of (frame_of event.now) }
    ensures uncalled { CallsNoneAt k (frame_of event.now) (target D.state units.old drives.old).units → steps.new ≡ steps.old }
    ensures cause { HasCause (K.faults sink.old) (K.faults sink.new) result }
{
    let satl = &mut units[k as usize];
    let drive = &mut drives[k as usize];
    let frame = event.again();
    serve_unit(satl, k, frame, sink, drive, replies, steps)
}

/// Carries out a request on the unit of this number, with pages of that unit. Those of the fleet's pool come back to it.
pub fn serve_request_at<K: Sink, D: Bench<L>, L: Ledger>(
    units: &mut Vec<Satl>,
    drives: &mut Vec<D>,
    pool: &mut Pool,
    k: u8,
    request: Request,
    sink: &mut K,
    replies: &mut Replies,
    steps: &mut Steps<L>,
) -> Result<(), WriteFault>
    requires serve { CanServe (target D.state units.old drives.old) replies.old }
    requires within { k < vec_len units.old }
    requires pages { pool.old.out ≡ length request.body }
    requires holds { request.data_len ≤ 512 * length request.body }
    requires expected { IsExpectable request.expected }
    ensures done { OnOk result (DidAt k (Frame.Request request)
        (stage (target D.state units.old drives.old) (K.written sink.old))
        (stage (target D.state units.new drives.new) (K.written sink.new))) }
    ensures part { OnErr result (DidAtInPart k (Frame.Request request)
        (stage (target D.state units.old drives.old) (K.written sink.old))
        (stage (target D.state units.new drives.new) (K.written sink.new))) }
    ensures ready { OnOk result (CanServe (target D.state units.new drives.new) replies.new) }
    ensures keeps { KeepsUnits (target D.state units.old drives.old) (target D.state units.new drives.new) }
    ensures calls { calls_due (target D.state units.new drives.new) steps.new
        ≤ calls_due (target D.state units.old drives.old) steps.old + calls_of (Frame.Request request) }
    ensures uncalled { CallsNoneAt k (Frame.Request request) (target D.state units.old drives.old).units → steps.new ≡ steps.old }
    ensures all_in { OnOk result (pool.new.out ≡ 0) }
    ensures number { number_of pool.new ≡ number_of pool.old }
    ensures cause { HasCause (K.faults sink.old) (K.faults sink.new) result }
{
    let satl = &mut units[k as usize];
    let drive = &mut drives[k as usize];
    let lent = lend(satl, pool, request);
    serve_unit(satl, k, Frame::Request(lent), sink, drive, replies, steps)
}
