// One frame over the units of a target.
ghost use Rattle.std.specs.Prelude.{◌≡◌, ℕ, ◌≤◌, ◌+◌, ◌*◌, ◌∷◌, [], OnErr, OnOk, length, vec_len};
ghost use Rattle.satl_io.specs.Causes.{HasCause};
ghost use Rattle.satl_frame.specs.declared.frames.Frame.{Frame};
ghost use Rattle.satl_frame.specs.Pulls.{frame_pages};
ghost use Rattle.satl_pages.specs.Counts.{number_of};
ghost use Rattle.satl_step.specs.Runs.{calls_of};
ghost use Rattle.satl_fleet.specs.Rounds.{AllDid, AllDidInPart, CallsNoneAt, CanRoute, IsTurnOrBench, NoneCalls};
ghost use Rattle.satl_fleet.specs.Rounds.{RoundDone, RoundInPart, frame_calls, stage};
ghost use Rattle.satl_fleet.specs.Serving.{CanServe, KeepsUnits, calls_due, target};
ghost use Rattle.satl_fleet.specs.Shared.{frame_of};

use crate::event::{serve_at, serve_request_at};
use crate::reporting::report;
use crate::routing::{LUN_0, Route, is_for_all, is_report, route_to};
use crate::shared::Shared;
use satl_base::{Manage, Replies, Request, Steps};
use satl_core::Satl;
use satl_drive::Bench;
use satl_frame::{Frame, OutFrame, WriteFault, write_frame};
use satl_io::Sink;
use satl_pages::Pool;
use std::sync::ledger::Ledger;

/// Carries out an event on each unit in order.
fn serve_all<K: Sink, D: Bench<L>, L: Ledger>(
    units: &mut Vec<Satl>,
    drives: &mut Vec<D>,
    event: &Shared<'_, '_>,
    sink: &mut K,
    replies: &mut Replies,
    steps: &mut Steps<L>,
) -> Result<(), WriteFault>
    requires serve { CanServe (target D.state units.old drives.old) replies.old }
    ensures done { OnOk result (AllDid (frame_of event.now)
        (stage (target D.state units.old drives.old) (K.written sink.old))
        (stage (target D.state units.new drives.new) (K.written sink.new))) }
    ensures part { OnErr result (AllDidInPart (frame_of event.now)
        (stage (target D.state units.old drives.old) (K.written sink.old))
        (stage (target D.state units.new drives.new) (K.written sink.new))) }
    ensures ready { OnOk result (CanServe (target D.state units.new drives.new) replies.new) }
    ensures keeps { KeepsUnits (target D.state units.old drives.old) (target D.state units.new drives.new) }
    ensures calls { calls_due (target D.state units.new drives.new) steps.new
        ≤ calls_due (target D.state units.old drives.old) steps.old
        + vec_len units.old * calls_of (frame_of event.now) }
    ensures uncalled { ((k : ℕ) → CallsNoneAt k (frame_of event.now) (target D.state units.old drives.old).units)
        → steps.new ≡ steps.old }
    ensures cause { HasCause (K.faults sink.old) (K.faults sink.new) result }
{
    for k in 0..units.len() as u8 {
        serve_at(units, drives, k, event, sink, replies, steps)?;
    }
    Ok(())
}

/// Carries out a request: the target answers REPORT LUNS, and one unit each other command.
fn serve_request<K: Sink, D: Bench<L>, L: Ledger>(
    units: &mut Vec<Satl>,
    drives: &mut Vec<D>,
    pool: &mut Pool,
    request: Request,
    sink: &mut K,
    replies: &mut Replies,
    steps: &mut Steps<L>,
) -> Result<(), WriteFault>
    requires serve { CanServe (target D.state units.old drives.old) replies.old }
    requires pages { pool.old.out ≡ length request.body }
    requires pool { 1 ≤ number_of pool.old }
    requires can { CanRoute (Frame.Request request) }
    ensures done { OnOk result (RoundDone (vec_len units.old) (Frame.Request request)
        (stage (target D.state units.old drives.old) (K.written sink.old))
        (stage (target D.state units.new drives.new) (K.written sink.new))) }
    ensures part { OnErr result (RoundInPart (vec_len units.old) (Frame.Request request)
        (stage (target D.state units.old drives.old) (K.written sink.old))
        (stage (target D.state units.new drives.new) (K.written sink.new))) }
    ensures ready { OnOk result (CanServe (target D.state units.new drives.new) replies.new) }
    ensures keeps { KeepsUnits (target D.state units.old drives.old) (target D.state units.new drives.new) }
    ensures calls { calls_due (target D.state units.new drives.new) steps.new
        ≤ calls_due (target D.state units.old drives.old) steps.old + frame_calls (vec_len units.old) (Frame.Request request) }
    ensures uncalled { NoneCalls (vec_len units.old) (Frame.Request request) (target D.state units.old drives.old).units
        → steps.new ≡ steps.old }
    ensures all_in { OnOk result (pool.new.out ≡ 0) }
    ensures number { number_of pool.new ≡ number_of pool.old }
    ensures cause { HasCause (K.faults sink.old) (K.faults sink.new) result }
{
    let count = units.len() as u8;
    if is_report(&request) {
        return report(count, request, pool, sink);
    }
    let Route { unit, lun } = route_to(count, &request.lun);
    let request = Request { lun, ..request };
    serve_request_at(units, drives, pool, unit, request, sink, replies, steps)
}

/// Carries out a task management function: I_T NEXUS RESET on each unit, and the others on one.
fn serve_manage<K: Sink, D: Bench<L>, L: Ledger>(
    units: &mut Vec<Satl>,
    drives: &mut Vec<D>,
    manage: Manage,
    sink: &mut K,
    replies: &mut Replies,
    steps: &mut Steps<L>,
) -> Result<(), WriteFault>
    requires serve { CanServe (target D.state units.old drives.old) replies.old }
    ensures done { OnOk result (RoundDone (vec_len units.old) (Frame.Manage manage)
        (stage (target D.state units.old drives.old) (K.written sink.old))
        (stage (target D.state units.new drives.new) (K.written sink.new))) }
    ensures part { OnErr result (RoundInPart (vec_len units.old) (Frame.Manage manage)
        (stage (target D.state units.old drives.old) (K.written sink.old))
        (stage (target D.state units.new drives.new) (K.written sink.new))) }
    ensures ready { OnOk result (CanServe (target D.state units.new drives.new) replies.new) }
    ensures keeps { KeepsUnits (target D.state units.old drives.old) (target D.state units.new drives.new) }
    ensures calls { calls_due (target D.state units.new drives.new) steps.new
        ≤ calls_due (target D.state units.old drives.old) steps.old + frame_calls (vec_len units.old) (Frame.Manage manage) }
    ensures uncalled { NoneCalls (vec_len units.old) (Frame.Manage manage) (target D.state units.old drives.old).units
        → steps.new ≡ steps.old }
    ensures cause { HasCause (K.faults sink.old) (K.faults sink.new) result }
{
    if is_for_all(&manage) {
        let event = Shared::Manage(Manage {
            lun: LUN_0,
            ..manage
        });
        return serve_all(units, drives, &event, sink, replies, steps);
    }
    let Route { unit, lun } = route_to(units.len() as u8, &manage.lun);
    let event = Shared::Manage(Manage { lun, ..manage });
    serve_at(units, drives, unit, &event, sink, replies, steps)
}

/// The end of an input: of each unit, and then of the output.
fn serve_end<K: Sink, D: Bench<L>, L: Ledger>(
    units: &mut Vec<Satl>,
    drives: &mut Vec<D>,
    sink: &mut K,
    replies: &mut Replies,
    steps: &mut Steps<L>,
) -> Result<(), WriteFault>
    requires serve { CanServe (target D.state units.old drives.old) replies.old }
    ensures done { OnOk result (RoundDone (vec_len units.old) Frame.End
        (stage (target D.state units.old drives.old) (K.written sink.old))
        (stage (target D.state units.new drives.new) (K.written sink.new))) }
    ensures part { OnErr result (RoundInPart (vec_len units.old) Frame.End
        (stage (target D.state units.old drives.old) (K.written sink.old))
        (stage (target D.state units.new drives.new) (K.written sink.new))) }
    ensures ready { OnOk result (CanServe (target D.state units.new drives.new) replies.new) }
    ensures keeps { KeepsUnits (target D.state units.old drives.old) (target D.state units.new drives.new) }
    ensures calls { calls_due (target D.state units.new drives.new) steps.new
        ≤ calls_due (target D.state units.old drives.old) steps.old + frame_calls (vec_len units.old) Frame.End }
    ensures uncalled { NoneCalls (vec_len units.old) Frame.End (target D.state units.old drives.old).units
        → steps.new ≡ steps.old }
    ensures cause { HasCause (K.faults sink.old) (K.faults sink.new) result }
{
    serve_all(units, drives, &Shared::End, sink, replies, steps)?;
    write_frame(OutFrame::End, sink)
}

/// Carries out a frame on the units that it goes to, and tells their answers. The pages that are out of the fleet's pool are
/// those of the frame; they come back to it. `WriteFault` comes only where the sink's count of faults rose; then units from the
/// first on did what the frame is to them, one perhaps in part, and those behind that one did nothing (profile).
pub fn serve_frame<K: Sink, D: Bench<L>, L: Ledger>(
    units: &mut Vec<Satl>,
    drives: &mut Vec<D>,
    pool: &mut Pool,
    frame: Frame<'_>,
    sink: &mut K,
    replies: &mut Replies,
    steps: &mut Steps<L>,
) -> Result<(), WriteFault>
    requires serve { CanServe (target D.state units.old drives.old) replies.old }
    requires pages { pool.old.out ≡ frame_pages frame }
    requires pool { 1 ≤ number_of pool.old }
    requires can { CanRoute frame }
    ensures done { OnOk result (RoundDone (vec_len units.old) frame.entry
        (stage (target D.state units.old drives.old) (K.written sink.old))
        (stage (target D.state units.new drives.new) (K.written sink.new))) }
    ensures part { OnErr result (RoundInPart (vec_len units.old) frame.entry
        (stage (target D.state units.old drives.old) (K.written sink.old))
        (stage (target D.state units.new drives.new) (K.written sink.new))) }
    ensures ready { OnOk result (CanServe (target D.state units.new drives.new) replies.new) }
    ensures keeps { KeepsUnits (target D.state units.old drives.old) (target D.state units.new drives.new) }
    ensures calls { calls_due (target D.state units.new drives.new) steps.new
        ≤ calls_due (target D.state units.old drives.old) steps.old + frame_calls (vec_len units.old) frame.entry }
    ensures uncalled { NoneCalls (vec_len units.old) frame.entry (target D.state units.old drives.old).units
        → steps.new ≡ steps.old }
    ensures all_in { OnOk result (pool.new.out ≡ 0) }
    ensures number { number_of pool.new ≡ number_of pool.old }
    ensures cause { HasCause (K.faults sink.old) (K.faults sink.new) result }
{
    match frame {
        Frame::Request(request) => {
            serve_request(units, drives, pool, request, sink, replies, steps)
        }
        Frame::Manage(manage) => serve_manage(units, drives, manage, sink, replies, steps),
        Frame::Turn(count) => {
            serve_shared(units, drives, &Shared::Turn(count), sink, replies, steps)
        }
        Frame::Bench(ref event) => {
            serve_shared(units, drives, &Shared::Bench(event), sink, replies, steps)
        }
        Frame::End => serve_end(units, drives, sink, replies, steps),
    }
}

/// Turns, or an event of the bench, on each unit.
fn serve_shared<K: Sink, D: Bench<L>, L: Ledger>(
    units: &mut Vec<Satl>,
    drives: &mut Vec<D>,
    event: &Shared<'_, '_>,
    sink: &mut K,
    replies: &mut Replies,
    steps: &mut Steps<L>,
) -> Result<(), WriteFault>
    requires serve { CanServe (target D.state units.old drives.old) replies.old }
    requires plain { IsTurnOrBench (frame_of event.now) }
    ensures done { OnOk result (RoundDone (vec_len units.old) (frame_of event.now)
        (stage (target D.state units.old drives.old) (K.written sink.old))
        (stage (target D.state units.new drives.new) (K.written sink.new))) }
    ensures part { OnErr result (RoundInPart (vec_len units.old) (frame_of event.now)
        (stage (target D.state units.old drives.old) (K.written sink.old))
        (stage (target D.state units.new drives.new) (K.written sink.new))) }
    ensures ready { OnOk result (CanServe (target D.state units.new drives.new) replies.new) }
    ensures keeps { KeepsUnits (target D.state units.old drives.old) (target D.state units.new drives.new) }
    ensures calls { calls_due (target D.state units.new drives.new) steps.new
        ≤ calls_due (target D.state units.old drives.old) steps.old + frame_calls (vec_len units.old) (frame_of event.now) }
    ensures uncalled { NoneCalls (vec_len units.old) (frame_of event.now) (target D.state units.old drives.old).units
        → steps.new ≡ steps.old }
    ensures cause { HasCause (K.faults sink.old) (K.faults sink.new) result }
{
    serve_all(units, drives, event, sink, replies, steps)
}
