// A USB disk bridge.
ghost use Rattle.satl_base.specs.Limits.{input_limit};
ghost use Rattle.satl_barrier.specs.Leaving.{IsFree};
ghost use Rattle.satl_serve.specs.Moments.{moment, sink_state, source_state};
ghost use Rattle.satl_top.specs.Top.{HasBridged};

use crate::status::Status;
use satl_base::Steps;
use satl_drive::Bench;
use satl_io::{Sink, Source};
use satl_usb::serve_usb;
use std::alloc::Global;
use std::sync::ledger::Ledger;

/// Carries out the items of the source on the drive, and answers them on the wire of USB Bulk-Only Transport, up to the end of
/// the source. The drive has nothing outstanding and is in no error state, and its IDENTIFY DEVICE data fit it. `Done`: all was
/// items. `BadInput`: the items before what is refused were carried out, and nothing was written for that. `NoMemory` and
/// `DriveRefused`: nothing was read or written (profile).
pub fn bridge<S: Source, K: Sink, D: Bench<L>, L: Ledger>(
    alloc: Global,
    source: &mut S,
    sink: &mut K,
    drive: &mut D,
    steps: &mut Steps<L>,
) -> Status
    requires { IsFree (D.state drive.old) }
    ensures { HasBridged input_limit
        (moment (source_state (S.left source.old) (S.waited source.old) (S.faults source.old))
        (sink_state (K.written sink.old) (K.faults sink.old))
        steps.old (D.state drive.old))
        (moment (source_state (S.left source.new) (S.waited source.new) (S.faults source.new))
        (sink_state (K.written sink.new) (K.faults sink.new))
        steps.new (D.state drive.new)) result }
{
    match serve_usb(alloc, source, sink, drive, steps) {
        Ok(()) => Status::Done,
        Err(fault) => Status::from(fault),
    }
}
