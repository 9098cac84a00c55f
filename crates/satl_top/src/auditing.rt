// A record that is handed in.
ghost use Rattle.std.specs.Prelude.{◌≡◌, [], None};
ghost use Rattle.satl_barrier.specs.Leaving.{IsFree};
ghost use Rattle.satl_serve.specs.Moments.{moment, sink_state, source_state};
ghost use Rattle.satl_top.specs.Auditing.{status_of_record};
ghost use Rattle.satl_top.specs.Top.{HasJudged};

use crate::status::Status;
use satl_audit::Verdict;
use satl_base::Steps;
use satl_drive::Drive;
use satl_io::{Sink, Source};
use satl_record::{RecordFault, audit_record};
use std::alloc::Global;
use std::sync::ledger::Ledger;

/// The status of a record that was judged, or was not.
fn status_of_record(ended: Result<Verdict, RecordFault>) -> Status
    ensures { result ≡ status_of_record ended }
{
    match ended {
        Ok(Verdict::Yes) => Status::Done,
        Ok(Verdict::No) => Status::No,
        Ok(Verdict::NotCovered { .. }) => Status::NotCovered,
        Err(RecordFault::Drive) => Status::DriveRefused,
        Err(RecordFault::NoRecord | RecordFault::BadInput) => Status::BadInput,
        Err(RecordFault::Read) => Status::ReadFault,
        Err(RecordFault::Write) => Status::WriteFault,
        Err(RecordFault::NoMemory) => Status::NoMemory,
    }
}

/// Judges the record that was handed in for a device of the drive's identity, and says in a line what was found.
pub fn judge_record<S: Source, K: Sink, D: Drive<L>, L: Ledger>(
    alloc: Global,
    source: &mut S,
    sink: &mut K,
    drive: &mut D,
    steps: &mut Steps<L>,
) -> Status
    requires { IsFree (D.state drive.old) }
    ensures { HasJudged
        (moment (source_state (S.left source.old) (S.waited source.old) (S.faults source.old))
        (sink_state (K.written sink.old) (K.faults sink.old))
        steps.old (D.state drive.old))
        (moment (source_state (S.left source.new) (S.waited source.new) (S.faults source.new))
        (sink_state (K.written sink.new) (K.faults sink.new))
        steps.new (D.state drive.new)) result }
{
    status_of_record(audit_record(alloc, source, sink, drive, steps))
}
