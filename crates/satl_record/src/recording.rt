// A record is read, judged and told.
ghost use Rattle.std.specs.Prelude.{◌≡◌, ◌≤◌, ◌+◌, IsErrOf};
ghost use Rattle.satl_io.specs.Causes.{Rose};
ghost use Rattle.satl_barrier.specs.Leaving.{IsFree};
ghost use Rattle.satl_record.specs.Ends.{IsRefusedFor, RecordEnds};
ghost use Rattle.satl_barrier.specs.Commands.{IsUndisturbed};
ghost use Rattle.satl_record.specs.declared.fault.RecordFault.TheVariants as faults;

use crate::container::read_record;
use crate::fault::RecordFault;
use crate::identity::told_identity;
use crate::telling::{tell_refusal, tell_verdict};
use satl_audit::{AuditFault, Verdict, audit};
use satl_base::Steps;
use satl_drive::Drive;
use satl_io::{Sink, Source};
use std::alloc::Global;
use std::sync::ledger::Ledger;

/// Says in a line whether the record of a source is that of a run, for a device of the drive's identity (profile). The drive is
/// called once at most, and left undisturbed. Each fault but `BadInput` and `Write` leaves the sink as it was: `Drive` comes
/// first, and then nothing is read; `Read` and `Write` come only where the count of faults rose; `NoMemory` may come at any
/// time. `NoRecord`, `Read` and `NoMemory` leave a rest of the source.
pub fn audit_record<S: Source, K: Sink, D: Drive<L>, L: Ledger>(
    alloc: Global,
    source: &mut S,
    sink: &mut K,
    drive: &mut D,
    steps: &mut Steps<L>,
) -> Result<Verdict, RecordFault>
    requires free { IsFree (D.state drive.old) }
    ensures ends { RecordEnds (D.state drive.old).identify (S.left source.old) (S.left source.new) (K.written sink.old)
        (K.written sink.new) result }

    // Counts of faults do not fall, and each cause is one of these.
    ensures reads { S.faults source.old ≤ S.faults source.new }
    ensures writes { K.faults sink.old ≤ K.faults sink.new }
    ensures read { IsErrOf result faults.Read → Rose (S.faults source.old) (S.faults source.new) }
    ensures write { IsErrOf result faults.Write → Rose (K.faults sink.old) (K.faults sink.new) }
    ensures refused { IsErrOf result faults.Drive
        → IsRefusedFor (D.state drive.old).identify (D.state drive.old).faults (D.state drive.new).faults }

    // The drive is left undisturbed, and called once at most.
    ensures alone { IsUndisturbed (D.state drive.old) (D.state drive.new) }
    ensures steps { steps.new ≤ steps.old + 1 }
{
    let identity = told_identity(alloc, drive, steps)?;
    let found = read_record(alloc, source)?;
    match audit(alloc, &identity, &found.input, &found.output) {
        Ok(verdict) => tell_verdict(sink, verdict),
        Err(AuditFault::BadInput { reason, offset }) => tell_refusal(sink, reason, offset),
        Err(AuditFault::NoMemory) => Err(RecordFault::NoMemory),
    }
}
