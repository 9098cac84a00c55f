// A load: a generated input is served, and its totals are written.
ghost use Rattle.std.specs.Prelude.{◌≤◌, IfErr, IfOk, None};
ghost use Rattle.std.specs.Result.{IsErrAnd};
ghost use Rattle.satl_base.specs.Limits.{input_limit};
ghost use Rattle.satl_identify.specs.declared.identity.IdentityFault.{IdentityFault};
ghost use Rattle.satl_barrier.specs.Leaving.{IsFree};
ghost use Rattle.satl_serve.specs.Moments.{SinkState, SourceState, moment, sink_state};
ghost use Rattle.satl_serve.specs.Stopping.{IsDriveRefused, TellsRefusal};
ghost use Rattle.satl_top.specs.Load.{IsLoaded, LoadStops, load_of};
ghost use Rattle.satl_top.specs.Top.{HasLoaded};

use crate::status::Status;
use satl_base::Steps;
use satl_drive::Bench;
use satl_gen::GenSource;
use satl_io::{Failed, Sink};
use satl_serve::{Form, ServeFault, serve};
use satl_text::{Summary, write_summary};
use std::alloc::Global;
use std::sync::ledger::Ledger;

/// Takes bytes and keeps none (profile).
#[derive(Drop)]
struct Nowhere;

impl Sink for Nowhere {
    ghost written = { λ _. None };

    ghost faults = { λ _. 0 };

    fn write(&mut self, piece: &[u8]) -> Result<usize, Failed> {
        Ok(piece.len())
    }
}

/// Serves a generated input, and counts its answers alone. It stops before the end of the input only where the layer is not
/// opened, and then nothing was served.
fn serve_generated<D: Bench<L>, L: Ledger>(
    alloc: Global,
    seed: u64,
    requests: u32,
    drive: &mut D,
    steps: &mut Steps<L>,
) -> Result<Summary, ServeFault>
    requires few { requests ≤ 100000 }
    requires free { IsFree (D.state drive.old) }
    ensures loaded { IfOk result (λ summary. (source : SourceState) (sink sink' : SinkState)
        → IsLoaded input_limit (load_of seed requests) summary (moment source sink steps.old (D.state drive.old))
        (moment source sink' steps.new (D.state drive.new))) }
    ensures stopped { IfErr result (λ fault. (source : SourceState) (sink : SinkState)
        → LoadStops (moment source sink steps.old (D.state drive.old)) (moment source sink steps.new (D.state drive.new))
        fault) }
    ensures refused { (fault : IdentityFault) → IsDriveRefused fault (D.state drive.old) (D.state drive.new)
        → IsErrAnd result (TellsRefusal fault) }
{
    let mut source = GenSource::new(seed, requests);
    serve(alloc, Form::Count, &mut source, &mut Nowhere, drive, steps)
}

/// Serves the generated input of a seed, of at most 100,000 requests, on the drive, counts its answers, and writes the seed and
/// the totals to the sink as seven lines of text. The drive has nothing outstanding and is in no error state, and its IDENTIFY
/// DEVICE data fit it. `Done`: all that was done. `WriteFault`: the input was served whole, but of the lines only a front was
/// written. `NoMemory` and `DriveRefused`: nothing was served or written. No other status comes. The drive is called at most
/// once for its identity, and 1,089 times for each request (profile).
pub fn load<K: Sink, D: Bench<L>, L: Ledger>(
    alloc: Global,
    seed: u64,
    requests: u32,
    sink: &mut K,
    drive: &mut D,
    steps: &mut Steps<L>,
) -> Status
    requires few { requests ≤ 100000 }
    requires free { IsFree (D.state drive.old) }
    ensures { (source : SourceState) → HasLoaded input_limit (load_of seed requests)
        (moment source (sink_state (K.written sink.old) (K.faults sink.old)) steps.old (D.state drive.old))
        (moment source (sink_state (K.written sink.new) (K.faults sink.new)) steps.new (D.state drive.new)) result }
{
    match serve_generated(alloc, seed, requests, drive, steps) {
        Ok(summary) => match write_summary(seed, &summary, sink) {
            Ok(()) => Status::Done,
            Err(_) => Status::WriteFault,
        },
        Err(fault) => Status::from(fault),
    }
}
