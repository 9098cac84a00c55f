// An input is served.
ghost use Rattle.std.specs.Prelude.{◌≡◌, ◌≤◌, [], IfErr, IfOk};
ghost use Rattle.satl_base.specs.Limits.{input_limit};
ghost use Rattle.satl_io.specs.Causes.{Rose};
ghost use Rattle.satl_barrier.specs.Leaving.{IsFree};
ghost use Rattle.satl_core.specs.Layer.{Tied};
ghost use Rattle.satl_step.specs.Runs.{IsDeep, stand_of, tally_of};
ghost use Rattle.satl_serve.specs.Headline.{IsServedToEnd, IsServedWhole, ResultSays};
ghost use Rattle.satl_serve.specs.Moments.{moment, sink_state, source_state, spot};
ghost use Rattle.satl_serve.specs.Stopping.{HasStreamCause, RanTo, Tells, TellsStop};
ghost use Rattle.satl_serve.specs.Tellers.{IsServedBy, RanBy, TellsIn};

use crate::printer::{Counter, Printer};
use crate::telling::{Form, tell_beginning, tell_fault};
use satl_base::{INPUT_LIMIT, Steps};
use satl_core::{OpenFault, Satl};
use satl_drive::Bench;
use satl_frame::{FrameFault, FrameReader, Reason, WriteFault};
use satl_io::{Sink, Source};
use satl_step::{Stop, Teller, see_queue, serve_frames};
use satl_text::Summary;
use std::alloc::Global;
use std::sync::ledger::Ledger;
use thiserror::Error;

/// Why serving stopped before the end of the input (profile).
#[derive(Clone, Copy, Debug, PartialEq, Eq, Error)]
pub enum ServeFault {
    /// The layer was not opened, for this cause.
    #[error("the layer was not opened")]
    Open(OpenFault),
    /// The input is refused.
    #[error("the input is refused")]
    BadInput {
        /// Why it is.
        reason: Reason,
        /// Where the first byte of what is refused stands in the input.
        offset: u64,
    },
    /// A read of the source failed.
    #[error("a read failed")]
    Read,
    /// A write to the sink failed.
    #[error("a write failed")]
    Write,
}

impl From<WriteFault> for ServeFault {
    ghost use Rattle.std.specs.Prelude.{◌≡◌};
    ghost use Rattle.satl_serve.specs.declared.serving.ServeFault.TheVariants as faults;

    ghost from_gives = { λ _ e. e ≡ faults.Write };

    fn from(_: WriteFault) -> ServeFault {
        ServeFault::Write
    }
}

impl From<OpenFault> for ServeFault {
    ghost use Rattle.std.specs.Prelude.{◌≡◌};
    ghost use Rattle.satl_serve.specs.declared.serving.ServeFault.TheVariants as faults;

    ghost from_gives = { λ fault e. e ≡ faults.Open fault };

    fn from(fault: OpenFault) -> ServeFault {
        ServeFault::Open(fault)
    }
}

/// Serves an input of frames: opens the layer on the drive, and carries out one frame after the other up to END, which ends it.
/// The drive has nothing outstanding and is in no error state, and its IDENTIFY DEVICE data fit it. Answers are written in the
/// form, each before the next frame is read or waited for; before frames stands the magic of the output. `Open`: the layer was
/// not opened, for the reason told, and nothing was read or written; refused IDENTIFY DEVICE data are told, but for a lost link
/// and want of memory. `BadInput` comes after its FAULT frame or line was written, with the reason and the offset of the
/// refused frame in bytes, and no byte behind that frame was waited for, unless none is left. `Read` and `Write` come only
/// where the source's or the sink's count of faults rose. An input that can be read to END ends so, or by want of memory or a
/// lost link before anything is read, where neither the source's nor the sink's count of faults rises and the drive is not
/// refused. It gives the totals of the whole input. The drive is called at most once for its identity, 1,089 times for each
/// request and 33 times for each task management function, in sum; those between an UNPLUG and the next POWER add none
/// (profile).
pub fn serve<S: Source, K: Sink, D: Bench<L>, L: Ledger>(
    alloc: Global,
    form: Form,
    source: &mut S,
    sink: &mut K,
    drive: &mut D,
    steps: &mut Steps<L>,
) -> Result<Summary, ServeFault>
    requires { IsFree (D.state drive.old) }
    ensures served { IfOk result (λ summary. IsServedWhole form input_limit summary
        (moment (source_state (S.left source.old) (S.waited source.old) (S.faults source.old))
        (sink_state (K.written sink.old) (K.faults sink.old))
        steps.old (D.state drive.old))
        (moment (source_state (S.left source.new) (S.waited source.new) (S.faults source.new))
        (sink_state (K.written sink.new) (K.faults sink.new))
        steps.new (D.state drive.new))) }
    ensures says { ResultSays form input_limit
        (moment (source_state (S.left source.old) (S.waited source.old) (S.faults source.old))
        (sink_state (K.written sink.old) (K.faults sink.old))
        steps.old (D.state drive.old))
        (moment (source_state (S.left source.new) (S.waited source.new) (S.faults source.new))
        (sink_state (K.written sink.new) (K.faults sink.new))
        steps.new (D.state drive.new)) result }
{
    let mut counter = Counter::new(form);
    let requests = serve_by(alloc, form, &mut counter, source, sink, drive, steps)?;
    Ok(counter.totals(requests))
}

/// The same for who wants no totals, with the same premise (profile): data-in is not summed then, which is a good part of what
/// a READ costs.
pub fn serve_uncounted<S: Source, K: Sink, D: Bench<L>, L: Ledger>(
    alloc: Global,
    form: Form,
    source: &mut S,
    sink: &mut K,
    drive: &mut D,
    steps: &mut Steps<L>,
) -> Result<(), ServeFault>
    requires { IsFree (D.state drive.old) }
    ensures served { IfOk result (λ _. IsServedToEnd form input_limit
        (moment (source_state (S.left source.old) (S.waited source.old) (S.faults source.old))
        (sink_state (K.written sink.old) (K.faults sink.old))
        steps.old (D.state drive.old))
        (moment (source_state (S.left source.new) (S.waited source.new) (S.faults source.new))
        (sink_state (K.written sink.new) (K.faults sink.new))
        steps.new (D.state drive.new))) }
    ensures says { ResultSays form input_limit
        (moment (source_state (S.left source.old) (S.waited source.old) (S.faults source.old))
        (sink_state (K.written sink.old) (K.faults sink.old))
        steps.old (D.state drive.old))
        (moment (source_state (S.left source.new) (S.waited source.new) (S.faults source.new))
        (sink_state (K.written sink.new) (K.faults sink.new))
        steps.new (D.state drive.new)) result }
{
    serve_by(
        alloc,
        form,
        &mut Printer::new(form),
        source,
        sink,
        drive,
        steps,
    )?;
    Ok(())
}

/// The same, where a teller tells the answers in the form. Gives the number of requests, which stands still at 2^64 - 1.
fn serve_by<T: Teller, S: Source, K: Sink, D: Bench<L>, L: Ledger>(
    alloc: Global,
    form: Form,
    teller: &mut T,
    source: &mut S,
    sink: &mut K,
    drive: &mut D,
    steps: &mut Steps<L>,
) -> Result<u64, ServeFault>
    requires tells { TellsIn T.told T.behind form teller.old }
    requires free { IsFree (D.state drive.old) }
    ensures served { IfOk result (λ requests. IsServedBy T.behind form input_limit teller.old teller.new requests
        (moment (source_state (S.left source.old) (S.waited source.old) (S.faults source.old))
        (sink_state (K.written sink.old) (K.faults sink.old))
        steps.old (D.state drive.old))
        (moment (source_state (S.left source.new) (S.waited source.new) (S.faults source.new))
        (sink_state (K.written sink.new) (K.faults sink.new))
        steps.new (D.state drive.new))) }
    ensures says { ResultSays form input_limit
        (moment (source_state (S.left source.old) (S.waited source.old) (S.faults source.old))
        (sink_state (K.written sink.old) (K.faults sink.old))
        steps.old (D.state drive.old))
        (moment (source_state (S.left source.new) (S.waited source.new) (S.faults source.new))
        (sink_state (K.written sink.new) (K.faults sink.new))
        steps.new (D.state drive.new)) result }
{
    let mut satl = Satl::open(alloc, drive, steps)?;
    let served = serve_opened(alloc, form, teller, &mut satl, source, sink, drive, steps);
    see_queue(&satl);
    served
}

/// The same, on a layer that was opened: what stands before all answers is written, and the frames are carried out up to END.
fn serve_opened<T: Teller, S: Source, K: Sink, D: Bench<L>, L: Ledger>(
    alloc: Global,
    form: Form,
    teller: &mut T,
    satl: &mut Satl,
    source: &mut S,
    sink: &mut K,
    drive: &mut D,
    steps: &mut Steps<L>,
) -> Result<u64, ServeFault>
    requires tells { TellsIn T.told T.behind form teller.old }
    requires tied { Tied satl.old (D.state drive.old) }
    requires all_in { satl.old.out ≡ 0 }
    requires idle { satl.old.tasks ≡ [] }
    requires deep { IsDeep (tally_of (D.state drive.old) steps.old) }
    ensures tied { Tied satl.new (D.state drive.new) }
    ensures whole { IfOk result (λ requests. RanBy T.behind form input_limit teller.old teller.new requests
        (spot (S.left source.old) (S.waited source.old) (K.written sink.old) (stand_of satl.old (D.state drive.old) steps.old))
        (spot (S.left source.new) (S.waited source.new) (K.written sink.new)
        (stand_of satl.new (D.state drive.new) steps.new))) }
    ensures stopped { IfErr result (RanTo form input_limit
        (spot (S.left source.old) (S.waited source.old) (K.written sink.old) (stand_of satl.old (D.state drive.old) steps.old))
        (spot (S.left source.new) (S.waited source.new) (K.written sink.new)
        (stand_of satl.new (D.state drive.new) steps.new))) }
    ensures causes { IfErr result (HasStreamCause (source_state (S.left source.old) (S.waited source.old) (S.faults source.old))
        (source_state (S.left source.new) (S.waited source.new) (S.faults source.new))
        (sink_state (K.written sink.old) (K.faults sink.old))
        (sink_state (K.written sink.new) (K.faults sink.new))) }
{
    tell_beginning(form, sink)?;
    let mut reader = FrameReader::new(alloc, INPUT_LIMIT);
    match serve_frames(alloc, &mut reader, satl, source, teller, sink, drive, steps) {
        Ok(requests) => Ok(requests),
        Err(stop) => Err(tell_stop(form, stop, sink)),
    }
}

/// Why serving stops at a reader's refusal: of a bad frame is told first.
fn refuse<K: Sink>(form: Form, fault: FrameFault, sink: &mut K) -> ServeFault
    ensures tells { Tells form fault (K.written sink.old) (K.written sink.new) result }
    ensures later { K.faults sink.old ≤ K.faults sink.new }
    ensures write { (result ≡ ServeFault.Write) → Rose (K.faults sink.old) (K.faults sink.new) }
{
    match fault {
        FrameFault::ReadFault => ServeFault::Read,
        FrameFault::Bad { reason, offset } => {
            match tell_fault(form, reason, offset, sink) {
                Ok(()) => ServeFault::BadInput { reason, offset },
                Err(WriteFault) => ServeFault::Write,
            }
        }
    }
}

/// Why serving stops where frames are carried out no further: a bad frame is told in the form, and nothing else is written
/// (profile).
pub fn tell_stop<K: Sink>(form: Form, stop: Stop, sink: &mut K) -> ServeFault
    ensures { TellsStop form (sink_state (K.written sink.old) (K.faults sink.old))
        (sink_state (K.written sink.new) (K.faults sink.new)) result stop }
{
    match stop {
        Stop::Refused(fault) => refuse(form, fault, sink),
        Stop::Write => ServeFault::Write,
    }
}
