// An input of items is bridged.
ghost use Rattle.std.specs.Prelude.{◌≡◌, List, [], None, Some, IfErr, OnOk, MatchResult};
ghost use Rattle.std.specs.Result.{IsErrAnd};
ghost use Rattle.satl_base.specs.Limits.{input_limit};
ghost use Rattle.satl_identify.specs.declared.identity.IdentityFault.{IdentityFault};
ghost use Rattle.satl_barrier.specs.Leaving.{IsFree};
ghost use Rattle.satl_core.specs.Layer.{Tied};
ghost use Rattle.satl_step.specs.Runs.{IsDeep, stand_of, tally_of};
ghost use Rattle.satl_serve.specs.Completeness.{GoesWell};
ghost use Rattle.satl_serve.specs.Moments.{moment, sink_state, source_state, spot};
ghost use Rattle.satl_serve.specs.Stopping.{IsDriveRefused};
ghost use Rattle.satl_usb.specs.Headline.{Bridges, HasStreamCause, HasUsbCause, IsBridgedWhole, IsItemInput, IsStopped, MayStop, TellsRefusal, stop_at};
ghost use Rattle.satl_usb.specs.Items.{Item};

use crate::answering::answer_item;
use crate::fault::UsbFault;
use crate::items::{ItemFault, next_item, sent_length};
use satl_base::{Replies, Steps};
use satl_bot::CBW_SIZE;
use satl_core::Satl;
use satl_drive::Bench;
use satl_io::{Sink, Source};
use satl_step::see_queue;
use std::alloc::Global;
use std::sync::ledger::Ledger;

/// Bridges a USB disk: opens the layer on the drive, and carries out one item after the other up to the end of the input. An
/// item is the wrapper of a command and the data that the host sends; its answer, data and the wrapper of its status, is
/// written before the next item is read or waited for. Each item is a request of nexus 0 and one turn, to which exactly one
/// reply is given; but REQUEST SENSE is answered with the sense data of the item before it, where that failed, and then the
/// unit is asked nothing. `Open`: the layer was not opened, for the reason told, and nothing was read or written. `BadInput`:
/// what stands at the offset, in bytes, is no item; the items before it were carried out, and nothing is written for it. Of
/// what stands there exactly 31 bytes were taken, and behind a good wrapper whose item would end within 2^40 bytes the data
/// that it tells, or all where there are fewer; no byte behind these was waited for, unless there are fewer. `Read` and `Write`
/// come only where the source's or the sink's count of faults rose; at `Read` fewer bytes were taken than these; at `Write` all
/// items taken were carried out, and of the last one's answer a front was written. At every answer the drive was not unplugged,
/// and no order bytes were handed in to it. An input that is items to its end is carried out whole, where no count of faults
/// rises and the drive is not refused, or there is no memory before anything is read. No memory is taken behind the opening
/// (USB Mass Storage Class, Bulk-Only Transport 1.0, 5; profile).
pub fn serve_usb<S: Source, K: Sink, D: Bench<L>, L: Ledger>(
    alloc: Global,
    source: &mut S,
    sink: &mut K,
    drive: &mut D,
    steps: &mut Steps<L>,
) -> Result<(), UsbFault>
    requires { IsFree (D.state drive.old) }
    ensures bridged { OnOk result (IsBridgedWhole input_limit
        (moment (source_state (S.left source.old) (S.waited source.old) (S.faults source.old))
        (sink_state (K.written sink.old) (K.faults sink.old))
        steps.old (D.state drive.old))
        (moment (source_state (S.left source.new) (S.waited source.new) (S.faults source.new))
        (sink_state (K.written sink.new) (K.faults sink.new))
        steps.new (D.state drive.new))) }
    ensures stopped { IfErr result (IsStopped input_limit
        (moment (source_state (S.left source.old) (S.waited source.old) (S.faults source.old))
        (sink_state (K.written sink.old) (K.faults sink.old))
        steps.old (D.state drive.old))
        (moment (source_state (S.left source.new) (S.waited source.new) (S.faults source.new))
        (sink_state (K.written sink.new) (K.faults sink.new))
        steps.new (D.state drive.new))) }
    ensures causes { IfErr result (HasUsbCause
        (moment (source_state (S.left source.old) (S.waited source.old) (S.faults source.old))
        (sink_state (K.written sink.old) (K.faults sink.old))
        steps.old (D.state drive.old))
        (moment (source_state (S.left source.new) (S.waited source.new) (S.faults source.new))
        (sink_state (K.written sink.new) (K.faults sink.new))
        steps.new (D.state drive.new))) }
    ensures unplugs { (D.state drive.new).unplugs ≡ (D.state drive.old).unplugs }
    ensures orders { (D.state drive.new).orders ≡ (D.state drive.old).orders }
    ensures refused { (fault : IdentityFault) → IsDriveRefused fault (D.state drive.old) (D.state drive.new)
        → IsErrAnd result (TellsRefusal fault) }
    ensures complete { (items : List Item) → IsItemInput input_limit (S.left source.old) items
        → GoesWell
        (moment (source_state (S.left source.old) (S.waited source.old) (S.faults source.old))
        (sink_state (K.written sink.old) (K.faults sink.old))
        steps.old (D.state drive.old))
        (moment (source_state (S.left source.new) (S.waited source.new) (S.faults source.new))
        (sink_state (K.written sink.new) (K.faults sink.new))
        steps.new (D.state drive.new)) → MatchResult result (λ _. S.left source.new ≡ Some [])
        (MayStop (D.state drive.old) (D.state drive.new)) }
{
    let mut satl = Satl::open(alloc, drive, steps)?;
    let served = serve_items(alloc, &mut satl, source, sink, drive, steps);
    see_queue(&satl);
    served
}

/// The same, on a layer that was opened.
fn serve_items<S: Source, K: Sink, D: Bench<L>, L: Ledger>(
    alloc: Global,
    satl: &mut Satl,
    source: &mut S,
    sink: &mut K,
    drive: &mut D,
    steps: &mut Steps<L>,
) -> Result<(), UsbFault>
    requires tied { Tied satl.old (D.state drive.old) }
    requires all_in { satl.old.out ≡ 0 }
    requires idle { satl.old.tasks ≡ [] }
    requires deep { IsDeep (tally_of (D.state drive.old) steps.old) }
    ensures tied { Tied satl.new (D.state drive.new) }
    ensures bridges { Bridges input_limit
        (spot (S.left source.old) (S.waited source.old) (K.written sink.old) (stand_of satl.old (D.state drive.old) steps.old))
        (spot (S.left source.new) (S.waited source.new) (K.written sink.new)
        (stand_of satl.new (D.state drive.new) steps.new)) result }
    ensures causes { IfErr result (HasStreamCause (source_state (S.left source.old) (S.waited source.old) (S.faults source.old))
        (source_state (S.left source.new) (S.waited source.new) (S.faults source.new))
        (sink_state (K.written sink.old) (K.faults sink.old))
        (sink_state (K.written sink.new) (K.faults sink.new))) }
    ensures unplugs { (D.state drive.new).unplugs ≡ (D.state drive.old).unplugs }
    ensures orders { (D.state drive.new).orders ≡ (D.state drive.old).orders }
{
    let mut replies = Replies::new(alloc);
    let mut kept = None;
    let mut offset = 0;
    'items: loop {
        let item = match next_item(source, satl, offset) {
            Ok(Some(item)) => item,
            Ok(None) => return Ok(()),
            Err(fault) => return Err(stop_at(offset, fault)),
        };
        let end = offset + CBW_SIZE as u64 + u64::from(sent_length(&item.command));
        match answer_item(satl, item, kept, sink, drive, &mut replies, steps) {
            Ok(after) => kept = after,
            Err(_) => return Err(UsbFault::Write),
        }
        offset = end;
    }
}

/// Why the bridge stops where no item was read.
fn stop_at(offset: u64, fault: ItemFault) -> UsbFault
    ensures { result ≡ stop_at offset fault }
{
    match fault {
        ItemFault::Bad => UsbFault::BadInput { offset },
        ItemFault::Failed => UsbFault::Read,
    }
}
