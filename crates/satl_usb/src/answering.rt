// One item is answered.
ghost use Rattle.std.specs.Prelude.{◌≡◌, ◌==◌, [], OnErr, OnOk, slice_index};
ghost use Rattle.satl_cdb.specs.PrimaryCommands.{request_sense_code};
ghost use Rattle.satl_io.specs.Causes.{HasCause};
ghost use Rattle.satl_io.specs.Known.{Wrote, WrotePart};
ghost use Rattle.satl_frame.specs.declared.frames.Frame.{Frame};
ghost use Rattle.satl_core.specs.Submitting.{CanSubmit};
ghost use Rattle.satl_step.specs.Runs.{stand_of};
ghost use Rattle.satl_step.specs.Serving.{CanServeEvent, Leaves};
ghost use Rattle.satl_usb.specs.Answering.{AnswersItem, SendsItem, desk, point, request_taken};
ghost use Rattle.satl_usb.specs.Wire.{kept_on_wire};

use crate::items::{Taken, sent_length};
use crate::serving::serve_item;
use crate::telling::ItemTeller;
use crate::wire::tell_kept;
use satl_base::{Attr, Nexus, Replies, Request, SenseBytes, Steps, Tag};
use satl_bot::Cbw;
use satl_cdb::REQUEST_SENSE;
use satl_core::Satl;
use satl_drive::Bench;
use satl_frame::WriteFault;
use satl_io::Sink;
use std::sync::ledger::Ledger;

/// Whether a command is REQUEST SENSE (SPC-4 6.39).
fn asks_sense(command: &Cbw) -> bool
    ensures { result ≡ (slice_index command.now.cdb 0 == request_sense_code) }
{
    command.cdb[0] == REQUEST_SENSE
}

/// The request of an item.
fn request_of(item: Taken) -> Request
    ensures { result ≡ request_taken item }
{
    Request {
        nexus: Nexus::default(),
        attr: Attr::Simple,
        lun: [0, item.command.lun, 0, 0, 0, 0, 0, 0],
        tag: Tag(0),
        cdb: item.command.cdb,
        data_len: sent_length(&item.command),
        body: item.body,
        expected: None,
    }
}

/// Answers an item with the sense data that is kept, and asks the unit nothing. Its pages are given back.
fn repeat_sense<K: Sink>(
    satl: &mut Satl,
    item: Taken,
    sense: &SenseBytes,
    sink: &mut K,
) -> Result<(), WriteFault>
    requires can { CanSubmit (request_taken item) satl.old.free satl.old.out }
    ensures stays { satl.new ≡ record satl.old { free = satl.new.free; out = satl.new.out } }
    ensures all_in { satl.new.out ≡ 0 }
    ensures all { OnOk result (Wrote (K.written sink.old) (K.written sink.new) (kept_on_wire item.command sense.now)) }
    ensures part { OnErr result (WrotePart (K.written sink.old) (K.written sink.new) (kept_on_wire item.command sense.now)) }
    ensures cause { HasCause (K.faults sink.old) (K.faults sink.new) result }
{
    satl.recycle(item.body);
    tell_kept(&item.command, sense, sink)
}

/// Sends an item to the unit, and gives the sense data of its reply, where it failed.
fn send_item<K: Sink, D: Bench<L>, L: Ledger>(
    satl: &mut Satl,
    item: Taken,
    sink: &mut K,
    drive: &mut D,
    replies: &mut Replies,
    steps: &mut Steps<L>,
) -> Result<Option<SenseBytes>, WriteFault>
    requires can { CanServeEvent (Frame.Request (request_taken item)) satl.old (D.state drive.old) replies.old }
    requires idle { satl.old.tasks ≡ [] }
    ensures sent { SendsItem item
        (point (stand_of satl.old (D.state drive.old) steps.old) (K.written sink.old))
        (point (stand_of satl.new (D.state drive.new) steps.new) (K.written sink.new)) result }
    ensures leaves { Leaves satl.new (D.state drive.new) replies.new result }
    ensures idle { OnOk result (satl.new.tasks ≡ []) }
    ensures cause { HasCause (K.faults sink.old) (K.faults sink.new) result }
{
    let mut teller = ItemTeller {
        command: item.command,
        kept: None,
    };
    serve_item(
        satl,
        request_of(item),
        &mut teller,
        sink,
        drive,
        replies,
        steps,
    )?;
    Ok(teller.kept)
}

/// Answers one item: REQUEST SENSE with the sense data that is kept, where some is; else its request is sent to the unit and
/// one turn is taken. Gives the sense data that is then kept. `WriteFault` comes only where the sink's count of faults rose;
/// then a front of the one answer was written (profile).
pub fn answer_item<K: Sink, D: Bench<L>, L: Ledger>(
    satl: &mut Satl,
    item: Taken,
    kept: Option<SenseBytes>,
    sink: &mut K,
    drive: &mut D,
    replies: &mut Replies,
    steps: &mut Steps<L>,
) -> Result<Option<SenseBytes>, WriteFault>
    requires can { CanServeEvent (Frame.Request (request_taken item)) satl.old (D.state drive.old) replies.old }
    requires idle { satl.old.tasks ≡ [] }
    ensures answered { AnswersItem item
        (desk (point (stand_of satl.old (D.state drive.old) steps.old) (K.written sink.old)) kept)
        (point (stand_of satl.new (D.state drive.new) steps.new) (K.written sink.new)) result }
    ensures leaves { Leaves satl.new (D.state drive.new) replies.new result }
    ensures idle { OnOk result (satl.new.tasks ≡ []) }
    ensures cause { HasCause (K.faults sink.old) (K.faults sink.new) result }
{
    if let Some(sense) = &kept {
        if asks_sense(&item.command) {
            repeat_sense(satl, item, sense, sink)?;
            return Ok(None);
        }
    }
    send_item(satl, item, sink, drive, replies, steps)
}
