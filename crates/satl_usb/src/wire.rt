// What is written for an answer.
ghost use Rattle.std.specs.Prelude.{◌≡◌, ◌≤◌, ◌-◌, ◌++◌, OnErr, OnOk, length, replicate};
ghost use Rattle.satl_frame.specs.Gathering.{Gathers};
ghost use Rattle.satl_frame.specs.Output.{IsWritable};
ghost use Rattle.satl_io.specs.Causes.{HasCause};
ghost use Rattle.satl_io.specs.Known.{Wrote, WrotePart};
ghost use Rattle.satl_usb.specs.Wire.{csw_status, kept_on_wire, reply_on_wire, status_on_wire, taken_length};

use satl_base::{Reply, Scsi, SenseBytes};
use satl_bot::{Cbw, CswStatus, csw_bytes};
use satl_frame::{WriteBuffer, WriteFault, gather, gather_data, push};
use satl_io::Sink;

/// The number of bytes of data that the host takes (USB Mass Storage Class, Bulk-Only Transport 1.0, 5.3).
fn taken_length(command: &Cbw) -> u32
    ensures { result ≡ taken_length command.now }
{
    if command.is_in { command.length } else { 0 }
}

/// The status of an answer: phase error where there is more data than the host takes, else passed or failed.
fn csw_status(command: &Cbw, status: Scsi, size: u32) -> CswStatus
    ensures { result ≡ csw_status command.now status size }
{
    if taken_length(command) < size {
        return CswStatus::PhaseError;
    }
    match status {
        Scsi::Good => CswStatus::Passed,
        Scsi::CheckCondition | Scsi::TaskSetFull => CswStatus::Failed,
    }
}

/// Gathers so many zeros.
fn gather_zeros<K: Sink>(
    sink: &mut K,
    gathered: &mut WriteBuffer,
    count: u32,
) -> Result<(), WriteFault>
    ensures all { OnOk result (Gathers (K.written sink.old) (K.written sink.new) gathered.old gathered.new
        (replicate count 0)) }
    ensures part { OnErr result (WrotePart (K.written sink.old) (K.written sink.new)
        (gathered.old ++ replicate count 0)) }
    ensures cause { HasCause (K.faults sink.old) (K.faults sink.new) result }
{
    let zeros = [0; 512];
    let mut left = count as usize;
    while left > 0 {
        let some = left.min(512);
        gather(sink, gathered, &zeros[..some])?;
        left -= some;
    }
    Ok(())
}

/// Writes what was gathered, zeros for what is missing of the data, and the wrapper of the status.
fn tell_status<K: Sink>(
    command: &Cbw,
    status: Scsi,
    size: u32,
    gathered: &mut WriteBuffer,
    sink: &mut K,
) -> Result<(), WriteFault>
    ensures all { OnOk result (Wrote (K.written sink.old) (K.written sink.new)
        (gathered.old ++ status_on_wire command.now status size)) }
    ensures part { OnErr result (WrotePart (K.written sink.old) (K.written sink.new)
        (gathered.old ++ status_on_wire command.now status size)) }
    ensures cause { HasCause (K.faults sink.old) (K.faults sink.new) result }
{
    let missing = taken_length(command).saturating_sub(size);
    let wrapper = csw_bytes(command.tag, missing, csw_status(command, status, size));
    gather_zeros(sink, gathered, missing)?;
    gather(sink, gathered, &wrapper)?;
    push(sink, gathered.as_slice())
}

/// Writes a reply to a command on the wire: its data, cut to what the host takes or with zeros behind it, and the wrapper of
/// its status. `WriteFault` comes only where the sink's count of faults rose; then some front of it was written (USB Mass
/// Storage Class, Bulk-Only Transport 1.0, 5.2, 5.3; the residue and the status: profile).
pub fn tell_reply<K: Sink>(command: &Cbw, reply: &Reply, sink: &mut K) -> Result<(), WriteFault>
    requires { IsWritable reply.now }
    ensures all { OnOk result (Wrote (K.written sink.old) (K.written sink.new) (reply_on_wire command.now reply.now)) }
    ensures part { OnErr result (WrotePart (K.written sink.old) (K.written sink.new) (reply_on_wire command.now reply.now)) }
    ensures cause { HasCause (K.faults sink.old) (K.faults sink.new) result }
{
    let mut gathered = WriteBuffer::new();
    let count = taken_length(command).min(reply.data_len);
    gather_data(sink, &mut gathered, &reply.body, count)?;
    tell_status(command, reply.status, reply.data_len, &mut gathered, sink)
}

/// Writes sense data that was kept, as the data of a command that passed, as many bytes as byte 4 of its CDB allows.
/// `WriteFault` comes only where the sink's count of faults rose; then some front of it was written (SPC-4 6.39).
pub fn tell_kept<K: Sink>(command: &Cbw, sense: &SenseBytes, sink: &mut K) -> Result<(), WriteFault>
    ensures all { OnOk result (Wrote (K.written sink.old) (K.written sink.new) (kept_on_wire command.now sense.now)) }
    ensures part { OnErr result (WrotePart (K.written sink.old) (K.written sink.new) (kept_on_wire command.now sense.now)) }
    ensures cause { HasCause (K.faults sink.old) (K.faults sink.new) result }
{
    let sense = sense.as_slice();
    let size = sense.len().min(usize::from(command.cdb[4]));
    let count = size.min(taken_length(command) as usize);
    let mut gathered = WriteBuffer::of(&sense[..count]);
    tell_status(command, Scsi::Good, size as u32, &mut gathered, sink)
}
