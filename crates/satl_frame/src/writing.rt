// Bytes of frames into a sink, in few writes.
ghost use Rattle.std.specs.Prelude.{◌≡◌, ◌≤◌, ◌+◌, ◌++◌, [], None, Some, OnOk, OnErr, length};
ghost use Rattle.arrayvec.specs.ArrayVec.{array_vec_len};
ghost use Rattle.satl_base.specs.Blocks.{first_bytes};
ghost use Rattle.satl_base.specs.Limits.{longest_data};
ghost use Rattle.satl_io.specs.Causes.{HasCause};
ghost use Rattle.satl_io.specs.Known.{Wrote, WrotePart};
ghost use Rattle.satl_frame.specs.Gathering.{Gathers};
ghost use Rattle.satl_frame.specs.Output.{sent_len, residual, reply_kind, reply_fields, reply_len, reply_bytes, written_bytes, CanWrite, IsWritable};
ghost use Rattle.satl_frame.specs.Frames.{framed};

use crate::buffer::WriteBuffer;
use crate::frames::{
    FAULT_KIND, LATER_REPLY_KIND, LATER_REPLY_SIZE, MANAGED_KIND, OUT_END_KIND, OUT_MAGIC,
    OutFrame, REPLY_KIND, REPLY_SIZE, WriteFault,
};
use arrayvec::ArrayVec;
use satl_base::{Pages, Reply, append};
use satl_io::Sink;

/// What stands before the data of a reply: 12 or 16 bytes, and at most 32 of sense.
type Front = ArrayVec<u8, 48>;

/// Writes all the bytes (profile). No clause counts the write calls: it is one where the sink takes all that it is given.
/// `WriteFault` comes only where the sink's count of faults rose, and then some front of the bytes was written.
pub fn push<K: Sink>(sink: &mut K, bytes: &[u8]) -> Result<(), WriteFault>
    ensures all { OnOk result (Wrote (K.written sink.old) (K.written sink.new) bytes.now) }
    ensures part { OnErr result (WrotePart (K.written sink.old) (K.written sink.new) bytes.now) }
    ensures cause { HasCause (K.faults sink.old) (K.faults sink.new) result }
{
    let mut at = 0;
    while at < bytes.len() {
        at += sink.write(&bytes[at..])?;
    }
    Ok(())
}

/// Puts at most 8,192 bytes into a buffer (profile). Of what waits in it, some front may be written, as is where they do not
/// fit. `WriteFault` comes only where the sink's count of faults rose; then some front of what waited and of the bytes was
/// written, and of the buffer nothing is told.
pub fn gather<K: Sink>(
    sink: &mut K,
    buffer: &mut WriteBuffer,
    bytes: &[u8],
) -> Result<(), WriteFault>
    requires { length bytes.now ≤ 8192 }
    ensures all { OnOk result (Gathers (K.written sink.old) (K.written sink.new) buffer.old buffer.new bytes.now) }
    ensures part { OnErr result (WrotePart (K.written sink.old) (K.written sink.new) (buffer.old ++ bytes.now)) }
    ensures cause { HasCause (K.faults sink.old) (K.faults sink.new) result }
{
    if bytes.len() > buffer.room() {
        push(sink, buffer.as_slice())?;
        buffer.clear();
    }
    buffer.put(bytes);
    Ok(())
}

/// Puts the first `len` bytes that the pages hold into a buffer, in order (profile). `WriteFault` comes only where the sink's
/// count of faults rose; then some front of what waited in it and of these bytes was written, and of the buffer nothing is
/// told.
pub fn gather_data<K: Sink>(
    sink: &mut K,
    buffer: &mut WriteBuffer,
    pages: &Pages,
    len: u32,
) -> Result<(), WriteFault>
    ensures all { OnOk result (Gathers (K.written sink.old) (K.written sink.new) buffer.old buffer.new
        (first_bytes len pages.now)) }
    ensures part { OnErr result (WrotePart (K.written sink.old) (K.written sink.new)
        (buffer.old ++ first_bytes len pages.now)) }
    ensures cause { HasCause (K.faults sink.old) (K.faults sink.new) result }
{
    let mut left = len as usize;
    for block in pages.iter() {
        let bytes = block.as_bytes();
        if left < bytes.len() {
            return gather(sink, buffer, &bytes[..left]);
        }
        gather(sink, buffer, bytes)?;
        left -= bytes.len();
    }
    Ok(())
}

/// How many bytes of so much data the host takes (profile).
pub fn sent_len(expected: Option<u32>, len: u32) -> u32
    ensures { result ≡ sent_len expected len }
{
    match expected {
        None => len,
        Some(expected) => expected.min(len),
    }
}

fn residual(expected: u32, len: u32) -> u32
    requires expected { expected ≤ longest_data }
    requires short { len ≤ longest_data }
    ensures { result ≡ residual expected len }
{
    (expected as i32 - len as i32).cast_unsigned()
}

/// A reply of version 1 up to its sense.
fn first_head(reply: &Reply) -> [u8; 12]
    requires version { reply.now.expected ≡ None }
    requires short { reply.now.data_len ≤ longest_data }
    ensures { result ≡ framed 0x81 (reply_len reply.now) (reply_fields reply.now) }
{
    let sense = reply.sense.len() as u8;
    let [a, b, c, d] = (REPLY_SIZE + u32::from(sense) + reply.data_len).to_be_bytes();
    let [e, f, g, h] = reply.tag.0.to_be_bytes();
    let nexus = reply.nexus.number();
    let status = reply.status.code();
    [REPLY_KIND, a, b, c, d, nexus, status, e, f, g, h, sense]
}

/// A reply of version 2 up to its sense.
fn second_head(reply: &Reply, expected: u32) -> [u8; 16]
    requires version { reply.now.expected ≡ Some expected }
    requires expected { expected ≤ longest_data }
    requires short { reply.now.data_len ≤ longest_data }
    ensures { result ≡ framed 0x83 (reply_len reply.now) (reply_fields reply.now) }
{
    let sense = reply.sense.len() as u8;
    let sent = expected.min(reply.data_len);
    let [a, b, c, d] = (LATER_REPLY_SIZE + u32::from(sense) + sent).to_be_bytes();
    let [e, f, g, h] = reply.tag.0.to_be_bytes();
    let [r, s, t, u] = residual(expected, reply.data_len).to_be_bytes();
    let nexus = reply.nexus.number();
    let status = reply.status.code();
    let kind = LATER_REPLY_KIND;
    [
        kind, a, b, c, d, nexus, status, e, f, g, h, r, s, t, u, sense,
    ]
}

/// A reply up to its sense.
#[inline(always)]
fn extend_by_fields(reply: &Reply, front: &mut Front)
    requires writable { IsWritable reply.now }
    requires empty { front.old.items ≡ [] }
    ensures bytes { front.new.items ≡ framed (reply_kind reply.now.expected) (reply_len reply.now) (reply_fields reply.now) }
    ensures few { array_vec_len front.new ≤ 16 }
{
    match reply.expected {
        None => append(front, &first_head(reply)),
        Some(expected) => append(front, &second_head(reply, expected)),
    }
}

/// Writes what stands before the data of a reply, and the data, in pieces of at most 8,192 bytes.
fn write_with_data<K: Sink>(
    sink: &mut K,
    buffer: &mut WriteBuffer,
    front: &Front,
    pages: &Pages,
    len: u32,
) -> Result<(), WriteFault>
    ensures all { OnOk result (Wrote (K.written sink.old) (K.written sink.new) (front.now.items ++ first_bytes len pages.now)) }
    ensures part { OnErr result (WrotePart (K.written sink.old) (K.written sink.new)
        (front.now.items ++ first_bytes len pages.now)) }
    ensures cause { HasCause (K.faults sink.old) (K.faults sink.new) result }
{
    buffer.clear();
    buffer.put(front.as_slice());
    gather_data(sink, buffer, pages, len)?;
    push(sink, buffer.as_slice())
}

/// Appends exactly the bytes of a reply's frame, as `write_frame` does, for who writes many and keeps a buffer for them: no
/// memory is cleared for a reply then. What the buffer holds before does not matter, and nothing is told of what it holds
/// afterwards (profile).
#[inline(always)]
pub fn write_reply<K: Sink>(
    reply: &Reply,
    buffer: &mut WriteBuffer,
    sink: &mut K,
) -> Result<(), WriteFault>
    requires { IsWritable reply.now }
    ensures all { OnOk result (Wrote (K.written sink.old) (K.written sink.new) (reply_bytes reply.now)) }
    ensures part { OnErr result (WrotePart (K.written sink.old) (K.written sink.new) (reply_bytes reply.now)) }
    ensures cause { HasCause (K.faults sink.old) (K.faults sink.new) result }
{
    let mut front = Front::new();
    extend_by_fields(reply, &mut front);
    append(&mut front, reply.sense.as_slice());
    let len = sent_len(reply.expected, reply.data_len);
    if len > 0 {
        return write_with_data(sink, buffer, &front, &reply.body, len);
    }
    push(sink, front.as_slice())
}

/// The same by a buffer of its own. Apart from `write_frame`, which would clear it for frames of all kinds.
#[inline(never)]
fn write_alone<K: Sink>(reply: &Reply, sink: &mut K) -> Result<(), WriteFault>
    requires { IsWritable reply.now }
    ensures all { OnOk result (Wrote (K.written sink.old) (K.written sink.new) (reply_bytes reply.now)) }
    ensures part { OnErr result (WrotePart (K.written sink.old) (K.written sink.new) (reply_bytes reply.now)) }
    ensures cause { HasCause (K.faults sink.old) (K.faults sink.new) result }
{
    let mut buffer = WriteBuffer::new();
    write_reply(reply, &mut buffer, sink)
}

/// Appends exactly the bytes of the frame to those of the sink (profile). A reply with an `expected` goes out as one of
/// version 2, with its data cut to that many bytes. After a fault some front of the bytes was appended. No clause counts the
/// write calls: a reply with up to 4 KiB of data takes one where the sink takes all that it is given.
pub fn write_frame<K: Sink>(frame: OutFrame, sink: &mut K) -> Result<(), WriteFault>
    requires { CanWrite frame }
    ensures all { OnOk result (Wrote (K.written sink.old) (K.written sink.new) (written_bytes frame.entry)) }
    ensures part { OnErr result (WrotePart (K.written sink.old) (K.written sink.new) (written_bytes frame.entry)) }
    ensures cause { HasCause (K.faults sink.old) (K.faults sink.new) result }
{
    match frame {
        OutFrame::Magic => push(sink, &OUT_MAGIC),
        OutFrame::Reply(reply) => write_alone(reply, sink),
        OutFrame::Managed {
            nexus,
            function,
            response,
            tag,
        } => {
            let [a, b, c, d] = tag.0.to_be_bytes();
            let code = response.code();
            let kind = MANAGED_KIND;
            push(
                sink,
                &[kind, 0, 0, 0, 7, nexus.number(), function, code, a, b, c, d],
            )
        }
        OutFrame::End => push(sink, &[OUT_END_KIND, 0, 0, 0, 0]),
        OutFrame::Fault { reason, offset } => {
            let [a, b, c, d, e, f, g, h] = offset.to_be_bytes();
            let code = reason.code();
            push(
                sink,
                &[FAULT_KIND, 0, 0, 0, 9, code, a, b, c, d, e, f, g, h],
            )
        }
    }
}
