// The lines of an output, and of a summary.
ghost use Rattle.std.specs.Prelude.{◌≡◌, ◌≤◌, ◌+◌, ◌++◌, OnOk, OnErr, length};
ghost use Rattle.arrayvec.specs.ArrayVec.{array_vec_len};
ghost use Rattle.satl_frame.specs.Output.{CanWrite, IsWritable};
ghost use Rattle.satl_io.specs.Causes.{HasCause};
ghost use Rattle.satl_io.specs.Known.{Wrote, WrotePart};
ghost use Rattle.satl_text.specs.Lines.{reply_line, managed_line, fault_line, frame_line, number_line, summary_lines};
ghost use Rattle.satl_text.specs.Parts.{reply_front, reply_end};

use crate::digits::gather_bytes;
use crate::summary::Summary;
use crate::words::{Text, add_bytes, add_decimal, add_digits, add_word};
use satl_base::{Nexus, Reply, Response, Tag, append};
use satl_frame::{OutFrame, Reason, WriteBuffer, WriteFault, gather, push, sent_len};
use satl_io::Sink;

/// The line of a reply up to its data.
fn front_text(reply: &Reply) -> Text
    ensures front { result.items ≡ reply_front reply.now }
    ensures few { array_vec_len result ≤ 8000 }
{
    let mut text = Text::new();
    append(&mut text, b"reply");
    add_decimal(&mut text, reply.nexus.number());
    add_digits(&mut text, &reply.tag.0.to_be_bytes());
    add_digits(&mut text, &[reply.status.code()]);
    add_bytes(&mut text, reply.sense.as_slice());
    text.push(b' ');
    text
}

/// The line of a reply behind its data.
fn end_text(reply: &Reply) -> Text
    requires { IsWritable reply.now }
    ensures end { result.items ≡ reply_end reply.now.expected reply.now.data_len }
    ensures few { array_vec_len result ≤ 8000 }
{
    let mut text = Text::new();
    if let Some(expected) = reply.expected {
        add_decimal(&mut text, expected as i32 - reply.data_len as i32);
    }
    text.push(b'\n');
    text
}

/// The line of a response to a task management function.
fn managed_text(nexus: Nexus, function: u8, response: Response, tag: Tag) -> Text
    ensures { result.items ≡ managed_line nexus function response tag }
{
    let mut text = Text::new();
    append(&mut text, b"managed");
    add_decimal(&mut text, nexus.number());
    add_digits(&mut text, &[function]);
    add_digits(&mut text, &[response.code()]);
    add_digits(&mut text, &tag.0.to_be_bytes());
    text.push(b'\n');
    text
}

/// The line of a refused input.
fn fault_text(reason: Reason, offset: u64) -> Text
    ensures { result.items ≡ fault_line reason offset }
{
    let mut text = Text::new();
    append(&mut text, b"input fault");
    add_decimal(&mut text, reason.code());
    add_word(&mut text, b"at byte");
    add_decimal(&mut text, offset);
    text.push(b'\n');
    text
}

/// A line of a name and a number.
fn add_number(text: &mut Text, name: &[u8], n: u64)
    requires short { length name.now ≤ 100 }
    requires room { array_vec_len text.old ≤ 7800 }
    ensures added { text.new.items ≡ text.old.items ++ number_line name.now n }
    ensures few { array_vec_len text.new ≤ array_vec_len text.old + 150 }
{
    append(text, name);
    add_decimal(text, n);
    text.push(b'\n');
}

/// The lines of a summary.
fn summary_text(seed: u64, summary: &Summary) -> Text
    ensures { result.items ≡ summary_lines seed summary.now }
{
    let mut text = Text::new();
    add_number(&mut text, b"seed", seed);
    add_number(&mut text, b"requests", summary.requests);
    add_number(&mut text, b"good", summary.good);
    add_number(&mut text, b"check", summary.check);
    add_number(&mut text, b"full", summary.full);
    add_number(&mut text, b"data", summary.bytes);
    add_number(&mut text, b"sum", summary.sum);
    text
}

fn write_reply<K: Sink>(sink: &mut K, reply: &Reply) -> Result<(), WriteFault>
    requires { IsWritable reply.now }
    ensures all { OnOk result (Wrote (K.written sink.old) (K.written sink.new) (reply_line reply.now)) }
    ensures part { OnErr result (WrotePart (K.written sink.old) (K.written sink.new) (reply_line reply.now)) }
    ensures cause { HasCause (K.faults sink.old) (K.faults sink.new) result }
{
    let mut buffer = WriteBuffer::of(front_text(reply).as_slice());
    let len = sent_len(reply.expected, reply.data_len);
    gather_bytes(sink, &mut buffer, &reply.body, len)?;
    gather(sink, &mut buffer, end_text(reply).as_slice())?;
    push(sink, buffer.as_slice())
}

/// Appends exactly the line of the frame to the bytes of the sink, and none of the magic (profile). A reply's data is cut to
/// what the host takes, as in its frame. No clause counts the write calls: a line of up to 8,192 bytes takes one or two where
/// the sink takes all that it is given, and a longer one about a call for each 8 KiB. `WriteFault` comes only where the sink's
/// count of faults rose; then some front of the line was appended.
pub fn write_line<K: Sink>(frame: OutFrame, sink: &mut K) -> Result<(), WriteFault>
    requires { CanWrite frame }
    ensures all { OnOk result (Wrote (K.written sink.old) (K.written sink.new) (frame_line frame.entry)) }
    ensures part { OnErr result (WrotePart (K.written sink.old) (K.written sink.new) (frame_line frame.entry)) }
    ensures cause { HasCause (K.faults sink.old) (K.faults sink.new) result }
{
    match frame {
        OutFrame::Magic => Ok(()),
        OutFrame::Reply(reply) => write_reply(sink, reply),
        OutFrame::Managed {
            nexus,
            function,
            response,
            tag,
        } => push(
            sink,
            managed_text(nexus, function, response, tag).as_slice(),
        ),
        OutFrame::End => push(sink, b"end\n"),
        OutFrame::Fault { reason, offset } => push(sink, fault_text(reason, offset).as_slice()),
    }
}

/// Appends exactly seven lines to the bytes of the sink (profile): the seed of the input and the totals of the run. No clause
/// counts the write calls: it is one where the sink takes all that it is given. `WriteFault` comes only where the sink's count
/// of faults rose; then some front of the lines was appended.
pub fn write_summary<K: Sink>(seed: u64, summary: &Summary, sink: &mut K) -> Result<(), WriteFault>
    ensures all { OnOk result (Wrote (K.written sink.old) (K.written sink.new) (summary_lines seed summary.now)) }
    ensures part { OnErr result (WrotePart (K.written sink.old) (K.written sink.new) (summary_lines seed summary.now)) }
    ensures cause { HasCause (K.faults sink.old) (K.faults sink.new) result }
{
    push(sink, summary_text(seed, summary).as_slice())
}
