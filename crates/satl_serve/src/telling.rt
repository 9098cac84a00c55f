// How answers are told, in each form.
ghost use Rattle.std.specs.Prelude.{OnErr, OnOk};
ghost use Rattle.satl_frame.specs.Output.{IsWritable};
ghost use Rattle.satl_frame.specs.Output.Answer.{closed, managed, replied};
ghost use Rattle.satl_io.specs.Causes.{HasCause};
ghost use Rattle.satl_io.specs.Known.{Wrote, WrotePart};
ghost use Rattle.satl_serve.specs.Forms.{begun, fault_told, told};

use satl_base::{Manage, Reply, Response};
use satl_frame::{OutFrame, Reason, WriteBuffer, WriteFault, write_frame, write_reply};
use satl_io::Sink;
use satl_text::write_line;

/// How the output is written (profile).
#[derive(Clone, Copy, Debug, PartialEq, Eq)]
pub enum Form {
    /// As frames (profile).
    Frames,
    /// As lines of text (profile).
    Text,
    /// Not at all: answers are counted alone, and a refused input is told by its line (profile).
    Count,
}

/// What stands before all answers.
pub fn tell_beginning<K: Sink>(form: Form, sink: &mut K) -> Result<(), WriteFault>
    ensures all { OnOk result (Wrote (K.written sink.old) (K.written sink.new) (begun form)) }
    ensures part { OnErr result (WrotePart (K.written sink.old) (K.written sink.new) (begun form)) }
    ensures cause { HasCause (K.faults sink.old) (K.faults sink.new) result }
{
    match form {
        Form::Frames => write_frame(OutFrame::Magic, sink),
        Form::Text | Form::Count => Ok(()),
    }
}

/// A reply, by a buffer that is kept.
pub fn tell_reply<K: Sink>(
    form: Form,
    reply: &Reply,
    buffer: &mut WriteBuffer,
    sink: &mut K,
) -> Result<(), WriteFault>
    requires { IsWritable reply.now }
    ensures all { OnOk result (Wrote (K.written sink.old) (K.written sink.new) (told form (replied reply.now))) }
    ensures part { OnErr result (WrotePart (K.written sink.old) (K.written sink.new) (told form (replied reply.now))) }
    ensures cause { HasCause (K.faults sink.old) (K.faults sink.new) result }
{
    match form {
        Form::Frames => write_reply(reply, buffer, sink),
        Form::Text => write_line(OutFrame::Reply(reply), sink),
        Form::Count => Ok(()),
    }
}

/// The response to a task management function.
pub fn tell_managed<K: Sink>(
    form: Form,
    manage: &Manage,
    response: Response,
    sink: &mut K,
) -> Result<(), WriteFault>
    ensures all { OnOk result (Wrote (K.written sink.old) (K.written sink.new)
        (told form (managed manage.now.nexus manage.now.function response manage.now.tag))) }
    ensures part { OnErr result (WrotePart (K.written sink.old) (K.written sink.new)
        (told form (managed manage.now.nexus manage.now.function response manage.now.tag))) }
    ensures cause { HasCause (K.faults sink.old) (K.faults sink.new) result }
{
    let Manage {
        nexus,
        function,
        tag,
        ..
    } = *manage;
    let frame = OutFrame::Managed {
        nexus,
        function,
        response,
        tag,
    };
    match form {
        Form::Frames => write_frame(frame, sink),
        Form::Text => write_line(frame, sink),
        Form::Count => Ok(()),
    }
}

/// The end of a whole input.
pub fn tell_end<K: Sink>(form: Form, sink: &mut K) -> Result<(), WriteFault>
    ensures all { OnOk result (Wrote (K.written sink.old) (K.written sink.new) (told form closed)) }
    ensures part { OnErr result (WrotePart (K.written sink.old) (K.written sink.new) (told form closed)) }
    ensures cause { HasCause (K.faults sink.old) (K.faults sink.new) result }
{
    match form {
        Form::Frames => write_frame(OutFrame::End, sink),
        Form::Text => write_line(OutFrame::End, sink),
        Form::Count => Ok(()),
    }
}

/// A refused input.
pub fn tell_fault<K: Sink>(
    form: Form,
    reason: Reason,
    offset: u64,
    sink: &mut K,
) -> Result<(), WriteFault>
    ensures all { OnOk result (Wrote (K.written sink.old) (K.written sink.new) (fault_told form reason offset)) }
    ensures part { OnErr result (WrotePart (K.written sink.old) (K.written sink.new) (fault_told form reason offset)) }
    ensures cause { HasCause (K.faults sink.old) (K.faults sink.new) result }
{
    match form {
        Form::Frames => write_frame(OutFrame::Fault { reason, offset }, sink),
        Form::Text | Form::Count => write_line(OutFrame::Fault { reason, offset }, sink),
    }
}
