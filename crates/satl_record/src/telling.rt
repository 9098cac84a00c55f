// What is found of a record is told in a line.
ghost use Rattle.std.specs.Prelude.{◌≡◌, ◌≤◌, ◌++◌, ◌∷◌, [], IfOk, IfErr, IsErrOf, OnErr};
ghost use Rattle.arrayvec.specs.ArrayVec.{array_vec_len};
ghost use Rattle.satl_io.specs.Causes.{HasCause, Rose};
ghost use Rattle.satl_io.specs.Known.{Wrote, WrotePart};
ghost use Rattle.satl_record.specs.Ends.{RefusalIsTold, verdict_line};
ghost use Rattle.satl_record.specs.declared.fault.RecordFault.TheVariants as faults;

use crate::fault::RecordFault;
use itoa::Buffer;
use satl_audit::Verdict;
use satl_base::append;
use satl_frame::{OutFrame, Reason, push};
use satl_io::Sink;
use satl_text::{Text, write_line};

/// The words of a verdict.
fn words_of(verdict: Verdict) -> Text
    ensures words { result.items ++ 0x0A ∷ [] ≡ verdict_line verdict }
    ensures few { array_vec_len result ≤ 8000 }
{
    let mut text = Text::new();
    match verdict {
        Verdict::Yes => append(&mut text, b"yes"),
        Verdict::No => append(&mut text, b"no"),
        Verdict::NotCovered { offset } => {
            append(&mut text, b"not covered at byte ");
            let mut digits = Buffer::new();
            append(&mut text, digits.format(offset).as_bytes());
        }
    }
    text
}

/// Appends the line of a verdict to the bytes of the sink. `Write` comes only where the sink's count of faults rose; then some
/// front of the line was appended.
pub fn tell_verdict<K: Sink>(sink: &mut K, verdict: Verdict) -> Result<Verdict, RecordFault>
    ensures same { IfOk result (λ told. told ≡ verdict) }
    ensures all { IfOk result (λ _. Wrote (K.written sink.old) (K.written sink.new) (verdict_line verdict)) }
    ensures part { OnErr result (WrotePart (K.written sink.old) (K.written sink.new) (verdict_line verdict)) }
    ensures kind { IfErr result (λ fault. fault ≡ faults.Write) }
    ensures cause { HasCause (K.faults sink.old) (K.faults sink.new) result }
{
    let mut text = words_of(verdict);
    text.push(b'\n');
    push(sink, text.as_slice())?;
    Ok(verdict)
}

/// Appends the line of a refused input to the bytes of the sink, and is `BadInput` then. `Write` comes only where the sink's
/// count of faults rose; then some front of the line was appended.
pub fn tell_refusal<K: Sink>(
    sink: &mut K,
    reason: Reason,
    offset: u64,
) -> Result<Verdict, RecordFault>
    ensures told { RefusalIsTold (K.written sink.old) (K.written sink.new) reason offset result }
    ensures later { K.faults sink.old ≤ K.faults sink.new }
    ensures failed { IsErrOf result faults.Write → Rose (K.faults sink.old) (K.faults sink.new) }
{
    write_line(OutFrame::Fault { reason, offset }, sink)?;
    Err(RecordFault::BadInput)
}
