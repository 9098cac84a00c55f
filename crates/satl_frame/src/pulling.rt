// Bytes by the buffer, however the source cuts them.
ghost use Rattle.std.specs.Prelude.{◌≡◌, ◌<◌, false, IfOk, OnOk, OnErr, length, take};
ghost use Rattle.std.specs.Io.{ReadsAtMost};
ghost use Rattle.std.specs.Io.KnownBytes.{IsAtEnd};
ghost use Rattle.satl_io.specs.Causes.{HasCause};
ghost use Rattle.satl_io.specs.Known.{Took};
ghost use Rattle.satl_frame.specs.Pulls.{PullCauses, FewerThan, StaysUnwaited, Stopped};

use satl_io::{Failed, Source};

/// Why bytes could not be pulled (profile).
#[derive(Clone, Copy, Debug, PartialEq, Eq)]
pub enum PullError {
    /// Fewer bytes were left, and all of them were taken.
    Short,
    /// A read failed, and fewer bytes were taken than were asked for.
    Failed,
}

/// Fills the buffer by as many reads as it takes, as `fill` does.
#[inline(never)]
fn fill_by_reads<S: Source>(source: &mut S, buf: &mut [u8]) -> Result<usize, Failed>
    ensures bound { ReadsAtMost result buf.new }
    ensures bytes { IfOk result (λ n. Took (S.left source.old) (S.left source.new) (take n buf.new)) }
    ensures short { IfOk result (λ n. n < length buf.new → IsAtEnd (S.left source.new)) }
    ensures unwaited { IfOk result (λ n. 0 < n → n ≡ length buf.old → S.waited source.new ≡ false) }
    ensures stopped { OnErr result (FewerThan (S.left source.old) (S.left source.new) (λ _. length buf.old)) }
    ensures cause { HasCause (S.faults source.old) (S.faults source.new) result }
{
    let mut at = 0;
    while at < buf.len() {
        let count = source.read(&mut buf[at..])?;
        if count == 0 {
            return Ok(at);
        }
        at += count;
    }
    Ok(at)
}

/// Fills the buffer, or as much of its front as the source has bytes for, and gives their number (profile). `Failed` comes only
/// where the source's count of faults rose; then fewer bytes were taken than the buffer has. Once the buffer is full it has
/// waited for nothing behind it.
// Inlined, as it copies few bytes: mostly a head, of which the length is known then.
#[inline(always)]
pub fn fill<S: Source>(source: &mut S, buf: &mut [u8]) -> Result<usize, Failed>
    ensures bound { ReadsAtMost result buf.new }
    ensures bytes { IfOk result (λ n. Took (S.left source.old) (S.left source.new) (take n buf.new)) }
    ensures short { IfOk result (λ n. n < length buf.new → IsAtEnd (S.left source.new)) }
    ensures unwaited { IfOk result (λ n. 0 < n → n ≡ length buf.old → S.waited source.new ≡ false) }
    ensures stays { length buf.old ≡ 0 → StaysUnwaited (S.waited source.old) (S.waited source.new) result }
    ensures stopped { OnErr result (FewerThan (S.left source.old) (S.left source.new) (λ _. length buf.old)) }
    ensures cause { HasCause (S.faults source.old) (S.faults source.new) result }
{
    let count = buf.len();
    if count == 0 {
        return Ok(0);
    }
    source.read_ahead()?;
    let ahead = source.ahead();
    if ahead.len() < count {
        return fill_by_reads(source, buf);
    }
    buf.copy_from_slice(&ahead[..count]);
    source.consume(count);
    Ok(count)
}

/// Fills the whole buffer, and waits for nothing behind it (profile). `Short` comes only where the source had fewer bytes, and
/// `Failed` only where its count of faults rose.
pub fn pull<S: Source>(source: &mut S, buf: &mut [u8]) -> Result<(), PullError>
    ensures bytes { OnOk result (Took (S.left source.old) (S.left source.new) buf.new) }
    ensures unwaited { OnOk result (0 < length buf.old → S.waited source.new ≡ false) }
    ensures stays { StaysUnwaited (S.waited source.old) (S.waited source.new) result }
    ensures stopped { Stopped (S.left source.old) (S.left source.new) (length buf.old) result }
    ensures causes { PullCauses (S.left source.old) (S.left source.new) (length buf.old) (S.faults source.old)
        (S.faults source.new) result }
{
    match fill(source, buf) {
        Ok(count) if count == buf.len() => Ok(()),
        Ok(_) => Err(PullError::Short),
        Err(Failed) => Err(PullError::Failed),
    }
}
