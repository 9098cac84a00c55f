// Data-out from the source into pages.
ghost use Rattle.std.specs.Prelude.{◌≡◌, ◌<◌, ◌≤◌, ◌+◌, ◌-◌, ◌*◌, ◌^◌, ◌++◌, [], false, IfOk, OnOk, length, take, drop, reverse};
ghost use Rattle.satl_base.specs.Blocks.{zero_bytes};
ghost use Rattle.satl_base.specs.Stocks.{HasLent};
ghost use Rattle.satl_frame.specs.DataPages.{page_count};
ghost use Rattle.satl_frame.specs.Pulls.{PullCauses, StaysUnwaited, Stopped, TookCount, TookPages, FilledInReverse, given_pages};

use crate::pulling::{PullError, pull};
use satl_base::{BLOCK_BYTES, Lender, Pages};
use satl_io::{Failed, Source};

/// So many bytes go by a buffer, where the source has read fewer ahead: those of a page.
pub const CHUNK: usize = BLOCK_BYTES as usize;

/// Blanks what stands behind so many bytes, up to the end of their last page.
fn blank_rest(buffer: &mut [u8; CHUNK], count: usize)
    requires { count ≤ 512 }
    ensures { buffer.new ≡ (take count buffer.old ++ zero_bytes (512 * page_count count - count))
        ++ drop (512 * page_count count) buffer.old }
{
    buffer[count..512 * count.div_ceil(512)].fill(0);
}

/// Takes at most a chunk of bytes into as many of the pages as there are.
fn pull_chunk<S: Source>(
    source: &mut S,
    buffer: &mut [u8; CHUNK],
    count: usize,
    todo: &mut Pages,
    done: &mut Pages,
) -> Result<(), PullError>
    requires short { count ≤ 512 }
    requires few { length todo.old + length done.old < 2 ^ 32 }
    ensures placed { OnOk result (FilledInReverse (S.left source.old) (S.left source.new) count (length todo.old)
        done.old done.new) }
    ensures same { length todo.new + length done.new ≡ length todo.old + length done.old }
    ensures unwaited { OnOk result (0 < count → S.waited source.new ≡ false) }
    ensures stopped { Stopped (S.left source.old) (S.left source.new) count result }
    ensures causes { PullCauses (S.left source.old) (S.left source.new) count (S.faults source.old)
        (S.faults source.new) result }
{
    pull(source, &mut buffer[..count])?;
    blank_rest(buffer, count);
    let pages = count.div_ceil(512) as u32;
    todo.move_filled(pages.min(todo.blocks()), buffer, done);
    Ok(())
}

/// Takes as many whole pages of at most `len` bytes as the source has read ahead and as there are pages, and gives their number.
fn take_ahead<S: Source>(
    source: &mut S,
    len: u32,
    todo: &mut Pages,
    done: &mut Pages,
) -> Result<u32, PullError>
    requires some { 0 < len }
    requires few { length todo.old + length done.old < 2 ^ 32 }
    ensures placed { IfOk result (λ pages. FilledInReverse (S.left source.old) (S.left source.new) (512 * pages)
        (length todo.old) done.old done.new) }
    ensures within { IfOk result (λ pages. 512 * pages ≤ len) }
    ensures same { length todo.new + length done.new ≡ length todo.old + length done.old }
    ensures unwaited { IfOk result (λ pages. 0 < pages → S.waited source.new ≡ false) }
    ensures stopped { Stopped (S.left source.old) (S.left source.new) len result }
    ensures causes { PullCauses (S.left source.old) (S.left source.new) len (S.faults source.old) (S.faults source.new) result }
{
    if let Err(Failed) = source.read_ahead() {
        return Err(PullError::Failed);
    }
    let ahead = source.ahead();
    let whole = ahead.len().min(len as usize) / 512;
    let pages = (whole as u32).min(todo.blocks());
    todo.move_filled(pages, ahead, done);
    source.consume(512 * pages as usize);
    Ok(pages)
}

/// Takes bytes into as many of the pages as there are, and moves the filled ones in reverse to `done`.
fn fill_pages<S: Source>(
    source: &mut S,
    buffer: &mut [u8; CHUNK],
    len: u32,
    todo: &mut Pages,
    done: &mut Pages,
) -> Result<(), PullError>
    requires none { done.old ≡ [] }
    requires few { length todo.old < 2 ^ 32 }
    ensures filled { OnOk result (TookPages (S.left source.old) (S.left source.new) len (length todo.old) (reverse done.new)) }
    ensures same { length todo.new + length done.new ≡ length todo.old }
    ensures stays { StaysUnwaited (S.waited source.old) (S.waited source.new) result }
    ensures stopped { Stopped (S.left source.old) (S.left source.new) len result }
    ensures causes { PullCauses (S.left source.old) (S.left source.new) len (S.faults source.old) (S.faults source.new) result }
{
    let mut at = 0;
    while at < len {
        let pages = take_ahead(source, len - at, todo, done)?;
        if pages > 0 {
            at += 512 * pages;
        } else {
            let count = (len - at).min(BLOCK_BYTES);
            pull_chunk(source, buffer, count as usize, todo, done)?;
            at += count;
        }
    }
    Ok(())
}

/// Takes bytes from the source, and drops them.
pub fn skip<S: Source>(source: &mut S, buffer: &mut [u8; CHUNK], len: u32) -> Result<(), PullError>
    ensures bytes { OnOk result (TookCount (S.left source.old) (S.left source.new) len) }
    ensures stays { StaysUnwaited (S.waited source.old) (S.waited source.new) result }
    ensures stopped { Stopped (S.left source.old) (S.left source.new) len result }
    ensures causes { PullCauses (S.left source.old) (S.left source.new) len (S.faults source.old) (S.faults source.new) result }
{
    fill_pages(
        source,
        buffer,
        len,
        &mut Pages::default(),
        &mut Pages::default(),
    )
}

/// Takes bytes by a buffer into as many pages as they need and as are free, each of 512 bytes, with zeros behind the last byte.
/// What does not fit is taken too, and dropped. Where a read fails no page is kept.
// Inlined, so that a request without data-out, as most are, costs no call.
#[inline(always)]
pub fn pull_by<S: Source, P: Lender>(
    source: &mut S,
    buffer: &mut [u8; CHUNK],
    lender: &mut P,
    len: u32,
) -> Result<Pages, PullError>
    ensures filled { IfOk result (TookPages (S.left source.old) (S.left source.new) len (P.stock lender.old).free) }
    ensures stays { StaysUnwaited (S.waited source.old) (S.waited source.new) result }
    ensures stopped { Stopped (S.left source.old) (S.left source.new) len result }
    ensures causes { PullCauses (S.left source.old) (S.left source.new) len (S.faults source.old) (S.faults source.new) result }
    ensures lent { HasLent (given_pages length result) (P.stock lender.old) (P.stock lender.new) }
{
    if len == 0 {
        return Ok(Pages::default());
    }
    pull_some(source, buffer, lender, len)
}

/// Does what `pull_by` does.
#[inline(never)]
fn pull_some<S: Source, P: Lender>(
    source: &mut S,
    buffer: &mut [u8; CHUNK],
    lender: &mut P,
    len: u32,
) -> Result<Pages, PullError>
    ensures filled { IfOk result (TookPages (S.left source.old) (S.left source.new) len (P.stock lender.old).free) }
    ensures stays { StaysUnwaited (S.waited source.old) (S.waited source.new) result }
    ensures stopped { Stopped (S.left source.old) (S.left source.new) len result }
    ensures causes { PullCauses (S.left source.old) (S.left source.new) len (S.faults source.old) (S.faults source.new) result }
    ensures lent { HasLent (given_pages length result) (P.stock lender.old) (P.stock lender.new) }
{
    let mut todo = lender.lend(len.div_ceil(512).min(lender.room()));
    let mut done = Pages::default();
    match fill_pages(source, buffer, len, &mut todo, &mut done) {
        Ok(()) => {
            done.reverse();
            Ok(done)
        }
        Err(error) => {
            lender.give_back(todo);
            lender.give_back(done);
            Err(error)
        }
    }
}

/// Takes `len` bytes into as many pages as they need and as are free, each of 512 bytes, with zeros behind the last byte
/// (profile). What does not fit is taken too, and dropped. `Short` comes only where the source had fewer bytes, and `Failed`
/// only where its count of faults rose; then no page is kept.
pub fn pull_data<S: Source, P: Lender>(
    source: &mut S,
    lender: &mut P,
    len: u32,
) -> Result<Pages, PullError>
    ensures filled { IfOk result (TookPages (S.left source.old) (S.left source.new) len (P.stock lender.old).free) }
    ensures stays { StaysUnwaited (S.waited source.old) (S.waited source.new) result }
    ensures stopped { Stopped (S.left source.old) (S.left source.new) len result }
    ensures causes { PullCauses (S.left source.old) (S.left source.new) len (S.faults source.old) (S.faults source.new) result }
    ensures lent { HasLent (given_pages length result) (P.stock lender.old) (P.stock lender.new) }
{
    pull_by(source, &mut [0; CHUNK], lender, len)
}
