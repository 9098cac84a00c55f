// The reader of frames.
ghost use Rattle.std.specs.Prelude.{◌≡◌, ◌<◌, ◌+◌, ℕ, true, false, IfOk, IfErr, IfSome, IfNone, Some, None, Err, length, slice_index};
ghost use Rattle.satl_base.specs.Stocks.{HasLent};
ghost use Rattle.satl_frame.specs.declared.frames.Frame.TheVariants as frames;
ghost use Rattle.satl_frame.specs.Faults.{told_length};
ghost use Rattle.satl_frame.specs.Frames.{frame_rows, has_code, allows};
ghost use Rattle.satl_frame.specs.Pulls.{PullCauses, StaysUnwaited, Stopped, TookPayload, TookRest, TookBadField, asked_pages, found_pages, frame_pages, given_pages, head_of_request, request_pages};
ghost use Rattle.satl_frame.specs.Reading.{AwaitsNoMore, Reading, Gave, Blames, ReadCauses};
ghost use Rattle.satl_frame.specs.Steps.{Began, BlamesMagic, StoodAt, BlamesAt, BlamesPayload, head_in};

use crate::frames::{
    Frame, FrameFault, HEAD_SIZE, LATER_REQUEST_SIZE, LONGEST_EVENT, MAGIC_SIZE, Place,
    REQUEST_KIND, Reason, Version,
};
use crate::judge::{head_fault, head_size, magic_fault, told_length, version_of};
use crate::payloads::{request_of, small_frame};
use crate::pulling::{PullError, fill, pull};
use crate::refill::{CHUNK, pull_by, skip};
use satl_base::{Lender, Request};
use satl_io::{Failed, Source};
use std::alloc::Global;
use std::marker::Model;

/// Pulls the data-out of a request.
fn pull_rest<S: Source, P: Lender>(
    source: &mut S,
    buffer: &mut [u8; CHUNK],
    lender: &mut P,
    request: Request,
    len: u32,
) -> Result<Request, PullError>
    ensures filled { IfOk result (TookRest (S.left source.old) (S.left source.new) request len (P.stock lender.old).free) }
    ensures stays { StaysUnwaited (S.waited source.old) (S.waited source.new) result }
    ensures stopped { Stopped (S.left source.old) (S.left source.new) len result }
    ensures causes { PullCauses (S.left source.old) (S.left source.new) len (S.faults source.old) (S.faults source.new) result }
    ensures lent { HasLent (given_pages request_pages result) (P.stock lender.old) (P.stock lender.new) }
{
    match pull_by(source, buffer, lender, len) {
        Ok(body) => Ok(Request {
            body,
            data_len: len,
            ..request
        }),
        Err(error) => Err(error),
    }
}

/// Pulls the payload of a request. None where a field of it is bad.
fn pull_request<S: Source, P: Lender>(
    source: &mut S,
    buffer: &mut [u8; CHUNK],
    lender: &mut P,
    version: Version,
    len: u32,
) -> Result<Option<Request>, PullError>
    requires { allows (frame_rows version) 1 len ≡ true }
    ensures request { IfOk result (λ found. IfSome found (λ request.
        TookPayload (S.left source.old) (S.left source.new) (head_of_request version len) (P.stock lender.old).free
        (frames.Request request))) }
    ensures none { IfOk result (λ found. IfNone found
        (TookBadField (S.left source.old) (S.left source.new) (head_of_request version len))) }
    ensures stays { StaysUnwaited (S.waited source.old) (S.waited source.new) result }
    ensures stopped { Stopped (S.left source.old) (S.left source.new) len result }
    ensures causes { PullCauses (S.left source.old) (S.left source.new) len (S.faults source.old) (S.faults source.new) result }
    ensures lent { HasLent (given_pages asked_pages result) (P.stock lender.old) (P.stock lender.new) }
{
    let size = head_size(version);
    let mut room = [0; LATER_REQUEST_SIZE];
    let head = &mut room[..size as usize];
    pull(source, head)?;
    match request_of(version, head) {
        Some(request) => match pull_rest(source, buffer, lender, request, len - size) {
            Ok(request) => Ok(Some(request)),
            Err(error) => Err(error),
        },
        None => match skip(source, buffer, len - size) {
            Ok(()) => Ok(None),
            Err(error) => Err(error),
        },
    }
}

/// Pulls the payload of a frame of another kind. None where a field of it is bad.
fn pull_small<'a, S: Source>(
    source: &mut S,
    room: &'a mut [u8; LONGEST_EVENT],
    version: Version,
    code: u8,
    len: u32,
) -> Result<Option<Frame<'a>>, PullError>
    requires known { has_code (frame_rows version) code ≡ true }
    requires allowed { allows (frame_rows version) code len ≡ true }
    requires other { 1 < code }
    ensures frame { (free : ℕ) → IfOk result (λ found. IfSome found (TookPayload (S.left source.old) (S.left source.new)
        (record { version = version; code = code; len = len }) free)) }
    ensures none { IfOk result (λ found. IfNone found (TookBadField (S.left source.old) (S.left source.new)
        (record { version = version; code = code; len = len }))) }
    ensures stays { StaysUnwaited (S.waited source.old) (S.waited source.new) result }
    ensures stopped { Stopped (S.left source.old) (S.left source.new) len result }
    ensures causes { PullCauses (S.left source.old) (S.left source.new) len (S.faults source.old) (S.faults source.new) result }
    ensures pages { given_pages found_pages result ≡ 0 }
{
    let payload = &mut room[..len as usize];
    pull(source, payload)?;
    Ok(small_frame(version, code, payload))
}

/// Pulls the payload of a frame of this kind and length. None where a field of it is bad.
fn pull_payload<'a, S: Source, P: Lender>(
    source: &mut S,
    buffer: &mut [u8; CHUNK],
    lender: &mut P,
    room: &'a mut [u8; LONGEST_EVENT],
    version: Version,
    code: u8,
    len: u32,
) -> Result<Option<Frame<'a>>, PullError>
    requires known { has_code (frame_rows version) code ≡ true }
    requires allowed { allows (frame_rows version) code len ≡ true }
    ensures frame { IfOk result (λ found. IfSome found (TookPayload (S.left source.old) (S.left source.new)
        (record { version = version; code = code; len = len }) (P.stock lender.old).free)) }
    ensures none { IfOk result (λ found. IfNone found (TookBadField (S.left source.old) (S.left source.new)
        (record { version = version; code = code; len = len }))) }
    ensures stays { StaysUnwaited (S.waited source.old) (S.waited source.new) result }
    ensures stopped { Stopped (S.left source.old) (S.left source.new) len result }
    ensures causes { PullCauses (S.left source.old) (S.left source.new) len (S.faults source.old) (S.faults source.new) result }
    ensures lent { HasLent (given_pages found_pages result) (P.stock lender.old) (P.stock lender.new) }
{
    if code != REQUEST_KIND {
        return pull_small(source, room, version, code, len);
    }
    match pull_request(source, buffer, lender, version, len) {
        Ok(Some(request)) => Ok(Some(Frame::Request(request))),
        Ok(None) => Ok(None),
        Err(error) => Err(error),
    }
}

/// Reads the payload behind a good head.
fn read_payload<'a, S: Source, P: Lender>(
    source: &mut S,
    buffer: &mut [u8; CHUNK],
    lender: &mut P,
    room: &'a mut [u8; LONGEST_EVENT],
    head: &[u8],
    place: Place,
) -> Result<Frame<'a>, FrameFault>
    requires long { length head.now ≡ 5 }
    requires known { has_code (frame_rows place.version) (slice_index head.now 0) ≡ true }
    requires allowed { allows (frame_rows place.version) (slice_index head.now 0) (told_length head.now) ≡ true }
    ensures frame { IfOk result
        (TookPayload (S.left source.old) (S.left source.new) (head_in place.version head.now) (P.stock lender.old).free) }
    ensures stays { StaysUnwaited (S.waited source.old) (S.waited source.new) result }
    ensures fault { IfErr result
        (BlamesPayload (head_in place.version head.now) place.offset (S.left source.old) (S.left source.new)) }
    ensures awaits { IfErr result (λ e. S.waited source.old ≡ false →
        AwaitsNoMore (S.waited source.new) (S.left source.new) e) }
    ensures causes { ReadCauses (S.faults source.old) (S.faults source.new) result }
    ensures lent { HasLent (given_pages frame_pages result) (P.stock lender.old) (P.stock lender.new) }
{
    let offset = place.offset;
    match pull_payload(
        source,
        buffer,
        lender,
        room,
        place.version,
        head[0],
        told_length(head),
    ) {
        Ok(Some(frame)) => Ok(frame),
        Ok(None) => Err(FrameFault::Bad {
            reason: Reason::BadField,
            offset,
        }),
        Err(PullError::Short) => Err(FrameFault::Bad {
            reason: Reason::Truncated,
            offset,
        }),
        Err(PullError::Failed) => Err(FrameFault::ReadFault),
    }
}

/// Reads the frame at a place, and gives the offset behind it too.
fn read_frame<'a, S: Source, P: Lender>(
    source: &mut S,
    buffer: &mut [u8; CHUNK],
    lender: &mut P,
    room: &'a mut [u8; LONGEST_EVENT],
    limit: u64,
    place: Place,
) -> Result<(Frame<'a>, u64), FrameFault>
    ensures frame { IfOk result (λ x. StoodAt limit (record { place = place; left = S.left source.old })
        (record { place = record place { offset = x.1 }; left = S.left source.new }) (P.stock lender.old).free x.0) }
    ensures unwaited { IfOk result (λ _. S.waited source.new ≡ false) }
    ensures fault { IfErr result (BlamesAt limit place (S.left source.old) (S.left source.new)) }
    ensures awaits { IfErr result (AwaitsNoMore (S.waited source.new) (S.left source.new)) }
    ensures causes { ReadCauses (S.faults source.old) (S.faults source.new) result }
    ensures lent { HasLent (given_pages (λ x. frame_pages x.0) result) (P.stock lender.old) (P.stock lender.new) }
{
    let mut head = [0; HEAD_SIZE];
    let count = match fill(source, &mut head) {
        Ok(count) => count,
        Err(Failed) => return Err(FrameFault::ReadFault),
    };
    let offset = place.offset;
    match head_fault(place.version, limit, offset, &head, count) {
        Some(reason) => Err(FrameFault::Bad { reason, offset }),
        None => match read_payload(source, buffer, lender, room, &head, place) {
            Ok(frame) => Ok((
                frame,
                offset + HEAD_SIZE as u64 + u64::from(told_length(&head)),
            )),
            Err(fault) => Err(fault),
        },
    }
}

/// Reads the magic, and gives the version that it names.
fn read_magic<S: Source>(source: &mut S, newest: Version) -> Result<Place, FrameFault>
    ensures began { IfOk result (Began newest None (S.left source.old) (S.left source.new)) }
    ensures fault { IfErr result (BlamesMagic newest (S.left source.old) (S.left source.new)) }
    ensures awaits { IfErr result (AwaitsNoMore (S.waited source.new) (S.left source.new)) }
    ensures causes { ReadCauses (S.faults source.old) (S.faults source.new) result }
{
    let mut front = [0; MAGIC_SIZE];
    let count = match fill(source, &mut front) {
        Ok(count) => count,
        Err(Failed) => return Err(FrameFault::ReadFault),
    };
    match magic_fault(newest, &front[..count]) {
        Some(reason) => Err(FrameFault::Bad { reason, offset: 0 }),
        None => Ok(Place {
            version: version_of(&front),
            offset: MAGIC_SIZE as u64,
        }),
    }
}

/// Reads the magic unless that was done, and gives the place of the next frame.
#[inline(always)]
fn begin<S: Source>(
    source: &mut S,
    newest: Version,
    place: Option<Place>,
) -> Result<Place, FrameFault>
    ensures began { IfOk result (Began newest place (S.left source.old) (S.left source.new)) }
    ensures fault { IfErr result (λ e. (place ≡ None) × BlamesMagic newest (S.left source.old) (S.left source.new) e) }
    ensures awaits { IfErr result (AwaitsNoMore (S.waited source.new) (S.left source.new)) }
    ensures causes { ReadCauses (S.faults source.old) (S.faults source.new) result }
{
    match place {
        Some(place) => Ok(place),
        None => read_magic(source, newest),
    }
}

/// Reads frames from a source, one at a time (profile). It takes no memory. The limit is the number of bytes within
/// which each frame of the input has to end.
#[derive(Drop)]
pub struct FrameReader {
    limit: u64,
    newest: Version,
    place: Option<Place>,
    refused: Option<FrameFault>,
    // Data-out goes through it. As a local it would be blanked at each call.
    buffer: [u8; CHUNK],
}

impl Model for FrameReader {
    ghost use Rattle.satl_frame.specs.Reading.{Reading};

    ghost Value = { Reading };

    ghost view = { λ r. record { limit = r.limit; newest = r.newest; place = r.place; refused = r.refused } };
}

impl FrameReader {
    ghost use Rattle.satl_frame.specs.declared.frames.Version.TheVariants.{One, Two};

    /// Reads an input of version 1 or 2, each of whose frames ends within `limit` bytes of it (profile).
    pub fn new(_alloc: Global, limit: u64) -> Self
        ensures { result ≡ record { limit = limit; newest = Two; place = None; refused = None } }
    {
        FrameReader {
            limit,
            newest: Version::Two,
            place: None,
            refused: None,
            buffer: [0; CHUNK],
        }
    }

    /// Reads an input of version 1 alone, each of whose frames ends within `limit` bytes of it: the magic of version 2 is a bad
    /// one (profile).
    pub fn first_only(_alloc: Global, limit: u64) -> Self
        ensures { result ≡ record { limit = limit; newest = One; place = None; refused = None } }
    {
        FrameReader {
            limit,
            newest: Version::One,
            place: None,
            refused: None,
            buffer: [0; CHUNK],
        }
    }

    /// The next frame of a reader that has refused none.
    fn advance<'a, S: Source, P: Lender>(
        &mut self,
        source: &mut S,
        lender: &mut P,
        room: &'a mut [u8; LONGEST_EVENT],
    ) -> Result<Frame<'a>, FrameFault>
        ensures gave { IfOk result (λ f. Gave self.old (P.stock lender.old).free f self.new (S.left source.old) (S.left source.new)) }
        ensures unwaited { IfOk result (λ _. S.waited source.new ≡ false) }
        ensures blames { IfErr result (λ e. Blames self.old (S.left source.old) (S.left source.new) e × (self.new ≡ self.old)) }
        ensures awaits { IfErr result (AwaitsNoMore (S.waited source.new) (S.left source.new)) }
        ensures causes { ReadCauses (S.faults source.old) (S.faults source.new) result }
        ensures lent { HasLent (given_pages frame_pages result) (P.stock lender.old) (P.stock lender.new) }
    {
        let place = match begin(source, self.newest, self.place) {
            Ok(place) => place,
            Err(fault) => return Err(fault),
        };
        match read_frame(source, &mut self.buffer, lender, room, self.limit, place) {
            Ok((frame, offset)) => {
                self.place = Some(Place { offset, ..place });
                Ok(frame)
            }
            Err(fault) => Err(fault),
        }
    }

    /// The next frame, and before the first one the magic (profile). Exactly its bytes are taken from the source, and none
    /// behind them is waited for. Its order bytes stay in the room. Its data-out stands in the first pages that the lender has
    /// free: bytes that do not fit are taken and dropped, and `data_len` is the length of all. `Bad` says why and where the
    /// input is refused, and no byte behind those that were taken was waited for, unless none is left; `ReadFault` that a read
    /// failed. Either is answered again from then on, and nothing more is read.
    pub fn next<'a, S: Source, P: Lender>(
        &mut self,
        source: &mut S,
        lender: &mut P,
        room: &'a mut [u8; LONGEST_EVENT],
    ) -> Result<Frame<'a>, FrameFault>
        ensures gave { IfOk result (λ f. Gave self.old (P.stock lender.old).free f self.new (S.left source.old) (S.left source.new)) }

        // It waits for no byte behind the frame.
        ensures unwaited { IfOk result (λ _. S.waited source.new ≡ false) }

        // A refusal is repeated; a first one is that of the bytes left, or a read has failed.
        ensures repeats { IfSome self.old.refused
            (λ fault. (result ≡ Err fault) × (self.new ≡ self.old) × (source.new ≡ source.old)) }
        ensures blames { self.old.refused ≡ None → IfErr result (Blames self.old (S.left source.old) (S.left source.new)) }
        ensures awaits { self.old.refused ≡ None → IfErr result (AwaitsNoMore (S.waited source.new) (S.left source.new)) }
        ensures keeps { IfErr result (λ fault. self.new ≡ record self.old { refused = Some fault }) }
        ensures causes { self.old.refused ≡ None → ReadCauses (S.faults source.old) (S.faults source.new) result }

        // As many pages are lent as the frame has.
        ensures lent { HasLent (given_pages frame_pages result) (P.stock lender.old) (P.stock lender.new) }
    {
        if let Some(fault) = self.refused {
            return Err(fault);
        }
        match self.advance(source, lender, room) {
            Ok(frame) => Ok(frame),
            Err(fault) => {
                self.refused = Some(fault);
                Err(fault)
            }
        }
    }
}
