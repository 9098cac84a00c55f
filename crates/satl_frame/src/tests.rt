ghost use Rattle.std.specs.Prelude.{◌≡◌, ◌≤◌, ◌<◌, ◌+◌, ◌^◌, IfOk, IfSome, length};
ghost use Rattle.satl_frame.specs.Output.{IsWritable};

use crate::{
    Frame, FrameFault, FrameReader, LONGEST_EVENT, OutFrame, Reason, WriteFault, write_frame,
};
use arrayvec::ArrayVec;
use satl_base::{BenchEvent, Block, Lender, Nexus, NoMemory, Pages, Reply, Response, Scsi, Tag};
use satl_io::{MemorySink, MemorySource, Sink};
use std::alloc::Global;
use std::mem;
use std::process::Abort;
use std::test::Fail;

/// Pages to lend.
#[derive(Drop)]
struct Shelf {
    free: Pages,
    out: u32,
    ghost bounded: { length free + out < 2 ^ 32 },
}

impl Shelf {
    fn new(alloc: Global) -> Result<Shelf, NoMemory> {
        Ok(Shelf {
            free: Pages::zeroed(alloc, 2)?,
            out: 0,
        })
    }
}

/// Puts pages before others.
fn put_before(pages: Pages, others: &mut Pages)
    requires { length pages + length others.old < 2 ^ 32 }
    ensures { length others.new ≡ length others.old + length pages }
{
    let mut pages = pages;
    for _ in 0..pages.blocks() {
        let Some(page) = pages.pop_first() else {
            unreachable!();
        };
        others.push_first(page);
    }
}

impl Lender for Shelf {
    type Rest = ();

    ghost stock = { λ s. record { free = length s.free; out = s.out; rest = tt } };

    fn room(&self) -> u32 {
        self.free.blocks()
    }

    fn lend(&mut self, n: u32) -> Pages {
        let rest = self.free.split(n);
        self.out += n;
        mem::replace(&mut self.free, rest)
    }

    fn give_back(&mut self, pages: Pages) {
        self.out -= pages.blocks();
        put_before(pages, &mut self.free);
    }
}

/// How many frames stand before the end or the refusal of an input, and that refusal.
fn outcome(
    alloc: Global,
    reader: FrameReader,
    input: &[u8],
    piece: usize,
) -> Result<(u32, Option<FrameFault>), Fail> {
    let mut reader = reader;
    let mut source = MemorySource::new(input.to_vec(alloc)?, piece.max(1), Vec::new(alloc));
    let mut shelf = Shelf::new(alloc)?;
    let mut room = [0; LONGEST_EVENT];
    for count in 0..9u32 {
        match reader.next(&mut source, &mut shelf, &mut room) {
            Ok(Frame::End) => return Ok((count, None)),
            Ok(_) => {}
            Err(fault) => return Ok((count, Some(fault))),
        }
    }
    Ok((9, None))
}

const WRITE: [u8; 43] =
    *b"SATLRPL1\x01\x00\x00\x02\x1E\x00\x00\x00\x00\x00\x00\x00\x00\x00\x00\x00\x00\x00\x01\
    \x2A\x00\x00\x00\x00\x00\x00\x00\x01\x00\x00\x00\x00\x00\x00\x00";

const THEN_READ: [u8; 54] = *b"\x03\x00\x00\x00\x02\x00\x01\
    \x01\x00\x00\x00\x1E\x00\x00\x00\x00\x00\x00\x00\x00\x00\x00\x00\x00\x00\x02\
    \x28\x00\x00\x00\x00\x00\x00\x00\x01\x00\x00\x00\x00\x00\x00\x00\
    \x03\x00\x00\x00\x02\x00\x01\x05\x00\x00\x00\x00";

/// A write of one block, a turn, a read of it, a turn, and the end.
fn write_then_read(alloc: Global) -> Result<Vec<u8>, Fail> {
    let mut input = WRITE.to_vec(alloc)?;
    input.extend_from_slice(&[0xA5; 512])?;
    input.extend_from_slice(&THEN_READ)?;
    Ok(input)
}

/// What a reader of both versions makes of an input, at once and byte by byte.
fn expect(
    rt: &impl Abort,
    alloc: Global,
    input: &[u8],
    frames: u32,
    fault: Option<FrameFault>,
) -> Result<(), Fail> {
    for piece in [1, 4096] {
        let reader = FrameReader::new(alloc, 1 << 40);
        assert_eq!(rt; outcome(alloc, reader, input, piece)?, (frames, fault));
    }
    Ok(())
}

fn bad(reason: Reason, offset: u64) -> Option<FrameFault> {
    Some(FrameFault::Bad { reason, offset })
}

/// A request for the first 8 of 36 bytes, and one that expects a byte too many.
const EXPECTED: [u8; 52] =
    *b"SATLRPL2\x01\x00\x00\x00\x22\x00\x00\x00\x00\x00\x00\x00\x00\x00\x00\x00\x00\x00\x01\
    \x12\x00\x00\x00\x24\x00\x00\x00\x00\x00\x00\x00\x00\x00\x00\x00\x00\x00\x00\x08\x05\x00\x00\x00\x00";

const TOO_LONG: [u8; 47] =
    *b"SATLRPL2\x01\x00\x00\x00\x22\x00\x00\x00\x00\x00\x00\x00\x00\x00\x00\x00\x00\x00\x02\
    \x00\x00\x00\x00\x00\x00\x00\x00\x00\x00\x00\x00\x00\x00\x00\x00\x00\x20\x00\x01";

/// What is left of an input that is cut after each of its bytes.
fn expect_cut(rt: &impl Abort, alloc: Global, input: &[u8]) -> Result<(), Fail> {
    for cut in 0..input.len() {
        let (frames, offset) = match cut {
            0..8 => (0, 0),
            8..555 => (0, 8),
            555..562 => (1, 555),
            562..597 => (2, 562),
            597..604 => (3, 597),
            _ => (4, 604),
        };
        let reader = FrameReader::new(alloc, 1 << 40);
        assert_eq!(rt;
            outcome(alloc, reader, &input[..cut], 512)?,
            (frames, bad(Reason::Truncated, offset))
        );
    }
    Ok(())
}

/// Inputs of every outcome, and one that is cut after each byte.
#[test]
fn inputs_are_read_or_refused(rt: HostRuntime) -> Result<(), Fail> {
    let alloc = rt.alloc();
    let end = b"SATLRPL1\x05\x00\x00\x00\x00";
    expect(&rt, alloc, b"", 0, bad(Reason::Truncated, 0))?;
    expect(&rt, alloc, end, 0, None)?;
    expect(
        &rt,
        alloc,
        b"SATLRPL1\x01\x00\x00",
        0,
        bad(Reason::Truncated, 8),
    )?;
    expect(&rt, alloc, b"X", 0, bad(Reason::BadMagic, 0))?;
    expect(&rt, alloc, b"SATLRPL1\x07", 0, bad(Reason::BadKind, 8))?;
    expect(
        &rt,
        alloc,
        b"SATLRPL1\x01\x00\x00\x00\x1D",
        0,
        bad(Reason::BadLength, 8),
    )?;
    expect(
        &rt,
        alloc,
        b"SATLRPL1\x04\x00\x00\x00\x01\x09",
        0,
        bad(Reason::BadField, 8),
    )?;
    expect(&rt, alloc, &EXPECTED, 1, None)?;
    expect(&rt, alloc, &TOO_LONG, 0, bad(Reason::BadField, 8))?;
    let reader = FrameReader::new(alloc, 12);
    assert_eq!(rt;
        outcome(alloc, reader, end, 8)?,
        (0, bad(Reason::TooLong, 8))
    );
    let reader = FrameReader::first_only(alloc, 1 << 40);
    assert_eq!(rt;
        outcome(alloc, reader, &EXPECTED, 8)?,
        (0, bad(Reason::BadMagic, 0))
    );
    expect_cut(&rt, alloc, &write_then_read(alloc)?)
}

/// The magic, two replies of version 2 and one of version 1, a response, END and FAULT.
const WRITTEN: [u8; 91] = *b"SATLRSP1\
    \x83\x00\x00\x00\x13\x00\x00\x00\x00\x00\x01\xFF\xFF\xFF\xE4\x00\x00\x00\x06\x02\x1F\x00\x00\x02\
    \x83\x00\x00\x00\x0B\x00\x00\x00\x00\x00\x02\x00\x00\x00\x00\x00\
    \x81\x00\x00\x00\x07\x00\x00\x00\x00\x00\x01\x00\
    \x82\x00\x00\x00\x07\x00\x01\x00\x00\x00\x00\x01\
    \x85\x00\x00\x00\x00\
    \x8F\x00\x00\x00\x09\x05\x00\x00\x00\x00\x00\x00\x00\x08";

/// A good reply to nexus 0, with data that begins with these bytes.
fn reply(
    alloc: Global,
    tag: u32,
    first: [u8; 8],
    data_len: u32,
    expected: Option<u32>,
) -> Result<Reply, NoMemory>
    requires short { data_len ≤ 4096 }
    requires expected { IfSome expected (λ count. count ≤ 2097152) }
    ensures { IfOk result (λ r. IsWritable r) }
{
    let mut block = Block::zero();
    block.bytes[..8].copy_from_slice(&first);
    let mut body = Pages::zeroed(alloc, 8)?;
    body.set_block(0, &block);
    Ok(Reply {
        nexus: Nexus::default(),
        tag: Tag(tag),
        status: Scsi::Good,
        sense: ArrayVec::new(),
        body,
        data_len,
        expected,
    })
}

/// A write, a turn, a read, a turn and the end, in pieces.
fn expect_frames(rt: &impl Abort, alloc: Global, piece: usize) -> Result<(), Fail> {
    let input = write_then_read(alloc)?;
    let mut source = MemorySource::new(input, piece.max(1), Vec::new(alloc));
    let mut shelf = Shelf::new(alloc)?;
    let mut reader = FrameReader::new(alloc, 1 << 40);
    let mut room = [0; LONGEST_EVENT];
    match reader.next(&mut source, &mut shelf, &mut room) {
        Ok(Frame::Request(request)) => {
            assert_eq!(rt; request.tag, Tag(1));
            assert_eq!(rt; request.expected, None);
            assert_eq!(rt; request.data_len, 512);
            assert_eq!(rt; request.body.blocks(), 1);
            assert!(rt; *request.body.block(0) == Block { bytes: [0xA5; 512] });
        }
        _ => panic!(rt; "no request"),
    }
    assert!(rt;
        matches!(
            reader.next(&mut source, &mut shelf, &mut room),
            Ok(Frame::Turn(1))
        )
    );
    assert!(rt;
        matches!(
            reader.next(&mut source, &mut shelf, &mut room),
            Ok(Frame::Request(_))
        )
    );
    assert!(rt;
        matches!(
            reader.next(&mut source, &mut shelf, &mut room),
            Ok(Frame::Turn(1))
        )
    );
    assert!(rt;
        matches!(
            reader.next(&mut source, &mut shelf, &mut room),
            Ok(Frame::End)
        )
    );
    Ok(())
}

fn is_order_of(event: &BenchEvent<'_>, order: &[u8]) -> bool {
    match event {
        BenchEvent::Order { bytes } => bytes.as_slice() == order,
        _ => false,
    }
}

/// An ORDER of 256 bytes has them all where no page is free.
fn expect_order(rt: &impl Abort, alloc: Global) -> Result<(), Fail> {
    let mut input = b"SATLRPL1\x04\x00\x00\x01\x01\x04".to_vec(alloc)?;
    input.extend_from_slice(&[0xA5; 256])?;
    let mut source = MemorySource::new(input, 4096, Vec::new(alloc));
    let mut shelf = Shelf {
        free: Pages::default(),
        out: 0,
    };
    let mut reader = FrameReader::new(alloc, 1 << 40);
    let mut room = [0; LONGEST_EVENT];
    match reader.next(&mut source, &mut shelf, &mut room) {
        Ok(Frame::Bench(ref event)) => assert!(rt; is_order_of(event, &[0xA5; 256])),
        _ => panic!(rt; "no event"),
    }
    Ok(())
}

/// Writes a reply to nexus 0.
fn write_reply<K: Sink>(
    alloc: Global,
    sink: &mut K,
    tag: u32,
    first: [u8; 8],
    data_len: u32,
    expected: Option<u32>,
) -> Result<Result<(), WriteFault>, NoMemory>
    requires short { data_len ≤ 4096 }
    requires expected { IfSome expected (λ count. count ≤ 2097152) }
{
    let reply = reply(alloc, tag, first, data_len, expected)?;
    let frame = OutFrame::Reply(&reply);
    Ok(write_frame(frame, sink))
}

/// Writes the frames of an output one after another.
fn write_all<K: Sink>(alloc: Global, sink: &mut K) -> Result<(), Fail> {
    write_frame(OutFrame::Magic, sink)?;
    write_reply(alloc, sink, 1, [0, 0, 6, 2, 0x1F, 0, 0, 2], 36, Some(8))??;
    write_reply(alloc, sink, 2, [0; 8], 0, Some(0))??;
    write_reply(alloc, sink, 1, [0; 8], 0, None)??;
    let managed = OutFrame::Managed {
        nexus: Nexus::default(),
        function: 1,
        response: Response::Complete,
        tag: Tag(1),
    };
    write_frame(managed, sink)?;
    write_frame(OutFrame::End, sink)?;
    let fault = OutFrame::Fault {
        reason: Reason::Truncated,
        offset: 8,
    };
    write_frame(fault, sink)?;
    Ok(())
}

/// The frames of an input however it is cut, the bytes of the frames of an output, and the number of write calls.
#[test]
fn frames_are_read_and_written(rt: HostRuntime) -> Result<(), Fail> {
    let alloc = rt.alloc();
    expect_order(&rt, alloc)?;
    for piece in [1, 2, 3, 7, 512] {
        expect_frames(&rt, alloc, piece)?;
    }
    let mut sink = MemorySink::new(alloc, 8192, 5, Vec::new(alloc))?;
    write_all(alloc, &mut sink)?;
    assert_eq!(rt; sink.written(), WRITTEN.as_slice());
    let mut later = Vec::new(alloc);
    later.push(1)?;
    let mut sink = MemorySink::new(alloc, 8192, 8192, later)?;
    assert_eq!(rt;
        write_reply(alloc, &mut sink, 3, [1; 8], 4096, None)?,
        Ok(())
    );
    assert_eq!(rt;
        write_reply(alloc, &mut sink, 4, [1; 8], 0, None)?,
        Err(WriteFault)
    );
    Ok(())
}
