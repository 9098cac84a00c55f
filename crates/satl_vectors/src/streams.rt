// Streams that fail or end, at each call and at each byte.
use crate::frames::{fault, write_and_read, written_and_read};
use crate::replaying::{Streams, pieces, replay};
use satl_top::Status;
use std::alloc::{AllocError, Global};
use std::process::Abort;
use std::test::Fail;

/// The magic or a frame of the input of a write and a read: where it begins and ends, which calls read it where each gives one
/// byte, and how many bytes are written before it is carried out. Before each of its fields a call reads ahead, and before
/// data-out another one.
#[derive(Clone, Copy)]
struct Part {
    begin: usize,
    end: usize,
    first_call: usize,
    end_call: usize,
    written: usize,
}

const PARTS: [Part; 6] = [
    Part {
        begin: 0,
        end: 8,
        first_call: 0,
        end_call: 9,
        written: 8,
    },
    Part {
        begin: 8,
        end: 555,
        first_call: 9,
        end_call: 560,
        written: 8,
    },
    Part {
        begin: 555,
        end: 562,
        first_call: 560,
        end_call: 569,
        written: 8,
    },
    Part {
        begin: 562,
        end: 597,
        first_call: 569,
        end_call: 606,
        written: 20,
    },
    Part {
        begin: 597,
        end: 604,
        first_call: 606,
        end_call: 615,
        written: 20,
    },
    Part {
        begin: 604,
        end: 609,
        first_call: 615,
        end_call: 621,
        written: 544,
    },
];

/// The first bytes of what is written for a write and a read.
fn front(alloc: Global, written: usize) -> Result<Vec<u8>, AllocError> {
    let mut output = written_and_read(alloc)?;
    output.truncate(written);
    Ok(output)
}

/// The input of a write and a read over these streams: how it ends, and what is written.
fn expect_over(
    rt: &impl Abort,
    alloc: Global,
    streams: Streams,
    status: Status,
    output: &[u8],
) -> Result<(), Fail> {
    let (ended, written) = replay(alloc, write_and_read(alloc)?, streams)?;
    assert_eq!(rt; ended, status);
    assert_eq!(rt; written.as_slice(), output);
    Ok(())
}

/// Where the input ends inside a part, a FAULT is written that says where the part begins.
fn expect_cut(
    rt: &impl Abort,
    alloc: Global,
    part: Part,
    first: usize,
    end: usize,
) -> Result<(), Fail> {
    let mut expected = front(alloc, part.written)?;
    fault(&mut expected, 5, part.begin as u64)?;
    for cut in part.begin.max(first)..part.end.min(end) {
        let mut input = write_and_read(alloc)?;
        input.truncate(cut);
        let (status, written) = replay(alloc, input, pieces(65536))?;
        assert_eq!(rt; status, Status::BadInput, "cut at {cut}");
        assert_eq!(rt; written.as_slice(), expected.as_slice(), "cut at {cut}");
    }
    Ok(())
}

/// The input is cut after each number of bytes from the first on and below the end.
fn expect_cuts(rt: &impl Abort, alloc: Global, first: usize, end: usize) -> Result<(), Fail> {
    for part in PARTS {
        expect_cut(rt, alloc, part, first, end)?;
    }
    Ok(())
}

// Each cut opens the layer anew, so they go in three tests.
#[test]
fn cut_after_each_byte_below_200(rt: HostRuntime) -> Result<(), Fail> {
    expect_cuts(&rt, rt.alloc(), 0, 200)
}

#[test]
fn cut_after_each_byte_below_400(rt: HostRuntime) -> Result<(), Fail> {
    expect_cuts(&rt, rt.alloc(), 200, 400)
}

#[test]
fn cut_after_each_byte_below_the_end(rt: HostRuntime) -> Result<(), Fail> {
    expect_cuts(&rt, rt.alloc(), 400, 609)
}

/// Where a read of a part fails, no answer follows those before the part. The bytes in the midst of the data-out
/// are alike, and left out.
fn expect_failing_reads(rt: &impl Abort, alloc: Global, part: Part) -> Result<(), Fail> {
    let expected = front(alloc, part.written)?;
    for call in part.first_call..part.end_call {
        if (60..540).contains(&call) {
            continue;
        }
        let streams = Streams {
            failing_read: u32::try_from(call).ok(),
            ..pieces(1)
        };
        expect_over(rt, alloc, streams, Status::ReadFault, &expected)?;
    }
    Ok(())
}

#[test]
fn failing_read_of_each_byte(rt: HostRuntime) -> Result<(), Fail> {
    for part in PARTS {
        expect_failing_reads(&rt, rt.alloc(), part)?;
    }
    Ok(())
}

/// The bytes in the midst of the data-in are left out.
#[test]
fn failing_write_of_each_byte(rt: HostRuntime) -> Result<(), Fail> {
    let alloc = rt.alloc();
    for call in 0..549u32 {
        if (40..530).contains(&call) {
            continue;
        }
        let streams = Streams {
            failing_write: Some(call),
            ..pieces(1)
        };
        let expected = front(alloc, call as usize)?;
        expect_over(&rt, alloc, streams, Status::WriteFault, &expected)?;
    }
    Ok(())
}

/// Whole reads and writes, of which the read or the write of this number fails.
fn failing(reads: bool, call: u32) -> Streams {
    if reads {
        Streams {
            failing_read: Some(call),
            ..pieces(65536)
        }
    } else {
        Streams {
            failing_write: Some(call),
            ..pieces(65536)
        }
    }
}

/// Each read or each write fails once, up to the first number that no call has.
fn expect_fronts(rt: &impl Abort, alloc: Global, reads: bool, fault: Status) -> Result<(), Fail> {
    let expected = written_and_read(alloc)?;
    for call in 1..549u32 {
        let (status, written) = replay(alloc, write_and_read(alloc)?, failing(reads, call))?;
        if status == Status::Done {
            assert_eq!(rt; written.as_slice(), expected.as_slice());
            return Ok(());
        }
        assert_eq!(rt; status, fault, "call {call}");
        assert!(rt; expected.starts_with(&written), "call {call}");
    }
    panic!(rt; "no end of calls");
}

#[test]
fn failing_streams(rt: HostRuntime) -> Result<(), Fail> {
    let alloc = rt.alloc();
    expect_over(&rt, alloc, failing(true, 0), Status::ReadFault, b"SATLRSP1")?;
    expect_over(&rt, alloc, failing(false, 0), Status::WriteFault, b"")?;
    expect_fronts(&rt, alloc, true, Status::ReadFault)?;
    expect_fronts(&rt, alloc, false, Status::WriteFault)
}
