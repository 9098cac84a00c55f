// Replays of a few requests, and inputs that are refused.
use crate::frames::{
    END, TURN, check, command, fault, full, good, input, output, read, request, write,
    write_and_read, written_and_read,
};
use crate::replaying::{expect, expect_replies, pieces, run};
use satl_top::Status;
use std::alloc::Global;
use std::process::Abort;
use std::test::Fail;

/// An input is refused with a FAULT alone.
fn expect_fault(
    rt: &impl Abort,
    alloc: Global,
    input: &[u8],
    reason: u8,
    offset: u64,
) -> Result<(), Fail> {
    let mut expected = output(alloc)?;
    fault(&mut expected, reason, offset)?;
    expect(rt, alloc, input, Status::BadInput, &expected)
}

#[test]
fn empty_input(rt: HostRuntime) -> Result<(), Fail> {
    expect_fault(&rt, rt.alloc(), b"", 5, 0)
}

#[test]
fn only_end(rt: HostRuntime) -> Result<(), Fail> {
    let alloc = rt.alloc();
    expect_replies(&rt, alloc, b"SATLRPL1", b"SATLRSP1")
}

/// `show` answers in lines: TEST UNIT READY, a code that is not served, and END.
#[test]
fn shown_in_lines(rt: HostRuntime) -> Result<(), Fail> {
    let alloc = rt.alloc();
    let mut frames = input(alloc)?;
    command(&mut frames, 1, [0; 16])?;
    command(&mut frames, 2, [0xFF; 16])?;
    frames.extend_from_slice(&END)?;
    let (status, lines) = run(alloc, &["show"], frames, pieces(65536))?;
    let expected =
        b"reply 0 00000001 00 - -\nreply 0 00000002 02 700005000000000a00000000200000000000 -\nend\n";
    assert_eq!(rt; status, Status::Done);
    assert_eq!(rt; lines.as_slice(), expected.as_slice());
    Ok(())
}

#[test]
fn write_then_read(rt: HostRuntime) -> Result<(), Fail> {
    let alloc = rt.alloc();
    let frames = write_and_read(alloc)?;
    expect(&rt, alloc, &frames, Status::Done, &written_and_read(alloc)?)
}

#[test]
fn write_then_read_at_end(rt: HostRuntime) -> Result<(), Fail> {
    let alloc = rt.alloc();
    let mut frames = input(alloc)?;
    request(&mut frames, write(1, 0, 1), &[0xA5; 512])?;
    request(&mut frames, read(2, 0, 1), &[])?;
    let mut replies = output(alloc)?;
    good(&mut replies, 1, &[])?;
    good(&mut replies, 2, &[0xA5; 512])?;
    expect_replies(&rt, alloc, &frames, &replies)
}

#[test]
fn beyond_capacity(rt: HostRuntime) -> Result<(), Fail> {
    let alloc = rt.alloc();
    let mut frames = input(alloc)?;
    request(&mut frames, write(1, 8191, 1), &[0x11; 512])?;
    frames.extend_from_slice(&TURN)?;
    request(&mut frames, write(2, 8191, 2), &[0x22; 1024])?;
    let mut replies = output(alloc)?;
    good(&mut replies, 1, &[])?;
    check(&mut replies, 2, 0x5, 0x21, [0; 3])?;
    expect_replies(&rt, alloc, &frames, &replies)?;
    // The last sector is as it was.
    request(&mut frames, read(3, 8191, 1), &[])?;
    good(&mut replies, 3, &[0x11; 512])?;
    expect_replies(&rt, alloc, &frames, &replies)
}

#[test]
fn long_count_and_short_data(rt: HostRuntime) -> Result<(), Fail> {
    let alloc = rt.alloc();
    let mut frames = input(alloc)?;
    request(&mut frames, write(1, 0, 4097), &[])?;
    request(&mut frames, write(2, 0, 2), &[0; 1023])?;
    let mut replies = output(alloc)?;
    check(&mut replies, 1, 0x5, 0x24, [0xC0, 0, 7])?;
    check(&mut replies, 2, 0xB, 0x4B, [0; 3])?;
    expect_replies(&rt, alloc, &frames, &replies)
}

/// 65 reads of a block, of which the last finds 64 tasks.
#[test]
fn task_set_full(rt: HostRuntime) -> Result<(), Fail> {
    let alloc = rt.alloc();
    let mut frames = input(alloc)?;
    let mut replies = output(alloc)?;
    full(&mut replies, 64)?;
    for tag in 0..64 {
        request(&mut frames, read(tag, 0, 1), &[])?;
        good(&mut replies, tag, &[0; 512])?;
    }
    request(&mut frames, read(64, 0, 1), &[])?;
    expect_replies(&rt, alloc, &frames, &replies)
}

/// Eight writes of 4,096 blocks hold all pages for tasks, and a ninth of one block finds none.
#[test]
fn task_set_full_of_blocks(rt: HostRuntime) -> Result<(), Fail> {
    let alloc = rt.alloc();
    let zeros = vec![in alloc; 0; 2_097_152]?;
    let mut frames = input(alloc)?;
    let mut replies = output(alloc)?;
    full(&mut replies, 8)?;
    for tag in 0..8 {
        request(&mut frames, write(tag, 0, 4096), &zeros)?;
        good(&mut replies, tag, &[])?;
    }
    request(&mut frames, write(8, 0, 1), &[0; 512])?;
    expect_replies(&rt, alloc, &frames, &replies)
}

#[test]
fn cut_frame(rt: HostRuntime) -> Result<(), Fail> {
    expect_fault(&rt, rt.alloc(), b"SATLRPL1\x01\0\0", 5, 8)
}

#[test]
fn framing_faults(rt: HostRuntime) -> Result<(), Fail> {
    let alloc = rt.alloc();
    expect_fault(&rt, alloc, b"X", 1, 0)?;
    expect_fault(&rt, alloc, b"SATLRPL1\x07", 2, 8)?;
    expect_fault(&rt, alloc, b"SATLRPL1\x01\0\0\0\x1D", 3, 8)?;
    expect_fault(&rt, alloc, b"SATLRPL1\x04\0\0\0\x01\x09", 4, 8)
}
