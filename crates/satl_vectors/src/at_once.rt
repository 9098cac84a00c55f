// Commands that are answered at once.
ghost use Rattle.std.specs.Prelude.{◌≤◌, length};

use crate::frames::{check, command, good, input, output, read, request};
use crate::replaying::expect_replies;
use std::alloc::Global;
use std::process::Abort;
use std::test::Fail;

/// One command alone, and the data-in that it is answered with.
fn expect_data(rt: &impl Abort, alloc: Global, cdb: [u8; 16], data_in: &[u8]) -> Result<(), Fail>
    requires { length data_in.now ≤ 2097152 }
{
    let mut frames = input(alloc)?;
    command(&mut frames, 1, cdb)?;
    let mut replies = output(alloc)?;
    good(&mut replies, 1, data_in)?;
    expect_replies(rt, alloc, &frames, &replies)
}

/// One command alone, and the sense data in the fixed form that it is answered with.
fn expect_check(
    rt: &impl Abort,
    alloc: Global,
    cdb: [u8; 16],
    code: u8,
    specific: [u8; 3],
) -> Result<(), Fail> {
    let mut frames = input(alloc)?;
    command(&mut frames, 1, cdb)?;
    let mut replies = output(alloc)?;
    check(&mut replies, 1, 0x5, code, specific)?;
    expect_replies(rt, alloc, &frames, &replies)
}

/// What a host asks a disk when it finds it, and each answer.
#[test]
fn told_at_once(rt: HostRuntime) -> Result<(), Fail> {
    let alloc = rt.alloc();
    let cases: [([u8; 16], &[u8]); 14] = [
        // The standard data
        (
            [0x12, 0, 0, 0, 0x24, 0, 0, 0, 0, 0, 0, 0, 0, 0, 0, 0],
            &[
                0, 0, 6, 2, 0x1F, 0, 0, 2, 0x41, 0x54, 0x41, 0x20, 0x20, 0x20, 0x20, 0x20, 0x4D,
                0x4F, 0x44, 0x45, 0x4C, 0x20, 0x4E, 0x43, 0x51, 0x20, 0x44, 0x49, 0x53, 0x4B, 0x20,
                0x20, 0x30, 0x32, 0x30, 0x33,
            ],
        ),
        // The pages of vital product data
        (
            [0x12, 1, 0, 0, 0xFF, 0, 0, 0, 0, 0, 0, 0, 0, 0, 0, 0],
            &[0, 0, 0, 7, 0, 0x80, 0x83, 0x89, 0xB0, 0xB1, 0xB2],
        ),
        // The serial number
        (
            [0x12, 1, 0x80, 0, 0xFF, 0, 0, 0, 0, 0, 0, 0, 0, 0, 0, 0],
            &[
                0, 0x80, 0, 0x14, 0x53, 0x41, 0x54, 0x4C, 0x30, 0x30, 0x30, 0x30, 0x30, 0x30, 0x30,
                0x30, 0x30, 0x30, 0x30, 0x30, 0x30, 0x30, 0x30, 0x31,
            ],
        ),
        // The identification
        (
            [0x12, 1, 0x83, 0, 0xFF, 0, 0, 0, 0, 0, 0, 0, 0, 0, 0, 0],
            &[
                0, 0x83, 0, 0x54, 2, 1, 0, 0x44, 0x41, 0x54, 0x41, 0x20, 0x20, 0x20, 0x20, 0x20,
                0x4D, 0x4F, 0x44, 0x45, 0x4C, 0x20, 0x4E, 0x43, 0x51, 0x20, 0x44, 0x49, 0x53, 0x4B,
                0x20, 0x20, 0x20, 0x20, 0x20, 0x20, 0x20, 0x20, 0x20, 0x20, 0x20, 0x20, 0x20, 0x20,
                0x20, 0x20, 0x20, 0x20, 0x20, 0x20, 0x20, 0x20, 0x20, 0x20, 0x20, 0x20, 0x53, 0x41,
                0x54, 0x4C, 0x30, 0x30, 0x30, 0x30, 0x30, 0x30, 0x30, 0x30, 0x30, 0x30, 0x30, 0x30,
                0x30, 0x30, 0x30, 0x31, 1, 3, 0, 8, 0x50, 0, 0, 0, 0, 0, 0, 1,
            ],
        ),
        // The block limits
        (
            [0x12, 1, 0xB0, 0, 0xFF, 0, 0, 0, 0, 0, 0, 0, 0, 0, 0, 0],
            &[
                0, 0xB0, 0, 0x3C, 1, 0, 0, 0, 0, 0, 0x10, 0, 0, 0, 0, 0, 0, 0, 0, 0, 0, 1, 0, 0, 0,
                0, 0, 0x40, 0, 0, 0, 0, 0, 0, 0, 0, 0, 0, 0, 0, 0, 1, 0, 0, 0, 0, 0, 0, 0, 0, 0, 0,
                0, 0, 0, 0, 0, 0, 0, 0, 0, 0, 0, 0,
            ],
        ),
        // The block characteristics
        (
            [0x12, 1, 0xB1, 0, 0xFF, 0, 0, 0, 0, 0, 0, 0, 0, 0, 0, 0],
            &[
                0, 0xB1, 0, 0x3C, 0, 1, 0, 3, 0, 0, 0, 0, 0, 0, 0, 0, 0, 0, 0, 0, 0, 0, 0, 0, 0, 0,
                0, 0, 0, 0, 0, 0, 0, 0, 0, 0, 0, 0, 0, 0, 0, 0, 0, 0, 0, 0, 0, 0, 0, 0, 0, 0, 0, 0,
                0, 0, 0, 0, 0, 0, 0, 0, 0, 0,
            ],
        ),
        // The provisioning
        (
            [0x12, 1, 0xB2, 0, 0xFF, 0, 0, 0, 0, 0, 0, 0, 0, 0, 0, 0],
            &[0, 0xB2, 0, 4, 0, 0xE4, 0, 0],
        ),
        // TEST UNIT READY
        ([0, 0, 0, 0, 0, 0, 0, 0, 0, 0, 0, 0, 0, 0, 0, 0], &[]),
        // READ CAPACITY(16)
        (
            [0x9E, 0x10, 0, 0, 0, 0, 0, 0, 0, 0, 0, 0, 0, 0x20, 0, 0],
            &[
                0, 0, 0, 0, 0, 0, 0x1F, 0xFF, 0, 0, 2, 0, 0, 3, 0xC0, 0, 0, 0, 0, 0, 0, 0, 0, 0, 0,
                0, 0, 0, 0, 0, 0, 0,
            ],
        ),
        // All mode pages
        (
            [0x1A, 0, 0x3F, 0, 0xFF, 0, 0, 0, 0, 0, 0, 0, 0, 0, 0, 0],
            &[
                0x43, 0, 0x10, 8, 0, 0, 0x20, 0, 0, 0, 2, 0, 1, 0x0A, 0x80, 0, 0, 0, 0, 0, 0, 0, 0,
                0, 8, 0x12, 4, 0, 0, 0, 0, 0, 0, 0, 0, 0, 0, 0, 0, 0, 0, 0, 0, 0, 0x0A, 0x0A, 0, 0,
                0, 0, 0, 0, 0, 0, 0, 0, 0x1C, 0x0A, 0, 0, 0, 0, 0, 0, 0, 0, 0, 0,
            ],
        ),
        // The caching page
        (
            [0x1A, 0, 8, 0, 0xFF, 0, 0, 0, 0, 0, 0, 0, 0, 0, 0, 0],
            &[
                0x1F, 0, 0x10, 8, 0, 0, 0x20, 0, 0, 0, 2, 0, 8, 0x12, 4, 0, 0, 0, 0, 0, 0, 0, 0, 0,
                0, 0, 0, 0, 0, 0, 0, 0,
            ],
        ),
        // The capacity, by READ CAPACITY(10)
        (
            [0x25, 0, 0, 0, 0, 0, 0, 0, 0, 0, 0, 0, 0, 0, 0, 0],
            &[0, 0, 0x1F, 0xFF, 0, 0, 2, 0],
        ),
        // No sense, in the descriptor form
        (
            [3, 1, 0, 0, 0xFC, 0, 0, 0, 0, 0, 0, 0, 0, 0, 0, 0],
            &[0x72, 0, 0, 0, 0, 0, 0, 0],
        ),
        // No sense, in the fixed form
        (
            [3, 0, 0, 0, 0xFC, 0, 0, 0, 0, 0, 0, 0, 0, 0, 0, 0],
            &[0x70, 0, 0, 0, 0, 0, 0, 0x0A, 0, 0, 0, 0, 0, 0, 0, 0, 0, 0],
        ),
    ];
    for (cdb, data_in) in cases {
        expect_data(&rt, alloc, cdb, data_in)?;
    }
    Ok(())
}

/// An operation code that the layer does not know, and RDPROTECT.
#[test]
fn refused_at_once(rt: HostRuntime) -> Result<(), Fail> {
    let alloc = rt.alloc();
    expect_check(
        &rt,
        alloc,
        [0xFF, 0, 0, 0, 0, 0, 0, 0, 0, 0, 0, 0, 0, 0, 0, 0],
        0x20,
        [0; 3],
    )?;
    expect_check(
        &rt,
        alloc,
        [0x28, 0x20, 0, 0, 0, 0, 0, 0, 1, 0, 0, 0, 0, 0, 0, 0],
        0x24,
        [0xC0, 0, 1],
    )
}

/// A read, and then an INQUIRY with its tag: the one answer is that they overlap.
#[test]
fn overlapped_tag(rt: HostRuntime) -> Result<(), Fail> {
    let alloc = rt.alloc();
    let mut frames = input(alloc)?;
    request(&mut frames, read(1, 0, 1), &[])?;
    command(
        &mut frames,
        1,
        [0x12, 0, 0, 0, 0x24, 0, 0, 0, 0, 0, 0, 0, 0, 0, 0, 0],
    )?;
    let mut replies = output(alloc)?;
    check(&mut replies, 1, 0xB, 0x4E, [0; 3])?;
    expect_replies(&rt, alloc, &frames, &replies)
}
