// A sector as blocks are put, flushed, lost and read; and records that are judged.

use satl_audit::{AuditFault, Content, Kept, Verdict, audit};
use satl_frame::Reason;
use satl_identify::read_identity;
use std::alloc::Global;
use std::test::Fail;

#[test]
fn a_sector_shows_what_it_may_have(rt: HostRuntime) -> Result<(), Fail> {
    let alloc = rt.alloc();
    let mut input = [0xAAu8; 1024];
    input[512..].fill(0xBB);
    let (a, b) = ([0xAAu8; 512], [0xBBu8; 512]);
    let mut kept = Kept::blank(alloc);
    assert!(rt; kept.show(&input, &[0; 512]));
    assert!(rt; kept.put(Content::Input(0), true).is_ok());
    kept.settle();
    assert!(rt; kept.put(Content::Input(512), true).is_ok());
    assert!(rt; !kept.show(&input, &a));
    assert!(rt; kept.power().is_ok());
    assert!(rt; !kept.show(&input, &[0; 512]));
    assert!(rt; kept.show(&input, &a));
    assert!(rt; !kept.show(&input, &b));
    Ok(())
}

const TURN: [u8; 7] = [3, 0, 0, 0, 2, 0, 1];

const POWER: [u8; 6] = [4, 0, 0, 0, 1, 5];

const UNPLUG: [u8; 6] = [4, 0, 0, 0, 1, 6];

const END: [u8; 5] = [5, 0, 0, 0, 0];

const ENDED: [u8; 5] = [0x85, 0, 0, 0, 0];

/// CHECK CONDITION to tag 4: UNIT ATTENTION, power on occurred.
const ATTENTION: [u8; 30] = [
    0x81, 0, 0, 0, 25, 0, 2, 0, 0, 0, 4, 18, 0x70, 0, 6, 0, 0, 0, 0, 10, 0, 0, 0, 0, 0x29, 1, 0, 0,
    0, 0,
];

/// A command of ten bytes for one block at address 3, and a TURN behind it.
fn add_command(input: &mut Vec<u8>, tag: u8, code: u8) -> Result<(), Fail> {
    input.extend_from_slice(&[1, 0, 0, 0, 30])?;
    input.extend_from_slice(&[0; 13])?;
    input.extend_from_slice(&[tag, code, 0, 0, 0, 0, 3, 0, 0, 1])?;
    input.extend_from_slice(&[0; 7])?;
    Ok(input.extend_from_slice(&TURN)?)
}

/// A WRITE of the block at address 3, and a TURN behind it.
fn add_write(input: &mut Vec<u8>, tag: u8, byte: u8) -> Result<(), Fail> {
    input.extend_from_slice(&[1, 0, 0, 2, 30])?;
    input.extend_from_slice(&[0; 13])?;
    input.extend_from_slice(&[tag, 0x2A, 0, 0, 0, 0, 3, 0, 0, 1])?;
    input.extend_from_slice(&[0; 7])?;
    input.extend_from_slice(&[byte; 512])?;
    Ok(input.extend_from_slice(&TURN)?)
}

/// GOOD without data.
fn add_good(output: &mut Vec<u8>, tag: u8) -> Result<(), Fail> {
    Ok(output.extend_from_slice(&[0x81, 0, 0, 0, 7, 0, 0, 0, 0, 0, tag, 0])?)
}

/// GOOD with a block of data.
fn add_block(output: &mut Vec<u8>, tag: u8, byte: u8) -> Result<(), Fail> {
    output.extend_from_slice(&[0x81, 0, 0, 2, 7, 0, 0, 0, 0, 0, tag, 0])?;
    Ok(output.extend_from_slice(&[byte; 512])?)
}

/// What is said of a record over a drive of 64 sectors with a cache.
fn said(alloc: Global, input: &[u8], output: &[u8]) -> Option<Result<Verdict, AuditFault>> {
    let mut bytes = [0; 512];
    bytes[0] = 0x40;
    bytes[99] = 0x03;
    bytes[150] = 0x1F;
    bytes[153] = 0x01;
    bytes[164] = 0x61;
    bytes[167] = 0x74;
    bytes[170] = 0x61;
    bytes[173] = 0x34;
    bytes[200] = 64;
    match read_identity(&bytes) {
        Ok(identity) => Some(audit(alloc, &identity, input, output)),
        Err(_) => None,
    }
}

/// A WRITE and a READ of a block.
fn write_and_read(alloc: Global) -> Result<Vec<u8>, Fail> {
    let mut input = b"SATLRPL1".to_vec(alloc)?;
    add_write(&mut input, 1, 0xAA)?;
    add_command(&mut input, 2, 0x28)?;
    input.extend_from_slice(&END)?;
    Ok(input)
}

#[test]
fn the_block_that_was_written_is_read(rt: HostRuntime) -> Result<(), Fail> {
    let alloc = rt.alloc();
    let input = write_and_read(alloc)?;
    for (byte, verdict) in [(0xAA, Verdict::Yes), (0xAB, Verdict::No)] {
        let mut output = b"SATLRSP1".to_vec(alloc)?;
        add_good(&mut output, 1)?;
        add_block(&mut output, 2, byte)?;
        output.extend_from_slice(&ENDED)?;
        assert_eq!(rt; said(alloc, &input, &output), Some(Ok(verdict)));
        output.extend_from_slice(&[0])?;
        assert_eq!(rt; said(alloc, &input, &output), Some(Ok(Verdict::No)));
    }
    Ok(())
}

#[test]
fn answers_come_in_their_order(rt: HostRuntime) -> Result<(), Fail> {
    let alloc = rt.alloc();
    let input = write_and_read(alloc)?;
    let mut output = b"SATLRSP1".to_vec(alloc)?;
    add_block(&mut output, 2, 0xAA)?;
    add_good(&mut output, 1)?;
    output.extend_from_slice(&ENDED)?;
    assert_eq!(rt; said(alloc, &input, &output), Some(Ok(Verdict::No)));
    assert_eq!(rt; said(alloc, &input, b"SATLRSP1"), Some(Ok(Verdict::No)));
    assert_eq!(rt; said(alloc, &input, b""), Some(Ok(Verdict::No)));
    Ok(())
}

#[test]
fn a_loss_of_power_leaves_what_was_flushed_or_written(rt: HostRuntime) -> Result<(), Fail> {
    let alloc = rt.alloc();
    let mut input = b"SATLRPL1".to_vec(alloc)?;
    add_write(&mut input, 1, 0xAA)?;
    add_command(&mut input, 2, 0x35)?;
    add_write(&mut input, 3, 0xBB)?;
    input.extend_from_slice(&POWER)?;
    add_command(&mut input, 4, 0x28)?;
    add_command(&mut input, 5, 0x28)?;
    input.extend_from_slice(&END)?;
    for (byte, verdict) in [
        (0xAA, Verdict::Yes),
        (0xBB, Verdict::Yes),
        (0x00, Verdict::No),
    ] {
        let mut output = b"SATLRSP1".to_vec(alloc)?;
        add_good(&mut output, 1)?;
        add_good(&mut output, 2)?;
        add_good(&mut output, 3)?;
        output.extend_from_slice(&ATTENTION)?;
        add_block(&mut output, 5, byte)?;
        output.extend_from_slice(&ENDED)?;
        assert_eq!(rt; said(alloc, &input, &output), Some(Ok(verdict)));
    }
    Ok(())
}

#[test]
fn inputs_that_are_not_judged(rt: HostRuntime) -> Result<(), Fail> {
    let alloc = rt.alloc();
    let mut input = b"SATLRPL1".to_vec(alloc)?;
    input.extend_from_slice(&TURN)?;
    input.extend_from_slice(&UNPLUG)?;
    let reason = Reason::Truncated;
    let bad = AuditFault::BadInput { reason, offset: 21 };
    assert_eq!(rt; said(alloc, &input, b""), Some(Err(bad)));
    input.extend_from_slice(&END)?;
    let verdict = Verdict::NotCovered { offset: 15 };
    assert_eq!(rt; said(alloc, &input, b""), Some(Ok(verdict)));
    Ok(())
}
