// Replays with 32 commands outstanding: their ends in every order that a byte of ORDER chooses, and a reset; and links lost at
// each call, power at each place.
use crate::frames::{END, ENDED, FLUSH, TURN, command, good, input, output, read, request, write};
use crate::queue::write_errors;
use crate::replaying::{expect_replies, pieces, replay, run_until_lost};
use satl_top::Status;
use std::alloc::{AllocError, Global};
use std::process::Abort;
use std::test::Fail;

/// The end of the command at a place among those outstanding, and what is issued then: behind a write of a block the read of
/// it.
fn end_one(
    alloc: Global,
    order: u8,
    outstanding: &mut Vec<u8>,
    replies: &mut Vec<u8>,
) -> Result<(), AllocError> {
    let place = usize::from(order) % outstanding.len().max(1);
    if place >= outstanding.len() {
        return Ok(());
    }
    let tag = outstanding.remove(place);
    if tag < 32 {
        good(replies, tag, &[])?;
        outstanding.push(tag + 32)?;
    } else {
        let data = vec![in alloc; tag.wrapping_sub(31); 512]?;
        good(replies, tag, &data)?;
    }
    Ok(())
}

/// 32 writes of a block each, under the tags from 0, and then 32 reads of the same blocks, where each byte of ORDER, one for
/// each end, chooses this place modulo how many are outstanding.
fn expect_order(rt: &impl Abort, alloc: Global, order: u8) -> Result<(), Fail> {
    let mut frames = input(alloc)?;
    frames.extend_from_slice(&[0x04, 0, 0, 0, 65, 4])?;
    frames.extend_from_slice(&[order; 64])?;
    let mut outstanding = Vec::new(alloc);
    for tag in 0..32u8 {
        let data = vec![in alloc; tag + 1; 512]?;
        request(&mut frames, write(tag, u16::from(tag), 1), &data)?;
        outstanding.push(tag)?;
    }
    for tag in 0..32u8 {
        request(&mut frames, read(tag + 32, u16::from(tag), 1), &[])?;
    }
    frames.extend_from_slice(&END)?;
    let mut replies = output(alloc)?;
    for _ in 0..64 {
        end_one(alloc, order, &mut outstanding, &mut replies)?;
    }
    replies.extend_from_slice(&ENDED)?;
    let (ended, written) = replay(alloc, frames, pieces(65536))?;
    assert_eq!(rt; ended, Status::Done, "in order {order}");
    assert_eq!(rt; written.as_slice(), replies.as_slice(), "in order {order}");
    Ok(())
}

#[test]
fn all_tags_end_in_every_order(rt: HostRuntime) -> Result<(), Fail> {
    let alloc = rt.alloc();
    for order in 0..=255u8 {
        expect_order(&rt, alloc, order)?;
    }
    Ok(())
}

/// ABORT TASK SET takes off 32 reads that are outstanding, and 32 others end well behind it.
#[test]
fn a_reset_with_all_tags(rt: HostRuntime) -> Result<(), Fail> {
    let alloc = rt.alloc();
    let mut frames = input(alloc)?;
    let mut replies = output(alloc)?;
    for tag in 0..32u8 {
        request(&mut frames, read(tag, u16::from(tag), 1), &[])?;
    }
    frames.extend_from_slice(&[0x02, 0, 0, 0, 14, 0, 0x02])?;
    frames.extend_from_slice(&[0; 12])?;
    replies.extend_from_slice(&[0x82, 0, 0, 0, 7, 0, 0x02, 0, 0, 0, 0, 0])?;
    for tag in 0..32u8 {
        request(&mut frames, read(tag, u16::from(tag), 1), &[])?;
        good(&mut replies, tag, &[0; 512])?;
    }
    expect_replies(&rt, alloc, &frames, &replies)
}

/// Where the link is lost at the first call of the drive the layer is not opened; at each of the next 19, each of four requests
/// is still answered once.
#[test]
fn the_link_is_lost_at_each_call(rt: HostRuntime) -> Result<(), Fail> {
    let alloc = rt.alloc();
    for earlier in 0..20u32 {
        let (ended, lines) = run_until_lost(alloc, &["show"], write_errors(alloc)?, earlier)?;
        let count = lines.iter().filter(|byte| **byte == b'\n').count();
        let (status, wanted) = if earlier == 0 {
            (Status::DriveRefused, 0)
        } else {
            (Status::Done, 5)
        };
        assert_eq!(rt; ended, status, "after {earlier} calls");
        assert_eq!(rt; count, wanted, "after {earlier} calls");
    }
    Ok(())
}

/// A write past the cache (FUA) of a block.
fn forced_write(
    frames: &mut Vec<u8>,
    tag: u8,
    lba: u8,
    data: &[u8; 512],
) -> Result<(), AllocError> {
    frames.extend_from_slice(&[0x01, 0, 0, 2, 30])?;
    frames.extend_from_slice(&[0; 13])?;
    frames.extend_from_slice(&[tag, 0x2A, 8, 0, 0, 0, lba, 0, 0, 1])?;
    frames.extend_from_slice(&[0; 7])?;
    frames.extend_from_slice(data)
}

/// A write and a flush, a write past the cache and another write, each with its turn, where the power is lost before one of
/// these eight frames or behind them; then the unit attention is taken, and two blocks are read.
fn powered_input(alloc: Global, place: usize) -> Result<Vec<u8>, AllocError> {
    let mut frames = input(alloc)?;
    for step in 0..9usize {
        if step == place {
            frames.extend_from_slice(&[0x04, 0, 0, 0, 1, 5])?;
        }
        match step {
            0 => request(&mut frames, write(1, 0, 1), &[0xA1; 512])?,
            2 => command(&mut frames, 2, FLUSH)?,
            4 => forced_write(&mut frames, 3, 1, &[0xB2; 512])?,
            6 => request(&mut frames, write(4, 2, 1), &[0xC3; 512])?,
            8 => command(&mut frames, 8, [0; 16])?,
            _ => frames.extend_from_slice(&TURN)?,
        }
    }
    request(&mut frames, read(9, 1, 1), &[])?;
    request(&mut frames, read(10, 0, 1), &[])?;
    frames.extend_from_slice(&END)?;
    Ok(frames)
}

/// What was flushed, or written past the cache, is read behind a loss of power at each later place.
#[test]
fn secured_blocks_endure_the_loss_of_power(rt: HostRuntime) -> Result<(), Fail> {
    let alloc = rt.alloc();
    let mut flushed = vec![in alloc; 0; 0]?;
    good(&mut flushed, 10, &[0xA1; 512])?;
    flushed.extend_from_slice(&ENDED)?;
    let mut both = vec![in alloc; 0; 0]?;
    good(&mut both, 9, &[0xB2; 512])?;
    both.extend_from_slice(&flushed)?;
    for place in 4..9usize {
        let (ended, written) = replay(alloc, powered_input(alloc, place)?, pieces(65536))?;
        let end = if place < 6 { &flushed } else { &both };
        assert_eq!(rt; ended, Status::Done, "before frame {place}");
        assert!(rt; written.ends_with(end), "before frame {place}");
    }
    Ok(())
}
