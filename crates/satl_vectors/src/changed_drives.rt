// Replays over drives of which one word of the IDENTIFY DEVICE data was changed: some are refused, others tell the word, and
// others answer as before.
ghost use Rattle.std.specs.Prelude.{◌≡◌, ◌≤◌, false, length};
ghost use Rattle.satl_base.specs.Lists.{is_in};
ghost use Rattle.satl_disk.specs.Bench.{fitting_words, unqueued_words};

use crate::frames::{
    END, ENDED, TURN, check, command, good, input, output, read, request, write, write_and_read,
};
use crate::replaying::{pieces, replay, replay_changed, replay_changed_unqueued};
use satl_io::{MemorySource, Source};
use satl_top::Status;
use std::alloc::{AllocError, Global};
use std::process::Abort;
use std::test::Fail;

// INQUIRY for the standard data.
const INQUIRY: [u8; 16] = [0x12, 0, 0, 0, 36, 0, 0, 0, 0, 0, 0, 0, 0, 0, 0, 0];

// READ CAPACITY(10).
const CAPACITY_10: [u8; 16] = [0x25, 0, 0, 0, 0, 0, 0, 0, 0, 0, 0, 0, 0, 0, 0, 0];

// READ CAPACITY(16).
const CAPACITY_16: [u8; 16] = [0x9E, 0x10, 0, 0, 0, 0, 0, 0, 0, 0, 0, 0, 0, 32, 0, 0];

// MODE SENSE(6) for all pages.
const MODE_SENSE: [u8; 16] = [0x1A, 0, 0x3F, 0, 0xFF, 0, 0, 0, 0, 0, 0, 0, 0, 0, 0, 0];

// MODE SENSE(6) for the Caching page: current values, and the bits that can change.
const CACHING: [u8; 16] = [0x1A, 0, 0x08, 0, 0xFF, 0, 0, 0, 0, 0, 0, 0, 0, 0, 0, 0];

const CACHING_CHANGEABLE: [u8; 16] = [0x1A, 0, 0x48, 0, 0xFF, 0, 0, 0, 0, 0, 0, 0, 0, 0, 0, 0];

// UNMAP with a list of 24 bytes, and WRITE SAME(10) of a block that unmaps it.
const UNMAP: [u8; 16] = [0x42, 0, 0, 0, 0, 0, 0, 0, 24, 0, 0, 0, 0, 0, 0, 0];

const UNMAPPING: [u8; 16] = [0x41, 0x08, 0, 0, 0, 0, 0, 0, 1, 0, 0, 0, 0, 0, 0, 0];

// POWER.
const POWER: [u8; 6] = [0x04, 0, 0, 0, 1, 5];

// Where the IDENTIFY DEVICE data stand in an output with one reply, of ATA Information (page 89h): behind the magic, the head
// of the frame and 60 bytes of the page.
const IDENTIFY_DATA: usize = 8 + 12 + 60;

// Device Identification (page 83h) without a world wide name.
const UNNAMED: &[u8; 76] =
    b"\x00\x83\x00\x48\x02\x01\x00\x44ATA     MODEL NCQ DISK                          SATL0000000000000001";

/// INQUIRY for a page of vital product data, at most 768 bytes of it.
fn vital(page: u8) -> [u8; 16] {
    [0x12, 1, page, 3, 0, 0, 0, 0, 0, 0, 0, 0, 0, 0, 0, 0]
}

/// The layer does not serve the drive: nothing is read of an input, and nothing is written.
fn expect_refused(rt: &impl Abort, alloc: Global, word: u8, value: u16) -> Result<(), Fail>
    requires { is_in word fitting_words ≡ false }
{
    let frames = write_and_read(alloc)?;
    let mut source = MemorySource::new(frames.to_vec(alloc)?, 65536, Vec::new(alloc));
    let (ended, written) = replay_changed(alloc, word, value, &mut source)?;
    let mut left = [0; 1024];
    let count = source.read(&mut left)?;
    assert_eq!(rt; ended, Status::DriveRefused, "word {word} is {value}");
    assert_eq!(rt; &left[..count], frames.as_slice(), "word {word} is {value}");
    assert!(rt; written.is_empty(), "word {word} is {value}");
    Ok(())
}

/// What a replay of an input writes on the drive with this word, if it ends well.
fn answers(
    rt: &impl Abort,
    alloc: Global,
    word: u8,
    value: u16,
    frames: &[u8],
) -> Result<Vec<u8>, Fail>
    requires { is_in word fitting_words ≡ false }
{
    let mut source = MemorySource::new(frames.to_vec(alloc)?, 65536, Vec::new(alloc));
    let (ended, written) = replay_changed(alloc, word, value, &mut source)?;
    assert_eq!(rt; ended, Status::Done, "word {word} is {value}");
    Ok(written)
}

/// One command alone, and the data-in that it is answered with on the drive with this word.
fn expect_told(
    rt: &impl Abort,
    alloc: Global,
    word: u8,
    value: u16,
    cdb: [u8; 16],
    data_in: &[u8],
) -> Result<(), Fail>
    requires other { is_in word fitting_words ≡ false }
    requires few { length data_in.now ≤ 2097152 }
{
    let mut frames = input(alloc)?;
    command(&mut frames, 1, cdb)?;
    frames.extend_from_slice(&END)?;
    let mut replies = output(alloc)?;
    good(&mut replies, 1, data_in)?;
    replies.extend_from_slice(&ENDED)?;
    let written = answers(rt, alloc, word, value, &frames)?;
    assert_eq!(rt;
        written.as_slice(),
        replies.as_slice(),
        "word {word} is {value}"
    );
    Ok(())
}

/// What a host asks a disk when it finds it, but for ATA Information, and then a WRITE and a READ.
fn questions(alloc: Global) -> Result<Vec<u8>, AllocError> {
    let mut frames = input(alloc)?;
    for page in [0x00, 0x80, 0x83, 0xB0, 0xB1, 0xB2] {
        command(&mut frames, 1, vital(page))?;
    }
    for cdb in [INQUIRY, CAPACITY_10, CAPACITY_16, MODE_SENSE] {
        command(&mut frames, 2, cdb)?;
    }
    request(&mut frames, write(3, 8, 1), &[0xA5; 512])?;
    request(&mut frames, read(4, 8, 1), &[])?;
    frames.extend_from_slice(&TURN)?;
    frames.extend_from_slice(&END)?;
    Ok(frames)
}

/// The drive with this word answers the questions of a host as a fresh drive does.
fn expect_as_before(rt: &impl Abort, alloc: Global, word: u8, value: u16) -> Result<(), Fail>
    requires { is_in word fitting_words ≡ false }
{
    let (_, wanted) = replay(alloc, questions(alloc)?, pieces(65536))?;
    let written = answers(rt, alloc, word, value, &questions(alloc)?)?;
    assert_eq!(rt;
        written.as_slice(),
        wanted.as_slice(),
        "word {word} is {value}"
    );
    Ok(())
}

#[test]
fn a_device_that_is_not_ata_is_refused(rt: HostRuntime) -> Result<(), Fail> {
    expect_refused(&rt, rt.alloc(), 0, 0x8040)
}

/// A high byte of word 255 by which the bytes sum to something else, on both sides of 35h.
#[test]
fn data_with_a_wrong_integrity_byte_are_refused(rt: HostRuntime) -> Result<(), Fail> {
    for value in [0x34A5, 0x36A5] {
        expect_refused(&rt, rt.alloc(), 255, value)?;
    }
    Ok(())
}

/// Without DMA or LBA; word 83 without 48-bit addresses or FLUSH CACHE EXT, or with a head that says that it tells nothing.
#[test]
fn a_drive_without_48_bit_addresses_is_refused(rt: HostRuntime) -> Result<(), Fail> {
    for value in [0x0100, 0x0200] {
        expect_refused(&rt, rt.alloc(), 49, value)?;
    }
    for value in [0x7000, 0x5400, 0x3400, 0xB400, 0xF400] {
        expect_refused(&rt, rt.alloc(), 83, value)?;
    }
    Ok(())
}

/// Word 75 with 31 tags; word 76 without NCQ, or of a parallel interface.
#[test]
fn a_drive_without_a_queue_of_32_commands_is_refused(rt: HostRuntime) -> Result<(), Fail> {
    expect_refused(&rt, rt.alloc(), 75, 30)?;
    for value in [0x0000, 0xFFFF] {
        expect_refused(&rt, rt.alloc(), 76, value)?;
    }
    Ok(())
}

#[test]
fn a_drive_of_longer_logical_sectors_is_refused(rt: HostRuntime) -> Result<(), Fail> {
    for value in [0x5000, 0x7003] {
        expect_refused(&rt, rt.alloc(), 106, value)?;
    }
    Ok(())
}

/// Words that the layer does not read, those of the 28-bit capacity and of features among them; the settings in word 85, which
/// stay the drive's; a word 255 without integrity byte.
#[test]
fn words_that_are_not_read_change_no_answer(rt: HostRuntime) -> Result<(), Fail> {
    let alloc = rt.alloc();
    expect_as_before(&rt, alloc, 1, 0xFFFF)?;
    expect_as_before(&rt, alloc, 60, 0)?;
    expect_as_before(&rt, alloc, 61, 0x0FFF)?;
    expect_as_before(&rt, alloc, 84, 0)?;
    expect_as_before(&rt, alloc, 85, 0)?;
    expect_as_before(&rt, alloc, 86, 0)?;
    expect_as_before(&rt, alloc, 255, 0)
}

/// ATA Information tells word 60, and the integrity byte that goes with it, in a copy of the data that is else a fresh drive's.
#[test]
fn ata_information_tells_the_word(rt: HostRuntime) -> Result<(), Fail> {
    let alloc = rt.alloc();
    let mut frames = input(alloc)?;
    command(&mut frames, 1, vital(0x89))?;
    frames.extend_from_slice(&END)?;
    let (_, mut wanted) = replay(alloc, frames.to_vec(alloc)?, pieces(65536))?;
    for (place, before, now) in [(120, 0x00, 0xFF), (121, 0x20, 0xFE), (511, 0x35, 0x58)] {
        assert_eq!(rt;
            wanted.get(IDENTIFY_DATA + place).copied(),
            Some(before),
            "at {place}"
        );
        if let Some(byte) = wanted.get_mut(IDENTIFY_DATA + place) {
            *byte = now;
        }
    }
    let written = answers(&rt, alloc, 60, 0xFEFF, &frames)?;
    assert_eq!(rt; written.as_slice(), wanted.as_slice());
    Ok(())
}

/// The third and fourth character of the revision, and the first two of the product.
#[test]
fn inquiry_tells_firmware_and_model(rt: HostRuntime) -> Result<(), Fail> {
    let alloc = rt.alloc();
    let revised = b"\x00\x00\x06\x02\x1F\x00\x00\x02ATA     MODEL NCQ DISK  02Z9";
    expect_told(&rt, alloc, 26, 0x5A39, INQUIRY, revised)?;
    let renamed = b"\x00\x00\x06\x02\x1F\x00\x00\x02ATA     YODEL NCQ DISK  0203";
    expect_told(&rt, alloc, 27, 0x594F, INQUIRY, renamed)
}

#[test]
fn page_80h_tells_the_serial_number(rt: HostRuntime) -> Result<(), Fail> {
    let serial = b"\x00\x80\x00\x14SATL0000000000000042";
    expect_told(&rt, rt.alloc(), 19, 0x3432, vital(0x80), serial)
}

/// No world wide name where word 87 has no bit 8, and another one.
#[test]
fn page_83h_tells_the_world_wide_name(rt: HostRuntime) -> Result<(), Fail> {
    let alloc = rt.alloc();
    expect_told(&rt, alloc, 87, 0x4020, vital(0x83), UNNAMED)?;
    let mut named = [0; 88];
    named[..76].copy_from_slice(UNNAMED);
    named[3] = 84;
    named[76..].copy_from_slice(b"\x01\x03\x00\x08\x5A\xBC\x00\x00\x00\x00\x00\x01");
    expect_told(&rt, alloc, 108, 0x5ABC, vital(0x83), &named)
}

/// A medium of 7,200 rotations a minute, and a form factor of 3.5 inches.
#[test]
fn page_b1h_tells_rotation_and_form_factor(rt: HostRuntime) -> Result<(), Fail> {
    let alloc = rt.alloc();
    let mut turning = [0; 64];
    turning[..8].copy_from_slice(&[0, 0xB1, 0, 0x3C, 0x1C, 0x20, 0, 3]);
    expect_told(&rt, alloc, 217, 0x1C20, vital(0xB1), &turning)?;
    let mut larger = [0; 64];
    larger[..8].copy_from_slice(&[0, 0xB1, 0, 0x3C, 0, 1, 0, 2]);
    expect_told(&rt, alloc, 168, 0x0002, vital(0xB1), &larger)
}

/// Two logical sectors in a physical one, and one where word 106 does not say that there are more, or tells nothing.
#[test]
fn capacity_tells_the_physical_sectors(rt: HostRuntime) -> Result<(), Fail> {
    for (value, exponent) in [(0x6001, 1), (0x4003, 0), (0x2003, 0), (0xF003, 0)] {
        let mut data_in = [0; 32];
        data_in[..16].copy_from_slice(&[
            0, 0, 0, 0, 0, 0, 0x1F, 0xFF, 0, 0, 2, 0, 0, exponent, 0xC0, 0,
        ]);
        expect_told(&rt, rt.alloc(), 106, value, CAPACITY_16, &data_in)?;
    }
    Ok(())
}

/// The Caching page behind the header, which tells 31 bytes behind its first and DPOFUA, and behind the block descriptor, of
/// 8,192 blocks of 512 bytes.
fn caching(wce: u8, dra: u8) -> [u8; 32] {
    let mut data_in = [0; 32];
    data_in[..14].copy_from_slice(&[0x1F, 0, 0x10, 8, 0, 0, 0x20, 0, 0, 0, 2, 0, 0x08, 0x12]);
    data_in[14] = wce;
    data_in[24] = dra;
    data_in
}

/// Without a write cache WCE is 0, and without look-ahead DRA is 1; a host can change neither where it is so.
#[test]
fn mode_sense_tells_what_a_drive_without_cache_or_look_ahead_has(
    rt: HostRuntime,
) -> Result<(), Fail> {
    let alloc = rt.alloc();
    for (value, wce, dra, look) in [
        (0x0001, 0, 0x20, 0),
        (0x0021, 0x04, 0x20, 0),
        (0x0041, 0, 0, 0x20),
    ] {
        expect_told(&rt, alloc, 82, value, CACHING, &caching(wce, dra))?;
        expect_told(
            &rt,
            alloc,
            82,
            value,
            CACHING_CHANGEABLE,
            &caching(wce, look),
        )?;
    }
    Ok(())
}

/// What a replay writes of a block that is written, a loss of power at which each dirty sector would lose it, a TEST UNIT READY
/// that tells of it, and a read of that block.
fn expect_kept(rt: &impl Abort, alloc: Global, value: u16, kept: u8) -> Result<(), Fail> {
    let mut frames = input(alloc)?;
    request(&mut frames, write(1, 8, 1), &[0xA5; 512])?;
    frames.extend_from_slice(&TURN)?;
    frames.extend_from_slice(&POWER)?;
    command(&mut frames, 2, [0; 16])?;
    request(&mut frames, read(3, 8, 1), &[])?;
    frames.extend_from_slice(&END)?;
    let mut replies = output(alloc)?;
    good(&mut replies, 1, &[])?;
    replies.extend_from_slice(&[0x81, 0, 0, 0, 25, 0, 2, 0, 0, 0, 2, 18])?;
    replies.extend_from_slice(&[0x70, 0, 6, 0, 0, 0, 0, 10, 0, 0, 0, 0, 0x29, 1, 0, 0, 0, 0])?;
    good(&mut replies, 3, &[kept; 512])?;
    replies.extend_from_slice(&ENDED)?;
    let written = answers(rt, alloc, 82, value, &frames)?;
    assert_eq!(rt;
        written.as_slice(),
        replies.as_slice(),
        "word 82 is {value}"
    );
    Ok(())
}

/// A block that was written through a cache is lost with the power, where no byte of ORDER waits, and one that was written
/// without a cache is not.
#[test]
fn a_drive_without_cache_loses_nothing(rt: HostRuntime) -> Result<(), Fail> {
    let alloc = rt.alloc();
    expect_kept(&rt, alloc, 0x0061, 0x00)?;
    expect_kept(&rt, alloc, 0x0041, 0xA5)?;
    expect_kept(&rt, alloc, 0x0001, 0xA5)
}

/// A drive that queues no trims, and by this word has none: Logical Block Provisioning, READ CAPACITY(16) and Block Limits tell
/// none, UNMAP is no operation code, and WRITE SAME may not unmap.
fn expect_trimless(rt: &impl Abort, alloc: Global, word: u8, value: u16) -> Result<(), Fail>
    requires { is_in word unqueued_words ≡ false }
{
    let mut frames = input(alloc)?;
    for cdb in [vital(0xB2), CAPACITY_16, vital(0xB0), UNMAP, UNMAPPING] {
        command(&mut frames, 1, cdb)?;
    }
    frames.extend_from_slice(&END)?;
    let mut replies = output(alloc)?;
    good(&mut replies, 1, &[0, 0xB2, 0, 4, 0, 0x00, 0, 0])?;
    let mut capacity = [0; 32];
    capacity[..14].copy_from_slice(&[0, 0, 0, 0, 0, 0, 0x1F, 0xFF, 0, 0, 2, 0, 0, 3]);
    good(&mut replies, 1, &capacity)?;
    let mut limits = [0; 64];
    limits[..12].copy_from_slice(&[0, 0xB0, 0, 0x3C, 1, 0, 0, 0, 0, 0, 0x10, 0]);
    limits[41] = 1;
    good(&mut replies, 1, &limits)?;
    check(&mut replies, 1, 0x5, 0x20, [0; 3])?;
    check(&mut replies, 1, 0x5, 0x24, [0xC0, 0, 1])?;
    replies.extend_from_slice(&ENDED)?;
    let mut source = MemorySource::new(frames, 65536, Vec::new(alloc));
    let (ended, written) = replay_changed_unqueued(alloc, word, value, &mut source)?;
    assert_eq!(rt; ended, Status::Done, "word {word} is {value}");
    assert_eq!(rt;
        written.as_slice(),
        replies.as_slice(),
        "word {word} is {value}"
    );
    Ok(())
}

/// Word 169 without TRIM; word 69 without reads of trimmed sectors that tell the same each time, or that give zeros.
#[test]
fn a_drive_without_trim_tells_none(rt: HostRuntime) -> Result<(), Fail> {
    let alloc = rt.alloc();
    expect_trimless(&rt, alloc, 169, 0x0000)?;
    expect_trimless(&rt, alloc, 69, 0x0020)?;
    expect_trimless(&rt, alloc, 69, 0x4000)
}
