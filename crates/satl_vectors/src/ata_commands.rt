// By which ATA commands tasks are carried out: what the drive is handed behind IDENTIFY DEVICE, for which opening asks. Each list
// was written out by hand, from section 3 of docs/PROFILE.md and from ACS-3 section 7.
ghost use Rattle.std.specs.Prelude.{◌≤◌, length};
ghost use Rattle.satl_disk.specs.Disk.{state_of};
ghost use Rattle.satl_barrier.specs.Leaving.{IsFree};

use crate::frames::{END, FLUSH, TURN, command, command_with, input, read, request, unmap};
use crate::replaying::{changed_drive, fresh_drive};
use crate::watched::{Handed, WatchedDrive, served};
use satl_base::NoMemory;
use satl_disk::ModelDrive;
use satl_drive::Registers;
use satl_io::{MemorySink, MemorySource};
use satl_serve::Form;
use std::alloc::{AllocError, Global};
use std::process::Abort;
use std::test::Fail;

/// COMMAND (ACS-3 section 7).
const IDENTIFY_DEVICE: u8 = 0xEC;

const READ_VERIFY_EXT: u8 = 0x42;

const READ_DMA_EXT: u8 = 0x25;

const WRITE_DMA_EXT: u8 = 0x35;

const FLUSH_CACHE_EXT: u8 = 0xEA;

const SET_FEATURES: u8 = 0xEF;

const STANDBY_IMMEDIATE: u8 = 0xE0;

const IDLE_IMMEDIATE: u8 = 0xE1;

const DATA_SET_MANAGEMENT: u8 = 0x06;

const READ_LOG_EXT: u8 = 0x2F;

const READ_QUEUED: u8 = 0x60;

const WRITE_QUEUED: u8 = 0x61;

const SEND_QUEUED: u8 = 0x64;

/// The registers of a command without parameters. DEVICE(6): addresses are those of blocks.
fn bare(command: u8) -> Registers {
    Registers {
        features: 0,
        count: 0,
        lba: 0,
        device: 0x40,
        command,
    }
}

fn plain(command: u8) -> Handed {
    Handed::Command(bare(command))
}

/// A command over blocks from an address on.
fn over(command: u8, lba: u64, count: u16) -> Handed {
    Handed::Command(Registers {
        lba,
        count,
        ..bare(command)
    })
}

/// A command with a subcommand, which stands in FEATURES, and with so many blocks of data.
fn with_subcommand(command: u8, features: u16, count: u16) -> Handed {
    Handed::Command(Registers {
        features,
        count,
        ..bare(command)
    })
}

/// A queued command under tag 0: its sectors stand in FEATURES, FUA in DEVICE(7).
fn queued(command: u8, lba: u64, sectors: u16, fua: bool) -> Handed {
    Handed::Command(Registers {
        features: sectors,
        lba,
        device: if fua { 0xC0 } else { 0x40 },
        ..bare(command)
    })
}

fn is_queued(code: u8) -> bool {
    code == READ_QUEUED || code == WRITE_QUEUED || code == SEND_QUEUED
}

/// With tag 0, which stands in COUNT(7:3), where the command is queued: which one it has is the layer's choice.
fn untagged(handed: &Handed) -> Handed {
    match *handed {
        Handed::Command(registers) if is_queued(registers.command) => {
            Handed::Command(Registers {
                count: registers.count & 0xFF07,
                ..registers
            })
        }
        other => other,
    }
}

/// Whether serving these frames, behind the magic, ends well on this drive.
fn is_served(alloc: Global, frames: &[u8], drive: &mut WatchedDrive) -> Result<bool, NoMemory>
    requires { IsFree (state_of drive.old) }
{
    let mut script = input(alloc)?;
    script.extend_from_slice(frames)?;
    script.extend_from_slice(&END)?;
    let mut source = MemorySource::new(script, 65536, Vec::new(alloc));
    let mut sink = MemorySink::new(alloc, 131072, 65536, Vec::new(alloc))?;
    let end = served(alloc, Form::Frames, &mut source, &mut sink, drive);
    Ok(end.is_ok())
}

/// What a drive was handed, each with tag 0.
fn all_untagged(alloc: Global, handed: &[Handed]) -> Result<Vec<Handed>, AllocError> {
    let mut all = Vec::new(alloc);
    for one in handed {
        all.push(untagged(one))?;
    }
    Ok(all)
}

/// IDENTIFY DEVICE, and then this.
fn behind_identify(alloc: Global, wanted: &[Handed]) -> Result<Vec<Handed>, AllocError> {
    let mut all = Vec::new(alloc);
    all.push(plain(IDENTIFY_DEVICE))?;
    all.extend_from_slice(wanted)?;
    Ok(all)
}

/// As the layer serves these frames, behind the magic, it hands the drive IDENTIFY DEVICE and then this.
fn expect_on(
    rt: &impl Abort,
    alloc: Global,
    drive: ModelDrive,
    frames: &[u8],
    wanted: &[Handed],
) -> Result<(), Fail>
    requires { IsFree (state_of drive) }
{
    let mut drive = WatchedDrive::new(drive);
    assert!(rt; is_served(alloc, frames, &mut drive)?);
    let handed = all_untagged(alloc, drive.handed())?;
    let expected = behind_identify(alloc, wanted)?;
    assert_eq!(rt; handed.as_slice(), expected.as_slice());
    Ok(())
}

/// The same on a drive of 8,192 sectors.
fn expect(rt: &impl Abort, alloc: Global, frames: &[u8], wanted: &[Handed]) -> Result<(), Fail> {
    expect_on(rt, alloc, fresh_drive(alloc, 8192)?, frames, wanted)
}

/// The same, where one command is all that is served.
fn expect_for(
    rt: &impl Abort,
    alloc: Global,
    cdb: [u8; 16],
    data_out: &[u8],
    wanted: &[Handed],
) -> Result<(), Fail>
    requires { length data_out.now ≤ 2097152 }
{
    let mut frames = Vec::new(alloc);
    command_with(&mut frames, 1, cdb, data_out)?;
    expect(rt, alloc, &frames, wanted)
}

/// STRIKE, a flaw at which reads (1) or writes (2) of a sector fail, as the first frame.
fn strike(alloc: Global, which: u8, lba: u8) -> Result<Vec<u8>, AllocError> {
    [0x04, 0, 0, 0, 10, 1, which, 0, 0, 0, 0, 0, 0, 0, lba].to_vec(alloc)
}

/// TEST UNIT READY, REQUEST SENSE, INQUIRY, MODE SENSE for all pages (byte 2), READ CAPACITY, REPORT LUNS, and a code that is not
/// served.
#[test]
fn what_is_answered_at_once_hands_in_nothing(rt: HostRuntime) -> Result<(), Fail> {
    let alloc = rt.alloc();
    let codes = [
        (0x00, 0),
        (0x03, 0),
        (0x12, 0),
        (0x1A, 0x3F),
        (0x25, 0),
        (0xA0, 0),
        (0xFF, 0),
    ];
    for (code, page) in codes {
        let cdb = [code, 0, page, 0, 36, 0, 0, 0, 0, 0, 0, 0, 0, 0, 0, 0];
        expect_for(&rt, alloc, cdb, &[], &[])?;
    }
    Ok(())
}

/// START STOP UNIT, with this byte for NO_FLUSH (bit 2) and START (bit 0).
fn start_stop(byte: u8) -> [u8; 16] {
    [0x1B, 0, 0, 0, byte, 0, 0, 0, 0, 0, 0, 0, 0, 0, 0, 0]
}

/// A start verifies LBA 0, which wakes the drive, and goes on where that has a read flaw, which a STRIKE sets.
#[test]
fn a_start_verifies_the_first_block(rt: HostRuntime) -> Result<(), Fail> {
    let alloc = rt.alloc();
    let wanted = [over(READ_VERIFY_EXT, 0, 1), plain(IDLE_IMMEDIATE)];
    expect_for(&rt, alloc, start_stop(0x01), &[], &wanted)?;
    expect_for(&rt, alloc, start_stop(0x05), &[], &wanted)?;
    let mut frames = strike(alloc, 1, 0)?;
    command(&mut frames, 1, start_stop(0x01))?;
    expect(&rt, alloc, &frames, &wanted)
}

#[test]
fn a_stop_flushes_unless_told_not_to(rt: HostRuntime) -> Result<(), Fail> {
    let alloc = rt.alloc();
    let wanted = [plain(FLUSH_CACHE_EXT), plain(STANDBY_IMMEDIATE)];
    expect_for(&rt, alloc, start_stop(0x00), &[], &wanted)?;
    expect_for(&rt, alloc, start_stop(0x04), &[], &wanted[1..])
}

/// A stopped unit hands in nothing for a READ and for a SYNCHRONIZE CACHE, which end with NOT READY.
#[test]
fn a_stopped_unit_hands_in_nothing(rt: HostRuntime) -> Result<(), Fail> {
    let alloc = rt.alloc();
    let mut frames = Vec::new(alloc);
    command(&mut frames, 1, start_stop(0x04))?;
    frames.extend_from_slice(&TURN)?;
    request(&mut frames, read(2, 8, 1), &[])?;
    command(&mut frames, 3, FLUSH)?;
    expect(&rt, alloc, &frames, &[plain(STANDBY_IMMEDIATE)])
}

#[test]
fn synchronize_cache_is_one_flush(rt: HostRuntime) -> Result<(), Fail> {
    let alloc = rt.alloc();
    expect_for(&rt, alloc, FLUSH, &[], &[plain(FLUSH_CACHE_EXT)])
}

/// Appends a MODE SELECT(6) of the Caching page, with WCE and DRA, and a turn.
fn select(frames: &mut Vec<u8>, tag: u8, wce: bool, dra: bool) -> Result<(), AllocError> {
    let mut list = [0; 24];
    list[4] = 0x08;
    list[5] = 18;
    list[6] = if wce { 0x04 } else { 0 };
    list[16] = if dra { 0x20 } else { 0 };
    let cdb = [0x15, 0x10, 0, 0, 24, 0, 0, 0, 0, 0, 0, 0, 0, 0, 0, 0];
    command_with(frames, tag, cdb, &list)?;
    frames.extend_from_slice(&TURN)
}

/// SET FEATURES comes only where a value changes; at first WCE is 1 and DRA is 0.
#[test]
fn a_setting_is_made_only_where_it_changes(rt: HostRuntime) -> Result<(), Fail> {
    let alloc = rt.alloc();
    let mut frames = Vec::new(alloc);
    select(&mut frames, 1, true, false)?;
    select(&mut frames, 2, false, false)?;
    select(&mut frames, 3, false, true)?;
    select(&mut frames, 4, false, true)?;
    select(&mut frames, 5, true, false)?;
    let wanted = [
        with_subcommand(SET_FEATURES, 0x82, 0),
        with_subcommand(SET_FEATURES, 0x55, 0),
        with_subcommand(SET_FEATURES, 0x02, 0),
        with_subcommand(SET_FEATURES, 0xAA, 0),
    ];
    expect(&rt, alloc, &frames, &wanted)
}

/// VERIFY(10) of 100 blocks from address 8 on, with this byte for BYTCHK (bits 2:1).
fn verify(byte: u8) -> [u8; 16] {
    [0x2F, byte, 0, 0, 0, 8, 0, 0, 100, 0, 0, 0, 0, 0, 0, 0]
}

#[test]
fn a_verify_reads_again_only_to_compare(rt: HostRuntime) -> Result<(), Fail> {
    let alloc = rt.alloc();
    let wanted = [
        over(READ_VERIFY_EXT, 8, 100),
        over(READ_DMA_EXT, 8, 64),
        over(READ_DMA_EXT, 72, 36),
    ];
    let mut data = vec![in alloc; 0; 51200]?;
    expect_for(&rt, alloc, verify(0), &[], &wanted[..1])?;
    expect_for(&rt, alloc, verify(0x02), &data, &wanted)?;
    // Where the first piece differs, the next is not read.
    data[3 * 512] = 1;
    expect_for(&rt, alloc, verify(0x02), &data, &wanted[..2])
}

/// WRITE SAME(10) of 100 blocks from address 8 on, with this byte for UNMAP (bit 3).
fn write_same(byte: u8) -> [u8; 16] {
    [0x41, byte, 0, 0, 0, 8, 0, 0, 100, 0, 0, 0, 0, 0, 0, 0]
}

#[test]
fn write_same_goes_in_pieces(rt: HostRuntime) -> Result<(), Fail> {
    let alloc = rt.alloc();
    let wanted = [over(WRITE_DMA_EXT, 8, 64), over(WRITE_DMA_EXT, 72, 36)];
    expect_for(&rt, alloc, write_same(0), &[7; 512], &wanted)?;
    // Behind a piece with a write flaw no other is written.
    let mut frames = strike(alloc, 2, 10)?;
    command_with(&mut frames, 1, write_same(0), &[7; 512])?;
    expect(&rt, alloc, &frames, &wanted[..1])
}

#[test]
fn blocks_are_trimmed_by_one_command(rt: HostRuntime) -> Result<(), Fail> {
    let alloc = rt.alloc();
    let unqueued = [with_subcommand(DATA_SET_MANAGEMENT, 1, 1)];
    expect_for(&rt, alloc, write_same(0x08), &[0; 512], &unqueued)?;
    let mut frames = Vec::new(alloc);
    unmap(&mut frames, 1, 8, 100)?;
    expect(&rt, alloc, &frames, &[queued(SEND_QUEUED, 0, 1, false)])?;
    // Word 77 says whether a drive queues trims.
    expect_on(&rt, alloc, changed_drive(alloc, 77, 0)?, &frames, &unqueued)
}

/// A READ(10) and a WRITE(10) of two blocks, each without FUA and with it (byte 1, bit 3).
#[test]
fn reads_and_writes_are_queued_with_their_fua(rt: HostRuntime) -> Result<(), Fail> {
    let alloc = rt.alloc();
    for (code, queued_code) in [(0x28, READ_QUEUED), (0x2A, WRITE_QUEUED)] {
        for fua in [false, true] {
            let byte = if fua { 0x08 } else { 0 };
            let cdb = [code, byte, 0, 0, 0, 8, 0, 0, 2, 0, 0, 0, 0, 0, 0, 0];
            expect_for(
                &rt,
                alloc,
                cdb,
                &[7; 1024],
                &[queued(queued_code, 8, 2, fua)],
            )?;
        }
    }
    Ok(())
}

/// ATA PASS-THROUGH(16) of CHECK POWER MODE, whose other registers the drive does not look at.
#[test]
fn a_command_passes_through_as_it_is(rt: HostRuntime) -> Result<(), Fail> {
    let alloc = rt.alloc();
    let cdb = [
        0x85, 0x06, 0, 0, 0x12, 0, 0x34, 0, 0x56, 0, 0x78, 0, 0x9A, 0x0B, 0xE5, 0,
    ];
    let registers = Registers {
        features: 0x12,
        count: 0x34,
        lba: 0x9A_7856,
        device: 0x0B,
        command: 0xE5,
    };
    expect_for(&rt, alloc, cdb, &[], &[Handed::Command(registers)])
}

/// After a READ that fails at a flaw the log of queued errors, 10h, is read, and the other READ is issued again.
#[test]
fn an_error_is_read_from_the_log(rt: HostRuntime) -> Result<(), Fail> {
    let alloc = rt.alloc();
    let mut frames = strike(alloc, 1, 9)?;
    request(&mut frames, read(1, 8, 4), &[])?;
    request(&mut frames, read(2, 100, 1), &[])?;
    let wanted = [
        queued(READ_QUEUED, 8, 4, false),
        queued(READ_QUEUED, 100, 1, false),
        over(READ_LOG_EXT, 0x10, 1),
        queued(READ_QUEUED, 100, 1, false),
    ];
    expect(&rt, alloc, &frames, &wanted)
}

/// ABORT TASK of one of two outstanding READs resets the drive, and the other is issued again; of a task that waits for another
/// it does not.
#[test]
fn a_reset_comes_only_for_what_is_outstanding(rt: HostRuntime) -> Result<(), Fail> {
    let alloc = rt.alloc();
    let mut frames = Vec::new(alloc);
    request(&mut frames, read(1, 8, 4), &[])?;
    request(&mut frames, read(2, 100, 1), &[])?;
    command(&mut frames, 3, FLUSH)?;
    for tag in [3, 1] {
        frames.extend_from_slice(&[0x02, 0, 0, 0, 14, 0, 0x01])?;
        frames.extend_from_slice(&[0, 0, 0, 0, 0, 0, 0, 0, 0, 0, 0, tag])?;
    }
    let wanted = [
        queued(READ_QUEUED, 8, 4, false),
        queued(READ_QUEUED, 100, 1, false),
        Handed::Reset,
        queued(READ_QUEUED, 100, 1, false),
    ];
    expect(&rt, alloc, &frames, &wanted)
}
