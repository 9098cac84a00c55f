// Replays over memory streams.
ghost use Rattle.std.specs.Prelude.{◌≡◌, ◌≤◌, ◌<◌, IfOk, false, map, vec_len};
ghost use Rattle.std.specs.List.{AllByRecursion};
ghost use Rattle.satl_base.specs.Lists.{is_in};
ghost use Rattle.satl_disk.specs.Bench.{fitting_words, unqueued_words};
ghost use Rattle.satl_disk.specs.Disk.{state_of};
ghost use Rattle.satl_barrier.specs.Leaving.{IsFree};

use crate::frames::{END, ENDED};
use satl_base::{NoMemory, Steps};
use satl_disk::ModelDrive;
use satl_io::{MemorySink, MemorySource};
use satl_top::{Status, program};
use std::alloc::{AllocError, Global};
use std::marker::Brand;
use std::process::Abort;
use std::rc::RcStr;
use std::sync::ledger::{Blank, Ledger};
use std::test::Fail;

/// How many bytes a read gives and a write takes at most, and which call of the source and of the sink fails.
#[derive(Clone, Copy)]
pub struct Streams {
    pub piece: usize,
    pub failing_read: Option<u32>,
    pub failing_write: Option<u32>,
}

/// Streams that never fail.
pub fn pieces(piece: usize) -> Streams {
    Streams {
        piece,
        failing_read: None,
        failing_write: None,
    }
}

/// The calls that fail: the one of this number, if any.
fn calls(alloc: Global, call: Option<u32>) -> Result<Vec<u32>, AllocError> {
    let mut failing = Vec::new(alloc);
    if let Some(call) = call {
        failing.push(call)?;
    }
    Ok(failing)
}

/// How a replay of an input ends, and what it writes.
pub fn replay(
    alloc: Global,
    input: Vec<u8>,
    streams: Streams,
) -> Result<(Status, Vec<u8>), NoMemory> {
    run(alloc, &["replay"], input, streams)
}

/// The words behind the program's name.
fn words(alloc: Global, given: &[&str]) -> Result<Vec<RcStr>, NoMemory> {
    let mut words = Vec::new(alloc);
    words.push(RcStr::from_str(alloc, "satl")?)?;
    for word in given {
        words.push(RcStr::from_str(alloc, word)?)?;
    }
    Ok(words)
}

/// What the program does with these words; its calls of the drives are counted on a blank page of a ledger.
fn counted<L: Ledger>(
    alloc: Global,
    words: &[RcStr],
    source: &mut MemorySource,
    sink: &mut MemorySink,
    drives: &mut Vec<ModelDrive>,
    blank: Blank,
) -> Status
    requires few { vec_len drives.old ≤ 4 }
    requires one { 1 ≤ vec_len drives.old }
    requires free { AllByRecursion IsFree (map state_of drives.old.items) }
    requires name { blank.name ≡ L.name }
    requires parts { blank.parts ≡ L.parts }
    requires some { 0 < blank.parts }
{
    let mut steps = Steps::<L>::new(blank);
    program(alloc, words, source, sink, drives, &mut steps)
}

/// How the program ends with these words behind its name, over this source and these drives, and what it writes to a sink of
/// these streams.
fn run_over(
    alloc: Global,
    given: &[&str],
    source: &mut MemorySource,
    streams: Streams,
    drives: &mut Vec<ModelDrive>,
) -> Result<(Status, Vec<u8>), NoMemory>
    requires some { 1 ≤ vec_len drives.old }
    requires few { vec_len drives.old ≤ 4 }
    requires free { AllByRecursion IsFree (map state_of drives.old.items) }
{
    let words = words(alloc, given)?;
    let failing = calls(alloc, streams.failing_write)?;
    let mut sink = MemorySink::new(alloc, 131072, streams.piece.max(1), failing)?;
    let status = counted::<Brand>(alloc, &words, source, &mut sink, drives, Blank::new(1));
    Ok((status, sink.written().to_vec(alloc)?))
}

/// How the program ends with these words behind its name, over these drives, and what it writes.
pub fn run_on(
    alloc: Global,
    given: &[&str],
    input: Vec<u8>,
    streams: Streams,
    drives: &mut Vec<ModelDrive>,
) -> Result<(Status, Vec<u8>), NoMemory>
    requires some { 1 ≤ vec_len drives.old }
    requires few { vec_len drives.old ≤ 4 }
    requires free { AllByRecursion IsFree (map state_of drives.old.items) }
{
    let failing = calls(alloc, streams.failing_read)?;
    let mut source = MemorySource::new(input, streams.piece.max(1), failing);
    run_over(alloc, given, &mut source, streams, drives)
}

/// This drive alone.
fn alone(alloc: Global, drive: ModelDrive) -> Result<Vec<ModelDrive>, NoMemory>
    requires { IsFree (state_of drive) }
    ensures count { IfOk result (λ drives. vec_len drives ≡ 1) }
    ensures free { IfOk result (λ drives. AllByRecursion IsFree (map state_of drives.items)) }
{
    let mut drives = Vec::new(alloc);
    drives.push(drive)?;
    Ok(drives)
}

/// A new drive of so many sectors.
pub fn fresh_drive(alloc: Global, sectors: u32) -> Result<ModelDrive, NoMemory>
    requires some { 1 ≤ sectors }
    requires few { sectors ≤ 65536 }
    ensures free { IfOk result (λ drive. IsFree (state_of drive)) }
{
    let drive = ModelDrive::new(alloc, sectors)?;
    Ok(drive)
}

/// A drive of 8,192 sectors with this value in this word of its IDENTIFY DEVICE data.
pub fn changed_drive(alloc: Global, word: u8, value: u16) -> Result<ModelDrive, NoMemory>
    requires { is_in word fitting_words ≡ false }
    ensures free { IfOk result (λ drive. IsFree (state_of drive)) }
{
    let mut drive = ModelDrive::new(alloc, 8192)?;
    drive.set_identify_word(word, value);
    Ok(drive)
}

/// A drive of 8,192 sectors whose trims are not queued, with this value in this word besides.
fn changed_unqueued_drive(alloc: Global, word: u8, value: u16) -> Result<ModelDrive, NoMemory>
    requires { is_in word unqueued_words ≡ false }
    ensures free { IfOk result (λ drive. IsFree (state_of drive)) }
{
    let mut drive = ModelDrive::new(alloc, 8192)?;
    drive.set_identify_word(77, 0);
    drive.set_identify_word(word, value);
    Ok(drive)
}

/// A drive of 64 sectors whose link is lost at the call behind so many.
fn drive_until_lost(alloc: Global, after: u32) -> Result<ModelDrive, NoMemory>
    ensures free { IfOk result (λ drive. IsFree (state_of drive)) }
{
    let mut drive = fresh_drive(alloc, 64)?;
    drive.lose_link_after(after);
    Ok(drive)
}

/// How the program ends with these words behind its name, over a drive of 8,192 sectors, and what it writes.
pub fn run(
    alloc: Global,
    given: &[&str],
    input: Vec<u8>,
    streams: Streams,
) -> Result<(Status, Vec<u8>), NoMemory> {
    let mut drives = alone(alloc, fresh_drive(alloc, 8192)?)?;
    run_on(alloc, given, input, streams, &mut drives)
}

/// How a replay of a source ends, and what it writes, on this drive.
fn replay_on(
    alloc: Global,
    drive: ModelDrive,
    source: &mut MemorySource,
) -> Result<(Status, Vec<u8>), NoMemory>
    requires { IsFree (state_of drive) }
{
    let mut drives = alone(alloc, drive)?;
    run_over(alloc, &["replay"], source, pieces(65536), &mut drives)
}

/// The same on a drive with this value in this word of its IDENTIFY DEVICE data.
pub fn replay_changed(
    alloc: Global,
    word: u8,
    value: u16,
    source: &mut MemorySource,
) -> Result<(Status, Vec<u8>), NoMemory>
    requires { is_in word fitting_words ≡ false }
{
    replay_on(alloc, changed_drive(alloc, word, value)?, source)
}

/// The same on a drive whose trims are not queued, with this value in this word besides.
pub fn replay_changed_unqueued(
    alloc: Global,
    word: u8,
    value: u16,
    source: &mut MemorySource,
) -> Result<(Status, Vec<u8>), NoMemory>
    requires { is_in word unqueued_words ≡ false }
{
    replay_on(alloc, changed_unqueued_drive(alloc, word, value)?, source)
}

/// What a replay of an input writes on a drive whose trims are not queued.
pub fn replay_unqueued(alloc: Global, input: Vec<u8>) -> Result<(Status, Vec<u8>), NoMemory> {
    let mut source = MemorySource::new(input, 65536, Vec::new(alloc));
    replay_changed(alloc, 77, 0, &mut source)
}

/// How the program ends with these words behind its name, over a drive of 64 sectors, and what it writes, where the drive's
/// link is lost at the call behind so many.
pub fn run_until_lost(
    alloc: Global,
    given: &[&str],
    input: Vec<u8>,
    after: u32,
) -> Result<(Status, Vec<u8>), NoMemory> {
    let mut drives = alone(alloc, drive_until_lost(alloc, after)?)?;
    run_on(alloc, given, input, pieces(65536), &mut drives)
}

/// A replay of an input ends and writes so, however its bytes are cut.
pub fn expect(
    rt: &impl Abort,
    alloc: Global,
    input: &[u8],
    status: Status,
    output: &[u8],
) -> Result<(), Fail> {
    for piece in [1, 3, 65536] {
        let (ended, written) = replay(alloc, input.to_vec(alloc)?, pieces(piece))?;
        assert_eq!(rt; ended, status, "in pieces of {piece}");
        assert_eq!(rt; written.as_slice(), output, "in pieces of {piece}");
    }
    Ok(())
}

/// These frames and END are carried out, and these replies and END are written.
pub fn expect_replies(
    rt: &impl Abort,
    alloc: Global,
    frames: &[u8],
    replies: &[u8],
) -> Result<(), Fail> {
    let mut input = frames.to_vec(alloc)?;
    input.extend_from_slice(&END)?;
    let mut output = replies.to_vec(alloc)?;
    output.extend_from_slice(&ENDED)?;
    expect(rt, alloc, &input, Status::Done, &output)
}
