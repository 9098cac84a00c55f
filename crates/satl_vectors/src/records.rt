// Records that are audited.
use crate::frames::{
    END, ENDED, TURN, command, good, input, output, read, request, write, write_and_read,
    written_and_read,
};
use crate::replaying::{pieces, run};
use satl_top::Status;
use std::alloc::{AllocError, Global};
use std::process::Abort;
use std::test::Fail;

/// The record of an input and of an output, with this for the length of the input.
fn spelled(alloc: Global, length: u64, input: &[u8], output: &[u8]) -> Result<Vec<u8>, AllocError> {
    let mut record = b"SATLAUD1".to_vec(alloc)?;
    record.extend_from_slice(&length.to_be_bytes())?;
    record.extend_from_slice(input)?;
    record.extend_from_slice(output)?;
    Ok(record)
}

/// A record ends so, and this is told of it, however its bytes are cut.
fn expect(
    rt: &impl Abort,
    alloc: Global,
    record: &[u8],
    status: Status,
    told: &[u8],
) -> Result<(), Fail> {
    for piece in [1000, 65536] {
        let (ended, written) = run(alloc, &["audit"], record.to_vec(alloc)?, pieces(piece))?;
        assert_eq!(rt; ended, status, "in pieces of {piece}");
        assert_eq!(rt; written.as_slice(), told, "in pieces of {piece}");
    }
    Ok(())
}

/// The output of a replay is a run's, and with another byte read it is not.
#[test]
fn outputs_of_replays(rt: HostRuntime) -> Result<(), Fail> {
    let alloc = rt.alloc();
    let input = write_and_read(alloc)?;
    let mut output = written_and_read(alloc)?;
    let length = input.len() as u64;
    let record = spelled(alloc, length, &input, &output)?;
    expect(&rt, alloc, &record, Status::Done, b"yes\n")?;
    if let Some(byte) = output.get_mut(100) {
        *byte ^= 1;
    }
    let record = spelled(alloc, length, &input, &output)?;
    expect(&rt, alloc, &record, Status::No, b"no\n")
}

/// An INQUIRY is not covered, and an input without END is refused.
#[test]
fn inputs_that_are_not_judged(rt: HostRuntime) -> Result<(), Fail> {
    let alloc = rt.alloc();
    let mut asked = input(alloc)?;
    asked.extend_from_slice(&TURN)?;
    command(
        &mut asked,
        1,
        [0x12, 0, 0, 0, 36, 0, 0, 0, 0, 0, 0, 0, 0, 0, 0, 0],
    )?;
    let record = spelled(alloc, asked.len() as u64, &asked, b"")?;
    let line = b"input fault 5 at byte 50\n";
    expect(&rt, alloc, &record, Status::BadInput, line)?;
    asked.extend_from_slice(&END)?;
    let record = spelled(alloc, asked.len() as u64, &asked, b"")?;
    let line = b"not covered at byte 15\n";
    expect(&rt, alloc, &record, Status::NotCovered, line)
}

/// Bytes that are no record: another magic, fewer bytes than the input has, a length above the greatest.
#[test]
fn bytes_that_are_no_record(rt: HostRuntime) -> Result<(), Fail> {
    let alloc = rt.alloc();
    expect(&rt, alloc, b"", Status::BadInput, b"")?;
    expect(
        &rt,
        alloc,
        b"SATLAUD2\0\0\0\0\0\0\0\0",
        Status::BadInput,
        b"",
    )?;
    let record = spelled(alloc, 9, b"SATLRPL1", b"")?;
    expect(&rt, alloc, &record, Status::BadInput, b"")?;
    let record = spelled(alloc, 0x0400_0001, b"SATLRPL1", b"")?;
    expect(&rt, alloc, &record, Status::BadInput, b"")
}

/// Two WRITEs of one block that wait together end in order of arrival alone.
#[test]
fn answers_in_no_order_of_a_run(rt: HostRuntime) -> Result<(), Fail> {
    let alloc = rt.alloc();
    let mut asked = input(alloc)?;
    request(&mut asked, write(1, 5, 1), &[0xAA; 512])?;
    request(&mut asked, write(2, 5, 1), &[0xBB; 512])?;
    request(&mut asked, read(3, 5, 1), &[])?;
    asked.extend_from_slice(&END)?;
    for (first, second, byte, status, told) in [
        (1, 2, 0xBB, Status::Done, "yes\n"),
        (2, 1, 0xAA, Status::No, "no\n"),
        (1, 2, 0xAA, Status::No, "no\n"),
    ] {
        let mut seen = output(alloc)?;
        good(&mut seen, first, &[])?;
        good(&mut seen, second, &[])?;
        good(&mut seen, 3, &[byte; 512])?;
        seen.extend_from_slice(&ENDED)?;
        let record = spelled(alloc, asked.len() as u64, &asked, &seen)?;
        expect(&rt, alloc, &record, status, told.as_bytes())?;
    }
    Ok(())
}
