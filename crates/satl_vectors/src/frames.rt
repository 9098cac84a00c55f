// Inputs and outputs, built by frames.
ghost use Rattle.std.specs.Prelude.{◌≤◌, length};

use std::alloc::{AllocError, Global};

/// TURN by one.
pub const TURN: [u8; 7] = [0x03, 0, 0, 0, 2, 0, 1];

/// SYNCHRONIZE CACHE(10) of all blocks.
pub const FLUSH: [u8; 16] = [0x35, 0, 0, 0, 0, 0, 0, 0, 0, 0, 0, 0, 0, 0, 0, 0];

/// END of an input.
pub const END: [u8; 5] = [0x05, 0, 0, 0, 0];

/// END of an output.
pub const ENDED: [u8; 5] = [0x85, 0, 0, 0, 0];

/// A READ(10) or WRITE(10): its operation code, its tag, its address and the number of its blocks, each below 65,536.
#[derive(Clone, Copy)]
pub struct Transfer {
    pub code: u8,
    pub tag: u8,
    pub lba: u16,
    pub count: u16,
}

impl Transfer {
    fn cdb(&self) -> [u8; 16] {
        let [lba_high, lba_low] = self.lba.to_be_bytes();
        let [count_high, count_low] = self.count.to_be_bytes();
        [
            self.code, 0, 0, 0, lba_high, lba_low, 0, count_high, count_low, 0, 0, 0, 0, 0, 0, 0,
        ]
    }
}

pub fn write(tag: u8, lba: u16, count: u16) -> Transfer {
    Transfer {
        code: 0x2A,
        tag,
        lba,
        count,
    }
}

pub fn read(tag: u8, lba: u16, count: u16) -> Transfer {
    Transfer {
        code: 0x28,
        ..write(tag, lba, count)
    }
}

/// An input with its magic alone.
pub fn input(alloc: Global) -> Result<Vec<u8>, AllocError> {
    b"SATLRPL1".to_vec(alloc)
}

/// An output with its magic alone.
pub fn output(alloc: Global) -> Result<Vec<u8>, AllocError> {
    b"SATLRSP1".to_vec(alloc)
}

/// Appends a REQUEST, SIMPLE and to logical unit 0 from nexus 0, with this data-out.
pub fn request(input: &mut Vec<u8>, transfer: Transfer, data_out: &[u8]) -> Result<(), AllocError>
    requires { length data_out.now ≤ 2097152 }
{
    command_with(input, transfer.tag, transfer.cdb(), data_out)
}

/// Appends a REQUEST without data-out, SIMPLE and to logical unit 0 from nexus 0, by its bytes.
pub fn command(input: &mut Vec<u8>, tag: u8, cdb: [u8; 16]) -> Result<(), AllocError> {
    command_with(input, tag, cdb, &[])
}

/// Appends a REQUEST, SIMPLE and to logical unit 0 from nexus 0, by its bytes and with this data-out.
pub fn command_with(
    input: &mut Vec<u8>,
    tag: u8,
    cdb: [u8; 16],
    data_out: &[u8],
) -> Result<(), AllocError>
    requires { length data_out.now ≤ 2097152 }
{
    input.push(0x01)?;
    input.extend_from_slice(&(data_out.len() as u32 + 30).to_be_bytes())?;
    input.extend_from_slice(&[0; 13])?;
    input.push(tag)?;
    input.extend_from_slice(&cdb)?;
    input.extend_from_slice(data_out)
}

/// Appends an UNMAP of blocks, at most 255, from an address below 256 on. Bytes 7 and 8 of the CDB are the length of its list
/// (SBC-3 5.28).
pub fn unmap(input: &mut Vec<u8>, tag: u8, lba: u8, count: u8) -> Result<(), AllocError> {
    let mut list = [0; 24];
    list[1] = 22;
    list[3] = 16;
    list[15] = lba;
    list[19] = count;
    let cdb = [0x42, 0, 0, 0, 0, 0, 0, 0, 24, 0, 0, 0, 0, 0, 0, 0];
    command_with(input, tag, cdb, &list)
}

/// Appends a REPLY with GOOD and this data-in.
pub fn good(output: &mut Vec<u8>, tag: u8, data_in: &[u8]) -> Result<(), AllocError>
    requires { length data_in.now ≤ 2097152 }
{
    output.push(0x81)?;
    output.extend_from_slice(&(data_in.len() as u32 + 7).to_be_bytes())?;
    output.extend_from_slice(&[0, 0, 0, 0, 0, tag, 0])?;
    output.extend_from_slice(data_in)
}

/// Appends a REPLY with TASK SET FULL.
pub fn full(output: &mut Vec<u8>, tag: u8) -> Result<(), AllocError> {
    output.extend_from_slice(&[0x81, 0, 0, 0, 7, 0, 0x28, 0, 0, 0, tag, 0])
}

/// Appends a REPLY with CHECK CONDITION and sense data in the fixed form: the key, the code, and what the key says besides.
pub fn check(
    output: &mut Vec<u8>,
    tag: u8,
    key: u8,
    code: u8,
    specific: [u8; 3],
) -> Result<(), AllocError> {
    output.extend_from_slice(&[0x81, 0, 0, 0, 25, 0, 2, 0, 0, 0, tag, 18])?;
    output.extend_from_slice(&[0x70, 0, key, 0, 0, 0, 0, 10, 0, 0, 0, 0, code, 0, 0])?;
    output.extend_from_slice(&specific)
}

/// Appends a FAULT by its reason and offset.
pub fn fault(output: &mut Vec<u8>, reason: u8, offset: u64) -> Result<(), AllocError> {
    output.extend_from_slice(&[0x8F, 0, 0, 0, 9, reason])?;
    output.extend_from_slice(&offset.to_be_bytes())
}

/// A write of a block and a read of it, each with its turn, and the end.
pub fn write_and_read(alloc: Global) -> Result<Vec<u8>, AllocError> {
    let mut frames = input(alloc)?;
    request(&mut frames, write(1, 0, 1), &[0xA5; 512])?;
    frames.extend_from_slice(&TURN)?;
    request(&mut frames, read(2, 0, 1), &[])?;
    frames.extend_from_slice(&TURN)?;
    frames.extend_from_slice(&END)?;
    Ok(frames)
}

/// What is written for a write of a block and a read of it.
pub fn written_and_read(alloc: Global) -> Result<Vec<u8>, AllocError> {
    let mut replies = output(alloc)?;
    good(&mut replies, 1, &[])?;
    good(&mut replies, 2, &[0xA5; 512])?;
    replies.extend_from_slice(&ENDED)?;
    Ok(replies)
}
