// The fields of the command descriptor block.

ghost use Rattle.std.specs.Prelude.{◌≡◌, ◌<◌, ◌^◌};
ghost use Rattle.satl_pass.specs.Fields.{blocks_counted, count_length, extend_16, features_length, form_of, high, pass_in, registers_12, registers_16, t_length, transfer_length};

use crate::pass::Pass;
use byteorder::{BigEndian, ByteOrder};
use satl_cdb::flag;
use satl_regs::Registers;

/// The operation code of the form of 16 bytes; the other is that of 12.
const CODE_16: u8 = 0x85;

/// EXTEND of the form of 16 bytes: the registers have 48 bits (SAT-3 12.2).
fn extend_16(cdb: &[u8; 16]) -> bool
    ensures { result ≡ extend_16 cdb.now }
{
    flag(cdb, 1, 0)
}

/// A high byte of the form of 16 bytes, which counts where EXTEND is 1.
fn high(cdb: &[u8; 16], place: usize) -> u8
    requires { place < 16 }
    ensures { result ≡ high place cdb.now }
{
    if extend_16(cdb) { cdb[place] } else { 0 }
}

fn registers_16(cdb: &[u8; 16]) -> Registers
    ensures value { result ≡ registers_16 cdb.now }
    ensures lba { result.lba < 2 ^ 48 }
{
    let lba = [
        high(cdb, 11),
        high(cdb, 9),
        high(cdb, 7),
        cdb[12],
        cdb[10],
        cdb[8],
    ];
    Registers {
        features: BigEndian::read_u16(&[high(cdb, 3), cdb[4]]),
        count: BigEndian::read_u16(&[high(cdb, 5), cdb[6]]),
        lba: BigEndian::read_u48(&lba),
        device: cdb[13],
        command: cdb[14],
    }
}

fn registers_12(cdb: &[u8; 16]) -> Registers
    ensures value { result ≡ registers_12 cdb.now }
    ensures lba { result.lba < 2 ^ 48 }
{
    Registers {
        features: u16::from(cdb[3]),
        count: u16::from(cdb[4]),
        lba: u64::from(BigEndian::read_u24(&[cdb[7], cdb[6], cdb[5]])),
        device: cdb[8],
        command: cdb[9],
    }
}

fn registers_of(cdb: &[u8; 16]) -> Registers
    ensures value { result ≡ (form_of cdb.now).registers cdb.now }
    ensures lba { result.lba < 2 ^ 48 }
{
    if cdb[0] == CODE_16 {
        registers_16(cdb)
    } else {
        registers_12(cdb)
    }
}

fn extend_of(cdb: &[u8; 16]) -> bool
    ensures { result ≡ (form_of cdb.now).extend cdb.now }
{
    cdb[0] == CODE_16 && extend_16(cdb)
}

/// The byte of COMMAND.
pub fn command_place(cdb: &[u8; 16]) -> u16
    ensures { result ≡ (form_of cdb.now).command_place }
{
    if cdb[0] == CODE_16 { 14 } else { 9 }
}

/// A COUNT of 0 counts as 256, or with EXTEND as 65,536.
fn blocks_counted(extend: bool, count: u16) -> u32
    ensures { result ≡ blocks_counted extend count }
{
    match count {
        0 => if extend { 65_536 } else { 256 },
        count => u32::from(count),
    }
}

fn features_length(blocks: bool, regs: &Registers) -> u32
    ensures { result ≡ features_length blocks regs.now }
{
    let features = u32::from(regs.features);
    if blocks { 512 * features } else { features }
}

fn count_length(blocks: bool, extend: bool, regs: &Registers) -> u32
    ensures { result ≡ count_length blocks extend regs.now }
{
    if blocks {
        512 * blocks_counted(extend, regs.count)
    } else {
        u32::from(regs.count)
    }
}

/// T_LENGTH: where the length of the data stands (SAT-3 12.2).
pub fn t_length(cdb: &[u8; 16]) -> u8
    ensures { result ≡ t_length cdb.now }
{
    cdb[2] & 3
}

fn length_of(cdb: &[u8; 16], extend: bool, regs: &Registers) -> u32
    requires extend { extend ≡ (form_of cdb.now).extend cdb.now }
    requires regs { regs.now ≡ (form_of cdb.now).registers cdb.now }
    ensures { result ≡ transfer_length (form_of cdb.now) cdb.now }
{
    let blocks = flag(cdb, 2, 2);
    match t_length(cdb) {
        1 => features_length(blocks, regs),
        2 => count_length(blocks, extend, regs),
        _ => 0,
    }
}

/// What the fields of an ATA PASS-THROUGH say, whatever their values are (SAT-3 12.2).
pub fn pass_of(cdb: &[u8; 16]) -> Pass
    ensures value { result ≡ pass_in (form_of cdb.now) cdb.now }
    ensures lba { result.regs.lba < 2 ^ 48 }
{
    let regs = registers_of(cdb);
    let extend = extend_of(cdb);
    Pass {
        protocol: cdb[1] >> 1 & 0x0F,
        extend,
        ck_cond: flag(cdb, 2, 5),
        out: !flag(cdb, 2, 3),
        length: length_of(cdb, extend, &regs),
        regs,
    }
}
