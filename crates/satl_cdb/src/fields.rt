// Fields of a command descriptor block.

ghost use Rattle.std.specs.Prelude.{◌≡◌, ◌+◌, ◌≤◌, ◌<◌};
ghost use Rattle.byteorder.specs.Endian.{big_from};
ghost use Rattle.satl_base.specs.Fields.{bit};
ghost use Rattle.satl_cdb.specs.BlockCommands.{layout_of, six};
ghost use Rattle.satl_cdb.specs.PrimaryCommands.{desc, evpd, mode_length};

use crate::command::Form;
use byteorder::{BigEndian, ByteOrder};

/// The number in two bytes from a place on, the first the highest (SPC-4 3.5).
pub fn u16_at(cdb: &[u8; 16], at: usize) -> u16
    requires { at + 2 ≤ 16 }
    ensures { result ≡ big_from at 2 cdb.now }
{
    BigEndian::read_u16(&cdb[at..])
}

/// The number in four bytes.
pub fn u32_at(cdb: &[u8; 16], at: usize) -> u32
    requires { at + 4 ≤ 16 }
    ensures { result ≡ big_from at 4 cdb.now }
{
    BigEndian::read_u32(&cdb[at..])
}

/// The number in eight bytes.
pub fn u64_at(cdb: &[u8; 16], at: usize) -> u64
    requires { at + 8 ≤ 16 }
    ensures { result ≡ big_from at 8 cdb.now }
{
    BigEndian::read_u64(&cdb[at..])
}

/// Whether a bit is 1: bit 0 to 7 of a byte of the CDB (SPC-4 4.2).
pub fn flag(cdb: &[u8; 16], place: usize, low: u8) -> bool
    requires place { place < 16 }
    requires low { low < 8 }
    ensures { result ≡ bit place low cdb.now }
{
    cdb[place] >> low & 1 == 1
}

/// EVPD of an INQUIRY: a page of vital product data is asked for (SPC-4 6.6).
pub fn evpd(cdb: &[u8; 16]) -> bool
    ensures { result ≡ evpd cdb.now }
{
    flag(cdb, 1, 0)
}

/// DESC of a REQUEST SENSE: sense data are asked for in the descriptor form (SPC-4 6.39).
pub fn desc(cdb: &[u8; 16]) -> bool
    ensures { result ≡ desc cdb.now }
{
    flag(cdb, 1, 0)
}

/// LOGICAL BLOCK ADDRESS of a command of this form (SPC-4 4.3).
pub fn lba_of(cdb: &[u8; 16], form: Form) -> u64
    ensures { result ≡ (layout_of form).lba cdb.now }
{
    match form {
        Form::Six => u64::from(cdb[1] & 0x1F) << 16 | u64::from(u16_at(cdb, 2)),
        Form::Ten | Form::Twelve => u64::from(u32_at(cdb, 2)),
        Form::Sixteen => u64_at(cdb, 2),
    }
}

/// TRANSFER LENGTH, VERIFICATION LENGTH or NUMBER OF LOGICAL BLOCKS of a command of this form, in blocks (SPC-4 4.3).
pub fn count_of(cdb: &[u8; 16], form: Form) -> u32
    ensures { result ≡ (layout_of form).count cdb.now }
{
    match form {
        Form::Six => short_count(cdb),
        Form::Ten => u32::from(u16_at(cdb, 7)),
        Form::Twelve => u32_at(cdb, 6),
        Form::Sixteen => u32_at(cdb, 10),
    }
}

// The count in the form of 6 bytes: 0 stands for 256 blocks.
fn short_count(cdb: &[u8; 16]) -> u32
    ensures { result ≡ six.count cdb.now }
{
    match cdb[4] {
        0 => 256,
        count => u32::from(count),
    }
}

/// The byte at which the count of a command of this form begins (SPC-4 4.3).
pub fn count_place(form: Form) -> u16
    ensures { result ≡ (layout_of form).count_place }
{
    match form {
        Form::Six => 4,
        Form::Ten => 7,
        Form::Twelve => 6,
        Form::Sixteen => 10,
    }
}

/// PARAMETER LIST LENGTH or ALLOCATION LENGTH of a mode command of 10 or 6 bytes, in bytes (SPC-4, MODE SELECT and MODE SENSE).
pub fn mode_length_of(cdb: &[u8; 16], ten: bool) -> u16
    ensures { result ≡ mode_length ten cdb.now }
{
    if ten {
        u16_at(cdb, 7)
    } else {
        u16::from(cdb[4])
    }
}
