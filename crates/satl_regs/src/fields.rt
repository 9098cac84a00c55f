//! Fields of the registers.

ghost use Rattle.std.specs.Prelude.{◌≡◌};
ghost use Rattle.satl_base.specs.Fields.{bits_of};
ghost use Rattle.satl_regs.specs.Fields.{count_8, count_16, lba_28, lba_of, sectors_of};

use crate::values::Registers;

/// The lowest 48 bits.
pub fn low_48(number: u64) -> u64
    ensures { result ≡ bits_of 47 0 number }
{
    number & 0xFFFF_FFFF_FFFF
}

/// The lowest 16 bits.
pub fn low_16(number: u32) -> u16
    ensures { result ≡ bits_of 15 0 number }
{
    (number & 0xFFFF) as u16
}

/// The lowest 24 bits: LBA(23:0), which stand in LBA of a command of 28 bits too (ACS-3, 28-bit commands).
pub fn low_24(number: u64) -> u64
    ensures { result ≡ bits_of 23 0 number }
{
    number & 0xFF_FFFF
}

/// LBA(27:24) of an address, which stand in DEVICE(3:0) of a command of 28 bits (ACS-3, 28-bit commands).
pub fn top_4_of_28(lba: u64) -> u8
    ensures { result ≡ bits_of 27 24 lba }
{
    (lba >> 24 & 0x0F) as u8
}

/// A count of 8 bits, in which 0 means 256.
fn count_8_of(count: u16) -> u32
    ensures { result ≡ count_8 count }
{
    if count & 0xFF == 0 {
        256
    } else {
        u32::from(count & 0xFF)
    }
}

/// A count of 16 bits, in which 0 means 65,536.
pub fn count_16_of(count: u16) -> u32
    ensures { result ≡ count_16 count }
{
    if count == 0 { 65_536 } else { u32::from(count) }
}

// The LBA in 28 bits: LBA(27:24) stand in DEVICE(3:0).
fn lba_28_of(regs: &Registers) -> u64
    ensures { result ≡ lba_28 regs.now }
{
    low_24(regs.lba) + (u64::from(regs.device & 0x0F) << 24)
}

/// The LBA, in 28 bits or in 48.
pub fn lba_in(regs: &Registers, ext: bool) -> u64
    ensures { result ≡ lba_of ext regs.now }
{
    if ext {
        low_48(regs.lba)
    } else {
        lba_28_of(regs)
    }
}

/// The number of sectors, in 8 bits or in 16.
pub fn sectors_in(regs: &Registers, ext: bool) -> u32
    ensures { result ≡ sectors_of ext regs.now }
{
    if ext {
        count_16_of(regs.count)
    } else {
        count_8_of(regs.count)
    }
}
