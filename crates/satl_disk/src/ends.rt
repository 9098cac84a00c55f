// How commands end.
ghost use Rattle.std.specs.Prelude.{◌≡◌, ◌+◌, ◌*◌, ◌/◌, ◌%◌, ◌^◌};
ghost use Rattle.satl_regs.specs.Effects.{bad_end, flawed_end, good_end, is_dma};
ghost use Rattle.satl_disk.specs.Running.{stopped_end};

use satl_drive::{Registers, Taskfile};
use satl_regs::{BAD_STATUS, GOOD_STATUS, How, ICRC_ABRT, UNC, low_24, top_4_of_28};

/// What stops a command whose range lies within the capacity (ACS-3, error outputs).
#[derive(Clone, Copy, Debug, PartialEq, Eq)]
pub enum Stop {
    /// The sector at this address has a flaw.
    Flaw(u64),
    /// A CRC error on the way.
    Garbled,
}

/// Whether data go by DMA (ACS-3, the names of the commands).
pub fn is_dma(how: How) -> bool
    ensures { result ≡ is_dma how }
{
    match how {
        How::Pio | How::PioExt => false,
        How::Dma | How::DmaExt => true,
    }
}

/// A good end, with what COUNT and LBA tell.
pub fn good_end(regs: &Registers, count: u16, lba: u64) -> Taskfile
    ensures { result ≡ good_end regs.now count lba }
{
    Taskfile {
        error: 0,
        count,
        lba,
        device: regs.device,
        status: GOOD_STATUS,
    }
}

/// A bad end, with ERROR and what LBA tells.
pub fn bad_end(regs: &Registers, error: u8, lba: u64) -> Taskfile
    ensures { result ≡ bad_end regs.now error lba }
{
    Taskfile {
        error,
        count: 0,
        lba,
        device: regs.device,
        status: BAD_STATUS,
    }
}

/// DEVICE with bits 27:24 of an address.
fn with_top(device: u8, at: u64) -> u8
    ensures { result ≡ device / 2 ^ 4 * 2 ^ 4 + at / 2 ^ 24 % 2 ^ 4 }
{
    (device >> 4 << 4) + top_4_of_28(at)
}

/// A bad end at a flaw: of a 28-bit address the top four bits stand in DEVICE.
fn flawed_end(regs: &Registers, ext: bool, at: u64) -> Taskfile
    ensures { result ≡ flawed_end regs.now ext at }
{
    if ext {
        return bad_end(regs, UNC, at);
    }
    Taskfile {
        error: UNC,
        count: 0,
        lba: low_24(at),
        device: with_top(regs.device, at),
        status: BAD_STATUS,
    }
}

/// The end of a command that was stopped (ACS-3, error outputs).
pub fn stopped_end(stop: Stop, regs: &Registers, ext: bool) -> Taskfile
    ensures { result ≡ stopped_end stop regs.now ext }
{
    match stop {
        Stop::Flaw(at) => flawed_end(regs, ext, at),
        Stop::Garbled => bad_end(regs, ICRC_ABRT, 0),
    }
}
