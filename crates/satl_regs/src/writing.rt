//! Writing a command into its registers.

ghost use Rattle.std.specs.Prelude.{◌≡◌, ◌+◌, ◌*◌, ◌^◌, true, false};
ghost use Rattle.satl_base.specs.Fields.{bits_of};
ghost use Rattle.satl_regs.specs.Commands.{command_in, read_code, write_code};
ghost use Rattle.satl_regs.specs.Spelling.{CommandFits, addressed, command_registers, plain_registers};

use crate::codes::{
    CHECK_POWER_MODE, DATA_SET_MANAGEMENT, DEVICE_LBA, FLUSH_CACHE, FLUSH_CACHE_EXT,
    IDENTIFY_DEVICE, IDLE_IMMEDIATE, READ_DMA, READ_DMA_EXT, READ_LOG_EXT, READ_SECTORS,
    READ_SECTORS_EXT, READ_VERIFY, READ_VERIFY_EXT, SET_FEATURES, SMART, SMART_RETURN_STATUS,
    SMART_SIGNATURE, STANDBY_IMMEDIATE, TRIM, WRITE_DMA, WRITE_DMA_EXT, WRITE_SECTORS,
    WRITE_SECTORS_EXT,
};
use crate::fields::{low_16, low_24, top_4_of_28};
use crate::values::{AtaCommand, How, Registers};

fn read_code_of(how: How) -> u8
    ensures { result ≡ read_code how }
{
    match how {
        How::Pio => READ_SECTORS,
        How::PioExt => READ_SECTORS_EXT,
        How::Dma => READ_DMA,
        How::DmaExt => READ_DMA_EXT,
    }
}

fn write_code_of(how: How) -> u8
    ensures { result ≡ write_code how }
{
    match how {
        How::Pio => WRITE_SECTORS,
        How::PioExt => WRITE_SECTORS_EXT,
        How::Dma => WRITE_DMA,
        How::DmaExt => WRITE_DMA_EXT,
    }
}

fn code_alone(code: u8) -> Registers
    ensures { result ≡ plain_registers 0 0 0 code }
{
    Registers {
        features: 0,
        count: 0,
        lba: 0,
        device: DEVICE_LBA,
        command: code,
    }
}

fn put_28(code: u8, lba: u64, sectors: u32) -> Registers
    ensures { result ≡ addressed false lba sectors code }
{
    Registers {
        count: (sectors & 0xFF) as u16,
        lba: low_24(lba),
        device: DEVICE_LBA + top_4_of_28(lba),
        ..code_alone(code)
    }
}

fn put_48(code: u8, lba: u64, sectors: u32) -> Registers
    ensures { result ≡ addressed true lba sectors code }
{
    Registers {
        count: low_16(sectors),
        lba,
        ..code_alone(code)
    }
}

fn put_sectors(code: u8, ext: bool, lba: u64, sectors: u32) -> Registers
    ensures { result ≡ addressed ext lba sectors code }
{
    if ext {
        put_48(code, lba, sectors)
    } else {
        put_28(code, lba, sectors)
    }
}

fn put_log(log: u8, page: u16, blocks: u32) -> Registers
    ensures { result ≡ plain_registers 0 (bits_of 15 0 blocks)
        (log + bits_of 7 0 page * 2 ^ 8 + bits_of 15 8 page * 2 ^ 32) 0x2F }
{
    let lba = u64::from(log) + (u64::from(page & 0xFF) << 8) + (u64::from(page >> 8) << 32);
    Registers {
        count: low_16(blocks),
        lba,
        ..code_alone(READ_LOG_EXT)
    }
}

fn put_trim(blocks: u32) -> Registers
    ensures { result ≡ plain_registers 1 (bits_of 15 0 blocks) 0 0x06 }
{
    Registers {
        features: TRIM,
        count: low_16(blocks),
        ..code_alone(DATA_SET_MANAGEMENT)
    }
}

fn put_smart_status() -> Registers
    ensures { result ≡ plain_registers 0xDA 0 (0xC24F * 2 ^ 8) 0xB0 }
{
    Registers {
        features: SMART_RETURN_STATUS,
        lba: SMART_SIGNATURE,
        ..code_alone(SMART)
    }
}

fn put_set_features(what: u8) -> Registers
    ensures { result ≡ plain_registers what 0 0 0xEF }
{
    Registers {
        features: u16::from(what),
        ..code_alone(SET_FEATURES)
    }
}

#[tactic(auto, unfolding(crate::specs::Spelling::command_registers))]
fn registers_of(command: &AtaCommand) -> Registers
    ensures { result ≡ command_registers command.now }
{
    match *command {
        AtaCommand::Read { how, lba, sectors } => {
            put_sectors(read_code_of(how), how.is_ext(), lba, sectors)
        }
        AtaCommand::Write { how, lba, sectors } => {
            put_sectors(write_code_of(how), how.is_ext(), lba, sectors)
        }
        AtaCommand::Verify {
            ext: false,
            lba,
            sectors,
        } => put_28(READ_VERIFY, lba, sectors),
        AtaCommand::Verify {
            ext: true,
            lba,
            sectors,
        } => put_48(READ_VERIFY_EXT, lba, sectors),
        AtaCommand::Flush { ext: false } => code_alone(FLUSH_CACHE),
        AtaCommand::Flush { ext: true } => code_alone(FLUSH_CACHE_EXT),
        AtaCommand::Identify => code_alone(IDENTIFY_DEVICE),
        AtaCommand::SetFeatures { what } => put_set_features(what),
        AtaCommand::Standby => code_alone(STANDBY_IMMEDIATE),
        AtaCommand::Idle => code_alone(IDLE_IMMEDIATE),
        AtaCommand::CheckPower => code_alone(CHECK_POWER_MODE),
        AtaCommand::ReadLog { log, page, blocks } => put_log(log, page, blocks),
        AtaCommand::Trim { blocks } => put_trim(blocks),
        AtaCommand::SmartStatus => put_smart_status(),
        AtaCommand::Other { code } => code_alone(code),
    }
}

/// The registers of a command (ACS-3 section 7), with DEVICE 40h but for LBA(27:24) in 28-bit commands, and all that the
/// command does not use 0.
pub fn put_command(command: &AtaCommand) -> Registers
    requires { CommandFits command.now }
    ensures exact { result ≡ command_registers command.now }
    ensures again { command_in result ≡ command.now }
{
    registers_of(command)
}
