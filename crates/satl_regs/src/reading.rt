//! Reading a command out of its registers.

ghost use Rattle.std.specs.Prelude.{◌≡◌, ◌↔◌, ◌==◌, ◌&&◌, IsNone};
ghost use Rattle.satl_regs.specs.Commands.{command_in, command_row, is_ext, read_row, read_log_row, smart_row, trim_row, verify_row, write_row};

use crate::codes::{
    CHECK_POWER_MODE, DATA_SET_MANAGEMENT, FLUSH_CACHE, FLUSH_CACHE_EXT, IDENTIFY_DEVICE,
    IDLE_IMMEDIATE, READ_DMA, READ_DMA_EXT, READ_LOG_EXT, READ_SECTORS, READ_SECTORS_EXT,
    READ_VERIFY, READ_VERIFY_EXT, SET_FEATURES, SMART, SMART_RETURN_STATUS, SMART_SIGNATURE,
    STANDBY_IMMEDIATE, TRIM, WRITE_DMA, WRITE_DMA_EXT, WRITE_SECTORS, WRITE_SECTORS_EXT,
};
use crate::fields::{count_16_of, lba_in, sectors_in};
use crate::values::{AtaCommand, How, Registers};

impl How {
    /// Whether these commands have 48 bits of LBA (ACS-3 section 7, the EXT commands).
    pub fn is_ext(self) -> bool
        ensures { result ≡ is_ext self }
    {
        match self {
            How::Pio | How::Dma => false,
            How::PioExt | How::DmaExt => true,
        }
    }
}

fn read_in(regs: &Registers, how: How) -> AtaCommand
    ensures { result ≡ (read_row how).command regs.now }
{
    AtaCommand::Read {
        how,
        lba: lba_in(regs, how.is_ext()),
        sectors: sectors_in(regs, how.is_ext()),
    }
}

fn write_in(regs: &Registers, how: How) -> AtaCommand
    ensures { result ≡ (write_row how).command regs.now }
{
    AtaCommand::Write {
        how,
        lba: lba_in(regs, how.is_ext()),
        sectors: sectors_in(regs, how.is_ext()),
    }
}

fn verify_in(regs: &Registers, ext: bool) -> AtaCommand
    ensures { result ≡ (verify_row ext).command regs.now }
{
    AtaCommand::Verify {
        ext,
        lba: lba_in(regs, ext),
        sectors: sectors_in(regs, ext),
    }
}

fn log_in(regs: &Registers) -> AtaCommand
    ensures { result ≡ read_log_row.command regs.now }
{
    let [_, _, _, high, _, _, low, log] = regs.lba.to_be_bytes();
    AtaCommand::ReadLog {
        log,
        page: u16::from_be_bytes([high, low]),
        blocks: count_16_of(regs.count),
    }
}

fn is_trim(regs: &Registers) -> bool
    ensures { result ≡ trim_row.needs regs.now }
{
    regs.features & TRIM == TRIM
}

fn is_smart_status(regs: &Registers) -> bool
    ensures { result ≡ smart_row.needs regs.now }
{
    regs.features & 0xFF == SMART_RETURN_STATUS && regs.lba >> 8 & 0xFFFF == SMART_SIGNATURE >> 8
}

#[tactic(auto, unfolding(crate::specs::Commands::command_in, crate::specs::Commands::command_row))]
fn listed_or_other(regs: &Registers) -> AtaCommand
    ensures { result ≡ command_in regs.now }
{
    match regs.command {
        READ_SECTORS => read_in(regs, How::Pio),
        READ_SECTORS_EXT => read_in(regs, How::PioExt),
        READ_DMA => read_in(regs, How::Dma),
        READ_DMA_EXT => read_in(regs, How::DmaExt),
        WRITE_SECTORS => write_in(regs, How::Pio),
        WRITE_SECTORS_EXT => write_in(regs, How::PioExt),
        WRITE_DMA => write_in(regs, How::Dma),
        WRITE_DMA_EXT => write_in(regs, How::DmaExt),
        READ_VERIFY => verify_in(regs, false),
        READ_VERIFY_EXT => verify_in(regs, true),
        FLUSH_CACHE => AtaCommand::Flush { ext: false },
        FLUSH_CACHE_EXT => AtaCommand::Flush { ext: true },
        IDENTIFY_DEVICE => AtaCommand::Identify,
        SET_FEATURES => AtaCommand::SetFeatures {
            what: (regs.features & 0xFF) as u8,
        },
        STANDBY_IMMEDIATE => AtaCommand::Standby,
        IDLE_IMMEDIATE => AtaCommand::Idle,
        CHECK_POWER_MODE => AtaCommand::CheckPower,
        READ_LOG_EXT => log_in(regs),
        DATA_SET_MANAGEMENT if is_trim(regs) => AtaCommand::Trim {
            blocks: count_16_of(regs.count),
        },
        SMART if is_smart_status(regs) => AtaCommand::SmartStatus,
        code => AtaCommand::Other { code },
    }
}

/// The command in the registers (ACS-3 section 7).
///
/// `Other` where the profile does not have the command: a code that it does not list, DATA SET MANAGEMENT without its
/// TRIM bit, and SMART with other values than those of RETURN STATUS.
pub fn command_of(regs: &Registers) -> AtaCommand
    ensures value { result ≡ command_in regs.now }
    ensures other { (result ≡ AtaCommand.Other regs.now.command) ↔ IsNone (command_row regs.now) }
{
    listed_or_other(regs)
}
