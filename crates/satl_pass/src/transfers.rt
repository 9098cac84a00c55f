// How ATA commands move their data.

ghost use Rattle.std.specs.Prelude.{◌≡◌, ◌==◌, ◌*◌};
ghost use Rattle.satl_base.specs.Lists.{is_in};
ghost use Rattle.satl_regs.specs.Effects.{own_blocks};
ghost use Rattle.satl_pass.specs.Transfers.{protocols, reading_protocols, writing_protocols, own_protocols, is_writing, is_other};

use satl_regs::{AtaCommand, How};

// Values of PROTOCOL (SAT-3 12.2).
const NON_DATA: u8 = 3;

const PIO_IN: u8 = 4;

const PIO_OUT: u8 = 5;

const DMA: u8 = 6;

const UDMA_IN: u8 = 10;

const UDMA_OUT: u8 = 11;

/// Whether a value of PROTOCOL is one of those that are listed (SAT-3 12.2; which are: profile).
pub fn is_protocol(protocol: u8) -> bool
    ensures { result ≡ is_in protocol protocols }
{
    matches!(
        protocol,
        NON_DATA | PIO_IN | PIO_OUT | DMA | UDMA_IN | UDMA_OUT
    )
}

fn reads_by(how: How, protocol: u8) -> bool
    ensures { result ≡ is_in protocol (reading_protocols how) }
{
    match how {
        How::Pio | How::PioExt => protocol == PIO_IN,
        How::Dma | How::DmaExt => matches!(protocol, DMA | UDMA_IN),
    }
}

fn writes_by(how: How, protocol: u8) -> bool
    ensures { result ≡ is_in protocol (writing_protocols how) }
{
    match how {
        How::Pio | How::PioExt => protocol == PIO_OUT,
        How::Dma | How::DmaExt => matches!(protocol, DMA | UDMA_OUT),
    }
}

/// Whether a protocol carries a command.
pub fn goes_by(command: &AtaCommand, protocol: u8) -> bool
    ensures { result ≡ is_in protocol (own_protocols command.now) }
{
    match *command {
        AtaCommand::Read { how, .. } => reads_by(how, protocol),
        AtaCommand::Write { how, .. } => writes_by(how, protocol),
        AtaCommand::Identify | AtaCommand::ReadLog { .. } => protocol == PIO_IN,
        AtaCommand::Trim { .. } => matches!(protocol, DMA | UDMA_OUT),
        AtaCommand::Verify { .. }
        | AtaCommand::Flush { .. }
        | AtaCommand::SetFeatures { .. }
        | AtaCommand::Standby
        | AtaCommand::Idle
        | AtaCommand::CheckPower
        | AtaCommand::SmartStatus => protocol == NON_DATA,
        AtaCommand::Other { .. } => is_protocol(protocol),
    }
}

/// Whether the profile does not have a command.
pub fn is_other(command: &AtaCommand) -> bool
    ensures { result ≡ is_other command.now }
{
    matches!(command, AtaCommand::Other { .. })
}

/// Whether the data of a command go to the drive.
pub fn is_writing(command: &AtaCommand) -> bool
    ensures { result ≡ is_writing command.now }
{
    matches!(command, AtaCommand::Write { .. } | AtaCommand::Trim { .. })
}

/// The length of the data that a command moves, in blocks.
pub fn own_blocks(command: &AtaCommand) -> u32
    ensures { result ≡ own_blocks command.now }
{
    match *command {
        AtaCommand::Read { sectors, .. } | AtaCommand::Write { sectors, .. } => sectors,
        AtaCommand::Identify => 1,
        AtaCommand::ReadLog { blocks, .. } | AtaCommand::Trim { blocks } => blocks,
        AtaCommand::Verify { .. }
        | AtaCommand::Flush { .. }
        | AtaCommand::SetFeatures { .. }
        | AtaCommand::Standby
        | AtaCommand::Idle
        | AtaCommand::CheckPower
        | AtaCommand::SmartStatus
        | AtaCommand::Other { .. } => 0,
    }
}
