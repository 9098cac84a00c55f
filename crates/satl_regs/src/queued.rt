//! Queued commands.

ghost use Rattle.std.specs.Prelude.{◌≡◌, ◌↔◌, Some, IsFalse, IsNone};
ghost use Rattle.satl_base.specs.Lists.{is_in};
ghost use Rattle.satl_regs.specs.QueuedCommands.{QueuedFits, queued_code, queued_codes, queued_fields, queued_in, queued_registers};

use crate::codes::{
    DEVICE_FUA, DEVICE_LBA, FUA_PLACE, READ_QUEUED, SEND_QUEUED, TAG_PLACE, WRITE_QUEUED,
};
use crate::fields::{count_16_of, low_16, low_48};
use crate::values::{Queued, QueuedKind, Registers};

fn fields_of(regs: &Registers, kind: QueuedKind) -> Queued
    ensures { result ≡ queued_fields kind regs.now }
{
    Queued {
        kind,
        lba: low_48(regs.lba),
        sectors: count_16_of(regs.features),
        tag: (regs.count >> TAG_PLACE & 0x1F) as u8,
        fua: regs.device >> FUA_PLACE & 1 == 1,
    }
}

/// The queued command in the registers: READ FPDMA QUEUED (60h), WRITE FPDMA QUEUED (61h), or the profile's queued
/// trim (64h).
///
/// None for each other command code.
pub fn queued_of(regs: &Registers) -> Option<Queued>
    ensures value { result ≡ queued_in regs.now }
    ensures none { IsNone result ↔ IsFalse (is_in regs.now.command queued_codes) }
{
    match regs.command {
        READ_QUEUED => Some(fields_of(regs, QueuedKind::Read)),
        WRITE_QUEUED => Some(fields_of(regs, QueuedKind::Write)),
        SEND_QUEUED => Some(fields_of(regs, QueuedKind::Trim)),
        _ => None,
    }
}

fn code_of(kind: QueuedKind) -> u8
    ensures { result ≡ queued_code kind }
{
    match kind {
        QueuedKind::Read => READ_QUEUED,
        QueuedKind::Write => WRITE_QUEUED,
        QueuedKind::Trim => SEND_QUEUED,
    }
}

/// The registers of a queued command (ACS-3 section 7, READ and WRITE FPDMA QUEUED; profile for a trim).
pub fn put_queued(queued: &Queued) -> Registers
    requires { QueuedFits queued.now }
    ensures exact { result ≡ queued_registers queued.now }
    ensures again { queued_in result ≡ Some queued.now }
{
    Registers {
        features: low_16(queued.sectors),
        count: u16::from(queued.tag) << TAG_PLACE,
        lba: queued.lba,
        device: DEVICE_LBA + if queued.fua { DEVICE_FUA } else { 0 },
        command: code_of(queued.kind),
    }
}
