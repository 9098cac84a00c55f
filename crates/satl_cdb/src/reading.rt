// Reading command descriptor blocks.

ghost use Rattle.std.specs.Prelude.{◌≡◌, Ok};
ghost use Rattle.satl_cdb.specs.Rows.{format_says};
ghost use Rattle.satl_cdb.specs.Table.{pass_through_12, pass_through_16, says};

use crate::block::{
    read_6_of, read_capacity_16_of, read_of, start_stop_of, synchronize_cache_of, unmap_of,
    verify_of, write_6_of, write_of, write_same_of,
};
use crate::codes::{
    INQUIRY, MODE_SELECT_6, MODE_SELECT_10, MODE_SENSE_6, MODE_SENSE_10, PASS_THROUGH_12,
    PASS_THROUGH_16, READ_6, READ_10, READ_12, READ_16, READ_CAPACITY_10, REPORT_LUNS,
    REQUEST_SENSE, SERVICE_ACTION_IN_16, START_STOP_UNIT, SYNCHRONIZE_CACHE_10,
    SYNCHRONIZE_CACHE_16, TEST_UNIT_READY, UNMAP, VERIFY_10, VERIFY_12, VERIFY_16, WRITE_6,
    WRITE_10, WRITE_12, WRITE_16, WRITE_SAME_10, WRITE_SAME_16,
};
use crate::command::{Command, Form, Illegal};
use crate::primary::{inquiry_of, mode_select_of, mode_sense_of, report_luns_of, request_sense_of};

/// Bit 0 of byte 1 and byte 10 are reserved here, and byte 11 is the control byte.
fn pass_through_12_of(cdb: &[u8; 16]) -> Command
    ensures { format_says pass_through_12 cdb.now ≡ Ok result }
{
    let mut kept = [0u8; 16];
    kept[..10].copy_from_slice(&cdb[..10]);
    kept[1] &= 0xFE;
    Command::Pass { cdb: kept }
}

/// Byte 15 is the control byte.
fn pass_through_16_of(cdb: &[u8; 16]) -> Command
    ensures { format_says pass_through_16 cdb.now ≡ Ok result }
{
    let mut kept = [0u8; 16];
    kept[..15].copy_from_slice(&cdb[..15]);
    Command::Pass { cdb: kept }
}

/// The command that a command descriptor block asks for, on a drive with or without trim. A block shorter than 16
/// bytes stands at the front, and the bytes after it are not looked at. `Err` has the refusal of the lowest byte that the
/// table of operation codes refuses; ATA PASS-THROUGH is never refused here (SPC-4, SBC-3, SAT-3 and the profile).
#[inline(always)]
#[tactic(auto, unfolding(crate::specs::Table::says))]
pub fn read_cdb(cdb: &[u8; 16], trim: bool) -> Result<Command, Illegal>
    ensures { result ≡ says cdb.now trim }
{
    match cdb[0] {
        TEST_UNIT_READY => Ok(Command::TestUnitReady),
        REQUEST_SENSE => Ok(request_sense_of(cdb)),
        READ_6 => Ok(read_6_of(cdb)),
        WRITE_6 => Ok(write_6_of(cdb)),
        INQUIRY => inquiry_of(cdb),
        MODE_SELECT_6 => mode_select_of(cdb, false),
        MODE_SENSE_6 => mode_sense_of(cdb, false),
        START_STOP_UNIT => start_stop_of(cdb),
        READ_CAPACITY_10 => Ok(Command::ReadCapacity10),
        READ_10 => read_of(cdb, Form::Ten),
        WRITE_10 => write_of(cdb, Form::Ten),
        VERIFY_10 => verify_of(cdb, Form::Ten),
        SYNCHRONIZE_CACHE_10 => Ok(synchronize_cache_of(cdb, Form::Ten)),
        WRITE_SAME_10 => write_same_of(cdb, trim, Form::Ten),
        UNMAP => unmap_of(cdb, trim),
        MODE_SELECT_10 => mode_select_of(cdb, true),
        MODE_SENSE_10 => mode_sense_of(cdb, true),
        PASS_THROUGH_16 => Ok(pass_through_16_of(cdb)),
        READ_16 => read_of(cdb, Form::Sixteen),
        WRITE_16 => write_of(cdb, Form::Sixteen),
        VERIFY_16 => verify_of(cdb, Form::Sixteen),
        SYNCHRONIZE_CACHE_16 => Ok(synchronize_cache_of(cdb, Form::Sixteen)),
        WRITE_SAME_16 => write_same_of(cdb, trim, Form::Sixteen),
        SERVICE_ACTION_IN_16 => read_capacity_16_of(cdb),
        REPORT_LUNS => report_luns_of(cdb),
        PASS_THROUGH_12 => Ok(pass_through_12_of(cdb)),
        READ_12 => read_of(cdb, Form::Twelve),
        WRITE_12 => write_of(cdb, Form::Twelve),
        VERIFY_12 => verify_of(cdb, Form::Twelve),
        _ => Err(Illegal::invalid_operation_code()),
    }
}
