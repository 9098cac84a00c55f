// Commands of all device types (SPC-4).

ghost use Rattle.std.specs.Prelude.{◌≡◌, Ok};
ghost use Rattle.satl_cdb.specs.Rows.{format_says};
ghost use Rattle.satl_cdb.specs.PrimaryCommands.{request_sense, inquiry, mode_select, mode_sense, report_luns};

use crate::command::{Command, Illegal};
use crate::fields::{desc, evpd, flag, mode_length_of, u16_at, u32_at};
use crate::mode_page::{ALL_PAGES, ALL_SUBPAGES, CACHING, CONTROL, ERROR_RECOVERY, EXCEPTIONS};
use crate::vital_page::{
    ATA_INFORMATION, BLOCK_LIMITS, CHARACTERISTICS, IDENTIFICATION, PROVISIONING, SERIAL_NUMBER,
    SUPPORTED_PAGES,
};

/// REQUEST SENSE (SPC-4 6.39).
pub fn request_sense_of(cdb: &[u8; 16]) -> Command
    ensures { format_says request_sense cdb.now ≡ Ok result }
{
    Command::RequestSense {
        descriptor: desc(cdb),
        alloc: cdb[4],
    }
}

/// INQUIRY, or its refusal (SPC-4 6.6).
pub fn inquiry_of(cdb: &[u8; 16]) -> Result<Command, Illegal>
    ensures { result ≡ format_says inquiry cdb.now }
{
    let alloc = u16_at(cdb, 3);
    if !evpd(cdb) {
        return match cdb[2] {
            0x00 => Ok(Command::Inquiry { page: None, alloc }),
            _ => Err(Illegal::invalid_field(2)),
        };
    }
    match cdb[2] {
        page @ (SUPPORTED_PAGES
        | SERIAL_NUMBER
        | IDENTIFICATION
        | ATA_INFORMATION
        | BLOCK_LIMITS
        | CHARACTERISTICS
        | PROVISIONING) => Ok(Command::Inquiry {
            page: Some(page),
            alloc,
        }),
        _ => Err(Illegal::invalid_field(2)),
    }
}

/// MODE SELECT (6) or (10), or its refusal (SPC-4, commands of these names).
pub fn mode_select_of(cdb: &[u8; 16], ten: bool) -> Result<Command, Illegal>
    ensures { result ≡ format_says (mode_select ten) cdb.now }
{
    let page_format = flag(cdb, 1, 4);
    let save_pages = flag(cdb, 1, 0);
    if !page_format || save_pages {
        return Err(Illegal::invalid_field(1));
    }
    Ok(Command::ModeSelect {
        ten,
        length: mode_length_of(cdb, ten),
    })
}

/// MODE SENSE (6) or (10), or its refusal (SPC-4, commands of these names).
pub fn mode_sense_of(cdb: &[u8; 16], ten: bool) -> Result<Command, Illegal>
    ensures { result ≡ format_says (mode_sense ten) cdb.now }
{
    let control = cdb[2] >> 6;
    let page = cdb[2] & 0x3F;
    if control == 3 {
        return Err(Illegal::saving_not_supported());
    }
    if !matches!(
        page,
        ERROR_RECOVERY | CACHING | CONTROL | EXCEPTIONS | ALL_PAGES
    ) {
        return Err(Illegal::invalid_field(2));
    }
    if !matches!((page, cdb[3]), (_, 0) | (ALL_PAGES, ALL_SUBPAGES)) {
        return Err(Illegal::invalid_field(3));
    }
    Ok(Command::ModeSense {
        ten,
        long_lba: ten && flag(cdb, 1, 4),
        no_descriptor: flag(cdb, 1, 3),
        control,
        page,
        alloc: mode_length_of(cdb, ten),
    })
}

/// REPORT LUNS, or its refusal (SPC-4 6.33).
pub fn report_luns_of(cdb: &[u8; 16]) -> Result<Command, Illegal>
    ensures { result ≡ format_says report_luns cdb.now }
{
    let select = cdb[2];
    if select > 2 {
        return Err(Illegal::invalid_field(2));
    }
    Ok(Command::ReportLuns {
        select,
        alloc: u32_at(cdb, 6),
    })
}
