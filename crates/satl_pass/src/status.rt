// How the end of an ATA command is told.

ghost use Rattle.std.specs.Prelude.{◌≡◌, ◌↔◌, IsNone, IsFalse};
ghost use Rattle.satl_pass.specs.Status.{ata_return, error_row, error_sense, error_sense_at, status_sense};
ghost use Rattle.satl_regs.specs.Effects.{is_bad};

use crate::pass::Pass;
use crate::reading::plan;
use crate::transfers::is_writing;
use satl_regs::Taskfile;
use satl_sense::{AtaReturn, Extra, Sense};

/// What stands for an error: a sense key and codes, and whether the LBA at the end is that of the error.
#[derive(Clone, Copy)]
struct ErrorCodes {
    key: u8,
    asc: u8,
    ascq: u8,
    has_lba: bool,
}

fn row_for(writes: bool, error: u8) -> ErrorCodes
    ensures key { result.key ≡ (error_row writes error).key }
    ensures asc { result.asc ≡ (error_row writes error).asc }
    ensures ascq { result.ascq ≡ (error_row writes error).ascq }
    ensures has_lba { result.has_lba ≡ (error_row writes error).has_lba }
{
    let icrc = error >> 7 & 1 == 1;
    let unc = error >> 6 & 1 == 1;
    let idnf = error >> 4 & 1 == 1;
    let (key, asc, ascq) = if icrc {
        (0x0B, 0x47, 0x03)
    } else if unc {
        if writes {
            (0x03, 0x0C, 0x02)
        } else {
            (0x03, 0x11, 0x00)
        }
    } else if idnf {
        (0x05, 0x21, 0x00)
    } else {
        (0x0B, 0x00, 0x00)
    };
    ErrorCodes {
        key,
        asc,
        ascq,
        has_lba: key == 0x03,
    }
}

/// The sense data for an ERROR register, with what is told beside them. The key and the codes are by the first that applies:
/// ICRC (bit 7), UNC (bit 6; a write error where the command writes), IDNF (bit 4), ABRT (bit 2), and as for ABRT where no such
/// bit is 1 (SAT-3 11; UNC of a write, IDNF and the last: profile).
#[tactic(auto, unfolding(crate::specs::Status::error_sense))]
pub fn error_sense(writes: bool, error: u8, extra: Extra) -> Sense
    ensures { result ≡ error_sense writes error extra }
{
    let ErrorCodes { key, asc, ascq, .. } = row_for(writes, error);
    Sense {
        key,
        asc,
        ascq,
        extra,
    }
}

/// The sense data for the ERROR register at the end of a command of the layer's own: the same key and codes, and at a medium
/// error (UNC) the LBA at the end as INFORMATION (SAT-3 11; SPC-4 4.5).
#[tactic(auto, unfolding(crate::specs::Status::error_sense_at))]
pub fn error_sense_at(writes: bool, error: u8, lba: u64) -> Sense
    ensures { result ≡ error_sense_at writes error lba }
{
    let ErrorCodes {
        key,
        asc,
        ascq,
        has_lba,
    } = row_for(writes, error);
    let extra = if has_lba {
        Extra::Information(lba)
    } else {
        Extra::None
    };
    Sense {
        key,
        asc,
        ascq,
        extra,
    }
}

fn ata_return(pass: &Pass, end: &Taskfile) -> AtaReturn
    ensures { result ≡ ata_return pass.now end.now }
{
    AtaReturn {
        extend: pass.extend,
        error: end.error,
        count: end.count,
        lba: end.lba,
        device: end.device,
        status: end.status,
    }
}

/// The sense data of a command's end, with the registers as ATA Status Return: at a bad end (ERR of STATUS is 1) the error's,
/// at a good one with CK_COND that information is available (SAT-3 11, 12.2.2.6).
///
/// None exactly where the end is good and CK_COND is 0.
pub fn status_return(pass: &Pass, end: &Taskfile) -> Option<Sense>
    ensures value { result ≡ status_sense pass.now end.now }
    ensures none { IsNone result ↔ (IsFalse (is_bad end.now) × IsFalse pass.now.ck_cond) }
{
    let extra = Extra::Ata(ata_return(pass, end));
    if end.is_bad() {
        return Some(error_sense(is_writing(&plan(pass)), end.error, extra));
    }
    if pass.ck_cond {
        return Some(Sense {
            key: 0x01,
            asc: 0x00,
            ascq: 0x1D,
            extra,
        });
    }
    None
}
