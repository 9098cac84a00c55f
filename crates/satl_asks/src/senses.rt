// Sense data by the reason for them.
ghost use Rattle.std.specs.Prelude.{◌≡◌};
ghost use Rattle.satl_direct.specs.Senses.{attention_sense, link_lost, miscompare, no_sense, not_ready, out_of_range, overlapped, plain, pointer_to, refusal_sense, short_data, unknown_unit};

use satl_cdb::Illegal;
use satl_sense::{Extra, Sense};
use satl_unit::Attention;

/// Sense data of a key and codes alone (SPC-4 4.5).
fn plain(key: u8, asc: u8, ascq: u8) -> Sense
    ensures { result ≡ plain key asc ascq }
{
    Sense {
        key,
        asc,
        ascq,
        extra: Extra::None,
    }
}

/// NOT READY: the unit is stopped (SPC-4 4.5.6).
pub fn not_ready() -> Sense
    ensures { result ≡ not_ready }
{
    plain(0x2, 0x04, 0x02)
}

/// HARDWARE ERROR: the link to the drive is lost (SPC-4 4.5.6).
pub fn link_lost() -> Sense
    ensures { result ≡ link_lost }
{
    plain(0x4, 0x08, 0x00)
}

/// ILLEGAL REQUEST: the range goes past the last sector (SPC-4 4.5.6).
pub fn out_of_range() -> Sense
    ensures { result ≡ out_of_range }
{
    plain(0x5, 0x21, 0x00)
}

/// ILLEGAL REQUEST: there is no logical unit at this LUN (SPC-4 4.5.6).
pub fn unknown_unit() -> Sense
    ensures { result ≡ unknown_unit }
{
    plain(0x5, 0x25, 0x00)
}

/// ABORTED COMMAND: fewer bytes of data-out came than the command needs (SPC-4 4.5.6).
pub fn short_data() -> Sense
    ensures { result ≡ short_data }
{
    plain(0xB, 0x4B, 0x00)
}

/// ABORTED COMMAND: the nexus and the tag are those of a task (SPC-4 4.5.6).
pub fn overlapped() -> Sense
    ensures { result ≡ overlapped }
{
    plain(0xB, 0x4E, 0x00)
}

/// NO SENSE: nothing is to be told (SPC-4 4.5.6).
pub fn no_sense() -> Sense
    ensures { result ≡ no_sense }
{
    plain(0x0, 0x00, 0x00)
}

/// MISCOMPARE: a VERIFY found other blocks than its data-out (SPC-4 4.5.6).
pub fn miscompare() -> Sense
    ensures { result ≡ miscompare }
{
    plain(0xE, 0x1D, 0x00)
}

/// UNIT ATTENTION, by its condition (SPC-4 4.5.6).
pub fn attention_sense(what: Attention) -> Sense
    ensures { result ≡ attention_sense what }
{
    let codes = what.additional_sense();
    plain(0x6, codes.asc, codes.ascq)
}

fn pointer_to(in_cdb: bool, pointer: Option<u16>) -> Extra
    ensures { result ≡ pointer_to in_cdb pointer }
{
    match pointer {
        None => Extra::None,
        Some(byte) => Extra::Pointer { in_cdb, byte },
    }
}

/// The sense data of a refused command: ILLEGAL REQUEST with its codes, and a pointer where a byte is at fault (SPC-4 4.5.6).
pub fn refusal_sense(why: Illegal) -> Sense
    ensures { result ≡ refusal_sense why }
{
    Sense {
        key: 0x5,
        asc: why.asc,
        ascq: why.ascq,
        extra: pointer_to(why.in_cdb, why.pointer),
    }
}
