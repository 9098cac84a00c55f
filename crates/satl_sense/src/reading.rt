// Reading sense data in the descriptor form.

ghost use Rattle.std.specs.Prelude.{◌≡◌, ◌≢◌, ◌+◌, ◌<◌, ◌≤◌, length, slice_index, take, Ok, IfOk, IfErr, MatchOption};
ghost use Rattle.satl_base.specs.Places.{places};
ghost use Rattle.satl_sense.specs.Fields.{ata_return_in, extra_in, sense_in};
ghost use Rattle.satl_sense.specs.Reading.{IsDescriptorForm, IsFirstFault};

use crate::codes::{ATA_SIZE, COMMAND_DATA_BIT, INFORMATION_SIZE, POINTER_SIZE, SENSE_KEY};
use crate::sense::{AtaReturn, Extra, Sense};
use crate::writing::sense_bytes;
use byteorder::{BigEndian, ByteOrder};

/// The first byte at which a text is no sense data in the descriptor form: its length where it ends early, and the first
/// byte past the end where it goes on (SPC-4 4.5.2).
#[derive(Clone, Copy, Debug, PartialEq, Eq)]
pub struct NotSense {
    /// Its place, counted in bytes from 0.
    pub byte: u16,
}

/// The first 22 bytes, the most that the form has, with zeros where the text ends.
fn padded(bytes: &[u8]) -> [u8; 22]
    ensures { result ≡ places 0 22 (slice_index bytes.now) }
{
    let mut text = [0u8; 22];
    let shown = bytes.len().min(22);
    text[..shown].copy_from_slice(&bytes[..shown]);
    text
}

fn ata_return_of(text: &[u8; 22]) -> AtaReturn
    ensures { result ≡ ata_return_in text.now }
{
    AtaReturn {
        extend: text[10] & 1 == 1,
        error: text[11],
        count: BigEndian::read_u16(&text[12..]),
        lba: BigEndian::read_u48(&[text[18], text[16], text[14], text[19], text[17], text[15]]),
        device: text[20],
        status: text[21],
    }
}

fn extra_of(text: &[u8; 22]) -> Extra
    ensures { result ≡ extra_in (slice_index text.now 7) text.now }
{
    match text[7] {
        INFORMATION_SIZE => Extra::Information(BigEndian::read_u64(&text[12..])),
        POINTER_SIZE => Extra::Pointer {
            in_cdb: text[12] >> COMMAND_DATA_BIT & 1 == 1,
            byte: BigEndian::read_u16(&text[13..]),
        },
        ATA_SIZE => Extra::Ata(ata_return_of(text)),
        _ => Extra::None,
    }
}

fn sense_of(text: &[u8; 22]) -> Sense
    ensures { result ≡ sense_in text.now }
{
    Sense {
        key: text[1] & SENSE_KEY,
        asc: text[2],
        ascq: text[3],
        extra: extra_of(text),
    }
}

/// What the fields of a text say, whatever its other bytes are.
fn told_by(bytes: &[u8]) -> Sense
    ensures { result ≡ sense_in bytes.now }
{
    sense_of(&padded(bytes))
}

/// The first place where a text differs from a form of at most 32 bytes, or one of them ends.
fn first_difference(text: &[u8], form: &[u8]) -> Option<u16>
    requires { length form.now ≤ 32 }
    ensures { MatchOption result (text.now ≡ form.now)
        (λ place. (take place text.now ≡ take place form.now) × (take (place + 1) text.now ≢ take (place + 1) form.now)) }
{
    for (place, byte) in form.iter().enumerate() {
        if place >= text.len() {
            return Some(place as u16);
        }
        if text[place] != *byte {
            return Some(place as u16);
        }
    }
    if text.len() > form.len() {
        return Some(form.len() as u16);
    }
    None
}

/// The sense data of a text in the descriptor form. `Err` has the first byte at which the text is none: the bytes before it
/// begin some sense data, and with it they begin none (SPC-4 4.5.2, SAT-3 12.2.2.6).
pub fn read_sense(bytes: &[u8]) -> Result<Sense, NotSense>
    ensures found { IfOk result (λ s. IsDescriptorForm bytes.now s) }
    ensures only { (s : Sense) → IsDescriptorForm bytes.now s → result ≡ Ok s }
    ensures fault { IfErr result (λ e. IsFirstFault bytes.now e.byte) }
{
    let sense = told_by(bytes);
    match first_difference(bytes, &sense_bytes(&sense, true)) {
        None => Ok(sense),
        Some(byte) => Err(NotSense { byte }),
    }
}
