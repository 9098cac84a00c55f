// Writing sense data.

ghost use Rattle.std.specs.Prelude.{◌≡◌, length, IsTrue, IsFalse};
ghost use Rattle.satl_sense.specs.Descriptor.{FitsForm, additional_length, descriptor_form, pointer_flags};
ghost use Rattle.satl_sense.specs.Reading.{IsDescriptorForm};
ghost use Rattle.satl_sense.specs.Fixed.{fixed_form, ata_flags};

use crate::codes::{
    ATA_LENGTH, ATA_SIZE, ATA_TYPE, COMMAND_DATA, COUNT_UPPER_NONZERO, DESCRIPTOR_CODE, EXTEND,
    FIXED_CODE, FIXED_LENGTH, INFORMATION_LENGTH, INFORMATION_SIZE, INFORMATION_TYPE,
    LBA_UPPER_NONZERO, POINTER_LENGTH, POINTER_SIZE, POINTER_TYPE, SKSV, VALID,
};
use crate::sense::{AtaReturn, Extra, Sense};
use satl_base::{SenseBytes, append};

fn pointer_flags(in_cdb: bool) -> u8
    ensures { result ≡ pointer_flags in_cdb }
{
    if in_cdb { SKSV | COMMAND_DATA } else { SKSV }
}

fn additional_length(extra: &Extra) -> u8
    ensures { result ≡ additional_length extra.now }
{
    match *extra {
        Extra::None => 0,
        Extra::Information(_) => INFORMATION_SIZE,
        Extra::Pointer { .. } => POINTER_SIZE,
        Extra::Ata(_) => ATA_SIZE,
    }
}

#[tactic(auto, unfolding(crate::specs::Descriptor::descriptor_form))]
fn descriptor_text(sense: &Sense) -> SenseBytes
    ensures { result.items ≡ descriptor_form sense.now }
{
    let mut text = SenseBytes::new();
    let length = additional_length(&sense.extra);
    // RESPONSE CODE, SENSE KEY, ADDITIONAL SENSE CODE and its qualifier, three reserved bytes, ADDITIONAL SENSE LENGTH.
    append(
        &mut text,
        &[
            DESCRIPTOR_CODE,
            sense.key,
            sense.asc,
            sense.ascq,
            0,
            0,
            0,
            length,
        ],
    );
    match sense.extra {
        Extra::None => {}
        Extra::Information(n) => {
            append(&mut text, &[INFORMATION_TYPE, INFORMATION_LENGTH, VALID, 0]);
            append(&mut text, &n.to_be_bytes()); // INFORMATION
        }
        Extra::Pointer { in_cdb, byte } => {
            let [high, low] = byte.to_be_bytes();
            append(&mut text, &[POINTER_TYPE, POINTER_LENGTH, 0, 0]);
            append(&mut text, &[pointer_flags(in_cdb), high, low, 0]); // SENSE KEY SPECIFIC
        }
        Extra::Ata(end) => {
            let [high, low] = end.count.to_be_bytes();
            let [_, _, l5, l4, l3, l2, l1, l0] = end.lba.to_be_bytes();
            append(&mut text, &[ATA_TYPE, ATA_LENGTH]);
            append(&mut text, &[u8::from(end.extend), end.error, high, low]); // EXTEND, ERROR, COUNT
            // LBA, the upper byte of each register before the lower one, DEVICE, STATUS.
            append(&mut text, &[l3, l0, l4, l1, l5, l2, end.device, end.status]);
        }
    }
    text
}

fn ata_flags(end: &AtaReturn) -> u8
    ensures { result ≡ ata_flags end.now }
{
    let extend = if end.extend { EXTEND } else { 0 };
    let count = if end.count >> 8 == 0 {
        0
    } else {
        COUNT_UPPER_NONZERO
    };
    let lba = if end.lba >> 24 & 0xFF_FFFF == 0 {
        0
    } else {
        LBA_UPPER_NONZERO
    };
    extend | count | lba
}

#[tactic(auto, unfolding(crate::specs::Fixed::fixed_form))]
fn fixed_text(sense: &Sense) -> [u8; 18]
    ensures { result ≡ fixed_form sense.now }
{
    let mut text = [0u8; 18];
    text[0] = FIXED_CODE; // RESPONSE CODE
    text[2] = sense.key; // SENSE KEY
    text[7] = FIXED_LENGTH; // ADDITIONAL SENSE LENGTH
    text[12] = sense.asc; // ADDITIONAL SENSE CODE
    text[13] = sense.ascq; // ADDITIONAL SENSE CODE QUALIFIER
    match sense.extra {
        Extra::None => {}
        Extra::Information(n) => {
            if n < 1 << 32 {
                text[0] = VALID | FIXED_CODE;
                text[3..7].copy_from_slice(&n.to_be_bytes()[4..]); // INFORMATION
            }
        }
        Extra::Pointer { in_cdb, byte } => {
            // SENSE KEY SPECIFIC: the flags, and FIELD POINTER.
            text[15] = pointer_flags(in_cdb);
            text[16..].copy_from_slice(&byte.to_be_bytes());
        }
        Extra::Ata(end) => {
            text[0] = VALID | FIXED_CODE;
            // INFORMATION: ERROR, STATUS, DEVICE and COUNT(7:0).
            text[3] = end.error;
            text[4] = end.status;
            text[5] = end.device;
            let [_, count] = end.count.to_be_bytes();
            text[6] = count;
            // COMMAND-SPECIFIC INFORMATION: the flags, and LBA(23:0).
            text[8] = ata_flags(&end);
            let [.., l2, l1, l0] = end.lba.to_be_bytes();
            text[9] = l0;
            text[10] = l1;
            text[11] = l2;
        }
    }
    text
}

/// The bytes of sense data, in the descriptor form or in the fixed form of 18 bytes. The descriptor form is read back by
/// `read_sense` where the numbers fit it: a key of at most Fh, an LBA below 2^48. The fixed form has INFORMATION of less than
/// 2^32 alone; what it has of an ATA Status Return is the profile's (SPC-4 4.5.2 and 4.5.3, SAT-3 12.2.2.6).
pub fn sense_bytes(sense: &Sense, descriptor: bool) -> SenseBytes
    ensures descriptor { IsTrue descriptor → result.items ≡ descriptor_form sense.now }
    ensures fixed { IsFalse descriptor → result.items ≡ fixed_form sense.now }
    ensures read_back { IsTrue descriptor → FitsForm sense.now → IsDescriptorForm result.items sense.now }
{
    if descriptor {
        return descriptor_text(sense);
    }
    let mut text = SenseBytes::new();
    append(&mut text, &fixed_text(sense));
    text
}
