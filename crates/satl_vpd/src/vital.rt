// Vital product data, one function a page.
ghost use Rattle.std.specs.Prelude.{◌≡◌, ◌↔◌, ◌∷◌, ◌++◌, length, IsSome, IsTrue};
ghost use Rattle.std.specs.Int.{bytes_high_first};
ghost use Rattle.std.specs.Option.{option_map};
ghost use Rattle.satl_base.specs.Lists.{is_in};
ghost use Rattle.satl_vpd.specs.Vital.{ata_information, block_characteristics, block_limits, has_world_wide_name, identification, page_codes, provisioning, serial_number, vpd_page, vpd_page_bytes};

use crate::text::{ATA_VENDOR, characters};
use arrayvec::ArrayVec;
use byteorder::{BigEndian, ByteOrder};
use satl_base::{MOST_COVERED, MOST_MOVED, MOST_RANGES, append};
use satl_cdb::vital_page;
use satl_identify::words::{
    ENABLED_LAST, FORM_FACTOR, MODEL, ROTATION_RATE, SERIAL, WORLD_WIDE_NAME,
};
use satl_identify::{Identity, bit_at, is_valid, word_at};
use satl_regs::IDENTIFY_DEVICE;

/// CODE SET of a designation descriptor: ASCII text (SPC-4, Device Identification).
const ASCII: u8 = 0x02;

/// CODE SET: bytes of any value.
const BINARY: u8 = 0x01;

/// DESIGNATOR TYPE: T10 vendor identification.
const T10_VENDOR: u8 = 0x01;

/// DESIGNATOR TYPE: NAA.
const NAA: u8 = 0x03;

/// Bit 8 of word 87 of IDENTIFY DEVICE data: there is a world wide name (ACS-3).
const HAS_NAME: u8 = 8;

/// Bits 3:0 of word 168 of IDENTIFY DEVICE data: the form factor (ACS-3).
const FORM_FACTOR_BITS: u16 = 0x0F;

/// WSNZ: a WRITE SAME of no blocks is refused (SBC-3, Block Limits).
const WSNZ: u8 = 0x01;

/// LBPU: there is UNMAP (SBC-3, Logical Block Provisioning).
const LBPU: u8 = 0x80;

/// LBPWS: WRITE SAME (16) unmaps.
const LBPWS: u8 = 0x40;

/// LBPWS10: WRITE SAME (10) unmaps.
const LBPWS10: u8 = 0x20;

/// LBPRZ: a block that was unmapped reads as zeros.
const LBPRZ: u8 = 0x04;

/// A page of vital product data, at most 572 bytes, with room for 576 (SPC-4, Vital product data).
pub type VitalPage = ArrayVec<u8, 576>;

/// The head of a page: its code, and the number of bytes after the head.
fn begun(code: u8, rest: u16) -> VitalPage
    ensures { result.items ≡ 0x00 ∷ code ∷ bytes_high_first 2 rest }
{
    let [high, low] = rest.to_be_bytes();
    let mut page = VitalPage::new();
    append(&mut page, &[0x00, code, high, low]); // PERIPHERAL DEVICE TYPE, PAGE CODE, PAGE LENGTH
    page
}

/// SPC-4, Supported VPD Pages.
fn supported_pages() -> VitalPage
    ensures { result.items ≡ 0x00 ∷ 0x00 ∷ (bytes_high_first 2 (length page_codes) ++ page_codes) }
{
    let mut page = begun(vital_page::SUPPORTED_PAGES, 7);
    append(
        &mut page,
        &[
            vital_page::SUPPORTED_PAGES,
            vital_page::SERIAL_NUMBER,
            vital_page::IDENTIFICATION,
            vital_page::ATA_INFORMATION,
            vital_page::BLOCK_LIMITS,
            vital_page::CHARACTERISTICS,
            vital_page::PROVISIONING,
        ],
    );
    page
}

/// SPC-4, Unit Serial Number: the drive's.
fn serial_number(identity: &Identity) -> VitalPage
    ensures { result.items ≡ vpd_page_bytes serial_number identity.now }
{
    let mut page = begun(vital_page::SERIAL_NUMBER, 0x14);
    append(&mut page, &characters(&identity.bytes, SERIAL, SERIAL + 9)); // PRODUCT SERIAL NUMBER
    page
}

/// Whether the drive has a world wide name.
fn has_world_wide_name(bytes: &[u8; 512]) -> bool
    ensures { result ≡ has_world_wide_name bytes.now }
{
    is_valid(bytes, ENABLED_LAST) && bit_at(bytes, ENABLED_LAST, HAS_NAME)
}

fn identification_length(identity: &Identity) -> u16
    ensures { result ≡ length (identification.rest identity.now) }
{
    if has_world_wide_name(&identity.bytes) {
        0x54
    } else {
        0x48
    }
}

/// SPC-4, Device Identification: vendor, model and serial number, and the world wide name where there is one.
fn identification(identity: &Identity) -> VitalPage
    ensures { result.items ≡ vpd_page_bytes identification identity.now }
{
    let mut page = begun(vital_page::IDENTIFICATION, identification_length(identity));
    append(&mut page, &[ASCII, T10_VENDOR, 0x00, 0x44]); // CODE SET, DESIGNATOR TYPE, DESIGNATOR LENGTH
    append(&mut page, &ATA_VENDOR); // T10 VENDOR IDENTIFICATION
    append(&mut page, &characters(&identity.bytes, MODEL, MODEL + 19)); // VENDOR SPECIFIC IDENTIFIER: model
    append(&mut page, &characters(&identity.bytes, SERIAL, SERIAL + 9)); // and serial number
    if has_world_wide_name(&identity.bytes) {
        append(&mut page, &[BINARY, NAA, 0x00, 0x08]); // CODE SET, DESIGNATOR TYPE, DESIGNATOR LENGTH
        append(
            &mut page,
            &characters(&identity.bytes, WORLD_WIDE_NAME, WORLD_WIDE_NAME + 3),
        ); // DESIGNATOR
    }
    page
}

/// SAT-3, ATA Information: names of this layer, and the IDENTIFY DEVICE data.
fn ata_information(identity: &Identity) -> VitalPage
    ensures { result.items ≡ vpd_page_bytes ata_information identity.now }
{
    let mut page = begun(vital_page::ATA_INFORMATION, 0x0238);
    append(&mut page, &[0; 4]); // reserved
    append(&mut page, b"SATL    "); // SAT VENDOR IDENTIFICATION
    append(&mut page, b"SATL REPLAY     "); // SAT PRODUCT IDENTIFICATION
    append(&mut page, b"0001"); // SAT PRODUCT REVISION LEVEL
    append(&mut page, &[0; 20]); // ATA DEVICE SIGNATURE
    append(&mut page, &[IDENTIFY_DEVICE, 0, 0, 0]); // COMMAND CODE
    append(&mut page, &identity.bytes); // ATA IDENTIFY DEVICE DATA
    page
}

/// SBC-3, Block Limits.
fn block_limits(identity: &Identity) -> VitalPage
    ensures { result.items ≡ vpd_page_bytes block_limits identity.now }
{
    let mut bytes = [0; 64];
    bytes[4] = WSNZ;
    BigEndian::write_u32(&mut bytes[8..], MOST_MOVED); // MAXIMUM TRANSFER LENGTH
    if identity.trim {
        BigEndian::write_u32(&mut bytes[20..], MOST_COVERED); // MAXIMUM UNMAP LBA COUNT
        BigEndian::write_u32(&mut bytes[24..], MOST_RANGES as u32); // MAXIMUM UNMAP BLOCK DESCRIPTOR COUNT
    }
    BigEndian::write_u64(&mut bytes[36..], u64::from(MOST_COVERED)); // MAXIMUM WRITE SAME LENGTH
    let mut page = begun(vital_page::BLOCK_LIMITS, 0x3C);
    append(&mut page, &bytes[4..]);
    page
}

/// SBC-3, Block Device Characteristics.
fn block_characteristics(identity: &Identity) -> VitalPage
    ensures { result.items ≡ vpd_page_bytes block_characteristics identity.now }
{
    let rotation_rate = word_at(&identity.bytes, ROTATION_RATE);
    let form_factor = word_at(&identity.bytes, FORM_FACTOR) & FORM_FACTOR_BITS;
    let mut bytes = [0; 64];
    bytes[4..6].copy_from_slice(&rotation_rate.to_be_bytes()); // MEDIUM ROTATION RATE
    bytes[7] = form_factor as u8; // NOMINAL FORM FACTOR
    let mut page = begun(vital_page::CHARACTERISTICS, 0x3C);
    append(&mut page, &bytes[4..]);
    page
}

/// SBC-3, Logical Block Provisioning.
fn provisioning(identity: &Identity) -> VitalPage
    ensures { result.items ≡ vpd_page_bytes provisioning identity.now }
{
    let mut page = begun(vital_page::PROVISIONING, 0x04);
    let flags = if identity.trim {
        LBPU | LBPWS | LBPWS10 | LBPRZ
    } else {
        0x00
    };
    append(&mut page, &[0x00, flags, 0x00, 0x00]); // THRESHOLD EXPONENT, the flags, PROVISIONING TYPE
    page
}

/// A page of vital product data by its code (SPC-4, Vital product data parameters). None exactly for a page that is not
/// listed: 00h, 80h, 83h, 89h, B0h, B1h and B2h are.
#[tactic(auto, unfolding(crate::specs::Vital::vpd_page))]
pub fn vpd(identity: &Identity, page: u8) -> Option<VitalPage>
    ensures value { option_map (λ text. text.items) result ≡ vpd_page page identity.now }
    ensures variant { IsSome result ↔ IsTrue (is_in page page_codes) }
{
    match page {
        vital_page::SUPPORTED_PAGES => Some(supported_pages()),
        vital_page::SERIAL_NUMBER => Some(serial_number(identity)),
        vital_page::IDENTIFICATION => Some(identification(identity)),
        vital_page::ATA_INFORMATION => Some(ata_information(identity)),
        vital_page::BLOCK_LIMITS => Some(block_limits(identity)),
        vital_page::CHARACTERISTICS => Some(block_characteristics(identity)),
        vital_page::PROVISIONING => Some(provisioning(identity)),
        _ => None,
    }
}
