// What a drive of 8,192 sectors says of itself.
ghost use Rattle.std.specs.Prelude.{◌≡◌};

use super::*;
use byteorder::{ByteOrder, LittleEndian};
use satl_identify::Identity;
use std::test::*;

// The words of its IDENTIFY DEVICE data that are looked at, beside the texts.
const WORDS: [(u8, u16); 7] = [
    (87, 0x4120),
    (106, 0x6003),
    (108, 0x5000),
    (111, 0x0001),
    (168, 0x0003),
    (169, 0x0001),
    (217, 0x0001),
];

// Page 83h, with and without a world wide name.
const NAMED: &[u8] =
    b"\x00\x83\x00\x54\x02\x01\x00\x44ATA     MODEL NCQ DISK                          SATL0000000000000001\x01\x03\x00\x08\x50\x00\x00\x00\x00\x00\x00\x01";

const UNNAMED: &[u8] =
    b"\x00\x83\x00\x48\x02\x01\x00\x44ATA     MODEL NCQ DISK                          SATL0000000000000001";

// What page 89h begins with.
const INFORMATION: &[u8] = b"\x00\x89\x02\x38\x00\x00\x00\x00SATL    SATL REPLAY     0001";

// Page B0h.
const LIMITS: [u8; 64] = [
    0x00, 0xB0, 0x00, 0x3C, 0x01, 0x00, 0x00, 0x00, 0x00, 0x00, 0x10, 0x00, 0x00, 0x00, 0x00, 0x00,
    0x00, 0x00, 0x00, 0x00, 0x00, 0x01, 0x00, 0x00, 0x00, 0x00, 0x00, 0x40, 0x00, 0x00, 0x00, 0x00,
    0x00, 0x00, 0x00, 0x00, 0x00, 0x00, 0x00, 0x00, 0x00, 0x01, 0x00, 0x00, 0x00, 0x00, 0x00, 0x00,
    0x00, 0x00, 0x00, 0x00, 0x00, 0x00, 0x00, 0x00, 0x00, 0x00, 0x00, 0x00, 0x00, 0x00, 0x00, 0x00,
];

// Page B1h.
const CHARACTERISTICS: [u8; 64] = [
    0x00, 0xB1, 0x00, 0x3C, 0x00, 0x01, 0x00, 0x03, 0x00, 0x00, 0x00, 0x00, 0x00, 0x00, 0x00, 0x00,
    0x00, 0x00, 0x00, 0x00, 0x00, 0x00, 0x00, 0x00, 0x00, 0x00, 0x00, 0x00, 0x00, 0x00, 0x00, 0x00,
    0x00, 0x00, 0x00, 0x00, 0x00, 0x00, 0x00, 0x00, 0x00, 0x00, 0x00, 0x00, 0x00, 0x00, 0x00, 0x00,
    0x00, 0x00, 0x00, 0x00, 0x00, 0x00, 0x00, 0x00, 0x00, 0x00, 0x00, 0x00, 0x00, 0x00, 0x00, 0x00,
];

fn drive_identity() -> Identity
    ensures { result.capacity ≡ 8192 }
{
    let mut bytes = [0; 512];
    // The two characters of each word stand the other way round.
    bytes[20..40].copy_from_slice(b"ASLT0000000000000010");
    bytes[46..54].copy_from_slice(b"WF102030");
    bytes[54..94].copy_from_slice(b"OMED LCN QIDKS                          ");
    for (place, value) in WORDS {
        LittleEndian::write_u16(&mut bytes[2 * usize::from(place)..], value);
    }
    Identity {
        bytes,
        capacity: 8_192,
        exponent: 3,
        trim: true,
        queued_trim: true,
        cache: true,
        look: true,
        cache_on: true,
        look_on: true,
    }
}

fn is_page(page: Option<VitalPage>, bytes: &[u8]) -> bool {
    match page {
        Some(page) => page.as_slice() == bytes,
        None => false,
    }
}

// Whether a page has these bytes from a place on.
fn shows(page: &Option<VitalPage>, place: usize, bytes: &[u8]) -> bool {
    match page {
        Some(page) => place <= page.len() && page[place..].starts_with(bytes),
        None => false,
    }
}

#[test]
fn pages(rt: HostRuntime) {
    let identity = drive_identity();
    assert!(rt;
        is_page(
            vpd(&identity, 0x00),
            b"\x00\x00\x00\x07\x00\x80\x83\x89\xB0\xB1\xB2"
        )
    );
    assert!(rt;
        is_page(
            vpd(&identity, 0x80),
            b"\x00\x80\x00\x14SATL0000000000000001"
        )
    );
    assert!(rt; is_page(vpd(&identity, 0x83), NAMED));
    assert!(rt; is_page(vpd(&identity, 0xB0), &LIMITS));
    assert!(rt; is_page(vpd(&identity, 0xB1), &CHARACTERISTICS));
    assert!(rt; is_page(vpd(&identity, 0xB2), b"\x00\xB2\x00\x04\x00\xE4\x00\x00"));
    let information = vpd(&identity, 0x89);
    assert!(rt; shows(&information, 0, INFORMATION));
    assert!(rt; shows(&information, 56, b"\xEC\x00\x00\x00"));
    assert!(rt; shows(&information, 60, &identity.bytes));
    for code in [0x01, 0x81, 0x8A, 0xB3, 0xFF].iter() {
        assert_eq!(rt; vpd(&identity, *code), None);
    }
    // Without a world wide name, and without trim.
    let mut plain = identity;
    plain.trim = false;
    LittleEndian::write_u16(&mut plain.bytes[2 * 87..], 0x4020);
    assert!(rt; is_page(vpd(&plain, 0x83), UNNAMED));
    assert!(rt; is_page(vpd(&plain, 0xB2), b"\x00\xB2\x00\x04\x00\x00\x00\x00"));
}

#[test]
fn inquiry_capacity_and_luns(rt: HostRuntime) {
    let identity = drive_identity();
    let standard = [
        0x00, 0x00, 0x06, 0x02, 0x1F, 0x00, 0x00, 0x02, 0x41, 0x54, 0x41, 0x20, 0x20, 0x20, 0x20,
        0x20, 0x4D, 0x4F, 0x44, 0x45, 0x4C, 0x20, 0x4E, 0x43, 0x51, 0x20, 0x44, 0x49, 0x53, 0x4B,
        0x20, 0x20, 0x30, 0x32, 0x30, 0x33,
    ];
    assert_eq!(rt; inquiry(&identity, true), standard);
    assert_eq!(rt; inquiry(&identity, false)[0], 0x7F);
    // Firmware characters 5 to 8 are spaces: the first four show.
    let mut short = identity;
    LittleEndian::write_u16(&mut short.bytes[2 * 25..], 0x2020);
    LittleEndian::write_u16(&mut short.bytes[2 * 26..], 0x2020);
    assert_eq!(rt; &inquiry(&short, true)[32..], &b"FW01"[..]);
    let mut most = identity;
    most.capacity = 0x1_0000_0001;
    assert_eq!(rt; capacity10(&identity), [0, 0, 0x1F, 0xFF, 0, 0, 0x02, 0]);
    assert_eq!(rt; capacity10(&most), [0xFF, 0xFF, 0xFF, 0xFF, 0, 0, 0x02, 0]);
    let mut long = [0; 32];
    long[6] = 0x1F;
    long[7] = 0xFF;
    long[10] = 0x02;
    long[13] = 0x03;
    long[14] = 0xC0;
    assert_eq!(rt; capacity16(&identity), long);
    let one = [0, 0, 0, 8, 0, 0, 0, 0, 0, 0, 0, 0, 0, 0, 0, 0];
    assert_eq!(rt; luns(0).as_slice(), &one[..]);
    assert_eq!(rt; luns(2).as_slice(), &one[..]);
    assert_eq!(rt; luns(1).as_slice(), &one[8..]);
}
