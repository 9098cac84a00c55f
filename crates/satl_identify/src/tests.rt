use super::*;
use byteorder::{ByteOrder, LittleEndian};
use std::test::*;

// The words that are not 0 of a drive of 16,384 sectors that tells no more than what is read here.
const WORDS: [(u8, u16); 12] = [
    (49, 0x0300),
    (69, 0x4020),
    (75, 0x001F),
    (76, 0x0100),
    (77, 0x0040),
    (82, 0x0060),
    (83, 0x6400),
    (85, 0x0060),
    (100, 0x4000),
    (106, 0x6003),
    (169, 0x0001),
    (255, 0xD0A5),
];

fn set_word(bytes: &mut [u8; 512], place: u8, value: u16) {
    LittleEndian::write_u16(&mut bytes[2 * usize::from(place)..], value);
}

fn drive_data() -> [u8; 512] {
    let mut bytes = [0; 512];
    for (place, value) in WORDS.iter() {
        set_word(&mut bytes, *place, *value);
    }
    bytes
}

#[test]
fn identity_and_settings(rt: HostRuntime) {
    let bytes = drive_data();
    let identity = Identity {
        bytes,
        capacity: 16_384,
        exponent: 3,
        trim: true,
        queued_trim: true,
        cache: true,
        look: true,
        cache_on: true,
        look_on: true,
    };
    assert_eq!(rt; read_identity(&bytes), Ok(identity));
    assert_eq!(rt; identity_bytes(&identity, true, true), bytes);

    // The write cache off: 20h less in word 85, and so much more in the integrity byte.
    let mut off = bytes;
    set_word(&mut off, 85, 0x0040);
    set_word(&mut off, 255, 0xF0A5);
    assert_eq!(rt; identity_bytes(&identity, false, true), off);
}

#[test]
fn refusals(rt: HostRuntime) {
    // Words that are changed one after the other, from the last refusal to the first, and what is then answered.
    let changes = [
        (106, 0x5000, IdentityFault::NotBlock512),
        (103, 0x0001, IdentityFault::NoCapacity),
        (75, 0x001E, IdentityFault::NoNcq),
        (83, 0x5400, IdentityFault::NoLba48),
        (255, 0x01A5, IdentityFault::BadIntegrity),
        (0, 0x8000, IdentityFault::NotAta),
    ];
    let mut bytes = drive_data();
    set_word(&mut bytes, 255, 0);
    for (place, value, fault) in changes.iter() {
        set_word(&mut bytes, *place, *value);
        assert_eq!(rt; read_identity(&bytes), Err(*fault));
    }
    // Without bit 6 of word 77 a trim is not queued.
    let mut unqueued = drive_data();
    set_word(&mut unqueued, 255, 0);
    set_word(&mut unqueued, 77, 0xFFBF);
    let read = read_identity(&unqueued);
    assert_eq!(rt;
        read.map(|identity| (identity.trim, identity.queued_trim)),
        Ok((true, false))
    );
}
