// Mode data and MODE SELECT lists from outside, and what they mean.

use super::*;
use satl_base::{Block, NoMemory, Pages};
use satl_cdb::Illegal;
use satl_identify::Identity;
use std::alloc::Global;
use std::test::*;

fn identity(cache: bool, look: bool) -> Identity {
    Identity {
        bytes: [0; 512],
        capacity: 8_192,
        exponent: 3,
        trim: true,
        queued_trim: true,
        cache,
        look,
        cache_on: cache,
        look_on: look,
    }
}

fn modes(wce: bool, dra: bool, d_sense: bool) -> Modes {
    Modes { wce, dra, d_sense }
}

/// MODE SENSE (6), or MODE SENSE (10) with LLBAA.
fn asked(ten: bool, no_descriptor: bool, control: u8, page: u8) -> ModeSense {
    ModeSense {
        ten,
        long_lba: ten,
        no_descriptor,
        control,
        page,
    }
}

#[test]
fn mode_data(rt: HostRuntime) {
    let cases: [(Modes, bool, bool, u8, u8, &[u8]); 5] = [
        // All pages, behind the short descriptor.
        (
            modes(true, false, false),
            false,
            false,
            0,
            0x3F,
            &[
                0x43, 0, 0x10, 8, // header
                0, 0, 0x20, 0, 0, 0, 2, 0, // descriptor
                1, 0x0A, 0x80, 0, 0, 0, 0, 0, 0, 0, 0, 0, // error recovery
                8, 0x12, 4, 0, 0, 0, 0, 0, 0, 0, 0, 0, 0, 0, 0, 0, 0, 0, 0, 0, // caching
                0x0A, 0x0A, 0, 0, 0, 0, 0, 0, 0, 0, 0, 0, // control
                0x1C, 0x0A, 0, 0, 0, 0, 0, 0, 0, 0, 0, 0, // exceptions
            ],
        ),
        (
            modes(true, false, false),
            false,
            false,
            0,
            0x08,
            &[
                0x1F, 0, 0x10, 8, 0, 0, 0x20, 0, 0, 0, 2, 0, 8, 0x12, 4, 0, 0, 0, 0, 0, 0, 0, 0, 0,
                0, 0, 0, 0, 0, 0, 0, 0,
            ],
        ),
        // Without a descriptor.
        (
            modes(false, false, true),
            false,
            true,
            0,
            0x0A,
            &[0x0F, 0, 0x10, 0, 0x0A, 0x0A, 4, 0, 0, 0, 0, 0, 0, 0, 0, 0],
        ),
        // The bits that can change, behind the long descriptor.
        (
            modes(false, true, true),
            true,
            false,
            1,
            0x08,
            &[
                0, 0x2A, 0, 0x10, 1, 0, 0, 0x10, // header
                0, 0, 0, 0, 0, 0, 0x20, 0, 0, 0, 0, 0, 0, 0, 2, 0, // descriptor
                8, 0x12, 4, 0, 0, 0, 0, 0, 0, 0, 0, 0, 0x20, 0, 0, 0, 0, 0, 0, 0, // caching
            ],
        ),
        // The default values.
        (
            modes(false, true, true),
            true,
            true,
            2,
            0x08,
            &[
                0, 0x1A, 0, 0x10, 0, 0, 0, 0, 8, 0x12, 4, 0, 0, 0, 0, 0, 0, 0, 0, 0, 0, 0, 0, 0, 0,
                0, 0, 0,
            ],
        ),
    ];
    for (current, ten, no_descriptor, control, page, wanted) in cases.iter() {
        let asked = asked(*ten, *no_descriptor, *control, *page);
        let text = mode_sense(&identity(true, true), current, &asked);
        assert_eq!(rt; text.as_slice(), *wanted);
    }
    // A drive without a write cache and without look-ahead shows that they can't change.
    let text = mode_sense(
        &identity(false, false),
        &modes(false, true, false),
        &asked(false, true, 1, 0x08),
    );
    let wanted: &[u8] = &[
        0x17, 0, 0x10, 0, 8, 0x12, 0, 0, 0, 0, 0, 0, 0, 0, 0, 0, 0, 0, 0, 0, 0, 0, 0, 0,
    ];
    assert_eq!(rt; text.as_slice(), wanted);
}

#[test]
fn select_lists(rt: HostRuntime) {
    let accepted: [(&[u8], u16, bool, Modes); 6] = [
        (&[], 0, false, modes(true, false, false)),
        (&[0, 0, 0, 0], 4, false, modes(true, false, false)),
        // D_SENSE alone, also with PS.
        (
            &[0, 0, 0, 0, 0x0A, 0x0A, 4],
            16,
            false,
            modes(true, false, true),
        ),
        (
            &[0, 0, 0, 0, 0x8A, 0x0A, 4],
            16,
            false,
            modes(true, false, true),
        ),
        // The write cache off.
        (
            &[0, 0, 0, 0, 0, 0, 0, 0, 8, 0x12],
            28,
            true,
            modes(false, false, false),
        ),
        // The long descriptor with its capacity, and two pages of which the later counts.
        (
            &[
                0, 0, 0, 0, 1, 0, 0, 16, 0, 0, 0, 0, 0, 0, 0x20, 0, 0, 0, 0, 0, 0, 0, 2, 0, 0x0A,
                0x0A, 4, 0, 0, 0, 0, 0, 0, 0, 0, 0, 0x0A, 0x0A,
            ],
            48,
            true,
            modes(true, false, false),
        ),
    ];
    for (bytes, length, ten, wanted) in accepted.iter() {
        let list = list_of(bytes, rt.alloc()).expect(&rt, "memory");
        let read = read(&list, *length, *ten);
        assert_eq!(rt; read, Some(Ok(*wanted)));
    }

    let short = Illegal::list_length_error();
    let refused: [(&[u8], u16, bool, Illegal); 11] = [
        (&[], 3, false, short),
        (&[0, 0, 0, 4], 16, false, Illegal::invalid_list_field(3)),
        // The long descriptor without LONGLBA.
        (
            &[0, 0, 0, 0, 0, 0, 0, 16],
            24,
            true,
            Illegal::invalid_list_field(6),
        ),
        (&[0, 0, 0, 8], 11, false, short),
        // Another number of blocks, and another block length.
        (
            &[0, 0, 0, 8, 0, 0, 0x20, 1],
            12,
            false,
            Illegal::invalid_list_field(4),
        ),
        (
            &[0, 0, 0, 8, 0, 0, 0x20, 0, 0, 0, 2, 1],
            12,
            false,
            Illegal::invalid_list_field(9),
        ),
        (&[0, 0, 0, 0, 0x0A], 5, false, short),
        (
            &[0, 0, 0, 0, 0x02, 0x0A],
            16,
            false,
            Illegal::invalid_list_field(4),
        ),
        (
            &[0, 0, 0, 0, 0x0A, 0x0B],
            17,
            false,
            Illegal::invalid_list_field(5),
        ),
        (&[0, 0, 0, 0, 0x0A, 0x0A], 15, false, short),
        // A bit that can't change, in the second of two pages.
        (
            &[
                0, 0, 0, 0, 0x0A, 0x0A, 4, 0, 0, 0, 0, 0, 0, 0, 0, 0, 1, 0x0A, 0x80, 1,
            ],
            28,
            false,
            Illegal::invalid_list_field(19),
        ),
    ];
    for (bytes, length, ten, wanted) in refused.iter() {
        let list = list_of(bytes, rt.alloc()).expect(&rt, "memory");
        let read = read(&list, *length, *ten);
        assert_eq!(rt; read, Some(Err(*wanted)));
    }
}

/// A list of one block that begins with these bytes.
fn list_of(bytes: &[u8], alloc: Global) -> Result<Pages, NoMemory> {
    let mut block = Block::zero();
    for (place, byte) in bytes.iter().enumerate() {
        if place < 512 {
            block.bytes[place] = *byte;
        }
    }
    let mut list = Pages::zeroed(alloc, 1)?;
    if list.blocks() > 0 {
        list.set_block(0, &block);
    }
    Ok(list)
}

/// What a list of one block says, on a drive whose write cache and look-ahead are on.
fn read(list: &Pages, length: u16, ten: bool) -> Option<Result<Modes, Illegal>> {
    if list.blocks() != 1 || length > 512 {
        return None;
    }
    Some(read_select(
        &identity(true, true),
        &modes(true, false, false),
        list,
        length,
        ten,
    ))
}
