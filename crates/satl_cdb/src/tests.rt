// Command descriptor blocks and parameter lists from outside, and what they mean.

use super::*;
use satl_base::{Block, Pages, Range};
use std::test::*;

/// A command descriptor block with zeros behind it.
fn padded(front: &[u8]) -> [u8; 16] {
    let count = front.len().min(16);
    let mut cdb = [0; 16];
    cdb[..count].copy_from_slice(&front[..count]);
    cdb
}

#[test]
fn commands(rt: HostRuntime) {
    let cases: [(&[u8], Command); 14] = [
        (
            &[0x08],
            Command::Read {
                form: Form::Six,
                lba: 0,
                count: 256,
                fua: false,
            },
        ),
        (
            &[0x28, 0, 0, 0, 0, 1, 0, 0, 8],
            Command::Read {
                form: Form::Ten,
                lba: 1,
                count: 8,
                fua: false,
            },
        ),
        (
            &[0x2A, 8, 0, 0, 0x1F, 0xFF, 0, 0, 2],
            Command::Write {
                form: Form::Ten,
                lba: 0x1FFF,
                count: 2,
                fua: true,
            },
        ),
        (
            &[0x2F, 2, 0, 0, 0, 0, 0, 0, 1],
            Command::Verify {
                form: Form::Ten,
                lba: 0,
                count: 1,
                compare: true,
            },
        ),
        (
            &[0x35],
            Command::Flush {
                form: Form::Ten,
                lba: 0,
                count: 0,
            },
        ),
        (
            &[0x41, 0, 0, 0, 0, 100, 0, 0, 130],
            Command::WriteSame {
                form: Form::Ten,
                lba: 100,
                count: 130,
                unmap: false,
            },
        ),
        (
            &[0x42, 0, 0, 0, 0, 0, 0, 4, 8],
            Command::Unmap { length: 1032 },
        ),
        (
            &[0x55, 0x10, 0, 0, 0, 0, 0, 0, 0x1C],
            Command::ModeSelect {
                ten: true,
                length: 28,
            },
        ),
        (
            &[0x12, 1, 0x80, 0, 0xFF],
            Command::Inquiry {
                page: Some(0x80),
                alloc: 255,
            },
        ),
        (
            &[0x12, 0, 0, 0, 36],
            Command::Inquiry {
                page: None,
                alloc: 36,
            },
        ),
        (
            &[0x03, 1, 0, 0, 0xFC],
            Command::RequestSense {
                descriptor: true,
                alloc: 252,
            },
        ),
        (
            &[0x1A, 0, 0x3F, 0, 0xFF],
            Command::ModeSense {
                ten: false,
                long_lba: false,
                no_descriptor: false,
                control: 0,
                page: 0x3F,
                alloc: 255,
            },
        ),
        (
            &[0x9E, 0x10, 0, 0, 0, 0, 0, 0, 0, 0, 0, 0, 0, 32],
            Command::ReadCapacity16 { alloc: 32 },
        ),
        (
            &[0x1B, 0, 0, 0, 1],
            Command::StartStop {
                start: true,
                no_flush: false,
            },
        ),
    ];
    for (front, command) in cases.iter() {
        let cdb = padded(front);
        assert_eq!(rt; read_cdb(&cdb, true), Ok(*command));
        assert_eq!(rt; write_cdb(command), cdb);
    }
    let refused: [(&[u8], bool, u8, Option<u16>); 8] = [
        (&[0xFF], true, 0x20, None),
        (&[0x28, 0x20, 0, 0, 0, 0, 0, 0, 1], true, 0x24, Some(1)),
        (&[0x2A, 0, 0, 0, 0, 0, 0, 0x10, 1], true, 0x24, Some(7)),
        (&[0x41], true, 0x24, Some(7)),
        (&[0x12, 0, 0x80, 0, 0xFF], true, 0x24, Some(2)),
        (&[0x1A, 0, 0xC1, 1], true, 0x39, None),
        (&[0x42], false, 0x20, None),
        (
            &[0x93, 8, 0, 0, 0, 0, 0, 0, 0, 0, 0, 0, 0, 1],
            false,
            0x24,
            Some(1),
        ),
    ];
    for (front, trim, asc, pointer) in refused.iter() {
        let illegal = Illegal {
            asc: *asc,
            ascq: 0,
            pointer: *pointer,
            in_cdb: true,
        };
        assert_eq!(rt; read_cdb(&padded(front), *trim), Err(illegal));
    }
}

#[test]
fn unmap_lists(rt: HostRuntime) {
    let range = Range { lba: 16, count: 4 };
    let cases: [(&[u8], u16, Result<usize, Illegal>); 7] = [
        (&[0, 6, 0, 0], 8, Ok(0)),
        (
            &[
                0, 22, 0, 16, 0, 0, 0, 0, 0, 0, 0, 0, 0, 0, 0, 16, 0, 0, 0, 4,
            ],
            24,
            Ok(1),
        ),
        (
            &[
                0, 22, 0, 31, 0, 0, 0, 0, 0, 0, 0, 0, 0, 0, 0, 16, 0, 0, 0, 4,
            ],
            39,
            Ok(1),
        ),
        (
            &[0, 22, 0, 16, 0, 0, 0, 0],
            23,
            Err(Illegal::list_length_error()),
        ),
        (
            &[4, 22, 4, 16, 0, 0, 0, 0],
            1048,
            Err(Illegal::invalid_list_field(2)),
        ),
        (
            &[0, 22, 0, 16, 0, 0, 0, 0, 0, 1, 0, 0, 0, 0, 0, 0, 0, 0, 0, 1],
            24,
            Err(Illegal::list_out_of_range()),
        ),
        (
            &[
                0, 22, 0, 16, 0, 0, 0, 0, 0, 0, 0, 0, 0, 0, 0, 16, 0, 1, 0, 1,
            ],
            24,
            Err(Illegal::invalid_list_field(16)),
        ),
    ];
    for (front, list_length, wanted) in cases.iter() {
        let mut block = Block::zero();
        for (place, byte) in front.iter().enumerate() {
            if place < 512 {
                block.bytes[place] = *byte;
            }
        }
        let mut list = Pages::zeroed(rt.alloc(), 3).expect(&rt, "memory");
        list.set_block(0, &block);
        if *list_length >= 8 && *list_length <= 1536 {
            let read = read_unmap_list(&list, *list_length, 1 << 32);
            if let Ok(ranges) = &read {
                for found in ranges.iter() {
                    assert_eq!(rt; *found, range);
                }
            }
            assert_eq!(rt; read.map(|ranges| ranges.len()), *wanted);
        }
    }
}
