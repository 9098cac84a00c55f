// Sense data from outside, and their bytes.

use super::*;
use std::test::*;

fn sense(key: u8, asc: u8, ascq: u8, extra: Extra) -> Sense {
    Sense {
        key,
        asc,
        ascq,
        extra,
    }
}

#[test]
fn forms(rt: HostRuntime) {
    let end = AtaReturn {
        extend: false,
        error: 0,
        count: 0,
        lba: 0,
        device: 0,
        status: 0x40,
    };
    let failed = AtaReturn {
        extend: true,
        error: 0x10,
        count: 0x0102,
        lba: 0x0605_0403_0201,
        device: 0xE0,
        status: 0x51,
    };
    let cases: [(Sense, bool, &[u8]); 12] = [
        (
            sense(0, 0, 0, Extra::None),
            false,
            &[0x70, 0, 0, 0, 0, 0, 0, 0x0A, 0, 0, 0, 0, 0, 0, 0, 0, 0, 0],
        ),
        (
            sense(0, 0, 0, Extra::None),
            true,
            &[0x72, 0, 0, 0, 0, 0, 0, 0],
        ),
        (
            sense(5, 0x20, 0, Extra::None),
            false,
            &[
                0x70, 0, 5, 0, 0, 0, 0, 0x0A, 0, 0, 0, 0, 0x20, 0, 0, 0, 0, 0,
            ],
        ),
        (
            sense(
                5,
                0x24,
                0,
                Extra::Pointer {
                    in_cdb: true,
                    byte: 1,
                },
            ),
            false,
            &[
                0x70, 0, 5, 0, 0, 0, 0, 0x0A, 0, 0, 0, 0, 0x24, 0, 0, 0xC0, 0, 1,
            ],
        ),
        (
            sense(
                5,
                0x24,
                0,
                Extra::Pointer {
                    in_cdb: true,
                    byte: 1,
                },
            ),
            true,
            &[0x72, 5, 0x24, 0, 0, 0, 0, 8, 2, 6, 0, 0, 0xC0, 0, 1, 0],
        ),
        (
            sense(
                5,
                0x26,
                0,
                Extra::Pointer {
                    in_cdb: false,
                    byte: 2,
                },
            ),
            false,
            &[
                0x70, 0, 5, 0, 0, 0, 0, 0x0A, 0, 0, 0, 0, 0x26, 0, 0, 0x80, 0, 2,
            ],
        ),
        (
            sense(3, 0x11, 0, Extra::Information(5)),
            false,
            &[
                0xF0, 0, 3, 0, 0, 0, 5, 0x0A, 0, 0, 0, 0, 0x11, 0, 0, 0, 0, 0,
            ],
        ),
        (
            sense(3, 0x11, 0, Extra::Information(5)),
            true,
            &[
                0x72, 3, 0x11, 0, 0, 0, 0, 0x0C, 0, 0x0A, 0x80, 0, 0, 0, 0, 0, 0, 0, 0, 5,
            ],
        ),
        (
            sense(3, 0x11, 0, Extra::Information(1 << 32)),
            false,
            &[
                0x70, 0, 3, 0, 0, 0, 0, 0x0A, 0, 0, 0, 0, 0x11, 0, 0, 0, 0, 0,
            ],
        ),
        (
            sense(1, 0, 0x1D, Extra::Ata(end)),
            true,
            &[
                0x72, 1, 0, 0x1D, 0, 0, 0, 0x0E, 9, 0x0C, 0, 0, 0, 0, 0, 0, 0, 0, 0, 0, 0, 0x40,
            ],
        ),
        (
            sense(1, 0, 0x1D, Extra::Ata(end)),
            false,
            &[
                0xF0, 0, 1, 0, 0x40, 0, 0, 0x0A, 0, 0, 0, 0, 0, 0x1D, 0, 0, 0, 0,
            ],
        ),
        (
            sense(5, 0x21, 0, Extra::Ata(failed)),
            true,
            &[
                0x72, 5, 0x21, 0, 0, 0, 0, 0x0E, 9, 0x0C, 1, 0x10, 1, 2, 4, 1, 5, 2, 6, 3, 0xE0,
                0x51,
            ],
        ),
    ];
    for (sense, descriptor, wanted) in cases.iter() {
        let bytes = sense_bytes(sense, *descriptor);
        assert_eq!(rt; bytes.as_slice(), *wanted);
        if *descriptor {
            assert_eq!(rt; read_sense(wanted), Ok(*sense));
        }
    }
}

#[test]
fn faults(rt: HostRuntime) {
    let cases: [(&[u8], u16); 9] = [
        (&[], 0),
        (&[0x70, 0, 5], 0),
        (&[0x72, 0x10], 1),
        (&[0x72, 5, 0x24, 0, 1], 4),
        (&[0x72, 5, 0x24, 0, 0, 0, 0, 4], 7),
        (&[0x72, 5, 0x24, 0, 0, 0, 0], 7),
        (&[0x72, 0, 0, 0, 0, 0, 0, 0, 0], 8),
        (
            &[0x72, 5, 0x24, 0, 0, 0, 0, 8, 2, 6, 0, 0, 0x40, 0, 1, 0],
            12,
        ),
        (&[0x72, 5, 0x24, 0, 0, 0, 0, 8, 2, 6, 0, 0, 0xC0, 0], 14),
    ];
    for (bytes, byte) in cases.iter() {
        assert_eq!(rt; read_sense(bytes), Err(NotSense { byte: *byte }));
    }
}
