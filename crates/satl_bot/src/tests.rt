// Wrappers as they stand on the wire.

ghost use Rattle.std.specs.Prelude.{◌<◌};

use super::*;
use std::test::*;

/// INQUIRY of 36 bytes, under tag 1, and what its 31 bytes are but for one.
fn inquiry_with(at: usize, byte: u8) -> [u8; CBW_SIZE]
    requires { at < 31 }
{
    let mut bytes =
        *b"USBC\x01\x00\x00\x00\x24\x00\x00\x00\x80\x00\x06\x12\x00\x00\x00\x24\x00\x00\x00\x00\x00\x00\x00\x00\x00\x00\x00";
    bytes[at] = byte;
    bytes
}

#[test]
fn a_command_is_read(rt: HostRuntime) {
    let inquiry = Cbw {
        tag: 1,
        length: 36,
        is_in: true,
        lun: 0,
        cdb: [0x12, 0, 0, 0, 0x24, 0, 0, 0, 0, 0, 0, 0, 0, 0, 0, 0],
    };
    assert_eq!(rt; read_cbw(&inquiry_with(0, b'U')), Some(inquiry));
    // Bits of the flags that have no meaning.
    assert_eq!(rt; read_cbw(&inquiry_with(12, 0xFF)), Some(inquiry));
    // Bytes behind the CDB are not part of it.
    assert_eq!(rt; read_cbw(&inquiry_with(30, 0xFF)), Some(inquiry));
    let out = Cbw {
        is_in: false,
        ..inquiry
    };
    assert_eq!(rt; read_cbw(&inquiry_with(12, 0x7F)), Some(out));
    let far = Cbw { lun: 15, ..inquiry };
    assert_eq!(rt; read_cbw(&inquiry_with(13, 15)), Some(far));
    let long = Cbw {
        length: 0x1F_0024,
        ..inquiry
    };
    assert_eq!(rt; read_cbw(&inquiry_with(10, 0x1F)), Some(long));
}

#[test]
fn a_wrapper_is_refused(rt: HostRuntime) {
    let cases = [
        // The signature of a status.
        (3, b'S'),
        (13, 16),
        // A CDB of no byte, or of 17.
        (14, 0),
        (14, 17),
        // 2,097,188 bytes.
        (10, 0x20),
    ];
    for (at, byte) in cases.iter() {
        if *at < 31 {
            assert_eq!(rt; read_cbw(&inquiry_with(*at, *byte)), None);
        }
    }
}

#[test]
fn a_status_is_told(rt: HostRuntime) {
    assert_eq!(rt;
        &csw_bytes(1, 0, CswStatus::Passed)[..],
        b"USBS\x01\x00\x00\x00\x00\x00\x00\x00\x00".as_slice()
    );
    assert_eq!(rt;
        &csw_bytes(0x0403_0201, 512, CswStatus::Failed)[..],
        b"USBS\x01\x02\x03\x04\x00\x02\x00\x00\x01".as_slice()
    );
}
