use super::*;
use satl_base::Block;
use std::test::*;

#[test]
fn entries_and_refusals(rt: HostRuntime) {
    // The command of tag 3 met a read flaw at LBA 5.
    let flaw = NcqError {
        tag: 3,
        status: 0x41,
        error: 0x40,
        lba: 5,
        device: 0x40,
        count: 0,
        key: 0,
        asc: 0,
        ascq: 0,
    };
    let mut bytes = [0; 512];
    bytes[0] = 0x03;
    bytes[2] = 0x41;
    bytes[3] = 0x40;
    bytes[4] = 0x05;
    bytes[7] = 0x40;
    bytes[511] = 0x37;
    let log = Block { bytes };
    assert_eq!(rt; log_bytes(&flaw), log);
    assert_eq!(rt; read_log(&log), Ok(flaw));

    // LBA and COUNT stand low byte first, but for DEVICE between them.
    let far = NcqError {
        lba: 0x6655_4433_2211,
        count: 0x8877,
        ..flaw
    };
    let front = [
        0x03, 0, 0x41, 0x40, 0x11, 0x22, 0x33, 0x40, 0x44, 0x55, 0x66, 0, 0x77, 0x88, 0, 0, 0,
    ];
    assert_eq!(rt; &log_bytes(&far).bytes[..17], &front[..]);

    // A log without an entry, and one whose bytes do not sum to 0.
    let mut none = [0; 512];
    none[0] = 0x80;
    none[511] = 0x80;
    assert_eq!(rt; read_log(&Block { bytes: none }), Err(LogFault::NotQueued));
    none[511] = 0x82;
    assert_eq!(rt;
        read_log(&Block { bytes: none }),
        Err(LogFault::BadChecksum { sum: 2 })
    );
}
