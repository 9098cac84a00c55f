// Inputs that are covered, that are not, and that are refused.

use crate::{AuditFault, cover};
use satl_frame::Reason;
use std::alloc::Global;
use std::test::Fail;

/// TEST UNIT READY with tag 1 by nexus 0, and the same by nexus 1.
const READY: [u8; 35] =
    *b"\x01\x00\x00\x00\x1E\x00\x00\x00\x00\x00\x00\x00\x00\x00\x00\x00\x00\x00\x01\
    \x00\x00\x00\x00\x00\x00\x00\x00\x00\x00\x00\x00\x00\x00\x00\x00";

const BY_NEXUS_1: [u8; 35] =
    *b"\x01\x00\x00\x00\x1E\x01\x00\x00\x00\x00\x00\x00\x00\x00\x00\x00\x00\x00\x01\
    \x00\x00\x00\x00\x00\x00\x00\x00\x00\x00\x00\x00\x00\x00\x00\x00";

/// INQUIRY with tag 2, and TEST UNIT READY with tag 3 to another logical unit.
const INQUIRY: [u8; 35] =
    *b"\x01\x00\x00\x00\x1E\x00\x00\x00\x00\x00\x00\x00\x00\x00\x00\x00\x00\x00\x02\
    \x12\x00\x00\x00\x24\x00\x00\x00\x00\x00\x00\x00\x00\x00\x00\x00";

const OTHER_UNIT: [u8; 35] =
    *b"\x01\x00\x00\x00\x1E\x00\x00\x00\x01\x00\x00\x00\x00\x00\x00\x00\x00\x00\x03\
    \x00\x00\x00\x00\x00\x00\x00\x00\x00\x00\x00\x00\x00\x00\x00\x00";

const TURN: [u8; 7] = *b"\x03\x00\x00\x00\x02\x00\x01";

const POWER: [u8; 6] = *b"\x04\x00\x00\x00\x01\x05";

const UNPLUG: [u8; 6] = *b"\x04\x00\x00\x00\x01\x06";

const END: [u8; 5] = *b"\x05\x00\x00\x00\x00";

/// What is said of the magic of a version and these frames.
fn said(
    alloc: Global,
    magic: &[u8; 8],
    frames: &[&[u8]],
) -> Result<Result<Option<u64>, AuditFault>, Fail> {
    let mut input = magic.to_vec(alloc)?;
    for frame in frames {
        input.extend_from_slice(frame)?;
    }
    Ok(cover(alloc, false, &input))
}

#[test]
fn first_frame_that_is_not_covered_is_told(rt: HostRuntime) -> Result<(), Fail> {
    let alloc = rt.alloc();
    let one = b"SATLRPL1";
    assert_eq!(rt;
        said(alloc, one, &[&READY, &BY_NEXUS_1, &TURN, &POWER, &END])?,
        Ok(None)
    );
    assert_eq!(rt;
        said(alloc, one, &[&READY, &TURN, &READY, &UNPLUG, &END])?,
        Ok(Some(50))
    );
    assert_eq!(rt; said(alloc, one, &[&READY, &INQUIRY, &END])?, Ok(Some(43)));
    assert_eq!(rt; said(alloc, one, &[&OTHER_UNIT, &END])?, Ok(Some(8)));
    assert_eq!(rt; said(alloc, one, &[&UNPLUG, &END])?, Ok(Some(8)));
    assert_eq!(rt; said(alloc, b"SATLRPL2", &[&TURN, &END])?, Ok(Some(0)));
    Ok(())
}

#[test]
fn refusals_come_before(rt: HostRuntime) -> Result<(), Fail> {
    let alloc = rt.alloc();
    let bad = |reason, offset| Err(AuditFault::BadInput { reason, offset });
    assert_eq!(rt;
        said(alloc, b"SATLRPL1", &[&UNPLUG, &END, &END])?,
        bad(Reason::TooLong, 19)
    );
    assert_eq!(rt;
        said(alloc, b"SATLRPL1", &[&UNPLUG])?,
        bad(Reason::Truncated, 14)
    );
    assert_eq!(rt;
        said(alloc, b"SATLRPL1", &[&UNPLUG, b"\x09"])?,
        bad(Reason::BadKind, 14)
    );
    assert_eq!(rt;
        said(alloc, b"SATLRPL3", &[&END])?,
        bad(Reason::BadMagic, 0)
    );
    Ok(())
}
