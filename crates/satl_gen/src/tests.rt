ghost use Rattle.std.specs.Prelude.{◌<◌, length};

use crate::GenSource;
use satl_frame::fill;
use satl_io::{Failed, Source};
use std::test::Fail;

// The input of two requests by seed 1, made by another program: SYNCHRONIZE CACHE(10) and READ(10).
const TWO_REQUESTS: [u8; 83] = *b"SATLRPL1\
    \x01\x00\x00\x00\x1E\x00\x00\x00\x00\x00\x00\x00\x00\x00\x00\x00\x00\x00\x00\
    \x35\x00\x00\x00\x00\x00\x00\x00\x00\x00\x00\x00\x00\x00\x00\x00\
    \x01\x00\x00\x00\x1E\x00\x00\x00\x00\x00\x00\x00\x00\x00\x00\x00\x00\x00\x01\
    \x28\x00\x00\x00\x08\xBB\x00\x00\x09\x00\x00\x00\x00\x00\x00\x00\
    \x05\x00\x00\x00\x00";

/// The number of bytes that are left, and the sum of their values.
fn totals(source: &mut GenSource, buf: &mut [u8]) -> Result<(u64, u64), Failed>
    requires { 0 < length buf.old }
{
    let mut count = 0u64;
    let mut sum = 0u64;
    for _ in 0..u64::MAX {
        let taken = source.read(buf)?;
        if taken == 0 {
            break;
        }
        count = count.saturating_add(taken as u64);
        for byte in &buf[..taken] {
            sum = sum.saturating_add(u64::from(*byte));
        }
    }
    Ok((count, sum))
}

#[test]
fn two_requests(rt: HostRuntime) -> Result<(), Fail> {
    let mut source = GenSource::new(1, 2);
    let mut bytes = [0; 100];
    let count = fill(&mut source, &mut bytes)?;
    assert_eq!(rt; &bytes[..count], TWO_REQUESTS.as_slice());
    assert_eq!(rt; source.read(&mut bytes), Ok(0));
    Ok(())
}

// The figures are another program's.
#[test]
fn a_hundred_requests(rt: HostRuntime) {
    let wanted = Ok((371_743, 23_778_596));
    assert_eq!(rt; totals(&mut GenSource::new(1, 100), &mut [0; 7]), wanted);
    assert_eq!(rt; totals(&mut GenSource::new(1, 100), &mut [0; 4096]), wanted);
}
