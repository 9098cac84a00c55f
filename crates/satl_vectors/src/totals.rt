// The totals of an input that is served.
use crate::frames::{END, TURN, input, read, request, write};
use crate::replaying::fresh_drive;
use crate::watched::{WatchedDrive, served};
use satl_io::{MemorySink, MemorySource};
use satl_serve::Form;
use satl_text::Summary;
use std::alloc::{AllocError, Global};
use std::process::Abort;
use std::test::Fail;

/// The totals of the input below.
const TOTALS: Summary = Summary {
    requests: 3,
    good: 2,
    check: 1,
    full: 0,
    bytes: 512,
    sum: 84_480,
};

/// A write and a read of a block, and a read beyond the capacity.
fn written_and_read_beyond(alloc: Global) -> Result<Vec<u8>, AllocError> {
    let mut frames = input(alloc)?;
    request(&mut frames, write(1, 0, 1), &[0xA5; 512])?;
    frames.extend_from_slice(&TURN)?;
    request(&mut frames, read(2, 0, 1), &[])?;
    request(&mut frames, read(3, 8191, 2), &[])?;
    frames.extend_from_slice(&END)?;
    Ok(frames)
}

/// The totals as answers go out in this form, and no byte where they are counted.
fn expect_totals(rt: &impl Abort, alloc: Global, form: Form) -> Result<(), Fail> {
    let mut source = MemorySource::new(written_and_read_beyond(alloc)?, 4096, Vec::new(alloc));
    let mut sink = MemorySink::new(alloc, 65536, 4096, Vec::new(alloc))?;
    let mut drive = WatchedDrive::new(fresh_drive(alloc, 8192)?);
    let totals = served(alloc, form, &mut source, &mut sink, &mut drive)?;
    assert_eq!(rt; totals, TOTALS);
    assert_eq!(rt; sink.written().is_empty(), form == Form::Count);
    Ok(())
}

/// The same totals in each form.
#[test]
fn totals(rt: HostRuntime) -> Result<(), Fail> {
    for form in [Form::Frames, Form::Text, Form::Count] {
        expect_totals(&rt, rt.alloc(), form)?;
    }
    Ok(())
}
