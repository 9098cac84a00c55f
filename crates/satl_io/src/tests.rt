use crate::{
    BufferedSource, Failed, MemorySink, MemorySource, NeverFails, Sink, Source, StdSink, StdSource,
};
use std::io::BufReader;
use std::test::Fail;

// Six bytes in pieces of four; the second call fails, and then so do writes without room.
#[test]
fn streams_in_memory(rt: HostRuntime) -> Result<(), Fail> {
    let alloc = rt.alloc();
    let mut second = Vec::new(alloc);
    second.push(1)?;
    let mut source = MemorySource::new(b"framed".to_vec(alloc)?, 4, second);
    let mut sink = MemorySink::new(alloc, 5, 4, Vec::new(alloc))?;
    let mut buf = [0; 8];
    assert_eq!(rt; source.read(&mut buf), Ok(4));
    assert_eq!(rt; source.read(&mut buf), Err(Failed));
    assert_eq!(rt; sink.write(&buf[..4]), Ok(4));
    assert_eq!(rt; source.read(&mut buf), Ok(2));
    assert_eq!(rt; source.read(&mut buf), Ok(0));
    assert_eq!(rt; sink.write(&buf[..2]), Ok(1));
    assert_eq!(rt; sink.write(b"d"), Err(Failed));
    assert_eq!(rt; sink.written(), b"frame".as_slice());
    let mut sure = NeverFails::new(b"all".to_vec(alloc)?);
    assert_eq!(rt; sure.read(&mut buf), Ok(3));
    assert_eq!(rt; sure.read(&mut buf), Ok(0));
    Ok(())
}

// A slice as reader and as writer; a writer that takes no byte has failed.
#[test]
fn streams_of_std(rt: HostRuntime) -> Result<(), Fail> {
    let mut source = StdSource::new(b"framed".as_slice());
    let mut buf = [0; 4];
    assert_eq!(rt; source.read(&mut buf), Ok(4));
    assert_eq!(rt; source.read(&mut buf), Ok(2));
    assert_eq!(rt; source.read(&mut buf), Ok(0));
    let mut room = [0; 3];
    let mut sink = StdSink::new(room.as_mut_slice());
    assert_eq!(rt; sink.write(b"frame"), Ok(3));
    assert_eq!(rt; sink.write(b"me"), Err(Failed));
    Ok(())
}

/// Takes at most three of the bytes that are read ahead.
fn consume_three<S: Source>(source: &mut S) {
    let count = source.ahead().len().min(3);
    source.consume(count);
}

// Bytes that are read ahead stay until they are consumed, and a read begins with them.
#[test]
fn reads_ahead(rt: HostRuntime) -> Result<(), Fail> {
    let alloc = rt.alloc();
    let input = BufReader::with_capacity(alloc, 4, b"framed".as_slice())?;
    let mut source = BufferedSource::new(input);
    assert_eq!(rt; source.ahead(), b"".as_slice());
    assert_eq!(rt; source.read_ahead(), Ok(()));
    assert_eq!(rt; source.ahead(), b"fram".as_slice());
    consume_three(&mut source);
    assert_eq!(rt; source.read_ahead(), Ok(()));
    assert_eq!(rt; source.ahead(), b"m".as_slice());
    let mut buf = [0; 8];
    assert_eq!(rt; source.read(&mut buf), Ok(1));
    assert_eq!(rt; source.read_ahead(), Ok(()));
    assert_eq!(rt; source.ahead(), b"ed".as_slice());
    let mut second = Vec::new(alloc);
    second.push(1)?;
    let mut memory = MemorySource::new(b"framed".to_vec(alloc)?, 4, second);
    assert_eq!(rt; memory.read_ahead(), Ok(()));
    consume_three(&mut memory);
    assert_eq!(rt; memory.read_ahead(), Err(Failed));
    assert_eq!(rt; memory.ahead(), b"med".as_slice());
    Ok(())
}
