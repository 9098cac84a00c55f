ghost use Rattle.std.specs.Prelude.{◌≡◌, IfOk, Some, length};

use crate::{Summary, write_line, write_summary};
use satl_base::{Block, Nexus, NoMemory, Pages, Reply, Response, Scsi, SenseBytes, Tag};
use satl_frame::{OutFrame, Reason, WriteFault};
use satl_io::{MemorySink, Sink};
use std::alloc::Global;
use std::test::Fail;

/// Two pages of bytes of this value.
fn filled(alloc: Global, value: u8) -> Result<Pages, NoMemory>
    ensures { IfOk result (λ p. length p ≡ 2) }
{
    let block = Block {
        bytes: [value; 512],
    };
    let mut pages = Pages::zeroed(alloc, 2)?;
    pages.set_block(0, &block);
    pages.set_block(1, &block);
    Ok(pages)
}

/// A reply whose host takes one byte.
fn reply(status: Scsi, body: Pages, data_len: u32) -> Reply
    ensures body { result.body ≡ body }
    ensures data_len { result.data_len ≡ data_len }
    ensures expected { result.expected ≡ Some 1 }
{
    Reply {
        nexus: Nexus::default(),
        tag: Tag::default(),
        status,
        sense: SenseBytes::new(),
        body,
        data_len,
        expected: Some(1),
    }
}

#[test]
fn nothing_is_counted_at_first(rt: HostRuntime) {
    let zero = Summary {
        requests: 0,
        good: 0,
        check: 0,
        full: 0,
        bytes: 0,
        sum: 0,
    };
    assert_eq!(rt; Summary::default(), zero);
}

#[test]
fn replies_are_counted_by_status_and_uncut(rt: HostRuntime) -> Result<(), Fail> {
    let alloc = rt.alloc();
    let mut summary = Summary::default();
    summary.add_reply(&reply(Scsi::Good, filled(alloc, 255)?, 700));
    summary.add_reply(&reply(Scsi::CheckCondition, Pages::none(alloc), 0));
    summary.add_reply(&reply(Scsi::TaskSetFull, Pages::none(alloc), 0));
    let wanted = Summary {
        requests: 0,
        good: 1,
        check: 1,
        full: 1,
        bytes: 700,
        sum: 178_500,
    };
    assert_eq!(rt; summary, wanted);
    Ok(())
}

/// Writes the lines of frames that have no pages.
fn write_small<K: Sink>(sink: &mut K) -> Result<(), WriteFault> {
    write_line(OutFrame::Magic, sink)?;
    let managed = OutFrame::Managed {
        nexus: Nexus::default(),
        function: 0x08,
        response: Response::Rejected,
        tag: Tag(0xDEAD_BEEF),
    };
    write_line(managed, sink)?;
    write_line(OutFrame::End, sink)?;
    let fault = OutFrame::Fault {
        reason: Reason::BadField,
        offset: 567,
    };
    write_line(fault, sink)
}

/// Writes the lines of a reply with sense, of one with two pages of which the host takes a byte, and of one with nothing.
fn write_replies<K: Sink>(alloc: Global, sink: &mut K) -> Result<(), Fail> {
    let mut sense = SenseBytes::new();
    sense.push(0x70);
    sense.push(0x00);
    sense.push(0x05);
    let first = Reply {
        nexus: Nexus::default(),
        tag: Tag(0x1F),
        status: Scsi::CheckCondition,
        sense,
        body: Pages::none(alloc),
        data_len: 0,
        expected: None,
    };
    write_line(OutFrame::Reply(&first), sink)?;
    let cut = reply(Scsi::Good, filled(alloc, 0xA5)?, 700);
    write_line(OutFrame::Reply(&cut), sink)?;
    let none = reply(Scsi::TaskSetFull, Pages::none(alloc), 0);
    write_line(OutFrame::Reply(&none), sink)?;
    Ok(())
}

#[test]
fn lines_of_frames(rt: HostRuntime) -> Result<(), Fail> {
    let alloc = rt.alloc();
    let mut sink = MemorySink::new(alloc, 200, 200, Vec::new(alloc))?;
    write_small(&mut sink)?;
    write_replies(alloc, &mut sink)?;
    let lines = b"managed 0 08 04 deadbeef\nend\ninput fault 4 at byte 567\n\
        reply 0 0000001f 02 700005 -\nreply 0 00000000 00 - a5 -699\nreply 0 00000000 28 - - 1\n";
    assert_eq!(rt; sink.written(), lines.as_slice());
    Ok(())
}

// A line is one write call: the second call is that of the second line, and fails.
#[test]
fn whole_lines_are_written_before_a_fault(rt: HostRuntime) -> Result<(), Fail> {
    let alloc = rt.alloc();
    let mut second = Vec::new(alloc);
    second.push(1)?;
    let mut sink = MemorySink::new(alloc, 200, 200, second)?;
    assert_eq!(rt; write_small(&mut sink), Err(WriteFault));
    assert_eq!(rt; sink.written(), b"managed 0 08 04 deadbeef\n".as_slice());
    Ok(())
}

#[test]
fn lines_of_a_summary(rt: HostRuntime) -> Result<(), Fail> {
    let alloc = rt.alloc();
    let mut second = Vec::new(alloc);
    second.push(1)?;
    let mut sink = MemorySink::new(alloc, 200, 200, second)?;
    let summary = Summary {
        requests: 20,
        good: 17,
        check: 2,
        full: 1,
        bytes: 1024,
        sum: u64::MAX,
    };
    assert_eq!(rt; write_summary(1, &summary, &mut sink), Ok(()));
    let lines =
        b"seed 1\nrequests 20\ngood 17\ncheck 2\nfull 1\ndata 1024\nsum 18446744073709551615\n";
    assert_eq!(rt; sink.written(), lines.as_slice());
    Ok(())
}
