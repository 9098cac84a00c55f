use crate::{Block, Nexus, Page, Pages, Range, Replies, Reply, Scsi, SenseBytes, Sequence, Tag};
use std::alloc::Global;
use std::test::Fail;

#[test]
fn pages_are_taken_split_and_kept(rt: HostRuntime) -> Result<(), Fail> {
    let mut pages = Pages::zeroed(rt.alloc(), 3)?;
    pages.set_block(2, &Block { bytes: [7; 512] });
    let rest = pages.split(1);
    assert_eq!(rt; pages.blocks(), 1);
    assert_eq!(rt; rest.blocks(), 2);
    assert_eq!(rt; rest.iter().count(), 2);
    let mut page = Page::zeroed(rt.alloc())?;
    page.set(&Block { bytes: [9; 512] });
    pages.push_first(page);
    pages.reverse();
    pages.keep(1);
    assert_eq!(rt; *pages.block(0), Block::zero());
    Ok(())
}

#[test]
fn a_long_chain_is_dropped(rt: HostRuntime) -> Result<(), Fail> {
    let pages = Pages::zeroed(rt.alloc(), 32_960)?;
    assert_eq!(rt; pages.blocks(), 32_960);
    Ok(())
}

fn reply(alloc: Global, tag: u32) -> Reply {
    Reply {
        nexus: Nexus::default(),
        tag: Tag(tag),
        status: Scsi::Good,
        sense: SenseBytes::new(),
        body: Pages::none(alloc),
        data_len: 0,
        expected: None,
    }
}

#[test]
fn replies_come_in_order(rt: HostRuntime) {
    let mut replies = Replies::new(rt.alloc());
    replies.push(reply(rt.alloc(), 7));
    replies.push(reply(rt.alloc(), 8));
    assert_eq!(rt; replies.len(), 2);
    assert_eq!(rt; replies.first().tag, Tag(7));
    assert_eq!(rt; replies.remove_first().blocks(), 0);
    assert_eq!(rt; replies.first().tag, Tag(8));
}

#[test]
fn the_last_block_is_inside(rt: HostRuntime) {
    assert!(rt; !Range { lba: 7, count: 1 }.goes_past(8));
    assert!(rt; !Range { lba: 8, count: 0 }.goes_past(8));
    assert!(rt; Range { lba: 7, count: 2 }.goes_past(8));
    let last = Range {
        lba: u64::MAX,
        count: 1,
    };
    assert!(rt; last.goes_past(8));
}

#[test]
fn items_leave_and_come_past_the_room(rt: HostRuntime) {
    let mut line: Sequence<u8, 3> = Sequence::new();
    assert!(rt; line.is_empty());
    line.push(1);
    line.push(2);
    line.push(3);
    assert_eq!(rt; line.remove(0), 1);
    line.push(4);
    assert_eq!(rt; line.at(2), 4);
    assert_eq!(rt; line.remove(1), 3);
    line.push(5);
    assert_eq!(rt; line.len(), 3);
    assert_eq!(rt; line.as_slice(), [2, 4, 5].as_slice());
    line.clear();
    assert!(rt; line.is_empty());
}
