// What is told of a drive whose IDENTIFY DEVICE data are zeros, but for its capacity.
ghost use Rattle.std.specs.Prelude.{◌≡◌};

use super::*;
use satl_base::{Attr, Modes, Nexus, Pages, Reply, Request, Scsi, Tag};
use satl_identify::Identity;
use satl_pages::Pool;
use satl_sense::{Extra, Sense};
use std::test::*;

fn identity() -> Identity
    ensures { result.capacity ≡ 8192 }
{
    Identity {
        bytes: [0; 512],
        capacity: 8_192,
        exponent: 0,
        trim: false,
        queued_trim: false,
        cache: false,
        look: false,
        cache_on: false,
        look_on: false,
    }
}

const MODES: Modes = Modes {
    wce: false,
    dra: true,
    d_sense: false,
};

fn request() -> Request {
    Request {
        nexus: Nexus::default(),
        attr: Attr::Simple,
        lun: [0; 8],
        tag: Tag(7),
        cdb: [0; 16],
        body: Pages::default(),
        data_len: 0,
        expected: None,
    }
}

// Whether a reply is GOOD with these bytes as its data-in, and zeros in what is left of their page.
fn says(reply: &Reply, bytes: &[u8]) -> bool {
    if reply.body.blocks() != 1 {
        return false;
    }
    let page = reply.body.block(0).as_bytes();
    reply.status == Scsi::Good
        && reply.data_len as usize == bytes.len()
        && page.starts_with(bytes)
        && page.iter().skip(bytes.len()).all(|byte| *byte == 0)
}

#[test]
fn what_is_told_is_cut_to_the_allocation_length(rt: HostRuntime) -> Result<(), Fail> {
    let mut pool = Pool::new(rt.alloc(), 2)?;
    let what = Data::Capacity10;
    let whole = tell(&mut pool, &identity(), &MODES, &request(), &what, 8);
    assert!(rt; says(&whole, &[0, 0, 0x1F, 0xFF, 0, 0, 0x02, 0]));
    assert_eq!(rt; whole.tag, Tag(7));
    pool.give(whole.body);
    let cut = tell(&mut pool, &identity(), &MODES, &request(), &what, 3);
    assert!(rt; says(&cut, &[0, 0, 0x1F]));
    pool.give(cut.body);
    let nothing = tell(&mut pool, &identity(), &MODES, &request(), &what, 0);
    assert_eq!(rt; (nothing.body.blocks(), nothing.data_len), (0, 0));
    assert_eq!(rt; pool.free(), 2);
    Ok(())
}

#[test]
fn sense_data_are_told_in_the_form_that_is_asked_for(rt: HostRuntime) -> Result<(), Fail> {
    let mut pool = Pool::new(rt.alloc(), 2)?;
    let sense = Sense {
        key: 0x2,
        asc: 0x04,
        ascq: 0x02,
        extra: Extra::None,
    };
    let what = Data::Sense {
        descriptor: true,
        sense,
    };
    let told = tell(&mut pool, &identity(), &MODES, &request(), &what, 252);
    assert!(rt; says(&told, &[0x72, 0x02, 0x04, 0x02, 0, 0, 0, 0]));
    pool.give(told.body);
    Ok(())
}
