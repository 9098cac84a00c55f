// Rows of what requests and commands ask for.

use super::*;
use satl_base::{Attr, Range};
use satl_cdb::{Command, Form, Illegal};
use satl_sense::{Extra, Sense};
use satl_unit::Attention;
use std::test::*;

/// Sense data of a key and codes alone.
fn plain(key: u8, asc: u8, ascq: u8) -> Sense {
    Sense {
        key,
        asc,
        ascq,
        extra: Extra::None,
    }
}

fn read(lba: u64, count: u32) -> Command {
    Command::Read {
        form: Form::Ten,
        lba,
        count,
        fua: false,
    }
}

#[test]
fn what_a_read_goes_over_and_holds(rt: HostRuntime) {
    let command = read(5, 3);
    assert_eq!(rt; range_of(&command), Range { lba: 5, count: 3 });
    assert_eq!(rt; held_blocks(&command), 3);
    assert_eq!(rt; needed(&command), 0);
}

#[test]
fn what_commands_need(rt: HostRuntime) {
    let write = Command::Write {
        form: Form::Sixteen,
        lba: 0,
        count: 4,
        fua: true,
    };
    let same = Command::WriteSame {
        form: Form::Ten,
        lba: 9,
        count: 700,
        unmap: false,
    };
    let unmap = Command::Unmap { length: 24 };
    assert_eq!(rt; (needed(&write), held_blocks(&write)), (2048, 4));
    assert_eq!(rt; (needed(&same), held_blocks(&same)), (512, 1));
    assert_eq!(rt; (needed(&unmap), held_blocks(&unmap)), (24, 0));
    assert_eq!(rt; range_of(&same), Range { lba: 9, count: 700 });
    assert_eq!(rt; range_of(&unmap), Range { lba: 0, count: 0 });
}

#[test]
fn lists_have_their_header_or_nothing(rt: HostRuntime) {
    for (length, fault) in [(0, false), (1, true), (7, true), (8, false)].iter() {
        let found = length_fault(&Command::Unmap { length: *length });
        assert_eq!(rt; found, fault.then_some(Illegal::list_length_error()));
    }
    assert_eq!(rt; length_fault(&read(0, 1)), None);
}

#[test]
fn who_is_told_first(rt: HostRuntime) {
    for (code, first) in [
        (0x12, true),
        (0xA0, true),
        (0x03, true),
        (0x00, false),
        (0x28, false),
    ]
    .iter()
    {
        assert_eq!(rt; goes_before_attentions(*code), *first);
    }
    assert!(rt; is_unit_0(&[0; 8]));
    assert!(rt; !is_unit_0(&[0, 1, 0, 0, 0, 0, 0, 0]));
    assert!(rt; is_ordered(Attr::Ordered));
    assert!(rt; !is_ordered(Attr::Simple));
}

#[test]
fn refusals_point_at_their_byte(rt: HostRuntime) {
    let field = refusal_sense(Illegal::invalid_field(3));
    assert_eq!(rt; (field.key, field.asc, field.ascq), (0x5, 0x24, 0x00));
    assert_eq!(rt;
        field.extra,
        Extra::Pointer {
            in_cdb: true,
            byte: 3
        }
    );
    assert_eq!(rt;
        refusal_sense(Illegal::invalid_operation_code()),
        plain(0x5, 0x20, 0x00)
    );
    assert_eq!(rt; attention_sense(Attention::PowerOn), plain(0x6, 0x29, 0x01));
}
