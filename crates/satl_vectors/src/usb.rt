// A USB disk bridge whose inputs and outputs are known. They were spelled by hand and by another program.
use crate::replaying::{Streams, pieces, run};
use crate::spelled::{Part, Row, spelled};
use satl_top::Status;
use std::alloc::Global;
use std::process::Abort;
use std::test::Fail;

const BRIDGED: [Row; 9] = [
    (
        "inquiry",
        &[Part::Hex("55534243010000002400000080000612000000240000000000000000000000")],
        &[Part::Hex(
            "000006021f00000241544120202020204d4f44454c204e4351204449534b20203032303355534253010000000000000000",
        )],
    ),
    (
        "kept_sense",
        &[Part::Hex(
            "55534243020000000002000080000a2820000000000000010000000000000055534243030000001200000080000603000000120000000000000000000000",
        )],
        &[
            Part::Fill(0x00, 512),
            Part::Hex(
                "55534253020000000002000001700005000000000a00000000240000c0000155534253030000000000000000",
            ),
        ],
    ),
    ("nothing", &[], &[]),
    (
        "write_and_read",
        &[
            Part::Hex("55534243040000000002000000000a2a000000000000000100000000000000"),
            Part::Fill(0xA5, 512),
            Part::Hex("55534243050000000002000080000a28000000000000000100000000000000"),
        ],
        &[
            Part::Hex("55534253040000000000000000"),
            Part::Fill(0xA5, 512),
            Part::Hex("55534253050000000000000000"),
        ],
    ),
    (
        "more_and_less_than_the_host_takes",
        &[Part::Hex(
            "55534243060000000001000080000a2800000000000000010000000000000055534243070000000802000080000a2800000000000000010000000000000055534243080000000000000000000a28000000000000000100000000000000",
        )],
        &[
            Part::Fill(0x00, 256),
            Part::Hex("55534253060000000000000002"),
            Part::Fill(0x00, 520),
            Part::Hex("5553425307000000080000000055534253080000000000000002"),
        ],
    ),
    (
        "sense_is_told_once",
        &[Part::Hex(
            "55534243020000000002000080000a282000000000000001000000000000005553424303000000120000008000060300000012000000000000000000000055534243040000001200000080000603000000120000000000000000000000",
        )],
        &[
            Part::Fill(0x00, 512),
            Part::Hex(
                "55534253020000000002000001700005000000000a00000000240000c0000155534253030000000000000000700000000000000a0000000000000000000055534253040000000000000000",
            ),
        ],
    ),
    (
        "sense_is_kept_for_the_next_command_alone",
        &[Part::Hex(
            "55534243020000000002000080000a282000000000000001000000000000005553424303000000000000000000060000000000000000000000000000000055534243040000001200000080000603000000120000000000000000000000",
        )],
        &[
            Part::Fill(0x00, 512),
            Part::Hex(
                "5553425302000000000200000155534253030000000000000000700000000000000a0000000000000000000055534253040000000000000000",
            ),
        ],
    ),
    (
        "sense_in_part",
        &[Part::Hex(
            "55534243020000000002000080000a2820000000000000010000000000000055534243030000001200000080050603000000040000000000000000000000",
        )],
        &[
            Part::Fill(0x00, 512),
            Part::Hex("5553425302000000000200000170000500"),
            Part::Fill(0x00, 14),
            Part::Hex("55534253030000000e00000000"),
        ],
    ),
    (
        "unknown_unit",
        &[Part::Hex(
            "55534243090000000000000000010600000000000000000000000000000000555342430a0000001200000080010603000000120000000000000000000000",
        )],
        &[Part::Hex(
            "55534253090000000000000001700005000000000a00000000250000000000555342530a0000000000000000",
        )],
    ),
];

const REFUSED: [Row; 6] = [
    ("cut_signature", &[Part::Hex("5553")], &[]),
    (
        "cut_wrapper",
        &[Part::Hex(
            "55534243010000002400000080000612000000240000000000000000000000555342430100000024000000800006120000002400000000000000000000",
        )],
        &[Part::Hex(
            "000006021f00000241544120202020204d4f44454c204e4351204449534b20203032303355534253010000000000000000",
        )],
    ),
    (
        "one_byte_more",
        &[Part::Hex("5553424301000000240000008000061200000024000000000000000000000000")],
        &[Part::Hex(
            "000006021f00000241544120202020204d4f44454c204e4351204449534b20203032303355534253010000000000000000",
        )],
    ),
    (
        "cut_data",
        &[
            Part::Hex("55534243040000000002000000000a2a000000000000000100000000000000"),
            Part::Fill(0xA5, 511),
        ],
        &[],
    ),
    (
        "unit_16",
        &[Part::Hex("55534243010000002400000080100612000000240000000000000000000000")],
        &[],
    ),
    (
        "too_much_data",
        &[Part::Hex("55534243010000000100200080000612000000240000000000000000000000")],
        &[],
    ),
];

/// Each input ends so and writes its output, however its bytes are cut.
fn expect_bridged(
    rt: &impl Abort,
    alloc: Global,
    rows: &[Row],
    status: Status,
) -> Result<(), Fail> {
    for (name, input, output) in rows {
        let wanted = spelled(alloc, output)?;
        for piece in [3, 65536] {
            let (ended, written) = run(alloc, &["usb"], spelled(alloc, input)?, pieces(piece))?;
            assert_eq!(rt; ended, status, "in {name}");
            assert_eq!(rt; written.as_slice(), wanted.as_slice(), "in {name}");
        }
    }
    Ok(())
}

#[test]
fn items_are_answered(rt: HostRuntime) -> Result<(), Fail> {
    expect_bridged(&rt, rt.alloc(), &BRIDGED, Status::Done)
}

#[test]
fn other_bytes_are_refused(rt: HostRuntime) -> Result<(), Fail> {
    expect_bridged(&rt, rt.alloc(), &REFUSED, Status::BadInput)
}

/// Each read or each write of a failing command and of its sense fails once, up to the first number that no call has: a front
/// of the output is written.
fn expect_fronts(rt: &impl Abort, alloc: Global, reads: bool, fault: Status) -> Result<(), Fail> {
    let (_, input, output) = BRIDGED[1];
    let wanted = spelled(alloc, output)?;
    for call in 0..600u32 {
        let streams = Streams {
            failing_read: if reads { Some(call) } else { None },
            failing_write: if reads { None } else { Some(call) },
            ..pieces(16)
        };
        let (status, written) = run(alloc, &["usb"], spelled(alloc, input)?, streams)?;
        if status == Status::Done {
            assert_eq!(rt; written.as_slice(), wanted.as_slice());
            return Ok(());
        }
        assert_eq!(rt; status, fault, "call {call}");
        assert!(rt; wanted.starts_with(&written), "call {call}");
    }
    panic!(rt; "no end of calls");
}

#[test]
fn failing_streams_of_a_bridge(rt: HostRuntime) -> Result<(), Fail> {
    expect_fronts(&rt, rt.alloc(), true, Status::ReadFault)?;
    expect_fronts(&rt, rt.alloc(), false, Status::WriteFault)
}
