use super::*;
use satl_base::Range;
use std::test::*;

fn regs(features: u16, count: u16, lba: u64, device: u8, command: u8) -> Registers {
    Registers {
        features,
        count,
        lba,
        device,
        command,
    }
}

#[test]
fn commands_and_registers(rt: HostRuntime) {
    // A read of 8 sectors at LBA 1234h with tag 5, a write with FUA of 65,536 sectors, and a trim with tag 31.
    let read = Queued {
        kind: QueuedKind::Read,
        lba: 0x1234,
        sectors: 8,
        tag: 5,
        fua: false,
    };
    let read_regs = regs(8, 0x28, 0x1234, 0x40, 0x60);
    assert_eq!(rt; put_queued(&read), read_regs);
    assert_eq!(rt; queued_of(&read_regs), Some(read));
    let write = Queued {
        kind: QueuedKind::Write,
        lba: 0xFFFF_FFFF_FFFF,
        sectors: 65_536,
        tag: 0,
        fua: true,
    };
    assert_eq!(rt;
        queued_of(&regs(0, 0x07, 0xFFFF_FFFF_FFFF, 0xC0, 0x61)),
        Some(write)
    );
    let trim = Queued {
        kind: QueuedKind::Trim,
        lba: 0,
        sectors: 1,
        tag: 31,
        fua: false,
    };
    assert_eq!(rt; put_queued(&trim), regs(1, 0xF8, 0, 0x40, 0x64));
    assert_eq!(rt; queued_of(&regs(8, 0x28, 0x1234, 0x40, 0x20)), None);

    // 28-bit commands have LBA(27:24) in DEVICE and 0 for 256 sectors, EXT commands 48 bits and 0 for 65,536.
    let cases = [
        (
            regs(0, 0, 0x23_4567, 0x41, 0x20),
            AtaCommand::Read {
                how: How::Pio,
                lba: 0x123_4567,
                sectors: 256,
            },
        ),
        (
            regs(0, 0, 0x1234_5678_9ABC, 0x40, 0x35),
            AtaCommand::Write {
                how: How::DmaExt,
                lba: 0x1234_5678_9ABC,
                sectors: 65_536,
            },
        ),
        (
            regs(0, 1, 0x10, 0x40, 0x2F),
            AtaCommand::ReadLog {
                log: 0x10,
                page: 0,
                blocks: 1,
            },
        ),
        (
            regs(0xDA, 0, 0xC2_4F00, 0x40, 0xB0),
            AtaCommand::SmartStatus,
        ),
        (regs(1, 1, 0, 0x40, 0x06), AtaCommand::Trim { blocks: 1 }),
        (regs(0, 0, 0, 0x40, 0x06), AtaCommand::Other { code: 0x06 }),
        (regs(0, 0, 0, 0x40, 0xEC), AtaCommand::Identify),
    ];
    for (registers, command) in cases.iter() {
        assert_eq!(rt; command_of(registers), *command);
    }
    let (read_regs, read) = cases[0];
    assert_eq!(rt; put_command(&read), read_regs);
    let flush = AtaCommand::Flush { ext: true };
    assert_eq!(rt; put_command(&flush), regs(0, 0, 0, 0x40, 0xEA));
}

#[test]
fn trim_blocks(rt: HostRuntime) {
    // A range of 65,536 blocks takes two entries; one without blocks takes an entry that is not read back.
    let ranges = [
        Range { lba: 0, count: 8 },
        Range { lba: 5, count: 0 },
        Range {
            lba: 0x1_0000,
            count: 65_536,
        },
    ];
    let block = trim_bytes(&ranges);
    let front = [
        0, 0, 0, 0, 0, 0, 8, 0, // LBA 0, 8 blocks
        5, 0, 0, 0, 0, 0, 0, 0, // unused
        0, 0, 1, 0, 0, 0, 0xFF, 0xFF, // LBA 1_0000h, 65,535 blocks
        0xFF, 0xFF, 1, 0, 0, 0, 1, 0, // LBA 1_FFFFh, 1 block
    ];
    assert_eq!(rt; &block.bytes[..32], &front[..]);
    assert_eq!(rt; &block.bytes[32..], &[0u8; 480][..]);
    let read = [
        Range { lba: 0, count: 8 },
        Range {
            lba: 0x1_0000,
            count: 65_535,
        },
        Range {
            lba: 0x1_FFFF,
            count: 1,
        },
    ];
    assert_eq!(rt; read_trim(&block).as_slice(), &read[..]);
}
