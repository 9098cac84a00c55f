// ATA PASS-THROUGH from outside: what it asks for, and what its end is told as.

use super::*;
use satl_cdb::Illegal;
use satl_regs::{AtaCommand, How, Registers, Taskfile};
use satl_sense::{AtaReturn, Extra, Sense, sense_bytes};
use std::test::*;

/// What a command descriptor block of pass-through asks for, with zeros behind it, None for one of another code.
fn read(front: &[u8]) -> Option<Result<Pass, Illegal>> {
    let count = front.len().min(16);
    let mut cdb = [0; 16];
    cdb[..count].copy_from_slice(&front[..count]);
    match cdb[0] {
        0x85 | 0xA1 => Some(read_pass(&cdb)),
        _ => None,
    }
}

fn registers(features: u16, count: u16, lba: u64, device: u8, command: u8) -> Registers {
    Registers {
        features,
        count,
        lba,
        device,
        command,
    }
}

fn pass(
    protocol: u8,
    extend: bool,
    ck_cond: bool,
    out: bool,
    length: u32,
    regs: Registers,
) -> Pass {
    Pass {
        protocol,
        extend,
        ck_cond,
        out,
        length,
        regs,
    }
}

#[test]
fn reading(rt: HostRuntime) {
    let asked: [(&[u8], Pass); 5] = [
        // IDENTIFY DEVICE by PIO, with CK_COND.
        (
            &[0x85, 0x08, 0x2E, 0, 0, 0, 1, 0, 0, 0, 0, 0, 0, 0, 0xEC],
            pass(4, false, true, false, 512, registers(0, 1, 0, 0, 0xEC)),
        ),
        // A command that there is not, without data.
        (
            &[0x85, 0x06, 0, 0, 0, 0, 0, 0, 0, 0, 0, 0, 0, 0, 0xFF],
            pass(3, false, false, true, 0, registers(0, 0, 0, 0, 0xFF)),
        ),
        // READ DMA EXT of 256 sectors, with the high bytes of COUNT and LBA.
        (
            &[0x85, 0x0D, 0x0E, 0, 0, 1, 0, 4, 1, 5, 2, 6, 3, 0x40, 0x25],
            pass(
                6,
                true,
                false,
                false,
                131_072,
                registers(0, 256, 0x0605_0403_0201, 0x40, 0x25),
            ),
        ),
        // READ DMA in the form of 12 bytes, whose bit 0 of byte 1 is not looked at; COUNT 0 is 256 sectors.
        (
            &[0xA1, 0x0D, 0x0E, 0, 0, 1, 2, 3, 0x4F, 0xC8],
            pass(
                6,
                false,
                false,
                false,
                131_072,
                registers(0, 0, 0x03_0201, 0x4F, 0xC8),
            ),
        ),
        // DATA SET MANAGEMENT by UDMA, its length in FEATURES.
        (
            &[0x85, 0x17, 0x05, 0, 1, 0, 1, 0, 0, 0, 0, 0, 0, 0x40, 0x06],
            pass(11, true, false, true, 512, registers(1, 1, 0, 0x40, 0x06)),
        ),
    ];
    for (front, wanted) in asked.iter() {
        assert_eq!(rt; read(front), Some(Ok(*wanted)));
    }
    let refused: [(&[u8], u16); 7] = [
        // IDENTIFY DEVICE by PIO data-out.
        (&[0x85, 0x0A, 0, 0, 0, 0, 0, 0, 0, 0, 0, 0, 0, 0, 0xEC], 1),
        (&[0x85, 0x0E, 3, 0, 0, 0, 0, 0, 0, 0, 0, 0, 0, 0, 0x60], 1),
        // T_LENGTH 3, and 4,097 blocks.
        (&[0x85, 0x0C, 3, 0, 0, 0, 0, 0, 0, 0, 0, 0, 0, 0, 0x60], 2),
        (
            &[0x85, 0x0D, 0x0E, 0, 0, 0x10, 1, 0, 0, 0, 0, 0, 0, 0, 0x60],
            2,
        ),
        (
            &[0x85, 0x0C, 0x0E, 0, 0, 0, 1, 0, 0, 0, 0, 0, 0, 0, 0x64],
            14,
        ),
        (&[0xA1, 0x0C, 0x0E, 0, 1, 0, 0, 0, 0x40, 0x61], 9),
        // IDENTIFY DEVICE with its data to the drive.
        (
            &[0x85, 0x08, 0x06, 0, 0, 0, 1, 0, 0, 0, 0, 0, 0, 0, 0xEC],
            2,
        ),
    ];
    for (front, byte) in refused.iter() {
        assert_eq!(rt; read(front), Some(Err(Illegal::invalid_field(*byte))));
    }
    let (_, read_dma) = asked[3];
    assert_eq!(rt;
        plan(&read_dma),
        AtaCommand::Read {
            how: How::Dma,
            lba: 0xF03_0201,
            sectors: 256,
        }
    );
}

#[test]
fn status(rt: HostRuntime) {
    let good = Taskfile {
        error: 0,
        count: 0,
        lba: 0,
        device: 0,
        status: 0x40,
    };
    let silent = pass(4, false, false, false, 512, registers(0, 1, 0, 0, 0xEC));
    assert_eq!(rt; status_return(&silent, &good), None);
    let telling = pass(4, false, true, false, 512, registers(0, 1, 0, 0, 0xEC));
    let told = status_return(&telling, &good);
    let bytes = told.map(|sense| sense_bytes(&sense, true));
    let wanted = [
        0x72, 1, 0, 0x1D, 0, 0, 0, 0x0E, 9, 0x0C, 0, 0, 0, 0, 0, 0, 0, 0, 0, 0, 0, 0x40,
    ];
    assert_eq!(rt;
        bytes.map(|text| text.as_slice() == &wanted[..]),
        Some(true)
    );

    // ERROR, the command, and the key with its codes.
    let cases = [
        (0x04, 0xFF, (0x0B, 0x00, 0x00)),
        (0x84, 0x25, (0x0B, 0x47, 0x03)),
        (0xC0, 0x25, (0x0B, 0x47, 0x03)),
        (0x40, 0x25, (0x03, 0x11, 0x00)),
        (0x40, 0x35, (0x03, 0x0C, 0x02)),
        (0x50, 0x40, (0x03, 0x11, 0x00)),
        (0x14, 0x40, (0x05, 0x21, 0x00)),
        (0x00, 0xFF, (0x0B, 0x00, 0x00)),
    ];
    for (error, command, (key, asc, ascq)) in cases.iter() {
        let failing = pass(
            6,
            true,
            false,
            false,
            512,
            registers(0, 1, 0, 0x40, *command),
        );
        let end = Taskfile {
            error: *error,
            count: 2,
            lba: 5,
            device: 0x40,
            status: 0x41,
        };
        let extra = Extra::Ata(AtaReturn {
            extend: true,
            error: *error,
            count: 2,
            lba: 5,
            device: 0x40,
            status: 0x41,
        });
        let sense = Sense {
            key: *key,
            asc: *asc,
            ascq: *ascq,
            extra,
        };
        assert_eq!(rt; status_return(&failing, &end), Some(sense));
    }
}
