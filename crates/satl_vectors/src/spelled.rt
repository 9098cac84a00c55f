// Replays whose inputs and outputs are spelled as digits and runs of one byte.
use crate::replaying::{pieces, replay};
use satl_top::Status;
use std::alloc::Global;
use std::process::Abort;
use std::test::Fail;

/// A part of an input or of an output: hexadecimal digits of at most 512 bytes, or so many bytes of one value.
#[derive(Clone, Copy)]
pub enum Part {
    Hex(&'static str),
    Fill(u8, usize),
}

/// A replay with its name, its input and its output.
pub type Row = (&'static str, &'static [Part], &'static [Part]);

fn add_part(bytes: &mut Vec<u8>, alloc: Global, part: Part) -> Result<(), Fail> {
    match part {
        Part::Hex(digits) => bytes.extend_from_slice(&hex::decode(alloc, digits)?)?,
        Part::Fill(byte, count) => {
            for _ in 0..count {
                bytes.push(byte)?;
            }
        }
    }
    Ok(())
}

pub fn spelled(alloc: Global, parts: &[Part]) -> Result<Vec<u8>, Fail> {
    let mut bytes = Vec::new(alloc);
    for part in parts {
        add_part(&mut bytes, alloc, *part)?;
    }
    Ok(bytes)
}

/// Each replay ends well and writes its output.
pub fn expect_rows(rt: &impl Abort, alloc: Global, rows: &[Row]) -> Result<(), Fail> {
    for (name, input, output) in rows {
        let wanted = spelled(alloc, output)?;
        let (ended, written) = replay(alloc, spelled(alloc, input)?, pieces(65536))?;
        assert_eq!(rt; ended, Status::Done, "in {name}");
        assert_eq!(rt; written.as_slice(), wanted.as_slice(), "in {name}");
    }
    Ok(())
}
