// The data of a reply in hexadecimal digits, gathered.
ghost use Rattle.std.specs.Prelude.{◌≤◌, ◌*◌, ◌++◌, OnOk, OnErr, length};
ghost use Rattle.hex.specs.Hex.{encode_lower};
ghost use Rattle.satl_base.specs.Blocks.{first_bytes};
ghost use Rattle.satl_frame.specs.Gathering.{Gathers};
ghost use Rattle.satl_io.specs.Causes.{HasCause};
ghost use Rattle.satl_io.specs.Known.{WrotePart};
ghost use Rattle.satl_text.specs.Lines.{hex_bytes};

use satl_base::Pages;
use satl_frame::{WriteBuffer, WriteFault, gather};
use satl_io::Sink;

/// Gathers the digits of at most 512 bytes.
fn gather_piece<K: Sink>(
    sink: &mut K,
    gathered: &mut WriteBuffer,
    bytes: &[u8],
) -> Result<(), WriteFault>
    requires { length bytes.now ≤ 512 }
    ensures all { OnOk result (Gathers (K.written sink.old) (K.written sink.new) gathered.old gathered.new
        (encode_lower bytes.now)) }
    ensures part { OnErr result (WrotePart (K.written sink.old) (K.written sink.new)
        (gathered.old ++ encode_lower bytes.now)) }
    ensures cause { HasCause (K.faults sink.old) (K.faults sink.new) result }
{
    let mut digits = [0; 1024];
    let digits = &mut digits[..2 * bytes.len()];
    match hex::encode_to_slice(bytes, digits) {
        Ok(()) => gather(sink, gathered, digits),
        Err(_) => unreachable!(),
    }
}

/// Gathers the digits of the first bytes that the pages hold.
fn gather_digits<K: Sink>(
    sink: &mut K,
    gathered: &mut WriteBuffer,
    pages: &Pages,
    len: u32,
) -> Result<(), WriteFault>
    ensures all { OnOk result (Gathers (K.written sink.old) (K.written sink.new) gathered.old gathered.new
        (encode_lower (first_bytes len pages.now))) }
    ensures part { OnErr result (WrotePart (K.written sink.old) (K.written sink.new)
        (gathered.old ++ encode_lower (first_bytes len pages.now))) }
    ensures cause { HasCause (K.faults sink.old) (K.faults sink.new) result }
{
    for piece in pages.pieces(len) {
        gather_piece(sink, gathered, piece)?;
    }
    Ok(())
}

/// Gathers the digits of the first bytes that the pages hold, or `-` where there is none.
pub fn gather_bytes<K: Sink>(
    sink: &mut K,
    gathered: &mut WriteBuffer,
    pages: &Pages,
    len: u32,
) -> Result<(), WriteFault>
    ensures all { OnOk result (Gathers (K.written sink.old) (K.written sink.new) gathered.old gathered.new
        (hex_bytes (first_bytes len pages.now))) }
    ensures part { OnErr result (WrotePart (K.written sink.old) (K.written sink.new)
        (gathered.old ++ hex_bytes (first_bytes len pages.now))) }
    ensures cause { HasCause (K.faults sink.old) (K.faults sink.new) result }
{
    if pages.pieces(len).next().is_none() {
        gather(sink, gathered, b"-")
    } else {
        gather_digits(sink, gathered, pages, len)
    }
}
