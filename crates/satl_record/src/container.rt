// The container of a record.
ghost use Rattle.std.specs.Prelude.{◌≡◌, ◌≤◌, ◌<◌, ◌++◌, ℕ, None, IfOk, IfErr, IfSome, IsErrOf, OnOk, length, take};
ghost use Rattle.byteorder.specs.Endian.{big_bytes};
ghost use Rattle.std.specs.Io.KnownBytes.{IsAtEnd};
ghost use Rattle.satl_io.specs.Causes.{HasCause, Rose};
ghost use Rattle.satl_io.specs.Known.{Took};
ghost use Rattle.satl_record.specs.Containers.{IsNoRecord, IsRest, TookRecord, longest_part, record_magic};
ghost use Rattle.satl_record.specs.Faults.{IsReadFault};
ghost use Rattle.satl_record.specs.declared.fault.RecordFault.TheVariants as faults;

use crate::fault::RecordFault;
use byteorder::{BigEndian, ByteOrder};
use satl_base::NoMemory;
use satl_frame::fill;
use satl_io::Source;
use std::alloc::Global;

/// What a record begins with.
const MAGIC: [u8; 8] = *b"SATLAUD1";

/// How many bytes tell the length of the input, behind the magic.
const LENGTH_BYTES: usize = 8;

/// How many bytes stand before the input.
const HEAD: usize = MAGIC.len() + LENGTH_BYTES;

/// The most bytes that the input of a record has, and its output (profile).
const LONGEST_PART: usize = 67_108_864;

/// How many bytes are read at once, at most.
const PIECE_BYTES: usize = 4096;

/// A recorded run: the input, and the output that was seen.
#[derive(Drop)]
pub struct Record {
    /// The bytes of the recorded input.
    pub input: Vec<u8>,
    /// The bytes of the output that was seen.
    pub output: Vec<u8>,
}

/// Adds bytes to others.
fn add(bytes: &mut Vec<u8>, more: &[u8]) -> Result<(), NoMemory>
    ensures { OnOk result (bytes.new.items ≡ bytes.old.items ++ more.now) }
{
    Ok(bytes.extend_from_slice(more)?)
}

/// The next bytes of a source, as many as the buffer takes: fewer only where no more are left.
fn read_piece<S: Source>(source: &mut S, piece: &mut [u8]) -> Result<usize, RecordFault>
    ensures took { IfOk result (λ n. Took (S.left source.old) (S.left source.new) (take n piece.new)) }
    ensures size { length piece.new ≡ length piece.old }
    ensures few { IfOk result (λ n. n ≤ length piece.old) }
    ensures ends { IfOk result (λ n. n < length piece.old → IsAtEnd (S.left source.new)) }
    ensures rest { IsRest (S.left source.old) (S.left source.new) }
    ensures kinds { IfErr result (λ fault. fault ≡ faults.Read) }
    ensures cause { HasCause (S.faults source.old) (S.faults source.new) result }
{
    fill(source, piece).map_err(|_| RecordFault::Read)
}

/// The next bytes of a source, at most so many: fewer only where no more are left.
fn read_bytes<S: Source>(
    alloc: Global,
    source: &mut S,
    count: usize,
) -> Result<Vec<u8>, RecordFault>
    ensures took { IfOk result (λ bytes. Took (S.left source.old) (S.left source.new) bytes.items) }
    ensures few { IfOk result (λ bytes. length bytes.items ≤ count) }
    ensures ends { IfOk result (λ bytes. length bytes.items < count → IsAtEnd (S.left source.new)) }
    ensures rest { IsRest (S.left source.old) (S.left source.new) }
    ensures other { IsErrOf result faults.NoRecord → ⊥ }
    ensures kinds { IfErr result IsReadFault }
    ensures later { S.faults source.old ≤ S.faults source.new }
    ensures failed { IsErrOf result faults.Read → Rose (S.faults source.old) (S.faults source.new) }
{
    let mut bytes = Vec::new(alloc);
    let mut piece = [0; PIECE_BYTES];
    while bytes.len() < count {
        let room = (count - bytes.len()).min(PIECE_BYTES);
        let read = read_piece(source, &mut piece[..room])?;
        add(&mut bytes, &piece[..read])?;
        if read < room {
            return Ok(bytes);
        }
    }
    Ok(bytes)
}

/// The length of the input that the head of a record tells. None where the bytes are no head: another magic, not 16 bytes, or a
/// longer input.
fn told_length(head: &[u8]) -> Option<usize>
    ensures told { IfSome result (λ n. head.now ≡ record_magic ++ big_bytes 8 n) }
    ensures short { IfSome result (λ n. n ≤ longest_part) }
    ensures none { result ≡ None → (n : ℕ) → n ≤ longest_part → head.now ≡ record_magic ++ big_bytes 8 n → ⊥ }
{
    let number = head.strip_prefix(&MAGIC)?;
    if number.len() != LENGTH_BYTES {
        return None;
    }
    let length = BigEndian::read_u64(number);
    if length > LONGEST_PART as u64 {
        return None;
    }
    Some(length as usize)
}

/// The magic of a record, and the length of its input.
fn read_head<S: Source>(source: &mut S) -> Result<usize, RecordFault>
    ensures took { IfOk result (λ n. Took (S.left source.old) (S.left source.new) (record_magic ++ big_bytes 8 n)) }
    ensures short { IfOk result (λ n. n ≤ longest_part) }
    ensures rest { IsRest (S.left source.old) (S.left source.new) }
    ensures none { IsErrOf result faults.NoRecord → IsNoRecord (S.left source.old) }
    ensures kinds { IfErr result IsReadFault }
    ensures later { S.faults source.old ≤ S.faults source.new }
    ensures failed { IsErrOf result faults.Read → Rose (S.faults source.old) (S.faults source.new) }
{
    let mut head = [0; HEAD];
    let count = read_piece(source, &mut head)?;
    told_length(&head[..count]).ok_or(RecordFault::NoRecord)
}

/// Reads a record, and its source to the end (profile). `NoRecord` where the bytes are none; `Read` only where the source's
/// count of faults rose; `NoMemory` where there is none for the two parts. Each fault leaves a rest of the source.
pub fn read_record<S: Source>(alloc: Global, source: &mut S) -> Result<Record, RecordFault>
    ensures took { IfOk result (λ found. TookRecord (S.left source.old)
        (S.left source.new) found.input.items found.output.items) }
    ensures rest { IsRest (S.left source.old) (S.left source.new) }
    ensures none { IsErrOf result faults.NoRecord → IsNoRecord (S.left source.old) }
    ensures kinds { IfErr result IsReadFault }
    ensures later { S.faults source.old ≤ S.faults source.new }
    ensures failed { IsErrOf result faults.Read → Rose (S.faults source.old) (S.faults source.new) }
{
    let length = read_head(source)?;
    let input = read_bytes(alloc, source, length)?;
    if input.len() < length {
        return Err(RecordFault::NoRecord);
    }
    let output = read_bytes(alloc, source, LONGEST_PART + 1)?;
    if output.len() > LONGEST_PART {
        return Err(RecordFault::NoRecord);
    }
    Ok(Record { input, output })
}
