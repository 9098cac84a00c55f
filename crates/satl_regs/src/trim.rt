//! The payload of a trim.

ghost use Rattle.std.specs.Prelude.{◌≡◌, ◌+◌, ◌*◌, ◌<◌, ◌≤◌, ◌^◌, ◌++◌, take, drop, length};
ghost use Rattle.std.specs.List.{filter, AllByRecursion};
ghost use Rattle.byteorder.specs.Endian.{little_bytes, little_number};
ghost use Rattle.arrayvec.specs.ArrayVec.{array_vec_len};
ghost use Rattle.satl_regs.specs.Trim.{FitsEntry, IsTrimList, IsTrimmable, addresses, entries, entry_number, padded_bytes, payload, split, trim_block, trim_entry, trimmed};
ghost use Rattle.satl_base.specs.Blocks.{is_used};

use crate::fields::low_48;
use arrayvec::ArrayVec;
use byteorder::{ByteOrder, LittleEndian};
use satl_base::{Block, Range, push_used};

fn push_split(out: &mut ArrayVec<Range, 64>, range: Range)
    requires room { array_vec_len out.old + length (split range) ≤ 64 }
    requires fits { IsTrimmable range }
    ensures { out.new.items ≡ out.old.items ++ split range }
{
    if range.count == 65_536 {
        out.push(Range {
            lba: range.lba,
            count: 65_535,
        });
        out.push(Range {
            lba: range.lba + 65_535,
            count: 1,
        });
    } else {
        out.push(range);
    }
}

fn entries_of(ranges: &[Range]) -> ArrayVec<Range, 64>
    requires { IsTrimList ranges.now }
    ensures { result.items ≡ entries ranges.now }
{
    let mut out = ArrayVec::new();
    for range in ranges {
        push_split(&mut out, *range);
    }
    out
}

fn number_of(range: Range) -> u64
    requires lba { range.lba < 2 ^ 48 }
    requires count { range.count < 2 ^ 16 }
    ensures { result ≡ entry_number range }
{
    range.lba | u64::from(range.count) << 48
}

fn put_number(bytes: &mut [u8; 512], at: usize, number: u64)
    requires { at + 8 ≤ 512 }
    ensures { bytes.new ≡ take at bytes.old ++ (little_bytes 8 number ++ drop (at + 8) bytes.old) }
{
    LittleEndian::write_u64(&mut bytes[at..at + 8], number);
}

fn filled(entries: &[Range]) -> [u8; 512]
    requires fits { AllByRecursion FitsEntry entries.now }
    requires room { length entries.now ≤ 64 }
    ensures { result ≡ padded_bytes (payload entries.now) }
{
    let mut bytes = [0u8; 512];
    for (place, entry) in entries.iter().enumerate() {
        put_number(&mut bytes, 8 * place, number_of(*entry));
    }
    bytes
}

/// The block of entries that trims these ranges (ACS-3 section 7, DATA SET MANAGEMENT).
///
/// A range of 65,536 blocks takes two entries, each other range one.
pub fn trim_bytes(ranges: &[Range]) -> Block
    requires { IsTrimList ranges.now }
    ensures exact { result.bytes ≡ trim_block ranges.now }
    ensures again { trimmed result.bytes ≡ filter is_used (entries ranges.now) }
    ensures same { addresses (trimmed result.bytes) ≡ addresses ranges.now }
{
    let split = entries_of(ranges);
    Block {
        bytes: filled(&split),
    }
}

fn entry_in(block: &[u8; 512], at: usize) -> Range
    requires { at + 8 ≤ 512 }
    ensures { result ≡ trim_entry (little_number 8 (drop at block.now)) }
{
    let number = LittleEndian::read_u64(&block[at..]);
    Range {
        lba: low_48(number),
        count: (number >> 48) as u32,
    }
}

/// The ranges that a block of entries trims, in order, without unused entries (ACS-3 section 7, DATA SET MANAGEMENT).
pub fn read_trim(block: &Block) -> ArrayVec<Range, 64>
    ensures { result.items ≡ trimmed block.now.bytes }
{
    let mut out = ArrayVec::new();
    for place in 0..64 {
        let entry = entry_in(&block.bytes, 8 * place);
        push_used(&mut out, entry);
    }
    out
}
