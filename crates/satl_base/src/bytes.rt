// Bytes and ranges that are put together, the sum of bytes, and whether they are zeros.
ghost use Rattle.std.specs.Prelude.{◌≡◌, ◌≤◌, ◌<◌, ◌+◌, ◌++◌, [], ◌∷◌, filter, length};
ghost use Rattle.arrayvec.specs.ArrayVec.{array_vec_len};
ghost use Rattle.satl_base.specs.Blocks.{is_used, is_zeros};
ghost use Rattle.satl_base.specs.Identify.{checksum};

use crate::block::Range;
use arrayvec::ArrayVec;

/// Appends bytes for which there is room.
pub fn append<const N: usize>(bytes: &mut ArrayVec<u8, N>, more: &[u8])
    requires { array_vec_len bytes.old + length more.now ≤ N }
    ensures items { bytes.new.items ≡ bytes.old.items ++ more.now }
    ensures len { array_vec_len bytes.new ≡ array_vec_len bytes.old + length more.now }
{
    let Ok(()) = bytes.try_extend_from_slice(more) else {
        unreachable!();
    };
}

/// Appends a range for which there is room, unless it has no blocks: such an entry of a list is not used (SBC-3, UNMAP; ACS-3,
/// DATA SET MANAGEMENT).
pub fn push_used<const N: usize>(ranges: &mut ArrayVec<Range, N>, range: Range)
    requires { array_vec_len ranges.old < N }
    ensures items { ranges.new.items ≡ ranges.old.items ++ filter is_used (range ∷ []) }
    ensures len { array_vec_len ranges.new ≤ array_vec_len ranges.old + 1 }
{
    if range.count != 0 {
        ranges.push(range);
    }
}

/// Whether all the bytes are zeros, as those of LUN 0 are, and those of the block of a WRITE SAME that unmaps (profile).
pub fn are_zeros(bytes: &[u8]) -> bool
    ensures { result ≡ is_zeros bytes.now }
{
    bytes.iter().all(|byte| *byte == 0)
}

/// The sum of 512 bytes modulo 256, which is 0 in IDENTIFY DEVICE data with an integrity word and in a log (ACS-3 7.12.7).
#[tactic(auto, unfolding(crate::specs::Identify::checksum))]
pub fn checksum_of(bytes: &[u8; 512]) -> u8
    ensures { result ≡ checksum bytes.now }
{
    let mut sum = 0u8;
    for byte in bytes {
        sum = sum.wrapping_add(*byte);
    }
    sum
}
