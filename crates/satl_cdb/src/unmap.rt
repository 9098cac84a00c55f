// The parameter list of UNMAP (SBC-3).

ghost use Rattle.std.specs.Prelude.{◌≡◌, ◌<◌, ◌≤◌, ◌+◌, ◌*◌, ◌/◌, IfOk, IfErr, Some, None, filter, length};
ghost use Rattle.satl_base.specs.Limits.{most_ranges};
ghost use Rattle.satl_cdb.specs.Unmap.{descriptor, descriptors_from, descriptor_fault, list_fault, ranges_of};
ghost use Rattle.satl_base.specs.Blocks.{is_used};

use crate::command::Illegal;
use crate::list::{u16_at, u32_at, u64_at};
use arrayvec::ArrayVec;
use satl_base::{MOST_COVERED, MOST_RANGES, Pages, Range, push_used};

#[tactic(auto, unfolding(crate::specs::Unmap::descriptor))]
fn descriptor_at(list: &Pages, i: usize) -> Range
    requires i { i < most_ranges }
    requires room { 8 + 16 * (i + 1) ≤ 512 * length list.now }
    ensures { result ≡ descriptor list.now i }
{
    Range {
        lba: u64_at(list, 8 + 16 * i),
        count: u32_at(list, 16 + 16 * i),
    }
}

/// The ranges of the first `count` descriptors, or the first fault of one.
fn ranges_up_to(
    list: &Pages,
    count: usize,
    capacity: u64,
) -> Result<ArrayVec<Range, MOST_RANGES>, Illegal>
    requires count { count ≤ most_ranges }
    requires room { 8 + 16 * count ≤ 512 * length list.now }
    ensures ranges { IfOk result (λ ranges. (descriptor_fault capacity 0 0 (descriptors_from 0 count list.now) ≡ None)
        × (ranges.items ≡ filter is_used (descriptors_from 0 count list.now))) }
    ensures refusal { IfErr result (λ refusal.
        descriptor_fault capacity 0 0 (descriptors_from 0 count list.now) ≡ Some refusal) }
{
    let mut ranges = ArrayVec::new();
    let mut sum = 0;
    for i in 0..count {
        let range = descriptor_at(list, i);
        if range.goes_past(capacity) {
            return Err(Illegal::list_out_of_range());
        }
        if range.count > MOST_COVERED - sum {
            return Err(Illegal::invalid_list_field(16 + 16 * i as u16));
        }
        sum += range.count;
        push_used(&mut ranges, range);
    }
    Ok(ranges)
}

/// The ranges of a parameter list of UNMAP of `list_length` bytes, in the order of its descriptors and without those of no
/// block, for a medium of `capacity` blocks. `Err` has the first fault: PARAMETER LIST LENGTH ERROR where the block
/// descriptors exceed the list, INVALID FIELD IN PARAMETER LIST at byte 2 where more than 64 are whole, and then by
/// descriptor LOGICAL BLOCK ADDRESS OUT OF RANGE, or INVALID FIELD IN PARAMETER LIST at the count with which the sum of
/// counts exceeds 65,536 (SBC-3, UNMAP command; the limits, and that such a list is refused: profile).
pub fn read_unmap_list(
    list: &Pages,
    list_length: u16,
    capacity: u64,
) -> Result<ArrayVec<Range, MOST_RANGES>, Illegal>
    requires header { 8 ≤ list_length }
    requires whole { list_length ≤ 512 * length list.now }
    ensures ranges { IfOk result (λ ranges. (list_fault list.now list_length capacity ≡ None)
        × (ranges.items ≡ ranges_of list.now)) }
    ensures refusal { IfErr result (λ refusal. list_fault list.now list_length capacity ≡ Some refusal) }
{
    let descriptors_length = u16_at(list, 2);
    if u32::from(descriptors_length) + 8 > u32::from(list_length) {
        return Err(Illegal::list_length_error());
    }
    let count = usize::from(descriptors_length / 16);
    if count > MOST_RANGES {
        return Err(Illegal::invalid_list_field(2));
    }
    ranges_up_to(list, count, capacity)
}
