// Judging a MODE SELECT parameter list.

ghost use Rattle.std.specs.Prelude.{◌≡◌, ◌≤◌, ◌<◌, ◌+◌, ◌*◌, ◌^◌, ◌==◌, ◌&&◌, not, IfOk, length, map};
ghost use Rattle.satl_mode.specs.ModePages.{row_of, size_of};
ghost use Rattle.satl_mode.specs.Descriptors.{block_fields, descriptor_size};
ghost use Rattle.satl_mode.specs.Changes.{AreModesOf, IsChangeOf, KeepsFixed, applied, change_in, descriptor_length, first_page, header_size};
ghost use Rattle.satl_mode.specs.SelectList.{agrees, descriptor_length_place, descriptor_rules, descriptor_sized, difference, field_rule, first_broken, front_rules, has_long_lba, pages_rules, select_says, unless_fault};

use crate::bits::{LONGLBA, LONGLBA_BYTE};
use crate::change::{apply, descriptor_length, first_page, header_size, page_at, select_change};
use crate::descriptor::{Descriptor, short_capacity};
use crate::page::{CHANGEABLE_VALUES, CURRENT_VALUES, ModePage, shown_by};
use satl_base::{Modes, Pages};
use satl_cdb::Illegal;
use satl_cdb::list::{byte_of, u24_at, u32_at, u64_at};
use satl_identify::Identity;

fn has_long_lba(list: &Pages, ten: bool) -> bool
    requires { header_size ten ≤ 512 * length list.now }
    ensures { result ≡ has_long_lba ten list.now }
{
    ten && byte_of(list, LONGLBA_BYTE) & LONGLBA == LONGLBA
}

/// The descriptor of a length.
fn descriptor_sized(long: bool, size: u16) -> Option<Descriptor>
    ensures { result ≡ descriptor_sized long size }
{
    match size {
        0 => Some(Descriptor::Absent),
        8 => Some(Descriptor::Short),
        16 if long => Some(Descriptor::Long),
        _ => None,
    }
}

fn descriptor_length_place(ten: bool) -> u16
    ensures { result ≡ descriptor_length_place ten }
{
    if ten { 6 } else { 3 }
}

/// Whether a field is neither 0 nor what MODE SENSE shows.
fn is_other(value: u64, shown: u64) -> bool
    ensures { result ≡ (not (value == 0) && not (value == shown)) }
{
    value != 0 && value != shown
}

fn check_fields(
    descriptor: Descriptor,
    capacity: u64,
    list: &Pages,
    place: u16,
) -> Result<(), Illegal>
    requires place { place ≤ 8 }
    requires room { place + descriptor_size descriptor ≤ 512 * length list.now }
    ensures { result ≡ unless_fault (first_broken (map (field_rule list.now place) (block_fields descriptor capacity))) tt }
{
    let first = usize::from(place);
    match descriptor {
        Descriptor::Absent => Ok(()),
        Descriptor::Short => {
            let shown = u64::from(short_capacity(capacity));
            if is_other(u64::from(u32_at(list, first)), shown) {
                return Err(Illegal::invalid_list_field(place));
            }
            if is_other(u64::from(u24_at(list, first + 5)), 512) {
                return Err(Illegal::invalid_list_field(place + 5));
            }
            Ok(())
        }
        Descriptor::Long => {
            if is_other(u64_at(list, first), capacity) {
                return Err(Illegal::invalid_list_field(place));
            }
            if is_other(u64::from(u32_at(list, first + 12)), 512) {
                return Err(Illegal::invalid_list_field(place + 12));
            }
            Ok(())
        }
    }
}

fn check_descriptor(
    descriptor: Option<Descriptor>,
    capacity: u64,
    list: &Pages,
    list_length: u16,
    ten: bool,
) -> Result<(), Illegal>
    requires { list_length ≤ 512 * length list.now }
    ensures { result ≡ unless_fault (first_broken (descriptor_rules descriptor capacity list.now list_length ten)) tt }
{
    let Some(descriptor) = descriptor else {
        return Err(Illegal::invalid_list_field(descriptor_length_place(ten)));
    };
    let place = header_size(ten);
    if list_length < place + u16::from(descriptor.size()) {
        return Err(Illegal::list_length_error());
    }
    check_fields(descriptor, capacity, list, place)
}

fn check_front(capacity: u64, list: &Pages, list_length: u16, ten: bool) -> Result<(), Illegal>
    requires { list_length ≤ 512 * length list.now }
    ensures says { result ≡ unless_fault (first_broken (front_rules capacity list.now list_length ten)) tt }
    ensures header { IfOk result (λ _. header_size ten ≤ list_length) }
{
    if list_length < header_size(ten) {
        return Err(Illegal::list_length_error());
    }
    let long = has_long_lba(list, ten);
    let size = descriptor_length(list, ten);
    check_descriptor(
        descriptor_sized(long, size),
        capacity,
        list,
        list_length,
        ten,
    )
}

/// Whether a byte of a page agrees with the current page in each bit that can't change.
fn agrees(
    identity: &Identity,
    modes: &Modes,
    list: &Pages,
    page: ModePage,
    place: usize,
    at: usize,
) -> bool
    requires place { place + at < 2 ^ 16 }
    requires room { place + at < 512 * length list.now }
    ensures { result ≡ agrees identity.now modes.now list.now page place at }
{
    let kept = !page.byte(&shown_by(CHANGEABLE_VALUES, identity, modes), at);
    let current = page.byte(&shown_by(CURRENT_VALUES, identity, modes), at);
    byte_of(list, place + at) & kept == current & kept
}

/// The first byte of a page that does not agree.
fn difference(
    identity: &Identity,
    modes: &Modes,
    list: &Pages,
    page: ModePage,
    place: usize,
) -> Option<u16>
    requires place { place + size_of page < 2 ^ 16 }
    requires room { place + size_of page ≤ 512 * length list.now }
    ensures { result ≡ difference identity.now modes.now list.now page place 2 (row_of page).length }
{
    for at in 2..page.size() {
        if !agrees(identity, modes, list, page, place, at) {
            return Some((place + at) as u16);
        }
    }
    None
}

fn check_pages(
    identity: &Identity,
    modes: &Modes,
    list: &Pages,
    list_length: u16,
    first: usize,
) -> Result<(), Illegal>
    requires first { first < 2 ^ 17 }
    requires whole { list_length ≤ 512 * length list.now }
    ensures { result ≡ unless_fault (first_broken (pages_rules identity.now modes.now list.now list_length list_length first))
        tt }
{
    let mut place = first;
    while place < usize::from(list_length) {
        let page = page_at(list, list_length, place)?;
        if let Some(byte) = difference(identity, modes, list, page, place) {
            return Err(Illegal::invalid_list_field(byte));
        }
        place += page.size();
    }
    Ok(())
}

#[tactic(auto, unfolding(crate::specs::SelectList::select_says), using(crate::proofs::RuleLemmas::joined_rules))]
fn judge(
    identity: &Identity,
    modes: &Modes,
    list: &Pages,
    list_length: u16,
    ten: bool,
) -> Result<Modes, Illegal>
    requires { list_length ≤ 512 * length list.now }
    ensures { result ≡ select_says identity.now modes.now list.now list_length ten }
{
    if list_length != 0 {
        check_front(identity.capacity, list, list_length, ten)?;
        check_pages(identity, modes, list, list_length, first_page(list, ten))?;
    }
    Ok(apply(modes, &select_change(list, list_length, ten)))
}

/// The modes with the changes of a MODE SELECT parameter list of `list_length` bytes, for the drive with this identity and with
/// these modes (SPC-4, MODE SELECT commands and 7.5; SBC-3). An empty list changes nothing.
///
/// `Err` is the first fault, from the left (profile). PARAMETER LIST LENGTH ERROR: the header, the block descriptor or a page
/// is not whole. INVALID FIELD IN PARAMETER LIST, with a pointer to its byte: a descriptor length other than 0, 8, or 16 with
/// LONGLBA; a number of blocks or a block length that is neither 0 nor what MODE SENSE shows; a page that there is not; a page
/// length other than the page's; a byte that differs from the current page in a bit that can't change.
pub fn read_select(
    identity: &Identity,
    modes: &Modes,
    list: &Pages,
    list_length: u16,
    ten: bool,
) -> Result<Modes, Illegal>
    requires { list_length ≤ 512 * length list.now }
    ensures says { result ≡ select_says identity.now modes.now list.now list_length ten }
    // The modes are those that `apply` gives with what `select_change` finds.
    ensures applied { IfOk result (λ new. new ≡ applied modes.now (change_in list.now list_length ten)) }
    // A bit that the drive can't change stays as it is, now and when the change is applied to other modes of the drive.
    ensures fixed { IfOk result (λ new. KeepsFixed identity.now modes.now new) }
    ensures change { AreModesOf identity.now modes.now
        → IfOk result (λ new. IsChangeOf identity.now (change_in list.now list_length ten)) }
{
    judge(identity, modes, list, list_length, ten)
}
