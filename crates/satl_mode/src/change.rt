// What a MODE SELECT parameter list sets.

ghost use Rattle.std.specs.Prelude.{◌≡◌, ◌==◌, ◌≤◌, ◌<◌, ◌+◌, ◌*◌, ◌^◌, IfOk, length};
ghost use Rattle.satl_identify.specs.declared.identity.Identity.{Identity as Drive};
ghost use Rattle.satl_mode.specs.ModePages.{page_coded, size_of};
ghost use Rattle.satl_mode.specs.Changes.{applied, change_from, change_in, descriptor_length, first_page, header_size, list_bit, no_change, page_at, whole_page, with_page, AreModesOf, IsChangeOf};

use crate::bits::{D_SENSE_BIT, D_SENSE_BYTE, DRA_BIT, DRA_BYTE, PS, WCE_BIT, WCE_BYTE};
use crate::page::{ModePage, page_coded};
use satl_base::{ModeChange, Modes, Pages};
use satl_cdb::Illegal;
use satl_cdb::list::{byte_of, u16_at};

fn no_change() -> ModeChange
    ensures { result ≡ no_change }
{
    ModeChange::default()
}

/// The bytes of the header.
pub fn header_size(ten: bool) -> u16
    ensures { result ≡ header_size ten }
{
    if ten { 8 } else { 4 }
}

/// BLOCK DESCRIPTOR LENGTH (SPC-4 7.5).
pub fn descriptor_length(list: &Pages, ten: bool) -> u16
    requires { header_size ten ≤ 512 * length list.now }
    ensures { result ≡ descriptor_length ten list.now }
{
    if ten {
        u16_at(list, 6)
    } else {
        u16::from(byte_of(list, 3))
    }
}

/// The place of the first page.
pub fn first_page(list: &Pages, ten: bool) -> usize
    requires { header_size ten ≤ 512 * length list.now }
    ensures value { result ≡ first_page ten list.now }
    ensures most { result < 2 ^ 17 }
{
    usize::from(header_size(ten)) + usize::from(descriptor_length(list, ten))
}

/// The page of the profile that stands whole at a place.
fn whole_page(
    page: Option<ModePage>,
    list: &Pages,
    list_length: u16,
    place: usize,
) -> Result<ModePage, Illegal>
    requires within { place + 2 ≤ list_length }
    requires whole { list_length ≤ 512 * length list.now }
    ensures says { result ≡ whole_page page list.now list_length place }
    ensures fits { IfOk result (λ page. place + size_of page ≤ list_length) }
{
    let Some(page) = page else {
        return Err(Illegal::invalid_list_field(place as u16));
    };
    if byte_of(list, place + 1) != page.length() {
        return Err(Illegal::invalid_list_field(place as u16 + 1));
    }
    if place + page.size() > usize::from(list_length) {
        return Err(Illegal::list_length_error());
    }
    Ok(page)
}

/// The page at a place, or why there is none.
pub fn page_at(list: &Pages, list_length: u16, place: usize) -> Result<ModePage, Illegal>
    requires place { place < 2 ^ 17 }
    requires whole { list_length ≤ 512 * length list.now }
    ensures says { result ≡ page_at list.now list_length place }
    ensures fits { IfOk result (λ page. place + size_of page ≤ list_length) }
{
    if place + 2 > usize::from(list_length) {
        return Err(Illegal::list_length_error());
    }
    whole_page(
        page_coded(byte_of(list, place) & !PS),
        list,
        list_length,
        place,
    )
}

fn flag(list: &Pages, place: usize, low: u8) -> bool
    requires place { place < 2 ^ 16 }
    requires room { place < 512 * length list.now }
    requires low { low < 8 }
    ensures { result ≡ list_bit list.now place low }
{
    byte_of(list, place) >> low & 1 == 1
}

fn with_page(page: ModePage, list: &Pages, place: usize, change: ModeChange) -> ModeChange
    requires place { place + size_of page < 2 ^ 16 }
    requires room { place + size_of page ≤ 512 * length list.now }
    ensures { result ≡ with_page page list.now place change }
{
    match page {
        ModePage::ErrorRecovery | ModePage::InformationalExceptions => change,
        ModePage::Caching => ModeChange {
            wce: Some(flag(list, place + WCE_BYTE, WCE_BIT)),
            dra: Some(flag(list, place + DRA_BYTE, DRA_BIT)),
            d_sense: change.d_sense,
        },
        ModePage::Control => ModeChange {
            d_sense: Some(flag(list, place + D_SENSE_BYTE, D_SENSE_BIT)),
            ..change
        },
    }
}

fn change_from(list: &Pages, list_length: u16, first: usize) -> ModeChange
    requires place { first < 2 ^ 17 }
    requires whole { list_length ≤ 512 * length list.now }
    ensures { result ≡ change_from list_length list.now list_length first no_change }
{
    let mut place = first;
    let mut change = no_change();
    while let Ok(page) = page_at(list, list_length, place) {
        change = with_page(page, list, place, change);
        place += page.size();
    }
    change
}

/// What a parameter list of `list_length` bytes sets: each value that a page of it has, the last such page counting. The
/// pages up to the end count, or up to what is no whole page of the profile; a list without a whole header sets nothing (SPC-4,
/// MODE SELECT commands).
pub fn select_change(list: &Pages, list_length: u16, ten: bool) -> ModeChange
    requires { list_length ≤ 512 * length list.now }
    ensures { result ≡ change_in list.now list_length ten }
{
    if list_length < header_size(ten) {
        return no_change();
    }
    change_from(list, list_length, first_page(list, ten))
}

/// The modes with a change: each value that it sets (SPC-4, MODE SELECT commands).
pub fn apply(modes: &Modes, change: &ModeChange) -> Modes
    ensures value { result ≡ applied modes.now change.now }
    // Modes that a drive can have stay such with a change that its lists make.
    ensures kept { (drive : Drive) → AreModesOf drive modes.now → IsChangeOf drive change.now → AreModesOf drive result }
{
    Modes {
        wce: change.wce.unwrap_or(modes.wce),
        dra: change.dra.unwrap_or(modes.dra),
        d_sense: change.d_sense.unwrap_or(modes.d_sense),
    }
}
