// MODE SENSE.

ghost use Rattle.std.specs.Prelude.{◌≡◌, ◌≤◌, ◌+◌, ◌++◌, length};
ghost use Rattle.arrayvec.specs.ArrayVec.{array_vec_len};
ghost use Rattle.satl_mode.specs.Descriptors.{descriptor_bytes};
ghost use Rattle.satl_mode.specs.ModePages.{page_bytes, pages_bytes, size_of};
ghost use Rattle.satl_mode.specs.ModeData.{header, long_lba_bit, mode_data, pages_asked, with_header};

use crate::bits::{DPOFUA, LONGLBA};
use crate::descriptor::Descriptor;
use crate::page::{ModePage, Shown, page_coded, shown_by};
use arrayvec::ArrayVec;
use satl_base::{Modes, append};
use satl_cdb::mode_page::ALL_PAGES;
use satl_identify::Identity;

fn append_page(text: &mut ArrayVec<u8, 64>, page: ModePage, shown: &Shown)
    requires { array_vec_len text.old + size_of page ≤ 64 }
    ensures items { text.new.items ≡ text.old.items ++ page_bytes page shown.now }
    ensures len { array_vec_len text.new ≡ array_vec_len text.old + size_of page }
{
    for place in 0..page.size() {
        text.push(page.byte(shown, place));
    }
}

fn pages_of(code: u8, shown: &Shown) -> ArrayVec<u8, 64>
    ensures { result.items ≡ pages_bytes (pages_asked code) shown.now }
{
    let mut text = ArrayVec::new();
    if code == ALL_PAGES {
        append_page(&mut text, ModePage::ErrorRecovery, shown);
        append_page(&mut text, ModePage::Caching, shown);
        append_page(&mut text, ModePage::Control, shown);
        append_page(&mut text, ModePage::InformationalExceptions, shown);
    } else if let Some(page) = page_coded(code) {
        append_page(&mut text, page, shown);
    }
    text
}

fn long_lba_bit(descriptor: Descriptor) -> u8
    ensures { result ≡ long_lba_bit descriptor }
{
    match descriptor {
        Descriptor::Absent | Descriptor::Short => 0,
        Descriptor::Long => LONGLBA,
    }
}

fn append_header(text: &mut ArrayVec<u8, 128>, ten: bool, descriptor: Descriptor, rest: u8)
    requires empty { array_vec_len text.old ≡ 0 }
    requires rest { rest ≤ 80 }
    ensures items { text.new.items ≡ text.old.items ++ header ten descriptor rest }
    ensures len { array_vec_len text.new ≤ 8 }
{
    let size = descriptor.size();
    // MODE DATA LENGTH, MEDIUM TYPE, DEVICE-SPECIFIC PARAMETER, LONGLBA in a byte of its own and a reserved byte in the form of
    // ten bytes, BLOCK DESCRIPTOR LENGTH.
    if ten {
        append(
            text,
            &[0, 6 + rest, 0, DPOFUA, long_lba_bit(descriptor), 0, 0, size],
        );
    } else {
        append(text, &[3 + rest, 0, DPOFUA, size]);
    }
}

fn with_header(ten: bool, descriptor: Descriptor, rest: &[u8]) -> ArrayVec<u8, 128>
    requires { length rest.now ≤ 80 }
    ensures { result.items ≡ with_header ten descriptor rest.now }
{
    let mut text = ArrayVec::new();
    append_header(&mut text, ten, descriptor, rest.len() as u8);
    append(&mut text, rest);
    text
}

fn data_of(descriptor: Descriptor, capacity: u64, code: u8, shown: &Shown) -> ArrayVec<u8, 80>
    ensures { result.items ≡ descriptor_bytes descriptor capacity ++ pages_bytes (pages_asked code) shown.now }
{
    let mut text = ArrayVec::new();
    append(&mut text, &descriptor.bytes(capacity));
    append(&mut text, &pages_of(code, shown));
    text
}

/// What a MODE SENSE asks to be shown: its fields but for the allocation length (SPC-4, MODE SENSE commands).
#[derive(Clone, Copy, Debug, PartialEq, Eq)]
pub struct ModeSense {
    /// The command of ten bytes.
    pub ten: bool,
    /// LLBAA.
    pub long_lba: bool,
    /// DBD.
    pub no_descriptor: bool,
    /// PC, 0 to 2: current, changeable or default values. Saved values, 3, are refused before (`satl_cdb`).
    pub control: u8,
    /// The page code, 3Fh for all pages.
    pub page: u8,
}

/// The data of a MODE SENSE, before they are cut to its allocation length: header, block descriptor and pages (SPC-4, MODE
/// SENSE commands and 7.5).
#[tactic(auto, unfolding(crate::specs::ModeData::mode_data))]
pub fn mode_sense(identity: &Identity, modes: &Modes, asked: &ModeSense) -> ArrayVec<u8, 128>
    ensures { result.items ≡ mode_data identity.now modes.now asked.now }
{
    let descriptor = Descriptor::shown(asked.ten, asked.long_lba, asked.no_descriptor);
    let shown = shown_by(asked.control, identity, modes);
    with_header(
        asked.ten,
        descriptor,
        &data_of(descriptor, identity.capacity, asked.page, &shown),
    )
}
