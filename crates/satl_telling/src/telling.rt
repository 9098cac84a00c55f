// Data-in of commands that are answered at once.
ghost use Rattle.std.specs.Prelude.{◌≡◌, ◌≤◌, ◌+◌, [], length, unwrap_or};
ghost use Rattle.satl_vpd.specs.Luns.{lun_list};
ghost use Rattle.satl_vpd.specs.Vital.{vpd_page};
ghost use Rattle.satl_frame.specs.DataPages.{padded_block, pages_of};
ghost use Rattle.satl_frame.specs.Output.{IsWritable};
ghost use Rattle.satl_direct.specs.Arrival.{good_with_data};
ghost use Rattle.satl_base.specs.Limits.{IsExpectable};
ghost use Rattle.satl_telling.specs.Telling.{data_text};

use arrayvec::ArrayVec;
use satl_base::{Block, Modes, Pages, Reply, Request, Scsi, append};
use satl_identify::Identity;
use satl_mode::{ModeSense, mode_sense};
use satl_pages::Pool;
use satl_sense::{Sense, sense_bytes};
use satl_vpd::{capacity10, capacity16, inquiry, luns, vpd};

/// What the device says of itself in data-in (profile).
#[derive(Clone, Copy, Debug, PartialEq, Eq)]
pub enum Data {
    /// The standard INQUIRY data, or the page of vital product data of a PAGE CODE.
    Inquiry(Option<u8>),
    /// The standard INQUIRY data of a LUN at which there is no logical unit.
    NoUnit,
    /// Mode pages, as a MODE SENSE asks for them.
    Modes(ModeSense),
    /// The capacity, as READ CAPACITY (10) tells it.
    Capacity10,
    /// The capacity, as READ CAPACITY (16) tells it.
    Capacity16,
    /// The list of LUNs by SELECT REPORT.
    Luns(u8),
    /// Sense data, as a REQUEST SENSE asks for them.
    Sense {
        /// DESC: in the descriptor form, and not in the fixed form.
        descriptor: bool,
        /// What they say.
        sense: Sense,
    },
}

/// The room of a text in bytes. The longest, the page of ATA information (SAT-3), has 572.
const TEXT_ROOM: usize = 576;

/// Data-in before they are cut.
pub type Text = ArrayVec<u8, TEXT_ROOM>;

fn text(bytes: &[u8]) -> Text
    requires { length bytes.now ≤ TEXT_ROOM }
    ensures { result.items ≡ bytes.now }
{
    let mut text = Text::new();
    append(&mut text, bytes);
    text
}

/// A page of vital product data, or nothing where there is none of this code.
fn page_text(identity: &Identity, page: u8) -> Text
    ensures { result.items ≡ unwrap_or (vpd_page page identity.now) [] }
{
    match vpd(identity, page) {
        Some(text) => text,
        None => Text::new(),
    }
}

/// The list of LUNs by SELECT REPORT: 1, the well known units alone, lists none, and each other value LUN 0 (SPC-4, REPORT LUNS
/// command).
fn lun_text(select: u8) -> Text
    ensures { result.items ≡ lun_list select }
{
    if select == 1 {
        text(&luns(1))
    } else {
        text(&luns(0))
    }
}

/// What the device says of itself (SPC-4 6, SBC-3 5).
pub fn data_text(identity: &Identity, modes: &Modes, what: &Data) -> Text
    requires { 1 ≤ identity.now.capacity }
    ensures { result.items ≡ data_text identity.now modes.now what.now }
{
    match *what {
        Data::Inquiry(None) => text(&inquiry(identity, true)),
        Data::Inquiry(Some(page)) => page_text(identity, page),
        Data::NoUnit => text(&inquiry(identity, false)),
        Data::Modes(asked) => text(&mode_sense(identity, modes, &asked)),
        Data::Capacity10 => text(&capacity10(identity)),
        Data::Capacity16 => text(&capacity16(identity)),
        Data::Luns(select) => lun_text(select),
        Data::Sense { descriptor, sense } => text(&sense_bytes(&sense, descriptor)),
    }
}

/// A block of the first 512 bytes, with zeros for those that are missing (profile).
pub fn padded(bytes: &[u8]) -> Block
    ensures { result ≡ padded_block bytes.now }
{
    let count = bytes.len().min(512);
    let mut block = [0; 512];
    block[..count].copy_from_slice(&bytes[..count]);
    Block { bytes: block }
}

/// At most 1,024 bytes in pages of the pool, 512 in each; what is left of the last page is zero. The last page is filled first,
/// as each is put before those that are done.
fn in_pages(pool: &mut Pool, bytes: &[u8]) -> Pages
    requires few { length bytes.now ≤ 1024 }
    requires room { 2 ≤ pool.old.free }
    ensures pages { result ≡ pages_of bytes.now }
    ensures free { pool.new.free + length result ≡ pool.old.free }
    ensures out { pool.new.out ≡ pool.old.out + length result }
{
    let mut left = bytes.len().div_ceil(512) as u32;
    let Some(mut fresh) = pool.take(left) else {
        unreachable!();
    };
    let mut done = Pages::default();
    while left > 0 {
        left -= 1;
        let Some(mut page) = fresh.pop_first() else {
            unreachable!();
        };
        page.set(&padded(&bytes[512 * left as usize..]));
        done.push_first(page);
    }
    done
}

/// GOOD with what the device says of itself, cut to the allocation length in bytes (SPC-4 4.3.5.6), in at most two pages of the
/// pool. A function of its own, so that no other answer pays for the room of its text.
pub fn tell(
    pool: &mut Pool,
    identity: &Identity,
    modes: &Modes,
    request: &Request,
    what: &Data,
    alloc: u32,
) -> Reply
    requires capacity { 1 ≤ identity.now.capacity }
    requires room { 2 ≤ pool.old.free }
    ensures reply { result ≡ good_with_data request.now alloc (data_text identity.now modes.now what.now) }
    ensures free { pool.new.free + length result.body ≡ pool.old.free }
    ensures out { pool.new.out ≡ pool.old.out + length result.body }
    ensures writable { IsExpectable request.now.expected → IsWritable result }
{
    told(pool, request, alloc, &data_text(identity, modes, what))
}

/// GOOD with data-in, cut to the allocation length (SPC-4 4.3.5.6).
fn told(pool: &mut Pool, request: &Request, alloc: u32, text: &[u8]) -> Reply
    requires few { length text.now ≤ TEXT_ROOM }
    requires room { 2 ≤ pool.old.free }
    ensures reply { result ≡ good_with_data request.now alloc text.now }
    ensures free { pool.new.free + length result.body ≡ pool.old.free }
    ensures out { pool.new.out ≡ pool.old.out + length result.body }
    ensures writable { IsExpectable request.now.expected → IsWritable result }
{
    let cut = &text[..text.len().min(alloc as usize)];
    let body = in_pages(pool, cut);
    Reply {
        nexus: request.nexus,
        tag: request.tag,
        status: Scsi::Good,
        sense: ArrayVec::new(),
        body,
        data_len: cut.len() as u32,
        expected: request.expected,
    }
}
