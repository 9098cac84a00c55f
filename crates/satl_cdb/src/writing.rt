// Writing command descriptor blocks.

ghost use Rattle.std.specs.Prelude.{◌≡◌, ◌<◌, ℕ, Bool, true, Ok, List, [], ◌∷◌};
ghost use Rattle.satl_base.specs.Fields.{IsBytes};
ghost use Rattle.satl_base.specs.Places.{laid, text};
ghost use Rattle.satl_cdb.specs.Table.{says};
ghost use Rattle.satl_cdb.specs.Spelling.{bit_value, cdb_bytes, lines_10, lines_12, lines_16, lines_6, page_code_byte};

use crate::codes::{
    INQUIRY, MODE_SELECT_6, MODE_SELECT_10, MODE_SENSE_6, MODE_SENSE_10, READ_6, READ_10, READ_12,
    READ_16, READ_CAPACITY_10, READ_CAPACITY_16, REPORT_LUNS, REQUEST_SENSE, SERVICE_ACTION_IN_16,
    START_STOP_UNIT, SYNCHRONIZE_CACHE_10, SYNCHRONIZE_CACHE_16, UNMAP, VERIFY_10, VERIFY_12,
    VERIFY_16, WRITE_6, WRITE_10, WRITE_12, WRITE_16, WRITE_SAME_10, WRITE_SAME_16,
};
use crate::command::{Command, Form};
use byteorder::{BigEndian, ByteOrder};

fn flag_byte(place: u8, set: bool) -> u8
    requires { place < 8 }
    ensures { result ≡ bit_value place set }
{
    if set { 1 << place } else { 0 }
}

fn six_bytes(code: u8, one: u8, two: u8, three: u8, four: u8) -> [u8; 16]
    ensures { result ≡ laid 16 (text 0 (code ∷ one ∷ two ∷ three ∷ four ∷ []) ∷ []) }
{
    [code, one, two, three, four, 0, 0, 0, 0, 0, 0, 0, 0, 0, 0, 0]
}

fn short_bytes(code: u8, lba: u64, count: u32) -> [u8; 16]
    ensures { result ≡ laid 16 (lines_6 code lba count) }
{
    let [.., high, middle, low] = lba.to_be_bytes();
    let [.., count] = count.to_be_bytes();
    six_bytes(code, high & 0x1F, middle, low, count)
}

fn ten_bytes(code: u8, one: u8, lba: u64, count: u32) -> [u8; 16]
    ensures { result ≡ laid 16 (lines_10 code one lba count) }
{
    let mut cdb = [0u8; 16];
    cdb[0] = code;
    cdb[1] = one;
    cdb[2..6].copy_from_slice(&lba.to_be_bytes()[4..]);
    cdb[7..9].copy_from_slice(&count.to_be_bytes()[2..]);
    cdb
}

fn twelve_bytes(code: u8, one: u8, lba: u64, count: u32) -> [u8; 16]
    ensures { result ≡ laid 16 (lines_12 code one lba count) }
{
    let mut cdb = [0u8; 16];
    cdb[0] = code;
    cdb[1] = one;
    cdb[2..6].copy_from_slice(&lba.to_be_bytes()[4..]);
    BigEndian::write_u32(&mut cdb[6..], count);
    cdb
}

fn sixteen_bytes(code: u8, one: u8, lba: u64, count: u32) -> [u8; 16]
    ensures { result ≡ laid 16 (lines_16 code one lba count) }
{
    let mut cdb = [0u8; 16];
    cdb[0] = code;
    cdb[1] = one;
    BigEndian::write_u64(&mut cdb[2..], lba);
    BigEndian::write_u32(&mut cdb[10..], count);
    cdb
}

#[tactic(auto, unfolding(crate::specs::Spelling::cdb_bytes))]
fn inquiry_bytes(page: Option<u8>, alloc: u16) -> [u8; 16]
    ensures { result ≡ cdb_bytes (Command.Inquiry page alloc) }
{
    let [high, low] = alloc.to_be_bytes();
    match page {
        None => six_bytes(INQUIRY, 0, 0, high, low),
        Some(page) => six_bytes(INQUIRY, flag_byte(0, true), page, high, low),
    }
}

fn page_byte(control: u8, page: u8) -> u8
    ensures { result ≡ page_code_byte control page }
{
    (control & 3) << 6 | page & 0x3F
}

#[tactic(auto, unfolding(crate::specs::Spelling::cdb_bytes))]
fn mode_sense_bytes(
    ten: bool,
    long_lba: bool,
    no_descriptor: bool,
    control: u8,
    page: u8,
    alloc: u16,
) -> [u8; 16]
    ensures { result ≡ cdb_bytes (Command.ModeSense ten long_lba no_descriptor control page alloc) }
{
    let two = page_byte(control, page);
    let [_, low] = alloc.to_be_bytes();
    if !ten {
        return six_bytes(MODE_SENSE_6, flag_byte(3, no_descriptor), two, 0, low);
    }
    let one = flag_byte(4, long_lba) | flag_byte(3, no_descriptor);
    let mut cdb = ten_bytes(MODE_SENSE_10, one, 0, u32::from(alloc));
    cdb[2] = two;
    cdb
}

#[tactic(auto, unfolding(crate::specs::Spelling::cdb_bytes))]
fn mode_select_bytes(ten: bool, length: u16) -> [u8; 16]
    ensures { result ≡ cdb_bytes (Command.ModeSelect ten length) }
{
    let page_format = flag_byte(4, true);
    let [_, low] = length.to_be_bytes();
    if ten {
        ten_bytes(MODE_SELECT_10, page_format, 0, u32::from(length))
    } else {
        six_bytes(MODE_SELECT_6, page_format, 0, 0, low)
    }
}

#[tactic(auto, unfolding(crate::specs::Spelling::cdb_bytes))]
fn report_luns_bytes(select: u8, alloc: u32) -> [u8; 16]
    ensures { result ≡ cdb_bytes (Command.ReportLuns select alloc) }
{
    let mut cdb = twelve_bytes(REPORT_LUNS, 0, 0, alloc);
    cdb[2] = select;
    cdb
}

#[tactic(auto, unfolding(crate::specs::Spelling::cdb_bytes))]
fn read_bytes(form: Form, lba: u64, count: u32, fua: bool) -> [u8; 16]
    ensures { result ≡ cdb_bytes (Command.Read form lba count fua) }
{
    let one = flag_byte(3, fua);
    match form {
        Form::Six => short_bytes(READ_6, lba, count),
        Form::Ten => ten_bytes(READ_10, one, lba, count),
        Form::Twelve => twelve_bytes(READ_12, one, lba, count),
        Form::Sixteen => sixteen_bytes(READ_16, one, lba, count),
    }
}

#[tactic(auto, unfolding(crate::specs::Spelling::cdb_bytes))]
fn write_bytes(form: Form, lba: u64, count: u32, fua: bool) -> [u8; 16]
    ensures { result ≡ cdb_bytes (Command.Write form lba count fua) }
{
    let one = flag_byte(3, fua);
    match form {
        Form::Six => short_bytes(WRITE_6, lba, count),
        Form::Ten => ten_bytes(WRITE_10, one, lba, count),
        Form::Twelve => twelve_bytes(WRITE_12, one, lba, count),
        Form::Sixteen => sixteen_bytes(WRITE_16, one, lba, count),
    }
}

#[tactic(auto, unfolding(crate::specs::Spelling::cdb_bytes))]
fn verify_bytes(form: Form, lba: u64, count: u32, compare: bool) -> [u8; 16]
    ensures { result ≡ cdb_bytes (Command.Verify form lba count compare) }
{
    let one = flag_byte(1, compare);
    match form {
        Form::Ten => ten_bytes(VERIFY_10, one, lba, count),
        Form::Twelve => twelve_bytes(VERIFY_12, one, lba, count),
        Form::Six | Form::Sixteen => sixteen_bytes(VERIFY_16, one, lba, count),
    }
}

#[tactic(auto, unfolding(crate::specs::Spelling::cdb_bytes))]
fn synchronize_cache_bytes(form: Form, lba: u64, count: u32) -> [u8; 16]
    ensures { result ≡ cdb_bytes (Command.Flush form lba count) }
{
    match form {
        Form::Ten => ten_bytes(SYNCHRONIZE_CACHE_10, 0, lba, count),
        Form::Six | Form::Twelve | Form::Sixteen => sixteen_bytes(
            SYNCHRONIZE_CACHE_16,
            0,
            lba,
            count,
        ),
    }
}

#[tactic(auto, unfolding(crate::specs::Spelling::cdb_bytes))]
fn write_same_bytes(form: Form, lba: u64, count: u32, unmap: bool) -> [u8; 16]
    ensures { result ≡ cdb_bytes (Command.WriteSame form lba count unmap) }
{
    let one = flag_byte(3, unmap);
    match form {
        Form::Ten => ten_bytes(WRITE_SAME_10, one, lba, count),
        Form::Six | Form::Twelve | Form::Sixteen => sixteen_bytes(WRITE_SAME_16, one, lba, count),
    }
}

fn pass_bytes(cdb: &[u8; 16]) -> [u8; 16]
    ensures { result ≡ laid 16 (text 0 cdb.now ∷ []) }
{
    *cdb
}

#[tactic(auto, unfolding(crate::specs::Spelling::cdb_bytes))]
fn bytes_of(command: &Command) -> [u8; 16]
    ensures { result ≡ cdb_bytes command.now }
{
    match *command {
        Command::TestUnitReady => [0; 16],
        Command::RequestSense { descriptor, alloc } => {
            six_bytes(REQUEST_SENSE, flag_byte(0, descriptor), 0, 0, alloc)
        }
        Command::Inquiry { page, alloc } => inquiry_bytes(page, alloc),
        Command::ModeSense {
            ten,
            long_lba,
            no_descriptor,
            control,
            page,
            alloc,
        } => mode_sense_bytes(ten, long_lba, no_descriptor, control, page, alloc),
        Command::ModeSelect { ten, length } => mode_select_bytes(ten, length),
        Command::StartStop { start, no_flush } => {
            let four = flag_byte(2, no_flush) | flag_byte(0, start);
            six_bytes(START_STOP_UNIT, 0, 0, 0, four)
        }
        Command::ReadCapacity10 => six_bytes(READ_CAPACITY_10, 0, 0, 0, 0),
        Command::ReadCapacity16 { alloc } => sixteen_bytes(
            SERVICE_ACTION_IN_16,
            READ_CAPACITY_16,
            0,
            alloc,
        ),
        Command::ReportLuns { select, alloc } => report_luns_bytes(select, alloc),
        Command::Read {
            form,
            lba,
            count,
            fua,
        } => read_bytes(form, lba, count, fua),
        Command::Write {
            form,
            lba,
            count,
            fua,
        } => write_bytes(form, lba, count, fua),
        Command::Verify {
            form,
            lba,
            count,
            compare,
        } => verify_bytes(form, lba, count, compare),
        Command::Flush { form, lba, count } => synchronize_cache_bytes(form, lba, count),
        Command::WriteSame {
            form,
            lba,
            count,
            unmap,
        } => write_same_bytes(form, lba, count, unmap),
        Command::Unmap { length } => ten_bytes(UNMAP, 0, 0, u32::from(length)),
        Command::Pass { cdb } => pass_bytes(&cdb),
    }
}

/// The bytes of a command, with zeros after the end of its form. Reserved bits, DPO, IMMED and the control byte are 0,
/// PF is 1; a number is cut to its field, and a form that the command does not have is written as the one of 16 bytes. Each
/// command that `read_cdb` gives is read back as it was, on a drive with trim (SPC-4, SBC-3, SAT-3).
pub fn write_cdb(command: &Command) -> [u8; 16]
    ensures written { result ≡ cdb_bytes command.now }
    ensures read_back { (cdb : List ℕ) (trim : Bool) → IsBytes cdb → says cdb trim ≡ Ok command.now
        → says result true ≡ Ok command.now }
{
    bytes_of(command)
}
