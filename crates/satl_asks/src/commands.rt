// What a command goes over, needs and holds, and what is wrong with its fields.
ghost use Rattle.std.specs.Prelude.{◌≡◌, ◌⊎◌, ◌≤◌, ◌*◌, IfNone, length, if◌then◌else◌};
ghost use Rattle.satl_frame.specs.DataPages.{page_count};
ghost use Rattle.satl_cdb.specs.Unmap as unmap;
ghost use Rattle.satl_direct.specs.Tasks.{asks, held_blocks, needed, range_of};
ghost use Rattle.satl_asks.specs.Commands.{CanPass, HasList, IsList};

use arrayvec::ArrayVec;
use satl_base::{MOST_RANGES, ModeChange, Pages, Range};
use satl_cdb::{Command, Illegal, read_unmap_list};
use satl_mode::select_change;
use satl_pass::{Pass, pass_of, read_pass};

/// The range that the CDB of a command names, of no block where it names none (SBC-3 5).
pub fn range_of(command: &Command) -> Range
    ensures { result ≡ range_of command.now }
{
    match *command {
        Command::Read { lba, count, .. }
        | Command::Write { lba, count, .. }
        | Command::Verify { lba, count, .. }
        | Command::Flush { lba, count, .. }
        | Command::WriteSame { lba, count, .. } => Range { lba, count },
        _ => Range { lba: 0, count: 0 },
    }
}

/// The blocks that the task of a command holds (profile).
pub fn held_blocks(command: &Command) -> u32
    ensures { result ≡ held_blocks command.now }
{
    match *command {
        Command::Read { count, .. }
        | Command::Write { count, .. }
        | Command::Verify {
            compare: true,
            count,
            ..
        } => count,
        Command::WriteSame { .. } => 1,
        Command::Pass { cdb } => page_count(pass_of(&cdb).length),
        _ => 0,
    }
}

/// The pages that so many bytes fill.
fn page_count(length: u32) -> u32
    ensures { result ≡ page_count length }
{
    length.div_ceil(512)
}

/// Puts the ranges that the task of a command reads, writes or trims in place of others: that of a READ or a WRITE, and those
/// of the list of an UNMAP, which has no fault on a medium of this capacity (SBC-3 5.28).
pub fn put_ranges(
    command: &Command,
    body: &Pages,
    capacity: u64,
    ranges: &mut ArrayVec<Range, MOST_RANGES>,
)
    requires list { HasList command.now body.now capacity }
    ensures { ranges.new.items ≡ (asks command.now).ranges body.now }
{
    ranges.clear();
    match *command {
        Command::Read { lba, count, .. } | Command::Write { lba, count, .. } => {
            ranges.push(Range { lba, count });
        }
        Command::Unmap { length } => put_list(body, length, capacity, ranges),
        _ => {}
    }
}

/// Puts the ranges of a list in place of others. A function of its own, as only an UNMAP has to pay for room for a list.
#[inline(never)]
fn put_list(list: &Pages, length: u16, capacity: u64, ranges: &mut ArrayVec<Range, MOST_RANGES>)
    requires { IsList list.now length capacity }
    ensures { ranges.new.items ≡ unmap.ranges_of list.now }
{
    *ranges = listed_ranges(list, length, capacity);
}

/// The ranges of the list of an UNMAP that has no fault on a medium of this capacity (SBC-3 5.28).
pub fn listed_ranges(list: &Pages, length: u16, capacity: u64) -> ArrayVec<Range, MOST_RANGES>
    requires { IsList list.now length capacity }
    ensures { result.items ≡ unmap.ranges_of list.now }
{
    let Ok(ranges) = read_unmap_list(list, length, capacity) else {
        unreachable!();
    };
    ranges
}

/// The refusal of the fields of an ATA PASS-THROUGH, which the table of commands does not judge (SAT-3 12.2).
pub fn fields_fault(command: &Command) -> Option<Illegal>
    ensures fault { result ≡ (asks command.now).fields_fault }
    ensures can { IfNone result (CanPass command.now) }
{
    match *command {
        Command::Pass { cdb } => read_pass(&cdb).err(),
        _ => None,
    }
}

/// The refusal of the length of a parameter list: that of an UNMAP is 0, or has its header of 8 bytes (SBC-3 5.28).
pub fn length_fault(command: &Command) -> Option<Illegal>
    ensures { result ≡ (asks command.now).length_fault }
{
    match *command {
        Command::Unmap { length: 1..=7 } => Some(Illegal::list_length_error()),
        _ => None,
    }
}

/// The bytes of data-out that a command needs (SBC-3 5, SPC-4 6).
pub fn needed(command: &Command) -> u64
    ensures { result ≡ needed command.now }
{
    match *command {
        Command::Write { count, .. }
        | Command::Verify {
            compare: true,
            count,
            ..
        } => 512 * u64::from(count),
        Command::WriteSame { .. } => 512,
        Command::ModeSelect { length, .. } | Command::Unmap { length } => u64::from(length),
        Command::Pass { cdb } => through_needed(&pass_of(&cdb)),
        _ => 0,
    }
}

/// The bytes of data-out of an ATA PASS-THROUGH: its length where T_DIR is 0 (SAT-3 12.2).
fn through_needed(pass: &Pass) -> u64
    ensures { result ≡ (if pass.now.out then pass.now.length else 0) }
{
    if pass.out { u64::from(pass.length) } else { 0 }
}

/// What a command changes of the mode values: what its parameter list sets (SPC-4, MODE SELECT commands).
pub fn change_of(command: &Command, body: &Pages) -> Option<ModeChange>
    requires holds { needed command.now ≤ 512 * length body.now ⊎ needed command.now ≤ 512 * held_blocks command.now }
    ensures { result ≡ (asks command.now).change body.now }
{
    match *command {
        Command::ModeSelect { ten, length } => Some(select_change(body, length, ten)),
        _ => None,
    }
}
