// A command arrives.
ghost use Rattle.std.specs.Prelude.{◌≡◌, ◌≤◌, ◌+◌, ◌*◌, ◌==◌, ◌∷◌, [], IfNone, IfOk, None, true, length, take, ◌⊎◌};
ghost use Rattle.std.specs.List.{AllByRecursion};
ghost use Rattle.satl_frame.specs.Output.{IsWritable};
ghost use Rattle.satl_cdb.specs.Unmap as unmap;
ghost use Rattle.satl_regs.specs.Trim.{IsTrimList, trim_block};
ghost use Rattle.satl_direct.specs.Arrival.{reply_to};
ghost use Rattle.satl_identify.specs.Refusals.{IsIdentity};
ghost use Rattle.satl_mode.specs.SelectList.{select_fault};
ghost use Rattle.satl_direct.specs.Tasks.{asks, data_out_kept, fault_of_block, held_blocks, needed, task_without_pages};
ghost use Rattle.satl_core.specs.Layer.{entry_pages, reply_pages};
ghost use Rattle.satl_base.specs.Limits.{IsExpectable};
ghost use Rattle.satl_asks.specs.Commands.{CanPass, HasList, IsList};
ghost use Rattle.satl_core.specs.Submitting.{HasEntries, HasLengths, HasListUnlessEmpty, HoldsList, answer_to, attention_of, code_answer, command_answer, data_answer, is_idle, other_answer, readiness, reply_at_once, sense_data, tell_attention, trims, unless_answered, unless_idle, unmap_list_fault};
ghost use Rattle.satl_direct.specs.Device.{attentions_left};

use crate::satl::Satl;
use satl_asks::{
    attention_sense, change_of, fields_fault, goes_before_attentions, held_blocks, is_ordered,
    length_fault, link_lost, listed_ranges, needed, no_sense, not_ready, out_of_range, put_ranges,
    range_of, refusal_sense, short_data, unknown_unit,
};
use satl_base::{
    Block, Modes, NEXUSES, Pages, Replies, Reply, Request, Scsi, SenseBytes, are_zeros,
};
use satl_cdb::{Command, INQUIRY, Illegal, REQUEST_SENSE, desc, evpd, read_cdb, read_unmap_list};
use satl_identify::Identity;
use satl_line::{Entry, Kind};
use satl_mode::{ModeSense, read_select};
use satl_pages::Pool;
use satl_pass::pass_of;
use satl_regs::trim_bytes;
use satl_sense::{Sense, sense_bytes};
use satl_telling::{Data, tell};
use satl_unit::{Attention, Attentions};
use std::mem;

/// How a request is answered at once (SAM-5 5.3.1).
#[derive(Clone, Copy, Debug, PartialEq, Eq)]
pub enum AtOnce {
    /// GOOD without data-in.
    Good,
    /// GOOD with data-in.
    Tell {
        /// What is told.
        what: Data,
        /// The allocation length: the most bytes of it.
        alloc: u32,
    },
    /// CHECK CONDITION with this sense data.
    Check(Sense),
}

/// The answer of a LUN at which there is no logical unit: INQUIRY without EVPD says so, REQUEST SENSE says so as data, and all
/// else is refused (SPC-4 6.6, 6.39).
pub fn other_answer(request: &Request) -> AtOnce
    ensures { result ≡ other_answer request.now }
{
    let no_unit = unknown_unit();
    match request.cdb[0] {
        INQUIRY if !evpd(&request.cdb) => {
            let alloc = u16::from_be_bytes([request.cdb[3], request.cdb[4]]);
            AtOnce::Tell {
                what: Data::NoUnit,
                alloc: u32::from(alloc),
            }
        }
        REQUEST_SENSE => sense_data(request, no_unit),
        _ => AtOnce::Check(no_unit),
    }
}

/// The answer to a REQUEST SENSE: this sense data in the form that it asks for (SPC-4 6.39).
fn sense_data(request: &Request, sense: Sense) -> AtOnce
    ensures { result ≡ sense_data request.now.cdb sense }
{
    AtOnce::Tell {
        what: Data::Sense {
            descriptor: desc(&request.cdb),
            sense,
        },
        alloc: u32::from(request.cdb[4]),
    }
}

/// A unit attention is told: as data to REQUEST SENSE, and else by CHECK CONDITION (SAM-5 5.14, SPC-4 6.39).
pub fn tell_attention(what: Attention, request: &Request) -> AtOnce
    ensures { result ≡ tell_attention what request.now.cdb }
{
    let sense = attention_sense(what);
    if request.cdb[0] == REQUEST_SENSE {
        return sense_data(request, sense);
    }
    AtOnce::Check(sense)
}

/// The unit attention that a request is answered with, which is told by that (SAM-5 5.14; of REQUEST SENSE: SPC-4 6.39).
pub fn next_attention(
    attentions: &mut [Attentions; NEXUSES],
    request: &Request,
) -> Option<Attention>
    ensures next { result ≡ attention_of attentions.old request.now }
    ensures left { attentions.new ≡ attentions_left result request.now.nexus attentions.old }
{
    if goes_before_attentions(request.cdb[0]) && request.cdb[0] != REQUEST_SENSE {
        return None;
    }
    attentions[request.nexus.number() as usize].next()
}

/// Reads the lengths of parameter lists in a CDB, so that they are known to be bytes.
pub fn read_lengths(request: &Request)
    ensures { HasLengths request.now.cdb }
{
    let _of_six = request.cdb[4];
    let _high_of_ten = request.cdb[7];
    let _low_of_ten = request.cdb[8];
}

/// Judges a request by its operation code, its fields and its data-out: its command, which may become a task, or why it is
/// answered at once.
pub fn judge_code(satl: &Satl, request: &Request) -> Result<Command, AtOnce>
    requires holds { HoldsList request.now }
    ensures answer { result ≡ code_answer satl.now request.now }
    ensures can { IfOk result CanPass }
{
    let command = match read_cdb(&request.cdb, satl.identity.trim) {
        Ok(command) => command,
        Err(why) => return Err(AtOnce::Check(refusal_sense(why))),
    };
    match judge_command(satl, request, &command) {
        None => Ok(command),
        Some(answer) => Err(answer),
    }
}

/// Judges a command by its fields, its range and its data-out.
fn judge_command(satl: &Satl, request: &Request, command: &Command) -> Option<AtOnce>
    requires holds { HoldsList request.now }
    ensures answer { unless_answered result command.now ≡ command_answer satl.now request.now command.now }
    ensures can { IfNone result (CanPass command.now) }
{
    if let Some(why) = fields_fault(command) {
        return Some(AtOnce::Check(refusal_sense(why)));
    }
    let range = range_of(command);
    if range.goes_past(satl.identity.capacity) {
        return Some(AtOnce::Check(out_of_range()));
    }
    judge_data(satl, request, command)
}

/// Judges the data-out of a command: the length of its list, fewer bytes than it needs, and what is in them.
fn judge_data(satl: &Satl, request: &Request, command: &Command) -> Option<AtOnce>
    requires holds { HoldsList request.now }
    ensures { unless_answered result command.now ≡ data_answer satl.now request.now command.now }
{
    if let Some(why) = length_fault(command) {
        return Some(AtOnce::Check(refusal_sense(why)));
    }
    if u64::from(request.data_len) < needed(command) {
        return Some(AtOnce::Check(short_data()));
    }
    match data_fault(satl, request, command) {
        Some(why) => Some(AtOnce::Check(refusal_sense(why))),
        None => answer_to(satl, request, command),
    }
}

/// The refusal of the data-out: that of a MODE SELECT list, of a block that is not zeros where a WRITE SAME unmaps, and of the
/// list of an UNMAP (SPC-4, MODE SELECT commands; SBC-3, UNMAP and WRITE SAME commands).
fn data_fault(satl: &Satl, request: &Request, command: &Command) -> Option<Illegal>
    requires holds { HoldsList request.now }
    requires header { (asks command.now).length_fault ≡ None }
    requires long { needed command.now ≤ request.now.data_len }
    ensures fault { result ≡ (asks command.now).data_fault satl.now.identity satl.now.modes request.now.body }
    ensures list { IfNone result (HasListUnlessEmpty command.now request.now.body satl.now.identity.capacity) }
{
    match *command {
        Command::ModeSelect { ten, length } => select_fault(satl, request, length, ten),
        Command::WriteSame { unmap: true, .. } => block_fault(request.body.block(0)),
        Command::Unmap { length } => unmap_fault(&request.body, length, satl.identity.capacity),
        _ => None,
    }
}

/// The refusal of the block of a WRITE SAME that unmaps: it has to be zeros (SBC-3, WRITE SAME commands; profile).
fn block_fault(block: &Block) -> Option<Illegal>
    ensures { result ≡ fault_of_block block.now }
{
    if are_zeros(&block.bytes) {
        None
    } else {
        Some(Illegal::invalid_field(1))
    }
}

/// The refusal of the list of an UNMAP, if it is not empty (SBC-3 5.28).
fn unmap_fault(list: &Pages, size: u16, capacity: u64) -> Option<Illegal>
    requires header { size ≡ 0 ⊎ 8 ≤ size }
    requires whole { size ≤ 512 * length list.now }
    ensures { result ≡ unmap_list_fault list.now size capacity }
{
    if size == 0 {
        return None;
    }
    read_unmap_list(list, size, capacity).err()
}

/// The refusal of the list of a MODE SELECT (SPC-4, MODE SELECT commands).
fn select_fault(satl: &Satl, request: &Request, length: u16, ten: bool) -> Option<Illegal>
    requires holds { HoldsList request.now }
    requires long { length ≤ request.now.data_len }
    ensures { result ≡ select_fault satl.now.identity satl.now.modes request.now.body length ten }
{
    read_select(&satl.identity, &satl.modes, &request.body, length, ten).err()
}

/// Answers a command from what the device says of itself, or lets it become a task, unless it has nothing to do: then it
/// answers as TEST UNIT READY does (profile).
fn answer_to(satl: &Satl, request: &Request, command: &Command) -> Option<AtOnce>
    requires list { HasListUnlessEmpty command.now request.now.body satl.now.identity.capacity }
    ensures { unless_answered result command.now ≡ answer_to satl.now request.now.body command.now }
{
    let (what, alloc) = match *command {
        Command::TestUnitReady => return Some(readiness(satl)),
        Command::Inquiry { page, alloc } => (Data::Inquiry(page), u32::from(alloc)),
        Command::ModeSense {
            ten,
            long_lba,
            no_descriptor,
            control,
            page,
            alloc,
        } => {
            let asked = ModeSense {
                ten,
                long_lba,
                no_descriptor,
                control,
                page,
            };
            (Data::Modes(asked), u32::from(alloc))
        }
        Command::RequestSense { descriptor, alloc } => {
            let sense = no_sense();
            (Data::Sense { descriptor, sense }, u32::from(alloc))
        }
        Command::ReadCapacity10 => (Data::Capacity10, 8),
        Command::ReadCapacity16 { alloc } => (Data::Capacity16, alloc),
        Command::ReportLuns { select, alloc } => (Data::Luns(select), alloc),
        _ => return unless_idle(satl, request, command),
    };
    Some(AtOnce::Tell { what, alloc })
}

/// A command that may become a task does, unless it has nothing to do.
fn unless_idle(satl: &Satl, request: &Request, command: &Command) -> Option<AtOnce>
    requires list { HasListUnlessEmpty command.now request.now.body satl.now.identity.capacity }
    ensures { unless_answered result command.now ≡ unless_idle satl.now request.now.body command.now }
{
    if is_idle(command, &request.body, satl.identity.capacity) {
        Some(readiness(satl))
    } else {
        None
    }
}

/// Whether a command has nothing to do: it goes over no block, or its list is empty or names none (profile).
fn is_idle(command: &Command, body: &Pages, capacity: u64) -> bool
    requires list { HasListUnlessEmpty command.now body.now capacity }
    ensures { result ≡ is_idle command.now body.now }
{
    match *command {
        Command::Read { count, .. }
        | Command::Write { count, .. }
        | Command::Verify { count, .. } => count == 0,
        Command::ModeSelect { length, .. } => length == 0,
        Command::Unmap { length } => length == 0 || names_none(body, length, capacity),
        _ => false,
    }
}

/// Whether the list of an UNMAP, of so many bytes, names no range (SBC-3 5.28).
fn names_none(list: &Pages, size: u16, capacity: u64) -> bool
    requires { IsList list.now size capacity }
    ensures { result ≡ (length (unmap.ranges_of list.now) == 0) }
{
    listed_ranges(list, size, capacity).is_empty()
}

fn readiness(satl: &Satl) -> AtOnce
    ensures { result ≡ readiness satl.now }
{
    if satl.down {
        return AtOnce::Check(link_lost());
    }
    if !satl.started {
        return AtOnce::Check(not_ready());
    }
    AtOnce::Good
}

/// Writes the task that a request becomes, still without its pages, over another one.
pub fn put_task(request: &Request, command: &Command, identity: &Identity, task: &mut Entry)
    requires list { HasList command.now request.now.body identity.now.capacity }
    requires holds { needed command.now ≤ 512 * length request.now.body ⊎ needed command.now ≤ 512 * held_blocks command.now }
    ensures { task.new ≡ task_without_pages identity.now.queued_trim request.now command.now }
{
    task.nexus = request.nexus;
    task.tag = request.tag;
    task.kind = Kind::of(command, identity.queued_trim);
    task.ordered = is_ordered(request.attr);
    task.blocks = held_blocks(command);
    task.command = *command;
    task.body = Pages::default();
    put_ranges(command, &request.body, identity.capacity, &mut task.ranges);
    task.change = change_of(command, &request.body);
    task.expected = request.expected;
}

/// The pages of a task: a READ and an ATA PASS-THROUGH take pages for their data-in, an UNMAP whose trim is queued keeps its
/// entries in one, and all others keep the first ones of their data-out, as many as they hold. The rest is given back.
pub fn own_pages(pool: &mut Pool, command: &Command, identity: &Identity, body: Pages) -> Pages
    requires out { length body ≤ pool.old.out }
    requires room { held_blocks command.now ≤ pool.old.free + length body }
    requires written { needed command.now ≤ 512 * length body }
    requires list { HasList command.now body identity.now.capacity }
    requires identity { IsIdentity identity.now }
    requires trim { trims command.now ≡ true → identity.now.trim ≡ true }
    ensures size { length result ≡ held_blocks command.now + entry_pages command.now identity.now.queued_trim }
    ensures data { data_out_kept command.now result ≡ data_out_kept command.now (take (held_blocks command.now) body) }
    ensures entries { HasEntries command.now identity.now.queued_trim body result }
    ensures free { pool.new.free + length result ≡ pool.old.free + length body }
    ensures out { pool.new.out + length body ≡ pool.old.out + length result }
{
    match *command {
        Command::Read { count, .. } => other_pages(pool, count, body),
        Command::Pass { cdb } if !pass_of(&cdb).out => {
            other_pages(pool, held_blocks(command), body)
        }
        Command::Unmap { length } if identity.queued_trim => {
            entry_page(pool, length, identity.capacity, body)
        }
        _ => first_pages(pool, held_blocks(command), body),
    }
}

/// The first page of the data-out of an UNMAP, with the entries that trim what its list of so many bytes names (ACS-3, SEND
/// FPDMA QUEUED).
fn entry_page(pool: &mut Pool, size: u16, capacity: u64, body: Pages) -> Pages
    requires out { length body ≤ pool.old.out }
    requires some { 1 ≤ length body }
    requires list { IsList body size capacity }
    requires trimmed { IsTrimList (unmap.ranges_of body) }
    ensures entries { result ≡ record { bytes = trim_block (unmap.ranges_of body) } ∷ [] }
    ensures free { pool.new.free + length result ≡ pool.old.free + length body }
    ensures out { pool.new.out + length body ≡ pool.old.out + length result }
{
    let entries = trim_bytes(&listed_ranges(&body, size, capacity));
    let mut page = first_pages(pool, 1, body);
    page.set_block(0, &entries);
    page
}

/// So many other pages, with whatever they hold.
fn other_pages(pool: &mut Pool, count: u32, body: Pages) -> Pages
    requires out { length body ≤ pool.old.out }
    requires room { count ≤ pool.old.free + length body }
    ensures size { length result ≡ count }
    ensures free { pool.new.free + length result ≡ pool.old.free + length body }
    ensures out { pool.new.out + length body ≡ pool.old.out + length result }
{
    pool.give(body);
    let Some(pages) = pool.take_room(count) else {
        unreachable!();
    };
    pages
}

/// The first pages of data-out.
fn first_pages(pool: &mut Pool, count: u32, body: Pages) -> Pages
    requires out { length body ≤ pool.old.out }
    requires enough { count ≤ length body }
    ensures first { result ≡ take count body }
    ensures free { pool.new.free + length result ≡ pool.old.free + length body }
    ensures out { pool.new.out + length body ≡ pool.old.out + length result }
{
    let mut body = body;
    pool.give(body.split(count));
    body
}

/// Gives the pages of a request back, and answers it at once.
// Inlined where a request arrives: most of what it takes is in registers there, and a call would write it to memory first.
#[inline(always)]
pub fn answer_at_once(
    pool: &mut Pool,
    identity: &Identity,
    modes: &Modes,
    request: Request,
    answer: &AtOnce,
    replies: &mut Replies,
)
    requires capacity { 1 ≤ identity.now.capacity }
    requires out { length request.body ≤ pool.old.out }
    requires room { 2 ≤ pool.old.free + length request.body }
    requires empty { replies.old ≡ [] }
    ensures reply { replies.new ≡ reply_at_once identity.now modes.now request answer.now ∷ [] }
    ensures free { pool.new.free + reply_pages replies.new ≡ pool.old.free + length request.body }
    ensures out { pool.new.out + length request.body ≡ pool.old.out + reply_pages replies.new }
    ensures writable { IsExpectable request.expected → AllByRecursion IsWritable replies.new }
{
    let mut request = request;
    pool.give(mem::take(&mut request.body));
    match answer {
        AtOnce::Good => replies.push(reply_to(&request, Scsi::Good, SenseBytes::new())),
        AtOnce::Tell { what, alloc } => replies.push(tell(
            pool, identity, modes, &request, what, *alloc,
        )),
        AtOnce::Check(sense) => {
            let sense = sense_bytes(sense, modes.d_sense);
            replies.push(reply_to(&request, Scsi::CheckCondition, sense));
        }
    }
}

/// An answer without data.
pub fn reply_to(request: &Request, status: Scsi, sense: SenseBytes) -> Reply
    ensures { result ≡ reply_to request.now status sense.items }
{
    Reply {
        nexus: request.nexus,
        tag: request.tag,
        status,
        sense,
        body: Pages::default(),
        data_len: 0,
        expected: request.expected,
    }
}
