// What becomes of a request that the auditor knows.
ghost use Rattle.std.specs.Prelude.{◌≡◌, List, true, Ok, IfOk};
ghost use Rattle.satl_base.specs.declared.block.Block.{Block};
ghost use Rattle.satl_cdb.specs.Table.{says};
ghost use Rattle.satl_direct.specs.Arrival.{code_arrival, command_arrival};
ghost use Rattle.satl_direct.specs.Device.{Device};
ghost use Rattle.satl_direct.specs.Tasks.{asks, task_without_pages};
ghost use Rattle.satl_cover.specs.Known.{is_known};
ghost use Rattle.satl_audit.specs.Arriving.{BecomesJudged, IsServing, placed_or_answered};
ghost use Rattle.satl_audit.specs.Waiting.{IsTransfer, MayWait};

use arrayvec::ArrayVec;
use satl_asks::{
    held_blocks, is_ordered, needed, out_of_range, range_of, refusal_sense, short_data,
};
use satl_base::{MOST_RANGES, Pages, Range, Request};
use satl_cdb::{Command, read_cdb};
use satl_identify::Identity;
use satl_line::{Entry, Kind};
use satl_sense::Sense;

/// Why a request is answered at once (SAM-5 5.3.1).
#[derive(Clone, Copy, Debug, PartialEq, Eq)]
pub enum AtOnce {
    Good,
    Check(Sense),
}

/// The ranges that the task of a known command reads or writes.
fn ranges_of(command: &Command) -> ArrayVec<Range, MOST_RANGES>
    requires { is_known (Ok command.now) ≡ true }
    ensures { (body : List Block) → result.items ≡ (asks command.now).ranges body }
{
    let mut ranges = ArrayVec::new();
    if let Command::Read { lba, count, .. } | Command::Write { lba, count, .. } = *command {
        ranges.push(Range { lba, count });
    }
    ranges
}

/// A known command whose fields and data-out are good: it may become a task, unless it has nothing to do.
fn begin(command: Command) -> Result<Command, AtOnce>
    requires { is_known (Ok command) ≡ true }
    ensures same { IfOk result (λ c. c ≡ command) }
    ensures transfer { IfOk result IsTransfer }
    ensures judged { BecomesJudged command result }
{
    match command {
        Command::TestUnitReady | Command::Read { count: 0, .. } | Command::Write { count: 0, .. } =>
            Err(AtOnce::Good),
        _ => Ok(command),
    }
}

/// Judges a known command by its range and its data-out.
fn judge_command(
    identity: &Identity,
    request: &Request,
    command: Command,
) -> Result<Command, AtOnce>
    requires { is_known (Ok command) ≡ true }
    ensures waits { IfOk result (MayWait identity.now.capacity request.now.data_len) }
    ensures judged { (s : Device) → (body : List Block) → IsServing identity.now s
        → command_arrival s (record request.now { body = body }) command
        ≡ placed_or_answered s (record request.now { body = body }) result }
{
    if range_of(&command).goes_past(identity.capacity) {
        return Err(AtOnce::Check(out_of_range()));
    }
    if u64::from(request.data_len) < needed(&command) {
        return Err(AtOnce::Check(short_data()));
    }
    begin(command)
}

/// Judges a request by its CDB and its data-out: its command, which may become a task, or the answer at once.
pub fn judge(identity: &Identity, request: &Request) -> Result<Command, AtOnce>
    requires { is_known (says request.now.cdb identity.now.trim) ≡ true }
    ensures waits { IfOk result (MayWait identity.now.capacity request.now.data_len) }
    ensures judged { (s : Device) → (body : List Block) → IsServing identity.now s
        → code_arrival s (record request.now { body = body })
        ≡ placed_or_answered s (record request.now { body = body }) result }
{
    match read_cdb(&request.cdb, identity.trim) {
        Ok(command) => judge_command(identity, request, command),
        Err(why) => Err(AtOnce::Check(refusal_sense(why))),
    }
}

/// The task of a request and its known command, without its pages.
pub fn task_of(request: &Request, command: Command, queued_trim: bool) -> Entry
    requires { is_known (Ok command) ≡ true }
    ensures { (body : List Block) → result ≡ task_without_pages queued_trim (record request.now { body = body }) command }
{
    Entry {
        nexus: request.nexus,
        tag: request.tag,
        kind: Kind::of(&command, queued_trim),
        ordered: is_ordered(request.attr),
        blocks: held_blocks(&command),
        ranges: ranges_of(&command),
        command,
        body: Pages::default(),
        change: None,
        expected: request.expected,
    }
}
