// A task ends.
ghost use Rattle.std.specs.Prelude.{◌≡◌, ◌≤◌, ◌<◌, ◌+◌, ◌*◌, ◌-◌, ◌++◌, not, [], length, true, false, None, IfOk, IfSome, IsSome, OnOk, OnErr};
ghost use Rattle.std.specs.List.{AllByRecursion};
ghost use Rattle.satl_base.specs.Cells.{AreSound};
ghost use Rattle.satl_direct.specs.Senses;
ghost use Rattle.satl_base.specs.Limits.{most_moved, piece};
ghost use Rattle.satl_core.specs.Layer.{IsTask, held_pages, most_replies};
ghost use Rattle.satl_core.specs.Alone.{alone_of};
ghost use Rattle.satl_core.specs.Calling.{calls_alone, calls_of_task, is_unready};
ghost use Rattle.satl_core.specs.Medium.{CanCarry, HasWhole, written_alone};
ghost use Rattle.satl_base.specs.declared.modes.Modes.{Modes};
ghost use Rattle.satl_core.specs.Turning;
ghost use Rattle.satl_barrier.specs.Leaving.{IsFree, IsLostIn, Stays};
ghost use Rattle.satl_barrier.specs.Settings.{CanSet, IsSetBy};
ghost use Rattle.satl_core.specs.Turning.{CarriedOut, IsLostInTask, TaskEnds, barrier_calls, ended_reply, lost_replies, modes_after, modes_left, started_after, task_on};

use crate::alone::Alone;
use crate::medium::{compare_range, trim_ranges, verify_range, write_range};
use crate::passing::run_through;
use satl_barrier::{flush, switch, tune};
use satl_base::{Modes, Pages, Replies, Reply, Scsi, SenseBytes, Steps};
use satl_cdb::Command;
use satl_drive::{Drive, LinkDown};
use satl_errlog::NcqError;
use satl_flight::Queue;
use satl_line::{Entry, TaskBox};
use satl_pages::Pool;
use satl_pass::{error_sense_at, pass_of};
use satl_sense::{Sense, sense_bytes};
use std::mem;
use std::sync::ledger::Ledger;

/// How a task ends (SAM-5 5.3.1).
#[derive(Clone, Copy, Debug, PartialEq, Eq)]
pub enum Ending {
    /// Done, with GOOD.
    Good,
    /// Done, and told by CHECK CONDITION with this sense data beside its data-in (SAT-3 12.2).
    Informed(Sense),
    /// Not done: CHECK CONDITION with this sense data.
    Check(Sense),
}

/// What a task finds whose turn comes.
#[derive(Clone, Copy, Debug, PartialEq, Eq)]
pub struct Circumstances {
    /// The mark of a lost link.
    pub down: bool,
    /// Whether the unit is started.
    pub started: bool,
    /// The mode values that the task wants.
    pub wanted: Modes,
}

/// How the task ends whose turn it is and whose command is not outstanding: the first that holds decides, a lost link, a unit
/// that is stopped where the command needs it started, as a READ and a WRITE do, and the drive. `modes` are the mode values
/// that there are, as the drive is set. `LinkDown`: the link was lost while the task was carried out.
pub fn run_task<D: Drive<L>, L: Ledger>(
    found: &Circumstances,
    modes: &Modes,
    task: &mut Entry,
    pool: &mut Pool,
    drive: &mut D,
    steps: &mut Steps<L>,
) -> Result<Ending, LinkDown>
    requires free { IsFree (D.state drive.old) }
    requires task { IsTask (D.state drive.old).capacity task.old.command task.old.blocks }
    requires alone { found.now.down ≡ false → found.now.started ≡ true → IsSome (alone_of task.old.command) }
    requires sound { AreSound (D.state drive.old).cells }
    requires mark { found.now.down ≡ (D.state drive.old).down }
    requires set { found.now.down ≡ false → IsSetBy modes.now (D.state drive.old) }
    requires may { CanSet modes.now found.now.wanted (D.state drive.old) }
    requires carry { IfSome (alone_of task.old.command) (λ alone. CanCarry alone task.old (D.state drive.old)) }
    requires room { piece ≤ pool.old.free }
    ensures stays { Stays (D.state drive.old) (D.state drive.new) }
    ensures cache { IfOk result (λ ending. found.now.down ≡ false
        → (D.state drive.new).cache ≡ (modes_after task.old.command ending modes.now found.now.wanted).wce) }
    ensures look { IfOk result (λ ending. found.now.down ≡ false
        → (D.state drive.new).look ≡ not (modes_after task.old.command ending modes.now found.now.wanted).dra) }
    ensures up { OnOk result ((D.state drive.new).down ≡ found.now.down) }
    ensures faults { OnOk result ((D.state drive.new).faults ≡ (D.state drive.old).faults) }
    ensures ends { IfOk result (λ ending. TaskEnds found.now ending
        (task_on task.old (D.state drive.old)) (task_on task.new (D.state drive.new))) }
    ensures lost { OnErr result (IsLostInTask found.now.down found.now.started task.old (D.state drive.old)
        (D.state drive.new)) }
    ensures task { task.new ≡ record task.old { body = task.new.body } }
    ensures size { length task.new.body ≡ length task.old.body }
    ensures pool { pool.new ≡ pool.old }
    ensures unasked { found.now.down ≡ true → drive.new ≡ drive.old }
    ensures uncalled { found.now.down ≡ true → steps.new ≡ steps.old }
    ensures unready { is_unready found.now.started task.old.command ≡ true → drive.new ≡ drive.old }
    ensures calls { steps.new ≤ steps.old + calls_of_task found.now.started task.old.command }
    ensures steps { steps.new ≤ steps.old + barrier_calls }
{
    if found.down {
        return Ok(link_lost());
    }
    let Some(alone) = Alone::of(&task.command) else {
        return Ok(not_ready());
    };
    if alone.is_not_ready(found.started) {
        return Ok(not_ready());
    }
    carry_out(alone, modes, &found.wanted, task, pool, drive, steps)
}

/// LOGICAL UNIT NOT READY, INITIALIZING COMMAND REQUIRED (SPC-4 4.5.6).
fn not_ready() -> Ending
    ensures { result ≡ Ending.Check Senses.not_ready }
{
    Ending::Check(satl_asks::not_ready())
}

/// Carries out what runs alone, on a drive whose link is up. `LinkDown`: the link was lost meanwhile.
fn carry_out<D: Drive<L>, L: Ledger>(
    alone: Alone,
    modes: &Modes,
    wanted: &Modes,
    task: &mut Entry,
    pool: &mut Pool,
    drive: &mut D,
    steps: &mut Steps<L>,
) -> Result<Ending, LinkDown>
    requires free { IsFree (D.state drive.old) }
    requires sound { AreSound (D.state drive.old).cells }
    requires set { IsSetBy modes.now (D.state drive.old) }
    requires may { CanSet modes.now wanted.now (D.state drive.old) }
    requires carry { CanCarry alone task.old (D.state drive.old) }
    requires room { piece ≤ pool.old.free }
    ensures stays { Stays (D.state drive.old) (D.state drive.new) }
    ensures cache { IfOk result (λ ending. (D.state drive.new).cache ≡ (modes_left alone ending modes.now wanted.now).wce) }
    ensures look { IfOk result (λ ending. (D.state drive.new).look ≡ not (modes_left alone ending modes.now wanted.now).dra) }
    ensures up { OnOk result ((D.state drive.new).down ≡ false) }
    ensures faults { OnOk result ((D.state drive.new).faults ≡ (D.state drive.old).faults) }
    ensures ends { IfOk result (λ ending. CarriedOut wanted.now alone ending (task_on task.old (D.state drive.old))
        (task_on task.new (D.state drive.new))) }
    ensures lost { OnErr result (IsLostIn (written_alone alone task.old (D.state drive.old)) (D.state drive.old)
        (D.state drive.new)) }
    ensures whole { OnErr result (HasWhole alone task.old) }
    ensures task { task.new ≡ record task.old { body = task.new.body } }
    ensures size { length task.new.body ≡ length task.old.body }
    ensures pool { pool.new ≡ pool.old }
    ensures calls { steps.new ≤ steps.old + calls_alone alone }
    ensures steps { steps.new ≤ steps.old + barrier_calls }
{
    match alone {
        Alone::Flush => flush(drive, steps)?,
        Alone::Select => tune(modes, wanted, drive, steps)?,
        Alone::Switch { start, no_flush } => switch(start, no_flush, drive, steps)?,
        Alone::Verify(range) => return verify_range(range, drive, steps),
        Alone::Compare(range) => return compare_range(range, &task.body, pool, drive, steps),
        Alone::WriteSame(range) => return write_range(range, &task.body, pool, drive, steps),
        Alone::TrimRange(range) => return trim_ranges(&[range], pool, drive, steps),
        Alone::TrimList => return trim_ranges(&task.ranges, pool, drive, steps),
        Alone::Through { cdb } => return run_through(&cdb, &mut task.body, drive, steps),
    }
    Ok(Ending::Good)
}

/// Whether the unit is started once a task has ended: a START STOP UNIT that is done decides.
pub fn started_after(command: &Command, ending: &Ending, started: bool) -> bool
    ensures { result ≡ started_after command.now ending.now started }
{
    match (command, ending) {
        (_, Ending::Check(_)) => started,
        (Command::StartStop { start, .. }, _) => *start,
        _ => started,
    }
}

/// LOGICAL UNIT COMMUNICATION FAILURE (SPC-4 4.5.6).
pub fn link_lost() -> Ending
    ensures { result ≡ Ending.Check Senses.link_lost }
{
    Ending::Check(satl_asks::link_lost())
}

/// Answers all tasks in order of arrival: the link is lost, and nothing is outstanding. The desk is where each lies meanwhile.
pub fn lose_tasks(
    queue: &mut Queue,
    pool: &mut Pool,
    desk: &mut TaskBox,
    descriptor: bool,
    replies: &mut Replies,
)
    requires idle { queue.old.flying ≡ [] }
    requires held { held_pages queue.old.tasks ≤ pool.old.out }
    requires few { AllByRecursion (λ h. length h.entry.body ≤ most_moved) queue.old.tasks }
    requires room { length replies.old + length queue.old.tasks ≤ most_replies }
    ensures none { queue.new.tasks ≡ [] }
    ensures flying { queue.new.flying ≡ [] }
    ensures answers { replies.new ≡ replies.old ++ lost_replies descriptor queue.old.tasks }
    ensures free { pool.new.free ≡ pool.old.free + held_pages queue.old.tasks }
    ensures out { pool.new.out + held_pages queue.old.tasks ≡ pool.old.out }
{
    for _ in 0..queue.len() {
        queue.remove(0, desk);
        replies.push(end_task(pool, desk.entry_mut(), &link_lost(), descriptor));
    }
}

/// How a task ends whose queued command has ended, which wrote or read: GOOD, or by the entry of the error log and the table of
/// errors, a CRC error or a medium error at the address (SAT-3 11; for the address and a WRITE: profile).
pub fn ending_by(writes: bool, error: &Option<NcqError>) -> Ending
    ensures { result ≡ Turning.ending_by writes error.now }
{
    match error {
        None => Ending::Good,
        Some(e) => Ending::Check(error_sense_at(writes, e.error, e.lba)),
    }
}

/// Whether a command is a READ; each other command that is queued writes, or trims (SBC-3 5).
pub fn is_read(command: &Command) -> bool
    ensures { result ≡ Turning.is_read command.now }
{
    matches!(*command, Command::Read { .. })
}

/// Answers a task. A READ that is done gives its pages as data-in, and so does an ATA PASS-THROUGH whose data came from the
/// drive; all other pages are given back. The task has none then.
#[inline(always)]
pub fn end_task(pool: &mut Pool, task: &mut Entry, ending: &Ending, descriptor: bool) -> Reply
    requires held { length task.old.body ≤ pool.old.out }
    requires few { length task.old.body ≤ most_moved }
    ensures reply { result ≡ ended_reply task.old ending.now descriptor }
    ensures bare { task.new ≡ record task.old { body = [] } }
    ensures free { pool.new.free + length result.body ≡ pool.old.free + length task.old.body }
    ensures out { pool.new.out + length task.old.body ≡ pool.old.out + length result.body }
{
    let body = data_in(pool, &task.command, ending, mem::take(&mut task.body));
    let mut reply = Reply {
        nexus: task.nexus,
        tag: task.tag,
        status: Scsi::Good,
        sense: SenseBytes::new(),
        data_len: 512 * body.blocks(),
        body,
        expected: task.expected,
    };
    match ending {
        Ending::Good => {}
        Ending::Informed(sense) | Ending::Check(sense) => {
            reply.status = Scsi::CheckCondition;
            reply.sense = sense_bytes(sense, descriptor);
        }
    }
    reply
}

fn data_in(pool: &mut Pool, command: &Command, ending: &Ending, body: Pages) -> Pages
    requires { length body ≤ pool.old.out }
    ensures data { result ≡ Turning.data_in ending.now command.now body }
    ensures free { pool.new.free + length result ≡ pool.old.free + length body }
    ensures out { pool.new.out + length body ≡ pool.old.out + length result }
{
    match (command, ending) {
        (Command::Read { .. }, Ending::Good | Ending::Informed(_)) => body,
        (Command::Pass { cdb }, Ending::Good | Ending::Informed(_)) if !pass_of(cdb).out => body,
        _ => {
            pool.give(body);
            Pages::default()
        }
    }
}
