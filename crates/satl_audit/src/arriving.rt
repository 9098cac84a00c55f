// A request of a record arrives.
ghost use Rattle.std.specs.Prelude.{◌≡◌, ◌+◌, ◌≤◌, ℕ, [], true, false, None, IfOk, replicate};
ghost use Rattle.satl_cdb.specs.Table.{says};
ghost use Rattle.satl_cover.specs.Known.{is_known};
ghost use Rattle.satl_audit.specs.Arriving.{CannotPlace, Goes, Places, Sticks};
ghost use Rattle.satl_direct.specs.Device.{attentions_left};
ghost use Rattle.satl_direct.specs.Arrival.{attention_told};
ghost use Rattle.satl_audit.specs.Waiting.{AllFit, MayWait};

use crate::cursor::Cursor;
use crate::judging::{AtOnce, judge, task_of};
use crate::reply::{pass_check, pass_status};
use crate::waiting::Waiting;
use satl_asks::{attention_sense, goes_before_attentions};
use satl_base::{NEXUSES, NoMemory, Request, Scsi};
use satl_cdb::Command;
use satl_identify::Identity;
use satl_unit::{Attention, Attentions, no_attentions};
use std::alloc::Global;

/// The device of a record but for its sectors, and how far the output is compared.
#[derive(Drop)]
pub struct Followed<'a> {
    /// The tasks that wait, in order of arrival.
    pub waiting: Waiting,
    /// The unit attentions of each nexus.
    pub attentions: [Attentions; NEXUSES],
    /// The output that is left to compare.
    pub output: Cursor<'a>,
}

impl<'a> Followed<'a> {
    /// Nothing has happened: no task waits, no nexus is to be told anything, and nothing of the output was compared.
    pub fn new(alloc: Global, output: &'a [u8]) -> Result<Followed<'a>, NoMemory>
        ensures waiting { IfOk result (λ followed. followed.waiting ≡ []) }
        ensures attentions { IfOk result (λ followed. followed.attentions ≡ replicate 4 []) }
        ensures output { IfOk result (λ followed. followed.output ≡ output.now) }
    {
        let waiting = Waiting::new(alloc)?;
        Ok(Followed {
            waiting,
            attentions: no_attentions(),
            output: Cursor::new(output),
        })
    }
}

/// The unit attention that a request is answered with, which is told by that (SAM-5 5.14).
fn next_attention(attentions: &mut [Attentions; NEXUSES], request: &Request) -> Option<Attention>
    ensures next { result ≡ attention_told attentions.old request.now }
    ensures left { attentions.new ≡ attentions_left result request.now.nexus attentions.old }
{
    if goes_before_attentions(request.cdb[0]) {
        return None;
    }
    attentions[request.nexus.number() as usize].next()
}

/// A request with this command arrives, and makes a task where there is room. Its data-out stands in the input from a place on.
/// Whether its answer, where it has one, comes next in the output.
fn place(
    followed: &mut Followed<'_>,
    identity: &Identity,
    request: &Request,
    command: Command,
    at: usize,
) -> bool
    requires waits { MayWait identity.now.capacity request.now.data_len command }
    requires expected { request.now.expected ≡ None }
    requires nexus { request.now.nexus ≤ 3 }
    ensures fits { (size : ℕ) → at + request.now.data_len ≤ size → AllFit identity.now.capacity size followed.old.waiting
        → AllFit identity.now.capacity size followed.new.waiting }
    ensures goes { result ≡ true → Places identity.now request.now command at followed.old followed.new }
    ensures sticks { result ≡ false → CannotPlace identity.now request.now command followed.old }
{
    let task = task_of(request, command, identity.queued_trim);
    if followed.waiting.add(task, at) {
        return true;
    }
    pass_status(&mut followed.output, request, Scsi::TaskSetFull)
}

/// A request arrives. Its data-out stands in the input from a place on. Whether its answer, where it has one, comes next in the
/// output.
pub fn arrive(
    followed: &mut Followed<'_>,
    identity: &Identity,
    request: &Request,
    at: usize,
) -> bool
    requires known { is_known (says request.now.cdb identity.now.trim) ≡ true }
    requires expected { request.now.expected ≡ None }
    requires nexus { request.now.nexus ≤ 3 }
    ensures fits { (size : ℕ) → at + request.now.data_len ≤ size → AllFit identity.now.capacity size followed.old.waiting
        → AllFit identity.now.capacity size followed.new.waiting }
    ensures goes { result ≡ true → Goes identity.now request.now at followed.old followed.new }
    ensures sticks { result ≡ false → Sticks identity.now request.now at followed.old }
{
    if let Some(what) = next_attention(&mut followed.attentions, request) {
        return pass_check(&mut followed.output, request, &attention_sense(what));
    }
    match judge(identity, request) {
        Ok(command) => place(followed, identity, request, command, at),
        Err(AtOnce::Good) => pass_status(&mut followed.output, request, Scsi::Good),
        Err(AtOnce::Check(sense)) => pass_check(&mut followed.output, request, &sense),
    }
}
