// The layer: what it holds, how it is opened, its calls, and the pages that it lends.
ghost use Rattle.std.specs.Prelude.{◌≡◌, ◌≤◌, ◌+◌, ◌-◌, ◌<◌, ◌↔◌, ◌≢◌, ◌*◌, [], Ok, true, false, IfOk, IfErr, IfSome, IfNone, IsNone, OnOk, OnErr, OnSome, map, length};
ghost use Rattle.std.specs.List.{AllByRecursion, AllZip};
ghost use Rattle.satl_base.specs.declared.request.Request.{Request};
ghost use Rattle.satl_io.specs.Causes.{Rose, RoseBy};
ghost use Rattle.satl_regs.specs.Sectors.{IsLeftBehind};
ghost use Rattle.satl_drive.specs.State.{DriveState};
ghost use Rattle.satl_barrier.specs.Leaving.{IsFree};
ghost use Rattle.satl_frame.specs.Output.{IsWritable};
ghost use Rattle.satl_direct.specs.Arrival.{Arrives};
ghost use Rattle.satl_direct.specs.Tasks.{asks, held_blocks, needed};
ghost use Rattle.satl_direct.specs.Quiet.{Around};
ghost use Rattle.satl_direct.specs.Run.{Manages, MayLose, bench_losses, depth};
ghost use Rattle.satl_core.specs.Tie.{TiesQueue};
ghost use Rattle.satl_direct.specs.Bench.{Happens};
ghost use Rattle.satl_core.specs.Benching.{FollowsEvent, StartsAnew, orders_after, unplugs_after};
ghost use Rattle.satl_direct.specs.Turn.{Turn};
ghost use Rattle.satl_core.specs.Layer.{IsTask, Tied, reply_pages, view};
ghost use Rattle.satl_core.specs.Opening.{IsCause, IsOpened};
ghost use Rattle.satl_barrier.specs.Commands.{IsUndisturbed};
ghost use Rattle.satl_core.specs.Refilling.{AreKept, Comes};
ghost use Rattle.satl_asks.specs.Commands.{HasList};
ghost use Rattle.satl_core.specs.Submitting.{Becomes, CanSubmit, HasLengths, HoldsList, IsCutOf, arrival_calls, is_overlapping, judged, once_judged, trims};
ghost use Rattle.satl_mode.specs.Changes.{AreModesOf, IsChangeOf};
ghost use Rattle.satl_line.specs.Tasks.{total_blocks};
ghost use Rattle.satl_base.specs.Limits.{most_held, most_tasks};
ghost use Rattle.satl_core.specs.Flushed.{IsFlushed, IsSettled};
ghost use Rattle.satl_core.specs.Turning.{issue_calls, off_calls, poll_calls, turn_calls};
ghost use Rattle.satl_flight.specs.Settled.{Deepens, IssuesInOrder};
ghost use Rattle.satl_core.specs.Calling.{PollsAndIssues, ResetsFor, calls_of_first, is_first_unready};
ghost use Rattle.satl_core.specs.Leaving.{is_within};
ghost use Rattle.satl_core.specs.Managing.{effect};

use crate::benching::act_on;
use crate::leaving::{Scope, drop_tasks};
use crate::managing::{decide, post};
use crate::submitting::{
    AtOnce, answer_at_once, judge_code, next_attention, other_answer, own_pages, put_task,
    read_lengths, reply_to, tell_attention,
};
use satl_asks::{is_for_unit, overlapped};
use satl_barrier::tell_identity;
use satl_base::{
    BenchEvent, Lender, Manage, Modes, NEXUSES, NoMemory, Pages, Replies, Request, Response, Scsi,
    SenseBytes, Steps,
};
use satl_cdb::Command;
use satl_drive::{Bench, Drive, LinkDown};
use satl_flight::Queue;
use satl_identify::{Identity, IdentityFault, read_identity};
use satl_line::TaskBox;
use satl_mode::defaults;
use satl_pages::Pool;
use satl_unit::{Attentions, no_attentions, powered_on};
use std::alloc::Global;
use std::marker::Model;
use std::sync::ledger::Ledger;
use thiserror::Error;

/// How many pages the layer takes when it is opened: 32,768 for tasks, 64 for pieces of commands, 64 for replies and 64 for
/// trims.
const POOL_PAGES: u32 = 32_960;

/// Why the layer is not opened (profile).
#[derive(Clone, Copy, Debug, PartialEq, Eq, Error)]
pub enum OpenFault {
    /// The drive's IDENTIFY DEVICE data are refused, for this reason.
    #[error("the layer does not serve this drive")]
    Identity(IdentityFault),
    /// The drive's link was lost before they were read.
    #[error("the link to the drive is lost")]
    LinkDown,
    /// There is not the memory.
    #[error("out of memory")]
    NoMemory,
}

impl From<NoMemory> for OpenFault {
    ghost use Rattle.std.specs.Prelude.{◌≡◌};
    ghost use Rattle.satl_core.specs.declared.satl.OpenFault.TheVariants as faults;

    ghost from_gives = { λ _ e. e ≡ faults.NoMemory };

    fn from(_: NoMemory) -> OpenFault {
        OpenFault::NoMemory
    }
}

impl From<LinkDown> for OpenFault {
    ghost use Rattle.std.specs.Prelude.{◌≡◌};
    ghost use Rattle.satl_core.specs.declared.satl.OpenFault.TheVariants as faults;

    ghost from_gives = { λ _ e. e ≡ faults.LinkDown };

    fn from(_: LinkDown) -> OpenFault {
        OpenFault::LinkDown
    }
}

impl From<IdentityFault> for OpenFault {
    ghost use Rattle.std.specs.Prelude.{◌≡◌};
    ghost use Rattle.satl_core.specs.declared.satl.OpenFault.TheVariants as faults;

    ghost from_gives = { λ fault e. e ≡ faults.Identity fault };

    fn from(fault: IdentityFault) -> OpenFault {
        OpenFault::Identity(fault)
    }
}

/// The SCSI/ATA translation layer of one drive (SAT-3). All its memory is taken when it is opened.
#[derive(Drop)]
pub struct Satl {
    pub(crate) identity: Identity,
    pub(crate) modes: Modes,
    pub(crate) started: bool,
    pub(crate) down: bool,
    pub(crate) attentions: [Attentions; NEXUSES],
    // Before the queue: dropped behind it, its memory goes back to the system in some 4,400 calls, which take 15 ms.
    pub(crate) pool: Pool,
    pub(crate) queue: Queue,
    // Where a task comes from, and where one that left lies until it is answered.
    pub(crate) desk: TaskBox,
}

impl Model for Satl {
    ghost use Rattle.std.specs.Prelude.{◌-◌};
    ghost use Rattle.satl_core.specs.Layer.{IsSoundLayer, Layer, held_pages};

    ghost Value = { Layer };

    ghost view = { λ s. record {
      identity = s.identity;
      modes = s.modes;
      started = s.started;
      down = s.down;
      attentions = s.attentions;
      tasks = s.queue.tasks;
      flying = s.queue.flying;
      slots = s.queue.slots;
      free = s.pool.free;
      out = s.pool.out - held_pages s.queue.tasks;
    } };

    ghost invariant = { λ s. IsSoundLayer s.identity s.queue.tasks s.pool };
}

impl Satl {
    /// Opens the layer on a drive with nothing outstanding and in no error state, whose IDENTIFY DEVICE data fit it: it asks
    /// the drive for these data once, and takes all memory that it will use. `Identity`: the layer does not serve such a drive.
    /// `LinkDown`: the drive's link is lost. `NoMemory` may come before or after the drive is asked (SAT-3; profile).
    pub fn open<D: Drive<L>, L: Ledger>(
        alloc: Global,
        drive: &mut D,
        steps: &mut Steps<L>,
    ) -> Result<Satl, OpenFault>
        requires { IsFree (D.state drive.old) }
        ensures opened { IfOk result (λ s. IsOpened (D.state drive.old) s (D.state drive.new)) }
        ensures cause { IfErr result (IsCause (D.state drive.old) (D.state drive.new)) }
        ensures alone { OnErr result (IsUndisturbed (D.state drive.old) (D.state drive.new)) }
        ensures nows { map (λ c. c.now) (D.state drive.new).cells ≡ map (λ c. c.now) (D.state drive.old).cells }
        ensures unplugs { (D.state drive.new).unplugs ≡ (D.state drive.old).unplugs }
        ensures orders { (D.state drive.new).orders ≡ (D.state drive.old).orders }
        ensures steps { steps.new ≤ steps.old + 1 }
    {
        let queue = Queue::new(alloc)?;
        let desk = TaskBox::new(alloc)?;
        let mut pool = Pool::new(alloc, POOL_PAGES)?;
        let Some(mut pages) = pool.take(1) else {
            unreachable!();
        };
        tell_identity(drive, &mut pages, steps)?;
        let identity = read_identity(&pages.block(0).bytes)?;
        pool.give(pages);
        Ok(Satl {
            identity,
            modes: first_modes(&identity),
            started: true,
            down: false,
            attentions: no_attentions(),
            queue,
            pool,
            desk,
        })
    }

    /// What the drive's IDENTIFY DEVICE data said when the layer was opened (ACS-3, IDENTIFY DEVICE).
    pub fn identity(&self) -> &Identity
        ensures { result.now ≡ self.now.identity }
    {
        &self.identity
    }

    /// A command arrives: it is answered at once, or waits as a task, which is issued where it may be. Its pages become the
    /// task's or are given back (SAM-5 5; the order of the tests: profile). Where it has the nexus and tag of a task, all tasks
    /// of its nexus go without an answer. Where no page was free for all of its data-out, it does what the whole request does.
    /// Where the link is lost in it, all tasks are answered.
    pub fn submit<D: Drive<L>, L: Ledger>(
        &mut self,
        request: Request,
        drive: &mut D,
        replies: &mut Replies,
        steps: &mut Steps<L>,
    )
        requires can { CanSubmit request self.old.free self.old.out }
        requires empty { replies.old ≡ [] }
        requires tied { Tied self.old (D.state drive.old) }
        ensures around { (whole : Request) → IsCutOf whole request
            → Around (MayLose (Arrives whole)) (view self.old (D.state drive.old)) replies.new
            (view self.new (D.state drive.new)) }
        ensures modes { self.new.modes ≡ self.old.modes }
        ensures more { length self.new.tasks ≤ length self.old.tasks + 1 }
        ensures tied { Tied self.new (D.state drive.new) }
        ensures pages { self.new.out ≡ reply_pages replies.new }
        ensures writable { AllByRecursion IsWritable replies.new }
        ensures kept { AreKept self.old (D.state drive.old) self.new (D.state drive.new) }
        ensures unasked { self.old.down ≡ true → drive.new ≡ drive.old }
        ensures uncalled { self.old.down ≡ true → steps.new ≡ steps.old }
        ensures calls { steps.new + turn_calls * length self.new.tasks
            ≤ steps.old + turn_calls * (length self.old.tasks + 1) + off_calls }
        ensures issues { is_overlapping self.old.tasks request ≡ false → self.new.down ≡ false
            → steps.new + length self.old.flying ≡ steps.old + length self.new.flying }
        ensures resets { is_overlapping self.old.tasks request ≡ true → self.new.down ≡ false
            → ResetsFor (is_within (Scope.OfNexus request.nexus)) self.old steps.old self.new steps.new }
        ensures steps { steps.new ≤ steps.old + arrival_calls self.old.tasks request }
    {
        if self.overlaps(&request) {
            self.overlap(request, drive, replies, steps);
            return;
        }
        match self.judge(&request) {
            Ok(command) => {
                self.add_task(request, &command, replies);
                if replies.len() == 0 {
                    self.send_last(drive, replies, steps);
                }
            }
            Err(answer) => answer_at_once(
                &mut self.pool,
                &self.identity,
                &self.modes,
                request,
                &answer,
                replies,
            ),
        }
    }

    /// Whether a request has the nexus and tag of a task, at logical unit 0 (SAM-5, overlapped commands). Its pages hold
    /// what a parameter list needs of them.
    fn overlaps(&self, request: &Request) -> bool
        ensures value { result ≡ is_overlapping self.now.tasks request.now }
        ensures holds { CanSubmit request.now self.now.free self.now.out → total_blocks self.now.tasks ≤ most_held
            → length self.now.tasks ≤ most_tasks → HoldsList request.now }
    {
        is_for_unit(request) && self.queue.find(request.nexus, request.tag).is_some()
    }

    /// A request that has the nexus and tag of a task is refused, and all tasks of its nexus go without an answer (SAM-5,
    /// overlapped commands).
    fn overlap<D: Drive<L>, L: Ledger>(
        &mut self,
        request: Request,
        drive: &mut D,
        replies: &mut Replies,
        steps: &mut Steps<L>,
    )
        requires can { CanSubmit request self.old.free self.old.out }
        requires overlaps { is_overlapping self.old.tasks request ≡ true }
        requires empty { replies.old ≡ [] }
        requires tied { Tied self.old (D.state drive.old) }
        ensures around { (whole : Request) → IsCutOf whole request
            → Around (MayLose (Arrives whole)) (view self.old (D.state drive.old)) replies.new
            (view self.new (D.state drive.new)) }
        ensures tied { Tied self.new (D.state drive.new) }
        ensures kept { AreKept self.old (D.state drive.old) self.new (D.state drive.new) }
        ensures modes { self.new.modes ≡ self.old.modes }
        ensures fewer { length self.new.tasks ≤ length self.old.tasks }
        ensures pages { self.new.out ≡ reply_pages replies.new }
        ensures writable { AllByRecursion IsWritable replies.new }
        ensures unasked { self.old.down ≡ true → drive.new ≡ drive.old }
        ensures uncalled { self.old.down ≡ true → steps.new ≡ steps.old }
        ensures resets { self.new.down ≡ false
            → ResetsFor (is_within (Scope.OfNexus request.nexus)) self.old steps.old self.new steps.new }
        ensures steps { steps.new ≤ steps.old + off_calls }
    {
        let scope = Scope::OfNexus(request.nexus);
        let overlapped = AtOnce::Check(overlapped());
        answer_at_once(
            &mut self.pool,
            &self.identity,
            &self.modes,
            request,
            &overlapped,
            replies,
        );
        self.take_off(&scope, drive, replies, steps);
    }

    /// Judges a request that overlaps no task: its command, which may become a task, or why it is answered at once. A unit
    /// attention that it is answered with is told by that (SAM-5 5.14).
    fn judge(&mut self, request: &Request) -> Result<Command, AtOnce>
        requires holds { HoldsList request.now }
        requires alone { is_overlapping self.old.tasks request.now ≡ false }
        ensures judged { result ≡ judged self.old request.now }
        ensures left { self.new ≡ once_judged self.old request.now }
        ensures kept { self.new ≡ record self.old { attentions = self.new.attentions } }
        ensures same { OnOk result (self.new ≡ self.old) }
        ensures lengths { HasLengths request.now.cdb }
        ensures task { IfOk result (λ command. IsTask self.old.identity.capacity command (held_blocks command)) }
        ensures list { IfOk result (λ command. HasList command request.now.body self.old.identity.capacity) }
        ensures trims { IfOk result (λ command. trims command ≡ true → self.old.identity.trim ≡ true) }
        ensures change { AreModesOf self.old.identity self.old.modes
            → IfOk result (λ command. IfSome ((asks command).change request.now.body) (IsChangeOf self.old.identity)) }
    {
        read_lengths(request);
        if !is_for_unit(request) {
            return Err(other_answer(request));
        }
        if let Some(what) = next_attention(&mut self.attentions, request) {
            return Err(tell_attention(what, request));
        }
        judge_code(self, request)
    }

    /// A command becomes a task, or the task set is full.
    fn add_task(&mut self, request: Request, command: &Command, replies: &mut Replies)
        requires can { CanSubmit request self.old.free self.old.out }
        requires few { length self.old.tasks ≤ most_tasks }
        requires judged { judged self.old request ≡ Ok command.now }
        requires holds { HoldsList request }
        requires list { HasList command.now request.body self.old.identity.capacity }
        requires trims { trims command.now ≡ true → self.old.identity.trim ≡ true }
        requires change { IfSome ((asks command.now).change request.body) (IsChangeOf self.old.identity) }
        requires task { IsTask self.old.identity.capacity command.now (held_blocks command.now) }
        requires empty { replies.old ≡ [] }
        ensures becomes { Becomes request command.now self.old replies.new self.new }
        ensures comes { replies.new ≡ [] → Comes self.old.identity.capacity self.old.identity.queued_trim self.old.tasks
            self.new.tasks }
        ensures long { replies.new ≡ [] → needed command.now ≤ 512 * length request.body }
    {
        put_task(&request, command, &self.identity, self.desk.entry_mut());
        if self.queue.add(&mut self.desk).is_err() {
            replies.push(reply_to(&request, Scsi::TaskSetFull, SenseBytes::new()));
            self.pool.give(request.body);
            return;
        }
        let body = own_pages(&mut self.pool, command, &self.identity, request.body);
        self.queue.fill_last(body);
    }

    /// One turn: a task ends that is outstanding, or else the first one; then what may be issued is. At a lost link all tasks
    /// are answered, in order of arrival (SAM-5 5; lost links: profile). A MODE SELECT sets the drive first, then the mode
    /// values, and the other nexuses are told (SPC-4, MODE SELECT commands).
    pub fn turn<D: Drive<L>, L: Ledger>(
        &mut self,
        drive: &mut D,
        replies: &mut Replies,
        steps: &mut Steps<L>,
    )
        requires empty { replies.old ≡ [] }
        requires all_in { self.old.out ≡ 0 }
        requires tied { Tied self.old (D.state drive.old) }
        ensures turns { Around Turn (view self.old (D.state drive.old)) replies.new (view self.new (D.state drive.new)) }
        ensures tied { Tied self.new (D.state drive.new) }
        ensures pages { self.new.out ≡ reply_pages replies.new }
        ensures writable { AllByRecursion IsWritable replies.new }
        ensures fewer { length self.new.tasks ≤ length self.old.tasks - 1 }
        ensures kept { AreKept self.old (D.state drive.old) self.new (D.state drive.new) }
        ensures unasked { self.old.down ≡ true → drive.new ≡ drive.old }
        ensures uncalled { self.old.down ≡ true → steps.new ≡ steps.old }
        ensures flushed { IsFlushed self.old.tasks replies.new
            → (Rose (D.state drive.old).faults (D.state drive.new).faults → ⊥)
            → AllByRecursion IsSettled (D.state drive.new).cells }
        ensures polls { self.old.flying ≢ [] → self.new.down ≡ false
            → PollsAndIssues self.old steps.old replies.new self.new steps.new }
        ensures in_order { self.old.flying ≡ [] → self.new.down ≡ false
            → IssuesInOrder [] self.new.flying self.new.tasks }
        ensures queued { self.old.flying ≢ [] → steps.new ≤ steps.old + (poll_calls + issue_calls) }
        ensures unready { is_first_unready self.old.started self.old.tasks ≡ true → drive.new ≡ drive.old }
        ensures first_calls { self.old.flying ≡ [] → self.new.down ≡ false
            → steps.new ≤ steps.old + (calls_of_first self.old.started self.old.tasks + length self.new.flying) }
        ensures none { self.old.tasks ≡ [] → steps.new ≡ steps.old }
        ensures steps { steps.new ≤ steps.old + turn_calls }
        ensures calls { steps.new + turn_calls * length self.new.tasks ≤ steps.old + turn_calls * length self.old.tasks }
    {
        if self.pending() == 0 {
            return;
        }
        self.end_one(drive, replies, steps);
        self.refill(drive, replies, steps);
    }

    /// A task management function is carried out: tasks go without an answer, and unit attentions are posted (SAM-5 7; the
    /// codes: profile). Where the link is lost in it, all other tasks are answered.
    pub fn manage<D: Drive<L>, L: Ledger>(
        &mut self,
        manage: &Manage,
        drive: &mut D,
        replies: &mut Replies,
        steps: &mut Steps<L>,
    ) -> Response
        requires empty { replies.old ≡ [] }
        requires all_in { self.old.out ≡ 0 }
        requires tied { Tied self.old (D.state drive.old) }
        ensures manages { Around (MayLose (Manages manage.now result)) (view self.old (D.state drive.old)) replies.new
            (view self.new (D.state drive.new)) }
        ensures tied { Tied self.new (D.state drive.new) }
        ensures pages { self.new.out ≡ reply_pages replies.new }
        ensures writable { AllByRecursion IsWritable replies.new }
        ensures fewer { length self.new.tasks ≤ length self.old.tasks }
        ensures modes { self.new.modes ≡ self.old.modes }
        ensures kept { AreKept self.old (D.state drive.old) self.new (D.state drive.new) }
        ensures unasked { self.old.down ≡ true → drive.new ≡ drive.old }
        ensures uncalled { self.old.down ≡ true → steps.new ≡ steps.old }
        ensures calls { steps.new + turn_calls * length self.new.tasks
            ≤ steps.old + turn_calls * length self.old.tasks + off_calls }
        ensures resets { self.new.down ≡ false
            → ResetsFor (is_within (effect manage.now self.old.tasks).goes) self.old steps.old self.new steps.new }
        ensures steps { steps.new ≤ steps.old + off_calls }
    {
        let effect = decide(manage, &self.queue);
        post(&mut self.attentions, &self.queue, &effect.posts);
        self.take_off(&effect.goes, drive, replies, steps);
        effect.response
    }

    /// An event of the test bench happens to the drive, and the layer to what follows from it: at a power cycle the tasks go
    /// without an answer, the modes are the defaults and each nexus is told; at a lost link all tasks are answered (profile).
    pub fn bench<D: Bench<L>, L: Ledger>(
        &mut self,
        event: &BenchEvent<'_>,
        drive: &mut D,
        replies: &mut Replies,
        steps: &mut Steps<L>,
    )
        requires empty { replies.old ≡ [] }
        requires all_in { self.old.out ≡ 0 }
        requires tied { Tied self.old (D.state drive.old) }
        ensures happens { Around (Happens event.now) (view self.old (D.state drive.old)) replies.new
            (view self.new (D.state drive.new)) }
        ensures tied { Tied self.new (D.state drive.new) }
        ensures pages { self.new.out ≡ reply_pages replies.new }
        ensures writable { AllByRecursion IsWritable replies.new }
        ensures fewer { length self.new.tasks ≤ length self.old.tasks }
        ensures counted { RoseBy (bench_losses event.now) (D.state drive.old).faults (D.state drive.new).faults }
        ensures unplugs { (D.state drive.new).unplugs ≡ unplugs_after event.now (D.state drive.old).unplugs }
        ensures orders { (D.state drive.new).orders ≡ orders_after event.now (D.state drive.old).orders }
        ensures powered { event.now ≡ BenchEvent.Power
            → AllZip IsLeftBehind (D.state drive.old).cells (D.state drive.new).cells }
        ensures deep { Deepens (D.state drive.old) (D.state drive.new) }
        ensures steps { steps.new ≡ steps.old }
    {
        act_on::<D, L>(drive, event);
        self.follow(event, replies);
    }

    /// What follows from an event of the test bench (profile).
    fn follow(&mut self, event: &BenchEvent<'_>, replies: &mut Replies)
        requires empty { replies.old ≡ [] }
        requires all_in { self.old.out ≡ 0 }
        requires few { length self.old.tasks ≤ most_tasks }
        ensures follows { FollowsEvent event.now self.old replies.new self.new }
        ensures pages { self.new.out ≡ reply_pages replies.new }
        ensures writable { AllByRecursion IsWritable replies.new }
    {
        match event {
            BenchEvent::Power => self.start_anew(),
            BenchEvent::Unplug => {
                self.queue.forget();
                self.lose(replies);
            }
            BenchEvent::Strike { .. }
            | BenchEvent::Mend { .. }
            | BenchEvent::Glitch { .. }
            | BenchEvent::Order { .. } => {}
        }
    }

    /// The unit is as after power on: without tasks, started, and with the default modes (SAM-5 6.3; profile).
    fn start_anew(&mut self)
        requires all_in { self.old.out ≡ 0 }
        ensures anew { StartsAnew self.old [] self.new }
        ensures out { self.new.out ≡ 0 }
    {
        self.queue.forget();
        drop_tasks(&mut self.queue, &mut self.pool, &mut self.desk, &Scope::All);
        self.modes = defaults(&self.identity);
        self.started = true;
        self.down = false;
        self.attentions = powered_on();
    }

    /// The number of tasks that wait, at most 64. Those that the layer has given to its drive are outstanding there under their
    /// tags, and the slots hold their pages (ACS-3, native command queuing; profile).
    pub fn pending(&self) -> usize
        ensures count { result ≡ length self.now.tasks }
        ensures few { length self.now.tasks ≤ most_tasks }
        ensures ties { (d : DriveState) → Tied self.now d → TiesQueue self.now d }
        ensures deep { (d : DriveState) → Tied self.now d → depth (view self.now d) ≤ length d.outstanding }
    {
        self.queue.len()
    }

    /// Hands out pages of 512 bytes, with whatever they hold. None exactly where fewer are free (profile).
    pub fn take_pages(&mut self, n: u32) -> Option<Pages>
        ensures fewer { IsNone result ↔ (self.old.free < n) }
        ensures pages { IfSome result (λ pages. length pages ≡ n) }
        ensures taken { OnSome result (self.new ≡ record self.old { free = self.new.free; out = self.old.out + n }) }
        ensures free { OnSome result (self.new.free + n ≡ self.old.free) }
        ensures none { IfNone result (self.new ≡ self.old) }
    {
        self.pool.take(n)
    }

    /// Takes pages back, at most as many as are out (profile).
    // Inlined, so that a reply without data, as most are, costs no call.
    #[inline(always)]
    pub fn recycle(&mut self, pages: Pages)
        requires { length pages ≤ self.old.out }
        ensures given { self.new ≡ record self.old { free = self.old.free + length pages; out = self.new.out } }
        ensures out { self.new.out + length pages ≡ self.old.out }
    {
        if pages.blocks() > 0 {
            self.take_back(pages);
        }
    }

    /// The rest of `recycle`, for pages that there are. Never inlined, so that each place that recycles stays short.
    #[inline(never)]
    fn take_back(&mut self, pages: Pages)
        requires { length pages ≤ self.old.out }
        ensures given { self.new ≡ record self.old { free = self.old.free + length pages; out = self.new.out } }
        ensures out { self.new.out + length pages ≡ self.old.out }
    {
        let pages = self.queue.exchange(pages);
        self.pool.give_room(pages);
    }
}

/// The layer keeps all but its free pages beside them.
impl Lender for Satl {
    type Rest = Satl;

    ghost stock = { λ s. record { free = s.free; out = s.out; rest = record s { free = 0; out = 0 } } };

    fn room(&self) -> u32 {
        self.pool.free()
    }

    fn lend(&mut self, n: u32) -> Pages {
        let Some(pages) = self.take_pages(n) else {
            unreachable!();
        };
        pages
    }

    fn give_back(&mut self, pages: Pages) {
        self.recycle(pages);
    }
}

/// The mode values of a drive that was just opened: its settings, and the fixed form of sense data.
fn first_modes(identity: &Identity) -> Modes
    ensures wce { result.wce ≡ identity.now.cache_on }
    ensures dra { result.dra ≡ Rattle.std.specs.Prelude.not identity.now.look_on }
    ensures d_sense { result.d_sense ≡ Rattle.std.specs.Prelude.false }
{
    Modes {
        wce: identity.cache_on,
        dra: !identity.look_on,
        d_sense: false,
    }
}
