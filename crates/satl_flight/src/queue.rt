// The tasks that wait, and which of them are outstanding.
ghost use Rattle.std.specs.Option.{option_map};
ghost use Rattle.std.specs.List.{position_from};
ghost use Rattle.std.specs.Prelude.{◌≡◌, ◌≢◌, ◌≤◌, ◌<◌, ◌+◌, ◌-◌, ◌↔◌, [], length, Some, false, IfOk, IsTrue, OnOk, OnErr, is_err, remove, slice_get};
ghost use Rattle.satl_base.specs.Limits.{most_held, most_tasks};
ghost use Rattle.satl_base.specs.Lists.{change_at};
ghost use Rattle.satl_line.specs.Tasks.{Adds, AreOwnSlots, Held, entry_at, is_named, is_too_much, total_blocks, with_body, without_pages};
ghost use Rattle.satl_flight.specs.Flown.{is_outstanding};
ghost use Rattle.satl_flight.specs.Leaving.{AreLeft, settle_calls};
ghost use Rattle.satl_drive.specs.State.{DriveState, IsFit};
ghost use Rattle.satl_flight.specs.Lending.{AreAlike};
ghost use Rattle.satl_flight.specs.Queueing.{EndsAndLeaves, IsQueued, IsSlotted, empty};
ghost use Rattle.satl_flight.specs.Settled.{IsCut, IsFilled, IsIssuedIfItMay, IsLaunched, IsLostInFlight, IsLostQuietly, IssuesAtMost, IssuesInOrder, on_drive};

use crate::flight::Flight;
use satl_base::{Nexus, NoMemory, Pages, Steps, Tag};
use satl_drive::{Drive, LinkDown};
use satl_errlog::NcqError;
use satl_line::{Entry, TaskBox, TaskSet, TaskSetFull};
use satl_pages::Dma;
use std::alloc::Global;
use std::marker::Model;
use std::sync::ledger::Ledger;

/// How many pages lie beside the slots: as many as a READ of 128 KiB fills.
const RECENT_PAGES: u32 = 256;

/// The task set, what is outstanding of it, and the slots of the tags. Clauses see each task with its pages, wherever these
/// lie (ACS-3, native command queuing; profile).
#[derive(Drop)]
pub struct Queue {
    set: TaskSet,
    flight: Flight,
    dma: Dma,
}

impl Model for Queue {
    ghost use Rattle.satl_flight.specs.Lending.{IsLending, Waiting, waiting, with_own_pages};

    ghost Value = { Waiting };

    ghost view = { λ q. with_own_pages (waiting q.flight q.dma q.set) };

    ghost invariant = { λ q. IsLending q.flight q.dma q.set };
}

impl Queue {
    /// A queue without tasks. It takes all memory that it ever needs, and the error is want of it (profile).
    pub fn new(alloc: Global) -> Result<Queue, NoMemory>
        ensures { IfOk result (λ queue. queue ≡ empty) }
    {
        Ok(Queue {
            set: TaskSet::new(alloc)?,
            flight: Flight::new(alloc)?,
            dma: Dma::keeping(Pages::zeroed(alloc, RECENT_PAGES)?),
        })
    }

    /// Issues the eligible ranged tasks that are not outstanding, in order of arrival, while a tag is free (ACS-3, native
    /// command queuing; profile).
    pub fn launch<D: Drive<L>, L: Ledger>(
        &mut self,
        drive: &mut D,
        steps: &mut Steps<L>,
    ) -> Result<(), LinkDown>
        requires queued { IsQueued self.old (D.state drive.old) }
        ensures ok { OnOk result (IsLaunched (on_drive self.old (D.state drive.old)) (on_drive self.new (D.state drive.new))) }
        ensures filled { OnOk result (IsFilled self.new.flying self.new.tasks) }
        ensures in_order { OnOk result (IssuesInOrder self.old.flying self.new.flying self.new.tasks) }
        ensures err { OnErr result (IsLostQuietly self.old.tasks (D.state drive.old) (D.state drive.new)) }
        ensures emptied { OnErr result (self.new.flying ≡ []) }
        ensures same { self.new.tasks ≡ self.old.tasks }
        ensures fit { IsFit (D.state drive.old) → IsFit (D.state drive.new) }
        ensures cost { OnOk result (steps.new + length self.old.flying ≡ steps.old + length self.new.flying) }
        ensures steps { steps.new + length self.old.flying ≤ steps.old + 32 }
    {
        self.flight
            .launch(&mut self.set, &mut self.dma, drive, steps)
    }

    /// Polls once: the task that has ended leaves, into a box. Gives the entry of the error log where it failed. The task that
    /// lay in the box is gone; at a lost link it stays (ACS-3, native command queuing; profile).
    pub fn settle_one<D: Drive<L>, L: Ledger>(
        &mut self,
        task: &mut TaskBox,
        drive: &mut D,
        steps: &mut Steps<L>,
    ) -> Result<Option<NcqError>, LinkDown>
        requires queued { IsQueued self.old (D.state drive.old) }
        requires one { self.old.flying ≢ [] }
        requires fit { IsFit (D.state drive.old) }
        ensures ok { IfOk result (λ error. EndsAndLeaves error task.new (on_drive self.old (D.state drive.old))
            (on_drive self.new (D.state drive.new))) }
        ensures back { OnErr result (task.new ≡ task.old) }
        ensures err { OnErr result (IsLostInFlight self.old.tasks (D.state drive.old) (D.state drive.new)) }
        ensures emptied { OnErr result (self.new.flying ≡ []) }
        ensures alike { OnErr result (AreAlike self.old.tasks self.new.tasks) }
        ensures fit { IsFit (D.state drive.new) }
        ensures left { IfOk result (λ error. AreLeft error self.old.flying self.new.flying) }
        ensures cost { IfOk result (λ error. steps.new ≡ steps.old + settle_calls error) }
        ensures steps { steps.new ≤ steps.old + 2 }
    {
        let ended = self
            .flight
            .settle_one(&mut self.set, &mut self.dma, drive, steps)?;
        self.set.remove(ended.place, task);
        Ok(ended.error)
    }

    /// Resets the drive: nothing is outstanding, and each task waits on (ACS-3, software reset).
    pub fn cut<D: Drive<L>, L: Ledger>(
        &mut self,
        drive: &mut D,
        steps: &mut Steps<L>,
    ) -> Result<(), LinkDown>
        requires queued { IsQueued self.old (D.state drive.old) }
        ensures ok { OnOk result (IsCut self.old.tasks (D.state drive.old) (D.state drive.new)) }
        ensures err { OnErr result (IsLostQuietly self.old.tasks (D.state drive.old) (D.state drive.new)) }
        ensures emptied { self.new.flying ≡ [] }
        ensures same { self.new.tasks ≡ self.old.tasks }
        ensures fit { IsFit (D.state drive.old) → IsFit (D.state drive.new) }
        ensures step { steps.new ≡ steps.old + 1 }
    {
        self.flight.cut(&mut self.set, &mut self.dma, drive, steps)
    }

    /// How many tasks wait: at most 64, each in a slot of its own, which hold at most 32,768 blocks. The slots of the tags that
    /// are given out hold the pages of their commands (profile).
    pub fn len(&self) -> usize
        ensures value { result ≡ length self.now.tasks }
        ensures few { length self.now.tasks ≤ most_tasks }
        ensures blocks { total_blocks self.now.tasks ≤ most_held }
        ensures own { AreOwnSlots self.now.tasks }
        ensures slotted { (d : DriveState) → IsQueued self.now d → IsSlotted d.outstanding self.now.slots }
    {
        self.set.len()
    }

    /// The place of the task of a nexus and tag, counted from 0 in order of arrival. None exactly where there is none (SAM-5,
    /// I_T_L_Q nexus).
    pub fn find(&self, nexus: Nexus, tag: Tag) -> Option<usize>
        ensures { result ≡ position_from (is_named nexus tag) 0 self.now.tasks }
    {
        self.set.find(nexus, tag)
    }

    /// The task at a place, but for its pages, which may be lent (profile).
    pub fn entry(&self, place: usize) -> &Entry
        requires { place < length self.now.tasks }
        ensures { option_map without_pages (entry_at self.now.tasks place) ≡ Some (without_pages result.now) }
    {
        self.set.entry(place)
    }

    /// Whether the task at a place is outstanding (profile).
    pub fn is_outstanding(&self, place: usize) -> bool
        requires { place < length self.now.tasks }
        ensures { (h : Held) → slice_get self.now.tasks place ≡ Some h → result ≡ is_outstanding self.now.flying h.slot }
    {
        self.flight.holds_slot(self.set.slot_of(place))
    }

    /// Issues the last task, and no other, if it is eligible, ranged and not outstanding, and a tag is free. At a lost link all
    /// tasks have their pages back (ACS-3, native command queuing; profile).
    pub fn launch_last<D: Drive<L>, L: Ledger>(
        &mut self,
        drive: &mut D,
        steps: &mut Steps<L>,
    ) -> Result<(), LinkDown>
        requires some { 0 < length self.old.tasks }
        requires queued { IsQueued self.old (D.state drive.old) }
        ensures ok { OnOk result (IsLaunched (on_drive self.old (D.state drive.old)) (on_drive self.new (D.state drive.new))) }
        ensures covered { OnOk result (IsIssuedIfItMay self.new.flying self.new.tasks (length self.old.tasks - 1)) }
        ensures only { OnOk result (IssuesAtMost self.new.tasks (length self.old.tasks - 1) self.old.flying self.new.flying) }
        ensures err { OnErr result (IsLostQuietly self.old.tasks (D.state drive.old) (D.state drive.new)) }
        ensures emptied { OnErr result (self.new.flying ≡ []) }
        ensures same { self.new.tasks ≡ self.old.tasks }
        ensures fit { IsFit (D.state drive.old) → IsFit (D.state drive.new) }
        ensures cost { OnOk result (steps.new + length self.old.flying ≡ steps.old + length self.new.flying) }
        ensures steps { steps.new ≤ steps.old + 1 }
    {
        let place = self.set.len() - 1;
        if !self.flight.may_issue(place, &self.set) {
            return Ok(());
        }
        self.flight
            .issue_at(place, &mut self.set, &mut self.dma, drive, steps)
    }

    /// Puts pages into the last task, which has none and is not outstanding (profile).
    pub fn fill_last(&mut self, body: Pages)
        requires some { 0 < length self.old.tasks }
        requires waits { (h : Held) → slice_get self.old.tasks (length self.old.tasks - 1) ≡ Some h
            → (is_outstanding self.old.flying h.slot ≡ false) × (h.entry.body ≡ []) }
        ensures filled { self.new.tasks ≡ change_at self.old.tasks (length self.old.tasks - 1) (with_body body) }
        ensures flying { self.new.flying ≡ self.old.flying }
        ensures slots { self.new.slots ≡ self.old.slots }
    {
        let place = self.set.len() - 1;
        // It tells that no other task has the slot.
        let _alone = self.set.slot_of(place);
        self.set.put_data(place, body);
    }

    /// Whether nothing is outstanding (profile).
    pub fn is_idle(&self) -> bool
        ensures { IsTrue result ↔ (self.now.flying ≡ []) }
    {
        self.flight.is_empty()
    }

    /// Adds the task of a box at the end, where it is not outstanding: the box has another one then. The error comes exactly
    /// where the set is full, and the task stays in its box (SAM-5, TASK SET FULL).
    pub fn add(&mut self, task: &mut TaskBox) -> Result<(), TaskSetFull>
        ensures full { is_err result ≡ is_too_much self.old.tasks task.old }
        ensures ok { OnOk result (Adds self.old.tasks task.old self.new.tasks) }
        ensures waits { OnOk result ((h : Held) → slice_get self.new.tasks (length self.old.tasks) ≡ Some h
            → is_outstanding self.new.flying h.slot ≡ false) }
        ensures back { OnErr result (task.new ≡ task.old) }
        ensures kept { OnErr result (self.new ≡ self.old) }
        ensures flying { self.new.flying ≡ self.old.flying }
        ensures slots { self.new.slots ≡ self.old.slots }
    {
        self.set.add(task)
    }

    /// Takes the task at a place out, which is not outstanding, into a box: the task that lay there is gone (profile).
    pub fn remove(&mut self, place: usize, task: &mut TaskBox)
        requires within { place < length self.old.tasks }
        requires waits { (h : Held) → slice_get self.old.tasks place ≡ Some h → is_outstanding self.old.flying h.slot ≡ false }
        ensures value { entry_at self.old.tasks place ≡ Some task.new }
        ensures others { self.new.tasks ≡ remove self.old.tasks place }
        ensures flying { self.new.flying ≡ self.old.flying }
        ensures slots { self.new.slots ≡ self.old.slots }
    {
        // It tells that no other task has the slot.
        let _alone = self.set.slot_of(place);
        self.set.remove(place, task);
    }

    /// Gives as many pages as it takes, with whatever they hold: others, where it keeps as many (profile).
    // Who hands in the pages of each reply that was told has the next READ filled into these.
    pub fn exchange(&mut self, pages: Pages) -> Pages
        ensures as_many { length result ≡ length pages }
        ensures same { self.new ≡ self.old }
    {
        self.dma.exchange(pages)
    }

    /// Forgets all that is outstanding, where the drive has let go of it (profile).
    pub fn forget(&mut self)
        ensures emptied { self.new.flying ≡ [] }
        ensures same { self.new.tasks ≡ self.old.tasks }
    {
        self.flight.land_all(&mut self.set, &mut self.dma);
    }
}
