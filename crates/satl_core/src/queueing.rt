// Tasks on the drive's queue: what is issued, what ends, and what is taken off.
ghost use Rattle.std.specs.Prelude.{◌≡◌, ◌≢◌, ◌≤◌, ◌<◌, ◌+◌, ◌++◌, [], true, false, length, List, MatchBool};
ghost use Rattle.std.specs.List.{AllByRecursion};
ghost use Rattle.satl_base.specs.Identify.{has_queued_trim};
ghost use Rattle.satl_base.specs.Limits.{most_tasks};
ghost use Rattle.satl_io.specs.Causes.{Rose};
ghost use Rattle.satl_line.specs.Tasks.{Held};
ghost use Rattle.satl_frame.specs.Output.{IsWritable};
ghost use Rattle.satl_direct.specs.Quiet.{Around};
ghost use Rattle.satl_direct.specs.Run.{MayLose};
ghost use Rattle.satl_flight.specs.Settled.{IsFilled};
ghost use Rattle.satl_core.specs.Calling.{OnlyIssues, PollsOnce, ResetsFor, calls_of_first, is_first_unready};
ghost use Rattle.satl_core.specs.Flushed.{IsFlushed, IsSettled};
ghost use Rattle.satl_core.specs.Layer.{Agrees, Tied, most_replies, reply_pages, view, works};
ghost use Rattle.satl_core.specs.Leaving.{is_within};
ghost use Rattle.satl_core.specs.Refilling.{Answers, AreKept, Comes, EndsOrLoses, KeepsRest, Refills, Removes};
ghost use Rattle.satl_core.specs.Turning.{barrier_calls, issue_calls, lost_replies, off_calls, poll_calls};

use crate::leaving::{Scope, drop_tasks, has_outstanding};
use crate::managing::post;
use crate::satl::Satl;
use crate::selecting::{change_posting, modes_after, wanted_by};
use crate::turning::{
    Circumstances, end_task, ending_by, is_read, link_lost, lose_tasks, run_task, started_after,
};
use satl_base::{Replies, Steps};
use satl_drive::{Drive, LinkDown};
use std::sync::ledger::Ledger;

impl Satl {
    /// The link is lost, and nothing is outstanding: all tasks are answered, in order of arrival.
    pub(crate) fn lose(&mut self, replies: &mut Replies)
        requires idle { self.old.flying ≡ [] }
        requires room { length replies.old + length self.old.tasks ≤ most_replies }
        ensures answers { replies.new ≡ replies.old ++ lost_replies self.old.modes.d_sense self.old.tasks }
        ensures stays { self.new ≡ record self.old { down = true; tasks = []; slots = self.new.slots; free = self.new.free } }
        ensures writable { AllByRecursion IsWritable replies.old → AllByRecursion IsWritable replies.new }
    {
        self.down = true;
        let descriptor = self.modes.d_sense;
        lose_tasks(
            &mut self.queue,
            &mut self.pool,
            &mut self.desk,
            descriptor,
            replies,
        );
    }

    /// Issues what may be issued, where the unit is up and started. Where the link is lost in it, all tasks are answered.
    pub(crate) fn refill<D: Drive<L>, L: Ledger>(
        &mut self,
        drive: &mut D,
        replies: &mut Replies,
        steps: &mut Steps<L>,
    )
        requires agrees { Agrees self.old (D.state drive.old) }
        requires still { MatchBool (works self.old) (Unit {0}) (self.old.flying ≡ []) }
        requires room { length replies.old + length self.old.tasks ≤ most_replies }
        ensures refills { Answers (λ more. Refills (view self.old (D.state drive.old)) more (view self.new (D.state drive.new)))
            replies.old replies.new }
        ensures tied { Tied self.new (D.state drive.new) }
        ensures kept { AreKept self.old (D.state drive.old) self.new (D.state drive.new) }
        ensures rest { KeepsRest self.old replies.old self.new replies.new }
        ensures settled { AllByRecursion IsSettled (D.state drive.old).cells
            → (Rose (D.state drive.old).faults (D.state drive.new).faults → ⊥)
            → AllByRecursion IsSettled (D.state drive.new).cells }
        ensures unasked { self.old.down ≡ true → drive.new ≡ drive.old }
        ensures uncalled { self.old.down ≡ true → steps.new ≡ steps.old }
        ensures unready { self.old.started ≡ false → drive.new ≡ drive.old }
        ensures unanswered { self.old.down ≡ true → (replies.new ≡ replies.old) × (self.new ≡ self.old) }
        ensures unlost { self.new.down ≡ false → replies.new ≡ replies.old }
        ensures issues { self.new.down ≡ false → OnlyIssues self.old.flying steps.old self.new steps.new }
        ensures steps { steps.new ≤ steps.old + issue_calls }
    {
        if self.down || !self.started {
            return;
        }
        if let Err(LinkDown) = self.queue.launch(drive, steps) {
            self.lose(replies);
        }
    }

    /// Issues the task that came last, if it may be issued, where the unit is up and started.
    pub(crate) fn send_last<D: Drive<L>, L: Ledger>(
        &mut self,
        drive: &mut D,
        replies: &mut Replies,
        steps: &mut Steps<L>,
    )
        requires agrees { Agrees self.old (D.state drive.old) }
        requires came { (before : List Held) × Comes (D.state drive.old).capacity
            (has_queued_trim (D.state drive.old).identify) before self.old.tasks
            × MatchBool (works self.old) (IsFilled self.old.flying before) (self.old.flying ≡ []) }
        requires room { length replies.old + length self.old.tasks ≤ most_replies }
        ensures refills { Answers (λ more. Refills (view self.old (D.state drive.old)) more (view self.new (D.state drive.new)))
            replies.old replies.new }
        ensures tied { Tied self.new (D.state drive.new) }
        ensures kept { AreKept self.old (D.state drive.old) self.new (D.state drive.new) }
        ensures rest { KeepsRest self.old replies.old self.new replies.new }
        ensures unasked { self.old.down ≡ true → drive.new ≡ drive.old }
        ensures uncalled { self.old.down ≡ true → steps.new ≡ steps.old }
        ensures issues { self.new.down ≡ false → steps.new + length self.old.flying ≡ steps.old + length self.new.flying }
        ensures steps { steps.new ≤ steps.old + 1 }
    {
        if self.down || !self.started {
            return;
        }
        if let Err(LinkDown) = self.queue.launch_last(drive, steps) {
            self.lose(replies);
        }
    }

    /// Takes these tasks off, without an answer: where one of them is outstanding the drive is reset, and the others are issued
    /// again (SAM-5, overlapped commands, and 7; ACS-3, software reset).
    pub(crate) fn take_off<D: Drive<L>, L: Ledger>(
        &mut self,
        scope: &Scope,
        drive: &mut D,
        replies: &mut Replies,
        steps: &mut Steps<L>,
    )
        requires tied { Tied self.old (D.state drive.old) }
        requires room { length replies.old + length self.old.tasks ≤ most_replies }
        ensures removes { Answers (λ more. Around (MayLose (Removes (is_within scope.now)))
            (view self.old (D.state drive.old)) more (view self.new (D.state drive.new))) replies.old replies.new }
        ensures tied { Tied self.new (D.state drive.new) }
        ensures kept { AreKept self.old (D.state drive.old) self.new (D.state drive.new) }
        ensures rest { KeepsRest self.old replies.old self.new replies.new }
        ensures unasked { self.old.down ≡ true → drive.new ≡ drive.old }
        ensures uncalled { self.old.down ≡ true → steps.new ≡ steps.old }
        ensures resets { self.new.down ≡ false
            → ResetsFor (is_within scope.now) self.old steps.old self.new steps.new }
        ensures steps { steps.new ≤ steps.old + off_calls }
    {
        if has_outstanding(&self.queue, scope) {
            self.cut_off(scope, drive, replies, steps);
            return;
        }
        drop_tasks(&mut self.queue, &mut self.pool, &mut self.desk, scope);
        self.refill(drive, replies, steps);
    }

    /// The drive is reset, these tasks go, and the others are issued again. Where the link is lost in it, all others are
    /// answered.
    fn cut_off<D: Drive<L>, L: Ledger>(
        &mut self,
        scope: &Scope,
        drive: &mut D,
        replies: &mut Replies,
        steps: &mut Steps<L>,
    )
        requires tied { Tied self.old (D.state drive.old) }
        requires some { self.old.flying ≢ [] }
        requires room { length replies.old + length self.old.tasks ≤ most_replies }
        ensures removes { Answers (λ more. Around (MayLose (Removes (is_within scope.now)))
            (view self.old (D.state drive.old)) more (view self.new (D.state drive.new))) replies.old replies.new }
        ensures tied { Tied self.new (D.state drive.new) }
        ensures kept { AreKept self.old (D.state drive.old) self.new (D.state drive.new) }
        ensures rest { KeepsRest self.old replies.old self.new replies.new }
        ensures issues { self.new.down ≡ false → OnlyIssues [] (steps.old + 1) self.new steps.new }
        ensures steps { steps.new ≤ steps.old + off_calls }
    {
        let cut = self.queue.cut(drive, steps);
        drop_tasks(&mut self.queue, &mut self.pool, &mut self.desk, scope);
        match cut {
            Ok(()) => self.refill(drive, replies, steps),
            Err(LinkDown) => self.lose(replies),
        }
    }

    /// A task ends that is outstanding, or else the first one. At a lost link all tasks are answered.
    pub(crate) fn end_one<D: Drive<L>, L: Ledger>(
        &mut self,
        drive: &mut D,
        replies: &mut Replies,
        steps: &mut Steps<L>,
    )
        requires tied { Tied self.old (D.state drive.old) }
        requires some { 0 < length self.old.tasks }
        requires few { length self.old.tasks ≤ most_tasks }
        requires empty { replies.old ≡ [] }
        requires all_in { self.old.out ≡ 0 }
        ensures ends { EndsOrLoses (view self.old (D.state drive.old)) replies.new (view self.new (D.state drive.new)) }
        ensures agrees { Agrees self.new (D.state drive.new) }
        ensures still { MatchBool (works self.new) (Unit {0}) (self.new.flying ≡ []) }
        ensures kept { AreKept self.old (D.state drive.old) self.new (D.state drive.new) }
        ensures pages { self.new.out ≡ reply_pages replies.new }
        ensures writable { AllByRecursion IsWritable replies.new }
        ensures fewer { length self.new.tasks + 1 ≤ length self.old.tasks }
        ensures room { length replies.new + length self.new.tasks ≤ most_replies }
        ensures flushed { IsFlushed self.old.tasks replies.new
            → (Rose (D.state drive.old).faults (D.state drive.new).faults → ⊥)
            → AllByRecursion IsSettled (D.state drive.new).cells }
        ensures still_down { self.old.down ≡ true → self.new.down ≡ true }
        ensures unasked { self.old.down ≡ true → drive.new ≡ drive.old }
        ensures uncalled { self.old.down ≡ true → steps.new ≡ steps.old }
        ensures unready { is_first_unready self.old.started self.old.tasks ≡ true
            → (drive.new ≡ drive.old) × (self.new.started ≡ false) }
        ensures first_calls { self.old.flying ≡ [] → steps.new ≤ steps.old + calls_of_first self.old.started self.old.tasks }
        ensures polls { self.old.flying ≢ [] → self.new.down ≡ false
            → PollsOnce self.old.flying steps.old replies.new self.new.flying steps.new }
        ensures idle { self.old.flying ≡ [] → self.new.flying ≡ [] }
        ensures queued { self.old.flying ≢ [] → steps.new ≤ steps.old + poll_calls }
        ensures steps { steps.new ≤ steps.old + barrier_calls }
    {
        if self.queue.is_idle() {
            self.end_first(drive, replies, steps);
        } else {
            self.end_queued(drive, replies, steps);
        }
    }

    /// The first task ends, with nothing outstanding. At a lost link all tasks are answered.
    fn end_first<D: Drive<L>, L: Ledger>(
        &mut self,
        drive: &mut D,
        replies: &mut Replies,
        steps: &mut Steps<L>,
    )
        requires tied { Tied self.old (D.state drive.old) }
        requires idle { self.old.flying ≡ [] }
        requires some { 0 < length self.old.tasks }
        requires few { length self.old.tasks ≤ most_tasks }
        requires empty { replies.old ≡ [] }
        requires all_in { self.old.out ≡ 0 }
        ensures ends { EndsOrLoses (view self.old (D.state drive.old)) replies.new (view self.new (D.state drive.new)) }
        ensures agrees { Agrees self.new (D.state drive.new) }
        ensures idle { self.new.flying ≡ [] }
        ensures kept { AreKept self.old (D.state drive.old) self.new (D.state drive.new) }
        ensures pages { self.new.out ≡ reply_pages replies.new }
        ensures writable { AllByRecursion IsWritable replies.new }
        ensures fewer { length self.new.tasks + 1 ≤ length self.old.tasks }
        ensures room { length replies.new + length self.new.tasks ≤ most_replies }
        ensures flushed { IsFlushed self.old.tasks replies.new
            → (Rose (D.state drive.old).faults (D.state drive.new).faults → ⊥)
            → AllByRecursion IsSettled (D.state drive.new).cells }
        ensures still_down { self.old.down ≡ true → self.new.down ≡ true }
        ensures unasked { self.old.down ≡ true → drive.new ≡ drive.old }
        ensures uncalled { self.old.down ≡ true → steps.new ≡ steps.old }
        ensures unready { is_first_unready self.old.started self.old.tasks ≡ true
            → (drive.new ≡ drive.old) × (self.new.started ≡ false) }
        ensures first_calls { steps.new ≤ steps.old + calls_of_first self.old.started self.old.tasks }
        ensures steps { steps.new ≤ steps.old + barrier_calls }
    {
        self.queue.remove(0, &mut self.desk);
        let task = self.desk.entry_mut();
        let command = task.command;
        let nexus = task.nexus;
        let descriptor = self.modes.d_sense;
        let wanted = wanted_by(&self.modes, &task.change);
        let found = Circumstances {
            down: self.down,
            started: self.started,
            wanted,
        };
        match run_task(&found, &self.modes, task, &mut self.pool, drive, steps) {
            Ok(ending) => {
                let modes = modes_after(&command, &ending, &self.modes, &wanted);
                let posting = change_posting(&command, &self.modes, &modes, nexus);
                post(&mut self.attentions, &self.queue, &posting);
                self.modes = modes;
                self.started = started_after(&command, &ending, self.started);
                replies.push(end_task(&mut self.pool, task, &ending, descriptor));
            }
            Err(LinkDown) => {
                replies.push(end_task(&mut self.pool, task, &link_lost(), descriptor));
                self.lose(replies);
            }
        }
    }

    /// A task that is outstanding ends, whichever the drive says. At a lost link all tasks are answered.
    fn end_queued<D: Drive<L>, L: Ledger>(
        &mut self,
        drive: &mut D,
        replies: &mut Replies,
        steps: &mut Steps<L>,
    )
        requires tied { Tied self.old (D.state drive.old) }
        requires one { self.old.flying ≢ [] }
        requires few { length self.old.tasks ≤ most_tasks }
        requires empty { replies.old ≡ [] }
        requires all_in { self.old.out ≡ 0 }
        ensures ends { EndsOrLoses (view self.old (D.state drive.old)) replies.new (view self.new (D.state drive.new)) }
        ensures agrees { Agrees self.new (D.state drive.new) }
        ensures still { MatchBool (works self.new) (Unit {0}) (self.new.flying ≡ []) }
        ensures kept { AreKept self.old (D.state drive.old) self.new (D.state drive.new) }
        ensures pages { self.new.out ≡ reply_pages replies.new }
        ensures writable { AllByRecursion IsWritable replies.new }
        ensures fewer { length self.new.tasks + 1 ≤ length self.old.tasks }
        ensures room { length replies.new + length self.new.tasks ≤ most_replies }
        ensures unflushed { IsFlushed self.old.tasks replies.new → Rose (D.state drive.old).faults (D.state drive.new).faults }
        ensures polls { self.new.down ≡ false
            → PollsOnce self.old.flying steps.old replies.new self.new.flying steps.new }
        ensures steps { steps.new ≤ steps.old + poll_calls }
    {
        let descriptor = self.modes.d_sense;
        match self.queue.settle_one(&mut self.desk, drive, steps) {
            Ok(error) => {
                let task = self.desk.entry_mut();
                let ending = ending_by(!is_read(&task.command), &error);
                replies.push(end_task(&mut self.pool, task, &ending, descriptor));
            }
            Err(LinkDown) => self.lose(replies),
        }
    }
}
