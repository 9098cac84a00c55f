// Tasks that go without an answer.
ghost use Rattle.std.specs.Prelude.{◌≡◌, ◌≢◌, ◌≤◌, ◌+◌, [], true, false};
ghost use Rattle.std.specs.List.{list_any};
ghost use Rattle.satl_line.specs.Tasks.{entries_of};
ghost use Rattle.satl_core.specs.Layer.{held_pages};
ghost use Rattle.satl_core.specs.Leaving.{AreWaiting, is_within, left_by};

use satl_base::{Nexus, Tag};
use satl_flight::Queue;
use satl_line::{Entry, TaskBox};
use satl_pages::Pool;

/// Some of the tasks (SAM-5 7).
#[derive(Clone, Copy, Debug, PartialEq, Eq)]
pub enum Scope {
    /// The task of this nexus with this tag.
    OneTask(Nexus, Tag),
    /// The tasks of this nexus.
    OfNexus(Nexus),
    /// All tasks.
    All,
    /// No task.
    Nothing,
}

/// Whether a task is one of these.
fn is_within(scope: &Scope, task: &Entry) -> bool
    ensures { result ≡ is_within scope.now task.now }
{
    match scope {
        Scope::OneTask(nexus, tag) => task.nexus == *nexus && task.tag == *tag,
        Scope::OfNexus(nexus) => task.nexus == *nexus,
        Scope::All => true,
        Scope::Nothing => false,
    }
}

/// Whether one of these tasks is there.
pub fn has_any(queue: &Queue, scope: &Scope) -> bool
    ensures { result ≡ list_any (is_within scope.now) (entries_of queue.now.tasks) }
{
    for place in 0..queue.len() {
        if is_within(scope, queue.entry(place)) {
            return true;
        }
    }
    false
}

/// Whether one of these tasks is outstanding.
pub fn has_outstanding(queue: &Queue, scope: &Scope) -> bool
    ensures none { result ≡ false → AreWaiting (is_within scope.now) queue.now.flying queue.now.tasks }
    ensures some { result ≡ true → AreWaiting (is_within scope.now) queue.now.flying queue.now.tasks → ⊥ }
    ensures flying { result ≡ true → queue.now.flying ≢ [] }
{
    for place in 0..queue.len() {
        if is_within(scope, queue.entry(place)) && queue.is_outstanding(place) {
            return true;
        }
    }
    false
}

/// Takes these tasks out, of which none is outstanding, and gives their pages back. They have no answer (SAM-5, overlapped
/// commands, and 7). The desk is where each lies meanwhile.
pub fn drop_tasks(queue: &mut Queue, pool: &mut Pool, desk: &mut TaskBox, scope: &Scope)
    requires waiting { AreWaiting (is_within scope.now) queue.old.flying queue.old.tasks }
    requires held { held_pages queue.old.tasks ≤ pool.old.out }
    ensures others { queue.new.tasks ≡ left_by (is_within scope.now) queue.old.tasks }
    ensures flying { queue.new.flying ≡ queue.old.flying }
    ensures slots { queue.new.slots ≡ queue.old.slots }
    ensures free { pool.new.free + held_pages queue.new.tasks ≡ pool.old.free + held_pages queue.old.tasks }
    ensures out { pool.new.out + held_pages queue.old.tasks ≡ pool.old.out + held_pages queue.new.tasks }
{
    let mut place = 0;
    while place < queue.len() {
        if !is_within(scope, queue.entry(place)) {
            place += 1;
            continue;
        }
        queue.remove(place, desk);
        pool.give(desk.take_body());
    }
}
