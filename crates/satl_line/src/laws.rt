//! What holds of eligible tasks and of the ends of ranged tasks, whatever the tasks are.
ghost use Rattle.std.specs.Prelude.{◌≡◌, ◌≢◌, ◌<◌, ◌++◌, ◌⊎◌, ◌↔◌, ℕ, Bool, true, false, List, Some, slice_get, filter, remove, length};
ghost use Rattle.std.specs.List.{AllByRecursion};
ghost use Rattle.satl_base.specs.Cells.{AreSound, Pair};
ghost use Rattle.satl_base.specs.Moves.{Moves, Passes};
ghost use Rattle.satl_line.specs.declared.entry.Entry.{Entry};
ghost use Rattle.satl_line.specs.Conflict.{conflicts};
ghost use Rattle.satl_line.specs.Eligible.{IsEligible, eligible_at};
ghost use Rattle.satl_line.specs.Ranged.{RangedTask, written_pairs};
ghost use Rattle.satl_line.specs.Ending.{EndsAs, Outcome, Surface};

/// The test at a place passes exactly where no earlier task conflicts with the one there (profile).
pub fn the_test_is_of_pairs()
    ensures { (tasks : List Entry) (place : ℕ) (task : Entry) → slice_get tasks place ≡ Some task →
        ((eligible_at tasks place ≡ true)
        ↔ ((k : ℕ) (earlier : Entry) → k < place → slice_get tasks k ≡ Some earlier → conflicts earlier task ≡ false)) }
{}

/// A task is eligible where it stands at a place at which the test passes, and each eligible task does (profile).
pub fn eligible_tasks_pass_the_test()
    ensures passes { (tasks : List Entry) (place : ℕ) (task : Entry) → slice_get tasks place ≡ Some task →
        eligible_at tasks place ≡ true → IsEligible tasks task }
    ensures stands { (tasks : List Entry) (task : Entry) → IsEligible tasks task →
        (place : ℕ) × (slice_get tasks place ≡ Some task) × (eligible_at tasks place ≡ true) }
{}

/// A task stays eligible as others arrive (profile).
pub fn arrivals_keep_eligible_tasks()
    ensures { (tasks more : List Entry) (task : Entry) → IsEligible tasks task → IsEligible (tasks ++ more) task }
{}

/// A task stays eligible as another leaves, or as many others leave at once (profile).
pub fn departures_keep_eligible_tasks()
    ensures one { (tasks : List Entry) (place : ℕ) (left task : Entry) → slice_get tasks place ≡ Some left → left ≢ task →
        IsEligible tasks task → IsEligible (remove tasks place) task }
    ensures many { (keeps : Entry → Bool) (tasks : List Entry) (task : Entry) → keeps task ≡ true →
        IsEligible tasks task → IsEligible (filter keeps tasks) task }
{}

/// Conflict goes both ways, and two eligible tasks do not conflict (profile).
pub fn eligible_tasks_do_not_conflict()
    ensures both_ways { (a b : Entry) → conflicts a b ≡ conflicts b a }
    ensures apart { (tasks : List Entry) (a b : Entry) → IsEligible tasks a → IsEligible tasks b →
        (a ≡ b) ⊎ (conflicts a b ≡ false) }
{}

/// However a ranged task ends, the cells change by moves, where each pair that it writes may be put (profile).
pub fn endings_are_moves()
    ensures { (allows : Pair → Bool) (cache_on : Bool) (task : RangedTask) (outcome : Outcome)
        (old new : Surface) → AllByRecursion (Passes allows) (written_pairs cache_on task) →
        EndsAs cache_on task outcome old new → Moves (Passes allows) old.cells new.cells }
{}

/// However a ranged task ends, there are as many cells as before, and sound ones stay sound (profile).
pub fn endings_keep_the_cells()
    ensures count { (cache_on : Bool) (task : RangedTask) (outcome : Outcome) (old new : Surface) →
        EndsAs cache_on task outcome old new → length new.cells ≡ length old.cells }
    ensures sound { (cache_on : Bool) (task : RangedTask) (outcome : Outcome) (old new : Surface) →
        AreSound old.cells → EndsAs cache_on task outcome old new → AreSound new.cells }
{}
