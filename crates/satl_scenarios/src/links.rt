//! Losses of the link.

ghost use Rattle.satl_scenarios.specs.Links.{done_and_lost, glitch_lost, lost_at_an_abort, lost_at_the_end, lost_in_turn, lost_on_arrival, unplugged_again};
ghost use Rattle.satl_scenarios.specs.Scenario.{CanHappen};

/// All that waits is answered when the link is lost in a turn (profile).
pub fn a_lost_link_with_tasks_pending()
    ensures { CanHappen lost_in_turn }
{}

/// A loss of the link counts again where the link is lost already (profile).
pub fn unplugged_twice()
    ensures { CanHappen unplugged_again }
{}

/// A task ends, and then the link is lost in the same turn (profile).
pub fn a_lost_link_after_an_end()
    ensures { CanHappen done_and_lost }
{}

/// The link is lost as a command arrives (profile).
pub fn a_lost_link_on_arrival()
    ensures { CanHappen lost_on_arrival }
{}

/// The link is lost as a task is aborted (profile).
pub fn a_lost_link_at_an_abort()
    ensures { CanHappen lost_at_an_abort }
{}

/// A glitch goes with the link in a turn (profile).
pub fn a_glitch_lost_with_the_link()
    ensures { CanHappen glitch_lost }
{}

/// The link is lost in one of the turns at the end (profile).
pub fn a_lost_link_at_the_end()
    ensures { CanHappen lost_at_the_end }
{}
