//! Task management functions.

ghost use Rattle.satl_scenarios.specs.Functions.{tasks_cleared, nexus_reset, queried, all_reset, set_aborted};
ghost use Rattle.satl_scenarios.specs.Scenario.{CanHappen};
ghost use Rattle.satl_scenarios.specs.Waiting.{aborted_half_done};

/// A write is aborted with half of it on the medium (SAM-5 7.2).
pub fn an_abort_with_the_write_half_done()
    ensures { CanHappen aborted_half_done }
{}

/// Tasks are asked for, and functions are refused (SAM-5 7.1, 7.9).
pub fn tasks_queried()
    ensures { CanHappen queried }
{}

/// A nexus is told that another cleared its tasks (SAM-5 7.5).
pub fn tasks_cleared_by_another_nexus()
    ensures { CanHappen tasks_cleared }
{}

/// All nexuses are told that the logical unit was reset (SAM-5 7.7).
pub fn a_unit_reset()
    ensures { CanHappen all_reset }
{}

/// All tasks of a nexus are aborted (SAM-5 7.3).
pub fn tasks_aborted_as_a_set()
    ensures { CanHappen set_aborted }
{}

/// A nexus is told that it was reset, and another's task stays (SAM-5 7.6).
pub fn a_nexus_reset()
    ensures { CanHappen nexus_reset }
{}
