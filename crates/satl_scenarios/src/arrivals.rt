//! Commands as they arrive.

ghost use Rattle.satl_scenarios.specs.Arrivals.{lengths_expected, nothing_moved, no_block_at_rest, one_block_too_many, other_unit, sense_requested};
ghost use Rattle.satl_scenarios.specs.Refused.{refused_at_once};
ghost use Rattle.satl_scenarios.specs.Scenario.{CanHappen};

/// Commands are refused when they arrive (SPC-4 4.5.6).
pub fn commands_refused_on_arrival()
    ensures { CanHappen refused_at_once }
{}

/// REQUEST SENSE tells conditions one by one (SPC-4 6.39).
pub fn conditions_told_by_request_sense()
    ensures { CanHappen sense_requested }
{}

/// There is no other logical unit (SAM-5, incorrect logical unit numbers; SPC-4 6.39).
pub fn another_logical_unit()
    ensures { CanHappen other_unit }
{}

/// A command over no block is done at once (SBC-3, READ and WRITE commands).
pub fn commands_over_no_block()
    ensures { CanHappen nothing_moved }
{}

/// And it is told that the unit is stopped (SPC-4 4.5.6; profile).
pub fn a_command_over_no_block_while_stopped()
    ensures { CanHappen no_block_at_rest }
{}

/// A task set whose tasks hold all the blocks that they may takes no more (SAM-5 5.3.1; the figure: profile).
pub fn a_task_set_full_of_blocks()
    ensures { CanHappen one_block_too_many }
{}

/// An answer carries what its host expects (SAM-5 5.1).
pub fn lengths_that_hosts_expect()
    ensures { CanHappen lengths_expected }
{}
