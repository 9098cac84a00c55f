//! Reads and writes that end in their turns, and some that wait.

ghost use Rattle.satl_scenarios.specs.Scenario.{CanBeCut, CanHappen};
ghost use Rattle.satl_scenarios.specs.Transfers.{ordered_read, reads_in_order, reads_in_reverse, waking_read, written_past_the_cache, written_then_read};
ghost use Rattle.satl_scenarios.specs.Waiting.{one_turn_left, one_too_many, overlapped_reads};

/// A block that was written is read (SBC-3, READ and WRITE commands).
pub fn write_then_read()
    ensures { CanHappen written_then_read }
{}

/// Reads end in the order of arrival (SAM-5 8, command order).
pub fn two_reads_in_order()
    ensures { CanHappen reads_in_order }
{}

/// And they end the other way round (SAM-5 8, command order).
pub fn two_reads_in_reverse()
    ensures { CanHappen reads_in_reverse }
{}

/// An ORDERED read waits for the one before it (SAM-5 8.6).
pub fn an_ordered_read()
    ensures { CanHappen ordered_read }
{}

/// A read wakes a drive in standby (ACS-3, power modes).
pub fn a_read_in_standby()
    ensures { CanHappen waking_read }
{}

/// A write past the cache leaves nothing else to a loss of power (SBC-3, WRITE commands, FUA).
pub fn a_write_past_the_cache()
    ensures { CanHappen written_past_the_cache }
{}

/// A command that has the tag of one that waits ends both (SAM-5, overlapped commands).
pub fn an_overlapped_command()
    ensures { CanHappen overlapped_reads }
{}

/// A full task set takes no more, and 32 of its commands are the drive's (SAM-5 5.3.1).
pub fn a_full_task_set()
    ensures { CanHappen one_too_many }
{}

/// A run is cut short between its turns (profile).
pub fn a_run_cut_short()
    ensures { CanBeCut one_turn_left }
{}
