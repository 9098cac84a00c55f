//! Power cycles, and what is on the medium after them.

ghost use Rattle.satl_scenarios.specs.Keeping.{IsOfDurable};
ghost use Rattle.satl_scenarios.specs.Power.{written_back, flushed_then_written, flushed_then_written_elsewhere, power_with_a_task, told_once, turned_off, turned_off_then_power};
ghost use Rattle.satl_scenarios.specs.Scenario.{CanHappen};
ghost use Rattle.satl_scenarios.specs.Devices.{aa, bb};

/// What was flushed outlives the power (SBC-3 4.15).
pub fn power_after_a_flush()
    ensures { CanHappen written_back }
{}

/// What is written after a flush may outlive the power (SBC-3 4.15).
pub fn power_after_a_flush_and_a_write_that_survives()
    ensures { CanHappen (flushed_then_written bb) }
{}

/// And it may be lost (SBC-3 4.15).
pub fn power_after_a_flush_and_a_write_that_is_lost()
    ensures { CanHappen (flushed_then_written aa) }
{}

/// Where another sector is written after the flush, what was flushed outlives the power all the same, also when it is lost
/// once more; the law of durable sectors speaks of it (SBC-3 4.15).
pub fn power_after_a_flush_and_a_write_elsewhere()
    ensures run { CanHappen flushed_then_written_elsewhere }
    ensures law { IsOfDurable flushed_then_written_elsewhere 0 }
{}

/// The cache is turned off: what was in it is on the medium (SBC-3 6.4.5).
pub fn the_cache_turned_off()
    ensures { CanHappen turned_off }
{}

/// After a power cycle it is on again (SPC-4, MODE SELECT commands).
pub fn the_cache_turned_off_then_power()
    ensures { CanHappen turned_off_then_power }
{}

/// A unit attention is told once (SAM-5 5.14).
pub fn a_unit_attention_told_once()
    ensures { CanHappen told_once }
{}

/// A power cycle takes a task without an answer (SAM-5 6.3).
pub fn power_with_a_task_pending()
    ensures { CanHappen power_with_a_task }
{}
