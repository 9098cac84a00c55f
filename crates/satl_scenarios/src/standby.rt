//! A unit is stopped and started, and commands come while it is stopped or in standby.

ghost use Rattle.satl_scenarios.specs.Commands.{started_unit, stopped_unit, stopped_unflushed};
ghost use Rattle.satl_scenarios.specs.Refused.{not_started};
ghost use Rattle.satl_scenarios.specs.Scenario.{CanHappen};
ghost use Rattle.satl_scenarios.specs.Standby.{read_through, selected_at_rest, standby_told};

/// A unit is stopped, with all written back (SBC-3, START STOP UNIT).
pub fn a_unit_stopped()
    ensures { CanHappen stopped_unit }
{}

/// A unit is stopped, and nothing is written back (SBC-3, START STOP UNIT).
pub fn a_unit_stopped_without_a_flush()
    ensures { CanHappen stopped_unflushed }
{}

/// A stopped unit is started (SBC-3, START STOP UNIT).
pub fn a_unit_started()
    ensures { CanHappen started_unit }
{}

/// A stopped unit reads nothing (SPC-4 4.5.6).
pub fn a_read_of_a_stopped_unit()
    ensures { CanHappen not_started }
{}

/// A host reads by an ATA command, and the unit stays stopped (SAT-3 12.2).
pub fn a_read_by_an_ata_command_while_stopped()
    ensures { CanHappen read_through }
{}

/// A host asks for the power mode, and the drive stays in standby (SAT-3 12.2.2.6).
pub fn standby_told_by_an_ata_command()
    ensures { CanHappen standby_told }
{}

/// Mode values change, and the drive stays in standby (SPC-4, MODE SELECT commands).
pub fn the_cache_turned_off_while_stopped()
    ensures { CanHappen selected_at_rest }
{}
