//! ATA commands that a host sends through the layer (SAT-3 12.2).

ghost use Rattle.satl_scenarios.specs.Passes.{cache_disabled, identified, identified_on_request, power_checked, read_behind_it, unreadable_through, written_through};
ghost use Rattle.satl_scenarios.specs.Scenario.{CanHappen};

/// A host reads what the drive says of itself (SAT-3 12.2).
pub fn a_drive_identified()
    ensures { CanHappen identified }
{}

/// A host is given the registers at the end of a command (SAT-3 12.2.2.6).
pub fn a_power_mode_checked()
    ensures { CanHappen power_checked }
{}

/// A host turns the cache off by SET FEATURES (SAT-3 12.2).
pub fn a_cache_disabled_by_set_features()
    ensures { CanHappen cache_disabled }
{}

/// A host writes by an ATA command (SAT-3 12.2).
pub fn a_block_written_by_an_ata_command()
    ensures { CanHappen written_through }
{}

/// A host reads a flawed sector by an ATA command (SAT-3 11).
pub fn a_flaw_met_by_an_ata_command()
    ensures { CanHappen unreadable_through }
{}

/// A host sends IDENTIFY DEVICE: it waits for its turn, and gives its data (SAT-3 12.2).
pub fn a_drive_identified_on_request()
    ensures { CanHappen identified_on_request }
{}

/// A READ behind an ATA command that writes waits for it, and gives its block (SAT-3 12.2; SBC-3, READ commands).
pub fn a_read_behind_an_ata_command()
    ensures { CanHappen read_behind_it }
{}
