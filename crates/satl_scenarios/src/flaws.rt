//! Transfers that meet a flaw of a sector or a CRC error.

ghost use Rattle.satl_scenarios.specs.Flaws.{described, flaw_among_writes, garbled_read, spared_read, torn_write};
ghost use Rattle.satl_scenarios.specs.Keeping.{IsOfUntouched};
ghost use Rattle.satl_scenarios.specs.Scenario.{CanHappen};
ghost use Rattle.satl_scenarios.specs.Transfers.{garbled_write};

/// A read fails at a flaw, and the writes before it and after it in the queue are done; the law of untouched
/// sectors speaks of the sector that is read (SPC-4 4.5.6; SBC-3).
pub fn a_read_with_a_flaw_among_writes()
    ensures run { CanHappen flaw_among_writes }
    ensures law { IsOfUntouched flaw_among_writes 1 }
{}

/// A write fails at a flaw, and has written what stands before it (SPC-4 4.5.6).
pub fn a_write_flaw_partly_written()
    ensures { CanHappen torn_write }
{}

/// A write fails by a CRC error, and has written some of its blocks (SPC-4 4.5.6).
pub fn a_glitch_partly_written()
    ensures { CanHappen garbled_write }
{}

/// A read fails by a CRC error, and the next one does not (SPC-4 4.5.6).
pub fn a_glitch()
    ensures { CanHappen garbled_read }
{}

/// A read is done while a glitch is left (profile).
pub fn a_glitch_that_is_not_met()
    ensures { CanHappen spared_read }
{}

/// A flaw is told in the descriptor form (SPC-4 4.5.2.2).
pub fn a_flaw_in_the_descriptor_form()
    ensures { CanHappen described }
{}
