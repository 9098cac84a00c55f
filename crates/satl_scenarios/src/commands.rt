//! VERIFY, WRITE SAME and UNMAP: done, and failed by a flaw or a CRC error.

ghost use Rattle.satl_scenarios.specs.Commands.{same_blocks, miscompared, same_written, unmapped, verify_failed};
ghost use Rattle.satl_scenarios.specs.Pieces.{compare_flawed, compare_garbled, same_garbled, same_garbled_before_the_flaw, same_torn, same_unmapped};
ghost use Rattle.satl_scenarios.specs.Scenario.{CanHappen};

/// Blocks are as the data-out (SBC-3, VERIFY commands).
pub fn blocks_compared()
    ensures { CanHappen same_blocks }
{}

/// Blocks are not as the data-out (SBC-3, VERIFY commands).
pub fn blocks_miscompared()
    ensures { CanHappen miscompared }
{}

/// A flaw is found (SBC-3, VERIFY commands).
pub fn a_verify_that_meets_a_flaw()
    ensures { CanHappen verify_failed }
{}

/// One block is written at each address of a range (SBC-3, WRITE SAME commands).
pub fn the_same_block_written()
    ensures { CanHappen same_written }
{}

/// Blocks are unmapped, and read as zeros (SBC-3 5.28).
pub fn blocks_unmapped()
    ensures { CanHappen unmapped }
{}

/// A WRITE SAME fails by a CRC error, and has written some of its blocks (SBC-3, WRITE SAME commands; SPC-4 4.5.6).
pub fn the_same_block_partly_written()
    ensures { CanHappen same_garbled }
{}

/// A WRITE SAME fails at a flaw in its second piece, and has written what stands before it (SBC-3, WRITE SAME commands; the
/// pieces: profile).
pub fn a_flaw_in_the_second_piece()
    ensures { CanHappen same_torn }
{}

/// Or it fails by a CRC error in its first piece (SBC-3, WRITE SAME commands; the pieces: profile).
pub fn a_glitch_before_that_flaw()
    ensures { CanHappen same_garbled_before_the_flaw }
{}

/// A WRITE SAME with UNMAP leaves zeros (SBC-3, WRITE SAME commands).
pub fn the_same_blocks_unmapped()
    ensures { CanHappen same_unmapped }
{}

/// A flaw decides before anything is compared (SBC-3, VERIFY commands).
pub fn a_comparison_that_meets_a_flaw()
    ensures { CanHappen compare_flawed }
{}

/// A comparison fails by a CRC error (SBC-3, VERIFY commands; SPC-4 4.5.6).
pub fn a_comparison_that_meets_a_glitch()
    ensures { CanHappen compare_garbled }
{}
