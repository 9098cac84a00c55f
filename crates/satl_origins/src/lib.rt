//! The laws of origins: no run invents a block, or puts one into another sector than its own.
#![tactic(auto)]

ghost use Rattle.std.specs.Prelude.{[], slice_index_or};
ghost use Rattle.satl_base.specs.Lists.{IsIn};
ghost use Rattle.satl_scenarios.specs.Devices.{aa, bb};
ghost use Rattle.satl_origins.specs.Lost.{IsOfOrigins, its_blocks, lost_under_a_write};
ghost use Rattle.satl_origins.specs.Origins.{NothingInvented, NothingInventedIsRead, OnlyRequested, OnlyRequestedIsRead, OnlyWritten, OnlyWrittenIsRead};

/// Law of origins: in each run from a device that there can be, with flaws, CRC errors, lost links, task management functions,
/// overlapped commands and losses of power, each block that a sector has at the end, or may be left with by a loss of power, is
/// one that this sector had or might be left with at first, or one that a task of the run may write to this very sector. By the
/// input: it was there at first, or a command of the input may write it to this sector; where no command changes blocks but
/// WRITE, a WRITE of the input brings it there (SBC-3 4.15, 5; SAM-5 5).
pub fn no_block_is_invented()
    ensures each { NothingInvented }
    ensures by_input { OnlyRequested }
    ensures by_writes { OnlyWritten }
{}

/// Law of origins of what is read: the same holds of each block of the data-in of a READ that is answered with GOOD, for the
/// sector of its place, where no request comes with the nexus and tag of a task that waits then. The answer to a request comes
/// from its place on and before its nexus and tag are used again (SBC-3, READ commands; SAM-5 4.7).
pub fn no_block_that_is_read_is_invented()
    ensures each { NothingInventedIsRead }
    ensures by_input { OnlyRequestedIsRead }
    ensures by_writes { OnlyWrittenIsRead }
{}

/// The power is lost under a WRITE of two sectors, of which one is written. The laws of origins speak of this run: for each
/// sector the zeros of before and its own block of the WRITE have their origin, and no other block, neither the other block of
/// the WRITE nor that of one that was told of the power and wrote nothing; so a READ gives the written block and zeros (SBC-3
/// 4.15; SAM-5 5.14, 6.3).
pub fn the_power_is_lost_under_a_write()
    ensures run { IsOfOrigins lost_under_a_write its_blocks }
    ensures apart { (IsIn bb (slice_index_or its_blocks 0 []) → ⊥) × (IsIn aa (slice_index_or its_blocks 1 []) → ⊥) }
{}
