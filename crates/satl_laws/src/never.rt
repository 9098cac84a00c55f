//! Outcomes that no run of the device has.
ghost use Rattle.std.specs.Prelude.{◌≡◌, ◌≢◌, ◌≤◌, ℕ, List, [], ◌∷◌, Some};
ghost use Rattle.satl_base.specs.declared.bench.BenchEvent.TheVariants as events;
ghost use Rattle.satl_base.specs.declared.block.Block.{Block};
ghost use Rattle.satl_base.specs.declared.request.Request.{Request};
ghost use Rattle.satl_base.specs.declared.reply.Reply.{Reply};
ghost use Rattle.satl_base.specs.Cells.{Cell, cached_over};
ghost use Rattle.satl_base.specs.Lists.{how_many};
ghost use Rattle.satl_frame.specs.declared.frames.Frame.{Frame};
ghost use Rattle.satl_frame.specs.declared.frames.Frame.TheVariants as frames;
ghost use Rattle.satl_frame.specs.Output.{Answer};
ghost use Rattle.satl_direct.specs.Device.{Device};
ghost use Rattle.satl_laws.specs.ArrivalOrder.{IsGoodReply};
ghost use Rattle.satl_laws.specs.OnceEach.{answers_to};
ghost use Rattle.satl_laws.specs.Untouched.{now_at};
ghost use Rattle.satl_direct.specs.Run.{Run};
ghost use Rattle.satl_laws.specs.Scenes.{AreTurns, DifferInNexusOrTag, at_work, flushes_all_sectors, reads_sector_0, writes_both_sectors, writes_sector_0};

/// Where a WRITE of a sector waits, and then a READ of it, one turn never ends the READ with GOOD (SAM-5 8; profile).
pub fn no_read_passes_an_earlier_write()
    ensures { (write read : Request) (a b : Cell) (s last : Device) (losses : ℕ) (answers : List Answer) (reply : Reply)
        → DifferInNexusOrTag write read →
        Run (at_work a b (writes_sector_0 write ∷ reads_sector_0 read ∷ []) s) (frames.Turn 1 ∷ []) losses answers last →
        IsGoodReply read reply answers → ⊥ }
{}

/// Where a WRITE of a sector waits, and then another that overlaps it, one turn never ends the second with GOOD (SAM-5 8;
/// profile).
pub fn no_write_passes_an_earlier_write()
    ensures { (first second : Request) (a b : Cell) (s last : Device) (losses : ℕ) (answers : List Answer) (reply : Reply)
        → DifferInNexusOrTag first second →
        Run (at_work a b (writes_sector_0 first ∷ writes_both_sectors second ∷ []) s) (frames.Turn 1 ∷ []) losses answers last →
        IsGoodReply second reply answers → ⊥ }
{}

/// Where two READs wait, turns never answer one of them twice (SAM-5 5).
pub fn no_neighbour_is_answered_twice()
    ensures first { (first second : Request) (a b : Cell) (s last : Device) (turns : Frame) (losses : ℕ) (answers : List Answer)
        → DifferInNexusOrTag first second →
        AreTurns turns →
        Run (at_work a b (reads_sector_0 first ∷ reads_sector_0 second ∷ []) s) (turns ∷ []) losses answers last →
        how_many (answers_to first.nexus (first.tag).0) answers ≤ 1 }
    ensures second { (first second : Request) (a b : Cell) (s last : Device) (turns : Frame) (losses : ℕ)
        (answers : List Answer) → DifferInNexusOrTag first second →
        AreTurns turns →
        Run (at_work a b (reads_sector_0 first ∷ reads_sector_0 second ∷ []) s) (turns ∷ []) losses answers last →
        how_many (answers_to second.nexus (second.tag).0) answers ≤ 1 }
{}

/// Once SYNCHRONIZE CACHE has ended with GOOD, a loss of power never leaves the old block of a sector (SBC-3 4.15).
pub fn no_flush_leaves_the_old_block()
    ensures { (flush : Request) (old new : Block) (b : Cell) (s last : Device) (losses : ℕ) (answers : List Answer)
        (reply : Reply) → old ≢ new →
        Run (at_work (cached_over old new) b (flushes_all_sectors flush ∷ []) s)
        (frames.Turn 1 ∷ frames.Bench events.Power ∷ []) losses answers last →
        IsGoodReply flush reply answers → now_at last.cells 0 ≡ Some old → ⊥ }
{}

/// Where a WRITE of one sector waits, turns never change what is read of another sector (SBC-3).
pub fn no_other_sector_changes()
    ensures { (write : Request) (a b : Cell) (s last : Device) (turns : Frame) (losses : ℕ) (answers : List Answer)
        → AreTurns turns →
        Run (at_work a b (writes_sector_0 write ∷ []) s) (turns ∷ []) losses answers last →
        now_at last.cells 1 ≢ Some b.now → ⊥ }
{}
