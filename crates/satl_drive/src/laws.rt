//! What the rules of a drive come to.
ghost use Rattle.std.specs.Prelude.{◌≡◌, ◌≢◌, ◌+◌, ◌-◌, ◌^◌, ◌<◌, ◌≤◌, ℕ, Bool, true, false, List, [], ◌∷◌, ◌++◌, Some, None, map, length};
ghost use Rattle.std.specs.List.{AllByRecursion, list_any};
ghost use Rattle.satl_base.specs.declared.bench.Which.{Which};
ghost use Rattle.satl_base.specs.declared.block.Block.{Block};
ghost use Rattle.satl_base.specs.Cells.{pairs_from};
ghost use Rattle.satl_base.specs.Identify.{has_cache, has_queued_trim};
ghost use Rattle.satl_base.specs.Lists.{how_many};
ghost use Rattle.satl_regs.specs.declared.values.AtaCommand.TheVariants.{ReadLog};
ghost use Rattle.satl_regs.specs.declared.values.Queued.{Queued};
ghost use Rattle.satl_regs.specs.declared.values.QueuedKind.TheVariants as kinds;
ghost use Rattle.satl_regs.specs.declared.values.Registers.{Registers};
ghost use Rattle.satl_regs.specs.Commands.{command_in};
ghost use Rattle.satl_errlog.specs.declared.entry.NcqError.{NcqError};
ghost use Rattle.satl_drive.specs.declared.drive.Report.TheVariants as reports;
ghost use Rattle.satl_drive.specs.Bench.{IsOrdered, IsPowerCycled, IsStruck, IsUnplugged};
ghost use Rattle.satl_drive.specs.Queue.{CanIssue, CanPoll, IsIssueCutOff, IsIssued, IsPollCutOff, IsPolled, IsReset, IsResetCutOff, Slots, is_tagged, queued_pairs};
ghost use Rattle.satl_drive.specs.Rules.{CanRun, IsRunCutOff};
ghost use Rattle.satl_drive.specs.State.{DriveState, IsFit, Outstanding};

/// Law of tags: no command is issued whose tag is outstanding (ACS-3, native command queuing).
pub fn no_tag_is_outstanding_twice()
    ensures { (d : DriveState) (r : Registers) (slots : Slots) (command : Queued) (pages : List Block) →
        list_any (is_tagged command.tag) d.outstanding ≡ true → CanIssue d r slots command pages → ⊥ }
{}

/// Law of queued trims: none is issued to a drive whose IDENTIFY DEVICE data say that it has none (ACS-3, SEND FPDMA QUEUED).
pub fn no_trim_is_queued_where_the_drive_has_none()
    ensures { (d : DriveState) (r : Registers) (slots : Slots) (command : Queued) (pages : List Block) →
        command.kind ≡ kinds.Trim → has_queued_trim d.identify ≡ false → CanIssue d r slots command pages → ⊥ }
{}

/// Law of the capacity: a read and a write are issued only where they end within it (ACS-3, IDNF).
pub fn nothing_is_issued_outside_the_capacity()
    ensures reads { (d : DriveState) (r : Registers) (slots : Slots) (command : Queued) (pages : List Block) →
        command.kind ≡ kinds.Read → d.capacity < command.lba + command.sectors → CanIssue d r slots command pages → ⊥ }
    ensures writes { (d : DriveState) (r : Registers) (slots : Slots) (command : Queued) (pages : List Block) →
        command.kind ≡ kinds.Write → d.capacity < command.lba + command.sectors → CanIssue d r slots command pages → ⊥ }
{}

/// Law of the error state: nothing is issued or polled in it, and of all other commands the error log alone may be read: log
/// 10h, page 0, one block (ACS-3, READ LOG EXT).
pub fn after_an_error_the_log_alone_is_read()
    ensures issue { (d : DriveState) (e : NcqError) (r : Registers) (slots : Slots) (command : Queued) (pages : List Block) →
        d.error ≡ Some e → CanIssue d r slots command pages → ⊥ }
    ensures poll { (d : DriveState) (e : NcqError) (slots : Slots) → d.error ≡ Some e → CanPoll d slots → ⊥ }
    ensures run { (d : DriveState) (e : NcqError) (r : Registers) (pages : List Block) →
        d.error ≡ Some e → CanRun d r pages → command_in r ≡ ReadLog 0x10 0 1 }
{}

/// Law of issue: a write is outstanding from then on, behind all others, with the blocks of its slot (ACS-3, WRITE FPDMA
/// QUEUED).
pub fn what_is_issued_is_outstanding_last()
    ensures { (old new : DriveState) (command : Queued) (pages : List Block) → command.kind ≡ kinds.Write →
        IsIssued old command pages new →
        new.outstanding ≡ old.outstanding ++ record { command = command; blocks = pages } ∷ [] }
{}

/// Law of FUA: a write with FUA goes past the cache, also where that is on (ACS-3, WRITE FPDMA QUEUED).
pub fn a_write_with_fua_goes_past_the_cache()
    ensures { (cache : Bool) (q : Outstanding) → q.command.kind ≡ kinds.Write → q.command.fua ≡ true →
        queued_pairs cache q ≡ pairs_from q.command.lba q.blocks false }
{}

/// Law of idle drives: `poll` says Idle only where nothing is outstanding (ACS-3, native command queuing).
pub fn a_drive_is_idle_only_where_nothing_is_outstanding()
    ensures { (old new : DriveState) (slots taken : Slots) → IsPolled old slots reports.Idle taken new → old.outstanding ≡ [] }
{}

/// Law of ends: a command that is done was outstanding, and it alone has left (ACS-3, native command queuing).
pub fn one_command_ends_at_a_time()
    ensures was_outstanding { (tag : ℕ) (old new : DriveState) (slots taken : Slots) →
        IsPolled old slots (reports.Done tag) taken new → list_any (is_tagged tag) old.outstanding ≡ true }
    ensures others_stay { (tag other : ℕ) (old new : DriveState) (slots taken : Slots) →
        IsPolled old slots (reports.Done tag) taken new → other ≢ tag →
        how_many (is_tagged other) new.outstanding ≡ how_many (is_tagged other) old.outstanding }
    ensures one_less { (tag : ℕ) (old new : DriveState) (slots taken : Slots) →
        IsPolled old slots (reports.Done tag) taken new → length new.outstanding + 1 ≡ length old.outstanding }
{}

/// Law of resets: a soft reset and a failure leave nothing outstanding; a reset ends the error state, and a failure begins it
/// (ACS-3, software reset; native command queuing, error state).
pub fn nothing_outlives_a_reset_or_a_failure()
    ensures reset { (old new : DriveState) → IsReset old new → (new.outstanding ≡ []) × (new.error ≡ None) }
    ensures failure { (old new : DriveState) (slots taken : Slots) → IsPolled old slots reports.Error taken new →
        (new.outstanding ≡ []) × (new.error ≢ None) }
{}

/// Law of lost links: a call that loses the link raises the count of faults, which stands still at its last value (profile).
pub fn a_lost_link_is_counted()
    ensures run { (old new : DriveState) (r : Registers) (given : List Block) → old.faults < 2 ^ 64 - 1 →
        IsRunCutOff old r given new → old.faults < new.faults }
    ensures issue { (old new : DriveState) (command : Queued) (pages : List Block) → old.faults < 2 ^ 64 - 1 →
        IsIssueCutOff old command pages new → old.faults < new.faults }
    ensures poll { (old new : DriveState) (slots taken : Slots) → old.faults < 2 ^ 64 - 1 →
        IsPollCutOff old slots taken new → old.faults < new.faults }
    ensures reset { (old new : DriveState) → old.faults < 2 ^ 64 - 1 → IsResetCutOff old new → old.faults < new.faults }
{}

/// Law of unplugs: the link is lost, and they are counted one by one (profile).
pub fn an_unplug_counts_one()
    ensures { (old new : DriveState) → old.unplugs < 2 ^ 64 - 1 → IsUnplugged old new →
        (new.unplugs ≡ old.unplugs + 1) × (new.down ≡ true) × (new.outstanding ≡ []) }
{}

/// Law of orders: they change the number that stands for them alone, and where each bytes have a number of their own it tells
/// which were handed in (profile).
pub fn an_order_changes_its_account_alone()
    ensures alone { (bytes : List ℕ) (old new : DriveState) → IsOrdered bytes old new →
        new ≡ record old { orders = record old.orders { number = new.orders.number } } }
    ensures told { (bytes others : List ℕ) (old new : DriveState) → IsOrdered bytes old new → IsOrdered others old new →
        ((a b : List ℕ) → old.orders.next a old.orders.number ≡ old.orders.next b old.orders.number → a ≡ b) →
        bytes ≡ others }
{}

/// Law of strikes: outside the capacity a strike changes nothing (profile).
pub fn a_strike_outside_the_capacity_changes_nothing()
    ensures { (which : Which) (lba : ℕ) (old new : DriveState) → IsFit old → old.capacity ≤ lba →
        IsStruck which lba old new → new ≡ old }
{}

/// Law of power: what was written back is read after a loss of power, and the write cache is off where the drive has none
/// (SBC-3 4.15; ACS-3, power-on).
pub fn power_keeps_what_was_written_back()
    ensures blocks { (old new : DriveState) → AllByRecursion (λ c. c.may ≡ c.now ∷ []) old.cells → IsPowerCycled old new →
        map (λ c. c.now) new.cells ≡ map (λ c. c.now) old.cells }
    ensures cache { (old new : DriveState) → has_cache old.identify ≡ false → IsPowerCycled old new → new.cache ≡ false }
{}
