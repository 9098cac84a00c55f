//! What the steps of the device come to: arrivals, turns, ends, task management functions and events of a test bench.
ghost use Rattle.std.specs.Prelude.{◌≡◌, ◌+◌, ◌<◌, ◌≤◌, ℕ, Bool, true, false, List, [], ◌∷◌, ◌++◌, Option, Some, None, map, length, min, not, filter};
ghost use Rattle.std.specs.List.{list_any};
ghost use Rattle.satl_base.specs.declared.bench.BenchEvent.TheVariants as events;
ghost use Rattle.satl_base.specs.declared.bench.Which.TheVariants as flaws;
ghost use Rattle.satl_base.specs.declared.reply.Reply.{Reply};
ghost use Rattle.satl_base.specs.declared.reply.Response.{Response};
ghost use Rattle.satl_base.specs.declared.reply.Scsi.TheVariants.{Good, TaskSetFull};
ghost use Rattle.satl_base.specs.declared.request.Manage.{Manage};
ghost use Rattle.satl_base.specs.declared.request.Request.{Request};
ghost use Rattle.satl_base.specs.Cells.{first_flaw, nows, settle};
ghost use Rattle.satl_base.specs.Lists.{is_in};
ghost use Rattle.satl_cdb.specs.declared.command.Command.{Command};
ghost use Rattle.satl_cdb.specs.declared.command.Command.TheVariants as commands;
ghost use Rattle.satl_cdb.specs.declared.command.Form.{Form};
ghost use Rattle.satl_cdb.specs.Rows.{format_of};
ghost use Rattle.satl_cdb.specs.Table.{table};
ghost use Rattle.satl_line.specs.declared.entry.Entry.{Entry};
ghost use Rattle.satl_unit.specs.declared.attention.Attention.{Attention};
ghost use Rattle.satl_unit.specs.declared.attention.Attention.TheVariants.{PowerOn};
ghost use Rattle.satl_unit.specs.declared.function.Function.TheVariants as functions;
ghost use Rattle.satl_unit.specs.Functions.{function_of};
ghost use Rattle.satl_direct.specs.Arrival.{Arrives, attention_for, becomes, check, code_arrival, is_unit_0, operation_code, placed, ready_reply, reply_to};
ghost use Rattle.satl_direct.specs.Arrival.Arrival.{answered, waits};
ghost use Rattle.satl_direct.specs.Bench.{Happens};
ghost use Rattle.satl_direct.specs.Device.{Device, attentions_of, is_called, of_others};
ghost use Rattle.satl_direct.specs.Ending.{Ends, EndsBy, task_check};
ghost use Rattle.satl_direct.specs.Management.{IsManaged};
ghost use Rattle.satl_direct.specs.Senses.{attention_sense, not_ready, overlapped, plain, read_error};
ghost use Rattle.satl_direct.specs.Tasks.{held_blocks, held_by};
ghost use Rattle.satl_direct.specs.Turn.{Turn};

/// Law of empty turns: without a task a turn answers nothing and changes nothing, not even the link (SAM-5 8; profile).
pub fn a_turn_without_a_task_does_nothing()
    ensures { (s new : Device) (answers : List Reply) → s.tasks ≡ [] → Turn s answers new → (answers ≡ []) × (new ≡ s) }
{}

/// Law of operation codes: one that is not in the table is refused with INVALID COMMAND OPERATION CODE (SPC-4 4.3, 4.5.6).
pub fn an_unknown_operation_code_is_refused()
    ensures { (s : Device) (r : Request) → format_of (table s.identity.trim) (operation_code r) ≡ None →
        code_arrival s r ≡ answered (check s r (plain 0x5 0x20 0x00)) }
{}

/// Law of full task sets: at 64 tasks, or where more than 32,768 blocks would be held, a command is answered with TASK SET FULL
/// and makes no task, so there are never more than 64 (SAM-5 5.3.1; the figures: profile).
pub fn a_full_task_set_takes_nothing()
    ensures tasks { (s : Device) (r : Request) (command : Command) → length s.tasks ≡ 64 →
        placed s r command ≡ answered (reply_to r TaskSetFull []) }
    ensures blocks { (s : Device) (r : Request) (command : Command) → 32768 < held_by s.tasks + held_blocks command →
        placed s r command ≡ answered (reply_to r TaskSetFull []) }
    ensures never_more { (s : Device) (r : Request) (command : Command) (t : Entry) → length s.tasks ≤ 64 →
        placed s r command ≡ waits t → length (s.tasks ++ t ∷ []) ≤ 64 }
{}

/// Law of overlap: a request with the nexus and tag of a task is refused, and all tasks of its nexus go (SAM-5, overlapped
/// commands).
pub fn an_overlap_takes_all_tasks_of_its_nexus()
    ensures { (s new : Device) (r : Request) (answers : List Reply) → is_unit_0 r.lun ≡ true →
        list_any (is_called r.nexus (r.tag).0) s.tasks ≡ true → Arrives r s answers new →
        (answers ≡ check s r overlapped ∷ []) × (new.tasks ≡ of_others r.nexus s.tasks) }
{}

/// Law of unit attentions: INQUIRY, REPORT LUNS and REQUEST SENSE are carried out before a condition is told; every other
/// command is answered with the first one (SAM-5 5.14).
pub fn three_commands_come_before_a_unit_attention()
    ensures inquiry { (s : Device) (r : Request) → operation_code r ≡ 0x12 → attention_for s r ≡ None }
    ensures report_luns { (s : Device) (r : Request) → operation_code r ≡ 0xA0 → attention_for s r ≡ None }
    ensures request_sense { (s : Device) (r : Request) → operation_code r ≡ 0x03 → attention_for s r ≡ None }
    ensures others { (s : Device) (r : Request) (what : Attention) (rest : List Attention) →
        is_in (operation_code r) (0x12 ∷ 0xA0 ∷ 0x03 ∷ []) ≡ false → attentions_of r.nexus s ≡ what ∷ rest →
        attention_for s r ≡ Some what }
{}

/// Law of empty transfers: a READ and a WRITE of no block make no task, and are answered as TEST UNIT READY is (SBC-3 5;
/// profile).
pub fn a_transfer_of_no_block_makes_no_task()
    ensures read { (s : Device) (r : Request) (form : Form) (lba : ℕ) (fua : Bool) →
        becomes s r (commands.Read form lba 0 fua) ≡ answered (ready_reply s r) }
    ensures write { (s : Device) (r : Request) (form : Form) (lba : ℕ) (fua : Bool) →
        becomes s r (commands.Write form lba 0 fua) ≡ answered (ready_reply s r) }
{}

/// Law of lost links: at an unplug each task is answered with LOGICAL UNIT COMMUNICATION FAILURE, in order of arrival, and none
/// is left (SPC-4 4.5.6; profile).
pub fn a_lost_link_answers_each_task()
    ensures { (s new : Device) (answers : List Reply) → Happens events.Unplug s answers new →
        (answers ≡ map (λ t. task_check s t (plain 0x4 0x08 0x00)) s.tasks) × (new.tasks ≡ []) × (new.down ≡ true) }
{}

/// Law of READs: one that meets a flaw names the lowest flawed address of its range, and one that is good gives the blocks of
/// its range (SBC-3 5; SPC-4 4.5.6).
pub fn a_read_names_the_lowest_flaw_or_gives_its_blocks()
    ensures flawed { (s new : Device) (t : Entry) (reply : Reply) (form : Form) (lba count at : ℕ) (fua : Bool) →
        EndsBy (commands.Read form lba count fua) s t reply new → first_flaw flaws.Read s.cells lba count ≡ Some at →
        reply ≡ task_check s t (read_error at) }
    ensures good { (s new : Device) (t : Entry) (reply : Reply) (form : Form) (lba count : ℕ) (fua : Bool) →
        EndsBy (commands.Read form lba count fua) s t reply new → reply.status ≡ Good → reply.body ≡ nows s.cells lba count }
{}

/// Law of WRITE SAME: with a flaw in its first 64 blocks it takes no glitch, for it meets no CRC error (SBC-3, WRITE SAME
/// commands; profile).
pub fn a_flaw_in_the_first_piece_comes_before_a_glitch()
    ensures { (s new : Device) (t : Entry) (reply : Reply) (form : Form) (lba count at : ℕ) →
        EndsBy (commands.WriteSame form lba count false) s t reply new →
        first_flaw flaws.Write s.cells lba (min 64 count) ≡ Some at → new.glitches ≡ s.glitches }
{}

/// Law of stopped units: a READ is answered with LOGICAL UNIT NOT READY, and no sector changes (SPC-4 4.5.6; SAT-3 11).
pub fn a_stopped_unit_reads_nothing()
    ensures { (s new : Device) (t : Entry) (reply : Reply) (form : Form) (lba count : ℕ) (fua : Bool) →
        t.command ≡ commands.Read form lba count fua → s.down ≡ false → s.started ≡ false → Ends s t reply new →
        (reply ≡ task_check s t not_ready) × (new.cells ≡ s.cells) }
{}

/// Law of stopping: START STOP UNIT that stops without NO_FLUSH leaves every sector written back (SBC-3, START STOP UNIT).
pub fn stopping_writes_all_back()
    ensures { (s new : Device) (t : Entry) (reply : Reply) → EndsBy (commands.StartStop false false) s t reply new →
        (new.cells ≡ map settle s.cells) × (new.started ≡ false) }
{}

/// Law of management: QUERY TASK and QUERY TASK SET change nothing; ABORT TASK takes the tasks of its nexus and tag alone, and
/// ABORT TASK SET and I_T NEXUS RESET those of its nexus (SAM-5 7).
pub fn functions_take_no_other_tasks()
    ensures query { (s new : Device) (m : Manage) (response : Response) → function_of m.function ≡ Some functions.QueryTask →
        IsManaged m s response new → new ≡ s }
    ensures query_set { (s new : Device) (m : Manage) (response : Response) →
        function_of m.function ≡ Some functions.QueryTaskSet → IsManaged m s response new → new ≡ s }
    ensures abort_one { (s new : Device) (m : Manage) (response : Response) →
        function_of m.function ≡ Some functions.AbortTask → is_unit_0 m.lun ≡ true → IsManaged m s response new →
        new.tasks ≡ filter (λ t. not (is_called m.nexus (m.tag).0 t)) s.tasks }
    ensures reset { (s new : Device) (m : Manage) (response : Response) → function_of m.function ≡ Some functions.NexusReset →
        IsManaged m s response new → new.tasks ≡ of_others m.nexus s.tasks }
    ensures abort { (s new : Device) (m : Manage) (response : Response) → function_of m.function ≡ Some functions.AbortTaskSet →
        is_unit_0 m.lun ≡ true → IsManaged m s response new → new.tasks ≡ of_others m.nexus s.tasks }
{}

/// Law of power: a power cycle leaves no task and answers none, and each nexus is told POWER ON OCCURRED alone (SAM-5 6.3).
pub fn power_leaves_no_task()
    ensures { (s new : Device) (answers : List Reply) → Happens events.Power s answers new →
        (answers ≡ []) × (new.tasks ≡ []) × (new.attentions ≡ map (λ conditions. PowerOn ∷ []) s.attentions) }
{}
