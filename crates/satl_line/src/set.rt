// The tasks in order of arrival, each in a slot of its own.
ghost use Rattle.std.specs.Prelude.{◌≡◌, ◌≤◌, ◌<◌, ◌==◌, ◌^◌, if◌then◌else◌, ℕ, false, [], drop, map, length, remove, replicate, Some, IfOk, OnOk, OnErr, is_err, slice_get, slice_index, slice_set};
ghost use Rattle.std.specs.Int.{bit_at};
ghost use Rattle.std.specs.Option.{option_copied, option_map};
ghost use Rattle.std.specs.List.{AllByRecursion, position_from};
ghost use Rattle.satl_base.specs.Limits.{most_held, most_tasks};
ghost use Rattle.satl_base.specs.Lists.{change_at};
ghost use Rattle.satl_line.specs.Conflict.{access_of, conflicts};
ghost use Rattle.satl_line.specs.Eligible.{eligible_at};
ghost use Rattle.satl_line.specs.Tasks.{Adds, AreMasks, AreOwnSlots, IsBarredMask, count_of, entries_of, entry_at, is_named, is_too_much, slots_of, total_blocks, with_body};
ghost use Rattle.satl_line.specs.Layout.{AreBarred, IsMask, IsMaskAmong, cleared, held_in, low_byte, mark_of, one_fewer, one_more, with_slot};
ghost use Rattle.satl_line.specs.Outlines.{IsOutline, is_of_name, no_outline, outline_in, outlines_in};
ghost use Rattle.satl_line.specs.Regions.{AllHaveTasks, MayLeaveOut};

use crate::boxed::TaskBox;
use crate::conflict::conflict;
use crate::entry::Entry;
use crate::outline::Outline;
use crate::passed::Passed;
use crate::regions::Regions;
use crate::slots::{first_outside, has_slot, lowest_slot};
use arrayvec::ArrayVec;
use satl_base::{MOST_HELD, MOST_TASKS, Nexus, NoMemory, Pages, Sequence, Tag};
use std::alloc::Global;
use std::marker::Model;
use std::mem;

/// The room of the order of arrival: sixteen times what it holds, so that it is seldom used up and slots seldom move to its
/// front.
const ORDER_ROOM: usize = 16 * MOST_TASKS;

/// The task set is full, or the blocks of its tasks are too many (SAM-5, TASK SET FULL; profile).
#[derive(Clone, Copy, Debug, PartialEq, Eq)]
pub struct TaskSetFull;

/// At most 64 tasks in order of arrival (SAM-5, task set; the figure is the profile's). Each lies in one of 64 slots
/// from its arrival until it leaves, and each slot has a mask of the earlier tasks that its task conflicts with.
/// Clauses see the list of the tasks, each with its slot.
// Each slot has a box from the start, with an old task in it where the slot is free. What is asked of each waiting task as
// another one comes is mostly answered by the outlines, which lie side by side: no task is read for it.
#[derive(Drop)]
pub struct TaskSet {
    slots: Vec<TaskBox>,
    outlines: [Outline; MOST_TASKS],
    order: Sequence<u8, ORDER_ROOM>,
    free: ArrayVec<u8, MOST_TASKS>,
    masks: [u64; MOST_TASKS],
    blocks: u32,
    // The slots with a task, those whose task writes or stands alone, and those whose task stands alone, as the bits of numbers.
    taken: u64,
    active: u64,
    alone: u64,
    // The slots whose task waits for an earlier one, as the bits of a number: those with a mask that is not 0.
    barred: u64,
    // For each low byte of a tag the number of tasks that have it: mostly 0 for the tag of a task that comes.
    tag_counts: [u8; 256],
    // The places before the first that was found outside some slots: mostly those of tasks that are outstanding or wait for an
    // earlier one.
    passed: Passed,
    // The slots whose tasks may conflict with one that comes: mostly none of many.
    regions: Regions,
}

impl Model for TaskSet {
    ghost use Rattle.std.specs.Prelude.{List};
    ghost use Rattle.satl_line.specs.Tasks.{Held};
    ghost use Rattle.satl_line.specs.Layout.{AreBarred, AreNoted, FitTogether, HasPassed, IsTakenMask, tasks_in};
    ghost use Rattle.satl_line.specs.Outlines.{is_of_alone};
    ghost use Rattle.satl_line.specs.Regions.{AreNear};

    ghost Value = { List Held };

    ghost view = { λ s. tasks_in s.slots.items s.order };

    ghost invariant = { λ s. FitTogether (record {
      slots = s.slots.items;
      outlines = s.outlines;
      order = s.order;
      free = s.free.items;
      masks = s.masks;
      blocks = s.blocks;
      active = s.active;
      tag_counts = s.tag_counts;
    }) × HasPassed s.order s.passed × AreNear s.regions s.outlines s.order
        × IsTakenMask s.order s.taken × AreBarred s.masks s.barred
        × AreNoted is_of_alone s.outlines s.order s.free.items s.alone };
}

impl TaskSet {
    /// An empty set. It takes all memory that the set ever needs, and the error is want of it (profile).
    pub fn new(alloc: Global) -> Result<TaskSet, NoMemory>
        ensures { IfOk result (λ set. set ≡ []) }
    {
        let mut slots = Vec::with_capacity(alloc, MOST_TASKS)?;
        let mut free = ArrayVec::new();
        for slot in 0..64u8 {
            let Ok(()) = slots.push(TaskBox::new(alloc)?) else {
                unreachable!();
            };
            free.push(slot);
        }
        Ok(TaskSet {
            slots,
            outlines: no_outlines(),
            order: Sequence::new(),
            free,
            masks: no_masks(),
            blocks: 0,
            taken: 0,
            active: 0,
            alone: 0,
            barred: 0,
            tag_counts: no_counts(),
            passed: Passed::none(),
            regions: Regions::none(),
        })
    }

    /// How many tasks are held: at most 64, each in a slot of its own, which hold room for at most 32,768 blocks (profile).
    pub fn len(&self) -> usize
        ensures value { result ≡ length self.now }
        ensures few { length self.now ≤ most_tasks }
        ensures blocks { total_blocks self.now ≤ most_held }
        ensures own { AreOwnSlots self.now }
    {
        self.order.len()
    }

    /// Whether no task is held (profile).
    pub fn is_empty(&self) -> bool
        ensures { result ≡ (length self.now == 0) }
    {
        self.order.is_empty()
    }

    /// Adds the task of a box at the end: the box has another one then. The error comes exactly where 64 are held or their
    /// blocks and its own would exceed 32,768, and the task stays in its box (SAM-5, TASK SET FULL; the figures are the
    /// profile's).
    pub fn add(&mut self, task: &mut TaskBox) -> Result<(), TaskSetFull>
        ensures full { is_err result ≡ is_too_much self.old task.old }
        ensures ok { OnOk result (Adds self.old task.old self.new) }
        ensures back { OnErr result (task.new ≡ task.old) }
        ensures kept { OnErr result (self.new ≡ self.old) }
    {
        let entry = task.entry();
        let blocks = entry.blocks;
        if self.order.len() == MOST_TASKS
            || u64::from(blocks) + u64::from(self.blocks) > u64::from(MOST_HELD)
        {
            return Err(TaskSetFull);
        }
        let outline = Outline::of(entry);
        let mask = self.mask_for(entry, &outline);
        let Some(slot) = self.free.pop() else {
            unreachable!();
        };
        self.masks[slot as usize] = mask;
        self.taken |= 1 << slot;
        self.active = with_slot(self.active, slot, outline.is_active());
        self.alone = with_slot(self.alone, slot, outline.is_alone());
        self.barred = with_slot(self.barred, slot, mask != 0);
        self.regions.note(slot, &outline);
        self.outlines[slot as usize] = outline;
        count_up(&mut self.tag_counts, entry.tag);
        self.blocks += blocks;
        mem::swap(&mut self.slots[slot as usize], task);
        self.order.push(slot);
        Ok(())
    }

    /// Takes the task at a place out, into a box: the task that lay there is gone (profile).
    pub fn remove(&mut self, place: usize, task: &mut TaskBox)
        requires { place < length self.old }
        ensures value { entry_at self.old place ≡ Some task.new }
        ensures others { self.new ≡ remove self.old place }
    {
        let slot = self.order.remove(place);
        mem::swap(&mut self.slots[slot as usize], task);
        let outline = self.outlines[slot as usize];
        let waiting = self.regions.beside(&outline, self.barred);
        self.barred = clear_slot(&mut self.masks, slot, waiting, self.barred);
        self.regions.forget(slot, &outline);
        self.taken &= !(1 << slot);
        self.active &= !(1 << slot);
        self.alone &= !(1 << slot);
        self.passed = self.passed.without(place, slot);
        self.free.push(slot);
        let entry = task.entry();
        count_down(&mut self.tag_counts, entry.tag);
        self.blocks -= entry.blocks;
    }

    /// Whether no earlier task conflicts with the one at a place (profile).
    pub fn eligible(&self, place: usize) -> bool
        requires { place < length self.now }
        ensures { result ≡ eligible_at (entries_of self.now) place }
    {
        mask_at(&self.masks, self.order.at(place)) == 0
    }

    /// The slots of the tasks that are not eligible, as the bits of a number (profile).
    pub fn barred(&self) -> u64
        ensures { IsBarredMask self.now result }
    {
        have_64_bits(&self.masks);
        self.barred
    }

    /// The place of the first task of this nexus and tag. None exactly where there is none (profile).
    // In the usual case no task has even the low byte of the tag, and no outline is looked at.
    pub fn find(&self, nexus: Nexus, tag: Tag) -> Option<usize>
        ensures { result ≡ position_from (is_named nexus tag) 0 self.now }
    {
        if count_at(&self.tag_counts, tag) == 0 {
            return None;
        }
        find_in(&self.outlines, self.order.as_slice(), nexus, tag)
    }

    /// The first task. None exactly where there is none (profile).
    pub fn first(&self) -> Option<&Entry>
        ensures { option_copied result ≡ entry_at self.now 0 }
    {
        if self.is_empty() {
            None
        } else {
            Some(entry_in(&self.slots, self.order.at(0)))
        }
    }

    /// The task at a place (profile).
    pub fn entry(&self, place: usize) -> &Entry
        requires { place < length self.now }
        ensures { entry_at self.now place ≡ Some result.now }
    {
        entry_in(&self.slots, self.order.at(place))
    }

    /// Takes the pages of the task at a place, which then has none (profile).
    pub fn take_data(&mut self, place: usize) -> Pages
        requires { place < length self.old }
        ensures value { option_map (λ entry. entry.body) (entry_at self.old place) ≡ Some result }
        ensures emptied { option_map (λ entry. entry.body) (entry_at self.new place) ≡ Some [] }
        ensures others { self.new ≡ change_at self.old place (with_body []) }
    {
        let slot = self.order.at(place);
        swap_body(&mut self.slots, slot, Pages::default())
    }

    /// Puts pages into the task at a place, which has none (profile).
    pub fn put_data(&mut self, place: usize, body: Pages)
        requires within { place < length self.old }
        requires none { option_map (λ entry. entry.body) (entry_at self.old place) ≡ Some [] }
        ensures { self.new ≡ change_at self.old place (with_body body) }
    {
        let slot = self.order.at(place);
        swap_body(&mut self.slots, slot, body);
    }

    /// The slot of the task at a place, which no other task has (profile).
    pub fn slot_of(&self, place: usize) -> u8
        requires { place < length self.now }
        ensures value { slice_get (slots_of self.now) place ≡ Some result }
        ensures small { result < 64 }
        ensures alone { count_of result (slots_of self.now) ≡ 1 }
    {
        self.order.at(place)
    }

    /// The place of the task in a slot. None exactly where the slot is empty, or where there is no such slot (profile).
    pub fn place_of(&self, slot: u8) -> Option<usize>
        ensures { result ≡ position_from (λ held. held.slot == slot) 0 self.now }
    {
        place_in(self.order.as_slice(), slot)
    }

    /// The first place, from this one on, of a task whose slot is not among these, the bits of a number. None exactly where
    /// there is none (profile).
    // Where each task lies in one of these slots, no place is looked at. Else the search begins, among the same slots with those
    // that came since, where the last one from the first place on has ended.
    pub fn first_outside(&mut self, from: usize, slots: u64) -> Option<usize>
        requires { from ≤ length self.old }
        ensures value { result ≡ position_from (λ slot. bit_at slots slot == 0) from (drop from (slots_of self.old)) }
        ensures same { self.new ≡ self.old }
    {
        if self.taken & !slots == 0 {
            return None;
        }
        let start = self.passed.start(self.order.as_slice(), from, slots);
        let found = first_outside(self.order.as_slice(), start, slots);
        if from == 0 {
            self.passed = Passed::before(self.order.as_slice(), found, slots);
        }
        found
    }

    /// For each slot the slots of the earlier tasks that its task conflicts with, as the bits of a number; 0 for an
    /// empty slot (profile).
    pub fn masks(&self) -> &[u64; MOST_TASKS]
        ensures { AreMasks self.now result.now }
    {
        &self.masks
    }

    /// The slots of the tasks that conflict with a new one, as the bits of a number. Where none may, as among READs alone, no
    /// task and no outline is looked at.
    // A task that stands alone conflicts with each: it is not held against any.
    fn mask_for(&self, entry: &Entry, outline: &Outline) -> u64
        requires { IsOutline entry.now outline.now }
        ensures { IsMask (map mark_of self.now) (access_of entry.now) result }
    {
        let among = self.candidates(entry, outline);
        let alone = among & self.alone;
        if outline.is_alone() {
            return among;
        }
        let others = among ^ alone;
        mask_against(&self.slots, &self.outlines, others, entry, outline) | alone
    }

    /// The slots whose tasks may conflict with a new one, as the bits of a number: these are near it, and write or stand alone
    /// where it does neither.
    // No clause says that regions have no slot without a task, so these are left out here.
    fn candidates(&self, entry: &Entry, outline: &Outline) -> u64
        requires { IsOutline entry.now outline.now }
        ensures taken { AllHaveTasks self.now result }
        ensures others { AllByRecursion (MayLeaveOut entry.now result) self.now }
    {
        if outline.is_active() {
            self.regions.beside(outline, self.taken)
        } else {
            self.regions.beside(outline, self.active)
        }
    }
}

fn no_outlines() -> [Outline; MOST_TASKS]
    ensures { result ≡ replicate 64 no_outline }
{
    [Outline::none(); MOST_TASKS]
}

fn no_masks() -> [u64; MOST_TASKS]
    ensures { result ≡ replicate 64 0 }
{
    [0; MOST_TASKS]
}

fn no_counts() -> [u8; 256]
    ensures { result ≡ replicate 256 0 }
{
    [0; 256]
}

fn mask_at(masks: &[u64], slot: u8) -> u64
    requires small { slot < 64 }
    requires room { length masks.now ≡ 64 }
    ensures value { result ≡ slice_index masks.now slot }
    ensures fits { slice_index masks.now slot < 2 ^ 64 }
{
    masks[slot as usize]
}

/// Says of masks that they have no bit above that of the last slot.
fn have_64_bits(masks: &[u64])
    ensures { (slot : ℕ) → slice_index masks.now slot < 2 ^ 64 }
{}

/// A number with the bit of a slot, where that is to be noted.
fn with_slot(number: u64, slot: u8, noted: bool) -> u64
    requires { slot < 64 }
    ensures { result ≡ with_slot noted slot number }
{
    if noted { number | 1 << slot } else { number }
}

fn low_byte(tag: Tag) -> usize
    ensures { result ≡ low_byte tag }
{
    (tag.0 % 256) as usize
}

/// How many tasks have the low byte of this tag.
fn count_at(tag_counts: &[u8], tag: Tag) -> u8
    requires room { length tag_counts.now ≡ 256 }
    ensures { result ≡ slice_index tag_counts.now (low_byte tag) }
{
    tag_counts[low_byte(tag)]
}

/// Counts one more task of this tag.
fn count_up(tag_counts: &mut [u8], tag: Tag)
    requires room { length tag_counts.old ≡ 256 }
    requires few { slice_index tag_counts.old (low_byte tag) ≤ 64 }
    ensures { tag_counts.new ≡ one_more tag_counts.old tag }
{
    tag_counts[low_byte(tag)] += 1;
}

/// Counts one task of this tag fewer.
fn count_down(tag_counts: &mut [u8], tag: Tag)
    requires room { length tag_counts.old ≡ 256 }
    requires some { 1 ≤ slice_index tag_counts.old (low_byte tag) }
    ensures { tag_counts.new ≡ one_fewer tag_counts.old tag }
{
    tag_counts[low_byte(tag)] -= 1;
}

/// Those of some slots, the bits of a number, whose tasks conflict with this one.
// It takes a step for each of them, of which there are mostly one or two.
fn mask_against(
    slots: &[TaskBox],
    outlines: &[Outline],
    among: u64,
    entry: &Entry,
    outline: &Outline,
) -> u64
    requires room { length slots.now ≡ 64 }
    requires wide { length outlines.now ≡ 64 }
    requires told { (slot : ℕ) → slot < 64 → bit_at among slot ≡ 1
        → IsOutline (held_in slots.now slot).entry (outline_in outlines.now slot) }
    requires own { IsOutline entry.now outline.now }
    ensures { IsMaskAmong slots.now among entry.now result }
{
    let mut mask = 0u64;
    let mut rest = among;
    while rest != 0 {
        let slot = lowest_slot(rest);
        rest &= !(1 << slot);
        let conflicting = conflicts_in(slots, outlines, slot, entry, outline);
        mask = with_slot(mask, slot, conflicting);
    }
    mask
}

/// Whether the task in a slot conflicts with this one. The outlines are asked first, and the task where they leave it open.
fn conflicts_in(
    slots: &[TaskBox],
    outlines: &[Outline],
    slot: u8,
    entry: &Entry,
    outline: &Outline,
) -> bool
    requires small { slot < 64 }
    requires room { length slots.now ≡ 64 }
    requires wide { length outlines.now ≡ 64 }
    requires told { IsOutline (held_in slots.now slot).entry (outline_in outlines.now slot) }
    requires own { IsOutline entry.now outline.now }
    ensures { result ≡ conflicts (held_in slots.now slot).entry entry.now }
{
    let other = &outlines[slot as usize];
    other.is_alone_beside(outline)
        || (other.may_meet(outline) && conflict(entry_in(slots, slot), entry))
}

/// Takes a slot out of the masks of these slots, the bits of a number, makes its own 0, and gives the slots that are still
/// barred. No other mask has it.
// It takes a step for each of these slots, of which there are mostly few.
fn clear_slot(masks: &mut [u64], slot: u8, these: u64, barred: u64) -> u64
    requires small { slot < 64 }
    requires room { length masks.old ≡ 64 }
    requires others { (other : ℕ) → other < 64 → bit_at these other ≡ 0 → bit_at (slice_index masks.old other) slot ≡ 0 }
    requires barred { AreBarred masks.old barred }
    ensures cleared { masks.new ≡ cleared masks.old slot }
    ensures barred { AreBarred masks.new result }
{
    have_64_bits(masks);
    masks[slot as usize] = 0;
    let mut barred = barred & !(1 << slot);
    let mut rest = these;
    while rest != 0 {
        let other = lowest_slot(rest);
        rest &= !(1 << other);
        let mask = mask_at(masks, other) & !(1 << slot);
        masks[other as usize] = mask;
        if mask == 0 {
            barred &= !(1 << other);
        }
    }
    barred
}

fn place_in(order: &[u8], slot: u8) -> Option<usize>
    ensures { result ≡ position_from (λ other. other == slot) 0 order.now }
{
    order.iter().position(|other| *other == slot)
}

fn find_in(outlines: &[Outline], order: &[u8], nexus: Nexus, tag: Tag) -> Option<usize>
    requires wide { length outlines.now ≡ 64 }
    requires small { AllByRecursion (λ slot. slot < 64) order.now }
    ensures { result ≡ position_from (is_of_name nexus tag) 0 (outlines_in outlines.now order.now) }
{
    for (place, slot) in order.iter().enumerate() {
        if outlines[*slot as usize].names(nexus, tag) {
            return Some(place);
        }
    }
    None
}

fn entry_in(slots: &[TaskBox], slot: u8) -> &Entry
    requires small { slot < 64 }
    requires room { length slots.now ≡ 64 }
    ensures { result.now ≡ (held_in slots.now slot).entry }
{
    slots[slot as usize].entry()
}

/// Puts pages into the task in a slot, and gives those that it had.
fn swap_body(slots: &mut Vec<TaskBox>, slot: u8, body: Pages) -> Pages
    requires room { length slots.old.items ≡ 64 }
    requires small { slot < 64 }
    ensures value { result ≡ (held_in slots.old.items slot).entry.body }
    ensures items { slots.new.items ≡ slice_set slots.old.items slot (with_body body (held_in slots.old.items slot)).entry }
{
    slots[slot as usize].swap_body(body)
}

#[cfg(test)]
mod tests {
    use super::*;
    use crate::entry::Kind;
    use satl_base::Range;
    use satl_cdb::Command;
    use std::test::Fail;

    const READ: Kind = Kind::Ranged { write: false };

    const WRITE: Kind = Kind::Ranged { write: true };

    /// Puts a task into a box. It has no pages.
    fn put(task: &mut TaskBox, number: u32, kind: Kind, ordered: bool, range: Range, blocks: u32) {
        let entry = task.entry_mut();
        entry.tag = Tag(number);
        entry.kind = kind;
        entry.ordered = ordered;
        entry.blocks = blocks;
        entry.command = Command::Unmap { length: 40 };
        entry.ranges = ArrayVec::new();
        entry.ranges.push(Range { lba: 900, count: 0 });
        entry.ranges.push(range);
    }

    #[test]
    fn waits_for_what_conflicts(rt: HostRuntime) -> Result<(), Fail> {
        // A task of 8 blocks from 100 on, one that stands behind it, and whether that one is eligible.
        let cases = [
            (READ, false, READ, false, 100, 8, true),
            (READ, false, WRITE, false, 108, 8, true),
            (READ, false, WRITE, false, 92, 8, true),
            (READ, false, WRITE, false, 107, 1, false),
            (WRITE, false, READ, false, 93, 8, false),
            (WRITE, false, WRITE, false, 103, 0, true),
            (READ, true, READ, false, 200, 8, false),
            (READ, false, READ, true, 200, 8, false),
            (Kind::Barrier, false, READ, false, 200, 8, false),
            (READ, false, Kind::Barrier, false, 200, 8, false),
        ];
        for (kind, ordered, other, behind, lba, count, passes) in cases {
            let mut set = TaskSet::new(rt.alloc())?;
            let mut task = TaskBox::new(rt.alloc())?;
            put(&mut task, 1, kind, ordered, Range { lba: 100, count: 8 }, 8);
            assert!(rt; set.add(&mut task).is_ok());
            put(&mut task, 2, other, behind, Range { lba, count }, 8);
            assert!(rt; set.add(&mut task).is_ok());
            assert_eq!(rt; set.len(), 2);
            assert_eq!(rt; set.eligible(1), passes, "at {lba}");
            assert_eq!(rt; set.barred() == 0, passes);
            set.remove(0, &mut task);
            assert_eq!(rt; task.entry().tag, Tag(1));
            assert_eq!(rt; set.barred(), 0);
        }
        Ok(())
    }

    /// Puts a task into a box that writes two ranges.
    fn put_write(task: &mut TaskBox, number: u32, first: Range, second: Range) {
        put(task, number, WRITE, false, first, 0);
        let entry = task.entry_mut();
        entry.ranges = ArrayVec::new();
        entry.ranges.push(first);
        entry.ranges.push(second);
    }

    #[test]
    fn waits_for_ranges_and_not_for_spans(rt: HostRuntime) -> Result<(), Fail> {
        let none = (0, 0);
        let top = u64::MAX;
        // Two ranges of a task, two of one that stands behind it, and whether that one is eligible.
        let cases = [
            ((100, 8), (300, 8), (200, 8), (400, 8), true),
            ((100, 8), (300, 8), (200, 8), (307, 1), false),
            ((100, 8), (300, 8), (0, 50), (500, 8), true),
            ((100, 8), (300, 8), (103, 0), (top, 0), true),
            (none, none, (0, u32::MAX), (top, 1), true),
            ((top - 1, 9), none, (top - 2, 1), none, true),
            ((top - 1, 9), none, (top - 2, 2), none, false),
            ((top - 1, 9), none, none, (top, u32::MAX), false),
            // Stretches of 64 blocks, and 256 of them before a region comes again.
            ((60, 8), none, (67, 1), none, false),
            ((60, 8), none, (68, 1), none, true),
            ((64, 64), none, (127, 2), none, false),
            ((0, 200), none, (100, 1), none, false),
            ((100, 1), none, (0, 200), none, false),
            ((100, 8), none, (100 + 64 * 256, 8), none, true),
        ];
        for (first, second, behind, last, passes) in cases {
            let mut set = TaskSet::new(rt.alloc())?;
            let mut task = TaskBox::new(rt.alloc())?;
            put_write(&mut task, 1, range(first), range(second));
            assert!(rt; set.add(&mut task).is_ok());
            put_write(&mut task, 2, range(behind), range(last));
            assert!(rt; set.add(&mut task).is_ok());
            assert_eq!(rt; set.eligible(1), passes, "at {}", behind.0);
        }
        Ok(())
    }

    fn range((lba, count): (u64, u32)) -> Range {
        Range { lba, count }
    }

    #[test]
    fn full_at_64_tasks_and_32768_blocks(rt: HostRuntime) -> Result<(), Fail> {
        let range = Range { lba: 0, count: 1 };
        let mut task = TaskBox::new(rt.alloc())?;
        for (blocks, tasks) in [(0, 64), (512, 64), (4096, 8), (4095, 8), (32768, 1)] {
            let mut set = TaskSet::new(rt.alloc())?;
            for number in 0..tasks {
                put(&mut task, number, READ, false, range, blocks);
                assert!(rt; set.add(&mut task).is_ok());
            }
            put(&mut task, 99, WRITE, true, range, 513);
            assert_eq!(rt; set.add(&mut task), Err(TaskSetFull));
            assert_eq!(rt; task.entry().tag, Tag(99));
            assert_eq!(rt; set.len(), tasks as usize);
            assert_eq!(rt; set.first().map(|entry| entry.tag), Some(Tag(0)));
            let last = Tag(tasks - 1);
            assert_eq!(rt; set.find(Nexus::default(), last), Some(tasks as usize - 1));
        }
        let mut set = TaskSet::new(rt.alloc())?;
        for number in 1..=2 {
            put(&mut task, number, WRITE, false, range, 2);
            assert!(rt; set.add(&mut task).is_ok());
        }
        assert_eq!(rt; set.len(), 2);
        let (first, second) = (set.slot_of(0), set.slot_of(1));
        assert_eq!(rt; set.masks()[second as usize], 1 << first);
        assert_eq!(rt; set.place_of(second), Some(1));
        assert_eq!(rt; set.first_outside(0, 1 << first), Some(1));
        assert_eq!(rt; set.take_data(1).blocks(), 0);
        set.put_data(1, Pages::zeroed(rt.alloc(), 2)?);
        assert_eq!(rt; set.len(), 2);
        assert_eq!(rt; set.entry(1).body.blocks(), 2);
        Ok(())
    }
}
