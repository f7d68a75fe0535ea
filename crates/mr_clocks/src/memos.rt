//! Memos: the rows that earlier steps asked, and those in which they are noted. A step that does the same as one of
//! them needs no search: of the rows that came since it looks at each, if they are few.

ghost use Rattle.std.specs.Prelude.{◌≡◌, ℕ, ◌<◌, ◌≤◌, List, IfOk, IsTrue, OnOk, length, vec_len};
ghost use Rattle.mr_event.specs.Likeness.{DoTheSame};
ghost use Rattle.mr_clocks.specs.declared.rows.Row.{Row};
ghost use Rattle.mr_clocks.specs.Keys.{asks as does_ask};
ghost use Rattle.mr_clocks.specs.Marks.{AreMarked};
ghost use Rattle.mr_clocks.specs.Memos.{AreMemos, IsMemo, IsMemoOf, memo_at};
ghost use Rattle.mr_clocks.specs.Rows.{IsGrown, IsListed, IsOwn, row_at};

use crate::hints::{Slots, no_slots, slots_of};
use crate::index::{Index, add_asked, places_for, rows_asked};
use crate::keys::noted_by;
use crate::rows::Row;
use mr_base::Access;
use mr_event::{Event, Footprint, OutOfMemory, do_the_same, same_step};
use std::alloc::Global;
use std::marker::Model;

// How many memos there are of steps that ask few rows, are noted in few and free few allocations, and how many of each
// these are at most. Behind them stands one memo of the last other step.
const MEMOS: usize = 1024;

const FEW: usize = 512;

// How many rows may have come since a memo was made, so that it looks at the newer ones alone.
const NEAR: usize = 256;

/// A step, the places of the rows that it asks but those of its own thread alone, of those in which it is noted, and of
/// its hints. The stamp is one more than the number of rows that there were, or 0 where there is no step.
#[derive(Drop)]
pub(crate) struct Memo {
    step: Footprint,
    stamp: usize,
    asked: Vec<usize>,
    noted: Vec<usize>,
    slots: Slots,
}

impl Model for Memo {
    ghost use Rattle.std.specs.Prelude.{List, ℕ};
    ghost use Rattle.mr_event.specs.Footprint.{Footprint as FootprintOf};

    ghost Value = { FootprintOf × ℕ × List ℕ × List ℕ };

    ghost view = { λ m. (m.step, m.stamp, m.asked.items, m.noted.items) };
}

impl Memo {
    ghost use Rattle.std.specs.Prelude.{◌≡◌, ◌<◌, IsTrue};
    ghost use Rattle.mr_event.specs.Likeness.{DoTheSame};
    ghost use Rattle.mr_clocks.specs.Memos.{IsMemo};

    // A memo of no step.
    fn none(alloc: Global) -> Memo
        ensures { result.1 ≡ 0 }
    {
        Memo {
            step: Footprint::nothing(alloc),
            stamp: 0,
            asked: Vec::new(alloc),
            noted: Vec::new(alloc),
            slots: no_slots(),
        }
    }

    /// The places of all rows that the step asks but those of its own thread alone, and maybe of others.
    pub(crate) fn asked(&self) -> &[usize]
        ensures { result.now ≡ self.now.2 }
    {
        self.asked.as_slice()
    }

    /// The places of the rows in which the step is noted.
    pub(crate) fn noted(&self) -> &[usize]
        ensures { result.now ≡ self.now.3 }
    {
        self.noted.as_slice()
    }

    /// The places of the hints for the step.
    pub(crate) fn hint_slots(&self) -> Slots {
        self.slots
    }

    // Whether it has a stamp, and its step did the same as another, but for the threads that they woke: then the two
    // ask the same rows, and are noted in the same ones.
    fn serves(&self, step: &Footprint, stamp: usize) -> bool
        ensures step { IsTrue result → DoTheSame self.now.0 step.now }
        ensures stamp { IsTrue result → self.now.1 ≡ stamp }
    {
        self.stamp == stamp && did_the_same(&self.step, step)
    }

    // Whether it has a stamp of not long ago, and its step did the same as another, but for the threads that they woke.
    fn is_near(&self, step: &Footprint, many: usize) -> bool
        ensures { IsTrue result → 0 < self.now.1 }
    {
        self.stamp > 0
            && (self.stamp >= many || many - self.stamp < NEAR)
            && self.asked.len() <= FEW
            && do_the_same(&self.step, step)
    }

    // Looks at the rows that are newer than it.
    fn catch_up(&mut self, rows: &[Row]) -> Result<(), OutOfMemory>
        requires stamp { 0 < self.old.1 }
        requires memo { IsMemo rows.now self.old }
        ensures memo { IsMemo rows.now self.new }
    {
        add_others(&mut self.asked, rows, self.stamp - 1, &self.step)?;
        self.stamp = rows.len() + 1;
        Ok(())
    }
}

// Whether two steps are equal. It isn't seen of a step that woke some thread.
fn are_equal(one: &Footprint, other: &Footprint) -> bool
    ensures { IsTrue result → one.now ≡ other.now }
{
    other.woken().is_empty() && same_step(one, other)
}

// Whether two steps did the same, but for the threads that they woke. Of those that woke none it is mostly soon told.
fn did_the_same(one: &Footprint, other: &Footprint) -> bool
    ensures { IsTrue result → DoTheSame one.now other.now }
{
    if are_equal(one, other) {
        return true;
    }
    do_the_same(one, other)
}

// A number by which accesses of different ranges mostly differ.
fn mixed(access: Access) -> usize
    ensures { result < 4096 }
{
    let kind = if access.store { 512 } else { 0 };
    (access.addr % 1024 + access.addr / 1024 % 1024 + kind) as usize
}

// A number by which events of different kinds differ.
fn kind_of(event: Event) -> usize
    ensures { result < 6 }
{
    match event {
        Event::Quiet => 0,
        Event::CreateLock(_) => 1,
        Event::Acquire(_) => 2,
        Event::Release(_) => 3,
        Event::Spawn(_) => 4,
        Event::Join(_) => 5,
    }
}

// The place of the memo for a step, where it has few rows.
fn slot_of(step: &Footprint) -> usize
    ensures { result < 1024 }
{
    let thread = step.thread() as usize % MEMOS * 37;
    let accesses = step.accesses();
    let count = accesses.len();
    if count == 0 {
        return (thread + kind_of(step.event()) * 171) % MEMOS;
    }
    let ends = mixed(accesses[0]) + mixed(accesses[count - 1]) * 5;
    (thread + ends + count % MEMOS * 11) % MEMOS
}

// Makes the table of memos, where it isn't there.
fn fill(alloc: Global, memos: &mut Vec<Memo>) -> Result<(), OutOfMemory>
    ensures memos { (rows : List Row) → AreMemos rows memos.old.items → AreMemos rows memos.new.items }
    ensures all { OnOk result (1024 < vec_len memos.new) }
{
    if memos.len() > MEMOS {
        return Ok(());
    }
    memos.reserve(MEMOS + 1 - memos.len())?;
    for k in memos.len()..MEMOS + 1 {
        memos.push_reserved(Memo::none(alloc));
    }
    Ok(())
}

// Appends the places, from a number on, at which there are rows whose keys the step asks, but those of its own thread
// alone.
fn add_others(
    others: &mut Vec<usize>,
    rows: &[Row],
    from: usize,
    step: &Footprint,
) -> Result<(), OutOfMemory>
    ensures kept { (z : ℕ) → IsListed others.old.items z → IsListed others.new.items z }
    ensures here { OnOk result ((x : ℕ) → from ≤ x → x < length rows.now
        → (IsOwn (row_at rows.now x) step.now.thread → ⊥) → IsTrue (does_ask step.now (row_at rows.now x).key)
        → IsListed others.new.items x) }
{
    for x in from..rows.len() {
        add_asked(others, rows, x, step, None)?;
    }
    Ok(())
}

// A memo of a step. The rows that it asks are searched for, and those in which it is noted are made where they are
// missing.
#[inline(never)]
fn memo_for(
    alloc: Global,
    index: &mut Index,
    rows: &mut Vec<Row>,
    step: &Footprint,
) -> Result<Memo, OutOfMemory>
    requires { AreMarked index.old.shelves.items index.old.marks.keys rows.old.items }
    ensures marked { AreMarked index.new.shelves.items index.new.marks.keys rows.new.items }
    ensures grown { IsGrown rows.old.items rows.new.items }
    ensures step { IfOk result (λ m. m.0 ≡ step.now) }
    ensures memo { IfOk result (λ m. IsMemoOf rows.new.items step.now m) }
{
    let keys = noted_by(alloc, step)?;
    let noted = places_for(alloc, index, rows, keys.as_slice(), step.thread())?;
    let asked = rows_asked(alloc, &*index, rows.as_slice(), step)?;
    let stamp = rows.len() + 1;
    Ok(Memo {
        step: step.copied()?,
        stamp,
        asked,
        noted,
        slots: slots_of(step),
    })
}

// Whether a memo takes little room: its step has few rows, and frees few allocations.
fn is_small(memo: &Memo) -> bool {
    memo.asked.len() <= FEW && memo.noted.len() <= FEW && memo.step.freed().len() <= FEW
}

// Puts a memo into the table, and gives its place there.
fn keep_memo(memos: &mut Vec<Memo>, slot: usize, memo: Memo) -> usize
    requires slot { slot < 1024 }
    requires all { 1024 < vec_len memos.old }
    ensures memos { (rows : List Row) → AreMemos rows memos.old.items → IsMemo rows memo
        → AreMemos rows memos.new.items }
    ensures within { result < length memos.new.items }
    ensures here { memo_at memos.new.items result ≡ memo }
{
    let place = if is_small(&memo) { slot } else { MEMOS };
    memos[place] = memo;
    place
}

// Lets the memo at a place look at the rows that are newer than it, where its step did what this one did.
fn catch_up_at(
    memos: &mut Vec<Memo>,
    rows: &[Row],
    step: &Footprint,
    slot: usize,
) -> Result<(), OutOfMemory>
    requires slot { slot < length memos.old.items }
    requires memos { AreMemos rows.now memos.old.items }
    ensures memos { AreMemos rows.now memos.new.items }
    ensures all { vec_len memos.new ≡ vec_len memos.old }
{
    let memo = &mut memos[slot];
    if memo.is_near(step, rows.len()) {
        memo.catch_up(rows)?;
    }
    Ok(())
}

// The place of a memo of a step that is as new as the rows: of the one at a place, when it has looked at the newer
// rows, or of a new one.
#[inline(never)]
fn look_further(
    alloc: Global,
    memos: &mut Vec<Memo>,
    index: &mut Index,
    rows: &mut Vec<Row>,
    step: &Footprint,
    slot: usize,
) -> Result<usize, OutOfMemory>
    requires slot { slot < 1024 }
    requires all { 1024 < vec_len memos.old }
    requires marked { AreMarked index.old.shelves.items index.old.marks.keys rows.old.items }
    requires memos { AreMemos rows.old.items memos.old.items }
    ensures marked { AreMarked index.new.shelves.items index.new.marks.keys rows.new.items }
    ensures grown { IsGrown rows.old.items rows.new.items }
    ensures memos { AreMemos rows.new.items memos.new.items }
    ensures within { IfOk result (λ x. x < length memos.new.items) }
    ensures memo { IfOk result (λ x. IsMemoOf rows.new.items step.now (memo_at memos.new.items x)) }
{
    catch_up_at(memos, rows.as_slice(), step, slot)?;
    let kept = &memos[slot];
    if kept.serves(step, rows.len() + 1) {
        return Ok(slot);
    }
    let memo = memo_for(alloc, index, rows, step)?;
    Ok(keep_memo(memos, slot, memo))
}

/// The place of a memo of a step that is as new as the rows: of one that was there, or of a new one.
pub(crate) fn look_up(
    alloc: Global,
    memos: &mut Vec<Memo>,
    index: &mut Index,
    rows: &mut Vec<Row>,
    step: &Footprint,
) -> Result<usize, OutOfMemory>
    requires marked { AreMarked index.old.shelves.items index.old.marks.keys rows.old.items }
    requires memos { AreMemos rows.old.items memos.old.items }
    ensures marked { AreMarked index.new.shelves.items index.new.marks.keys rows.new.items }
    ensures grown { IsGrown rows.old.items rows.new.items }
    ensures memos { AreMemos rows.new.items memos.new.items }
    ensures within { IfOk result (λ x. x < length memos.new.items) }
    ensures memo { IfOk result (λ x. IsMemoOf rows.new.items step.now (memo_at memos.new.items x)) }
{
    fill(alloc, memos)?;
    let slot = slot_of(step);
    let kept = &memos[slot];
    if kept.serves(step, rows.len() + 1) {
        return Ok(slot);
    }
    look_further(alloc, memos, index, rows, step, slot)
}
