//! Hints: for a lock, or for an address that is accessed atomically, the step that acted on it last. A step follows
//! that one first, since it mostly knows all that went before. There are few hints, so that one may be of another lock
//! or address: whether an edge leads from the step that it names is looked at.

ghost use Rattle.std.specs.Prelude.{◌≡◌, ◌≢◌, ℕ, ◌+◌, ◌<◌, ◌≤◌, ◌^◌, IfOk, IfSome, IsFalse, IsTrue, OnErr, OnOk, length, slice_index};
ghost use Rattle.mr_event.specs.Order.{Edge, thread_at};
ghost use Rattle.mr_clocks.specs.Clocks.{AreClocks, AreLatest, IsPart, IsUnder, clock_at};

use crate::analysis::{is_under, lent};
use crate::clock::{Clock, extend_past};
use crate::following::follow_edge;
use crate::order::edge;
use mr_base::Access;
use mr_event::{Event, Footprint, OutOfMemory, thread_at};

// How many hints there are.
const HINTS: u32 = 1024;

/// The places of the hint that a step asks, and of the one that it changes: past all hints where there is no such.
#[derive(Clone, Copy)]
pub(crate) struct Slots {
    asked: u32,
    noted: u32,
}

// The place of the hint for an address.
fn slot_of_address(addr: u64) -> u32
    ensures { result < 1024 }
{
    (addr / 4 % 1024 + addr / 4096 % 1024) as u32 % HINTS
}

// The place of the hint for the first atomic access of some, or for the first atomic store.
fn slot_of_atomic(accesses: &[Access], stores: bool) -> u32
    ensures { result ≤ 1024 }
{
    for x in 0..accesses.len() {
        let access = accesses[x];
        if access.atomic && (access.store || !stores) {
            return slot_of_address(access.addr);
        }
    }
    HINTS
}

// The place of the hint for a step, if it acts on a lock, or accesses an address atomically, or if it stores so.
fn slot_of(step: &Footprint, stores: bool) -> u32
    ensures { result ≤ 1024 }
{
    match step.event() {
        Event::CreateLock(lock) | Event::Acquire(lock) | Event::Release(lock) => lock % HINTS,
        Event::Quiet | Event::Spawn(_) | Event::Join(_) => {
            slot_of_atomic(step.accesses(), stores)
        }
    }
}

/// No places.
pub(crate) fn no_slots() -> Slots
    ensures asked { result.asked ≡ 1024 }
    ensures noted { result.noted ≡ 1024 }
{
    Slots {
        asked: HINTS,
        noted: HINTS,
    }
}

/// The places for a step: it asks about a lock or an address that it accesses atomically, and notes itself where it
/// acts on a lock or stores atomically.
pub(crate) fn slots_of(step: &Footprint) -> Slots
    ensures asked { result.asked ≤ 1024 }
    ensures noted { result.noted ≤ 1024 }
{
    Slots {
        asked: slot_of(step, false),
        noted: slot_of(step, true),
    }
}

// One more than the step that the hint at a place names, or 0.
fn hint_at(hints: &[u32], slot: u32) -> u32
    ensures { result ≡ slice_index hints.now slot }
{
    match hints.get(slot as usize) {
        Some(after) => *after,
        None => 0,
    }
}

// Whether the clock of the step before in j's thread knows step `i`.
fn is_known_before(
    run: &[Footprint],
    clocks: &[Clock],
    numbers: &[u32],
    latest: &Clock,
    i: usize,
    j: usize,
) -> bool
    requires order { i < j }
    requires within { j < length run.now }
    requires clocks { AreClocks run.now j clocks.now numbers.now }
    requires latest { AreLatest run.now j latest.now }
    ensures { IsTrue result → (p : ℕ) → slice_index latest.now (thread_at run.now j) ≡ p + 1
        → IsUnder run.now (clock_at clocks.now numbers.now p) i }
{
    let next = latest.at(thread_at(run, j));
    if next == 0 {
        return false;
    }
    is_under(run, lent(clocks, numbers, next as usize - 1), i)
}

// Whether an edge leads from step `i` of another thread to step `j`, and the clock of the step before in j's thread
// doesn't know step `i`.
fn leads_anew(
    run: &[Footprint],
    clocks: &[Clock],
    numbers: &[u32],
    latest: &Clock,
    i: usize,
    j: usize,
) -> bool
    requires order { i < j }
    requires within { j < length run.now }
    requires clocks { AreClocks run.now j clocks.now numbers.now }
    requires latest { AreLatest run.now j latest.now }
    ensures { IsTrue result → Edge run.now i j }
{
    let thread = thread_at(run, i);
    if thread == thread_at(run, j) {
        return false;
    }
    if is_known_before(run, clocks, numbers, latest, i, j) {
        return false;
    }
    let next = latest.at(thread_at(run, j)) as usize;
    edge(run, i, j, next)
}

// A step of another thread to follow first, which the clock of the step before in j's thread doesn't know, if the hint
// at a place names one.
fn named_by(
    run: &[Footprint],
    clocks: &[Clock],
    numbers: &[u32],
    latest: &Clock,
    hints: &[u32],
    slot: u32,
    j: usize,
) -> Option<usize>
    requires within { j < length run.now }
    requires clocks { AreClocks run.now j clocks.now numbers.now }
    requires latest { AreLatest run.now j latest.now }
    ensures { IfSome result (λ i. Edge run.now i j) }
{
    let after = hint_at(hints, slot) as usize;
    if after == 0 || after > j {
        return None;
    }
    let i = after - 1;
    if leads_anew(run, clocks, numbers, latest, i, j) {
        return Some(i);
    }
    None
}

/// The same by the hint that a step asks, if there is one.
#[inline(always)]
pub(crate) fn hinted(
    run: &[Footprint],
    clocks: &[Clock],
    numbers: &[u32],
    latest: &Clock,
    hints: &[u32],
    slots: Slots,
    j: usize,
) -> Option<usize>
    requires within { j < length run.now }
    requires clocks { AreClocks run.now j clocks.now numbers.now }
    requires latest { AreLatest run.now j latest.now }
    ensures { IfSome result (λ i. Edge run.now i j) }
{
    if slots.asked >= HINTS {
        return None;
    }
    named_by(run, clocks, numbers, latest, hints, slots.asked, j)
}

/// Follows the step that a hint names, if there is one, unless the clock knows it. Tells whether the clock changed.
pub(crate) fn follow_hint(
    run: &[Footprint],
    clocks: &[Clock],
    numbers: &[u32],
    hint: Option<usize>,
    clock: &mut Clock,
    j: usize,
) -> Result<bool, OutOfMemory>
    requires within { j < length run.now }
    requires few { length run.now < 2 ^ 32 }
    requires clocks { AreClocks run.now j clocks.now numbers.now }
    requires hint { IfSome hint (λ i. Edge run.now i j) }
    requires part { IsPart run.now clock.old j }
    ensures part { OnOk result (IsPart run.now clock.new j) }
    ensures kept { OnOk result ((m : ℕ) → IsUnder run.now clock.old m → IsUnder run.now clock.new m) }
    ensures same { IfOk result (λ changed. IsFalse changed → clock.new ≡ clock.old) }
{
    match hint {
        Some(i) => {
            if is_under(run, &*clock, i) {
                return Ok(false);
            }
            follow_edge(run, clocks, numbers, i, clock, j)?;
            Ok(true)
        }
        None => Ok(false),
    }
}

/// Makes the table of hints, where it isn't there.
pub(crate) fn fill_hints(hints: &mut Vec<u32>) -> Result<(), OutOfMemory>
    ensures all { OnOk result (1024 ≤ length hints.new.items) }
    ensures same { OnOk result ((m : ℕ) → slice_index hints.new.items m ≡ slice_index hints.old.items m) }
    ensures err { OnErr result (hints.new.items ≡ hints.old.items) }
{
    if hints.len() >= HINTS as usize {
        return Ok(());
    }
    extend_past(hints, HINTS as usize - 1)
}

/// Lets the hint that a step changes name step `j`, if there is one.
pub(crate) fn note_hint(hints: &mut Vec<u32>, slots: Slots, j: usize)
    requires { j + 1 < 2 ^ 32 }
    ensures here { slots.noted < length hints.old.items → slice_index hints.new.items slots.noted ≡ j + 1 }
    ensures others { (m : ℕ) → m ≢ slots.noted → slice_index hints.new.items m ≡ slice_index hints.old.items m }
{
    let slot = slots.noted as usize;
    if slot < hints.len() {
        hints[slot] = j as u32 + 1;
    }
}
