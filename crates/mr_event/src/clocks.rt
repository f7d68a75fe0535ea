//! The clocks of the steps of a run. (Lamport; FastTrack: vector clocks.)

ghost use Rattle.std.specs.Prelude.{◌≡◌, ℕ, [], ◌+◌, ◌^◌, ◌<◌, ◌≤◌, ◌↔◌, IsTrue, IfOk, MatchOption, OnErr, OnOk, ⊤, length, max, slice_index_or};
ghost use Rattle.mr_event.specs.Order.{thread_at, Edge};
ghost use Rattle.mr_event.specs.Clocks.{AreClocks, AreSlots, Follows, IsBelow, IsClock, IsJoin};

use crate::OutOfMemory;
use crate::footprint::Footprint;
use crate::order::edge;
use crate::steps::thread_at;
use std::alloc::Global;
use std::marker::Model;

/// The entry of each thread that has a step in a run, by its slot.
#[derive(Drop)]
pub(crate) struct Clock {
    entries: Vec<usize>,
}

impl Model for Clock {
    ghost use Rattle.std.specs.Prelude.{List, ℕ};

    ghost Value = { List ℕ };

    ghost view = { λ c. c.entries.items };
}

/// The slot of each step of a run, and how many slots there are.
#[derive(Drop)]
pub(crate) struct Slots {
    pub of: Vec<usize>,
    pub count: usize,
}

// The nearest step before step `i` that is of its thread.
fn last_of_thread(run: &[Footprint], i: usize) -> Option<usize>
    requires { i < length run.now }
    ensures { MatchOption result ⊤ (λ m. (m < i) × (thread_at run.now m ≡ thread_at run.now i)) }
{
    for m in (0..i).rev() {
        if thread_at(run, m) == thread_at(run, i) {
            return Some(m);
        }
    }
    None
}

/// The slots of the steps of a run.
pub(crate) fn slots_of(alloc: Global, run: &[Footprint]) -> Result<Slots, OutOfMemory>
    ensures { IfOk result (λ s. AreSlots run.now s.of.items s.count) }
{
    let mut of = Vec::new(alloc);
    let mut count = 0;
    for i in 0..run.len() {
        let slot = match last_of_thread(run, i) {
            Some(m) => of[m],
            None => count,
        };
        count = count.max(slot + 1);
        of.push(slot)?;
    }
    Ok(Slots { of, count })
}

/// Whether step `i` lies below a clock.
pub(crate) fn is_below(slots: &Slots, clock: &Clock, i: usize) -> bool
    requires step { i < length slots.now.of.items }
    requires slot { slice_index_or slots.now.of.items i 0 < length clock.now }
    ensures { IsTrue result ↔ IsBelow slots.now.of.items clock.now i }
{
    let slot = slots.of[i];
    i < clock.entries[slot]
}

impl Clock {
    // Nothing lies below it.
    fn empty(alloc: Global, count: usize) -> Result<Clock, OutOfMemory>
        ensures width { IfOk result (λ c. length c ≡ count) }
        ensures entries { IfOk result (λ c. (s : ℕ) → slice_index_or c s 0 ≡ 0) }
    {
        Ok(Clock {
            entries: vec![in alloc; 0; count]?,
        })
    }

    // Raises each entry to that of another clock.
    fn join(&mut self, other: &Clock)
        requires { length other.now ≡ length self.now }
        ensures { IsJoin self.old other.now self.new }
    {
        for s in 0..other.entries.len() {
            self.entries[s] = self.entries[s].max(other.entries[s]);
        }
    }

    // Brings step `i` of a slot, and all that lies below its own clock, below this one.
    fn follow(&mut self, other: &Clock, slot: usize, i: usize)
        requires width { length other.now ≡ length self.now }
        requires slot { slot < length self.now }
        requires step { i + 1 < 2 ^ 64 }
        ensures { Follows self.old other.now slot i self.new }
    {
        self.join(other);
        self.entries[slot] = i + 1;
    }
}

// The clock of step `k`, from those of the steps before it: from the last one down, a step that doesn't lie below what is
// known happens before step `k` exactly where an edge leads from it to `k`.
fn clock_of(
    alloc: Global,
    run: &[Footprint],
    slots: &Slots,
    clocks: &[Clock],
    k: usize,
) -> Result<Clock, OutOfMemory>
    requires slots { AreSlots run.now slots.now.of.items slots.now.count }
    requires clocks { AreClocks run.now slots.now.of.items slots.now.count clocks.now }
    requires known { length clocks.now ≡ k }
    requires within { k < length run.now }
    ensures width { IfOk result (λ c. length c ≡ slots.now.count) }
    ensures clock { IfOk result (λ c. IsClock run.now slots.now.of.items c k) }
{
    let mut clock = Clock::empty(alloc, slots.count)?;
    for i in (0..k).rev() {
        if !is_below(slots, &clock, i) && edge(run, i, k) {
            clock.follow(&clocks[i], slots.of[i], i);
        }
    }
    Ok(clock)
}

/// Adds the clocks that are still missing, up to that of step `k`.
pub(crate) fn extend(
    alloc: Global,
    run: &[Footprint],
    slots: &Slots,
    clocks: &mut Vec<Clock>,
    k: usize,
) -> Result<(), OutOfMemory>
    requires slots { AreSlots run.now slots.now.of.items slots.now.count }
    requires clocks { AreClocks run.now slots.now.of.items slots.now.count clocks.now.items }
    requires within { k < length run.now }
    ensures clocks { OnOk result (AreClocks run.now slots.now.of.items slots.now.count clocks.new.items) }
    ensures known { OnOk result (k < length clocks.new.items) }
{
    for j in clocks.len()..k + 1 {
        let clock = clock_of(alloc, run, slots, clocks.as_slice(), j)?;
        clocks.push(clock)?;
    }
    Ok(())
}
