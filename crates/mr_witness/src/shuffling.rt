//! The schedule in another order, whose entries are copied from the recorded one.

ghost use Rattle.std.specs.Prelude.{◌≡◌, ◌+◌, ◌<◌, ◌≤◌, ◌++◌, [], ℕ, List, All, IfOk, OnOk, length, map, drop};
ghost use Rattle.mr_ast.specs.declared.program.Program.{Program};
ghost use Rattle.mr_event.specs.Order.{IsRearrangement};
ghost use Rattle.mr_event.specs.Predicted.{predicted};
ghost use Rattle.mr_exchange.specs.StartRuns.{Legal, steps_of};
ghost use Rattle.mr_witness.specs.TypingWalk.{WellFormed};
ghost use Rattle.mr_exchange.specs.Witness.{entry_at};
ghost use Rattle.mr_witness.specs.EveryOrder.{ComesToTheSame};
ghost use Rattle.mr_witness.specs.Shuffled.{shuffled, shuffled_order as drawn_order};

use crate::entry_copied;
use crate::placing::shuffled_order;
use mr_event::{Footprint, OutOfMemory};
use mr_sched::{Entry, Items, Schedule};
use std::alloc::Global;

// Copies of the entries at these places, in this order.
fn entries_at(
    alloc: Global,
    entries: &[Entry],
    order: &[usize],
) -> Result<Items<Entry>, OutOfMemory>
    requires { All (λ k. k < length entries.now) order.now }
    ensures { IfOk result (λ copies. copies ≡ map (entry_at entries.now) order.now) }
{
    let mut copies = Items::new(alloc);
    for k in order {
        let entry = entry_copied(alloc, entries, *k)?;
        copies.push(entry)?;
    }
    Ok(copies)
}

// Copies of the entries at these places, and behind them of the entry that itself stopped, where there are more entries than
// completed steps.
fn reordered(
    alloc: Global,
    entries: &[Entry],
    order: &[usize],
    completed: usize,
) -> Result<Items<Entry>, OutOfMemory>
    requires places { All (λ k. k < length entries.now) order.now }
    requires many { length entries.now ≤ completed + 1 }
    ensures { IfOk result (λ copies. copies ≡ map (entry_at entries.now) order.now ++ drop completed entries.now) }
{
    let mut copies = entries_at(alloc, entries, order)?;
    if completed < entries.len() {
        let last = entry_copied(alloc, entries, completed)?;
        copies.push(last)?;
    }
    Ok(copies)
}

/// The schedule of a run in another order, which is drawn from a number: the same start line, the entries of the completed
/// steps, each behind those of all steps that happen before it, and then the entry that itself stopped, where the run has one.
pub fn shuffle(
    alloc: Global,
    run: &[Footprint],
    s: &Schedule,
    number: u64,
) -> Result<Schedule, OutOfMemory>
    requires few { length run.now ≤ length s.now.entries }
    requires many { length s.now.entries ≤ length run.now + 1 }
    ensures shuffled { IfOk result (λ v. v ≡ shuffled run.now s.now number) }
    ensures rearranged { OnOk result (IsRearrangement run.now (drawn_order run.now number)) }
    ensures same { IfOk result (λ v. (p : Program) → WellFormed p → Legal p s.now
        → steps_of p s.now ≡ run.now → predicted run.now ≡ [] → ComesToTheSame p s.now (drawn_order run.now number) v) }
{
    let order = shuffled_order(alloc, run, number)?;
    let recorded = s.entries.as_slice();
    let entries = reordered(alloc, recorded, order.as_slice(), run.len())?;
    let start = Items::from_slice(alloc, s.start.as_slice())?;
    Ok(Schedule { start, entries })
}
