//! The choice of the short witness's entries, which are copied from the recorded schedule.

ghost use Rattle.std.specs.Prelude.{◌≡◌, ◌+◌, ◌<◌, ◌≤◌, ◌∷◌, ◌&&◌, ◌==◌, not, true, false, List, IfOk, length, map, slice_index_or};
ghost use Rattle.std.specs.Prelude.{Contains};
ghost use Rattle.std.specs.List.{filter};
ghost use Rattle.mr_ast.specs.declared.program.Program.{Program};
ghost use Rattle.mr_event.specs.declared.footprint.Pair.{Pair as PairOf};
ghost use Rattle.mr_event.specs.Order.{places};
ghost use Rattle.mr_event.specs.Predicted.{predicted};
ghost use Rattle.mr_sched.specs.declared.schedule.Entry.{Entry as EntryOf};
ghost use Rattle.mr_exchange.specs.StartRuns.{Legal, steps_of};
ghost use Rattle.mr_witness.specs.TypingWalk.{WellFormed};
ghost use Rattle.mr_exchange.specs.Witness.{IsWitness, entry_at, kept_schedule};
ghost use Rattle.mr_witness.specs.Marks.{AreEnds, AreMarks};
ghost use Rattle.mr_witness.specs.Short.{short_schedule};

use crate::entry_copied;
use mr_clocks::{RunOrder, are_rivals};
use mr_event::{Footprint, OutOfMemory, Pair};
use mr_sched::{Entry, Items, Schedule};
use std::alloc::Global;

// The rivals of step `j` before it, and step `j`.
fn ends_of(alloc: Global, run: &[Footprint], j: usize) -> Result<Vec<usize>, OutOfMemory>
    requires { j < length run.now }
    ensures { IfOk result (λ v. AreEnds run.now j v.items) }
{
    let mut ends = Vec::new(alloc);
    for k in 0..j {
        if are_rivals(run, k, j) {
            ends.push(k)?;
        }
    }
    ends.push(j)?;
    Ok(ends)
}

// For each step whether it is step `j` or a rival of it, or happens before one of these.
fn marks_of(alloc: Global, run: &[Footprint], j: usize) -> Result<Vec<bool>, OutOfMemory>
    requires { j < length run.now }
    ensures { IfOk result (λ v. AreMarks run.now j v.items) }
{
    let ends = ends_of(alloc, run, j)?;
    let before = RunOrder::of_run(alloc, run)?;
    let marks = before.needed(alloc, run, ends.as_slice())?;
    Ok(marks)
}

// Whether the step at a place is marked and not the first of the pair.
fn is_chosen(marks: &[bool], pair: Pair, k: usize) -> bool
    requires { k < length marks.now }
    ensures { result ≡ (slice_index_or marks.now k false && not (k == pair.first)) }
{
    marks[k] && k != pair.first
}

// The entries before the second step of the pair, but the first one's, that are marked, in recorded order.
fn chosen(
    alloc: Global,
    marks: &[bool],
    entries: &[Entry],
    pair: Pair,
) -> Result<Items<Entry>, OutOfMemory>
    requires marks { pair.second < length marks.now }
    requires within { pair.second < length entries.now }
    ensures { IfOk result (λ copies. copies ≡ map (entry_at entries.now)
        (filter (λ k. slice_index_or marks.now k false && not (k == pair.first)) (places pair.second))) }
{
    let mut copies = Items::new(alloc);
    for k in 0..pair.second {
        if is_chosen(marks, pair, k) {
            let entry = entry_copied(alloc, entries, k)?;
            copies.push(entry)?;
        }
    }
    Ok(copies)
}

/// The short schedule for a race of a run, of which this is the schedule: of the entries before the race's second
/// step those of the steps that happen before one of its steps, of the second step's partners, and of those that
/// happen before a partner, in recorded order, and then those of the two steps. For the first race of the run it is a
/// witness.
pub fn short(
    alloc: Global,
    run: &[Footprint],
    s: &Schedule,
    pair: Pair,
) -> Result<Schedule, OutOfMemory>
    requires many { length run.now ≤ length s.now.entries }
    requires listed { Contains (predicted run.now) pair }
    ensures short { IfOk result (λ v. v ≡ short_schedule run.now s.now pair.first pair.second) }
    ensures witness { IfOk result (λ v. (p : Program) → WellFormed p → Legal p s.now
        → steps_of p s.now ≡ run.now → (rest : List PairOf) → predicted run.now ≡ pair ∷ rest
        → IsWitness p s.now pair.first pair.second v) }
    ensures among { IfOk result (λ v. (e : EntryOf) → Contains v.entries e
        → Contains (kept_schedule run.now s.now pair.first pair.second).entries e) }
    ensures no_longer { IfOk result
        (λ v. length v.entries ≤ length (kept_schedule run.now s.now pair.first pair.second).entries) }
{
    let marks = marks_of(alloc, run, pair.second)?;
    let recorded = s.entries.as_slice();
    let mut entries = chosen(alloc, &marks, recorded, pair)?;
    let first = entry_copied(alloc, recorded, pair.first)?;
    entries.push(first)?;
    let second = entry_copied(alloc, recorded, pair.second)?;
    entries.push(second)?;
    let start = Items::from_slice(alloc, s.start.as_slice())?;
    Ok(Schedule { start, entries })
}
