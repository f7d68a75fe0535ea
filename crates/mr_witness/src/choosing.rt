//! The choice of a witness's entries, which are copied from the recorded schedule.

ghost use Rattle.std.specs.Prelude.{◌≡◌, ◌<◌, ◌≤◌, ◌∷◌, ◌&&◌, ◌==◌, not, false, List, IfOk, length, map, slice_index_or};
ghost use Rattle.std.specs.Prelude.{Contains};
ghost use Rattle.std.specs.List.{filter};
ghost use Rattle.mr_ast.specs.declared.program.Program.{Program};
ghost use Rattle.mr_event.specs.declared.footprint.Pair.{Pair as PairOf};
ghost use Rattle.mr_event.specs.Order.{places};
ghost use Rattle.mr_event.specs.Predicted.{predicted};
ghost use Rattle.mr_exchange.specs.StartRuns.{Legal, steps_of};
ghost use Rattle.mr_witness.specs.TypingWalk.{WellFormed};
ghost use Rattle.mr_exchange.specs.Witness.{IsWitness, entry_at, kept_schedule};

use mr_clocks::follows;
use mr_event::{Footprint, OutOfMemory, Pair};
use mr_sched::{Entry, Items, Schedule};
use std::alloc::Global;

/// A copy of the entry at a place.
pub fn entry_copied(alloc: Global, entries: &[Entry], k: usize) -> Result<Entry, OutOfMemory>
    requires { k < length entries.now }
    ensures { IfOk result (λ copy. copy ≡ entry_at entries.now k) }
{
    let entry = &entries[k];
    let picks = Items::from_slice(alloc, entry.picks.as_slice())?;
    Ok(Entry {
        thread: entry.thread,
        picks,
    })
}

// Whether the step at a place is neither marked nor the first of the pair.
fn is_kept(marked: &[bool], pair: Pair, k: usize) -> bool
    requires { k < length marked.now }
    ensures { result ≡ (not (slice_index_or marked.now k false) && not (k == pair.first)) }
{
    !marked[k] && k != pair.first
}

// The entries before the second step of the pair, but the first one's, that are not marked, in recorded order.
fn unmarked(
    alloc: Global,
    marked: &[bool],
    entries: &[Entry],
    pair: Pair,
) -> Result<Items<Entry>, OutOfMemory>
    requires marks { pair.second < length marked.now }
    requires within { pair.second < length entries.now }
    ensures { IfOk result (λ chosen. chosen ≡ map (entry_at entries.now)
        (filter (λ k. not (slice_index_or marked.now k false) && not (k == pair.first)) (places pair.second))) }
{
    let mut chosen = Items::new(alloc);
    for k in 0..pair.second {
        if is_kept(marked, pair, k) {
            let entry = entry_copied(alloc, entries, k)?;
            chosen.push(entry)?;
        }
    }
    Ok(chosen)
}

/// The kept schedule for a race of a run, of which this is the schedule: of the entries before the race's second step
/// those that its first step doesn't happen before, in recorded order, and then those of the two steps. For the first
/// race of the run it is a witness.
pub fn witness(
    alloc: Global,
    run: &[Footprint],
    s: &Schedule,
    pair: Pair,
) -> Result<Schedule, OutOfMemory>
    requires many { length run.now ≤ length s.now.entries }
    requires listed { Contains (predicted run.now) pair }
    ensures kept { IfOk result (λ v. v ≡ kept_schedule run.now s.now pair.first pair.second) }
    ensures witness { IfOk result (λ v. (p : Program) → WellFormed p → Legal p s.now
        → steps_of p s.now ≡ run.now → (rest : List PairOf) → predicted run.now ≡ pair ∷ rest
        → IsWitness p s.now pair.first pair.second v) }
{
    let marked = follows(alloc, run, pair.first)?;
    let recorded = s.entries.as_slice();
    let mut entries = unmarked(alloc, &marked, recorded, pair)?;
    let first = entry_copied(alloc, recorded, pair.first)?;
    entries.push(first)?;
    let second = entry_copied(alloc, recorded, pair.second)?;
    entries.push(second)?;
    let start = Items::from_slice(alloc, s.start.as_slice())?;
    Ok(Schedule { start, entries })
}
