//! The run of a number, and what it shows.
ghost use Rattle.std.specs.Prelude.{◌≡◌, ◌++◌, ◌≤◌, ◌^◌, IfOk, OnOk, length, map, option_copied, slice_get};
ghost use Rattle.mr_auto.specs.StartRuns.{Legal, run_of};
ghost use Rattle.mr_auto.specs.Drawing.{drawn_schedule};
ghost use Rattle.mr_listing.specs.Races.{before_of};
ghost use Rattle.mr_rust_order.specs.Tests.{rust_races};
ghost use Rattle.mr_replay.specs.Stands.{stands_of};
ghost use Rattle.mr_hunt.specs.Ends.{ends_of, race_at};

use crate::ends::End;
use mr_auto::draw;
use mr_base::Verdict;
use mr_event::{Footprint, Pair};
use mr_labels::Stand;
use mr_replay::stands;
use mr_run::{Clocked, Nothing, RunFault};
use mr_rust_order::races;
use mr_sched::Schedule;
use mr_typing::Checked;
use std::alloc::{AllocError, Global};

/// What the run of a number shows, whose schedule is drawn with at most so many entries.
pub(crate) fn ends_of(
    alloc: Global,
    p: &Checked,
    most: u32,
    number: u64,
) -> Result<Vec<End>, AllocError>
    requires { most ≤ 2 ^ 20 }
    ensures { IfOk result (λ ends. ends.items ≡ ends_of p.now most number) }
{
    let mut kept = Clocked::new(alloc);
    let drawn = draw(alloc, p, number, most, &mut kept)?;
    let mut ends = Vec::new(alloc);
    ends.push(End::Verdict(drawn.machine.verdict()))?;
    push_races(alloc, p, &drawn.schedule, kept.races(), &mut ends)?;
    Ok(ends)
}

/// The verdict of the run of a number, of whose steps nothing is kept.
pub(crate) fn verdict_of(
    alloc: Global,
    p: &Checked,
    most: u32,
    number: u64,
) -> Result<Verdict, AllocError>
    requires { most ≤ 2 ^ 20 }
    ensures { IfOk result (λ verdict. verdict ≡ (run_of p.now (drawn_schedule p.now number most)).verdict) }
{
    let mut nothing = Nothing;
    let drawn = draw(alloc, p, number, most, &mut nothing)?;
    Ok(drawn.machine.verdict())
}

// Appends the races of a run by their places. Where there is none, the run isn't made again.
fn push_races(
    alloc: Global,
    p: &Checked,
    w: &Schedule,
    races: &[Pair],
    ends: &mut Vec<End>,
) -> Result<(), AllocError>
    requires few { length w.now.entries ≤ 2 ^ 22 }
    requires legal { Legal p.now w.now }
    ensures { OnOk result (ends.new.items ≡ ends.old.items ++ map (race_at (stands_of p.now w.now)) races.now) }
{
    if races.is_empty() {
        return Ok(());
    }
    let stands = stood(alloc, p, w)?;
    push_each(ends, stands.as_slice(), races)
}

// Appends races by their places, of a run whose threads stood so before its steps.
fn push_each(
    ends: &mut Vec<End>,
    stands: &[Option<Stand>],
    races: &[Pair],
) -> Result<(), AllocError>
    ensures { OnOk result (ends.new.items ≡ ends.old.items ++ map (race_at stands.now) races.now) }
{
    for pair in races {
        ends.push(race_at(stands, *pair))?;
    }
    Ok(())
}

// A race by its places.
fn race_at(stands: &[Option<Stand>], pair: Pair) -> End
    ensures { result ≡ race_at stands.now pair }
{
    End::Race {
        first: before_of(stands, pair.first),
        second: before_of(stands, pair.second),
    }
}

// Where the thread of a step stood before it, where there is such a step.
fn before_step(stand: Option<&Option<Stand>>) -> Option<Stand>
    ensures { result ≡ before_of (option_copied stand.entry) }
{
    match stand {
        Some(stand) => *stand,
        None => None,
    }
}

// The same of the step of this number.
fn before_of(stands: &[Option<Stand>], number: usize) -> Option<Stand>
    ensures { result ≡ before_of (slice_get stands.now number) }
{
    before_step(stands.get(number))
}

/// Where the threads of the steps stood, of the run under a legal schedule.
pub(crate) fn stood(
    alloc: Global,
    p: &Checked,
    w: &Schedule,
) -> Result<Vec<Option<Stand>>, AllocError>
    requires few { length w.now.entries ≤ 2 ^ 22 }
    requires legal { Legal p.now w.now }
    ensures { IfOk result (λ found. found.items ≡ stands_of p.now w.now) }
{
    let mut nothing = Nothing;
    let mut found = Vec::new(alloc);
    match stands(alloc, p, w, &mut nothing, &mut found) {
        Ok(_) => Ok(found),
        Err(RunFault::Broken { .. }) => unreachable!(),
        Err(RunFault::Memory) => Err(AllocError),
    }
}

/// The races of a run with these footprints by Rust's order.
pub(crate) fn by_rust(alloc: Global, run: &[Footprint]) -> Result<Vec<Pair>, AllocError>
    ensures { IfOk result (λ found. found.items ≡ rust_races run.now) }
{
    races(alloc, run)
}
