//! The order of a witness.
ghost use Rattle.std.specs.Prelude.{◌≡◌, ◌-◌, ◌<◌, ◌++◌, ◌∷◌, [], IfOk, OnOk, if◌then◌else◌, length};
ghost use Rattle.std.specs.List.{filter, range_with_len};
ghost use Rattle.mr_clocks.specs.Tracked.{Tracks};
ghost use Rattle.mr_picture.specs.Span.{steps_in};
ghost use Rattle.mr_picture.specs.Witness.{is_left_out, is_other, left_out, witness_steps};

use crate::OutOfMemory;
use crate::order::is_before;
use crate::span::Span;
use mr_clocks::Analysis;
use mr_event::{Footprint, Pair};
use std::alloc::Global;

// Whether a step before the second one of a race is in its witness, and isn't its first one.
fn is_other(run: &[Footprint], order: &Analysis, race: Pair, step: usize) -> bool
    requires first { race.first < length run.now }
    requires step { step < length run.now }
    requires tracks { Tracks order.now run.now }
    ensures { result ≡ is_other run.now race step }
{
    !is_before(run, order, race.first, step) && step != race.first
}

// Adds a step that passes a test.
fn push_if(found: &mut Vec<usize>, step: usize, passes: bool) -> Result<(), OutOfMemory>
    ensures { OnOk result (found.new.items ≡ found.old.items ++ (if passes then step ∷ [] else [])) }
{
    if passes {
        found.push(step)?;
    }
    Ok(())
}

// The steps from a place on that the witness has before the two of the race.
fn others(
    alloc: Global,
    run: &[Footprint],
    order: &Analysis,
    race: Pair,
    from: usize,
) -> Result<Vec<usize>, OutOfMemory>
    requires first { race.first < length run.now }
    requires second { race.second < length run.now }
    requires tracks { Tracks order.now run.now }
    ensures { IfOk result (λ found. found.items
        ≡ filter (is_other run.now race) (range_with_len from (race.second - from))) }
{
    let mut found = Vec::new(alloc);
    for step in from..race.second {
        push_if(&mut found, step, is_other(run, order, race, step))?;
    }
    Ok(found)
}

/// The steps from a place on that the witness for a race has, in its order. An `Err` is for want of memory.
pub fn witness_steps(
    alloc: Global,
    run: &[Footprint],
    order: &Analysis,
    race: Pair,
    from: usize,
) -> Result<Vec<usize>, OutOfMemory>
    requires first { race.first < length run.now }
    requires second { race.second < length run.now }
    requires tracks { Tracks order.now run.now }
    ensures { IfOk result (λ found. found.items ≡ witness_steps run.now race from) }
{
    let mut found = others(alloc, run, order, race, from)?;
    found.push(race.first)?;
    found.push(race.second)?;
    Ok(found)
}

// Whether the witness for a race leaves a step out.
fn is_left_out(run: &[Footprint], order: &Analysis, race: Pair, step: usize) -> bool
    requires first { race.first < length run.now }
    requires second { race.second < length run.now }
    requires tracks { Tracks order.now run.now }
    ensures { result ≡ is_left_out run.now race step }
{
    race.second < step || (step < race.second && is_before(run, order, race.first, step))
}

/// The steps of a part that the witness for a race leaves out. An `Err` is for want of memory.
pub fn left_out(
    alloc: Global,
    run: &[Footprint],
    order: &Analysis,
    race: Pair,
    span: Span,
) -> Result<Vec<usize>, OutOfMemory>
    requires first { race.first < length run.now }
    requires second { race.second < length run.now }
    requires tracks { Tracks order.now run.now }
    ensures { IfOk result (λ found. found.items ≡ left_out run.now race span) }
{
    let mut found = Vec::new(alloc);
    for step in span.from..span.to {
        push_if(&mut found, step, is_left_out(run, order, race, step))?;
    }
    Ok(found)
}
