//! Parts of a run.
ghost use Rattle.std.specs.Prelude.{◌≡◌, IfOk};
ghost use Rattle.std.specs.List.{filter};
ghost use Rattle.mr_picture.specs.Span.{holds_race, is_in, races_in};

use crate::OutOfMemory;
use mr_event::Pair;
use std::alloc::Global;

/// Numbers of steps, counted from 0: from one up to another, which is left out.
#[derive(Clone, Copy)]
pub struct Span {
    pub from: usize,
    pub to: usize,
}

// Whether a step is one of these.
fn is_in(span: Span, step: usize) -> bool
    ensures { result ≡ is_in span step }
{
    span.from <= step && step < span.to
}

// Whether both steps of a race are among these.
fn holds_race(span: Span, race: Pair) -> bool
    ensures { result ≡ holds_race span race }
{
    is_in(span, race.first) && is_in(span, race.second)
}

/// The races both of whose steps are among these. An `Err` is for want of memory.
pub fn races_in(alloc: Global, span: Span, races: &[Pair]) -> Result<Vec<Pair>, OutOfMemory>
    ensures { IfOk result (λ found. found.items ≡ races_in span races.now) }
{
    races
        .iter()
        .copied()
        .filter(|race| holds_race(span, *race))
        .collect(alloc)
}
