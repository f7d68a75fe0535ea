//! What is drawn of a run.
ghost use Rattle.std.specs.Prelude.{◌≡◌, ◌<◌, ◌^◌, ◌++◌, ◌∷◌, [], IfOk, OnOk, if◌then◌else◌, option_copied, slice_get};
ghost use Rattle.std.specs.List.{filter};
ghost use Rattle.mr_picture.specs.Scene.{begin_at, chosen, clipped, comes_to, done_in, is_of, near_in};
ghost use Rattle.mr_picture.specs.Scene.{race_in, takes_one, threads_of};
ghost use Rattle.mr_picture.specs.Span.{holds_race, is_in};

use crate::{OutOfMemory, Span};
use mr_event::{Footprint, Pair};
use mr_sched::Items;
use std::alloc::Global;

/// A run as it is drawn.
#[derive(Clone, Copy)]
pub struct Sketch<'a> {
    /// How many steps it has.
    pub count: usize,
    /// The footprints of those that completed.
    pub feet: &'a [Footprint],
    /// The races that it shows.
    pub races: &'a [Pair],
    /// The names of its threads, where they are known.
    pub names: &'a [u8],
    /// The text of its end.
    pub tail: &'a [u8],
}

/// What is drawn of a step.
#[derive(Drop)]
pub struct Drawn {
    /// Its number, counted from 0.
    pub number: usize,
    pub thread: u32,
    /// The thread that it started, if it started one.
    pub started: Option<u32>,
    /// Where its thread stood before it, on one line.
    pub stand: Items<u8>,
    /// What it did, each part behind a line feed.
    pub did: Items<u8>,
}

/// What is drawn of a run.
#[derive(Clone, Copy)]
pub(crate) struct Scene<'a> {
    pub sketch: &'a Sketch<'a>,
    /// Which steps are drawn.
    pub span: Span,
    /// Those of them that completed.
    pub done: Span,
    pub steps: &'a [Drawn],
    /// Their threads, by rising numbers.
    pub threads: &'a [u32],
    /// The listed races whose second step is drawn.
    pub near: &'a [Pair],
    /// The first listed race, if both of its steps are drawn.
    pub first: Option<Pair>,
}

// So many steps are drawn at most.
const MOST: usize = 500;

// The steps from one number up to another, as far as the run has them, and no more than `MOST`; none where the other is
// less.
fn clipped(count: usize, from: usize, to: usize) -> Span
    requires { count < 2 ^ 32 }
    ensures { result ≡ clipped count from to }
{
    let from = from.min(count);
    Span {
        from,
        to: to.min(count).min(from + MOST).max(from),
    }
}

// Where the part of a long run begins that has this first race.
fn begin_at(race: Option<Pair>) -> usize
    ensures { result ≡ begin_at race }
{
    match race {
        None => 0,
        Some(race) => {
            if race.second < MOST {
                0
            } else {
                race.second - 400
            }
        }
    }
}

/// The steps that are drawn of so many: those that are asked for, or else those about the first race; 500 at most.
pub fn chosen(count: usize, races: &[Pair], asked: Option<Span>) -> Span
    requires { count < 2 ^ 32 }
    ensures { result ≡ chosen count races.now asked }
{
    match asked {
        Some(span) => clipped(count, span.from, span.to),
        None => {
            if count <= MOST {
                clipped(count, 0, count)
            } else {
                clipped(count, begin_at(races.get(0).copied()), count)
            }
        }
    }
}

/// Whether a step is drawn.
pub(crate) fn is_in(span: Span, step: usize) -> bool
    ensures { result ≡ is_in span step }
{
    span.from <= step && step < span.to
}

// Whether a thread takes one of these steps.
fn takes_one(steps: &[Drawn], thread: u32) -> bool
    ensures { result ≡ takes_one steps.now thread }
{
    steps.iter().any(|step| step.thread == thread)
}

// Adds a thread that passes a test.
fn push_if(threads: &mut Vec<u32>, thread: u32, passes: bool) -> Result<(), OutOfMemory>
    ensures { OnOk result (threads.new.items ≡ threads.old.items ++ (if passes then thread ∷ [] else [])) }
{
    if passes {
        threads.push(thread)?;
    }
    Ok(())
}

/// The threads that take these steps, by rising numbers.
pub(crate) fn threads_of(alloc: Global, steps: &[Drawn]) -> Result<Vec<u32>, OutOfMemory>
    ensures { IfOk result (λ threads. threads.items ≡ threads_of steps.now) }
{
    let mut threads = Vec::new(alloc);
    for thread in 0..1024u32 {
        push_if(&mut threads, thread, takes_one(steps, thread))?;
    }
    Ok(threads)
}

/// The races whose second step is drawn.
pub(crate) fn near_in(alloc: Global, span: Span, races: &[Pair]) -> Result<Vec<Pair>, OutOfMemory>
    ensures { IfOk result (λ near. near.items ≡ near_in span races.now) }
{
    races
        .iter()
        .copied()
        .filter(|race| is_in(span, race.second))
        .collect(alloc)
}

/// Those drawn steps that completed, of so many.
pub(crate) fn done_in(span: Span, completed: usize) -> Span
    ensures { result ≡ done_in span completed }
{
    Span {
        from: span.from,
        to: span.to.min(completed),
    }
}

/// The footprint of the step of this number, if it completed.
pub(crate) fn foot_at(feet: &[Footprint], number: usize) -> Option<&Footprint>
    ensures { option_copied result ≡ slice_get feet.now number }
{
    feet.get(number)
}

/// Whether both steps of a race are among these.
pub(crate) fn holds_race(span: Span, race: Pair) -> bool
    ensures { result ≡ holds_race span race }
{
    is_in(span, race.first) && is_in(span, race.second)
}

/// A race, if both of its steps are among these.
pub(crate) fn race_in(done: Span, race: Option<Pair>) -> Option<Pair>
    ensures { result ≡ race_in done race }
{
    match race {
        None => None,
        Some(race) => {
            if holds_race(done, race) {
                Some(race)
            } else {
                None
            }
        }
    }
}
