//! What is told of the bytes of a trace, and of its places.
ghost use Rattle.std.specs.Prelude.{◌≡◌, ◌<◌, ◌≤◌, ◌^◌, ℕ, List, IfOk, Ok, bytes_eq, codes, length, option_copied, take};
ghost use Rattle.mr_event.specs.Footprint.{Footprint};
ghost use Rattle.mr_event.specs.Predicted.{predicted};
ghost use Rattle.mr_trace.specs.Reading.{trace_of};
ghost use Rattle.mr_trace.specs.Spelling.{Traces};
ghost use Rattle.mr_traced.specs.Answers.{Answers, Tells, TellsBy};
ghost use Rattle.mr_traced.specs.Drawn.{IsPictureText};
ghost use Rattle.mr_traced.specs.Orders.{IsOrdersText, count_either};
ghost use Rattle.mr_traced.specs.Places.{named, named_of};
ghost use Rattle.mr_traced.specs.Races.{IsRacesText};
ghost use Rattle.mr_traced.specs.Seen.{fitting, run_in, seen_bare, seen_in, seen_maybe, seen_of};
ghost use Rattle.mr_traced.specs.Steps.{IsStepsText};

use crate::OutOfMemory;
use crate::body::steps_text;
use crate::by_orders::orders_text;
use crate::drawn::picture_text;
use crate::form::{Places, read_places};
use crate::pairing::races_text;
use crate::refusal::{PlacesFault, Untold};
use mr_clocks::{Analysis, predicted_by_clocks};
use mr_event::Footprint;
use mr_picture::Span;
use mr_rust_order::races as races_by_rust;
use mr_trace::{TraceFault, decode};
use mr_two_orders::either;
use std::alloc::Global;

/// What is told: a text, and how many races the trace has.
#[derive(Drop)]
pub struct Told {
    pub text: Vec<u8>,
    pub races: usize,
}

/// Whether bytes begin as those of a trace do.
pub fn is_trace(bytes: &[u8]) -> bool
    ensures { result ≡ bytes_eq (take 4 bytes.now) (codes "MRTR") }
{
    match bytes.strip_prefix(b"MRTR".as_slice()) {
        Some(_) => true,
        None => false,
    }
}

/// The races of a trace by pairs of places, or why they aren't told.
pub fn races(alloc: Global, trace: &[u8], places: &[u8]) -> Result<Told, Untold>
    // What the bytes give, computed.
    ensures exact { Tells IsRacesText result (seen_in (run_in (trace_of trace.now)) (named_of places.now)) }

    // Of bytes that spell a run it is that run.
    ensures spelled { (run : List Footprint) → Traces trace.now run
        → Tells IsRacesText result (seen_in (Ok run) (named_of places.now)) }
{
    races_told(alloc, trace, places)
}

/// The steps of a trace from one number up to another, counted from 0, the last one left out; or why they aren't told.
pub fn steps(
    alloc: Global,
    trace: &[u8],
    places: Option<&[u8]>,
    from: usize,
    to: usize,
) -> Result<Told, Untold>
    // What the bytes give, computed.
    ensures exact { Tells (IsStepsText from to) result
        (seen_maybe (run_in (trace_of trace.now)) (option_copied places.entry)) }

    // Of bytes that spell a run it is that run.
    ensures spelled { (run : List Footprint) → Traces trace.now run
        → Tells (IsStepsText from to) result (seen_maybe (Ok run) (option_copied places.entry)) }
{
    match places {
        Some(text) => steps_placed(alloc, trace, text, from, to),
        None => steps_bare(alloc, trace, from, to),
    }
}

/// A picture of steps of a trace, of those that are asked for or, without any, of those about its first race; or why
/// there is none. A `Span` has the numbers from one up to another, counted from 0, the last one left out.
pub fn picture(
    alloc: Global,
    trace: &[u8],
    places: Option<&[u8]>,
    asked: Option<Span>,
) -> Result<Told, Untold>
    // What the bytes give, computed.
    ensures exact { Tells (IsPictureText asked) result
        (seen_maybe (run_in (trace_of trace.now)) (option_copied places.entry)) }

    // Of bytes that spell a run it is that run.
    ensures spelled { (run : List Footprint) → Traces trace.now run
        → Tells (IsPictureText asked) result (seen_maybe (Ok run) (option_copied places.entry)) }
{
    match places {
        Some(text) => picture_placed(alloc, trace, text, asked),
        None => picture_bare(alloc, trace, asked),
    }
}

/// The races of a trace by two orders, Rust's and the machine's: by pairs of places, or without a file of places race by
/// race; or why they aren't told.
pub fn orders(alloc: Global, trace: &[u8], places: Option<&[u8]>) -> Result<Told, Untold>
    // What the bytes give, computed.
    ensures exact { TellsBy count_either IsOrdersText result
        (seen_maybe (run_in (trace_of trace.now)) (option_copied places.entry)) }

    // Of bytes that spell a run it is that run.
    ensures spelled { (run : List Footprint) → Traces trace.now run
        → TellsBy count_either IsOrdersText result (seen_maybe (Ok run) (option_copied places.entry)) }
{
    match places {
        Some(text) => orders_placed(alloc, trace, text),
        None => orders_bare(alloc, trace),
    }
}

// The run of a trace.
fn run_of(alloc: Global, trace: &[u8]) -> Result<Vec<Footprint>, Untold>
    ensures run { Answers (λ v. v.items) result (run_in (trace_of trace.now)) }
    ensures few { IfOk result (λ v. length v.items ≤ 2 ^ 22) }
{
    match decode(alloc, trace) {
        Ok(run) => Ok(run),
        Err(TraceFault::Bad { at, code }) => Err(Untold::Trace { at, code }),
        Err(TraceFault::Memory) => Err(Untold::Memory),
    }
}

// Whether there is a site for each step.
fn fits(places: &Places<'_>, run: &[Footprint]) -> Result<(), Untold>
    ensures { Answers (λ u. seen_of run.now (named places.now)) result (fitting run.now (named places.now)) }
{
    let sites = places.sites.len();
    let steps = run.len();
    if sites == steps {
        Ok(())
    } else {
        Err(Untold::Places {
            fault: PlacesFault::Count { sites, steps },
        })
    }
}

#[tactic(auto, unfolding(crate::specs::Seen::seen_in))]
fn races_told(alloc: Global, trace: &[u8], places: &[u8]) -> Result<Told, Untold>
    ensures { Tells IsRacesText result (seen_in (run_in (trace_of trace.now)) (named_of places.now)) }
{
    let run = run_of(alloc, trace)?;
    let places = read_places(alloc, places)?;
    fits(&places, run.as_slice())?;
    Ok(races_of(alloc, run.as_slice(), &places)?)
}

// The races of a run at these places.
fn races_of(alloc: Global, run: &[Footprint], places: &Places<'_>) -> Result<Told, OutOfMemory>
    ensures { IfOk result (λ told. IsRacesText (seen_of run.now (named places.now)) told.text.items
        × (told.races ≡ length (predicted run.now))) }
{
    let races = predicted_by_clocks(alloc, run)?;
    let listed = races.as_slice();
    let shown = places.shown(run, listed);
    let text = races_text(alloc, &shown)?;
    Ok(Told {
        text,
        races: listed.len(),
    })
}

#[tactic(auto, unfolding(crate::specs::Seen::seen_in))]
fn steps_placed(
    alloc: Global,
    trace: &[u8],
    places: &[u8],
    from: usize,
    to: usize,
) -> Result<Told, Untold>
    ensures { Tells (IsStepsText from to) result (seen_in (run_in (trace_of trace.now)) (named_of places.now)) }
{
    let run = run_of(alloc, trace)?;
    let places = read_places(alloc, places)?;
    fits(&places, run.as_slice())?;
    Ok(steps_of(alloc, run.as_slice(), &places, from, to)?)
}

#[tactic(auto, unfolding(crate::specs::Seen::seen_bare))]
fn steps_bare(alloc: Global, trace: &[u8], from: usize, to: usize) -> Result<Told, Untold>
    ensures { Tells (IsStepsText from to) result (seen_bare (run_in (trace_of trace.now))) }
{
    let run = run_of(alloc, trace)?;
    let places = Places::none(alloc);
    Ok(steps_of(alloc, run.as_slice(), &places, from, to)?)
}

// The steps of a run at these places.
fn steps_of(
    alloc: Global,
    run: &[Footprint],
    places: &Places<'_>,
    from: usize,
    to: usize,
) -> Result<Told, OutOfMemory>
    ensures { IfOk result (λ told. IsStepsText from to (seen_of run.now (named places.now)) told.text.items
        × (told.races ≡ length (predicted run.now))) }
{
    let races = predicted_by_clocks(alloc, run)?;
    let listed = races.as_slice();
    let shown = places.shown(run, listed);
    let text = steps_text(alloc, &shown, from, to)?;
    Ok(Told {
        text,
        races: listed.len(),
    })
}

#[tactic(auto, unfolding(crate::specs::Seen::seen_in))]
fn picture_placed(
    alloc: Global,
    trace: &[u8],
    places: &[u8],
    asked: Option<Span>,
) -> Result<Told, Untold>
    ensures { Tells (IsPictureText asked) result (seen_in (run_in (trace_of trace.now)) (named_of places.now)) }
{
    let run = run_of(alloc, trace)?;
    let places = read_places(alloc, places)?;
    fits(&places, run.as_slice())?;
    Ok(picture_of(alloc, run.as_slice(), &places, asked)?)
}

#[tactic(auto, unfolding(crate::specs::Seen::seen_bare))]
fn picture_bare(alloc: Global, trace: &[u8], asked: Option<Span>) -> Result<Told, Untold>
    ensures { Tells (IsPictureText asked) result (seen_bare (run_in (trace_of trace.now))) }
{
    let run = run_of(alloc, trace)?;
    let places = Places::none(alloc);
    Ok(picture_of(alloc, run.as_slice(), &places, asked)?)
}

// The picture of a run at these places.
fn picture_of(
    alloc: Global,
    run: &[Footprint],
    places: &Places<'_>,
    asked: Option<Span>,
) -> Result<Told, OutOfMemory>
    requires { length run.now < 2 ^ 32 }
    ensures { IfOk result (λ told. IsPictureText asked (seen_of run.now (named places.now)) told.text.items
        × (told.races ≡ length (predicted run.now))) }
{
    let races = predicted_by_clocks(alloc, run)?;
    let listed = races.as_slice();
    let shown = places.shown(run, listed);
    let text = picture_text(alloc, &shown, asked)?;
    Ok(Told {
        text,
        races: listed.len(),
    })
}

#[tactic(auto, unfolding(crate::specs::Seen::seen_in))]
fn orders_placed(alloc: Global, trace: &[u8], places: &[u8]) -> Result<Told, Untold>
    ensures { TellsBy count_either IsOrdersText result (seen_in (run_in (trace_of trace.now)) (named_of places.now)) }
{
    let run = run_of(alloc, trace)?;
    let places = read_places(alloc, places)?;
    fits(&places, run.as_slice())?;
    Ok(orders_of(alloc, run.as_slice(), &places)?)
}

#[tactic(auto, unfolding(crate::specs::Seen::seen_bare))]
fn orders_bare(alloc: Global, trace: &[u8]) -> Result<Told, Untold>
    ensures { TellsBy count_either IsOrdersText result (seen_bare (run_in (trace_of trace.now))) }
{
    let run = run_of(alloc, trace)?;
    let places = Places::none(alloc);
    Ok(orders_of(alloc, run.as_slice(), &places)?)
}

// The races of a run at these places by two orders.
fn orders_of(alloc: Global, run: &[Footprint], places: &Places<'_>) -> Result<Told, OutOfMemory>
    requires { length run.now < 2 ^ 32 }
    ensures { IfOk result (λ told. IsOrdersText (seen_of run.now (named places.now)) told.text.items
        × (told.races ≡ count_either (seen_of run.now (named places.now)))) }
{
    let order = Analysis::of_run(alloc, run)?;
    let races = predicted_by_clocks(alloc, run)?;
    let rust = races_by_rust(alloc, run)?;
    let listed = races.as_slice();
    let shown = places.shown(run, listed);
    let text = orders_text(alloc, &shown, &order, rust.as_slice())?;
    Ok(Told {
        text,
        races: either(rust.as_slice(), listed).len(),
    })
}
