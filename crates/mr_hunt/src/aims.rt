//! What a hunt looks for, and the first number whose run has it.
ghost use Rattle.std.specs.Prelude.{◌≡◌, ◌==◌, ◌||◌, ◌≤◌, ◌^◌, IfOk, bytes_eq, length, not, option_copied, slice_get};
ghost use Rattle.std.specs.List.{list_any};
ghost use Rattle.std.specs.Option.{option_map};
ghost use Rattle.mr_step.specs.Standing.{seen_line};
ghost use Rattle.mr_places.specs.Laid.{Laid};
ghost use Rattle.mr_hunt.specs.Ends.{verdict_number};
ghost use Rattle.mr_hunt.specs.Aims.{Any, IsFirst, Lines, Named, Prints, Race, RustRace, Undefined, aim_of, first_met};
ghost use Rattle.mr_hunt.specs.Aims.{is_between, is_met, is_on, is_print, is_print_in, is_undefined, spot_in};
ghost use Rattle.mr_hunt.specs.Aims.{verdict_name};

use crate::counting::{how_many, number_behind};
use crate::ends::{End, verdict_number};
use crate::seeing::{by_rust, ends_of, verdict_of};
use mr_auto::draw;
use mr_base::Verdict;
use mr_event::{Footprint, Pair};
use mr_labels::Stand;
use mr_places::{Places, Spot};
use mr_run::{Clocked, Nothing};
use mr_step::Machine;
use mr_typing::Checked;
use std::alloc::{AllocError, Global};

/// What a run is to have.
#[derive(Clone, Copy)]
pub enum Aim<'a> {
    /// A race, or another verdict than `exit`.
    Any,
    /// A race.
    Race,
    /// A race by Rust's order.
    RustRace,
    /// A verdict `undefined`.
    Undefined,
    /// The verdict of this name, or `undefined` for the reason of this name.
    Named(&'a str),
    /// A race between the statements at these lines of the text.
    Lines { one: u32, other: u32 },
    /// A line of output that is this text.
    Prints(&'a str),
}

// ---- verdicts

fn is_undefined(verdict: Verdict) -> bool
    ensures { result ≡ is_undefined verdict }
{
    match verdict {
        Verdict::Undefined(_) => true,
        Verdict::Running | Verdict::Exit | Verdict::Leak | Verdict::Abort | Verdict::Deadlock => {
            false
        }
    }
}

// By which name a verdict goes; an undefined one by that of its reason.
fn verdict_name(verdict: Verdict) -> &'static str
    ensures { result.now ≡ verdict_name verdict }
{
    match verdict {
        Verdict::Running => "running",
        Verdict::Exit => "exit",
        Verdict::Leak => "leak",
        Verdict::Abort => "abort",
        Verdict::Deadlock => "deadlock",
        Verdict::Undefined(reason) => reason.name(),
    }
}

// ---- lines

// Where a thread stands in the text, if it does.
fn spot_in(places: &Places<'_>, stand: Option<Stand>) -> Option<Spot>
    ensures { result ≡ spot_in places.now stand }
{
    match stand {
        Some(stand) => places.of(stand.function, stand.block, stand.at),
        None => None,
    }
}

// Whether this is on a line.
fn is_on(line: u32, spot: Option<Spot>) -> bool
    ensures { result ≡ is_on line spot }
{
    match spot {
        Some(spot) => spot.line == line,
        None => false,
    }
}

// Whether an end is a race between the statements at two lines.
fn is_between(places: &Places<'_>, one: u32, other: u32, end: End) -> bool
    ensures { result ≡ is_between places.now one other end }
{
    match end {
        End::Verdict(_) => false,
        End::Race { first, second } => {
            let a = spot_in(places, first);
            let b = spot_in(places, second);
            (is_on(one, a) && is_on(other, b)) || (is_on(other, a) && is_on(one, b))
        }
    }
}

// Whether one of some ends is.
fn any_between(places: &Places<'_>, one: u32, other: u32, ends: &[End]) -> bool
    ensures { result ≡ list_any (is_between places.now one other) ends.now }
{
    for end in ends {
        if is_between(places, one, other, *end) {
            return true;
        }
    }
    false
}

// ---- output

// Whether a print that is lent is this text, if there is one.
fn is_text(line: Option<(u32, &[u8])>, text: &str) -> bool
    ensures { result ≡ is_print_in text.now (option_map seen_line line.entry) }
{
    match line {
        Some((_, bytes)) => bytes == text.as_bytes(),
        None => false,
    }
}

// Whether one of the prints of a run is this text.
fn any_print(machine: &Machine<'_>, text: &str) -> bool
    ensures { result ≡ list_any (is_print text.now) machine.now.config.output }
{
    for i in 0..machine.lines() {
        if is_text(machine.line(i), text) {
            return true;
        }
    }
    false
}

// ---- runs

// Whether the verdict isn't `exit`, or there is a race.
fn is_any(verdict: Verdict, races: &[Pair]) -> bool
    ensures { result ≡ (not (verdict_number verdict == 1) || not (length races.now == 0)) }
{
    verdict_number(verdict) != 1 || !races.is_empty()
}

fn has_any(alloc: Global, p: &Checked, most: u32, number: u64) -> Result<bool, AllocError>
    requires { most ≤ 2 ^ 20 }
    ensures { IfOk result (λ met. (laid : Laid) → met ≡ is_met Any laid p.now most number) }
{
    let mut kept = Clocked::new(alloc);
    let drawn = draw(alloc, p, number, most, &mut kept)?;
    Ok(is_any(drawn.machine.verdict(), kept.races()))
}

fn has_race(alloc: Global, p: &Checked, most: u32, number: u64) -> Result<bool, AllocError>
    requires { most ≤ 2 ^ 20 }
    ensures { IfOk result (λ met. (laid : Laid) → met ≡ is_met Race laid p.now most number) }
{
    let mut kept = Clocked::new(alloc);
    draw(alloc, p, number, most, &mut kept)?;
    Ok(!kept.races().is_empty())
}

fn has_rust_race(alloc: Global, p: &Checked, most: u32, number: u64) -> Result<bool, AllocError>
    requires { most ≤ 2 ^ 20 }
    ensures { IfOk result (λ met. (laid : Laid) → met ≡ is_met RustRace laid p.now most number) }
{
    let mut steps: Vec<Footprint> = Vec::new(alloc);
    draw(alloc, p, number, most, &mut steps)?;
    let found = by_rust(alloc, steps.as_slice())?;
    Ok(!found.as_slice().is_empty())
}

fn has_undefined(alloc: Global, p: &Checked, most: u32, number: u64) -> Result<bool, AllocError>
    requires { most ≤ 2 ^ 20 }
    ensures { IfOk result (λ met. (laid : Laid) → met ≡ is_met Undefined laid p.now most number) }
{
    let verdict = verdict_of(alloc, p, most, number)?;
    Ok(is_undefined(verdict))
}

fn has_verdict(
    alloc: Global,
    p: &Checked,
    most: u32,
    number: u64,
    name: &str,
) -> Result<bool, AllocError>
    requires { most ≤ 2 ^ 20 }
    ensures { IfOk result (λ met. (laid : Laid) → met ≡ is_met (Named name.now) laid p.now most number) }
{
    let verdict = verdict_of(alloc, p, most, number)?;
    Ok(verdict_name(verdict) == name)
}

fn has_lines(
    alloc: Global,
    p: &Checked,
    places: &Places<'_>,
    most: u32,
    number: u64,
    one: u32,
    other: u32,
) -> Result<bool, AllocError>
    requires { most ≤ 2 ^ 20 }
    ensures { IfOk result (λ met. met ≡ is_met (Lines one other) places.now p.now most number) }
{
    let ends = ends_of(alloc, p, most, number)?;
    Ok(any_between(places, one, other, ends.as_slice()))
}

fn has_print(
    alloc: Global,
    p: &Checked,
    most: u32,
    number: u64,
    text: &str,
) -> Result<bool, AllocError>
    requires { most ≤ 2 ^ 20 }
    ensures { IfOk result (λ met. (laid : Laid) → met ≡ is_met (Prints text.now) laid p.now most number) }
{
    let mut nothing = Nothing;
    let drawn = draw(alloc, p, number, most, &mut nothing)?;
    Ok(any_print(&drawn.machine, text))
}

// Whether the run of a number has what is looked for. No more is kept of its steps than that needs.
fn is_met(
    alloc: Global,
    p: &Checked,
    places: &Places<'_>,
    aim: Aim<'_>,
    most: u32,
    number: u64,
) -> Result<bool, AllocError>
    requires { most ≤ 2 ^ 20 }
    ensures { IfOk result (λ met. met ≡ is_met (aim_of aim.entry) places.now p.now most number) }
{
    match aim {
        Aim::Any => has_any(alloc, p, most, number),
        Aim::Race => has_race(alloc, p, most, number),
        Aim::RustRace => has_rust_race(alloc, p, most, number),
        Aim::Undefined => has_undefined(alloc, p, most, number),
        Aim::Named(name) => has_verdict(alloc, p, most, number, name),
        Aim::Lines { one, other } => has_lines(alloc, p, places, most, number, one, other),
        Aim::Prints(text) => has_print(alloc, p, most, number, text),
    }
}

/// The first of the numbers from one to another whose run has what is looked for, where there is one. An `Err` is for
/// want of memory.
pub fn first_met(
    alloc: Global,
    p: &Checked,
    places: &Places<'_>,
    aim: Aim<'_>,
    most: u32,
    from: u64,
    to: u64,
) -> Result<Option<u64>, AllocError>
    requires { most ≤ 2 ^ 20 }
    ensures least { IfOk result (λ found. IsFirst (is_met (aim_of aim.entry) places.now p.now most) from to found) }
    ensures first { IfOk result (λ found. found ≡ first_met (aim_of aim.entry) places.now p.now most from to) }
{
    for i in 0..how_many(from, to) {
        let number = number_behind(from, i);
        let met = is_met(alloc, p, places, aim, most, number)?;
        if met {
            return Ok(Some(number));
        }
    }
    Ok(None)
}
