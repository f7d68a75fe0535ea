//! Arrows and races.
ghost use Rattle.std.specs.Prelude.{◌≡◌, ◌<◌, ◌≤◌, ◌^◌, ◌++◌, All, IfOk, OnOk, flat_map, length, map, take};
ghost use Rattle.mr_event.specs.Order.{thread_at as thread_of};
ghost use Rattle.mr_rust_order.specs.Tracked.{Tracks as RustTracks};
ghost use Rattle.mr_picture.specs.Written.{as_written};
ghost use Rattle.mr_picture.specs.Grid.{place_of};
ghost use Rattle.mr_picture.specs.Links.{arrow_at, arrow_between, arrow_mark, arrow_reason, arrow_sign, arrow_title, beside, corner_of};
ghost use Rattle.mr_picture.specs.Links.{drawn_races, foot_place, is_rusts, is_same_race, is_wake, race_between, race_mark, race_sign, race_title};
ghost use Rattle.mr_picture.specs.Scene.{IsRace, IsSmall, IsStep, scene_in};

use crate::grid::place_of;
use crate::scene::Scene;
use crate::texts::{push, push_step_word};
use crate::written::{Written, push_mark};
use crate::{OutOfMemory, races_in, wakes_thread};
use mr_event::{Footprint, Pair, thread_at};
use mr_rust_order::Analysis as RustOrder;
use mr_svg::{Corner, Point, Shape, Sign};
use std::alloc::Global;

// So many races have a line at most.
pub(crate) const MOST: usize = 6;

// So far from one number, on the side of another one.
fn beside(far: u64, x: u64, other: u64) -> u64
    requires far { far < 2 ^ 32 }
    requires small { x < 2 ^ 49 }
    ensures { result ≡ beside far x other }
{
    if x < other {
        x + far
    } else {
        x.saturating_sub(far)
    }
}

// A corner that is cut by 10, of a way that comes from one point and goes on to another one.
fn corner_of(from: Point, at: Point, to: Point) -> Corner
    requires across { at.x < 2 ^ 49 }
    requires down { at.y < 2 ^ 49 }
    ensures { result ≡ corner_of from at to }
{
    Corner {
        before: Point {
            x: beside(10, at.x, from.x),
            y: at.y,
        },
        at,
        behind: Point {
            x: at.x,
            y: beside(10, at.y, to.y),
        },
    }
}

// Where a completed step stands.
pub(crate) fn foot_place(scene: &Scene<'_>, step: usize) -> Point
    requires small { IsSmall (scene_in scene.now) }
    requires step { IsStep (scene_in scene.now) step }
    ensures { result ≡ foot_place (scene_in scene.now) step }
{
    place_of(scene, thread_at(scene.sketch.feet, step), step)
}

// An arrow that goes down so far from a lane, and aslant from so far above its last step.
fn arrow_at(far: u64, above: u64, a: Point, b: Point) -> Shape
    requires far { far < 2 ^ 32 }
    requires lane { b.x < 2 ^ 32 }
    requires row { a.y < 2 ^ 48 }
    ensures { result ≡ arrow_at far above a b }
{
    let x = beside(far, b.x, a.x);
    Shape::Bend {
        from: a,
        corner: corner_of(a, Point { x, y: a.y }, b),
        come: Point {
            x,
            y: b.y.saturating_sub(above),
        },
        to: b,
    }
}

// The shape of an arrow.
fn arrow_between(woken: bool, a: Point, b: Point) -> Shape
    requires lane { b.x < 2 ^ 32 }
    requires row { a.y < 2 ^ 48 }
    ensures { result ≡ arrow_between woken a b }
{
    if woken {
        arrow_at(10, 20, a, b)
    } else {
        arrow_at(20, 12, a, b)
    }
}

// The shape of a race.
fn race_between(a: Point, b: Point) -> Shape
    requires lane { a.x < 2 ^ 32 }
    requires row { a.y < 2 ^ 48 }
    requires end { b.y < 2 ^ 48 }
    ensures { result ≡ race_between a b }
{
    let x = beside(16, a.x, b.x);
    Shape::Bend {
        from: b,
        corner: corner_of(b, Point { x, y: b.y }, a),
        come: Point { x, y: a.y + 16 },
        to: a,
    }
}

fn arrow_sign(woken: bool, rusts: bool) -> Sign
    ensures { result ≡ arrow_sign woken rusts }
{
    if woken {
        Sign::Wake
    } else if rusts {
        Sign::Dependence
    } else {
        Sign::MachineOrder
    }
}

fn arrow_reason(woken: bool, rusts: bool) -> &'static str
    ensures { result.now ≡ arrow_reason woken rusts }
{
    if woken {
        ": it woke or started its thread"
    } else if rusts {
        ", which depends on it"
    } else {
        ", which depends on it; Rust's order has no such arrow"
    }
}

// What is told of an arrow.
fn arrow_title(alloc: Global, arrow: Pair, woken: bool, rusts: bool) -> Result<Vec<u8>, OutOfMemory>
    ensures { IfOk result (λ text. text.items ≡ arrow_title arrow woken rusts) }
{
    let mut out = Vec::new(alloc);
    push_step_word(&mut out, arrow.first)?;
    push(&mut out, " happens before ")?;
    push_step_word(&mut out, arrow.second)?;
    push(&mut out, arrow_reason(woken, rusts))?;
    Ok(out)
}

// Whether Rust's order has an arrow too.
fn is_rusts(run: &[Footprint], rust: &RustOrder, arrow: Pair) -> Result<bool, OutOfMemory>
    requires first { arrow.first < length run.now }
    requires second { arrow.second < length run.now }
    requires rust { RustTracks run.now arrow.second rust.now }
    ensures { IfOk result (λ is. is ≡ is_rusts run.now arrow) }
{
    let rusts = rust.orders(run, arrow.first, arrow.second)?;
    Ok(rusts)
}

/// Appends an arrow.
pub(crate) fn push_arrow(
    alloc: Global,
    out: &mut Vec<Written>,
    scene: &Scene<'_>,
    rust: &RustOrder,
    arrow: Pair,
) -> Result<(), OutOfMemory>
    requires small { IsSmall (scene_in scene.now) }
    requires arrow { IsRace (scene_in scene.now) arrow }
    requires rust { RustTracks (scene_in scene.now).sketch.feet arrow.second rust.now }
    ensures { OnOk result (out.new.items ≡ out.old.items ++ as_written (arrow_mark (scene_in scene.now) arrow)) }
{
    let woken = wakes_thread(scene.sketch.feet, arrow.first, arrow.second);
    let rusts = is_rusts(scene.sketch.feet, rust, arrow)?;
    let shape = arrow_between(
        woken,
        foot_place(scene, arrow.first),
        foot_place(scene, arrow.second),
    );
    let title = arrow_title(alloc, arrow, woken, rusts)?;
    push_mark(out, arrow_sign(woken, rusts), shape, &[], title.as_slice())
}

// Whether a race is the first listed one.
fn is_same_race(race: Pair, other: Option<Pair>) -> bool
    ensures { result ≡ is_same_race race other }
{
    match other {
        None => false,
        Some(other) => race.first == other.first && race.second == other.second,
    }
}

fn race_sign(first: bool) -> Sign
    ensures { result ≡ race_sign first }
{
    if first { Sign::FirstRace } else { Sign::Race }
}

// What is told of a race.
fn race_title(alloc: Global, race: Pair) -> Result<Vec<u8>, OutOfMemory>
    ensures { IfOk result (λ text. text.items ≡ race_title race) }
{
    let mut out = Vec::new(alloc);
    push_step_word(&mut out, race.first)?;
    push(&mut out, " and ")?;
    push_step_word(&mut out, race.second)?;
    push(&mut out, " race: neither happens before the other")?;
    Ok(out)
}

// Appends the line of a race.
fn push_race(
    alloc: Global,
    out: &mut Vec<Written>,
    scene: &Scene<'_>,
    race: Pair,
) -> Result<(), OutOfMemory>
    requires small { IsSmall (scene_in scene.now) }
    requires race { IsRace (scene_in scene.now) race }
    ensures { OnOk result (out.new.items ≡ out.old.items ++ as_written (race_mark (scene_in scene.now) race)) }
{
    let shape = race_between(
        foot_place(scene, race.first),
        foot_place(scene, race.second),
    );
    let sign = race_sign(is_same_race(race, scene.first));
    let title = race_title(alloc, race)?;
    push_mark(out, sign, shape, &[], title.as_slice())
}

// Appends the line of each of these races.
fn push_each_race(
    alloc: Global,
    out: &mut Vec<Written>,
    scene: &Scene<'_>,
    races: &[Pair],
) -> Result<(), OutOfMemory>
    requires small { IsSmall (scene_in scene.now) }
    requires within { All (IsRace (scene_in scene.now)) races.now }
    ensures { OnOk result (out.new.items
        ≡ out.old.items ++ flat_map as_written (map (race_mark (scene_in scene.now)) races.now)) }
{
    for race in races {
        push_race(alloc, out, scene, *race)?;
    }
    Ok(())
}

// The first six of these races.
fn first_races(races: &[Pair]) -> &[Pair]
    ensures { result.now ≡ take 6 races.now }
{
    &races[..races.len().min(MOST)]
}

/// Appends the lines of the first six races both of whose steps are drawn.
pub(crate) fn push_races(
    alloc: Global,
    out: &mut Vec<Written>,
    scene: &Scene<'_>,
) -> Result<(), OutOfMemory>
    requires { IsSmall (scene_in scene.now) }
    ensures { OnOk result (out.new.items ≡ out.old.items
        ++ flat_map as_written (map (race_mark (scene_in scene.now)) (drawn_races (scene_in scene.now)))) }
{
    let races = races_in(alloc, scene.done, scene.near)?;
    push_each_race(alloc, out, scene, first_races(races.as_slice()))
}
