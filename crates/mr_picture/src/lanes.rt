//! The lanes of threads.
ghost use Rattle.std.specs.Prelude.{◌≡◌, ◌<◌, ◌≤◌, ◌^◌, ◌++◌, All, IfOk, IfSome, OnOk, flat_map, option_copied, slice_get};
ghost use Rattle.mr_picture.specs.Written.{as_written};
ghost use Rattle.mr_picture.specs.Lanes.{ends, first_that, has_ended, is_thread, lane_end, lane_mark, lane_marks};
ghost use Rattle.mr_picture.specs.Lanes.{lane_start, name_mark, row_or, short_name, starts, thread_word};
ghost use Rattle.mr_picture.specs.Scene.{IsSmall, scene_in};

use crate::OutOfMemory;
use crate::grid::{lane_x, row_y, rows_end};
use crate::scene::{Drawn, Scene, foot_at};
use crate::texts::push;
use crate::written::{Written, push_mark};
use mr_event::Footprint;
use mr_labels::push_number;
use mr_svg::{Point, Shape, Sign};
use std::alloc::Global;

// Whether the thread that was started is this one.
fn is_thread(thread: u32, started: Option<u32>) -> bool
    ensures { result ≡ is_thread thread started }
{
    match started {
        None => false,
        Some(started) => started == thread,
    }
}

// The number of the first of these steps that started a thread.
fn starting(steps: &[Drawn], thread: u32) -> Option<usize>
    requires { All (λ d. d.number < 2 ^ 32) steps.now }
    ensures first { result ≡ first_that (starts thread) steps.now }
    ensures few { IfSome result (λ number. number < 2 ^ 32) }
{
    for step in steps {
        if is_thread(thread, step.started) {
            return Some(step.number);
        }
    }
    None
}

// Whether a step ended its thread.
fn has_ended(foot: Option<&Footprint>) -> bool
    ensures { result ≡ has_ended (option_copied foot.entry) }
{
    match foot {
        None => false,
        Some(foot) => foot.ended(),
    }
}

// Whether a step ended its thread, which is this one.
fn is_end(feet: &[Footprint], thread: u32, step: &Drawn) -> bool
    ensures { result ≡ ends feet.now thread step.now }
{
    step.thread == thread && has_ended(foot_at(feet, step.number))
}

// The number of the first of these steps that ended a thread.
fn ending(feet: &[Footprint], steps: &[Drawn], thread: u32) -> Option<usize>
    requires { All (λ d. d.number < 2 ^ 32) steps.now }
    ensures first { result ≡ first_that (ends feet.now thread) steps.now }
    ensures few { IfSome result (λ number. number < 2 ^ 32) }
{
    for step in steps {
        if is_end(feet, thread, step) {
            return Some(step.number);
        }
    }
    None
}

// The row of a step, or this one where there is none.
fn row_or(from: usize, y: u64, step: Option<usize>) -> u64
    requires { IfSome step (λ number. number < 2 ^ 32) }
    ensures { result ≡ row_or from y step }
{
    match step {
        None => y,
        Some(step) => row_y(from, step),
    }
}

// The title of a lane.
fn thread_word(alloc: Global, thread: u32) -> Result<Vec<u8>, OutOfMemory>
    ensures { IfOk result (λ text. text.items ≡ thread_word thread) }
{
    let mut out = Vec::new(alloc);
    push_thread_word(&mut out, thread)?;
    Ok(out)
}

/// Appends the name of a thread.
pub(crate) fn push_thread_word(out: &mut Vec<u8>, thread: u32) -> Result<(), OutOfMemory>
    ensures { OnOk result (out.new.items ≡ out.old.items ++ thread_word thread) }
{
    push(out, "thread ")?;
    push_number(out, thread.into())
}

// Appends the lane of a thread.
fn push_lane(
    out: &mut Vec<Written>,
    scene: &Scene<'_>,
    thread: u32,
    title: &[u8],
) -> Result<(), OutOfMemory>
    requires small { IsSmall (scene_in scene.now) }
    requires title { title.now ≡ thread_word thread }
    ensures { OnOk result (out.new.items ≡ out.old.items ++ as_written (lane_mark (scene_in scene.now) thread)) }
{
    let x = lane_x(scene.threads, thread);
    let start = row_or(scene.span.from, 98, starting(scene.steps, thread));
    let end = row_or(
        scene.span.from,
        rows_end(scene),
        ending(scene.sketch.feet, scene.steps, thread),
    );
    let lane = Shape::Line {
        from: Point { x, y: start },
        to: Point { x, y: end },
    };
    push_mark(out, Sign::Lane, lane, &[], title)
}

// The short name of a thread.
fn short_name(alloc: Global, thread: u32) -> Result<Vec<u8>, OutOfMemory>
    ensures { IfOk result (λ text. text.items ≡ short_name thread) }
{
    let mut out = Vec::new(alloc);
    push(&mut out, "T")?;
    push_number(&mut out, thread.into())?;
    Ok(out)
}

// Appends the name of a thread, at this height.
fn push_name(
    out: &mut Vec<Written>,
    scene: &Scene<'_>,
    y: u64,
    thread: u32,
    name: &[u8],
    title: &[u8],
) -> Result<(), OutOfMemory>
    requires small { IsSmall (scene_in scene.now) }
    requires name { name.now ≡ short_name thread }
    requires title { title.now ≡ thread_word thread }
    ensures { OnOk result (out.new.items ≡ out.old.items ++ as_written (name_mark (scene_in scene.now) y thread)) }
{
    let at = Point {
        x: lane_x(scene.threads, thread) - 8,
        y,
    };
    push_mark(out, Sign::Name, Shape::Words { at }, name, title)
}

// Appends the marks of a lane.
fn push_lane_marks(
    alloc: Global,
    out: &mut Vec<Written>,
    scene: &Scene<'_>,
    thread: u32,
) -> Result<(), OutOfMemory>
    requires { IsSmall (scene_in scene.now) }
    ensures { OnOk result (out.new.items
        ≡ out.old.items ++ flat_map as_written (lane_marks (scene_in scene.now) thread)) }
{
    let title = thread_word(alloc, thread)?;
    let name = short_name(alloc, thread)?;
    let below = rows_end(scene) + 18;
    push_lane(out, scene, thread, title.as_slice())?;
    push_name(out, scene, 86, thread, name.as_slice(), title.as_slice())?;
    push_name(out, scene, below, thread, name.as_slice(), title.as_slice())
}

/// Appends the marks of each lane.
pub(crate) fn push_lanes(
    alloc: Global,
    out: &mut Vec<Written>,
    scene: &Scene<'_>,
) -> Result<(), OutOfMemory>
    requires { IsSmall (scene_in scene.now) }
    ensures { OnOk result (out.new.items ≡ out.old.items
        ++ flat_map as_written (flat_map (lane_marks (scene_in scene.now)) (scene_in scene.now).threads)) }
{
    let threads = scene.threads;
    for thread in threads {
        push_lane_marks(alloc, out, scene, *thread)?;
    }
    Ok(())
}
