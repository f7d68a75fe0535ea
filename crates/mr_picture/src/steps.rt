//! The rows of steps.
ghost use Rattle.std.specs.Prelude.{◌≡◌, ◌+◌, ◌-◌, ◌<◌, ◌≤◌, ◌^◌, ◌++◌, ◌∷◌, [], IfOk, OnOk, flat_map, decimal, length};
ghost use Rattle.std.specs.List.{list_any};
ghost use Rattle.mr_picture.specs.Span.{steps_in};
ghost use Rattle.mr_picture.specs.Written.{as_written};
ghost use Rattle.mr_picture.specs.Scene.{IsSmall, scene_in};
ghost use Rattle.mr_picture.specs.Steps.{at_step, did_line, did_mark, did_text, is_step_of, joined, number_mark, part_of};
ghost use Rattle.mr_picture.specs.Steps.{part_shape, part_sign, row_mark, row_marks, stand_mark, step_mark, step_marks};
ghost use Rattle.mr_picture.specs.Steps.{whole_text};
ghost use Rattle.mr_picture.specs.Texts.{cut, step_word};

use crate::OutOfMemory;
use crate::grid::{place_of, row_y, text_x, width};
use crate::lanes::push_thread_word;
use crate::partners::push_partners;
use crate::scene::{Drawn, Scene, holds_race};
use crate::texts::{behind_two, count_text, cut, push, push_step_word};
use crate::written::{Written, push_mark};
use mr_event::Pair;
use mr_svg::{Point, Shape, Sign};
use std::alloc::Global;

/// What a step is in a picture.
#[derive(Clone, Copy)]
pub(crate) enum Part {
    /// It ended the run without completing.
    Stopped,
    /// It races.
    Racing,
    Plain,
}

// Whether a step is one of the two steps of a drawn race.
fn is_step_of(scene: &Scene<'_>, step: usize, race: Pair) -> bool
    ensures { result ≡ is_step_of (scene_in scene.now) step race }
{
    holds_race(scene.done, race) && (race.first == step || race.second == step)
}

// Whether a step is one of a drawn race.
fn has_race(scene: &Scene<'_>, step: usize) -> bool
    ensures { result ≡ list_any (is_step_of (scene_in scene.now) step) (scene_in scene.now).near }
{
    scene.near.iter().any(|race| is_step_of(scene, step, *race))
}

// What a step is.
fn part_of(scene: &Scene<'_>, step: usize) -> Part
    ensures { result ≡ part_of (scene_in scene.now) step }
{
    if step >= scene.sketch.feet.len() {
        Part::Stopped
    } else if has_race(scene, step) {
        Part::Racing
    } else {
        Part::Plain
    }
}

fn part_sign(part: Part) -> Sign
    ensures { result ≡ part_sign part }
{
    match part {
        Part::Stopped => Sign::Stop,
        Part::Racing => Sign::Racing,
        Part::Plain => Sign::Step,
    }
}

pub(crate) fn part_shape(part: Part, at: Point) -> Shape
    ensures { result ≡ part_shape part at }
{
    match part {
        Part::Stopped => Shape::Square { at },
        Part::Racing => Shape::Diamond { at },
        Part::Plain => Shape::Dot { at },
    }
}

// With which steps a step races, and what it did.
fn did_text(alloc: Global, scene: &Scene<'_>, step: &Drawn) -> Result<Vec<u8>, OutOfMemory>
    ensures { IfOk result (λ text. text.items ≡ did_text (scene_in scene.now) step.now) }
{
    let mut out = Vec::new(alloc);
    push_partners(alloc, &mut out, scene.near, step.number)?;
    out.extend_from_slice(step.did.as_slice())?;
    Ok(out)
}

// What is shown with each mark of a step, which did this.
fn whole_text(
    alloc: Global,
    scene: &Scene<'_>,
    step: &Drawn,
    did: &[u8],
) -> Result<Vec<u8>, OutOfMemory>
    requires { did.now ≡ did_text (scene_in scene.now) step.now }
    ensures { IfOk result (λ text. text.items ≡ whole_text (scene_in scene.now) step.now) }
{
    let mut out = Vec::new(alloc);
    push_step_word(&mut out, step.number)?;
    push(&mut out, ", ")?;
    push_thread_word(&mut out, step.thread)?;
    push(&mut out, "  ")?;
    out.extend_from_slice(step.stand.as_slice())?;
    out.extend_from_slice(did)?;
    Ok(out)
}

// Appends a byte; on one line `; ` stands for a line feed.
fn push_joined(out: &mut Vec<u8>, byte: u8) -> Result<(), OutOfMemory>
    ensures { OnOk result (out.new.items ≡ out.old.items ++ joined byte) }
{
    if byte == b'\n' {
        push(out, "; ")
    } else {
        out.push(byte)?;
        Ok(())
    }
}

// A text on one line.
fn on_one_line(alloc: Global, text: &[u8]) -> Result<Vec<u8>, OutOfMemory>
    ensures { IfOk result (λ line. line.items ≡ flat_map joined text.now) }
{
    let mut out = Vec::new(alloc);
    for byte in text {
        push_joined(&mut out, *byte)?;
    }
    Ok(out)
}

// What a step did, on one line, as it is drawn.
fn did_line(
    alloc: Global,
    scene: &Scene<'_>,
    step: &Drawn,
    did: &[u8],
) -> Result<Vec<u8>, OutOfMemory>
    requires { did.now ≡ did_text (scene_in scene.now) step.now }
    ensures { IfOk result (λ text. text.items ≡ cut (did_line (scene_in scene.now) step.now)) }
{
    let line = on_one_line(alloc, did)?;
    cut(alloc, behind_two(line.as_slice()))
}

// Appends the background of a row.
fn push_row_mark(
    alloc: Global,
    out: &mut Vec<Written>,
    scene: &Scene<'_>,
    step: usize,
) -> Result<(), OutOfMemory>
    requires small { IsSmall (scene_in scene.now) }
    requires few { step < 2 ^ 32 }
    ensures { OnOk result (out.new.items ≡ out.old.items ++ as_written (row_mark (scene_in scene.now) step)) }
{
    let mut title = Vec::new(alloc);
    push_step_word(&mut title, step)?;
    let band = Shape::Band {
        at: Point {
            x: 0,
            y: row_y(scene.span.from, step) - 22,
        },
        wide: width(scene),
        high: 44,
    };
    push_mark(out, Sign::Row, band, &[], title.as_slice())
}

// Appends the background of a row, if it is one of those that have it.
fn push_row(
    alloc: Global,
    out: &mut Vec<Written>,
    scene: &Scene<'_>,
    step: usize,
) -> Result<(), OutOfMemory>
    requires small { IsSmall (scene_in scene.now) }
    requires few { step < 2 ^ 32 }
    ensures { OnOk result (out.new.items
        ≡ out.old.items ++ flat_map as_written (row_marks (scene_in scene.now) step)) }
{
    if step.saturating_sub(scene.span.from) % 2 == 0 {
        push_row_mark(alloc, out, scene, step)
    } else {
        Ok(())
    }
}

/// Appends the backgrounds of the rows.
pub(crate) fn push_rows(
    alloc: Global,
    out: &mut Vec<Written>,
    scene: &Scene<'_>,
) -> Result<(), OutOfMemory>
    requires { IsSmall (scene_in scene.now) }
    ensures { OnOk result (out.new.items ≡ out.old.items
        ++ flat_map as_written (flat_map (row_marks (scene_in scene.now)) (steps_in (scene_in scene.now).span))) }
{
    for step in scene.span.from..scene.span.to {
        push_row(alloc, out, scene, step)?;
    }
    Ok(())
}

// Where a step stands in its lane.
fn at_step(scene: &Scene<'_>, step: &Drawn) -> Point
    requires small { IsSmall (scene_in scene.now) }
    requires few { step.now.number < 2 ^ 32 }
    ensures { result ≡ at_step (scene_in scene.now) step.now }
{
    place_of(scene, step.thread, step.number)
}

// Appends the mark of a step in its lane.
fn push_step_mark(
    out: &mut Vec<Written>,
    scene: &Scene<'_>,
    step: &Drawn,
    title: &[u8],
) -> Result<(), OutOfMemory>
    requires small { IsSmall (scene_in scene.now) }
    requires few { step.now.number < 2 ^ 32 }
    requires title { title.now ≡ whole_text (scene_in scene.now) step.now }
    ensures { OnOk result (out.new.items ≡ out.old.items ++ as_written (step_mark (scene_in scene.now) step.now)) }
{
    let part = part_of(scene, step.number);
    let shape = part_shape(part, at_step(scene, step));
    push_mark(out, part_sign(part), shape, &[], title)
}

// Appends the number of a step.
fn push_number_mark(
    alloc: Global,
    out: &mut Vec<Written>,
    scene: &Scene<'_>,
    step: &Drawn,
    title: &[u8],
) -> Result<(), OutOfMemory>
    requires small { IsSmall (scene_in scene.now) }
    requires few { step.now.number < 2 ^ 32 }
    requires title { title.now ≡ whole_text (scene_in scene.now) step.now }
    ensures { OnOk result (out.new.items ≡ out.old.items ++ as_written (number_mark (scene_in scene.now) step.now)) }
{
    let count = count_text(alloc, step.number)?;
    let at = Point {
        x: 62,
        y: at_step(scene, step).y + 5,
    };
    push_mark(
        out,
        Sign::Name,
        Shape::WordsTo { at },
        count.as_slice(),
        title,
    )
}

// Appends where the thread of a step stood, and the statement.
fn push_stand_mark(
    alloc: Global,
    out: &mut Vec<Written>,
    scene: &Scene<'_>,
    step: &Drawn,
    title: &[u8],
) -> Result<(), OutOfMemory>
    requires small { IsSmall (scene_in scene.now) }
    requires few { step.now.number < 2 ^ 32 }
    requires title { title.now ≡ whole_text (scene_in scene.now) step.now }
    ensures { OnOk result (out.new.items ≡ out.old.items ++ as_written (stand_mark (scene_in scene.now) step.now)) }
{
    let short = cut(alloc, step.stand.as_slice())?;
    let at = Point {
        x: text_x(scene),
        y: at_step(scene, step).y - 4,
    };
    push_mark(
        out,
        Sign::Text,
        Shape::Words { at },
        short.as_slice(),
        title,
    )
}

// Appends with which steps a step races, and what it did.
fn push_did_mark(
    alloc: Global,
    out: &mut Vec<Written>,
    scene: &Scene<'_>,
    step: &Drawn,
    did: &[u8],
    title: &[u8],
) -> Result<(), OutOfMemory>
    requires small { IsSmall (scene_in scene.now) }
    requires few { step.now.number < 2 ^ 32 }
    requires did { did.now ≡ did_text (scene_in scene.now) step.now }
    requires title { title.now ≡ whole_text (scene_in scene.now) step.now }
    ensures { OnOk result (out.new.items ≡ out.old.items ++ as_written (did_mark (scene_in scene.now) step.now)) }
{
    let line = did_line(alloc, scene, step, did)?;
    let at = Point {
        x: text_x(scene),
        y: at_step(scene, step).y + 13,
    };
    push_mark(out, Sign::Note, Shape::Words { at }, line.as_slice(), title)
}

// Appends the marks of a step, of which this is told.
fn push_told(
    alloc: Global,
    out: &mut Vec<Written>,
    scene: &Scene<'_>,
    step: &Drawn,
    did: &[u8],
    title: &[u8],
) -> Result<(), OutOfMemory>
    requires small { IsSmall (scene_in scene.now) }
    requires few { step.now.number < 2 ^ 32 }
    requires did { did.now ≡ did_text (scene_in scene.now) step.now }
    requires title { title.now ≡ whole_text (scene_in scene.now) step.now }
    ensures { OnOk result (out.new.items
        ≡ out.old.items ++ flat_map as_written (step_marks (scene_in scene.now) step.now)) }
{
    push_step_mark(out, scene, step, title)?;
    push_number_mark(alloc, out, scene, step, title)?;
    push_stand_mark(alloc, out, scene, step, title)?;
    push_did_mark(alloc, out, scene, step, did, title)
}

// Appends the marks of a step.
fn push_step(
    alloc: Global,
    out: &mut Vec<Written>,
    scene: &Scene<'_>,
    step: &Drawn,
) -> Result<(), OutOfMemory>
    requires small { IsSmall (scene_in scene.now) }
    requires few { step.now.number < 2 ^ 32 }
    ensures { OnOk result (out.new.items
        ≡ out.old.items ++ flat_map as_written (step_marks (scene_in scene.now) step.now)) }
{
    let did = did_text(alloc, scene, step)?;
    let title = whole_text(alloc, scene, step, did.as_slice())?;
    push_told(alloc, out, scene, step, did.as_slice(), title.as_slice())
}

/// Appends the marks of each step.
pub(crate) fn push_steps(
    alloc: Global,
    out: &mut Vec<Written>,
    scene: &Scene<'_>,
) -> Result<(), OutOfMemory>
    requires { IsSmall (scene_in scene.now) }
    ensures { OnOk result (out.new.items ≡ out.old.items
        ++ flat_map as_written (flat_map (step_marks (scene_in scene.now)) (scene_in scene.now).steps)) }
{
    let steps = scene.steps;
    for step in steps {
        push_step(alloc, out, scene, step)?;
    }
    Ok(())
}
