//! The column of the witness for the first race.
ghost use Rattle.std.specs.Prelude.{◌≡◌, ◌+◌, ◌-◌, ◌<◌, ◌≤◌, ◌^◌, ◌++◌, All, IfOk, OnOk, flat_map, decimal, length};
ghost use Rattle.mr_clocks.specs.Tracked.{Tracks};
ghost use Rattle.mr_picture.specs.Written.{as_written};
ghost use Rattle.mr_picture.specs.Column.{column_line, column_marks, column_name, column_of, column_place, column_race};
ghost use Rattle.mr_picture.specs.Column.{column_y, is_of_race, kept_mark, kept_marks, kept_number, kept_shape, kept_sign};
ghost use Rattle.mr_picture.specs.Column.{kept_title, left_mark, left_marks, left_number, left_title, number_place, rows_marks};
ghost use Rattle.mr_picture.specs.Scene.{IsRace, IsSmall, IsStep, scene_in};

use crate::grid::{column_x, count_below, row_y};
use crate::scene::Scene;
use crate::texts::{count_text, push, push_step_word};
use crate::written::{Written, push_mark};
use crate::{OutOfMemory, left_out, witness_steps};
use mr_clocks::Analysis;
use mr_event::{Pair, thread_at};
use mr_svg::{Point, Shape, Sign};
use std::alloc::Global;

// A row of the column.
fn column_y(row: usize) -> u64
    requires { row < 2 ^ 40 }
    ensures { result ≡ column_y row }
{
    row_y(0, row)
}

// Where a step of a thread stands in a row of the column.
fn column_place(scene: &Scene<'_>, thread: u32, row: usize) -> Point
    requires small { IsSmall (scene_in scene.now) }
    requires row { row < 2 ^ 40 }
    ensures { result ≡ column_place (scene_in scene.now) thread row }
{
    Point {
        x: column_x(scene) + 80 + 20 * count_below(scene.threads, thread),
        y: column_y(row),
    }
}

// Where the number of a step ends there.
fn number_place(scene: &Scene<'_>, row: usize) -> Point
    requires small { IsSmall (scene_in scene.now) }
    requires row { row < 2 ^ 40 }
    ensures { result ≡ number_place (scene_in scene.now) row }
{
    Point {
        x: column_x(scene) + 62,
        y: column_y(row) + 5,
    }
}

fn is_of_race(race: Pair, step: usize) -> bool
    ensures { result ≡ is_of_race race step }
{
    race.first == step || race.second == step
}

// What is told of a step of the witness.
fn kept_title(alloc: Global, step: usize, row: usize) -> Result<Vec<u8>, OutOfMemory>
    ensures { IfOk result (λ text. text.items ≡ kept_title step row) }
{
    let mut out = Vec::new(alloc);
    push_step_word(&mut out, step)?;
    push(&mut out, " is ")?;
    push_step_word(&mut out, row)?;
    push(&mut out, " of the witness, of those that are drawn")?;
    Ok(out)
}

fn kept_sign(races: bool) -> Sign
    ensures { result ≡ kept_sign races }
{
    if races { Sign::Racing } else { Sign::Step }
}

fn kept_shape(races: bool, at: Point) -> Shape
    ensures { result ≡ kept_shape races at }
{
    if races {
        Shape::Diamond { at }
    } else {
        Shape::Dot { at }
    }
}

// Appends the mark of a step of the witness, in a row.
fn push_kept_mark(
    out: &mut Vec<Written>,
    scene: &Scene<'_>,
    race: Pair,
    row: usize,
    step: usize,
    title: &[u8],
) -> Result<(), OutOfMemory>
    requires small { IsSmall (scene_in scene.now) }
    requires row { row < 2 ^ 40 }
    requires step { IsStep (scene_in scene.now) step }
    requires title { title.now ≡ kept_title step row }
    ensures { OnOk result (out.new.items
        ≡ out.old.items ++ as_written (kept_mark (scene_in scene.now) race row step)) }
{
    let races = is_of_race(race, step);
    let at = column_place(scene, thread_at(scene.sketch.feet, step), row);
    push_mark(out, kept_sign(races), kept_shape(races, at), &[], title)
}

// Appends its number.
fn push_kept_number(
    alloc: Global,
    out: &mut Vec<Written>,
    scene: &Scene<'_>,
    row: usize,
    step: usize,
    title: &[u8],
) -> Result<(), OutOfMemory>
    requires small { IsSmall (scene_in scene.now) }
    requires row { row < 2 ^ 40 }
    requires title { title.now ≡ kept_title step row }
    ensures { OnOk result (out.new.items
        ≡ out.old.items ++ as_written (kept_number (scene_in scene.now) row step)) }
{
    let count = count_text(alloc, step)?;
    let at = number_place(scene, row);
    push_mark(
        out,
        Sign::Name,
        Shape::WordsTo { at },
        count.as_slice(),
        title,
    )
}

// Appends the marks of a step of the witness, in a row.
fn push_kept(
    alloc: Global,
    out: &mut Vec<Written>,
    scene: &Scene<'_>,
    race: Pair,
    row: usize,
    step: usize,
) -> Result<(), OutOfMemory>
    requires small { IsSmall (scene_in scene.now) }
    requires row { row < 2 ^ 40 }
    requires step { IsStep (scene_in scene.now) step }
    ensures { OnOk result (out.new.items
        ≡ out.old.items ++ flat_map as_written (kept_marks (scene_in scene.now) race row step)) }
{
    let title = kept_title(alloc, step, row)?;
    push_kept_mark(out, scene, race, row, step, title.as_slice())?;
    push_kept_number(alloc, out, scene, row, step, title.as_slice())
}

// What is told of a step that it leaves out.
fn left_title(alloc: Global, step: usize) -> Result<Vec<u8>, OutOfMemory>
    ensures { IfOk result (λ text. text.items ≡ left_title step) }
{
    let mut out = Vec::new(alloc);
    push(&mut out, "the witness leaves out ")?;
    push_step_word(&mut out, step)?;
    Ok(out)
}

// Appends the mark of a step that it leaves out, in a row.
fn push_left_mark(
    out: &mut Vec<Written>,
    scene: &Scene<'_>,
    row: usize,
    step: usize,
    title: &[u8],
) -> Result<(), OutOfMemory>
    requires small { IsSmall (scene_in scene.now) }
    requires row { row < 2 ^ 40 }
    requires step { IsStep (scene_in scene.now) step }
    requires title { title.now ≡ left_title step }
    ensures { OnOk result (out.new.items
        ≡ out.old.items ++ as_written (left_mark (scene_in scene.now) row step)) }
{
    let at = column_place(scene, thread_at(scene.sketch.feet, step), row);
    push_mark(out, Sign::LeftOut, Shape::Dot { at }, &[], title)
}

// Appends its number.
fn push_left_number(
    alloc: Global,
    out: &mut Vec<Written>,
    scene: &Scene<'_>,
    row: usize,
    step: usize,
    title: &[u8],
) -> Result<(), OutOfMemory>
    requires small { IsSmall (scene_in scene.now) }
    requires row { row < 2 ^ 40 }
    requires title { title.now ≡ left_title step }
    ensures { OnOk result (out.new.items
        ≡ out.old.items ++ as_written (left_number (scene_in scene.now) row step)) }
{
    let count = count_text(alloc, step)?;
    let at = number_place(scene, row);
    push_mark(
        out,
        Sign::LeftOut,
        Shape::WordsTo { at },
        count.as_slice(),
        title,
    )
}

// Appends the marks of a step that it leaves out, in a row.
fn push_left(
    alloc: Global,
    out: &mut Vec<Written>,
    scene: &Scene<'_>,
    row: usize,
    step: usize,
) -> Result<(), OutOfMemory>
    requires small { IsSmall (scene_in scene.now) }
    requires row { row < 2 ^ 40 }
    requires step { IsStep (scene_in scene.now) step }
    ensures { OnOk result (out.new.items
        ≡ out.old.items ++ flat_map as_written (left_marks (scene_in scene.now) row step)) }
{
    let title = left_title(alloc, step)?;
    push_left_mark(out, scene, row, step, title.as_slice())?;
    push_left_number(alloc, out, scene, row, step, title.as_slice())
}

// Appends the marks of the steps of the witness.
fn push_each_kept(
    alloc: Global,
    out: &mut Vec<Written>,
    scene: &Scene<'_>,
    race: Pair,
    steps: &[usize],
) -> Result<(), OutOfMemory>
    requires small { IsSmall (scene_in scene.now) }
    requires few { length steps.now < 2 ^ 40 }
    requires steps { All (IsStep (scene_in scene.now)) steps.now }
    ensures { OnOk result (out.new.items ≡ out.old.items
        ++ flat_map as_written (rows_marks (kept_marks (scene_in scene.now) race) 0 steps.now)) }
{
    let mut row = 0;
    for step in steps {
        push_kept(alloc, out, scene, race, row, *step)?;
        row += 1;
    }
    Ok(())
}

// Appends the marks of the steps that it leaves out, from a row on.
fn push_each_left(
    alloc: Global,
    out: &mut Vec<Written>,
    scene: &Scene<'_>,
    from: usize,
    steps: &[usize],
) -> Result<(), OutOfMemory>
    requires small { IsSmall (scene_in scene.now) }
    requires few { from + length steps.now < 2 ^ 40 }
    requires steps { All (IsStep (scene_in scene.now)) steps.now }
    ensures { OnOk result (out.new.items ≡ out.old.items
        ++ flat_map as_written (rows_marks (left_marks (scene_in scene.now)) from steps.now)) }
{
    let mut row = from;
    for step in steps {
        push_left(alloc, out, scene, row, *step)?;
        row += 1;
    }
    Ok(())
}

// Appends the name of the column.
fn push_column_name(out: &mut Vec<Written>, scene: &Scene<'_>) -> Result<(), OutOfMemory>
    requires { IsSmall (scene_in scene.now) }
    ensures { OnOk result (out.new.items ≡ out.old.items ++ as_written (column_name (scene_in scene.now))) }
{
    let at = Point {
        x: column_x(scene) + 12,
        y: 86,
    };
    push_mark(
        out,
        Sign::Name,
        Shape::Words { at },
        b"witness",
        b"the witness for the first race: an order of some of these steps that ends with the two steps of the race",
    )
}

// The line between the last two of so many steps.
fn column_line(scene: &Scene<'_>, race: Pair, count: usize) -> Shape
    requires small { IsSmall (scene_in scene.now) }
    requires race { IsRace (scene_in scene.now) race }
    requires count { count < 2 ^ 40 }
    ensures { result ≡ column_line (scene_in scene.now) race count }
{
    let feet = scene.sketch.feet;
    let first = thread_at(feet, race.first);
    let second = thread_at(feet, race.second);
    Shape::Line {
        from: column_place(scene, first, count.saturating_sub(2)),
        to: column_place(scene, second, count.saturating_sub(1)),
    }
}

// Appends that the last two of so many steps race.
fn push_column_race(
    out: &mut Vec<Written>,
    scene: &Scene<'_>,
    race: Pair,
    count: usize,
) -> Result<(), OutOfMemory>
    requires small { IsSmall (scene_in scene.now) }
    requires race { IsRace (scene_in scene.now) race }
    requires count { count < 2 ^ 40 }
    ensures { OnOk result (out.new.items
        ≡ out.old.items ++ as_written (column_race (scene_in scene.now) race count)) }
{
    push_mark(
        out,
        Sign::FirstRace,
        column_line(scene, race, count),
        &[],
        b"the two steps of the first race, one right after the other",
    )
}

// Appends the column of a race.
fn push_column_of(
    alloc: Global,
    out: &mut Vec<Written>,
    scene: &Scene<'_>,
    race: Pair,
    kept: &[usize],
    left: &[usize],
) -> Result<(), OutOfMemory>
    requires small { IsSmall (scene_in scene.now) }
    requires race { IsRace (scene_in scene.now) race }
    requires few { length kept.now + length left.now < 2 ^ 40 }
    requires kept { All (IsStep (scene_in scene.now)) kept.now }
    requires left { All (IsStep (scene_in scene.now)) left.now }
    ensures { OnOk result (out.new.items ≡ out.old.items
        ++ flat_map as_written (column_of (scene_in scene.now) race kept.now left.now)) }
{
    push_column_name(out, scene)?;
    push_column_race(out, scene, race, kept.len())?;
    push_each_kept(alloc, out, scene, race, kept)?;
    push_each_left(alloc, out, scene, kept.len(), left)
}

/// Appends the column, where the first listed race is drawn.
pub(crate) fn push_column(
    alloc: Global,
    out: &mut Vec<Written>,
    scene: &Scene<'_>,
    order: &Analysis,
) -> Result<(), OutOfMemory>
    requires small { IsSmall (scene_in scene.now) }
    requires tracks { Tracks order.now (scene_in scene.now).sketch.feet }
    ensures { OnOk result (out.new.items ≡ out.old.items
        ++ flat_map as_written (column_marks (scene_in scene.now) (scene_in scene.now).first)) }
{
    let Some(race) = scene.first else {
        return Ok(());
    };
    let feet = scene.sketch.feet;
    let kept = witness_steps(alloc, feet, order, race, scene.span.from)?;
    let left = left_out(alloc, feet, order, race, scene.done)?;
    push_column_of(alloc, out, scene, race, kept.as_slice(), left.as_slice())
}
