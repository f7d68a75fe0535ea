//! The legend: a row for each of its signs that is drawn.
ghost use Rattle.std.specs.Prelude.{◌≡◌, ◌+◌, ◌≤◌, ◌++◌, IfOk, OnOk, flat_map, length};
ghost use Rattle.std.specs.List.{filter};
ghost use Rattle.mr_picture.specs.Written.{as_written};
ghost use Rattle.mr_picture.specs.Column.{rows_marks};
ghost use Rattle.mr_picture.specs.Grid.{legend_y};
ghost use Rattle.mr_picture.specs.Legend.{arrow_entry, entry, has_sign, is_arrow, is_race, legend_order, legend_row};
ghost use Rattle.mr_picture.specs.Legend.{linked, number_of, part_with, race_entry, row_of, sign_text, step_entry};
ghost use Rattle.mr_picture.specs.Legend.{words_mark};
ghost use Rattle.mr_picture.specs.Scene.{IsSmall, scene_in};

use crate::OutOfMemory;
use crate::grid::legend_y;
use crate::scene::Scene;
use crate::steps::{Part, part_shape};
use crate::written::{Written, push_mark};
use mr_svg::{Point, Shape, Sign};
use std::alloc::Global;

// Each sign has a number of its own.
fn number_of(sign: Sign) -> u64
    ensures { result ≡ number_of sign }
{
    match sign {
        Sign::Row => 0,
        Sign::Lane => 1,
        Sign::Step => 2,
        Sign::Racing => 3,
        Sign::Stop => 4,
        Sign::Wake => 5,
        Sign::Dependence => 6,
        Sign::MachineOrder => 7,
        Sign::Race => 8,
        Sign::FirstRace => 9,
        Sign::LeftOut => 10,
        Sign::Title => 11,
        Sign::Name => 12,
        Sign::Text => 13,
        Sign::Note => 14,
    }
}

// Whether one of these marks has a sign.
fn has_sign(marks: &[Written], sign: Sign) -> bool
    ensures { result ≡ has_sign marks.now sign }
{
    marks
        .iter()
        .any(|mark| number_of(mark.sign) == number_of(sign))
}

// Those of these signs that one of these marks has.
fn drawn_of(alloc: Global, signs: &[Sign], marks: &[Written]) -> Result<Vec<Sign>, OutOfMemory>
    ensures { IfOk result (λ drawn. drawn.items ≡ filter (has_sign marks.now) signs.now) }
{
    signs
        .iter()
        .copied()
        .filter(|sign| has_sign(marks, *sign))
        .collect(alloc)
}

/// The rows of the legend of these marks, by their signs.
pub(crate) fn legend_signs(alloc: Global, marks: &[Written]) -> Result<Vec<Sign>, OutOfMemory>
    ensures { IfOk result (λ signs. signs.items ≡ filter (has_sign marks.now) legend_order) }
{
    let told = [
        Sign::Step,
        Sign::Racing,
        Sign::Stop,
        Sign::LeftOut,
        Sign::Wake,
        Sign::Dependence,
        Sign::MachineOrder,
        Sign::FirstRace,
        Sign::Race,
    ];
    drawn_of(alloc, &told, marks)
}

// A point of a row of the legend.
fn point_at(scene: &Scene<'_>, x: u64, number: u64) -> Point
    requires small { IsSmall (scene_in scene.now) }
    requires number { number ≤ 9 }
    ensures { result ≡ record { x = x; y = legend_y (scene_in scene.now) number } }
{
    Point {
        x,
        y: legend_y(scene, number),
    }
}

// Appends the words of a row of the legend.
fn push_words(
    out: &mut Vec<Written>,
    scene: &Scene<'_>,
    number: u64,
    words: &[u8],
) -> Result<(), OutOfMemory>
    requires small { IsSmall (scene_in scene.now) }
    requires number { number ≤ 9 }
    ensures { OnOk result (out.new.items ≡ out.old.items ++ as_written (words_mark (scene_in scene.now) number words.now)) }
{
    let at = Point {
        x: 76,
        y: legend_y(scene, number) + 5,
    };
    push_mark(out, Sign::Note, Shape::Words { at }, words, words)
}

// Appends a row of the legend: a sign, and what it says.
fn push_entry(
    out: &mut Vec<Written>,
    scene: &Scene<'_>,
    number: u64,
    sign: Sign,
    shape: Shape,
    words: &[u8],
) -> Result<(), OutOfMemory>
    requires small { IsSmall (scene_in scene.now) }
    requires number { number ≤ 9 }
    ensures { OnOk result (out.new.items ≡ out.old.items
        ++ flat_map as_written (entry (scene_in scene.now) number sign shape words.now)) }
{
    push_mark(out, sign, shape, &[], words)?;
    push_words(out, scene, number, words)
}

// Appends a row of the legend: a link of two steps, and what it says.
fn push_linked(
    out: &mut Vec<Written>,
    scene: &Scene<'_>,
    number: u64,
    sign: Sign,
    end: Sign,
    one: Shape,
    other: Shape,
    words: &[u8],
) -> Result<(), OutOfMemory>
    requires small { IsSmall (scene_in scene.now) }
    requires number { number ≤ 9 }
    ensures { OnOk result (out.new.items ≡ out.old.items
        ++ flat_map as_written (linked (scene_in scene.now) number sign end one other words.now)) }
{
    let line = Shape::Line {
        from: point_at(scene, 18, number),
        to: point_at(scene, 62, number),
    };
    push_mark(out, sign, line, &[], words)?;
    push_mark(out, end, one, &[], words)?;
    push_mark(out, end, other, &[], words)?;
    push_words(out, scene, number, words)
}

// What a step is that has this sign.
fn part_with(sign: Sign) -> Part
    ensures { result ≡ part_with sign }
{
    match sign {
        Sign::Racing => Part::Racing,
        Sign::Stop => Part::Stopped,
        _ => Part::Plain,
    }
}

// Appends a row of the legend: a step.
fn push_step_entry(
    out: &mut Vec<Written>,
    scene: &Scene<'_>,
    number: u64,
    sign: Sign,
    words: &[u8],
) -> Result<(), OutOfMemory>
    requires small { IsSmall (scene_in scene.now) }
    requires number { number ≤ 9 }
    ensures { OnOk result (out.new.items ≡ out.old.items
        ++ flat_map as_written (step_entry (scene_in scene.now) number sign words.now)) }
{
    let at = point_at(scene, 40, number);
    let shape = part_shape(part_with(sign), at);
    push_entry(out, scene, number, sign, shape, words)
}

// Appends a row of the legend: an arrow between two steps.
fn push_arrow_entry(
    out: &mut Vec<Written>,
    scene: &Scene<'_>,
    number: u64,
    sign: Sign,
    words: &[u8],
) -> Result<(), OutOfMemory>
    requires small { IsSmall (scene_in scene.now) }
    requires number { number ≤ 9 }
    ensures { OnOk result (out.new.items ≡ out.old.items
        ++ flat_map as_written (arrow_entry (scene_in scene.now) number sign words.now)) }
{
    let one = Shape::Dot {
        at: point_at(scene, 18, number),
    };
    let other = Shape::Dot {
        at: point_at(scene, 62, number),
    };
    push_linked(out, scene, number, sign, Sign::Step, one, other, words)
}

// Appends a row of the legend: a race of two steps.
fn push_race_entry(
    out: &mut Vec<Written>,
    scene: &Scene<'_>,
    number: u64,
    sign: Sign,
    words: &[u8],
) -> Result<(), OutOfMemory>
    requires small { IsSmall (scene_in scene.now) }
    requires number { number ≤ 9 }
    ensures { OnOk result (out.new.items ≡ out.old.items
        ++ flat_map as_written (race_entry (scene_in scene.now) number sign words.now)) }
{
    let one = Shape::Diamond {
        at: point_at(scene, 18, number),
    };
    let other = Shape::Diamond {
        at: point_at(scene, 62, number),
    };
    push_linked(out, scene, number, sign, Sign::Racing, one, other, words)
}

// What the legend says of a sign.
fn sign_text(sign: Sign) -> &'static [u8]
    ensures { result.now ≡ sign_text sign }
{
    match sign {
        Sign::Step => b"a step, in the lane of its thread; later ones are below",
        Sign::Racing => b"a step of a race",
        Sign::Stop => b"the step that ended the run",
        Sign::LeftOut => b"a step that the witness leaves out",
        Sign::Wake => b"the first step woke or started that thread",
        Sign::Dependence => b"the second step depends on the first one",
        Sign::MachineOrder => b"it depends on the first one, but not in Rust's order",
        Sign::FirstRace => b"the first race: neither step happens before the other",
        Sign::Race => b"another race",
        _ => b"",
    }
}

fn is_arrow(sign: Sign) -> bool
    ensures { result ≡ is_arrow sign }
{
    matches!(sign, Sign::Wake | Sign::Dependence | Sign::MachineOrder)
}

fn is_race(sign: Sign) -> bool
    ensures { result ≡ is_race sign }
{
    matches!(sign, Sign::FirstRace | Sign::Race)
}

// Appends the row of a sign, with these words.
fn push_row_of(
    out: &mut Vec<Written>,
    scene: &Scene<'_>,
    number: u64,
    sign: Sign,
    words: &[u8],
) -> Result<(), OutOfMemory>
    requires small { IsSmall (scene_in scene.now) }
    requires number { number ≤ 9 }
    ensures { OnOk result (out.new.items ≡ out.old.items
        ++ flat_map as_written (row_of (scene_in scene.now) number sign words.now)) }
{
    if is_arrow(sign) {
        push_arrow_entry(out, scene, number, sign, words)
    } else if is_race(sign) {
        push_race_entry(out, scene, number, sign, words)
    } else {
        push_step_entry(out, scene, number, sign, words)
    }
}

// Appends the row of a sign.
fn push_row(
    out: &mut Vec<Written>,
    scene: &Scene<'_>,
    number: u64,
    sign: Sign,
) -> Result<(), OutOfMemory>
    requires small { IsSmall (scene_in scene.now) }
    requires number { number ≤ 9 }
    ensures { OnOk result (out.new.items ≡ out.old.items
        ++ flat_map as_written (legend_row (scene_in scene.now) number sign)) }
{
    push_row_of(out, scene, number, sign, sign_text(sign))
}

/// Appends the legend, which has these rows.
pub(crate) fn push_legend(
    out: &mut Vec<Written>,
    scene: &Scene<'_>,
    signs: &[Sign],
) -> Result<(), OutOfMemory>
    requires small { IsSmall (scene_in scene.now) }
    requires few { length signs.now ≤ 9 }
    ensures { OnOk result (out.new.items ≡ out.old.items
        ++ flat_map as_written (rows_marks (legend_row (scene_in scene.now)) 0 signs.now)) }
{
    let mut row = 0;
    for sign in signs {
        push_row(out, scene, row, *sign)?;
        row += 1;
    }
    Ok(())
}
