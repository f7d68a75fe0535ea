//! What is written above the rows and below them.
ghost use Rattle.std.specs.Prelude.{◌≡◌, ◌+◌, ◌-◌, ◌<◌, ◌≤◌, ◌^◌, ◌++◌, ◌∷◌, [], IfOk, OnOk, flat_map, length};
ghost use Rattle.mr_picture.specs.Written.{as_written};
ghost use Rattle.mr_svg.specs.declared.shape.Shape.TheVariants as Shape;
ghost use Rattle.mr_picture.specs.Ends.{behind_line, counted, first_line, head_marks, line_length, line_marks};
ghost use Rattle.mr_picture.specs.Ends.{left_text, line_room, names_mark, names_marks, part_mark, part_text, tail_mark, title_mark};
ghost use Rattle.mr_picture.specs.Ends.{race_total, races_text, six_text, steps_text, title_text};
ghost use Rattle.mr_picture.specs.Grid.{tail_count};
ghost use Rattle.mr_picture.specs.Scene.{IsSmall, scene_in};
ghost use Rattle.mr_picture.specs.Steps.{mark_of};
ghost use Rattle.mr_picture.specs.Texts.{cut_at};

use crate::OutOfMemory;
use crate::grid::{is_line_end, tail_count, tail_y, width};
use crate::links::MOST;
use crate::scene::{Scene, holds_race};
use crate::texts::{cut_at, push};
use crate::written::{Written, push_mark};
use mr_labels::push_number;
use mr_svg::{Point, Shape, Sign};
use std::alloc::Global;

// So many bytes of a line are drawn at most.
const LINE: usize = 70;

// Appends a count, and what is counted.
fn push_counted(out: &mut Vec<u8>, count: usize, one: &str, many: &str) -> Result<(), OutOfMemory>
    ensures { OnOk result (out.new.items ≡ out.old.items ++ counted count one.now many.now) }
{
    push_number(out, count as u64)?;
    if count == 1 {
        push(out, one)
    } else {
        push(out, many)
    }
}

/// How many steps and races there are.
pub(crate) fn title_text(alloc: Global, scene: &Scene<'_>) -> Result<Vec<u8>, OutOfMemory>
    ensures { IfOk result (λ text. text.items ≡ title_text (scene_in scene.now)) }
{
    let mut out = Vec::new(alloc);
    push(&mut out, "a run of ")?;
    push_counted(&mut out, scene.sketch.count, " step", " steps")?;
    push(&mut out, ", ")?;
    push_counted(&mut out, scene.sketch.races.len(), " race", " races")?;
    Ok(out)
}

// Appends how many steps are drawn, and how many are left out.
fn push_left_out(out: &mut Vec<u8>, scene: &Scene<'_>) -> Result<(), OutOfMemory>
    ensures { OnOk result (out.new.items ≡ out.old.items ++ left_text (scene_in scene.now)) }
{
    let span = scene.span;
    push(out, "drawn: ")?;
    push_number(out, span.to.saturating_sub(span.from) as u64)?;
    push(out, "; left out: ")?;
    push_number(out, span.from as u64)?;
    push(out, " before them and ")?;
    push_number(out, scene.sketch.count.saturating_sub(span.to) as u64)?;
    push(out, " behind")
}

// Appends which steps are drawn.
fn push_drawn_steps(out: &mut Vec<u8>, scene: &Scene<'_>) -> Result<(), OutOfMemory>
    ensures { OnOk result (out.new.items ≡ out.old.items ++ steps_text (scene_in scene.now)) }
{
    if scene.span.from == 0 && scene.span.to == scene.sketch.count {
        push(out, "all of them are drawn")
    } else {
        push_left_out(out, scene)
    }
}

// How many races there are of which both steps are drawn.
fn race_total(scene: &Scene<'_>) -> usize
    ensures { result ≡ race_total (scene_in scene.now) }
{
    let done = scene.done;
    scene
        .near
        .iter()
        .filter(|race| holds_race(done, **race))
        .count()
}

// Appends of how many races six are drawn.
fn push_six(out: &mut Vec<u8>, races: usize) -> Result<(), OutOfMemory>
    ensures { OnOk result (out.new.items ≡ out.old.items ++ six_text races) }
{
    push(out, "; of their ")?;
    push_number(out, races as u64)?;
    push(out, " races 6 are drawn")
}

// Appends the same where there are more.
fn push_races_told(out: &mut Vec<u8>, races: usize) -> Result<(), OutOfMemory>
    ensures { OnOk result (out.new.items ≡ out.old.items ++ races_text races) }
{
    if MOST < races {
        push_six(out, races)
    } else {
        Ok(())
    }
}

// Which steps are drawn, and what is left out.
fn part_text(alloc: Global, scene: &Scene<'_>) -> Result<Vec<u8>, OutOfMemory>
    ensures { IfOk result (λ text. text.items ≡ part_text (scene_in scene.now)) }
{
    let mut out = Vec::new(alloc);
    push_drawn_steps(&mut out, scene)?;
    push_races_told(&mut out, race_total(scene))?;
    Ok(out)
}

// Appends a text at the left, or so many bytes of it.
fn push_line(
    alloc: Global,
    out: &mut Vec<Written>,
    sign: Sign,
    y: u64,
    most: usize,
    text: &[u8],
) -> Result<(), OutOfMemory>
    ensures { OnOk result (out.new.items ≡ out.old.items
        ++ as_written (mark_of sign (Shape.Words (record { x = 16; y = y })) (cut_at most text.now) text.now)) }
{
    let short = cut_at(alloc, most, text)?;
    let at = Point { x: 16, y };
    push_mark(out, sign, Shape::Words { at }, short.as_slice(), text)
}

// Appends how many steps and races there are.
fn push_title(
    alloc: Global,
    out: &mut Vec<Written>,
    scene: &Scene<'_>,
    title: &[u8],
) -> Result<(), OutOfMemory>
    requires { title.now ≡ title_text (scene_in scene.now) }
    ensures { OnOk result (out.new.items ≡ out.old.items ++ as_written (title_mark (scene_in scene.now))) }
{
    push_line(alloc, out, Sign::Title, 30, LINE, title)
}

// How many bytes have room on a line.
fn line_room(scene: &Scene<'_>) -> usize
    requires { IsSmall (scene_in scene.now) }
    ensures { result ≡ line_room (scene_in scene.now) }
{
    ((width(scene) - 40) / 8) as usize
}

// Appends which steps are drawn, and what is left out.
fn push_part(alloc: Global, out: &mut Vec<Written>, scene: &Scene<'_>) -> Result<(), OutOfMemory>
    requires { IsSmall (scene_in scene.now) }
    ensures { OnOk result (out.new.items ≡ out.old.items ++ as_written (part_mark (scene_in scene.now))) }
{
    let part = part_text(alloc, scene)?;
    push_line(
        alloc,
        out,
        Sign::Note,
        54,
        line_room(scene),
        part.as_slice(),
    )
}

// Appends whose the lanes are.
fn push_names_mark(
    alloc: Global,
    out: &mut Vec<Written>,
    scene: &Scene<'_>,
) -> Result<(), OutOfMemory>
    requires { IsSmall (scene_in scene.now) }
    ensures { OnOk result (out.new.items ≡ out.old.items ++ as_written (names_mark (scene_in scene.now))) }
{
    let room = line_room(scene);
    push_line(alloc, out, Sign::Note, 70, room, scene.sketch.names)
}

// Appends whose the lanes are, where it is known.
fn push_names(alloc: Global, out: &mut Vec<Written>, scene: &Scene<'_>) -> Result<(), OutOfMemory>
    requires { IsSmall (scene_in scene.now) }
    ensures { OnOk result (out.new.items
        ≡ out.old.items ++ flat_map as_written (names_marks (scene_in scene.now))) }
{
    if scene.sketch.names.is_empty() {
        Ok(())
    } else {
        push_names_mark(alloc, out, scene)
    }
}

/// Appends what is written above the rows.
pub(crate) fn push_heads(
    alloc: Global,
    out: &mut Vec<Written>,
    scene: &Scene<'_>,
    title: &[u8],
) -> Result<(), OutOfMemory>
    requires small { IsSmall (scene_in scene.now) }
    requires title { title.now ≡ title_text (scene_in scene.now) }
    ensures { OnOk result (out.new.items ≡ out.old.items ++ flat_map as_written (head_marks (scene_in scene.now))) }
{
    push_title(alloc, out, scene, title)?;
    push_part(alloc, out, scene)?;
    push_names(alloc, out, scene)
}

// How many bytes stand before the first end of a line.
fn line_length(text: &[u8]) -> usize
    ensures { result ≡ line_length text.now }
{
    text.iter().take_while(|byte| !is_line_end(**byte)).count()
}

// The first line of a text.
fn first_line(text: &[u8]) -> &[u8]
    ensures { result.now ≡ first_line text.now }
{
    &text[..line_length(text)]
}

// What stands behind it.
fn behind_line(text: &[u8]) -> &[u8]
    ensures { result.now ≡ behind_line text.now }
{
    let end = line_length(text);
    if end < text.len() {
        &text[end + 1..]
    } else {
        &[]
    }
}

// Appends a line of the text of the run's end.
fn push_tail_line(
    alloc: Global,
    out: &mut Vec<Written>,
    scene: &Scene<'_>,
    number: u64,
    line: &[u8],
) -> Result<(), OutOfMemory>
    requires small { IsSmall (scene_in scene.now) }
    requires number { number ≤ 40 }
    ensures { OnOk result (out.new.items
        ≡ out.old.items ++ as_written (tail_mark (scene_in scene.now) number line.now)) }
{
    push_line(alloc, out, Sign::Text, tail_y(scene, number), LINE, line)
}

/// Appends the text of the run's end, line by line.
pub(crate) fn push_tail(
    alloc: Global,
    out: &mut Vec<Written>,
    scene: &Scene<'_>,
) -> Result<(), OutOfMemory>
    requires { IsSmall (scene_in scene.now) }
    ensures { OnOk result (out.new.items ≡ out.old.items ++ flat_map as_written
        (line_marks (scene_in scene.now) 0 (tail_count (scene_in scene.now)) (scene_in scene.now).sketch.tail)) }
{
    let count = tail_count(scene);
    let mut rest = scene.sketch.tail;
    for number in 0..count {
        push_tail_line(alloc, out, scene, number, first_line(rest))?;
        rest = behind_line(rest);
    }
    Ok(())
}
