//! The picture of a run.
ghost use Rattle.std.specs.Prelude.{◌≡◌, ◌<◌, ◌^◌, ◌++◌, All, IfOk, OnOk, flat_map, length, slice_get};
ghost use Rattle.mr_clocks.specs.Tracked.{Tracks};
ghost use Rattle.mr_listing.specs.Seen.{seen};
ghost use Rattle.mr_picture.specs.Written.{as_written};
ghost use Rattle.mr_picture.specs.Drawn.{span_scene};
ghost use Rattle.mr_picture.specs.Ends.{title_text};
ghost use Rattle.mr_picture.specs.Legend.{legend_signs};
ghost use Rattle.mr_picture.specs.Marks.{drawn_marks, round_marks};
ghost use Rattle.mr_picture.specs.Picture.{picture_text, scene_text};
ghost use Rattle.mr_picture.specs.Scene.{IsSmall, race_in, scene_in, scene_of, sketch_in};

use crate::arrows_of::push_arrows;
use crate::column::push_column;
use crate::drawn::{drawn_steps, names_of, tail_of};
use crate::ends::{push_heads, push_tail, title_text};
use crate::grid::{height, width};
use crate::lanes::push_lanes;
use crate::legend::{legend_signs, push_legend};
use crate::links::push_races;
use crate::scene::{Drawn, Scene, Sketch, chosen, done_in, near_in, race_in, threads_of};
use crate::steps::{push_rows, push_steps};
use crate::written::{Written, push_texts};
use crate::{OutOfMemory, Span};
use mr_clocks::Analysis;
use mr_event::Pair;
use mr_listing::{Shown, StepValues};
use mr_svg::{Sign, push_foot, push_head};
use std::alloc::Global;

// Writes the marks behind the texts of steps: the witness's column, and what is written above and below.
fn push_round(
    alloc: Global,
    out: &mut Vec<Written>,
    scene: &Scene<'_>,
    order: &Analysis,
    title: &[u8],
) -> Result<(), OutOfMemory>
    requires small { IsSmall (scene_in scene.now) }
    requires tracks { Tracks order.now (scene_in scene.now).sketch.feet }
    requires title { title.now ≡ title_text (scene_in scene.now) }
    ensures { OnOk result (out.new.items ≡ out.old.items ++ flat_map as_written (round_marks (scene_in scene.now))) }
{
    push_column(alloc, out, scene, order)?;
    push_heads(alloc, out, scene, title)?;
    push_tail(alloc, out, scene)
}

// Writes all marks of a scene but for the legend.
fn push_drawn(
    alloc: Global,
    out: &mut Vec<Written>,
    scene: &Scene<'_>,
    order: &Analysis,
    title: &[u8],
) -> Result<(), OutOfMemory>
    requires small { IsSmall (scene_in scene.now) }
    requires tracks { Tracks order.now (scene_in scene.now).sketch.feet }
    requires title { title.now ≡ title_text (scene_in scene.now) }
    ensures { OnOk result (out.new.items ≡ out.old.items ++ flat_map as_written (drawn_marks (scene_in scene.now))) }
{
    push_rows(alloc, out, scene)?;
    push_lanes(alloc, out, scene)?;
    push_races(alloc, out, scene)?;
    push_arrows(alloc, out, scene, order)?;
    push_steps(alloc, out, scene)?;
    push_round(alloc, out, scene, order, title)
}

// The document of a scene, of which these marks are drawn, with these rows of the legend.
fn laid_text(
    alloc: Global,
    scene: &Scene<'_>,
    title: &[u8],
    drawn: Vec<Written>,
    signs: &[Sign],
) -> Result<Vec<u8>, OutOfMemory>
    requires small { IsSmall (scene_in scene.now) }
    requires title { title.now ≡ title_text (scene_in scene.now) }
    requires drawn { drawn.items ≡ flat_map as_written (drawn_marks (scene_in scene.now)) }
    requires signs { signs.now ≡ legend_signs (scene_in scene.now) }
    ensures { IfOk result (λ text. text.items ≡ scene_text (scene_in scene.now)) }
{
    let mut marks = drawn;
    push_legend(&mut marks, scene, signs)?;
    let mut out = Vec::new(alloc);
    let high = height(scene, signs.len() as u64);
    push_head(&mut out, width(scene), high, title)?;
    push_texts(&mut out, marks.as_slice())?;
    push_foot(&mut out)?;
    Ok(out)
}

// The document of a scene.
fn scene_text(alloc: Global, scene: &Scene<'_>, order: &Analysis) -> Result<Vec<u8>, OutOfMemory>
    requires small { IsSmall (scene_in scene.now) }
    requires tracks { Tracks order.now (scene_in scene.now).sketch.feet }
    ensures { IfOk result (λ text. text.items ≡ scene_text (scene_in scene.now)) }
{
    let title = title_text(alloc, scene)?;
    let mut drawn = Vec::new(alloc);
    push_drawn(alloc, &mut drawn, scene, order, title.as_slice())?;
    let signs = legend_signs(alloc, drawn.as_slice())?;
    laid_text(alloc, scene, title.as_slice(), drawn, signs.as_slice())
}

// The first listed race, if both of its steps are among these.
fn first_race(races: &[Pair], done: Span) -> Option<Pair>
    ensures { result ≡ race_in done (slice_get races.now 0) }
{
    race_in(done, races.get(0).copied())
}

/// The picture of these steps of a run, of which this is drawn: `chosen` tells which steps a picture has. An `Err` is for
/// want of memory.
pub fn sketched(
    alloc: Global,
    sketch: &Sketch<'_>,
    order: &Analysis,
    span: Span,
    steps: &[Drawn],
) -> Result<Vec<u8>, OutOfMemory>
    requires to { span.to < 2 ^ 32 }
    requires feet { length (sketch_in sketch.now).feet < 2 ^ 32 }
    requires within { All (λ step. step.number < 2 ^ 32) steps.now }
    requires tracks { Tracks order.now (sketch_in sketch.now).feet }
    ensures { IfOk result (λ text. text.items ≡ scene_text (scene_of (sketch_in sketch.now) span steps.now)) }
{
    let threads = threads_of(alloc, steps)?;
    let near = near_in(alloc, span, sketch.races)?;
    let done = done_in(span, sketch.feet.len());
    let scene = Scene {
        sketch,
        span,
        done,
        steps,
        threads: threads.as_slice(),
        near: near.as_slice(),
        first: first_race(sketch.races, done),
    };
    scene_text(alloc, &scene, order)
}

// The picture of these steps of the run of a program with these values.
fn span_text(
    alloc: Global,
    shown: &Shown<'_>,
    values: &[StepValues],
    order: &Analysis,
    span: Span,
) -> Result<Vec<u8>, OutOfMemory>
    requires count { span.to < 2 ^ 32 }
    requires feet { length (seen shown.now).feet < 2 ^ 32 }
    requires tracks { Tracks order.now (seen shown.now).feet }
    ensures { IfOk result (λ text. text.items ≡ scene_text (span_scene (seen shown.now) values.now span)) }
{
    let steps = drawn_steps(alloc, shown, values, span, shown.steps)?;
    let names = names_of(alloc, shown)?;
    let tail = tail_of(alloc, shown)?;
    let sketch = Sketch {
        count: shown.count,
        feet: shown.feet,
        races: shown.races,
        names: names.as_slice(),
        tail: tail.as_slice(),
    };
    sketched(alloc, &sketch, order, span, steps.as_slice())
}

/// The picture of the run of a program with these values, of the steps that are asked for or, without any, of those about
/// the first race. An `Err` is for want of memory.
pub fn picture(
    alloc: Global,
    shown: &Shown<'_>,
    values: &[StepValues],
    order: &Analysis,
    asked: Option<Span>,
) -> Result<Vec<u8>, OutOfMemory>
    requires count { (seen shown.now).count < 2 ^ 32 }
    requires feet { length (seen shown.now).feet < 2 ^ 32 }
    requires tracks { Tracks order.now (seen shown.now).feet }
    ensures { IfOk result (λ text. text.items ≡ picture_text (seen shown.now) values.now asked) }
{
    let span = chosen(shown.count, shown.races, asked);
    span_text(alloc, shown, values, order, span)
}
