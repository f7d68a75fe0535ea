//! Where marks stand.
ghost use Rattle.std.specs.Prelude.{◌≡◌, ◌+◌, ◌<◌, ◌^◌, ◌≤◌, count_by, length, nat_lt};
ghost use Rattle.mr_picture.specs.Grid.{column_width, column_x, is_line_end, lane_x, legend_y, place_of, row_y};
ghost use Rattle.mr_picture.specs.Grid.{rows_end, tail_count, tail_y, text_x, width};
ghost use Rattle.mr_picture.specs.Scene.{IsSmall, scene_in};

use crate::scene::Scene;
use mr_event::Pair;
use mr_svg::Point;

/// How many of these threads have a smaller number.
pub(crate) fn count_below(threads: &[u32], thread: u32) -> u64
    requires { length threads.now ≤ 1024 }
    ensures { result ≡ count_by (λ t. nat_lt t thread) threads.now }
{
    threads.iter().filter(|other| **other < thread).count() as u64
}

/// The lane of a thread.
pub(crate) fn lane_x(threads: &[u32], thread: u32) -> u64
    requires { length threads.now ≤ 1024 }
    ensures { result ≡ lane_x threads.now thread }
{
    80 + 40 * count_below(threads, thread)
}

/// The row of a step.
pub(crate) fn row_y(from: usize, step: usize) -> u64
    requires { step < 2 ^ 40 }
    ensures { result ≡ row_y from step }
{
    120 + 44 * step.saturating_sub(from) as u64
}

/// Where a step of a thread stands.
pub(crate) fn place_of(scene: &Scene<'_>, thread: u32, step: usize) -> Point
    requires small { IsSmall (scene_in scene.now) }
    requires step { step < 2 ^ 40 }
    ensures { result ≡ place_of (scene_in scene.now) thread step }
{
    Point {
        x: lane_x(scene.threads, thread),
        y: row_y(scene.span.from, step),
    }
}

/// Where the texts of steps begin.
pub(crate) fn text_x(scene: &Scene<'_>) -> u64
    requires { IsSmall (scene_in scene.now) }
    ensures { result ≡ text_x (scene_in scene.now) }
{
    80 + 40 * scene.threads.len() as u64
}

/// Where the witness's column begins.
pub(crate) fn column_x(scene: &Scene<'_>) -> u64
    requires { IsSmall (scene_in scene.now) }
    ensures { result ≡ column_x (scene_in scene.now) }
{
    text_x(scene) + 520
}

// How wide that is, if there is one.
fn column_width(threads: usize, race: Option<Pair>) -> u64
    requires { threads ≤ 1024 }
    ensures { result ≡ column_width threads race }
{
    match race {
        None => 0,
        Some(_) => 96 + 20 * threads as u64,
    }
}

/// How wide the picture is.
pub(crate) fn width(scene: &Scene<'_>) -> u64
    requires { IsSmall (scene_in scene.now) }
    ensures { result ≡ width (scene_in scene.now) }
{
    column_x(scene) + column_width(scene.threads.len(), scene.first)
}

/// Where the rows end.
pub(crate) fn rows_end(scene: &Scene<'_>) -> u64
    requires { IsSmall (scene_in scene.now) }
    ensures { result ≡ rows_end (scene_in scene.now) }
{
    98 + 44 * scene.span.to.saturating_sub(scene.span.from) as u64
}

/// Whether a byte ends a line.
pub(crate) fn is_line_end(byte: u8) -> bool
    ensures { result ≡ is_line_end byte }
{
    byte == b'\n'
}

// How many lines of the run's end are drawn.
pub(crate) fn tail_count(scene: &Scene<'_>) -> u64
    ensures { result ≡ tail_count (scene_in scene.now) }
{
    let lines = scene
        .sketch
        .tail
        .iter()
        .filter(|byte| is_line_end(**byte))
        .count();
    lines.min(40) as u64
}

/// A line of the run's end.
pub(crate) fn tail_y(scene: &Scene<'_>, number: u64) -> u64
    requires small { IsSmall (scene_in scene.now) }
    requires number { number ≤ 40 }
    ensures { result ≡ tail_y (scene_in scene.now) number }
{
    rows_end(scene) + 44 + 20 * number
}

/// A row of the legend.
pub(crate) fn legend_y(scene: &Scene<'_>, number: u64) -> u64
    requires small { IsSmall (scene_in scene.now) }
    requires number { number ≤ 9 }
    ensures { result ≡ legend_y (scene_in scene.now) number }
{
    tail_y(scene, tail_count(scene)) + 20 + 22 * number
}

/// How high a picture is whose legend has so many rows.
pub(crate) fn height(scene: &Scene<'_>, rows: u64) -> u64
    requires small { IsSmall (scene_in scene.now) }
    requires rows { rows ≤ 9 }
    ensures { result ≡ legend_y (scene_in scene.now) rows + 16 }
{
    legend_y(scene, rows) + 16
}
