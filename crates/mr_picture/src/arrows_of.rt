//! The arrows of a part of a run.
ghost use Rattle.std.specs.Prelude.{◌≡◌, ◌<◌, ◌≤◌, ◌++◌, IfOk, OnOk, flat_map, length, map};
ghost use Rattle.mr_clocks.specs.Tracked.{Tracks};
ghost use Rattle.mr_rust_order.specs.Tracked.{Tracks as RustTracks};
ghost use Rattle.mr_picture.specs.Written.{as_written};
ghost use Rattle.mr_picture.specs.Arrows.{arrow_from, arrows, arrows_to};
ghost use Rattle.mr_picture.specs.Links.{arrow_mark};
ghost use Rattle.mr_picture.specs.Scene.{IsSmall, IsStep, scene_in};

use crate::OutOfMemory;
use crate::links::push_arrow;
use crate::order::is_arrow;
use crate::scene::Scene;
use crate::written::Written;
use mr_clocks::Analysis;
use mr_event::{Footprint, Pair};
use mr_rust_order::Analysis as RustOrder;
use std::alloc::Global;

// Rust's order of the first so many steps of a run.
fn rusts_order(alloc: Global, run: &[Footprint], count: usize) -> Result<RustOrder, OutOfMemory>
    requires { count ≤ length run.now }
    ensures { IfOk result (λ rust. RustTracks run.now count rust) }
{
    let mut rust = RustOrder::new(alloc)?;
    for step in 0..count {
        rust.add(run, step)?;
    }
    Ok(rust)
}

// Appends the arrow from a step to a later one, if there is one.
fn push_arrow_from(
    alloc: Global,
    out: &mut Vec<Written>,
    scene: &Scene<'_>,
    order: &Analysis,
    rust: &RustOrder,
    first: usize,
    second: usize,
) -> Result<(), OutOfMemory>
    requires small { IsSmall (scene_in scene.now) }
    requires first { first < second }
    requires second { IsStep (scene_in scene.now) second }
    requires tracks { Tracks order.now (scene_in scene.now).sketch.feet }
    requires rust { RustTracks (scene_in scene.now).sketch.feet second rust.now }
    ensures { OnOk result (out.new.items ≡ out.old.items ++ flat_map as_written
        (map (arrow_mark (scene_in scene.now)) (arrow_from (scene_in scene.now).sketch.feet second first))) }
{
    if is_arrow(scene.sketch.feet, order, first, second) {
        push_arrow(alloc, out, scene, rust, Pair { first, second })?;
    }
    Ok(())
}

// Appends the arrows to a step.
fn push_arrows_to(
    alloc: Global,
    out: &mut Vec<Written>,
    scene: &Scene<'_>,
    order: &Analysis,
    rust: &RustOrder,
    second: usize,
) -> Result<(), OutOfMemory>
    requires small { IsSmall (scene_in scene.now) }
    requires second { IsStep (scene_in scene.now) second }
    requires tracks { Tracks order.now (scene_in scene.now).sketch.feet }
    requires rust { RustTracks (scene_in scene.now).sketch.feet second rust.now }
    ensures { OnOk result (out.new.items ≡ out.old.items ++ flat_map as_written (map (arrow_mark (scene_in scene.now))
        (arrows_to (scene_in scene.now).sketch.feet (scene_in scene.now).done.from second))) }
{
    for first in scene.done.from..second {
        push_arrow_from(alloc, out, scene, order, rust, first, second)?;
    }
    Ok(())
}

// Appends the arrows to each step that is drawn; Rust's order is known up to the first.
fn push_each_arrow(
    alloc: Global,
    out: &mut Vec<Written>,
    scene: &Scene<'_>,
    order: &Analysis,
    rust: &mut RustOrder,
) -> Result<(), OutOfMemory>
    requires small { IsSmall (scene_in scene.now) }
    requires tracks { Tracks order.now (scene_in scene.now).sketch.feet }
    requires from { (scene_in scene.now).done.from ≤ (scene_in scene.now).done.to }
    requires rust { RustTracks (scene_in scene.now).sketch.feet (scene_in scene.now).done.from rust.old }
    ensures { OnOk result (out.new.items ≡ out.old.items ++ flat_map as_written
        (map (arrow_mark (scene_in scene.now)) (arrows (scene_in scene.now).sketch.feet (scene_in scene.now).done))) }
{
    for second in scene.done.from..scene.done.to {
        push_arrows_to(alloc, out, scene, order, rust, second)?;
        rust.add(scene.sketch.feet, second)?;
    }
    Ok(())
}

/// Appends the arrows between the steps that are drawn, by rising second step.
pub(crate) fn push_arrows(
    alloc: Global,
    out: &mut Vec<Written>,
    scene: &Scene<'_>,
    order: &Analysis,
) -> Result<(), OutOfMemory>
    requires small { IsSmall (scene_in scene.now) }
    requires tracks { Tracks order.now (scene_in scene.now).sketch.feet }
    ensures { OnOk result (out.new.items ≡ out.old.items ++ flat_map as_written
        (map (arrow_mark (scene_in scene.now)) (arrows (scene_in scene.now).sketch.feet (scene_in scene.now).done))) }
{
    if scene.done.to < scene.done.from {
        return Ok(());
    }
    let mut rust = rusts_order(alloc, scene.sketch.feet, scene.done.from)?;
    push_each_arrow(alloc, out, scene, order, &mut rust)
}
