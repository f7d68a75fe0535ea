//! What is said of the order of two steps.
ghost use Rattle.std.specs.Prelude.{◌≡◌, ◌++◌, ◌<◌, All, IfOk, OnOk, length};
ghost use Rattle.mr_clocks.specs.Tracked.{Tracks};
ghost use Rattle.mr_listing.specs.Seen.{seen};
ghost use Rattle.mr_picture.specs.Way.{way};
ghost use Rattle.mr_picture.specs.WayTexts.{both_steps, order_text, step_place, step_stand, unfit_line, unordered_line, way_line, way_lines};

use crate::OutOfMemory;
use crate::because::{because_of, because_word};
use crate::lanes::push_thread_word;
use crate::order::is_before;
use crate::texts::{push, push_step_word};
use crate::way::way_to;
use mr_clocks::Analysis;
use mr_event::thread_at;
use mr_labels::push_number;
use mr_listing::{Shown, before_of, stand_text};
use std::alloc::Global;

// Appends the number and the thread of a step.
fn push_place(out: &mut Vec<u8>, shown: &Shown<'_>, step: usize) -> Result<(), OutOfMemory>
    requires { step < length (seen shown.now).feet }
    ensures { OnOk result (out.new.items ≡ out.old.items ++ step_place (seen shown.now) step) }
{
    push_step_word(out, step)?;
    push(out, ", ")?;
    push_thread_word(out, thread_at(shown.feet, step))
}

// Appends the statement of a step, and the end of the line.
fn push_stand(
    alloc: Global,
    out: &mut Vec<u8>,
    shown: &Shown<'_>,
    step: usize,
) -> Result<(), OutOfMemory>
    ensures { OnOk result (out.new.items ≡ out.old.items ++ step_stand (seen shown.now) step) }
{
    let stand = stand_text(alloc, shown, before_of(shown, step))?;
    push(out, "  ")?;
    out.extend_from_slice(stand.as_slice())?;
    push(out, "\n")
}

// Appends the line of a step on the way.
fn push_line(
    alloc: Global,
    out: &mut Vec<u8>,
    shown: &Shown<'_>,
    from: usize,
    step: usize,
) -> Result<(), OutOfMemory>
    requires first { from < length (seen shown.now).feet }
    requires second { step < length (seen shown.now).feet }
    ensures { OnOk result (out.new.items ≡ out.old.items ++ way_line (seen shown.now) from step) }
{
    push_place(out, shown, step)?;
    push(out, ", ")?;
    push(out, because_word(because_of(shown.feet, from, step)))?;
    push_stand(alloc, out, shown, step)
}

// Appends the lines of the steps on a way.
fn push_lines(
    alloc: Global,
    out: &mut Vec<u8>,
    shown: &Shown<'_>,
    first: usize,
    steps: &[usize],
) -> Result<(), OutOfMemory>
    requires first { first < length (seen shown.now).feet }
    requires within { All (λ k. k < length (seen shown.now).feet) steps.now }
    ensures { OnOk result (out.new.items ≡ out.old.items ++ way_lines (seen shown.now) first steps.now) }
{
    let mut from = first;
    for step in steps {
        push_line(alloc, out, shown, from, *step)?;
        from = *step;
    }
    Ok(())
}

// Appends the lines of a way, the first of which is that of the step where it begins.
fn push_way(
    alloc: Global,
    out: &mut Vec<u8>,
    shown: &Shown<'_>,
    order: &Analysis,
    i: usize,
    j: usize,
) -> Result<(), OutOfMemory>
    requires first { i < length (seen shown.now).feet }
    requires second { j < length (seen shown.now).feet }
    requires tracks { Tracks order.now (seen shown.now).feet }
    ensures { OnOk result (out.new.items ≡ out.old.items ++ (step_place (seen shown.now) i
        ++ step_stand (seen shown.now) i ++ way_lines (seen shown.now) i (way (seen shown.now).feet i j))) }
{
    let steps = way_to(alloc, shown.feet, order, i, j)?;
    push_place(out, shown, i)?;
    push_stand(alloc, out, shown, i)?;
    push_lines(alloc, out, shown, i, steps.as_slice())
}

// Appends two steps.
fn push_both(out: &mut Vec<u8>, i: usize, j: usize) -> Result<(), OutOfMemory>
    ensures { OnOk result (out.new.items ≡ out.old.items ++ both_steps i j) }
{
    push_step_word(out, i)?;
    push(out, " and ")?;
    push_step_word(out, j)
}

// Appends that nothing orders two steps.
fn push_unordered(out: &mut Vec<u8>, i: usize, j: usize) -> Result<(), OutOfMemory>
    ensures { OnOk result (out.new.items ≡ out.old.items ++ unordered_line i j) }
{
    push_both(out, i, j)?;
    push(out, ": nothing orders them\n")
}

// Appends that two steps can't be asked for, of so many.
fn push_unfit(out: &mut Vec<u8>, i: usize, j: usize, count: usize) -> Result<(), OutOfMemory>
    ensures { OnOk result (out.new.items ≡ out.old.items ++ unfit_line i j count) }
{
    push_both(out, i, j)?;
    push(out, ": the first must be earlier, and ")?;
    push_number(out, count as u64)?;
    push(out, " steps were completed\n")
}

/// The order of two steps of a run: the way from the first to the second by edges of happens-before, each with its
/// reason, or that nothing orders them. An `Err` is for want of memory.
pub fn order_text(
    alloc: Global,
    shown: &Shown<'_>,
    order: &Analysis,
    i: usize,
    j: usize,
) -> Result<Vec<u8>, OutOfMemory>
    requires tracks { Tracks order.now (seen shown.now).feet }
    ensures { IfOk result (λ text. text.items ≡ order_text (seen shown.now) i j) }
{
    let mut out = Vec::new(alloc);
    let count = shown.feet.len();
    if !(i < j && j < count) {
        push_unfit(&mut out, i, j, count)?;
    } else if is_before(shown.feet, order, i, j) {
        push_way(alloc, &mut out, shown, order, i, j)?;
    } else {
        push_unordered(&mut out, i, j)?;
    }
    Ok(out)
}
