//! The line below the races at two places, and the line above all.
ghost use Rattle.std.specs.Prelude.{◌≡◌, ◌++◌, OnOk};
ghost use Rattle.mr_clocks.specs.Tracked.{Tracks};
ghost use Rattle.mr_two_orders.specs.Pairs.{IsRising};
ghost use Rattle.mr_two_orders.specs.Standing.{both_text, count_text, head_line, machine_line, places_word};
ghost use Rattle.mr_two_orders.specs.Standing.{races_word, rust_alone, rust_line, standing};

use crate::OutOfMemory;
use crate::reason::{push, push_machine_why, push_rust_why};
use mr_clocks::Analysis;
use mr_event::{Footprint, Pair};
use mr_labels::push_number;
use mr_listing::Group;
use std::alloc::Global;

// Appends that both lists have races at two places.
fn push_both(out: &mut Vec<u8>, rust: usize, machine: usize) -> Result<(), OutOfMemory>
    ensures { OnOk result (out.new.items ≡ out.old.items ++ both_text rust machine) }
{
    push(out, "both: ")?;
    push_number(out, rust as u64)?;
    push(out, " by Rust's order, ")?;
    push_number(out, machine as u64)?;
    push(out, " by the machine's")
}

/// Appends that Rust's list alone has a race, and why.
pub(crate) fn push_rust_alone(
    alloc: Global,
    out: &mut Vec<u8>,
    run: &[Footprint],
    order: &Analysis,
    machine: &[Pair],
    told: bool,
    pair: Pair,
) -> Result<(), OutOfMemory>
    requires tracks { Tracks order.now run.now }
    requires rising { IsRising machine.now }
    ensures { OnOk result (out.new.items ≡ out.old.items ++ rust_alone told run.now machine.now pair) }
{
    push(out, "Rust's order alone: ")?;
    push_machine_why(alloc, out, run, order, machine, told, pair)
}

// Appends how the machine's list stands to a group of Rust's.
fn push_standing(
    alloc: Global,
    out: &mut Vec<u8>,
    run: &[Footprint],
    order: &Analysis,
    machine: &[Pair],
    told: bool,
    group: Group,
    count: usize,
) -> Result<(), OutOfMemory>
    requires tracks { Tracks order.now run.now }
    requires rising { IsRising machine.now }
    ensures { OnOk result (out.new.items ≡ out.old.items ++ standing told run.now machine.now group count) }
{
    if count == 0 {
        push_rust_alone(alloc, out, run, order, machine, told, group.first)
    } else {
        push_both(out, group.count, count)
    }
}

/// Appends the line below a group of Rust's list: the machine's list has so many races at its places, or none, and then
/// why; and by which steps, where that is told. An `Err` is for want of memory.
pub fn push_rust_line(
    alloc: Global,
    out: &mut Vec<u8>,
    run: &[Footprint],
    order: &Analysis,
    machine: &[Pair],
    told: bool,
    group: Group,
    count: usize,
) -> Result<(), OutOfMemory>
    requires tracks { Tracks order.now run.now }
    requires rising { IsRising machine.now }
    ensures { OnOk result (out.new.items ≡ out.old.items ++ rust_line told run.now machine.now group count) }
{
    push(out, "        ")?;
    push_standing(alloc, out, run, order, machine, told, group, count)?;
    push(out, "\n")
}

/// Appends the line below a group of the machine's list, at whose places Rust's has no race. An `Err` is for want of
/// memory.
pub fn push_machine_line(out: &mut Vec<u8>, rust: &[Pair], pair: Pair) -> Result<(), OutOfMemory>
    requires { IsRising rust.now }
    ensures { OnOk result (out.new.items ≡ out.old.items ++ machine_line rust.now pair) }
{
    push(out, "        the machine's order alone: ")?;
    push_rust_why(out, rust, pair)?;
    push(out, "\n")
}

/// Appends how many races there are.
pub(crate) fn push_races_word(out: &mut Vec<u8>, races: usize) -> Result<(), OutOfMemory>
    ensures { OnOk result (out.new.items ≡ out.old.items ++ races_word races) }
{
    if races == 1 {
        return push(out, "1 race");
    }
    push_number(out, races as u64)?;
    push(out, " races")
}

// Appends how many pairs of places there are.
fn push_places_word(out: &mut Vec<u8>, places: usize) -> Result<(), OutOfMemory>
    ensures { OnOk result (out.new.items ≡ out.old.items ++ places_word places) }
{
    if places == 1 {
        return push(out, "1 pair of places");
    }
    push_number(out, places as u64)?;
    push(out, " pairs of places")
}

fn push_count_text(out: &mut Vec<u8>, races: usize, places: usize) -> Result<(), OutOfMemory>
    ensures { OnOk result (out.new.items ≡ out.old.items ++ count_text races places) }
{
    push_races_word(out, races)?;
    push(out, " at ")?;
    push_places_word(out, places)
}

/// Appends the first line: how many races each list has, at how many pairs of places. An `Err` is for want of memory.
pub fn push_head(
    out: &mut Vec<u8>,
    rust: usize,
    rust_places: usize,
    machine: usize,
    machine_places: usize,
) -> Result<(), OutOfMemory>
    ensures { OnOk result (out.new.items
        ≡ out.old.items ++ head_line rust rust_places machine machine_places) }
{
    push(out, "Rust's order: ")?;
    push_count_text(out, rust, rust_places)?;
    push(out, "; the machine's: ")?;
    push_count_text(out, machine, machine_places)?;
    push(out, "\n")
}
