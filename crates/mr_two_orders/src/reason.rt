//! Why one list has races at two places where the other has none.
ghost use Rattle.std.specs.Prelude.{◌≡◌, ◌++◌, ◌<◌, IfSome, OnOk, codes, length};
ghost use Rattle.mr_clocks.specs.Tracked.{Tracks};
ghost use Rattle.mr_two_orders.specs.Pairs.{IsRising, partner};
ghost use Rattle.mr_two_orders.specs.Standing.{before_text, gap_text, in_machine, in_rust, link_text, lists_text};
ghost use Rattle.mr_two_orders.specs.Standing.{machine_why, reason_text, rust_why, since_text};

use crate::OutOfMemory;
use crate::partner::partner;
use mr_clocks::Analysis;
use mr_event::{Footprint, Pair};
use mr_picture::{because_of, because_word, push_step_word, way_to};
use mr_rust_order::first_gap;
use std::alloc::Global;

/// Appends a text of our own.
pub(crate) fn push(out: &mut Vec<u8>, text: &str) -> Result<(), OutOfMemory>
    ensures { OnOk result (out.new.items ≡ out.old.items ++ text.now) }
{
    out.extend_from_slice(text.as_bytes())
}

// Appends that the first of two steps comes before the second.
fn push_before(out: &mut Vec<u8>, pair: Pair) -> Result<(), OutOfMemory>
    ensures { OnOk result (out.new.items ≡ out.old.items ++ before_text pair) }
{
    push_step_word(out, pair.first)?;
    push(out, " comes before ")?;
    push_step_word(out, pair.second)
}

// Appends that a list has a step with another one.
fn push_lists(out: &mut Vec<u8>, list: &str, step: usize, other: usize) -> Result<(), OutOfMemory>
    ensures { OnOk result (out.new.items ≡ out.old.items ++ lists_text list.now step other) }
{
    push(out, list)?;
    push(out, " lists ")?;
    push_step_word(out, step)?;
    push(out, " with ")?;
    push_step_word(out, other)
}

// Appends a link of the machine's way, with its reason.
fn push_link(out: &mut Vec<u8>, run: &[Footprint], link: Pair) -> Result<(), OutOfMemory>
    requires first { link.first < length run.now }
    requires second { link.second < length run.now }
    ensures { OnOk result (out.new.items ≡ out.old.items ++ link_text run.now link) }
{
    push(out, ", since ")?;
    push_before(out, link)?;
    push(out, ": ")?;
    push(out, because_word(because_of(run, link.first, link.second)))
}

// The same, where there is one.
fn push_gap(out: &mut Vec<u8>, run: &[Footprint], gap: Option<Pair>) -> Result<(), OutOfMemory>
    requires { IfSome gap (λ link. (link.first < length run.now) × (link.second < length run.now)) }
    ensures { OnOk result (out.new.items ≡ out.old.items ++ gap_text run.now gap) }
{
    match gap {
        None => Ok(()),
        Some(link) => push_link(out, run, link),
    }
}

// Appends the first link of the machine's way between two steps that Rust's order hasn't.
fn push_since(
    alloc: Global,
    out: &mut Vec<u8>,
    run: &[Footprint],
    order: &Analysis,
    pair: Pair,
) -> Result<(), OutOfMemory>
    requires first { pair.first < length run.now }
    requires second { pair.second < length run.now }
    requires tracks { Tracks order.now run.now }
    ensures { OnOk result (out.new.items ≡ out.old.items ++ since_text run.now pair) }
{
    let steps = way_to(alloc, run, order, pair.first, pair.second)?;
    let gap = first_gap(alloc, run, pair.first, steps.as_slice())?;
    push_gap(out, run, gap)
}

// The same, where it is told and both are steps of the run.
fn push_reason(
    alloc: Global,
    out: &mut Vec<u8>,
    run: &[Footprint],
    order: &Analysis,
    told: bool,
    pair: Pair,
) -> Result<(), OutOfMemory>
    requires { Tracks order.now run.now }
    ensures { OnOk result (out.new.items ≡ out.old.items ++ reason_text told run.now pair) }
{
    if told && pair.first < run.len() && pair.second < run.len() {
        push_since(alloc, out, run, order, pair)
    } else {
        Ok(())
    }
}

// Appends that the machine's order has two steps in order.
fn push_in_machine(
    alloc: Global,
    out: &mut Vec<u8>,
    run: &[Footprint],
    order: &Analysis,
    told: bool,
    pair: Pair,
) -> Result<(), OutOfMemory>
    requires { Tracks order.now run.now }
    ensures { OnOk result (out.new.items ≡ out.old.items ++ in_machine told run.now pair) }
{
    push(out, "in the machine's ")?;
    push_before(out, pair)?;
    push_reason(alloc, out, run, order, told, pair)
}

// Appends that Rust's order has.
fn push_in_rust(out: &mut Vec<u8>, pair: Pair) -> Result<(), OutOfMemory>
    ensures { OnOk result (out.new.items ≡ out.old.items ++ in_rust pair) }
{
    push(out, "in Rust's ")?;
    push_before(out, pair)
}

/// Appends why the machine's list hasn't a race of Rust's.
pub(crate) fn push_machine_why(
    alloc: Global,
    out: &mut Vec<u8>,
    run: &[Footprint],
    order: &Analysis,
    machine: &[Pair],
    told: bool,
    pair: Pair,
) -> Result<(), OutOfMemory>
    requires tracks { Tracks order.now run.now }
    requires rising { IsRising machine.now }
    ensures { OnOk result (out.new.items
        ≡ out.old.items ++ machine_why told run.now pair (partner machine.now pair.second)) }
{
    match partner(machine, pair.second) {
        None => push_in_machine(alloc, out, run, order, told, pair),
        Some(other) => {
            if pair.first < other {
                push_lists(out, "the machine's", pair.second, other)
            } else {
                push_in_machine(alloc, out, run, order, told, pair)
            }
        }
    }
}

/// Appends why Rust's list hasn't a race of the machine's.
pub(crate) fn push_rust_why(out: &mut Vec<u8>, rust: &[Pair], pair: Pair) -> Result<(), OutOfMemory>
    requires { IsRising rust.now }
    ensures { OnOk result (out.new.items ≡ out.old.items ++ rust_why pair (partner rust.now pair.second)) }
{
    match partner(rust, pair.second) {
        None => push_in_rust(out, pair),
        Some(other) => {
            if pair.first < other {
                push_lists(out, "Rust's", pair.second, other)
            } else {
                push_in_rust(out, pair)
            }
        }
    }
}
