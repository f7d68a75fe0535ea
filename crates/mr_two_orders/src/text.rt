//! The races of a run by two orders.
ghost use Rattle.std.specs.Prelude.{◌≡◌, ◌++◌, IfOk, OnOk, flat_map};
ghost use Rattle.mr_clocks.specs.Tracked.{Tracks};
ghost use Rattle.mr_event.specs.Predicted.{predicted};
ghost use Rattle.mr_rust_order.specs.Tests.{rust_races};
ghost use Rattle.mr_listing.specs.Seen.{seen};
ghost use Rattle.mr_listing.specs.Sorted.{AreByPlaces};
ghost use Rattle.mr_two_orders.specs.Pairs.{IsRising};
ghost use Rattle.mr_two_orders.specs.Texts.{by_rust, groups_text, machine_text, rust_text, rust_texts, two_orders_text};

use crate::OutOfMemory;
use crate::standing::{push_head, push_machine_line, push_rust_line};
use mr_clocks::Analysis;
use mr_event::Pair;
use mr_listing::{Group, Numbered, Shown, by_places, count_at, push_group, ranked};
use std::alloc::Global;

// Of so many groups it is told why the machine's list hasn't theirs.
const TOLD: usize = 8;

// The same run with other races.
fn with_races<'a>(shown: &Shown<'a>, races: &'a [Pair]) -> Shown<'a>
    ensures { seen result ≡ record (seen shown.now) { races = races.now } }
{
    Shown {
        text: shown.text,
        program: shown.program,
        places: shown.places,
        rows: shown.rows,
        steps: shown.steps,
        stands: shown.stands,
        count: shown.count,
        feet: shown.feet,
        lines: shown.lines,
        races,
        verdict: shown.verdict,
        rests: shown.rests,
    }
}

// Appends a group of Rust's list.
fn push_rust_group(
    alloc: Global,
    out: &mut Vec<u8>,
    shown: &Shown<'_>,
    order: &Analysis,
    sorted: &[Numbered],
    told: bool,
    group: Group,
) -> Result<(), OutOfMemory>
    requires tracks { Tracks order.now (seen shown.now).feet }
    requires rising { IsRising (seen shown.now).races }
    requires sorted { AreByPlaces (seen shown.now) sorted.now }
    ensures { OnOk result (out.new.items ≡ out.old.items ++ rust_text told (seen shown.now) group) }
{
    push_group(out, shown, group)?;
    let count = count_at(shown, sorted, group.first);
    push_rust_line(
        alloc,
        out,
        shown.feet,
        order,
        shown.races,
        told,
        group,
        count,
    )
}

// Appends each of these groups of Rust's list.
fn push_rust_groups(
    alloc: Global,
    out: &mut Vec<u8>,
    shown: &Shown<'_>,
    order: &Analysis,
    sorted: &[Numbered],
    told: bool,
    groups: &[Group],
) -> Result<(), OutOfMemory>
    requires tracks { Tracks order.now (seen shown.now).feet }
    requires rising { IsRising (seen shown.now).races }
    requires sorted { AreByPlaces (seen shown.now) sorted.now }
    ensures { OnOk result (out.new.items
        ≡ out.old.items ++ flat_map (rust_text told (seen shown.now)) groups.now) }
{
    for group in groups {
        push_rust_group(alloc, out, shown, order, sorted, told, *group)?;
    }
    Ok(())
}

// Appends a group of the machine's list, where Rust's has none at its places.
fn push_machine_group(
    out: &mut Vec<u8>,
    shown: &Shown<'_>,
    rust: &Shown<'_>,
    sorted: &[Numbered],
    group: Group,
) -> Result<(), OutOfMemory>
    requires rust { seen rust.now ≡ by_rust (seen shown.now) }
    requires sorted { AreByPlaces (seen rust.now) sorted.now }
    ensures { OnOk result (out.new.items ≡ out.old.items ++ machine_text (seen shown.now) group) }
{
    let count = count_at(rust, sorted, group.first);
    if count > 0 {
        return Ok(());
    }
    push_group(out, shown, group)?;
    push_machine_line(out, rust.races, group.first)
}

// Appends those that the machine's list has alone.
fn push_machine_groups(
    out: &mut Vec<u8>,
    shown: &Shown<'_>,
    rust: &Shown<'_>,
    sorted: &[Numbered],
    groups: &[Group],
) -> Result<(), OutOfMemory>
    requires rust { seen rust.now ≡ by_rust (seen shown.now) }
    requires sorted { AreByPlaces (seen rust.now) sorted.now }
    ensures { OnOk result (out.new.items
        ≡ out.old.items ++ flat_map (machine_text (seen shown.now)) groups.now) }
{
    for group in groups {
        push_machine_group(out, shown, rust, sorted, *group)?;
    }
    Ok(())
}

// Appends all groups of Rust's list, of which the first ones tell why the machine's list hasn't theirs.
fn push_all_rust(
    alloc: Global,
    out: &mut Vec<u8>,
    shown: &Shown<'_>,
    order: &Analysis,
    sorted: &[Numbered],
    groups: &[Group],
) -> Result<(), OutOfMemory>
    requires tracks { Tracks order.now (seen shown.now).feet }
    requires rising { IsRising (seen shown.now).races }
    requires sorted { AreByPlaces (seen shown.now) sorted.now }
    ensures { OnOk result (out.new.items ≡ out.old.items ++ rust_texts (seen shown.now) groups.now) }
{
    let told = groups.len().min(TOLD);
    let (first, rest) = groups.split_at(told);
    push_rust_groups(alloc, out, shown, order, sorted, true, first)?;
    push_rust_groups(alloc, out, shown, order, sorted, false, rest)
}

// Appends the first line, and the groups of both lists, whose races lie so by their places.
fn push_groups(
    alloc: Global,
    out: &mut Vec<u8>,
    shown: &Shown<'_>,
    rust: &Shown<'_>,
    order: &Analysis,
    sorted: &[Numbered],
    rust_sorted: &[Numbered],
    rust_groups: &[Group],
    machine_groups: &[Group],
) -> Result<(), OutOfMemory>
    requires tracks { Tracks order.now (seen shown.now).feet }
    requires rising { IsRising (seen shown.now).races }
    requires rust { seen rust.now ≡ by_rust (seen shown.now) }
    requires sorted { AreByPlaces (seen shown.now) sorted.now }
    requires rust_sorted { AreByPlaces (seen rust.now) rust_sorted.now }
    ensures { OnOk result (out.new.items
        ≡ out.old.items ++ groups_text (seen shown.now) rust_groups.now machine_groups.now) }
{
    push_head(
        out,
        rust.races.len(),
        rust_groups.len(),
        shown.races.len(),
        machine_groups.len(),
    )?;
    push_all_rust(alloc, out, shown, order, sorted, rust_groups)?;
    push_machine_groups(out, shown, rust, rust_sorted, machine_groups)
}

/// The text of the races of a run by two orders: the machine's, whose races are shown, and Rust's, whose races these
/// are. An `Err` is for want of memory.
pub fn two_orders(
    alloc: Global,
    shown: &Shown<'_>,
    order: &Analysis,
    rust: &[Pair],
) -> Result<Vec<u8>, OutOfMemory>
    requires tracks { Tracks order.now (seen shown.now).feet }
    requires machine { (seen shown.now).races ≡ predicted (seen shown.now).feet }
    requires rust { rust.now ≡ rust_races (seen shown.now).feet }
    ensures { IfOk result (λ text. text.items ≡ two_orders_text (seen shown.now)) }
{
    let listed = with_races(shown, rust);
    let rust_sorted = by_places(alloc, &listed)?;
    let sorted = by_places(alloc, shown)?;
    let rust_groups = ranked(alloc, &listed, rust_sorted.as_slice())?;
    let machine_groups = ranked(alloc, shown, sorted.as_slice())?;
    let mut out = Vec::new(alloc);
    push_groups(
        alloc,
        &mut out,
        shown,
        &listed,
        order,
        sorted.as_slice(),
        rust_sorted.as_slice(),
        rust_groups.as_slice(),
        machine_groups.as_slice(),
    )?;
    Ok(out)
}
