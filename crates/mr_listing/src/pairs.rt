//! The races of a run by pairs of places.
ghost use Rattle.std.specs.Prelude.{◌≡◌, ℕ, ◌≤◌, ◌++◌, All, IfOk, IsTrue, OnOk, Some, codes, decimal, flat_map, slice_get, take};
ghost use Rattle.std.specs.List.{list_any};
ghost use Rattle.mr_listing.specs.Races.{before_of, by_count, first_group, group_line, groups, often_text, races_text};
ghost use Rattle.mr_listing.specs.Races.{ranked, same_places, times_text};
ghost use Rattle.mr_listing.specs.Seen.{seen};
ghost use Rattle.mr_listing.specs.Sorted.{AreByPlaces};

use crate::OutOfMemory;
use crate::shown::Shown;
use crate::sorted::{Numbered, alike_races, are_alike, before_of, begins_before, by_places};
use crate::spots::push_stand;
use mr_event::Pair;
use mr_labels::{push_count, push_number};
use std::alloc::Global;

/// The races at one pair of places.
#[derive(Clone, Copy)]
pub struct Group {
    /// The first of them.
    pub first: Pair,
    /// How many there are.
    pub count: usize,
}

// Appends a number of times that isn't 1.
fn push_many(out: &mut Vec<u8>, count: usize) -> Result<(), OutOfMemory>
    ensures { OnOk result (out.new.items ≡ out.old.items ++ (decimal count ++ codes " times, first ")) }
{
    push_number(out, count as u64)?;
    out.extend_from_slice(b" times, first ")?;
    Ok(())
}

// Appends how many races there are.
fn push_often(out: &mut Vec<u8>, count: usize) -> Result<(), OutOfMemory>
    ensures { OnOk result (out.new.items ≡ out.old.items ++ often_text count) }
{
    if count == 1 {
        out.extend_from_slice(b"once, ")
    } else {
        push_many(out, count)
    }
}

/// Appends how many races there are, and the steps of the first.
pub fn push_times(out: &mut Vec<u8>, group: Group) -> Result<(), OutOfMemory>
    ensures { OnOk result (out.new.items ≡ out.old.items ++ times_text group) }
{
    push_often(out, group.count)?;
    push_count(out, group.first.first)?;
    out.push(b' ')?;
    push_count(out, group.first.second)?;
    out.push(b'\n')?;
    Ok(())
}

/// Appends the line of the races at one pair of places.
pub fn push_group(out: &mut Vec<u8>, shown: &Shown<'_>, group: Group) -> Result<(), OutOfMemory>
    ensures { OnOk result (out.new.items ≡ out.old.items ++ group_line (seen shown.now) group) }
{
    push_stand(out, shown, before_of(shown, group.first.first))?;
    out.extend_from_slice(b"  /  ")?;
    push_stand(out, shown, before_of(shown, group.first.second))?;
    out.extend_from_slice(b": ")?;
    push_times(out, group)
}

// The race of this number.
fn race_at(races: &[Pair], number: usize) -> Option<Pair>
    ensures { result ≡ slice_get races.now number }
{
    races.get(number).copied()
}

// Whether the race before that of this number is of the same places as one.
fn follows_alike(shown: &Shown<'_>, number: usize, pair: Pair) -> bool
    ensures { IsTrue result
        → IsTrue (list_any (same_places (seen shown.now) pair) (take number (seen shown.now).races)) }
{
    if number == 0 {
        return false;
    }
    match race_at(shown.races, number - 1) {
        Some(before) => are_alike(shown, pair, before),
        None => false,
    }
}

// Adds the races at the places of the race of this number, if none before it has the same.
fn add_group(
    groups: &mut Vec<Group>,
    shown: &Shown<'_>,
    sorted: &[Numbered],
    number: usize,
    pair: Pair,
) -> Result<(), OutOfMemory>
    requires { AreByPlaces (seen shown.now) sorted.now }
    ensures { OnOk result (groups.new.items
        ≡ groups.old.items ++ first_group (seen shown.now) number (Some pair)) }
{
    if follows_alike(shown, number, pair) {
        return Ok(());
    }
    let alike = alike_races(shown, sorted, pair);
    if begins_before(alike, number) {
        return Ok(());
    }
    groups.push(Group {
        first: pair,
        count: alike.len(),
    })?;
    Ok(())
}

// The same, if there is such a race.
fn add_first(
    groups: &mut Vec<Group>,
    shown: &Shown<'_>,
    sorted: &[Numbered],
    number: usize,
) -> Result<(), OutOfMemory>
    requires { AreByPlaces (seen shown.now) sorted.now }
    ensures { OnOk result (groups.new.items
        ≡ groups.old.items ++ first_group (seen shown.now) number (slice_get (seen shown.now).races number)) }
{
    match race_at(shown.races, number) {
        Some(pair) => add_group(groups, shown, sorted, number, pair),
        None => Ok(()),
    }
}

// The races by pairs of places, in the order of the first race of each, from the races by their places.
fn groups_in(
    alloc: Global,
    shown: &Shown<'_>,
    sorted: &[Numbered],
) -> Result<Vec<Group>, OutOfMemory>
    requires { AreByPlaces (seen shown.now) sorted.now }
    ensures { IfOk result (λ found. found.items ≡ groups (seen shown.now)) }
{
    let mut found = Vec::new(alloc);
    for number in 0..shown.races.len() {
        add_first(&mut found, shown, sorted, number)?;
    }
    Ok(found)
}

/// Puts those with most races first, and leaves those with as many in the order in which they stand. An `Err` is for want of
/// memory.
pub fn rank_by_count(groups: &mut Vec<Group>) -> Result<(), OutOfMemory>
    ensures { OnOk result ((most : ℕ) → All (λ g. g.count ≤ most) groups.old.items
        → groups.new.items ≡ by_count most groups.old.items) }
{
    groups.sort_by(|a, b| b.count.cmp(&a.count))?;
    Ok(())
}

/// The races by pairs of places, those with most races first, from the races by their places. An `Err` is for want of
/// memory.
pub fn ranked(
    alloc: Global,
    shown: &Shown<'_>,
    sorted: &[Numbered],
) -> Result<Vec<Group>, OutOfMemory>
    requires { AreByPlaces (seen shown.now) sorted.now }
    ensures { IfOk result (λ found. found.items ≡ ranked (seen shown.now)) }
{
    let mut groups = groups_in(alloc, shown, sorted)?;
    rank_by_count(&mut groups)?;
    Ok(groups)
}

// Appends the line of each group.
fn push_each_group(
    out: &mut Vec<u8>,
    shown: &Shown<'_>,
    groups: &[Group],
) -> Result<(), OutOfMemory>
    ensures { OnOk result (out.new.items ≡ out.old.items ++ flat_map (group_line (seen shown.now)) groups.now) }
{
    for group in groups {
        push_group(out, shown, *group)?;
    }
    Ok(())
}

/// The text of the races by pairs of places, those with most races first, and how many races there are. An `Err` is for
/// want of memory.
pub fn races(alloc: Global, shown: &Shown<'_>) -> Result<Vec<u8>, OutOfMemory>
    ensures { IfOk result (λ text. text.items ≡ races_text (seen shown.now)) }
{
    let sorted = by_places(alloc, shown)?;
    let groups = ranked(alloc, shown, sorted.as_slice())?;
    let mut out = Vec::new(alloc);
    push_each_group(&mut out, shown, groups.as_slice())?;
    out.extend_from_slice(b"races ")?;
    push_number(&mut out, shown.races.len() as u64)?;
    out.push(b'\n')?;
    Ok(out)
}
