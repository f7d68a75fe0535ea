//! A walk over the steps of a row, from the latest down, as far as they race with the step that asks.

ghost use Rattle.std.specs.Prelude.{◌≡◌, ℕ, ◌+◌, ◌<◌, List, IfSome, OnOk, length, true, false};
ghost use Rattle.std.specs.List.{Contains, list_any};
ghost use Rattle.mr_base.specs.Accesses.{races as race_of, some_race};
ghost use Rattle.mr_base.specs.declared.access.Access.{Access};
ghost use Rattle.mr_event.specs.Order.{step_at, Edge};
ghost use Rattle.mr_clocks.specs.Keys.{IsWakes};
ghost use Rattle.mr_clocks.specs.Rows.{AreLinks, IsRow, step_of};
ghost use Rattle.mr_clocks.specs.Skips.{AreAmong, AreSkips, IsServing, IsWalking, RacesBy, skip_at};

use crate::keys::{Key, is_wakes, race, races_with};
use crate::rows::{Link, Row};
use crate::skips::{Skip, has_access, skip_for};
use mr_base::Access;
use mr_event::{Footprint, OutOfMemory};
use std::alloc::Global;

/// What a walk over a row found: whether the clock changed, the number to which it came, and accesses of the step that
/// walks. The walk is whole where each step that it passed races with one of these accesses; `slot` is the place in the
/// table for the skip that it leaves.
#[derive(Drop)]
pub(crate) struct Walk {
    pub changed: bool,
    pub whole: bool,
    pub end: u32,
    pub slot: usize,
    pub by: Vec<Access>,
}

/// No walk.
pub(crate) fn no_walk(alloc: Global) -> Walk
    ensures changed { result.changed ≡ false }
    ensures whole { result.whole ≡ false }
{
    Walk {
        changed: false,
        whole: false,
        end: 0,
        slot: 0,
        by: Vec::new(alloc),
    }
}

// Whether one of these accesses races with one of those.
#[tactic(auto, unfolding(mr_base::specs::Accesses::some_race))]
fn any_races(accesses: &[Access], by: &[Access]) -> bool
    ensures { result ≡ some_race accesses.now by.now }
{
    accesses.iter().any(|a| races_with(*a, by))
}

// Whether step `i` races with one of the accesses.
#[tactic(auto, using(mr_event::proofs::Read::step_read))]
fn races_by(run: &[Footprint], i: usize, by: &[Access]) -> bool
    requires { i < length run.now }
    ensures { result ≡ some_race (step_at run.now i).accesses by.now }
{
    let step = &run[i];
    any_races(step.accesses(), by)
}

// Whether some of these accesses races with one.
fn any_races_with(accesses: &[Access], b: Access) -> bool
    ensures { result ≡ list_any (λ a. race_of a b) accesses.now }
{
    accesses.iter().any(|a| race(*a, b))
}

// An access among the second ones that races with one of the first.
fn racing_among(accesses: &[Access], others: &[Access]) -> Option<Access>
    ensures { IfSome result (λ b. (list_any (λ a. race_of a b) accesses.now ≡ true) × Contains others.now b) }
{
    for i in 0..others.len() {
        if any_races_with(accesses, others[i]) {
            return Some(others[i]);
        }
    }
    None
}

// An access of step `j` that races with one of step `i`.
#[tactic(auto, using(mr_event::proofs::Read::step_read))]
fn racing_access(run: &[Footprint], i: usize, j: usize) -> Option<Access>
    requires first { i < length run.now }
    requires second { j < length run.now }
    ensures { IfSome result (λ b. (list_any (λ a. race_of a b) (step_at run.now i).accesses ≡ true)
        × Contains (step_at run.now j).accesses b) }
{
    let first = &run[i];
    let second = &run[j];
    racing_among(first.accesses(), second.accesses())
}

// Adds an access, unless it is there.
fn add_access(by: &mut Vec<Access>, access: Access) -> Result<(), OutOfMemory>
    ensures kept { OnOk result (AreAmong by.old.items by.new.items) }
    ensures here { OnOk result (Contains by.new.items access) }
    ensures covered { OnOk result ((accesses : List Access) → AreAmong by.old.items accesses
        → Contains accesses access → AreAmong by.new.items accesses) }
{
    if has_access(by.as_slice(), access) {
        return Ok(());
    }
    by.push(access)?;
    Ok(())
}

// Adds those accesses that are not there.
fn add_all(by: &mut Vec<Access>, more: &[Access]) -> Result<(), OutOfMemory>
    ensures kept { OnOk result (AreAmong by.old.items by.new.items) }
    ensures taken { OnOk result (AreAmong more.now by.new.items) }
    ensures covered { OnOk result ((accesses : List Access) → AreAmong by.old.items accesses
        → AreAmong more.now accesses → AreAmong by.new.items accesses) }
{
    for i in 0..more.len() {
        add_access(by, more[i])?;
    }
    Ok(())
}

// Notes by which access step `j` races with step `i`, if it isn't noted. Where there is none the walk is whole no more.
fn note_race(run: &[Footprint], walk: &mut Walk, i: usize, j: usize) -> Result<(), OutOfMemory>
    requires first { i < length run.now }
    requires second { j < length run.now }
    ensures changed { OnOk result (walk.new.changed ≡ walk.old.changed) }
    ensures end { OnOk result (walk.new.end ≡ walk.old.end) }
    ensures kept { OnOk result (AreAmong walk.old.by.items walk.new.by.items) }
    ensures covered { OnOk result (AreAmong walk.old.by.items (step_at run.now j).accesses
        → AreAmong walk.new.by.items (step_at run.now j).accesses) }
    ensures whole { OnOk result (walk.new.whole ≡ true → walk.old.whole ≡ true) }
    ensures raced { OnOk result (walk.new.whole ≡ true → RacesBy run.now i walk.new.by.items) }
{
    if !walk.whole {
        return Ok(());
    }
    if races_by(run, i, walk.by.as_slice()) {
        return Ok(());
    }
    match racing_access(run, i, j) {
        Some(access) => {
            add_access(&mut walk.by, access)?;
            Ok(())
        }
        None => {
            walk.whole = false;
            Ok(())
        }
    }
}

// Passes the step of the link to which the walk has come.
fn pass_link(
    run: &[Footprint],
    links: &[Link],
    row: Row,
    walk: &mut Walk,
    j: usize,
) -> Result<(), OutOfMemory>
    requires within { j < length run.now }
    requires links { AreLinks links.now }
    requires row { IsRow run.now j links.now row }
    requires some { 0 < walk.old.end }
    requires walking { IsWalking run.now j walk.old.end links.now row walk.old.whole walk.old.by.items }
    requires none { (m : ℕ) → walk.old.end ≡ m + 1 → Edge run.now (step_of links.now m) j → ⊥ }
    ensures changed { OnOk result (walk.new.changed ≡ walk.old.changed) }
    ensures falls { OnOk result (walk.new.end < walk.old.end) }
    ensures walking { OnOk result (IsWalking run.now j walk.new.end links.now row walk.new.whole walk.new.by.items) }
{
    let link = links[walk.end as usize - 1];
    note_race(run, walk, link.step as usize, j)?;
    walk.end = link.before;
    Ok(())
}

// Passes the steps over which a skip leads.
fn pass_skip(
    run: &[Footprint],
    links: &[Link],
    skips: &[Skip],
    row: Row,
    m: usize,
    walk: &mut Walk,
    j: usize,
) -> Result<(), OutOfMemory>
    requires skips { AreSkips run.now j links.now skips.now }
    requires inside { m < length skips.now }
    requires other { IsWakes row.key → ⊥ }
    requires serves { IsServing run.now (skip_at skips.now m) walk.old.end j }
    requires walking { IsWalking run.now j walk.old.end links.now row walk.old.whole walk.old.by.items }
    ensures changed { OnOk result (walk.new.changed ≡ walk.old.changed) }
    ensures falls { OnOk result (walk.new.end < walk.old.end) }
    ensures walking { OnOk result (IsWalking run.now j walk.new.end links.now row walk.new.whole walk.new.by.items) }
{
    let skip = &skips[m];
    add_all(&mut walk.by, skip.accesses())?;
    walk.end = skip.low();
    walk.slot = m;
    Ok(())
}

// The place of a skip that takes step `j` down from a number in the row of a key, if there is one. From a step that
// wakes j's thread an edge may lead though the two race.
fn skip_in_row(
    skips: &[Skip],
    run: &[Footprint],
    key: Key,
    x: usize,
    at: u32,
    j: usize,
) -> Option<usize>
    requires { j < length run.now }
    ensures { IfSome result
        (λ m. (m < length skips.now) × (IsWakes key → ⊥) × IsServing run.now (skip_at skips.now m) at j) }
{
    if is_wakes(key) {
        return None;
    }
    skip_for(skips, run, x, at, j)
}

/// Passes the step to which the walk of step `j` over the row at a place has come, or all steps from there over which a
/// skip leads.
pub(crate) fn pass(
    run: &[Footprint],
    links: &[Link],
    skips: &[Skip],
    row: Row,
    x: usize,
    walk: &mut Walk,
    j: usize,
) -> Result<(), OutOfMemory>
    requires within { j < length run.now }
    requires links { AreLinks links.now }
    requires skips { AreSkips run.now j links.now skips.now }
    requires row { IsRow run.now j links.now row }
    requires some { 0 < walk.old.end }
    requires walking { IsWalking run.now j walk.old.end links.now row walk.old.whole walk.old.by.items }
    requires none { (m : ℕ) → walk.old.end ≡ m + 1 → Edge run.now (step_of links.now m) j → ⊥ }
    ensures changed { OnOk result (walk.new.changed ≡ walk.old.changed) }
    ensures falls { OnOk result (walk.new.end < walk.old.end) }
    ensures walking { OnOk result (IsWalking run.now j walk.new.end links.now row walk.new.whole walk.new.by.items) }
{
    match skip_in_row(skips, run, row.key, x, walk.end, j) {
        Some(m) => pass_skip(run, links, skips, row, m, walk, j),
        None => pass_link(run, links, row, walk, j),
    }
}
