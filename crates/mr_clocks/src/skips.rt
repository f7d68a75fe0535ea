//! Skips over the racing steps of rows, which earlier walks left.

ghost use Rattle.std.specs.Prelude.{◌≡◌, ℕ, ◌+◌, ◌<◌, ◌≤◌, List, IfSome, IsTrue, OnOk, length, vec_capacity, vec_len};
ghost use Rattle.std.specs.List.{Contains};
ghost use Rattle.mr_base.specs.declared.access.Access.{Access};
ghost use Rattle.mr_event.specs.Footprint.{Footprint};
ghost use Rattle.mr_event.specs.Order.{step_at};
ghost use Rattle.mr_clocks.specs.declared.rows.Link.{Link};
ghost use Rattle.mr_clocks.specs.Skips.{AreAmong, AreSkips, IsServing, IsSkip, no_skip, skip_at};

use crate::keys::same_access;
use mr_base::Access;
use mr_event::{Footprint, OutOfMemory};
use std::alloc::Global;
use std::marker::Model;

// How many skips the table has for a row, for how many rows, and in all. Rows whose places are that far apart share
// them.
const SKIPS_OF_A_ROW: usize = 8;

const ROWS_WITH_SKIPS: usize = 1024;

const MOST_SKIPS: usize = 8192;

/// A skip in a row, from the number `high` down to the number `low`: the steps between race with some of the accesses.
/// `slot` is its place in the table.
#[derive(Drop)]
pub(crate) struct Skip {
    slot: usize,
    high: u32,
    low: u32,
    by: Vec<Access>,
}

impl Model for Skip {
    ghost use Rattle.std.specs.Prelude.{List, ℕ};
    ghost use Rattle.mr_base.specs.declared.access.Access.{Access};

    ghost Value = { ℕ × ℕ × List Access };

    ghost view = { λ s. (s.high, s.low, s.by.items) };
}

impl Skip {
    pub(crate) fn new(slot: usize, high: u32, low: u32, by: Vec<Access>) -> Skip
        ensures { result ≡ (high, low, by.items) }
    {
        Skip {
            slot,
            high,
            low,
            by,
        }
    }

    // A skip over nothing.
    fn none(alloc: Global) -> Skip
        ensures { result ≡ no_skip }
    {
        Skip::new(0, 0, 0, Vec::new(alloc))
    }

    pub(crate) fn low(&self) -> u32
        ensures { result ≡ self.now.1 }
    {
        self.low
    }

    pub(crate) fn accesses(&self) -> &[Access]
        ensures { result.now ≡ self.now.2 }
    {
        self.by.as_slice()
    }

    // Whether it leads down from a number.
    fn leads_from(&self, at: u32) -> bool
        ensures begins { IsTrue result → self.now.0 ≡ at }
        ensures falls { IsTrue result → self.now.1 < at }
    {
        self.high == at && self.low < at
    }

    fn slot(&self) -> usize {
        self.slot
    }
}

/// Whether an access is one of these.
pub(crate) fn has_access(accesses: &[Access], access: Access) -> bool
    ensures { IsTrue result → Contains accesses.now access }
{
    for i in 0..accesses.len() {
        if same_access(accesses[i], access) {
            return true;
        }
    }
    false
}

// Whether each of the first accesses is one of the others.
fn are_among(by: &[Access], accesses: &[Access]) -> bool
    ensures { IsTrue result → AreAmong by.now accesses.now }
{
    for i in 0..by.len() {
        if !has_access(accesses, by[i]) {
            return false;
        }
    }
    true
}

// Whether step `j` has the accesses of a skip.
#[tactic(auto, using(mr_event::proofs::Read::step_read))]
fn step_covers(run: &[Footprint], skip: &Skip, j: usize) -> bool
    requires { j < length run.now }
    ensures { IsTrue result → AreAmong skip.now.2 (step_at run.now j).accesses }
{
    let step = &run[j];
    are_among(skip.accesses(), step.accesses())
}

// Whether a skip takes step `j` down from a number.
fn serves(run: &[Footprint], skip: &Skip, at: u32, j: usize) -> bool
    requires { j < length run.now }
    ensures { IsTrue result → IsServing run.now skip.now at j }
{
    skip.leads_from(at) && step_covers(run, skip, j)
}

// The first place of the table for the skips of the row at a place.
fn first_slot(x: usize) -> usize
    ensures { result + 8 ≤ 8192 }
{
    x % ROWS_WITH_SKIPS * SKIPS_OF_A_ROW
}

/// The place of the table for a skip that step `j` leaves in the row at a place.
pub(crate) fn slot_of(x: usize, j: usize) -> usize {
    first_slot(x) + j % SKIPS_OF_A_ROW
}

/// The place in the table of a skip that takes step `j` down from a number in the row at a place, if there is one.
pub(crate) fn skip_for(
    skips: &[Skip],
    run: &[Footprint],
    x: usize,
    at: u32,
    j: usize,
) -> Option<usize>
    requires { j < length run.now }
    ensures { IfSome result (λ m. (m < length skips.now) × IsServing run.now (skip_at skips.now m) at j) }
{
    let first = first_slot(x);
    for m in first..(first + SKIPS_OF_A_ROW).min(skips.len()) {
        let skip = &skips[m];
        if serves(run, skip, at, j) {
            return Some(m);
        }
    }
    None
}

/// Room for the whole table, where there are skips to keep.
pub(crate) fn reserve_table(skips: &mut Vec<Skip>, more: usize) -> Result<(), OutOfMemory>
    ensures same { skips.new.items ≡ skips.old.items }
    ensures room { OnOk result (0 < more → vec_len skips.new < 8192 → 8192 ≤ vec_capacity skips.new) }
{
    if more == 0 || skips.len() >= MOST_SKIPS {
        return Ok(());
    }
    skips.reserve(MOST_SKIPS - skips.len())
}

// Fills the table with skips over nothing.
#[inline(never)]
fn fill(alloc: Global, skips: &mut Vec<Skip>)
    requires { vec_len skips.old < 8192 → 8192 ≤ vec_capacity skips.old }
    ensures { (run : List Footprint) (n : ℕ) (links : List Link) → AreSkips run n links skips.old.items
        → AreSkips run n links skips.new.items }
{
    for k in skips.len()..MOST_SKIPS {
        skips.push_reserved(Skip::none(alloc));
    }
}

// Puts a skip into its place in the table.
fn store(skips: &mut Vec<Skip>, skip: Skip)
    ensures { (run : List Footprint) (n : ℕ) (links : List Link) → AreSkips run n links skips.old.items
        → IsSkip run n links skip → AreSkips run n links skips.new.items }
{
    let slot = skip.slot();
    if slot >= skips.len() {
        return;
    }
    skips[slot] = skip;
}

// Puts skips into their places in the table.
#[inline(never)]
fn store_each(skips: &mut Vec<Skip>, news: Vec<Skip>)
    ensures { (run : List Footprint) (n : ℕ) (links : List Link) → AreSkips run n links skips.old.items
        → AreSkips run n links news.items → AreSkips run n links skips.new.items }
{
    let mut left = news;
    while let Some(skip) = left.pop() {
        store(skips, skip);
    }
}

/// Keeps new skips in the table, which is made where it isn't there.
pub(crate) fn store_all(alloc: Global, skips: &mut Vec<Skip>, news: Vec<Skip>)
    requires { 0 < vec_len news → vec_len skips.old < 8192 → 8192 ≤ vec_capacity skips.old }
    ensures { (run : List Footprint) (n : ℕ) (links : List Link) → AreSkips run n links skips.old.items
        → AreSkips run n links news.items → AreSkips run n links skips.new.items }
{
    if news.is_empty() {
        return;
    }
    fill(alloc, skips);
    store_each(skips, news);
}
