//! Runs put in place of others, all or none.
//!
//! Only a run under a new position takes memory of the map. So these positions are taken first, by empty runs, and given back
//! where memory runs out. From then on nothing can fail.
ghost use Rattle.std.specs.Prelude.{◌≡◌, ℕ, ◌+◌, ◌-◌, ◌<◌, ◌≤◌, true, cond, Some, None, IsSome, OnErr, OnOk};
ghost use Rattle.std.specs.BTreeMap.{is_at, IsOrdered};
ghost use Rattle.std.specs.Ordering.{nat_cmp};
ghost use Rattle.mr_runs.specs.Exchanged.{begins, is_stake, staked, unstaked, IsExchanged, IsRow};
ghost use Rattle.mr_runs.specs.Placed.{found, IsTiled};

use crate::OutOfMemory;
use crate::finding::first_begin;
use crate::run::{Numbers, Run};
use std::collections::BTreeMap;

/// Puts the runs of a row, which ends at `end`, in place of all that begin where it reaches.
pub(crate) fn exchange<N: Numbers>(
    runs: &mut BTreeMap<u64, Run<N>>,
    row: Vec<(u64, Run<N>)>,
    end: u64,
) -> Result<(), OutOfMemory>
    requires tiled { IsTiled runs.old.entries }
    requires row { IsRow row.items end }
    ensures ok { OnOk result (IsExchanged row.items runs.old.entries runs.new.entries end) }
    ensures ordered { OnOk result (IsOrdered nat_cmp runs.new) }
    ensures err { OnErr result (runs.new.entries ≡ runs.old.entries) }
{
    stake_all(runs, row.as_slice())?;
    settle(runs, row, end);
    let _ordered = runs.len();
    Ok(())
}

// Takes the positions of all runs of a row.
fn stake_all<N: Numbers>(
    runs: &mut BTreeMap<u64, Run<N>>,
    row: &[(u64, Run<N>)],
) -> Result<(), OutOfMemory>
    requires { IsTiled runs.old.entries }
    ensures ok { OnOk result ((q : ℕ) → found q runs.new.entries
        ≡ cond (begins q row.now) (staked (found q runs.old.entries)) (found q runs.old.entries)) }
    ensures err { OnErr result (runs.new.entries ≡ runs.old.entries) }
{
    for (at, _) in row {
        match stake(runs, *at) {
            Ok(()) => {}
            Err(error) => {
                unstake_all(runs, row);
                let _ordered = runs.len();
                return Err(error);
            }
        }
    }
    Ok(())
}

// Takes a position: where no run begins, an empty one is put.
fn stake<N: Numbers>(runs: &mut BTreeMap<u64, Run<N>>, at: u64) -> Result<(), OutOfMemory>
    ensures ok { OnOk result ((q : ℕ) → found q runs.new.entries
        ≡ cond (is_at (nat_cmp at) q) (staked (found q runs.old.entries)) (found q runs.old.entries)) }
    ensures err { OnErr result (runs.new.entries ≡ runs.old.entries) }
{
    if runs.contains_key(&at) {
        return Ok(());
    }
    runs.insert(at, Run::uninit(0))?;
    Ok(())
}

// Gives the positions of a row back.
fn unstake_all<N: Numbers>(runs: &mut BTreeMap<u64, Run<N>>, row: &[(u64, Run<N>)])
    ensures { (q : ℕ) → found q runs.new.entries
        ≡ cond (begins q row.now) (unstaked (found q runs.old.entries)) (found q runs.old.entries) }
{
    for (at, _) in row {
        unstake(runs, *at);
    }
}

// Gives a position back: takes an empty run away.
fn unstake<N: Numbers>(runs: &mut BTreeMap<u64, Run<N>>, at: u64)
    ensures { (q : ℕ) → found q runs.new.entries
        ≡ cond (is_at (nat_cmp at) q) (unstaked (found q runs.old.entries)) (found q runs.old.entries) }
{
    if !is_staked(runs, at) {
        return;
    }
    let _ = runs.remove(&at);
}

// Whether an empty run is at the position.
fn is_staked<N: Numbers>(runs: &BTreeMap<u64, Run<N>>, at: u64) -> bool
    ensures { result ≡ is_stake (found at runs.now.entries) }
{
    match runs.get(&at) {
        Some(run) => run.len() == 0,
        None => false,
    }
}

// Puts the runs of a row, whose positions are taken, from right to left, and takes away all others where it reaches.
fn settle<N: Numbers>(runs: &mut BTreeMap<u64, Run<N>>, row: Vec<(u64, Run<N>)>, end: u64)
    requires row { IsRow row.items end }
    requires taken { (q : ℕ) → begins q row.items ≡ true → IsSome (found q runs.old.entries) }
    ensures { IsExchanged row.items runs.old.entries runs.new.entries end }
{
    let mut rest = row;
    let mut last = end;
    while let Some((at, run)) = rest.pop() {
        clear(runs, at + 1, last);
        put(runs, at, run);
        last = at;
    }
}

// Takes away the runs that begin from `from` up to `to`.
fn clear<N: Numbers>(runs: &mut BTreeMap<u64, Run<N>>, from: u64, to: u64)
    requires { from ≤ to }
    ensures before { (q : ℕ) → q < from → found q runs.new.entries ≡ found q runs.old.entries }
    ensures within { (q : ℕ) → from ≤ q → q < to → found q runs.new.entries ≡ None }
    ensures behind { (q : ℕ) → to ≤ q → found q runs.new.entries ≡ found q runs.old.entries }
{
    while let Some(at) = first_begin(runs, from, to) {
        let _ = runs.remove(&at);
    }
}

// Puts a run at a position that is taken.
fn put<N: Numbers>(runs: &mut BTreeMap<u64, Run<N>>, at: u64, run: Run<N>)
    requires { IsSome (found at runs.old.entries) }
    ensures { (q : ℕ) → found q runs.new.entries ≡ cond (is_at (nat_cmp at) q) (Some run) (found q runs.old.entries) }
{
    match runs.insert(at, run) {
        Ok(_) => {}
        Err(_) => unreachable!(),
    }
}
