//! Runs, found by position.
ghost use Rattle.std.specs.Prelude.{◌≡◌, ℕ, ◌<◌, ◌≤◌, None, IfNone, IfSome, IsSome, option_map, slice_get};
ghost use Rattle.mr_runs.specs.Placed.{begun_from, found, total_len, Holds, IsTiled};

use crate::run::{Numbers, Run};
use std::collections::BTreeMap;

/// The run that holds a position, and where it begins. Most positions are in the last run.
pub(crate) fn run_at<N: Numbers>(runs: &BTreeMap<u64, Run<N>>, at: u64) -> (u64, &Run<N>)
    requires tiled { IsTiled runs.now.entries }
    requires inside { at < total_len runs.now.entries }
    ensures { Holds runs.now.entries at result.0 result.1.now }
{
    if let Some((begin, run)) = runs.last_key_value() {
        if *begin <= at {
            return (*begin, run);
        }
    }
    match runs.range(..=at).next_back() {
        Some((begin, run)) => (*begin, run),
        None => unreachable!(),
    }
}

/// The first position from `from` up to `to` at which a run begins.
pub(crate) fn first_begin<N: Numbers>(
    runs: &BTreeMap<u64, Run<N>>,
    from: u64,
    to: u64,
) -> Option<u64>
    requires { from ≤ to }
    ensures some { IfSome result (λ at. (from ≤ at) × (at < to) × IsSome (found at runs.now.entries)) }
    ensures none { IfNone result ((q : ℕ) → from ≤ q → q < to → found q runs.now.entries ≡ None) }
{
    match runs.range(from..to).next() {
        Some((begin, _)) => Some(*begin),
        None => None,
    }
}

/// The run with the number `n`, counted from the one that begins at `first`, and where it begins.
pub(crate) fn nth_from<N: Numbers>(
    runs: &BTreeMap<u64, Run<N>>,
    first: u64,
    n: usize,
) -> Option<(u64, &Run<N>)>
    ensures { option_map (λ e. (e.0, e.1.now)) result ≡ slice_get (begun_from first runs.now.entries) n }
{
    let mut left = n;
    for (begin, run) in runs.range(first..) {
        if left == 0 {
            return Some((*begin, run));
        }
        left -= 1;
    }
    None
}
