//! Numbers written behind a run of their provenance, over uninitialised ones: the run grows where it is.
ghost use Rattle.std.specs.Prelude.{◌≡◌, ℕ, ◌+◌, ◌<◌, ◌≤◌, ◌^◌, false, cond, length, Some, IfNone, IfOk, IfSome, IsTrue, OnErr, OnOk};
ghost use Rattle.std.specs.BTreeMap.{is_at};
ghost use Rattle.std.specs.Ordering.{nat_cmp};
ghost use Rattle.mr_runs.specs.Growing.{with_numbers, CanGrow};
ghost use Rattle.mr_runs.specs.Numbers.{with_provenance};
ghost use Rattle.mr_runs.specs.Pieces.{SeenPiece};
ghost use Rattle.mr_runs.specs.Placed.{found, total_len, IsReplaced, IsTiled};

use crate::OutOfMemory;
use crate::finding::run_at;
use crate::mark::{Mark, is_same};
use crate::run::Run;
use mr_base::AllocId;
use std::collections::BTreeMap;

/// Writes numbers behind a run that ends where they begin and has their provenance, if the uninitialised bytes there are more. Answers
/// whether it did.
pub(crate) fn write_behind(
    runs: &mut BTreeMap<u64, Run<Vec<u8>>>,
    from: u64,
    numbers: &[u8],
    provenance: Option<AllocId>,
) -> Result<bool, OutOfMemory>
    requires tiled { IsTiled runs.old.entries }
    requires inside { from + length numbers.now ≤ total_len runs.old.entries }
    requires some { 0 < length numbers.now }
    requires fits { from + length numbers.now < 2 ^ 64 }
    ensures done { IfOk result (λ did. IsTrue did
        → IsReplaced runs.old.entries runs.new.entries from (with_provenance provenance numbers.now)) }
    ensures not_done { IfOk result (λ did. did ≡ false → runs.new.entries ≡ runs.old.entries) }
    ensures never { IfOk result (λ did. did ≡ false → (begin : ℕ) (rest : ℕ)
        → CanGrow runs.old.entries from (length numbers.now) provenance begin rest → ⊥) }
    ensures err { OnErr result (runs.new.entries ≡ runs.old.entries) }
{
    let Some((begin, rest)) = growing(runs, from, numbers, provenance) else {
        return Ok(false);
    };
    let to = from + numbers.len() as u64;
    runs.insert(to, Run::uninit(rest))?;
    match grow(runs, begin, numbers) {
        Ok(()) => {
            let _ = runs.remove(&from);
            let _ordered = runs.len();
            Ok(true)
        }
        Err(error) => {
            let _ = runs.remove(&to);
            let _ordered = runs.len();
            Err(error)
        }
    }
}

// Where the run begins that can grow by the numbers, and how many uninitialised bytes are left behind them.
fn growing(
    runs: &BTreeMap<u64, Run<Vec<u8>>>,
    from: u64,
    numbers: &[u8],
    provenance: Option<AllocId>,
) -> Option<(u64, u64)>
    requires tiled { IsTiled runs.now.entries }
    requires inside { from + length numbers.now ≤ total_len runs.now.entries }
    requires some { 0 < length numbers.now }
    ensures some { IfSome result (λ g. CanGrow runs.now.entries from (length numbers.now) provenance g.0 g.1) }
    ensures none { IfNone result ((begin : ℕ) (rest : ℕ)
        → CanGrow runs.now.entries from (length numbers.now) provenance begin rest → ⊥) }
{
    if from == 0 {
        return None;
    }
    let (gap, behind) = run_at(runs, from);
    let len = numbers.len() as u64;
    if gap != from {
        return None;
    }
    if !is_same(behind.mark(), Mark::Uninit) {
        return None;
    }
    if behind.len() <= len {
        return None;
    }
    let (begin, run) = run_at(runs, from - 1);
    if !is_same(run.mark(), Mark::Init(provenance)) {
        return None;
    }
    Some((begin, behind.len() - len))
}

// Puts numbers behind those of the run that begins at the position.
fn grow(
    runs: &mut BTreeMap<u64, Run<Vec<u8>>>,
    begin: u64,
    numbers: &[u8],
) -> Result<(), OutOfMemory>
    ensures ok { OnOk result ((p : SeenPiece) → found begin runs.old.entries ≡ Some p → (q : ℕ)
        → found q runs.new.entries
        ≡ cond (is_at (nat_cmp begin) q) (Some (with_numbers p numbers.now)) (found q runs.old.entries)) }
    ensures err { OnErr result ((q : ℕ) → found q runs.new.entries ≡ found q runs.old.entries) }
{
    match runs.get_mut(&begin) {
        Some(run) => run.grow(numbers),
        None => Ok(()),
    }
}
