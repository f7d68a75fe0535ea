//! How the allocations of a run are searched.
ghost use Rattle.std.specs.Prelude.{◌≡◌, ◌+◌, IfOk, nat_le, true};
ghost use Rattle.std.specs.List.{filter};
ghost use Rattle.std.specs.List.Sorted.{IsPermutation};
ghost use Rattle.mr_labels.specs.Index.{first_holding, has_bytes, is_apart, rows_past};
ghost use Rattle.mr_labels.specs.Table.{found_at};

use crate::OutOfMemory;
use crate::lookup::holds;
use crate::rows::Allocation;
use std::alloc::Global;

/// Those of these allocations that have bytes.
pub(crate) fn with_bytes(alloc: Global, rows: &[Allocation]) -> Result<Vec<Allocation>, OutOfMemory>
    ensures { IfOk result (λ some. some.items ≡ filter has_bytes rows.now) }
{
    rows.iter()
        .copied()
        .filter(|row| row.size > 0)
        .collect(alloc)
}

/// Puts allocations in the order of their first addresses.
pub(crate) fn put_in_order(rows: &mut Vec<Allocation>) -> Result<(), OutOfMemory>
    ensures { IsPermutation rows.old.items rows.new.items }
{
    rows.sort_by_key(|row| row.start)
}

/// Whether each allocation begins where the one before ends, or behind.
pub(crate) fn are_apart(rows: &[Allocation]) -> bool
    ensures { result ≡ is_apart 0 rows.now }
{
    let mut low: u128 = 0;
    for row in rows {
        let start = row.start as u128;
        if start < low {
            return false;
        }
        low = start + row.size as u128;
    }
    true
}

// The allocations from the first that ends behind an address on.
fn rows_past(addr: u64, index: &[Allocation]) -> &[Allocation]
    requires { is_apart 0 index.now ≡ true }
    ensures { result.now ≡ rows_past addr index.now }
{
    let first = index.partition_point(
        |row: &Allocation| -> bool
            ensures { result ≡ nat_le (row.now.start + row.now.size) addr }
        { row.size <= addr && row.start <= addr - row.size },
    );
    &index[first..]
}

// The first of these, where it holds an address.
fn first_holding(addr: u64, rows: &[Allocation]) -> Option<Allocation>
    ensures { result ≡ first_holding addr rows.now }
{
    match rows {
        [] => None,
        [first, ..] => {
            if holds(addr, first) {
                Some(*first)
            } else {
                None
            }
        }
    }
}

/// The allocation that holds an address, where one of these does, which are in order and apart.
pub(crate) fn searched(addr: u64, index: &[Allocation]) -> Option<Allocation>
    requires { is_apart 0 index.now ≡ true }
    ensures { result ≡ found_at addr index.now }
{
    first_holding(addr, rows_past(addr, index))
}
