//! The blocks of the heap that a run never freed.
ghost use Rattle.std.specs.Prelude.{◌≡◌, ◌++◌, IfOk, OnOk, flat_map, map};
ghost use Rattle.mr_base.specs.Identities.{same_id};
ghost use Rattle.mr_listing.specs.Freed.{AreFreed, freed_pairs, id_pair};
ghost use Rattle.mr_listing.specs.Leaks.{block_line, freed_by, is_freed, is_leak, leak_line, leaks_text};
ghost use Rattle.mr_listing.specs.Seen.{seen};

use crate::OutOfMemory;
use crate::accesses::push_bytes;
use crate::shown::Shown;
use mr_base::{AllocId, Pair, Verdict, is_among};
use mr_event::Footprint;
use mr_labels::{Allocation, Name, push_count, push_number};
use std::alloc::Global;

// Whether two identities are one.
fn same_id(a: AllocId, b: AllocId) -> bool
    ensures { result ≡ same_id a b }
{
    a.thread == b.thread && a.count == b.count
}

// Whether a step freed an allocation.
pub(crate) fn freed_by(id: AllocId, foot: &Footprint) -> bool
    ensures { result ≡ freed_by id foot.now }
{
    foot.freed().iter().any(|freed| same_id(id, *freed))
}

// An identity as a pair of numbers.
fn id_pair(id: AllocId) -> Pair
    ensures { result ≡ id_pair id }
{
    (u128::from(id.thread), u128::from(id.count))
}

// Appends these identities.
fn push_ids(pairs: &mut Vec<Pair>, ids: &[AllocId]) -> Result<(), OutOfMemory>
    ensures { OnOk result (pairs.new.items ≡ pairs.old.items ++ map id_pair ids.now) }
{
    for id in ids {
        pairs.push(id_pair(*id))?;
    }
    Ok(())
}

// All that these steps freed.
fn freed_pairs(alloc: Global, feet: &[Footprint]) -> Result<Vec<Pair>, OutOfMemory>
    ensures { IfOk result (λ pairs. pairs.items ≡ freed_pairs feet.now) }
{
    let mut pairs = Vec::new(alloc);
    for foot in feet {
        push_ids(&mut pairs, foot.freed())?;
    }
    Ok(pairs)
}

// The same in order, so that a block is looked for among them in a few steps.
fn freed_in_order(alloc: Global, feet: &[Footprint]) -> Result<Vec<Pair>, OutOfMemory>
    ensures { IfOk result (λ pairs. AreFreed feet.now pairs.items) }
{
    let mut pairs = freed_pairs(alloc, feet)?;
    pairs.sort_unstable();
    Ok(pairs)
}

// Whether an allocation is among what the run freed.
fn is_freed(feet: &[Footprint], freed: &[Pair], id: AllocId) -> bool
    requires { AreFreed feet.now freed.now }
    ensures { result ≡ is_freed feet.now id }
{
    is_among(id_pair(id), freed)
}

// Appends the line of the block that a step made.
fn push_block(out: &mut Vec<u8>, step: usize, row: &Allocation) -> Result<(), OutOfMemory>
    ensures { OnOk result (out.new.items ≡ out.old.items ++ block_line step row.now) }
{
    out.extend_from_slice(b"the block of step ")?;
    push_count(out, step)?;
    out.extend_from_slice(b" is never freed: ")?;
    push_bytes(out, row.size)?;
    out.extend_from_slice(b" at address ")?;
    push_number(out, row.start)?;
    out.push(b'\n')?;
    Ok(())
}

// Appends the line of an allocation, if it is a block that no step freed.
fn push_leak(
    out: &mut Vec<u8>,
    shown: &Shown<'_>,
    freed: &[Pair],
    row: &Allocation,
) -> Result<(), OutOfMemory>
    requires { AreFreed (seen shown.now).feet freed.now }
    ensures { OnOk result (out.new.items ≡ out.old.items ++ leak_line (seen shown.now) row.now) }
{
    match row.name {
        Name::Heap(step) => {
            if is_freed(shown.feet, freed, row.id) {
                Ok(())
            } else {
                push_block(out, step, row)
            }
        }
        Name::Function(_) | Name::Global(_) | Name::Local { .. } => Ok(()),
    }
}

// The same of each of these allocations.
fn push_each_leak(
    out: &mut Vec<u8>,
    shown: &Shown<'_>,
    freed: &[Pair],
    rows: &[Allocation],
) -> Result<(), OutOfMemory>
    requires { AreFreed (seen shown.now).feet freed.now }
    ensures { OnOk result (out.new.items ≡ out.old.items ++ flat_map (leak_line (seen shown.now)) rows.now) }
{
    for row in rows {
        push_leak(out, shown, freed, row)?;
    }
    Ok(())
}

// Whether a run ended with a leak.
fn is_leak(verdict: Verdict) -> bool
    ensures { result ≡ is_leak verdict }
{
    match verdict {
        Verdict::Leak => true,
        Verdict::Running
        | Verdict::Exit
        | Verdict::Abort
        | Verdict::Deadlock
        | Verdict::Undefined(_) => false,
    }
}

/// Appends the blocks that were never freed, where the run ended with one.
pub(crate) fn push_leaks(
    alloc: Global,
    out: &mut Vec<u8>,
    shown: &Shown<'_>,
) -> Result<(), OutOfMemory>
    ensures { OnOk result (out.new.items ≡ out.old.items ++ leaks_text (seen shown.now)) }
{
    if !is_leak(shown.verdict) {
        return Ok(());
    }
    let freed = freed_in_order(alloc, shown.feet)?;
    push_each_leak(out, shown, freed.as_slice(), shown.rows.rows())
}
