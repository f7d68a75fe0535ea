//! The accesses of a step, as they stand in the JSON of a run.
ghost use Rattle.std.specs.Prelude.{◌≡◌, IfOk, option_copied, slice_get};
ghost use Rattle.mr_base.specs.Identities.{same_id};
ghost use Rattle.mr_listing.specs.Accesses.{own_row};
ghost use Rattle.mr_listing.specs.Held.{held_for, held_or, side_of};
ghost use Rattle.mr_listing.specs.Seen.{seen};
ghost use Rattle.mr_json.specs.Accesses.{access_at, access_data, accesses_data, pointer_data, value_data};
ghost use Rattle.serde_json.specs.View.{view};

use crate::OutOfMemory;
use crate::parts::{number, reached};
use mr_base::{Access, AllocId};
use mr_labels::Allocation;
use mr_listing::{Held, Shown, StepValues};
use serde_json::{Value, json};
use std::alloc::Global;

fn is_same(one: AllocId, other: AllocId) -> bool
    ensures { result ≡ same_id one other }
{
    one.thread == other.thread && one.count == other.count
}

// An allocation, where it has an identity.
fn own_row(id: AllocId, row: Option<Allocation>) -> Option<Allocation>
    ensures { result ≡ own_row id row }
{
    match row {
        Some(row) => { if is_same(id, row.id) { Some(row) } else { None } }
        None => None,
    }
}

// A pointer to an address.
fn pointer(
    alloc: Global,
    shown: &Shown<'_>,
    addr: u64,
    prov: Option<AllocId>,
) -> Result<Value, OutOfMemory>
    ensures { IfOk result (λ v. view v ≡ pointer_data (seen shown.now) addr prov) }
{
    let Some(id) = prov else {
        return Ok(Value::from(addr));
    };
    let to = reached(
        alloc,
        shown.program,
        addr,
        own_row(id, shown.rows.found_at(addr)),
    )?;
    json!(in alloc; { "address": addr, "to": to })
}

// What is loaded or stored.
fn value(alloc: Global, shown: &Shown<'_>, held: Held) -> Result<Value, OutOfMemory>
    ensures { IfOk result (λ v. view v ≡ value_data (seen shown.now) held) }
{
    match held {
        Held::Number(n) => number(alloc, n),
        Held::Pointer(p) => pointer(alloc, shown, p.addr, p.prov),
        Held::Nothing => Value::try_from_str(alloc, "no value"),
        Held::Untold => Ok(Value::Null),
    }
}

// An access that loaded or stored this.
fn access(
    alloc: Global,
    shown: &Shown<'_>,
    held: Held,
    access: Access,
) -> Result<Value, OutOfMemory>
    ensures { IfOk result (λ v. view v ≡ access_data (seen shown.now) held access) }
{
    let reached = reached(
        alloc,
        shown.program,
        access.addr,
        shown.rows.found_at(access.addr),
    )?;
    let value = value(alloc, shown, held)?;
    json!(in alloc; {
        "address": access.addr,
        "atomic": access.atomic,
        "bytes": access.len,
        "reached": reached,
        "store": access.store,
        "value": value
    })
}

// What is held at a position.
fn held_or(held: &[Held], at: usize) -> Held
    ensures { result ≡ held_or (slice_get held.now at) }
{
    match held.get(at) {
        Some(held) => *held,
        None => Held::Untold,
    }
}

// What is held before a step, or behind it.
fn side_of(values: &StepValues, behind: bool) -> &[Held]
    ensures { result.now ≡ side_of behind values.now }
{
    if behind {
        values.behind.as_slice()
    } else {
        values.before.as_slice()
    }
}

// What an access at a position loaded, before the step, or stored, behind it.
fn held_for(values: Option<&StepValues>, at: usize, access: Access) -> Held
    ensures { result ≡ held_for (option_copied values.entry) at access }
{
    match values {
        Some(values) => held_or(side_of(values, access.store), at),
        None => Held::Untold,
    }
}

fn found(accesses: &[Access], at: usize) -> Option<Access>
    ensures { result ≡ slice_get accesses.now at }
{
    accesses.get(at).copied()
}

// The access at a position, where there is one.
fn access_at(
    alloc: Global,
    shown: &Shown<'_>,
    values: Option<&StepValues>,
    accesses: &[Access],
    at: usize,
) -> Result<Value, OutOfMemory>
    ensures { IfOk result
        (λ v. view v ≡ access_at (seen shown.now) (option_copied values.entry) accesses.now at) }
{
    match found(accesses, at) {
        Some(found) => access(alloc, shown, held_for(values, at, found), found),
        None => Ok(Value::Null),
    }
}

// The accesses of a step with these values.
pub(crate) fn accesses(
    alloc: Global,
    shown: &Shown<'_>,
    values: Option<&StepValues>,
    accesses: &[Access],
) -> Result<Value, OutOfMemory>
    ensures { IfOk result
        (λ v. view v ≡ accesses_data (seen shown.now) (option_copied values.entry) accesses.now) }
{
    let mut list = Vec::new(alloc);
    for at in 0..accesses.len() {
        list.push(access_at(alloc, shown, values, accesses, at)?)?;
    }
    Ok(Value::Array(list))
}
