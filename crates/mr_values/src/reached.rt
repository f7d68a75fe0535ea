//! What the bytes of accesses hold, where a machine stands.
ghost use Rattle.std.specs.Prelude.{◌≡◌, IfOk, map, option_map};
ghost use Rattle.mr_runs.specs.Pieces.{bytes_of_pieces};
ghost use Rattle.mr_values.specs.Values.{bytes_in, held_at, held_there};

use crate::reading::held_in;
use mr_ast::Items;
use mr_base::{Access, Pointer};
use mr_labels::{Allocation, Allocations};
use mr_listing::Held;
use mr_runs::View;
use mr_step::Machine;
use std::alloc::{AllocError, Global};

// The bytes from a pointer on.
fn bytes_of<'a>(machine: &'a Machine<'_>, p: Pointer, len: u64) -> Option<View<'a>>
    ensures { option_map bytes_of_pieces result ≡ bytes_in p len machine.now.config.state }
{
    machine.bytes(p, len)
}

// What the bytes of an access hold in an allocation.
fn held_there(machine: &Machine<'_>, row: &Allocation, access: Access) -> Held
    ensures { result ≡ held_there machine.now.config access row.now }
{
    let pointer = Pointer {
        addr: access.addr,
        prov: Some(row.id),
    };
    match bytes_of(machine, pointer, access.len) {
        Some(view) => held_in(&view),
        None => Held::Untold,
    }
}

// The same in the one that holds its address.
fn held_at(machine: &Machine<'_>, rows: &Allocations, access: Access) -> Held
    ensures { result ≡ held_at rows.now machine.now.config access }
{
    match rows.found_at(access.addr) {
        Some(row) => held_there(machine, &row, access),
        None => Held::Untold,
    }
}

/// The same of each of these accesses.
pub(crate) fn all_held(
    alloc: Global,
    machine: &Machine<'_>,
    rows: &Allocations,
    accesses: &[Access],
) -> Result<Items<Held>, AllocError>
    ensures { IfOk result (λ held. held ≡ map (held_at rows.now machine.now.config) accesses.now) }
{
    let mut held = Vec::new(alloc);
    for access in accesses {
        held.push(held_at(machine, rows, *access))?;
    }
    Ok(Items::from_vec(held))
}
