//! Which allocation holds an address, and which one has an identity.
ghost use Rattle.std.specs.Prelude.{◌≡◌};
ghost use Rattle.mr_base.specs.Identities.{same_id};
ghost use Rattle.mr_labels.specs.Table.{found_at, holds, named};

use crate::rows::Allocation;
use mr_base::AllocId;

/// Whether an allocation holds an address.
pub(crate) fn holds(addr: u64, row: &Allocation) -> bool
    ensures { result ≡ holds addr row.now }
{
    addr >= row.start && addr - row.start < row.size
}

/// The first allocation that holds an address, where one does.
pub(crate) fn found_at(addr: u64, rows: &[Allocation]) -> Option<Allocation>
    ensures { result ≡ found_at addr rows.now }
{
    for row in rows {
        if holds(addr, row) {
            return Some(*row);
        }
    }
    None
}

/// The first allocation of an identity, where there is one.
pub(crate) fn named(id: AllocId, rows: &[Allocation]) -> Option<Allocation>
    ensures { result ≡ named id rows.now }
{
    for row in rows {
        if is_named(id, row) {
            return Some(*row);
        }
    }
    None
}

// Whether an allocation has an identity.
fn is_named(id: AllocId, row: &Allocation) -> bool
    ensures { result ≡ same_id id row.now.id }
{
    id.thread == row.id.thread && id.count == row.id.count
}
