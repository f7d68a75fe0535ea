//! The table of the allocations of a run.
use crate::OutOfMemory;
use crate::index::{are_apart, put_in_order, searched, with_bytes};
use crate::lookup::{found_at, named};
use crate::rows::Allocation;
use mr_base::AllocId;
use std::alloc::Global;
use std::marker::Model;

/// The allocations of a run, in the order in which they are made. Contracts see the list of them.
#[derive(Drop)]
pub struct Allocations {
    rows: Vec<Allocation>,
    /// Those with bytes, in the order of their first addresses.
    index: Vec<Allocation>,
    /// Whether none of these reaches the next one. In a run under a legal schedule none does.
    apart: bool,
}

impl Model for Allocations {
    ghost use Rattle.std.specs.Prelude.{List};
    ghost use Rattle.mr_labels.specs.declared.rows.Allocation.{Allocation};
    ghost use Rattle.mr_labels.specs.Index.{IsIndexIf};

    ghost Value = { List Allocation };

    ghost view = { λ t. t.rows.items };

    ghost invariant = { λ t. IsIndexIf t.apart t.rows.items t.index.items };
}

impl Allocations {
    ghost use Rattle.std.specs.Prelude.{◌≡◌, IfOk};
    ghost use Rattle.mr_labels.specs.Table.{found_at, named};

    /// The table of these allocations. An `Err` is for want of memory.
    pub fn new(alloc: Global, rows: Vec<Allocation>) -> Result<Allocations, OutOfMemory>
        ensures { IfOk result (λ all. all ≡ rows.items) }
    {
        let mut index = with_bytes(alloc, rows.as_slice())?;
        put_in_order(&mut index)?;
        let apart = are_apart(index.as_slice());
        Ok(Allocations { rows, index, apart })
    }

    /// The allocations.
    pub fn rows(&self) -> &[Allocation]
        ensures { result.now ≡ self.now }
    {
        self.rows.as_slice()
    }

    /// The allocation of an identity, where it is one of the run.
    pub fn named(&self, id: AllocId) -> Option<Allocation>
        ensures { result ≡ named id self.now }
    {
        named(id, self.rows.as_slice())
    }

    /// The allocation that holds an address, where one does: in the time of a search where none reaches another, and else
    /// one after the other.
    pub fn found_at(&self, addr: u64) -> Option<Allocation>
        ensures { result ≡ found_at addr self.now }
    {
        if self.apart {
            searched(addr, self.index.as_slice())
        } else {
            found_at(addr, self.rows.as_slice())
        }
    }
}
