//! The memory of the interpreted program: allocations by identity, and which picks of addresses are lawful.
//!
//! Contracts see a [`Memory`] as a finite map from identities to allocations (`specs/Memory.antt`). Public calls, each
//! proved to be exactly the operation of that name on the map:
//!
//! - [`Memory::new`]: no allocation.
//! - [`Memory::lawful`]: whether an address may be picked for a new allocation, and if not, why. A range that was taken
//!   once stays taken, also after it is freed.
//! - [`Memory::allocate`]: adds an allocation at a lawful address. It fails only where the host's memory runs out.
//! - [`Memory::deallocate`]: ends the life of an allocation, or gives the first reason against that.
//! - [`Memory::check`]: the range check, with the first reason against it: no provenance, a dead allocation, out of bounds.
//! - [`Memory::load`]: lends the bytes of a range, where the address is aligned and the range check passes. It takes no memory.
//! - [`Memory::store`], [`Memory::store_numbers`], [`Memory::fill`], [`Memory::deinit`]: replace the bytes of a range so, by bytes, by
//!   numbers with one provenance, by one byte, and by uninitialised ones.
//! - [`Memory::leaks`]: whether a heap allocation is live.
//!
//! A refused call leaves the memory as it was. [`Fault`] is for what stands above: undefined behaviour, or want of memory.
//!
//! Beside the allocations by identity stand the addresses that they take, in the order of the addresses
//! (`specs/Spans.antt`). No contract sees them.
#![tactic(auto)]

mod fault;
mod memory;
mod ranges;
mod spans;

pub use fault::{Fault, PickFault};
pub use memory::Memory;
