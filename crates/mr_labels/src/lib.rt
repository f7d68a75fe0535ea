//! What the steps of a run tell people: where threads stand, and by which names their allocations go.
//!
//! - [`ToldStep`]: what the step of an entry tells beside its footprint. [`Stand`]: where a thread stands. [`Rest`]: how
//!   a thread stands at the end.
//! - [`made_names`]: the names of the allocations that a step makes, in order, by the statement at which its thread
//!   stood: a local that gets storage, the locals that a called or started function keeps, or a block of the heap.
//! - [`start_rows`], [`push_rows`]: the allocations of the start and of a step, each with its identity, its range and its
//!   name ([`Allocation`], [`Name`]).
//! - [`Allocations`]: all of a run as a table, which finds the one that holds an address in the time of a search.
//! - [`Allocations::named`]: the allocation of an identity.
//! - [`Reached`], [`Reaching`]: what an undefined step speaks of: bytes from a pointer on, and what it does with them.
//!
//! - [`push_number`], [`push_count`], [`push_name`]: numbers, and the names of addresses, as they are written. [`function_word`],
//!   [`block_word`], [`rule_name`]: what functions, blocks and rules are called.
//!
//! `specs/Names.antt` says by which name an allocation goes, `specs/Table.antt` which allocations a run has, and
//! `specs/Words.antt` how names are written. Proved: each
//! call answers exactly what these say, and want of memory is its only error.
#![tactic(auto)]

mod allocations;
mod index;
mod lookup;
mod names;
mod rows;
mod step;
mod words;

pub use allocations::Allocations;
pub use mr_base::{Reached, Reaching};
pub use names::{Name, made_names};
pub use rows::{Allocation, push_rows, start_rows};
pub use std::alloc::AllocError as OutOfMemory;
pub use step::{Rest, Stand, ToldStep};
pub use words::{block_word, function_word, push_count, push_name, push_number, rule_name};
