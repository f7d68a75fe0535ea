//! A run as JSON, for tools: what the listing of its steps and that of its races tell people.
//!
//! - [`json`]: one object and a line feed: the prints, the steps, each with its place, what it did and what its accesses
//!   loaded or stored, the races with the places of their two steps, and the verdict.
//!
//! `specs/Run.antt` says which value that is, and `specs/Parts.antt`, `specs/Accesses.antt` and `specs/Steps.antt` which
//! values its parts are. Proved: the text is that value as `serde_json` writes it and reads as that value again, and want of
//! memory is the only error.
#![tactic(auto)]

mod accesses;
mod parts;
mod run;
mod steps;

pub use run::json;
pub use std::alloc::AllocError as OutOfMemory;
