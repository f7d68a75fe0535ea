//! Programs from a number.
//!
//! The program of a number has a counter, from 2 to 8 worker threads that each add to it in so many rounds, each time under one lock,
//! and a main function that starts the workers, waits for them and prints the counter. Where the number is odd, each worker sets the
//! counter to 0 at its end without the lock, so that the program has races. `specs/Generated.antt` has the program as data, block by block.
//!
//! Public calls, and what is proved of each:
//!
//! - [`program`] gives exactly the program that is defined for the number, which is well-formed, unless memory is wanting.
//! - [`workers`] and [`rounds`] give exactly how many workers it has, and how many rounds each of them.
//! - The law [`generated_well_formed`] says that the program of every number is well-formed.
#![tactic(auto)]

mod building;
mod lists;
mod naming;
mod numbers;
mod starter;
mod values;
mod worker;

pub use building::{generated_well_formed, program};
pub use mr_ast::{OutOfMemory, Program};
pub use numbers::{rounds, workers};
