//! The run of a program under a schedule: where it ends, what is kept of its steps, its races, and the witness for
//! the first of them. (MiniRust, lang: the machine; the witness is this project's.)
//!
//! The machine of `mr_step` steps by each entry, and lends the footprint of each step that completes. What is kept of
//! it the caller chooses by the type of a [`Record`]: [`Nothing`], the footprints (a `Vec`), or the footprints with
//! their clocks and races ([`Clocked`]). `specs/Runs.antt` says what a run comes to, by the definitions of
//! `mr_start`.
//!
//! - [`run`]: the machine behind the last entry of a legal schedule, and in the record what it keeps of all steps;
//!   or the first rule that the schedule breaks, at its place. Proved: exactly so, and memory apart there is no other
//!   answer.
//! - [`step`]: one entry of a run that goes on, for a caller that finds its entries as it goes.
//! - [`Clocked::steps`], [`Clocked::races`], [`Clocked::order`]: of a run so far the footprints, the predicted
//!   races, and clocks that tell what happens before what.
//! - [`race_of`]: the race that is listed for a step; [`witness_by`]: the kept or the short schedule of one of the
//!   races; [`first_witness`]: the witness for the first race, the kept or the short one.
//! - [`is_of_first`]: whether a schedule is of thread 0 alone.
//!
//! It hands on the [`Machine`] of `mr_step`, and what a step of it is refused for ([`StepFault`]).
//!
//! Laws: [`one_thread_shows_no_race`]; [`steps_and_entries`] (each entry completes one step at most, and each but the
//! last of a legal schedule does).
//!
//! Not promised: what a machine tells behind a want of memory in [`step`], and when memory runs out.
#![tactic(auto)]

mod alone;
mod clocked;
mod fault;
mod keeping;
mod laws;
mod running;
mod witnesses;

pub use alone::is_of_first;
pub use clocked::Clocked;
pub use fault::RunFault;
pub use keeping::{Nothing, Record};
pub use laws::{one_thread_shows_no_race, steps_and_entries};
pub use mr_event::{Footprint, OutOfMemory, Pair};
pub use mr_step::{Machine, StepFault};
pub use running::{run, step};
pub use witnesses::{Selection, first_witness, race_of, witness_by};
