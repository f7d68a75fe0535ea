//! The run of a program under a schedule, with what each of its steps tells.
//!
//! [`tell`] runs a program as `mr_run` does. It tells which allocations the steps made, and of the entries of a part
//! ([`Between`]) where its thread stood before it and stands behind it, what it asked for, and how many prints there were
//! (`specs/Told.antt`); of the others nothing is kept. Proved: exactly so, with the machine behind the last entry and what
//! is kept of the footprints, or the first rule that the schedule breaks. [`stands`] runs it likewise, and tells where
//! the thread of each step stood before it, and nothing else (`specs/Stands.antt`). [`rests`] tells, exactly, how the
//! threads of a machine stand.
//!
//! `specs/Spoken.antt` says what an undefined run speaks of: the bytes that its last step wanted, which the machine tells
//! (`Machine::about` of `mr_step`).
#![tactic(auto)]

mod resting;
mod standing;
mod stepping;
mod telling;

pub use mr_run::RunFault;
pub use resting::rests;
pub use stepping::stands;
pub use telling::{Between, tell};
