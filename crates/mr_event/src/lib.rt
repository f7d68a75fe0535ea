//! The footprints of steps, when a step depends on another, happens-before, and the races that a run shows.
//! (Lamport: happens-before; FastTrack: races; which steps wake, depend and have an edge is this project's.)
//!
//! - [`Footprint`]: what a completed step read, changed and woke, which contracts see as the record of
//!   `specs/Footprint.antt`. A run is the list of its steps' footprints. [`Footprint::nothing`] is one of a step that did
//!   nothing, [`Footprint::of`] that of a [`Step`], and [`Footprint::step`] gives the step back. [`Footprint::copied`]
//!   is a copy, which [`Footprint::copy_from`] puts in another's place. The other calls read a field each.
//! - [`Latest`]: the footprint of the last step of a run, of which each step takes the place ([`Latest::refill`]).
//! - [`Event`]: what a step did to a lock or to another thread.
//! - [`Pair`]: a race, by the places of its two steps in the run.
//!
//! Definitions: `specs/Footprints.antt` says when a step wakes a thread and depends on another step, `specs/Order.antt` what
//! happens before what and which pairs are races, `specs/Predicted.antt` computes both, `specs/Clocks.antt` what the clock
//! of a step is, `specs/FootOk.antt` has the machine's limits, and `specs/Kept.antt` the steps of a witness. Proved of the
//! public calls:
//!
//! - [`depends`]: whether a later step of another thread depends on a step, and [`wakes`]: whether it woke or created a thread, exactly.
//! - [`thread_at`], [`step_wakes`], [`step_depends`], [`step_races`]: the same of the steps of a run by their places.
//! - [`predicted_plain`]: each step that races with an earlier one unordered by happens-before, with the greatest such
//!   one, by rising second step; want of memory is its only error. It compares each two steps. Clocks order them, which
//!   are made only up to the last step that has a rival, an earlier step of another thread with an access that races.
//! - [`follows_plain`]: for each step of a run whether a given step happens before it, likewise.
//! - [`foot_ok`]: whether a footprint keeps the machine's limits, exactly, and [`same_step`]: whether two are equal.
//!
//! Laws: [`decided`] (what computes is the order and its races), [`predicted_lists`] (the list is that of the
//! definition, and no other list is), [`racing_steps_depend`].
#![tactic(auto)]

mod clocks;
mod dependence;
mod footprint;
mod latest;
mod laws;
mod likeness;
mod limits;
mod lists;
mod order;
mod races;
mod shape;
mod steps;

pub use dependence::{depends, wakes};
pub use footprint::{Footprint, Pair};
pub use latest::Latest;
pub use laws::{decided, predicted_lists, racing_steps_depend};
pub use likeness::{do_the_same, same_step};
pub use limits::foot_ok;
pub use lists::Step;
pub use mr_base::{Event, OutOfMemory};
pub use order::follows_plain;
pub use races::predicted_plain;
pub use steps::{step_depends, step_races, step_wakes, thread_at};
