//! Runs in another order: the witness for a race, a shorter one, and another order of a run without races. (This project's;
//! Mazurkiewicz: traces.) A witness is a rearranged part of a run that brings the machine to the two racing steps side by side.
//!
//! - [`witness`]: for one of a run's races the entries that its first step doesn't happen before, in recorded order,
//!   and then those of the two steps. Proved: the answer is that schedule, and for the first race, of each
//!   well-formed program whose run under the recorded schedule this is, it is a witness (`mr_exchange`:
//!   `specs/Witness.antt`): legal, of each thread the first entries, each step the one that it was in the run, and
//!   behind the last the machine reports the data race. Want of memory is its only error.
//! - [`short`]: of the entries before the race's second step those of the steps that happen before one of its two
//!   steps, those of the second step's partners, and those of the steps that happen before a partner; in recorded
//!   order, and then those of the two steps. Proved: the answer is that schedule (`specs/Short.antt`); for the first
//!   race, of each well-formed program whose run under the recorded schedule this is, it is a witness; each of its
//!   entries is one of the kept schedule, and it has at most as many. Want of memory is its only error. It compares
//!   the second step with each earlier one, and finds what happens before by the clocks of the run (`mr_clocks`), in
//!   one pass.
//! - [`shuffle`]: a schedule that takes the recorded steps of a run in which no race is listed in an order that is drawn from a
//!   number (`specs/Shuffled.antt`): the same result, step by step. Proved: the answer is that schedule, its steps are a
//!   rearrangement of the run, and of each well-formed program whose run under the recorded schedule this is, with no race
//!   listed, it comes to the same. Want of memory is its only error. It looks in each turn at the clock of each thread's
//!   earliest step that is left (`mr_clocks`), and at no other step.
//! - [`every_order`]: the law behind it, of every rearrangement. `specs/EveryOrder.antt` says what coming to the same is: the
//!   schedule is legal, its steps are the recorded ones and race no more than these, and it ends in the same state with the
//!   same prints of each thread and the same verdict.
//! - [`entry_copied`]: a copy of an entry, for other choices of entries.
//! - [`races_are_of_the_check`]: a law: no step itself stops with a data race, whatever the program and the state are. So a run
//!   that ends with this verdict ends behind a completed step, by the race check. A step is looked at by its form: no script
//!   refuses with this reason (`proofs/Expressions.antt`, `proofs/Frames.antt`, `proofs/Steps.antt`), and neither memory nor the
//!   tables of threads and locks do (`proofs/Queries.antt`).
#![tactic(auto)]

mod choosing;
mod laws;
mod orders;
mod placing;
mod reasons;
mod shortening;
mod shuffling;

pub use choosing::{entry_copied, witness};
pub use laws::first_race_has_a_witness;
pub use mr_event::{Footprint, OutOfMemory, Pair};
pub use mr_sched::{Entry, Schedule};
pub use orders::every_order;
pub use reasons::races_are_of_the_check;
pub use shortening::short;
pub use shuffling::shuffle;
