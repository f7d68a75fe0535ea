//! A run as people read it: its steps by their statements in the program's text, and its races by pairs of places.
//!
//! - [`Shown`]: what a text is made of: a program with its text, and what its run tells.
//! - [`steps`]: a line for each step that is told, with what it printed, what it did to locks and threads, its accesses by
//!   name and with what they loaded or stored ([`StepValues`], [`Held`]), and its partners; and the verdict.
//! - [`races`]: the listed races by pairs of places, those with most races first, each pair with how many there are.
//! - [`push_spoken`]: what an undefined run speaks of: an allocation by its name, and where in it; and of bytes that mean
//!   no value the step that last stored there.
//! - [`stand_text`]: where a thread stands, by the statement at which it does; [`before_of`]: where that of a step did.
//! - [`push_name`], [`push_reached`], [`push_loaded`], [`push_bytes`], [`function_word`], [`access_word`],
//!   [`acquire_word`], [`join_word`], [`release_word`]: the parts of a line, for other texts. [`push_note`], [`push_end`], [`push_woken`], [`push_partners`] with
//!   [`partners_of`], [`push_times`], [`push_group`]: lines of a step and of a group of races; [`rank_by_count`]: the
//!   order of groups; [`by_places`]: the races by their places; from these [`ranked`]: the groups in that order, and
//!   [`count_at`]: how many races are of the places of one.
//!
//! `specs/Words.antt`, `specs/Steps.antt` and `specs/Races.antt` say what is written. Proved: exactly that, and want of
//! memory is the only error. [`races_are_grouped`] is the law that the order of the pairs of places is a permutation of
//! them, and that each race is of the places of exactly one.
#![tactic(auto)]

mod accesses;
mod events;
mod held;
mod law;
mod leaks;
mod listing;
mod pairs;
mod partners;
mod rests;
mod shown;
mod sorted;
mod spoken;
mod spots;

pub use accesses::{access_word, push_bytes, push_loaded, push_reached};
pub use events::{acquire_word, join_word, push_end, push_note, push_woken, release_word};
pub use held::{Held, StepValues};
pub use law::races_are_grouped;
pub use listing::steps;
pub use pairs::{Group, push_group, push_times, races, rank_by_count, ranked};
pub use partners::{Partner, partners_of, push_partners};
pub use shown::Shown;
pub use sorted::{Numbered, before_of, by_places, count_at};
pub use spoken::push_spoken;
pub use spots::stand_text;
pub use std::alloc::AllocError as OutOfMemory;
