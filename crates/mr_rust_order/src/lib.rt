//! Data races of a run by Rust's own order of its steps, beside those of the machine's. (Rust's std::sync::atomic and
//! reference; C++20, [intro.races]; FastTrack: vector clocks and shadow memory.)
//!
//! A step comes right before a later one of its thread; before the steps of a thread that it woke or started; before
//! one that acquires a lock that it releases; before one that joins a thread that it ended; and before an atomic load
//! of a byte that it was the last to store to, by atomic stores alone. Two stores have no such order, nor have two
//! spawns, the making of two locks, nor the making of an allocation and its use. What comes of these by chains is
//! Rust's order. A race of Rust is a pair of steps of two threads with accesses that race, of which the earlier
//! doesn't come before the later one.
//!
//! - [`races`]: the races of a run: each step that has one, with the greatest earlier step of such a pair, by rising
//!   second step. Proved: the list is exactly that of `specs/Order.antt`, which `specs/Tests.antt` has as a value; want
//!   of memory is the only error.
//! - [`Analysis`]: the same a step at a time. [`Analysis::new`] knows no step; [`Analysis::add`], which knows the steps
//!   before a step, gives the greatest earlier one that has a race with it, and then knows it too;
//!   [`Analysis::orders`] answers whether a step happens before the next one.
//! - [`first_gap`]: the first link of a way over steps that isn't in Rust's order (`specs/Gaps.antt`).
//!
//! Laws: [`sequences_pass_on`] (a step of a release sequence passes its order on; the order goes forward), [`decided`]
//! (the tests decide the order and its races), [`one_list`] (the list that is defined is that of the races of a run,
//! and no other list is), [`plain_runs_agree`] (where no access is atomic, and what else depends on an earlier step comes
//! behind it by Rust's order, both orders are one and list the same races: `specs/Plain.antt`).
//!
//! How it goes: a step sends the clock behind it to its thread, to the threads that it woke or started, to a lock
//! that it releases, and to those that join its thread where it ends that (`specs/Channels.antt`). For each range and
//! kind rows keep steps that made this access, so that each other step that made it happens before one of them, and
//! with an atomic store the clock behind the step (`specs/Rows.antt`): a step takes the row of one that it knows. An
//! atomic load looks up the rows that it meets, and finds for each byte the latest store (`specs/Loads.antt`). A step
//! has a race exactly where it races with the step of a row that its clock doesn't know (`specs/Partners.antt`). Rows
//! are found by marks on shelves (`specs/Marks.antt`), so a step takes the time of the rows that its accesses meet, and
//! a logarithm of all rows. What was found is kept for late accesses (`specs/Memos.antt`): one that is made again looks
//! at the rows that came since alone, unless these are many.
#![tactic(auto)]

mod analysis;
mod channels;
mod clock;
mod gaps;
mod index;
mod laws;
mod loads;
mod memos;
mod partners;
mod rows;
mod runs;
mod taking;

pub use analysis::Analysis;
pub use gaps::first_gap;
pub use laws::{decided, one_list, plain_runs_agree, sequences_pass_on};
pub use runs::races;
