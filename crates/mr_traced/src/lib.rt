//! A trace as people read it: its races by pairs of places, and its steps.
//!
//! A trace has the accesses of steps, and no names. They stand in a file of their own, which this crate reads. Its
//! first line is `places 2`; a line `name NAME` declares the next name, counted from 0; a line `P`, or `P V`, says of
//! the next step the number of the name of its place, and of the variable that it uses. An empty line says nothing.
//!
//! - [`races`]: the races of a trace by pairs of places, those with most races first: how many there are, the first of
//!   them, and what its two steps did.
//! - [`steps`]: the steps of a trace from one number up to another, each with its thread, its place, what it did to
//!   locks and threads, its accesses, and the steps with which it races; with a file of places or without.
//! - [`picture`]: a picture of steps of a trace (`mr_picture`), each with its place, likewise.
//! - [`orders`]: the races of a trace by two orders, Rust's and the machine's (`mr_two_orders`): by pairs of places, or
//!   without a file of places race by race.
//! - [`Told`]: the text, and how many races there are. [`Untold`]: why there is none: the first fault of the trace,
//!   that of the places ([`PlacesFault`]), or want of memory. [`fault_line`]: the line of a fault of places.
//! - [`is_trace`]: whether bytes begin as a trace does, which no program's text can.
//!
//! Proved: a text is exactly that of `specs/Races.antt`, `specs/Steps.antt`, `specs/Drawn.antt` or `specs/Orders.antt`,
//! of the run that the bytes of the trace spell (`mr_trace`), with the races that [`mr_trace::offline`] lists; each fault
//! is the first, exactly; and want of memory is the only other error. `specs/Names.antt` says what is written of a name that has bytes which aren't
//! printable. [`each_race_is_in_one_group`] is the law that no race is told twice, and none left out.
#![tactic(auto)]

mod body;
mod by_orders;
mod count;
mod drawn;
mod form;
mod kept;
mod law;
mod lines;
mod naming;
mod pairing;
mod refusal;
mod telling;

pub use law::each_race_is_in_one_group;
pub use refusal::{PlacesFault, Untold, fault_line};
pub use std::alloc::AllocError as OutOfMemory;
pub use telling::{Told, is_trace, orders, picture, races, steps};
