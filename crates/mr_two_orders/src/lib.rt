//! The races of a run by two orders of its steps: Rust's own, and the machine's. Each pair of places where one of the
//! two lists has a race is told, with which lists have some there, and why one has none.
//!
//! - [`two_orders`]: the text for the run of a program. Proved: it is exactly that of `specs/Texts.antt`, by the races
//!   that are defined for the two orders (`mr_rust_order`, `mr_event`); want of memory is the only error.
//! - [`bare_orders`]: the same for any run and two lists, race by race (`specs/Bare.antt`). [`either`]: the first of two
//!   lists that has races.
//! - [`push_head`], [`push_rust_line`], [`push_machine_line`]: its first line, and the lines below a group of one list,
//!   for other texts. `specs/Standing.antt` says what these are.
//!
//! Laws: [`lines_are_true`]: where a line says that the other order has two steps in order, it has, and the link that is
//! told is one of the machine's order and none of Rust's. [`each_race_is_told`]: each race of either list is of the
//! places of exactly one group that is told.
#![tactic(auto)]

mod bare;
mod law;
mod partner;
mod reason;
mod standing;
mod text;

pub use bare::bare_orders;
pub use law::{each_race_is_told, lines_are_true};
pub use partner::either;
pub use standing::{push_head, push_machine_line, push_rust_line};
pub use std::alloc::AllocError as OutOfMemory;
pub use text::two_orders;
