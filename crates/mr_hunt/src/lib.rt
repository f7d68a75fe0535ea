//! Hunting: the runs of many numbers, each under the schedule that `mr_auto` draws from it; which ends they have, or
//! the first of them that has what is looked for.
//!
//! A run shows its verdict and its races, each by the places of its two steps ([`End`]); `specs/Ends.antt` says when
//! two of these are of one kind. Public calls:
//!
//! - [`table`]: for each kind of end that the run of a number from one to another has, how many numbers have it, and
//!   the first of them ([`Row`]). Proved: exactly these rows (`specs/Table.antt`); each count is the count of the
//!   numbers that have the kind, each first one the least, and no kind is missing. What is kept grows with the rows
//!   alone.
//! - [`first_met`]: the least of these numbers whose run has what is looked for ([`Aim`]), or none, where none has it.
//!   Proved. Of a run's steps no more is kept than the aim asks for: nothing for a verdict or a line of output, the
//!   footprints for a race by Rust's order (`mr_rust_order`).
//! - [`table_text`], [`found_text`], [`none_text`]: what is written of a table, and of the run of one number; of that
//!   its races by Rust's order too, where these were looked for. Proved: exactly the texts of `specs/Texts.antt`.
//! - [`how_many`]: how many numbers there are from one to another.
//!
//! Want of memory is the only error of each.
#![tactic(auto)]

mod aims;
mod counting;
mod ends;
mod seeing;
mod texts;

pub use aims::{Aim, first_met};
pub use counting::{Row, how_many, table};
pub use ends::End;
pub use texts::{found_text, none_text, table_text};
