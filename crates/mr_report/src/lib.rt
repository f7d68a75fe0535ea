//! The report of a run, as text and as JSON.
//!
//! A [`Report`] has the prints of a run in order, its verdict, the races that the run shows, and for the first of them a witness: a schedule
//! that brings the machine to the two racing steps. Public calls:
//!
//! - [`text`]: appends the text of a report, line by line. Proved to be exactly that of `specs/Report.antt`; it fails only where memory
//!   runs out, and changes nothing then.
//! - [`brief`]: appends the prints, the verdict and how many races there are. Proved likewise.
//! - [`json`]: appends the same report as one JSON object and a line feed. Proved to be exactly the bytes of `specs/Json.antt`, where the
//!   texts of the prints have no bytes but digits, small letters, `-` and space; an `Err` changes nothing.
#![tactic(auto)]

mod encoding;
mod report;
mod writing;

pub use encoding::json;
pub use mr_event::Pair;
pub use report::{Line, Report};
pub use std::alloc::AllocError as OutOfMemory;
pub use writing::{brief, text};
