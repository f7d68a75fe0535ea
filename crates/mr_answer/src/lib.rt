//! What is answered of the run of a program under a schedule, in each format; and of races that a trace shows.
//!
//! `mr_run` runs the program. What it comes to is written as text or JSON with a witness for the first race, in a
//! schedule's order or in another, or as the bytes of its footprints ([`Format`]). `specs/Answers.antt` says which text
//! and which status that is, and `specs/Report.antt` what a report has. Public calls:
//!
//! - [`report_run`]: the report of the run in a format. Proved: exactly the text and the status that are defined, or
//!   the first rule that the schedule breaks, on its line of the text. Of the bytes of footprints: the run has a
//!   spelling of its own, and they are it.
//! - [`drawn`]: the schedule that is drawn from a number for a program, and the report of the run under it, exactly.
//! - [`summary`]: the summary of such a run of the program of a number, exactly.
//! - [`listing`]: how many races there are, and each, exactly.
//! - [`lines_of`], [`status_of`], [`refusal_of`]: of a run, what it printed, its status, and why there is no report, with
//!   the line of the schedule's text.
//!
//! A law, [`prints_are_plain`]: what a run prints can be written as JSON. A step asks to print nothing but the texts of integers and
//! bools with spaces between (`proofs/Printing/Steps.antt`), and no other query adds to what was printed
//! (`proofs/Printing/Prints.antt`).
//!
//! Each answer has a status of at most 1. Want of memory alone is free: nothing is said of when it comes.
#![tactic(auto)]

mod drawing;
mod formats;
mod laws;
mod reordered;
mod report;
mod run;
mod traced;

pub use drawing::{drawn, summary};
pub use formats::Format;
pub use laws::prints_are_plain;
pub use mr_input::{Refusal, Written};
pub use report::{lines_of, status_of};
pub use run::{refusal_of, report_run};
pub use traced::listing;
