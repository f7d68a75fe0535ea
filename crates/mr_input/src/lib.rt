//! What a file gives that a command names, or what refuses it; and how an answer is written to the sink.
//!
//! A file is read whole, up to a limit: a program's text up to 2^20 bytes, a schedule's up to 2^26. What comes instead
//! of a report or a canonical text is a [`Refusal`], which has a line and an exit status of its own
//! (`specs/Refusals.antt`). `specs/Inputs.antt` says what a file holds, and `specs/Writing.antt` what the sink took.
//! Public calls:
//!
//! - [`read_program`], [`read_schedule`]: the program, or the schedule and the version of its text, in the file of a
//!   name. Proved, over files that tell what they hold: exactly what the text denotes or spells, or its first fault, or
//!   that the file isn't there; a read that failed was counted. Over others there is a text of which the same holds. At
//!   most one read is made, and the files stay as they are.
//! - [`read_text`], [`program_of`]: the two parts of [`read_program`], for a caller that needs the text too.
//! - [`number_below`]: a word that is a number in decimal below a limit, exactly.
//! - [`form_answer`]: the line of a rule of well-formedness that a program breaks, with status 4.
//! - [`Refusal::text`], [`Refusal::status`]: the line of a refusal and its status, exactly.
//! - [`answered`]: what was written of a run, or want of memory as a refusal.
//! - [`finish`]: writes a text, and answers its status; or 7, exactly where a write failed, which the sink counted.
//! - [`refuse`]: the same of the line of a refusal; where memory ran out nothing is written, and the status is 8.
//! - [`push_number`]: a number in decimal, behind a text.
//!
//! Not promised: when memory runs out.
#![tactic(auto)]

mod form;
mod input;
mod number;
mod refusal;
mod writing;
mod written;

pub use form::form_answer;
pub use input::{program_of, read_program, read_schedule, read_text};
pub use mr_ast::Program;
pub use mr_sched::Read;
pub use number::number_below;
pub use refusal::{Refusal, push_number};
pub use writing::{finish, refuse};
pub use written::{Written, answered};
