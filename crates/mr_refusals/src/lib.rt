//! What refuses a program or a schedule, as people read it.
//!
//! - [`check_program`]: what is said of a program by its text: the first fault of the text, or the first rule that the
//!   program breaks, or that it is well-formed.
//! - [`check_schedule`]: the same, and of a schedule of that program: the first fault of its text, or the first rule
//!   that it breaks, or that it is legal.
//!
//! A fault is told with the file, the line and the column, what its code says, the line itself, and a caret. Of a text
//! it is told too what stands there; for a token that doesn't fit, with at most 2^16 bytes in front of it, also each
//! word of the language that does. Of a schedule the entry is told, its thread and its picks.
//!
//! Proved: exactly what `specs/Answers.antt` defines over the bytes of the files alone: the fault is the first by the
//! definitions of texts, programs and schedules, and each line is that of the text. Want of memory is the only error.
//! Laws: [`caret_is_below`], that the byte over the caret is the one at the column; [`place_is_on_line`], that the line
//! of a place holds it at its column; [`words_are_told`], that the words that are tried are those of the language.
#![tactic(auto)]

mod checking;
mod forms;
mod going;
mod heads;
mod law;
mod lines;
mod schedules;
mod spots;
mod texts;
mod words;

pub use checking::{check_program, check_schedule};
pub use heads::Source;
pub use law::{caret_is_below, place_is_on_line, words_are_told};
pub use mr_input::Written;
pub use std::alloc::AllocError as OutOfMemory;
