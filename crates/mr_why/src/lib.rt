//! What is said of a code: of a rule that a text, a program or a schedule breaks, of a fault of a trace, or of a reason of
//! undefined behaviour.
//!
//! The table is `docs/CODES.md`: `.ci/codes.py` makes the files `texts`, `programs`, `schedules`, `traces` and `reasons` of
//! it, in `specs/` as what is said by definition, and in `src/` as the code that says it.
//!
//! - [`entry`]: the entry of a code: its name, a sentence, what usually causes it, what to do next, and an example. Proved:
//!   exactly that of the rule or the reason that has this number, and none where none has it.
//! - [`subject_of`]: the rule or the reason of a number.
//! - [`text`]: what is written of an entry. Proved: exactly its parts, each on a line.
//! - [`each_is_found`], a law: each rule, each fault and each reason is found by its number.
//!
//! Proved of the sentences: what the code says is what the definition says. That they help is not.
#![tactic(auto)]

mod entries;
mod law;
mod programs;
mod reasons;
mod said;
mod schedules;
mod subject;
mod texts;
mod traces;

pub use entries::{entry, text};
pub use law::each_is_found;
pub use said::{Said, Why};
pub use std::alloc::AllocError as OutOfMemory;
pub use subject::{Subject, subject_of};
