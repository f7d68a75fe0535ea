//! The judge of programs: the first broken rule of a program in the order of the walk, or none.
//!
//! Which programs are well-formed is defined in `mr_typing`. The judge walks over a program and stops at the first
//! broken rule. What it finds in an expression, a statement or a terminator is computed there too (`Judging`,
//! `JudgingBlocks`); over a whole program it is in `specs/JudgingPrograms.antt`.
//!
//! The call is [`well_formed`]. Proved of it, as a clause: it answers Ok exactly where no rule is broken, with the
//! program as it was; else exactly the first broken rule, with the program as it was; or that memory ran out. A
//! [`Checked`] is a well-formed program.
//!
//! The types of a function's locals and of their parts are listed once (`specs/Listed.antt`), so that no statement
//! looks at each part of a wide type again: a variant is searched in the list, and equal types have one number
//! there.
#![tactic(auto)]

mod alike;
mod blocks;
mod checked;
mod fault;
mod globals;
mod intrinsics;
mod judging;
mod kinds;
mod listed;
mod listing;
mod operands;
mod rows;
mod seen;
mod walk;

pub use checked::well_formed;
pub use fault::WfFault;
pub use mr_typing::Checked;
