//! What a text denotes, as the grammar says it: definitions and their laws, and no code that runs.
//!
//! The grammar is data (`mr_ast/specs/Forms.antt`, `TypeGrammar`, `ValueGrammar`, `ProgramGrammar`); `specs/Denotes.antt` says which
//! program a text denotes, and `specs/Faults.antt` which fault is its first. `specs/Parsing.antt` computes both, from `specs/Reading.antt`, which
//! reads what words write in a form from left to right.
//!
//! Laws:
//!
//! - [`one_program()`] and [`one_fault()`]: a text denotes one program at most and has one first fault at most, and `specs/Parsing.antt` computes them.
//! - [`reads_back()`]: the canonical text of a program that some text denotes, which `mr_ast/specs/Canon.antt` defines, denotes the
//!   same program where it has at most 2^20 bytes.
//!
//! A fault of a token with which nothing goes on is told by that property: some text of the grammar begins with the words before it, and none goes
//! on with it.
#![tactic(auto)]

mod law;

pub use law::{one_fault, one_program, reads_back};
