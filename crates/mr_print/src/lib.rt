//! The canonical text of programs.
//!
//! A program has one canonical text: its words in the order of the grammar, by lines, with one space between two words of a line
//! and LF at its end. A line ends after the header, a global, a function's opening brace, the list of locals, a block's colon, a
//! statement, a terminator, a function's closing brace and the main line. A repeat of 1 is left out, the empty tuple of size 0 and
//! alignment 1 is `unit`, and a negative number is two words.
//!
//! Public call: [`print()`] writes that text, as `mr_ast/specs/Canon.antt` defines it, behind what the output held, or changes
//! nothing for want of memory. It prints any program: a name without a text is the empty word, and a shaped program has none.
//!
//! The other functions write the words of one thing each. A word is written with the space in front of the next, and the last
//! word of a line with LF (`specs/Appends.antt`).
#![tactic(auto)]

mod program;
mod stmts;
mod types;
mod values;
mod words;

pub use mr_ast::OutOfMemory;
pub use program::print;
