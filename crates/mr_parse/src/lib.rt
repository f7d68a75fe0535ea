//! Reads the text form: from the bytes of a text to the program that it denotes, or to its first fault.
//!
//! `mr_grammar` says which program a text denotes, and which fault is its first. A text is read three times: into tokens; by the grammar, where
//! a name stands for its place; and by the grammar again, where a name stands for what the text defines.
//!
//! Public calls, and what is proved of them:
//!
//! - [`parse()`] answers `Ok` exactly of a text that denotes a program, with that program, which is shaped; it answers `Text` exactly of any other
//!   text, with its first fault. Where memory runs out it answers `Memory`. It takes time in proportion to the text.
//! - [`one_program()`], [`one_fault()`] and [`reads_back()`] are the laws of `mr_grammar`.
//!
//! A [`Reader`] is the tokens that are left, and contracts see it as the list of their words. `mr_grammar/specs/Reading.antt` says what the words at the
//! front write in a form of `mr_ast`. Where they write something, a call gives that, and leaves the words behind it; where they don't, it tells the code of
//! the fault and how many words are left there. Both are exact (`specs/ReaderGives.antt`); want of memory alone is free.
//!
//! Its calls, and what is proved of them:
//!
//! - [`Reader::new()`] has the words of all tokens; [`Reader::left()`] and [`Reader::turns()`] tell how many are left. [`Reader::peek()`] lends the next one
//!   ([`Next`]), [`Reader::is_next()`] and [`Reader::is_other()`] compare it, [`Reader::advance()`] goes behind it, and [`Reader::stop()`] is a fault there.
//! - [`Reader::expect()`] takes a word, [`Reader::open()`] an opening bracket, of which so many may be open, and [`Reader::close()`] a closing one;
//!   [`Reader::followed()`] and [`Reader::closed()`] hand on what was read before it.
//! - [`Reader::name()`], [`Reader::local()`], [`Reader::block_name()`] and [`Reader::target()`] take a name, and give the number of what it stands for.
//! - [`Reader::number()`], [`Reader::repeat()`] and [`Reader::num()`] take a number in its range, or with its sign.
//! - [`Reader::ty()`], [`Reader::value()`] and [`Reader::place()`] read a whole type, value or place, in which so many brackets may be opened.
//! - [`beside()`] puts a thing beside what was read behind it, and [`pushed()`] puts what was read at the end of a list.
#![tactic(auto)]

mod definitions;
mod fault;
mod number;
mod parsing;
mod program;
mod reader;
mod statements;
mod types;
mod values;

pub use fault::ParseFault;
pub use mr_grammar::{one_fault, one_program, reads_back};
pub use parsing::parse;
pub use reader::{Next, Reader, beside, pushed};
