//! Where the statements and terminators of a program begin in its text.
//!
//! Semicolons are counted: a text has one behind the locals of each function, behind each statement and behind each
//! terminator, and no other.
//!
//! - [`Places::new`] counts those of a text's tokens and of its program; [`Places::of`] gives the line and the column of
//!   a place's first token, in constant time.
//! - [`places_begin()`] is the law that the tokens from there on, up to the next semicolon, are those that write the
//!   place's statement or terminator by the grammar, in the scope of its function; [`places_found()`] that `of` gives
//!   where the first of them begins; [`places_are_there()`] that each statement and each terminator has a place.
#![tactic(auto)]

mod ends;
mod firsts;
mod law;
mod places;

pub use law::{places_are_there, places_begin, places_found};
pub use places::{Places, Spot};
