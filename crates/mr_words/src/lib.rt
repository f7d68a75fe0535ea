//! What the words of a text stand for, before it is read by its grammar.
//!
//! Words of the language are found in tables, numbers have values, and names stand for their places or for what the text defines. Reading
//! stops with a code and the number of tokens that are left ([`Stop`]), which has a place in the text.
//!
//! Public calls:
//!
//! - [`int_of()`], [`type_word_of()`] and the like find a word in the tables of `mr_ast/specs/Words.antt`; [`is_name()`] says whether a word may be a name,
//!   and [`number_of()`] which number it is.
//! - [`definitions_in()`] gives the names that a text defines, [`Tables`] finds each by its hash, and a [`Scope`] gives the number of what a name stands for, or
//!   the code of its fault.
//! - [`fault_at()`] gives the place of a stop in the text, and [`told()`] tells a bracket too many before a token that doesn't fit.
#![tactic(auto)]

mod bracket;
mod definitions;
mod fault;
mod naming;
mod number;
mod place;
mod scope;
mod table;

pub use bracket::told;
pub use definitions::{Definitions, FunctionNames, definitions_in};
pub use fault::{
    DOUBLE_NAME, EXPOSED, ReadFault, Stop, TOO_DEEP, TOO_MANY, UNEXPECTED, UNKNOWN_NAME,
};
pub use number::number_of;
pub use place::fault_at;
pub use scope::{Scope, Tables};
pub use table::{
    edition_of, int_of, intrinsic_of, is_exposed, is_name, item_word_of, kind_of, stmt_word_of,
    term_word_of, tree_word_of, type_word_of, value_word_of,
};
