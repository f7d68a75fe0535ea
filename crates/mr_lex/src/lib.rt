//! The tokens of a program's text: words, numbers and symbols, which borrow it.
//!
//! Blanks and comments separate tokens; a comment runs from `#` to the end of its line. `tokens` reads a text of at most
//! `TEXT_LIMIT` bytes in one pass, and `Tokens` gives the tokens in order, each with its offset, line and column.
//!
//! Proved of `tokens`: an answer `Ok` holds the tokens of the text (`Lexes`), in order and apart, each the part of the
//! text at its place; an answer `Bad` is the text's first fault (`FirstFault`), with its place and code; and a text
//! that has these tokens, or this fault, gets no other answer than that or `Memory`. Proved of `one_reading`: each
//! text has one list of tokens or one first fault, and `lexed` computes it. `value_of` gives the value of decimal digits, and
//! `None` exactly where it has more than 128 bits. [`TextRule`] has the number and the name of each rule that a text may break, those
//! of the grammar and of names too; the law `codes_differ` says that rules with one number are one rule.
#![tactic(auto)]

mod bytes;
mod list;
mod number;
mod piece;
mod place;
mod reading;
mod rule;
mod scan;
mod token;

pub use list::Tokens;
pub use number::value_of;
pub use reading::one_reading;
pub use rule::{TextRule, codes_differ};
pub use scan::tokens;
pub use token::{LexFault, TextFault, Token, TokenKind};

/// The code of a byte that begins nothing that a text may hold.
pub const BAD_BYTE: u8 = 1;
/// The code of a number with a zero in front of other digits, or of more than 128 bits.
pub const BAD_NUMBER: u8 = 2;
/// The code of a text of more than `TEXT_LIMIT` bytes.
pub const LONG_TEXT: u8 = 3;
/// The most bytes that a text may have.
pub const TEXT_LIMIT: usize = 1 << 20;
