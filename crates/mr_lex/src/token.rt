//! Tokens, and the faults of a text that has none.
use std::alloc::AllocFailed;

/// What a token is.
#[derive(Clone, Copy, Debug, PartialEq, Eq)]
pub enum TokenKind {
    /// A letter or `_`, and then letters, digits and `_`.
    Word,
    /// Digits.
    Number,
    /// One of `( ) { } [ ] , ; : . @ + - * = ? &`, or `->` or `=>`.
    Symbol,
}

/// A word, a number or a symbol, which borrows the text that it stands in.
#[derive(Clone, Copy, Debug)]
pub struct Token<'a> {
    pub kind: TokenKind,
    pub text: &'a [u8],
    /// Where its first byte stands, from 0 on.
    pub at: usize,
    /// The line of its first byte, from 1 on.
    pub line: u32,
    /// The column of its first byte in bytes, from 1 on.
    pub col: u32,
}

/// Where a text breaks the rules, and which rule.
#[derive(Clone, Copy, Debug, PartialEq, Eq)]
pub struct TextFault {
    /// The line, from 1 on.
    pub line: u32,
    /// The column in bytes, from 1 on.
    pub col: u32,
    /// The number of the rule ([`crate::TextRule`]).
    pub code: u8,
}

/// Why a text has no tokens.
#[derive(Clone, Copy, Debug, PartialEq, Eq)]
pub enum LexFault {
    /// The text's first fault.
    Bad(TextFault),
    /// Memory ran out.
    Memory,
}

impl<T: Drop> From<AllocFailed<T>> for LexFault {
    ghost use Rattle.std.specs.Prelude.{◌≡◌};
    ghost use Rattle.mr_lex.specs.declared.token.LexFault.TheVariants.{Memory};

    ghost from_gives = { λ _ e. e ≡ Memory };

    fn from(_failed: AllocFailed<T>) -> LexFault {
        LexFault::Memory
    }
}
