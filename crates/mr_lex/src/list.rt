//! The tokens of a text, which borrow it.
ghost use Rattle.std.specs.Prelude.{◌≡◌, ◌+◌, ◌≤◌, ◌==◌, length, slice_get};
ghost use Rattle.std.specs.Option.{option_map};
ghost use Rattle.mr_lex.specs.Tokens.{lexeme_of};
ghost use Rattle.mr_lex.specs.Spans.{lexeme_in};

use crate::token::{Token, TokenKind};
use std::marker::Model;

/// Where a token stands in the text, and what it is.
#[derive(Clone, Copy)]
pub struct Span {
    pub kind: TokenKind,
    pub at: usize,
    pub len: usize,
    pub line: u32,
    pub col: u32,
}

impl Span {
    fn token<'a>(&self, text: &'a [u8]) -> Token<'a>
        requires { self.now.at + self.now.len ≤ length text.now }
        ensures { lexeme_of result ≡ lexeme_in text.now self.now }
    {
        Token {
            kind: self.kind,
            text: &text[self.at..self.at + self.len],
            at: self.at,
            line: self.line,
            col: self.col,
        }
    }
}

/// The tokens of a text, which they borrow. Contracts see the list of them.
#[derive(Drop)]
pub struct Tokens<'a> {
    text: &'a [u8],
    spans: Vec<Span>,
}

impl<'a> Model for Tokens<'a> {
    ghost use Rattle.std.specs.Prelude.{ℕ, List, map, length};
    ghost use Rattle.mr_lex.specs.Tokens.{Lexeme};

    ghost Value = { List Lexeme };

    ghost use Rattle.mr_lex.specs.Spans.{lexeme_in, AreBetween};

    ghost view = { λ t. map (lexeme_in t.text.now) t.spans.items };

    ghost invariant = { λ t. AreBetween 0 (length t.text.now) t.spans.items };
}

impl<'a> Tokens<'a> {
    ghost use Rattle.mr_lex.specs.Spans.{AreBetween};
    ghost use Rattle.std.specs.Prelude.{map};

    pub(crate) fn new(text: &'a [u8], spans: Vec<Span>) -> Self
        requires { AreBetween 0 (length text.now) spans.items }
        ensures { result ≡ map (lexeme_in text.now) spans.items }
    {
        Tokens { text, spans }
    }

    /// The token at a place of the list, from 0 on.
    pub fn get(&self, i: usize) -> Option<Token<'a>>
        ensures { option_map lexeme_of result ≡ slice_get self.now i }
    {
        let span = self.spans.get(i)?;
        Some(span.token(self.text))
    }

    /// How many tokens there are.
    pub fn len(&self) -> usize
        ensures { result ≡ length self.now }
    {
        self.spans.len()
    }

    /// Whether there is no token.
    pub fn is_empty(&self) -> bool
        ensures { result ≡ (length self.now == 0) }
    {
        self.spans.is_empty()
    }
}
