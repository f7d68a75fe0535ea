//! The longest piece at the front of a text.
ghost use Rattle.std.specs.Prelude.{◌≡◌, ◌<◌, ◌&&◌, length, slice_index};
ghost use Rattle.mr_lex.specs.Bytes.{begins_arrow, ends_arrow};
ghost use Rattle.mr_lex.specs.Reading.{number_at, symbol_at, piece_at};
ghost use Rattle.mr_lex.specs.Scanning.{Finds};

use crate::bytes::{digits_len, is_blank, is_digit, is_letter, is_symbol, line_len, word_len};
use crate::number::is_fine_number;
use crate::token::TokenKind;
use crate::{BAD_BYTE, BAD_NUMBER};

/// What a piece of a text is.
#[derive(Clone, Copy)]
pub enum PieceKind {
    /// One byte that separates tokens.
    Blank,
    Comment,
    Token(TokenKind),
}

/// A piece at the front of a text: what it is, and how many bytes it has.
#[derive(Clone, Copy)]
pub struct Found {
    pub kind: PieceKind,
    pub len: usize,
}

impl Found {
    fn token(kind: TokenKind, len: usize) -> Found
        ensures { result ≡ record { kind = PieceKind.Token kind; len = len } }
    {
        Found {
            kind: PieceKind::Token(kind),
            len,
        }
    }
}

/// The longest piece at the front, or the code of the fault there.
#[tactic(auto, unfolding(crate::specs::Reading::piece_at))]
pub fn piece_at(rest: &[u8]) -> Result<Found, u8>
    requires { 0 < length rest.now }
    ensures { Finds rest.now result (piece_at rest.now) }
{
    let first = rest[0];
    if is_blank(first) {
        Ok(Found {
            kind: PieceKind::Blank,
            len: 1,
        })
    } else if first == b'#' {
        Ok(Found {
            kind: PieceKind::Comment,
            len: line_len(rest),
        })
    } else if is_letter(first) {
        Ok(Found::token(TokenKind::Word, word_len(rest)))
    } else if is_digit(first) {
        number_at(rest)
    } else {
        symbol_at(rest)
    }
}

#[tactic(auto, unfolding(crate::specs::Reading::number_at))]
fn number_at(rest: &[u8]) -> Result<Found, u8>
    ensures { Finds rest.now result (number_at rest.now) }
{
    let len = digits_len(rest);
    if is_fine_number(&rest[..len]) {
        Ok(Found::token(TokenKind::Number, len))
    } else {
        Err(BAD_NUMBER)
    }
}

#[tactic(auto, unfolding(crate::specs::Reading::symbol_at))]
fn symbol_at(rest: &[u8]) -> Result<Found, u8>
    requires { 0 < length rest.now }
    ensures { Finds rest.now result (symbol_at rest.now) }
{
    if is_arrow(rest) {
        Ok(Found::token(TokenKind::Symbol, 2))
    } else if is_symbol(rest[0]) {
        Ok(Found::token(TokenKind::Symbol, 1))
    } else {
        Err(BAD_BYTE)
    }
}

// Whether `->` or `=>` stands at the front.
fn is_arrow(rest: &[u8]) -> bool
    ensures { result ≡ (begins_arrow (slice_index rest.now 0) && ends_arrow (slice_index rest.now 1)) }
{
    matches!(rest, [b'-' | b'=', b'>', ..])
}
