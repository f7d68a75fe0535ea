//! Reading a text into its tokens.
ghost use Rattle.std.specs.Prelude.{◌≡◌, List, ◌≤◌, ◌++◌, length, IfOk, IfErr, OnOk, IsErrOf, Ok, Err};
ghost use Rattle.mr_lex.specs.Limits.{max_text};
ghost use Rattle.mr_lex.specs.Tokens.{Lexeme, Lexes, AreInOrder, FirstFault};
ghost use Rattle.mr_lex.specs.Reading.{lexed, Gives};
ghost use Rattle.mr_lex.specs.Spans.{spans_of};
ghost use Rattle.mr_lex.specs.declared.token.TextFault.{TextFault};

use crate::list::{Span, Tokens};
use crate::piece::{Found, PieceKind, piece_at};
use crate::place::Place;
use crate::token::{LexFault, TextFault};
use crate::{LONG_TEXT, TEXT_LIMIT};
use std::alloc::Global;

/// The tokens of a text, in order, or its first fault. It takes time in proportion to the text.
pub fn tokens(alloc: Global, text: &[u8]) -> Result<Tokens<'_>, LexFault>
    // What reading gives, unless memory runs out.
    ensures exact { Gives result (lexed text.now) }

    // The tokens of the text, and no others.
    ensures lexes { IfOk result (Lexes text.now) }
    ensures only { (lexemes : List Lexeme) → Lexes text.now lexemes → Gives result (Ok lexemes) }
    ensures ordered { IfOk result (AreInOrder text.now 0) }

    // The first fault of the text, and no other.
    ensures bad { (fault : TextFault) → IsErrOf result (LexFault.Bad fault) → FirstFault text.now fault }
    ensures first { (fault : TextFault) → FirstFault text.now fault → Gives result (Err fault) }
{
    if text.len() > TEXT_LIMIT {
        return Err(LexFault::Bad(TextFault {
            line: 1,
            col: 1,
            code: LONG_TEXT,
        }));
    }
    scan(alloc, text)
}

// The tokens of a text that is not too long, or its first fault.
fn scan(alloc: Global, text: &[u8]) -> Result<Tokens<'_>, LexFault>
    requires { length text.now ≤ max_text }
    ensures { Gives result (lexed text.now) }
{
    let mut spans = Vec::new(alloc);
    let mut place = Place::first();
    while place.at < text.len() {
        let found = match piece_at(&text[place.at..]) {
            Ok(found) => found,
            Err(code) => return Err(place.fault(code)),
        };
        add_token(&mut spans, place, found)?;
        place = place.behind(text, found.len);
    }
    Ok(Tokens::new(text, spans))
}

// Adds the span of what was found at the place, where that is a token.
fn add_token(spans: &mut Vec<Span>, place: Place, found: Found) -> Result<(), LexFault>
    ensures ok { OnOk result (spans.new.items ≡ spans.old.items ++ spans_of place found.kind found.len) }
    ensures err { IfErr result (λ fault. fault ≡ LexFault.Memory) }
{
    if let PieceKind::Token(kind) = found.kind {
        spans.push(Span {
            kind,
            at: place.at,
            len: found.len,
            line: place.line,
            col: place.col,
        })?;
    }
    Ok(())
}
