//! Brackets of a text, and the fault that is told of one too many.
ghost use Rattle.std.specs.Prelude.{◌≡◌, ◌+◌, ◌≤◌, ◌<◌, drop, if◌then◌else◌, length, take};
ghost use Rattle.std.specs.List.{count_by};
ghost use Rattle.mr_lex.specs.Limits.{max_text};
ghost use Rattle.mr_words.specs.Brackets.{closes, is_bracket_too_many, opens};
ghost use Rattle.mr_words.specs.Brackets.{told};
ghost use Rattle.mr_words.specs.Places.{words_of};

use crate::definitions::text_at;
use crate::fault::{Stop, TOO_DEEP, UNEXPECTED};
use mr_ast::MAX_OPEN;
use mr_lex::Tokens;

// How many brackets are opened, and how many are closed.
#[derive(Clone, Copy)]
struct Brackets {
    opening: usize,
    closing: usize,
}

fn opens(text: &[u8]) -> bool
    ensures { result ≡ opens (record { text = text.now; place = 0 }) }
{
    text == b"(".as_slice() || text == b"{".as_slice() || text == b"[".as_slice()
}

fn closes(text: &[u8]) -> bool
    ensures { result ≡ closes (record { text = text.now; place = 0 }) }
{
    text == b")".as_slice() || text == b"}".as_slice() || text == b"]".as_slice()
}

fn with_one(count: usize, is_one: bool) -> usize
    requires { count < usize.MAX }
    ensures { result ≡ (if is_one then count + 1 else count) }
{
    if is_one { count + 1 } else { count }
}

// The brackets among the first n tokens.
fn brackets_before(tokens: &Tokens<'_>, n: usize) -> Brackets
    requires { n ≤ length tokens.now }
    ensures opening { result.opening ≡ count_by opens (take n (words_of tokens.now)) }
    ensures closing { result.closing ≡ count_by closes (take n (words_of tokens.now)) }
    ensures few { result.closing ≤ n }
{
    let mut opening = 0;
    let mut closing = 0;
    for i in 0..n {
        let text = text_at(&*tokens, i);
        opening = with_one(opening, opens(text));
        closing = with_one(closing, closes(text));
    }
    Brackets { opening, closing }
}

// Whether at token n a bracket is opened, behind tokens that leave as many open as may be.
fn is_bracket_too_many(tokens: &Tokens<'_>, n: usize) -> bool
    requires within { n ≤ length tokens.now }
    requires few { length tokens.now ≤ max_text }
    ensures { result ≡ is_bracket_too_many (take n (words_of tokens.now)) (drop n (words_of tokens.now)) }
{
    if !opens(text_at(&*tokens, n)) {
        return false;
    }
    let before = brackets_before(tokens, n);
    before.closing + MAX_OPEN as usize <= before.opening
}

/// The fault that is told: a bracket too many, before a token that doesn't fit.
pub fn told(tokens: &Tokens<'_>, stop: Stop) -> Stop
    requires { length tokens.now ≤ max_text }
    ensures { result ≡ told (words_of tokens.now) stop }
{
    if stop.code != UNEXPECTED {
        return stop;
    }
    let at = tokens.len().saturating_sub(stop.left);
    if is_bracket_too_many(tokens, at) {
        Stop {
            code: TOO_DEEP,
            left: stop.left,
        }
    } else {
        stop
    }
}
