//! The first fault of a program's text, as it is told.
ghost use Rattle.std.specs.Prelude.{◌≡◌, ◌++◌, ◌+◌, ◌-◌, None, OnOk, Some, codes, decimal, if◌then◌else◌, slice_get};
ghost use Rattle.std.specs.List.{find};
ghost use Rattle.std.specs.Option.{option_map};
ghost use Rattle.mr_lex.specs.Tokens.{lexeme_of};
ghost use Rattle.mr_refusals.specs.Texts.{begins_at, byte_told, going_told, is_tried, standing_told, text_told};
ghost use Rattle.mr_refusals.specs.Texts.{token_told, word_line};
ghost use Rattle.mr_lex.specs.Reading.{lexed};
ghost use Rattle.mr_refusals.specs.Going.{is_of_names, may_stand};
ghost use Rattle.mr_refusals.specs.Lines.{line_at};

use crate::OutOfMemory;
use crate::going::{is_of_names, push_may_stand};
use crate::heads::{Mark, Source, push_fault};
use crate::lines::{front, line_at};
use mr_labels::push_number;
use mr_lex::{BAD_BYTE, LexFault, TextFault, Token, Tokens, tokens};
use mr_words::UNEXPECTED;
use std::alloc::{AllocError, Global};

// So many bytes of a word are told at most.
const WIDTH: usize = 60;

// With so many bytes in front of a fault at most it is told what may stand there: all are read anew with each word.
const MOST_IN_FRONT: usize = 1 << 16;

// Whether a token begins at a line and a column.
fn begins_at(token: &Token<'_>, line: u32, col: u32) -> bool
    ensures { result ≡ begins_at line col (lexeme_of token.now) }
{
    token.line == line && token.col == col
}

// The token that begins at a line and a column.
fn token_at<'a>(tokens: &Tokens<'a>, line: u32, col: u32) -> Option<Token<'a>>
    ensures { option_map lexeme_of result ≡ find (begins_at line col) tokens.now }
{
    for i in 0..tokens.len() {
        let Some(token) = tokens.get(i) else {
            return None;
        };
        if begins_at(&token, line, col) {
            return Some(token);
        }
    }
    None
}

// Appends what may stand at a fault, behind the text in front of it.
fn push_behind(
    alloc: Global,
    out: &mut Vec<u8>,
    fault: TextFault,
    front: &[u8],
) -> Result<(), OutOfMemory>
    ensures { OnOk result (out.new.items ≡ out.old.items ++ may_stand front.now (fault.line + 1)) }
{
    push_may_stand(alloc, out, front, u64::from(fault.line) + 1)
}

// Whether it is told what may stand at a fault: for a token that doesn't fit, not too far behind.
fn is_tried(code: u8, front: &[u8]) -> bool
    ensures { result ≡ is_tried code front.now }
{
    code == UNEXPECTED && front.len() <= MOST_IN_FRONT
}

// The same where it is told.
fn push_going(
    alloc: Global,
    out: &mut Vec<u8>,
    fault: TextFault,
    front: &[u8],
) -> Result<(), OutOfMemory>
    ensures { OnOk result (out.new.items ≡ out.old.items ++ going_told fault front.now) }
{
    if is_tried(fault.code, front) {
        push_behind(alloc, out, fault, front)
    } else {
        Ok(())
    }
}

// Appends what a word is told behind.
fn push_lead(out: &mut Vec<u8>, code: u8) -> Result<(), OutOfMemory>
    ensures { OnOk result (out.new.items
        ≡ out.old.items ++ (if is_of_names code then codes "the name is `" else codes "here stands `")) }
{
    if is_of_names(code) {
        out.extend_from_slice(b"the name is `")
    } else {
        out.extend_from_slice(b"here stands `")
    }
}

// Appends the line of a word.
fn push_word(out: &mut Vec<u8>, code: u8, word: &[u8]) -> Result<(), OutOfMemory>
    ensures { OnOk result (out.new.items ≡ out.old.items ++ word_line code word.now) }
{
    push_lead(out, code)?;
    out.extend_from_slice(front(word, WIDTH))?;
    out.extend_from_slice(b"`\n")?;
    Ok(())
}

// Appends the token that stands at a fault, and what may.
fn push_found(
    alloc: Global,
    out: &mut Vec<u8>,
    text: &[u8],
    fault: TextFault,
    token: Token<'_>,
) -> Result<(), OutOfMemory>
    ensures { OnOk result (out.new.items
        ≡ out.old.items ++ token_told text.now fault (Some (lexeme_of token.entry))) }
{
    push_word(out, fault.code, token.text)?;
    push_going(alloc, out, fault, front(text, token.at))
}

// Appends that the text ends at a fault, and what may stand there.
fn push_text_end(
    alloc: Global,
    out: &mut Vec<u8>,
    text: &[u8],
    fault: TextFault,
) -> Result<(), OutOfMemory>
    ensures { OnOk result (out.new.items ≡ out.old.items ++ token_told text.now fault None) }
{
    out.extend_from_slice(b"the text ends here\n")?;
    push_going(alloc, out, fault, text)
}

// Appends what stands at a fault, a token or the end, and what may.
fn push_token(
    alloc: Global,
    out: &mut Vec<u8>,
    text: &[u8],
    fault: TextFault,
    token: Option<Token<'_>>,
) -> Result<(), OutOfMemory>
    ensures { OnOk result (out.new.items
        ≡ out.old.items ++ token_told text.now fault (option_map lexeme_of token.entry)) }
{
    match token {
        Some(token) => push_found(alloc, out, text, fault, token),
        None => push_text_end(alloc, out, text, fault),
    }
}

// Appends the byte that begins no token.
fn push_bad(out: &mut Vec<u8>, byte: u8) -> Result<(), OutOfMemory>
    ensures { OnOk result (out.new.items ≡ out.old.items ++ (codes "the byte is " ++ decimal byte ++ codes "\n")) }
{
    out.extend_from_slice(b"the byte is ")?;
    push_number(out, u64::from(byte))?;
    out.push(b'\n')?;
    Ok(())
}

// The same, if it is there and is what is wrong.
fn push_byte(out: &mut Vec<u8>, code: u8, byte: Option<u8>) -> Result<(), OutOfMemory>
    ensures { OnOk result (out.new.items ≡ out.old.items ++ byte_told code byte) }
{
    match byte {
        Some(byte) => {
            if code == BAD_BYTE {
                push_bad(out, byte)
            } else {
                Ok(())
            }
        }
        None => Ok(()),
    }
}

// The byte at a place, if there is one.
fn byte_at(text: &[u8], line: u32, col: u32) -> Option<u8>
    ensures { result ≡ slice_get (line_at text.now line) (col - 1) }
{
    line_at(text, line)
        .get(col.saturating_sub(1) as usize)
        .copied()
}

// Appends what stands at a fault of a text.
fn push_standing(
    alloc: Global,
    out: &mut Vec<u8>,
    text: &[u8],
    fault: TextFault,
) -> Result<(), OutOfMemory>
    ensures { OnOk result (out.new.items ≡ out.old.items ++ standing_told text.now fault (lexed text.now)) }
{
    match tokens(alloc, text) {
        Ok(tokens) => {
            let token = token_at(&tokens, fault.line, fault.col);
            push_token(alloc, out, text, fault, token)
        }
        Err(LexFault::Bad(_)) => push_byte(out, fault.code, byte_at(text, fault.line, fault.col)),
        Err(LexFault::Memory) => Err(AllocError),
    }
}

/// Appends the first fault of a text in a file.
pub(crate) fn push_text_fault(
    alloc: Global,
    out: &mut Vec<u8>,
    source: Source<'_>,
    fault: TextFault,
) -> Result<(), OutOfMemory>
    ensures { OnOk result (out.new.items
        ≡ out.old.items ++ text_told source.entry.name.now source.entry.text.now fault) }
{
    let mark = Mark {
        line: fault.line,
        col: fault.col,
    };
    push_fault(out, source, mark, fault.code)?;
    push_standing(alloc, out, source.text, fault)
}
