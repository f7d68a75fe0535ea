//! What may stand at a place of a text.
ghost use Rattle.std.specs.Prelude.{◌≡◌, ◌++◌, IfOk, OnOk, codes, map};
ghost use Rattle.mr_parse.specs.GrammarParsing.{parsed};
ghost use Rattle.mr_refusals.specs.Going.{a_number, end_told, fault_in, fixed_words, goes, if_going, is_of_names};
ghost use Rattle.mr_refusals.specs.Going.{is_past, is_whole, keywords, may_go, may_stand, named_told, tried};
ghost use Rattle.mr_refusals.specs.Going.{word_told, words_told};

use crate::OutOfMemory;
use crate::words::{FIXED_WORDS, KEYWORDS};
use mr_lex::TextFault;
use mr_parse::{ParseFault, parse};
use mr_words::{DOUBLE_NAME, UNKNOWN_NAME};
use std::alloc::{AllocError, Global};

// A name and a number, as they are tried.
const A_NAME: &[u8] = b"x";

const A_NUMBER: &[u8] = b"1";

// The text up to a place, and a word on a line of its own.
fn tried(alloc: Global, front: &[u8], word: &[u8]) -> Result<Vec<u8>, OutOfMemory>
    ensures { IfOk result (λ text. text.items ≡ tried front.now word.now) }
{
    let mut text = Vec::from_slice(alloc, front)?;
    text.push(b'\n')?;
    text.extend_from_slice(word)?;
    Ok(text)
}

// The first fault of a text, if there is one.
fn fault_in(alloc: Global, text: &[u8]) -> Result<Option<TextFault>, OutOfMemory>
    ensures { IfOk result (λ fault. fault ≡ fault_in (parsed text.now)) }
{
    match parse(alloc, text) {
        Ok(_) => Ok(None),
        Err(ParseFault::Text(fault)) => Ok(Some(fault)),
        Err(ParseFault::Memory) => Err(AllocError),
    }
}

/// Whether a fault is one of names.
pub(crate) fn is_of_names(code: u8) -> bool
    ensures { result ≡ is_of_names code }
{
    code == UNKNOWN_NAME || code == DOUBLE_NAME
}

// Whether a fault lies behind the first byte of a line.
fn is_past(line: u64, fault: TextFault) -> bool
    ensures { result ≡ is_past line fault }
{
    line < u64::from(fault.line) || (u64::from(fault.line) == line && 1 < fault.col)
}

// Whether a text with this first fault goes on with the word that stands on this line.
fn may_go(line: u64, fault: Option<TextFault>) -> bool
    ensures { result ≡ may_go line fault }
{
    match fault {
        Some(fault) => is_of_names(fault.code) || is_past(line, fault),
        None => true,
    }
}

// Whether the grammar has nothing against a text with this first fault.
fn is_whole(fault: Option<TextFault>) -> bool
    ensures { result ≡ is_whole fault }
{
    match fault {
        Some(fault) => is_of_names(fault.code),
        None => true,
    }
}

// Whether a word goes behind a text, on this line.
fn goes(alloc: Global, front: &[u8], line: u64, word: &[u8]) -> Result<bool, OutOfMemory>
    ensures { IfOk result (λ b. b ≡ goes front.now line word.now) }
{
    let text = tried(alloc, front, word)?;
    let fault = fault_in(alloc, text.as_slice())?;
    Ok(may_go(line, fault))
}

// Appends a word behind a blank, where it goes.
fn push_word(
    alloc: Global,
    out: &mut Vec<u8>,
    front: &[u8],
    line: u64,
    word: &[u8],
) -> Result<(), OutOfMemory>
    ensures { OnOk result (out.new.items ≡ out.old.items ++ word_told front.now line word.now) }
{
    if goes(alloc, front, line, word)? {
        out.push(b' ')?;
        out.extend_from_slice(word)
    } else {
        Ok(())
    }
}

// Appends those of some words that go.
fn push_words(
    alloc: Global,
    out: &mut Vec<u8>,
    front: &[u8],
    line: u64,
    words: &[&[u8]],
) -> Result<(), OutOfMemory>
    ensures { OnOk result (out.new.items
        ≡ out.old.items ++ words_told front.now line (map (λ w. w.now) words.now)) }
{
    for word in words {
        push_word(alloc, out, front, line, word)?;
    }
    Ok(())
}

// Appends the words that go and may be names.
fn push_keywords(
    alloc: Global,
    out: &mut Vec<u8>,
    front: &[u8],
    line: u64,
) -> Result<(), OutOfMemory>
    ensures { OnOk result (out.new.items ≡ out.old.items ++ words_told front.now line keywords) }
{
    push_words(alloc, out, front, line, &KEYWORDS)
}

// Appends the words that go and may be no names, and the signs.
fn push_fixed(alloc: Global, out: &mut Vec<u8>, front: &[u8], line: u64) -> Result<(), OutOfMemory>
    ensures { OnOk result (out.new.items ≡ out.old.items ++ words_told front.now line fixed_words) }
{
    push_words(alloc, out, front, line, &FIXED_WORDS)
}

// Appends that a name goes; or, where none does, the words that go and may be names.
fn push_named(alloc: Global, out: &mut Vec<u8>, front: &[u8], line: u64) -> Result<(), OutOfMemory>
    ensures { OnOk result (out.new.items ≡ out.old.items ++ named_told front.now line) }
{
    if goes(alloc, front, line, A_NAME)? {
        out.extend_from_slice(b" NAME")
    } else {
        push_keywords(alloc, out, front, line)
    }
}

// Appends that a number goes, where one does.
fn push_number(alloc: Global, out: &mut Vec<u8>, front: &[u8], line: u64) -> Result<(), OutOfMemory>
    ensures { OnOk result (out.new.items ≡ out.old.items ++ if_going front.now line a_number (codes " NUMBER")) }
{
    if goes(alloc, front, line, A_NUMBER)? {
        out.extend_from_slice(b" NUMBER")
    } else {
        Ok(())
    }
}

// Appends that the text may end there, where it may.
fn push_end(alloc: Global, out: &mut Vec<u8>, front: &[u8]) -> Result<(), OutOfMemory>
    ensures { OnOk result (out.new.items ≡ out.old.items ++ end_told front.now) }
{
    let fault = fault_in(alloc, front)?;
    if is_whole(fault) {
        out.extend_from_slice(b" END")
    } else {
        Ok(())
    }
}

/// Appends what may stand behind a text, on this line. Each word is read behind it.
pub(crate) fn push_may_stand(
    alloc: Global,
    out: &mut Vec<u8>,
    front: &[u8],
    line: u64,
) -> Result<(), OutOfMemory>
    ensures { OnOk result (out.new.items ≡ out.old.items ++ may_stand front.now line) }
{
    out.extend_from_slice(b"here may stand:")?;
    push_named(alloc, out, front, line)?;
    push_number(alloc, out, front, line)?;
    push_fixed(alloc, out, front, line)?;
    push_end(alloc, out, front)?;
    out.push(b'\n')?;
    Ok(())
}
