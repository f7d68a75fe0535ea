//! Where what a broken rule is told of begins in the text: its statement or terminator; outside blocks the local, the
//! function or the global.
ghost use Rattle.std.specs.Prelude.{◌≡◌, ◌+◌, ◌^◌, ◌<◌, IfOk, Some, if◌then◌else◌, length, slice_get};
ghost use Rattle.mr_labels.specs.Words.{local_word};
ghost use Rattle.mr_lex.specs.Reading.{lexed};
ghost use Rattle.mr_refusals.specs.Spots.{function_spot, global_spot, head_spot, is_before, is_head, is_of_type};
ghost use Rattle.mr_refusals.specs.Spots.{is_pair, last_of, spot_at, spot_of, stmt_spot, word_at};

use crate::OutOfMemory;
use mr_ast::{GlobalName, LocalName, Program};
use mr_labels::function_word;
use mr_lex::{LexFault, Tokens, tokens};
use mr_places::{Places, Spot};
use mr_typing::{FormFault, Item};
use std::alloc::{AllocError, Global};

// The place of statement `at`, or of the terminator, of a block of a function.
fn stmt_spot(
    alloc: Global,
    text: &[u8],
    p: &Program,
    function: u32,
    block: u32,
    at: u32,
) -> Result<Option<Spot>, OutOfMemory>
    ensures { IfOk result (λ spot. spot ≡ stmt_spot p.now (lexed text.now) function block at) }
{
    match tokens(alloc, text) {
        Ok(tokens) => {
            let places = Places::new(alloc, tokens, p)?;
            Ok(places.of(function, block, at as usize))
        }
        Err(LexFault::Bad(_)) => Ok(None),
        Err(LexFault::Memory) => Err(AllocError),
    }
}

// The text of a token, and nothing where there is none.
fn word_at<'a>(tokens: &Tokens<'a>, at: usize) -> &'a [u8]
    ensures { result.now ≡ word_at tokens.now at }
{
    match tokens.get(at) {
        Some(token) => token.text,
        None => b"".as_slice(),
    }
}

// Whether a token begins in front of a byte.
fn is_before(tokens: &Tokens<'_>, byte: usize, at: usize) -> bool
    ensures { result ≡ is_before tokens.now byte at }
{
    match tokens.get(at) {
        Some(token) => token.at < byte,
        None => false,
    }
}

// Whether two words stand at a token.
fn is_pair(tokens: &Tokens<'_>, first: &[u8], second: &[u8], at: usize) -> bool
    requires { at + 1 < 2 ^ 64 }
    ensures { result ≡ is_pair tokens.now first.now second.now at }
{
    word_at(&*tokens, at) == first && word_at(&*tokens, at + 1) == second
}

// Whether two words stand at a token, and three more in front of a byte.
fn is_head(tokens: &Tokens<'_>, first: &[u8], second: &[u8], byte: usize, at: usize) -> bool
    requires { at + 4 < 2 ^ 64 }
    ensures { result ≡ is_head tokens.now first.now second.now byte at }
{
    is_pair(&*tokens, first, second, at) && is_before(&*tokens, byte, at + 4)
}

// The number of a token, where it passes, and else the one before.
fn later(found: Option<usize>, at: usize, passes: bool) -> Option<usize>
    ensures { result ≡ (if passes then Some at else found) }
{
    if passes { Some(at) } else { found }
}

// The last token at which two words stand, with three more in front of a byte.
fn last_head(tokens: &Tokens<'_>, first: &[u8], second: &[u8], byte: usize) -> Option<usize>
    requires { length tokens.now + 4 < 2 ^ 64 }
    ensures { result ≡ last_of (is_head tokens.now first.now second.now byte) (length tokens.now) }
{
    let mut found = None;
    for at in 0..tokens.len() {
        found = later(found, at, is_head(&*tokens, first, second, byte, at));
    }
    found
}

// Where a token begins.
fn spot_at(tokens: &Tokens<'_>, at: Option<usize>) -> Option<Spot>
    ensures { result ≡ spot_at tokens.now at }
{
    match tokens.get(at?) {
        Some(token) => Some(Spot {
            at: token.at,
            line: token.line,
            col: token.col,
        }),
        None => None,
    }
}

// The last place of two words in front of a function's first block, whose first statement stands there.
fn head_spot(
    alloc: Global,
    text: &[u8],
    first: &[u8],
    second: &[u8],
    from: Option<Spot>,
) -> Result<Option<Spot>, OutOfMemory>
    ensures { IfOk result (λ spot. spot ≡ head_spot (lexed text.now) first.now second.now from) }
{
    match tokens(alloc, text) {
        Ok(tokens) => match from {
            Some(from) => Ok(spot_at(&tokens, last_head(&tokens, first, second, from.at))),
            None => Ok(None),
        },
        Err(LexFault::Bad(_)) => Ok(None),
        Err(LexFault::Memory) => Err(AllocError),
    }
}

// Whether a rule is one of types.
fn is_of_type(code: u8) -> bool
    ensures { result ≡ is_of_type code }
{
    code <= 28
}

// The name of a local of a function.
fn local_word(p: &Program, function: u32, local: u32) -> &str
    ensures { result.now ≡ local_word p.now local (slice_get p.now.functions function) }
{
    match p.functions.get(function as usize) {
        Some(function) => p.local_name(function, LocalName(local)),
        None => "",
    }
}

// The place of a local's type, or of the head of a function.
fn function_spot(
    alloc: Global,
    text: &[u8],
    p: &Program,
    fault: FormFault,
    function: u32,
) -> Result<Option<Spot>, OutOfMemory>
    ensures { IfOk result (λ spot. spot ≡ function_spot p.now (lexed text.now) fault function) }
{
    let from = stmt_spot(alloc, text, p, function, 0, 0)?;
    if is_of_type(fault.code) {
        let name = local_word(p, function, fault.place);
        head_spot(alloc, text, name.as_bytes(), b":", from)
    } else {
        let name = function_word(p, function);
        head_spot(alloc, text, b"fn", name.as_bytes(), from)
    }
}

// The place of a global.
fn global_spot(
    alloc: Global,
    text: &[u8],
    p: &Program,
    global: u32,
) -> Result<Option<Spot>, OutOfMemory>
    ensures { IfOk result (λ spot. spot ≡ global_spot p.now (lexed text.now) global) }
{
    let from = stmt_spot(alloc, text, p, 0, 0, 0)?;
    let name = p.global_name(GlobalName(global));
    head_spot(alloc, text, b"global", name.as_bytes(), from)
}

/// Where a rule of the program of a text is broken in it.
pub(crate) fn spot_of(
    alloc: Global,
    text: &[u8],
    p: &Program,
    fault: FormFault,
) -> Result<Option<Spot>, OutOfMemory>
    ensures { IfOk result (λ spot. spot ≡ spot_of p.now fault (lexed text.now)) }
{
    match (fault.item, fault.block) {
        (Item::Function(number), Some(name)) => stmt_spot(
            alloc,
            text,
            p,
            number,
            name.0,
            fault.place,
        ),
        (Item::Function(number), None) => function_spot(alloc, text, p, fault, number),
        (Item::Static(number), _) => global_spot(alloc, text, p, number),
    }
}
