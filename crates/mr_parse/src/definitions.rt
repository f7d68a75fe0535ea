//! The names that a text defines, from what its words are read as.
ghost use Rattle.std.specs.Prelude.{◌≡◌, IfOk};
ghost use Rattle.mr_grammar.specs.Denotes.{definitions_in};
ghost use Rattle.mr_parse.specs.Views.{body_of_parts};
ghost use Rattle.mr_words.specs.Places.{words_of};

use crate::program::Parts;
use mr_ast::OutOfMemory;
use mr_lex::Tokens;
use mr_words::{Definitions, definitions_in as names_defined};
use std::alloc::Global;

/// The names that a text of these tokens defines, where each is known by the place of its token.
pub fn definitions_in<'a>(
    alloc: Global,
    tokens: &'a Tokens<'a>,
    parts: &Parts,
) -> Result<Definitions<'a>, OutOfMemory>
    ensures { IfOk result (λ d. d ≡ definitions_in (words_of tokens.now) (body_of_parts parts.now)) }
{
    names_defined(
        alloc,
        tokens,
        parts.globals.as_slice(),
        parts.functions.as_slice(),
    )
}
