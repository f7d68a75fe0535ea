//! Parsing: from the tokens of a text to its program, or to its first fault.
ghost use Rattle.std.specs.Prelude.{◌≡◌, ◌≤◌, ◌^◌, ℕ, length, IfOk, IsErrOf, Ok, Err};
ghost use Rattle.std.specs.Str.{IsAscii};
ghost use Rattle.mr_ast.specs.declared.program.Program.{Program};
ghost use Rattle.mr_ast.specs.Shaped.{Shaped};
ghost use Rattle.mr_lex.specs.declared.token.TextFault.{TextFault as Fault};
ghost use Rattle.mr_grammar.specs.Denotes.{Denotes, definitions_in, program_of};
ghost use Rattle.mr_words.specs.Defined.{knowing, text_at};
ghost use Rattle.mr_grammar.specs.Faults.{FirstFault};
ghost use Rattle.mr_parse.specs.ReaderGives.{Gives};
ghost use Rattle.mr_parse.specs.Gives.{ParseGives};
ghost use Rattle.mr_grammar.specs.Parsing.{body_of, parsed, program_in, whole_of};
ghost use Rattle.mr_words.specs.Naming.{IsSmall};
ghost use Rattle.mr_words.specs.Places.{words_of};
ghost use Rattle.mr_parse.specs.Views.{body_of_parts, defined_by};

use crate::Reader;
use crate::definitions::definitions_in as names_defined;
use crate::fault::ParseFault;
use crate::program::{Parts, program};
use mr_ast::{MAX_OPEN, OutOfMemory, Program, TextKey};
use mr_lex::{LexFault, Tokens, tokens};
use mr_words::{ReadFault, Scope, Tables, UNEXPECTED, fault_at, told};
use std::alloc::Global;

// What all tokens write.
fn whole(alloc: Global, tokens: &Tokens<'_>, scope: &Scope<'_>) -> Result<Parts, ReadFault>
    requires { length tokens.now ≤ 2 ^ 20 }
    ensures { Gives body_of_parts result (whole_of scope.now (words_of tokens.now)) }
{
    let mut reader = Reader::new(tokens);
    let parts = program(&mut reader, alloc, scope, MAX_OPEN)?;
    match reader.peek() {
        None => Ok(parts),
        Some(_) => Err(reader.stop(UNEXPECTED)),
    }
}

// The same, where a bracket too many is told before a token that doesn't fit.
fn body(alloc: Global, tokens: &Tokens<'_>, scope: &Scope<'_>) -> Result<Parts, ReadFault>
    requires { length tokens.now ≤ 2 ^ 20 }
    ensures { Gives body_of_parts result (body_of scope.now (words_of tokens.now)) }
{
    match whole(alloc, tokens, scope) {
        Ok(parts) => Ok(parts),
        Err(ReadFault::At(stop)) => Err(ReadFault::At(told(tokens, stop))),
        Err(ReadFault::Memory) => Err(ReadFault::Memory),
    }
}

// The same, where names stand for what a text defines.
fn named(alloc: Global, tokens: &Tokens<'_>, tables: &Tables<'_>) -> Result<Parts, ReadFault>
    requires { length tokens.now ≤ 2 ^ 20 }
    ensures { Gives body_of_parts result (body_of (knowing tables.now) (words_of tokens.now)) }
{
    let scope = Scope::knowing(alloc, &*tables)?;
    body(alloc, tokens, &scope)
}

// The tables of the names that the tokens of a text with this key define.
fn tables_in<'a>(
    alloc: Global,
    key: TextKey,
    tokens: &'a Tokens<'a>,
    parts: &Parts,
) -> Result<Tables<'a>, OutOfMemory>
    requires { IsSmall (definitions_in (words_of tokens.now) (body_of_parts parts.now)) }
    ensures { IfOk result (λ t. t ≡ definitions_in (words_of tokens.now) (body_of_parts parts.now)) }
{
    let definitions = names_defined(alloc, tokens, parts)?;
    Tables::new(alloc, key, definitions)
}

// The same, from a first reading, in which no name is known.
fn tables_of<'a>(
    alloc: Global,
    key: TextKey,
    tokens: &'a Tokens<'a>,
) -> Result<Tables<'a>, ReadFault>
    requires few { length tokens.now ≤ 2 ^ 20 }
    requires ascii { (n : ℕ) → IsAscii (text_at (words_of tokens.now) n) }
    ensures { Gives (λ t. t) result (defined_by (words_of tokens.now)) }
{
    match body(alloc, tokens, &Scope::unknown(alloc)) {
        Ok(parts) => match tables_in(alloc, key, tokens, &parts) {
            Ok(tables) => Ok(tables),
            Err(_) => Err(ReadFault::Memory),
        },
        Err(fault) => Err(fault),
    }
}

// A program from its parts, in which names stand for what the tables say.
fn program_of(parts: Parts, tables: Tables<'_>) -> Program
    ensures { result ≡ program_of tables.entry (body_of_parts parts) }
{
    Program {
        edition: parts.edition,
        globals: parts.globals,
        functions: parts.functions,
        names: tables.into_names(),
        start: parts.start,
    }
}

// The program of the tokens: its names are found in a first reading, and stand for what they name in a second.
#[tactic(auto, unfolding(mr_grammar::specs::Parsing::program_in))]
fn program_in(alloc: Global, key: TextKey, tokens: &Tokens<'_>) -> Result<Program, ReadFault>
    requires few { length tokens.now ≤ 2 ^ 20 }
    requires ascii { (n : ℕ) → IsAscii (text_at (words_of tokens.now) n) }
    ensures { Gives (λ p. p) result (program_in (words_of tokens.now)) }
{
    let tables = tables_of(alloc, key, tokens)?;
    match named(alloc, tokens, &tables) {
        Ok(parts) => Ok(program_of(parts, tables)),
        Err(fault) => Err(fault),
    }
}

fn parsed(alloc: Global, text: &[u8]) -> Result<Program, ParseFault>
    ensures { ParseGives result (parsed text.now) }
{
    match tokens(alloc, text) {
        Ok(tokens) => match program_in(alloc, TextKey::of(text), &tokens) {
            Ok(program) => Ok(program),
            Err(ReadFault::At(stop)) => Err(ParseFault::Text(fault_at(text, &tokens, stop))),
            Err(ReadFault::Memory) => Err(ParseFault::Memory),
        },
        Err(LexFault::Bad(fault)) => Err(ParseFault::Text(fault)),
        Err(LexFault::Memory) => Err(ParseFault::Memory),
    }
}

/// The program that a text denotes, or its first fault. It takes time in proportion to the text.
pub fn parse(alloc: Global, text: &[u8]) -> Result<Program, ParseFault>
    // What parsing gives, unless memory runs out.
    ensures exact { ParseGives result (parsed text.now) }

    // The program that the text denotes, and no other; it is shaped.
    ensures denoted { IfOk result (Denotes text.now) }
    ensures only { (p : Program) → Denotes text.now p → ParseGives result (Ok p) }
    ensures shaped { IfOk result Shaped }

    // The first fault of the text, and no other.
    ensures fault { (fault : Fault) → IsErrOf result (ParseFault.Text fault) → FirstFault text.now fault }
    ensures first { (fault : Fault) → FirstFault text.now fault → ParseGives result (Err fault) }
{
    parsed(alloc, text)
}
