//! The names that a text defines.
ghost use Rattle.std.specs.Prelude.{◌≡◌, List, map, IfOk};
ghost use Rattle.mr_ast.specs.declared.program.Function.{Function as Defined};
ghost use Rattle.mr_ast.specs.Scope.{FunctionNames as Names_lem};
ghost use Rattle.mr_words.specs.Defined.{function_names_in, names_defined, text_at};
ghost use Rattle.mr_words.specs.Places.{words_of};

use mr_ast::{Block, Function, Global_, Local, OutOfMemory};
use mr_lex::Tokens;
use std::alloc::Global;
use std::marker::Model;

/// The names that a function defines: its own, those of its locals and those of its blocks.
#[derive(Drop)]
pub struct FunctionNames<'a> {
    name: &'a [u8],
    locals: Vec<&'a [u8]>,
    blocks: Vec<&'a [u8]>,
}

impl<'a> Model for FunctionNames<'a> {
    ghost use Rattle.std.specs.Prelude.{map};
    ghost use Rattle.mr_ast.specs.Scope.{FunctionNames as Names_lem};

    ghost Value = { Names_lem };

    ghost view = { λ f. record {
      name = f.name.now;
      locals = map (λ w. w.now) f.locals.items;
      blocks = map (λ w. w.now) f.blocks.items;
    } };
}

impl<'a> FunctionNames<'a> {
    /// The function's own name.
    pub fn name(&self) -> &'a [u8]
        ensures { result.now ≡ self.now.name }
    {
        self.name
    }

    /// The names of its locals.
    pub fn locals(&self) -> &[&'a [u8]]
        ensures { map (λ w. w.now) result.now ≡ self.now.locals }
    {
        &self.locals
    }

    /// The names of its blocks.
    pub fn blocks(&self) -> &[&'a [u8]]
        ensures { map (λ w. w.now) result.now ≡ self.now.blocks }
    {
        &self.blocks
    }
}

/// The names that a text defines, in the order of the text.
#[derive(Drop)]
pub struct Definitions<'a> {
    globals: Vec<&'a [u8]>,
    functions: Vec<FunctionNames<'a>>,
}

impl<'a> Model for Definitions<'a> {
    ghost use Rattle.std.specs.Prelude.{map};
    ghost use Rattle.mr_ast.specs.Scope.{Definitions as Names_lem};

    ghost Value = { Names_lem };

    ghost view = { λ d. record {
      globals = map (λ w. w.now) d.globals.items;
      functions = d.functions.items;
    } };
}

impl<'a> Definitions<'a> {
    /// The names of the globals.
    pub fn globals(&self) -> &[&'a [u8]]
        ensures { map (λ w. w.now) result.now ≡ self.now.globals }
    {
        &self.globals
    }

    /// The names of the functions and of what stands in them.
    pub fn functions(&self) -> &[FunctionNames<'a>]
        ensures { result.now ≡ self.now.functions }
    {
        &self.functions
    }
}

/// The text of the token at a place, or none.
pub fn text_at<'a>(tokens: &'a Tokens<'a>, place: usize) -> &'a [u8]
    ensures { result.now ≡ text_at (words_of tokens.now) place }
{
    match tokens.get(place) {
        Some(token) => token.text,
        None => b"",
    }
}

fn global_names<'a>(
    alloc: Global,
    tokens: &'a Tokens<'a>,
    globals: &[Global_],
) -> Result<Vec<&'a [u8]>, OutOfMemory>
    ensures { IfOk result
        (λ names. map (λ w. w.now) names.items ≡ map (λ g. text_at (words_of tokens.now) g.name) globals.now) }
{
    let mut names = Vec::with_capacity(alloc, globals.len())?;
    for global in globals {
        names.push(text_at(tokens, global.name as usize))?;
    }
    Ok(names)
}

fn local_names<'a>(
    alloc: Global,
    tokens: &'a Tokens<'a>,
    locals: &[Local],
) -> Result<Vec<&'a [u8]>, OutOfMemory>
    ensures { IfOk result
        (λ names. map (λ w. w.now) names.items ≡ map (λ l. text_at (words_of tokens.now) l.name) locals.now) }
{
    let mut names = Vec::with_capacity(alloc, locals.len())?;
    for local in locals {
        names.push(text_at(tokens, local.name as usize))?;
    }
    Ok(names)
}

fn block_names<'a>(
    alloc: Global,
    tokens: &'a Tokens<'a>,
    blocks: &[Block],
) -> Result<Vec<&'a [u8]>, OutOfMemory>
    ensures { IfOk result
        (λ names. map (λ w. w.now) names.items ≡ map (λ b. text_at (words_of tokens.now) b.name) blocks.now) }
{
    let mut names = Vec::with_capacity(alloc, blocks.len())?;
    for block in blocks {
        names.push(text_at(tokens, block.name as usize))?;
    }
    Ok(names)
}

fn function_names<'a>(
    alloc: Global,
    tokens: &'a Tokens<'a>,
    function: &Function,
) -> Result<FunctionNames<'a>, OutOfMemory>
    ensures { IfOk result (λ names. names ≡ function_names_in (words_of tokens.now) function.now) }
{
    Ok(FunctionNames {
        name: text_at(tokens, function.name as usize),
        locals: local_names(alloc, tokens, function.locals.as_slice())?,
        blocks: block_names(alloc, tokens, function.blocks.as_slice())?,
    })
}

fn names_of_functions<'a>(
    alloc: Global,
    tokens: &'a Tokens<'a>,
    functions: &[Function],
) -> Result<Vec<FunctionNames<'a>>, OutOfMemory>
    ensures { IfOk result (λ names. names.items ≡ map (function_names_in (words_of tokens.now)) functions.now) }
{
    let mut names = Vec::with_capacity(alloc, functions.len())?;
    for function in functions {
        names.push(function_names(alloc, tokens, function)?)?;
    }
    Ok(names)
}

/// The names that these globals and functions of a text define, where each is known by the place of its token.
pub fn definitions_in<'a>(
    alloc: Global,
    tokens: &'a Tokens<'a>,
    globals: &[Global_],
    functions: &[Function],
) -> Result<Definitions<'a>, OutOfMemory>
    ensures { IfOk result (λ d. d ≡ names_defined (words_of tokens.now) globals.now functions.now) }
{
    Ok(Definitions {
        globals: global_names(alloc, tokens, globals)?,
        functions: names_of_functions(alloc, tokens, functions)?,
    })
}
