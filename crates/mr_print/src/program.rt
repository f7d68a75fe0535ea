//! The lines of a program.
ghost use Rattle.std.specs.Prelude.{◌≡◌, ◌++◌, OnOk, OnErr, flat_map, map};
ghost use Rattle.mr_ast.specs.CanonTypes.{with_commas};
ghost use Rattle.mr_ast.specs.Canon.{argument_words, block_lines, canonical_text, function_lines, global_line, head_line, header_line, kind_word, lines_of, local_words, locals_line, main_line, repeat_words, stmt_line, target_text, texts_in, words_of_item};
ghost use Rattle.mr_print.specs.Appends.{with_line, with_lines, with_words};

use crate::OutOfMemory;
use crate::stmts::{print_stmt, print_term};
use crate::types::print_type;
use crate::words::{comma, last_word, number, word};
use itoa::Buffer;
use mr_ast::{Block, BlockKind, Function, Global_, Item_, Local, LocalName, Program, Stmt, Target};
use std::alloc::Global;

/// Writes the canonical text of a program at the end of `out`. A name that has no text is written as the empty word; in a shaped
/// program each has one. An `Err` is for want of memory, and leaves `out` as it was.
#[tactic(auto, unfolding(crate::specs::Appends::with_lines))]
pub fn print(alloc: Global, p: &Program, out: &mut Vec<u8>) -> Result<(), OutOfMemory>
    ensures ok { OnOk result (out.new.items ≡ out.old.items ++ canonical_text p.now) }
    ensures err { OnErr result (out.new.items ≡ out.old.items) }
{
    let mut text = Vec::new(alloc);
    print_program(p, &mut text)?;
    out.extend_from_slice(text.as_slice())
}

// Writes the lines of a program.
#[tactic(auto, using(crate::proofs::ProgramLaws::written_program))]
fn print_program(program: &Program, text: &mut Vec<u8>) -> Result<(), OutOfMemory>
    ensures { OnOk result (text.new.items ≡ with_lines text.old.items (lines_of program.now)) }
{
    print_header(program.edition, text)?;
    print_globals(program, program.globals.as_slice(), text)?;
    print_functions(program, program.functions.as_slice(), text)?;
    print_main(program, text)
}

#[tactic(auto, using(crate::proofs::AppendLaws::line_laws))]
fn print_header(edition: u8, text: &mut Vec<u8>) -> Result<(), OutOfMemory>
    ensures { OnOk result (text.new.items ≡ with_line text.old.items (header_line edition)) }
{
    let mut buffer = Buffer::new();
    word("minirust", text)?;
    last_word(buffer.format(edition), text)
}

#[tactic(auto, using(crate::proofs::AppendLaws::line_laws))]
fn print_main(program: &Program, text: &mut Vec<u8>) -> Result<(), OutOfMemory>
    ensures { OnOk result (text.new.items ≡ with_line text.old.items (main_line program.now)) }
{
    word("main", text)?;
    last_word(program.function_name(program.start), text)
}

#[tactic(auto, using(crate::proofs::AppendLaws::lines_laws))]
fn print_globals(
    program: &Program,
    globals: &[Global_],
    text: &mut Vec<u8>,
) -> Result<(), OutOfMemory>
    ensures { OnOk result (text.new.items ≡ with_lines text.old.items (map (global_line program.now) globals.now)) }
{
    for global in globals {
        print_global(program, global, text)?;
    }
    Ok(())
}

#[tactic(auto, using(crate::proofs::ProgramLaws::written_global))]
fn print_global(program: &Program, global: &Global_, text: &mut Vec<u8>) -> Result<(), OutOfMemory>
    ensures { OnOk result (text.new.items ≡ with_line text.old.items (global_line program.now global.now)) }
{
    word("global", text)?;
    word(program.names.text_or_empty(global.name), text)?;
    word("align", text)?;
    number(global.align, text)?;
    word("{", text)?;
    print_items(program, global.items.as_slice(), text)?;
    last_word("}", text)
}

#[tactic(auto, using(crate::proofs::AppendLaws::word_laws))]
fn print_items(program: &Program, items: &[Item_], text: &mut Vec<u8>) -> Result<(), OutOfMemory>
    ensures { OnOk result
        (text.new.items ≡ with_words text.old.items (flat_map (words_of_item program.now) items.now)) }
{
    for item in items {
        print_item(program, *item, text)?;
    }
    Ok(())
}

#[tactic(auto, unfolding(mr_ast::specs::Canon::words_of_item), using(crate::proofs::AppendLaws::word_laws))]
fn print_item(program: &Program, item: Item_, text: &mut Vec<u8>) -> Result<(), OutOfMemory>
    ensures { OnOk result (text.new.items ≡ with_words text.old.items (words_of_item program.now item)) }
{
    match item {
        Item_::Byte(value, repeat) => {
            number(value, text)?;
            print_repeat(repeat, text)
        }
        Item_::Uninit(repeat) => {
            word("?", text)?;
            print_repeat(repeat, text)
        }
        Item_::Reloc(to, offset) => {
            word("&", text)?;
            word(target_name(program, to), text)?;
            word("+", text)?;
            number(offset, text)
        }
    }
}

// The name of what a pointer in a global points to.
fn target_name(program: &Program, to: Target) -> &str
    ensures { result.now ≡ target_text program.now to }
{
    match to {
        Target::Global(name) => program.global_name(name),
        Target::Function(name) => program.function_name(name),
    }
}

// Writes how often an item stands in a row, unless that is once.
#[tactic(auto, using(crate::proofs::AppendLaws::word_laws))]
fn print_repeat(repeat: u32, text: &mut Vec<u8>) -> Result<(), OutOfMemory>
    ensures { OnOk result (text.new.items ≡ with_words text.old.items (repeat_words repeat)) }
{
    if repeat == 1 {
        return Ok(());
    }
    word("*", text)?;
    number(repeat, text)
}

#[tactic(auto, using(crate::proofs::AppendLaws::lines_laws))]
fn print_functions(
    program: &Program,
    functions: &[Function],
    text: &mut Vec<u8>,
) -> Result<(), OutOfMemory>
    ensures { OnOk result
        (text.new.items ≡ with_lines text.old.items (flat_map (function_lines program.now) functions.now)) }
{
    for function in functions {
        print_function(program, function, text)?;
    }
    Ok(())
}

// Writes the lines of a function.
#[tactic(auto, using(crate::proofs::ProgramLaws::written_function))]
fn print_function(
    program: &Program,
    function: &Function,
    text: &mut Vec<u8>,
) -> Result<(), OutOfMemory>
    ensures { OnOk result (text.new.items ≡ with_lines text.old.items (function_lines program.now function.now)) }
{
    print_head(program, function, text)?;
    print_locals(program, function, text)?;
    print_blocks(program, function, function.blocks.as_slice(), text)?;
    last_word("}", text)
}

#[tactic(auto, using(crate::proofs::ProgramLaws::written_head))]
fn print_head(program: &Program, function: &Function, text: &mut Vec<u8>) -> Result<(), OutOfMemory>
    ensures { OnOk result (text.new.items ≡ with_line text.old.items (head_line program.now function.now)) }
{
    word("fn", text)?;
    word(program.names.text_or_empty(function.name), text)?;
    word("(", text)?;
    print_arguments(program, function, text)?;
    word(")", text)?;
    word("->", text)?;
    word(program.local_name(function, function.ret), text)?;
    last_word("{", text)
}

#[tactic(auto, using(crate::proofs::AppendLaws::word_laws))]
fn print_arguments(
    program: &Program,
    function: &Function,
    text: &mut Vec<u8>,
) -> Result<(), OutOfMemory>
    ensures { OnOk result (text.new.items
        ≡ with_words text.old.items (with_commas (map (argument_words program.now function.now) function.now.args))) }
{
    let args = function.args.as_slice();
    for i in 0..args.len() {
        comma(i, text)?;
        print_argument(program, function, args[i], text)?;
    }
    Ok(())
}

#[tactic(auto, using(crate::proofs::AppendLaws::word_laws))]
fn print_argument(
    program: &Program,
    function: &Function,
    local: LocalName,
    text: &mut Vec<u8>,
) -> Result<(), OutOfMemory>
    ensures { OnOk result (text.new.items ≡ with_words text.old.items (argument_words program.now function.now local)) }
{
    word(program.local_name(function, local), text)
}

#[tactic(auto, using(crate::proofs::ProgramLaws::locals_laws))]
fn print_locals(
    program: &Program,
    function: &Function,
    text: &mut Vec<u8>,
) -> Result<(), OutOfMemory>
    ensures { OnOk result (text.new.items ≡ with_line text.old.items (locals_line program.now function.now)) }
{
    word("let", text)?;
    let locals = function.locals.as_slice();
    for i in 0..locals.len() {
        comma(i, text)?;
        print_local(program, &locals[i], text)?;
    }
    last_word(";", text)
}

#[tactic(auto, using(crate::proofs::AppendLaws::word_laws))]
fn print_local(program: &Program, local: &Local, text: &mut Vec<u8>) -> Result<(), OutOfMemory>
    ensures { OnOk result (text.new.items ≡ with_words text.old.items (local_words program.now local.now)) }
{
    word(program.names.text_or_empty(local.name), text)?;
    word(":", text)?;
    print_type(&local.ty, text)
}

#[tactic(auto, using(crate::proofs::AppendLaws::lines_laws))]
fn print_blocks(
    program: &Program,
    function: &Function,
    blocks: &[Block],
    text: &mut Vec<u8>,
) -> Result<(), OutOfMemory>
    ensures { OnOk result
        (text.new.items ≡ with_lines text.old.items (flat_map (block_lines program.now function.now) blocks.now)) }
{
    for block in blocks {
        print_block(program, function, block, text)?;
    }
    Ok(())
}

// Writes the lines of a block.
#[tactic(auto, using(crate::proofs::ProgramLaws::written_block))]
fn print_block(
    program: &Program,
    function: &Function,
    block: &Block,
    text: &mut Vec<u8>,
) -> Result<(), OutOfMemory>
    ensures { OnOk result
        (text.new.items ≡ with_lines text.old.items (block_lines program.now function.now block.now)) }
{
    word(program.names.text_or_empty(block.name), text)?;
    word(kind_word(block.kind), text)?;
    last_word(":", text)?;
    print_stmts(program, function, block.stmts.as_slice(), text)?;
    print_term(program, function, &block.term, text)?;
    last_word(";", text)
}

#[tactic(auto, using(crate::proofs::AppendLaws::lines_laws))]
fn print_stmts(
    program: &Program,
    function: &Function,
    stmts: &[Stmt],
    text: &mut Vec<u8>,
) -> Result<(), OutOfMemory>
    ensures { OnOk result
        (text.new.items ≡ with_lines text.old.items (map (stmt_line (texts_in program.now function.now)) stmts.now)) }
{
    for stmt in stmts {
        print_line(program, function, stmt, text)?;
    }
    Ok(())
}

// Writes the line of a statement.
#[tactic(auto, using(crate::proofs::AppendLaws::line_laws))]
fn print_line(
    program: &Program,
    function: &Function,
    stmt: &Stmt,
    text: &mut Vec<u8>,
) -> Result<(), OutOfMemory>
    ensures { OnOk result
        (text.new.items ≡ with_line text.old.items (stmt_line (texts_in program.now function.now) stmt.now)) }
{
    print_stmt(program, function, stmt, text)?;
    last_word(";", text)
}

fn kind_word(kind: BlockKind) -> &'static str
    ensures { result.now ≡ kind_word kind }
{
    match kind {
        BlockKind::Regular => "regular",
        BlockKind::Cleanup => "cleanup",
        BlockKind::Catch => "catch",
        BlockKind::Terminate => "terminate",
    }
}
