//! Programs, globals, functions and blocks.
ghost use Rattle.std.specs.Prelude.{codes};
ghost use Rattle.mr_ast.specs.declared.words.Bracket.TheVariants.{Curly, Round};
ghost use Rattle.mr_ast.specs.Writing.{function_use, listed, within, ◌▪◌, ◌◂◌, ◌▸◌, local_use};
ghost use Rattle.mr_ast.specs.ProgramGrammar.{args_form, block_form, blocks_form, body_form, function_form, functions_form, global_form, globals_form, item_behind, item_form, items_form, judged_edition, judged_item, judged_kind, local_form, locals_form, program_form, reloc_form, repeat_form};
ghost use Rattle.mr_parse.specs.ReaderGives.{Gives};
ghost use Rattle.mr_grammar.specs.Reading.{first_at, read};
ghost use Rattle.mr_parse.specs.Views.{body_of_parts, head_of, named, parts_of};

use crate::statements::{statements, terminator};
use crate::{Reader, beside, pushed};
use mr_ast::{
    Block, BlockKind, Bracket, FnName, Function, Global_, Item_, ItemWord, Items, Local, LocalName,
    MAX_BLOCKS, MAX_ITEMS, Role,
};
use mr_words::{ReadFault, Scope, UNEXPECTED, edition_of, item_word_of, kind_of};
use std::alloc::Global;

/// A program without its names.
#[derive(Drop)]
pub struct Parts {
    pub edition: u8,
    pub globals: Items<Global_>,
    pub functions: Items<Function>,
    pub start: FnName,
}

// The arguments and the return local of a function.
#[derive(Drop)]
struct Head {
    args: Items<LocalName>,
    ret: LocalName,
}

// The locals and the blocks of a function.
#[derive(Drop)]
struct Inner {
    locals: Items<Local>,
    blocks: Items<Block>,
}

#[tactic(auto, unfolding(mr_ast::specs::ProgramGrammar::judged_kind))]
fn block_kind(reader: &mut Reader<'_>) -> Result<BlockKind, ReadFault>
    ensures { Gives (λ w. (w, reader.new)) result (first_at judged_kind reader.old) }
{
    let found = match reader.peek() {
        Some(next) => kind_of(next.text),
        None => None,
    };
    match found {
        Some(kind) => {
            reader.advance();
            Ok(kind)
        }
        None => Err(reader.stop(UNEXPECTED)),
    }
}

// The block of number k in a function.
#[tactic(auto, unfolding(mr_ast::specs::ProgramGrammar::block_form))]
fn block(
    reader: &mut Reader<'_>,
    alloc: Global,
    scope: &Scope,
    room: u32,
    k: u32,
) -> Result<Block, ReadFault>
    ensures { Gives (λ b. (b, reader.new)) result (read room scope.now (block_form k) reader.old) }
{
    let name = reader.name(scope, k >= MAX_BLOCKS, Role::DefinesBlock(k))?;
    let kind = block_kind(reader)?;
    reader.expect(b":")?;
    match statements(reader, alloc, scope, room) {
        Ok(stmts) => match beside(stmts, terminator(reader, alloc, scope, room)) {
            Ok((stmts, term)) => Ok(Block {
                name,
                kind,
                stmts,
                term,
            }),
            Err(fault) => Err(fault),
        },
        Err(fault) => Err(fault),
    }
}

#[tactic(auto, unfolding(mr_ast::specs::ProgramGrammar::blocks_form))]
fn blocks(
    reader: &mut Reader<'_>,
    alloc: Global,
    scope: &Scope,
    room: u32,
) -> Result<Items<Block>, ReadFault>
    ensures { Gives (λ bs. (bs, reader.new)) result (read room scope.now blocks_form reader.old) }
{
    let first = block(reader, alloc, scope, room, 0)?;
    let mut blocks = Items::new(alloc);
    blocks.push(first)?;
    let most = reader.turns();
    for k in 0..most {
        if !reader.is_other(b"}") {
            return Ok(blocks);
        }
        blocks = pushed(blocks, block(reader, alloc, scope, room, k + 1))?;
    }
    Ok(blocks)
}

// The local of number k in a function.
#[tactic(auto, unfolding(mr_ast::specs::ProgramGrammar::local_form))]
fn local_definition(
    reader: &mut Reader<'_>,
    alloc: Global,
    scope: &Scope,
    room: u32,
    k: u32,
) -> Result<Local, ReadFault>
    ensures { Gives (λ l. (l, reader.new)) result (read room scope.now (local_form k) reader.old) }
{
    let name = reader.name(scope, k >= MAX_ITEMS, Role::DefinesLocal(k))?;
    reader.expect(b":")?;
    let ty = reader.ty(alloc, scope, room)?;
    Ok(Local { name, ty })
}

#[tactic(auto, unfolding(mr_ast::specs::ProgramGrammar::locals_form))]
fn locals(
    reader: &mut Reader<'_>,
    alloc: Global,
    scope: &Scope,
    room: u32,
) -> Result<Items<Local>, ReadFault>
    ensures { Gives (λ ls. (ls, reader.new)) result (read room scope.now locals_form reader.old) }
{
    let first = local_definition(reader, alloc, scope, room, 0)?;
    let mut locals = Items::new(alloc);
    locals.push(first)?;
    let most = reader.turns();
    for k in 0..most {
        if !reader.is_next(b",") {
            return Ok(locals);
        }
        reader.expect(b",")?;
        locals = pushed(locals, local_definition(reader, alloc, scope, room, k + 1))?;
    }
    Ok(locals)
}

// The arguments of a function, in their brackets.
#[tactic(auto, using(mr_grammar::proofs::Walk::InsideLaws::inside))]
fn arguments(
    reader: &mut Reader<'_>,
    alloc: Global,
    scope: &Scope,
    room: u32,
) -> Result<Items<LocalName>, ReadFault>
    ensures { Gives (λ xs. (xs, reader.new)) result (read room scope.now (listed Round args_form) reader.old) }
{
    let inner = reader.open(Bracket::Round, room)?;
    if !reader.is_other(b")") {
        reader.close(Bracket::Round)?;
        return Ok(Items::new(alloc));
    }
    match some_arguments(reader, alloc, scope, inner) {
        Ok(args) => reader.closed(args, Bracket::Round),
        Err(fault) => Err(fault),
    }
}

// One argument or more, with commas between them.
#[tactic(auto, unfolding(mr_ast::specs::ProgramGrammar::args_form))]
fn some_arguments(
    reader: &mut Reader<'_>,
    alloc: Global,
    scope: &Scope,
    room: u32,
) -> Result<Items<LocalName>, ReadFault>
    ensures { Gives (λ xs. (xs, reader.new)) result (read room scope.now args_form reader.old) }
{
    let first = reader.local(scope)?;
    let mut args = Items::new(alloc);
    args.push(first)?;
    let most = reader.left();
    for _ in 0..most {
        if !reader.is_next(b",") {
            return Ok(args);
        }
        reader.expect(b",")?;
        args = pushed(args, reader.local(scope))?;
    }
    Ok(args)
}

fn arguments_and_return(
    reader: &mut Reader<'_>,
    alloc: Global,
    scope: &Scope,
    room: u32,
) -> Result<Head, ReadFault>
    ensures { Gives (λ h. (head_of h, reader.new)) result
        (read room scope.now (listed Round args_form ▪ codes "->" ▸ local_use) reader.old) }
{
    match arguments(reader, alloc, scope, room) {
        Ok(args) => match beside(args, return_local(reader, scope)) {
            Ok((args, ret)) => Ok(Head { args, ret }),
            Err(fault) => Err(fault),
        },
        Err(fault) => Err(fault),
    }
}

// The local of a function's result, behind an arrow.
fn return_local(reader: &mut Reader<'_>, scope: &Scope) -> Result<LocalName, ReadFault>
    ensures { Gives (λ x. (x, reader.new)) result (read 0 scope.now (codes "->" ▸ local_use) reader.old) }
{
    reader.expect(b"->")?;
    reader.local(scope)
}

fn locals_and_blocks(
    reader: &mut Reader<'_>,
    alloc: Global,
    scope: &Scope,
    room: u32,
) -> Result<Inner, ReadFault>
    ensures { Gives (λ i. (parts_of i, reader.new)) result
        (read room scope.now (codes "let" ▸ locals_form ◂ codes ";" ▪ blocks_form) reader.old) }
{
    match locals_of_function(reader, alloc, scope, room) {
        Ok(locals) => match beside(locals, blocks(reader, alloc, scope, room)) {
            Ok((locals, blocks)) => Ok(Inner { locals, blocks }),
            Err(fault) => Err(fault),
        },
        Err(fault) => Err(fault),
    }
}

// The locals of a function, between their words.
fn locals_of_function(
    reader: &mut Reader<'_>,
    alloc: Global,
    scope: &Scope,
    room: u32,
) -> Result<Items<Local>, ReadFault>
    ensures { Gives (λ ls. (ls, reader.new)) result
        (read room scope.now (codes "let" ▸ locals_form ◂ codes ";") reader.old) }
{
    reader.expect(b"let")?;
    match locals(reader, alloc, scope, room) {
        Ok(locals) => reader.followed(locals, b";"),
        Err(fault) => Err(fault),
    }
}

// The locals and the blocks, in their braces.
#[tactic(auto, using(mr_grammar::proofs::Walk::InsideLaws::inside))]
fn braced_locals_and_blocks(
    reader: &mut Reader<'_>,
    alloc: Global,
    scope: &Scope,
    room: u32,
) -> Result<Inner, ReadFault>
    ensures { Gives (λ i. (parts_of i, reader.new)) result
        (read room scope.now (within Curly (codes "let" ▸ locals_form ◂ codes ";" ▪ blocks_form)) reader.old) }
{
    let within = reader.open(Bracket::Curly, room)?;
    match locals_and_blocks(reader, alloc, scope, within) {
        Ok(inner) => reader.closed(inner, Bracket::Curly),
        Err(fault) => Err(fault),
    }
}

// What stands behind the name of a function.
#[tactic(auto, unfolding(mr_ast::specs::ProgramGrammar::body_form))]
fn body(
    reader: &mut Reader<'_>,
    alloc: Global,
    scope: &Scope,
    room: u32,
    name: u32,
) -> Result<Function, ReadFault>
    ensures { Gives (λ f. (f, reader.new)) result (named name (read room scope.now body_form reader.old)) }
{
    let head = arguments_and_return(reader, alloc, scope, room)?;
    let inner = braced_locals_and_blocks(reader, alloc, scope, room)?;
    Ok(Function {
        name,
        args: head.args,
        ret: head.ret,
        locals: inner.locals,
        blocks: inner.blocks,
    })
}

// The function of number k.
#[tactic(auto, unfolding(mr_ast::specs::ProgramGrammar::function_form))]
fn function(
    reader: &mut Reader<'_>,
    alloc: Global,
    scope: &Scope,
    room: u32,
    k: u32,
) -> Result<Function, ReadFault>
    ensures { Gives (λ f. (f, reader.new)) result (read room scope.now (function_form k) reader.old) }
{
    reader.expect(b"fn")?;
    let name = reader.name(scope, k >= MAX_ITEMS, Role::DefinesFunction(k))?;
    let inside = scope.inside(alloc, k)?;
    body(reader, alloc, &inside, room, name)
}

#[tactic(auto, unfolding(mr_ast::specs::ProgramGrammar::functions_form))]
fn functions(
    reader: &mut Reader<'_>,
    alloc: Global,
    scope: &Scope,
    room: u32,
) -> Result<Items<Function>, ReadFault>
    ensures { Gives (λ fs. (fs, reader.new)) result (read room scope.now functions_form reader.old) }
{
    let mut functions = Items::new(alloc);
    let most = reader.turns();
    for k in 0..most {
        if !reader.is_next(b"fn") {
            return Ok(functions);
        }
        functions.push(function(reader, alloc, scope, room, k)?)?;
    }
    Ok(functions)
}

#[tactic(auto, unfolding(mr_ast::specs::ProgramGrammar::judged_item))]
fn item_word(reader: &mut Reader<'_>) -> Result<ItemWord, ReadFault>
    ensures { Gives (λ w. (w, reader.new)) result (first_at judged_item reader.old) }
{
    let found = match reader.peek() {
        Some(next) => item_word_of(next.text),
        None => None,
    };
    match found {
        Some(word) => {
            reader.advance();
            Ok(word)
        }
        None => Err(reader.stop(UNEXPECTED)),
    }
}

// How often an item stands in a row: once where nothing is written.
#[tactic(auto, unfolding(mr_ast::specs::ProgramGrammar::repeat_form))]
fn repeats(reader: &mut Reader<'_>, scope: &Scope, room: u32) -> Result<u32, ReadFault>
    ensures { Gives (λ n. (n, reader.new)) result (read room scope.now repeat_form reader.old) }
{
    if !reader.is_next(b"*") {
        return Ok(1);
    }
    reader.expect(b"*")?;
    reader.repeat()
}

#[tactic(auto, unfolding(mr_ast::specs::ProgramGrammar::reloc_form))]
fn relocation(reader: &mut Reader<'_>, scope: &Scope, room: u32) -> Result<Item_, ReadFault>
    ensures { Gives (λ i. (i, reader.new)) result (read room scope.now reloc_form reader.old) }
{
    let target = reader.target(scope)?;
    reader.expect(b"+")?;
    Ok(Item_::Reloc(target, reader.number()?))
}

// What stands behind the first word of an item.
fn item_behind(
    reader: &mut Reader<'_>,
    scope: &Scope,
    room: u32,
    word: ItemWord,
) -> Result<Item_, ReadFault>
    ensures { Gives (λ i. (i, reader.new)) result (read room scope.now (item_behind word) reader.old) }
{
    match word {
        ItemWord::Byte(byte) => Ok(Item_::Byte(byte, repeats(reader, scope, room)?)),
        ItemWord::Uninit => Ok(Item_::Uninit(repeats(reader, scope, room)?)),
        ItemWord::Reloc => relocation(reader, scope, room),
    }
}

#[tactic(auto, unfolding(mr_ast::specs::ProgramGrammar::item_form))]
fn item(reader: &mut Reader<'_>, scope: &Scope, room: u32) -> Result<Item_, ReadFault>
    ensures { Gives (λ i. (i, reader.new)) result (read room scope.now item_form reader.old) }
{
    let word = item_word(reader)?;
    item_behind(reader, scope, room, word)
}

#[tactic(auto, unfolding(mr_ast::specs::ProgramGrammar::items_form))]
fn items(
    reader: &mut Reader<'_>,
    alloc: Global,
    scope: &Scope,
    room: u32,
) -> Result<Items<Item_>, ReadFault>
    ensures { Gives (λ is. (is, reader.new)) result (read room scope.now items_form reader.old) }
{
    let mut items = Items::new(alloc);
    let most = reader.left();
    for _ in 0..most {
        if !reader.is_other(b"}") {
            return Ok(items);
        }
        items.push(item(reader, scope, room)?)?;
    }
    Ok(items)
}

// The items of a global, in their braces.
#[tactic(auto, using(mr_grammar::proofs::Walk::InsideLaws::inside))]
fn braced_items(
    reader: &mut Reader<'_>,
    alloc: Global,
    scope: &Scope,
    room: u32,
) -> Result<Items<Item_>, ReadFault>
    ensures { Gives (λ is. (is, reader.new)) result (read room scope.now (within Curly items_form) reader.old) }
{
    let inner = reader.open(Bracket::Curly, room)?;
    match items(reader, alloc, scope, inner) {
        Ok(items) => reader.closed(items, Bracket::Curly),
        Err(fault) => Err(fault),
    }
}

// The global of number k.
#[tactic(auto, unfolding(mr_ast::specs::ProgramGrammar::global_form))]
fn global(
    reader: &mut Reader<'_>,
    alloc: Global,
    scope: &Scope,
    room: u32,
    k: u32,
) -> Result<Global_, ReadFault>
    ensures { Gives (λ g. (g, reader.new)) result (read room scope.now (global_form k) reader.old) }
{
    reader.expect(b"global")?;
    let name = reader.name(scope, k >= MAX_ITEMS, Role::DefinesGlobal(k))?;
    reader.expect(b"align")?;
    let align = reader.number()?;
    let items = braced_items(reader, alloc, scope, room)?;
    Ok(Global_ { name, align, items })
}

#[tactic(auto, unfolding(mr_ast::specs::ProgramGrammar::globals_form))]
fn globals(
    reader: &mut Reader<'_>,
    alloc: Global,
    scope: &Scope,
    room: u32,
) -> Result<Items<Global_>, ReadFault>
    ensures { Gives (λ gs. (gs, reader.new)) result (read room scope.now globals_form reader.old) }
{
    let mut globals = Items::new(alloc);
    let most = reader.turns();
    for k in 0..most {
        if !reader.is_next(b"global") {
            return Ok(globals);
        }
        globals.push(global(reader, alloc, scope, room, k)?)?;
    }
    Ok(globals)
}

/// A program without its names.
#[tactic(auto, unfolding(mr_ast::specs::ProgramGrammar::program_form))]
pub fn program(
    reader: &mut Reader<'_>,
    alloc: Global,
    scope: &Scope,
    room: u32,
) -> Result<Parts, ReadFault>
    ensures { Gives (λ p. (body_of_parts p, reader.new)) result (read room scope.now program_form reader.old) }
{
    reader.expect(b"minirust")?;
    let edition = edition(reader)?;
    match definitions(reader, alloc, scope, room) {
        Ok(definitions) => match beside(definitions, start(reader, scope)) {
            Ok(((globals, functions), start)) => Ok(Parts {
                edition,
                globals,
                functions,
                start,
            }),
            Err(fault) => Err(fault),
        },
        Err(fault) => Err(fault),
    }
}

// The edition that the header names.
#[tactic(auto, unfolding(mr_ast::specs::ProgramGrammar::judged_edition))]
fn edition(reader: &mut Reader<'_>) -> Result<u8, ReadFault>
    ensures { Gives (λ e. (e, reader.new)) result (first_at judged_edition reader.old) }
{
    let found = match reader.peek() {
        Some(next) => edition_of(next.text),
        None => None,
    };
    match found {
        Some(edition) => {
            reader.advance();
            Ok(edition)
        }
        None => Err(reader.stop(UNEXPECTED)),
    }
}

// The globals and the functions of a program.
fn definitions(
    reader: &mut Reader<'_>,
    alloc: Global,
    scope: &Scope,
    room: u32,
) -> Result<(Items<Global_>, Items<Function>), ReadFault>
    ensures { Gives (λ d. (d, reader.new)) result (read room scope.now (globals_form ▪ functions_form) reader.old) }
{
    match globals(reader, alloc, scope, room) {
        Ok(globals) => beside(globals, functions(reader, alloc, scope, room)),
        Err(fault) => Err(fault),
    }
}

// The function that a program begins with, behind its word.
fn start(reader: &mut Reader<'_>, scope: &Scope) -> Result<FnName, ReadFault>
    ensures { Gives (λ f. (f, reader.new)) result (read 0 scope.now (codes "main" ▸ function_use) reader.old) }
{
    reader.expect(b"main")?;
    Ok(FnName(reader.name(scope, false, Role::UsesFunction)?))
}
