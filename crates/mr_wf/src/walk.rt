//! The walk over a program, to the first position at which a rule is broken.
ghost use Rattle.std.specs.Prelude.{◌≡◌, ◌==◌, ◌≤◌, ◌^◌, All, None, Some, length};
ghost use Rattle.mr_ast.specs.declared.program.Block.{Block};
ghost use Rattle.mr_ast.specs.Shaped.{Shaped};
ghost use Rattle.mr_typing.specs.declared.fault.Item.TheVariants.{Function as InFunction};
ghost use Rattle.mr_typing.specs.Judging.{kept};
ghost use Rattle.mr_typing.specs.JudgingBlocks.{judged_term};
ghost use Rattle.mr_typing.specs.Walk.{are_arguments, begins_regular, is_main_form};
ghost use Rattle.mr_wf.specs.JudgingPrograms.{IsShort, each_walked, placed, walked, walked_block, walked_function, walked_global, walked_head, walked_local, walked_stmt, walked_with};
ghost use Rattle.mr_wf.specs.Gives.{Walks, placing, surroundings_of};
ghost use Rattle.mr_wf.specs.Listed.{around};

use crate::blocks::{is_among, judged_stmt, judged_term};
use crate::fault::{Broken, Stopped};
use crate::globals::{judged_global, sizes_of};
use crate::judging::{Surroundings, kept, sound_type};
use crate::listed::TypeList;
use mr_ast::{
    Block, BlockKind, BlockName, Function, Global_, Local, LocalName, Program, Rule, Stmt,
};
use mr_typing::{FormFault, Item};
use std::alloc::Global;

// What is judged at a position.
fn placed(
    item: Item,
    block: Option<BlockName>,
    place: u32,
    judged: Result<(), Broken>,
) -> Result<(), Stopped>
    ensures { result ≡ placing item block place judged }
{
    match judged {
        Ok(()) => Ok(()),
        Err(Broken::Rule(rule)) => Err(Stopped::At(FormFault {
            item,
            block,
            place,
            code: rule.code(),
        })),
        Err(Broken::Memory) => Err(Stopped::Memory),
    }
}

// A rule of a whole function or program.
fn kept_at(item: Item, rule: Rule, test: bool) -> Result<(), Stopped>
    ensures { Walks result (placed item None 0 (kept rule test)) }
{
    placed(item, None, 0, kept(rule, test))
}

// Global n.
fn walked_global(sizes: &[u128], n: u32, global: &Global_) -> Result<(), Stopped>
    ensures { Walks result (walked_global sizes.now n global.now) }
{
    placed(Item::Static(n), None, 0, judged_global(sizes, global))
}

fn walked_globals(sizes: &[u128], globals: &[Global_]) -> Result<(), Stopped>
    requires { length globals.now ≤ 2 ^ 20 }
    ensures { Walks result (each_walked (walked_global sizes.now) 0 globals.now) }
{
    for (n, global) in globals.iter().enumerate() {
        walked_global(sizes, n as u32, global)?;
    }
    Ok(())
}

// The type of a local of function n.
fn walked_local(alloc: Global, n: u32, place: u32, local: &Local) -> Result<(), Stopped>
    ensures { Walks result (walked_local n place local.now) }
{
    placed(Item::Function(n), None, place, sound_type(alloc, &local.ty))
}

// The types of the locals of function n.
fn walked_locals(alloc: Global, n: u32, locals: &[Local]) -> Result<(), Stopped>
    requires { length locals.now ≤ 2 ^ 20 }
    ensures { Walks result (each_walked (walked_local n) 0 locals.now) }
{
    for (place, local) in locals.iter().enumerate() {
        walked_local(alloc, n, place as u32, local)?;
    }
    Ok(())
}

// Whether no argument stands twice, and none is the return local.
fn are_arguments(ret: LocalName, args: &[LocalName]) -> bool
    ensures { result ≡ are_arguments ret args.now }
{
    match args {
        [first, rest @ ..] => {
            *first != ret && !is_among(*first, rest) && are_arguments(ret, rest)
        }
        [] => true,
    }
}

// Whether a function begins with a regular block.
fn begins_regular(blocks: &[Block]) -> bool
    ensures { result ≡ begins_regular blocks.now }
{
    match blocks {
        [first, ..] => first.kind == BlockKind::Regular,
        [] => false,
    }
}

// Function n of a program, and what its expressions may speak of.
#[derive(Clone, Copy)]
struct Inside<'p> {
    n: u32,
    function: &'p Function,
    at: Surroundings<'p>,
}

// A statement of block k.
fn walked_stmt(
    alloc: Global,
    inside: Inside<'_>,
    k: u32,
    place: u32,
    stmt: &Stmt,
) -> Result<(), Stopped>
    ensures { Walks result
        (walked_stmt inside.entry.n inside.entry.function.now (surroundings_of inside.entry.at) k place stmt.now) }
{
    let judged = judged_stmt(alloc, inside.function, inside.at, stmt);
    placed(Item::Function(inside.n), Some(BlockName(k)), place, judged)
}

// The statements of block k.
fn walked_stmts(alloc: Global, inside: Inside<'_>, k: u32, stmts: &[Stmt]) -> Result<(), Stopped>
    requires { length stmts.now ≤ 2 ^ 20 }
    ensures { Walks result
        (each_walked (walked_stmt inside.entry.n inside.entry.function.now (surroundings_of inside.entry.at) k)
        0 stmts.now) }
{
    for (place, stmt) in stmts.iter().enumerate() {
        walked_stmt(alloc, inside, k, place as u32, stmt)?;
    }
    Ok(())
}

// The terminator of block k.
fn walked_term(alloc: Global, inside: Inside<'_>, k: u32, block: &Block) -> Result<(), Stopped>
    requires { length block.now.stmts ≤ 2 ^ 20 }
    ensures { Walks result (placed (InFunction inside.entry.n) (Some (record { 0 = k })) (length block.now.stmts)
        (judged_term inside.entry.function.now (surroundings_of inside.entry.at) block.now.kind block.now.term)) }
{
    let judged = judged_term(alloc, inside.function, inside.at, block.kind, &block.term);
    let place = block.stmts.len() as u32;
    placed(Item::Function(inside.n), Some(BlockName(k)), place, judged)
}

// Block k.
fn walked_block(alloc: Global, inside: Inside<'_>, k: u32, block: &Block) -> Result<(), Stopped>
    requires { length block.now.stmts ≤ 2 ^ 20 }
    ensures { Walks result
        (walked_block inside.entry.n inside.entry.function.now (surroundings_of inside.entry.at) k block.now) }
{
    walked_stmts(alloc, inside, k, block.stmts.as_slice())?;
    walked_term(alloc, inside, k, block)
}

fn walked_blocks(alloc: Global, inside: Inside<'_>, blocks: &[Block]) -> Result<(), Stopped>
    requires few { length blocks.now ≤ 2 ^ 20 }
    requires short { All (λ (b : Block). length b.stmts ≤ 2 ^ 20) blocks.now }
    ensures { Walks result
        (each_walked (walked_block inside.entry.n inside.entry.function.now (surroundings_of inside.entry.at))
        0 blocks.now) }
{
    for (k, block) in blocks.iter().enumerate() {
        walked_block(alloc, inside, k as u32, block)?;
    }
    Ok(())
}

// The arguments and the first block of function n.
fn walked_head(n: u32, function: &Function) -> Result<(), Stopped>
    ensures { Walks result (walked_head n function.now) }
{
    let arguments = are_arguments(function.ret, function.args.as_slice());
    kept_at(Item::Function(n), Rule::Arguments, arguments)?;
    kept_at(
        Item::Function(n),
        Rule::FirstBlock,
        begins_regular(function.blocks.as_slice()),
    )
}

// The blocks of function n, the types of whose locals are listed.
fn walked_body(
    alloc: Global,
    sizes: &[u128],
    n: u32,
    function: &Function,
    listed: &TypeList<'_>,
) -> Result<(), Stopped>
    requires { IsShort function.now }
    ensures { Walks result
        (each_walked (walked_block n function.now (around sizes.now listed.now)) 0 function.now.blocks) }
{
    let inside = Inside {
        n,
        function,
        at: Surroundings { sizes, listed },
    };
    walked_blocks(alloc, inside, function.blocks.as_slice())
}

// Function n.
fn walked_function(
    alloc: Global,
    sizes: &[u128],
    n: u32,
    function: &Function,
) -> Result<(), Stopped>
    requires { IsShort function.now }
    ensures { Walks result (walked_function sizes.now n function.now) }
{
    let locals = function.locals.as_slice();
    walked_locals(alloc, n, locals)?;
    walked_head(n, function)?;
    let listed = TypeList::new(alloc, locals);
    walked_body(alloc, sizes, n, function, &listed)
}

fn walked_functions(alloc: Global, sizes: &[u128], functions: &[Function]) -> Result<(), Stopped>
    requires few { length functions.now ≤ 2 ^ 20 }
    requires short { All IsShort functions.now }
    ensures { Walks result (each_walked (walked_function sizes.now) 0 functions.now) }
{
    for (n, function) in functions.iter().enumerate() {
        walked_function(alloc, sizes, n as u32, function)?;
    }
    Ok(())
}

fn has_no_arguments(function: &Function) -> bool
    ensures { result ≡ (length function.now.args == 0) }
{
    function.args.is_empty()
}

// Whether the main function has no arguments.
fn is_main_form(p: &Program) -> bool
    ensures { result ≡ is_main_form p.now }
{
    match p.functions.as_slice().get(p.start.0 as usize) {
        Some(function) => has_no_arguments(function),
        None => false,
    }
}

// The walk over a program whose globals have these sizes.
#[tactic(auto, using(crate::proofs::ShortPrograms::short_laws))]
fn walked_with(alloc: Global, sizes: &[u128], p: &Program) -> Result<(), Stopped>
    requires { Shaped p.now }
    ensures { Walks result (walked_with sizes.now p.now) }
{
    walked_globals(sizes, p.globals.as_slice())?;
    walked_functions(alloc, sizes, p.functions.as_slice())?;
    kept_at(Item::Function(p.start.0), Rule::MainForm, is_main_form(p))
}

/// The walk over a program, up to the first broken rule.
#[tactic(auto, unfolding(crate::specs::JudgingPrograms::walked))]
pub fn walked(alloc: Global, p: &Program) -> Result<(), Stopped>
    requires { Shaped p.now }
    ensures { Walks result (walked p.now) }
{
    match sizes_of(alloc, p.globals.as_slice()) {
        Ok(sizes) => walked_with(alloc, sizes.as_slice(), p),
        Err(_) => Err(Stopped::Memory),
    }
}
