//! The names of allocations.
ghost use Rattle.std.specs.Prelude.{◌≡◌, ◌∷◌, [], IfOk, map, slice_get};
ghost use Rattle.mr_labels.specs.Names.{do_names, entered_names, kept_locals, local_name, made_names, names_at, names_in};
ghost use Rattle.mr_labels.specs.Names.{stmt_names, term_names};

use crate::OutOfMemory;
use crate::step::{Stand, ToldStep};
use mr_ast::{Block, Function, Intrinsic, LocalName, Program, Stmt, Term};
use std::alloc::Global;

/// What an allocation is, as people name it.
#[derive(Clone, Copy)]
pub enum Name {
    /// What the pointers to this function reach.
    Function(usize),
    Global(usize),
    /// A local of a function that this thread runs.
    Local {
        thread: u32,
        function: u32,
        local: u32,
    },
    /// What the step of this entry, counted from 0, allocated on the heap.
    Heap(usize),
}

// A local of the function in which a thread stands.
fn local_name(stand: Stand, local: LocalName) -> Name
    ensures { result ≡ local_name stand local }
{
    Name::Local {
        thread: stand.thread,
        function: stand.function,
        local: local.0,
    }
}

// A list of one name.
fn one(alloc: Global, name: Name) -> Result<Vec<Name>, OutOfMemory>
    ensures { IfOk result (λ names. names.items ≡ name ∷ []) }
{
    let mut names = Vec::new(alloc);
    names.push(name)?;
    Ok(names)
}

// The returned local of a function in which a thread stands, and the arguments.
fn kept_names(alloc: Global, stand: Stand, function: &Function) -> Result<Vec<Name>, OutOfMemory>
    ensures { IfOk result (λ names. names.items ≡ map (local_name stand) (kept_locals function.now)) }
{
    let mut names = one(alloc, local_name(stand, function.ret))?;
    for local in function.args.as_slice() {
        names.push(local_name(stand, *local))?;
    }
    Ok(names)
}

// The same of the function in which a thread stands, if it stands in one.
fn entered_names(alloc: Global, p: &Program, stand: Option<Stand>) -> Result<Vec<Name>, OutOfMemory>
    ensures { IfOk result (λ names. names.items ≡ entered_names p.now stand) }
{
    match stand {
        None => Ok(Vec::new(alloc)),
        Some(stand) => match p.functions.get(stand.function as usize) {
            None => Ok(Vec::new(alloc)),
            Some(function) => kept_names(alloc, stand, function),
        },
    }
}

// What a statement makes.
fn stmt_names(alloc: Global, stand: Stand, stmt: &Stmt) -> Result<Vec<Name>, OutOfMemory>
    ensures { IfOk result (λ names. names.items ≡ stmt_names stand stmt.now) }
{
    match stmt {
        Stmt::Live(local) => one(alloc, local_name(stand, *local)),
        _ => Ok(Vec::new(alloc)),
    }
}

// What an intrinsic makes.
fn do_names(
    alloc: Global,
    p: &Program,
    told: &ToldStep,
    op: Intrinsic,
) -> Result<Vec<Name>, OutOfMemory>
    ensures { IfOk result (λ names. names.items ≡ do_names p.now told.now op) }
{
    match op {
        Intrinsic::Spawn => entered_names(alloc, p, told.started),
        Intrinsic::Allocate => one(alloc, Name::Heap(told.number)),
        _ => Ok(Vec::new(alloc)),
    }
}

// What a terminator makes.
fn term_names(
    alloc: Global,
    p: &Program,
    told: &ToldStep,
    term: &Term,
) -> Result<Vec<Name>, OutOfMemory>
    ensures { IfOk result (λ names. names.items ≡ term_names p.now told.now term.now) }
{
    match term {
        Term::Call(_, _, _, _, _) => entered_names(alloc, p, told.behind),
        Term::Do(op, _, _, _) => do_names(alloc, p, told, *op),
        _ => Ok(Vec::new(alloc)),
    }
}

// What the statement or the terminator makes at which a thread stands in a block.
fn names_at(
    alloc: Global,
    p: &Program,
    told: &ToldStep,
    stand: Stand,
    block: &Block,
) -> Result<Vec<Name>, OutOfMemory>
    ensures { IfOk result (λ names. names.items
        ≡ names_at p.now told.now stand block.now (slice_get block.now.stmts stand.at)) }
{
    match block.stmts.get(stand.at) {
        Some(stmt) => stmt_names(alloc, stand, stmt),
        None => term_names(alloc, p, told, &block.term),
    }
}

// The same, where the function is named too.
fn names_in(
    alloc: Global,
    p: &Program,
    told: &ToldStep,
    stand: Stand,
    function: &Function,
) -> Result<Vec<Name>, OutOfMemory>
    ensures { IfOk result (λ names. names.items
        ≡ names_in p.now told.now stand (slice_get function.now.blocks stand.block)) }
{
    match function.blocks.get(stand.block as usize) {
        Some(block) => names_at(alloc, p, told, stand, block),
        None => Ok(Vec::new(alloc)),
    }
}

/// The names of the allocations that a step makes, in order. An `Err` is for want of
/// memory.
pub fn made_names(alloc: Global, p: &Program, told: &ToldStep) -> Result<Vec<Name>, OutOfMemory>
    ensures { IfOk result (λ names. names.items ≡ made_names p.now told.now) }
{
    match told.before {
        None => Ok(Vec::new(alloc)),
        Some(stand) => match p.functions.get(stand.function as usize) {
            None => Ok(Vec::new(alloc)),
            Some(function) => names_in(alloc, p, told, stand, function),
        },
    }
}
