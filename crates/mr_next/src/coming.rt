//! What the next step of a thread makes.
ghost use Rattle.std.specs.Prelude.{◌≡◌, IfOk, option_copied, slice_get};
ghost use Rattle.mr_next.specs.Coming.{coming, coming_names, entered_next, entry_of, function_at, function_in};
ghost use Rattle.mr_next.specs.Coming.{function_of, function_of_block, named_first, named_function, started_by};

use crate::OutOfMemory;
use mr_ast::{Block, Function, Intrinsic, Program, Term, Value};
use mr_labels::{Name, Stand, ToldStep, made_names};
use mr_sched::Items;
use std::alloc::Global;

// The function that a value names in the text.
fn named_function(value: &Value) -> Option<u32>
    ensures { result ≡ named_function value.now }
{
    match value {
        Value::Fn(function) => Some(function.0),
        _ => None,
    }
}

fn named_first(value: Option<&Value>) -> Option<u32>
    ensures { result ≡ named_first (option_copied value.entry) }
{
    match value {
        None => None,
        Some(value) => named_function(value),
    }
}

// The function that an intrinsic with this first argument starts.
fn started_by(op: Intrinsic, first: Option<&Value>) -> Option<u32>
    ensures { result ≡ started_by op (option_copied first.entry) }
{
    match op {
        Intrinsic::Spawn => named_first(first),
        _ => None,
    }
}

// The function that a terminator enters or starts, where the text names it.
fn function_in(term: &Term) -> Option<u32>
    ensures { result ≡ function_in term.now }
{
    match term {
        Term::Call(callee, _, _, _, _) => named_function(callee),
        Term::Do(op, args, _, _) => started_by(*op, args.get(0)),
        _ => None,
    }
}

// The same of a thread at this position of a block: a statement enters none.
fn function_at(block: &Block, at: usize) -> Option<u32>
    ensures { result ≡ function_at block.now (slice_get block.now.stmts at) }
{
    match block.stmts.get(at) {
        Some(_) => None,
        None => function_in(&block.term),
    }
}

// The same in a function.
fn function_of(stand: Stand, function: &Function) -> Option<u32>
    ensures { result ≡ function_of_block stand (slice_get function.now.blocks stand.block) }
{
    match function.blocks.get(stand.block as usize) {
        Some(block) => function_at(block, stand.at),
        None => None,
    }
}

// The function that a thread enters or starts at its next step, where the text names it.
fn entered_next(p: &Program, stand: Stand) -> Option<u32>
    ensures { result ≡ entered_next p.now stand }
{
    match p.functions.get(stand.function as usize) {
        Some(function) => function_of(stand, function),
        None => None,
    }
}

// Where a thread begins in a function.
fn entry_of(thread: u32, function: Option<u32>) -> Option<Stand>
    ensures { result ≡ entry_of thread function }
{
    match function {
        None => None,
        Some(function) => Some(Stand {
            thread,
            function,
            block: 0,
            at: 0,
        }),
    }
}

// The next step of a thread that stands here, which may start a thread of this number.
fn coming(alloc: Global, p: &Program, new: u32, stand: Stand) -> ToldStep
    ensures { result ≡ coming p.now new stand }
{
    let function = entered_next(p, stand);
    ToldStep {
        number: 0,
        thread: stand.thread,
        before: Some(stand),
        behind: entry_of(stand.thread, function),
        status: None,
        started: entry_of(new, function),
        asks: Items::new(alloc),
        picks: Items::new(alloc),
        made: Items::new(alloc),
        prints_before: 0,
        prints_behind: 0,
    }
}

/// The names of what the next step makes of a thread that stands here, in order; a thread that it starts has this number.
/// An `Err` is for want of memory.
pub fn coming_names(
    alloc: Global,
    p: &Program,
    new: u32,
    stand: Option<Stand>,
) -> Result<Vec<Name>, OutOfMemory>
    ensures { IfOk result (λ names. names.items ≡ coming_names p.now new stand) }
{
    match stand {
        None => Ok(Vec::new(alloc)),
        Some(stand) => {
            let step = coming(alloc, p, new, stand);
            made_names(alloc, p, &step)
        }
    }
}
