//! The program of a number.
ghost use Rattle.std.specs.Prelude.{◌≡◌, ℕ, ◌∷◌, ◌++◌, [], IfOk, OnOk};
ghost use Rattle.mr_typing.specs.Walk.{WellFormed};
ghost use Rattle.mr_gen.specs.Generated.{counter_global, generated, is_resetting, main_function, rounds_of, worker_function, workers_of};

use crate::lists::one_item;
use crate::naming::program_names;
use crate::numbers::{is_resetting, rounds, workers};
use crate::starter::main_function;
use crate::worker::worker_function;
use mr_ast::{FnName, Function, Global_, Item_, Items, OutOfMemory, Program};
use std::alloc::Global;

// The counter, with eight bytes of 0.
fn program_globals(alloc: Global) -> Result<Items<Global_>, OutOfMemory>
    ensures { IfOk result (λ globals. globals ≡ counter_global ∷ []) }
{
    let items = one_item(alloc, Item_::Byte(0, 8))?;
    one_item(
        alloc,
        Global_ {
            name: 0,
            align: 8,
            items,
        },
    )
}

// Appends the worker and the main function.
#[tactic(auto, using(std::proofs::Common::append_assoc))]
fn push_functions(
    alloc: Global,
    number: u64,
    functions: &mut Items<Function>,
) -> Result<(), OutOfMemory>
    ensures { OnOk result (functions.new ≡ functions.old
        ++ worker_function (rounds_of number) (is_resetting number) ∷ main_function (workers_of number) ∷ []) }
{
    functions.push(worker_function(alloc, rounds(number), is_resetting(number))?)?;
    functions.push(main_function(alloc, workers(number))?)
}

/// The program of a number. An `Err` is for want of memory.
#[tactic(auto, unfolding(crate::specs::Generated::generated))]
pub fn program(alloc: Global, number: u64) -> Result<Program, OutOfMemory>
    ensures is { IfOk result (λ p. p ≡ generated number) }
    ensures well_formed { IfOk result WellFormed }
{
    let names = program_names(alloc, workers(number))?;
    let globals = program_globals(alloc)?;
    let mut functions = Items::new(alloc);
    push_functions(alloc, number, &mut functions)?;
    Ok(Program {
        edition: 1,
        globals,
        functions,
        names,
        start: FnName(1),
    })
}

/// A law: the program of every number is well-formed.
#[tactic(auto, using(crate::proofs::GeneratedLaws::well_formed))]
pub fn generated_well_formed()
    ensures { (number : ℕ) → WellFormed (generated number) }
{}
