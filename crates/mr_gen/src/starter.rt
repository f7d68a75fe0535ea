//! The main function, which starts the workers and waits for them.
ghost use Rattle.std.specs.Prelude.{◌≡◌, ◌+◌, ◌*◌, ◌≤◌, ◌∷◌, ◌++◌, [], IfOk, OnOk, map};
ghost use Rattle.std.specs.List.{range_with_len};
ghost use Rattle.mr_gen.specs.Generated.{exit_block, join_block, lock_block, main_blocks, main_function, main_locals, print_block, spawn_block};

use crate::lists::{one_item, two_items};
use crate::values::{action_block, counter, handle, local, regular_block, u32_value, unit};
use mr_ast::{
    Block, BlockName, FnName, Function, IntType, Intrinsic, Items, Local, LocalName, OutOfMemory,
    Stmt, Term, Ty, Value,
};
use std::alloc::Global;

// `b0`: the lock is made.
fn lock_block(alloc: Global) -> Result<Block, OutOfMemory>
    ensures { IfOk result (λ b. b ≡ lock_block) }
{
    let stmts = one_item(alloc, Stmt::Live(LocalName(1)))?;
    let term = Term::Do(
        Intrinsic::CreateLock,
        Items::new(alloc),
        Some(handle()),
        BlockName(1),
    );
    Ok(regular_block(5, stmts, term))
}

// `ck`: worker k is started.
fn spawn_block(alloc: Global, k: u32) -> Result<Block, OutOfMemory>
    requires { k ≤ 8 }
    ensures { IfOk result (λ b. b ≡ spawn_block k) }
{
    let args = two_items(alloc, Value::Fn(FnName(0)), Value::Raw(0))?;
    let term = Term::Do(Intrinsic::Spawn, args, Some(handle()), BlockName(k + 1));
    Ok(regular_block(12 + k, Items::new(alloc), term))
}

// `ek`: worker k is waited for.
fn join_block(alloc: Global, workers: u32, k: u32) -> Result<Block, OutOfMemory>
    requires { workers + k ≤ 16 }
    ensures { IfOk result (λ b. b ≡ join_block workers k) }
{
    let stmts = Items::new(alloc);
    action_block(
        alloc,
        12 + workers + k,
        stmts,
        Intrinsic::Join,
        u32_value(k),
        workers + k + 1,
    )
}

// The block behind those: the counter is printed.
fn print_block(alloc: Global, workers: u32) -> Result<Block, OutOfMemory>
    requires { workers ≤ 8 }
    ensures { IfOk result (λ b. b ≡ print_block workers) }
{
    let total = Value::Load(counter(alloc)?);
    let stmts = Items::new(alloc);
    action_block(
        alloc,
        13 + 2 * workers,
        stmts,
        Intrinsic::Print,
        total,
        2 * workers + 2,
    )
}

// The last block.
fn exit_block(alloc: Global, workers: u32) -> Block
    requires { workers ≤ 8 }
    ensures { result ≡ exit_block workers }
{
    regular_block(14 + 2 * workers, Items::new(alloc), Term::Exit)
}

// Appends a block for each worker, which starts it.
fn push_spawns(alloc: Global, workers: u32, blocks: &mut Items<Block>) -> Result<(), OutOfMemory>
    requires { workers ≤ 8 }
    ensures { OnOk result (blocks.new ≡ blocks.old ++ map spawn_block (range_with_len 1 workers)) }
{
    for k in 1..workers + 1 {
        blocks.push(spawn_block(alloc, k)?)?;
    }
    Ok(())
}

// Appends a block for each worker, which waits for it.
fn push_joins(alloc: Global, workers: u32, blocks: &mut Items<Block>) -> Result<(), OutOfMemory>
    requires { workers ≤ 8 }
    ensures { OnOk result (blocks.new ≡ blocks.old ++ map (join_block workers) (range_with_len 1 workers)) }
{
    for k in 1..workers + 1 {
        blocks.push(join_block(alloc, workers, k)?)?;
    }
    Ok(())
}

// Appends the blocks of the main function.
#[tactic(auto, unfolding(crate::specs::Generated::main_blocks), using(std::proofs::Common::append_assoc))]
fn push_blocks(alloc: Global, workers: u32, blocks: &mut Items<Block>) -> Result<(), OutOfMemory>
    requires { workers ≤ 8 }
    ensures { OnOk result (blocks.new ≡ blocks.old ++ main_blocks workers) }
{
    blocks.push(lock_block(alloc)?)?;
    push_spawns(alloc, workers, blocks)?;
    push_joins(alloc, workers, blocks)?;
    blocks.push(print_block(alloc, workers)?)?;
    blocks.push(exit_block(alloc, workers))
}

// The result, and the number of what was made last.
fn main_locals(alloc: Global) -> Result<Items<Local>, OutOfMemory>
    ensures { IfOk result (λ locals. locals ≡ main_locals) }
{
    two_items(
        alloc,
        local(3, unit(alloc)),
        local(12, Ty::Int(IntType::U32)),
    )
}

/// The main function for so many workers.
#[tactic(auto, unfolding(crate::specs::Generated::main_function))]
pub fn main_function(alloc: Global, workers: u32) -> Result<Function, OutOfMemory>
    requires { workers ≤ 8 }
    ensures { IfOk result (λ f. f ≡ main_function workers) }
{
    let locals = main_locals(alloc)?;
    let mut blocks = Items::new(alloc);
    push_blocks(alloc, workers, &mut blocks)?;
    Ok(Function {
        name: 11,
        args: Items::new(alloc),
        ret: LocalName(0),
        locals,
        blocks,
    })
}
