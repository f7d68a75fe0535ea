//! The function of the workers.
ghost use Rattle.std.specs.Prelude.{◌≡◌, ◌∷◌, ◌++◌, [], IfOk, OnOk};
ghost use Rattle.mr_gen.specs.Generated.{advance_block, begin_block, count_block, enter_block, finish_block, last_stmts, test_block, worker_blocks, worker_function, worker_locals};

use crate::lists::{one_item, two_items};
use crate::values::{
    action_block, count, counter, jump, local, next_round, plain_num, regular_block, round,
    u32_value, u64_value, unit, with_number,
};
use mr_ast::{
    BinaryOp, Block, BlockName, Function, IntType, Intrinsic, Items, Local, LocalName, OutOfMemory,
    Stmt, Term, Ty,
};
use std::alloc::Global;

// `b0`: no round is done.
fn begin_block(alloc: Global) -> Result<Block, OutOfMemory>
    ensures { IfOk result (λ b. b ≡ begin_block) }
{
    let none = Stmt::Assign(round(), u64_value(0));
    let stmts = two_items(alloc, Stmt::Live(LocalName(2)), none)?;
    Ok(regular_block(5, stmts, jump(1)))
}

// `b1`: whether a round is left.
fn test_block(alloc: Global, rounds: u32) -> Result<Block, OutOfMemory>
    ensures { IfOk result (λ b. b ≡ test_block rounds) }
{
    let cases = one_item(alloc, (plain_num(1), BlockName(2)))?;
    let left = with_number(alloc, BinaryOp::Lt, round(), u64::from(rounds))?;
    let term = Term::Switch(left, cases, BlockName(5));
    Ok(regular_block(6, Items::new(alloc), term))
}

// `b2`: the lock is taken.
fn enter_block(alloc: Global) -> Result<Block, OutOfMemory>
    ensures { IfOk result (λ b. b ≡ enter_block) }
{
    action_block(
        alloc,
        7,
        Items::new(alloc),
        Intrinsic::Acquire,
        u32_value(0),
        3,
    )
}

// `b3`: the counter goes up, and the lock is given back.
fn count_block(alloc: Global) -> Result<Block, OutOfMemory>
    ensures { IfOk result (λ b. b ≡ count_block) }
{
    let stmts = one_item(alloc, count(alloc)?)?;
    action_block(alloc, 8, stmts, Intrinsic::Release, u32_value(0), 4)
}

// `b4`: the round is done.
fn advance_block(alloc: Global) -> Result<Block, OutOfMemory>
    ensures { IfOk result (λ b. b ≡ advance_block) }
{
    let stmts = one_item(alloc, next_round(alloc)?)?;
    Ok(regular_block(9, stmts, jump(1)))
}

// The statements of `b5`.
fn last_stmts(alloc: Global, resets: bool) -> Result<Items<Stmt>, OutOfMemory>
    ensures { IfOk result (λ ss. ss ≡ last_stmts resets) }
{
    if !resets {
        return one_item(alloc, Stmt::Dead(LocalName(2)));
    }
    let reset = Stmt::Assign(counter(alloc)?, u64_value(0));
    two_items(alloc, reset, Stmt::Dead(LocalName(2)))
}

// `b5`: the worker ends.
fn finish_block(alloc: Global, resets: bool) -> Result<Block, OutOfMemory>
    ensures { IfOk result (λ b. b ≡ finish_block resets) }
{
    let stmts = last_stmts(alloc, resets)?;
    Ok(regular_block(10, stmts, Term::Return))
}

// Appends the blocks of a worker.
#[tactic(auto, unfolding(crate::specs::Generated::worker_blocks), using(std::proofs::Common::append_assoc))]
fn push_blocks(
    alloc: Global,
    rounds: u32,
    resets: bool,
    blocks: &mut Items<Block>,
) -> Result<(), OutOfMemory>
    ensures { OnOk result (blocks.new ≡ blocks.old ++ worker_blocks rounds resets) }
{
    blocks.push(begin_block(alloc)?)?;
    blocks.push(test_block(alloc, rounds)?)?;
    blocks.push(enter_block(alloc)?)?;
    blocks.push(count_block(alloc)?)?;
    blocks.push(advance_block(alloc)?)?;
    blocks.push(finish_block(alloc, resets)?)
}

// The argument, the result and the rounds.
fn worker_locals(alloc: Global) -> Result<Items<Local>, OutOfMemory>
    ensures { IfOk result (λ locals. locals ≡ worker_locals) }
{
    let mut locals = two_items(alloc, local(2, Ty::Raw), local(3, unit(alloc)))?;
    locals.push(local(4, Ty::Int(IntType::U64)))?;
    Ok(locals)
}

/// The function of a worker with so many rounds, which may set the counter to 0 at its end.
#[tactic(auto, unfolding(crate::specs::Generated::worker_function))]
pub fn worker_function(alloc: Global, rounds: u32, resets: bool) -> Result<Function, OutOfMemory>
    ensures { IfOk result (λ f. f ≡ worker_function rounds resets) }
{
    let args = one_item(alloc, LocalName(0))?;
    let locals = worker_locals(alloc)?;
    let mut blocks = Items::new(alloc);
    push_blocks(alloc, rounds, resets, &mut blocks)?;
    Ok(Function {
        name: 1,
        args,
        ret: LocalName(1),
        locals,
        blocks,
    })
}
