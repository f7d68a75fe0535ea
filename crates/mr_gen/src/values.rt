//! The places, values and parts of blocks that both functions have.
ghost use Rattle.std.specs.Prelude.{◌≡◌, ◌∷◌, [], IfOk};
ghost use Rattle.mr_gen.specs.Generated.{action, address, counter, handle, increment, jump, local, plain_num, regular_block, round, u32_value, u64_value, unit, with_number};

use crate::lists::{one_item, two_boxes};
use mr_ast::{
    BinaryOp, Block, BlockKind, BlockName, Boxed, GlobalName, IntType, Intrinsic, Items, Local,
    LocalName, Num, OutOfMemory, Place, Stmt, Term, Ty, Value,
};
use std::alloc::Global;

/// A number without a minus.
pub fn plain_num(number: u64) -> Num
    ensures { result ≡ plain_num number }
{
    Num {
        neg: false,
        mag: u128::from(number),
    }
}

/// `u32 N`.
pub fn u32_value(number: u32) -> Value
    ensures { result ≡ u32_value number }
{
    Value::Int(IntType::U32, plain_num(u64::from(number)))
}

/// `u64 N`.
pub fn u64_value(number: u64) -> Value
    ensures { result ≡ u64_value number }
{
    Value::Int(IntType::U64, plain_num(number))
}

/// Where the counter lies: at the start of the global.
pub fn address() -> Value
    ensures { result ≡ address }
{
    Value::Global(GlobalName(0), 0)
}

/// The counter.
pub fn counter(alloc: Global) -> Result<Place, OutOfMemory>
    ensures { IfOk result (λ p. p ≡ counter) }
{
    let pointer = Boxed::new(alloc, address())?;
    Ok(Place::Deref(pointer, Ty::Int(IntType::U64)))
}

/// The rounds that a worker has behind it.
pub fn round() -> Place
    ensures { result ≡ round }
{
    Place::Local(LocalName(2))
}

/// Where the main function puts the numbers of what it makes.
pub fn handle() -> Place
    ensures { result ≡ handle }
{
    Place::Local(LocalName(1))
}

/// What a place holds and a number, under an operator.
pub fn with_number(
    alloc: Global,
    op: BinaryOp,
    place: Place,
    number: u64,
) -> Result<Value, OutOfMemory>
    ensures { IfOk result (λ v. v ≡ with_number op place number) }
{
    let (left, right) = two_boxes(alloc, Value::Load(place), u64_value(number))?;
    Ok(Value::Binary(op, left, right))
}

/// One round more for a worker.
pub fn next_round(alloc: Global) -> Result<Stmt, OutOfMemory>
    ensures { IfOk result (λ s. s ≡ increment round) }
{
    let sum = with_number(alloc, BinaryOp::Add, round(), 1)?;
    Ok(Stmt::Assign(round(), sum))
}

/// One more in the counter.
pub fn count(alloc: Global) -> Result<Stmt, OutOfMemory>
    ensures { IfOk result (λ s. s ≡ increment counter) }
{
    let (from, to) = two_boxes(alloc, address(), address())?;
    let old = Place::Deref(from, Ty::Int(IntType::U64));
    let sum = with_number(alloc, BinaryOp::Add, old, 1)?;
    Ok(Stmt::Assign(Place::Deref(to, Ty::Int(IntType::U64)), sum))
}

/// A jump to the block of this number.
pub fn jump(next: u32) -> Term
    ensures { result ≡ jump next }
{
    Term::Goto(BlockName(next))
}

/// The block of this name, with these statements and this end.
pub fn regular_block(name: u32, stmts: Items<Stmt>, term: Term) -> Block
    ensures { result ≡ regular_block name stmts term }
{
    Block {
        name,
        kind: BlockKind::Regular,
        stmts,
        term,
    }
}

/// A block that ends with an intrinsic of one argument, and leads to the block of this number.
pub fn action_block(
    alloc: Global,
    name: u32,
    stmts: Items<Stmt>,
    op: Intrinsic,
    arg: Value,
    next: u32,
) -> Result<Block, OutOfMemory>
    ensures { IfOk result (λ b. b ≡ regular_block name stmts (action op arg next)) }
{
    let args = one_item(alloc, arg)?;
    let term = Term::Do(op, args, None, BlockName(next));
    Ok(regular_block(name, stmts, term))
}

/// A local of this name.
pub fn local(name: u32, ty: Ty) -> Local
    ensures { result ≡ local name ty }
{
    Local { name, ty }
}

/// The type of the value without bytes.
pub fn unit(alloc: Global) -> Ty
    ensures { result ≡ unit }
{
    Ty::Tuple {
        size: 0,
        align: 1,
        fields: Items::new(alloc),
    }
}
