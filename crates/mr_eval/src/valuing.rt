//! Values with their types, from loads and operators.
ghost use Rattle.std.specs.Prelude.{◌≡◌, ◌<◌, ◌^◌, IfOk, None, Some, is_some, true, unsigned_abs};
ghost use Rattle.mr_layout.specs.Sizes.{size_of};
ghost use Rattle.mr_layout.specs.TypeOk.{TypeOk};
ghost use Rattle.mr_value.specs.Shape.{has_shape};
ghost use Rattle.mr_ast.specs.declared.types.Ty.TheVariants as types;
ghost use Rattle.mr_value.specs.declared.val.Val.{out-Val};
ghost use Rattle.mr_value.specs.declared.val.Val.TheVariants as val;
ghost use Rattle.mr_base.specs.Script.{Done, run};
ghost use Rattle.mr_ast.specs.declared.types.IntType.TheVariants.{I64};
ghost use Rattle.mr_eval.specs.Numbers.{value_of};
ghost use Rattle.mr_eval.specs.declared.kinds.Operator.TheVariants.{Moving};
ghost use Rattle.mr_eval.specs.Answers.{Extends, FieldShaped, Gives, Says, same, seen, value_in};
ghost use Rattle.mr_eval.specs.Evaluated.{disc_at, read_typed, transmuted_to};
ghost use Rattle.mr_eval.specs.Operators.{cast_layer, kind_of, moved_pointer, operated, unary_in};
ghost use Rattle.mr_eval.specs.Reads.{reading};
ghost use Rattle.mr_typing.specs.Known.{ty_of};
ghost use Rattle.mr_eval.specs.Evaluation.{union_of};
ghost use Rattle.mr_typing.specs.Types.{discriminant_type, integer_of, result_type};

use crate::halt::Halt;
use crate::here::Here;
use crate::kinds::{Operator, kind_of};
use crate::loading::{is_scalar, noted_scalar, read_typed};
use crate::moving::moved;
use crate::notes::Notes;
use crate::operands::{pointer_in, right_in};
use crate::operators::{arith, cast, compare, moved_around, overflowing, shift, unary};
use crate::placing::Placed;
use crate::recasting;
use crate::search::found_number;
use mr_ast::{BinaryOp, Boxed, IntType, Num, Ty, UnaryOp};
use mr_base::Pointer;
use mr_layout::Cache;
use mr_mem::Memory;
use mr_typing::Known;
use mr_value::{Val, bits_of_number};
use std::alloc::Global;

/// A value that was evaluated, and its type.
#[derive(Drop)]
pub struct Valued<'p> {
    pub value: Val,
    pub ty: Known<'p>,
}

/// A value of a type.
pub fn typed(value: Val, ty: Known<'_>) -> Valued<'_>
    ensures value { result.value ≡ value }
    ensures ty { result.ty ≡ ty.entry }
{
    Valued { value, ty }
}

/// An integer of these bits.
pub fn integer<'p>(bits: u128, int: IntType) -> Valued<'p>
    ensures value { result.value ≡ val.Int bits }
    ensures ty { ty_of result.ty ≡ types.Int int }
{
    typed(Val::Int(bits), Known::Int(int))
}

/// The load of a place.
pub fn load(
    alloc: Global,
    c: &Cache,
    m: &Memory,
    notes: &mut Notes,
    p: Placed<'_>,
) -> Result<Val, Halt>
    requires { TypeOk p.ty.now }
    ensures given { Gives same result (read_typed m.now p.entry.ty.now p.entry.at (seen notes.old))
        (seen notes.new) notes.new.refused }
    ensures kept { Extends (seen notes.old) (seen notes.new) }
    ensures shape { IfOk result (λ v. has_shape p.entry.ty.now v ≡ true) }
{
    if !is_scalar(p.ty) {
        return load_parts(alloc, c, m, notes, p);
    }
    match noted_scalar(alloc, m, c, notes, p) {
        Ok(v) => Ok(v.value),
        Err(halt) => Err(halt),
    }
}

// The load of a place of a type with parts.
fn load_parts(
    alloc: Global,
    c: &Cache,
    m: &Memory,
    notes: &mut Notes,
    p: Placed<'_>,
) -> Result<Val, Halt>
    requires { TypeOk p.ty.now }
    ensures given { Gives same result (read_typed m.now p.entry.ty.now p.entry.at (seen notes.old))
        (seen notes.new) notes.new.refused }
    ensures kept { Extends (seen notes.old) (seen notes.new) }
    ensures shape { IfOk result (λ v. has_shape p.entry.ty.now v ≡ true) }
{
    let layout = c.layout(p.ty);
    read_typed(alloc, m, notes, p.at, p.ty, layout.size, layout.align)
}

/// The load of a place, as a value of its type.
pub fn loaded_value<'p>(
    here: &Here<'p>,
    notes: &mut Notes,
    p: Placed<'p>,
) -> Result<Valued<'p>, Halt>
    requires { TypeOk p.ty.now }
    ensures given { Gives value_in result (read_typed here.now.memory.now p.entry.ty.now p.entry.at (seen notes.old))
        (seen notes.new) notes.new.refused }
    ensures ty { IfOk result (λ v. ty_of v.ty ≡ p.entry.ty.now) }
    ensures kept { Extends (seen notes.old) (seen notes.new) }
{
    if is_scalar(p.ty) {
        return noted_scalar(here.alloc, here.memory, here.cache, notes, p);
    }
    match load_parts(here.alloc, here.cache, here.memory, notes, p) {
        Ok(value) => Ok(typed(value, Known::Written(p.ty))),
        Err(halt) => Err(halt),
    }
}

/// The discriminant that a place holds, as an integer of its type.
#[tactic(auto, using(crate::proofs::ExtendsLaws::extends_laws, crate::proofs::FoundFits::found_fits))]
pub fn discriminant<'p>(m: &Memory, notes: &mut Notes, p: Placed<'_>) -> Result<Valued<'p>, Halt>
    requires { TypeOk p.ty.now }
    ensures given { Gives value_in result (disc_at m.now (Some p.entry.ty.now) p.entry.at (seen notes.old))
        (seen notes.new) notes.new.refused }
    ensures ty { IfOk result (λ v. discriminant_type p.entry.ty.now ≡ Some (ty_of v.ty)) }
    ensures kept { Extends (seen notes.old) (seen notes.new) }
{
    match p.ty {
        Ty::Enum { disc, tree, .. } => {
            let number = found_number(m, notes, tree, p.at)?;
            Ok(Valued {
                value: Val::Int(bits_of_number(*disc, number)),
                ty: Known::Int(*disc),
            })
        }
        _ => Err(Halt::IllFormed),
    }
}

// The number that 64 bits mean in two's complement.
fn signed(bits: u64) -> i128
    ensures number { result ≡ value_of I64 bits }
    ensures small { unsigned_abs result < 2 ^ 65 }
{
    if bits < 1 << 63 {
        i128::from(bits)
    } else {
        i128::from(bits) - (1 << 64)
    }
}

// A pointer moved in bounds, as a value.
#[tactic(auto, using(crate::proofs::GivesLaws::moved_stop))]
fn moved_value(m: &Memory, notes: &mut Notes, p: Pointer, n: i128) -> Result<Val, Halt>
    requires { unsigned_abs n < 2 ^ 65 }
    ensures given { Gives same result (run (reading m.now) (moved_pointer p n) (seen notes.old))
        (seen notes.new) notes.new.refused }
    ensures kept { Extends (seen notes.old) (seen notes.new) }
{
    let to = moved(m, notes, p, n)?;
    Ok(Val::Ptr(to))
}

// A pointer moved in bounds, by a number in two's complement.
#[tactic(auto, using(crate::proofs::ExtendsLaws::extends_laws))]
fn moved_by(m: &Memory, notes: &mut Notes, a: &Val, b: &Val) -> Result<Val, Halt>
    ensures given { Gives same result (run (reading m.now)
        (operated Moving None None (out-Val a.now) (out-Val b.now)) (seen notes.old))
        (seen notes.new) notes.new.refused }
    ensures kept { Extends (seen notes.old) (seen notes.new) }
{
    match (pointer_in(a), right_in(IntType::I64, b)) {
        (Some(p), Some(bits)) => moved_value(m, notes, p, signed(bits as u64)),
        _ => Err(Halt::IllFormed),
    }
}

// An operator with two operands, which are read as these integers.
#[tactic(auto, using(crate::proofs::ExtendsLaws::extends_laws, crate::proofs::GivesLaws::says_gives))]
fn binary(
    alloc: Global,
    m: &Memory,
    notes: &mut Notes,
    op: BinaryOp,
    told: (Option<IntType>, Option<IntType>),
    a: &Val,
    b: &Val,
) -> Result<Val, Halt>
    ensures given { Gives same result (run (reading m.now)
        (operated (kind_of op) told.0 told.1 (out-Val a.now) (out-Val b.now)) (seen notes.old))
        (seen notes.new) notes.new.refused }
    ensures kept { Extends (seen notes.old) (seen notes.new) }
{
    let (left, right) = told;
    match kind_of(op) {
        Operator::Arith(op) => arith(op, left, a, b),
        Operator::Overflowing(op) => overflowing(alloc, op, left, a, b),
        Operator::Shifting(op) => shift(op, left, right, a, b),
        Operator::Comparing(op) => compare(op, left, a, b),
        Operator::Moving => moved_by(m, notes, a, b),
        Operator::Wrapping => moved_around(a, b),
    }
}

/// A value as another integer type.
pub fn cast_value<'p>(int: IntType, v: Valued<'p>) -> Result<Valued<'p>, Halt>
    ensures given { Says value_in result (cast_layer int (integer_of (ty_of v.entry.ty)) (out-Val v.entry.value)) }
    ensures ty { IfOk result (λ w. ty_of w.ty ≡ Ty.Int int) }
{
    match cast(int, v.ty.integer(), &v.value) {
        Ok(value) => Ok(typed(value, Known::Int(int))),
        Err(halt) => Err(halt),
    }
}

/// An operator with one operand.
pub fn unary_value<'p>(op: UnaryOp, v: Valued<'p>) -> Result<Valued<'p>, Halt>
    ensures given { Says value_in result (unary_in op (integer_of (ty_of v.entry.ty)) (out-Val v.entry.value)) }
    ensures ty { IfOk result (λ w. ty_of w.ty ≡ ty_of v.entry.ty) }
{
    match unary(op, v.ty.integer(), &v.value) {
        Ok(value) => Ok(typed(value, v.ty)),
        Err(halt) => Err(halt),
    }
}

/// The variant of an enum with this content.
pub fn variant_value<'p>(
    alloc: Global,
    ty: &'p Ty,
    number: Num,
    content: Val,
) -> Result<Valued<'p>, Halt>
    ensures given { Says value_in result (Done (Val.Variant number content)) }
    ensures ty { IfOk result (λ w. ty_of w.ty ≡ ty.entry.now) }
{
    let content = Boxed::new(alloc, content)?;
    Ok(typed(Val::Variant(number, content), Known::Written(ty)))
}

/// A union of which a field is written.
pub fn union_value<'p>(
    alloc: Global,
    ty: &'p Ty,
    number: u64,
    content: Val,
) -> Result<Valued<'p>, Halt>
    requires ok { TypeOk ty.now }
    requires shape { FieldShaped ty.now number content }
    ensures given { Says value_in result (union_of ty.entry.now number content) }
    ensures ty { IfOk result (λ w. ty_of w.ty ≡ ty.entry.now) }
{
    match recasting::union_of(alloc, ty, number, &content) {
        Ok(value) => Ok(typed(value, Known::Written(ty))),
        Err(halt) => Err(halt),
    }
}

/// The bytes of a value, taken for another type of the same size.
pub fn transmuted_value<'p>(
    here: &Here<'p>,
    notes: &mut Notes,
    to: &'p Ty,
    v: Valued<'p>,
) -> Result<Valued<'p>, Halt>
    requires ok { TypeOk to.now }
    requires from_ok { TypeOk (ty_of v.ty) }
    requires shape { has_shape (ty_of v.ty) v.value ≡ true }
    requires same { size_of (ty_of v.ty) ≡ size_of to.now }
    ensures given { Gives value_in result (transmuted_to here.now.memory.now to.entry.now
        (Some (ty_of v.entry.ty)) v.entry.value (seen notes.old)) (seen notes.new) notes.new.refused }
    ensures ty { IfOk result (λ w. ty_of w.ty ≡ to.entry.now) }
    ensures kept { Extends (seen notes.old) (seen notes.new) }
{
    match recasting::transmuted(here.alloc, here.memory, notes, to, v.ty, &v.value) {
        Ok(value) => Ok(typed(value, Known::Written(to))),
        Err(halt) => Err(halt),
    }
}

// The type of what an operator gives, where this is the type of its left operand.
fn given(op: BinaryOp, left: Known<'_>) -> Known<'_>
    requires { is_some (result_type op (ty_of left)) ≡ true }
    ensures { result_type op (ty_of left.entry) ≡ Some (ty_of result) }
{
    match left.under(op) {
        Some(ty) => ty,
        None => unreachable!(),
    }
}

/// An operator with two operands.
pub fn binary_value<'p>(
    here: &Here<'p>,
    notes: &mut Notes,
    op: BinaryOp,
    a: Valued<'p>,
    b: Valued<'p>,
) -> Result<Valued<'p>, Halt>
    requires { is_some (result_type op (ty_of a.ty)) ≡ true }
    ensures given { Gives value_in result
        (run (reading here.now.memory.now)
        (operated (kind_of op) (integer_of (ty_of a.entry.ty)) (integer_of (ty_of b.entry.ty))
        (out-Val a.entry.value) (out-Val b.entry.value))
        (seen notes.old))
        (seen notes.new) notes.new.refused }
    ensures ty { IfOk result (λ w. result_type op (ty_of a.entry.ty) ≡ Some (ty_of w.ty)) }
    ensures kept { Extends (seen notes.old) (seen notes.new) }
{
    let told = (a.ty.integer(), b.ty.integer());
    match binary(here.alloc, here.memory, notes, op, told, &a.value, &b.value) {
        Ok(value) => Ok(typed(value, given(op, a.ty))),
        Err(halt) => Err(halt),
    }
}
