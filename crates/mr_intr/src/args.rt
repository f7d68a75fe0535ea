//! The arguments of an intrinsic that fit it.
ghost use Rattle.std.specs.Prelude.{◌≡◌, Some, option_copied, slice_get};
ghost use Rattle.mr_ast.specs.declared.types.IntType.{IntType as IntTypeOf};
ghost use Rattle.mr_ast.specs.declared.types.Ty.TheVariants as ty;
ghost use Rattle.mr_typing.specs.Known.{ty_of};
ghost use Rattle.mr_intr.specs.Arguments.{HasInteger, HasNumber, HasPointer, HasTruth};

use mr_ast::IntType;
use mr_base::Pointer;
use mr_eval::Plain;
use mr_typing::Known;
use mr_value::Val;

/// A bool.
pub fn truth_at(args: &[Val], at: usize) -> bool
    requires { HasTruth args.now at }
    ensures { slice_get args.now at ≡ Some (Val.Bool result) }
{
    match &args[at] {
        Val::Bool(truth) => *truth,
        _ => unreachable!(),
    }
}

/// A pointer.
pub fn pointer_at(args: &[Val], at: usize) -> Pointer
    requires { HasPointer args.now at }
    ensures { slice_get args.now at ≡ Some (Val.Ptr result) }
{
    match &args[at] {
        Val::Ptr(p) => *p,
        _ => unreachable!(),
    }
}

/// The bits of an integer.
pub fn bits_at(args: &[Val], at: usize) -> u128
    requires { HasNumber 128 args.now at }
    ensures { slice_get args.now at ≡ Some (Val.Int result) }
{
    match &args[at] {
        Val::Int(bits) => *bits,
        _ => unreachable!(),
    }
}

/// A size or an alignment in bytes.
pub fn size_at(args: &[Val], at: usize) -> u64
    requires { HasNumber 64 args.now at }
    ensures { slice_get args.now at ≡ Some (Val.Int result) }
{
    match &args[at] {
        Val::Int(size) => *size as u64,
        _ => unreachable!(),
    }
}

/// The number of a thread or a lock.
pub fn number_at(args: &[Val], at: usize) -> u32
    requires { HasNumber 32 args.now at }
    ensures { slice_get args.now at ≡ Some (Val.Int result) }
{
    match &args[at] {
        Val::Int(number) => *number as u32,
        _ => unreachable!(),
    }
}

// Which integer a type is.
fn number_type(t: Known<'_>) -> IntType
    requires { (i : IntTypeOf) × (ty_of t ≡ ty.Int i) }
    ensures { ty_of t.entry ≡ ty.Int result }
{
    match t.integer() {
        Some(int) => int,
        None => unreachable!(),
    }
}

/// The integer type of the place for a result.
pub fn integer_of(place: Option<&Plain>) -> IntType
    requires { HasInteger (option_copied place) }
    ensures { option_copied place.entry ≡ Some (ty.Int result) }
{
    match place {
        Some(t) => number_type(t.known()),
        None => unreachable!(),
    }
}
