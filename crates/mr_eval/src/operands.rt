//! What operators read in their operands.
ghost use Rattle.std.specs.Prelude.{◌≡◌, ◌<◌, ◌^◌, IfSome, Some, nat_lt, option_map};
ghost use Rattle.mr_ast.specs.Integers.{bits_of};
ghost use Rattle.mr_value.specs.declared.val.Val.{out-Val};
ghost use Rattle.mr_eval.specs.Operators.{bits_in, integer_like, pointer_in, right_in};

use mr_ast::IntType;
use mr_base::Pointer;
use mr_value::Val;

// Whether bits are those of an integer.
fn is_within(int: IntType, bits: u128) -> bool
    ensures { result ≡ nat_lt bits (2 ^ bits_of int) }
{
    match int {
        IntType::U8 | IntType::I8 => bits < 1 << 8,
        IntType::U16 | IntType::I16 => bits < 1 << 16,
        IntType::U32 | IntType::I32 => bits < 1 << 32,
        IntType::U64 | IntType::I64 => bits < 1 << 64,
        IntType::U128 | IntType::I128 => true,
    }
}

/// How a left operand is read: as which integer, and its bits.
pub fn left_in(v: &Val, told: Option<IntType>) -> Option<(IntType, u128)>
    ensures like { option_map (λ o. o.0) result ≡ integer_like (out-Val v.now) told }
    ensures bits { IfSome result (λ o. bits_in (out-Val v.now) ≡ Some o.1) }
    ensures within { IfSome result (λ o. o.1 < 2 ^ bits_of o.0) }
{
    match v {
        Val::Int(bits) => match told {
            Some(int) if is_within(int, *bits) => Some((int, *bits)),
            _ => None,
        },
        Val::Bool(b) => Some((IntType::U8, u128::from(*b))),
        Val::Ptr(p) => Some((IntType::U64, u128::from(p.addr))),
        Val::Tuple(_) | Val::Union(_) | Val::Variant(_, _) => None,
    }
}

/// The bits of a right operand beside a left one of this integer.
pub fn right_in(int: IntType, v: &Val) -> Option<u128>
    ensures bits { result ≡ right_in int (out-Val v.now) }
    ensures within { IfSome result (λ bits. bits < 2 ^ bits_of int) }
{
    match v {
        Val::Int(bits) if is_within(int, *bits) => Some(*bits),
        Val::Bool(b) => Some(u128::from(*b)),
        Val::Ptr(p) if int == IntType::U64 => Some(u128::from(p.addr)),
        _ => None,
    }
}

/// The pointer that an operand is.
pub fn pointer_in(v: &Val) -> Option<Pointer>
    ensures { result ≡ pointer_in (out-Val v.now) }
{
    match v {
        Val::Ptr(p) => Some(*p),
        _ => None,
    }
}
