//! The types that operators and aggregates take.
ghost use Rattle.std.specs.Prelude.{◌≡◌, Ok, map, length, option_copied};
ghost use Rattle.mr_ast.specs.declared.types.Ty.{out-Ty};
ghost use Rattle.mr_layout.specs.TypeOk.{TypeOk};
ghost use Rattle.mr_typing.specs.Judging.{judged_values};
ghost use Rattle.mr_typing.specs.Known.{ty_of};
ghost use Rattle.mr_typing.specs.SameTypes.{same_type};
ghost use Rattle.mr_typing.specs.Operands.{fit, fits_binary, fits_parts, fits_unary, fits_union, fits_variant, is_type, match_fields, operands_of, same_size};
ghost use Rattle.mr_wf.specs.Gives.{surroundings_of};

use crate::alike::match_element;
use crate::judging::Surroundings;
use crate::kinds::is_union;
use mr_ast::{BinaryOp, IntType, Num, Ty, UnaryOp, Value};
use mr_layout::size;
use mr_typing::{Known, Operands, field, variant};

fn operands_of(op: BinaryOp) -> Operands
    ensures { result ≡ operands_of op }
{
    match op {
        BinaryOp::And | BinaryOp::Or | BinaryOp::Xor => Operands::Bitwise,
        BinaryOp::Shl | BinaryOp::Shr | BinaryOp::ShlUnchecked | BinaryOp::ShrUnchecked => {
            Operands::Shifted
        }
        BinaryOp::Eq | BinaryOp::Ne | BinaryOp::Lt | BinaryOp::Le | BinaryOp::Gt | BinaryOp::Ge =>
            Operands::Compared,
        BinaryOp::Offset | BinaryOp::WrappingOffset => Operands::Moved,
        BinaryOp::Add
        | BinaryOp::Sub
        | BinaryOp::Mul
        | BinaryOp::Div
        | BinaryOp::Rem
        | BinaryOp::AddUnchecked
        | BinaryOp::SubUnchecked
        | BinaryOp::MulUnchecked
        | BinaryOp::AddOverflow
        | BinaryOp::SubOverflow
        | BinaryOp::MulOverflow => Operands::Integers,
    }
}

/// Whether an operator takes an operand of this type.
pub fn fits_unary(op: UnaryOp, operand: Known<'_>) -> bool
    ensures { result ≡ fits_unary op (ty_of operand.entry) }
{
    match op {
        UnaryOp::Neg => operand.integer().is_some(),
        UnaryOp::Not => operand.is_scalar_number(),
    }
}

/// Whether an operator takes operands of these types.
pub fn fits_binary(op: BinaryOp, left: Known<'_>, right: Known<'_>) -> bool
    ensures { result ≡ fits_binary op (ty_of left.entry) (ty_of right.entry) }
{
    match operands_of(op) {
        Operands::Integers => left.integer().is_some() && left.same(right),
        Operands::Bitwise => left.is_scalar_number() && left.same(right),
        Operands::Shifted => left.integer().is_some() && right.integer().is_some(),
        Operands::Compared => { (left.is_scalar_number() || left.is_raw()) && left.same(right) }
        Operands::Moved => left.is_raw() && right.same(Known::Int(IntType::I64)),
    }
}

// Whether each type is that of its field.
fn match_fields(fields: &[(u64, Ty)], types: &[Known<'_>]) -> bool
    ensures { result ≡ match_fields fields.now (map ty_of types.now) }
{
    let mut left = types;
    for field in fields {
        match left {
            [t, rest @ ..] if t.same(Known::Written(&field.1)) => left = rest,
            _ => return false,
        }
    }
    left.is_empty()
}

/// Whether values, whose types are given, are the parts of a tuple or an array.
pub fn fits_parts(at: Surroundings<'_>, values: &[Value], t: &Ty, types: &[Known<'_>]) -> bool
    requires { judged_values (surroundings_of at) values.now ≡ Ok (map ty_of types.now) }
    ensures { result ≡ fits_parts t.now (map ty_of types.now) }
{
    match t {
        Ty::Tuple { fields, .. } => match_fields(fields.as_slice(), types),
        Ty::Array { count, elem } => {
            types.len() as u64 == *count && match_element(at, values, elem.get(), types)
        }
        _ => false,
    }
}

fn is_type(wanted: Option<&Ty>, t: Known<'_>) -> bool
    ensures { result ≡ is_type (option_copied wanted.entry) (ty_of t.entry) }
{
    match wanted {
        Some(wanted) => t.same(Known::Written(wanted)),
        None => false,
    }
}

/// Whether a value of this type is the field of a union.
pub fn fits_union(t: &Ty, number: u64, content: Known<'_>) -> bool
    ensures { result ≡ fits_union t.now number (ty_of content.entry) }
{
    is_union(t) && is_type(field(t, number), content)
}

/// Whether a value of this type is the content of the variant with this number.
pub fn fits_variant(t: &Ty, number: Num, content: Known<'_>) -> bool
    ensures { result ≡ fits_variant t.now number (ty_of content.entry) }
{
    is_type(variant(t, number), content)
}

/// Whether the two have as many bytes.
#[tactic(auto, using(mr_typing::proofs::KnownSizes::sized_laws))]
pub fn same_size(t: &Ty, u: Known<'_>) -> bool
    requires { TypeOk t.now }
    ensures { result ≡ same_size t.now (ty_of u.entry) }
{
    match (size(t), u.size()) {
        (Some(bytes), Some(others)) => bytes == others,
        _ => false,
    }
}
