//! What bytes hold, read as one number or one pointer.
ghost use Rattle.std.specs.Prelude.{◌≡◌, length};
ghost use Rattle.mr_ast.specs.Integers.{int_size};
ghost use Rattle.mr_ast.specs.declared.types.Ty.TheVariants as ty;
ghost use Rattle.mr_runs.specs.Pieces.{bytes_of_pieces};
ghost use Rattle.mr_value.specs.Decode.{decoded};
ghost use Rattle.mr_value.specs.declared.val.Val.{out-Val};
ghost use Rattle.mr_values.specs.Reading.{held_as, held_in, held_value};

use mr_ast::{IntType, Ty};
use mr_listing::Held;
use mr_runs::View;
use mr_value::{Val, decode_scalar};

// A value as it is told.
fn held_value(value: &Val) -> Held
    ensures { result ≡ held_value (out-Val value.now) }
{
    match value {
        Val::Int(number) => Held::Number(*number),
        Val::Ptr(pointer) => Held::Pointer(*pointer),
        _ => Held::Untold,
    }
}

// The number that bytes are.
#[tactic(auto, using(mr_layout::proofs::BrokenLaws::int_ok, mr_layout::proofs::SizeLaws::size_int))]
fn number_in(view: &View<'_>, int: IntType) -> Held
    requires { length (bytes_of_pieces view.now) ≡ int_size int }
    ensures { result ≡ held_as (decoded (ty.Int int) (bytes_of_pieces view.now)) }
{
    match decode_scalar(view, &Ty::Int(int)) {
        Some(value) => held_value(&value),
        None => Held::Nothing,
    }
}

// The pointer that eight bytes are.
#[tactic(auto, using(mr_layout::proofs::BrokenLaws::broken_raw, mr_layout::proofs::SizeLaws::size_raw))]
fn pointer_in(view: &View<'_>) -> Held
    requires { length (bytes_of_pieces view.now) ≡ 8 }
    ensures { result ≡ held_as (decoded ty.Raw (bytes_of_pieces view.now)) }
{
    match decode_scalar(view, &Ty::Raw) {
        Some(value) => held_value(&value),
        None => Held::Nothing,
    }
}

/// What bytes hold.
pub(crate) fn held_in(view: &View<'_>) -> Held
    ensures { result ≡ held_in (bytes_of_pieces view.now) }
{
    let len = view.len();
    if len == 1 {
        number_in(view, IntType::U8)
    } else if len == 2 {
        number_in(view, IntType::U16)
    } else if len == 4 {
        number_in(view, IntType::U32)
    } else if len == 8 {
        pointer_in(view)
    } else if len == 16 {
        number_in(view, IntType::U128)
    } else {
        Held::Untold
    }
}
