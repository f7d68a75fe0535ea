//! Output and assumptions.
ghost use Rattle.std.specs.Prelude.{◌≡◌, ℕ, ◌++◌, List, Option, None, IfOk, OnOk, true};
ghost use Rattle.mr_ast.specs.declared.program.Intrinsic.TheVariants as intrinsic;
ghost use Rattle.mr_ast.specs.declared.types.Ty.{Ty};
ghost use Rattle.mr_eval.specs.declared.scene.Scene.{Scene};
ghost use Rattle.mr_eval.specs.Shapes.{HaveShapes};
ghost use Rattle.mr_sync.specs.Tables.{Tables};
ghost use Rattle.mr_value.specs.Shape.{has_shape};
ghost use Rattle.mr_typing.specs.Operands.{is_scalar_number};
ghost use Rattle.std.specs.List.{list_all};
ghost use Rattle.mr_intr.specs.Effects.{Does, CanTake, Fits, begun, operated, FitsPlace};
ghost use Rattle.mr_intr.specs.Printed.{text_in, texts_in};
ghost use Rattle.mr_intr.specs.Texts.{bool_text, number_text, spaced_behind};

use crate::args::truth_at;
use crate::effect::Effect;
use itoa::Buffer;
use mr_ast::Num;
use mr_base::Reason;
use mr_eval::{Fault, Plain, Scalar, scalar_of};
use mr_value::Val;
use std::alloc::AllocError;

/// Nothing, where the argument is true.
pub fn assume(args: &[Val]) -> Result<Effect, Fault>
    requires { CanTake intrinsic.Assume args.now }
    ensures done { (types : List Ty) (place : Option Ty) (picks out : List ℕ) (s : Scene) (x : Tables)
        → Does intrinsic.Assume result (operated intrinsic.Assume args.now types place picks (begun s x)) s x out out }
    ensures value { IfOk result (λ e. FitsPlace None e.value) }
{
    if truth_at(args, 0) {
        Ok(Effect::quiet(None))
    } else {
        Err(Fault::Undefined(Reason::AssumeFalse))
    }
}

// Appends a number in decimal, with its sign.
fn push_number(text: &mut Vec<u8>, number: Num) -> Result<(), AllocError>
    ensures { OnOk result (text.new.items ≡ text.old.items ++ number_text number) }
{
    let mut buffer = Buffer::new();
    if number.neg {
        text.push(b'-')?;
    }
    text.extend_from_slice(buffer.format(number.mag).as_bytes())
}

// Appends the name of a bool.
fn push_bool(text: &mut Vec<u8>, truth: bool) -> Result<(), AllocError>
    ensures { OnOk result (text.new.items ≡ text.old.items ++ bool_text truth) }
{
    let name = if truth { "true" } else { "false" };
    text.extend_from_slice(name.as_bytes())
}

// Appends the text of a value of this type.
#[tactic(auto, using(crate::proofs::TextLaws::text_laws))]
fn push_value(text: &mut Vec<u8>, t: &Plain, v: &Val) -> Result<(), AllocError>
    requires scalar { is_scalar_number t.now ≡ true }
    requires shape { has_shape t.now v.now ≡ true }
    ensures { OnOk result (text.new.items ≡ text.old.items ++ text_in t.now v.now) }
{
    match scalar_of(t.known(), v) {
        Scalar::Number(number) => push_number(text, number),
        Scalar::Truth(truth) => push_bool(text, truth),
    }
}

// Appends the texts of values, each led by a space.
fn push_others(text: &mut Vec<u8>, types: &[Plain], args: &[Val]) -> Result<(), AllocError>
    requires scalars { list_all is_scalar_number types.now ≡ true }
    requires shapes { HaveShapes types.now args.now }
    ensures { OnOk result (text.new.items ≡ text.old.items ++ spaced_behind (texts_in types.now args.now)) }
{
    for (i, v) in args.iter().enumerate() {
        text.push(b' ')?;
        push_value(text, &types[i], v)?;
    }
    Ok(())
}

/// Appends the texts of the arguments to the output, with a space between.
pub fn print(args: &[Val], types: &[Plain], output: &mut Vec<u8>) -> Result<Effect, Fault>
    requires { (place : Option Ty) × Fits intrinsic.Print args.now types.now place }
    ensures done { (place : Option Ty) (picks : List ℕ) (s : Scene) (x : Tables) → Does intrinsic.Print result
        (operated intrinsic.Print args.now types.now place picks (begun s x)) s x output.old.items output.new.items }
    ensures value { IfOk result (λ e. FitsPlace None e.value) }
{
    let Some((first, rest)) = args.split_first() else {
        return Ok(Effect::quiet(None));
    };
    push_value(output, &types[0], first)?;
    push_others(output, &types[1..], rest)?;
    Ok(Effect::quiet(None))
}
