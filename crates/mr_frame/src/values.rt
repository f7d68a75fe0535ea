//! The values of several expressions, and a pointer that one of them gives.
ghost use Rattle.std.specs.Prelude.{◌≡◌, All};
ghost use Rattle.mr_eval.specs.Answers.{Extends, seen};
ghost use Rattle.mr_eval.specs.Environment.{Tells, ValueIn, env_surround};
ghost use Rattle.mr_eval.specs.Evaluated.{each_valued};
ghost use Rattle.mr_eval.specs.World.{TellsBy};
ghost use Rattle.mr_frame.specs.Effects.{pointed};
ghost use Rattle.mr_frame.specs.Inside.{ValueAt, is_address};
ghost use Rattle.mr_base.specs.declared.byte.Pointer.{Pointer as PointerOf};
ghost use Rattle.mr_value.specs.declared.val.Val.TheVariants as val;

use mr_ast::Value;
use mr_base::Pointer;
use mr_eval::{Env, Fault, Notes, value};
use mr_mem::Memory;
use mr_value::Val;
use std::alloc::Global;
use std::mem::replace;

/// The values of expressions, from left to right.
pub fn values(
    alloc: Global,
    e: &Env<'_>,
    m: &Memory,
    n: &mut Notes,
    args: &[Value],
) -> Result<Vec<Val>, Fault>
    requires { All (ValueIn e.now) args.now }
    ensures given { TellsBy (λ vs. vs.items) result (each_valued m.now (env_surround e.now) args.now (seen n.old))
        (seen n.new) n.new.refused }
    ensures kept { Extends (seen n.old) (seen n.new) }
{
    let mut row = replace(&mut n.spare_values, Vec::new(alloc));
    row.clear();
    for arg in args {
        match value(alloc, e, m, n, arg) {
            Err(fault) => return Err(fault),
            Ok(v) => row.push(v)?,
        }
    }
    Ok(row)
}

// The pointer that a value is.
fn pointer_in(v: &Val) -> Pointer
    requires { (p : PointerOf) × (v.now ≡ val.Ptr p) }
    ensures { v.now ≡ val.Ptr result }
{
    match v {
        Val::Ptr(p) => *p,
        _ => unreachable!(),
    }
}

/// The pointer that an expression gives, which is a raw one or one to a function.
#[tactic(auto, using(crate::proofs::PointedLaws::pointed_laws))]
pub fn pointer(
    alloc: Global,
    e: &Env<'_>,
    m: &Memory,
    n: &mut Notes,
    v: &Value,
) -> Result<Pointer, Fault>
    requires { ValueAt e.now v.now is_address }
    ensures given { Tells result (pointed m.now (env_surround e.now) v.now (seen n.old)) (seen n.new) n.new.refused }
    ensures kept { Extends (seen n.old) (seen n.new) }
{
    let v = value(alloc, e, m, n, v)?;
    Ok(pointer_in(&v))
}
