//! The public calls: places, values, typed loads and stores.
ghost use Rattle.std.specs.Prelude.{◌≡◌, IfOk, OnErr, true};
ghost use Rattle.mr_layout.specs.TypeOk.{TypeOk};
ghost use Rattle.mr_value.specs.Shape.{has_shape};
ghost use Rattle.mr_eval.specs.Answers.{Extends, seen};
ghost use Rattle.mr_eval.specs.Environment.{IsRuled, Leaves, PlaceIn, ShapedAs, Tells, ValueIn, env_surround, fault_of};
ghost use Rattle.mr_eval.specs.Evaluated.{placed, read_typed, valued};
ghost use Rattle.mr_eval.specs.Stores.{stored_typed};

use crate::env::Env;
use crate::evaluating::{placed, valued};
use crate::halt::Halt;
use crate::here::Here;
use crate::loading::is_scalar;
use crate::notes::Notes;
use crate::placing::Placed;
use crate::stores::{store_bytes, store_scalar};
use crate::valuing;
use mr_ast::{Place, Ty, Value};
use mr_base::Pointer;
use mr_mem::{Fault, Memory};
use mr_value::{Val, encode, encode_scalar};
use std::alloc::Global;

// Why a call stops.
fn fault_of(h: Halt) -> Fault
    requires { IsRuled h }
    ensures { result ≡ fault_of h }
{
    match h {
        Halt::Undefined(reason) => Fault::Undefined(reason),
        Halt::IllFormed => unreachable!(),
        Halt::Memory => Fault::Memory,
    }
}

/// Where a place begins. The accesses and the touched allocations of its parts are noted.
///
/// The place stands in the function of the environment. After `Err` the notes begin with what they held.
pub fn place(
    alloc: Global,
    e: &Env<'_>,
    m: &Memory,
    n: &mut Notes,
    p: &Place,
) -> Result<Pointer, Fault>
    requires { PlaceIn e.now p.now }
    ensures given { Tells result (placed m.now (env_surround e.now) p.now (seen n.old)) (seen n.new) n.new.refused }
    ensures kept { Extends (seen n.old) (seen n.new) }
{
    let here = Here {
        alloc,
        memory: m,
        cache: e.cache,
        locals: e.function_locals(),
        storage: e.locals,
        functions: e.functions,
        globals: e.globals,
    };
    match placed(&here, n, p) {
        Ok(p) => Ok(p.at),
        Err(h) => Err(fault_of(h)),
    }
}

/// What a value is, which has the shape of its type. The accesses and the touched allocations of its parts are noted.
///
/// The value stands in the function of the environment. After `Err` the notes begin with what they held.
pub fn value(alloc: Global, e: &Env<'_>, m: &Memory, n: &mut Notes, v: &Value) -> Result<Val, Fault>
    requires { ValueIn e.now v.now }
    ensures given { Tells result (valued m.now (env_surround e.now) v.now (seen n.old)) (seen n.new) n.new.refused }
    ensures kept { Extends (seen n.old) (seen n.new) }
    ensures shape { IfOk result (ShapedAs (env_surround e.now) v.now) }
{
    let here = Here {
        alloc,
        memory: m,
        cache: e.cache,
        locals: e.function_locals(),
        storage: e.locals,
        functions: e.functions,
        globals: e.globals,
    };
    match valued(&here, n, v) {
        Ok(v) => Ok(v.value),
        Err(h) => Err(fault_of(h)),
    }
}

/// The load of a value of a type: 103 before the range check, then 107 where the bytes mean nothing, then 108 for a reference in it that
/// points to no live range.
///
/// After `Err` the notes begin with what they held.
pub fn load_typed(
    alloc: Global,
    e: &Env<'_>,
    m: &Memory,
    n: &mut Notes,
    p: Pointer,
    t: &Ty,
) -> Result<Val, Fault>
    requires { TypeOk t.now }
    ensures given { Tells result (read_typed m.now t.now p (seen n.old)) (seen n.new) n.new.refused }
    ensures kept { Extends (seen n.old) (seen n.new) }
    ensures shape { IfOk result (λ v. has_shape t.now v ≡ true) }
{
    match valuing::load(alloc, e.cache, m, n, Placed { at: p, ty: t }) {
        Ok(v) => Ok(v),
        Err(h) => Err(fault_of(h)),
    }
}

/// The store of a value of a type: 103 before the range check.
///
/// After `Err` memory is as before, and the notes begin with what they held.
#[tactic(auto, using(crate::proofs::ExtendsLaws::extends_laws))]
pub fn store_typed(
    alloc: Global,
    e: &Env<'_>,
    m: &mut Memory,
    n: &mut Notes,
    p: Pointer,
    t: &Ty,
    v: &Val,
) -> Result<(), Fault>
    requires ok { TypeOk t.now }
    requires shape { has_shape t.now v.now ≡ true }
    ensures given { Leaves result (stored_typed m.old t.now p v.now (seen n.old)) m.new (seen n.new) n.new.refused }
    ensures kept { Extends (seen n.old) (seen n.new) }
    ensures err { OnErr result (m.new ≡ m.old) }
{
    let layout = e.cache.layout(t);
    if is_scalar(t) {
        return store_scalar(m, n, false, p, &encode_scalar(v, t), layout.align);
    }
    let mut bytes = Vec::new(alloc);
    encode(alloc, v, t, &mut bytes)?;
    store_bytes(m, n, false, p, bytes.as_slice(), layout.align)
}
