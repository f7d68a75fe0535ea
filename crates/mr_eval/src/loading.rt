//! Typed loads.
ghost use Rattle.std.specs.Prelude.{◌≡◌, IfOk, IsTrue, OnOk, false, length, true};
ghost use Rattle.mr_layout.specs.Sizes.{align_of, size_of};
ghost use Rattle.mr_layout.specs.Layouts.{layout_of};
ghost use Rattle.mr_layout.specs.TypeOk.{TypeOk};
ghost use Rattle.mr_base.specs.Script.{Went, on};
ghost use Rattle.mr_value.specs.Decode.{is_scalar};
ghost use Rattle.mr_value.specs.Shape.{has_shape};
ghost use Rattle.mr_value.specs.declared.val.Val.{out-Val};
ghost use Rattle.mr_eval.specs.Answers.{Extends, Gives, Reasons, same, seen, value_in};
ghost use Rattle.mr_typing.specs.Known.{ty_of};
ghost use Rattle.mr_base.specs.declared.byte.Pointer.{Pointer as PointerOf};
ghost use Rattle.mr_runs.specs.Pieces.{bytes_of_pieces};
ghost use Rattle.mr_eval.specs.Evaluated.{meant_by, read_typed, referred_to};
ghost use Rattle.mr_eval.specs.Noted.{listed, noted_load, noted_targets};
ghost use Rattle.mr_eval.specs.Reads.{Seen, accessing, seeing, touching};
ghost use Rattle.mr_eval.specs.Typed.{meaningless, pointed, targets_of};

use crate::halt::Halt;
use crate::notes::Notes;
use crate::placing::Placed;
use crate::reads::lend;
use crate::targets::{add_targets, refer_all};
use crate::valuing::{Valued, typed};
use mr_ast::Ty;
use mr_base::{Pointer, Reaching, Reason};
use mr_layout::{Cache, Layout};
use mr_mem::Memory;
use mr_runs::View;
use mr_typing::Known;
use mr_value::{Val, decode, decode_scalar};
use std::alloc::{AllocError, Global};

/// The reference check of a value, which is given back.
#[tactic(auto, using(crate::proofs::ExtendsLaws::extends_laws))]
pub fn referred(alloc: Global, m: &Memory, notes: &mut Notes, t: &Ty, v: Val) -> Result<Val, Halt>
    ensures given { Gives same result (on (referred_to m.now (targets_of t.now v) (seen notes.old)) (λ u s. Went v s))
        (seen notes.new) notes.new.refused }
    ensures kept { Extends (seen notes.old) (seen notes.new) }
    ensures same { IfOk result (λ w. w ≡ v) }
{
    let mut found = Vec::new(alloc);
    add_targets(t, &v, &mut found)?;
    refer_all(m, notes, found.as_slice())?;
    Ok(v)
}

/// The load of a value of a type of this size and alignment.
#[tactic(auto, using(crate::proofs::LoadRuns::load_laws, crate::proofs::ExtendsLaws::extends_laws))]
pub fn read_typed(
    alloc: Global,
    m: &Memory,
    notes: &mut Notes,
    p: Pointer,
    t: &Ty,
    size: u64,
    align: u64,
) -> Result<Val, Halt>
    requires ok { TypeOk t.now }
    requires size { size ≡ size_of t.now }
    requires align { align ≡ align_of t.now }
    ensures given { Gives same result (read_typed m.now t.now p (seen notes.old)) (seen notes.new) notes.new.refused }
    ensures kept { Extends (seen notes.old) (seen notes.new) }
    ensures shape { IfOk result (λ v. has_shape t.now v ≡ true) }
{
    let view = lend(m, notes, p, size, align)?;
    match decode(alloc, &view, t)? {
        Some(v) => referred(alloc, m, notes, t, v),
        None => {
            notes.refuse(Reaching::Loads, p, size);
            Err(Halt::Undefined(Reason::InvalidValue))
        }
    }
}

// ---- a value of one number or pointer, which needs no memory

/// Whether a type is an integer, a bool or a pointer.
pub fn is_scalar(t: &Ty) -> bool
    ensures { result ≡ is_scalar t.now }
{
    matches!(
        t,
        Ty::Int(_) | Ty::Bool | Ty::Raw | Ty::FnPtr | Ty::Ref { .. }
    )
}

// What a pointer of this many bytes points to.
fn pointed(size: u64, v: &Val) -> Option<(Pointer, u64)>
    ensures { listed result ≡ pointed size (out-Val v.now) }
{
    match v {
        Val::Ptr(p) => Some((*p, size)),
        _ => None,
    }
}

// What a value points to, where it is a reference.
#[tactic(auto, using(crate::proofs::TargetLaws::target_laws))]
fn target_of(t: &Ty, v: &Val) -> Option<(Pointer, u64)>
    requires { IsTrue (is_scalar t.now) }
    ensures { listed result ≡ targets_of t.now v.now }
{
    match t {
        Ty::Int(_) => None,
        Ty::Bool => None,
        Ty::Raw => None,
        Ty::FnPtr => None,
        Ty::Ref { size, .. } => pointed(*size, v),
        _ => unreachable!(),
    }
}

// The reference check of what a value points to, if it points to anything.
#[tactic(auto, unfolding(crate::specs::Evaluated::referred_to))]
fn check_target(m: &Memory, target: Option<(Pointer, u64)>) -> Result<(), Reason>
    ensures { (s : Seen)
        → Reasons result (λ _. noted_targets (listed target) s) (referred_to m.now (listed target) s) }
{
    match target {
        None => Ok(()),
        Some((p, len)) => match m.check(p, len) {
            Ok(_) => Ok(()),
            Err(_) => Err(Reason::DanglingReference),
        },
    }
}

// The value that is lent, whose reference, where it is one, points to a live range.
#[tactic(auto, using(crate::proofs::ScalarRuns::scalar_meaningless))]
fn scalar_in(m: &Memory, view: &View<'_>, t: &Ty) -> Result<Val, Reason>
    requires scalar { IsTrue (is_scalar t.now) }
    requires ok { TypeOk t.now }
    requires sized { length (bytes_of_pieces view.now) ≡ size_of t.now }
    ensures given { (p : PointerOf) (s : Seen) → Reasons result (λ v. noted_targets (targets_of t.now v) s)
        (meant_by m.now (meaningless t.now p) t.now (bytes_of_pieces view.now) s) }
    ensures shape { IfOk result (λ v. has_shape t.now v ≡ true) }
{
    let Some(v) = decode_scalar(view, t) else {
        return Err(Reason::InvalidValue);
    };
    match check_target(m, target_of(t, &v)) {
        Ok(()) => Ok(v),
        Err(reason) => Err(reason),
    }
}

/// The load of an integer, a bool or a pointer: the value or the reason of [`load_typed`](crate::load_typed). It notes nothing, and
/// takes no memory.
#[tactic(auto, using(crate::proofs::ScalarRuns::scalar_laws, crate::proofs::ReadLength::read_sized))]
pub fn load_scalar(m: &Memory, c: &Cache, p: Pointer, t: &Ty) -> Result<Val, Reason>
    requires scalar { IsTrue (is_scalar t.now) }
    requires ok { TypeOk t.now }
    ensures given { (s : Seen) → Reasons result (λ v. noted_load t.now p v s) (read_typed m.now t.now p s) }
    ensures shape { IfOk result (λ v. has_shape t.now v ≡ true) }
{
    load_sized(m, p, t, c.layout(t))
}

// The load of an integer, a bool or a pointer, whose type has this layout.
#[tactic(auto, using(crate::proofs::ScalarRuns::scalar_laws, crate::proofs::ReadLength::read_sized))]
fn load_sized(m: &Memory, p: Pointer, t: &Ty, layout: Layout) -> Result<Val, Reason>
    requires scalar { IsTrue (is_scalar t.now) }
    requires ok { TypeOk t.now }
    requires layout { layout ≡ layout_of t.now }
    ensures given { (s : Seen) → Reasons result (λ v. noted_load t.now p v s) (read_typed m.now t.now p s) }
    ensures shape { IfOk result (λ v. has_shape t.now v ≡ true) }
{
    match m.load(p, layout.size, layout.align) {
        Ok(view) => scalar_in(m, &view, t),
        Err(reason) => Err(reason),
    }
}

// Notes a load, and the range check of what its value points to.
#[tactic(auto, using(crate::proofs::ExtendsLaws::extends_laws))]
fn note_load(
    notes: &mut Notes,
    p: Pointer,
    size: u64,
    target: Option<(Pointer, u64)>,
) -> Result<(), AllocError>
    ensures noted { OnOk result (seen notes.new
        ≡ noted_targets (listed target) (seeing (accessing false false p size) (touching p size) (seen notes.old))) }
    ensures kept { Extends (seen notes.old) (seen notes.new) }
{
    notes.touch(p, size)?;
    notes.access(false, false, p, size)?;
    if let Some((p, len)) = target {
        notes.touch(p, len)?;
    }
    Ok(())
}

// A load that is refused, done once more as a load of any type, so that what is refused is noted.
#[cold]
#[inline(never)]
fn refused_scalar<'p>(
    alloc: Global,
    m: &Memory,
    notes: &mut Notes,
    p: Placed<'p>,
    layout: Layout,
) -> Result<Valued<'p>, Halt>
    requires ok { TypeOk p.ty.now }
    requires layout { layout ≡ layout_of p.ty.now }
    ensures given { Gives value_in result (read_typed m.now p.entry.ty.now p.entry.at (seen notes.old))
        (seen notes.new) notes.new.refused }
    ensures ty { IfOk result (λ v. ty_of v.ty ≡ p.entry.ty.now) }
    ensures kept { Extends (seen notes.old) (seen notes.new) }
    ensures shape { IfOk result (λ v. has_shape p.entry.ty.now v.value ≡ true) }
{
    match read_typed(alloc, m, notes, p.at, p.ty, layout.size, layout.align) {
        Ok(v) => Ok(typed(v, Known::Written(p.ty))),
        Err(halt) => Err(halt),
    }
}

/// The load of an integer, a bool or a pointer, noted, as a value of its type.
#[tactic(auto, using(crate::proofs::ExtendsLaws::extends_laws))]
pub fn noted_scalar<'p>(
    alloc: Global,
    m: &Memory,
    c: &Cache,
    notes: &mut Notes,
    p: Placed<'p>,
) -> Result<Valued<'p>, Halt>
    requires scalar { IsTrue (is_scalar p.ty.now) }
    requires ok { TypeOk p.ty.now }
    ensures given { Gives value_in result (read_typed m.now p.entry.ty.now p.entry.at (seen notes.old))
        (seen notes.new) notes.new.refused }
    ensures ty { IfOk result (λ v. ty_of v.ty ≡ p.entry.ty.now) }
    ensures kept { Extends (seen notes.old) (seen notes.new) }
    ensures shape { IfOk result (λ v. has_shape p.entry.ty.now v.value ≡ true) }
{
    let layout = c.layout(p.ty);
    match load_sized(m, p.at, p.ty, layout) {
        Ok(v) => {
            note_load(notes, p.at, layout.size, target_of(p.ty, &v))?;
            Ok(typed(v, Known::Written(p.ty)))
        }
        Err(_) => refused_scalar(alloc, m, notes, p, layout),
    }
}
