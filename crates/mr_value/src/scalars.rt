//! What bytes mean at a type of one number or pointer.
ghost use Rattle.std.specs.Prelude.{◌≡◌, ◌<◌, ◌≤◌, ◌+◌, true, length, IfSome, IfNone, IsTrue, option_map, option_and_then};
ghost use Rattle.mr_layout.specs.Sizes.{size_of};
ghost use Rattle.mr_ast.specs.Integers.{int_size};
ghost use Rattle.mr_layout.specs.Parts.{is_ok};
ghost use Rattle.mr_layout.specs.TypeOk.{TypeOk};
ghost use Rattle.mr_runs.specs.Pieces.{bytes_of_pieces};
ghost use Rattle.mr_value.specs.Numbers.{part, number_of};
ghost use Rattle.mr_value.specs.declared.val.Val.{Val};
ghost use Rattle.mr_value.specs.Shape.{has_shape};
ghost use Rattle.mr_value.specs.Decode.{Means, decoded, is_scalar, bool_of, pointer_where, is_not_null, is_aligned};

use crate::numbers::{number_at, pointer_at};
use crate::val::Val;
use mr_ast::{IntType, Ty};
use mr_layout::int_bytes;
use mr_runs::View;

fn int_at(v: &View<'_>, at: u64, int: IntType) -> Option<Val>
    requires { at + int_size int ≤ length (bytes_of_pieces v.now) }
    ensures { result ≡ option_map Val.Int (number_of (part at (int_size int) (bytes_of_pieces v.now))) }
{
    match number_at(v, at, int_bytes(int)) {
        Some(n) => Some(Val::Int(n)),
        None => None,
    }
}

fn bool_at(v: &View<'_>, at: u64) -> Option<Val>
    requires { at + 1 ≤ length (bytes_of_pieces v.now) }
    ensures { result ≡ option_and_then bool_of (number_of (part at 1 (bytes_of_pieces v.now))) }
{
    match number_at(v, at, 1) {
        None => None,
        Some(n) => {
            if n == 0 {
                Some(Val::Bool(false))
            } else if n == 1 {
                Some(Val::Bool(true))
            } else {
                None
            }
        }
    }
}

fn raw_at(v: &View<'_>, at: u64) -> Option<Val>
    requires { at + 8 ≤ length (bytes_of_pieces v.now) }
    ensures { result ≡ pointer_where (λ addr. true) (part at 8 (bytes_of_pieces v.now)) }
{
    match pointer_at(v, at) {
        Some(p) => Some(Val::Ptr(p)),
        None => None,
    }
}

fn fn_ptr_at(v: &View<'_>, at: u64) -> Option<Val>
    requires { at + 8 ≤ length (bytes_of_pieces v.now) }
    ensures { result ≡ pointer_where is_not_null (part at 8 (bytes_of_pieces v.now)) }
{
    match pointer_at(v, at) {
        Some(p) => { if p.addr == 0 { None } else { Some(Val::Ptr(p)) } }
        None => None,
    }
}

fn ref_at(v: &View<'_>, at: u64, align: u64) -> Option<Val>
    requires some { 0 < align }
    requires inside { at + 8 ≤ length (bytes_of_pieces v.now) }
    ensures { result ≡ pointer_where (is_aligned align) (part at 8 (bytes_of_pieces v.now)) }
{
    match pointer_at(v, at) {
        Some(p) => {
            if p.addr == 0 || p.addr % align != 0 {
                None
            } else {
                Some(Val::Ptr(p))
            }
        }
        None => None,
    }
}

/// The value of the bytes from an offset on at an integer, a bool or a pointer.
#[tactic(auto, using(crate::proofs::DecodeLaws::decode_laws, mr_layout::proofs::SizeLaws::size_laws))]
pub(crate) fn scalar_at(v: &View<'_>, at: u64, t: &Ty) -> Option<Val>
    requires ok { is_ok t.now ≡ true }
    requires scalar { IsTrue (is_scalar t.now) }
    requires inside { at + size_of t.now ≤ length (bytes_of_pieces v.now) }
    ensures { result ≡ decoded t.now (part at (size_of t.now) (bytes_of_pieces v.now)) }
{
    match t {
        Ty::Int(int) => int_at(v, at, *int),
        Ty::Bool => bool_at(v, at),
        Ty::Raw => raw_at(v, at),
        Ty::FnPtr => fn_ptr_at(v, at),
        Ty::Ref { align, never, .. } => { if *never { None } else { ref_at(v, at, *align) } }
        _ => None,
    }
}

/// The value that bytes mean at an integer, a bool or a pointer, and `None` where they mean none.
///
/// It takes no memory.
pub fn decode_scalar(v: &View<'_>, t: &Ty) -> Option<Val>
    requires ok { TypeOk t.now }
    requires scalar { IsTrue (is_scalar t.now) }
    requires sized { length (bytes_of_pieces v.now) ≡ size_of t.now }
    ensures value { result ≡ decoded t.now (bytes_of_pieces v.now) }
    ensures meaning { IfSome result (Means t.now (bytes_of_pieces v.now)) }
    ensures none { IfNone result ((w : Val) → Means t.now (bytes_of_pieces v.now) w → ⊥) }
    ensures shape { IfSome result (λ w. has_shape t.now w ≡ true) }
{
    scalar_at(v, 0, t)
}
