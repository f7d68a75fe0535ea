//! The types that intrinsics take and give.
ghost use Rattle.std.specs.Prelude.{◌≡◌, ◌≤◌, ◌&&◌, [], ◌∷◌, length, map};
ghost use Rattle.std.specs.Option.{option_map};
ghost use Rattle.std.specs.List.{list_all};
ghost use Rattle.mr_typing.specs.Known.{ty_of};
ghost use Rattle.mr_typing.specs.Operands.{is_int, is_raw, is_scalar_number};
ghost use Rattle.mr_typing.specs.Intrinsics.{fits_intrinsic, gives, is_atomic, is_print};

use mr_ast::{IntType, Intrinsic};
use mr_layout::int_bytes;
use mr_typing::Known;

// An integer of at most eight bytes.
fn is_atomic(t: Known<'_>) -> bool
    ensures { result ≡ is_atomic (ty_of t.entry) }
{
    match t.integer() {
        Some(i) => int_bytes(i) <= 8,
        None => false,
    }
}

// Whether the place for the result has this type.
fn gives(wanted: Known<'_>, place: Option<Known<'_>>) -> bool
    ensures { result ≡ gives (ty_of wanted.entry) (option_map ty_of place.entry) }
{
    match place {
        Some(t) => t.same(wanted),
        None => false,
    }
}

fn is_int(int: IntType, t: Known<'_>) -> bool
    ensures { result ≡ is_int int (ty_of t.entry) }
{
    t.same(Known::Int(int))
}

fn are_printed(args: &[Known<'_>]) -> bool
    ensures { result ≡ list_all is_scalar_number (map ty_of args.now) }
{
    for t in args {
        if !t.is_scalar_number() {
            return false;
        }
    }
    true
}

// A pointer to an atomic integer, and an operand of that type, which is given back.
fn fits_fetch(pointer: Known<'_>, by: Known<'_>, place: Option<Known<'_>>) -> bool
    ensures { result ≡ (is_raw (ty_of pointer.entry)
        && (is_atomic (ty_of by.entry) && gives (ty_of by.entry) (option_map ty_of place.entry))) }
{
    pointer.is_raw() && is_atomic(by) && gives(by, place)
}

// Whether an intrinsic takes one argument of this type.
fn fits_one(op: Intrinsic, t: Known<'_>, place: Option<Known<'_>>) -> bool
    ensures { result ≡ fits_intrinsic op (ty_of t.entry ∷ []) (option_map ty_of place.entry) }
{
    match op {
        Intrinsic::Assume => t.is_bool() && place.is_none(),
        Intrinsic::Print => t.is_scalar_number() && place.is_none(),
        Intrinsic::Join | Intrinsic::Acquire | Intrinsic::Release => {
            is_int(IntType::U32, t) && place.is_none()
        }
        Intrinsic::AtomicLoad => match place {
            Some(given) => t.is_raw() && is_atomic(given),
            None => false,
        },
        _ => false,
    }
}

// The same of two arguments.
fn fits_two(op: Intrinsic, a: Known<'_>, b: Known<'_>, place: Option<Known<'_>>) -> bool
    ensures { result ≡ fits_intrinsic op (ty_of a.entry ∷ ty_of b.entry ∷ []) (option_map ty_of place.entry) }
{
    match op {
        Intrinsic::Print => a.is_scalar_number() && b.is_scalar_number() && place.is_none(),
        Intrinsic::Allocate => {
            is_int(IntType::U64, a) && is_int(IntType::U64, b) && gives(Known::Raw, place)
        }
        Intrinsic::Spawn => a.is_fn_ptr() && b.is_raw() && gives(Known::Int(IntType::U32), place),
        Intrinsic::AtomicStore => a.is_raw() && is_atomic(b) && place.is_none(),
        Intrinsic::FetchAdd
        | Intrinsic::FetchSub
        | Intrinsic::FetchAnd
        | Intrinsic::FetchOr
        | Intrinsic::FetchXor => fits_fetch(a, b, place),
        _ => false,
    }
}

// The same of three arguments.
fn fits_three(
    op: Intrinsic,
    a: Known<'_>,
    b: Known<'_>,
    c: Known<'_>,
    place: Option<Known<'_>>,
) -> bool
    ensures { result
        ≡ fits_intrinsic op (ty_of a.entry ∷ ty_of b.entry ∷ ty_of c.entry ∷ []) (option_map ty_of place.entry) }
{
    match op {
        Intrinsic::Print => {
            a.is_scalar_number() && b.is_scalar_number() && c.is_scalar_number() && place.is_none()
        }
        Intrinsic::Deallocate => {
            a.is_raw() && is_int(IntType::U64, b) && is_int(IntType::U64, c) && place.is_none()
        }
        Intrinsic::CompareExchange => { a.is_raw() && is_atomic(b) && c.same(b) && gives(b, place) }
        _ => false,
    }
}

// The same without an argument.
fn fits_none(op: Intrinsic, place: Option<Known<'_>>) -> bool
    ensures { result ≡ fits_intrinsic op [] (option_map ty_of place.entry) }
{
    match op {
        Intrinsic::Print => place.is_none(),
        Intrinsic::CreateLock => gives(Known::Int(IntType::U32), place),
        Intrinsic::Payload => gives(Known::Raw, place),
        _ => false,
    }
}

fn is_print(op: Intrinsic) -> bool
    ensures { result ≡ is_print op }
{
    match op {
        Intrinsic::Print => true,
        _ => false,
    }
}

// The same of four arguments or more.
#[tactic(auto, using(crate::proofs::IntrinsicLaws::many_arguments))]
fn fits_many(op: Intrinsic, args: &[Known<'_>], place: Option<Known<'_>>) -> bool
    requires { 4 ≤ length args.now }
    ensures { result ≡ fits_intrinsic op (map ty_of args.now) (option_map ty_of place.entry) }
{
    is_print(op) && are_printed(args) && place.is_none()
}

/// Whether an intrinsic takes arguments of these types and gives what the place for a result takes.
pub fn fits_intrinsic(op: Intrinsic, args: &[Known<'_>], place: Option<Known<'_>>) -> bool
    ensures { result ≡ fits_intrinsic op (map ty_of args.now) (option_map ty_of place.entry) }
{
    match args {
        [] => fits_none(op, place),
        [a] => fits_one(op, *a, place),
        [a, b] => fits_two(op, *a, *b, place),
        [a, b, c] => fits_three(op, *a, *b, *c, place),
        [_, _, _, _, ..] => fits_many(op, args, place),
    }
}
