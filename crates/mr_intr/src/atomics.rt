//! Atomic accesses to integers.
ghost use Rattle.std.specs.Prelude.{◌≡◌, ℕ, ◌*◌, ◌<◌, ◌^◌, List, Option, Some, None, Ok, IfOk, MatchResult, length, option_copied};
ghost use Rattle.mr_ast.specs.Integers.{bits_of, int_size};
ghost use Rattle.mr_ast.specs.declared.program.Intrinsic.TheVariants as intrinsic;
ghost use Rattle.mr_ast.specs.declared.types.Ty.{Ty};
ghost use Rattle.mr_eval.specs.Answers.{seen};
ghost use Rattle.mr_eval.specs.Environment.{Leaves, Tells};
ghost use Rattle.mr_eval.specs.MemoryQueries.{Modify, memory_answer};
ghost use Rattle.mr_eval.specs.World.{world_of};
ghost use Rattle.mr_eval.specs.Arith.{arith_of};
ghost use Rattle.mr_runs.specs.Pieces.{bytes_of_pieces};
ghost use Rattle.mr_value.specs.Numbers.{number_of};
ghost use Rattle.mr_intr.specs.Atomics.{IsFetch, numbered, number_read, number_written};
ghost use Rattle.mr_intr.specs.Effects.{ChangesMemory, CanTake, Fits, FitsPlace};
ghost use Rattle.mr_intr.specs.Operations.{exchanged, fetched};

use crate::args::{bits_at, integer_of, pointer_at};
use crate::effect::Effect;
use mr_ast::{IntType, Intrinsic, Ty};
use mr_base::{Pointer, Reaching, Reason};
use mr_eval::{ArithOp, Fault, Notes, Plain, Scene, arith, store_scalar};
use mr_layout::{align, int_bytes};
use mr_mem::Memory;
use mr_runs::View;
use mr_value::{Val, bits_in, decode_scalar, encode_scalar};

// The number that lent bytes are.
#[tactic(auto, using(crate::proofs::AtomicLaws::number_laws))]
fn number_in(view: &View<'_>, int: IntType) -> Result<u128, Reason>
    requires { length (bytes_of_pieces view.now) ≡ int_size int }
    ensures told { result ≡ numbered (number_of (bytes_of_pieces view.now)) }
    ensures small { IfOk result (λ n. n < 2 ^ (8 * int_size int)) }
{
    match decode_scalar(view, &Ty::Int(int)) {
        Some(v) => Ok(bits_in(&v)),
        None => Err(Reason::InvalidValue),
    }
}

// The atomic load of an integer.
fn load_number(
    m: &Memory,
    notes: &mut Notes,
    doing: Reaching,
    p: Pointer,
    int: IntType,
) -> Result<u128, Fault>
    ensures told { Tells result (number_read m.now doing p (int_size int) (seen notes.old))
        (seen notes.new) notes.new.refused }
    ensures small { IfOk result (λ n. n < 2 ^ (8 * int_size int)) }
{
    let size = int_bytes(int);
    match m.load(p, size, size) {
        Err(reason) => {
            notes.refuse(doing, p, size);
            Err(Fault::Undefined(reason))
        }
        Ok(view) => {
            notes.touch(p, size)?;
            notes.access(false, true, p, size)?;
            match number_in(&view, int) {
                Ok(n) => Ok(n),
                Err(reason) => {
                    notes.refuse(doing, p, size);
                    Err(Fault::Undefined(reason))
                }
            }
        }
    }
}

// The atomic store of an integer whose range was checked.
#[tactic(auto, using(crate::proofs::AtomicLaws::number_laws))]
fn store_number(
    m: &mut Memory,
    notes: &mut Notes,
    p: Pointer,
    int: IntType,
    n: u128,
) -> Result<(), Fault>
    requires { n < 2 ^ (8 * int_size int) }
    ensures { Leaves result (number_written m.old p (int_size int) n (seen notes.old)) m.new
        (seen notes.new) notes.new.refused }
{
    let size = int_bytes(int);
    let bytes = encode_scalar(&Val::Int(n), &Ty::Int(int));
    notes.access(true, true, p, size)?;
    match m.store_numbers(p, bytes.numbers(), bytes.provenance, size) {
        Ok(()) => Ok(()),
        Err(fault) => {
            notes.refuse(Reaching::Changes, p, size);
            Err(fault)
        }
    }
}

// The number at a place, which another one replaces where it is the one that was expected.
fn exchange(
    s: &mut Scene,
    p: Pointer,
    int: IntType,
    expected: u128,
    new: u128,
) -> Result<u128, Fault>
    requires { new < 2 ^ (8 * int_size int) }
    ensures told { Tells result (memory_answer (Modify p (int_size int) (exchanged expected new)) (world_of s.old))
        (world_of s.new) s.new.notes.refused }
    ensures small { IfOk result (λ n. n < 2 ^ (8 * int_size int)) }
{
    let found = load_number(&s.memory, &mut s.notes, Reaching::Changes, p, int)?;
    if found == expected {
        store_number(&mut s.memory, &mut s.notes, p, int, new)?;
    }
    Ok(found)
}

// What an operator gives that is never undefined.
fn computed(op: ArithOp, int: IntType, a: u128, b: u128) -> u128
    requires left { a < 2 ^ bits_of int }
    requires right { b < 2 ^ bits_of int }
    requires defined { (n : ℕ) × (arith_of op int a b ≡ Ok n) }
    ensures { arith_of op int a b ≡ Ok result }
{
    match arith(op, int, a, b) {
        Ok(n) => n,
        Err(_) => unreachable!(),
    }
}

// The number behind a fetch, which wraps.
fn fetched(op: Intrinsic, int: IntType, by: u128, found: u128) -> u128
    requires op { IsFetch op }
    requires by { by < 2 ^ (8 * int_size int) }
    requires found { found < 2 ^ (8 * int_size int) }
    ensures told { fetched op int by found ≡ Some result }
    ensures small { result < 2 ^ (8 * int_size int) }
{
    match op {
        Intrinsic::FetchAdd => computed(ArithOp::Add, int, found, by),
        Intrinsic::FetchSub => computed(ArithOp::Sub, int, found, by),
        Intrinsic::FetchAnd => computed(ArithOp::And, int, found, by),
        Intrinsic::FetchOr => computed(ArithOp::Or, int, found, by),
        Intrinsic::FetchXor => computed(ArithOp::Xor, int, found, by),
        _ => unreachable!(),
    }
}

// The number at a place, which the one behind the fetch replaces.
fn replace(s: &mut Scene, op: Intrinsic, p: Pointer, int: IntType, by: u128) -> Result<u128, Fault>
    requires op { IsFetch op }
    requires by { by < 2 ^ (8 * int_size int) }
    ensures told { Tells result (memory_answer (Modify p (int_size int) (fetched op int by)) (world_of s.old))
        (world_of s.new) s.new.notes.refused }
    ensures small { IfOk result (λ n. n < 2 ^ (8 * int_size int)) }
{
    let found = load_number(&s.memory, &mut s.notes, Reaching::Changes, p, int)?;
    let new = fetched(op, int, by, found);
    store_number(&mut s.memory, &mut s.notes, p, int, new)?;
    Ok(found)
}

/// The atomic load of an integer of the type of the place for it.
pub fn atomic_load(args: &[Val], place: Option<&Plain>, s: &mut Scene) -> Result<Effect, Fault>
    requires { (types : List Ty) × Fits intrinsic.AtomicLoad args.now types (option_copied place) }
    ensures done { (types : List Ty) (picks : List ℕ)
        → ChangesMemory intrinsic.AtomicLoad result args.now types (option_copied place.entry) picks s.old s.new }
    ensures value { IfOk result (λ e. FitsPlace (option_copied place.entry) e.value) }
{
    let n = load_number(
        &s.memory,
        &mut s.notes,
        Reaching::Loads,
        pointer_at(args, 0),
        integer_of(place),
    )?;
    Ok(Effect::quiet(Some(Val::Int(n))))
}

/// The atomic store of an integer.
pub fn atomic_store(args: &[Val], types: &[Plain], s: &mut Scene) -> Result<Effect, Fault>
    requires { (place : Option Ty) × Fits intrinsic.AtomicStore args.now types.now place }
    ensures done { (place : Option Ty) (picks : List ℕ)
        → ChangesMemory intrinsic.AtomicStore result args.now types.now place picks s.old s.new }
    ensures value { IfOk result (λ e. FitsPlace None e.value) }
{
    let p = pointer_at(args, 0);
    let t = types[1].ty();
    let bytes = encode_scalar(&args[1], &t);
    store_scalar(&mut s.memory, &mut s.notes, true, p, &bytes, align(&t))?;
    Ok(Effect::quiet(None))
}

/// The number at a place, which another one replaces where it is the one that was expected.
pub fn compare_exchange(args: &[Val], place: Option<&Plain>, s: &mut Scene) -> Result<Effect, Fault>
    requires { (types : List Ty) × Fits intrinsic.CompareExchange args.now types (option_copied place) }
    ensures done { (types : List Ty) (picks : List ℕ)
        → ChangesMemory intrinsic.CompareExchange result args.now types (option_copied place.entry) picks s.old s.new }
    ensures value { IfOk result (λ e. FitsPlace (option_copied place.entry) e.value) }
{
    let p = pointer_at(args, 0);
    let expected = bits_at(args, 1);
    let new = bits_at(args, 2);
    let found = exchange(s, p, integer_of(place), expected, new)?;
    Ok(Effect::quiet(Some(Val::Int(found))))
}

/// The number at a place, which is changed by an operator that wraps.
pub fn fetch(
    op: Intrinsic,
    args: &[Val],
    place: Option<&Plain>,
    s: &mut Scene,
) -> Result<Effect, Fault>
    requires op { IsFetch op }
    requires fits { (types : List Ty) × Fits op args.now types (option_copied place) }
    ensures done { (types : List Ty) (picks : List ℕ)
        → ChangesMemory op result args.now types (option_copied place.entry) picks s.old s.new }
    ensures value { IfOk result (λ e. FitsPlace (option_copied place.entry) e.value) }
{
    let p = pointer_at(args, 0);
    let by = bits_at(args, 1);
    let found = replace(s, op, p, integer_of(place), by)?;
    Ok(Effect::quiet(Some(Val::Int(found))))
}
