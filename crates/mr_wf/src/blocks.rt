//! The rules of statements, of terminators and of the kinds of blocks.
ghost use Rattle.std.specs.Prelude.{◌≡◌, ◌==◌, Ok, map};
ghost use Rattle.std.specs.Option.{option_map};
ghost use Rattle.std.specs.List.{list_all, list_any};
ghost use Rattle.mr_typing.specs.Blocks.{are_bool_cases, are_int_cases, call_unwinds_to, fits_switch, goes_to, is_allowed, is_kept, unwinds_to, where_there};
ghost use Rattle.mr_typing.specs.JudgingBlocks.{judged_call, judged_intrinsic, judged_parts, judged_result, judged_stmt, judged_term};
ghost use Rattle.mr_typing.specs.Known.{ty_of};
ghost use Rattle.mr_wf.specs.Gives.{Gives, surroundings_of};

use crate::alike::{takes, variant_at};
use crate::fault::Broken;
use crate::intrinsics::fits_intrinsic;
use crate::judging::{Surroundings, judged_place, judged_value, judged_values, kept};
use crate::seen::Seen;
use mr_ast::{
    BlockKind, BlockName, Function, IntType, Intrinsic, LocalName, Num, Place, Rule, Stmt, Term,
    Value,
};
use mr_layout::{is_case, is_fitting};
use mr_typing::Known;
use std::alloc::Global;

/// Whether a local is one of these.
pub fn is_among(x: LocalName, names: &[LocalName]) -> bool
    ensures { result ≡ list_any (λ y. y.0 == x.0) names.now }
{
    for name in names {
        if name.0 == x.0 {
            return true;
        }
    }
    false
}

// Whether a local is an argument of the function, or the one that it returns.
fn is_kept(f: &Function, x: LocalName) -> bool
    ensures { result ≡ is_kept f.now x }
{
    x == f.ret || is_among(x, f.args.as_slice())
}

/// The first rule that a statement breaks.
pub fn judged_stmt(
    alloc: Global,
    f: &Function,
    at: Surroundings<'_>,
    stmt: &Stmt,
) -> Result<(), Broken>
    ensures { Gives (λ u. u) result (judged_stmt f.now (surroundings_of at.entry) stmt.now) }
{
    match stmt {
        Stmt::Live(x) | Stmt::Dead(x) => kept(Rule::LiveLocal, !is_kept(f, *x)),
        Stmt::Assign(place, value) => {
            let t = judged_place(alloc, at, place)?;
            let u = judged_value(alloc, at, value)?;
            kept(Rule::Assign, takes(at, place, value, t, u))
        }
        Stmt::Disc(place, number) => {
            let t = judged_place(alloc, at, place)?;
            kept(
                Rule::Discriminant,
                variant_at(at, place, t, *number).is_some(),
            )
        }
        Stmt::Mention(place) | Stmt::Deinit(place) | Stmt::Validate(place) => {
            judged_place(alloc, at, place)?;
            Ok(())
        }
    }
}

// ---- switches

// Whether each case fits the integer, and stands once: from the last one on, each is no number behind it.
#[tactic(auto, using(crate::proofs::SwitchLaws::case_unfit, crate::proofs::SwitchLaws::case_again))]
fn are_int_cases(alloc: Global, int: IntType, cases: &[(Num, BlockName)]) -> Result<bool, Broken>
    ensures { Gives (λ b. b) result (Ok (are_int_cases int cases.now)) }
{
    let mut seen = Seen::new(alloc);
    for i in (0..cases.len()).rev() {
        let number = cases[i].0;
        if !is_fitting(int, number) {
            return Ok(false);
        }
        if !seen.add(number)? {
            return Ok(false);
        }
    }
    Ok(true)
}

// Whether each case is 0 or 1, and stands once. The third one is no such case.
fn are_bool_cases(cases: &[(Num, BlockName)]) -> bool
    ensures { result ≡ are_bool_cases cases.now }
{
    match cases {
        [first, rest @ ..] => {
            !first.0.neg && first.0.mag <= 1 && !is_case(first.0, rest) && are_bool_cases(rest)
        }
        [] => true,
    }
}

#[tactic(auto, using(crate::proofs::SwitchLaws::switch_on_int, crate::proofs::SwitchLaws::switch_on_other))]
fn fits_switch(alloc: Global, cases: &[(Num, BlockName)], t: Known<'_>) -> Result<bool, Broken>
    ensures { Gives (λ b. b) result (Ok (fits_switch cases.now (ty_of t.entry))) }
{
    match t.integer() {
        Some(int) => are_int_cases(alloc, int, cases),
        None => Ok(t.is_bool() && are_bool_cases(cases)),
    }
}

// ---- kinds of blocks

// Where a block of a kind goes on: to a block of its own kind.
fn goes_to(f: &Function, kind: BlockKind, b: BlockName) -> bool
    ensures { result ≡ goes_to f.now kind b }
{
    match f.blocks.as_slice().get(b.0 as usize) {
        Some(block) => kind == block.kind,
        None => false,
    }
}

// Where unwinding leads from a regular block: to any but a regular one.
fn unwinds_to(f: &Function, b: BlockName) -> bool
    ensures { result ≡ unwinds_to f.now b }
{
    match f.blocks.as_slice().get(b.0 as usize) {
        Some(block) => block.kind != BlockKind::Regular,
        None => false,
    }
}

fn goes_to_all(f: &Function, kind: BlockKind, cases: &[(Num, BlockName)]) -> bool
    ensures { result ≡ list_all (λ c. goes_to f.now kind c.1) cases.now }
{
    cases.iter().all(|c| goes_to(f, kind, c.1))
}

// Where a call goes on, where it does.
fn may_return_to(f: &Function, kind: BlockKind, b: Option<BlockName>) -> bool
    ensures { result ≡ where_there (goes_to f.now kind) b }
{
    match b {
        Some(b) => goes_to(f, kind, b),
        None => true,
    }
}

// Where a call unwinds to, where it does.
fn may_unwind_to(f: &Function, kind: BlockKind, b: Option<BlockName>) -> bool
    ensures { result ≡ where_there (call_unwinds_to f.now kind) b }
{
    match (kind, b) {
        (_, None) => true,
        (BlockKind::Regular, Some(b)) => unwinds_to(f, b),
        (_, Some(b)) => goes_to(f, BlockKind::Terminate, b),
    }
}

// Whether a block of this kind may end so.
fn is_allowed(f: &Function, kind: BlockKind, term: &Term) -> bool
    ensures { result ≡ is_allowed f.now kind term.now }
{
    match term {
        Term::Goto(b) | Term::Do(_, _, _, b) => goes_to(f, kind, *b),
        Term::Switch(_, cases, other) => {
            goes_to_all(f, kind, cases.as_slice()) && goes_to(f, kind, *other)
        }
        Term::Unreachable | Term::Exit | Term::Abort => true,
        Term::Return => kind == BlockKind::Regular,
        Term::Resume => kind == BlockKind::Cleanup,
        Term::Stop(b) => kind == BlockKind::Catch && goes_to(f, BlockKind::Regular, *b),
        Term::Unwind(_, b) => kind == BlockKind::Regular && unwinds_to(f, *b),
        Term::Call(_, _, _, next, unwind) => {
            may_return_to(f, kind, *next) && may_unwind_to(f, kind, *unwind)
        }
    }
}

// ---- terminators

// The type of the place of a result.
fn judged_result<'p>(
    alloc: Global,
    at: Surroundings<'p>,
    place: &'p Option<Place>,
) -> Result<Option<Known<'p>>, Broken>
    ensures { Gives (option_map ty_of) result (judged_result (surroundings_of at.entry) place.now) }
{
    match place {
        Some(place) => Ok(Some(Known::Written(judged_place(alloc, at, place)?))),
        None => Ok(None),
    }
}

fn judged_call(
    alloc: Global,
    at: Surroundings<'_>,
    callee: &Value,
    args: &[Value],
    place: &Place,
) -> Result<(), Broken>
    ensures { Gives (λ u. u) result (judged_call (surroundings_of at.entry) callee.now args.now place.now) }
{
    let t = judged_value(alloc, at, callee)?;
    judged_values(alloc, at, args)?;
    judged_place(alloc, at, place)?;
    kept(Rule::Callee, t.is_fn_ptr())
}

fn judged_intrinsic(
    alloc: Global,
    at: Surroundings<'_>,
    op: Intrinsic,
    args: &[Value],
    place: &Option<Place>,
) -> Result<(), Broken>
    ensures { Gives (λ u. u) result (judged_intrinsic (surroundings_of at.entry) op args.now place.now) }
{
    let types = judged_values(alloc, at, args)?;
    let given = judged_result(alloc, at, place)?;
    kept(Rule::Intrinsic, fits_intrinsic(op, types.as_slice(), given))
}

// The first rule that a terminator breaks beside that of kinds.
fn judged_parts(alloc: Global, at: Surroundings<'_>, term: &Term) -> Result<(), Broken>
    ensures { Gives (λ u. u) result (judged_parts (surroundings_of at.entry) term.now) }
{
    match term {
        Term::Switch(value, cases, _) => {
            let t = judged_value(alloc, at, value)?;
            kept(Rule::Switch, fits_switch(alloc, cases.as_slice(), t)?)
        }
        Term::Unwind(payload, _) => {
            let t = judged_value(alloc, at, payload)?;
            kept(Rule::Payload, t.is_raw())
        }
        Term::Call(callee, args, place, _, _) => {
            judged_call(alloc, at, callee, args.as_slice(), place)
        }
        Term::Do(op, args, place, _) => judged_intrinsic(alloc, at, *op, args.as_slice(), place),
        _ => Ok(()),
    }
}

/// The first rule that a terminator of a block of this kind breaks.
pub fn judged_term(
    alloc: Global,
    f: &Function,
    at: Surroundings<'_>,
    kind: BlockKind,
    term: &Term,
) -> Result<(), Broken>
    ensures { Gives (λ u. u) result (judged_term f.now (surroundings_of at.entry) kind term.now) }
{
    judged_parts(alloc, at, term)?;
    kept(Rule::BlockKind, is_allowed(f, kind, term))
}
