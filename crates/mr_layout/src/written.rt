//! The types that are written in a program.
ghost use Rattle.std.specs.Prelude.{◌≡◌, ◌++◌, [], ◌∷◌, map, OnOk, IfOk};
ghost use Rattle.std.specs.List.{flat_map};
ghost use Rattle.mr_layout.specs.Written.{types_of, types_of_fields, types_of_variants, types_of_place, types_of_value, types_of_values, types_of_result, types_of_stmt, types_of_term, types_of_locals, types_of_block, types_of_function, written_types};

use mr_ast::{Block, Function, Local, OutOfMemory, Place, Program, Stmt, Term, Ty, Value, Variant};
use std::alloc::Global;
use std::marker::Model;

/// Types that stand in a program, in the order in which they were found.
///
/// A contract sees the list of the types.
#[derive(Drop)]
pub struct Found<'a> {
    types: Vec<&'a Ty>,
}

impl<'a> Model for Found<'a> {
    ghost use Rattle.std.specs.Prelude.{List, map};
    ghost use Rattle.mr_ast.specs.declared.types.Ty.{Ty};

    ghost Value = { List Ty };

    ghost use Rattle.mr_ast.specs.contracts.types.Ty as ty;
    ghost use Rattle.std.specs.Coded.{codes};

    ghost coded = { Prim.hlevel (codes, ty.the_row.coded) };

    ghost view = { λ f. map (λ t. t.now) f.types.items };
}

impl<'a> Found<'a> {
    pub(crate) fn new(alloc: Global) -> Found<'a>
        ensures { result ≡ [] }
    {
        Found {
            types: Vec::new(alloc),
        }
    }

    /// All of them.
    pub fn as_slice(&self) -> &[&'a Ty]
        ensures { map (λ t. t.now) result.now ≡ self.now }
    {
        self.types.as_slice()
    }

    fn push(&mut self, t: &'a Ty) -> Result<(), OutOfMemory>
        ensures { OnOk result (self.new ≡ self.old ++ t.now ∷ []) }
    {
        self.types.push(t)?;
        Ok(())
    }
}

// Adds a type and its parts.
#[cycle(add_type)]
#[tactic(auto, using(crate::proofs::WrittenLaws::parts_laws))]
fn add_type<'a>(found: &mut Found<'a>, t: &'a Ty) -> Result<(), OutOfMemory>
    ensures { OnOk result (found.new ≡ found.old ++ types_of t.now) }
{
    found.push(t)?;
    match t {
        Ty::Int(_) | Ty::Bool | Ty::Raw | Ty::FnPtr | Ty::Ref { .. } => {}
        Ty::Tuple { fields, .. } => add_fields(found, fields.as_slice())?,
        Ty::Array { elem, .. } => add_type(found, elem.get())?,
        Ty::Union { fields, .. } => add_fields(found, fields.as_slice())?,
        Ty::Enum { variants, .. } => add_variants(found, variants.as_slice())?,
    }
    Ok(())
}

#[cycle(add_type)]
#[tactic(auto, using(crate::proofs::WrittenLaws::parts_laws))]
fn add_fields<'a>(found: &mut Found<'a>, fields: &'a [(u64, Ty)]) -> Result<(), OutOfMemory>
    ensures { OnOk result (found.new ≡ found.old ++ types_of_fields fields.now) }
{
    for field in fields {
        add_type(found, &field.1)?;
    }
    Ok(())
}

#[cycle(add_type)]
#[tactic(auto, using(crate::proofs::WrittenLaws::parts_laws))]
fn add_variants<'a>(found: &mut Found<'a>, variants: &'a [Variant]) -> Result<(), OutOfMemory>
    ensures { OnOk result (found.new ≡ found.old ++ types_of_variants variants.now) }
{
    for variant in variants {
        add_type(found, &variant.ty)?;
    }
    Ok(())
}

// Adds the types written in a place.
#[cycle(add_expr)]
#[tactic(auto, using(crate::proofs::WrittenLaws::written_laws))]
fn add_place<'a>(found: &mut Found<'a>, place: &'a Place) -> Result<(), OutOfMemory>
    ensures { OnOk result (found.new ≡ found.old ++ types_of_place place.now) }
{
    match place {
        Place::Local(_) => {}
        Place::Deref(pointer, t) => {
            add_value(found, pointer.get())?;
            add_type(found, t)?;
        }
        Place::Field(place, _) => add_place(found, place.get())?,
        Place::Index(place, index) => {
            add_place(found, place.get())?;
            add_value(found, index.get())?;
        }
        Place::Variant(place, _) => add_place(found, place.get())?,
    }
    Ok(())
}

// Adds the types written in a value.
#[cycle(add_expr)]
#[tactic(auto, using(crate::proofs::WrittenLaws::written_laws))]
fn add_value<'a>(found: &mut Found<'a>, value: &'a Value) -> Result<(), OutOfMemory>
    ensures { OnOk result (found.new ≡ found.old ++ types_of_value value.now) }
{
    match value {
        Value::Int(_, _)
        | Value::True
        | Value::False
        | Value::Raw(_)
        | Value::Fn(_)
        | Value::Global(_, _) => Ok(()),
        Value::Tuple(t, values) => add_tuple(found, values.as_slice(), t),
        Value::Union(t, _, value) => add_typed(found, value.get(), t),
        Value::Variant(t, _, value) => add_typed(found, value.get(), t),
        Value::Load(place) => add_place(found, place),
        Value::Disc(place) => add_place(found, place),
        Value::AddrOf(t, place) => add_address(found, place, t),
        Value::Cast(_, value) => add_value(found, value.get()),
        Value::Transmute(t, value) => add_typed(found, value.get(), t),
        Value::Unary(_, value) => add_value(found, value.get()),
        Value::Binary(_, left, right) => {
            add_value(found, left.get())?;
            add_value(found, right.get())
        }
    }
}

// Adds the types written in a tuple's or an array's type and in its parts.
#[cycle(add_expr)]
#[tactic(auto, using(crate::proofs::WrittenLaws::written_laws))]
fn add_tuple<'a>(found: &mut Found<'a>, values: &'a [Value], t: &'a Ty) -> Result<(), OutOfMemory>
    ensures { OnOk result (found.new ≡ found.old ++ (types_of t.now ++ types_of_values values.now)) }
{
    add_type(found, t)?;
    add_values(found, values)
}

// Adds the types written in a type and in a value.
#[cycle(add_expr)]
#[tactic(auto, using(crate::proofs::WrittenLaws::written_laws))]
fn add_typed<'a>(found: &mut Found<'a>, value: &'a Value, t: &'a Ty) -> Result<(), OutOfMemory>
    ensures { OnOk result (found.new ≡ found.old ++ (types_of t.now ++ types_of_value value.now)) }
{
    add_type(found, t)?;
    add_value(found, value)
}

// Adds the types written in an address's type and in its place.
#[cycle(add_expr)]
#[tactic(auto, using(crate::proofs::WrittenLaws::written_laws))]
fn add_address<'a>(found: &mut Found<'a>, place: &'a Place, t: &'a Ty) -> Result<(), OutOfMemory>
    ensures { OnOk result (found.new ≡ found.old ++ (types_of t.now ++ types_of_place place.now)) }
{
    add_type(found, t)?;
    add_place(found, place)
}

#[cycle(add_expr)]
#[tactic(auto, using(crate::proofs::WrittenLaws::written_laws))]
fn add_values<'a>(found: &mut Found<'a>, values: &'a [Value]) -> Result<(), OutOfMemory>
    ensures { OnOk result (found.new ≡ found.old ++ types_of_values values.now) }
{
    for value in values {
        add_value(found, value)?;
    }
    Ok(())
}

#[tactic(auto, using(crate::proofs::WrittenLaws::joins))]
fn add_stmt<'a>(found: &mut Found<'a>, stmt: &'a Stmt) -> Result<(), OutOfMemory>
    ensures { OnOk result (found.new ≡ found.old ++ types_of_stmt stmt.now) }
{
    match stmt {
        Stmt::Live(_) | Stmt::Dead(_) => {}
        Stmt::Assign(place, value) => {
            add_place(found, place)?;
            add_value(found, value)?;
        }
        Stmt::Mention(place) => add_place(found, place)?,
        Stmt::Disc(place, _) => add_place(found, place)?,
        Stmt::Deinit(place) => add_place(found, place)?,
        Stmt::Validate(place) => add_place(found, place)?,
    }
    Ok(())
}

#[tactic(auto, using(crate::proofs::WrittenLaws::joins))]
fn add_result<'a>(found: &mut Found<'a>, place: &'a Option<Place>) -> Result<(), OutOfMemory>
    ensures { OnOk result (found.new ≡ found.old ++ types_of_result place.now) }
{
    if let Some(place) = place {
        add_place(found, place)?;
    }
    Ok(())
}

#[tactic(auto, using(crate::proofs::WrittenLaws::joins))]
fn add_term<'a>(found: &mut Found<'a>, term: &'a Term) -> Result<(), OutOfMemory>
    ensures { OnOk result (found.new ≡ found.old ++ types_of_term term.now) }
{
    match term {
        Term::Goto(_)
        | Term::Unreachable
        | Term::Return
        | Term::Exit
        | Term::Abort
        | Term::Resume
        | Term::Stop(_) => {}
        Term::Switch(value, _, _) => add_value(found, value)?,
        Term::Unwind(payload, _) => add_value(found, payload)?,
        Term::Call(callee, args, place, _, _) => {
            add_value(found, callee)?;
            add_values(found, args.as_slice())?;
            add_place(found, place)?;
        }
        Term::Do(_, args, place, _) => {
            add_values(found, args.as_slice())?;
            add_result(found, place)?;
        }
    }
    Ok(())
}

#[tactic(auto, using(crate::proofs::WrittenLaws::joins))]
fn add_block<'a>(found: &mut Found<'a>, block: &'a Block) -> Result<(), OutOfMemory>
    ensures { OnOk result (found.new ≡ found.old ++ types_of_block block.now) }
{
    for stmt in block.stmts.as_slice() {
        add_stmt(found, stmt)?;
    }
    add_term(found, &block.term)
}

#[tactic(auto, using(crate::proofs::WrittenLaws::joins))]
fn add_locals<'a>(found: &mut Found<'a>, locals: &'a [Local]) -> Result<(), OutOfMemory>
    ensures { OnOk result (found.new ≡ found.old ++ types_of_locals locals.now) }
{
    for local in locals {
        add_type(found, &local.ty)?;
    }
    Ok(())
}

#[tactic(auto, using(crate::proofs::WrittenLaws::joins))]
fn add_function<'a>(found: &mut Found<'a>, function: &'a Function) -> Result<(), OutOfMemory>
    ensures { OnOk result (found.new ≡ found.old ++ types_of_function function.now) }
{
    add_locals(found, function.locals.as_slice())?;
    for block in function.blocks.as_slice() {
        add_block(found, block)?;
    }
    Ok(())
}

/// The types written in a program, with their parts. One that is written twice is found twice.
#[tactic(auto, unfolding(crate::specs::Written::written_types))]
pub fn find_types<'a>(alloc: Global, p: &'a Program) -> Result<Found<'a>, OutOfMemory>
    ensures { IfOk result (λ found. found ≡ written_types p.now) }
{
    let mut found = Found::new(alloc);
    for function in p.functions.as_slice() {
        add_function(&mut found, function)?;
    }
    Ok(found)
}
