//! What statements change in memory.
ghost use Rattle.std.specs.Prelude.{◌≡◌, ℕ, ◌++◌, OnOk, false, true};
ghost use Rattle.mr_ast.specs.declared.types.Ty.{Ty};
ghost use Rattle.mr_ast.specs.declared.program.Stmt.TheVariants as stmt;
ghost use Rattle.mr_layout.specs.EnumRules.{are_tags};
ghost use Rattle.mr_ast.specs.Integers.{is_fitting};
ghost use Rattle.mr_eval.specs.Answers.{seen};
ghost use Rattle.mr_eval.specs.Environment.{Leaves, env_surround};
ghost use Rattle.mr_eval.specs.Moves.{behind};
ghost use Rattle.mr_eval.specs.Stores.{storing};
ghost use Rattle.mr_value.specs.Encode.{tag_bytes};
ghost use Rattle.mr_frame.specs.Changes.{IsChange};
ghost use Rattle.mr_frame.specs.Effects.{assigned, changed, deinited, discriminated, mentioned, tagged, validated};
ghost use Rattle.mr_frame.specs.Inside.{StmtIn};

use crate::types::{byte_align, byte_size, type_at};
use mr_ast::{Num, Place, Stmt, Tag, Ty, Value};
use mr_base::{AbstractByte, Pointer};
use mr_eval::{
    Env, Fault, Notes, behind, load_typed, place, store_bytes, store_typed, store_uninit, value,
};
use mr_mem::Memory;
use mr_typing::tags;
use mr_value::{OutOfMemory, Val, bits_of_number, encode};
use std::alloc::Global;

/// The change that a statement makes to memory.
pub fn change(
    alloc: Global,
    e: &Env<'_>,
    m: &mut Memory,
    n: &mut Notes,
    s: &Stmt,
) -> Result<(), Fault>
    requires inside { StmtIn e.now s.now }
    requires kind { IsChange s.now }
    ensures { Leaves result (changed m.old (env_surround e.now) s.now (seen n.old)) m.new (seen n.new) n.new.refused }
{
    match s {
        Stmt::Assign(to, from) => assign(alloc, e, m, n, to, from),
        Stmt::Mention(at) => mention(alloc, e, m, n, at),
        Stmt::Disc(at, number) => set_discriminant(alloc, e, m, n, at, *number),
        Stmt::Deinit(at) => deinit(alloc, e, m, n, at),
        Stmt::Validate(at) => validate(alloc, e, m, n, at),
        Stmt::Live(_) | Stmt::Dead(_) => unreachable!(),
    }
}

// The place, the value, and the store.
#[tactic(auto, unfolding(crate::specs::Effects::assigned), using(crate::proofs::InsideLaws::stmt_laws))]
fn assign<'a>(
    alloc: Global,
    e: &Env<'a>,
    m: &mut Memory,
    n: &mut Notes,
    to: &'a Place,
    from: &'a Value,
) -> Result<(), Fault>
    requires { StmtIn e.now (stmt.Assign to.now from.now) }
    ensures { Leaves result (assigned m.old (env_surround e.now) to.now from.now (seen n.old)) m.new
        (seen n.new) n.new.refused }
{
    let p = place(alloc, e, m, n, to)?;
    let v = value(alloc, e, m, n, from)?;
    store_typed(alloc, e, m, n, p, type_at(e, to), &v)
}

// The place.
#[tactic(auto, unfolding(crate::specs::Effects::mentioned), using(crate::proofs::InsideLaws::stmt_laws))]
fn mention(
    alloc: Global,
    e: &Env<'_>,
    m: &mut Memory,
    n: &mut Notes,
    at: &Place,
) -> Result<(), Fault>
    requires { StmtIn e.now (stmt.Mention at.now) }
    ensures { Leaves result (mentioned m.old (env_surround e.now) at.now (seen n.old)) m.new
        (seen n.new) n.new.refused }
{
    place(alloc, e, m, n, at)?;
    Ok(())
}

// The place, the load, and the store of the same value.
#[tactic(auto, unfolding(crate::specs::Effects::validated), using(crate::proofs::InsideLaws::stmt_laws))]
fn validate<'a>(
    alloc: Global,
    e: &Env<'a>,
    m: &mut Memory,
    n: &mut Notes,
    at: &'a Place,
) -> Result<(), Fault>
    requires { StmtIn e.now (stmt.Validate at.now) }
    ensures { Leaves result (validated m.old (env_surround e.now) at.now (seen n.old)) m.new
        (seen n.new) n.new.refused }
{
    let p = place(alloc, e, m, n, at)?;
    let t = type_at(e, at);
    let v = load_typed(alloc, e, m, n, p, t)?;
    store_typed(alloc, e, m, n, p, t, &v)
}

// The place, and its bytes become uninitialised.
#[tactic(auto, unfolding(crate::specs::Effects::deinited), using(crate::proofs::InsideLaws::stmt_laws))]
fn deinit<'a>(
    alloc: Global,
    e: &Env<'a>,
    m: &mut Memory,
    n: &mut Notes,
    at: &'a Place,
) -> Result<(), Fault>
    requires { StmtIn e.now (stmt.Deinit at.now) }
    ensures { Leaves result (deinited m.old (env_surround e.now) at.now (seen n.old)) m.new (seen n.new) n.new.refused }
{
    let p = place(alloc, e, m, n, at)?;
    let t = type_at(e, at);
    store_uninit(m, n, p, byte_size(e.cache, t), byte_align(e.cache, t))
}

// The place, and the tags of the variant with the number.
#[tactic(auto, unfolding(crate::specs::Effects::discriminated), using(crate::proofs::InsideLaws::stmt_laws))]
fn set_discriminant<'a>(
    alloc: Global,
    e: &Env<'a>,
    m: &mut Memory,
    n: &mut Notes,
    at: &'a Place,
    number: Num,
) -> Result<(), Fault>
    requires { StmtIn e.now (stmt.Disc at.now number) }
    ensures { Leaves result (discriminated m.old (env_surround e.now) at.now number (seen n.old)) m.new
        (seen n.new) n.new.refused }
{
    let p = place(alloc, e, m, n, at)?;
    match tags(type_at(e, at), number) {
        Some(tags) => write_tags(alloc, m, n, p, tags),
        None => unreachable!(),
    }
}

// Each tag, in written order.
fn write_tags(
    alloc: Global,
    m: &mut Memory,
    n: &mut Notes,
    p: Pointer,
    tags: &[Tag],
) -> Result<(), Fault>
    requires { (size : ℕ) × (t : Ty) × (are_tags size t tags.now ≡ true) }
    ensures { Leaves result (tagged m.old p tags.now (seen n.old)) m.new (seen n.new) n.new.refused }
{
    for tag in tags {
        write_tag(alloc, m, n, p, tag)?;
    }
    Ok(())
}

// Appends the bytes of a tag's number.
#[tactic(auto, using(crate::proofs::TagLaws::tag_laws))]
fn encode_tag(alloc: Global, tag: &Tag, out: &mut Vec<AbstractByte>) -> Result<(), OutOfMemory>
    requires { is_fitting tag.now.int tag.now.number ≡ true }
    ensures { OnOk result (out.new.items ≡ out.old.items ++ tag_bytes tag.now) }
{
    let number = Val::Int(bits_of_number(tag.int, tag.number));
    encode(alloc, &number, &Ty::Int(tag.int), out)
}

// A tag, at its offset.
#[tactic(auto, using(crate::proofs::TagLaws::tag_laws))]
fn write_tag(
    alloc: Global,
    m: &mut Memory,
    n: &mut Notes,
    p: Pointer,
    tag: &Tag,
) -> Result<(), Fault>
    requires { is_fitting tag.now.int tag.now.number ≡ true }
    ensures { Leaves result (storing m.old false (behind p tag.now.at) (tag_bytes tag.now) 1 (seen n.old)) m.new
        (seen n.new) n.new.refused }
{
    let mut bytes = Vec::new(alloc);
    encode_tag(alloc, tag, &mut bytes)?;
    store_bytes(m, n, false, behind(p, tag.at), bytes.as_slice(), 1)
}
