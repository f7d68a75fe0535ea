//! Types as keys of a table: which are equal, and what is written of them into a hasher.
ghost use Rattle.std.specs.Prelude.{◌≡◌, fold};
ghost use Rattle.std.specs.Cmp.{decided, partial_equiv_from_equiv};
ghost use Rattle.std.specs.Hash as fed;
ghost use Rattle.std.specs.Hash.{same_Alike};
ghost use Rattle.mr_ast.specs.Equal.{equal_types, equal_types_decides};
ghost use Rattle.mr_ast.specs.Hashed.{truth_number, int_writes, num_writes, tag_writes, chunk_writes, tree_writes, case_writes, head_writes, type_writes, field_writes, variant_writes};

use crate::types::{IntType, Num, Tag, Tree, Ty, Variant};
use std::hash::{Hash, Hasher};

/// Whether the two types are equal, as `Ty::same` answers.
impl PartialEq for Ty {
    ghost eq = { equal_types };

    ghost laws = { partial_equiv_from_equiv (decided equal_types equal_types_decides) };

    fn eq(&self, other: &Ty) -> bool {
        self.same(other)
    }
}

impl Eq for Ty {
    ghost laws = { decided equal_types equal_types_decides };
}

/// All of a type is written into the hasher.
impl Hash for Ty {
    ghost hash_input = { type_writes };

    ghost respects_eq = { (same_Alike type_writes equal_types_decides).fed };

    fn hash<H: Hasher>(&self, state: &mut H) {
        write_type(self, state);
    }
}

fn number_of_truth(truth: bool) -> u64
    ensures { result ≡ truth_number truth }
{
    if truth { 1 } else { 0 }
}

// All is written in whole words of eight bytes, which a hasher takes faster than single bytes.
fn write_truth<H: Hasher>(truth: bool, state: &mut H)
    ensures { state.new ≡ fold H.write state.old (fed.u64 (truth_number truth)) }
{
    state.write_u64(number_of_truth(truth));
}

#[tactic(auto, using(crate::proofs::HashedLaws::type_laws))]
fn write_int<H: Hasher>(int: IntType, state: &mut H)
    ensures { state.new ≡ fold H.write state.old (int_writes int) }
{
    state.write_u64(int.bytes());
    write_truth(int.signed(), state);
}

#[tactic(auto, using(crate::proofs::HashedLaws::type_laws))]
fn write_num<H: Hasher>(number: Num, state: &mut H)
    ensures { state.new ≡ fold H.write state.old (num_writes number) }
{
    write_truth(number.neg, state);
    state.write_u128(number.mag);
}

#[tactic(auto, using(crate::proofs::HashedLaws::type_laws))]
fn write_tag<H: Hasher>(tag: Tag, state: &mut H)
    ensures { state.new ≡ fold H.write state.old (tag_writes tag) }
{
    state.write_u64(tag.at);
    write_int(tag.int, state);
    write_num(tag.number, state);
}

#[tactic(auto, using(crate::proofs::HashedLaws::type_laws))]
fn write_tags<H: Hasher>(tags: &[Tag], state: &mut H)
    ensures { state.new ≡ fold H.write state.old (fed.slice tag_writes tags.now) }
{
    state.write_usize(tags.len());
    for tag in tags {
        write_tag(*tag, state);
    }
}

#[tactic(auto, using(crate::proofs::HashedLaws::type_laws))]
fn write_chunks<H: Hasher>(chunks: &[(u64, u64)], state: &mut H)
    ensures { state.new ≡ fold H.write state.old (fed.slice chunk_writes chunks.now) }
{
    state.write_usize(chunks.len());
    for chunk in chunks {
        state.write_u64(chunk.0);
        state.write_u64(chunk.1);
    }
}

#[cycle(write_tree)]
#[tactic(auto, using(crate::proofs::HashedLaws::tree_laws))]
fn write_tree<H: Hasher>(tree: &Tree, state: &mut H)
    ensures { state.new ≡ fold H.write state.old (tree_writes tree.now) }
{
    match tree {
        Tree::Known(number) => {
            state.write_u64(0);
            write_num(*number, state);
        }
        Tree::Invalid => {
            state.write_u64(1);
        }
        Tree::Branch(at, int, cases, other) => {
            state.write_u64(2);
            state.write_u64(*at);
            write_int(*int, state);
            write_cases(cases.as_slice(), state);
            write_tree(other.get(), state);
        }
    }
}

#[cycle(write_tree)]
#[tactic(auto, using(crate::proofs::HashedLaws::tree_laws))]
fn write_cases<H: Hasher>(cases: &[(Num, Tree)], state: &mut H)
    ensures { state.new ≡ fold H.write state.old (fed.slice case_writes cases.now) }
{
    state.write_usize(cases.len());
    for case in cases {
        write_num(case.0, state);
        write_tree(&case.1, state);
    }
}

#[tactic(auto, using(crate::proofs::HashedLaws::type_laws))]
fn write_head<H: Hasher>(kind: u64, size: u64, align: u64, state: &mut H)
    ensures { state.new ≡ fold H.write state.old (head_writes kind size align) }
{
    state.write_u64(kind);
    state.write_u64(size);
    state.write_u64(align);
}

// Each kind has a number, which stands first.
#[cycle(write_type)]
#[tactic(auto, using(crate::proofs::HashedLaws::type_laws))]
fn write_type<H: Hasher>(t: &Ty, state: &mut H)
    ensures { state.new ≡ fold H.write state.old (type_writes t.now) }
{
    match t {
        Ty::Int(int) => write_int_type(*int, state),
        Ty::Bool => state.write_u64(1),
        Ty::Raw => state.write_u64(2),
        Ty::FnPtr => state.write_u64(3),
        Ty::Ref { size, align, never } => write_ref(*size, *align, *never, state),
        Ty::Tuple {
            size,
            align,
            fields,
        } => write_tuple(*size, *align, fields.as_slice(), state),
        Ty::Array { count, elem } => write_array(*count, elem.get(), state),
        Ty::Union {
            size,
            align,
            fields,
            chunks,
        } => write_union(*size, *align, fields.as_slice(), chunks.as_slice(), state),
        Ty::Enum {
            size,
            align,
            disc,
            variants,
            tree,
        } => write_enum(*size, *align, *disc, variants.as_slice(), tree, state),
    }
}

#[tactic(auto, using(crate::proofs::HashedLaws::type_laws))]
fn write_int_type<H: Hasher>(int: IntType, state: &mut H)
    ensures { state.new ≡ fold H.write state.old (type_writes (Ty.Int int)) }
{
    state.write_u64(0);
    write_int(int, state);
}

#[tactic(auto, using(crate::proofs::HashedLaws::type_laws))]
fn write_ref<H: Hasher>(size: u64, align: u64, never: bool, state: &mut H)
    ensures { state.new ≡ fold H.write state.old (type_writes (Ty.Ref size align never)) }
{
    write_head(4, size, align, state);
    write_truth(never, state);
}

#[cycle(write_type)]
#[tactic(auto, using(crate::proofs::HashedLaws::type_laws))]
fn write_tuple<H: Hasher>(size: u64, align: u64, fields: &[(u64, Ty)], state: &mut H)
    ensures { state.new ≡ fold H.write state.old (type_writes (Ty.Tuple size align fields.now)) }
{
    write_head(5, size, align, state);
    write_fields(fields, state);
}

#[cycle(write_type)]
#[tactic(auto, using(crate::proofs::HashedLaws::type_laws))]
fn write_array<H: Hasher>(count: u64, elem: &Ty, state: &mut H)
    ensures { state.new ≡ fold H.write state.old (type_writes (Ty.Array count elem.now)) }
{
    state.write_u64(6);
    state.write_u64(count);
    write_type(elem, state);
}

#[cycle(write_type)]
#[tactic(auto, using(crate::proofs::HashedLaws::type_laws))]
fn write_union<H: Hasher>(
    size: u64,
    align: u64,
    fields: &[(u64, Ty)],
    chunks: &[(u64, u64)],
    state: &mut H,
)
    ensures { state.new ≡ fold H.write state.old (type_writes (Ty.Union size align fields.now chunks.now)) }
{
    write_head(7, size, align, state);
    write_fields(fields, state);
    write_chunks(chunks, state);
}

#[cycle(write_type)]
#[tactic(auto, using(crate::proofs::HashedLaws::type_laws))]
fn write_enum<H: Hasher>(
    size: u64,
    align: u64,
    disc: IntType,
    variants: &[Variant],
    tree: &Tree,
    state: &mut H,
)
    ensures { state.new ≡ fold H.write state.old (type_writes (Ty.Enum size align disc variants.now tree.now)) }
{
    write_head(8, size, align, state);
    write_int(disc, state);
    write_variants(variants, state);
    write_tree(tree, state);
}

#[cycle(write_type)]
#[tactic(auto, using(crate::proofs::HashedLaws::type_laws))]
fn write_fields<H: Hasher>(fields: &[(u64, Ty)], state: &mut H)
    ensures { state.new ≡ fold H.write state.old (fed.slice field_writes fields.now) }
{
    state.write_usize(fields.len());
    for field in fields {
        state.write_u64(field.0);
        write_type(&field.1, state);
    }
}

#[cycle(write_type)]
#[tactic(auto, using(crate::proofs::HashedLaws::type_laws))]
fn write_variants<H: Hasher>(variants: &[Variant], state: &mut H)
    ensures { state.new ≡ fold H.write state.old (fed.slice variant_writes variants.now) }
{
    state.write_usize(variants.len());
    for variant in variants {
        write_num(variant.number, state);
        write_type(&variant.ty, state);
        write_tags(variant.tags.as_slice(), state);
    }
}
