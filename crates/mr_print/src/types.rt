//! The words of types.
ghost use Rattle.std.specs.Prelude.{◌≡◌, ◌++◌, ◌∷◌, [], OnOk, codes, decimal, length, map, flat_map};
ghost use Rattle.mr_ast.specs.CanonTypes.{braced, int_word, shape_words, chunk_words, tag_words, case_words, field_words, is_unit, variant_words, words_of_tree, words_of_type};
ghost use Rattle.mr_print.specs.Appends.{with_words};

use crate::OutOfMemory;
use crate::words::{comma, int_type, number, signed, word};
use mr_ast::{IntType, Num, Tag, Tree, Ty, Variant};

// Writes the words of a tree.
#[cycle(print_tree)]
#[tactic(auto, using(crate::proofs::TypeLaws::tree_laws))]
pub(crate) fn print_tree(tree: &Tree, text: &mut Vec<u8>) -> Result<(), OutOfMemory>
    ensures { OnOk result (text.new.items ≡ with_words text.old.items (words_of_tree tree.now)) }
{
    match tree {
        Tree::Known(n) => {
            word("known", text)?;
            signed(*n, text)
        }
        Tree::Invalid => word("invalid", text),
        Tree::Branch(at, int, cases, rest) => {
            print_branch_head(*at, *int, text)?;
            print_cases(cases.as_slice(), text)?;
            print_other_case(rest.get(), text)
        }
    }
}

// Writes what stands before the cases of a branch.
#[tactic(auto, using(crate::proofs::AppendLaws::word_laws))]
fn print_branch_head(at: u64, int: IntType, text: &mut Vec<u8>) -> Result<(), OutOfMemory>
    ensures { OnOk result
        (text.new.items ≡ with_words text.old.items (codes "branch" ∷ decimal at ∷ int_word int ∷ codes "{" ∷ [])) }
{
    word("branch", text)?;
    number(at, text)?;
    int_type(int, text)?;
    word("{", text)
}

// Writes the tree of all other numbers, and the end of a branch.
#[cycle(print_tree)]
#[tactic(auto, using(crate::proofs::AppendLaws::word_laws))]
fn print_other_case(tree: &Tree, text: &mut Vec<u8>) -> Result<(), OutOfMemory>
    ensures { OnOk result (text.new.items
        ≡ with_words text.old.items (codes "_" ∷ codes "=>" ∷ words_of_tree tree.now ++ codes "}" ∷ [])) }
{
    word("_", text)?;
    word("=>", text)?;
    print_tree(tree, text)?;
    word("}", text)
}

#[cycle(print_tree)]
#[tactic(auto, using(crate::proofs::AppendLaws::word_laws))]
fn print_cases(cases: &[(Num, Tree)], text: &mut Vec<u8>) -> Result<(), OutOfMemory>
    ensures { OnOk result (text.new.items ≡ with_words text.old.items (flat_map case_words cases.now)) }
{
    for case in cases {
        print_case(case.0, &case.1, text)?;
    }
    Ok(())
}

#[cycle(print_tree)]
#[tactic(auto, using(crate::proofs::AppendLaws::word_laws))]
fn print_case(number: Num, tree: &Tree, text: &mut Vec<u8>) -> Result<(), OutOfMemory>
    ensures { OnOk result (text.new.items ≡ with_words text.old.items (case_words (number, tree.now))) }
{
    signed(number, text)?;
    word("=>", text)?;
    print_tree(tree, text)?;
    word(",", text)
}

// Writes a size and an alignment.
#[tactic(auto, using(crate::proofs::AppendLaws::word_laws))]
fn print_shape(size: u64, align: u64, text: &mut Vec<u8>) -> Result<(), OutOfMemory>
    ensures { OnOk result (text.new.items ≡ with_words text.old.items (shape_words size align)) }
{
    word("size", text)?;
    number(size, text)?;
    word("align", text)?;
    number(align, text)
}

// Writes the words of a type.
#[cycle(print_type)]
#[tactic(auto, using(crate::proofs::TypeLaws::scalar_laws))]
pub(crate) fn print_type(ty: &Ty, text: &mut Vec<u8>) -> Result<(), OutOfMemory>
    ensures { OnOk result (text.new.items ≡ with_words text.old.items (words_of_type ty.now)) }
{
    match ty {
        Ty::Int(int) => int_type(*int, text),
        Ty::Bool => word("bool", text),
        Ty::Raw => word("raw", text),
        Ty::FnPtr => word("fnptr", text),
        Ty::Ref { size, align, never } => print_ref(*size, *align, *never, text),
        Ty::Tuple {
            size,
            align,
            fields,
        } => print_tuple(*size, *align, fields.as_slice(), text),
        Ty::Array { count, elem } => print_array(*count, elem.get(), text),
        Ty::Union {
            size,
            align,
            fields,
            chunks,
        } => print_union(*size, *align, fields.as_slice(), chunks.as_slice(), text),
        Ty::Enum {
            size,
            align,
            disc,
            variants,
            tree,
        } => print_enum(*size, *align, *disc, variants.as_slice(), tree, text),
    }
}

// Whether a tuple has a word of its own.
fn is_unit(size: u64, align: u64, fields: &[(u64, Ty)]) -> bool
    ensures { result ≡ is_unit size align (length fields.now) }
{
    size == 0 && align == 1 && fields.len() == 0
}

#[tactic(auto, using(crate::proofs::TypeLaws::ref_laws))]
fn print_ref(size: u64, align: u64, never: bool, text: &mut Vec<u8>) -> Result<(), OutOfMemory>
    ensures { OnOk result (text.new.items ≡ with_words text.old.items (words_of_type (Ty.Ref size align never))) }
{
    word("ref", text)?;
    number(size, text)?;
    number(align, text)?;
    if never {
        return word("never", text);
    }
    Ok(())
}

#[cycle(print_type)]
#[tactic(auto, using(crate::proofs::TypeLaws::tuple_laws))]
fn print_tuple(
    size: u64,
    align: u64,
    fields: &[(u64, Ty)],
    text: &mut Vec<u8>,
) -> Result<(), OutOfMemory>
    ensures { OnOk result
        (text.new.items ≡ with_words text.old.items (words_of_type (Ty.Tuple size align fields.now))) }
{
    if is_unit(size, align, fields) {
        return word("unit", text);
    }
    word("tuple", text)?;
    print_shape(size, align, text)?;
    print_fields(fields, text)
}

#[cycle(print_type)]
#[tactic(auto, using(crate::proofs::TypeLaws::written_array))]
fn print_array(count: u64, elem: &Ty, text: &mut Vec<u8>) -> Result<(), OutOfMemory>
    ensures { OnOk result (text.new.items ≡ with_words text.old.items (words_of_type (Ty.Array count elem.now))) }
{
    word("array", text)?;
    word("(", text)?;
    number(count, text)?;
    word(",", text)?;
    print_type(elem, text)?;
    word(")", text)
}

#[cycle(print_type)]
#[tactic(auto, using(crate::proofs::TypeLaws::union_laws))]
fn print_union(
    size: u64,
    align: u64,
    fields: &[(u64, Ty)],
    chunks: &[(u64, u64)],
    text: &mut Vec<u8>,
) -> Result<(), OutOfMemory>
    ensures { OnOk result
        (text.new.items ≡ with_words text.old.items (words_of_type (Ty.Union size align fields.now chunks.now))) }
{
    word("union", text)?;
    print_shape(size, align, text)?;
    print_fields(fields, text)?;
    word("chunks", text)?;
    print_chunks(chunks, text)
}

#[cycle(print_type)]
#[tactic(auto, using(crate::proofs::TypeLaws::written_enum))]
fn print_enum(
    size: u64,
    align: u64,
    disc: IntType,
    variants: &[Variant],
    tree: &Tree,
    text: &mut Vec<u8>,
) -> Result<(), OutOfMemory>
    ensures { OnOk result
        (text.new.items ≡ with_words text.old.items (words_of_type (Ty.Enum size align disc variants.now tree.now))) }
{
    word("enum", text)?;
    print_shape(size, align, text)?;
    word("disc", text)?;
    int_type(disc, text)?;
    print_variants(variants, text)?;
    print_tree(tree, text)
}

#[cycle(print_type)]
#[tactic(auto, using(crate::proofs::AppendLaws::word_laws))]
fn print_fields(fields: &[(u64, Ty)], text: &mut Vec<u8>) -> Result<(), OutOfMemory>
    ensures { OnOk result (text.new.items ≡ with_words text.old.items (braced (map field_words fields.now))) }
{
    word("{", text)?;
    for i in 0..fields.len() {
        comma(i, text)?;
        let field = &fields[i];
        print_field(field.0, &field.1, text)?;
    }
    word("}", text)
}

#[cycle(print_type)]
#[tactic(auto, using(crate::proofs::AppendLaws::word_laws))]
fn print_field(at: u64, ty: &Ty, text: &mut Vec<u8>) -> Result<(), OutOfMemory>
    ensures { OnOk result (text.new.items ≡ with_words text.old.items (field_words (at, ty.now))) }
{
    number(at, text)?;
    word(":", text)?;
    print_type(ty, text)
}

#[tactic(auto, using(crate::proofs::AppendLaws::word_laws))]
fn print_chunks(chunks: &[(u64, u64)], text: &mut Vec<u8>) -> Result<(), OutOfMemory>
    ensures { OnOk result (text.new.items ≡ with_words text.old.items (braced (map chunk_words chunks.now))) }
{
    word("{", text)?;
    for i in 0..chunks.len() {
        comma(i, text)?;
        print_chunk(chunks[i], text)?;
    }
    word("}", text)
}

#[tactic(auto, using(crate::proofs::AppendLaws::word_laws))]
fn print_chunk(chunk: (u64, u64), text: &mut Vec<u8>) -> Result<(), OutOfMemory>
    ensures { OnOk result (text.new.items ≡ with_words text.old.items (chunk_words chunk)) }
{
    number(chunk.0, text)?;
    number(chunk.1, text)
}

#[cycle(print_type)]
#[tactic(auto, using(crate::proofs::AppendLaws::word_laws))]
fn print_variants(variants: &[Variant], text: &mut Vec<u8>) -> Result<(), OutOfMemory>
    ensures { OnOk result (text.new.items ≡ with_words text.old.items (braced (map variant_words variants.now))) }
{
    word("{", text)?;
    for i in 0..variants.len() {
        comma(i, text)?;
        print_variant(&variants[i], text)?;
    }
    word("}", text)
}

#[cycle(print_type)]
#[tactic(auto, using(crate::proofs::AppendLaws::word_laws))]
fn print_variant(variant: &Variant, text: &mut Vec<u8>) -> Result<(), OutOfMemory>
    ensures { OnOk result (text.new.items ≡ with_words text.old.items (variant_words variant.now)) }
{
    signed(variant.number, text)?;
    word(":", text)?;
    print_type(&variant.ty, text)?;
    word("tag", text)?;
    print_tags(variant.tags.as_slice(), text)
}

#[tactic(auto, using(crate::proofs::AppendLaws::word_laws))]
fn print_tags(tags: &[Tag], text: &mut Vec<u8>) -> Result<(), OutOfMemory>
    ensures { OnOk result (text.new.items ≡ with_words text.old.items (braced (map tag_words tags.now))) }
{
    word("{", text)?;
    for i in 0..tags.len() {
        comma(i, text)?;
        print_tag(&tags[i], text)?;
    }
    word("}", text)
}

#[tactic(auto, using(crate::proofs::AppendLaws::word_laws))]
fn print_tag(tag: &Tag, text: &mut Vec<u8>) -> Result<(), OutOfMemory>
    ensures { OnOk result (text.new.items ≡ with_words text.old.items (tag_words tag.now)) }
{
    number(tag.at, text)?;
    word(":", text)?;
    int_type(tag.int, text)?;
    word("=", text)?;
    signed(tag.number, text)
}
