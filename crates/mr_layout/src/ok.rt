//! The first broken rule of a type.
ghost use Rattle.std.specs.Prelude.{◌≡◌, ◌≤◌, ◌-◌, ◌^◌, ℕ, true, None, nat_lt, ◌&&◌, if◌then◌else◌, length, option_map, IfOk, IfSome};
ghost use Rattle.mr_ast.specs.FormRules.{code_of};
ghost use Rattle.mr_layout.specs.Alike.{is_some_tag_used, is_variant_tag_used};
ghost use Rattle.mr_layout.specs.Rows.{IsRow};
ghost use Rattle.mr_layout.specs.Tables.{Marks, is_first, is_used_row, rule_of, either};
ghost use Rattle.mr_layout.specs.Used.{is_used, is_used_field, is_used_in, is_used_variant};
ghost use Rattle.mr_layout.specs.TypeOk.{broken_rule, first_broken_field, first_broken_variant};

use crate::alike::Room;
use crate::enum_rules::enum_rules;
use crate::rules::{array_rules, ref_rules, tuple_rules, union_rules};
use crate::sizes::{int_bytes, size};
use crate::tables::{
    NOWHERE, Store, are_tags_inside, is_some_tag_mark, mark_chunks, mark_first, mark_over,
    mark_row, own_table, put_tags,
};
use mr_ast::{OutOfMemory, Rule, Ty, Variant};
use std::alloc::Global;

/// The first broken rule of a type, its parts before itself. It takes no memory, so that it compares each two
/// parts of a list.
pub fn broken_rule(t: &Ty) -> Option<Rule>
    ensures { result ≡ broken_rule t.now }
{
    rule_alone(None, t)
}

/// The first broken rule of a type, its parts before itself. It takes memory to sort lists by, and compares each
/// two parts of a list only where memory is wanting.
pub fn first_broken_rule(alloc: Global, t: &Ty) -> Option<Rule>
    ensures { result ≡ broken_rule t.now }
{
    rule_alone(Some(alloc), t)
}

// The first broken rule of a type whose bytes no table has.
fn rule_alone(room: Room, t: &Ty) -> Option<Rule>
    ensures { result ≡ broken_rule t.now }
{
    let mut store = Store::new(room);
    let mut table: [u8; 0] = [];
    match broken(&mut store, t, &mut table, 0) {
        Ok(_) => None,
        Err(rule) => Some(rule),
    }
}

// What was told, unless a rule is broken.
fn unless(rule: Option<Rule>, told: bool) -> Result<bool, Rule>
    ensures rule { rule_of result ≡ rule }
    ensures told { IfOk result (λ b. b ≡ told) }
{
    match rule {
        Some(rule) => Err(rule),
        None => Ok(told),
    }
}

// Where the parts of a type begin whose bytes are to be marked: nowhere where a rule is broken, so that parts that lie over
// one another aren't marked one by one.
fn place_of(rule: Option<Rule>, start: u64) -> u64
    ensures { rule ≡ None → result ≡ start }
{
    match rule {
        Some(_) => NOWHERE,
        None => start,
    }
}

fn both(one: bool, other: bool) -> bool
    ensures { result ≡ (one && other) }
{
    one && other
}

// How an array's elements lie in the bytes that a table has left for them.
#[derive(Clone, Copy)]
enum Row {
    // They have no byte.
    Empty,
    // There is one.
    Once,
    // One has as many as are left, or more.
    Long,
    // Each has so many.
    Elems(u64),
}

fn row_of(count: u64, elem: Option<u64>, left: u64) -> Row
    requires { left ≤ 2 ^ 20 }
    ensures { (n : ℕ) → elem ≡ (if nat_lt n (2 ^ 63) then Some n else None) → IsRow count n left result }
{
    if count == 0 {
        return Row::Empty;
    }
    if count == 1 {
        return Row::Once;
    }
    match elem {
        None => Row::Long,
        Some(0) => Row::Empty,
        Some(len) => {
            if left <= len {
                Row::Long
            } else {
                Row::Elems(len)
            }
        }
    }
}

// The bytes that a table has from an offset on.
fn left(bytes: u64, start: u64) -> u64
    ensures { result ≡ bytes - start }
{
    bytes.saturating_sub(start)
}

// The first broken rule of a type that begins at an offset of a table, in which the bytes that it uses are marked. It is
// told whether they are: memory may be wanting. What is taken is at most a table of 2^20 bytes for each type around it.
#[cycle(broken)]
#[tactic(auto, using(crate::proofs::BrokenLaws::broken_laws))]
fn broken(store: &mut Store, t: &Ty, table: &mut [u8], start: u64) -> Result<bool, Rule>
    requires small { length table.old ≤ 2 ^ 20 }
    ensures rule { rule_of result ≡ broken_rule t.now }
    ensures long { length table.new ≡ length table.old }
    ensures marks { IfOk result (λ told. told ≡ true → Marks (is_used t.now) start table.old table.new) }
{
    match t {
        Ty::Int(int) => Ok(scalar(table, start, int_bytes(*int))),
        Ty::Bool => Ok(scalar(table, start, 1)),
        Ty::Raw => Ok(scalar(table, start, 8)),
        Ty::FnPtr => Ok(scalar(table, start, 8)),
        Ty::Ref { size, align, .. } => { unless(ref_rules(*size, *align), scalar(table, start, 8)) }
        Ty::Tuple {
            size,
            align,
            fields,
        } => broken_tuple(store, *size, *align, fields.as_slice(), table, start),
        Ty::Array { count, elem } => {
            let told = broken_elem(store, *count, elem.get(), table, start)?;
            unless(array_rules(*count, elem.get()), told)
        }
        Ty::Union {
            size,
            align,
            fields,
            chunks,
        } => {
            let fields = fields.as_slice();
            let chunks = chunks.as_slice();
            broken_union(store, *size, *align, fields, chunks, table, start)
        }
        Ty::Enum {
            size,
            align,
            disc,
            variants,
            tree,
        } => {
            let variants = variants.as_slice();
            let used = broken_variants(store, *size, variants, table, start)?;
            let rule = enum_rules(store.room, *size, *align, *disc, variants, tree, used);
            unless(rule, used.is_some())
        }
    }
}

// Marks the bytes of a scalar, which are its first ones, and tells so.
fn scalar(table: &mut [u8], start: u64, len: u64) -> bool
    ensures told { result ≡ true }
    ensures marks { Marks (is_first len) start table.old table.new }
{
    mark_first(table, start, len);
    true
}

// The first broken rule of a tuple.
#[cycle(broken)]
#[tactic(auto, using(crate::proofs::BrokenLaws::broken_laws))]
fn broken_tuple(
    store: &mut Store,
    size: u64,
    align: u64,
    fields: &[(u64, Ty)],
    table: &mut [u8],
    start: u64,
) -> Result<bool, Rule>
    requires small { length table.old ≤ 2 ^ 20 }
    ensures rule { rule_of result ≡ broken_rule (Ty.Tuple size align fields.now) }
    ensures long { length table.new ≡ length table.old }
    ensures marks { IfOk result (λ told. told ≡ true
        → Marks (is_used (Ty.Tuple size align fields.now)) start table.old table.new) }
{
    let rule = tuple_rules(store.room, size, align, fields);
    let told = first_broken_field(store, fields, table, place_of(rule, start))?;
    unless(rule, told)
}

// The first broken rule of a union. The bytes of its chunks are marked, and none of its fields.
#[cycle(broken)]
#[tactic(auto, using(crate::proofs::BrokenLaws::broken_laws))]
fn broken_union(
    store: &mut Store,
    size: u64,
    align: u64,
    fields: &[(u64, Ty)],
    chunks: &[(u64, u64)],
    table: &mut [u8],
    start: u64,
) -> Result<bool, Rule>
    requires small { length table.old ≤ 2 ^ 20 }
    ensures rule { rule_of result ≡ broken_rule (Ty.Union size align fields.now chunks.now) }
    ensures long { length table.new ≡ length table.old }
    ensures marks { IfOk result (λ told. told ≡ true
        → Marks (is_used (Ty.Union size align fields.now chunks.now)) start table.old table.new) }
{
    let told = first_broken_field(store, fields, table, NOWHERE)?;
    let sure = unless(union_rules(store.room, size, align, fields, chunks), told)?;
    mark_chunks(table, start, chunks);
    Ok(sure)
}

#[cycle(broken)]
fn first_broken_field(
    store: &mut Store,
    fields: &[(u64, Ty)],
    table: &mut [u8],
    start: u64,
) -> Result<bool, Rule>
    requires small { length table.old ≤ 2 ^ 20 }
    ensures rule { rule_of result ≡ first_broken_field fields.now }
    ensures long { length table.new ≡ length table.old }
    ensures marks { IfOk result (λ told. told ≡ true
        → Marks (is_used_field fields.now) start table.old table.new) }
{
    let mut told = true;
    for field in fields {
        let at = start.saturating_add(field.0);
        told = both(broken(store, &field.1, table, at)?, told);
    }
    Ok(told)
}

// The first broken rule of an array's element. The elements of arrays in an array are marked as those of one.
#[cycle(broken)]
#[tactic(auto, using(crate::proofs::BrokenLaws::broken_laws))]
fn broken_elem(
    store: &mut Store,
    count: u64,
    elem: &Ty,
    table: &mut [u8],
    start: u64,
) -> Result<bool, Rule>
    requires small { length table.old ≤ 2 ^ 20 }
    ensures rule { rule_of result ≡ broken_rule elem.now }
    ensures long { length table.new ≡ length table.old }
    ensures marks { IfOk result (λ told. told ≡ true
        → Marks (is_used_row count elem.now) start table.old table.new) }
{
    match elem {
        Ty::Array {
            count: each,
            elem: part,
        } => match count.checked_mul(*each) {
            Some(all) => {
                let told = broken_elem(store, all, part.get(), table, start)?;
                unless(array_rules(*each, part.get()), told)
            }
            None => broken_row(store, count, elem, table, start),
        },
        _ => broken_row(store, count, elem, table, start),
    }
}

// The first broken rule of the type of elements in a row. Where the table has more bytes than one element, a table of its
// own is taken for it.
#[cycle(broken)]
fn broken_row(
    store: &mut Store,
    count: u64,
    elem: &Ty,
    table: &mut [u8],
    start: u64,
) -> Result<bool, Rule>
    requires small { length table.old ≤ 2 ^ 20 }
    ensures rule { rule_of result ≡ broken_rule elem.now }
    ensures long { length table.new ≡ length table.old }
    ensures marks { IfOk result (λ told. told ≡ true
        → Marks (is_used_row count elem.now) start table.old table.new) }
{
    let bytes = table.len() as u64;
    match row_of(count, size(elem), left(bytes, start)) {
        Row::Empty => broken(store, elem, table, NOWHERE),
        Row::Once => broken(store, elem, table, start),
        Row::Long => broken(store, elem, table, start),
        Row::Elems(len) => match store.blank(len) {
            Some(mut one) => {
                let told = broken(store, elem, one.as_mut_slice(), 0)?;
                let marked = mark_row(store.room, table, start, one.as_slice(), count);
                store.keep(one);
                Ok(both(marked, told))
            }
            None => {
                broken(store, elem, table, NOWHERE)?;
                Ok(false)
            }
        },
    }
}

// The first broken rule of an enum's variants, in the table or in one of the enum's own; and whether a byte of a variant's
// tag is used, where that is known.
#[cycle(broken)]
fn broken_variants(
    store: &mut Store,
    size: u64,
    variants: &[Variant],
    table: &mut [u8],
    start: u64,
) -> Result<Option<bool>, Rule>
    requires small { length table.old ≤ 2 ^ 20 }
    ensures rule { rule_of result ≡ first_broken_variant variants.now }
    ensures long { length table.new ≡ length table.old }
    ensures marks { IfOk result (λ used. IfSome used (λ b.
        Marks (is_used_in variants.now) start table.old table.new)) }
    ensures used { IfOk result (λ used. IfSome used (λ b. b ≡ is_variant_tag_used variants.now)) }
{
    let bytes = table.len() as u64;
    match own_table(store, size, variants, start, bytes) {
        Some(mut own) => {
            let used = first_broken_variant(store, variants, own.as_mut_slice(), 0)?;
            mark_over(table, start, own.as_slice());
            store.keep(own);
            Ok(used)
        }
        None => first_broken_variant(store, variants, table, start),
    }
}

#[cycle(broken)]
fn first_broken_variant(
    store: &mut Store,
    variants: &[Variant],
    table: &mut [u8],
    start: u64,
) -> Result<Option<bool>, Rule>
    requires small { length table.old ≤ 2 ^ 20 }
    ensures rule { rule_of result ≡ first_broken_variant variants.now }
    ensures long { length table.new ≡ length table.old }
    ensures marks { IfOk result (λ used. IfSome used (λ b.
        Marks (is_used_in variants.now) start table.old table.new)) }
    ensures used { IfOk result (λ used. IfSome used (λ b. b ≡ is_variant_tag_used variants.now)) }
{
    let mut used = Some(false);
    for variant in variants {
        used = either(used, broken_variant(store, variant, table, start)?);
    }
    Ok(used)
}

// One of two, where both are known.
fn either(left: Option<bool>, right: Option<bool>) -> Option<bool>
    ensures { result ≡ either left right }
{
    match (left, right) {
        (Some(left), Some(right)) => Some(left || right),
        _ => None,
    }
}

// The first broken rule of a variant's type. The bytes of its tags bear no mark while the type marks those that it uses, so
// that it is seen whether it uses one of them.
#[cycle(broken)]
fn broken_variant(
    store: &mut Store,
    variant: &Variant,
    table: &mut [u8],
    start: u64,
) -> Result<Option<bool>, Rule>
    requires small { length table.old ≤ 2 ^ 20 }
    ensures rule { rule_of result ≡ broken_rule variant.now.ty }
    ensures long { length table.new ≡ length table.old }
    ensures marks { IfOk result (λ used. IfSome used (λ b.
        Marks (is_used_variant variant.now) start table.old table.new)) }
    ensures used { IfOk result (λ used. IfSome used (λ b.
        b ≡ is_some_tag_used variant.now.ty variant.now.tags)) }
{
    let tags = variant.tags.as_slice();
    let bytes = table.len() as u64;
    if !are_tags_inside(start, bytes, tags) {
        broken(store, &variant.ty, table, NOWHERE)?;
        return Ok(None);
    }
    put_tags(table, start, tags, 0);
    let told = broken(store, &variant.ty, table, start)?;
    let used = is_some_tag_mark(table, start, tags);
    put_tags(table, start, tags, 1);
    if !told {
        return Ok(None);
    }
    Ok(Some(used))
}

/// The number of the first broken rule of a type. It does not fail.
pub fn type_ok(alloc: Global, t: &Ty) -> Result<Option<u8>, OutOfMemory>
    ensures { result ≡ Ok (option_map code_of (broken_rule t.now)) }
{
    match first_broken_rule(alloc, t) {
        Some(rule) => Ok(Some(rule.code())),
        None => Ok(None),
    }
}
