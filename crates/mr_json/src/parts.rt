//! Numbers, places and names, as they stand in the JSON of a run.
ghost use Rattle.std.specs.Prelude.{◌≡◌, IfOk, slice_get};
ghost use Rattle.mr_ast.specs.Canon.{function_texts, global_texts};
ghost use Rattle.mr_ast.specs.CanonValues.{text_at};
ghost use Rattle.mr_labels.specs.Words.{local_word};
ghost use Rattle.mr_listing.specs.Seen.{seen};
ghost use Rattle.mr_json.specs.Parts.{block_data, named_data, number_data, place_data, reached_data, spot_data};
ghost use Rattle.serde_json.specs.View.{view};

use crate::OutOfMemory;
use itoa::Buffer;
use mr_ast::{LocalName, Program};
use mr_labels::{Allocation, Name, Stand, block_word, function_word};
use mr_listing::Shown;
use mr_places::Spot;
use serde_json::{Value, json};
use std::alloc::Global;

// A number: below 2^64 it is one, and from there on its digits in a string.
pub(crate) fn number(alloc: Global, n: u128) -> Result<Value, OutOfMemory>
    ensures { IfOk result (λ v. view v ≡ number_data n) }
{
    if n < 1 << 64 {
        return Ok(Value::from(n as u64));
    }
    let mut buffer = Buffer::new();
    Value::try_from_str(alloc, buffer.format(n))
}

// The place of a statement.
fn spot(alloc: Global, p: &Program, stand: Stand, spot: Spot) -> Result<Value, OutOfMemory>
    ensures { IfOk result (λ v. view v ≡ spot_data p.now stand spot) }
{
    let statement = number(alloc, stand.at as u128 + 1)?;
    json!(in alloc; {
        "block": block_word(p, stand.function, stand.block),
        "column": spot.col,
        "function": function_word(p, stand.function),
        "line": spot.line,
        "statement": statement
    })
}

// The place at which a thread stands, if it does.
pub(crate) fn place(
    alloc: Global,
    shown: &Shown<'_>,
    stand: Option<Stand>,
) -> Result<Value, OutOfMemory>
    ensures { IfOk result (λ v. view v ≡ place_data (seen shown.now) stand) }
{
    let Some(stand) = stand else {
        return Ok(Value::Null);
    };
    match shown.places.of(stand.function, stand.block, stand.at) {
        Some(place) => spot(alloc, shown.program, stand, place),
        None => Ok(Value::Null),
    }
}

// The name of the function at a position.
#[tactic(auto, using(mr_ast::proofs::ItemNameLaws::text_missing))]
fn function_at(p: &Program, i: usize) -> &str
    ensures { result.now ≡ text_at (function_texts p.now) i }
{
    match p.functions.get(i) {
        Some(function) => p.names.text_or_empty(function.name),
        None => "",
    }
}

// The name of the global at a position.
#[tactic(auto, using(mr_ast::proofs::ItemNameLaws::text_missing))]
fn global_at(p: &Program, i: usize) -> &str
    ensures { result.now ≡ text_at (global_texts p.now) i }
{
    match p.globals.get(i) {
        Some(global) => p.names.text_or_empty(global.name),
        None => "",
    }
}

// The name of a local of a function.
fn local_of(p: &Program, function: u32, local: u32) -> &str
    ensures { result.now ≡ local_word p.now local (slice_get p.now.functions function) }
{
    match p.functions.get(function as usize) {
        Some(function) => p.local_name(function, LocalName(local)),
        None => "",
    }
}

// An address in an allocation of this name, so many bytes behind its first one.
fn named(alloc: Global, p: &Program, offset: u64, name: Name) -> Result<Value, OutOfMemory>
    ensures { IfOk result (λ v. view v ≡ named_data p.now offset name) }
{
    match name {
        Name::Function(i) => json!(in alloc; { "function": function_at(p, i), "offset": offset }),
        Name::Global(i) => json!(in alloc; { "global": global_at(p, i), "offset": offset }),
        Name::Local {
            thread,
            function,
            local,
        } => json!(in alloc; {
            "function": function_word(p, function),
            "local": local_of(p, function, local),
            "offset": offset,
            "thread": thread
        }),
        Name::Heap(step) => block(alloc, offset, step),
    }
}

// An address in the block that a step allocated.
fn block(alloc: Global, offset: u64, step: usize) -> Result<Value, OutOfMemory>
    ensures { IfOk result (λ v. view v ≡ block_data offset step) }
{
    let step = number(alloc, step as u128 + 1)?;
    json!(in alloc; { "offset": offset, "step": step })
}

// What an address reaches, which this allocation holds.
pub(crate) fn reached(
    alloc: Global,
    p: &Program,
    addr: u64,
    row: Option<Allocation>,
) -> Result<Value, OutOfMemory>
    ensures { IfOk result (λ v. view v ≡ reached_data p.now addr row) }
{
    match row {
        Some(row) => named(alloc, p, addr.saturating_sub(row.start), row.name),
        None => Ok(Value::Null),
    }
}
