//! The first rule that a program breaks, as it is told.
ghost use Rattle.std.specs.Prelude.{◌≡◌, ◌++◌, OnOk, codes};
ghost use Rattle.mr_ast.specs.Canon.{global_texts};
ghost use Rattle.mr_ast.specs.CanonValues.{text_at};
ghost use Rattle.mr_refusals.specs.Forms.{block_told, form_told, item_told, spot_told};

use crate::OutOfMemory;
use crate::heads::{Mark, Source, push_bare, push_fault};
use crate::spots::spot_of;
use mr_ast::{BlockName, GlobalName, Program};
use mr_labels::{block_word, function_word};
use mr_places::Spot;
use mr_typing::{FormFault, Item};
use std::alloc::Global;

// Appends in which block a rule is broken.
fn push_named_block(out: &mut Vec<u8>, name: &str) -> Result<(), OutOfMemory>
    ensures { OnOk result (out.new.items ≡ out.old.items ++ (codes ", block " ++ name.now ++ codes "\n")) }
{
    out.extend_from_slice(b", block ")?;
    out.extend_from_slice(name.as_bytes())?;
    out.push(b'\n')?;
    Ok(())
}

// Appends in which block of a function a rule is broken, if in one.
fn push_block(
    out: &mut Vec<u8>,
    p: &Program,
    function: u32,
    block: Option<BlockName>,
) -> Result<(), OutOfMemory>
    ensures { OnOk result (out.new.items ≡ out.old.items ++ block_told p.now function block) }
{
    match block {
        Some(name) => push_named_block(out, block_word(p, function, name.0)),
        None => out.extend_from_slice(b"\n"),
    }
}

// Appends in which global a rule is broken.
fn push_global(out: &mut Vec<u8>, p: &Program, global: u32) -> Result<(), OutOfMemory>
    ensures { OnOk result (out.new.items
        ≡ out.old.items ++ (codes "in global " ++ text_at (global_texts p.now) global ++ codes "\n")) }
{
    out.extend_from_slice(b"in global ")?;
    out.extend_from_slice(p.global_name(GlobalName(global)).as_bytes())?;
    out.push(b'\n')?;
    Ok(())
}

// Appends in which function and block a rule is broken.
fn push_function(
    out: &mut Vec<u8>,
    p: &Program,
    function: u32,
    block: Option<BlockName>,
) -> Result<(), OutOfMemory>
    ensures { OnOk result (out.new.items ≡ out.old.items ++ item_told p.now (Item.Function function) block) }
{
    out.extend_from_slice(b"in function ")?;
    out.extend_from_slice(function_word(p, function).as_bytes())?;
    push_block(out, p, function, block)
}

// Appends in which global a rule is broken, or in which function and block.
fn push_item(
    out: &mut Vec<u8>,
    p: &Program,
    item: Item,
    block: Option<BlockName>,
) -> Result<(), OutOfMemory>
    ensures { OnOk result (out.new.items ≡ out.old.items ++ item_told p.now item block) }
{
    match item {
        Item::Static(number) => push_global(out, p, number),
        Item::Function(number) => push_function(out, p, number, block),
    }
}

// Appends a broken rule at its line, where it has one.
fn push_spot(
    out: &mut Vec<u8>,
    source: Source<'_>,
    code: u8,
    spot: Option<Spot>,
) -> Result<(), OutOfMemory>
    ensures { OnOk result (out.new.items
        ≡ out.old.items ++ spot_told source.entry.name.now source.entry.text.now code spot) }
{
    match spot {
        Some(spot) => {
            let mark = Mark {
                line: spot.line,
                col: spot.col,
            };
            push_fault(out, source, mark, code)
        }
        None => push_bare(out, source.name, code),
    }
}

/// Appends the first rule that a program breaks, whose text is in a file.
pub(crate) fn push_form_fault(
    alloc: Global,
    out: &mut Vec<u8>,
    source: Source<'_>,
    p: &Program,
    fault: FormFault,
) -> Result<(), OutOfMemory>
    ensures { OnOk result (out.new.items
        ≡ out.old.items ++ form_told source.entry.name.now source.entry.text.now p.now fault) }
{
    let spot = spot_of(alloc, source.text, p, fault)?;
    push_spot(out, source, fault.code, spot)?;
    push_item(out, p, fault.item, fault.block)
}
