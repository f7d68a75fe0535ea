//! The rules of globals.
ghost use Rattle.std.specs.Prelude.{◌≡◌, IfOk};
ghost use Rattle.mr_typing.specs.Broken.{is_in_global, sizes_of};
ghost use Rattle.mr_typing.specs.Walk.{is_global_form, is_target};
ghost use Rattle.mr_wf.specs.JudgingPrograms.{judged_global, judged_items};
ghost use Rattle.mr_wf.specs.Gives.{Gives};

use crate::fault::Broken;
use crate::judging::kept;
use mr_ast::{Global_, GlobalName, Item_, MAX_SIZE, OutOfMemory, Rule, Target};
use mr_layout::is_align;
use mr_typing::items_size;
use std::alloc::Global;

/// How many bytes each global has.
pub fn sizes_of(alloc: Global, globals: &[Global_]) -> Result<Vec<u128>, OutOfMemory>
    ensures { IfOk result (λ sizes. sizes.items ≡ sizes_of globals.now) }
{
    let mut sizes = Vec::new(alloc);
    for global in globals {
        sizes.push(items_size(global.items.as_slice()))?;
    }
    Ok(sizes)
}

/// Whether an offset is at most the size of a global.
pub fn is_in_global(sizes: &[u128], g: GlobalName, offset: u64) -> bool
    ensures { result ≡ is_in_global sizes.now g.0 offset }
{
    match sizes.get(g.0 as usize) {
        Some(size) => u128::from(offset) <= *size,
        None => false,
    }
}

// Whether a pointer in a global points into a global, or to the start of a function.
fn is_target(sizes: &[u128], item: &Item_) -> bool
    ensures { result ≡ is_target sizes.now item.now }
{
    match item {
        Item_::Byte(_, _) | Item_::Uninit(_) => true,
        Item_::Reloc(Target::Global(g), offset) => is_in_global(sizes, *g, *offset),
        Item_::Reloc(Target::Function(_), offset) => *offset == 0,
    }
}

fn is_global_form(g: &Global_) -> bool
    ensures { result ≡ is_global_form g.now }
{
    items_size(g.items.as_slice()) <= u128::from(MAX_SIZE) && is_align(g.align)
}

fn judged_items(sizes: &[u128], items: &[Item_]) -> Result<(), Broken>
    ensures { Gives (λ u. u) result (judged_items sizes.now items.now) }
{
    for item in items {
        if !is_target(sizes, item) {
            return Err(Broken::Rule(Rule::GlobalRef));
        }
    }
    Ok(())
}

/// The first rule that a global breaks.
pub fn judged_global(sizes: &[u128], g: &Global_) -> Result<(), Broken>
    ensures { Gives (λ u. u) result (judged_global sizes.now g.now) }
{
    kept(Rule::GlobalForm, is_global_form(g))?;
    judged_items(sizes, g.items.as_slice())
}
