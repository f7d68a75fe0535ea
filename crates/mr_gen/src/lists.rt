//! Short lists and pairs of boxes. What goes in by value is gone where memory is wanting.
ghost use Rattle.std.specs.Prelude.{◌≡◌, [], ◌∷◌, IfOk};

use mr_ast::{Boxed, Items, OutOfMemory};
use std::alloc::Global;

/// A list of one thing.
pub fn one_item<T: Drop>(alloc: Global, item: T) -> Result<Items<T>, OutOfMemory>
    ensures { IfOk result (λ items. items ≡ item ∷ []) }
{
    let mut items = Items::new(alloc);
    items.push(item)?;
    Ok(items)
}

/// A list of two things.
pub fn two_items<T: Drop>(alloc: Global, first: T, second: T) -> Result<Items<T>, OutOfMemory>
    ensures { IfOk result (λ items. items ≡ first ∷ second ∷ []) }
{
    let mut items = one_item(alloc, first)?;
    items.push(second)?;
    Ok(items)
}

/// Two things, each in a box.
pub fn two_boxes<T: Drop>(
    alloc: Global,
    first: T,
    second: T,
) -> Result<(Boxed<T>, Boxed<T>), OutOfMemory>
    ensures { IfOk result (λ boxes. boxes ≡ (first, second)) }
{
    let first = Boxed::new(alloc, first)?;
    Ok((first, Boxed::new(alloc, second)?))
}
