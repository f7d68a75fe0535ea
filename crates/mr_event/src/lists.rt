//! A step as it is told, and the lists of a step.
ghost use Rattle.std.specs.Prelude.{◌≡◌, [], IfOk, IsTrue, OnOk};
ghost use Rattle.mr_event.specs.Lists.{AreListsOf};

use crate::OutOfMemory;
use mr_base::{Access, AllocId, Event};
use std::alloc::Global;

/// What a completed step read, changed and woke, as it is told to a footprint or by one.
#[derive(Clone, Copy)]
pub struct Step<'a> {
    pub thread: u32,
    pub event: Event,
    pub ended: bool,
    pub accesses: &'a [Access],
    pub allocated: &'a [AllocId],
    pub freed: &'a [AllocId],
    pub touched: &'a [AllocId],
    pub woken: &'a [u32],
}

/// The lists of a step.
#[derive(Drop)]
pub struct Lists {
    pub accesses: Vec<Access>,
    pub allocated: Vec<AllocId>,
    pub freed: Vec<AllocId>,
    pub touched: Vec<AllocId>,
    pub woken: Vec<u32>,
}

impl Lists {
    /// Those of a step.
    pub fn of(alloc: Global, step: &Step<'_>) -> Result<Lists, OutOfMemory>
        ensures { IfOk result (λ lists. AreListsOf step.now lists) }
    {
        Ok(Lists {
            accesses: Vec::from_slice(alloc, step.accesses)?,
            allocated: Vec::from_slice(alloc, step.allocated)?,
            freed: Vec::from_slice(alloc, step.freed)?,
            touched: Vec::from_slice(alloc, step.touched)?,
            woken: Vec::from_slice(alloc, step.woken)?,
        })
    }

    /// Takes those of a step, and keeps the room that it has.
    pub fn refill(&mut self, step: &Step<'_>) -> Result<(), OutOfMemory>
        ensures { OnOk result (AreListsOf step.now self.new) }
    {
        refill(&mut self.accesses, step.accesses)?;
        refill(&mut self.allocated, step.allocated)?;
        refill(&mut self.freed, step.freed)?;
        refill(&mut self.touched, step.touched)?;
        refill(&mut self.woken, step.woken)
    }
}

// A list takes these items, and keeps the room that it has. Most lists of a step are empty.
fn refill<T: Copy + Drop>(list: &mut Vec<T>, items: &[T]) -> Result<(), OutOfMemory>
    ensures { OnOk result (list.new.items ≡ items.now) }
{
    list.clear();
    if is_none(items) {
        return Ok(());
    }
    list.extend_from_slice(items)
}

/// Whether there is no item.
pub(crate) fn is_none<T>(items: &[T]) -> bool
    ensures { IsTrue result → [] ≡ items.now }
{
    matches!(items, [])
}
