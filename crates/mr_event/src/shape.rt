//! How a footprint is kept.
ghost use Rattle.std.specs.Prelude.{◌≡◌, IfOk, IfSome, IsTrue, OnOk, [], false};
ghost use Rattle.mr_base.specs.declared.thread.Event.TheVariants.{Quiet};
ghost use Rattle.mr_event.specs.Lists.{footprint_of};
ghost use Rattle.mr_event.specs.Shape.{footprint_in, many, plain, single};

use crate::OutOfMemory;
use crate::likeness::{same_access, same_accesses, same_event, same_id, same_ids, same_threads};
use crate::lists::{Lists, Step, is_none};
use mr_base::{Access, AllocId, Event};
use std::alloc::Global;
use std::rc::Rc;

/// An access, and the allocation that it touched.
#[derive(Clone, Copy)]
pub struct Reach {
    pub access: Access,
    pub allocation: AllocId,
}

/// What a step did that has any lists.
#[derive(Drop)]
pub struct Deeds {
    pub event: Event,
    pub ended: bool,
    pub lists: Lists,
}

/// How a footprint is kept: the thread of its step, and what else the step did. A step without lists takes no room of its
/// own. What another step did stands in a room that equal steps share, so that a copy takes none.
#[derive(Drop)]
pub enum Shape {
    /// No list: whether the step ended its thread, the thread, and what it did to a lock or another thread.
    Bare(bool, u32, Event),
    /// One access, with the allocation that it touched, and nothing else.
    Single(u32, Rc<Reach>),
    /// Any lists, and what a step without lists has.
    Many(u32, Rc<Deeds>),
}

impl Deeds {
    /// Those of a step.
    fn of(alloc: Global, step: &Step<'_>) -> Result<Deeds, OutOfMemory>
        ensures { IfOk result (λ deeds. many step.now.thread deeds ≡ footprint_of step.now) }
    {
        Ok(Deeds {
            event: step.event,
            ended: step.ended,
            lists: Lists::of(alloc, step)?,
        })
    }

    // Takes those of a step, and keeps the room that it has.
    fn refill(&mut self, step: &Step<'_>) -> Result<(), OutOfMemory>
        ensures { OnOk result (many step.now.thread self.new ≡ footprint_of step.now) }
    {
        self.event = step.event;
        self.ended = step.ended;
        self.lists.refill(step)
    }

    // Whether they are those of a step.
    fn are_of(&self, step: &Step<'_>) -> bool
        ensures { IsTrue result → many step.now.thread self.now ≡ footprint_of step.now }
    {
        self.ended == step.ended
            && same_event(self.event, step.event)
            && same_accesses(self.lists.accesses.as_slice(), step.accesses)
            && same_ids(self.lists.touched.as_slice(), step.touched)
            && same_ids(self.lists.allocated.as_slice(), step.allocated)
            && same_ids(self.lists.freed.as_slice(), step.freed)
            && same_threads(self.lists.woken.as_slice(), step.woken)
    }
}

impl Shape {
    /// That of a step.
    pub fn of(alloc: Global, step: &Step<'_>) -> Result<Shape, OutOfMemory>
        ensures { IfOk result (λ shape. footprint_in shape ≡ footprint_of step.now) }
    {
        if is_bare(step) {
            return Ok(Shape::Bare(step.ended, step.thread, step.event));
        }
        if let Some(reach) = reach_of(step) {
            return new_single(alloc, step.thread, reach);
        }
        new_many(alloc, step)
    }

    /// Takes that of a step without lists.
    pub fn take_bare(&mut self, step: &Step<'_>)
        ensures { footprint_in self.new ≡ plain step.now.thread step.now.event step.now.ended [] [] }
    {
        *self = Shape::Bare(step.ended, step.thread, step.event);
    }

    /// Takes that of a step of a thread that made one access. There is no new room where the step before it here reached
    /// the same, or no other footprint shares its room.
    pub fn take_single(
        &mut self,
        alloc: Global,
        thread: u32,
        reach: Reach,
    ) -> Result<(), OutOfMemory>
        ensures { OnOk result (footprint_in self.new ≡ single thread reach) }
    {
        if let Shape::Single(owner, kept) = self {
            if takes_reach(kept, reach) {
                *owner = thread;
                return Ok(());
            }
        }
        *self = new_single(alloc, thread, reach)?;
        Ok(())
    }

    /// Takes that of a step with any lists, likewise.
    pub fn take_many(&mut self, alloc: Global, step: &Step<'_>) -> Result<(), OutOfMemory>
        ensures { OnOk result (footprint_in self.new ≡ footprint_of step.now) }
    {
        if let Shape::Many(owner, kept) = self {
            if takes_deeds(kept, step)? {
                *owner = step.thread;
                return Ok(());
            }
        }
        *self = new_many(alloc, step)?;
        Ok(())
    }

    /// That of the same footprint, which shares its room.
    pub fn copy(&self) -> Result<Shape, OutOfMemory>
        ensures { IfOk result (λ copy. footprint_in copy ≡ footprint_in self.now) }
    {
        match self {
            Shape::Bare(ended, thread, event) => Ok(Shape::Bare(*ended, *thread, *event)),
            Shape::Single(thread, reach) => Ok(Shape::Single(*thread, reach.clone()?)),
            Shape::Many(thread, deeds) => Ok(Shape::Many(*thread, deeds.clone()?)),
        }
    }
}

/// Whether a step has no list.
pub(crate) fn is_bare(step: &Step<'_>) -> bool
    ensures { IsTrue result → plain step.now.thread step.now.event step.now.ended [] [] ≡ footprint_of step.now }
{
    is_none(step.accesses) && is_none(step.touched) && has_few(step)
}

// Whether a step made, freed and woke nothing.
fn has_few(step: &Step<'_>) -> bool
    ensures allocated { IsTrue result → [] ≡ step.now.allocated.now }
    ensures freed { IsTrue result → [] ≡ step.now.freed.now }
    ensures woken { IsTrue result → [] ≡ step.now.woken.now }
{
    is_none(step.allocated) && is_none(step.freed) && is_none(step.woken)
}

// Whether the step did nothing to a lock or a thread, and didn't end its own.
fn is_quiet(step: &Step<'_>) -> bool
    ensures { IsTrue result → (step.now.event ≡ Quiet) × (step.now.ended ≡ false) }
{
    matches!((step.event, step.ended), (Event::Quiet, false))
}

/// What a step reached that made one access and did nothing else.
pub(crate) fn reach_of(step: &Step<'_>) -> Option<Reach>
    ensures { IfSome result (λ reach. single step.now.thread reach ≡ footprint_of step.now) }
{
    if !(has_few(step) && is_quiet(step)) {
        return None;
    }
    match (step.accesses, step.touched) {
        ([access], [allocation]) => Some(Reach {
            access: *access,
            allocation: *allocation,
        }),
        _ => None,
    }
}

/// Whether two steps of one access reached the same.
pub(crate) fn same_reach(a: Reach, b: Reach) -> bool
    ensures { IsTrue result → a ≡ b }
{
    same_access(a.access, b.access) && same_id(a.allocation, b.allocation)
}

// Whether a room has what a step reached.
fn has_reach(kept: &Rc<Reach>, reach: Reach) -> bool
    ensures { IsTrue result → kept.now.value ≡ reach }
{
    same_reach(*kept.as_ref(), reach)
}

// Whether a room has what a step reached, or takes it, as nobody shares it.
fn takes_reach(kept: &mut Rc<Reach>, reach: Reach) -> bool
    ensures { IsTrue result → kept.new.value ≡ reach }
{
    if has_reach(&*kept, reach) {
        return true;
    }
    match Rc::get_mut(kept) {
        Some(room) => {
            *room = reach;
            true
        }
        None => false,
    }
}

// Whether a room has what a step did.
fn has_deeds(kept: &Rc<Deeds>, step: &Step<'_>) -> bool
    ensures { IsTrue result → many step.now.thread kept.now.value ≡ footprint_of step.now }
{
    kept.as_ref().are_of(step)
}

// Whether a room has what a step did, or takes it, as nobody shares it.
fn takes_deeds(kept: &mut Rc<Deeds>, step: &Step<'_>) -> Result<bool, OutOfMemory>
    ensures { IfOk result (λ taken. IsTrue taken → many step.now.thread kept.new.value ≡ footprint_of step.now) }
{
    if has_deeds(&*kept, step) {
        return Ok(true);
    }
    match Rc::get_mut(kept) {
        Some(room) => {
            room.refill(step)?;
            Ok(true)
        }
        None => Ok(false),
    }
}

// The shape of a step of a thread that made one access, in new room.
#[inline(never)]
fn new_single(alloc: Global, thread: u32, reach: Reach) -> Result<Shape, OutOfMemory>
    ensures { IfOk result (λ shape. footprint_in shape ≡ single thread reach) }
{
    let room = Rc::new(alloc, reach)?;
    Ok(Shape::Single(thread, room))
}

// The shape of a step with any lists, in new room.
#[inline(never)]
fn new_many(alloc: Global, step: &Step<'_>) -> Result<Shape, OutOfMemory>
    ensures { IfOk result (λ shape. footprint_in shape ≡ footprint_of step.now) }
{
    let deeds = Deeds::of(alloc, step)?;
    let room = Rc::new(alloc, deeds)?;
    Ok(Shape::Many(step.thread, room))
}
