//! What is kept of a completed step, and a race of two of them.

use crate::OutOfMemory;
use crate::lists::Step;
use crate::shape::{Reach, Shape};
use mr_base::{Access, AllocId, Event};
use std::alloc::Global;
use std::marker::Model;
use std::mem::size_of;
use std::slice::from_ref;

/// What a completed step read, changed and woke.
///
/// A footprint is kept for each step of a run, and most steps of a run do what an earlier one did: what they did is kept
/// once, and a footprint has its thread and where to find the rest. One of a step without lists takes no memory but its
/// own.
#[derive(Drop)]
pub struct Footprint {
    alloc: Global,
    shape: Shape,
}

const _: () = prove!(size_of::<Footprint>() <= 16);

impl Model for Footprint {
    ghost use Rattle.mr_event.specs.Footprint.{Footprint as Contents};

    ghost Value = { Contents };

    ghost use Rattle.mr_event.specs.Shape.{footprint_in};

    ghost view = { λ f. footprint_in f.shape };
}

impl Footprint {
    ghost use Rattle.std.specs.Prelude.{◌≡◌, ◌++◌, ◌∷◌, [], false, IfOk, OnErr, OnOk};
    ghost use Rattle.mr_base.specs.declared.thread.Event.TheVariants.{Quiet};
    ghost use Rattle.mr_event.specs.Lists.{footprint_of};
    ghost use Rattle.mr_event.specs.Shape.{footprint_in, plain, single};

    /// A step of thread 0 that did nothing.
    pub fn nothing(alloc: Global) -> Footprint
        ensures { result ≡ record {
          thread = 0;
          accesses = [];
          allocated = [];
          freed = [];
          touched = [];
          event = Quiet;
          ended = false;
          woken = [];
        } }
    {
        Footprint {
            alloc,
            shape: Shape::Bare(false, 0, Event::Quiet),
        }
    }

    /// The footprint of a step.
    pub fn of(alloc: Global, step: &Step<'_>) -> Result<Footprint, OutOfMemory>
        ensures { IfOk result (λ f. f ≡ footprint_of step.now) }
    {
        Ok(Footprint {
            alloc,
            shape: Shape::of(alloc, step)?,
        })
    }

    /// Takes the footprint of a step without lists.
    pub(crate) fn take_bare(&mut self, step: &Step<'_>)
        ensures { self.new ≡ plain step.now.thread step.now.event step.now.ended [] [] }
    {
        self.shape.take_bare(step);
    }

    /// Takes the footprint of a step of a thread that made one access, and did nothing else. It asks for memory only where
    /// others share its room.
    pub(crate) fn take_single(&mut self, thread: u32, reach: Reach) -> Result<(), OutOfMemory>
        ensures { OnOk result (self.new ≡ single thread reach) }
    {
        self.shape.take_single(self.alloc, thread, reach)
    }

    /// Takes the footprint of a step with any lists, likewise.
    pub(crate) fn take_many(&mut self, step: &Step<'_>) -> Result<(), OutOfMemory>
        ensures { OnOk result (self.new ≡ footprint_of step.now) }
    {
        self.shape.take_many(self.alloc, step)
    }

    /// A copy. It shares the room that this one has.
    pub fn copied(&self) -> Result<Footprint, OutOfMemory>
        ensures { IfOk result (λ f. f ≡ self.now) }
    {
        Ok(Footprint {
            alloc: self.alloc,
            shape: self.shape.copy()?,
        })
    }

    /// Appends a copy to others.
    pub fn push_to(&self, steps: &mut Vec<Footprint>) -> Result<(), OutOfMemory>
        ensures ok { OnOk result (steps.new.items ≡ steps.old.items ++ self.now ∷ []) }
        ensures err { OnErr result (steps.new.items ≡ steps.old.items) }
    {
        steps.reserve(1)?;
        let copy = self.copied()?;
        steps.push_reserved(copy);
        Ok(())
    }

    /// Puts a copy of another footprint in its place. After an `Err` it is what it was.
    pub fn copy_from(&mut self, other: &Footprint) -> Result<(), OutOfMemory>
        ensures ok { OnOk result (self.new ≡ other.now) }
        ensures err { OnErr result (self.new ≡ self.old) }
    {
        self.shape = other.shape.copy()?;
        Ok(())
    }

    /// The step, as it was told.
    pub fn step(&self) -> Step<'_>
        ensures { footprint_of result ≡ self.now }
    {
        Step {
            thread: self.thread(),
            event: self.event(),
            ended: self.ended(),
            accesses: self.accesses(),
            allocated: self.allocated(),
            freed: self.freed(),
            touched: self.touched(),
            woken: self.woken(),
        }
    }

    /// How it is kept.
    pub(crate) fn shape(&self) -> &Shape
        ensures { footprint_in result.now ≡ self.now }
    {
        &self.shape
    }

    /// The thread that took the step.
    pub fn thread(&self) -> u32
        ensures { result ≡ self.now.thread }
    {
        match &self.shape {
            Shape::Bare(_, thread, _) | Shape::Single(thread, _) | Shape::Many(thread, _) =>
                *thread,
        }
    }

    /// What it did to a lock or to another thread.
    pub fn event(&self) -> Event
        ensures { result ≡ self.now.event }
    {
        match &self.shape {
            Shape::Bare(_, _, event) => *event,
            Shape::Single(_, _) => Event::Quiet,
            Shape::Many(_, deeds) => deeds.as_ref().event,
        }
    }

    /// Whether the step ended its thread.
    pub fn ended(&self) -> bool
        ensures { result ≡ self.now.ended }
    {
        match &self.shape {
            Shape::Bare(ended, _, _) => *ended,
            Shape::Single(_, _) => false,
            Shape::Many(_, deeds) => deeds.as_ref().ended,
        }
    }

    /// Its loads and stores, in the order in which it made them.
    pub fn accesses(&self) -> &[Access]
        ensures { result.now ≡ self.now.accesses }
    {
        match &self.shape {
            Shape::Bare(_, _, _) => &[],
            Shape::Single(_, reach) => from_ref(&reach.as_ref().access),
            Shape::Many(_, deeds) => deeds.as_ref().lists.accesses.as_slice(),
        }
    }

    /// The allocations that it made.
    pub fn allocated(&self) -> &[AllocId]
        ensures { result.now ≡ self.now.allocated }
    {
        match &self.shape {
            Shape::Many(_, deeds) => deeds.as_ref().lists.allocated.as_slice(),
            _ => &[],
        }
    }

    /// The allocations that it freed.
    pub fn freed(&self) -> &[AllocId]
        ensures { result.now ≡ self.now.freed }
    {
        match &self.shape {
            Shape::Many(_, deeds) => deeds.as_ref().lists.freed.as_slice(),
            _ => &[],
        }
    }

    /// The allocations on which a range check of positive length passed.
    pub fn touched(&self) -> &[AllocId]
        ensures { result.now ≡ self.now.touched }
    {
        match &self.shape {
            Shape::Bare(_, _, _) => &[],
            Shape::Single(_, reach) => from_ref(&reach.as_ref().allocation),
            Shape::Many(_, deeds) => deeds.as_ref().lists.touched.as_slice(),
        }
    }

    /// The threads that it woke, by rising number.
    pub fn woken(&self) -> &[u32]
        ensures { result.now ≡ self.now.woken }
    {
        match &self.shape {
            Shape::Many(_, deeds) => deeds.as_ref().lists.woken.as_slice(),
            _ => &[],
        }
    }
}

/// A race, by the places of its two steps in the run, counted from 0.
#[derive(Clone, Copy, Debug, PartialEq, Eq)]
pub struct Pair {
    pub first: usize,
    pub second: usize,
}
