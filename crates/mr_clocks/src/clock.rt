//! A vector clock. (Lamport; FastTrack: vector clocks.)

ghost use Rattle.std.specs.Prelude.{◌≡◌, ◌≢◌, ℕ, ◌+◌, ◌<◌, ◌≤◌, ◌^◌, ◌↔◌, [], max, length, slice_index, IfOk, IsTrue, OnOk, OnErr};
ghost use Rattle.mr_clocks.specs.Clocks.{Follows};

use mr_event::OutOfMemory;
use std::alloc::Global;
use std::marker::Model;

/// A number for each thread: 0 for those past the end.
#[derive(Drop)]
pub(crate) struct Clock {
    times: Vec<u32>,
}

impl Model for Clock {
    ghost use Rattle.std.specs.Prelude.{List, ℕ};

    ghost Value = { List ℕ };

    ghost view = { λ c. c.times.items };
}

impl Clock {
    /// 0 for each thread.
    pub(crate) fn new(alloc: Global) -> Clock
        ensures { result ≡ [] }
    {
        Clock {
            times: Vec::new(alloc),
        }
    }

    /// The number of a thread.
    pub(crate) fn at(&self, thread: u32) -> u32
        ensures { result ≡ slice_index self.now thread }
    {
        match self.times.get(thread as usize) {
            Some(time) => *time,
            None => 0,
        }
    }

    /// The same numbers.
    pub(crate) fn copied(&self, alloc: Global) -> Result<Clock, OutOfMemory>
        ensures { IfOk result (λ c. c ≡ self.now) }
    {
        let mut times = Vec::new(alloc);
        times.extend_from_slice(self.times.as_slice())?;
        Ok(Clock { times })
    }

    /// Whether no number is above its bound. A thread past the end of the bounds has none.
    pub(crate) fn is_within(&self, bounds: &[usize]) -> bool
        ensures { IsTrue result
            ↔ ((t : ℕ) → t < length bounds.now → slice_index self.now t ≤ slice_index bounds.now t) }
    {
        for t in 0..self.times.len().min(bounds.len()) {
            if self.times[t] as usize > bounds[t] {
                return false;
            }
        }
        true
    }

    /// Raises the number of a thread, if it is lower.
    pub(crate) fn raise(&mut self, thread: u32, time: u32) -> Result<(), OutOfMemory>
        ensures own { OnOk result (slice_index self.new thread ≡ max (slice_index self.old thread) time) }
        ensures others { OnOk result ((t : ℕ) → t ≢ thread → slice_index self.new t ≡ slice_index self.old t) }
        ensures err { OnErr result (self.new ≡ self.old) }
    {
        if self.times.len() <= thread as usize {
            extend_past(&mut self.times, thread as usize)?;
        }
        self.times[thread as usize] = self.times[thread as usize].max(time);
        Ok(())
    }

    // Raises each number to that of another clock.
    fn join(&mut self, other: &Clock) -> Result<(), OutOfMemory>
        ensures { OnOk result
            ((t : ℕ) → slice_index self.new t ≡ max (slice_index self.old t) (slice_index other.now t)) }
    {
        if !other.times.is_empty() {
            extend_past(&mut self.times, other.times.len() - 1)?;
        }
        raise_all(self.times.as_mut_slice(), other.times.as_slice());
        Ok(())
    }

    /// Brings step `i` of a thread, and all that lies under its own clock, under this one.
    pub(crate) fn follow(&mut self, other: &Clock, thread: u32, i: u32) -> Result<(), OutOfMemory>
        requires { i + 1 < 2 ^ 32 }
        ensures { OnOk result (Follows self.old other.now thread i self.new) }
    {
        self.join(other)?;
        self.raise(thread, i + 1)
    }
}

// Raises each number to that of the same thread.
fn raise_all(times: &mut [u32], others: &[u32])
    requires { length others.now ≤ length times.old }
    ensures { (t : ℕ) → slice_index times.new t ≡ max (slice_index times.old t) (slice_index others.now t) }
{
    for t in 0..others.len() {
        times[t] = times[t].max(others[t]);
    }
}

/// Appends zeros until there is a number at `last`.
pub(crate) fn extend_past(times: &mut Vec<u32>, last: usize) -> Result<(), OutOfMemory>
    requires { last + 1 < 2 ^ 64 }
    ensures long { OnOk result (last < length times.new.items) }
    ensures grown { OnOk result (length times.old.items ≤ length times.new.items) }
    ensures same { OnOk result ((t : ℕ) → slice_index times.new.items t ≡ slice_index times.old.items t) }
    ensures err { OnErr result (times.new.items ≡ times.old.items) }
{
    if last < times.len() {
        return Ok(());
    }
    let missing = last - times.len() + 1;
    times.reserve(missing)?;
    for k in 0..missing {
        times.push_reserved(0);
    }
    Ok(())
}
