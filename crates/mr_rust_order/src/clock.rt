//! A vector clock. (Lamport; FastTrack: vector clocks.)

ghost use Rattle.std.specs.Prelude.{◌≡◌, ◌≢◌, ℕ, ◌+◌, ◌<◌, ◌≤◌, ◌^◌, [], max, length, slice_index, OnOk};
ghost use Rattle.mr_rust_order.specs.Clocks.{IsJoin};

use mr_event::OutOfMemory;
use std::alloc::Global;
use std::marker::Model;

/// A number for each thread: 0 for those past the end.
#[derive(Drop)]
pub struct Clock {
    times: Vec<usize>,
}

impl Model for Clock {
    ghost use Rattle.std.specs.Prelude.{List, ℕ};

    ghost Value = { List ℕ };

    ghost view = { λ c. c.times.items };
}

impl Clock {
    /// 0 for each thread.
    pub(crate) fn new(alloc: Global) -> Clock
        ensures { result ≡ [] }
    {
        Clock {
            times: Vec::new(alloc),
        }
    }

    /// The number of a thread.
    pub(crate) fn at(&self, thread: u32) -> usize
        ensures { result ≡ slice_index self.now thread }
    {
        match self.times.get(thread as usize) {
            Some(time) => *time,
            None => 0,
        }
    }

    /// Takes the numbers of another clock in the place of its own.
    pub(crate) fn copy(&mut self, other: &Clock) -> Result<(), OutOfMemory>
        ensures { OnOk result (self.new ≡ other.now) }
    {
        self.times.clear();
        self.times.extend_from_slice(other.times.as_slice())
    }

    /// Raises the number of a thread, if it is lower.
    pub(crate) fn raise(&mut self, thread: u32, time: usize) -> Result<(), OutOfMemory>
        ensures own { OnOk result (slice_index self.new thread ≡ max (slice_index self.old thread) time) }
        ensures others { OnOk result ((t : ℕ) → t ≢ thread → slice_index self.new t ≡ slice_index self.old t) }
    {
        if self.times.len() <= thread as usize {
            extend_past(&mut self.times, thread as usize)?;
        }
        self.times[thread as usize] = self.times[thread as usize].max(time);
        Ok(())
    }

    /// Raises each number to that of another clock.
    pub(crate) fn join(&mut self, other: &Clock) -> Result<(), OutOfMemory>
        ensures { OnOk result (IsJoin self.old other.now self.new) }
    {
        if !other.times.is_empty() {
            extend_past(&mut self.times, other.times.len() - 1)?;
        }
        raise_all(self.times.as_mut_slice(), other.times.as_slice());
        Ok(())
    }
}

// Raises each number to that of the same thread.
fn raise_all(times: &mut [usize], others: &[usize])
    requires { length others.now ≤ length times.old }
    ensures { (t : ℕ) → slice_index times.new t ≡ max (slice_index times.old t) (slice_index others.now t) }
{
    for t in 0..others.len() {
        times[t] = times[t].max(others[t]);
    }
}

// Appends zeros until there is a number at `last`.
fn extend_past(times: &mut Vec<usize>, last: usize) -> Result<(), OutOfMemory>
    requires { last + 1 < 2 ^ 64 }
    ensures long { OnOk result (last < length times.new.items) }
    ensures grown { OnOk result (length times.old.items ≤ length times.new.items) }
    ensures same { OnOk result ((t : ℕ) → slice_index times.new.items t ≡ slice_index times.old.items t) }
{
    if last < times.len() {
        return Ok(());
    }
    let missing = last - times.len() + 1;
    times.reserve(missing)?;
    for k in 0..missing {
        times.push_reserved(0);
    }
    Ok(())
}
