//! Small lists of allocations and of threads, as a step notes them.

use crate::{AllocId, OutOfMemory};
use std::alloc::Global;
use std::marker::Model;

/// A list of allocations.
#[derive(Drop)]
pub struct AllocIds {
    items: Vec<AllocId>,
}

impl Model for AllocIds {
    ghost use Rattle.std.specs.Prelude.{List};
    ghost use Rattle.mr_base.specs.declared.byte.AllocId.{AllocId};

    ghost Value = { List AllocId };

    ghost view = { λ a. a.items.items };
}

impl AllocIds {
    ghost use Rattle.std.specs.Prelude.{◌≡◌, ◌∷◌, ◌++◌, ◌<◌, [], OnOk, OnErr, OnSome, length, slice_get};
    ghost use Rattle.std.specs.Option.{option_copied};

    /// No allocation.
    pub fn new(alloc: Global) -> AllocIds
        ensures { result ≡ [] }
    {
        AllocIds {
            items: Vec::new(alloc),
        }
    }

    /// Appends an allocation.
    pub fn push(&mut self, id: AllocId) -> Result<(), OutOfMemory>
        ensures ok { OnOk result (self.new ≡ self.old ++ id ∷ []) }
        ensures err { OnErr result (self.new ≡ self.old) }
    {
        self.items.push(id)?;
        Ok(())
    }

    /// Takes every allocation out. The memory that they had stays for others.
    pub fn clear(&mut self)
        ensures { self.new ≡ [] }
    {
        self.items.clear();
    }

    /// How many there are.
    pub fn len(&self) -> usize
        ensures { result ≡ length self.now }
    {
        self.items.len()
    }

    /// The one at a place of the list, counted from 0.
    pub fn get(&self, at: usize) -> Option<&AllocId>
        ensures value { option_copied result ≡ slice_get self.now at }
        ensures within { OnSome result (at < length self.now) }
    {
        self.items.get(at)
    }

    /// All of them.
    pub fn as_slice(&self) -> &[AllocId]
        ensures { result.now ≡ self.now }
    {
        self.items.as_slice()
    }
}

/// A list of threads.
#[derive(Drop)]
pub struct ThreadIds {
    items: Vec<u32>,
}

impl Model for ThreadIds {
    ghost use Rattle.std.specs.Prelude.{List, ℕ};

    ghost Value = { List ℕ };

    ghost view = { λ t. t.items.items };
}

impl ThreadIds {
    ghost use Rattle.std.specs.Prelude.{◌≡◌, ◌∷◌, ◌++◌, ◌<◌, [], OnOk, OnErr, OnSome, length, slice_get};
    ghost use Rattle.std.specs.Option.{option_copied};

    /// No thread.
    pub fn new(alloc: Global) -> ThreadIds
        ensures { result ≡ [] }
    {
        ThreadIds {
            items: Vec::new(alloc),
        }
    }

    /// Appends a thread.
    pub fn push(&mut self, thread: u32) -> Result<(), OutOfMemory>
        ensures ok { OnOk result (self.new ≡ self.old ++ thread ∷ []) }
        ensures err { OnErr result (self.new ≡ self.old) }
    {
        self.items.push(thread)?;
        Ok(())
    }

    /// How many there are.
    pub fn len(&self) -> usize
        ensures { result ≡ length self.now }
    {
        self.items.len()
    }

    /// The one at a place of the list, counted from 0.
    pub fn get(&self, at: usize) -> Option<&u32>
        ensures value { option_copied result ≡ slice_get self.now at }
        ensures within { OnSome result (at < length self.now) }
    {
        self.items.get(at)
    }

    /// All of them.
    pub fn as_slice(&self) -> &[u32]
        ensures { result.now ≡ self.now }
    {
        self.items.as_slice()
    }
}
