//! The accesses of a step.

use crate::{Access, OutOfMemory};
use smallvec::SmallVec;
use std::alloc::Global;
use std::marker::Model;

/// The accesses of a step, in the order in which it makes them. Most steps make two at most.
#[derive(Drop)]
pub struct Accesses {
    items: SmallVec<Access, 2>,
}

impl Model for Accesses {
    ghost use Rattle.std.specs.Prelude.{List};
    ghost use Rattle.mr_base.specs.declared.access.Access.{Access};

    ghost Value = { List Access };

    ghost view = { λ a. a.items.items };
}

impl Accesses {
    ghost use Rattle.std.specs.Prelude.{◌≡◌, ◌<◌, ◌++◌, ◌∷◌, [], length, slice_get, OnErr, OnOk};

    /// No access.
    pub fn new(alloc: Global) -> Accesses
        ensures { result ≡ [] }
    {
        Accesses {
            items: SmallVec::new(alloc),
        }
    }

    /// Appends an access.
    pub fn add(&mut self, access: Access) -> Result<(), OutOfMemory>
        ensures ok { OnOk result (self.new ≡ self.old ++ access ∷ []) }
        ensures err { OnErr result (self.new ≡ self.old) }
    {
        self.items.push(access)?;
        Ok(())
    }

    /// Takes every access out. The memory that they had stays for others.
    pub fn clear(&mut self)
        ensures { self.new ≡ [] }
    {
        self.items.clear();
    }

    /// How many there are.
    pub fn len(&self) -> usize
        ensures { result ≡ length self.now }
    {
        self.items.len()
    }

    /// The access with the number `n`, counted from 0; `None` past the last.
    pub fn get(&self, n: usize) -> Option<Access>
        ensures { result ≡ slice_get self.now n }
    {
        self.items.as_slice().get(n).copied()
    }

    /// All of them.
    pub fn as_slice(&self) -> &[Access]
        ensures { result.now ≡ self.now }
    {
        self.items.as_slice()
    }
}
