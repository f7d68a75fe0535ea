//! What is noted of accesses and range checks.
use crate::plain::Plain;
use mr_base::{Access, Accesses, AllocIds, Pointer, Reached, Reaching};
use mr_value::Val;
use std::alloc::{AllocError, Global};

/// What evaluation notes of what it read: its accesses in order, and the allocations that its range checks touched. Beside
/// these the bytes that were refused last, by which a stop is told; they stay where the others are forgotten. So do two lists of
/// which no definition speaks: they keep the memory of an intrinsic's arguments for the next one.
#[derive(Drop)]
pub struct Notes {
    pub accesses: Accesses,
    pub touched: AllocIds,
    /// The bytes that were refused last.
    pub refused: Option<Reached>,
    /// A list for the values of arguments, whatever it holds.
    pub spare_values: Vec<Val>,
    /// A list for their types, whatever it holds.
    pub spare_types: Vec<Plain>,
}

impl Notes {
    ghost use Rattle.std.specs.Prelude.{◌≡◌, [], OnOk, Some};
    ghost use Rattle.mr_base.specs.Stops.{reached_by};
    ghost use Rattle.mr_eval.specs.Answers.{Extends, seen};
    ghost use Rattle.mr_eval.specs.Reads.{accessing, seeing, touching};

    /// Nothing noted.
    pub fn new(alloc: Global) -> Notes
        ensures { seen result ≡ record { accesses = []; touched = [] } }
    {
        Notes {
            accesses: Accesses::new(alloc),
            touched: AllocIds::new(alloc),
            refused: None,
            spare_values: Vec::new(alloc),
            spare_types: Vec::new(alloc),
        }
    }

    /// Forgets all that was noted.
    pub fn clear(&mut self)
        ensures { seen self.new ≡ record { accesses = []; touched = [] } }
    {
        self.accesses.clear();
        self.touched.clear();
    }

    /// Notes the bytes that are refused.
    #[cold]
    #[inline(never)]
    pub fn refuse(&mut self, doing: Reaching, pointer: Pointer, len: u64)
        ensures last { self.new.refused ≡ Some (reached_by doing pointer len) }
        ensures kept { seen self.new ≡ seen self.old }
    {
        self.refused = Some(Reached {
            doing,
            pointer,
            len,
        });
    }

    /// Notes what a range check of this pointer and length touches.
    #[tactic(auto, using(crate::proofs::ExtendsLaws::extends_laws))]
    pub fn touch(&mut self, p: Pointer, len: u64) -> Result<(), AllocError>
        ensures noted { OnOk result (seen self.new ≡ seeing [] (touching p len) (seen self.old)) }
        ensures kept { Extends (seen self.old) (seen self.new) }
    {
        if len != 0 {
            if let Some(id) = p.prov {
                self.touched.push(id)?;
            }
        }
        Ok(())
    }

    /// Notes a load or a store of this length in bytes.
    #[tactic(auto, using(crate::proofs::ExtendsLaws::extends_laws))]
    pub fn access(
        &mut self,
        store: bool,
        atomic: bool,
        p: Pointer,
        len: u64,
    ) -> Result<(), AllocError>
        ensures noted { OnOk result (seen self.new ≡ seeing (accessing store atomic p len) [] (seen self.old)) }
        ensures kept { Extends (seen self.old) (seen self.new) }
    {
        if len != 0 {
            self.accesses.add(Access {
                store,
                atomic,
                addr: p.addr,
                len,
            })?;
        }
        Ok(())
    }
}
