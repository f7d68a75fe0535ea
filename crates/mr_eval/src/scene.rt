//! What a step changes: memory, and what it notes of that.
use crate::notes::Notes;
use mr_base::{AllocId, AllocIds, Kind, Pointer, Reaching};
use mr_mem::{Fault, Memory};
use std::alloc::{AllocError, Global};

/// What a step of a thread changes of memory, and what it notes of that.
#[derive(Drop)]
pub struct Scene {
    pub memory: Memory,
    pub notes: Notes,
    /// The allocations that it made.
    pub made: AllocIds,
    /// The address and the size of each of them, in bytes.
    pub ranges: Vec<(u64, u64)>,
    /// The allocations that it freed.
    pub freed: AllocIds,
    pub thread: u32,
    /// How many allocations the thread has made.
    pub count: u64,
}

impl Scene {
    ghost use Rattle.std.specs.Prelude.{◌≡◌, ◌+◌, ◌<◌, ◌^◌, IfOk, None};
    ghost use Rattle.std.specs.FinMap as fin;
    ghost use Rattle.mr_mem.specs.Memory.{IsAsked, IsPowerOfTwo, pick_fault};
    ghost use Rattle.mr_base.specs.Script.{Went};
    ghost use Rattle.mr_eval.specs.Environment.{Tells};
    ghost use Rattle.mr_eval.specs.MemoryQueries.{Allocate, Free, memory_answer, next_id};
    ghost use Rattle.mr_eval.specs.Tally.{start_tally};
    ghost use Rattle.mr_eval.specs.World.{tally_of, world_of};

    /// The scene of a step that begins: nothing is noted yet.
    pub fn new(alloc: Global, memory: Memory, thread: u32, count: u64) -> Scene
        ensures { world_of result ≡ (memory, start_tally thread count) }
    {
        Scene {
            memory,
            notes: Notes::new(alloc),
            made: AllocIds::new(alloc),
            ranges: Vec::new(alloc),
            freed: AllocIds::new(alloc),
            thread,
            count,
        }
    }

    /// The same memory in the next step, that of a thread which has made so many allocations: nothing is noted yet.
    pub fn begin(&mut self, thread: u32, count: u64)
        ensures { world_of self.new ≡ (self.old.memory, start_tally thread count) }
    {
        self.notes.clear();
        self.made.clear();
        self.ranges.clear();
        self.freed.clear();
        self.thread = thread;
        self.count = count;
    }

    /// A new allocation of the thread at a picked address. Size and alignment are in bytes.
    pub fn allocate(
        &mut self,
        kind: Kind,
        size: u64,
        align: u64,
        addr: u64,
    ) -> Result<Pointer, AllocError>
        requires count { self.old.count + 1 < 2 ^ 64 }
        requires new { fin.get self.old.memory (next_id (tally_of self.old)) ≡ None }
        requires lawful { pick_fault self.old.memory addr size align ≡ None }
        requires size { size < 2 ^ 63 }
        requires align { IsPowerOfTwo align }
        requires asked { IsAsked kind size align }
        ensures { IfOk result
            (λ p. memory_answer (Allocate kind size align addr) (world_of self.old) ≡ Went p (world_of self.new)) }
    {
        let id = AllocId {
            thread: self.thread,
            count: self.count,
        };
        self.memory.allocate(id, kind, size, align, addr)?;
        self.made.push(id)?;
        self.ranges.push((addr, size))?;
        self.count += 1;
        Ok(Pointer {
            addr,
            prov: Some(id),
        })
    }

    /// Ends the allocation that a pointer begins, with these size and alignment in bytes.
    pub fn free(&mut self, p: Pointer, kind: Kind, size: u64, align: u64) -> Result<(), Fault>
        ensures { Tells result (memory_answer (Free p kind size align) (world_of self.old))
            (world_of self.new) self.new.notes.refused }
    {
        match self.memory.deallocate(p, kind, size, align) {
            Ok(id) => {
                self.freed.push(id)?;
                Ok(())
            }
            Err(reason) => {
                self.notes.refuse(Reaching::Frees, p, size);
                Err(Fault::Undefined(reason))
            }
        }
    }
}
