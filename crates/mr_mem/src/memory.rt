//! The allocations of a run, and what is asked of them.
ghost use Rattle.std.specs.Prelude.{◌≡◌, None, OnErr, OnOk};
ghost use Rattle.std.specs.List.{list_any};
ghost use Rattle.std.specs.BTreeMap.{IsOrdered};
ghost use Rattle.mr_mem.specs.Memory.{free_fault, held, id_cmp, is_bad_address, is_leak, is_multiple, kind_number, ranges_of, refusal, without_life};
ghost use Rattle.mr_mem.specs.Spans.{AreSpansOf, IsFree};
ghost use Rattle.mr_mem.specs.Stored.{allocation_of, entries_of, memory_of};
ghost use Rattle.std.specs.FinMap as fin;

use crate::fault::{Fault, PickFault};
use crate::ranges::{extent, lent, missed, put, put_numbers, put_repeated, stored_at};
use crate::spans::{Span, Spans};
use mr_base::{AbstractByte, AllocId, Kind, Pointer, Reason};
use mr_runs::{Runs, View};
use std::alloc::{AllocError, Global};
use std::collections::BTreeMap;
use std::marker::Model;

/// An allocation with its bytes.
#[derive(Drop)]
pub struct Stored {
    pub addr: u64,
    pub span: u64,
    pub align: u64,
    pub kind: Kind,
    pub live: bool,
    pub bytes: Runs,
}

/// The allocations of a run, dead and live. (MiniRust, mem: the basic memory.)
///
/// They are kept by their identities, and the addresses that they take in the order of the addresses.
#[derive(Drop)]
pub struct Memory {
    allocations: BTreeMap<AllocId, Stored>,
    spans: Spans,
    alloc: Global,
}

impl Model for Memory {
    ghost use Rattle.mr_mem.specs.Memory.{Memory as Allocations, ranges_of};

    ghost Value = { Allocations };

    ghost use Rattle.std.specs.FinMap as fin;
    ghost use Rattle.std.specs.Coded.{codes};

    ghost coded = { fin.code (Prim.hlevel codes) (Prim.hlevel codes) };

    ghost use Rattle.mr_mem.specs.Spans.{AreSpansOf};
    ghost use Rattle.mr_mem.specs.Stored.{memory_of};

    ghost view = { λ m. memory_of m.allocations.entries };

    ghost invariant = { λ m. AreSpansOf m.spans (ranges_of (memory_of m.allocations.entries)) };
}

// How many bytes an allocation of this size holds.
fn held_by(kind: Kind, size: u64) -> u64
    ensures { result ≡ held kind size }
{
    match kind {
        Kind::Function => 0,
        Kind::Heap | Kind::Stack | Kind::Static => size,
    }
}

impl Memory {
    ghost use Rattle.std.specs.Prelude.{◌≡◌, ◌+◌, ◌-◌, ◌<◌, ◌≤◌, ◌^◌, MatchResult, OnOk, OnErr, IfOk, [], Some, None, Ok, Err, replicate};
    ghost use Rattle.mr_base.specs.declared.byte.AbstractByte.TheVariants.{Uninit};
    ghost use Rattle.mr_runs.specs.Numbers.{with_provenance};
    ghost use Rattle.mr_runs.specs.Pieces.{AreMaximal};
    ghost use Rattle.mr_mem.specs.Stored.{IsStored, seen_view};
    ghost use Rattle.std.specs.FinMap as fin;
    ghost use Rattle.mr_mem.specs.Memory.{pick_fault, allocated, checked, extent_of, first_overlapped, freed, leaks as is_leaking, ranges_of, read, written, IsPowerOfTwo, IsAsked};

    /// No allocation.
    pub fn new(alloc: Global) -> Memory
        ensures { result ≡ fin.empty }
    {
        Memory {
            allocations: BTreeMap::new(alloc),
            spans: Spans::new(alloc),
            alloc,
        }
    }

    /// Adds an allocation whose bytes are uninitialised. It fails only where the host's memory runs out.
    pub fn allocate(
        &mut self,
        id: AllocId,
        kind: Kind,
        size: u64,
        align: u64,
        addr: u64,
    ) -> Result<(), AllocError>
        requires new { fin.get self.old id ≡ None }
        requires lawful { pick_fault self.old addr size align ≡ None }
        requires size { size < 2 ^ 63 }
        requires align { IsPowerOfTwo align }
        requires asked { IsAsked kind size align }
        ensures ok { OnOk result (self.new ≡ allocated self.old id kind size align addr) }
        ensures err { OnErr result (self.new ≡ self.old) }
    {
        let bytes = Runs::uninit(self.alloc, held_by(kind, size))?;
        let stored = Stored {
            addr,
            span: size,
            align,
            kind,
            live: true,
            bytes,
        };
        enter(&mut self.allocations, &mut self.spans, id, stored)?;
        Ok(())
    }

    /// Whether an address may be picked for a new allocation of this size and alignment. Where no allocation is overlapped,
    /// the time for it grows as the logarithm of their number.
    #[tactic(auto, unfolding(crate::specs::Memory::range_fault))]
    pub fn lawful(&self, addr: u64, size: u64, align: u64) -> Result<(), PickFault>
        ensures { MatchResult result (λ _. pick_fault self.now addr size align ≡ None)
            (λ f. pick_fault self.now addr size align ≡ Some f) }
    {
        if is_bad(addr, size, align) {
            return Err(PickFault::BadAddress);
        }
        match self.first_shared(addr, size) {
            Some(id) => Err(PickFault::Reused(id)),
            None => Ok(()),
        }
    }

    // The first allocation, in the order of identities, whose range the new one shares.
    fn first_shared(&self, addr: u64, size: u64) -> Option<AllocId>
        requires { addr + size ≤ 2 ^ 64 }
        ensures { result ≡ first_overlapped addr size (ranges_of self.now) }
    {
        self.spans.least_overlapped(addr, size)
    }

    /// Frees the allocation that the pointer begins, and names it. Of several reasons against it the first is given: no
    /// provenance, a dead allocation, then another address, kind, size or alignment.
    #[tactic(auto, unfolding(crate::specs::Memory::freed))]
    pub fn deallocate(
        &mut self,
        p: Pointer,
        kind: Kind,
        size: u64,
        align: u64,
    ) -> Result<AllocId, Reason>
        ensures freed { MatchResult result (λ id. freed self.old p kind size align ≡ Ok (id, self.new))
            (λ r. freed self.old p kind size align ≡ Err r) }
        ensures err { OnErr result (self.new ≡ self.old) }
    {
        let Some(id) = p.prov else {
            return Err(Reason::NoProvenance);
        };
        if let Some(reason) = against_free(&self.allocations, id, p.addr, kind, size, align) {
            return Err(reason);
        }
        end_life(&mut self.allocations, id);
        Ok(id)
    }

    /// The range check: the provenance of the pointer, where the `len` bytes from it on lie in its live allocation. No bytes
    /// lie everywhere, and in no allocation.
    pub fn check(&self, p: Pointer, len: u64) -> Result<Option<AllocId>, Reason>
        ensures { result ≡ checked self.now p len }
    {
        if len == 0 {
            return Ok(None);
        }
        missed(stored_at(&self.allocations, p.prov), p.addr, len)?;
        Ok(p.prov)
    }

    /// The address and the size of an allocation, dead or live; None exactly where none has the identity.
    pub fn range(&self, id: AllocId) -> Option<(u64, u64)>
        ensures { result ≡ extent_of (fin.get self.now id) }
    {
        extent(stored_at(&self.allocations, Some(id)))
    }

    /// Lends the `len` bytes from the pointer on in as few pieces as can be, and no piece where they are none. Misalignment is told
    /// before the range check.
    pub fn load(&self, p: Pointer, len: u64, align: u64) -> Result<View<'_>, Reason>
        ensures lent { seen_view result ≡ read self.now p len align }
        ensures empty { len ≡ 0 → IfOk result (λ view. view ≡ []) }
        ensures maximal { IfOk result AreMaximal }
    {
        if !is_multiple(p.addr, align) {
            return Err(Reason::Misaligned);
        }
        if len == 0 {
            return Ok(View::empty());
        }
        lent(stored_at(&self.allocations, p.prov), p.addr, len)
    }

    /// Replaces the bytes from the pointer on. Misalignment is told before the range check. A refused call changes nothing.
    pub fn store(&mut self, p: Pointer, bytes: &[AbstractByte], align: u64) -> Result<(), Fault>
        ensures stored { IsStored (written self.old p bytes.now align) self.new result }
        ensures err { OnErr result (self.new ≡ self.old) }
    {
        if !is_multiple(p.addr, align) {
            return Err(Fault::Undefined(Reason::Misaligned));
        }
        if bytes.is_empty() {
            return Ok(());
        }
        match p.prov {
            Some(id) => put(&mut self.allocations, id, p.addr, bytes),
            None => Err(Fault::Undefined(Reason::NoProvenance)),
        }
    }

    /// Stores initialised bytes with these numbers and one provenance, as [`Memory::store`] stores them.
    #[inline(always)]
    pub fn store_numbers(
        &mut self,
        p: Pointer,
        numbers: &[u8],
        provenance: Option<AllocId>,
        align: u64,
    ) -> Result<(), Fault>
        ensures stored { IsStored (written self.old p (with_provenance provenance numbers.now) align) self.new result }
        ensures err { OnErr result (self.new ≡ self.old) }
    {
        if !is_multiple(p.addr, align) {
            return Err(Fault::Undefined(Reason::Misaligned));
        }
        if numbers.is_empty() {
            return Ok(());
        }
        match p.prov {
            Some(id) => put_numbers(&mut self.allocations, id, p.addr, numbers, provenance),
            None => Err(Fault::Undefined(Reason::NoProvenance)),
        }
    }

    /// Makes the `len` bytes from the pointer on uninitialised, as a store of such bytes does.
    pub fn deinit(&mut self, p: Pointer, len: u64, align: u64) -> Result<(), Fault>
        ensures stored { IsStored (written self.old p (replicate len Uninit) align) self.new result }
        ensures err { OnErr result (self.new ≡ self.old) }
    {
        self.fill(p, len, AbstractByte::Uninit, align)
    }

    /// Puts `byte` in place of each of the `len` bytes from the pointer on, as a store of such bytes does.
    pub fn fill(
        &mut self,
        p: Pointer,
        len: u64,
        byte: AbstractByte,
        align: u64,
    ) -> Result<(), Fault>
        ensures stored { IsStored (written self.old p (replicate len byte) align) self.new result }
        ensures err { OnErr result (self.new ≡ self.old) }
    {
        if !is_multiple(p.addr, align) {
            return Err(Fault::Undefined(Reason::Misaligned));
        }
        if len == 0 {
            return Ok(());
        }
        match p.prov {
            Some(id) => put_repeated(&mut self.allocations, id, p.addr, len, byte),
            None => Err(Fault::Undefined(Reason::NoProvenance)),
        }
    }

    /// Whether a heap allocation is live.
    #[tactic(auto, using(crate::proofs::Views::entries), unfolding(crate::specs::Memory::leaks))]
    pub fn leaks(&self) -> bool
        ensures { result ≡ is_leaking self.now }
    {
        any_leak(&self.allocations)
    }
}

// Whether the address is 0, misaligned, or too high for the size.
fn is_bad(addr: u64, size: u64, align: u64) -> bool
    ensures { result ≡ is_bad_address addr size align }
{
    addr == 0 || align == 0 || addr % align != 0 || addr - 1 > u64::MAX - size
}

// A number above 0 is no multiple of 0.
fn is_multiple(addr: u64, align: u64) -> bool
    ensures { result ≡ is_multiple addr align }
{
    align != 0 && addr % align == 0
}

// Enters an allocation under its identity.
fn enter_by_identity(
    allocations: &mut BTreeMap<AllocId, Stored>,
    id: AllocId,
    stored: Stored,
) -> Result<(), AllocError>
    ensures ok { OnOk result
        (memory_of allocations.new.entries ≡ fin.insert (memory_of allocations.old.entries) id (allocation_of stored)) }
    ensures err { OnErr result (memory_of allocations.new.entries ≡ memory_of allocations.old.entries) }
{
    allocations.insert(id, stored)?;
    Ok(())
}

// Enters an allocation under its identity and, where it has an address, its span; or neither.
fn enter(
    allocations: &mut BTreeMap<AllocId, Stored>,
    spans: &mut Spans,
    id: AllocId,
    stored: Stored,
) -> Result<(), AllocError>
    requires absent { fin.get (memory_of allocations.old.entries) id ≡ None }
    requires spans { AreSpansOf spans.old (ranges_of (memory_of allocations.old.entries)) }
    requires free { IsFree spans.old stored.addr stored.span }
    ensures ok { OnOk result
        (memory_of allocations.new.entries ≡ fin.insert (memory_of allocations.old.entries) id (allocation_of stored)) }
    ensures err { OnErr result (memory_of allocations.new.entries ≡ memory_of allocations.old.entries) }
    ensures spans { AreSpansOf spans.new (ranges_of (memory_of allocations.new.entries)) }
{
    let start = stored.addr;
    let size = stored.span;
    if size == 0 {
        return enter_by_identity(allocations, id, stored);
    }
    spans.add(start, Span { size, id })?;
    match enter_by_identity(allocations, id, stored) {
        Ok(()) => Ok(()),
        Err(full) => {
            spans.remove(start);
            Err(full)
        }
    }
}

// The first reason against freeing what has the identity.
fn against_free(
    allocations: &BTreeMap<AllocId, Stored>,
    id: AllocId,
    addr: u64,
    kind: Kind,
    size: u64,
    align: u64,
) -> Option<Reason>
    ensures { result ≡ refusal (fin.get (memory_of allocations.now.entries) id) addr kind size align }
{
    match allocations.get(&id) {
        None => Some(Reason::NoProvenance),
        Some(a) => fault_of_free(a, addr, kind, size, align),
    }
}

// Marks the allocation dead, where there is one.
fn end_life(allocations: &mut BTreeMap<AllocId, Stored>, id: AllocId)
    ensures { memory_of allocations.new.entries
        ≡ without_life (memory_of allocations.old.entries) id (fin.get (memory_of allocations.old.entries) id) }
{
    if let Some(a) = allocations.get_mut(&id) {
        a.live = false;
    }
}

fn number_of(kind: Kind) -> u8
    ensures { result ≡ kind_number kind }
{
    match kind {
        Kind::Heap => 0,
        Kind::Stack => 1,
        Kind::Static => 2,
        Kind::Function => 3,
    }
}

// The first reason against freeing the allocation so.
#[tactic(auto, unfolding(crate::specs::Memory::free_fault))]
fn fault_of_free(a: &Stored, addr: u64, kind: Kind, size: u64, align: u64) -> Option<Reason>
    ensures { result ≡ free_fault (allocation_of a.now) addr kind size align }
{
    if !a.live {
        return Some(Reason::DeadAllocation);
    }
    if addr != a.addr {
        return Some(Reason::FreeAddress);
    }
    if number_of(kind) != number_of(a.kind) {
        return Some(Reason::FreeKind);
    }
    if size != a.bytes.len() {
        return Some(Reason::FreeSize);
    }
    if align != a.align {
        return Some(Reason::FreeAlign);
    }
    None
}

fn any_leak(allocations: &BTreeMap<AllocId, Stored>) -> bool
    ensures any { result ≡ list_any is_leak (entries_of allocations.now.entries) }
    ensures ordered { IsOrdered id_cmp allocations.now }
{
    for (_, a) in allocations.iter() {
        if a.live && number_of(a.kind) == 0 {
            return true;
        }
    }
    false
}
