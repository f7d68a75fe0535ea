//! Ranges of the bytes of an allocation.
ghost use Rattle.std.specs.Prelude.{◌≡◌, IfOk, OnErr, Some, option_copied, option_map, replicate};
ghost use Rattle.std.specs.FinMap as fin;
ghost use Rattle.mr_runs.specs.Numbers.{with_provenance};
ghost use Rattle.mr_runs.specs.Pieces.{AreMaximal};
ghost use Rattle.mr_mem.specs.Memory.{bytes_at, extent_of, found, inside, put_at, then_give};
ghost use Rattle.mr_mem.specs.Stored.{IsStored, IsStoredIn, allocation_of, memory_of, seen_view};

use crate::fault::Fault;
use crate::memory::Stored;
use mr_base::{AbstractByte, AllocId, Reason};
use mr_runs::View;
use std::collections::BTreeMap;

// Why a range doesn't lie in an allocation, if it doesn't.
fn range_fault(a: &Stored, addr: u64, len: u64) -> Result<(), Reason>
    ensures { result ≡ then_give (inside (Some (allocation_of a.now)) addr len) (λ _. tt) }
{
    if !a.live {
        return Err(Reason::DeadAllocation);
    }
    if addr < a.addr || addr - a.addr > a.bytes.len() || len > a.bytes.len() - (addr - a.addr) {
        return Err(Reason::OutOfBounds);
    }
    Ok(())
}

/// The allocation of a provenance, if it names one.
pub fn stored_at(allocations: &BTreeMap<AllocId, Stored>, prov: Option<AllocId>) -> Option<&Stored>
    ensures { option_map allocation_of (option_copied result) ≡ found (memory_of allocations.now.entries) prov }
{
    match prov {
        Some(id) => allocations.get(&id),
        None => None,
    }
}

/// The address and the size of an allocation, where there is one.
pub fn extent(a: Option<&Stored>) -> Option<(u64, u64)>
    ensures { result ≡ extent_of (option_map allocation_of (option_copied a.entry)) }
{
    match a {
        Some(a) => Some((a.addr, a.bytes.len())),
        None => None,
    }
}

/// Why a range doesn't lie in what a provenance names, if it doesn't.
pub fn missed(a: Option<&Stored>, addr: u64, len: u64) -> Result<(), Reason>
    ensures { result ≡ then_give (inside (option_map allocation_of (option_copied a.entry)) addr len) (λ _. tt) }
{
    match a {
        Some(a) => range_fault(a, addr, len),
        None => Err(Reason::NoProvenance),
    }
}

/// The bytes of a range.
pub fn lent(a: Option<&Stored>, addr: u64, len: u64) -> Result<View<'_>, Reason>
    ensures lent { seen_view result
        ≡ then_give (inside (option_map allocation_of (option_copied a.entry)) addr len) (λ b. bytes_at b addr len) }
    ensures maximal { IfOk result AreMaximal }
{
    match a {
        Some(a) => lent_by(a, addr, len),
        None => Err(Reason::NoProvenance),
    }
}

// The bytes of a range of an allocation.
fn lent_by(a: &Stored, addr: u64, len: u64) -> Result<View<'_>, Reason>
    ensures lent { seen_view result
        ≡ then_give (inside (Some (allocation_of a.now)) addr len) (λ b. bytes_at b addr len) }
    ensures maximal { IfOk result AreMaximal }
{
    range_fault(a, addr, len)?;
    Ok(a.bytes.view(addr - a.addr, len))
}

/// Writes bytes into the allocation of an identity.
pub fn put(
    allocations: &mut BTreeMap<AllocId, Stored>,
    id: AllocId,
    addr: u64,
    bytes: &[AbstractByte],
) -> Result<(), Fault>
    ensures stored { IsStored
        (put_at (memory_of allocations.old.entries) id (fin.get (memory_of allocations.old.entries) id) addr bytes.now)
        (memory_of allocations.new.entries) result }
    ensures err { OnErr result (memory_of allocations.new.entries ≡ memory_of allocations.old.entries) }
{
    match allocations.get_mut(&id) {
        Some(a) => put_into(a, addr, bytes),
        None => Err(Fault::Undefined(Reason::NoProvenance)),
    }
}

// Writes bytes into an allocation.
fn put_into(a: &mut Stored, addr: u64, bytes: &[AbstractByte]) -> Result<(), Fault>
    ensures stored { IsStoredIn (allocation_of a.old) addr bytes.now (allocation_of a.new) result }
    ensures err { OnErr result (allocation_of a.new ≡ allocation_of a.old) }
{
    if let Err(reason) = range_fault(a, addr, bytes.len() as u64) {
        return Err(Fault::Undefined(reason));
    }
    a.bytes.write(addr - a.addr, bytes)?;
    Ok(())
}

/// Writes initialised bytes with these numbers and one provenance into the allocation of an identity.
pub fn put_numbers(
    allocations: &mut BTreeMap<AllocId, Stored>,
    id: AllocId,
    addr: u64,
    numbers: &[u8],
    provenance: Option<AllocId>,
) -> Result<(), Fault>
    ensures stored { IsStored
        (put_at (memory_of allocations.old.entries) id (fin.get (memory_of allocations.old.entries) id) addr
        (with_provenance provenance numbers.now))
        (memory_of allocations.new.entries) result }
    ensures err { OnErr result (memory_of allocations.new.entries ≡ memory_of allocations.old.entries) }
{
    match allocations.get_mut(&id) {
        Some(a) => put_numbers_into(a, addr, numbers, provenance),
        None => Err(Fault::Undefined(Reason::NoProvenance)),
    }
}

// Writes initialised bytes with these numbers and one provenance into an allocation.
fn put_numbers_into(
    a: &mut Stored,
    addr: u64,
    numbers: &[u8],
    provenance: Option<AllocId>,
) -> Result<(), Fault>
    ensures stored { IsStoredIn (allocation_of a.old) addr (with_provenance provenance numbers.now)
        (allocation_of a.new) result }
    ensures err { OnErr result (allocation_of a.new ≡ allocation_of a.old) }
{
    if let Err(reason) = range_fault(a, addr, numbers.len() as u64) {
        return Err(Fault::Undefined(reason));
    }
    a.bytes.write_numbers(addr - a.addr, numbers, provenance)?;
    Ok(())
}

/// Puts the same byte in place of each of a range in the allocation of an identity.
pub fn put_repeated(
    allocations: &mut BTreeMap<AllocId, Stored>,
    id: AllocId,
    addr: u64,
    len: u64,
    byte: AbstractByte,
) -> Result<(), Fault>
    ensures stored { IsStored
        (put_at (memory_of allocations.old.entries) id (fin.get (memory_of allocations.old.entries) id) addr
        (replicate len byte))
        (memory_of allocations.new.entries) result }
    ensures err { OnErr result (memory_of allocations.new.entries ≡ memory_of allocations.old.entries) }
{
    match allocations.get_mut(&id) {
        Some(a) => put_repeated_into(a, addr, len, byte),
        None => Err(Fault::Undefined(Reason::NoProvenance)),
    }
}

// Puts the same byte in place of each of a range of an allocation.
fn put_repeated_into(a: &mut Stored, addr: u64, len: u64, byte: AbstractByte) -> Result<(), Fault>
    ensures stored { IsStoredIn (allocation_of a.old) addr (replicate len byte) (allocation_of a.new) result }
    ensures err { OnErr result (allocation_of a.new ≡ allocation_of a.old) }
{
    if let Err(reason) = range_fault(a, addr, len) {
        return Err(Fault::Undefined(reason));
    }
    a.bytes.fill(addr - a.addr, len, byte)?;
    Ok(())
}
