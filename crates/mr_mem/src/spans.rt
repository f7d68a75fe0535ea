//! The addresses that allocations take, in their order.
ghost use Rattle.std.specs.Prelude.{◌≡◌, ◌+◌, ◌<◌, ◌≤◌, ◌^◌, if◌then◌else◌, [], None, Some, OnErr, OnOk};
ghost use Rattle.mr_base.specs.Pairs.{is_meeting};
ghost use Rattle.mr_mem.specs.Spans.{AreApart, IsFree, IsLeast, IsOverlapped, IsSharedBefore, Puts, lesser_of};

use mr_base::{AllocId, ranges_meet};
use std::alloc::{AllocError, Global};
use std::collections::BTreeMap;
use std::marker::Model;

/// The addresses of an allocation, from where they begin on, which is told beside it.
#[derive(Clone, Copy)]
pub struct Span {
    pub size: u64,
    pub id: AllocId,
}

/// The spans of allocations, by where they begin. Each has an address, and no two of them share one.
#[derive(Drop)]
pub struct Spans {
    by_start: BTreeMap<u64, Span>,
}

impl Model for Spans {
    ghost use Rattle.mr_mem.specs.Spans.{AreApart, Taken};

    ghost Value = { Taken };

    ghost view = { λ s. s.by_start.entries };

    ghost invariant = { λ s. AreApart s.by_start.entries };
}

impl Spans {
    /// No span.
    pub fn new(alloc: Global) -> Spans
        ensures { result ≡ [] }
    {
        Spans {
            by_start: BTreeMap::new(alloc),
        }
    }

    /// Adds a span that shares no address with another.
    pub fn add(&mut self, start: u64, span: Span) -> Result<(), AllocError>
        requires filled { 0 < span.size }
        requires free { IsFree self.old start span.size }
        ensures ok { OnOk result (Puts self.old start (Some span) self.new) }
        ensures err { OnErr result (self.new ≡ self.old) }
    {
        self.by_start.insert(start, span)?;
        Ok(())
    }

    /// Takes away the span that begins at an address, if one does.
    pub fn remove(&mut self, start: u64)
        ensures { Puts self.old start None self.new }
    {
        self.by_start.remove(&start);
    }

    /// The least identity of those whose span shares an address with a range. It looks at the last span that begins below
    /// the range, and at those that begin in it.
    pub fn least_overlapped(&self, addr: u64, size: u64) -> Option<AllocId>
        requires { addr + size ≤ 2 ^ 64 }
        ensures { IsLeast (IsOverlapped self.now addr size) result }
    {
        if size == 0 {
            return None;
        }
        least_shared(&self.by_start, addr, size)
    }
}

// The identity of a span, where it shares an address with a range.
fn shared(start: u64, span: Span, addr: u64, size: u64) -> Option<AllocId>
    ensures { result ≡ (if is_meeting addr size start span.size then Some span.id else None) }
{
    if ranges_meet(addr, size, start, span.size) {
        Some(span.id)
    } else {
        None
    }
}

// The identity of the last span that begins below a range, where it shares an address with the range.
fn shared_before(by_start: &BTreeMap<u64, Span>, addr: u64, size: u64) -> Option<AllocId>
    requires { AreApart by_start.now.entries }
    ensures { IsSharedBefore by_start.now.entries addr size result }
{
    match by_start.range(..addr).next_back() {
        Some((start, span)) => shared(*start, *span, addr, size),
        None => None,
    }
}

// The lesser of two identities, of which the first may be missing.
fn lesser(found: Option<AllocId>, id: AllocId) -> AllocId
    ensures { result ≡ lesser_of found id }
{
    match found {
        Some(other) => other.min(id),
        None => id,
    }
}

// The least identity of those whose span shares an address with a range that has one.
fn least_shared(by_start: &BTreeMap<u64, Span>, addr: u64, size: u64) -> Option<AllocId>
    requires filled { 0 < size }
    requires fits { addr + size ≤ 2 ^ 64 }
    requires apart { AreApart by_start.now.entries }
    ensures { IsLeast (IsOverlapped by_start.now.entries addr size) result }
{
    let mut least = shared_before(by_start, addr, size);
    for (_, span) in by_start.range(addr..=addr + (size - 1)) {
        least = Some(lesser(least, span.id));
    }
    least
}
