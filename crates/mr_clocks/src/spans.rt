//! The addresses of a step's accesses as spans in order. A step with many accesses finds by them in a few looks whether
//! it may ask for a range, and which part of a shelf it has to look at.

ghost use Rattle.std.specs.Prelude.{◌≡◌, ◌<◌, IfOk, IfSome, IsTrue, OnOk, false, nat_lt};
ghost use Rattle.std.specs.List.{Contains};
ghost use Rattle.std.specs.List.Sorted.{IsNonDecreasingBy};
ghost use Rattle.mr_base.specs.Accesses.{overlaps};
ghost use Rattle.mr_base.specs.declared.access.Access.{Access};
ghost use Rattle.mr_clocks.specs.declared.spans.Span.{Span};
ghost use Rattle.mr_clocks.specs.Keys.{asks as does_ask};
ghost use Rattle.mr_clocks.specs.Spans.{AreRising, AreSpansFor, AreSpansOf, IsSpanned, last_of as last_address_of, span_of};

use crate::keys::{Key, asks};
use mr_base::Access;
use mr_event::{Footprint, OutOfMemory};
use std::alloc::Global;

// How many accesses are few: they are compared one by one, which takes no memory.
const FEW: usize = 8;

/// Neighbouring addresses, from the first to the last.
#[derive(Clone, Copy, Debug, PartialEq, Eq)]
pub struct Span {
    pub first: u64,
    pub last: u64,
}

/// The spans of all accesses of a step, and of its stores. In each list neither the firsts nor the lasts fall.
#[derive(Drop)]
pub(crate) struct Spans {
    pub all: Vec<Span>,
    pub stores: Vec<Span>,
}

// The last address of an access that has some.
fn last_of(access: Access) -> u64
    requires { 0 < access.len }
    ensures { result ≡ last_address_of access }
{
    access.addr.saturating_add(access.len - 1)
}

// Appends the span of an access, if it has addresses, and, where not every access is wanted, stores.
fn add_span(spans: &mut Vec<Span>, access: Access, every: bool) -> Result<(), OutOfMemory>
    ensures kept { OnOk result ((s : Span) → Contains spans.old.items s → Contains spans.new.items s) }
    ensures here { OnOk result (0 < access.len → (every ≡ false → IsTrue access.store)
        → Contains spans.new.items (span_of access)) }
{
    if access.len == 0 {
        return Ok(());
    }
    if !every && !access.store {
        return Ok(());
    }
    spans.push(Span {
        first: access.addr,
        last: last_of(access),
    })?;
    Ok(())
}

// The spans of the accesses that are wanted.
fn gathered(alloc: Global, accesses: &[Access], every: bool) -> Result<Vec<Span>, OutOfMemory>
    ensures { IfOk result (λ v. (a : Access) → Contains accesses.now a → 0 < a.len
        → (every ≡ false → IsTrue a.store) → Contains v.items (span_of a)) }
{
    let mut spans = Vec::new(alloc);
    for i in 0..accesses.len() {
        add_span(&mut spans, accesses[i], every)?;
    }
    Ok(spans)
}

// Spans whose firsts don't fall, each up to where it or one before it ends: then the lasts don't fall either, and they
// have no other addresses together.
fn risen(alloc: Global, spans: &[Span]) -> Result<Vec<Span>, OutOfMemory>
    requires { IsNonDecreasingBy (λ s. s.first) spans.now }
    ensures rising { IfOk result (λ v. AreRising v.items) }
    ensures each { IfOk result (λ v. (s : Span) → Contains spans.now s → IsSpanned v.items s.first s.last) }
{
    let mut all = Vec::new(alloc);
    let mut top = 0;
    for i in 0..spans.len() {
        let span = spans[i];
        top = top.max(span.last);
        all.push(Span {
            first: span.first,
            last: top,
        })?;
    }
    Ok(all)
}

// The spans of every access, or of the stores alone, in order.
fn spans_for(alloc: Global, accesses: &[Access], every: bool) -> Result<Vec<Span>, OutOfMemory>
    ensures { IfOk result (λ v. AreSpansFor accesses.now every v.items) }
{
    let mut spans = gathered(alloc, accesses, every)?;
    spans.sort_unstable_by_key(|span| span.first);
    let all = risen(alloc, spans.as_slice())?;
    Ok(all)
}

/// The spans of accesses, where these are many.
pub(crate) fn spans_of(alloc: Global, accesses: &[Access]) -> Result<Option<Spans>, OutOfMemory>
    ensures { IfOk result (λ o. IfSome o (λ s. AreSpansOf accesses.now s)) }
{
    if accesses.len() <= FEW {
        return Ok(None);
    }
    let all = spans_for(alloc, accesses, true)?;
    let stores = spans_for(alloc, accesses, false)?;
    Ok(Some(Spans { all, stores }))
}

/// The spans of every access of the step, or of the stores alone.
pub(crate) fn chosen<'a>(step: &Footprint, spans: &'a Spans, every: bool) -> &'a [Span]
    requires { AreSpansOf step.now.accesses spans.now }
    ensures { AreSpansFor step.now.accesses every result.now }
{
    let _step = step;
    if every {
        spans.all.as_slice()
    } else {
        spans.stores.as_slice()
    }
}

// Whether an access has an address in one of the spans.
fn touches(spans: &[Span], access: Access) -> bool
    requires { AreRising spans.now }
    ensures { (b : Access) → IsSpanned spans.now b.addr (last_address_of b) → IsTrue (overlaps access b)
        → IsTrue result }
{
    if access.len == 0 {
        return false;
    }
    let addr = access.addr;
    let first = spans.partition_point(
        |span: &Span| -> bool
            ensures { result ≡ nat_lt span.now.last addr }
        { span.last < addr },
    );
    first < spans.len() && spans[first].first <= last_of(access)
}

// Whether the step may ask the key, by its spans.
fn may_ask_by(key: Key, step: &Footprint, spans: &Spans) -> bool
    requires { AreSpansOf step.now.accesses spans.now }
    ensures { IsTrue (does_ask step.now key) → IsTrue result }
{
    match key {
        Key::Range(access) => touches(chosen(step, spans, access.store), access),
        _ => asks(key, step),
    }
}

/// Whether the step may ask the key: by its spans, where it has some.
pub(crate) fn may_ask(key: Key, step: &Footprint, spans: Option<&Spans>) -> bool
    requires { IfSome spans (λ s. AreSpansOf step.now.accesses s.now) }
    ensures { IsTrue (does_ask step.now key) → IsTrue result }
{
    match spans {
        Some(spans) => may_ask_by(key, step, spans),
        None => asks(key, step),
    }
}
