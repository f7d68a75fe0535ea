//! Whether two footprints are equal, as a whole or but for the threads that they woke.

ghost use Rattle.std.specs.Prelude.{◌≡◌, ◌↔◌, IsTrue};
ghost use Rattle.mr_event.specs.Likeness.{AreAlike, DoTheSame};
ghost use Rattle.mr_event.specs.Shape.{footprint_in};

use crate::footprint::Footprint;
use crate::shape::{Shape, same_reach};
use mr_base::{Access, AllocId, Event};

pub(crate) fn same_event(a: Event, b: Event) -> bool
    ensures { IsTrue result ↔ (a ≡ b) }
{
    a == b
}

pub(crate) fn same_access(a: Access, b: Access) -> bool
    ensures { IsTrue result ↔ (a ≡ b) }
{
    a == b
}

pub(crate) fn same_id(a: AllocId, b: AllocId) -> bool
    ensures { IsTrue result ↔ (a ≡ b) }
{
    a == b
}

pub(crate) fn same_accesses(a: &[Access], b: &[Access]) -> bool
    ensures { IsTrue result ↔ (a.now ≡ b.now) }
{
    if a.len() != b.len() {
        return false;
    }
    for i in 0..a.len() {
        if !same_access(a[i], b[i]) {
            return false;
        }
    }
    true
}

pub(crate) fn same_ids(a: &[AllocId], b: &[AllocId]) -> bool
    ensures { IsTrue result ↔ (a.now ≡ b.now) }
{
    if a.len() != b.len() {
        return false;
    }
    for i in 0..a.len() {
        if !same_id(a[i], b[i]) {
            return false;
        }
    }
    true
}

pub(crate) fn same_threads(a: &[u32], b: &[u32]) -> bool
    ensures { IsTrue result ↔ (a.now ≡ b.now) }
{
    if a.len() != b.len() {
        return false;
    }
    for i in 0..a.len() {
        if a[i] != b[i] {
            return false;
        }
    }
    true
}

/// Whether each field of the one is that of the other, but for the threads that they woke.
pub fn do_the_same(a: &Footprint, b: &Footprint) -> bool
    ensures { IsTrue result ↔ DoTheSame a.now b.now }
{
    a.thread() == b.thread()
        && a.ended() == b.ended()
        && same_event(a.event(), b.event())
        && same_accesses(a.accesses(), b.accesses())
        && same_ids(a.touched(), b.touched())
        && same_ids(a.allocated(), b.allocated())
        && same_ids(a.freed(), b.freed())
}

// Whether each field of the one is that of the other.
#[inline(never)]
fn fields_alike(a: &Footprint, b: &Footprint) -> bool
    ensures { IsTrue result ↔ AreAlike a.now b.now }
{
    do_the_same(a, b) && same_threads(a.woken(), b.woken())
}

// Whether the two are seen to be equal at once: they have no lists, or one access each.
fn shapes_alike(a: &Shape, b: &Shape) -> bool
    ensures { IsTrue result → footprint_in a.now ≡ footprint_in b.now }
{
    match (a, b) {
        (Shape::Bare(ended, thread, event), Shape::Bare(ended2, thread2, event2)) => {
            thread == thread2 && ended == ended2 && same_event(*event, *event2)
        }
        (Shape::Single(thread, reach), Shape::Single(thread2, reach2)) => {
            thread == thread2 && same_reach(*reach.as_ref(), *reach2.as_ref())
        }
        _ => false,
    }
}

/// Whether two footprints are equal. Of most it is soon told.
#[tactic(auto, using(crate::proofs::AlikeLaws::alike_equal, crate::proofs::AlikeLaws::equal_alike))]
pub fn same_step(a: &Footprint, b: &Footprint) -> bool
    ensures { IsTrue result ↔ (a.now ≡ b.now) }
{
    if shapes_alike(a.shape(), b.shape()) {
        return true;
    }
    fields_alike(a, b)
}
