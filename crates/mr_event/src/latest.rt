//! The footprint of the last step of a run.

ghost use Rattle.std.specs.Prelude.{◌≡◌, ◌<◌, IfOk, OnOk, vec_len};
ghost use Rattle.mr_event.specs.Lists.{footprint_of};
ghost use Rattle.mr_event.specs.Order.{step_at};

use crate::OutOfMemory;
use crate::footprint::Footprint;
use crate::lists::Step;
use crate::shape::{is_bare, reach_of};
use mr_base::Access;
use std::alloc::Global;
use std::marker::Model;

// How many footprints of late steps there are. That of a step without lists is the first of them; behind it those of one
// access and those of any lists stand in turn.
const SLOTS: usize = 257;

// How many items a short list has at most.
const SHORT: usize = 32;

// By what the numbers of addresses are spread, and the width of what is then left of them.
const SPREAD: u64 = 0x9e37_79b9_7f4a_7c15;

const WIDTH: u64 = 0x0200_0000_0000_0000;

/// The footprint of the last step of a run, which takes that of each step in turn. It stands among those of late steps, by
/// what these did: a step that did what one of them did takes its room, and where no footprint elsewhere shares the room
/// that stands in its place, a step writes over that. So most steps ask for no memory, and a copy is soon made. Contracts
/// see it as the footprint.
#[derive(Drop)]
pub struct Latest {
    late: Vec<Footprint>,
    at: usize,
}

impl Model for Latest {
    ghost use Rattle.std.specs.Prelude.{◌≡◌, ◌<◌, vec_len};
    ghost use Rattle.mr_event.specs.Footprint.{Footprint as Contents};
    ghost use Rattle.mr_event.specs.Order.{step_at};

    ghost Value = { Contents };

    ghost view = { λ l. step_at l.late.items l.at };

    ghost invariant = { λ l. (l.at < vec_len l.late) × (vec_len l.late ≡ 257) };
}

impl Latest {
    ghost use Rattle.std.specs.Prelude.{◌≡◌, IfOk, OnOk};
    ghost use Rattle.mr_event.specs.Lists.{footprint_of};

    /// The footprint of a first step.
    pub fn of(alloc: Global, step: &Step<'_>) -> Result<Latest, OutOfMemory>
        ensures { IfOk result (λ l. l ≡ footprint_of step.now) }
    {
        let mut late = no_steps(alloc)?;
        let at = take(&mut late, step)?;
        Ok(Latest { late, at })
    }

    /// Takes the footprint of the next step.
    pub fn refill(&mut self, step: &Step<'_>) -> Result<(), OutOfMemory>
        ensures { OnOk result (self.new ≡ footprint_of step.now) }
    {
        self.at = take(&mut self.late, step)?;
        Ok(())
    }

    /// The footprint.
    #[tactic(auto, using(crate::proofs::Read::step_read))]
    pub fn footprint(&self) -> &Footprint
        ensures { result.now ≡ self.now }
    {
        &self.late[self.at]
    }
}

// The footprints of late steps, where there is no step yet.
fn no_steps(alloc: Global) -> Result<Vec<Footprint>, OutOfMemory>
    ensures { IfOk result (λ v. vec_len v ≡ 257) }
{
    let mut late = Vec::new(alloc);
    late.reserve(SLOTS)?;
    for k in 0..SLOTS {
        late.push_reserved(Footprint::nothing(alloc));
    }
    Ok(late)
}

// A number by which addresses mostly differ.
fn spread(addr: u64) -> usize
    ensures { result < 128 }
{
    (addr.wrapping_mul(SPREAD) / WIDTH) as usize
}

// A number by which accesses mostly differ.
fn number_of(access: Access) -> u64 {
    access.addr.wrapping_add(u64::from(access.store))
}

// A number by which lists of accesses mostly differ.
fn number_of_all(accesses: &[Access]) -> u64 {
    match accesses {
        [] => 0,
        [only] => number_of(*only),
        [first, .., last] => number_of(*first).wrapping_add(number_of(*last).wrapping_mul(3)),
    }
}

// The place for a step that made one access, and did nothing else.
fn place_of_single(access: Access) -> usize
    ensures { result < 257 }
{
    1 + 2 * spread(number_of(access))
}

// Whether a step has a long list.
fn has_long(step: &Step<'_>) -> bool {
    step.accesses.len() > SHORT
        || step.touched.len() > SHORT
        || step.allocated.len() > SHORT
        || step.freed.len() > SHORT
        || step.woken.len() > SHORT
}

// The place for a step with any lists. Those with long ones have one place, as their room is large.
fn place_of_many(step: &Step<'_>) -> usize
    ensures { result < 257 }
{
    if has_long(step) {
        return 256;
    }
    2 + 2 * spread(number_of_all(step.accesses))
}

// Takes the footprint of a step at its place, and tells the place.
fn take(late: &mut Vec<Footprint>, step: &Step<'_>) -> Result<usize, OutOfMemory>
    requires { vec_len late.old ≡ 257 }
    ensures all { vec_len late.new ≡ vec_len late.old }
    ensures within { IfOk result (λ x. x < vec_len late.new) }
    ensures taken { IfOk result (λ x. step_at late.new.items x ≡ footprint_of step.now) }
{
    if is_bare(step) {
        let first = &mut late[0];
        first.take_bare(step);
        return Ok(0);
    }
    if let Some(reach) = reach_of(step) {
        let place = place_of_single(reach.access);
        let one = &mut late[place];
        one.take_single(step.thread, reach)?;
        return Ok(place);
    }
    let place = place_of_many(step);
    let one = &mut late[place];
    one.take_many(step)?;
    Ok(place)
}
