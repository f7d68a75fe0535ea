//! The steps with which steps race.
ghost use Rattle.std.specs.Prelude.{◌≡◌, ◌++◌, IfOk, OnOk, flat_map, nat_le, nat_lt, not};
ghost use Rattle.std.specs.List.{filter};
ghost use Rattle.std.specs.List.Sorted.{IsNonDecreasingBy};
ghost use Rattle.mr_listing.specs.Partners.{ArePartners, both_of, is_of, partner_line, partners, partners_at};

use crate::OutOfMemory;
use mr_event::Pair;
use mr_labels::push_count;
use std::alloc::Global;

/// A step that races with another one.
#[derive(Clone, Copy)]
pub struct Partner {
    pub step: usize,
    pub other: usize,
}

// Adds the two steps of a race.
fn push_both(all: &mut Vec<Partner>, pair: Pair) -> Result<(), OutOfMemory>
    ensures { OnOk result (all.new.items ≡ all.old.items ++ both_of pair) }
{
    all.push(Partner {
        step: pair.second,
        other: pair.first,
    })?;
    all.push(Partner {
        step: pair.first,
        other: pair.second,
    })?;
    Ok(())
}

// The steps of all races.
fn both(alloc: Global, races: &[Pair]) -> Result<Vec<Partner>, OutOfMemory>
    ensures { IfOk result (λ all. all.items ≡ partners races.now) }
{
    let mut all = Vec::new(alloc);
    for pair in races {
        push_both(&mut all, *pair)?;
    }
    Ok(all)
}

/// The partners of the steps of races, by rising steps. An `Err` is for want of memory.
pub fn partners_of(alloc: Global, races: &[Pair]) -> Result<Vec<Partner>, OutOfMemory>
    ensures { IfOk result (λ sorted. ArePartners races.now sorted.items) }
{
    let mut all = both(alloc, races)?;
    all.sort_by_key(|partner| partner.step)?;
    Ok(all)
}

// Those of this step and of later ones.
fn from_step(sorted: &[Partner], number: usize) -> &[Partner]
    requires { IsNonDecreasingBy (λ p. p.step) sorted.now }
    ensures { result.now ≡ filter (λ p. not (nat_lt p.step number)) sorted.now }
{
    let first = sorted.partition_point(
        |partner: &Partner| -> bool
            ensures { result ≡ nat_lt partner.now.step number }
        { partner.step < number },
    );
    &sorted[first..]
}

// Those of this step and of earlier ones.
fn up_to_step(sorted: &[Partner], number: usize) -> &[Partner]
    requires { IsNonDecreasingBy (λ p. p.step) sorted.now }
    ensures { result.now ≡ filter (λ p. nat_le p.step number) sorted.now }
{
    let end = sorted.partition_point(
        |partner: &Partner| -> bool
            ensures { result ≡ nat_le partner.now.step number }
        { partner.step <= number },
    );
    &sorted[..end]
}

// Those of this step.
fn block_of(sorted: &[Partner], number: usize) -> &[Partner]
    requires { IsNonDecreasingBy (λ p. p.step) sorted.now }
    ensures { result.now ≡ filter (is_of number) sorted.now }
{
    up_to_step(from_step(sorted, number), number)
}

// Appends the line of a partner.
fn push_partner(out: &mut Vec<u8>, partner: Partner) -> Result<(), OutOfMemory>
    ensures { OnOk result (out.new.items ≡ out.old.items ++ partner_line partner) }
{
    out.extend_from_slice(b"        races with step ")?;
    push_count(out, partner.other)?;
    out.push(b'\n')?;
    Ok(())
}

fn push_block(out: &mut Vec<u8>, block: &[Partner]) -> Result<(), OutOfMemory>
    ensures { OnOk result (out.new.items ≡ out.old.items ++ flat_map partner_line block.now) }
{
    for partner in block {
        push_partner(out, *partner)?;
    }
    Ok(())
}

/// Appends the partners of a step, which are found among those of these races.
pub fn push_partners(
    out: &mut Vec<u8>,
    races: &[Pair],
    sorted: &[Partner],
    number: usize,
) -> Result<(), OutOfMemory>
    requires { ArePartners races.now sorted.now }
    ensures { OnOk result (out.new.items
        ≡ out.old.items ++ flat_map partner_line (partners_at races.now number)) }
{
    push_block(out, block_of(sorted, number))
}
