//! The steps of a trace as a text.
ghost use Rattle.std.specs.Prelude.{◌≡◌, ◌-◌, ◌++◌, IfOk, OnOk, flat_map};
ghost use Rattle.std.specs.List.{range_with_len};
ghost use Rattle.mr_listing.specs.Partners.{ArePartners};
ghost use Rattle.mr_traced.specs.Seen.{seen};
ghost use Rattle.mr_traced.specs.Steps.{step_text, steps_text};

use crate::OutOfMemory;
use crate::kept::Shown;
use crate::lines::{foot_at, push_foot, push_head, push_races_count};
use mr_listing::{Partner, partners_of, push_partners};
use std::alloc::Global;

// Appends the lines of a step.
fn push_step(
    out: &mut Vec<u8>,
    shown: &Shown<'_>,
    partners: &[Partner],
    number: usize,
) -> Result<(), OutOfMemory>
    requires { ArePartners (seen shown.now).races partners.now }
    ensures { OnOk result (out.new.items ≡ out.old.items ++ step_text (seen shown.now) number) }
{
    push_head(out, shown, number)?;
    push_foot(out, foot_at(shown, number))?;
    push_partners(out, shown.races, partners, number)
}

// Appends the lines of the steps from one number up to another.
fn push_steps(
    out: &mut Vec<u8>,
    shown: &Shown<'_>,
    partners: &[Partner],
    from: usize,
    to: usize,
) -> Result<(), OutOfMemory>
    requires { ArePartners (seen shown.now).races partners.now }
    ensures { OnOk result (out.new.items
        ≡ out.old.items ++ flat_map (step_text (seen shown.now)) (range_with_len from (to - from))) }
{
    for number in from..to {
        push_step(out, shown, partners, number)?;
    }
    Ok(())
}

/// The text of the steps from one number up to another, and how many races there are. An `Err` is for want of memory.
pub(crate) fn steps_text(
    alloc: Global,
    shown: &Shown<'_>,
    from: usize,
    to: usize,
) -> Result<Vec<u8>, OutOfMemory>
    ensures { IfOk result (λ text. text.items ≡ steps_text from to (seen shown.now)) }
{
    let partners = partners_of(alloc, shown.races)?;
    let mut out = Vec::new(alloc);
    push_steps(
        &mut out,
        shown,
        partners.as_slice(),
        from,
        to.min(shown.run.len()),
    )?;
    push_races_count(&mut out, shown.races)?;
    Ok(out)
}
