//! The races of a trace as a text.
ghost use Rattle.std.specs.Prelude.{◌≡◌, ◌++◌, IfOk, OnOk, flat_map, option_copied};
ghost use Rattle.mr_listing.specs.Races.{by_count};
ghost use Rattle.mr_traced.specs.Groups.{AreGroups};
ghost use Rattle.mr_traced.specs.Races.{IsRacesText, few_text, group_text, left_text, more_text, side_foot};
ghost use Rattle.mr_traced.specs.Races.{side_text};
ghost use Rattle.mr_traced.specs.Seen.{seen};

use crate::OutOfMemory;
use crate::count::groups_of;
use crate::kept::Shown;
use crate::lines::{foot_at, push_accesses, push_head, push_races_count};
use crate::naming::{push_place, site_at};
use mr_base::Access;
use mr_event::Footprint;
use mr_labels::push_number;
use mr_listing::{Group, push_times, rank_by_count};
use std::alloc::Global;

// So many accesses of a step are told at most.
const MOST: usize = 8;

// Appends how many accesses are left.
fn push_left(out: &mut Vec<u8>, left: usize) -> Result<(), OutOfMemory>
    ensures { OnOk result (out.new.items ≡ out.old.items ++ left_text left) }
{
    out.extend_from_slice(b"        and ")?;
    push_number(out, left as u64)?;
    out.extend_from_slice(b" more\n")?;
    Ok(())
}

// The same of so many, if some are.
fn push_more(out: &mut Vec<u8>, count: usize) -> Result<(), OutOfMemory>
    ensures { OnOk result (out.new.items ≡ out.old.items ++ more_text count) }
{
    if count > MOST {
        push_left(out, count - MOST)
    } else {
        Ok(())
    }
}

// Appends the first accesses of a step.
fn push_few(out: &mut Vec<u8>, accesses: &[Access]) -> Result<(), OutOfMemory>
    ensures { OnOk result (out.new.items ≡ out.old.items ++ few_text accesses.now) }
{
    push_accesses(out, &accesses[..accesses.len().min(MOST)])?;
    push_more(out, accesses.len())
}

fn push_side_foot(out: &mut Vec<u8>, foot: Option<&Footprint>) -> Result<(), OutOfMemory>
    ensures { OnOk result (out.new.items ≡ out.old.items ++ side_foot (option_copied foot.entry)) }
{
    match foot {
        Some(foot) => push_few(out, foot.accesses()),
        None => Ok(()),
    }
}

// Appends a step of a race, with its accesses.
fn push_side(out: &mut Vec<u8>, shown: &Shown<'_>, number: usize) -> Result<(), OutOfMemory>
    ensures { OnOk result (out.new.items ≡ out.old.items ++ side_text (seen shown.now) number) }
{
    out.extend_from_slice(b"    ")?;
    push_head(out, shown, number)?;
    push_side_foot(out, foot_at(shown, number))
}

/// Appends the races of two places.
pub(crate) fn push_group(
    out: &mut Vec<u8>,
    shown: &Shown<'_>,
    group: Group,
) -> Result<(), OutOfMemory>
    ensures { OnOk result (out.new.items ≡ out.old.items ++ group_text (seen shown.now) group) }
{
    push_place(out, shown, site_at(shown, group.first.first))?;
    out.extend_from_slice(b"  /  ")?;
    push_place(out, shown, site_at(shown, group.first.second))?;
    out.extend_from_slice(b": ")?;
    push_times(out, group)?;
    push_side(out, shown, group.first.first)?;
    push_side(out, shown, group.first.second)
}

fn push_each_group(
    out: &mut Vec<u8>,
    shown: &Shown<'_>,
    groups: &[Group],
) -> Result<(), OutOfMemory>
    ensures { OnOk result (out.new.items ≡ out.old.items ++ flat_map (group_text (seen shown.now)) groups.now) }
{
    for group in groups {
        push_group(out, shown, *group)?;
    }
    Ok(())
}

/// The text of the races by pairs of places, those with most races first, and how many races there are. An `Err` is for
/// want of memory.
pub(crate) fn races_text(alloc: Global, shown: &Shown<'_>) -> Result<Vec<u8>, OutOfMemory>
    ensures { IfOk result (λ text. IsRacesText (seen shown.now) text.items) }
{
    let mut groups = groups_of(alloc, shown)?;
    rank_by_count(&mut groups)?;
    let mut out = Vec::new(alloc);
    push_each_group(&mut out, shown, groups.as_slice())?;
    push_races_count(&mut out, shown.races)?;
    Ok(out)
}
