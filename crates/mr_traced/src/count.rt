//! The races of a trace by pairs of places.
ghost use Rattle.std.specs.Prelude.{◌≡◌, ◌<◌, ◌^◌, All, IfOk, IfSome, OnOk, Some, cond, count_by, slice_get};
ghost use Rattle.std.specs.BTreeMap.{IsOrdered, get};
ghost use Rattle.std.specs.Map.{values_of};
ghost use Rattle.std.specs.Ordering.{is_eq};
ghost use Rattle.mr_traced.specs.Groups.{AreCounts, AreGroups, both_cmp, both_of, count_of, groups as groups_of, is_at};
ghost use Rattle.mr_traced.specs.Groups.{place_in, raised};
ghost use Rattle.mr_traced.specs.Seen.{seen};

use crate::OutOfMemory;
use crate::form::Site;
use crate::kept::Shown;
use crate::naming::site_at;
use mr_event::Pair;
use mr_listing::Group;
use std::alloc::Global;
use std::collections::BTreeMap;

/// The places of the two steps of a race, by their numbers.
#[derive(Clone, Copy, Debug, PartialEq, Eq, PartialOrd, Ord)]
pub struct Both {
    pub first: u32,
    pub second: u32,
}

// The number of the place of a site; 0 where there is none.
fn place_in(site: Option<Site>) -> u32
    ensures { result ≡ place_in site }
{
    match site {
        Some(site) => site.place,
        None => 0,
    }
}

// The places of the two steps of a race.
fn both_of(shown: &Shown<'_>, pair: Pair) -> Both
    ensures { result ≡ both_of (seen shown.now) pair }
{
    Both {
        first: place_in(site_at(shown, pair.first)),
        second: place_in(site_at(shown, pair.second)),
    }
}

// What is known of two places with a race more.
fn raised(known: Option<Group>, pair: Pair) -> Group
    requires { IfSome known (λ g. g.count < 2 ^ 63) }
    ensures { result ≡ raised known pair }
{
    match known {
        Some(group) => Group {
            first: group.first,
            count: group.count + 1,
        },
        None => Group {
            first: pair,
            count: 1,
        },
    }
}

// Counts a race of two places.
fn count_one(groups: &mut BTreeMap<Both, Group>, both: Both, pair: Pair) -> Result<(), OutOfMemory>
    requires { IfSome (get both_cmp groups.old both) (λ g. g.count < 2 ^ 63) }
    ensures { OnOk result ((q : Both) → get both_cmp groups.new q
        ≡ cond (is_eq (both_cmp both q)) (Some (raised (get both_cmp groups.old both) pair))
        (get both_cmp groups.old q)) }
{
    let group = raised(groups.get(&both).copied(), pair);
    groups.insert(both, group)?;
    Ok(())
}

/// Counts all races. An `Err` is for want of memory.
pub(crate) fn counted(
    alloc: Global,
    shown: &Shown<'_>,
) -> Result<BTreeMap<Both, Group>, OutOfMemory>
    ensures { IfOk result (λ groups. AreCounts (seen shown.now) (get both_cmp groups)) }
{
    let mut groups = BTreeMap::new(alloc);
    for pair in shown.races {
        count_one(&mut groups, both_of(shown, *pair), *pair)?;
    }
    Ok(groups)
}

// The races of two places, as they are counted.
fn group_for(counts: &BTreeMap<Both, Group>, both: Both) -> Option<Group>
    ensures { result ≡ get both_cmp counts.now both }
{
    counts.get(&both).copied()
}

// How many these are.
fn count_of(group: Option<Group>) -> usize
    ensures { result ≡ count_of group }
{
    match group {
        None => 0,
        Some(group) => group.count,
    }
}

/// How many races are of the places of a race, as they are counted.
pub(crate) fn count_at(shown: &Shown<'_>, counts: &BTreeMap<Both, Group>, pair: Pair) -> usize
    requires { AreCounts (seen shown.now) (get both_cmp counts.now) }
    ensures { result ≡ count_by (is_at (seen shown.now) (both_of (seen shown.now) pair)) (seen shown.now).races }
{
    count_of(group_for(counts, both_of(shown, pair)))
}

// The groups of a map, by rising places.
fn groups_in(alloc: Global, groups: &BTreeMap<Both, Group>) -> Result<Vec<Group>, OutOfMemory>
    ensures values { IfOk result (λ found. found.items ≡ values_of groups.now.entries) }
    ensures ordered { IsOrdered both_cmp groups.now }
    ensures found { All (λ e. get both_cmp groups.now e.0 ≡ Some e.1) groups.now.entries }
{
    let mut found = Vec::new(alloc);
    for (_, group) in groups.iter() {
        found.push(*group)?;
    }
    Ok(found)
}

/// The races by pairs of places. An `Err` is for want of memory.
pub(crate) fn groups_of(alloc: Global, shown: &Shown<'_>) -> Result<Vec<Group>, OutOfMemory>
    ensures are { IfOk result (λ groups. AreGroups (seen shown.now) groups.items) }
    ensures groups { IfOk result (λ groups. groups.items ≡ groups_of (seen shown.now)) }
{
    let counts = counted(alloc, shown)?;
    let groups = groups_in(alloc, &counts)?;
    Ok(groups)
}
