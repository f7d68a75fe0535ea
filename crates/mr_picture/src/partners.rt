//! With which steps a step races, as it is told beside it, behind a line feed.
ghost use Rattle.std.specs.Prelude.{◌≡◌, ◌++◌, IfOk, OnOk, count_by, flat_map};
ghost use Rattle.std.specs.List.{filter};
ghost use Rattle.mr_picture.specs.Partners.{first_text, is_first, is_second, lead, partner_text, partner_texts, partners};
ghost use Rattle.mr_picture.specs.Partners.{second_text, takes_part};

use crate::OutOfMemory;
use crate::texts::{push, push_behind_two};
use mr_event::Pair;
use mr_labels::push_count;
use std::alloc::Global;

// Appends with which step another one races.
fn push_partner(out: &mut Vec<u8>, step: usize) -> Result<(), OutOfMemory>
    ensures { OnOk result (out.new.items ≡ out.old.items ++ partner_text step) }
{
    push(out, ", ")?;
    push_count(out, step)
}

// Appends the first steps of the races of which a step is the second one.
fn push_firsts(out: &mut Vec<u8>, races: &[Pair], step: usize) -> Result<(), OutOfMemory>
    ensures { OnOk result (out.new.items
        ≡ out.old.items ++ flat_map first_text (filter (is_second step) races.now)) }
{
    for race in races {
        if race.second == step {
            push_partner(out, race.first)?;
        }
    }
    Ok(())
}

// Appends the second steps of the races of which a step is the first one.
fn push_seconds(out: &mut Vec<u8>, races: &[Pair], step: usize) -> Result<(), OutOfMemory>
    ensures { OnOk result (out.new.items
        ≡ out.old.items ++ flat_map second_text (filter (is_first step) races.now)) }
{
    for race in races {
        if race.first == step {
            push_partner(out, race.second)?;
        }
    }
    Ok(())
}

// The steps with which a step races, each behind a comma.
fn partner_texts(alloc: Global, races: &[Pair], step: usize) -> Result<Vec<u8>, OutOfMemory>
    ensures { IfOk result (λ text. text.items ≡ partner_texts races.now step) }
{
    let mut out = Vec::new(alloc);
    push_firsts(&mut out, races, step)?;
    push_seconds(&mut out, races, step)?;
    Ok(out)
}

// In how many of these races a step is.
fn race_count(races: &[Pair], step: usize) -> usize
    ensures { result ≡ count_by (takes_part step) races.now }
{
    races
        .iter()
        .filter(|race| race.second == step || race.first == step)
        .count()
}

// What stands before so many steps.
#[tactic(auto, unfolding(crate::specs::Partners::lead))]
fn lead(count: usize) -> &'static str
    ensures { result.now ≡ lead count }
{
    if count == 0 {
        ""
    } else if count == 1 {
        "\nraces with step "
    } else {
        "\nraces with steps "
    }
}

/// Appends the steps with which a step races.
pub(crate) fn push_partners(
    alloc: Global,
    out: &mut Vec<u8>,
    races: &[Pair],
    step: usize,
) -> Result<(), OutOfMemory>
    ensures { OnOk result (out.new.items ≡ out.old.items ++ partners races.now step) }
{
    let texts = partner_texts(alloc, races, step)?;
    push(out, lead(race_count(races, step)))?;
    push_behind_two(out, texts.as_slice())
}
