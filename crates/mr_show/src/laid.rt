//! The text of a part of a run, from what its steps tell.
ghost use Rattle.std.specs.Prelude.{◌≡◌, ◌<◌, ◌≤◌, ◌^◌, ◌++◌, Ok, IfOk, length};
ghost use Rattle.mr_clocks.specs.Tracked.{Tracks};
ghost use Rattle.mr_event.specs.Predicted.{predicted};
ghost use Rattle.mr_places.specs.GrammarParsing.{parsed};
ghost use Rattle.mr_input.specs.Answer.{IsStatus, seen as written_as};
ghost use Rattle.mr_replay.specs.Spoken.{spoken_of};
ghost use Rattle.mr_listing.specs.Seen.{seen};
ghost use Rattle.mr_listing.specs.Spoken.{spoken_line};
ghost use Rattle.mr_run.specs.Runs.{IsRun};
ghost use Rattle.mr_start.specs.Runs.{Legal};
ghost use Rattle.mr_show.specs.Answer.{drawn_part, part_answer, part_text, part_values, rust_of, valued_part};
ghost use Rattle.mr_listing.specs.Steps.{steps_text};
ghost use Rattle.mr_show.specs.Gathered.{gathered};
ghost use Rattle.mr_show.specs.Sentences.{reason_text};

use crate::form::{ALL, Part};
use crate::placed::places_of;
use crate::sentences::push_reason;
use mr_answer::{lines_of, status_of};
use mr_clocks::Analysis;
use mr_event::{Footprint, Pair};
use mr_input::Written;
use mr_json::json;
use mr_labels::{Allocation, Allocations, Reached, Stand, ToldStep};
use mr_listing::{Shown, StepValues, push_spoken, races, steps};
use mr_picture::{Span, chosen, order_text, picture};
use mr_replay::{Between, rests};
use mr_run::Clocked;
use mr_rust_order::races as races_by_rust;
use mr_sched::Schedule;
use mr_step::Machine;
use mr_two_orders::{either, two_orders};
use mr_values::values;
use mr_wf::Checked;
use std::alloc::{AllocError, Global};

/// The text of a part of the run of the program of a text, with the status of the run. Its machine stands so behind so
/// many steps, which made these allocations and have these footprints; some of them tell this, and before them the
/// threads stood so.
pub(crate) fn laid(
    alloc: Global,
    part: Part,
    text: &[u8],
    p: &Checked,
    w: &Schedule,
    machine: &Machine<'_>,
    kept: &Clocked,
    rows: Vec<Allocation>,
    told: &[ToldStep],
    stands: &[Option<Stand>],
) -> Result<Written, AllocError>
    requires parsed { parsed text.now ≡ Ok p.now }
    requires few { length w.now.entries ≤ 2 ^ 22 }
    requires feet { length kept.now < 2 ^ 32 }
    requires run { IsRun p.now w.now machine.now }
    ensures answer { IfOk result (λ a. written_as a ≡ part_answer part (spoken_of p.now w.now)
        (part_values part p.now w.now rows.items kept.now)
        (gathered text.now p.now machine.now.config (length w.now.entries) rows.items told.now stands.now kept.now)) }
    ensures status { IfOk result (λ a. IsStatus a.status) }
{
    let program = p.program();
    let places = places_of(alloc, text, p)?;
    let rows = Allocations::new(alloc, rows)?;
    let lines = lines_of(alloc, machine)?;
    let rests = rests(alloc, machine)?;
    let feet = kept.steps();
    let values = values_of(alloc, part, p, w, &rows, kept)?;
    let shown = Shown {
        text,
        program,
        places: &places,
        rows: &rows,
        steps: told,
        stands,
        count: w.entries.len(),
        feet,
        lines: lines.as_slice(),
        races: kept.races(),
        verdict: machine.verdict(),
        rests: rests.as_slice(),
    };
    written(
        alloc,
        part,
        machine.about(),
        values.as_slice(),
        &shown,
        kept.order(),
    )
}

// What the accesses of a run loaded and stored that has these allocations and footprints, where a part tells it.
fn values_of(
    alloc: Global,
    part: Part,
    p: &Checked,
    w: &Schedule,
    rows: &Allocations,
    kept: &Clocked,
) -> Result<Vec<StepValues>, AllocError>
    requires few { length w.now.entries ≤ 2 ^ 22 }
    requires legal { Legal p.now w.now }
    ensures { IfOk result (λ values. values.items ≡ part_values part p.now w.now rows.now kept.now) }
{
    match valued_part(part, w.entries.len(), kept.races()) {
        Some(told) => values(alloc, p, w, rows, kept.steps(), told),
        None => Ok(Vec::new(alloc)),
    }
}

// Which steps of a run of so many, with these races, are told with values for a part.
fn valued_part(part: Part, count: usize, races: &[Pair]) -> Option<Between>
    requires { count < 2 ^ 32 }
    ensures { result ≡ valued_part part count races.now }
{
    match part {
        Part::Steps { from, to } => Some(Between { from, to }),
        Part::Json => Some(Between { from: 0, to: ALL }),
        Part::Picture { asked } => Some(drawn_part(chosen(count, races, asked))),
        Part::Races | Part::TwoOrders | Part::Order { .. } => None,
    }
}

// The steps of a picture as a part.
fn drawn_part(span: Span) -> Between
    ensures { result ≡ drawn_part span }
{
    Between {
        from: span.from,
        to: span.to,
    }
}

// The text of a part of what is shown, with the status of the run.
fn written(
    alloc: Global,
    part: Part,
    spoken: Option<Reached>,
    values: &[StepValues],
    shown: &Shown<'_>,
    order: &Analysis,
) -> Result<Written, AllocError>
    requires count { (seen shown.now).count < 2 ^ 32 }
    requires feet { length (seen shown.now).feet < 2 ^ 32 }
    requires tracks { Tracks order.now (seen shown.now).feet }
    requires races { (seen shown.now).races ≡ predicted (seen shown.now).feet }
    ensures answer { IfOk result (λ a. written_as a ≡ part_answer part spoken values.now (seen shown.now)) }
    ensures status { IfOk result (λ a. IsStatus a.status) }
{
    let rust = rust_of(alloc, part, shown.feet)?;
    let text = text_of(alloc, part, spoken, values, shown, order, rust.as_slice())?;
    Ok(Written {
        text,
        status: status_of(shown.verdict, either(rust.as_slice(), shown.races)),
    })
}

// The text of the steps that are told, with these values, and behind it the reason for which the run is undefined,
// where it is, with what it speaks of.
fn steps_of(
    alloc: Global,
    spoken: Option<Reached>,
    values: &[StepValues],
    shown: &Shown<'_>,
) -> Result<Vec<u8>, AllocError>
    ensures { IfOk result (λ text. text.items ≡ steps_text (seen shown.now) values.now
        ++ reason_text (seen shown.now).verdict ++ spoken_line (seen shown.now) spoken) }
{
    let mut text = steps(alloc, shown, values)?;
    push_reason(&mut text, shown.verdict)?;
    push_spoken(&mut text, shown, spoken)?;
    Ok(text)
}

// The races by Rust's order, where a part tells of them.
fn rust_of(alloc: Global, part: Part, feet: &[Footprint]) -> Result<Vec<Pair>, AllocError>
    ensures { IfOk result (λ races. races.items ≡ rust_of part feet.now) }
{
    match part {
        Part::TwoOrders => races_by_rust(alloc, feet),
        Part::Steps { .. } | Part::Json | Part::Races | Part::Order { .. } | Part::Picture { .. } =>
            Ok(Vec::new(alloc)),
    }
}

// The text of a part.
fn text_of(
    alloc: Global,
    part: Part,
    spoken: Option<Reached>,
    values: &[StepValues],
    shown: &Shown<'_>,
    order: &Analysis,
    rust: &[Pair],
) -> Result<Vec<u8>, AllocError>
    requires count { (seen shown.now).count < 2 ^ 32 }
    requires feet { length (seen shown.now).feet < 2 ^ 32 }
    requires tracks { Tracks order.now (seen shown.now).feet }
    requires races { (seen shown.now).races ≡ predicted (seen shown.now).feet }
    requires rust { rust.now ≡ rust_of part (seen shown.now).feet }
    ensures { IfOk result (λ text. text.items ≡ part_text part spoken values.now (seen shown.now)) }
{
    match part {
        Part::Steps { from: _, to: _ } => steps_of(alloc, spoken, values, shown),
        Part::Json => json(alloc, shown, values),
        Part::Races => races(alloc, shown),
        Part::TwoOrders => two_orders(alloc, shown, order, rust),
        Part::Order { first, second } => order_text(alloc, shown, order, first, second),
        Part::Picture { asked } => picture(alloc, shown, values, order, asked),
    }
}
