//! The texts of a table, and of the run of one number.
ghost use Rattle.std.specs.Prelude.{◌≡◌, [], ◌++◌, ◌≤◌, ◌^◌, IfOk, OnOk, codes, decimal, flat_map};
ghost use Rattle.mr_listing.specs.Seen.{seen};
ghost use Rattle.mr_listing.specs.Spots.{stand_text};
ghost use Rattle.mr_listing.specs.ReportReport.{line, verdict_text};
ghost use Rattle.mr_rust_order.specs.Tests.{rust_races};
ghost use Rattle.mr_hunt.specs.Aims.{aim_of};
ghost use Rattle.mr_hunt.specs.Texts.{asks_rust, both_races, by_places, command_line, end_text, found_text, head_text};
ghost use Rattle.mr_hunt.specs.Texts.{line_in, none_text, part_of, row_line, rust_part, seen_with, table_text};
ghost use Rattle.mr_hunt.specs.Texts.{times_text, told_text};

use crate::aims::Aim;
use crate::counting::Row;
use crate::ends::End;
use crate::seeing::{by_rust, stood};
use itoa::Buffer;
use mr_auto::draw;
use mr_base::{Reason, Verdict};
use mr_event::{Footprint, Pair};
use mr_labels::{Allocations, Stand, push_number};
use mr_listing::{Shown, races, stand_text};
use mr_places::Places;
use mr_run::Clocked;
use mr_typing::Checked;
use std::alloc::{AllocError, Global};

// ---- pieces

// Appends a number in decimal.
fn push_wide(out: &mut Vec<u8>, number: u128) -> Result<(), AllocError>
    ensures { OnOk result (out.new.items ≡ out.old.items ++ decimal number) }
{
    let mut buffer = Buffer::new();
    out.extend_from_slice(buffer.format(number).as_bytes())
}

// Appends a number of times that isn't 1.
fn push_many(out: &mut Vec<u8>, count: u128) -> Result<(), AllocError>
    ensures { OnOk result (out.new.items ≡ out.old.items ++ (decimal count ++ codes " times")) }
{
    push_wide(out, count)?;
    out.extend_from_slice(b" times")
}

// Appends how many times.
fn push_times(out: &mut Vec<u8>, count: u128) -> Result<(), AllocError>
    ensures { OnOk result (out.new.items ≡ out.old.items ++ times_text count) }
{
    if count == 1 {
        out.extend_from_slice(b"once")
    } else {
        push_many(out, count)
    }
}

// Appends how many numbers there are in a row, and the first of them.
fn push_head(out: &mut Vec<u8>, row: Row) -> Result<(), AllocError>
    ensures { OnOk result (out.new.items ≡ out.old.items ++ head_text row) }
{
    push_times(out, row.count)?;
    out.extend_from_slice(b", first ")?;
    push_number(out, row.first)?;
    out.extend_from_slice(b": ")
}

// Appends a reason of undefined behaviour.
fn push_reason(out: &mut Vec<u8>, reason: Reason) -> Result<(), AllocError>
    ensures { OnOk result (out.new.items ≡ out.old.items ++ verdict_text (Verdict.Undefined reason)) }
{
    out.extend_from_slice(b"undefined ")?;
    push_number(out, reason.code().into())?;
    out.push(b' ')?;
    out.extend_from_slice(reason.name().as_bytes())
}

// Appends what a verdict is called.
fn push_verdict(out: &mut Vec<u8>, verdict: Verdict) -> Result<(), AllocError>
    ensures { OnOk result (out.new.items ≡ out.old.items ++ verdict_text verdict) }
{
    match verdict {
        Verdict::Running => out.extend_from_slice(b"running"),
        Verdict::Exit => out.extend_from_slice(b"exit"),
        Verdict::Leak => out.extend_from_slice(b"leak"),
        Verdict::Abort => out.extend_from_slice(b"abort"),
        Verdict::Deadlock => out.extend_from_slice(b"deadlock"),
        Verdict::Undefined(reason) => push_reason(out, reason),
    }
}

// Appends `verdict`, and what it is called.
fn push_named(out: &mut Vec<u8>, verdict: Verdict) -> Result<(), AllocError>
    ensures { OnOk result (out.new.items ≡ out.old.items ++ (codes "verdict " ++ verdict_text verdict)) }
{
    out.extend_from_slice(b"verdict ")?;
    push_verdict(out, verdict)
}

// Appends where a thread stands, if it does.
fn push_stand(
    alloc: Global,
    out: &mut Vec<u8>,
    shown: &Shown<'_>,
    stand: Option<Stand>,
) -> Result<(), AllocError>
    ensures { OnOk result (out.new.items ≡ out.old.items ++ stand_text (seen shown.now) stand) }
{
    let text = stand_text(alloc, shown, stand)?;
    out.extend_from_slice(text.as_slice())
}

// Appends the places of a race.
fn push_race(
    alloc: Global,
    out: &mut Vec<u8>,
    shown: &Shown<'_>,
    first: Option<Stand>,
    second: Option<Stand>,
) -> Result<(), AllocError>
    ensures { OnOk result (out.new.items ≡ out.old.items ++ end_text (seen shown.now) (End.Race first second)) }
{
    out.extend_from_slice(b"race ")?;
    push_stand(alloc, out, shown, first)?;
    out.extend_from_slice(b"  /  ")?;
    push_stand(alloc, out, shown, second)
}

// Appends an end.
fn push_end(alloc: Global, out: &mut Vec<u8>, shown: &Shown<'_>, end: End) -> Result<(), AllocError>
    ensures { OnOk result (out.new.items ≡ out.old.items ++ end_text (seen shown.now) end) }
{
    match end {
        End::Verdict(verdict) => push_named(out, verdict),
        End::Race { first, second } => push_race(alloc, out, shown, first, second),
    }
}

// ---- rows

// Appends the line of a row.
fn push_row(alloc: Global, out: &mut Vec<u8>, shown: &Shown<'_>, row: Row) -> Result<(), AllocError>
    ensures { OnOk result (out.new.items ≡ out.old.items ++ row_line (seen shown.now) row) }
{
    push_head(out, row)?;
    push_end(alloc, out, shown, row.end)?;
    out.push(b'\n')?;
    Ok(())
}

// In which part of a table an end stands.
fn part_of(end: End) -> u8
    ensures { result ≡ part_of end }
{
    match end {
        End::Verdict(_) => 0,
        End::Race { .. } => 1,
    }
}

// Appends the line of a row, where it stands in this part.
fn push_in(
    alloc: Global,
    out: &mut Vec<u8>,
    shown: &Shown<'_>,
    part: u8,
    row: Row,
) -> Result<(), AllocError>
    ensures { OnOk result (out.new.items ≡ out.old.items ++ line_in (seen shown.now) part row) }
{
    if part_of(row.end) == part {
        push_row(alloc, out, shown, row)
    } else {
        Ok(())
    }
}

// Appends the lines of a part.
fn push_part(
    alloc: Global,
    out: &mut Vec<u8>,
    shown: &Shown<'_>,
    part: u8,
    rows: &[Row],
) -> Result<(), AllocError>
    ensures { OnOk result (out.new.items ≡ out.old.items ++ flat_map (line_in (seen shown.now) part) rows.now) }
{
    for row in rows {
        push_in(alloc, out, shown, part, *row)?;
    }
    Ok(())
}

// The lines of a table of so many numbers.
fn lines_of(
    alloc: Global,
    shown: &Shown<'_>,
    count: u128,
    rows: &[Row],
) -> Result<Vec<u8>, AllocError>
    ensures { IfOk result (λ text. text.items ≡ table_text (seen shown.now) count rows.now) }
{
    let mut out = Vec::new(alloc);
    push_part(alloc, &mut out, shown, 0, rows)?;
    push_part(alloc, &mut out, shown, 1, rows)?;
    out.extend_from_slice(b"numbers ")?;
    push_wide(&mut out, count)?;
    out.push(b'\n')?;
    Ok(out)
}

/// The lines of a table of so many numbers, over the text of the program. An `Err` is for want of memory.
pub fn table_text(
    alloc: Global,
    text: &[u8],
    p: &Checked,
    places: &Places<'_>,
    count: u128,
    rows: &[Row],
) -> Result<Vec<u8>, AllocError>
    ensures { IfOk result (λ out. out.items
        ≡ table_text (seen_with text.now p.now places.now [] []) count rows.now) }
{
    let none = Allocations::new(alloc, Vec::new(alloc))?;
    let shown = Shown {
        text,
        program: p.program(),
        places,
        rows: &none,
        steps: &[],
        stands: &[],
        count: 0,
        feet: &[],
        lines: &[],
        races: &[],
        verdict: Verdict::Running,
        rests: &[],
    };
    lines_of(alloc, &shown, count, rows)
}

// ---- the run of a number

// Races by their places, of a run whose threads stood so before its steps.
fn races_of(
    alloc: Global,
    text: &[u8],
    p: &Checked,
    places: &Places<'_>,
    stands: &[Option<Stand>],
    pairs: &[Pair],
) -> Result<Vec<u8>, AllocError>
    ensures { IfOk result (λ out. out.items ≡ by_places text.now p.now places.now stands.now pairs.now) }
{
    let none = Allocations::new(alloc, Vec::new(alloc))?;
    let shown = Shown {
        text,
        program: p.program(),
        places,
        rows: &none,
        steps: &[],
        stands,
        count: 0,
        feet: &[],
        lines: &[],
        races: pairs,
        verdict: Verdict::Running,
        rests: &[],
    };
    races(alloc, &shown)
}

// Whether races by Rust's order are looked for.
fn asks_rust(aim: Aim<'_>) -> bool
    ensures { result ≡ asks_rust (aim_of aim.entry) }
{
    match aim {
        Aim::RustRace => true,
        Aim::Any | Aim::Race | Aim::Undefined => false,
        Aim::Named(_) | Aim::Lines { .. } | Aim::Prints(_) => false,
    }
}

// Appends the races by Rust's order of some footprints, of a run whose threads stood so before its steps.
fn push_rust_races(
    alloc: Global,
    out: &mut Vec<u8>,
    text: &[u8],
    p: &Checked,
    places: &Places<'_>,
    stands: &[Option<Stand>],
    run: &[Footprint],
) -> Result<(), AllocError>
    ensures { OnOk result (out.new.items ≡ out.old.items ++ (line (codes "by Rust's order:")
        ++ by_places text.now p.now places.now stands.now (rust_races run.now))) }
{
    let found = by_rust(alloc, run)?;
    let lines = races_of(alloc, text, p, places, stands, found.as_slice())?;
    out.extend_from_slice(b"by Rust's order:")?;
    out.push(b'\n')?;
    out.extend_from_slice(lines.as_slice())?;
    Ok(())
}

// Appends them where they are looked for.
fn push_rust_part(
    alloc: Global,
    out: &mut Vec<u8>,
    text: &[u8],
    p: &Checked,
    places: &Places<'_>,
    aim: Aim<'_>,
    stands: &[Option<Stand>],
    run: &[Footprint],
) -> Result<(), AllocError>
    ensures { OnOk result (out.new.items
        ≡ out.old.items ++ rust_part text.now p.now places.now (aim_of aim.entry) stands.now run.now) }
{
    if asks_rust(aim) {
        push_rust_races(alloc, out, text, p, places, stands, run)
    } else {
        Ok(())
    }
}

// Races by their places, and those by Rust's order behind them where they are looked for.
fn both_races(
    alloc: Global,
    text: &[u8],
    p: &Checked,
    places: &Places<'_>,
    aim: Aim<'_>,
    stands: &[Option<Stand>],
    pairs: &[Pair],
    run: &[Footprint],
) -> Result<Vec<u8>, AllocError>
    ensures { IfOk result (λ out. out.items
        ≡ both_races text.now p.now places.now (aim_of aim.entry) stands.now pairs.now run.now) }
{
    let mut out = races_of(alloc, text, p, places, stands, pairs)?;
    push_rust_part(alloc, &mut out, text, p, places, aim, stands, run)?;
    Ok(out)
}

// The line of a number.
fn number_line(alloc: Global, number: u64) -> Result<Vec<u8>, AllocError>
    ensures { IfOk result (λ out. out.items ≡ line (codes "number " ++ decimal number)) }
{
    let mut out = Vec::from_slice(alloc, b"number ")?;
    push_number(&mut out, number)?;
    out.push(b'\n')?;
    Ok(out)
}

// Appends the line of a verdict.
fn push_verdict_line(out: &mut Vec<u8>, verdict: Verdict) -> Result<(), AllocError>
    ensures { OnOk result (out.new.items ≡ out.old.items ++ line (codes "verdict " ++ verdict_text verdict)) }
{
    push_named(out, verdict)?;
    out.push(b'\n')?;
    Ok(())
}

// The command that shows the run of a number.
fn command_line(alloc: Global, name: &str, most: u32, number: u64) -> Result<Vec<u8>, AllocError>
    ensures { IfOk result (λ out. out.items ≡ command_line name.now most number) }
{
    let mut out = Vec::from_slice(alloc, b"shown by: mirace auto ")?;
    out.extend_from_slice(name.as_bytes())?;
    out.push(b' ')?;
    push_number(&mut out, number)?;
    out.push(b' ')?;
    push_number(&mut out, u64::from(most))?;
    out.push(b'\n')?;
    Ok(out)
}

// What is told of a number, of the verdict of its run and of the races of that.
fn told_text(
    alloc: Global,
    name: &str,
    most: u32,
    number: u64,
    verdict: Verdict,
    races: &[u8],
) -> Result<Vec<u8>, AllocError>
    ensures { IfOk result (λ out. out.items ≡ told_text name.now most number verdict races.now) }
{
    let command = command_line(alloc, name, most, number)?;
    let mut out = number_line(alloc, number)?;
    push_verdict_line(&mut out, verdict)?;
    out.extend_from_slice(races)?;
    out.extend_from_slice(command.as_slice())?;
    Ok(out)
}

/// What is told of the run of a number with an aim: the number, its verdict, its races by places, those by Rust's order
/// too where that is the aim, and the command that shows it. An `Err` is for want of memory.
pub fn found_text(
    alloc: Global,
    text: &[u8],
    p: &Checked,
    places: &Places<'_>,
    aim: Aim<'_>,
    name: &str,
    most: u32,
    number: u64,
) -> Result<Vec<u8>, AllocError>
    requires { most ≤ 2 ^ 20 }
    ensures { IfOk result (λ out. out.items
        ≡ found_text text.now p.now places.now (aim_of aim.entry) name.now most number) }
{
    let mut kept = Clocked::new(alloc);
    let drawn = draw(alloc, p, number, most, &mut kept)?;
    let stands = stood(alloc, p, &drawn.schedule)?;
    let races = both_races(
        alloc,
        text,
        p,
        places,
        aim,
        stands.as_slice(),
        kept.races(),
        kept.steps(),
    )?;
    let verdict = drawn.machine.verdict();
    told_text(alloc, name, most, number, verdict, races.as_slice())
}

/// The line that no run has what is looked for.
pub fn none_text(alloc: Global, from: u64, to: u64) -> Result<Vec<u8>, AllocError>
    ensures { IfOk result (λ out. out.items ≡ none_text from to) }
{
    let mut out = Vec::from_slice(alloc, b"numbers ")?;
    push_number(&mut out, from)?;
    out.extend_from_slice(b" to ")?;
    push_number(&mut out, to)?;
    out.extend_from_slice(b": no run has it")?;
    out.push(b'\n')?;
    Ok(out)
}
