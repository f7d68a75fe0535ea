//! Which ends the runs of numbers have, for the program in a file; or the first of these runs that has what is looked
//! for; or the schedule that is drawn from a number.
ghost use Rattle.std.specs.Prelude.{◌≡◌, ℕ, ◌+◌, ◌^◌, ◌≤◌, List, None, Some, Ok, IfOk, Option};
ghost use Rattle.mr_ast.specs.Shaped.{Shaped};
ghost use Rattle.mr_ast.specs.declared.program.Program.{Program as ProgramOf};
ghost use Rattle.mr_io.specs.Counts.{Rose};
ghost use Rattle.mr_io.specs.Files.{Contents};
ghost use Rattle.mr_places.specs.GrammarParsing.{parsed};
ghost use Rattle.mr_lex.specs.Reading.{lexed};
ghost use Rattle.mr_hunt.specs.Aims.{Aim as AimOf, aim_of, first_met};
ghost use Rattle.mr_input.specs.Answer.{IsStatus, Tells, seen as written_as};
ghost use Rattle.mr_input.specs.Inputs.{IsUnreadFault};
ghost use Rattle.mr_show.specs.Answering.{IsHunted};
ghost use Rattle.mr_show.specs.Gathered.{laid_in};
ghost use Rattle.mr_show.specs.Hunted.{drawn_answer, found_answer, hunt_answer, hunted_program, hunted_text, most_in};
ghost use Rattle.mr_show.specs.Hunted.{table_answer};
ghost use Rattle.mr_show.specs.Seek.{First, seek_of};

use crate::form::{Range, Seek};
use crate::placed::places_of;
use mr_ast::Program;
use mr_auto::draw;
use mr_hunt::{Aim, first_met, found_text, how_many, none_text, table, table_text};
use mr_input::{Refusal, Written, answered, form_answer, program_of, read_text};
use mr_io::Files;
use mr_places::Places;
use mr_run::Nothing;
use mr_sched::print;
use mr_wf::{Checked, WfFault, well_formed};
use std::alloc::{AllocError, Global};

/// What the runs of numbers tell of the program in a file.
pub(crate) fn hunted_file<F: Files>(
    alloc: Global,
    files: &mut F,
    range: Range,
    seek: Seek<'_>,
    program: &str,
) -> Result<Written, Refusal>
    ensures same { F.told files.new ≡ F.told files.old }
    ensures reads { F.reads files.new ≤ F.reads files.old + 1 }
    ensures faults { F.faults files.old ≤ F.faults files.new }
    ensures answer { (contents : Contents) → F.told files.old ≡ Some contents
        → IsHunted (Rose (F.faults files.old) (F.faults files.new)) range (seek_of seek.entry) program.now
        (contents program.now) result }
    ensures status { IfOk result (λ a. IsStatus a.status) }
    ensures texts { F.told files.old ≡ None → (text : List ℕ)
        × IsHunted (Rose (F.faults files.old) (F.faults files.new)) range (seek_of seek.entry) program.now
        (Some text) result }
    ensures untold { F.told files.old ≡ None → IsUnreadFault result
        → Rose (F.faults files.old) (F.faults files.new) }
{
    match read_text(alloc, files, program) {
        Ok(text) => hunted_text(alloc, range, seek, program, text.as_slice()),
        Err(refusal) => Err(refusal),
    }
}

// The same of the program that a text denotes, in a file of this name.
fn hunted_text(
    alloc: Global,
    range: Range,
    seek: Seek<'_>,
    name: &str,
    text: &[u8],
) -> Result<Written, Refusal>
    ensures answer { Tells (hunted_text range (seek_of seek.entry) name.now text.now) result }
    ensures status { IfOk result (λ a. IsStatus a.status) }
    ensures read { ¬ IsUnreadFault result }
{
    match program_of(alloc, text) {
        Ok(p) => hunted_program(alloc, range, seek, name, text, p),
        Err(refusal) => Err(refusal),
    }
}

// The same of a program that breaks no rule, and else the line of the first rule that it breaks.
#[tactic(auto, using(mr_input::proofs::AnswerLaws::broken_told))]
fn hunted_program(
    alloc: Global,
    range: Range,
    seek: Seek<'_>,
    name: &str,
    text: &[u8],
    p: Program,
) -> Result<Written, Refusal>
    requires shaped { Shaped p }
    requires parsed { parsed text.now ≡ Ok p }
    ensures answer { Tells (hunted_program range (seek_of seek.entry) name.now text.now p) result }
    ensures status { IfOk result (λ a. IsStatus a.status) }
    ensures read { ¬ IsUnreadFault result }
{
    match well_formed(alloc, p) {
        Ok(checked) => answered(hunted(alloc, range, seek, name, text, &checked)),
        Err(WfFault::Form { fault, program }) => form_answer(alloc, &program, fault),
        Err(WfFault::Memory) => Err(Refusal::Memory),
    }
}

// What a hunt tells of a program.
fn hunted(
    alloc: Global,
    range: Range,
    seek: Seek<'_>,
    name: &str,
    text: &[u8],
    p: &Checked,
) -> Result<Written, AllocError>
    requires { parsed text.now ≡ Ok p.now }
    ensures answer { IfOk result (λ a. written_as a
        ≡ hunt_answer range (seek_of seek.entry) name.now text.now p.now) }
    ensures status { IfOk result (λ a. IsStatus a.status) }
{
    let places = places_of(alloc, text, p)?;
    match seek {
        Seek::Ends => table_in(alloc, range, text, p, &places),
        Seek::First(aim) => aimed(alloc, range, aim, name, text, p, &places),
        Seek::Drawn => drawn_in(alloc, range, p),
    }
}

// As many entries as a drawn schedule may have.
const MOST: u32 = 1 << 20;

// As many as it has at most.
fn most_in(range: Range) -> u32
    ensures same { result ≡ most_in range }
    ensures few { result ≤ 2 ^ 20 }
{
    range.most.min(MOST)
}

// The table of the numbers.
fn table_in(
    alloc: Global,
    range: Range,
    text: &[u8],
    p: &Checked,
    places: &Places<'_>,
) -> Result<Written, AllocError>
    requires { places.now ≡ laid_in p.now (lexed text.now) }
    ensures answer { IfOk result (λ a. written_as a ≡ table_answer range text.now p.now) }
    ensures status { IfOk result (λ a. IsStatus a.status) }
{
    let rows = table(alloc, p, most_in(range), range.from, range.to)?;
    let count = how_many(range.from, range.to);
    let text = table_text(alloc, text, p, places, count, rows.as_slice())?;
    Ok(Written { text, status: 0 })
}

// The first of the numbers whose run has what is looked for.
fn aimed(
    alloc: Global,
    range: Range,
    aim: Aim<'_>,
    name: &str,
    text: &[u8],
    p: &Checked,
    places: &Places<'_>,
) -> Result<Written, AllocError>
    requires { places.now ≡ laid_in p.now (lexed text.now) }
    ensures answer { IfOk result (λ a. written_as a
        ≡ hunt_answer range (First (aim_of aim.entry)) name.now text.now p.now) }
    ensures status { IfOk result (λ a. IsStatus a.status) }
{
    let found = first_met(alloc, p, places, aim, most_in(range), range.from, range.to)?;
    found_in(alloc, range, aim, found, name, text, p, places)
}

// The run that was found, or that there is none.
fn found_in(
    alloc: Global,
    range: Range,
    aim: Aim<'_>,
    found: Option<u64>,
    name: &str,
    text: &[u8],
    p: &Checked,
    places: &Places<'_>,
) -> Result<Written, AllocError>
    requires { places.now ≡ laid_in p.now (lexed text.now) }
    ensures answer { IfOk result (λ a. written_as a
        ≡ found_answer range (aim_of aim.entry) name.now text.now p.now found) }
    ensures status { IfOk result (λ a. IsStatus a.status) }
{
    match found {
        Some(number) => one_found(alloc, range, aim, number, name, text, p, places),
        None => none_found(alloc, range),
    }
}

// The run of a number.
fn one_found(
    alloc: Global,
    range: Range,
    aim: Aim<'_>,
    number: u64,
    name: &str,
    text: &[u8],
    p: &Checked,
    places: &Places<'_>,
) -> Result<Written, AllocError>
    requires { places.now ≡ laid_in p.now (lexed text.now) }
    ensures answer { IfOk result (λ a. written_as a
        ≡ found_answer range (aim_of aim.entry) name.now text.now p.now (Some number)) }
    ensures status { IfOk result (λ a. IsStatus a.status) }
{
    let text = found_text(alloc, text, p, places, aim, name, most_in(range), number)?;
    Ok(Written { text, status: 1 })
}

// That there is none.
fn none_found(alloc: Global, range: Range) -> Result<Written, AllocError>
    ensures answer { IfOk result (λ a. (aim : AimOf) (name text : List ℕ) (p : ProgramOf)
        → written_as a ≡ found_answer range aim name text p None) }
    ensures status { IfOk result (λ a. IsStatus a.status) }
{
    let text = none_text(alloc, range.from, range.to)?;
    Ok(Written { text, status: 0 })
}

// The schedule of the first number.
fn drawn_in(alloc: Global, range: Range, p: &Checked) -> Result<Written, AllocError>
    ensures answer { IfOk result (λ a. written_as a ≡ drawn_answer range p.now) }
    ensures status { IfOk result (λ a. IsStatus a.status) }
{
    let mut nothing = Nothing;
    let drawn = draw(alloc, p, range.from, most_in(range), &mut nothing)?;
    let mut text = Vec::new(alloc);
    print(alloc, &drawn.schedule, &mut text)?;
    Ok(Written { text, status: 0 })
}
