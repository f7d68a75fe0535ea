//! What is told of a trace, and what of a file that may hold one.
ghost use Rattle.std.specs.Prelude.{◌≡◌, ℕ, ◌+◌, ◌≤◌, List, None, Some, IfOk, Option, Result, true};
ghost use Rattle.mr_io.specs.Counts.{Rose};
ghost use Rattle.mr_io.specs.Files.{Contents};
ghost use Rattle.mr_input.specs.Answer.{Tells, TellsOrUnread};
ghost use Rattle.mr_input.specs.Inputs.{IsUnreadFault};
ghost use Rattle.mr_traced.specs.Answers.{TellsBy};
ghost use Rattle.mr_traced.specs.Seen.{Seen};
ghost use Rattle.mr_traced.specs.declared.refusal.Untold.{Untold as WhyUntold};
ghost use Rattle.mr_show.specs.declared.form.Telling.{Telling as What};
ghost use Rattle.mr_show.specs.Answer.{bytes_answer};
ghost use Rattle.mr_show.specs.Answering.{IsBare, IsOfBytes, IsOfFiles, IsShownStatus};
ghost use Rattle.mr_show.specs.Traced.{IsTextOf, bare_answer, count_of, holds_trace, placed_answer, places_answer};
ghost use Rattle.mr_show.specs.Traced.{seen_answer, status_of, telling_of, text_placed};

use crate::form::{Alone, Part, Saying, Telling};
use crate::shown::{shown_file, shown_text};
use mr_input::{Refusal, Written};
use mr_io::{FileFault, Files};
use mr_lex::LONG_TEXT;
use mr_trace::{MAX_BYTES, TOO_LONG};
use mr_traced::{PlacesFault, Told, Untold, fault_line, is_trace, orders, picture, races, steps};
use std::alloc::Global;

// What is told of a trace whose file stands where that of a program would, if anything is.
fn telling_of(saying: Saying) -> Option<Telling>
    ensures { result ≡ telling_of saying }
{
    match saying {
        Saying::OfRun(Part::Races) => Some(Telling::Races),
        Saying::OfRun(Part::TwoOrders) => Some(Telling::TwoOrders),
        Saying::OfRun(Part::Steps { from, to }) => Some(Telling::Steps { from, to }),
        Saying::OfRun(Part::Picture { asked }) => Some(Telling::Picture { asked }),
        _ => None,
    }
}

// Whether bytes are those of a trace.
fn holds_trace(bytes: &[u8]) -> bool
    ensures { result ≡ holds_trace bytes.now }
{
    bytes.len() <= MAX_BYTES && is_trace(bytes)
}

/// What is said of the run of the program in a file under the schedule in another, or of the trace in the first file at
/// the places in the second.
pub(crate) fn shown_files<F: Files>(
    alloc: Global,
    files: &mut F,
    saying: Saying,
    first: &str,
    second: &str,
) -> Result<Written, Refusal>
    ensures same { F.told files.new ≡ F.told files.old }
    ensures reads { F.reads files.new ≤ F.reads files.old + 2 }
    ensures faults { F.faults files.old ≤ F.faults files.new }
    ensures answer { (contents : Contents) → F.told files.old ≡ Some contents
        → IsOfFiles (Rose (F.faults files.old) (F.faults files.new)) saying (contents second.now)
        (contents first.now) result }
    ensures status { IfOk result (λ a. IsShownStatus a.status) }
    ensures texts { F.told files.old ≡ None → (first : List ℕ) × (second : List ℕ)
        × IsOfFiles (Rose (F.faults files.old) (F.faults files.new)) saying (Some second) (Some first) result }
    ensures untold { F.told files.old ≡ None → IsUnreadFault result
        → Rose (F.faults files.old) (F.faults files.new) }
{
    match telling_of(saying) {
        Some(what) => either_file(alloc, files, what, saying, first, second),
        None => shown_file(alloc, files, saying, first, second),
    }
}

// The same of a saying that a trace may have.
fn either_file<F: Files>(
    alloc: Global,
    files: &mut F,
    what: Telling,
    saying: Saying,
    first: &str,
    second: &str,
) -> Result<Written, Refusal>
    requires { telling_of saying ≡ Some what }
    ensures same { F.told files.new ≡ F.told files.old }
    ensures reads { F.reads files.new ≤ F.reads files.old + 2 }
    ensures faults { F.faults files.old ≤ F.faults files.new }
    ensures answer { (contents : Contents) → F.told files.old ≡ Some contents
        → IsOfFiles (Rose (F.faults files.old) (F.faults files.new)) saying (contents second.now)
        (contents first.now) result }
    ensures status { IfOk result (λ a. IsShownStatus a.status) }
    ensures texts { F.told files.old ≡ None → (first : List ℕ) × (second : List ℕ)
        × IsOfFiles (Rose (F.faults files.old) (F.faults files.new)) saying (Some second) (Some first) result }
    ensures untold { F.told files.old ≡ None → IsUnreadFault result
        → Rose (F.faults files.old) (F.faults files.new) }
{
    let mut bytes = Vec::new(alloc);
    match files.read(alloc, first, MAX_BYTES as u64, &mut bytes) {
        Ok(()) => either_bytes(alloc, files, what, saying, bytes.as_slice(), second),
        Err(FileFault::Failed) | Err(FileFault::Missing) => Err(Refusal::ReadProgram),
        Err(FileFault::Long) => Err(Refusal::Text {
            line: 1,
            col: 1,
            code: LONG_TEXT,
        }),
        Err(FileFault::Memory) => Err(Refusal::Memory),
    }
}

// The same of bytes, which are a trace or the text of a program.
fn either_bytes<F: Files>(
    alloc: Global,
    files: &mut F,
    what: Telling,
    saying: Saying,
    bytes: &[u8],
    second: &str,
) -> Result<Written, Refusal>
    ensures same { F.told files.new ≡ F.told files.old }
    ensures reads { F.reads files.new ≤ F.reads files.old + 1 }
    ensures faults { F.faults files.old ≤ F.faults files.new }
    ensures answer { (contents : Contents) → F.told files.old ≡ Some contents
        → IsOfBytes (Rose (F.faults files.old) (F.faults files.new)) what saying (contents second.now) bytes.now
        result }
    ensures status { IfOk result (λ a. IsShownStatus a.status) }
    ensures texts { F.told files.old ≡ None → (second : List ℕ)
        × IsOfBytes (Rose (F.faults files.old) (F.faults files.new)) what saying (Some second) bytes.now result }
    ensures untold { F.told files.old ≡ None → IsUnreadFault result
        → Rose (F.faults files.old) (F.faults files.new) }
{
    if holds_trace(bytes) {
        placed_file(alloc, files, what, bytes, second)
    } else {
        shown_text(alloc, files, saying, bytes, second)
    }
}

// What is told of a trace at the places in a file.
fn placed_file<F: Files>(
    alloc: Global,
    files: &mut F,
    what: Telling,
    trace: &[u8],
    places: &str,
) -> Result<Written, Refusal>
    ensures same { F.told files.new ≡ F.told files.old }
    ensures reads { F.reads files.new ≤ F.reads files.old + 1 }
    ensures faults { F.faults files.old ≤ F.faults files.new }
    ensures answer { (contents : Contents) → F.told files.old ≡ Some contents
        → TellsOrUnread (Rose (F.faults files.old) (F.faults files.new))
        (placed_answer what trace.now (contents places.now)) result }
    ensures status { IfOk result (λ a. IsShownStatus a.status) }
    ensures texts { F.told files.old ≡ None → (places : List ℕ)
        × TellsOrUnread (Rose (F.faults files.old) (F.faults files.new))
        (placed_answer what trace.now (Some places)) result }
    ensures untold { F.told files.old ≡ None → IsUnreadFault result
        → Rose (F.faults files.old) (F.faults files.new) }
{
    let mut text = Vec::new(alloc);
    match files.read(alloc, places, MAX_BYTES as u64, &mut text) {
        Ok(()) => placed(alloc, what, trace, text.as_slice()),
        Err(FileFault::Failed) | Err(FileFault::Missing) => Err(Refusal::ReadSchedule),
        Err(FileFault::Long) => wrong_places(alloc, PlacesFault::TooLong),
        Err(FileFault::Memory) => Err(Refusal::Memory),
    }
}

// What is told of a trace at the places of a text.
fn placed(alloc: Global, what: Telling, trace: &[u8], places: &[u8]) -> Result<Written, Refusal>
    ensures answer { Tells (text_placed what trace.now places.now) result }
    ensures status { IfOk result (λ a. IsShownStatus a.status) }
    ensures read { ¬ IsUnreadFault result }
{
    if places.len() > MAX_BYTES {
        return wrong_places(alloc, PlacesFault::TooLong);
    }
    match what {
        Telling::Races => said(alloc, races(alloc, trace, places)),
        Telling::TwoOrders => said(alloc, orders(alloc, trace, Some(places))),
        Telling::Steps { from, to } => said(alloc, steps(alloc, trace, Some(places), from, to)),
        Telling::Picture { asked } => said(alloc, picture(alloc, trace, Some(places), asked)),
    }
}

/// What is told of the trace in a file, without places.
pub(crate) fn bare_file<F: Files>(
    alloc: Global,
    files: &mut F,
    what: Alone,
    trace: &str,
) -> Result<Written, Refusal>
    ensures same { F.told files.new ≡ F.told files.old }
    ensures reads { F.reads files.new ≤ F.reads files.old + 1 }
    ensures faults { F.faults files.old ≤ F.faults files.new }
    ensures answer { (contents : Contents) → F.told files.old ≡ Some contents
        → IsBare (Rose (F.faults files.old) (F.faults files.new)) what (contents trace.now) result }
    ensures status { IfOk result (λ a. IsShownStatus a.status) }
    ensures texts { F.told files.old ≡ None → (trace : List ℕ)
        × IsBare (Rose (F.faults files.old) (F.faults files.new)) what (Some trace) result }
    ensures untold { F.told files.old ≡ None → IsUnreadFault result
        → Rose (F.faults files.old) (F.faults files.new) }
{
    let mut bytes = Vec::new(alloc);
    match files.read(alloc, trace, MAX_BYTES as u64, &mut bytes) {
        Ok(()) => alone(alloc, what, bytes.as_slice()),
        Err(FileFault::Failed) | Err(FileFault::Missing) => Err(Refusal::ReadTrace),
        Err(FileFault::Long) => Err(Refusal::Trace {
            at: 0,
            code: TOO_LONG,
        }),
        Err(FileFault::Memory) => Err(Refusal::Memory),
    }
}

// What is told of a trace without places.
fn alone(alloc: Global, what: Alone, trace: &[u8]) -> Result<Written, Refusal>
    ensures answer { Tells (bare_answer what (Some trace.now)) result }
    ensures status { IfOk result (λ a. IsShownStatus a.status) }
    ensures read { ¬ IsUnreadFault result }
{
    match what {
        Alone::Steps(span) => said(alloc, steps(alloc, trace, None, span.from, span.to)),
        Alone::TwoOrders => said(alloc, orders(alloc, trace, None)),
    }
}

// The status of a text that tells of so many races.
fn status_of(races: usize) -> u8
    ensures status { result ≡ status_of races }
    ensures least { result ≤ 1 }
{
    if races == 0 { 0 } else { 1 }
}

// What was told of a trace, with its status, or why nothing was.
fn said(alloc: Global, told: Result<Told, Untold>) -> Result<Written, Refusal>
    ensures answer { (what : What) (defined : Result Seen WhyUntold)
        → TellsBy (count_of what) (IsTextOf what) told defined → Tells (seen_answer what defined) result }
    ensures status { IfOk result (λ a. IsShownStatus a.status) }
    ensures read { ¬ IsUnreadFault result }
{
    match told {
        Ok(told) => {
            let status = status_of(told.races);
            Ok(Written {
                text: told.text,
                status,
            })
        }
        Err(Untold::Trace { at, code }) => Err(Refusal::Trace { at, code }),
        Err(Untold::Places { fault }) => wrong_places(alloc, fault),
        Err(Untold::Memory) => Err(Refusal::Memory),
    }
}

// The line of a fault of places.
fn wrong_places(alloc: Global, fault: PlacesFault) -> Result<Written, Refusal>
    ensures answer { Tells (places_answer fault) result }
    ensures status { IfOk result (λ a. IsShownStatus a.status) }
    ensures read { ¬ IsUnreadFault result }
{
    let text = fault_line(alloc, fault)?;
    Ok(Written { text, status: 9 })
}
