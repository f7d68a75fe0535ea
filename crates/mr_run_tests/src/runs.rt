//! Programs and schedules as texts, and what each entry of their runs comes to.
use mr_event::Footprint;
use mr_sched::Entry;
use mr_step::{Machine, StepFault, Turn};
use mr_wf::{Checked, well_formed};
use std::alloc::Global;
use std::test::Fail;

// The program that a text denotes, which breaks no rule.
fn checked(alloc: Global, text: &str) -> Result<Checked, Fail> {
    match mr_parse::parse(alloc, text.as_bytes()) {
        Ok(program) => match well_formed(alloc, program) {
            Ok(checked) => Ok(checked),
            Err(_) => Err("a broken rule".into()),
        },
        Err(_) => Err("no program".into()),
    }
}

// The step of an entry, within the number of steps that is allowed for. The footprint is handed out or not.
fn step(
    machine: &mut Machine,
    entry: &Entry,
    foot: &mut Footprint,
    handed: bool,
) -> Result<Turn, StepFault> {
    if machine.completed() >= 1_000_000 {
        return Err(StepFault::Failed);
    }
    if handed {
        machine.step(entry, foot)
    } else {
        machine.go(entry)
    }
}

// What an answer is in a row: 0 of a step that went on, 1 of the last one, and the code of the rule that an entry
// breaks.
fn code(answer: &Result<Turn, StepFault>) -> u8 {
    match answer {
        Ok(Turn::Went) => 0,
        Ok(Turn::Stopped(_)) => 1,
        Err(StepFault::BadEntry { code, .. }) => *code,
        Err(StepFault::Memory | StepFault::Failed) => 255,
    }
}

// The first entry whose answer is another than in the row. Footprints are handed out or not.
fn first_other(
    alloc: Global,
    machine: &mut Machine,
    entries: &[Entry],
    wanted: &[u8],
    handed: bool,
) -> Option<usize> {
    let mut foot = Footprint::nothing(alloc);
    for (n, entry) in entries.iter().enumerate() {
        let answer = step(machine, entry, &mut foot, handed);
        if wanted.get(n).copied() != Some(code(&answer)) {
            return Some(n);
        }
    }
    None
}

// The same of the run of a program under a schedule.
fn first_other_of(
    alloc: Global,
    program: &str,
    schedule: &str,
    wanted: &[u8],
    handed: bool,
) -> Result<Option<usize>, Fail> {
    let program = checked(alloc, program)?;
    let schedule = match mr_sched::read_version(alloc, schedule.as_bytes()) {
        Ok(read) => read.schedule,
        Err(_) => return Err("no schedule".into()),
    };
    let entries = schedule.entries.as_slice();
    match Machine::start(alloc, &program, schedule.start.as_slice()) {
        Ok(mut machine) => Ok(first_other(alloc, &mut machine, entries, wanted, handed)),
        Err(_) => Err("no start".into()),
    }
}

// A local lives, is dead, and lives again; then the program exits.
const LIVES: &str = "minirust 1
fn main() -> r {
let r: unit, x: u32;
b0 regular: live x; dead x; live x; exit;
}
main main
";

// A schedule, and what each of its entries comes to.
const ANSWERS: [(&str, [u8; 8]); 2] = [
    // A refused entry changes nothing: of another thread, with a pick too few or too many, at no multiple of 4; and
    // an address is taken once.
    (
        "schedule 1\nstart 16 64\n1\n0\n0 8193\n0 8192\n0 5\n0\n0 8192\n0 8196\n",
        [60, 61, 63, 0, 62, 0, 64, 0],
    ),
    // Nothing follows the end.
    (
        "schedule 1\nstart 16 64\n0 8192\n0\n0 8196 1\n0 8196\n0\n0\n1\n0 5\n",
        [0, 0, 62, 0, 1, 66, 66, 66],
    ),
];

#[test]
fn refused_entries_change_nothing(rt: HostRuntime) -> Result<(), Fail> {
    for (schedule, wanted) in ANSWERS {
        for handed in [true, false] {
            let other = first_other_of(rt.alloc(), LIVES, schedule, wanted.as_slice(), handed)?;
            assert_eq!(rt; other, None, "{schedule}");
        }
    }
    Ok(())
}

// What the answers of a machine's steps come to: none of them found no memory; from one that found none on, all are
// refused as of a machine that has failed; or another answer stands behind it.
#[derive(Clone, Copy, Debug, PartialEq, Eq)]
enum Lasting {
    Whole,
    Failed,
    GoesOn,
}

// The same with one answer more.
fn with(so_far: Lasting, answer: &Result<Turn, StepFault>) -> Lasting {
    let is_lacking = matches!(answer, Err(StepFault::Memory));
    let is_failed = matches!(answer, Err(StepFault::Failed));
    match so_far {
        Lasting::Whole if is_lacking => Lasting::Failed,
        Lasting::Whole if is_failed => Lasting::GoesOn,
        Lasting::Whole => Lasting::Whole,
        Lasting::Failed if is_failed => Lasting::Failed,
        Lasting::Failed | Lasting::GoesOn => Lasting::GoesOn,
    }
}

// The same of a machine's steps under some entries.
fn outcome(alloc: Global, machine: &mut Machine, entries: &[Entry]) -> Lasting {
    let mut so_far = Lasting::Whole;
    let mut foot = Footprint::nothing(alloc);
    for entry in entries {
        let answer = step(machine, entry, &mut foot, true);
        so_far = with(so_far, &answer);
    }
    so_far
}

// The same of the run of a program from a start line, with entries of its own thread.
fn outcome_of_run(alloc: Global, program: &str, schedule: &str) -> Result<Lasting, Fail> {
    let program = checked(alloc, program)?;
    let schedule = match mr_sched::read_version(alloc, schedule.as_bytes()) {
        Ok(read) => read.schedule,
        Err(_) => return Err("no schedule".into()),
    };
    match Machine::start(alloc, &program, schedule.start.as_slice()) {
        Ok(mut machine) => Ok(outcome(alloc, &mut machine, schedule.entries.as_slice())),
        Err(_) => Err("no start".into()),
    }
}

// A run without end, which stores, loads, evaluates and prints.
const ENDLESS: &str = "minirust 1
global g align 8 { 8*4 }
fn main() -> r {
let r: unit, x: tuple size 8 align 4 { 0: u32, 4: u32 };
b0 regular: live x; goto b1;
b1 regular: x = tuple(tuple size 8 align 4 { 0: u32, 4: u32 }, load(deref(global g + 0, u32)), u32 7);
do print(load(x.1), load(deref(global g + 4, u32))) to b1;
}
main main
";

// With memory enough no step fails. `.ci/refused` runs this with each allocation refused in turn: then the answers
// are never of a machine that goes on.
#[test]
fn a_failed_machine_stays_failed(rt: HostRuntime) -> Result<(), Fail> {
    let lines = "schedule 2\nstart 16 32 64\n0 8192\n0*20\n";
    let answers = outcome_of_run(rt.alloc(), ENDLESS, lines)?;
    assert_eq!(rt; answers, Lasting::Whole);
    Ok(())
}
