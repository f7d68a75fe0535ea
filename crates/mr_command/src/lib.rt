//! `mirace run P S`: what the machine comes to that runs the program in file P under the recorded schedule in file S.
//! `mirace json P S`: the same report as JSON. `mirace short P S`: the same report with a shorter witness. `mirace
//! shuffle P S N`: the schedule in another order, which is drawn from number N, and the report of that run, where no
//! race is listed. `mirace auto P N M`: a schedule that is drawn from number N with at most M entries, and the report
//! of that run. `mirace big N`: a summary of such a run of the program of number N. `mirace check P`: the canonical
//! text of the program in file P, where it is well-formed. `mirace upgrade S`: the schedule in file S, written in
//! version 2. `mirace trace P S`: the footprints of the completed steps of that run, as bytes. `mirace offline T`: the
//! races that the bytes in file T show, without a program.
//!
//! A schedule's file may be of either version, and a report has schedules in that of the file. `auto` writes version 1.
//!
//! Where the text denotes no program, all that read one write the first fault of it: its line, its column, a code and a
//! name. Of a program that breaks a rule of well-formedness they write where the first one is broken: the global or
//! function, the block, a place, a code and a name.
//!
//! The public call is [`mirace`], over files and a sink; `mr_input` reads the files and writes to the sink, and
//! `mr_answer` makes the report of a run. Its promises are clauses of it. The headline is that of `run P S`: of a
//! program that breaks no rule and a legal schedule the report is that of the machine of MiniRust, none of whose steps
//! is ill-formed (`specs/Headline.antt`). Beside it, what is written and the status are those of `specs/Answer.antt`,
//! each fault has its cause, and a run in another format and a text are answered by what they come to
//! (`specs/Named.antt`, `specs/Promises.antt`).
#![tactic(auto)]

ghost use Rattle.std.specs.Prelude.{◌≡◌, ℕ, ◌+◌, ◌≤◌, ◌⊎◌, List, ◌++◌, None, Some, map, string_bytes};
ghost use Rattle.mr_ast.specs.declared.program.Program.{Program};
ghost use Rattle.mr_io.specs.Counts.{Rose};
ghost use Rattle.mr_io.specs.Files.{Contents};
ghost use Rattle.mr_sched.specs.declared.schedule.Schedule.{Schedule as Recorded};
ghost use Rattle.mr_sched.specs.declared.version.Version.{Version};
ghost use Rattle.mr_gen.specs.Generated.{generated};
ghost use Rattle.mr_answer.specs.Answers.{big_answer, big_schedule};
ghost use Rattle.mr_command.specs.Answer.{usage};
ghost use Rattle.mr_command.specs.Command.{asked, command_of, named_files, IsBounded, NamesProgram, OfNumber};
ghost use Rattle.mr_command.specs.Headline.{IsOfMachine, Names};
ghost use Rattle.mr_input.specs.Inputs.{AsksForSchedule};
ghost use Rattle.mr_command.specs.Named.{IsSoundUnder, IsUnreadBecause};
ghost use Rattle.mr_input.specs.Writing.{IsLeft, IsWritten};
ghost use Rattle.mr_command.specs.Outcome.{Ends, EndsOverTexts};
ghost use Rattle.mr_command.specs.Promises.{PromisesOfRuns, PromisesOfTexts, PromisesOfTraces};
ghost use Rattle.mr_input.specs.Refusals.{refusal_text};
ghost use Rattle.mr_command.specs.Showing.{Shown, ShowsBy};
ghost use Rattle.mr_input.specs.declared.refusal.Refusal.TheVariants.{ReadProgram};

mod answer;
mod command;
mod listed;

use crate::answer::answer;
use crate::command::{Command, command_of};
use mr_input::{finish, refuse};
use mr_io::{Files, Sink};
use std::alloc::Global;

const USAGE: &[u8] = b"usage: see the table of commands\n";

/// Does what the words behind the program's name ask for, and answers the exit status: 0 or 1 of a report, 0 of a
/// canonical text or of a schedule in version 2, or of the bytes of a run, 0 or 1 of the races that such bytes show, 2
/// of words without a form, 3 of a text that denotes no program, 4 of a program that breaks a rule of well-formedness,
/// 5 of a schedule, 6 of a file that was not read, 7 of a failed write, 8 where memory ran out and 9 of bytes that are
/// no trace.
pub fn mirace<F: Files, O: Sink>(alloc: Global, words: &[String], files: &mut F, out: &mut O) -> u8
    // What is written and answered, over files that tell what they hold.
    ensures ends { (contents : Contents) → F.told files.old ≡ Some contents
        → Ends contents (command_of (map string_bytes words.now)) (Rose (F.faults files.old) (F.faults files.new))
        (Rose (O.faults out.old) (O.faults out.new)) (O.taken out.old) (O.taken out.new) result }

    // Over files that don't: there are texts of which they are.
    ensures untold { F.told files.old ≡ None
        → EndsOverTexts (command_of (map string_bytes words.now)) (Rose (F.faults files.old) (F.faults files.new))
        (Rose (O.faults out.old) (O.faults out.new)) (O.taken out.old) (O.taken out.new) result }

    // THE HEADLINE, of `run P S`.
    ensures headline { (contents : Contents) (p : Program) (v : Version) (w : Recorded)
        → F.told files.old ≡ Some contents → Names contents (map string_bytes words.now) p v w
        → IsOfMachine p v w (Rose (F.faults files.old) (F.faults files.new))
        (Rose (O.faults out.old) (O.faults out.new)) (O.taken out.old) (O.taken out.new) result }

    // What is promised beside it of runs, of texts and of traces (`specs/Promises.antt` of `mr_command`).
    ensures runs { (contents : Contents) → F.told files.old ≡ Some contents
        → PromisesOfRuns contents (command_of (map string_bytes words.now))
        (Rose (F.faults files.old) (F.faults files.new))
        (Rose (O.faults out.old) (O.faults out.new)) (O.taken out.old) (O.taken out.new) result }
    ensures texts { (contents : Contents) → F.told files.old ≡ Some contents
        → PromisesOfTexts contents (command_of (map string_bytes words.now))
        (Rose (F.faults files.old) (F.faults files.new))
        (Rose (O.faults out.old) (O.faults out.new)) (O.taken out.old) (O.taken out.new) result }
    ensures traces { (contents : Contents) → F.told files.old ≡ Some contents
        → PromisesOfTraces contents (command_of (map string_bytes words.now))
        (Rose (F.faults files.old) (F.faults files.new))
        (Rose (O.faults out.old) (O.faults out.new)) (O.taken out.old) (O.taken out.new) result }

    // A schedule is drawn for the program of a number, whatever the files are; its summary is written.
    ensures big { (number : ℕ) → command_of (map string_bytes words.now) ≡ Some (OfNumber number)
        → IsSoundUnder (generated number) (big_schedule number)
        × (IsLeft (O.taken out.old) (O.taken out.new) result
        ⊎ IsWritten (big_answer number) (Rose (O.faults out.old) (O.faults out.new))
        (O.taken out.old) (O.taken out.new) result) }
    ensures grows { (number : ℕ) → command_of (map string_bytes words.now) ≡ Some (OfNumber number)
        → ¬ Rose (O.faults out.old) (O.faults out.new) → (result ≤ 1) ⊎ (result ≡ 8) }

    // Whatever the files tell.
    ensures bounded { result ≤ 9 }
    ensures usage { command_of (map string_bytes words.now) ≡ None
        → IsWritten usage (Rose (O.faults out.old) (O.faults out.new)) (O.taken out.old) (O.taken out.new) result }
    ensures no_usage { result ≡ 2 → command_of (map string_bytes words.now) ≡ None }
    ensures read_fault { result ≡ 6 → IsUnreadBecause (Rose (F.faults files.old) (F.faults files.new))
        (F.told files.old) (command_of (map string_bytes words.now)) }
    ensures write_fault { result ≡ 7 → Rose (O.faults out.old) (O.faults out.new) }
    ensures memory { result ≡ 8 → O.taken out.new ≡ O.taken out.old }
    ensures same { F.told files.new ≡ F.told files.old }
    ensures reads { F.reads files.new ≤ F.reads files.old + named_files (command_of (map string_bytes words.now)) }

    // Where the words name a program, the schedule is read behind that alone, and where it breaks no rule.
    ensures once { (contents : Contents) (program : List ℕ) → F.told files.old ≡ Some contents
        → NamesProgram (command_of (map string_bytes words.now)) program → ¬ AsksForSchedule (contents program)
        → F.reads files.new ≤ F.reads files.old + 1 }
    ensures first { (taken : List ℕ) → result ≡ 6 → O.taken out.old ≡ Some taken
        → O.taken out.new ≡ Some (taken ++ refusal_text ReadProgram) → F.reads files.new ≤ F.reads files.old + 1 }
{
    served(alloc, words, files, out)
}

// Does what the words ask for. Of the memory nothing is known but that a command can be obeyed with it, so none is
// taken for words of no form.
fn served<M: Obeys, F: Files, O: Sink>(
    memory: M,
    words: &[String],
    files: &mut F,
    out: &mut O,
) -> u8
    ensures ends { (contents : Contents) → F.told files.old ≡ Some contents
        → Ends contents (command_of (map string_bytes words.now)) (Rose (F.faults files.old) (F.faults files.new))
        (Rose (O.faults out.old) (O.faults out.new)) (O.taken out.old) (O.taken out.new) result }
    ensures usage { command_of (map string_bytes words.now) ≡ None
        → IsWritten usage (Rose (O.faults out.old) (O.faults out.new)) (O.taken out.old) (O.taken out.new) result }
    ensures no_usage { result ≡ 2 → command_of (map string_bytes words.now) ≡ None }
    ensures bounded { result ≤ 9 }
    ensures texts { F.told files.old ≡ None
        → EndsOverTexts (command_of (map string_bytes words.now)) (Rose (F.faults files.old) (F.faults files.new))
        (Rose (O.faults out.old) (O.faults out.new)) (O.taken out.old) (O.taken out.new) result }
    ensures shown { (contents : Contents) → F.told files.old ≡ Some contents
        → Shown contents (command_of (map string_bytes words.now)) result }
    ensures untold { F.told files.old ≡ None → result ≡ 6 → Rose (F.faults files.old) (F.faults files.new) }
    ensures write_fault { result ≡ 7 → Rose (O.faults out.old) (O.faults out.new) }
    ensures memory { result ≡ 8 → O.taken out.new ≡ O.taken out.old }
    ensures same { F.told files.new ≡ F.told files.old }
    ensures reads { F.reads files.new ≤ F.reads files.old + named_files (command_of (map string_bytes words.now)) }
    ensures once { (contents : Contents) (program : List ℕ) → F.told files.old ≡ Some contents
        → NamesProgram (command_of (map string_bytes words.now)) program → ¬ AsksForSchedule (contents program)
        → F.reads files.new ≤ F.reads files.old + 1 }
    ensures first { (taken : List ℕ) → result ≡ 6 → O.taken out.old ≡ Some taken
        → O.taken out.new ≡ Some (taken ++ refusal_text ReadProgram) → F.reads files.new ≤ F.reads files.old + 1 }
{
    match command_of(words) {
        None => finish(out, USAGE, 2),
        Some(command) => memory.obey(files, out, command),
    }
}

// What a command can be obeyed with.
trait Obeys: Drop {
    /// Does what a command asks for.
    fn obey<F: Files, O: Sink>(self, files: &mut F, out: &mut O, command: Command<'_>) -> u8
        requires { IsBounded (asked command) }
        ensures ends { (contents : Contents) → F.told files.old ≡ Some contents
            → Ends contents (Some (asked command.entry)) (Rose (F.faults files.old) (F.faults files.new))
            (Rose (O.faults out.old) (O.faults out.new)) (O.taken out.old) (O.taken out.new) result }
        ensures no_usage { ¬ result ≡ 2 }
        ensures bounded { result ≤ 9 }
        ensures texts { F.told files.old ≡ None
            → EndsOverTexts (Some (asked command.entry)) (Rose (F.faults files.old) (F.faults files.new))
            (Rose (O.faults out.old) (O.faults out.new)) (O.taken out.old) (O.taken out.new) result }
        ensures shows { (contents : Contents) → F.told files.old ≡ Some contents
            → ShowsBy contents (asked command.entry) result }
        ensures untold { F.told files.old ≡ None → result ≡ 6 → Rose (F.faults files.old) (F.faults files.new) }
        ensures write_fault { result ≡ 7 → Rose (O.faults out.old) (O.faults out.new) }
        ensures memory { result ≡ 8 → O.taken out.new ≡ O.taken out.old }
        ensures same { F.told files.new ≡ F.told files.old }
        ensures reads { F.reads files.new ≤ F.reads files.old + named_files (Some (asked command.entry)) }
        ensures once { (contents : Contents) (program : List ℕ) → F.told files.old ≡ Some contents
            → NamesProgram (Some (asked command.entry)) program → ¬ AsksForSchedule (contents program)
            → F.reads files.new ≤ F.reads files.old + 1 }
        ensures first { (taken : List ℕ) → result ≡ 6 → O.taken out.old ≡ Some taken
            → O.taken out.new ≡ Some (taken ++ refusal_text ReadProgram) → F.reads files.new ≤ F.reads files.old + 1 };
}

impl Obeys for Global {
    fn obey<F: Files, O: Sink>(self, files: &mut F, out: &mut O, command: Command<'_>) -> u8 {
        match answer(self, files, command) {
            Ok(written) => finish(out, written.text.as_slice(), written.status),
            Err(refusal) => refuse(self, out, refusal),
        }
    }
}
