//! The program `mirace`. `mirace run P S` writes the report of the run of a program under a recorded schedule; the head
//! of `mr_command` has the other forms: `json`, `short`, `shuffle`, `trace`, `offline`, `check`, `auto`, `big` and
//! `upgrade`.
//!
//! The public call is [`mirace`], over files and a sink, whose promises are its clauses; the library `mr_command` does
//! what it asks for. `run` asks for the words and makes the end of the process (`src/ending.rt`), which `main` returns.
#![tactic(auto)]

ghost use Rattle.std.specs.Prelude.{◌≡◌, ℕ, ◌+◌, ◌≤◌, ◌⊎◌, List, ◌++◌, None, Some, map, string_bytes};
ghost use Rattle.mr_ast.specs.declared.program.Program.{Program};
ghost use Rattle.mr_io.specs.Counts.{Rose};
ghost use Rattle.mr_io.specs.Files.{Contents};
ghost use Rattle.mr_sched.specs.declared.schedule.Schedule.{Schedule as Recorded};
ghost use Rattle.mr_sched.specs.declared.version.Version.{Version};
ghost use Rattle.mr_command.specs.GenGenerated.{generated};
ghost use Rattle.mr_command.specs.AnswerAnswers.{big_answer, big_schedule};
ghost use Rattle.mr_command.specs.Answer.{usage};
ghost use Rattle.mr_command.specs.Command.{command_of, named_files, NamesProgram, OfNumber};
ghost use Rattle.mr_command.specs.Headline.{IsOfMachine, Names};
ghost use Rattle.mr_input.specs.Inputs.{AsksForSchedule};
ghost use Rattle.mr_command.specs.Named.{IsSoundUnder, IsUnreadBecause};
ghost use Rattle.mr_input.specs.Writing.{IsLeft, IsWritten};
ghost use Rattle.mr_command.specs.Outcome.{Ends, EndsOverTexts};
ghost use Rattle.mr_command.specs.Promises.{PromisesOfRuns, PromisesOfTexts, PromisesOfTraces};
ghost use Rattle.mr_input.specs.Refusals.{refusal_text};
ghost use Rattle.mr_input.specs.declared.refusal.Refusal.TheVariants.{ReadProgram};

mod ending;

use crate::ending::{Ending, run};
use mr_io::{Files, HostFiles, HostOut, Sink};
use std::alloc::Global;

/// Does what the words behind the program's name ask for, and answers the exit status: 0 or 1 of a report, 0 of a
/// canonical text or of a schedule in version 2, or of the bytes of a run, 0 or 1 of the races that such bytes show, 2
/// of words without a form, 3 of a text that denotes no program, 4 of a program that breaks a rule of well-formedness,
/// 5 of a schedule, 6 of a file that was not read, 7 of a failed write, 8 where memory ran out and 9 of bytes that are
/// no trace.
pub fn mirace<F: Files, O: Sink>(alloc: Global, words: &[String], files: &mut F, out: &mut O) -> u8
    // What is written and answered, over files that tell what they hold.
    ensures ends { (contents : Contents) → F.told files.old ≡ Some contents
        → Ends contents (command_of (map string_bytes words.now)) (Rose (F.faults files.old) (F.faults files.new))
        (Rose (O.faults out.old) (O.faults out.new)) (O.taken out.old) (O.taken out.new) result }

    // Over files that don't: there are texts of which they are.
    ensures untold { F.told files.old ≡ None
        → EndsOverTexts (command_of (map string_bytes words.now)) (Rose (F.faults files.old) (F.faults files.new))
        (Rose (O.faults out.old) (O.faults out.new)) (O.taken out.old) (O.taken out.new) result }

    // THE HEADLINE, of `run P S`.
    ensures headline { (contents : Contents) (p : Program) (v : Version) (w : Recorded)
        → F.told files.old ≡ Some contents → Names contents (map string_bytes words.now) p v w
        → IsOfMachine p v w (Rose (F.faults files.old) (F.faults files.new))
        (Rose (O.faults out.old) (O.faults out.new)) (O.taken out.old) (O.taken out.new) result }

    // What is promised beside it of runs, of texts and of traces (`specs/Promises.antt` of `mr_command`).
    ensures runs { (contents : Contents) → F.told files.old ≡ Some contents
        → PromisesOfRuns contents (command_of (map string_bytes words.now))
        (Rose (F.faults files.old) (F.faults files.new))
        (Rose (O.faults out.old) (O.faults out.new)) (O.taken out.old) (O.taken out.new) result }
    ensures texts { (contents : Contents) → F.told files.old ≡ Some contents
        → PromisesOfTexts contents (command_of (map string_bytes words.now))
        (Rose (F.faults files.old) (F.faults files.new))
        (Rose (O.faults out.old) (O.faults out.new)) (O.taken out.old) (O.taken out.new) result }
    ensures traces { (contents : Contents) → F.told files.old ≡ Some contents
        → PromisesOfTraces contents (command_of (map string_bytes words.now))
        (Rose (F.faults files.old) (F.faults files.new))
        (Rose (O.faults out.old) (O.faults out.new)) (O.taken out.old) (O.taken out.new) result }

    // A schedule is drawn for the program of a number, whatever the files are; its summary is written.
    ensures big { (number : ℕ) → command_of (map string_bytes words.now) ≡ Some (OfNumber number)
        → IsSoundUnder (generated number) (big_schedule number)
        × (IsLeft (O.taken out.old) (O.taken out.new) result
        ⊎ IsWritten (big_answer number) (Rose (O.faults out.old) (O.faults out.new))
        (O.taken out.old) (O.taken out.new) result) }
    ensures grows { (number : ℕ) → command_of (map string_bytes words.now) ≡ Some (OfNumber number)
        → ¬ Rose (O.faults out.old) (O.faults out.new) → (result ≤ 1) ⊎ (result ≡ 8) }

    // Whatever the files tell.
    ensures bounded { result ≤ 9 }
    ensures usage { command_of (map string_bytes words.now) ≡ None
        → IsWritten usage (Rose (O.faults out.old) (O.faults out.new)) (O.taken out.old) (O.taken out.new) result }
    ensures no_usage { result ≡ 2 → command_of (map string_bytes words.now) ≡ None }
    ensures read_fault { result ≡ 6 → IsUnreadBecause (Rose (F.faults files.old) (F.faults files.new))
        (F.told files.old) (command_of (map string_bytes words.now)) }
    ensures write_fault { result ≡ 7 → Rose (O.faults out.old) (O.faults out.new) }
    ensures memory { result ≡ 8 → O.taken out.new ≡ O.taken out.old }
    ensures same { F.told files.new ≡ F.told files.old }
    ensures reads { F.reads files.new ≤ F.reads files.old + named_files (command_of (map string_bytes words.now)) }

    // Where the words name a program, the schedule is read behind that alone, and where it breaks no rule.
    ensures once { (contents : Contents) (program : List ℕ) → F.told files.old ≡ Some contents
        → NamesProgram (command_of (map string_bytes words.now)) program → ¬ AsksForSchedule (contents program)
        → F.reads files.new ≤ F.reads files.old + 1 }
    ensures first { (taken : List ℕ) → result ≡ 6 → O.taken out.old ≡ Some taken
        → O.taken out.new ≡ Some (taken ++ refusal_text ReadProgram) → F.reads files.new ≤ F.reads files.old + 1 }
{
    mr_command::mirace(alloc, words, files, out)
}

fn main(rt: HostRuntime) -> Ending {
    let mut out = HostOut::new(rt.stdout());
    let mut files = HostFiles::new(&rt);
    run(rt.alloc(), &rt, &mut files, &mut out)
}
