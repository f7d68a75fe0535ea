//! How the program ends.
ghost use Rattle.std.specs.Prelude.{◌≡◌, IfOk, IfErr, map, string_bytes};
ghost use Rattle.std.specs.IoError.{error_kind};
ghost use Rattle.std.specs.Process.{exit_status};
ghost use Rattle.mr_io.specs.Counts.{Rose};
ghost use Rattle.mr_show.specs.InputEnding.{IsEnd};
ghost use Rattle.mirace_show.specs.Ending.{IsDone};

use mr_io::{Caller, Files, Sink, wordless, words_of};
use mr_show::mirace_show;
use std::alloc::Global;
use std::io::{self, Eprint, ErrorKind};
use std::process::{ExitCode, Termination};

/// The end of the program. [`run`] alone makes one.
#[derive(Drop)]
pub struct Ending {
    status: ExitCode,
}

impl Ending {
    /// Whether the status is 1.
    pub fn is_partial(&self) -> bool {
        self.status == ExitCode::FAILURE
    }
}

impl Termination for Ending {
    fn report<R: Eprint>(self, _rt: &R) -> ExitCode
        ensures { result ≡ self.status }
    {
        self.status
    }
}

/// Does what the words behind the program's name ask for, and ends with the status of that: with 8 or 10 where there are none.
pub fn run<C: Caller, F: Files, O: Sink>(
    alloc: Global,
    caller: &C,
    files: &mut F,
    out: &mut O,
) -> Ending
    ensures { IsEnd (C.says caller.now)
        (IsDone (F.told files.old) (Rose (F.faults files.old) (F.faults files.new))
        (Rose (O.faults out.old) (O.faults out.new))
        (O.taken out.old) (O.taken out.new) (exit_status result.status))
        (O.taken out.old) (O.taken out.new) (exit_status result.status) }
{
    Ending {
        status: ended(alloc, words_of(alloc, caller), files, out),
    }
}

// The status of the call, and 8 or 10 where there are no words.
fn ended<F: Files, O: Sink>(
    alloc: Global,
    words: io::Result<Vec<String>>,
    files: &mut F,
    out: &mut O,
) -> ExitCode
    ensures done { IfOk words (λ given. IsDone (F.told files.old) (Rose (F.faults files.old) (F.faults files.new))
        (Rose (O.faults out.old) (O.faults out.new)) (O.taken out.old) (O.taken out.new) (exit_status result)
        (map string_bytes given.items)) }
    ensures memory { IfErr words (λ e. error_kind e ≡ ErrorKind.OutOfMemory → exit_status result ≡ 8) }
    ensures no_words { IfErr words (λ e. ¬ error_kind e ≡ ErrorKind.OutOfMemory → exit_status result ≡ 10) }
    ensures untouched { IfErr words (λ _. O.taken out.new ≡ O.taken out.old) }
{
    match words {
        Ok(words) => ExitCode::from(mirace_show(alloc, words.as_slice(), files, out)),
        Err(error) => ExitCode::from(wordless(&error)),
    }
}
