//! The words of the command line.
ghost use Rattle.std.specs.Prelude.{◌≡◌, ℕ, ◌⊎◌, List, Result, Ok, Err, drop, map, string_bytes, IfOk, IfErr, ⊤};
ghost use Rattle.std.specs.IoError.{error_kind};
ghost use Rattle.std.specs.Vec.Iter.{into_iter_items};
ghost use Rattle.std.specs.declared.io.Error.{Error};

use std::alloc::{AllocError, AllocGlobal, Global};
use std::env::{self, Args, Env};
use std::io::{self, ErrorKind};

/// Who started the program.
pub trait Caller {
    /// The words were asked for, the program's name first, and this was the answer.
    ghost says: { Self → Result (List (List ℕ)) Error → Type 0 };

    fn args(&self) -> io::Result<Args>
        ensures some { IfOk result (λ all. says self.now (Ok (map string_bytes (into_iter_items all)))) }
        ensures none { IfErr result (λ e. says self.now (Err e)) };
}

impl<R: Env + AllocGlobal> Caller for R {
    ghost says = { λ _ _. ⊤ };

    fn args(&self) -> io::Result<Args> {
        env::args(self)
    }
}

/// The words behind the program's name, none of which is lost.
pub fn words_of<C: Caller>(alloc: Global, caller: &C) -> io::Result<Vec<String>>
    ensures told { IfOk result (λ words. (all : List (List ℕ)) × C.says caller.now (Ok all)
        × (map string_bytes words.items ≡ drop 1 all)) }

    // Where there are none, the caller gave none, or memory ran out.
    ensures cause { IfErr result (λ e. C.says caller.now (Err e) ⊎ (error_kind e ≡ ErrorKind.OutOfMemory)) }
{
    let all = caller.args()?;
    Ok(behind_first(alloc, all)?)
}

/// The exit status where there are no words: 8 where memory ran out, and 10 of any other cause.
pub fn wordless(error: &io::Error) -> u8
    ensures memory { error_kind error.now ≡ ErrorKind.OutOfMemory → result ≡ 8 }
    ensures other { ¬ error_kind error.now ≡ ErrorKind.OutOfMemory → result ≡ 10 }
{
    match error.kind() {
        ErrorKind::OutOfMemory => 8,
        _ => 10,
    }
}

// The words behind the first.
fn behind_first(alloc: Global, all: Args) -> Result<Vec<String>, AllocError>
    ensures { IfOk result (λ words. words.items ≡ drop 1 (into_iter_items all)) }
{
    let mut all = all;
    all.next();
    all.collect(alloc)
}
