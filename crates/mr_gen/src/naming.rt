//! The names of a program.
ghost use Rattle.std.specs.Prelude.{◌≡◌, ◌+◌, ◌-◌, ◌^◌, ◌<◌, ◌≤◌, ◌++◌, IfOk, OnOk, decimal, length, map, string_bytes};
ghost use Rattle.std.specs.List.{fold};
ghost use Rattle.mr_ast.specs.Scope.{with_text};
ghost use Rattle.mr_gen.specs.Generated.{counted_texts, name_texts};

use mr_ast::{Names, OutOfMemory};
use std::alloc::Global;

// The names up to the locals of the main function.
const FIRST: [&str; 13] = [
    "g", "w", "p", "r", "n", "b0", "b1", "b2", "b3", "b4", "b5", "main", "t",
];

// Adds a name, unless it is there.
fn add(names: &mut Names, text: &str) -> Result<(), OutOfMemory>
    requires { length names.old < 2 ^ 32 - 1 }
    ensures { OnOk result (names.new ≡ with_text names.old text.now) }
{
    names.add(text)?;
    Ok(())
}

// Adds each of the names that isn't there.
fn add_each(names: &mut Names, texts: &[&str]) -> Result<(), OutOfMemory>
    requires { length names.old + length texts.now < 2 ^ 32 }
    ensures all { OnOk result (names.new ≡ fold with_text names.old (map (λ t. t.now) texts.now)) }
    ensures few { OnOk result (length names.new ≤ length names.old + length texts.now) }
{
    for text in texts {
        add(names, text)?;
    }
    Ok(())
}

// A letter with a number behind it.
fn counted_text(alloc: Global, letter: &str, k: u32) -> Result<String, OutOfMemory>
    ensures { IfOk result (λ s. string_bytes s ≡ letter.now ++ decimal k) }
{
    format!(in alloc; "{letter}{k}")
}

// Adds the letter with each number from 1 to n behind it, unless it is there.
fn add_counted(alloc: Global, names: &mut Names, letter: &str, n: u32) -> Result<(), OutOfMemory>
    requires { length names.old + n < 2 ^ 32 - 1 }
    ensures all { OnOk result (names.new ≡ fold with_text names.old (counted_texts letter.now n)) }
    ensures few { OnOk result (length names.new ≤ length names.old + n) }
{
    for k in 1..n + 1 {
        let text = counted_text(alloc, letter, k)?;
        add(names, text.as_str())?;
    }
    Ok(())
}

/// The names of a program with so many workers, in the order in which its text defines them.
pub fn program_names(alloc: Global, workers: u32) -> Result<Names, OutOfMemory>
    requires { workers ≤ 8 }
    ensures { IfOk result (λ names. names ≡ name_texts workers) }
{
    let mut names = Names::new(alloc);
    add_each(&mut names, &FIRST)?;
    add_counted(alloc, &mut names, "c", workers)?;
    add_counted(alloc, &mut names, "e", workers + 1)?;
    add(&mut names, "h")?;
    Ok(names)
}
