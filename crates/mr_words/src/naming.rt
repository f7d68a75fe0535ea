//! Names of a text, each held once.
ghost use Rattle.std.specs.Prelude.{◌≡◌, ◌+◌, ◌-◌, ◌^◌, ◌<◌, ◌≤◌, All, IfOk, OnOk, bytes_eq, length, map, position};
ghost use Rattle.std.specs.List.{fold};
ghost use Rattle.std.specs.Str.{IsAscii};
ghost use Rattle.mr_ast.specs.Scope.{each_once, item_names, names_of, with_text};
ghost use Rattle.mr_words.specs.Naming.{IsSmall, IsSmallFunction, names_in};

use crate::definitions::{Definitions, FunctionNames};
use mr_ast::{Names, OutOfMemory, TextKey};
use std::alloc::Global;
use std::str;

/// An ASCII name as a text.
pub fn text_of(name: &[u8]) -> &str
    requires { IsAscii name.now }
    ensures { result.now ≡ name.now }
{
    match str::from_utf8(name) {
        Ok(text) => text,
        Err(_) => unreachable!(),
    }
}

/// The number of a text among these.
pub fn position(names: &Names, text: &str) -> Option<u32>
    ensures { result ≡ position (bytes_eq text.now) names.now }
{
    names.find(text)
}

// Adds a name, unless it is there.
fn add(names: &mut Names, name: &[u8]) -> Result<(), OutOfMemory>
    requires room { length names.old < 2 ^ 32 - 1 }
    requires ascii { IsAscii name.now }
    ensures { OnOk result (names.new ≡ with_text names.old name.now) }
{
    names.add(text_of(name))?;
    Ok(())
}

// Adds each of the names that isn't there.
fn add_all(names: &mut Names, texts: &[&[u8]]) -> Result<(), OutOfMemory>
    requires room { length names.old + length texts.now < 2 ^ 32 }
    requires ascii { All IsAscii (map (λ w. w.now) texts.now) }
    ensures { OnOk result (names.new ≡ fold with_text names.old (map (λ w. w.now) texts.now)) }
{
    for text in texts {
        add(names, text)?;
    }
    Ok(())
}

/// Each of the names once, in the order in which they first stand there.
#[tactic(auto, unfolding(mr_ast::specs::Scope::each_once))]
pub fn each_once(alloc: Global, key: TextKey, texts: &[&[u8]]) -> Result<Names, OutOfMemory>
    requires few { length texts.now < 2 ^ 32 }
    requires ascii { All IsAscii (map (λ w. w.now) texts.now) }
    ensures { IfOk result (λ names. names ≡ each_once (map (λ w. w.now) texts.now)) }
{
    let mut names = Names::keyed(alloc, key);
    add_all(&mut names, texts)?;
    Ok(names)
}

// Adds the names that a function defines.
fn add_function(names: &mut Names, function: &FunctionNames<'_>) -> Result<(), OutOfMemory>
    requires room { length names.old + 1281 < 2 ^ 32 }
    requires small { IsSmallFunction function.now }
    ensures { OnOk result (names.new ≡ fold with_text names.old (names_in function.now)) }
{
    add(names, function.name())?;
    add_all(names, function.locals())?;
    add_all(names, function.blocks())
}

/// Each name that is defined once, in the order of the text.
pub fn names_of(
    alloc: Global,
    key: TextKey,
    definitions: &Definitions<'_>,
) -> Result<Names, OutOfMemory>
    requires { IsSmall definitions.now }
    ensures { IfOk result (λ names. names ≡ names_of definitions.now) }
{
    let mut names = each_once(alloc, key, definitions.globals())?;
    let functions = definitions.functions();
    for function in functions {
        add_function(&mut names, function)?;
    }
    Ok(names)
}

/// Each name of a global or a function once.
pub fn item_names(
    alloc: Global,
    key: TextKey,
    definitions: &Definitions<'_>,
) -> Result<Names, OutOfMemory>
    requires { IsSmall definitions.now }
    ensures { IfOk result (λ names. names ≡ each_once (item_names definitions.now)) }
{
    let mut names = each_once(alloc, key, definitions.globals())?;
    let functions = definitions.functions();
    for function in functions {
        add(&mut names, function.name())?;
    }
    Ok(names)
}
