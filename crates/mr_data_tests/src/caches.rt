//! The layouts that a cache holds of a program.
use crate::texts::program_of;
use mr_ast::{Local, OutOfMemory, Program};
use mr_layout::{Cache, broken_rule, find_types};
use mr_parse::parse;
use std::alloc::Global;
use std::string::String;
use std::test::Fail;

/// The cache of a program, and `None` where one of its types breaks a rule.
pub fn cache_of<'p>(alloc: Global, p: &'p Program) -> Result<Option<Cache<'p>>, OutOfMemory> {
    let found = find_types(alloc, p)?;
    for t in found.as_slice() {
        if broken_rule(t).is_some() {
            return Ok(None);
        }
    }
    Ok(Some(Cache::new(alloc, p)?))
}

// Tells the layouts that the cache holds of the types of these locals.
fn tell(told: &mut String, cache: &Cache, locals: &[Local]) -> Result<(), OutOfMemory> {
    for local in locals {
        let layout = cache.get(&local.ty).copied();
        write!(told, "{layout:?}\n")?;
    }
    Ok(())
}

fn tell_in(told: &mut String, cache: &Cache, asked: &Program) -> Result<(), OutOfMemory> {
    match asked.functions.as_slice().get(0) {
        Some(function) => tell(told, cache, function.locals.as_slice()),
        None => write!(told, "no function"),
    }
}

fn tell_of(
    alloc: Global,
    told: &mut String,
    cache: &Cache,
    types: &str,
) -> Result<(), OutOfMemory> {
    match parse(alloc, types.as_bytes()) {
        Ok(asked) => tell_in(told, cache, &asked),
        Err(_) => write!(told, "no program of the types"),
    }
}

fn tell_cached(
    alloc: Global,
    told: &mut String,
    program: &Program,
    types: &str,
) -> Result<(), OutOfMemory> {
    match cache_of(alloc, program) {
        Ok(Some(cache)) => tell_of(alloc, told, &cache, types),
        Ok(None) => write!(told, "a broken rule"),
        Err(fault) => Err(fault),
    }
}

fn tell_program(
    alloc: Global,
    told: &mut String,
    program: &str,
    types: &str,
) -> Result<(), OutOfMemory> {
    match parse(alloc, program.as_bytes()) {
        Ok(program) => tell_cached(alloc, told, &program, types),
        Err(_) => write!(told, "no program"),
    }
}

fn told(alloc: Global, program: &str, types: &[&str]) -> Result<String, OutOfMemory> {
    let types = program_of(alloc, types)?;
    let mut told = String::new(alloc);
    tell_program(alloc, &mut told, program, types.as_str())?;
    Ok(told)
}

// Types stand in a local, behind a `deref`, at an address, and in a `transmute`.
const PROGRAM: &str = "
minirust 1
fn main() -> x {
let x: array(3, tuple size 8 align 4 { 0: u32, 4: bool });
b0 regular: deref(raw 8, i16) = addrof(ref 0 1 never, x);
do print(transmute(union size 2 align 2 { 0: u16 } chunks { 0 2 }, i8 1)) to b0;
}
main main
";

// The types that are asked for behind `unit`: those that stand there, their parts, and others.
const ASKED: [&str; 9] = [
    "array(3, tuple size 8 align 4 { 0: u32, 4: bool })",
    "union size 2 align 2 { 0: u16 } chunks { 0 2 }",
    "ref 0 1 never",
    "i16",
    "tuple size 8 align 4 { 0: u32, 4: bool }",
    "u32",
    "u16",
    "array(4, tuple size 8 align 4 { 0: u32, 4: bool })",
    "i8",
];

const HELD: &str = "None
Some(Layout { size: 24, align: 4, inhabited: true })
Some(Layout { size: 2, align: 2, inhabited: true })
Some(Layout { size: 8, align: 8, inhabited: false })
Some(Layout { size: 2, align: 2, inhabited: true })
Some(Layout { size: 8, align: 4, inhabited: true })
Some(Layout { size: 4, align: 4, inhabited: true })
Some(Layout { size: 2, align: 2, inhabited: true })
None
None
";

#[test]
fn written_types_and_their_parts_are_held(rt: HostRuntime) -> Result<(), Fail> {
    assert_eq!(rt; told(rt.alloc(), PROGRAM, &ASKED)?.as_str(), HELD);
    Ok(())
}
