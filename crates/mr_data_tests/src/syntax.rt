//! Types are compared and copied, and asked for the rule that they break.
use crate::texts::{program_of, type_of};
use mr_ast::{OutOfMemory, Program, Ty};
use mr_layout::type_ok;
use mr_parse::parse;
use std::alloc::Global;
use std::string::String;
use std::test::Fail;

// Whether a copy of a type is another.
fn is_copied(copy: Result<Ty, OutOfMemory>, other: &Ty) -> Result<bool, OutOfMemory> {
    match copy {
        Ok(copy) => Ok(copy.same(other)),
        Err(fault) => Err(fault),
    }
}

// Whether two types are equal, themselves and by a copy of the first.
fn compared(alloc: Global, first: &Ty, second: &Ty) -> Result<[bool; 2], OutOfMemory> {
    let copied = is_copied(first.copy(alloc), second)?;
    Ok([first.same(second), copied])
}

fn tell(alloc: Global, told: &mut String, first: &Ty, second: &Ty) -> Result<(), OutOfMemory> {
    let types = compared(alloc, first, second)?;
    write!(told, "{types:?}")
}

fn tell_in(alloc: Global, told: &mut String, program: &Program) -> Result<(), OutOfMemory> {
    match (type_of(program, 1), type_of(program, 2)) {
        (Some(first), Some(second)) => tell(alloc, told, first, second),
        _ => write!(told, "no types"),
    }
}

fn tell_of(alloc: Global, told: &mut String, text: &str) -> Result<(), OutOfMemory> {
    match parse(alloc, text.as_bytes()) {
        Ok(program) => tell_in(alloc, told, &program),
        Err(_) => write!(told, "no program"),
    }
}

fn told(alloc: Global, first: &str, second: &str) -> Result<String, OutOfMemory> {
    let text = program_of(alloc, &[first, second])?;
    let mut told = String::new(alloc);
    tell_of(alloc, &mut told, text.as_str())?;
    Ok(told)
}

// Three pairs of an enum and a bool: with another tag, another chunk and another reference than in the first.
const DEEP: &str =
    "array(3, tuple size 24 align 8 { 0: enum size 16 align 8 disc i8 { 0: ref 4 4 tag { 8: u8 = 1 }, 1: \
        union size 16 align 8 { 0: u32 } chunks { 0 4 } tag { 8: u8 = 2 } } branch 8 u8 { 1 => known 0, _ \
        => known 1 }, 16: bool })";

const OTHER_TAG: &str =
    "array(3, tuple size 24 align 8 { 0: enum size 16 align 8 disc i8 { 0: ref 4 4 tag { 8: u8 = 1 }, 1: \
        union size 16 align 8 { 0: u32 } chunks { 0 4 } tag { 8: u8 = 3 } } branch 8 u8 { 1 => known 0, _ \
        => known 1 }, 16: bool })";

const OTHER_CHUNK: &str =
    "array(3, tuple size 24 align 8 { 0: enum size 16 align 8 disc i8 { 0: ref 4 4 tag { 8: u8 = 1 }, 1: \
        union size 16 align 8 { 0: u32 } chunks { 0 8 } tag { 8: u8 = 2 } } branch 8 u8 { 1 => known 0, _ \
        => known 1 }, 16: bool })";

const OTHER_REF: &str =
    "array(3, tuple size 24 align 8 { 0: enum size 16 align 8 disc i8 { 0: ref 4 4 never tag { 8: u8 = 1 \
        }, 1: union size 16 align 8 { 0: u32 } chunks { 0 4 } tag { 8: u8 = 2 } } branch 8 u8 { 1 => known \
        0, _ => known 1 }, 16: bool })";

const SCALARS: &str = "tuple size 32 align 16 { 0: i128, 16: raw, 24: fnptr }";

const LEAF: &str = "enum size 16 align 8 disc i8 { 1: bool tag { 8: u8 = 2 } } known 3";

const OTHER_LEAF: &str = "enum size 16 align 8 disc i8 { 1: bool tag { 8: u8 = 2 } } known 4";

// Two types, and whether they are equal, themselves and by a copy.
static TYPES: [(&str, &str, &str); 15] = [
    (DEEP, DEEP, "[true, true]"),
    (DEEP, OTHER_TAG, "[false, false]"),
    (DEEP, OTHER_CHUNK, "[false, false]"),
    (DEEP, OTHER_REF, "[false, false]"),
    (OTHER_REF, OTHER_REF, "[true, true]"),
    (OTHER_REF, DEEP, "[false, false]"),
    (SCALARS, SCALARS, "[true, true]"),
    ("bool", "raw", "[false, false]"),
    ("fnptr", "i128", "[false, false]"),
    ("u16", "u8", "[false, false]"),
    ("ref 8 1", "ref 4 8", "[false, false]"),
    ("array(2, i128)", "array(3, u8)", "[false, false]"),
    (
        "tuple size 2 align 1 { 1: u8 }",
        "tuple size 2 align 1 { 0: u8, 1: u8 }",
        "[false, false]",
    ),
    (LEAF, LEAF, "[true, true]"),
    (LEAF, OTHER_LEAF, "[false, false]"),
];

#[test]
fn types_are_compared(rt: HostRuntime) -> Result<(), Fail> {
    for row in TYPES.iter() {
        let (first, second, wanted) = *row;
        assert_eq!(rt;
            told(rt.alloc(), first, second)?.as_str(),
            wanted,
            "{first} {second}"
        );
    }
    Ok(())
}

// The number of the rule that a type breaks.
fn rule_of(alloc: Global, text: &str) -> Result<Option<u8>, OutOfMemory> {
    match parse(alloc, text.as_bytes()) {
        Ok(program) => match type_of(&program, 1) {
            Some(ty) => type_ok(alloc, ty),
            None => Ok(Some(0)),
        },
        Err(_) => Ok(Some(0)),
    }
}

// A type, and the number of the rule that it breaks.
const RULES: [(&str, Option<u8>); 4] = [
    ("bool", None),
    ("array(1048577, bool)", Some(20)),
    ("ref 8 3", Some(21)),
    ("tuple size 4 align 2 { 0: u16, 1: u16 }", Some(23)),
];

#[test]
fn broken_rules_are_told(rt: HostRuntime) -> Result<(), Fail> {
    for (ty, wanted) in RULES {
        let text = program_of(rt.alloc(), &[ty])?;
        let rule = rule_of(rt.alloc(), text.as_str())?;
        assert_eq!(rt; rule, wanted, "{ty}");
    }
    Ok(())
}
