//! What is made from a number: programs, by their canonical texts, and choices.
use mr_gen::program;
use mr_parse::parse;
use mr_print::print;
use mr_sched::Chooser;
use std::alloc::{AllocError, Global};
use std::process::Abort;
use std::string::String;
use std::test::Fail;

// What is told is what is wanted. A failure tells the name of the case.
fn expect_same(rt: &impl Abort, told: &str, wanted: &str, case: &str) {
    assert_eq!(rt; told, wanted, "{case}");
}

// The canonical text of the program of a number.
fn generated(alloc: Global, number: u64) -> Result<String, AllocError> {
    let mut out = Vec::new(alloc);
    print(alloc, &program(alloc, number)?, &mut out)?;
    String::from_utf8_lossy(alloc, out.as_slice())
}

// The canonical text of the program that a text denotes.
fn canonical(alloc: Global, text: &str) -> Result<String, AllocError> {
    match parse(alloc, text.as_bytes()) {
        Ok(program) => {
            let mut out = Vec::new(alloc);
            print(alloc, &program, &mut out)?;
            String::from_utf8_lossy(alloc, out.as_slice())
        }
        Err(fault) => format!(in alloc; "{fault:?}"),
    }
}

fn expect_program(
    rt: &(impl AllocGlobal + Abort),
    number: u64,
    text: &str,
) -> Result<(), AllocError> {
    let made = generated(rt.alloc(), number)?;
    let wanted = canonical(rt.alloc(), text)?;
    expect_same(rt, made.as_str(), wanted.as_str(), text);
    Ok(())
}

// Two workers of one round each.
const EVEN: &str = "minirust 1
global g align 8 { 0*8 }
fn w(p) -> r {
let p: raw, r: unit, n: u64;
b0 regular: live n; n = u64 0; goto b1;
b1 regular: switch lt(load(n), u64 1) { 1 => b2, _ => b5 };
b2 regular: do acquire(u32 0) to b3;
b3 regular: deref(global g + 0, u64) = add(load(deref(global g + 0, u64)), u64 1); do release(u32 0) to b4;
b4 regular: n = add(load(n), u64 1); goto b1;
b5 regular: dead n; return;
}
fn main() -> r {
let r: unit, t: u32;
b0 regular: live t; do create_lock() -> t to c1;
c1 regular: do spawn(fn w, raw 0) -> t to c2;
c2 regular: do spawn(fn w, raw 0) -> t to e1;
e1 regular: do join(u32 1) to e2;
e2 regular: do join(u32 2) to e3;
e3 regular: do print(load(deref(global g + 0, u64))) to h;
h regular: exit;
}
main main
";

// Three workers of three rounds each, which set the counter to 0 at their ends.
const ODD: &str = "minirust 1
global g align 8 { 0*8 }
fn w(p) -> r {
let p: raw, r: unit, n: u64;
b0 regular: live n; n = u64 0; goto b1;
b1 regular: switch lt(load(n), u64 3) { 1 => b2, _ => b5 };
b2 regular: do acquire(u32 0) to b3;
b3 regular: deref(global g + 0, u64) = add(load(deref(global g + 0, u64)), u64 1); do release(u32 0) to b4;
b4 regular: n = add(load(n), u64 1); goto b1;
b5 regular: deref(global g + 0, u64) = u64 0; dead n; return;
}
fn main() -> r {
let r: unit, t: u32;
b0 regular: live t; do create_lock() -> t to c1;
c1 regular: do spawn(fn w, raw 0) -> t to c2;
c2 regular: do spawn(fn w, raw 0) -> t to c3;
c3 regular: do spawn(fn w, raw 0) -> t to e1;
e1 regular: do join(u32 1) to e2;
e2 regular: do join(u32 2) to e3;
e3 regular: do join(u32 3) to e4;
e4 regular: do print(load(deref(global g + 0, u64))) to h;
h regular: exit;
}
main main
";

#[test]
fn programs_of_numbers(rt: HostRuntime) -> Result<(), Fail> {
    expect_program(&rt, 0, EVEN)?;
    expect_program(&rt, 15, ODD)?;
    Ok(())
}

// Where three allocations lie, and who is drawn of one, two and three.
fn choices(alloc: Global, number: u64) -> Result<String, AllocError> {
    let mut chooser = Chooser::new(number);
    let first = chooser.address(1, 1);
    let second = chooser.address(0, 1);
    let third = chooser.address(8, 8);
    let last = chooser.address(u64::MAX, 1);
    let one = chooser.thread(&[4]);
    let two = chooser.waiter(&[4, 5]);
    let three = chooser.thread(&[4, 5, 6]);
    format!(in alloc; "{first:?} {second:?} {third:?} {last:?} {one} {two} {three}")
}

#[test]
fn choices_of_a_number(rt: HostRuntime) -> Result<(), Fail> {
    let told = choices(rt.alloc(), 7)?;
    let wanted = "Some(65536) Some(65537) Some(65544) None 4 5 4";
    expect_same(&rt, told.as_str(), wanted, "7");
    Ok(())
}
