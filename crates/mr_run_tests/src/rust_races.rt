//! The races of runs by Rust's own order. The runs are texts as those of `orders`.

use crate::clocks::{access, single};
use crate::orders::run_of;
use mr_event::OutOfMemory;
use mr_rust_order::{Analysis, races};
use std::alloc::Global;
use std::test::Fail;

/// A run, and its races.
static RUNS: [(&str, &str); 16] = [
    // Two threads store, and neither waits for the other.
    (
        "0 spawn 1,wake 1; 0 spawn 2,wake 2; 1 store 64; 2 store 64",
        "2 3,",
    ),
    // What is stored before a flag is raised is seen by who sees the flag.
    (
        "1 store 64; 1 atomic-store 80; 2 atomic-load 80; 2 load 64",
        "",
    ),
    // Two stores to a flag have no order, and a plain store hands nothing over.
    (
        "1 store 64; 1 atomic-store 80; 2 atomic-store 80; 2 load 64",
        "0 3,",
    ),
    (
        "1 store 64; 1 store 80; 2 atomic-load 80; 2 load 64",
        "1 2, 0 3,",
    ),
    // A store that was overwritten is not seen; where it is overwritten in part, it is.
    (
        "1 store 64; 1 atomic-store 80; 3 atomic-store 80; 2 atomic-load 80; 2 load 64",
        "0 4,",
    ),
    (
        "1 store 64; 1 atomic-store 80; 3 atomic-store 82; 2 atomic-load 80; 2 load 64",
        "",
    ),
    (
        "1 store 64; 1 atomic-wide-store 80; 3 atomic-store 84; 3 atomic-store 92; 2 atomic-load 88; 2 load 64",
        "",
    ),
    // An update passes on what it read.
    (
        "1 store 64; 1 atomic-store 80; 3 atomic-load 80,atomic-store 80; 2 atomic-load 80; 2 load 64",
        "",
    ),
    // A step that stores plainly as well hands nothing over.
    (
        "1 store 64; 1 atomic-store 80,store 80; 2 atomic-load 80; 2 load 64",
        "1 2, 0 3,",
    ),
    // A lock orders from its release on, and no other lock does.
    (
        "1 acquire 0; 1 store 64; 1 release 0; 2 acquire 0; 2 load 64",
        "",
    ),
    (
        "1 acquire 0; 1 store 64; 1 release 0; 2 acquire 1; 2 load 64",
        "1 4,",
    ),
    ("1 acquire 0; 1 store 64; 2 acquire 0; 2 load 64", "1 3,"),
    // A join waits for the end alone. The steps of a thread come behind its start.
    ("1 store 64; 1 end 0; 0 join 1; 0 load 64", ""),
    ("1 store 64; 0 join 1; 1 end 0; 0 load 64", "0 3,"),
    ("0 store 64; 0 spawn 1; 1 load 64; 2 load 64", "0 3,"),
    // The greatest earlier step stands in the list.
    ("1 store 64; 1 store 62; 3 load 60; 2 store 64", "1 2, 1 3,"),
];

// The pairs of the races of a run.
fn told(alloc: Global, text: &str) -> Result<String, OutOfMemory> {
    let mut told = String::new(alloc);
    let run = run_of(alloc, text)?;
    for pair in races(alloc, run.as_slice())?.iter() {
        write!(told, "{} {}, ", pair.first, pair.second)?;
    }
    Ok(told)
}

// The first run that is told otherwise.
fn first_wrong(alloc: Global) -> Result<Option<usize>, OutOfMemory> {
    for (n, (text, wanted)) in RUNS.iter().enumerate() {
        if told(alloc, text)?.as_str().trim() != *wanted {
            return Ok(Some(n));
        }
    }
    Ok(None)
}

#[test]
fn races_by_rusts_order(rt: HostRuntime) -> Result<(), Fail> {
    assert_eq!(rt; first_wrong(rt.alloc())?, None);
    Ok(())
}

// A flag that is read orders what stands before it; one that is stored to again doesn't.
#[test]
fn a_flag_that_is_read_orders(rt: HostRuntime) -> Result<(), OutOfMemory> {
    let alloc = rt.alloc();
    let mut run = Vec::new(alloc);
    run.push(single(alloc, 1, access(true, false, 64))?)?;
    run.push(single(alloc, 1, access(true, true, 80))?)?;
    run.push(single(alloc, 2, access(true, true, 80))?)?;
    run.push(single(alloc, 3, access(false, true, 80))?)?;
    run.push(single(alloc, 3, access(false, false, 64))?)?;
    let mut analysis = Analysis::new(alloc)?;
    assert!(rt; analysis.add(&run, 0)?.is_none());
    assert!(rt; analysis.add(&run, 1)?.is_none());
    assert!(rt; !analysis.orders(&run, 1, 2)?);
    assert!(rt; analysis.add(&run, 2)?.is_none());
    assert!(rt; analysis.add(&run, 3)?.is_none());
    assert!(rt; analysis.orders(&run, 2, 4)? && analysis.orders(&run, 3, 4)?);
    assert!(rt; !analysis.orders(&run, 0, 4)? && !analysis.orders(&run, 1, 4)?);
    assert!(rt; analysis.add(&run, 4)? == Some(0));
    Ok(())
}
