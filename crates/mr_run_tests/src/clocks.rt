//! A run that is added to an analysis a step at a time.
use mr_base::Access;
use mr_clocks::Analysis;
use mr_event::{Event, Footprint, OutOfMemory, Step};
use std::alloc::Global;

pub fn access(store: bool, atomic: bool, addr: u64) -> Access {
    Access {
        store,
        atomic,
        addr,
        len: 1,
    }
}

// A step of a thread with these accesses and nothing else.
fn accessing(alloc: Global, thread: u32, accesses: &[Access]) -> Result<Footprint, OutOfMemory> {
    let step = Step {
        thread,
        event: Event::Quiet,
        ended: false,
        accesses,
        allocated: &[],
        freed: &[],
        touched: &[],
        woken: &[],
    };
    Footprint::of(alloc, &step)
}

fn step(
    alloc: Global,
    thread: u32,
    first: Access,
    second: Access,
) -> Result<Footprint, OutOfMemory> {
    accessing(alloc, thread, &[first, second])
}

pub fn single(alloc: Global, thread: u32, only: Access) -> Result<Footprint, OutOfMemory> {
    accessing(alloc, thread, &[only])
}

// The third step follows the first one, though it races with the second. Whoever doesn't look back lets the fourth
// race with the first.
#[test]
fn the_clock_looks_back(rt: HostRuntime) -> Result<(), OutOfMemory> {
    let alloc = rt.alloc();
    let mut run = Vec::new(alloc);
    run.push(step(alloc, 1, access(true, true, 16), access(true, false, 48))?)?;
    run.push(step(alloc, 1, access(true, true, 16), access(true, false, 32))?)?;
    run.push(step(alloc, 2, access(false, true, 16), access(true, false, 32))?)?;
    run.push(single(alloc, 2, access(true, false, 48))?)?;
    let mut analysis = Analysis::new(alloc);
    assert!(rt; analysis.add(&run[..1])?.is_none());
    assert!(rt; analysis.add(&run[..2])?.is_none());
    assert!(rt; analysis.add(&run[..3])? == Some(1));
    assert!(rt; analysis.add(&run)?.is_none());
    assert!(rt; analysis.orders(&run, 0, 3) && !analysis.orders(&run, 1, 3));
    Ok(())
}
