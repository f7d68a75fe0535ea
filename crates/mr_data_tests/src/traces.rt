//! Bytes that are read as the footprints of a run, and their faults: `decode` tells what `offline` tells, and is
//! undone by `encode`.
use mr_event::Pair;
use mr_trace::{
    BAD_FIELD, BAD_MAGIC, OutOfMemory, TRAILING, TRUNCATED, TraceFault, decode, encode, offline,
};
use std::alloc::Global;
use std::test::Fail;

const STEP: [u8; 55] = [
    77, 82, 84, 82, 1, 1, 0, 0, 0, 0, 0, 0, 0, 0, 0, 0, 0, 0, 0, 0, 0, 0, 0, 0, 0, 0, 0, 0, 0, 0,
    0, 0, 0, 0, 0, 0, 0, 0, 0, 0, 0, 0, 0, 0, 0, 0, 0, 0, 0, 0, 0, 0, 0, 0, 0,
];

// A step with a store of four bytes at 16.
fn put_store(thread: u8, out: &mut Vec<u8>) -> Result<(), OutOfMemory> {
    out.extend_from_slice(&[thread, 0, 0, 0, 0, 0])?;
    out.extend_from_slice(&[
        1, 0, 0, 0, 0, 0, 0, 0, 1, 16, 0, 0, 0, 0, 0, 0, 0, 4, 0, 0, 0, 0, 0, 0, 0,
    ])?;
    out.extend_from_slice(&[0u8; 32])
}

// The offset and the code of the fault of bytes, by both ways.
fn faults(alloc: Global, bytes: &[u8]) -> (Option<TraceFault>, Option<TraceFault>) {
    (decode(alloc, bytes).err(), offline(alloc, bytes).err())
}

fn twice(at: u64, code: u8) -> (Option<TraceFault>, Option<TraceFault>) {
    (
        Some(TraceFault::Bad { at, code }),
        Some(TraceFault::Bad { at, code }),
    )
}

#[test]
fn first_faults(rt: HostRuntime) -> Result<(), Fail> {
    let alloc = rt.alloc();
    assert_eq!(rt; faults(alloc, b"MRTR"), twice(0, BAD_MAGIC));
    assert_eq!(rt; faults(alloc, b"MRTR\x02\0\0\0\0"), twice(0, BAD_MAGIC));
    assert_eq!(rt; faults(alloc, b"MRTR\x01\0\0\0"), twice(8, TRUNCATED));
    assert_eq!(rt; faults(alloc, &STEP[..54]), twice(54, TRUNCATED));
    let mut longer = Vec::from_slice(alloc, STEP.as_slice())?;
    longer.push(0)?;
    assert_eq!(rt; faults(alloc, longer.as_slice()), twice(55, TRAILING));
    let mut bytes = STEP;
    bytes[14] = 2;
    assert_eq!(rt; faults(alloc, &bytes), twice(14, BAD_FIELD));
    // A count of accesses that is believed only as they come: the first of them has length 0.
    let mut bytes = STEP;
    for k in 15..23 {
        bytes[k] = 255;
    }
    assert_eq!(rt; faults(alloc, &bytes), twice(32, BAD_FIELD));
    Ok(())
}

#[test]
fn two_stores_race(rt: HostRuntime) -> Result<(), Fail> {
    let mut bytes = Vec::from_slice(rt.alloc(), b"MRTR\x01\x02\0\0\0".as_slice())?;
    put_store(1, &mut bytes)?;
    put_store(2, &mut bytes)?;
    let pairs = offline(rt.alloc(), bytes.as_slice())
        .ok()
        .ok_or("the bytes are a run")?;
    assert_eq!(rt;
        pairs.as_slice(),
        [Pair {
            first: 0,
            second: 1
        }]
        .as_slice()
    );
    let run = decode(rt.alloc(), bytes.as_slice())
        .ok()
        .ok_or("the bytes are a run")?;
    let mut out = Vec::new(rt.alloc());
    encode(rt.alloc(), run.as_slice(), &mut out)?;
    assert_eq!(rt; out.as_slice(), bytes.as_slice());
    Ok(())
}
