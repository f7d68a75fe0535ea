//! A list of accesses, in their order.
use mr_base::{Access, Accesses, OutOfMemory};
use std::alloc::Global;
use std::test::Fail;

fn fill(accesses: &mut Accesses, added: &[Access]) -> Result<(), OutOfMemory> {
    for access in added {
        accesses.add(*access)?;
    }
    Ok(())
}

// Whether the list has these accesses, in their order, and no others.
fn has_only(accesses: &Accesses, added: &[Access]) -> bool {
    for k in 0..7 {
        if accesses.get(k) != added.get(k).copied() {
            return false;
        }
    }
    accesses.len() == added.len() && accesses.as_slice() == added
}

fn is_kept(accesses: &mut Accesses, added: &[Access]) -> Result<bool, OutOfMemory> {
    fill(accesses, added)?;
    Ok(has_only(accesses, added))
}

// Whether six accesses are kept in their order.
fn are_six_kept(alloc: Global) -> Result<bool, OutOfMemory> {
    let load = Access {
        store: false,
        atomic: false,
        addr: 1,
        len: 1,
    };
    let mut added = [load; 6];
    for k in 0..6 {
        added[k].addr = k as u64 + 1;
    }
    let mut accesses = Accesses::new(alloc);
    is_kept(&mut accesses, &added)
}

#[test]
fn accesses_are_kept(rt: HostRuntime) -> Result<(), Fail> {
    assert!(rt; are_six_kept(rt.alloc())?);
    Ok(())
}
