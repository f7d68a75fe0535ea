//! Files in memory and files of the host.
use mr_io::{Drawer, FileFault, Files, HostFiles, OutOfMemory};
use std::alloc::Global;
use std::test::Fail;

// The name a stands twice, and the second read fails.
fn drawer(alloc: Global) -> Result<Drawer, OutOfMemory> {
    let mut drawer = Drawer::new(alloc);
    drawer.add(alloc, "a", b"xy")?;
    drawer.add(alloc, "a", b"z")?;
    drawer.fails.push(2)?;
    Ok(drawer)
}

#[test]
fn a_drawer_answers(rt: HostRuntime) -> Result<(), Fail> {
    let alloc = rt.alloc();
    let mut drawer = drawer(alloc)?;
    let mut into = vec![in alloc; b'k']?;

    drawer.read(alloc, "a", 2, &mut into)?;
    assert_eq!(rt; into.as_slice(), b"kxy".as_slice());
    let second = drawer.read(alloc, "a", 2, &mut into);
    assert!(rt; matches!(second, Err(FileFault::Failed)));
    assert_eq!(rt; drawer.faults, 1);
    assert_eq!(rt; into.as_slice(), b"kxy".as_slice());
    let third = drawer.read(alloc, "b", 2, &mut into);
    assert!(rt; matches!(third, Err(FileFault::Missing)));
    assert_eq!(rt; drawer.faults, 1);
    let fourth = drawer.read(alloc, "a", 1, &mut into);
    assert!(rt; matches!(fourth, Err(FileFault::Long)));
    assert_eq!(rt; drawer.calls, 4);
    assert_eq!(rt; into.as_slice(), b"kxy".as_slice());
    Ok(())
}

#[test]
fn the_host_has_no_such_file(rt: HostRuntime) -> Result<(), Fail> {
    let alloc = rt.alloc();
    let mut files = HostFiles::new(rt.clone()?);
    let mut into = vec![in alloc; b'k']?;
    let answer = files.read(alloc, "no such file/at all", 5, &mut into);
    assert!(rt; matches!(answer, Err(FileFault::Failed)));
    assert_eq!(rt; (files.faults, files.reads, files.taken), (1, 1, 0));
    assert_eq!(rt; into.as_slice(), b"k".as_slice());
    Ok(())
}

#[test]
fn a_file_of_the_host_is_read(rt: HostRuntime) -> Result<(), Fail> {
    let alloc = rt.alloc();
    std::fs::write(&rt, "mr_io_tested.txt", "verdict")?;
    let mut files = HostFiles::new(rt.clone()?);
    let mut into = vec![in alloc; b'k']?;
    let short = files.read(alloc, "mr_io_tested.txt", 6, &mut into);
    assert!(rt; matches!(short, Err(FileFault::Long)));
    assert_eq!(rt; files.taken, 7);
    assert_eq!(rt; into.as_slice(), b"k".as_slice());
    files.read(alloc, "mr_io_tested.txt", 7, &mut into)?;
    assert_eq!(rt; into.as_slice(), b"kverdict".as_slice());
    assert_eq!(rt; (files.faults, files.reads, files.taken), (0, 2, 7));
    std::fs::remove_file(&rt, "mr_io_tested.txt")?;
    Ok(())
}

#[test]
fn a_file_of_a_long_name_is_read(rt: HostRuntime) -> Result<(), Fail> {
    let alloc = rt.alloc();
    let mut name = String::new(alloc);
    for _ in 0..250 {
        name.push('x')?;
    }
    std::fs::write(&rt, "x", "races")?;
    std::fs::write(&rt, name.as_str(), "verdict")?;
    let mut files = HostFiles::new(rt.clone()?);
    let mut into = vec![in alloc; b'k']?;
    files.read(alloc, name.as_str(), 7, &mut into)?;
    assert_eq!(rt; into.as_slice(), b"kverdict".as_slice());
    assert_eq!(rt; (files.faults, files.reads, files.taken), (0, 1, 7));
    std::fs::remove_file(&rt, name.as_str())?;
    std::fs::remove_file(&rt, "x")?;
    Ok(())
}
