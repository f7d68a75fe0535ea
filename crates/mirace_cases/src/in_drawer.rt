//! Commands over files in memory, of which one read fails, and over a sink with little room.
use crate::words_of;
use mr_command::mirace;
use mr_io::{Drawer, OutOfMemory, Tray};
use std::alloc::Global;
use std::io;

// One block that exits.
const EXIT: &[u8] =
    b"minirust 1\nfn main() -> r {\nlet r: unit;\nb0 regular: exit;\n}\nmain main\n";

// A block that leads to one of another kind.
const ILL_FORMED: &[u8] =
    b"minirust 1\nfn main() -> r {\nlet r: unit;\nb0 regular: goto c;\nc cleanup: exit;\n}\nmain main\n";

// A main function that returns.
const UNDEFINED: &[u8] =
    b"minirust 1\nfn main() -> r {\nlet r: unit;\nb0 regular: return;\n}\nmain main\n";

// Programs, a schedule and a trace, of which one read fails. One name stands twice.
fn drawer(alloc: Global, fails: u64) -> Result<Drawer, OutOfMemory> {
    let mut files = Drawer::new(alloc);
    files.add(alloc, "exit", EXIT)?;
    files.add(alloc, "broken", ILL_FORMED)?;
    files.add(alloc, "undefined", UNDEFINED)?;
    files.add(alloc, "twice", EXIT)?;
    files.add(alloc, "twice", ILL_FORMED)?;
    files.add(alloc, "S", b"schedule 1\nstart 16 4096\n0\n")?;
    files.add(alloc, "M", b"MRTR\x01\0\0\0\0")?;
    files.fails.push(fails)?;
    Ok(files)
}

// The number that a line begins with, and what stands behind it.
fn first_number(line: &str) -> (u64, &str) {
    let (word, rest) = match line.split_once(' ') {
        Some((word, rest)) => (word, rest),
        None => (line, ""),
    };
    match u64::from_str_radix(word, 10) {
        Ok(number) => (number, rest),
        Err(_) => (0, rest),
    }
}

/// Writes what a command comes to, as a text with its line ends spelled out, how many reads there were and how many
/// failed, and how many writes failed. In front of its words stand the number of the read that fails, the room of the
/// sink, and how many bytes that takes at a time. Answers the status.
pub fn in_drawer(rt: &HostRuntime, line: &str) -> io::Result<u8> {
    let (fails, line) = first_number(line);
    let (room, line) = first_number(line);
    let (step, line) = first_number(line);
    let words = words_of(rt, line)?;
    let mut files = drawer(rt.alloc(), fails)?;
    let mut out = Tray::new(rt.alloc(), room as usize, (step as usize).max(1))?;
    let status = mirace(rt.alloc(), words.as_slice(), &mut files, &mut out);
    let text = String::from_utf8_lossy(rt.alloc(), out.taken())?;
    println!(rt; "{:?}", text.as_str())?;
    println!(rt;
        "reads {} {}, writes {}",
        files.calls,
        files.faults,
        out.faults()
    )?;
    Ok(status)
}
