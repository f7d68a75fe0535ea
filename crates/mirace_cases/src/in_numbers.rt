//! The bytes of a trace, written as numbers.
use mr_command::mirace;
use mr_io::{HostFiles, Tray};
use std::io;

// More than any trace here takes.
const ROOM: usize = 1 << 20;

/// Writes what a command comes to that writes a trace: how many bytes it has, and a line for each 16 of them, two
/// digits a byte; and a refusal as it is. Answers the status.
pub fn in_numbers(rt: &HostRuntime, words: &[String]) -> io::Result<u8> {
    let mut out = Tray::new(rt.alloc(), ROOM, ROOM)?;
    let mut files = HostFiles::new(rt);
    let status = mirace(rt.alloc(), words, &mut files, &mut out);
    if status == 0 {
        tell(rt, out.taken())?;
    } else {
        let text = String::from_utf8_lossy(rt.alloc(), out.taken())?;
        print!(rt; "{text}")?;
    }
    Ok(status)
}

fn tell(rt: &HostRuntime, bytes: &[u8]) -> io::Result<()> {
    println!(rt; "{} bytes", bytes.len())?;
    for line in bytes.chunks(16) {
        for byte in line {
            print!(rt; "{byte:02X}")?;
        }
        println!(rt; "")?;
    }
    Ok(())
}
