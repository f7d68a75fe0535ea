//! Sinks in memory, standard output, a slow writer, and texts.
use mr_io::{HostOut, Text, Tray, write_whole};
use std::io::{self, ErrorKind, Write};
use std::test::Fail;

// Takes three bytes at most at a time, and counts the flushes.
#[derive(Drop)]
struct Slow {
    held: Vec<u8>,
    flushes: usize,
    refuses: bool,
}

impl Write for Slow {
    fn write(&mut self, buf: &[u8]) -> io::Result<usize> {
        let n = buf.len().min(3);
        self.held.extend_from_slice(&buf[..n])?;
        Ok(n)
    }

    fn flush(&mut self) -> io::Result<()> {
        self.flushes = self.flushes.saturating_add(1);
        if self.refuses {
            return Err(io::Error::from(ErrorKind::Other));
        }
        Ok(())
    }
}

#[test]
fn a_tray_takes_what_fits(rt: HostRuntime) -> Result<(), Fail> {
    let cases = [
        (3, 2, "verdict", "ver", 1),
        (7, 1, "verdict", "verdict", 0),
        (0, 1, "verdict", "", 1),
        (0, 1, "", "", 0),
    ];
    for (room, step, text, want, faults) in cases {
        let mut tray = Tray::new(rt.alloc(), room, step)?;
        let answer = write_whole(&mut tray, text.as_bytes());
        assert_eq!(rt; answer.is_err(), faults == 1, "room {room}");
        assert_eq!(rt; tray.taken(), want.as_bytes(), "room {room}");
        assert_eq!(rt; tray.faults(), faults, "room {room}");
    }
    Ok(())
}

#[test]
fn nothing_goes_on_a_full_tray(rt: HostRuntime) -> Result<(), Fail> {
    let mut tray = Tray::new(rt.alloc(), 1, 5)?;
    write_whole(&mut tray, b"v")?;
    write_whole(&mut tray, b"")?;
    assert_eq!(rt; tray.taken(), b"v".as_slice());
    assert_eq!(rt; tray.faults(), 0);
    Ok(())
}

#[test]
fn a_text_is_its_bytes(rt: HostRuntime) -> Result<(), Fail> {
    let mut text = Text::from_str(rt.alloc(), "a")?;
    text.push('é')?;
    assert_eq!(rt; text.as_slice(), [b'a', 0xc3, 0xa9].as_slice());
    assert_eq!(rt; text.get(1), Some(0xc3));
    assert_eq!(rt; text.get(text.len()), None);
    assert!(rt; Text::new(rt.alloc()).is_empty());
    Ok(())
}

#[test]
fn a_line_goes_out(rt: HostRuntime) -> Result<(), Fail> {
    let mut out = HostOut::new(rt.stdout());
    write_whole(&mut out, b"a line\n")?;
    assert_eq!(rt; out.faults, 0);
    Ok(())
}

#[test]
fn each_piece_is_flushed(rt: HostRuntime) -> Result<(), Fail> {
    let mut out = HostOut::new(Slow {
        held: Vec::new(rt.alloc()),
        flushes: 0,
        refuses: false,
    });
    write_whole(&mut out, b"verdict\n")?;
    assert_eq!(rt; out.out.held.as_slice(), b"verdict\n".as_slice());
    assert_eq!(rt; (out.out.flushes, out.faults), (3, 0));
    out.out.refuses = true;
    let answer = write_whole(&mut out, b"races 0\n");
    assert!(rt; answer.is_err());
    assert_eq!(rt; (out.out.flushes, out.faults), (4, 1));
    Ok(())
}
