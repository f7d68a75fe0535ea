//! What is asked of the host: a file of a name, some bytes of it, that bytes are taken, and that they are flushed.
//!
//! A relation of each trait says that a call was made and what it came to. Code that is generic in the trait can show it by that
//! call alone. Each call of the host is one of std, and its relation says what std does.
ghost use Rattle.std.specs.Prelude.{◌≡◌, ℕ, List, Option, Result, ⊤};
ghost use Rattle.std.specs.Io.{ReadsAtMost, WritesAtMost};
ghost use Rattle.std.specs.Io.KnownBytes.{Keeps, ReadConsumes, WriteAppends};

use std::io::{self, Read, Write};
use std::{fs, rt};

/// What opens files by name.
pub trait Opener {
    type File: Source + Drop;

    type Error: Drop;

    /// A file was asked for: what there was before, its name, the answer, and what there is then.
    ghost opens: { Self → List ℕ → Result Self.File Self.Error → Self → Type 0 };

    fn open(&mut self, name: &str) -> Result<Self::File, Self::Error>
        ensures { opens self.old name.now result self.new };
}

/// An open file.
pub trait Source {
    type Error: Drop;

    /// Bytes were asked for: the file before, the buffer as it is then, the answer, and the file then.
    ghost gives: { Self → List ℕ → Result ℕ Self.Error → Self → Type 0 };

    fn give(&mut self, buf: &mut [u8]) -> Result<usize, Self::Error>
        ensures bound { ReadsAtMost result buf.new }
        ensures gives { gives self.old buf.new result self.new };
}

/// A stream that bytes go out by.
pub trait Stream {
    type Error: Drop;

    /// The bytes that it holds, where they are known.
    ghost contents: { Self → Option (List ℕ) };

    /// Bytes were handed over: the stream before, the bytes, the answer, and the stream then.
    ghost takes: { Self → List ℕ → Result ℕ Self.Error → Self → Type 0 };

    /// A flush was asked for: the stream before, the answer, and the stream then.
    ghost flushes: { Self → Result ⊤ Self.Error → Self → Type 0 };

    fn put(&mut self, bytes: &[u8]) -> Result<usize, Self::Error>
        ensures bound { WritesAtMost result bytes.now }
        ensures bytes { WriteAppends (contents self.old) (contents self.new) result bytes.now }
        ensures takes { takes self.old bytes.now result self.new };

    fn settle(&mut self) -> Result<(), Self::Error>
        ensures bytes { Keeps (contents self.old) (contents self.new) }
        ensures flushes { flushes self.old result self.new };
}

impl<R: rt::Files> Opener for R {
    type File = R::File;

    type Error = io::Error;

    ghost opens = { λ old _ _ new. new ≡ old };

    fn open(&mut self, name: &str) -> io::Result<R::File> {
        fs::open(self, name)
    }
}

impl<F: Read> Source for F {
    type Error = io::Error;

    ghost gives = { λ old buf answer new. ReadConsumes (F.remaining old) (F.remaining new) answer buf };

    fn give(&mut self, buf: &mut [u8]) -> io::Result<usize> {
        self.read(buf)
    }
}

impl<W: Write> Stream for W {
    type Error = io::Error;

    ghost contents = { λ out. W.contents out };

    ghost takes = { λ old bytes answer new. WriteAppends (W.contents old) (W.contents new) answer bytes };

    ghost flushes = { λ old _ new. Keeps (W.contents old) (W.contents new) };

    fn put(&mut self, bytes: &[u8]) -> io::Result<usize> {
        self.write(bytes)
    }

    fn settle(&mut self) -> io::Result<()> {
        self.flush()
    }
}
