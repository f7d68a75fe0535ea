//! Files of the host, read in pieces.
ghost use Rattle.std.specs.Prelude.{◌≡◌, ◌+◌, ◌<◌, ◌≤◌, ◌^◌, ◌↔◌, ◌++◌, length, take, None, Ok, IsErr, IsErrOf, IfOk, OnOk, OnErr};
ghost use Rattle.mr_io.specs.Counts.{raised};
ghost use Rattle.mr_io.specs.Files.{Grows, GrowsBy};
ghost use Rattle.mr_io.specs.Host.{HasFailed, HasMore, HostFailed, IsGained, IsPiece, Opened, PieceFailed};

use crate::files::{FileFault, Files};
use crate::host::{Opener, Source};
use std::alloc::Global;

// The most bytes that are asked for at a time.
const PIECE: usize = 4096;

/// The host's files. What they hold isn't told.
#[derive(Drop)]
pub struct HostFiles<R> {
    pub host: R,
    /// How often the host has failed. The counts stand still at their last value.
    pub faults: u64,
    /// How many reads there were.
    pub reads: u64,
    /// How many bytes the last read took from the host.
    pub taken: u64,
}

impl<R: Opener + Drop> HostFiles<R> {
    /// The files that a runtime reaches, as the one that `main` is given.
    pub fn new(host: R) -> HostFiles<R>
        ensures faults { result.faults ≡ 0 }
        ensures reads { result.reads ≡ 0 }
        ensures taken { result.taken ≡ 0 }
    {
        HostFiles {
            host,
            faults: 0,
            reads: 0,
            taken: 0,
        }
    }
}

impl<R: Opener + Drop> Files for HostFiles<R> {
    ghost told = { λ _. None };

    ghost faults = { λ h. h.faults };

    ghost reads = { λ h. h.reads };

    fn read(
        &mut self,
        _alloc: Global,
        name: &str,
        max: u64,
        into: &mut Vec<u8>,
    ) -> Result<(), FileFault>
        ensures reads { self.new.reads ≡ raised self.old.reads }
        ensures failed { IsErrOf result FileFault.Failed → self.new.faults ≡ raised self.old.faults }
        ensures faults { self.old.faults ≤ self.new.faults }
        ensures no_fault { ¬ IsErrOf result FileFault.Failed → self.new.faults ≡ self.old.faults }

        // The file of this name was opened once and read up to its end, or the host failed, or more than `max` bytes were read.
        ensures whole { OnOk result (Opened R.opens self.old.host name.now self.new.host
            (IsGained R.File.gives max into.old.items into.new.items)) }
        ensures cause { IsErrOf result FileFault.Failed
            → HostFailed R.opens R.File.gives self.old.host name.now self.new.host }
        ensures more { IsErrOf result FileFault.Long
            → Opened R.opens self.old.host name.now self.new.host (HasMore R.File.gives max) }

        // What was taken from the host.
        ensures taken { self.new.taken ≤ max + 1 }
        ensures ok { OnOk result ((self.new.taken ≤ max)
            × GrowsBy self.new.taken into.old.items into.new.items) }
        ensures err { OnErr result (into.new.items ≡ into.old.items) }
        ensures long { IsErrOf result FileFault.Long → max < self.new.taken }
        ensures told { ¬ IsErrOf result FileFault.Missing }
    {
        let len = into.len();
        self.reads = self.reads.saturating_add(1);
        self.taken = 0;
        match take_file(&mut self.host, name, max, &mut self.taken, into) {
            Ok(()) => Ok(()),
            Err(fault) => {
                into.truncate(len);
                if let FileFault::Failed = fault {
                    self.faults = self.faults.saturating_add(1);
                }
                Err(fault)
            }
        }
    }
}

// Opens a file and takes its bytes.
fn take_file<H: Opener>(
    host: &mut H,
    name: &str,
    max: u64,
    taken: &mut u64,
    into: &mut Vec<u8>,
) -> Result<(), FileFault>
    requires { taken.old ≡ 0 }
    ensures whole { OnOk result (Opened H.opens host.old name.now host.new
        (IsGained H.File.gives max into.old.items into.new.items)) }
    ensures failed { IsErrOf result FileFault.Failed → HostFailed H.opens H.File.gives host.old name.now host.new }
    ensures more { IsErrOf result FileFault.Long
        → Opened H.opens host.old name.now host.new (HasMore H.File.gives max) }
    ensures taken { taken.new ≤ max + 1 }
    ensures ok { OnOk result ((taken.new ≤ max) × GrowsBy taken.new into.old.items into.new.items) }
    ensures err { OnErr result (Grows into.old.items into.new.items) }
    ensures long { IsErrOf result FileFault.Long → max < taken.new }
    ensures told { ¬ IsErrOf result FileFault.Missing }
{
    match host.open(name) {
        Ok(mut file) => take_bytes(&mut file, max, taken, into),
        Err(_) => Err(FileFault::Failed),
    }
}

// Takes the bytes of a file up to its end, and one more than `max` at most.
fn take_bytes<F: Source>(
    file: &mut F,
    max: u64,
    taken: &mut u64,
    into: &mut Vec<u8>,
) -> Result<(), FileFault>
    requires { taken.old ≡ 0 }
    ensures whole { OnOk result (IsGained F.gives max into.old.items into.new.items file.old) }
    ensures failed { IsErrOf result FileFault.Failed → HasFailed F.gives file.old }
    ensures more { IsErrOf result FileFault.Long → HasMore F.gives max file.old }
    ensures taken { taken.new ≤ max + 1 }
    ensures ok { OnOk result ((taken.new ≤ max) × GrowsBy taken.new into.old.items into.new.items) }
    ensures err { OnErr result (Grows into.old.items into.new.items) }
    ensures long { IsErrOf result FileFault.Long → max < taken.new }
    ensures told { ¬ IsErrOf result FileFault.Missing }
{
    while *taken <= max {
        let n = take_piece(file, max - *taken, taken, into)?;
        if n == 0 {
            return Ok(());
        }
    }
    Err(FileFault::Long)
}

// Takes a piece of a file, one byte more than `left` at most.
fn take_piece<F: Source>(
    file: &mut F,
    left: u64,
    taken: &mut u64,
    into: &mut Vec<u8>,
) -> Result<usize, FileFault>
    requires { taken.old < 2 ^ 63 }
    ensures taken { (taken.old ≤ taken.new) × (taken.new ≤ taken.old + left + 1) }
    ensures ok { IfOk result (λ n. (taken.new ≡ taken.old + n)
        × IsPiece F.gives n file.old file.new into.old.items into.new.items) }
    ensures failed { IsErrOf result FileFault.Failed → PieceFailed F.gives file.old }
    ensures err { OnErr result (into.new.items ≡ into.old.items) }
    ensures fault { (¬ IsErrOf result FileFault.Missing) × (¬ IsErrOf result FileFault.Long) }
{
    let mut piece = [0u8; PIECE];
    let most = left.min(PIECE as u64 - 1) as usize + 1;
    let read = file.give(&mut piece[..most]);
    keep_piece(read, &piece, taken, into)
}

// Keeps the bytes that the host gave. It failed only where the host did.
fn keep_piece<E: Drop>(
    read: Result<usize, E>,
    piece: &[u8],
    taken: &mut u64,
    into: &mut Vec<u8>,
) -> Result<usize, FileFault>
    requires within { IfOk read (λ n. n ≤ length piece.now) }
    requires few { IfOk read (λ n. taken.old + n < 2 ^ 64) }
    ensures failed { IsErrOf result FileFault.Failed ↔ IsErr read }
    ensures taken { IfOk read (λ n. taken.new ≡ taken.old + n) }
    ensures unread { IsErr read → taken.new ≡ taken.old }
    ensures ok { IfOk result (λ n. (read ≡ Ok n) × (into.new.items ≡ into.old.items ++ take n piece.now)) }
    ensures err { OnErr result (into.new.items ≡ into.old.items) }
    ensures fault { (¬ IsErrOf result FileFault.Missing) × (¬ IsErrOf result FileFault.Long) }
{
    let Ok(n) = read else {
        return Err(FileFault::Failed);
    };
    *taken += n as u64;
    match into.extend_from_slice(&piece[..n]) {
        Ok(()) => Ok(n),
        Err(_) => Err(FileFault::Memory),
    }
}
