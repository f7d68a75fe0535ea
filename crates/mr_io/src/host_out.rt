//! A writer of the host, as standard output.
ghost use Rattle.std.specs.Prelude.{◌≡◌, ℕ, ◌<◌, ◌≤◌, ◌⊎◌, length, take, None, Some, IsErr, IsOk, IfOk, IfSome, OnOk, OnErr};
ghost use Rattle.std.specs.Io.KnownBytes.{Appends};
ghost use Rattle.mr_io.specs.Counts.{raised};
ghost use Rattle.mr_io.specs.Host.{IsLost, IsSent};

use crate::host::Stream;
use crate::sink::{Failed, Sink};

/// A writer of the host, as standard output. What it has taken isn't told.
#[derive(Drop)]
pub struct HostOut<W> {
    pub out: W,
    /// How often the host has failed. The count stands still at its last value.
    pub faults: u64,
}

impl<W: Stream + Drop> HostOut<W> {
    /// Writes to `out`, as `rt.stdout()` of the runtime that `main` is given.
    pub fn new(out: W) -> HostOut<W>
        ensures out { result.out ≡ out }
        ensures faults { result.faults ≡ 0 }
    {
        HostOut { out, faults: 0 }
    }
}

impl<W: Stream + Drop> Sink for HostOut<W> {
    ghost taken = { λ _. None };

    ghost faults = { λ h. h.faults };

    fn write(&mut self, piece: &[u8]) -> Result<usize, Failed>
        requires { 0 < length piece.now }
        ensures some { IfOk result (λ n. (1 ≤ n) × (n ≤ length piece.now)) }

        // The piece was handed over once and flushed once, be they fewer bytes than it has; or nothing was taken, or one of the
        // two calls failed.
        ensures sent { IfOk result (IsSent W.takes W.flushes self.old.out piece.now self.new.out) }
        ensures cause { OnErr result (IsLost W.takes W.flushes self.old.out piece.now self.new.out) }

        // Where the writer tells what it holds, these are the bytes that it took.
        ensures taken { IfOk result (λ n.
            Appends (W.contents self.old.out) (W.contents self.new.out) (take n piece.now)) }

        // A failed write leaves a part from the front at most.
        ensures part { OnErr result ((n : ℕ) × (n ≤ length piece.now)
            × Appends (W.contents self.old.out) (W.contents self.new.out) (take n piece.now)) }

        // A fault is counted.
        ensures ok { OnOk result (self.new.faults ≡ self.old.faults) }
        ensures failed { OnErr result (self.new.faults ≡ raised self.old.faults) }
        ensures faults { self.old.faults ≤ self.new.faults }
    {
        match put(&mut self.out, piece) {
            Some(n) => Ok(n),
            None => {
                self.faults = self.faults.saturating_add(1);
                Err(Failed)
            }
        }
    }
}

// Hands a piece over, and has it flushed.
fn put<W: Stream>(out: &mut W, piece: &[u8]) -> Option<usize>
    ensures sent { IfSome result (IsSent W.takes W.flushes out.old piece.now out.new) }
    ensures lost { result ≡ None → IsLost W.takes W.flushes out.old piece.now out.new }
    ensures some { IfSome result (λ n. (1 ≤ n) × (n ≤ length piece.now)) }
    ensures taken { IfSome result (λ n. Appends (W.contents out.old) (W.contents out.new) (take n piece.now)) }
    ensures part { (n : ℕ) × (n ≤ length piece.now)
        × Appends (W.contents out.old) (W.contents out.new) (take n piece.now) }
{
    match out.put(piece) {
        Ok(n) => flushed(n, out.settle()),
        Err(_) => None,
    }
}

// How many bytes the host took, be they fewer than it was given, where there are some and it flushed them.
fn flushed<E: Drop>(n: usize, flush: Result<(), E>) -> Option<usize>
    ensures ok { 1 ≤ n → IsOk flush → result ≡ Some n }
    ensures some { IfSome result (λ taken. (taken ≡ n) × (1 ≤ taken) × IsOk flush) }
    ensures none { result ≡ None → (n ≡ 0) ⊎ IsErr flush }
{
    match flush {
        Ok(()) if n > 0 => Some(n),
        _ => None,
    }
}
