//! A sink in memory, with room for so many bytes.
ghost use Rattle.std.specs.Prelude.{◌≡◌, ◌-◌, ◌<◌, ◌≤◌, ◌↔◌, [], ◌++◌, length, min, take, Some, IfOk, IsErr, OnErr};
ghost use Rattle.mr_io.specs.Counts.{raised};

use crate::OutOfMemory;
use crate::sink::{Failed, Sink};
use std::alloc::Global;
use std::marker::Model;

/// Takes bytes in memory that it has from the start.
#[derive(Debug, Drop)]
pub struct Tray {
    taken: Vec<u8>,
    room: usize,
    step: usize,
    faults: u64,
}

impl Model for Tray {
    ghost use Rattle.std.specs.Prelude.{◌≤◌, length, vec_capacity};
    ghost use Rattle.mr_io.specs.Tray.{TrayState};

    ghost Value = { TrayState };

    ghost view = { λ t. record { taken = t.taken.items; room = t.room; step = t.step; faults = t.faults } };

    ghost invariant = { λ t. (length t.taken.items ≤ t.room) × (t.room ≤ vec_capacity t.taken) × (1 ≤ t.step) };
}

impl Tray {
    /// Room for so many bytes in all. A write takes at most `step` bytes.
    pub fn new(alloc: Global, room: usize, step: usize) -> Result<Tray, OutOfMemory>
        requires { 1 ≤ step }
        ensures { IfOk result (λ t. t ≡ record { taken = []; room = room; step = step; faults = 0 }) }
    {
        let taken = Vec::with_capacity(alloc, room)?;
        Ok(Tray {
            taken,
            room,
            step,
            faults: 0,
        })
    }

    /// The bytes taken so far.
    pub fn taken(&self) -> &[u8]
        ensures taken { result.now ≡ self.now.taken }
        ensures within { length self.now.taken ≤ self.now.room }
    {
        self.taken.as_slice()
    }

    /// How many writes failed. The count stands still at its last value.
    pub fn faults(&self) -> u64
        ensures { result ≡ self.now.faults }
    {
        self.faults
    }
}

impl Sink for Tray {
    ghost taken = { λ t. Some t.taken };

    ghost faults = { λ t. t.faults };

    fn write(&mut self, piece: &[u8]) -> Result<usize, Failed>
        requires { 0 < length piece.now }
        ensures some { IfOk result (λ n. 1 ≤ n) }

        // As much as the step, the piece and the room left allow.
        ensures count { IfOk result (λ n.
            n ≡ min (min self.old.step (length piece.now)) (self.old.room - length self.old.taken)) }
        ensures ok { IfOk result (λ n. self.new ≡ record self.old { taken = self.old.taken ++ take n piece.now }) }

        // It fails where no room is left, and nowhere else.
        ensures full { IsErr result ↔ (self.old.room ≤ length self.old.taken) }
        ensures err { OnErr result (self.new ≡ record self.old { faults = raised self.old.faults }) }
        ensures faults { self.old.faults ≤ self.new.faults }
    {
        let left = self.room - self.taken.len();
        if left == 0 {
            self.faults = self.faults.saturating_add(1);
            return Err(Failed);
        }
        let n = self.step.min(piece.len()).min(left);
        self.taken.extend_from_slice(&piece[..n]).unwrap();
        Ok(n)
    }
}
