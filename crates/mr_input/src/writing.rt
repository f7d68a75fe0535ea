//! What is written to the sink at the end of a call.
ghost use Rattle.std.specs.Prelude.{◌≡◌, ◌≤◌, [], ◌⊎◌};
ghost use Rattle.mr_io.specs.Counts.{Rose};
ghost use Rattle.mr_input.specs.Writing.{IsRefusedOrLeft, IsWritten};
ghost use Rattle.mr_input.specs.declared.refusal.Refusal.TheVariants.{Memory};

use crate::refusal::Refusal;
use mr_io::{Sink, write_whole};
use std::alloc::Global;

/// Writes a text, and answers this status, or 7 where a write failed.
pub fn finish<O: Sink>(out: &mut O, text: &[u8], status: u8) -> u8
    ensures written { IsWritten (record { text = text.now; status = status })
        (Rose (O.faults out.old) (O.faults out.new))
        (O.taken out.old) (O.taken out.new) result }
    ensures bounded { (result ≡ status) ⊎ (result ≡ 7) }
    ensures empty { text.now ≡ [] → (result ≡ status) × (O.taken out.new ≡ O.taken out.old) }
{
    match write_whole(out, text) {
        Ok(()) => status,
        Err(_) => 7,
    }
}

/// Writes the line of a refusal.
pub fn refuse<O: Sink>(alloc: Global, out: &mut O, refusal: Refusal) -> u8
    ensures told { IsRefusedOrLeft refusal (Rose (O.faults out.old) (O.faults out.new))
        (O.taken out.old) (O.taken out.new) result }
    ensures bounded { result ≤ 9 }
{
    match refusal.text(alloc) {
        Ok(text) => finish(out, text.as_slice(), refusal.status()),
        Err(_) => Refusal::Memory.status(),
    }
}
