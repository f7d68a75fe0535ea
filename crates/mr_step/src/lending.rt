//! Bytes of memory that are lent.
ghost use Rattle.std.specs.Prelude.{◌≡◌, option_map};
ghost use Rattle.mr_runs.specs.Pieces.{bytes_of_pieces};
ghost use Rattle.mr_step.specs.Standing.{bytes_from};

use mr_base::Pointer;
use mr_mem::Memory;
use mr_runs::View;

/// Lends the bytes from a pointer on, where all of them lie in its live allocation.
pub fn bytes_from(memory: &Memory, p: Pointer, len: u64) -> Option<View<'_>>
    ensures { option_map bytes_of_pieces result ≡ bytes_from memory.now p len }
{
    match memory.load(p, len, 1) {
        Ok(view) => Some(view),
        Err(_) => None,
    }
}
