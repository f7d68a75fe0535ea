//! Pointers that are moved.
ghost use Rattle.std.specs.Prelude.{◌≡◌, ◌<◌, ◌^◌, OnErr, unsigned_abs};
ghost use Rattle.mr_base.specs.Script.{run};
ghost use Rattle.mr_eval.specs.Answers.{Extends, Gives, same, seen};
ghost use Rattle.mr_eval.specs.Moves.{behind, moved};
ghost use Rattle.mr_eval.specs.Reads.{reading};

use crate::halt::Halt;
use crate::notes::Notes;
use crate::reads::look;
use mr_base::{Pointer, Reason};
use mr_mem::Memory;

/// So many bytes behind a pointer, around the end of the address space.
pub fn behind(p: Pointer, n: u64) -> Pointer
    ensures { result ≡ behind p n }
{
    Pointer {
        addr: p.addr.wrapping_add(n),
        prov: p.prov,
    }
}

/// A pointer moved in bounds.
#[tactic(auto, using(crate::proofs::ExtendsLaws::extends_laws))]
pub fn moved(m: &Memory, notes: &mut Notes, p: Pointer, n: i128) -> Result<Pointer, Halt>
    requires { unsigned_abs n < 2 ^ 65 }
    ensures given { Gives same result (run (reading m.now) (moved p n) (seen notes.old))
        (seen notes.new) notes.new.refused }
    ensures kept { Extends (seen notes.old) (seen notes.new) }
{
    if n == 0 {
        return Ok(p);
    }
    match u64::try_from(i128::from(p.addr) + n) {
        Ok(addr) => {
            let to = Pointer { addr, prov: p.prov };
            let lower = if n < 0 { to } else { p };
            look(m, notes, lower, n.unsigned_abs() as u64)?;
            Ok(to)
        }
        Err(_) => Err(Halt::Undefined(Reason::OffsetOverflow)),
    }
}
