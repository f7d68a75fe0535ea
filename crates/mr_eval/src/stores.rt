//! Stores, each noted.
ghost use Rattle.std.specs.Prelude.{◌≡◌, ◌≤◌, false, true, take, OnErr, OnOk};
ghost use Rattle.mr_runs.specs.Numbers.{with_provenance};
ghost use Rattle.mr_value.specs.Encode.{blank};
ghost use Rattle.mr_eval.specs.Answers.{Extends, seen};
ghost use Rattle.mr_eval.specs.Environment.{Leaves};
ghost use Rattle.mr_eval.specs.Reads.{accessing, seeing, touching};
ghost use Rattle.mr_eval.specs.Stores.{storing};

use crate::notes::Notes;
use mr_base::{AbstractByte, Pointer, Reaching};
use mr_mem::{Fault, Memory};
use mr_value::ScalarBytes;
use std::alloc::AllocError;

// Notes a store of this length and the range check before it.
#[tactic(auto, using(crate::proofs::ExtendsLaws::extends_laws))]
fn note_store(notes: &mut Notes, atomic: bool, p: Pointer, len: u64) -> Result<(), AllocError>
    ensures noted { OnOk result
        (seen notes.new ≡ seeing (accessing true atomic p len) (touching p len) (seen notes.old)) }
    ensures kept { Extends (seen notes.old) (seen notes.new) }
{
    notes.touch(p, len)?;
    notes.access(true, atomic, p, len)
}

/// The store of bytes, atomic or not: 103 before the range check.
///
/// After `Err` memory is as before, and the notes begin with what they held.
#[tactic(auto, using(crate::proofs::ExtendsLaws::extends_laws, crate::proofs::RefusedLaws::store_refused))]
pub fn store_bytes(
    m: &mut Memory,
    notes: &mut Notes,
    atomic: bool,
    p: Pointer,
    bytes: &[AbstractByte],
    align: u64,
) -> Result<(), Fault>
    ensures given { Leaves result (storing m.old atomic p bytes.now align (seen notes.old)) m.new
        (seen notes.new) notes.new.refused }
    ensures kept { Extends (seen notes.old) (seen notes.new) }
    ensures err { OnErr result (m.new ≡ m.old) }
{
    note_store(notes, atomic, p, bytes.len() as u64)?;
    match m.store(p, bytes, align) {
        Ok(()) => Ok(()),
        Err(fault) => {
            notes.refuse(Reaching::Stores, p, bytes.len() as u64);
            Err(fault)
        }
    }
}

/// The store of the bytes of an integer, a bool or a pointer, atomic or not: 103 before the range check.
///
/// After `Err` memory is as before, and the notes begin with what they held.
#[tactic(auto, using(crate::proofs::ExtendsLaws::extends_laws, crate::proofs::RefusedLaws::store_refused))]
pub fn store_scalar(
    m: &mut Memory,
    notes: &mut Notes,
    atomic: bool,
    p: Pointer,
    bytes: &ScalarBytes,
    align: u64,
) -> Result<(), Fault>
    requires { bytes.now.count ≤ 16 }
    ensures given { Leaves result
        (storing m.old atomic p (with_provenance bytes.now.provenance (take bytes.now.count bytes.now.all)) align
        (seen notes.old))
        m.new (seen notes.new) notes.new.refused }
    ensures kept { Extends (seen notes.old) (seen notes.new) }
    ensures err { OnErr result (m.new ≡ m.old) }
{
    let numbers = bytes.numbers();
    note_store(notes, atomic, p, numbers.len() as u64)?;
    match m.store_numbers(p, numbers, bytes.provenance, align) {
        Ok(()) => Ok(()),
        Err(fault) => {
            notes.refuse(Reaching::Stores, p, numbers.len() as u64);
            Err(fault)
        }
    }
}

/// Makes bytes uninitialised, which is noted as a store of so many bytes.
///
/// After `Err` memory is as before, and the notes begin with what they held.
#[tactic(auto, using(crate::proofs::ExtendsLaws::extends_laws, crate::proofs::RefusedLaws::store_refused))]
pub fn store_uninit(
    m: &mut Memory,
    notes: &mut Notes,
    p: Pointer,
    len: u64,
    align: u64,
) -> Result<(), Fault>
    ensures given { Leaves result (storing m.old false p (blank len) align (seen notes.old)) m.new
        (seen notes.new) notes.new.refused }
    ensures kept { Extends (seen notes.old) (seen notes.new) }
    ensures err { OnErr result (m.new ≡ m.old) }
{
    note_store(notes, false, p, len)?;
    match m.deinit(p, len, align) {
        Ok(()) => Ok(()),
        Err(fault) => {
            notes.refuse(Reaching::Stores, p, len);
            Err(fault)
        }
    }
}
