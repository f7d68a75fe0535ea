//! Range checks and loads, each noted.
ghost use Rattle.std.specs.Prelude.{◌≡◌, [], IfOk, OnErr, false, length};
ghost use Rattle.mr_runs.specs.Pieces.{bytes_of_pieces};
ghost use Rattle.mr_base.specs.Script.{Went};
ghost use Rattle.mr_eval.specs.Answers.{Extends, Gives, IsUnnoted, same, seen};
ghost use Rattle.mr_eval.specs.Reads.{Check, Read, Refer, accessing, reading, seeing, touching};

use crate::halt::Halt;
use crate::notes::Notes;
use mr_base::{Access, Pointer, Reaching, Reason};
use mr_mem::Memory;
use mr_runs::View;

/// A range check.
#[tactic(auto, using(crate::proofs::ExtendsLaws::extends_laws))]
pub fn look(m: &Memory, notes: &mut Notes, p: Pointer, len: u64) -> Result<(), Halt>
    ensures given { Gives same result (reading m.now (Check p len) (seen notes.old))
        (seen notes.new) notes.new.refused }
    ensures kept { Extends (seen notes.old) (seen notes.new) }
    ensures refused { IsUnnoted result (seen notes.old) (seen notes.new) }
{
    match m.check(p, len) {
        Ok(_) => Ok(notes.touch(p, len)?),
        Err(reason) => {
            notes.refuse(Reaching::Moves, p, len);
            Err(Halt::Undefined(reason))
        }
    }
}

/// The range check of what a reference points to.
#[tactic(auto, using(crate::proofs::ExtendsLaws::extends_laws))]
pub fn refer(m: &Memory, notes: &mut Notes, p: Pointer, len: u64) -> Result<(), Halt>
    ensures given { Gives same result (reading m.now (Refer p len) (seen notes.old))
        (seen notes.new) notes.new.refused }
    ensures kept { Extends (seen notes.old) (seen notes.new) }
    ensures refused { IsUnnoted result (seen notes.old) (seen notes.new) }
{
    match m.check(p, len) {
        Ok(_) => Ok(notes.touch(p, len)?),
        Err(_) => {
            notes.refuse(Reaching::Refers, p, len);
            Err(Halt::Undefined(Reason::DanglingReference))
        }
    }
}

/// Lends the bytes of a load.
#[tactic(auto, using(crate::proofs::ExtendsLaws::extends_laws, crate::proofs::ReadLength::read_sized))]
pub fn lend<'m>(
    m: &'m Memory,
    notes: &mut Notes,
    p: Pointer,
    len: u64,
    align: u64,
) -> Result<View<'m>, Halt>
    ensures given { Gives bytes_of_pieces result (reading m.now (Read false p len align) (seen notes.old))
        (seen notes.new) notes.new.refused }
    ensures sized { IfOk result (λ v. length (bytes_of_pieces v) ≡ len) }
    ensures kept { Extends (seen notes.old) (seen notes.new) }
    ensures refused { IsUnnoted result (seen notes.old) (seen notes.new) }
{
    match m.load(p, len, align) {
        Ok(view) => {
            notes.touch(p, len)?;
            notes.access(false, false, p, len)?;
            Ok(view)
        }
        Err(reason) => {
            notes.refuse(Reaching::Loads, p, len);
            Err(Halt::Undefined(reason))
        }
    }
}
