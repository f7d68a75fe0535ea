//! The number that the discriminant tree of an enum leads to.
ghost use Rattle.std.specs.Prelude.{◌≡◌, ℕ, OnErr, Some, length, option_map, true};
ghost use Rattle.mr_ast.specs.Integers.{int_size};
ghost use Rattle.mr_runs.specs.Pieces.{bytes_of_pieces};
ghost use Rattle.mr_value.specs.Discriminants.{number_of_bits};
ghost use Rattle.mr_value.specs.Numbers.{number_of};
ghost use Rattle.mr_value.specs.Shape.{has_shape};
ghost use Rattle.mr_value.specs.declared.val.Val.TheVariants as val;
ghost use Rattle.mr_ast.specs.declared.types.Ty.TheVariants as ty;
ghost use Rattle.mr_eval.specs.Answers.{Extends, Gives, same, seen};
ghost use Rattle.mr_eval.specs.Evaluated.{found_number, read_number};

use crate::halt::Halt;
use crate::moving::behind;
use crate::notes::Notes;
use crate::reads::lend;
use mr_ast::{IntType, Num, Tree, Ty};
use mr_base::{Pointer, Reason};
use mr_layout::int_bytes;
use mr_mem::Memory;
use mr_runs::View;
use mr_value::{Val, decode_scalar, number_of_bits};

// The number of a value that is an integer.
#[tactic(auto, using(crate::proofs::NumberLaws::int_fits))]
fn number_like(int: IntType, value: Val) -> Option<Num>
    requires { has_shape (ty.Int int) value ≡ true }
    ensures { (n : ℕ) → value ≡ val.Int n → result ≡ Some (number_of_bits int n) }
{
    match value {
        Val::Int(bits) => Some(number_of_bits(int, bits)),
        _ => None,
    }
}

/// The number of an integer in bytes.
#[tactic(auto, using(mr_layout::proofs::BrokenLaws::broken_int, mr_layout::proofs::SizeLaws::size_int, mr_value::proofs::DecodeLaws::decode_int))]
pub fn number_in(view: &View<'_>, int: IntType) -> Option<Num>
    requires { length (bytes_of_pieces view.now) ≡ int_size int }
    ensures { result ≡ option_map (number_of_bits int) (number_of (bytes_of_pieces view.now)) }
{
    match decode_scalar(view, &Ty::Int(int)) {
        Some(value) => number_like(int, value),
        None => None,
    }
}

// The number of an integer in memory, wherever it is aligned.
#[tactic(auto, unfolding(crate::specs::Evaluated::read_number), using(crate::proofs::ExtendsLaws::extends_laws))]
fn read_number(m: &Memory, notes: &mut Notes, int: IntType, p: Pointer) -> Result<Num, Halt>
    ensures given { Gives same result (read_number m.now int p (seen notes.old)) (seen notes.new) notes.new.refused }
    ensures kept { Extends (seen notes.old) (seen notes.new) }
{
    let view = lend(m, notes, p, int_bytes(int), 1)?;
    match number_in(&view, int) {
        Some(number) => Ok(number),
        None => Err(Halt::Undefined(Reason::InvalidDiscriminant)),
    }
}

/// The discriminant that a tree finds in memory.
#[tactic(auto, using(crate::proofs::SearchRuns::found_laws, crate::proofs::ExtendsLaws::extends_laws))]
pub fn found_number(m: &Memory, notes: &mut Notes, tree: &Tree, p: Pointer) -> Result<Num, Halt>
    ensures given { Gives same result (found_number m.now tree.now p (seen notes.old))
        (seen notes.new) notes.new.refused }
    ensures kept { Extends (seen notes.old) (seen notes.new) }
{
    match tree {
        Tree::Known(number) => Ok(*number),
        Tree::Invalid => Err(Halt::Undefined(Reason::InvalidDiscriminant)),
        Tree::Branch(at, int, cases, rest) => {
            let number = read_number(m, notes, *int, behind(p, *at))?;
            for case in cases.as_slice() {
                if case.0 == number {
                    return found_number(m, notes, &case.1, p);
                }
            }
            found_number(m, notes, rest.get(), p)
        }
    }
}
