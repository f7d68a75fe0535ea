//! The variant that bytes of an enum name.
ghost use Rattle.std.specs.Prelude.{◌≡◌, ◌<◌, ◌≤◌, ◌+◌, ◌*◌, ◌^◌, true, length, List};
ghost use Rattle.mr_ast.specs.declared.types.Variant.{Variant};
ghost use Rattle.mr_ast.specs.Integers.{int_size, is_signed};
ghost use Rattle.mr_layout.specs.EnumRules.{is_tree, are_tree_cases};
ghost use Rattle.mr_runs.specs.Pieces.{bytes_of_pieces};
ghost use Rattle.mr_value.specs.Numbers.{part};
ghost use Rattle.mr_value.specs.Discriminants.{number_of_bits, walk, walk_case};

use crate::numbers::number_at;
use mr_ast::{IntType, Num, Tree};
use mr_layout::int_bytes;
use mr_runs::View;

// The highest bit of the integer type.
pub(crate) fn highest_bit(int: IntType) -> u128
    ensures { 2 * result ≡ 2 ^ (8 * int_size int) }
{
    match int {
        IntType::U8 | IntType::I8 => 0x80,
        IntType::U16 | IntType::I16 => 0x8000,
        IntType::U32 | IntType::I32 => 0x8000_0000,
        IntType::U64 | IntType::I64 => 0x8000_0000_0000_0000,
        IntType::U128 | IntType::I128 => 0x8000_0000_0000_0000_0000_0000_0000_0000,
    }
}

/// The number that an integer's bits mean.
pub fn number_of_bits(int: IntType, bits: u128) -> Num
    requires { bits < 2 ^ (8 * int_size int) }
    ensures { result ≡ number_of_bits int bits }
{
    let highest = highest_bit(int);
    if int.signed() && bits >= highest {
        Num {
            neg: true,
            mag: highest - (bits - highest),
        }
    } else {
        Num {
            neg: false,
            mag: bits,
        }
    }
}

/// The discriminant that a tree finds in the `size` bytes from an offset on.
#[cycle(walk)]
#[tactic(auto, using(crate::proofs::WalkLaws::walk_laws))]
pub(crate) fn walk_at(v: &View<'_>, at: u64, size: u64, tree: &Tree) -> Option<Num>
    requires ok { (variants : List Variant) × (is_tree size variants tree.now ≡ true) }
    requires inside { at + size ≤ length (bytes_of_pieces v.now) }
    ensures { result ≡ walk tree.now (part at size (bytes_of_pieces v.now)) }
{
    match tree {
        Tree::Known(number) => Some(*number),
        Tree::Invalid => None,
        Tree::Branch(offset, int, cases, rest) => {
            prove!(size <= v.len());
            match number_at(v, at + *offset, int_bytes(*int)) {
                None => None,
                Some(bits) => {
                    let number = number_of_bits(*int, bits);
                    for case in cases.as_slice() {
                        if case.0 == number {
                            return walk_at(v, at, size, &case.1);
                        }
                    }
                    walk_at(v, at, size, rest.get())
                }
            }
        }
    }
}
