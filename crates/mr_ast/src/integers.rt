//! The integer types: how wide they are, whether they have a sign, and which numbers are theirs.
ghost use Rattle.std.specs.Prelude.{◌≡◌, ◌+◌, ◌-◌, ◌*◌, ◌^◌, true, if◌then◌else◌};
ghost use Rattle.mr_ast.specs.Integers.{bits_of, int_size, is_signed, least_of, greatest_of, is_fitting};

use crate::types::{IntType, Num};

impl IntType {
    /// How many bits a number of the type has.
    pub fn bits(self) -> u32
        ensures { result ≡ bits_of self }
    {
        match self {
            IntType::U8 | IntType::I8 => 8,
            IntType::U16 | IntType::I16 => 16,
            IntType::U32 | IntType::I32 => 32,
            IntType::U64 | IntType::I64 => 64,
            IntType::U128 | IntType::I128 => 128,
        }
    }

    /// How many bytes a number of the type has.
    pub fn bytes(self) -> u64
        ensures { result ≡ int_size self }
    {
        match self {
            IntType::U8 | IntType::I8 => 1,
            IntType::U16 | IntType::I16 => 2,
            IntType::U32 | IntType::I32 => 4,
            IntType::U64 | IntType::I64 => 8,
            IntType::U128 | IntType::I128 => 16,
        }
    }

    /// Whether the type has negative numbers.
    pub fn signed(self) -> bool
        ensures { result ≡ is_signed self }
    {
        match self {
            IntType::U8 | IntType::U16 | IntType::U32 | IntType::U64 | IntType::U128 => false,
            IntType::I8 | IntType::I16 | IntType::I32 | IntType::I64 | IntType::I128 => true,
        }
    }

    /// The least number of a signed type.
    pub fn least(self) -> i128
        requires { is_signed self ≡ true }
        ensures { result ≡ least_of self }
    {
        i128::MIN >> (128 - self.bits())
    }

    /// The greatest number of a signed type.
    pub fn greatest(self) -> i128
        requires { is_signed self ≡ true }
        ensures { result ≡ greatest_of self }
    {
        i128::MAX >> (128 - self.bits())
    }

    /// Whether a written number is one of the type's.
    pub fn fits(self, number: Num) -> bool
        ensures { result ≡ is_fitting self number }
    {
        let most = self.greatest_magnitude();
        if self.signed() && number.neg {
            0 < number.mag && number.mag - 1 <= most
        } else {
            !number.neg && number.mag <= most
        }
    }

    // The greatest magnitude of a number without a minus.
    fn greatest_magnitude(self) -> u128
        ensures { result + 1 ≡ (if is_signed self then 2 ^ (8 * int_size self - 1) else 2 ^ (8 * int_size self)) }
    {
        match self {
            IntType::U8 => 0xff,
            IntType::U16 => 0xffff,
            IntType::U32 => 0xffff_ffff,
            IntType::U64 => 0xffff_ffff_ffff_ffff,
            IntType::U128 => 0xffff_ffff_ffff_ffff_ffff_ffff_ffff_ffff,
            IntType::I8 => 0x7f,
            IntType::I16 => 0x7fff,
            IntType::I32 => 0x7fff_ffff,
            IntType::I64 => 0x7fff_ffff_ffff_ffff,
            IntType::I128 => 0x7fff_ffff_ffff_ffff_ffff_ffff_ffff_ffff,
        }
    }
}
