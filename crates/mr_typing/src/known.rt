//! A type as a program writes it, or one that it need not write.
ghost use Rattle.std.specs.Prelude.{◌≡◌, ◌^◌, nat_lt, if◌then◌else◌, option_map};
ghost use Rattle.mr_ast.specs.declared.types.Ty.{out-Ty};
ghost use Rattle.mr_layout.specs.Sizes.{size_of};
ghost use Rattle.mr_typing.specs.Known.{are_overflow_fields, is_overflow_layer, ty_of};
ghost use Rattle.mr_typing.specs.SameTypes.{same_type};
ghost use Rattle.mr_typing.specs.Types.{integer_of, overflow_type, result_type};
ghost use Rattle.mr_typing.specs.Operands.{is_bool, is_fn_ptr, is_int, is_pointer, is_raw, is_ref, is_scalar_number};

use mr_ast::{BinaryOp, IntType, Ty};
use mr_layout::{int_bytes, size};

/// The type of a value: as the program writes it, or one that it need not write.
#[derive(Clone, Copy)]
pub enum Known<'p> {
    Written(&'p Ty),
    Int(IntType),
    Bool,
    Raw,
    FnPtr,
    /// What an overflowing operator gives on integers of this type.
    Overflow(IntType),
}

impl<'p> Known<'p> {
    /// Which integer it is.
    pub fn integer(self) -> Option<IntType>
        ensures { result ≡ integer_of (ty_of self.entry) }
    {
        match self {
            Known::Written(Ty::Int(i)) => Some(*i),
            Known::Int(i) => Some(i),
            _ => None,
        }
    }

    pub fn is_bool(self) -> bool
        ensures { result ≡ is_bool (ty_of self.entry) }
    {
        matches!(self, Known::Written(Ty::Bool) | Known::Bool)
    }

    pub fn is_raw(self) -> bool
        ensures { result ≡ is_raw (ty_of self.entry) }
    {
        matches!(self, Known::Written(Ty::Raw) | Known::Raw)
    }

    pub fn is_fn_ptr(self) -> bool
        ensures { result ≡ is_fn_ptr (ty_of self.entry) }
    {
        matches!(self, Known::Written(Ty::FnPtr) | Known::FnPtr)
    }

    pub fn is_ref(self) -> bool
        ensures { result ≡ is_ref (ty_of self.entry) }
    {
        matches!(self, Known::Written(Ty::Ref { .. }))
    }

    /// A raw pointer, a reference or a pointer to a function.
    pub fn is_pointer(self) -> bool
        ensures { result ≡ is_pointer (ty_of self.entry) }
    {
        self.is_raw() || self.is_ref() || self.is_fn_ptr()
    }

    /// An integer or a bool.
    pub fn is_scalar_number(self) -> bool
        ensures { result ≡ is_scalar_number (ty_of self.entry) }
    {
        self.integer().is_some() || self.is_bool()
    }

    #[tactic(auto, using(crate::proofs::KnownLaws::known_laws))]
    fn is_int(self, i: IntType) -> bool
        ensures { result ≡ is_int i (ty_of self.entry) }
    {
        match self.integer() {
            Some(j) => j == i,
            None => false,
        }
    }

    // What an overflowing operator gives on integers of this type.
    #[tactic(auto, using(crate::proofs::KnownLaws::known_laws))]
    fn is_overflow(self, i: IntType) -> bool
        ensures { result ≡ same_type (ty_of self.entry) (overflow_type i) }
    {
        match self {
            Known::Overflow(j) => j == i,
            Known::Written(t) => is_written_overflow(t, i),
            Known::Int(_) | Known::Bool | Known::Raw | Known::FnPtr => false,
        }
    }

    // Whether it is written as this type.
    #[tactic(auto, using(crate::proofs::KnownLaws::written_laws))]
    fn is_written(self, t: &Ty) -> bool
        ensures { result ≡ same_type (ty_of self.entry) t.now }
    {
        match self {
            Known::Written(u) => u.same(t),
            Known::Int(i) => Known::Written(t).is_int(i),
            Known::Bool => Known::Written(t).is_bool(),
            Known::Raw => Known::Written(t).is_raw(),
            Known::FnPtr => Known::Written(t).is_fn_ptr(),
            Known::Overflow(i) => Known::Written(t).is_overflow(i),
        }
    }

    /// How many bytes it has, where those are below 2^63.
    #[tactic(auto, using(mr_layout::proofs::SizeLaws::size_laws, crate::proofs::KnownSizes::known_sizes))]
    pub fn size(self) -> Option<u64>
        ensures { result
            ≡ (if nat_lt (size_of (ty_of self.entry)) (2 ^ 63) then Some (size_of (ty_of self.entry)) else None) }
    {
        match self {
            Known::Written(t) => size(t),
            Known::Int(i) => Some(int_bytes(i)),
            Known::Bool => Some(1),
            Known::Raw | Known::FnPtr => Some(8),
            Known::Overflow(i) => Some(2 * int_bytes(i)),
        }
    }

    /// What an operator gives, where this is the type of its left operand.
    pub fn under(self, op: BinaryOp) -> Option<Known<'p>>
        ensures { option_map ty_of result ≡ result_type op (ty_of self.entry) }
    {
        match op {
            BinaryOp::Eq
            | BinaryOp::Ne
            | BinaryOp::Lt
            | BinaryOp::Le
            | BinaryOp::Gt
            | BinaryOp::Ge => Some(Known::Bool),
            BinaryOp::AddOverflow | BinaryOp::SubOverflow | BinaryOp::MulOverflow => {
                match self.integer() {
                    Some(int) => Some(Known::Overflow(int)),
                    None => None,
                }
            }
            _ => Some(self),
        }
    }

    /// Whether the two are written alike.
    #[tactic(auto, using(crate::proofs::KnownLaws::known_laws))]
    pub fn same(self, other: Known<'_>) -> bool
        ensures { result ≡ same_type (ty_of self.entry) (ty_of other.entry) }
    {
        match other {
            Known::Written(t) => self.is_written(t),
            Known::Int(i) => self.is_int(i),
            Known::Bool => self.is_bool(),
            Known::Raw => self.is_raw(),
            Known::FnPtr => self.is_fn_ptr(),
            Known::Overflow(i) => self.is_overflow(i),
        }
    }
}

// Whether a written type is what an overflowing operator gives on integers of this type.
fn is_written_overflow(t: &Ty, i: IntType) -> bool
    ensures { result ≡ is_overflow_layer i (out-Ty t.now) }
{
    match t {
        Ty::Tuple {
            size,
            align,
            fields,
        } => {
            let bytes = int_bytes(i);
            *size == 2 * bytes && *align == bytes && are_overflow_fields(i, fields.as_slice())
        }
        _ => false,
    }
}

// Whether these are its fields.
fn are_overflow_fields(i: IntType, fields: &[(u64, Ty)]) -> bool
    ensures { result ≡ are_overflow_fields i fields.now }
{
    match fields {
        [first, second] => {
            first.0 == 0
                && Known::Written(&first.1).is_int(i)
                && second.0 == int_bytes(i)
                && Known::Written(&second.1).is_bool()
        }
        _ => false,
    }
}
