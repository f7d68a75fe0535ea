//! Values.

use mr_ast::{Boxed, Items, Num};
use mr_base::{AbstractByte, Pointer};

/// A value. (MiniRust, language: values.)
#[derive(Drop)]
pub enum Val {
    /// An integer, as the two's complement bits of its width; the bits above are 0.
    Int(u128),
    Bool(bool),
    /// A raw pointer, a function pointer or a reference.
    Ptr(Pointer),
    /// The fields of a tuple or the elements of an array, in the order of the type.
    Tuple(Items<Val>),
    /// The bytes of a union's chunks, joined in order.
    Union(Items<AbstractByte>),
    /// A variant's discriminant, and the value of the variant's type.
    Variant(Num, Boxed<Val>),
}
