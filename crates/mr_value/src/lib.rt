//! Values, and the bytes that stand for them.
//!
//! A [`Val`] is what a program computes with: an integer as its bits, a bool, a pointer, the parts of a tuple or an array, the bytes of
//! a union's chunks, or a variant. At each type some lists of abstract bytes mean a value, and each value of the type's shape is
//! written as one such list. Contracts see a value as plain data, without a place in memory.
//!
//! Public calls, over types that break no rule (`mr_layout`):
//!
//! - [`decode`]: the value that lent bytes mean at a type. It is proved to be exactly `decoded` of `specs/Decode.antt`, whichever
//!   pieces the view has: `Some` only of what the bytes mean, `None` exactly where they mean nothing, and always of the type's shape.
//! - [`decode_scalar`]: the same of an integer, a bool or a pointer, without memory.
//! - [`encode`]: appends the bytes of a value that has the shape of a type (`specs/Shape.antt`). They are proved to be exactly
//!   `encoding_of` of `specs/Encode.antt`, where what no part writes is uninitialised. After want of memory the list is as it
//!   was.
//! - [`encode_scalar`]: the same bytes of an integer, a bool or a pointer, without memory, as [`ScalarBytes`].
//! - [`bits_in`] and [`truth_in`]: the bits of an integer, and the truth of a bool.
//!
//! Laws, proved of the definitions: [`one_value`], bytes mean at most one value of a type; [`has_shape`], what bytes mean has the
//! type's shape; [`reads_back`], the bytes that a value is written as mean that value, unless a part of it is a variant that the
//! enum's tree doesn't reach from the bytes, an uninhabited reference, or a function pointer or reference whose address decoding
//! refuses (`specs/Faithful.antt`).
//!
//! `specs/Numbers.antt` has numbers and pointers as bytes, and `specs/Discriminants.antt` the walk of an enum's tree.
//! `proofs/Examples.antt` computes some values and their bytes.
#![tactic(auto)]

mod decoding;
mod encoding;
mod laws;
mod numbers;
mod parts;
mod scalar_bytes;
mod scalars;
mod val;
mod walking;

pub use decoding::decode;
pub use encoding::{bits_of_number, encode};
pub use laws::{has_shape, one_value, reads_back};
pub use mr_ast::{Boxed, Items};
pub use parts::{bits_in, truth_in};
pub use scalar_bytes::{ScalarBytes, encode_scalar};
pub use scalars::decode_scalar;
pub use std::alloc::AllocError as OutOfMemory;
pub use val::Val;
pub use walking::number_of_bits;
