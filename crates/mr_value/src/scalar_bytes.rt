//! The bytes of an integer, a bool or a pointer, which need no memory.
ghost use Rattle.std.specs.Prelude.{◌≡◌, ◌≤◌, true, length, take, IsTrue};
ghost use Rattle.mr_layout.specs.TypeOk.{TypeOk};
ghost use Rattle.mr_runs.specs.Numbers.{with_provenance};
ghost use Rattle.mr_value.specs.Decode.{is_scalar};
ghost use Rattle.mr_value.specs.Encode.{encoding_of};
ghost use Rattle.mr_value.specs.Numbers.{little_endian, pointer_bytes};
ghost use Rattle.mr_value.specs.Shape.{has_shape};

use crate::parts::{bits_in, pointer_in, truth_in};
use crate::val::Val;
use mr_ast::Ty;
use mr_base::{AllocId, Pointer};
use mr_layout::int_bytes;

/// The bytes that an integer, a bool or a pointer is written as: the first `count` of the numbers, the lowest first, each with the
/// provenance.
#[derive(Clone, Copy)]
pub struct ScalarBytes {
    pub all: [u8; 16],
    pub count: usize,
    pub provenance: Option<AllocId>,
}

impl ScalarBytes {
    /// The numbers of the bytes.
    pub fn numbers(&self) -> &[u8]
        requires { self.now.count ≤ 16 }
        ensures { result.now ≡ take self.now.count self.now.all }
    {
        &self.all[..self.count]
    }
}

// The `count` lowest bytes of a number, each with the provenance.
fn lowest_bytes(number: u128, count: u64, provenance: Option<AllocId>) -> ScalarBytes
    requires { count ≤ 16 }
    ensures count { result.count ≡ count }
    ensures numbers { take count result.all ≡ little_endian count number }
    ensures provenance { result.provenance ≡ provenance }
{
    let mut all = [0; 16];
    let mut rest = number;
    for i in 0..count as usize {
        all[i] = (rest % 256) as u8;
        rest /= 256;
    }
    ScalarBytes {
        all,
        count: count as usize,
        provenance,
    }
}

// The bytes of a pointer.
fn pointer_numbers(pointer: Pointer) -> ScalarBytes
    ensures few { result.count ≤ 16 }
    ensures bytes { with_provenance result.provenance (take result.count result.all) ≡ pointer_bytes pointer }
{
    lowest_bytes(pointer.addr as u128, 8, pointer.prov)
}

/// The bytes that an integer, a bool or a pointer is written as. It takes no memory.
#[inline(always)]
#[tactic(auto, using(crate::proofs::EncodeLaws::encode_laws))]
pub fn encode_scalar(v: &Val, t: &Ty) -> ScalarBytes
    requires ok { TypeOk t.now }
    requires scalar { IsTrue (is_scalar t.now) }
    requires shape { has_shape t.now v.now ≡ true }
    ensures few { result.count ≤ 16 }
    ensures bytes { with_provenance result.provenance (take result.count result.all) ≡ encoding_of t.now v.now }
{
    match t {
        Ty::Int(int) => lowest_bytes(bits_in(v), int_bytes(*int), None),
        Ty::Bool => lowest_bytes(if truth_in(v) { 1 } else { 0 }, 1, None),
        Ty::Raw => pointer_numbers(pointer_in(v)),
        Ty::FnPtr => pointer_numbers(pointer_in(v)),
        Ty::Ref { .. } => pointer_numbers(pointer_in(v)),
        _ => unreachable!(),
    }
}
