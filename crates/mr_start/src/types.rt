//! Sizes of types.
ghost use Rattle.std.specs.Prelude.{◌≡◌};
ghost use Rattle.mr_layout.specs.Sizes.{align_of, size_of};
ghost use Rattle.mr_layout.specs.TypeOk.{TypeOk};

use mr_ast::Ty;
use mr_layout::{align, size};

/// The size of the type in bytes.
#[tactic(auto, using(mr_layout::proofs::Bounds::type_ok_size))]
pub fn byte_size(t: &Ty) -> u64
    requires { TypeOk t.now }
    ensures { result ≡ size_of t.now }
{
    match size(t) {
        Some(size) => size,
        None => unreachable!(),
    }
}
