//! How a byte is marked: uninitialised, or initialised with a provenance.
ghost use Rattle.std.specs.Prelude.{◌≡◌, ◌↔◌, IsTrue};

use mr_base::AllocId;

/// What the bytes of a run have in common.
#[derive(Clone, Copy, Debug, PartialEq, Eq)]
pub(crate) enum Mark {
    Uninit,
    Init(Option<AllocId>),
}

/// Whether two marks are the same.
pub(crate) fn is_same(a: Mark, b: Mark) -> bool
    ensures { IsTrue result ↔ (a ≡ b) }
{
    a == b
}
