//! The types of a function's locals.
ghost use Rattle.std.specs.Prelude.{◌≡◌, option_copied, option_map, slice_get};

use mr_ast::{Local, LocalName, Ty};

/// The type of the local of this name.
pub fn local_type(locals: &[Local], x: LocalName) -> Option<&Ty>
    ensures { option_copied result ≡ option_map (λ l. l.ty) (slice_get locals.now x.0) }
{
    match locals.get(x.0 as usize) {
        Some(local) => Some(&local.ty),
        None => None,
    }
}
