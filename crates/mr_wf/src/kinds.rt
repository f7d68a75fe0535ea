//! Kinds of types: unions, and those that may have parts.
ghost use Rattle.std.specs.Prelude.{◌≡◌};
ghost use Rattle.mr_ast.specs.declared.types.Ty.{out-Ty};
ghost use Rattle.mr_typing.specs.Operands.{is_union_layer};

use mr_ast::Ty;

/// Whether it is a union.
pub fn is_union(t: &Ty) -> bool
    ensures { result ≡ is_union_layer (out-Ty t.now) }
{
    matches!(t, Ty::Union { .. })
}

/// Whether a type may have parts, so that it may take long to compare. The chunks of a union are such parts too.
pub fn has_parts(t: &Ty) -> bool {
    match t {
        Ty::Tuple { fields, .. } => !fields.is_empty(),
        Ty::Array { .. } | Ty::Union { .. } | Ty::Enum { .. } => true,
        Ty::Int(_) | Ty::Bool | Ty::Raw | Ty::FnPtr | Ty::Ref { .. } => false,
    }
}
