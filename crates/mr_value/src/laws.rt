//! Laws of bytes and the values that they mean.
ghost use Rattle.std.specs.Prelude.{◌≡◌, true};
ghost use Rattle.mr_ast.specs.declared.types.Ty.{Ty};
ghost use Rattle.mr_layout.specs.TypeOk.{TypeOk};
ghost use Rattle.mr_value.specs.declared.val.Val.{Val};
ghost use Rattle.mr_value.specs.Decode.{Means};
ghost use Rattle.mr_value.specs.Encode.{encoding_of};
ghost use Rattle.mr_value.specs.Faithful.{is_faithful};
ghost use Rattle.mr_value.specs.Numbers.{Bytes};
ghost use Rattle.mr_value.specs.Shape.{has_shape as has_shape_lem};

/// Bytes mean at most one value of a type.
pub fn one_value()
    ensures { (t : Ty) (bytes : Bytes) (v w : Val) → Means t bytes v → Means t bytes w → v ≡ w }
{}

/// What bytes mean at a type that breaks no rule has the shape of the type.
pub fn has_shape()
    ensures { (t : Ty) (bytes : Bytes) (v : Val) → TypeOk t → Means t bytes v → has_shape_lem t v ≡ true }
{}

/// The bytes that a value is written as mean that value, where the value is faithful.
pub fn reads_back()
    ensures { (t : Ty) (v : Val) → TypeOk t → has_shape_lem t v ≡ true → is_faithful t v ≡ true
        → Means t (encoding_of t v) v }
{}
