//! Laws of well-formed programs, for the layers above.
ghost use Rattle.std.specs.Prelude.{◌≡◌, ◌↔◌, [], All, Some, true};
ghost use Rattle.mr_ast.specs.Shaped.{named_in};
ghost use Rattle.mr_ast.specs.ShapedValues.{is_shaped_place, is_shaped_value};
ghost use Rattle.mr_ast.specs.declared.expr.Place.{Place};
ghost use Rattle.mr_ast.specs.declared.expr.Value.{Value};
ghost use Rattle.mr_ast.specs.declared.program.Function.{Function};
ghost use Rattle.mr_ast.specs.declared.program.Program.{Program};
ghost use Rattle.mr_ast.specs.declared.types.Ty.{Ty};
ghost use Rattle.mr_layout.specs.TypeOk.{TypeOk};
ghost use Rattle.mr_layout.specs.Written.{written_types};
ghost use Rattle.mr_typing.specs.Broken.{broken_in_place, broken_in_value, surroundings};
ghost use Rattle.mr_typing.specs.SameTypes.{same_type};
ghost use Rattle.mr_typing.specs.Types.{type_of_place, type_of_value};
ghost use Rattle.mr_typing.specs.Unbroken.{UnbrokenProgram};
ghost use Rattle.mr_typing.specs.Walk.{WellFormed};

/// A law: each part of a well-formed program keeps its rules.
pub fn keeps_rules()
    ensures { (p : Program) → WellFormed p → UnbrokenProgram p }
{}

/// A law: each type that a well-formed program writes breaks no rule of types.
#[tactic(auto, using(crate::proofs::WrittenOk::written_ok))]
pub fn writes_sound_types()
    ensures { (p : Program) → WellFormed p → All TypeOk (written_types p) }
{}

/// A law: two types are written alike exactly where they are equal.
#[tactic(auto, using(crate::proofs::SameTypeLaws::same_type_equal, crate::proofs::SameTypeLaws::same_type_itself))]
pub fn equal_types()
    ensures { (t u : Ty) → (same_type t u ≡ true) ↔ (t ≡ u) }
{}

/// A law: a value that breaks no rule has a type.
pub fn has_type()
    ensures { (p : Program) (f : Function) (v : Value) → is_shaped_value (named_in p f) v ≡ true
        → broken_in_value (surroundings p f) v ≡ [] → (t : Ty) × (type_of_value f.locals v ≡ Some t) }
{}

/// A law: a place that breaks no rule has a type.
pub fn place_has_type()
    ensures { (p : Program) (f : Function) (place : Place) → is_shaped_place (named_in p f) place ≡ true
        → broken_in_place (surroundings p f) place ≡ [] → (t : Ty) × (type_of_place f.locals place ≡ Some t) }
{}
