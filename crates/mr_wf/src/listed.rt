//! The types of a function's locals and of their parts in a list, by which a variant is found among many, and wide
//! types are told to be equal, without looking at each of their parts.
//!
//! An answer that the list gives is right. Where it gives none, as for want of memory, the types themselves are looked
//! at.
ghost use Rattle.std.specs.Prelude.{◌≡◌, Some, IfSome, IsTrue};
ghost use Rattle.mr_ast.specs.declared.expr.Place.TheVariants as place;
ghost use Rattle.mr_typing.specs.Types.{type_of_place};
ghost use Rattle.mr_wf.specs.Listed.{AreClasses, AreTypes, listed_at, origin_at};

use crate::listing::{Key, Listed, Origin, Types, key_of, listed_at, no_types, types_of};
use mr_ast::{Local, Num, Place, Ty};
use std::alloc::Global;
use std::marker::Model;

/// The locals of a function, and their types and the parts of these in a list.
///
/// A contract sees the locals.
#[derive(Drop)]
pub struct TypeList<'p> {
    locals: &'p [Local],
    types: Types<'p>,
}

impl<'p> Model for TypeList<'p> {
    ghost use Rattle.std.specs.Prelude.{List};
    ghost use Rattle.mr_ast.specs.declared.program.Local.{Local};

    ghost Value = { List Local };

    ghost use Rattle.mr_ast.specs.contracts.types.Ty as ty;
    ghost use Rattle.std.specs.Coded.{codes};

    ghost coded = { Prim.hlevel (codes, ty.the_row.coded) };

    ghost use Rattle.mr_wf.specs.Listed.{AreTypes};

    ghost view = { λ l. l.locals.now };

    ghost invariant = { λ l. AreTypes l.locals.now l.types };
}

// Where the type of this origin is listed.
fn found(list: &[Listed<'_>], keys: &[(Key, usize)], origin: Origin) -> Option<usize>
    ensures { IfSome result (λ at. origin_at list.now at ≡ Some origin) }
{
    let key = key_of(origin);
    let place = keys.binary_search_by(|entry| entry.0.cmp(&key)).ok()?;
    let at = keys.get(place)?.1;
    let listed = list.get(at)?;
    if listed.origin == origin {
        Some(at)
    } else {
        None
    }
}

// The same of the types of a function.
fn position(types: &Types<'_>, origin: Origin) -> Option<usize>
    ensures { IfSome result (λ at. origin_at types.now.list.items at ≡ Some origin) }
{
    found(types.list.as_slice(), types.keys.as_slice(), origin)
}

// Where the type of a place is listed, if the place is a local or a part of one.
#[tactic(auto, using(crate::proofs::ListedLaws::listed_laws))]
fn listed_place(place: &Place, locals: &[Local], types: &Types<'_>) -> Option<usize>
    requires { AreTypes locals.now types.now }
    ensures { IfSome result (λ at. type_of_place locals.now place.now ≡ listed_at types.now.list.items at) }
{
    match place {
        Place::Local(x) => position(types, Origin::Local(x.0 as usize)),
        Place::Deref(_, _) => None,
        Place::Field(whole, number) => {
            let at = listed_place(whole.get(), locals, types)?;
            position(types, Origin::Field(at, *number))
        }
        Place::Index(array, _) => {
            let at = listed_place(array.get(), locals, types)?;
            position(types, Origin::Element(at))
        }
        Place::Variant(whole, number) => {
            let at = listed_place(whole.get(), locals, types)?;
            position(types, Origin::Variant(at, *number))
        }
    }
}

// The type of a variant of the enum at a place, if it is listed.
#[tactic(auto, using(crate::proofs::ListedLaws::variant_typed))]
fn listed_variant<'p>(
    whole: &Place,
    number: Num,
    locals: &[Local],
    types: &Types<'p>,
) -> Option<&'p Ty>
    requires { AreTypes locals.now types.now }
    ensures { IfSome result (λ t. type_of_place locals.now (place.Variant whole.now number) ≡ Some t.now) }
{
    let at = listed_place(whole, locals, types)?;
    let variant = position(types, Origin::Variant(at, number))?;
    listed_at(types.list.as_slice(), variant)
}

// The number of the type of a place, if it is listed.
fn listed_class(place: &Place, locals: &[Local], types: &Types<'_>) -> Option<usize>
    requires { AreTypes locals.now types.now }
    ensures { IfSome result (λ class. type_of_place locals.now place.now ≡ listed_at types.now.list.items class) }
{
    let at = listed_place(place, locals, types)?;
    class_at(types, at)
}

// The number of a listed type.
fn class_at(types: &Types<'_>, at: usize) -> Option<usize>
    requires { AreClasses types.now.list.items types.now.classes.items }
    ensures { IfSome result (λ class. listed_at types.now.list.items at ≡ listed_at types.now.list.items class) }
{
    match types.classes.as_slice().get(at) {
        Some(class) => Some(*class),
        None => None,
    }
}

// Whether two places have one number.
fn are_listed_alike(place: &Place, other: &Place, locals: &[Local], types: &Types<'_>) -> bool
    requires { AreTypes locals.now types.now }
    ensures { IsTrue result → (type_of_place locals.now place.now ≡ type_of_place locals.now other.now) }
{
    match (
        listed_class(place, locals, types),
        listed_class(other, locals, types),
    ) {
        (Some(class), Some(others)) => class == others,
        _ => false,
    }
}

impl<'p> TypeList<'p> {
    /// The list of some locals. Where memory is wanting no type is listed.
    pub fn new(alloc: Global, locals: &'p [Local]) -> TypeList<'p>
        ensures { result ≡ locals.now }
    {
        match types_of(alloc, locals) {
            Ok(types) => TypeList { locals, types },
            Err(_) => TypeList {
                locals,
                types: no_types(alloc, locals),
            },
        }
    }

    /// The locals.
    pub fn locals(&self) -> &'p [Local]
        ensures { result.now ≡ self.now }
    {
        self.locals
    }

    /// The type of a variant of the enum at a place, if it is listed.
    pub fn variant(&self, whole: &Place, number: Num) -> Option<&'p Ty>
        ensures { IfSome result (λ t. type_of_place self.now (place.Variant whole.now number) ≡ Some t.now) }
    {
        listed_variant(whole, number, self.locals, &self.types)
    }

    /// Whether the list tells that two places have equal types.
    pub fn are_alike(&self, place: &Place, other: &Place) -> bool
        ensures { IsTrue result → (type_of_place self.now place.now ≡ type_of_place self.now other.now) }
    {
        are_listed_alike(place, other, self.locals, &self.types)
    }
}
