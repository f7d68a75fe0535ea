//! A type that holds no other.
ghost use Rattle.std.specs.Prelude.{◌≡◌};
ghost use Rattle.mr_ast.specs.declared.types.Ty.TheVariants as types;
ghost use Rattle.mr_typing.specs.Known.{ty_of};

use mr_ast::{IntType, Ty};
use mr_typing::Known;
use std::marker::Model;

#[derive(Clone, Copy)]
enum Kind {
    Int(IntType),
    Bool,
    Raw,
    FnPtr,
}

/// A type that holds no other: an integer, a bool, a raw pointer or a pointer to a function. It takes two bytes, where
/// a [`Ty`] takes some 128.
#[derive(Drop)]
pub struct Plain {
    kind: Kind,
}

impl Model for Plain {
    ghost use Rattle.mr_ast.specs.declared.types.Ty.{Ty};

    ghost Value = { Ty };

    ghost use Rattle.mr_ast.specs.contracts.types.Ty as ty;
    ghost use Rattle.std.specs.Coded.{codes};

    ghost coded = { Prim.hlevel (codes, ty.the_row.coded) };

    ghost use Rattle.mr_eval.specs.Plain.{plain_ty};

    ghost view = { λ p. plain_ty p.kind };
}

impl Plain {
    pub fn int(int: IntType) -> Plain
        ensures { result ≡ types.Int int }
    {
        Plain {
            kind: Kind::Int(int),
        }
    }

    pub fn bool() -> Plain
        ensures { result ≡ types.Bool }
    {
        Plain { kind: Kind::Bool }
    }

    pub fn raw() -> Plain
        ensures { result ≡ types.Raw }
    {
        Plain { kind: Kind::Raw }
    }

    pub fn fn_ptr() -> Plain
        ensures { result ≡ types.FnPtr }
    {
        Plain { kind: Kind::FnPtr }
    }

    /// The type as one that a program need not write.
    pub fn known<'p>(&self) -> Known<'p>
        ensures { ty_of result ≡ self.now }
    {
        match self.kind {
            Kind::Int(int) => Known::Int(int),
            Kind::Bool => Known::Bool,
            Kind::Raw => Known::Raw,
            Kind::FnPtr => Known::FnPtr,
        }
    }

    /// The type.
    pub fn ty(&self) -> Ty
        ensures { result ≡ self.now }
    {
        match self.kind {
            Kind::Int(int) => Ty::Int(int),
            Kind::Bool => Ty::Bool,
            Kind::Raw => Ty::Raw,
            Kind::FnPtr => Ty::FnPtr,
        }
    }
}
