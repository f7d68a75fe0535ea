//! The layouts of the types of a program.
ghost use Rattle.std.specs.Prelude.{◌≡◌, All, Contains, Some, slice_get, OnOk, IfOk, IfSome, IfNone};
ghost use Rattle.mr_layout.specs.TypeOk.{TypeOk};
ghost use Rattle.mr_layout.specs.Written.{written_types};
ghost use Rattle.mr_layout.specs.Cached.{IsCacheOf, Adds};
ghost use Rattle.mr_layout.specs.Layouts.{layout_of, held_types};

use crate::sizes::{align, inhabited, int_bytes, size};
use crate::written::find_types;
use indexmap::IndexMap;
use mr_ast::{IntType, OutOfMemory, Program, TextKey, Ty};
use std::alloc::Global;
use std::marker::Model;

/// What the memory of a type's values looks like.
#[derive(Clone, Copy, Debug, PartialEq, Eq)]
pub struct Layout {
    /// How many bytes a value takes.
    pub size: u64,
    /// The alignment in bytes.
    pub align: u64,
    /// Whether the type has a value.
    pub inhabited: bool,
}

/// The layouts of some types of a program, each worked out once. The types are lent, and not copied.
///
/// A contract sees the list of the types, in the order in which they were first put there. The layout that is kept for each is
/// the one that is defined for it. A look-up goes by the type's hash, and the hashes by the key of the program's whole text
/// (`TextKey`).
#[derive(Drop)]
pub struct Cache<'p> {
    entries: IndexMap<&'p Ty, Layout, TextKey>,
}

impl<'p> Model for Cache<'p> {
    ghost use Rattle.std.specs.Prelude.{List};
    ghost use Rattle.mr_ast.specs.declared.types.Ty.{Ty};

    ghost Value = { List Ty };

    ghost use Rattle.mr_ast.specs.contracts.types.Ty as ty;
    ghost use Rattle.std.specs.Coded.{codes};

    ghost coded = { Prim.hlevel (codes, ty.the_row.coded) };

    ghost use Rattle.mr_layout.specs.Layouts.{held_types, AreDefined};

    ghost view = { λ c. held_types c.entries.entries };

    ghost invariant = { λ c. AreDefined c.entries.entries };
}

impl<'p> Cache<'p> {
    /// The layouts of the types that are written in a program, whole or as a part of another type. An `Err` is for want of memory.
    pub fn new(alloc: Global, p: &'p Program) -> Result<Cache<'p>, OutOfMemory>
        requires { All TypeOk (written_types p.now) }
        ensures { IfOk result (λ cache. IsCacheOf cache p.now) }
    {
        let found = find_types(alloc, p)?;
        let mut cache = Cache {
            entries: IndexMap::with_hasher(alloc, p.names.key()),
        };
        for t in found.as_slice() {
            cache.add(*t)?;
        }
        Ok(cache)
    }

    /// The layout of a type, and `None` where the type isn't held. It takes no memory.
    #[tactic(auto, using(crate::proofs::CacheLaws::place_within))]
    pub fn get(&self, t: &Ty) -> Option<&Layout>
        ensures found { IfSome result (λ layout. Contains self.now t.now × (layout.now ≡ layout_of t.now)) }
        ensures missing { IfNone result (¬ Contains self.now t.now) }
    {
        let at = position(&self.entries, t)?;
        Some(&self.entries[at])
    }

    /// The layout of a well-formed type: the one that is held, or one that is worked out where the type isn't held. It takes no memory.
    pub fn layout(&self, t: &Ty) -> Layout
        requires { TypeOk t.now }
        ensures { result ≡ layout_of t.now }
    {
        match t {
            Ty::Int(int) => integer_layout(*int),
            Ty::Bool | Ty::Raw | Ty::FnPtr | Ty::Ref { .. } => defined_layout(t),
            Ty::Tuple { .. } | Ty::Array { .. } | Ty::Union { .. } | Ty::Enum { .. } =>
                self.held_layout(t),
        }
    }

    // The same where the type isn't told at once. As a call of its own it costs nothing where the type is an integer.
    #[inline(never)]
    fn held_layout(&self, t: &Ty) -> Layout
        requires { TypeOk t.now }
        ensures { result ≡ layout_of t.now }
    {
        match self.get(t) {
            Some(layout) => *layout,
            None => defined_layout(t),
        }
    }

    // Puts a type last where it isn't held.
    fn add(&mut self, t: &'p Ty) -> Result<(), OutOfMemory>
        requires { TypeOk t.now }
        ensures { OnOk result (Adds self.old t.now self.new) }
    {
        if self.entries.contains_key(&t) {
            return Ok(());
        }
        self.entries.insert(t, defined_layout(t))?;
        Ok(())
    }
}

// Where the entry of a type stands.
fn position<'a>(entries: &IndexMap<&'a Ty, Layout, TextKey>, t: &'a Ty) -> Option<usize>
    ensures found { IfSome result (λ at. slice_get (held_types entries.now.entries) at ≡ Some t.now) }
    ensures missing { IfNone result (¬ Contains (held_types entries.now.entries) t.now) }
{
    entries.get_index_of(&t)
}

// The layout of a type.
#[inline(never)]
#[tactic(auto, using(crate::proofs::Bounds::type_ok_size))]
fn defined_layout(t: &Ty) -> Layout
    requires { TypeOk t.now }
    ensures { result ≡ layout_of t.now }
{
    let size = match size(t) {
        Some(size) => size,
        None => unreachable!(),
    };
    Layout {
        size,
        align: align(t),
        inhabited: inhabited(t),
    }
}

// The layout of an integer type, which is aligned to its size.
#[tactic(auto, using(crate::proofs::CacheLaws::layout_int))]
fn integer_layout(int: IntType) -> Layout
    ensures { result ≡ layout_of (Ty.Int int) }
{
    let bytes = int_bytes(int);
    Layout {
        size: bytes,
        align: bytes,
        inhabited: true,
    }
}
