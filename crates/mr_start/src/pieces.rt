//! What the start allocates.
ghost use Rattle.std.specs.Prelude.{◌≡◌, ◌<◌, ◌≤◌, ◌^◌, ◌++◌, ◌∷◌, [], IfOk, OnOk, length, map, slice_get, Some};
ghost use Rattle.mr_ast.specs.declared.program.Function.{Function};
ghost use Rattle.mr_layout.specs.TypeOk.{TypeOk};
ghost use Rattle.mr_typing.specs.Broken.{items_size};
ghost use Rattle.mr_typing.specs.Walk.{WellFormed};
ghost use Rattle.mr_start.specs.Begin.{HaveRoom, piece_of};
ghost use Rattle.mr_start.specs.Start.{function_piece, global_piece, local_piece, pieces};

use crate::types::byte_size;
use mr_ast::{FnName, Function, Global_, Local, LocalName, Program};
use mr_base::Kind;
use mr_layout::align;
use mr_typing::items_size;
use std::alloc::{AllocError, Global};

/// One allocation of the start.
#[derive(Clone, Copy)]
pub struct Piece {
    pub kind: Kind,
    pub size: u64,
    pub align: u64,
}

// What a global asks for.
fn piece_of_global(g: &Global_) -> Piece
    requires { items_size g.now.items ≤ 2 ^ 20 }
    ensures { piece_of result ≡ global_piece g.now }
{
    Piece {
        kind: Kind::Static,
        size: items_size(g.items.as_slice()) as u64,
        align: g.align,
    }
}

// Appends a piece for each function.
fn push_functions(made: &mut Vec<Piece>, functions: &[Function]) -> Result<(), AllocError>
    ensures { OnOk result
        (map piece_of made.new.items ≡ map piece_of made.old.items ++ map function_piece functions.now) }
{
    for _function in functions {
        made.push(Piece {
            kind: Kind::Function,
            size: 1,
            align: 1,
        })?;
    }
    Ok(())
}

// Appends a piece for each global.
fn push_globals(made: &mut Vec<Piece>, globals: &[Global_]) -> Result<(), AllocError>
    requires { HaveRoom globals.now }
    ensures { OnOk result (map piece_of made.new.items ≡ map piece_of made.old.items ++ map global_piece globals.now) }
{
    for global in globals {
        made.push(piece_of_global(global))?;
    }
    Ok(())
}

// What a local asks for.
fn piece_of_local(l: &Local) -> Piece
    requires { TypeOk l.now.ty }
    ensures { piece_of result ∷ [] ≡ local_piece (Some l.now) }
{
    Piece {
        kind: Kind::Stack,
        size: byte_size(&l.ty),
        align: align(&l.ty),
    }
}

// The function of this name.
fn function_at(p: &Program, f: FnName) -> &Function
    requires { f.0 < length p.now.functions }
    ensures { slice_get p.now.functions f.0 ≡ Some result.now }
{
    &p.functions.as_slice()[f.0 as usize]
}

// The local of this name.
fn local_at(f: &Function, x: LocalName) -> &Local
    requires { x.0 < length f.now.locals }
    ensures { slice_get f.now.locals x.0 ≡ Some result.now }
{
    &f.locals.as_slice()[x.0 as usize]
}

// The return local of the main function.
fn return_local(p: &Program) -> &Local
    requires { WellFormed p.now }
    ensures { (f : Function) × (slice_get p.now.functions p.now.start.0 ≡ Some f)
        × (slice_get f.locals f.ret.0 ≡ Some result.now) × TypeOk result.now.ty }
{
    let main = function_at(p, p.start);
    local_at(main, main.ret)
}

/// What the start allocates: one piece for each function, one for each global, and the return local of the main function.
pub fn pieces(alloc: Global, p: &Program) -> Result<Vec<Piece>, AllocError>
    requires { WellFormed p.now }
    ensures { IfOk result (λ made. map piece_of made.items ≡ pieces p.now) }
{
    let mut made = Vec::new(alloc);
    push_functions(&mut made, p.functions.as_slice())?;
    push_globals(&mut made, p.globals.as_slice())?;
    made.push(piece_of_local(return_local(p)))?;
    Ok(made)
}
