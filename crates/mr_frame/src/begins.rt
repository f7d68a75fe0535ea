//! The start of a function: storage for the return local and the arguments, and the stores of these.
ghost use Rattle.std.specs.Prelude.{◌≡◌, ◌+◌, ◌∷◌, [], IfOk, List, None, OnOk, Some, drop, length, replicate, slice_get, true};
ghost use Rattle.mr_ast.specs.declared.types.Ty.{Ty as TypeOf};
ghost use Rattle.mr_layout.specs.TypeOk.{TypeOk};
ghost use Rattle.mr_base.specs.Script.{Went};
ghost use Rattle.mr_value.specs.Shape.{has_shape};
ghost use Rattle.mr_eval.specs.Shapes.{HaveShapes};
ghost use Rattle.mr_eval.specs.Environment.{Tells};
ghost use Rattle.mr_eval.specs.World.{TellsBy, world_of};
ghost use Rattle.mr_frame.specs.Beginning.{CanAllocate, CanBegin, HasTypes, IsAllocated, allocated_each, stored_each};
ghost use Rattle.mr_frame.specs.Calling.{HasLocals, written_types};
ghost use Rattle.mr_frame.specs.Calls.{kept_types, with_each};
ghost use Rattle.mr_frame.specs.Effects.{entered, stored_in};
ghost use Rattle.mr_frame.specs.Kept.{frame_of};
ghost use Rattle.mr_frame.specs.Sites.{kept_locals};

use crate::frame::{Frame, local_at};
use crate::look::Look;
use crate::types::{byte_align, byte_size};
use mr_ast::{FnName, Function, LocalName, Ty};
use mr_base::{Kind, Pointer};
use mr_eval::{Env, Fault, Scene, store_typed};
use mr_layout::Cache;
use mr_value::Val;
use std::alloc::{AllocError, Global};

/// The store of a value of a type's shape.
pub fn store(
    alloc: Global,
    e: &Env<'_>,
    s: &mut Scene,
    p: Pointer,
    t: &Ty,
    v: &Val,
) -> Result<(), Fault>
    requires ok { TypeOk t.now }
    requires shape { has_shape t.now v.now ≡ true }
    ensures { Tells result (stored_in t.now p v.now (world_of s.old)) (world_of s.new) s.new.notes.refused }
{
    store_typed(alloc, e, &mut s.memory, &mut s.notes, p, t, v)
}

// Storage for a local of a type, at a picked address.
fn allocate_local(
    c: &Cache,
    s: &mut Scene,
    t: &Ty,
    addr: u64,
    out: &mut Vec<Pointer>,
) -> Result<(), AllocError>
    requires ok { TypeOk t.now }
    requires allocates { CanAllocate (t.now ∷ []) (addr ∷ []) (world_of s.old) }
    ensures { OnOk result (IsAllocated t.now addr (world_of s.old) (world_of s.new) out.old.items out.new.items) }
{
    let p = s.allocate(Kind::Stack, byte_size(c, t), byte_align(c, t), addr)?;
    out.push(p)?;
    Ok(())
}

// Storage for the return local and for each argument, at the picked addresses, in this order.
fn allocate_each(
    c: &Cache,
    s: &mut Scene,
    function: &Function,
    picks: &[u64],
    out: &mut Vec<Pointer>,
) -> Result<(), AllocError>
    requires function { HasTypes function.now }
    requires none { out.old.items ≡ [] }
    requires allocates { (types : List TypeOf) → kept_types function.now ≡ Some types
        → CanAllocate types picks.now (world_of s.old) }
    ensures { (types : List TypeOf) → kept_types function.now ≡ Some types
        → OnOk result (allocated_each types picks.now (world_of s.old) ≡ Went out.new.items (world_of s.new)) }
{
    let names = function.args.as_slice();
    allocate_local(c, s, &local_at(function, function.ret).ty, picks[0], out)?;
    for (k, x) in names.iter().enumerate() {
        allocate_local(c, s, &local_at(function, *x).ty, picks[k + 1], out)?;
    }
    Ok(())
}

// The arguments are stored, in their order.
fn store_each(
    alloc: Global,
    e: &Env<'_>,
    s: &mut Scene,
    function: &Function,
    pointers: &[Pointer],
    args: &[Val],
) -> Result<(), Fault>
    requires function { HasTypes function.now }
    requires shapes { (types : List TypeOf) → written_types function.now function.now.args ≡ Some types
        → HaveShapes types args.now }
    requires pointers { length pointers.now ≡ length function.now.args + 1 }
    ensures { (types : List TypeOf) → written_types function.now function.now.args ≡ Some types
        → Tells result (stored_each types (drop 1 pointers.now) args.now (world_of s.old))
        (world_of s.new) s.new.notes.refused }
{
    let names = function.args.as_slice();
    for (k, v) in args.iter().enumerate() {
        let t = &local_at(function, names[k]).ty;
        match store(alloc, e, s, pointers[k + 1], t, v) {
            Err(fault) => return Err(fault),
            Ok(()) => {}
        }
    }
    Ok(())
}

// The locals of a function, of which the return local and the arguments have this storage.
fn first_locals(
    alloc: Global,
    function: &Function,
    pointers: &[Pointer],
) -> Result<Vec<Option<Pointer>>, AllocError>
    requires locals { HasLocals function.now }
    requires pointers { length pointers.now ≡ length function.now.args + 1 }
    ensures { IfOk result (λ locals. locals.items
        ≡ with_each (replicate (length function.now.locals) None) (kept_locals function.now) pointers.now) }
{
    let names = function.args.as_slice();
    let mut locals = vec![in alloc; None; function.locals.len()]?;
    locals[function.ret.0 as usize] = Some(pointers[0]);
    for (k, x) in names.iter().enumerate() {
        locals[x.0 as usize] = Some(pointers[k + 1]);
    }
    Ok(locals)
}

/// The frame of a function at its start: the return local and the arguments get storage, in this order, and then the arguments are stored.
pub fn begin(
    alloc: Global,
    look: &Look<'_>,
    s: &mut Scene,
    f: FnName,
    args: &[Val],
    picks: &[u64],
) -> Result<Frame, Fault>
    requires { CanBegin look.now f.0 args.now picks.now (world_of s.old) }
    ensures { TellsBy frame_of result (entered f.0 (slice_get look.now.program.now.functions f.0) args.now picks.now
        (world_of s.old)) (world_of s.new) s.new.notes.refused }
{
    let function = look.function(f.0);
    let mut pointers = Vec::new(alloc);
    allocate_each(look.cache, s, function, picks, &mut pointers)?;
    match store_each(alloc, &look.bare(f), s, function, pointers.as_slice(), args) {
        Err(fault) => Err(fault),
        Ok(()) => {
            let locals = first_locals(alloc, function, pointers.as_slice())?;
            Ok(Frame {
                function: f.0,
                locals,
                block: 0,
                at: 0,
                call: None,
            })
        }
    }
}
