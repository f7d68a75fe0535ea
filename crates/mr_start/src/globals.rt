//! The bytes of globals, stored at the start.
ghost use Rattle.std.specs.Prelude.{◌≡◌, ◌++◌, IfOk, Ok, OnErr, OnOk, Result, length, replicate, true};
ghost use Rattle.mr_base.specs.declared.reason.Reason.{Reason};
ghost use Rattle.mr_eval.specs.Moves.{behind};
ghost use Rattle.mr_value.specs.Numbers.{pointer_bytes};
ghost use Rattle.mr_mem.specs.Memory.{Memory as MemoryOf, is_multiple, written};
ghost use Rattle.mr_mem.specs.Stored.{IsStored};
ghost use Rattle.mr_typing.specs.Broken.{item_size, items_size};
ghost use Rattle.mr_start.specs.Pieces.{HasRange};
ghost use Rattle.mr_start.specs.Start.{behind_store, filled, global_bytes, item_bytes, target_of};

use mr_ast::{Global_, Item_, Target, Ty};
use mr_base::{AbstractByte, Pointer};
use mr_eval::{Fault, behind};
use mr_mem::Memory;
use mr_value::{Val, encode};
use mr_typing::items_size;
use std::alloc::{AllocError, Global};

// Appends a byte, so often.
fn push_bytes(out: &mut Vec<AbstractByte>, byte: AbstractByte, count: u32) -> Result<(), AllocError>
    ensures { OnOk result (out.new.items ≡ out.old.items ++ replicate count byte) }
{
    for _i in 0..count {
        out.push(byte)?;
    }
    Ok(())
}

// Where the thing begins that a pointer in a global points to.
fn target_of(functions: &[Pointer], globals: &[Pointer], to: Target) -> Option<Pointer>
    ensures { result ≡ target_of functions.now globals.now to }
{
    match to {
        Target::Function(f) => functions.get(f.0 as usize).copied(),
        Target::Global(g) => globals.get(g.0 as usize).copied(),
    }
}

// Appends the bytes of a pointer so many bytes behind.
#[tactic(auto, using(mr_value::proofs::EncodeLaws::encode_raw, mr_value::proofs::ShapeLaws::has_raw, mr_layout::proofs::BrokenLaws::broken_raw))]
fn push_pointer(
    alloc: Global,
    out: &mut Vec<AbstractByte>,
    p: Pointer,
    offset: u64,
) -> Result<(), AllocError>
    ensures { OnOk result (out.new.items ≡ out.old.items ++ pointer_bytes (behind p offset)) }
{
    encode(alloc, &Val::Ptr(behind(p, offset)), &Ty::Raw, out)
}

// Appends the bytes of an item of a global.
fn push_item(
    alloc: Global,
    out: &mut Vec<AbstractByte>,
    functions: &[Pointer],
    globals: &[Pointer],
    item: &Item_,
) -> Result<(), AllocError>
    ensures { OnOk result (out.new.items ≡ out.old.items ++ item_bytes functions.now globals.now item.now) }
{
    match item {
        Item_::Byte(byte, repeat) => push_bytes(out, AbstractByte::Init(*byte, None), *repeat),
        Item_::Uninit(repeat) => push_bytes(out, AbstractByte::Uninit, *repeat),
        Item_::Reloc(to, offset) => match target_of(functions, globals, *to) {
            Some(p) => push_pointer(alloc, out, p, *offset),
            None => push_bytes(out, AbstractByte::Uninit, 8),
        },
    }
}

// The bytes of a global.
fn global_bytes(
    alloc: Global,
    functions: &[Pointer],
    globals: &[Pointer],
    items: &[Item_],
) -> Result<Vec<AbstractByte>, AllocError>
    ensures { IfOk result (λ bytes. bytes.items ≡ global_bytes functions.now globals.now items.now) }
{
    let mut bytes = Vec::new(alloc);
    for item in items {
        push_item(alloc, &mut bytes, functions, globals, item)?;
    }
    Ok(bytes)
}

// A store at the start. Its address was picked for its alignment, and its allocation has room for it.
fn stored(answer: Result<(), Fault>) -> Result<(), AllocError>
    ensures { (old : MemoryOf) (new : MemoryOf) (wanted : Result MemoryOf Reason) → IsStored wanted new answer
        → OnErr answer (new ≡ old) → OnOk result (new ≡ behind_store old wanted) }
{
    match answer {
        Err(Fault::Memory) => Err(AllocError),
        Ok(()) | Err(Fault::Undefined(_)) => Ok(()),
    }
}

// How many bytes an item of a global has.
fn item_len(item: &Item_) -> u64
    ensures { result ≡ item_size item.now }
{
    match item {
        Item_::Byte(_, repeat) | Item_::Uninit(repeat) => u64::from(*repeat),
        Item_::Reloc(_, _) => 8,
    }
}

// Stores the bytes of a pointer so many bytes behind another.
fn store_pointer(
    alloc: Global,
    memory: &mut Memory,
    target: Pointer,
    offset: u64,
    p: Pointer,
) -> Result<(), AllocError>
    ensures { OnOk result
        (memory.new ≡ behind_store memory.old (written memory.old p (pointer_bytes (behind target offset)) 1)) }
{
    let mut bytes = Vec::new(alloc);
    push_pointer(alloc, &mut bytes, target, offset)?;
    stored(memory.store(p, bytes.as_slice(), 1))
}

// Stores the bytes of an item.
fn store_item(
    alloc: Global,
    memory: &mut Memory,
    functions: &[Pointer],
    globals: &[Pointer],
    item: &Item_,
    p: Pointer,
) -> Result<(), AllocError>
    ensures { OnOk result (memory.new ≡ behind_store memory.old
        (written memory.old p (item_bytes functions.now globals.now item.now) 1)) }
{
    match item {
        Item_::Byte(byte, repeat) => {
            let number = AbstractByte::Init(*byte, None);
            stored(memory.fill(p, u64::from(*repeat), number, 1))
        }
        Item_::Uninit(repeat) => {
            stored(memory.fill(p, u64::from(*repeat), AbstractByte::Uninit, 1))
        }
        Item_::Reloc(to, offset) => match target_of(functions, globals, *to) {
            Some(target) => store_pointer(alloc, memory, target, *offset, p),
            None => stored(memory.fill(p, 8, AbstractByte::Uninit, 1)),
        },
    }
}

// Stores the bytes of items one behind the other, where they lie in a live allocation.
fn store_items(
    alloc: Global,
    memory: &mut Memory,
    functions: &[Pointer],
    globals: &[Pointer],
    items: &[Item_],
    p: Pointer,
) -> Result<(), AllocError>
    requires { HasRange memory.old p (length (global_bytes functions.now globals.now items.now)) }
    ensures { OnOk result
        (written memory.old p (global_bytes functions.now globals.now items.now) 1 ≡ Ok memory.new) }
{
    let mut at = p;
    for item in items {
        store_item(alloc, memory, functions, globals, item, at)?;
        at = behind(at, item_len(item));
    }
    Ok(())
}

// Whether an address is a multiple of an alignment.
fn is_aligned(addr: u64, align: u64) -> bool
    ensures { result ≡ is_multiple addr align }
{
    align != 0 && addr % align == 0
}

// Whether so many bytes lie in a live allocation, one or more, and end below 2^64.
fn is_open(memory: &Memory, p: Pointer, len: u64) -> bool
    ensures { result ≡ true → HasRange memory.now p len }
{
    if p.addr.checked_add(len).is_none() {
        return false;
    }
    matches!(memory.check(p, len), Ok(Some(_)))
}

// The same of the bytes of a global's items.
fn has_room(memory: &Memory, p: Pointer, items: &[Item_]) -> bool
    ensures { result ≡ true → HasRange memory.now p (items_size items.now) }
{
    match u64::try_from(items_size(items)) {
        Ok(len) => is_open(memory, p, len),
        Err(_) => false,
    }
}

// Stores the bytes of a global: item by item where there is room for all, which behind a lawful start line there is.
fn fill_one(
    alloc: Global,
    memory: &mut Memory,
    global: &Global_,
    functions: &[Pointer],
    places: &[Pointer],
    p: Pointer,
) -> Result<(), AllocError>
    ensures { OnOk result
        (memory.new ≡ behind_store memory.old
        (written memory.old p (global_bytes functions.now places.now global.now.items) global.now.align)) }
{
    let items = global.items.as_slice();
    if is_aligned(p.addr, global.align) && has_room(memory, p, items) {
        return store_items(alloc, memory, functions, places, items, p);
    }
    let bytes = global_bytes(alloc, functions, places, items)?;
    stored(memory.store(p, bytes.as_slice(), global.align))
}

/// Stores the bytes of each global, from the pointers to functions and globals.
pub fn fill(
    alloc: Global,
    memory: &mut Memory,
    globals: &[Global_],
    functions: &[Pointer],
    places: &[Pointer],
) -> Result<(), AllocError>
    requires { length places.now ≡ length globals.now }
    ensures { OnOk result (memory.new ≡ filled functions.now places.now memory.old globals.now places.now) }
{
    for (i, global) in globals.iter().enumerate() {
        fill_one(alloc, memory, global, functions, places, places[i])?;
    }
    Ok(())
}
