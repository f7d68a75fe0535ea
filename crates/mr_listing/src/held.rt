//! What the bytes of accesses hold, as it is written.
ghost use Rattle.std.specs.Prelude.{◌≡◌, ◌++◌, OnOk, decimal, option_copied, slice_get};
ghost use Rattle.mr_base.specs.Identities.{same_id};
ghost use Rattle.mr_listing.specs.Accesses.{own_row, pointer_text, value_text};
ghost use Rattle.mr_listing.specs.Held.{held_for, held_or, side_of};
ghost use Rattle.mr_listing.specs.Seen.{seen};

use crate::OutOfMemory;
use crate::accesses::push_found;
use crate::shown::Shown;
use itoa::Buffer;
use mr_ast::Items;
use mr_base::{Access, AllocId, Pointer};
use mr_labels::{Allocation, Stand, push_number};

/// What some bytes of memory hold, read as one number or one pointer.
#[derive(Clone, Copy)]
pub enum Held {
    /// The number that they spell, without a sign, the lowest byte first.
    Number(u128),
    /// The pointer that eight bytes spell.
    Pointer(Pointer),
    /// No value: one of them is uninitialised.
    Nothing,
    /// It is not told.
    Untold,
}

/// What the bytes of the accesses of a step hold before it and behind it, in the order of the accesses.
#[derive(Drop)]
pub struct StepValues {
    pub before: Items<Held>,
    pub behind: Items<Held>,
}

// What is held at a position.
fn held_or(held: &[Held], at: usize) -> Held
    ensures { result ≡ held_or (slice_get held.now at) }
{
    match held.get(at) {
        Some(held) => *held,
        None => Held::Untold,
    }
}

// What is held before a step, or behind it.
fn side_of(values: &StepValues, behind: bool) -> &[Held]
    ensures { result.now ≡ side_of behind values.now }
{
    if behind {
        values.behind.as_slice()
    } else {
        values.before.as_slice()
    }
}

/// What an access at a position loaded, before the step, or stored, behind it.
pub(crate) fn held_for(values: Option<&StepValues>, at: usize, access: Access) -> Held
    ensures { result ≡ held_for (option_copied values.entry) at access }
{
    match values {
        Some(values) => held_or(side_of(values, access.store), at),
        None => Held::Untold,
    }
}

fn is_same(one: AllocId, other: AllocId) -> bool
    ensures { result ≡ same_id one other }
{
    one.thread == other.thread && one.count == other.count
}

// An allocation, where it has an identity.
fn own_row(id: AllocId, row: Option<Allocation>) -> Option<Allocation>
    ensures { result ≡ own_row id row }
{
    match row {
        Some(row) => { if is_same(id, row.id) { Some(row) } else { None } }
        None => None,
    }
}

// Appends a number of 16 bytes or fewer.
fn push_wide(out: &mut Vec<u8>, number: u128) -> Result<(), OutOfMemory>
    ensures { OnOk result (out.new.items ≡ out.old.items ++ decimal number) }
{
    let mut buffer = Buffer::new();
    out.extend_from_slice(buffer.format(number).as_bytes())
}

// Appends a pointer.
fn push_pointer(
    out: &mut Vec<u8>,
    shown: &Shown<'_>,
    here: Option<Stand>,
    p: Pointer,
) -> Result<(), OutOfMemory>
    ensures { OnOk result (out.new.items ≡ out.old.items ++ pointer_text (seen shown.now) here p) }
{
    match p.prov {
        None => push_number(out, p.addr),
        Some(id) => push_found(
            out,
            shown,
            here,
            p.addr,
            own_row(id, shown.rows.found_at(p.addr)),
        ),
    }
}

/// Appends what is held, where it is told.
pub(crate) fn push_value(
    out: &mut Vec<u8>,
    shown: &Shown<'_>,
    here: Option<Stand>,
    held: Held,
) -> Result<(), OutOfMemory>
    ensures { OnOk result (out.new.items ≡ out.old.items ++ value_text (seen shown.now) here held) }
{
    match held {
        Held::Number(number) => {
            out.extend_from_slice(b" = ")?;
            push_wide(out, number)
        }
        Held::Pointer(pointer) => {
            out.extend_from_slice(b" = ")?;
            push_pointer(out, shown, here, pointer)
        }
        Held::Nothing => out.extend_from_slice(b" = no value"),
        Held::Untold => Ok(()),
    }
}
