//! The accesses of a step, by the names of what they reach, and with what they loaded or stored.
ghost use Rattle.std.specs.Prelude.{◌≡◌, ◌++◌, OnOk, option_copied, slice_get};
ghost use Rattle.mr_listing.specs.Accesses.{access_line, access_word, accesses_text, bytes_text, held_text, line_at};
ghost use Rattle.mr_listing.specs.Accesses.{reached_text, value_text};
ghost use Rattle.mr_listing.specs.Held.{held_for};
ghost use Rattle.mr_listing.specs.Seen.{seen};
ghost use Rattle.mr_labels.specs.Table.{found_at};

use crate::OutOfMemory;
use crate::held::{Held, StepValues, held_for, push_value};
use crate::shown::Shown;
use mr_base::Access;
use mr_labels::{Allocation, Stand, push_name, push_number};

/// What an access is called.
pub fn access_word(access: Access) -> &'static str
    ensures { result.now ≡ access_word access }
{
    if access.atomic {
        if access.store {
            "atomic store "
        } else {
            "atomic load "
        }
    } else if access.store {
        "store "
    } else {
        "load "
    }
}

/// Appends what an address is called: by the allocation that holds it, or by its number where none does.
pub fn push_reached(
    out: &mut Vec<u8>,
    shown: &Shown<'_>,
    here: Option<Stand>,
    addr: u64,
) -> Result<(), OutOfMemory>
    ensures { OnOk result (out.new.items
        ≡ out.old.items ++ reached_text (seen shown.now).program here addr (found_at addr (seen shown.now).rows)) }
{
    push_found(out, shown, here, addr, shown.rows.found_at(addr))
}

/// Appends the same, where the allocation is known that holds the address.
pub(crate) fn push_found(
    out: &mut Vec<u8>,
    shown: &Shown<'_>,
    here: Option<Stand>,
    addr: u64,
    row: Option<Allocation>,
) -> Result<(), OutOfMemory>
    ensures { OnOk result (out.new.items ≡ out.old.items ++ reached_text (seen shown.now).program here addr row) }
{
    match row {
        Some(row) => push_held(out, shown, here, addr, &row),
        None => {
            out.extend_from_slice(b"address ")?;
            push_number(out, addr)
        }
    }
}

// Appends the name of an address in an allocation.
fn push_held(
    out: &mut Vec<u8>,
    shown: &Shown<'_>,
    here: Option<Stand>,
    addr: u64,
    row: &Allocation,
) -> Result<(), OutOfMemory>
    ensures { OnOk result (out.new.items
        ≡ out.old.items ++ held_text (seen shown.now).program here addr row.now) }
{
    let offset = addr.saturating_sub(row.start);
    push_name(out, shown.program, here, offset, row.name)
}

/// Appends how many bytes there are.
pub fn push_bytes(out: &mut Vec<u8>, count: u64) -> Result<(), OutOfMemory>
    ensures { OnOk result (out.new.items ≡ out.old.items ++ bytes_text count) }
{
    push_number(out, count)?;
    if count == 1 {
        out.extend_from_slice(b" byte")
    } else {
        out.extend_from_slice(b" bytes")
    }
}

/// Appends what the access at a position of a step with these values loaded or stored, where it is told.
pub fn push_loaded(
    out: &mut Vec<u8>,
    shown: &Shown<'_>,
    here: Option<Stand>,
    values: Option<&StepValues>,
    at: usize,
    access: Access,
) -> Result<(), OutOfMemory>
    ensures { OnOk result (out.new.items
        ≡ out.old.items ++ value_text (seen shown.now) here (held_for (option_copied values.entry) at access)) }
{
    push_value(out, shown, here, held_for(values, at, access))
}

// Appends the line of an access, which loaded or stored this.
fn push_access(
    out: &mut Vec<u8>,
    shown: &Shown<'_>,
    here: Option<Stand>,
    held: Held,
    access: Access,
) -> Result<(), OutOfMemory>
    ensures { OnOk result (out.new.items ≡ out.old.items ++ access_line (seen shown.now) here held access) }
{
    out.extend_from_slice(b"        ")?;
    out.extend_from_slice(access_word(access).as_bytes())?;
    push_reached(out, shown, here, access.addr)?;
    push_value(out, shown, here, held)?;
    out.extend_from_slice(b", ")?;
    push_bytes(out, access.len)?;
    out.push(b'\n')?;
    Ok(())
}

fn access_at(accesses: &[Access], at: usize) -> Option<Access>
    ensures { result ≡ slice_get accesses.now at }
{
    accesses.get(at).copied()
}

// Appends the line of the access at a position, where there is one.
fn push_access_at(
    out: &mut Vec<u8>,
    shown: &Shown<'_>,
    here: Option<Stand>,
    values: Option<&StepValues>,
    accesses: &[Access],
    at: usize,
) -> Result<(), OutOfMemory>
    ensures { OnOk result (out.new.items
        ≡ out.old.items ++ line_at (seen shown.now) here (option_copied values.entry) accesses.now at) }
{
    match access_at(accesses, at) {
        Some(access) => push_access(out, shown, here, held_for(values, at, access), access),
        None => Ok(()),
    }
}

/// Appends a line for each access of a step with these values, whose thread stood here.
pub(crate) fn push_accesses(
    out: &mut Vec<u8>,
    shown: &Shown<'_>,
    here: Option<Stand>,
    values: Option<&StepValues>,
    accesses: &[Access],
) -> Result<(), OutOfMemory>
    ensures { OnOk result (out.new.items
        ≡ out.old.items ++ accesses_text (seen shown.now) here (option_copied values.entry) accesses.now) }
{
    for at in 0..accesses.len() {
        push_access_at(out, shown, here, values, accesses, at)?;
    }
    Ok(())
}
