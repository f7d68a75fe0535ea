//! What an undefined run speaks of: an allocation, by its name.
ghost use Rattle.std.specs.Prelude.{◌≡◌, ◌++◌, ◌&&◌, OnOk, nat_lt};
ghost use Rattle.mr_listing.specs.Accesses.{bytes_text};
ghost use Rattle.mr_listing.specs.Seen.{seen};
ghost use Rattle.mr_listing.specs.Spoken.{doing_word, freed_from, freed_text, freeing_text, held_bytes};
ghost use Rattle.mr_listing.specs.Spoken.{lacks_value, made_so, offset_text, owner_of, owner_word, spoken_line, spoken_text};
ghost use Rattle.mr_listing.specs.Spoken.{stored_by, stored_last, storer_text, stores_to, where_text};

use crate::OutOfMemory;
use crate::accesses::push_bytes;
use crate::leaks::freed_by;
use crate::shown::Shown;
use mr_base::{Access, AllocId, Reason, Verdict, ranges_meet};
use mr_event::Footprint;
use mr_labels::{Allocation, Name, Reached, Reaching, push_count, push_name, push_number};

// What is done with bytes.
fn doing_word(doing: Reaching) -> &'static str
    ensures { result.now ≡ doing_word doing }
{
    match doing {
        Reaching::Moves => "move over ",
        Reaching::Refers => "reference to ",
        Reaching::Loads => "load of ",
        Reaching::Stores => "store of ",
        Reaching::Changes => "atomic change of ",
        Reaching::Frees => "freeing of ",
    }
}

// Appends where an address lies, counted from the first one of an allocation.
fn push_offset(out: &mut Vec<u8>, start: u64, addr: u64) -> Result<(), OutOfMemory>
    ensures { OnOk result (out.new.items ≡ out.old.items ++ offset_text start addr) }
{
    if addr < start {
        out.push(b'-')?;
        push_number(out, start - addr)?;
        Ok(())
    } else {
        push_number(out, addr - start)
    }
}

// Appends the same, and the address.
fn push_where(out: &mut Vec<u8>, start: u64, addr: u64) -> Result<(), OutOfMemory>
    ensures { OnOk result (out.new.items ≡ out.old.items ++ where_text start addr) }
{
    push_offset(out, start, addr)?;
    out.extend_from_slice(b", address ")?;
    push_number(out, addr)
}

// The number of the first step that freed an allocation, counted from 0.
fn freed_at(id: AllocId, feet: &[Footprint]) -> Option<usize>
    ensures { result ≡ freed_from 0 id feet.now }
{
    for (k, foot) in feet.iter().enumerate() {
        if freed_by(id, foot) {
            return Some(k);
        }
    }
    None
}

// Appends which step freed it.
fn push_freeing(out: &mut Vec<u8>, k: usize) -> Result<(), OutOfMemory>
    ensures { OnOk result (out.new.items ≡ out.old.items ++ freeing_text k) }
{
    out.extend_from_slice(b" and was freed by step ")?;
    push_count(out, k)?;
    Ok(())
}

// Appends which step freed it, where one did.
fn push_freed(out: &mut Vec<u8>, freed: Option<usize>) -> Result<(), OutOfMemory>
    ensures { OnOk result (out.new.items ≡ out.old.items ++ freed_text freed) }
{
    match freed {
        Some(k) => push_freeing(out, k),
        None => Ok(()),
    }
}

// How many bytes an allocation has.
fn held_bytes(row: &Allocation) -> u64
    ensures { result ≡ held_bytes row.now row.now.name }
{
    match row.name {
        Name::Function(_) => 0,
        Name::Global(_) | Name::Local { .. } | Name::Heap(_) => row.size,
    }
}

// Appends an allocation: its name, how many bytes it has, and which step freed it.
fn push_owner(out: &mut Vec<u8>, shown: &Shown<'_>, row: &Allocation) -> Result<(), OutOfMemory>
    ensures { OnOk result (out.new.items ≡ out.old.items ++ owner_word (seen shown.now) row.now) }
{
    push_name(out, shown.program, None, 0, row.name)?;
    out.extend_from_slice(b", which has ")?;
    push_bytes(out, held_bytes(row))?;
    push_freed(out, freed_at(row.id, shown.feet))?;
    Ok(())
}

// The allocation that a pointer may reach.
fn owner_of(shown: &Shown<'_>, reached: Reached) -> Option<Allocation>
    ensures { result ≡ owner_of (seen shown.now) reached }
{
    match reached.pointer.prov {
        Some(id) => shown.rows.named(id),
        None => None,
    }
}

// Appends what is done with so many bytes.
fn push_doing(out: &mut Vec<u8>, reached: Reached) -> Result<(), OutOfMemory>
    ensures { OnOk result (out.new.items ≡ out.old.items ++ (doing_word reached.doing ++ bytes_text reached.len)) }
{
    out.extend_from_slice(doing_word(reached.doing).as_bytes())?;
    push_bytes(out, reached.len)
}

// Appends an allocation, and where in it; or that there is none, and the address.
fn push_spoken_text(
    out: &mut Vec<u8>,
    shown: &Shown<'_>,
    reached: Reached,
    owner: Option<Allocation>,
) -> Result<(), OutOfMemory>
    ensures { OnOk result (out.new.items ≡ out.old.items ++ spoken_text (seen shown.now) reached owner) }
{
    match owner {
        None => {
            out.extend_from_slice(b"no allocation: ")?;
            push_doing(out, reached)?;
            out.extend_from_slice(b" at address ")?;
            push_number(out, reached.pointer.addr)?;
            Ok(())
        }
        Some(row) => {
            push_owner(out, shown, &row)?;
            out.extend_from_slice(b": ")?;
            push_doing(out, reached)?;
            out.extend_from_slice(b" at byte ")?;
            push_where(out, row.start, reached.pointer.addr)?;
            Ok(())
        }
    }
}

// Whether an access stored to one of these bytes.
fn stores_to(reached: Reached, access: Access) -> bool
    ensures { result ≡ stores_to reached access }
{
    access.store && ranges_meet(access.addr, access.len, reached.pointer.addr, reached.len)
}

// Whether a step did.
fn stored_by(reached: Reached, foot: &Footprint) -> bool
    ensures { result ≡ stored_by reached foot.now }
{
    foot.accesses()
        .iter()
        .any(|access| stores_to(reached, *access))
}

// The number of the last step that did, counted from 0.
fn stored_last(reached: Reached, feet: &[Footprint]) -> Option<usize>
    ensures { result ≡ stored_last 0 reached feet.now }
{
    let mut last = None;
    for (k, foot) in feet.iter().enumerate() {
        if stored_by(reached, foot) {
            last = Some(k);
        }
    }
    last
}

// Appends which step it was, or that there is none.
fn push_storer(out: &mut Vec<u8>, last: Option<usize>) -> Result<(), OutOfMemory>
    ensures { OnOk result (out.new.items ≡ out.old.items ++ storer_text last) }
{
    match last {
        None => out.extend_from_slice(b"; no step stored there"),
        Some(k) => {
            out.extend_from_slice(b"; step ")?;
            push_count(out, k)?;
            out.extend_from_slice(b" stored there last")
        }
    }
}

// Whether a run ended with bytes that mean no value.
fn lacks_value(verdict: Verdict) -> bool
    ensures { result ≡ lacks_value verdict }
{
    matches!(verdict, Verdict::Undefined(Reason::InvalidValue))
}

// Appends which step last made bytes so that mean no value.
fn push_made_so(out: &mut Vec<u8>, shown: &Shown<'_>, reached: Reached) -> Result<(), OutOfMemory>
    ensures { OnOk result (out.new.items ≡ out.old.items ++ made_so (seen shown.now) reached) }
{
    if lacks_value(shown.verdict) && 0 < reached.len {
        push_storer(out, stored_last(reached, shown.feet))
    } else {
        Ok(())
    }
}

/// Appends the line of what an undefined run speaks of, where it does.
pub fn push_spoken(
    out: &mut Vec<u8>,
    shown: &Shown<'_>,
    spoken: Option<Reached>,
) -> Result<(), OutOfMemory>
    ensures { OnOk result (out.new.items ≡ out.old.items ++ spoken_line (seen shown.now) spoken) }
{
    match spoken {
        None => Ok(()),
        Some(reached) => {
            out.extend_from_slice(b"it speaks of ")?;
            push_spoken_text(out, shown, reached, owner_of(shown, reached))?;
            push_made_so(out, shown, reached)?;
            out.push(b'\n')?;
            Ok(())
        }
    }
}
