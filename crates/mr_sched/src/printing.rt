//! The text of a schedule.
ghost use Rattle.std.specs.Prelude.{◌≡◌, ◌++◌, ◌+◌, ◌<◌, ◌≤◌, ◌⊎◌, IfOk, OnOk, OnErr, drop, false, flat_map, length, true};
ghost use Rattle.mr_sched.specs.Spelling.{Extends, ended, entry_line, spaced, text_of};
ghost use Rattle.mr_sched.specs.Versions.{group_line, groups_behind, groups_of, groups_text, header_in, is_joined, text_in};

use crate::schedule::{Entry, Schedule};
use crate::version::{Version, is_joined};
use itoa::Buffer;
use std::alloc::{AllocError, Global};

/// Writes the text of a schedule at the end of `out`, and asks for no memory but that of `out`. An `Err` is for want of memory, and leaves
/// `out` as it was.
#[tactic(auto, using(crate::proofs::VersionLaws::text_one))]
pub fn print(alloc: Global, s: &Schedule, out: &mut Vec<u8>) -> Result<(), AllocError>
    ensures ok { OnOk result (out.new.items ≡ out.old.items ++ text_of s.now) }
    ensures err { OnErr result (out.new.items ≡ out.old.items) }
{
    print_version(alloc, Version::One, s, out)
}

/// Writes the text of a schedule in a version, as [`print`] does.
pub fn print_version(
    _alloc: Global,
    v: Version,
    s: &Schedule,
    out: &mut Vec<u8>,
) -> Result<(), AllocError>
    ensures ok { OnOk result (out.new.items ≡ out.old.items ++ text_in v s.now) }
    ensures err { OnErr result (out.new.items ≡ out.old.items) }
{
    let len = out.len();
    match print_lines(v, s, out) {
        Ok(()) => Ok(()),
        Err(error) => {
            out.truncate(len);
            Err(error)
        }
    }
}

fn header(v: Version) -> &'static [u8]
    ensures { result.now ≡ header_in v }
{
    match v {
        Version::One => b"schedule 1",
        Version::Two => b"schedule 2",
    }
}

// The same, where a part of the text may stand behind what was there after want of memory.
#[tactic(auto, unfolding(crate::specs::Versions::text_in))]
fn print_lines(v: Version, s: &Schedule, out: &mut Vec<u8>) -> Result<(), AllocError>
    ensures ok { OnOk result (out.new.items ≡ out.old.items ++ text_in v s.now) }
    ensures err { OnErr result (Extends out.old.items out.new.items) }
{
    out.extend_from_slice(header(v))?;
    out.extend_from_slice(b"\nstart")?;
    print_picks(s.start.as_slice(), out)?;
    out.extend_from_slice(b"\n")?;
    print_groups(v, s.entries.as_slice(), out)
}

// Each line with as many entries as can be.
fn print_groups(v: Version, entries: &[Entry], out: &mut Vec<u8>) -> Result<(), AllocError>
    ensures ok { OnOk result (out.new.items ≡ out.old.items ++ groups_text (groups_of v entries.now)) }
    ensures err { OnErr result (Extends out.old.items out.new.items) }
{
    let mut count = 0;
    for at in 0..entries.len() {
        count = print_end(v, entries, at, count, out)?;
    }
    Ok(())
}

// Whether the entry at a place is the last of its line.
fn ends_line(v: Version, entries: &[Entry], at: usize) -> bool
    requires { at < length entries.now }
    ensures ends { result ≡ true → (at + 1 ≡ length entries.now) ⊎ (is_joined v entries.now at ≡ false) }
    ensures goes { result ≡ false → (at + 1 < length entries.now) × (is_joined v entries.now at ≡ true) }
{
    at + 1 == entries.len() || !is_joined(v, entries, at)
}

// The line that ends with the entry at a place, if one does, where so many stand on it before the entry; and how many stand
// on the line of the next entry before that.
#[tactic(auto, using(crate::proofs::VersionLaws::printed_end, crate::proofs::VersionLaws::printed_on))]
fn print_end(
    v: Version,
    entries: &[Entry],
    at: usize,
    count: usize,
    out: &mut Vec<u8>,
) -> Result<usize, AllocError>
    requires there { at < length entries.now }
    requires few { count ≤ at }
    ensures ok { IfOk result (λ left. out.new.items ++ groups_text (groups_behind v left (drop (at + 1) entries.now))
        ≡ out.old.items ++ groups_text (groups_behind v count (drop at entries.now))) }
    ensures fewer { IfOk result (λ left. left ≤ at + 1) }
    ensures more { Extends out.old.items out.new.items }
{
    if !ends_line(v, entries, at) {
        return Ok(count + 1);
    }
    print_group(&entries[at], count + 1, out)?;
    Ok(0)
}

// The line of an entry that stands there so many times.
fn print_group(entry: &Entry, count: usize, out: &mut Vec<u8>) -> Result<(), AllocError>
    ensures ok { OnOk result
        (out.new.items ≡ out.old.items ++ ended (group_line (record { entry = entry.now; count = count }))) }
    ensures err { OnErr result (Extends out.old.items out.new.items) }
{
    if count == 1 {
        return print_entry(entry, out);
    }
    let mut buffer = Buffer::new();
    out.extend_from_slice(buffer.format(entry.thread).as_bytes())?;
    out.push(b'*')?;
    out.extend_from_slice(buffer.format(count).as_bytes())?;
    out.push(b'\n')?;
    Ok(())
}

fn print_entry(entry: &Entry, out: &mut Vec<u8>) -> Result<(), AllocError>
    ensures ok { OnOk result (out.new.items ≡ out.old.items ++ ended (entry_line entry.now)) }
    ensures err { OnErr result (Extends out.old.items out.new.items) }
{
    let mut buffer = Buffer::new();
    out.extend_from_slice(buffer.format(entry.thread).as_bytes())?;
    print_picks(entry.picks.as_slice(), out)?;
    out.push(b'\n')?;
    Ok(())
}

// The numbers, each behind a space.
fn print_picks(picks: &[u64], out: &mut Vec<u8>) -> Result<(), AllocError>
    ensures ok { OnOk result (out.new.items ≡ out.old.items ++ spaced picks.now) }
    ensures err { OnErr result (Extends out.old.items out.new.items) }
{
    let mut buffer = Buffer::new();
    for pick in picks {
        out.push(b' ')?;
        out.extend_from_slice(buffer.format(*pick).as_bytes())?;
    }
    Ok(())
}
