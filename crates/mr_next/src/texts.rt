//! What is said of how a run can go on.
ghost use Rattle.std.specs.Prelude.{◌≡◌, ◌++◌, ◌==◌, OnOk, Some, codes, decimal, if◌then◌else◌, option_copied, slice_get, take};
ghost use Rattle.mr_next.specs.Texts.{address_text, asked_text, at_text, blank_number, blank_numbers, broken_text};
ghost use Rattle.mr_next.specs.Texts.{code_text, count_of_picks, culprit_text, each_text, earlier_line, earlier_text, entry_text, for_text};
ghost use Rattle.mr_next.specs.Texts.{head_text, holder_named, holder_text, join_text, limit_line, limit_text, listed_thread};
ghost use Rattle.mr_next.specs.Texts.{listed_threads, numbered_thread};
ghost use Rattle.mr_next.specs.Texts.{lock_text, new_thread, numbered_want, pick_line, pick_text, picks_line, picks_text};
ghost use Rattle.mr_next.specs.Texts.{place_text, purpose_text, rule_text, size_text, stand_at, status_text};
ghost use Rattle.mr_next.specs.Texts.{thread_text, threads_text, told_text, waiter_text, want_line, want_text};
ghost use Rattle.mr_next.specs.Texts.{wants_text};

use crate::OutOfMemory;
use crate::broken::Broken;
use crate::coming::coming_names;
use crate::prospect::{Position, Prospect, Want};
use mr_ast::Program;
use mr_base::{AllocId, Status};
use mr_labels::{Name, Stand, push_name, push_number, rule_name};
use mr_sched::Entry;
use std::alloc::Global;

// Appends a number behind a blank.
fn push_blank(out: &mut Vec<u8>, number: u64) -> Result<(), OutOfMemory>
    ensures { OnOk result (out.new.items ≡ out.old.items ++ blank_number number) }
{
    out.push(b' ')?;
    push_number(out, number)
}

// What stands in front of one of some threads.
fn push_gap(out: &mut Vec<u8>, at: usize) -> Result<(), OutOfMemory>
    ensures { OnOk result (out.new.items ≡ out.old.items ++ (if at == 0 then codes " " else codes ", ")) }
{
    if at == 0 {
        out.extend_from_slice(b" ")
    } else {
        out.extend_from_slice(b", ")
    }
}

// Appends one of some threads.
fn push_named(out: &mut Vec<u8>, at: usize, thread: u32) -> Result<(), OutOfMemory>
    ensures { OnOk result (out.new.items ≡ out.old.items ++ listed_thread at (Some thread)) }
{
    push_gap(out, at)?;
    push_number(out, u64::from(thread))
}

// The thread at this position.
fn thread_at(threads: &[u32], at: usize) -> Option<u32>
    ensures { result ≡ slice_get threads.now at }
{
    threads.get(at).copied()
}

// Appends the thread at this position, if there is one.
fn push_listed(out: &mut Vec<u8>, threads: &[u32], at: usize) -> Result<(), OutOfMemory>
    ensures { OnOk result (out.new.items ≡ out.old.items ++ numbered_thread threads.now at) }
{
    match thread_at(threads, at) {
        Some(thread) => push_named(out, at, thread),
        None => Ok(()),
    }
}

// Appends threads, with commas between them.
fn push_threads(out: &mut Vec<u8>, threads: &[u32]) -> Result<(), OutOfMemory>
    ensures { OnOk result (out.new.items ≡ out.old.items ++ listed_threads threads.now) }
{
    for at in 0..threads.len() {
        push_listed(out, threads, at)?;
    }
    Ok(())
}

// Appends numbers, each behind a blank.
fn push_numbers(out: &mut Vec<u8>, numbers: &[u64]) -> Result<(), OutOfMemory>
    ensures { OnOk result (out.new.items ≡ out.old.items ++ blank_numbers numbers.now) }
{
    for number in numbers {
        push_blank(out, *number)?;
    }
    Ok(())
}

// Appends what an address is for.
fn push_purpose(
    out: &mut Vec<u8>,
    p: &Program,
    here: Option<Stand>,
    name: Name,
) -> Result<(), OutOfMemory>
    ensures { OnOk result (out.new.items ≡ out.old.items ++ purpose_text p.now here name) }
{
    match name {
        Name::Local { .. } => {
            out.extend_from_slice(b", for local ")?;
            push_name(out, p, here, 0, name)
        }
        Name::Heap(_) => out.extend_from_slice(b", for a block of the heap"),
        Name::Function(_) | Name::Global(_) => {
            out.extend_from_slice(b", for ")?;
            push_name(out, p, here, 0, name)
        }
    }
}

// The same, where it can be told.
fn push_for(
    out: &mut Vec<u8>,
    p: &Program,
    here: Option<Stand>,
    name: Option<Name>,
) -> Result<(), OutOfMemory>
    ensures { OnOk result (out.new.items ≡ out.old.items ++ for_text p.now here name) }
{
    match name {
        Some(name) => push_purpose(out, p, here, name),
        None => Ok(()),
    }
}

// Appends that a step asks for an address.
fn push_size(out: &mut Vec<u8>, size: u64, align: u64) -> Result<(), OutOfMemory>
    ensures { OnOk result (out.new.items ≡ out.old.items ++ size_text size align) }
{
    out.extend_from_slice(b"address, size ")?;
    push_number(out, size)?;
    out.extend_from_slice(b", align ")?;
    push_number(out, align)
}

// The same, and what it is for.
fn push_address(
    out: &mut Vec<u8>,
    p: &Program,
    here: Option<Stand>,
    name: Option<Name>,
    size: u64,
    align: u64,
) -> Result<(), OutOfMemory>
    ensures { OnOk result (out.new.items ≡ out.old.items ++ address_text p.now here name size align) }
{
    push_size(out, size, align)?;
    push_for(out, p, here, name)
}

// Appends that a step asks for one of the threads that wait for a lock.
fn push_waiter(out: &mut Vec<u8>, lock: u32, threads: &[u32]) -> Result<(), OutOfMemory>
    ensures { OnOk result (out.new.items ≡ out.old.items ++ waiter_text lock threads.now) }
{
    out.extend_from_slice(b"one of the threads")?;
    push_threads(out, threads)?;
    out.extend_from_slice(b", which wait for lock ")?;
    push_number(out, u64::from(lock))
}

// Appends what a step asks for.
fn push_want(
    out: &mut Vec<u8>,
    p: &Program,
    here: Option<Stand>,
    name: Option<Name>,
    want: &Want,
) -> Result<(), OutOfMemory>
    ensures { OnOk result (out.new.items ≡ out.old.items ++ want_text p.now here name want.now) }
{
    match want {
        Want::Address { size, align } => push_address(out, p, here, name, *size, *align),
        Want::Waiter { lock, threads } => push_waiter(out, *lock, threads.as_slice()),
    }
}

// Appends the line of one of these.
fn push_want_line(
    out: &mut Vec<u8>,
    p: &Program,
    here: Option<Stand>,
    name: Option<Name>,
    want: &Want,
) -> Result<(), OutOfMemory>
    ensures { OnOk result (out.new.items ≡ out.old.items ++ want_line p.now here name want.now) }
{
    out.extend_from_slice(b"        asks for ")?;
    push_want(out, p, here, name, want)?;
    out.push(b'\n')?;
    Ok(())
}

// The name of this number.
fn name_at(names: &[Name], at: usize) -> Option<Name>
    ensures { result ≡ slice_get names.now at }
{
    names.get(at).copied()
}

// Appends the line of what is asked for under a number, if it is there.
fn push_numbered_want(
    out: &mut Vec<u8>,
    p: &Program,
    here: Option<Stand>,
    names: &[Name],
    wants: &[Want],
    at: usize,
) -> Result<(), OutOfMemory>
    ensures { OnOk result (out.new.items
        ≡ out.old.items ++ numbered_want p.now here names.now wants.now at) }
{
    match wants.get(at) {
        Some(want) => push_want_line(out, p, here, name_at(names, at), want),
        None => Ok(()),
    }
}

// Appends a line for each thing that a step asks for which makes what these names name.
fn push_wants(
    out: &mut Vec<u8>,
    p: &Program,
    here: Option<Stand>,
    names: &[Name],
    wants: &[Want],
) -> Result<(), OutOfMemory>
    ensures { OnOk result (out.new.items ≡ out.old.items ++ wants_text p.now here names.now wants.now) }
{
    for at in 0..wants.len() {
        push_numbered_want(out, p, here, names, wants, at)?;
    }
    Ok(())
}

// Appends a rule that a step would break whatever is picked.
fn push_broken_limit(out: &mut Vec<u8>, code: u8) -> Result<(), OutOfMemory>
    ensures { OnOk result (out.new.items ≡ out.old.items ++ limit_line code) }
{
    out.extend_from_slice(b"        would break ")?;
    push_number(out, u64::from(code))?;
    out.push(b' ')?;
    out.extend_from_slice(rule_name(code).as_bytes())?;
    out.push(b'\n')?;
    Ok(())
}

// The same, if there is one.
fn push_limit(out: &mut Vec<u8>, limit: Option<u8>) -> Result<(), OutOfMemory>
    ensures { OnOk result (out.new.items ≡ out.old.items ++ limit_text limit) }
{
    match limit {
        Some(code) => push_broken_limit(out, code),
        None => Ok(()),
    }
}

// Appends who has the lock that is waited for.
fn push_named_holder(out: &mut Vec<u8>, thread: u32) -> Result<(), OutOfMemory>
    ensures { OnOk result (out.new.items ≡ out.old.items ++ holder_named thread) }
{
    out.extend_from_slice(b", which thread ")?;
    push_number(out, u64::from(thread))?;
    out.extend_from_slice(b" has")?;
    Ok(())
}

// The same, if a thread has it.
fn push_holder(out: &mut Vec<u8>, holder: Option<u32>) -> Result<(), OutOfMemory>
    ensures { OnOk result (out.new.items ≡ out.old.items ++ holder_text holder) }
{
    match holder {
        Some(thread) => push_named_holder(out, thread),
        None => Ok(()),
    }
}

// Appends that the end of a thread is waited for.
fn push_join(out: &mut Vec<u8>, thread: u32) -> Result<(), OutOfMemory>
    ensures { OnOk result (out.new.items ≡ out.old.items ++ join_text thread) }
{
    out.extend_from_slice(b" waits for the end of thread ")?;
    push_number(out, u64::from(thread))
}

// Appends that a lock is waited for.
fn push_lock(out: &mut Vec<u8>, lock: u32, holder: Option<u32>) -> Result<(), OutOfMemory>
    ensures { OnOk result (out.new.items ≡ out.old.items ++ lock_text lock holder) }
{
    out.extend_from_slice(b" waits for lock ")?;
    push_number(out, u64::from(lock))?;
    push_holder(out, holder)
}

// Appends whether a thread can go on, and what it waits for otherwise.
fn push_status(
    out: &mut Vec<u8>,
    holder: Option<u32>,
    status: Option<Status>,
) -> Result<(), OutOfMemory>
    ensures { OnOk result (out.new.items ≡ out.old.items ++ status_text holder status) }
{
    match status {
        None => Ok(()),
        Some(Status::Enabled) => out.extend_from_slice(b" can go on"),
        Some(Status::OnJoin(thread)) => push_join(out, thread),
        Some(Status::OnLock(lock)) => push_lock(out, lock, holder),
        Some(Status::Ended) => out.extend_from_slice(b" ended"),
    }
}

// Appends the next statement of a thread, by the text of where it stands.
fn push_place(out: &mut Vec<u8>, place: &[u8]) -> Result<(), OutOfMemory>
    ensures { OnOk result (out.new.items ≡ out.old.items ++ place_text place.now) }
{
    if place.is_empty() {
        return Ok(());
    }
    out.extend_from_slice(b"; its next step is ")?;
    out.extend_from_slice(place)?;
    Ok(())
}

// The same, if there is a text.
fn push_at(out: &mut Vec<u8>, position: Option<&Position>) -> Result<(), OutOfMemory>
    ensures { OnOk result (out.new.items ≡ out.old.items ++ at_text (option_copied position.entry)) }
{
    match position {
        Some(position) => push_place(out, position.text.as_slice()),
        None => Ok(()),
    }
}

// Where a thread stands.
fn stand_at(position: Option<&Position>) -> Option<Stand>
    ensures { result ≡ stand_at (option_copied position.entry) }
{
    match position {
        Some(position) => position.stand,
        None => None,
    }
}

// Appends the line of a thread: whether it can go on, and its next statement.
fn push_head(
    out: &mut Vec<u8>,
    thread: usize,
    position: Option<&Position>,
    prospect: &Prospect,
) -> Result<(), OutOfMemory>
    ensures { OnOk result (out.new.items
        ≡ out.old.items ++ head_text thread (option_copied position.entry) prospect.now) }
{
    out.extend_from_slice(b"thread ")?;
    push_number(out, thread as u64)?;
    push_status(out, prospect.holder, prospect.status)?;
    push_at(out, position)?;
    out.push(b'\n')?;
    Ok(())
}

// Appends what the next step of a thread asks for, which stands here. A thread that it starts has this number.
fn push_asked(
    alloc: Global,
    out: &mut Vec<u8>,
    p: &Program,
    new: u32,
    here: Option<Stand>,
    wants: &[Want],
) -> Result<(), OutOfMemory>
    ensures { OnOk result (out.new.items ≡ out.old.items ++ asked_text p.now new here wants.now) }
{
    let names = coming_names(alloc, p, new, here)?;
    push_wants(out, p, here, names.as_slice(), wants)
}

// Appends the lines of a thread. A thread that it starts has this number.
fn push_thread(
    alloc: Global,
    out: &mut Vec<u8>,
    p: &Program,
    new: u32,
    thread: usize,
    position: Option<&Position>,
    prospect: &Prospect,
) -> Result<(), OutOfMemory>
    ensures { OnOk result (out.new.items
        ≡ out.old.items ++ thread_text p.now new thread (option_copied position.entry) prospect.now) }
{
    push_head(out, thread, position, prospect)?;
    push_asked(
        alloc,
        out,
        p,
        new,
        stand_at(position),
        prospect.wants.as_slice(),
    )?;
    push_limit(out, prospect.limit)
}

// Appends the lines of the thread of a number, if there is one. A thread that it starts has the number `new`.
fn push_told(
    alloc: Global,
    out: &mut Vec<u8>,
    p: &Program,
    new: u32,
    thread: usize,
    positions: &[Position],
    prospects: &[Prospect],
) -> Result<(), OutOfMemory>
    ensures { OnOk result (out.new.items ≡ out.old.items
        ++ told_text p.now new thread (slice_get positions.now thread) (slice_get prospects.now thread)) }
{
    match prospects.get(thread) {
        Some(prospect) => push_thread(alloc, out, p, new, thread, positions.get(thread), prospect),
        None => Ok(()),
    }
}

// Appends the lines of all threads. A thread that one of them starts has this number.
fn push_each(
    alloc: Global,
    out: &mut Vec<u8>,
    p: &Program,
    new: u32,
    positions: &[Position],
    prospects: &[Prospect],
) -> Result<(), OutOfMemory>
    ensures { OnOk result (out.new.items ≡ out.old.items ++ each_text p.now new positions.now prospects.now) }
{
    for thread in 0..prospects.len() {
        push_told(alloc, out, p, new, thread, positions, prospects)?;
    }
    Ok(())
}

// The number that a new thread gets where there are so many.
fn new_thread(count: usize) -> u32
    ensures { result ≡ new_thread count }
{
    if count < 1 << 32 {
        count as u32
    } else {
        u32::MAX
    }
}

/// Appends what each thread would do next, and what it waits for; each has the position of its number. An `Err` is for want
/// of memory.
pub fn push_prospects(
    alloc: Global,
    out: &mut Vec<u8>,
    p: &Program,
    positions: &[Position],
    prospects: &[Prospect],
) -> Result<(), OutOfMemory>
    ensures { OnOk result (out.new.items ≡ out.old.items ++ threads_text p.now positions.now prospects.now) }
{
    let new = new_thread(prospects.len());
    push_each(alloc, out, p, new, positions, prospects)
}

// The first picks of an entry, which are told.
fn first_picks(picks: &[u64]) -> &[u64]
    ensures { result.now ≡ take 16 picks.now }
{
    if picks.len() <= 16 {
        picks
    } else {
        &picks[..16]
    }
}

// Appends how many picks there are, where they aren't all told.
fn push_count_of_picks(out: &mut Vec<u8>, picks: &[u64]) -> Result<(), OutOfMemory>
    ensures { OnOk result (out.new.items ≡ out.old.items ++ count_of_picks picks.now) }
{
    if picks.len() <= 16 {
        return Ok(());
    }
    out.extend_from_slice(b" .. of ")?;
    push_number(out, picks.len() as u64)
}

// Appends picks of an entry.
fn push_some_picks(out: &mut Vec<u8>, picks: &[u64]) -> Result<(), OutOfMemory>
    ensures { OnOk result (out.new.items ≡ out.old.items ++ picks_line picks.now) }
{
    out.extend_from_slice(b"        picks")?;
    push_numbers(out, first_picks(picks))?;
    push_count_of_picks(out, picks)?;
    out.push(b'\n')?;
    Ok(())
}

// Appends the picks of an entry.
fn push_picks(out: &mut Vec<u8>, picks: &[u64]) -> Result<(), OutOfMemory>
    ensures { OnOk result (out.new.items ≡ out.old.items ++ picks_text picks.now) }
{
    if picks.is_empty() {
        out.extend_from_slice(b"        no pick\n")
    } else {
        push_some_picks(out, picks)
    }
}

// Appends an allocation whose range is used again.
fn push_earlier_line(out: &mut Vec<u8>, id: AllocId) -> Result<(), OutOfMemory>
    ensures { OnOk result (out.new.items ≡ out.old.items ++ earlier_line id) }
{
    out.extend_from_slice(b"        the bytes were those of allocation ")?;
    push_number(out, id.count)?;
    out.extend_from_slice(b" of thread ")?;
    push_number(out, u64::from(id.thread))?;
    out.push(b'\n')?;
    Ok(())
}

// The same, if there is one.
fn push_earlier(out: &mut Vec<u8>, earlier: Option<AllocId>) -> Result<(), OutOfMemory>
    ensures { OnOk result (out.new.items ≡ out.old.items ++ earlier_text earlier) }
{
    match earlier {
        Some(id) => push_earlier_line(out, id),
        None => Ok(()),
    }
}

// Appends the number and the thread of an entry.
fn push_entry(out: &mut Vec<u8>, number: u32, thread: u32) -> Result<(), OutOfMemory>
    ensures { OnOk result (out.new.items ≡ out.old.items ++ entry_text number thread) }
{
    out.extend_from_slice(b"entry ")?;
    push_number(out, u64::from(number))?;
    out.extend_from_slice(b" of thread ")?;
    push_number(out, u64::from(thread))
}

// Appends a rule by its code and name, and in this sentence.
fn push_code(out: &mut Vec<u8>, sentence: &str, code: u8) -> Result<(), OutOfMemory>
    ensures { OnOk result (out.new.items ≡ out.old.items ++ code_text sentence.now code) }
{
    push_number(out, u64::from(code))?;
    out.push(b' ')?;
    out.extend_from_slice(rule_name(code).as_bytes())?;
    out.extend_from_slice(b": ")?;
    out.extend_from_slice(sentence.as_bytes())?;
    Ok(())
}

// Appends which entry breaks which rule, which this sentence says.
fn push_rule(
    out: &mut Vec<u8>,
    sentence: &str,
    entry: &Entry,
    broken: &Broken,
) -> Result<(), OutOfMemory>
    ensures { OnOk result (out.new.items ≡ out.old.items ++ rule_text sentence.now entry.now broken.now) }
{
    push_entry(out, broken.place.saturating_sub(2), entry.thread)?;
    out.extend_from_slice(b" breaks ")?;
    push_code(out, sentence, broken.code)?;
    out.push(b'\n')?;
    Ok(())
}

// Appends a pick by which an entry breaks a rule.
fn push_pick_line(out: &mut Vec<u8>, pick: u64) -> Result<(), OutOfMemory>
    ensures { OnOk result (out.new.items ≡ out.old.items ++ pick_line pick) }
{
    out.extend_from_slice(b"        by the pick ")?;
    push_number(out, pick)?;
    out.push(b'\n')?;
    Ok(())
}

// The same, if there is one.
fn push_pick(out: &mut Vec<u8>, pick: Option<u64>) -> Result<(), OutOfMemory>
    ensures { OnOk result (out.new.items ≡ out.old.items ++ pick_text pick) }
{
    match pick {
        Some(pick) => push_pick_line(out, pick),
        None => Ok(()),
    }
}

// The same by its position.
fn push_culprit(out: &mut Vec<u8>, picks: &[u64], at: Option<usize>) -> Result<(), OutOfMemory>
    ensures { OnOk result (out.new.items ≡ out.old.items ++ culprit_text picks.now at) }
{
    match at {
        Some(at) => push_pick(out, picks.get(at).copied()),
        None => Ok(()),
    }
}

/// Appends which entry breaks a rule: the rule by its code and name and in this sentence, the entry's picks, and the one
/// by which it does. An `Err` is for want of memory.
pub fn push_broken(
    out: &mut Vec<u8>,
    sentence: &str,
    entry: &Entry,
    broken: &Broken,
) -> Result<(), OutOfMemory>
    ensures { OnOk result (out.new.items ≡ out.old.items ++ broken_text sentence.now entry.now broken.now) }
{
    push_rule(out, sentence, entry, broken)?;
    push_picks(out, entry.picks.as_slice())?;
    push_culprit(out, entry.picks.as_slice(), broken.culprit)?;
    push_earlier(out, broken.earlier)
}
