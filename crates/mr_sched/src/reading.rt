//! Reading the text of a schedule.
ghost use Rattle.std.specs.Prelude.{◌≡◌, ℕ, ◌^◌, ◌<◌, ◌≤◌, List, [], ◌∷◌, ◌++◌, length, replicate, IfSome, IfOk, option_copied, SomeIff, position, ◌==◌, ◌+◌, ◌*◌, ◌↔◌, IsTrue, slice_index};
ghost use Rattle.std.specs.Char.{digit_value};
ghost use Rattle.std.specs.Str.Parse.{AllDigits, digits_value};
ghost use Rattle.mr_sched.specs.Limits.{max_entries};
ghost use Rattle.mr_sched.specs.declared.schedule.Entry.{Entry};
ghost use Rattle.mr_sched.specs.declared.schedule.Schedule.{Schedule};
ghost use Rattle.mr_sched.specs.declared.version.Read.{Read};
ghost use Rattle.mr_sched.specs.declared.version.Version.{Version};
ghost use Rattle.mr_sched.specs.Faults.{FirstFault};
ghost use Rattle.mr_sched.specs.Reading.{Gives, at_line, body_of, count_of, entries_from, entry_of, group_of, line_then, lines_schedule, number_of, parts_at, picks_of, repeated_of, schedule_of, single, starred_of, start_of, parts_after, version_of};
ghost use Rattle.mr_sched.specs.Versions.{Schedules};

use crate::fault::{BAD_HEADER, BAD_LINE, SchedFault, TOO_LONG};
use crate::schedule::{Entry, Items, MAX_BYTES, MAX_ENTRIES, Schedule};
use crate::version::{Group, Read, Version, joins};
use std::alloc::Global;

/// The schedule that a text spells and the version it is written in, or the first fault of the text.
pub fn read_version(alloc: Global, text: &[u8]) -> Result<Read, SchedFault>
    // What the text gives, computed.
    ensures exact { Gives result (schedule_of text.now) }

    // What is read is spelled so, and what is spelled so is read.
    ensures spelled { IfOk result (λ r. Schedules text.now r.version r.schedule) }
    ensures only { (v : Version) (w : Schedule) → Schedules text.now v w →
        Gives {A = Read} result (Ok (record { schedule = w; version = v })) }

    // The fault is the first, and a text with a fault has that answer.
    ensures first { (line code : ℕ) →
        (result ≡ Err (SchedFault.Bad line code) → FirstFault text.now line code)
        × (FirstFault text.now line code
        → Gives {A = Read} result (Err (record { line = line; code = code }))) }
{
    read_text(alloc, text)
}

#[tactic(auto, unfolding(crate::specs::Reading::schedule_of))]
fn read_text(alloc: Global, text: &[u8]) -> Result<Read, SchedFault>
    ensures { Gives result (schedule_of text.now) }
{
    if text.len() > MAX_BYTES {
        return Err(too_long(1));
    }
    read_lines(alloc, text)
}

// The schedule of the lines of a text.
#[tactic(auto, unfolding(crate::specs::Reading::lines_schedule))]
fn read_lines(alloc: Global, text: &[u8]) -> Result<Read, SchedFault>
    ensures { Gives result (lines_schedule (parts_at 10 text.now)) }
{
    let (line, rest) = cut(text, b'\n');
    let Some(rest) = rest else {
        return Err(bad_header());
    };
    let Some(v) = version_of(line) else {
        return Err(bad_header());
    };
    read_body(alloc, v, rest)
}

// The version that the first line names.
fn version_of(line: &[u8]) -> Option<Version>
    ensures { result ≡ version_of line.now }
{
    if line == b"schedule 1".as_slice() {
        return Some(Version::One);
    }
    if line == b"schedule 2".as_slice() {
        return Some(Version::Two);
    }
    None
}

// The schedule of the lines from line 2 on.
#[tactic(auto, unfolding(crate::specs::Reading::body_of))]
fn read_body(alloc: Global, v: Version, text: &[u8]) -> Result<Read, SchedFault>
    ensures { Gives result (body_of v (parts_at 10 text.now)) }
{
    let (line, rest) = cut(text, b'\n');
    let Some(rest) = rest else {
        return Err(bad_line(2));
    };
    let start = read_start(alloc, line)?;
    let entries = read_entries(alloc, v, rest)?;
    Ok(Read {
        schedule: Schedule { start, entries },
        version: v,
    })
}

// The start picks of line 2.
#[tactic(auto, unfolding(crate::specs::Reading::start_of))]
fn read_start(alloc: Global, text: &[u8]) -> Result<Items<u64>, SchedFault>
    ensures { Gives result (at_line 2 (start_of (parts_at 32 text.now))) }
{
    let (word, words) = cut(text, b' ');
    if word != b"start".as_slice() {
        return Err(bad_line(2));
    }
    read_picks(alloc, words, 2)
}

// The entries of the lines from line 3 on.
fn read_entries(alloc: Global, v: Version, text: &[u8]) -> Result<Items<Entry>, SchedFault>
    ensures { Gives result (entries_from v [] 3 (parts_at 10 text.now)) }
{
    let mut entries = Items::new(alloc);
    let mut line: u32 = 3;
    let mut rest = text;
    while !rest.is_empty() {
        let (first, after) = cut(rest, b'\n');
        let Some(after) = after else {
            return Err(bad_line(line));
        };
        entries = read_line(alloc, v, first, line, entries)?;
        line += 1;
        rest = after;
    }
    Ok(entries)
}

// The entries so far, and those of a line behind them.
fn read_line(
    alloc: Global,
    v: Version,
    text: &[u8],
    line: u32,
    entries: Items<Entry>,
) -> Result<Items<Entry>, SchedFault>
    requires { length entries ≤ max_entries }
    ensures given { Gives result (line_then v entries line (group_of v text.now)) }
    ensures more { IfOk result (λ es. (length entries + 1 ≤ length es) × (length es ≤ max_entries)) }
{
    let group = read_group(alloc, v, text, line)?;
    if joins(v, entries.as_slice(), &group.entry) {
        return Err(bad_line(line));
    }
    let room = MAX_ENTRIES - entries.len();
    if group.count > room as u64 {
        return Err(too_long(line));
    }
    push_group(alloc, group, entries)
}

// The entries, and those of a line behind them.
fn push_group(
    alloc: Global,
    group: Group,
    entries: Items<Entry>,
) -> Result<Items<Entry>, SchedFault>
    requires some { 1 ≤ group.count }
    requires bare { 1 < group.count → group.entry.picks ≡ [] }
    ensures { Gives {A = List Entry} result (Ok (entries ++ replicate group.count group.entry)) }
{
    let mut entries = entries;
    let thread = group.entry.thread;
    let mut left = group.count;
    while left > 1 {
        entries.push(Entry {
            thread,
            picks: Items::new(alloc),
        })?;
        left -= 1;
    }
    entries.push(group.entry)?;
    Ok(entries)
}

// The entries that a line spells.
#[tactic(auto, using(crate::proofs::GroupLaws::group_digit))]
fn read_group(alloc: Global, v: Version, text: &[u8], line: u32) -> Result<Group, SchedFault>
    ensures { Gives result (at_line line (group_of v text.now)) }
{
    match digit_of(text) {
        Some(thread) => Ok(Group {
            entry: Entry {
                thread,
                picks: Items::new(alloc),
            },
            count: 1,
        }),
        None => read_words(alloc, v, text, line),
    }
}

// The digit that is all of a line, where one is: most lines are the number of a thread below 10, and nothing else.
fn digit_of(text: &[u8]) -> Option<u32>
    ensures { IfSome result (λ n. (n < 10) × (text.now ≡ (48 + n) ∷ [])) }
{
    match text {
        [digit] if digit.is_ascii_digit() => Some(u32::from(*digit - b'0')),
        _ => None,
    }
}

// The same of any line.
#[tactic(auto, unfolding(crate::specs::Reading::group_of))]
fn read_words(alloc: Global, v: Version, text: &[u8], line: u32) -> Result<Group, SchedFault>
    ensures { Gives result (at_line line (group_of v text.now)) }
{
    match v {
        Version::One => read_single(alloc, text, line),
        Version::Two => read_starred(alloc, text, line),
    }
}

fn read_single(alloc: Global, text: &[u8], line: u32) -> Result<Group, SchedFault>
    ensures { Gives result (at_line line (single (entry_of (parts_at 32 text.now)))) }
{
    let entry = read_entry(alloc, text, line)?;
    Ok(Group { entry, count: 1 })
}

fn read_starred(alloc: Global, text: &[u8], line: u32) -> Result<Group, SchedFault>
    ensures { Gives result (at_line line (starred_of text.now (parts_at 42 text.now))) }
{
    let (thread, after) = cut(text, b'*');
    let Some(after) = after else {
        return read_single(alloc, text, line);
    };
    let (count, other) = cut(after, b'*');
    match other {
        None => read_repeated(alloc, thread, count, line),
        Some(_) => Err(bad_line(line)),
    }
}

#[tactic(auto, unfolding(crate::specs::Reading::repeated_of))]
fn read_repeated(alloc: Global, thread: &[u8], count: &[u8], line: u32) -> Result<Group, SchedFault>
    ensures { Gives result (at_line line (repeated_of thread.now count.now)) }
{
    let Some(thread) = read_thread(thread) else {
        return Err(bad_line(line));
    };
    let Some(count) = read_count(count) else {
        return Err(bad_line(line));
    };
    let picks = Items::new(alloc);
    Ok(Group {
        entry: Entry { thread, picks },
        count,
    })
}

#[tactic(auto, unfolding(crate::specs::Reading::count_of))]
fn read_count(word: &[u8]) -> Option<u64>
    ensures { result ≡ count_of word.now }
{
    let count = read_number(word)?;
    if count > 1 { Some(count) } else { None }
}

// The entry that a line spells.
#[tactic(auto, unfolding(crate::specs::Reading::entry_of))]
fn read_entry(alloc: Global, text: &[u8], line: u32) -> Result<Entry, SchedFault>
    ensures { Gives result (at_line line (entry_of (parts_at 32 text.now))) }
{
    let (word, words) = cut(text, b' ');
    let Some(thread) = read_thread(word) else {
        return Err(bad_line(line));
    };
    let picks = read_picks(alloc, words, line)?;
    Ok(Entry { thread, picks })
}

// The picks that the words of a line spell.
fn read_picks(alloc: Global, words: Option<&[u8]>, line: u32) -> Result<Items<u64>, SchedFault>
    ensures { Gives result (at_line line (picks_of (parts_after 32 (option_copied words.entry)))) }
{
    let mut picks = Items::new(alloc);
    let mut rest = words;
    while let Some(text) = rest {
        let (word, after) = cut(text, b' ');
        let Some(pick) = read_number(word) else {
            return Err(bad_line(line));
        };
        picks.push(pick)?;
        rest = after;
    }
    Ok(picks)
}

fn bad_header() -> SchedFault
    ensures { result ≡ SchedFault.Bad 1 BAD_HEADER }
{
    SchedFault::Bad {
        line: 1,
        code: BAD_HEADER,
    }
}

fn too_long(line: u32) -> SchedFault
    ensures { result ≡ SchedFault.Bad line TOO_LONG }
{
    SchedFault::Bad {
        line,
        code: TOO_LONG,
    }
}

fn bad_line(line: u32) -> SchedFault
    ensures { result ≡ SchedFault.Bad line BAD_LINE }
{
    SchedFault::Bad {
        line,
        code: BAD_LINE,
    }
}

fn read_thread(word: &[u8]) -> Option<u32>
    ensures { result ≡ number_of (2 ^ 32) word.now }
{
    u32::try_from(read_number(word)?).ok()
}

// The number that a word spells.
fn read_number(word: &[u8]) -> Option<u64>
    ensures { result ≡ number_of (2 ^ 64) word.now }
{
    if word.is_empty() || has_leading_zero(word) {
        return None;
    }
    read_digits(word)
}

fn has_leading_zero(word: &[u8]) -> bool
    ensures { IsTrue result ↔ ((1 < length word.now) × (slice_index word.now 0 ≡ 48)) }
{
    word.len() > 1 && word[0] == b'0'
}

// The number that digits spell.
fn read_digits(word: &[u8]) -> Option<u64>
    ensures { SomeIff result
        (AllDigits 10 word.now × (digits_value 10 word.now < 2 ^ 64))
        (digits_value 10 word.now) }
{
    let mut number = 0;
    for digit in word {
        number = with_digit(number, *digit)?;
    }
    Some(number)
}

// The number with a digit more at its end.
fn with_digit(number: u64, digit: u8) -> Option<u64>
    ensures { SomeIff result
        ((digit_value digit < 10) × (number * 10 + digit_value digit < 2 ^ 64))
        (number * 10 + digit_value digit) }
{
    if !digit.is_ascii_digit() {
        return None;
    }
    number.checked_mul(10)?.checked_add(u64::from(digit - b'0'))
}

// The part before the first such byte, and what follows that byte, if it is there.
fn cut(text: &[u8], byte: u8) -> (&[u8], Option<&[u8]>)
    ensures parts { parts_at byte text.now ≡ result.0.now ∷ parts_after byte (option_copied result.1) }
    ensures shorter { IfSome result.1 (λ rest. length rest.now < length text.now) }
{
    match position_of(text, byte) {
        None => (text, None),
        Some(at) => (&text[..at], Some(&text[at + 1..])),
    }
}

fn position_of(text: &[u8], byte: u8) -> Option<usize>
    ensures { result ≡ position (λ b. b == byte) text.now }
{
    text.iter().position(|b| *b == byte)
}
