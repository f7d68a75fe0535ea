//! A table of the bytes that a type uses, with a number for each byte: 0 where no part of it that was looked at uses it.
ghost use Rattle.std.specs.Prelude.{◌≡◌, ◌<◌, ◌≤◌, ◌+◌, ◌-◌, ◌*◌, ◌%◌, ◌^◌, ℕ, true, length, max, min, nat_lt, slice_index, replicate, if◌then◌else◌, IfOk, IfSome};
ghost use Rattle.mr_ast.specs.Integers.{int_size};
ghost use Rattle.mr_layout.specs.Marks.{is_mark};
ghost use Rattle.mr_layout.specs.Used.{is_in_part, is_in_chunk, is_in_tag};
ghost use Rattle.mr_layout.specs.Tables.{Marks, is_first, is_row_mark, are_tags_inside, is_some_mark, is_some_tag_mark};

use crate::alike::Room;
use crate::marks::first;
use crate::rules::passes;
use crate::sizes::int_bytes;
use mr_ast::{MAX_SIZE, OutOfMemory, Tag, Variant};
use std::alloc::Global;

// A shorter row is put into a table many times at once: more bytes at once are faster. It is made so wide in two steps.
const WIDE: usize = 4096;

const HALFWAY: usize = 64;

// Of so few bytes a row is put into a table as it is.
const FEW: u64 = 256;

/// Where a part begins whose bytes aren't to be marked: behind each table.
pub(crate) const NOWHERE: u64 = 0xffff_ffff_ffff_ffff;

/// Where memory may be taken from, if it may; and tables that were taken and are needed no longer. To give a table back and
/// to take it again costs more than what is marked in it.
#[derive(Drop)]
pub(crate) struct Store {
    pub(crate) room: Room,
    spare: Option<Vec<Vec<u8>>>,
}

impl Store {
    pub(crate) fn new(room: Room) -> Store {
        match room {
            Some(alloc) => Store {
                room,
                spare: Some(Vec::new(alloc)),
            },
            None => Store { room, spare: None },
        }
    }

    // A table that is needed no longer, if there is one.
    fn spared(&mut self) -> Option<Vec<u8>> {
        match &mut self.spare {
            Some(spare) => spare.pop(),
            None => None,
        }
    }

    /// A table of so many bytes without a mark, where memory is at hand for it.
    pub(crate) fn blank(&mut self, len: u64) -> Option<Vec<u8>>
        ensures { IfSome result (λ table. table.items ≡ replicate len 0) }
    {
        match self.room {
            Some(alloc) => cleared(alloc, self.spared(), len),
            None => None,
        }
    }

    /// Keeps a table for later.
    pub(crate) fn keep(&mut self, table: Vec<u8>) {
        match &mut self.spare {
            Some(spare) => {
                let _kept = spare.push(table);
            }
            None => drop(table),
        }
    }
}

// A table of so many bytes without a mark, in the place of another one, if there is one.
fn cleared(alloc: Global, other: Option<Vec<u8>>, len: u64) -> Option<Vec<u8>>
    ensures { IfSome result (λ table. table.items ≡ replicate len 0) }
{
    let mut table = match other {
        Some(other) => other,
        None => Vec::new(alloc),
    };
    table.clear();
    match table.resize(len as usize, 0) {
        Ok(_) => Some(table),
        Err(_) => None,
    }
}

// Puts a number into each byte of a range, as far as the table goes.
fn put(table: &mut [u8], start: u64, len: u64, value: u8)
    ensures long { length table.new ≡ length table.old }
    ensures before { (k : ℕ) → k < start → slice_index table.new k ≡ slice_index table.old k }
    ensures inside { (k : ℕ) → start ≤ k → k < start + len → k < length table.old
        → slice_index table.new k ≡ value }
    ensures after { (k : ℕ) → start + len ≤ k → slice_index table.new k ≡ slice_index table.old k }
{
    let stop = start.saturating_add(len).min(table.len() as u64);
    for k in start as usize..stop as usize {
        table[k] = value;
    }
}

/// Marks the first bytes of a part.
pub(crate) fn mark_first(table: &mut [u8], start: u64, len: u64)
    ensures { Marks (is_first len) start table.old table.new }
{
    put(table, start, len, 1);
}

/// Marks the bytes of chunks.
pub(crate) fn mark_chunks(table: &mut [u8], start: u64, chunks: &[(u64, u64)])
    requires { length table.old ≤ 2 ^ 20 }
    ensures { Marks (is_in_chunk chunks.now) start table.old table.new }
{
    for chunk in chunks {
        mark_first(table, start.saturating_add(chunk.0), chunk.1);
    }
}

/// Puts a number into each byte of some tags.
pub(crate) fn put_tags(table: &mut [u8], start: u64, tags: &[Tag], value: u8)
    requires { length table.old ≤ 2 ^ 20 }
    ensures long { length table.new ≡ length table.old }
    ensures values { (k : ℕ) → k < length table.old → slice_index table.new k
        ≡ (if is_in_part start (is_in_tag tags.now) k then value else slice_index table.old k) }
{
    for tag in tags {
        put(
            table,
            start.saturating_add(tag.at),
            int_bytes(tag.int),
            value,
        );
    }
}

/// Whether each tag ends inside a table of so many bytes.
pub(crate) fn are_tags_inside(start: u64, end: u64, tags: &[Tag]) -> bool
    ensures { result ≡ are_tags_inside start end tags.now }
{
    for tag in tags {
        if tag_passes(start, tag, end) {
            return false;
        }
    }
    true
}

fn tag_passes(start: u64, tag: &Tag, end: u64) -> bool
    ensures { result ≡ nat_lt end ((start + tag.now.at) + int_size tag.now.int) }
{
    match start.checked_add(tag.at) {
        Some(at) => passes(at, int_bytes(tag.int), end),
        None => true,
    }
}

fn is_some_mark(table: &[u8], start: u64, len: u64) -> bool
    requires { start + len ≤ length table.now }
    ensures { result ≡ is_some_mark table.now start len }
{
    let mut i = len;
    while i > 0 {
        i -= 1;
        if table[(start + i) as usize] > 0 {
            return true;
        }
    }
    false
}

/// Whether a byte of one of some tags is marked.
pub(crate) fn is_some_tag_mark(table: &[u8], start: u64, tags: &[Tag]) -> bool
    requires { are_tags_inside start (length table.now) tags.now ≡ true }
    ensures { result ≡ is_some_tag_mark table.now start tags.now }
{
    for tag in tags {
        if is_some_mark(table, start + tag.at, int_bytes(tag.int)) {
            return true;
        }
    }
    false
}

// Marks the bytes that are marked in another table, which begins at an offset.
fn mark(table: &mut [u8], at: usize, other: &[u8])
    requires { at + length other.now ≤ length table.old }
    ensures long { length table.new ≡ length table.old }
    ensures before { (k : ℕ) → k < at → slice_index table.new k ≡ slice_index table.old k }
    ensures inside { (k : ℕ) → at ≤ k → k < at + length other.now → slice_index table.new k
        ≡ max (slice_index table.old k) (slice_index other.now (k - at)) }
    ensures after { (k : ℕ) → at + length other.now ≤ k
        → slice_index table.new k ≡ slice_index table.old k }
{
    for k in at..at + other.len() {
        table[k] = table[k].max(other[k - at]);
    }
}

/// Marks the bytes that are marked in another table, which begins at an offset, as far as the table goes.
pub(crate) fn mark_over(table: &mut [u8], start: u64, other: &[u8])
    ensures { Marks (is_mark other.now) start table.old table.new }
{
    let bytes = table.len() as u64;
    if bytes <= start {
        return;
    }
    mark(table, start as usize, first(other, bytes - start));
}

// Marks the bytes that are marked in a row, over and over to an end.
fn mark_rows(table: &mut [u8], start: u64, row: &[u8], bytes: u64)
    requires some { 0 < length row.now }
    requires inside { start + bytes ≤ length table.old }
    requires small { length table.old ≤ 2 ^ 20 }
    requires short { length row.now ≤ 2 ^ 21 }
    ensures { Marks (is_row_mark row.now bytes) start table.old table.new }
{
    let mut done: u64 = 0;
    while done < bytes {
        mark(table, (start + done) as usize, first(row, bytes - done));
        done += row.len() as u64;
    }
}

// A row, over and over, until it has so many bytes.
fn repeated(alloc: Global, row: &[u8], least: usize) -> Result<Vec<u8>, OutOfMemory>
    requires some { 0 < length row.now }
    requires short { length row.now ≤ 2 ^ 20 }
    requires few { least ≤ 2 ^ 12 }
    ensures some { IfOk result (λ wide. 0 < length wide.items) }
    ensures short { IfOk result (λ wide. length wide.items ≤ least + length row.now) }
    ensures whole { IfOk result (λ wide. length wide.items % length row.now ≡ 0) }
    ensures same { IfOk result (λ wide. (k : ℕ) → k < length wide.items
        → slice_index wide.items k ≡ slice_index row.now (k % length row.now)) }
{
    let mut wide = Vec::from_slice(alloc, row)?;
    while wide.len() < least {
        wide.extend_from_slice(row)?;
    }
    Ok(wide)
}

// A row, over and over, until it is wide.
fn widened(alloc: Global, row: &[u8]) -> Result<Vec<u8>, OutOfMemory>
    requires some { 0 < length row.now }
    requires short { length row.now ≤ 2 ^ 12 }
    ensures some { IfOk result (λ wide. 0 < length wide.items) }
    ensures short { IfOk result (λ wide. length wide.items ≤ 2 ^ 21) }
    ensures whole { IfOk result (λ wide. length wide.items % length row.now ≡ 0) }
    ensures same { IfOk result (λ wide. (k : ℕ) → k < length wide.items
        → slice_index wide.items k ≡ slice_index row.now (k % length row.now)) }
{
    let halfway = repeated(alloc, row, HALFWAY)?;
    repeated(alloc, halfway.as_slice(), WIDE)
}

// How many bytes so many rows have, as far as a table goes.
fn row_bytes(count: u64, len: u64, left: u64) -> u64
    ensures { result ≡ min (count * len) left }
{
    count.saturating_mul(len).min(left)
}

// Whether each byte of a row is marked.
fn is_full(row: &[u8]) -> bool
    ensures { result ≡ true → (k : ℕ) → k < length row.now → 0 < slice_index row.now k }
{
    let mut least: u8 = 1;
    for byte in row {
        least = least.min(*byte);
    }
    least > 0
}

/// Marks the bytes that are marked in so many rows, one after another, as far as the table goes. It isn't done where
/// memory is wanting.
pub(crate) fn mark_row(room: Room, table: &mut [u8], start: u64, row: &[u8], count: u64) -> bool
    requires some { 0 < length row.now }
    requires short { length row.now ≤ 2 ^ 20 }
    requires inside { start ≤ length table.old }
    requires small { length table.old ≤ 2 ^ 20 }
    ensures long { length table.new ≡ length table.old }
    ensures marks { result ≡ true
        → Marks (is_row_mark row.now (count * length row.now)) start table.old table.new }
{
    let bytes = row_bytes(count, row.len() as u64, table.len() as u64 - start);
    if WIDE <= row.len() || bytes <= FEW {
        mark_rows(table, start, row, bytes);
        return true;
    }
    if is_full(row) {
        mark_first(table, start, bytes);
        return true;
    }
    let Some(alloc) = room else {
        return false;
    };
    match widened(alloc, row) {
        Ok(wide) => {
            mark_rows(table, start, wide.as_slice(), bytes);
            true
        }
        Err(_) => false,
    }
}

fn has_tags(variants: &[Variant]) -> bool {
    for variant in variants {
        if !variant.tags.is_empty() {
            return true;
        }
    }
    false
}

/// A table of an enum's own: where a variant has tags and the table at hand, which has so many bytes, ends before the enum
/// does.
pub(crate) fn own_table(
    store: &mut Store,
    size: u64,
    variants: &[Variant],
    start: u64,
    end: u64,
) -> Option<Vec<u8>>
    requires { end ≤ 2 ^ 20 }
    ensures blank { IfSome result (λ own. own.items ≡ replicate size 0) }
    ensures small { IfSome result (λ own. size ≤ 2 ^ 20) }
    ensures past { IfSome result (λ own. end < start + size) }
{
    if size > MAX_SIZE || !passes(start, size, end) || !has_tags(variants) {
        return None;
    }
    store.blank(size)
}
