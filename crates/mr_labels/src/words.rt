//! Numbers and names, as they are written. Want of memory is the only error of each call.
ghost use Rattle.std.specs.Prelude.{◌≡◌, ◌+◌, ◌++◌, OnOk, decimal, slice_get};
ghost use Rattle.mr_ast.specs.Canon.{function_texts, global_texts};
ghost use Rattle.mr_ast.specs.CanonValues.{text_at};
ghost use Rattle.mr_sched.specs.Rules.{name_by_code};
ghost use Rattle.mr_labels.specs.Words.{behind_text, block_word, function_word, is_here, local_word, name_text};
ghost use Rattle.mr_labels.specs.Words.{owner_text};

use crate::OutOfMemory;
use crate::names::Name;
use crate::step::Stand;
use itoa::Buffer;
use mr_ast::{BlockName, FnName, LocalName, Program};
use mr_sched::ScheduleRule;

/// Appends a number in decimal.
pub fn push_number(out: &mut Vec<u8>, number: u64) -> Result<(), OutOfMemory>
    ensures { OnOk result (out.new.items ≡ out.old.items ++ decimal number) }
{
    let mut buffer = Buffer::new();
    out.extend_from_slice(buffer.format(number).as_bytes())
}

/// Appends a number that is counted from 1, of something that is counted from 0.
pub fn push_count(out: &mut Vec<u8>, at: usize) -> Result<(), OutOfMemory>
    ensures { OnOk result (out.new.items ≡ out.old.items ++ decimal (at + 1)) }
{
    let mut buffer = Buffer::new();
    out.extend_from_slice(buffer.format(at as u128 + 1).as_bytes())
}

/// The name of a rule of schedules, by its code.
pub fn rule_name(code: u8) -> &'static str
    ensures { result.now ≡ name_by_code code }
{
    match ScheduleRule::of_code(code) {
        Some(rule) => rule.name(),
        None => "",
    }
}

/// The name of a function.
pub fn function_word(p: &Program, function: u32) -> &str
    ensures { result.now ≡ function_word p.now function }
{
    p.function_name(FnName(function))
}

/// The name of a block of a function.
pub fn block_word(p: &Program, function: u32, block: u32) -> &str
    ensures { result.now ≡ block_word p.now block (slice_get p.now.functions function) }
{
    match p.functions.get(function as usize) {
        Some(function) => p.block_name(function, BlockName(block)),
        None => "",
    }
}

// The name of a local of a function.
fn local_word(p: &Program, function: u32, local: u32) -> &str
    ensures { result.now ≡ local_word p.now local (slice_get p.now.functions function) }
{
    match p.functions.get(function as usize) {
        Some(function) => p.local_name(function, LocalName(local)),
        None => "",
    }
}

// Appends whose local it is: of the function and the thread, where that is another one than the one that stands here.
fn push_owner(
    out: &mut Vec<u8>,
    p: &Program,
    here: Option<Stand>,
    thread: u32,
    function: u32,
) -> Result<(), OutOfMemory>
    ensures { OnOk result (out.new.items ≡ out.old.items ++ owner_text p.now here thread function) }
{
    if is_here(here, thread, function) {
        return Ok(());
    }
    out.extend_from_slice(b" of ")?;
    out.extend_from_slice(function_word(p, function).as_bytes())?;
    out.extend_from_slice(b", thread ")?;
    push_number(out, thread.into())
}

// Whether a thread stands in a function.
fn is_here(here: Option<Stand>, thread: u32, function: u32) -> bool
    ensures { result ≡ is_here here thread function }
{
    match here {
        Some(stand) => stand.thread == thread && stand.function == function,
        None => false,
    }
}

// Appends how many bytes an address lies behind the first one, where it does.
fn push_behind(out: &mut Vec<u8>, offset: u64) -> Result<(), OutOfMemory>
    ensures { OnOk result (out.new.items ≡ out.old.items ++ behind_text offset) }
{
    if offset == 0 {
        return Ok(());
    }
    out.push(b'+')?;
    push_number(out, offset)
}

/// Appends the name of an address in an allocation, so many bytes behind its first one, as it is called where a thread
/// stands.
pub fn push_name(
    out: &mut Vec<u8>,
    p: &Program,
    here: Option<Stand>,
    offset: u64,
    name: Name,
) -> Result<(), OutOfMemory>
    ensures { OnOk result (out.new.items ≡ out.old.items ++ name_text p.now here offset name) }
{
    match name {
        Name::Function(i) => {
            out.extend_from_slice(b"fn ")?;
            out.extend_from_slice(function_text(p, i).as_bytes())?;
            push_behind(out, offset)
        }
        Name::Global(i) => {
            out.extend_from_slice(global_text(p, i).as_bytes())?;
            push_behind(out, offset)
        }
        Name::Local {
            thread,
            function,
            local,
        } => {
            out.extend_from_slice(local_word(p, function, local).as_bytes())?;
            push_behind(out, offset)?;
            push_owner(out, p, here, thread, function)
        }
        Name::Heap(step) => {
            out.extend_from_slice(b"the block")?;
            push_behind(out, offset)?;
            out.extend_from_slice(b" of step ")?;
            push_count(out, step)
        }
    }
}

// The name of the function at a position.
#[tactic(auto, using(mr_ast::proofs::ItemNameLaws::text_missing))]
fn function_text(p: &Program, i: usize) -> &str
    ensures { result.now ≡ text_at (function_texts p.now) i }
{
    match p.functions.get(i) {
        Some(function) => p.names.text_or_empty(function.name),
        None => "",
    }
}

// The name of the global at a position.
#[tactic(auto, using(mr_ast::proofs::ItemNameLaws::text_missing))]
fn global_text(p: &Program, i: usize) -> &str
    ensures { result.now ≡ text_at (global_texts p.now) i }
{
    match p.globals.get(i) {
        Some(global) => p.names.text_or_empty(global.name),
        None => "",
    }
}
