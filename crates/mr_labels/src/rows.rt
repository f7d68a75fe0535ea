//! The allocations of a run.
ghost use Rattle.std.specs.Prelude.{◌≡◌, ◌++◌, IfOk, OnOk, map, slice_get};
ghost use Rattle.std.specs.List.{range_with_len};
ghost use Rattle.mr_labels.specs.Names.{function_name, global_name, start_names};
ghost use Rattle.mr_labels.specs.Table.{asked_size, made_row, made_rows, row_at, row_of, start_id, start_rows};
ghost use Rattle.mr_labels.specs.Table.{step_rows};

use crate::OutOfMemory;
use crate::names::{Name, made_names};
use crate::step::ToldStep;
use mr_ast::Program;
use mr_base::AllocId;
use mr_sched::Ask;
use std::alloc::Global;

/// An allocation of a run: its identity, its first address, how many bytes it has, and its name.
#[derive(Clone, Copy)]
pub struct Allocation {
    pub id: AllocId,
    pub start: u64,
    pub size: u64,
    pub name: Name,
}

// The allocation of a name, an identity, an ask and a pick that go together.
fn row_of(
    name: Option<Name>,
    id: Option<AllocId>,
    ask: Option<Ask>,
    pick: Option<u64>,
) -> Option<Allocation>
    ensures { result ≡ row_of name id ask pick }
{
    let name = name?;
    let id = id?;
    let ask = ask?;
    made_row(name, id, asked_size(ask), pick)
}

// The size for which an address was asked.
fn asked_size(ask: Ask) -> Option<u64>
    ensures { result ≡ asked_size ask }
{
    match ask {
        Ask::Address { size, align: _ } => Some(size),
        Ask::Waiter { lock: _ } => None,
    }
}

// The allocation of a name and an identity with this size and this first address, where both are there.
fn made_row(name: Name, id: AllocId, size: Option<u64>, start: Option<u64>) -> Option<Allocation>
    ensures { result ≡ made_row name id size start }
{
    let size = size?;
    let start = start?;
    Some(Allocation {
        id,
        start,
        size,
        name,
    })
}

// What goes with the names of what a step or the start makes.
#[derive(Clone, Copy)]
struct Making<'a> {
    names: &'a [Name],
    ids: &'a [AllocId],
    asks: &'a [Ask],
    picks: &'a [u64],
}

fn name_at(names: &[Name], at: usize) -> Option<Name>
    ensures { result ≡ slice_get names.now at }
{
    names.get(at).copied()
}

fn id_at(ids: &[AllocId], at: usize) -> Option<AllocId>
    ensures { result ≡ slice_get ids.now at }
{
    ids.get(at).copied()
}

fn ask_at(asks: &[Ask], at: usize) -> Option<Ask>
    ensures { result ≡ slice_get asks.now at }
{
    asks.get(at).copied()
}

fn pick_at(picks: &[u64], at: usize) -> Option<u64>
    ensures { result ≡ slice_get picks.now at }
{
    picks.get(at).copied()
}

// Appends the allocation of the name of this number, if it has one.
fn push_row(out: &mut Vec<Allocation>, made: &Making<'_>, at: usize) -> Result<(), OutOfMemory>
    ensures { OnOk result (out.new.items
        ≡ out.old.items ++ row_at made.now.names.now made.now.ids.now made.now.asks.now made.now.picks.now at) }
{
    let name = name_at(made.names, at);
    let id = id_at(made.ids, at);
    let ask = ask_at(made.asks, at);
    let pick = pick_at(made.picks, at);
    match row_of(name, id, ask, pick) {
        Some(row) => {
            out.push(row)?;
            Ok(())
        }
        None => Ok(()),
    }
}

// Appends the allocations of these names.
fn push_made(out: &mut Vec<Allocation>, made: &Making<'_>) -> Result<(), OutOfMemory>
    ensures { OnOk result (out.new.items
        ≡ out.old.items ++ made_rows made.now.names.now made.now.ids.now made.now.asks.now made.now.picks.now) }
{
    for at in 0..made.names.len() {
        push_row(out, made, at)?;
    }
    Ok(())
}

// The names of what the start makes, in order.
fn start_names(alloc: Global, p: &Program) -> Result<Vec<Name>, OutOfMemory>
    ensures { IfOk result (λ names. names.items ≡ start_names p.now) }
{
    let mut names = Vec::new(alloc);
    push_functions(&mut names, p.functions.len())?;
    push_globals(&mut names, p.globals.len())?;
    if let Some(main) = p.functions.get(p.start.0 as usize) {
        names.push(Name::Local {
            thread: 0,
            function: p.start.0,
            local: main.ret.0,
        })?;
    }
    Ok(names)
}

fn push_functions(names: &mut Vec<Name>, count: usize) -> Result<(), OutOfMemory>
    ensures { OnOk result (names.new.items ≡ names.old.items ++ map function_name (range_with_len 0 count)) }
{
    for i in 0..count {
        names.push(Name::Function(i))?;
    }
    Ok(())
}

fn push_globals(names: &mut Vec<Name>, count: usize) -> Result<(), OutOfMemory>
    ensures { OnOk result (names.new.items ≡ names.old.items ++ map global_name (range_with_len 0 count)) }
{
    for i in 0..count {
        names.push(Name::Global(i))?;
    }
    Ok(())
}

// Appends the identities of what the start makes: thread 0 makes so many allocations, one after the other.
fn push_ids(ids: &mut Vec<AllocId>, count: usize) -> Result<(), OutOfMemory>
    ensures { OnOk result (ids.new.items ≡ ids.old.items ++ map start_id (range_with_len 0 count)) }
{
    for i in 0..count {
        ids.push(AllocId {
            thread: 0,
            count: i as u64,
        })?;
    }
    Ok(())
}

/// The allocations of the start, which asked for addresses and picked them, in the order in which they are made. An `Err`
/// is for want of memory.
pub fn start_rows(
    alloc: Global,
    p: &Program,
    asks: &[Ask],
    picks: &[u64],
) -> Result<Vec<Allocation>, OutOfMemory>
    ensures { IfOk result (λ rows. rows.items ≡ start_rows p.now asks.now picks.now) }
{
    let names = start_names(alloc, p)?;
    let mut ids = Vec::new(alloc);
    push_ids(&mut ids, names.len())?;
    let made = Making {
        names: names.as_slice(),
        ids: ids.as_slice(),
        asks,
        picks,
    };
    let mut rows = Vec::new(alloc);
    push_made(&mut rows, &made)?;
    Ok(rows)
}

/// Appends the allocations of a step, in the order in which they are made. An `Err` is for want of memory.
pub fn push_rows(
    alloc: Global,
    out: &mut Vec<Allocation>,
    p: &Program,
    told: &ToldStep,
) -> Result<(), OutOfMemory>
    ensures { OnOk result (out.new.items ≡ out.old.items ++ step_rows p.now told.now) }
{
    let names = made_names(alloc, p, told)?;
    let made = Making {
        names: names.as_slice(),
        ids: told.made.as_slice(),
        asks: told.asks.as_slice(),
        picks: told.picks.as_slice(),
    };
    push_made(out, &made)
}
