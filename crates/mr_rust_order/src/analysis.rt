//! The races of a run by Rust's order, a step at a time.

ghost use Rattle.std.specs.Prelude.{◌≡◌, ◌<◌, OnOk, length};
ghost use Rattle.mr_event.specs.Order.{step_at};
ghost use Rattle.mr_rust_order.specs.Channels.{AreChannels, IsThreadClock, to_joiners, to_lock};
ghost use Rattle.mr_rust_order.specs.Clocks.{IsClockBefore, IsRaised};
ghost use Rattle.mr_rust_order.specs.Marks.{AreMarked};
ghost use Rattle.mr_rust_order.specs.Memos.{AreMemos};
ghost use Rattle.mr_rust_order.specs.Rows.{AreRows};

use crate::channels::{
    put_back, receive, receive_event, send_ended, send_lock, send_threads, take_out,
};
use crate::clock::Clock;
use crate::index::Index;
use crate::loads::read_all;
use crate::memos::{MEMOS, Memo, no_memos};
use crate::partners::partner_of;
use crate::rows::{Row, note_all};
use mr_event::{Footprint, OutOfMemory, thread_at};
use std::alloc::Global;
use std::collections::BTreeSet;

// The step at a place.
#[tactic(auto, using(mr_event::proofs::Read::step_read))]
fn step_of(run: &[Footprint], j: usize) -> &Footprint
    requires { j < length run.now }
    ensures { result.now ≡ step_at run.now j }
{
    &run[j]
}

// Raises the clock of a step's thread to the clock before the step, by what is known of those before it.
fn receive_all(
    run: &[Footprint],
    j: usize,
    locks: &[Clock],
    ended: &[Clock],
    index: &Index,
    rows: &[Row],
    memos: &mut Vec<Memo>,
    clock: &mut Clock,
) -> Result<(), OutOfMemory>
    requires within { j < length run.now }
    requires own { IsThreadClock run.now j clock.old }
    requires locks { AreChannels run.now j to_lock locks.now }
    requires ended { AreChannels run.now j to_joiners ended.now }
    requires rows { AreRows run.now j rows.now }
    requires marked { AreMarked index.now.shelves.items index.now.marks.keys rows.now }
    requires memos { AreMemos rows.now memos.old.items }
    ensures memos { OnOk result (AreMemos rows.now memos.new.items) }
    ensures before { OnOk result (IsClockBefore run.now clock.new j) }
    ensures raised { OnOk result (IsRaised clock.old clock.new) }
{
    let step = step_of(run, j);
    receive_event(step.event(), locks, ended, clock)?;
    read_all(index, rows, step, memos, clock)
}

/// What is known of the steps of a run so far: the clocks that they sent, and their rows.
#[derive(Drop)]
pub struct Analysis {
    alloc: Global,
    threads: Vec<Clock>,
    locks: Vec<Clock>,
    ended: Vec<Clock>,
    index: Index,
    rows: Vec<Row>,
    memos: Vec<Memo>,
}

impl Analysis {
    ghost use Rattle.std.specs.Prelude.{◌+◌, ◌<◌, ◌↔◌, IfOk, IsTrue, MatchOption, OnOk, List, length};
    ghost use Rattle.mr_event.specs.Footprint.{Footprint};
    ghost use Rattle.mr_rust_order.specs.Order.{HappensBefore, HasNoRace, IsGreatestRace};
    ghost use Rattle.mr_rust_order.specs.Tracked.{Tracks};

    /// The analysis of no step.
    pub fn new(alloc: Global) -> Result<Analysis, OutOfMemory>
        ensures { IfOk result (λ a. (run : List Footprint) → Tracks run 0 a) }
    {
        let places = vec![in alloc; 0; MEMOS]?;
        let memos = no_memos(alloc)?;
        Ok(Analysis {
            alloc,
            threads: Vec::new(alloc),
            locks: Vec::new(alloc),
            ended: Vec::new(alloc),
            index: Index {
                shelves: Vec::new(alloc),
                marks: BTreeSet::new(alloc),
                places,
                alone: Vec::new(alloc),
            },
            rows: Vec::new(alloc),
            memos,
        })
    }

    /// Adds step `j` of a run, all of whose earlier steps are known, and gives the greatest earlier step that has a
    /// race with it. After an `Err` it is to be let go.
    pub fn add(&mut self, run: &[Footprint], j: usize) -> Result<Option<usize>, OutOfMemory>
        requires within { j < length run.now }
        requires tracks { Tracks run.now j self.old }
        ensures race { IfOk result (λ o. MatchOption o (HasNoRace run.now j) (λ i. IsGreatestRace run.now i j)) }
        ensures tracks { OnOk result (Tracks run.now (j + 1) self.new) }
    {
        let alloc = self.alloc;
        let step = step_of(run, j);
        let thread = step.thread();
        let mut clock = take_out(alloc, &mut self.threads, thread)?;
        receive_all(
            run,
            j,
            self.locks.as_slice(),
            self.ended.as_slice(),
            &self.index,
            self.rows.as_slice(),
            &mut self.memos,
            &mut clock,
        )?;
        let race = partner_of(
            &self.index,
            self.rows.as_slice(),
            step,
            &clock,
            &mut self.memos,
        )?;
        clock.raise(thread, j + 1)?;
        send_threads(alloc, &mut self.threads, step, &clock)?;
        send_lock(alloc, &mut self.locks, step, &clock)?;
        send_ended(alloc, &mut self.ended, step, &clock)?;
        note_all(alloc, &mut self.index, &mut self.rows, step, j, &clock)?;
        put_back(alloc, &mut self.threads, thread, clock)?;
        Ok(race)
    }

    /// Whether step `i` happens before step `j`, all of whose earlier steps are known.
    pub fn orders(&self, run: &[Footprint], i: usize, j: usize) -> Result<bool, OutOfMemory>
        requires first { i < length run.now }
        requires second { j < length run.now }
        requires tracks { Tracks run.now j self.now }
        ensures { IfOk result (λ b. IsTrue b ↔ HappensBefore run.now i j) }
    {
        let mut clock = Clock::new(self.alloc);
        receive(self.threads.as_slice(), thread_at(run, j), &mut clock)?;
        let mut memos = no_memos(self.alloc)?;
        receive_all(
            run,
            j,
            self.locks.as_slice(),
            self.ended.as_slice(),
            &self.index,
            self.rows.as_slice(),
            &mut memos,
            &mut clock,
        )?;
        Ok(i < clock.at(thread_at(run, i)))
    }
}
