//! The clocks of a run, a step at a time, and the greatest partner of each step.

ghost use Rattle.std.specs.Prelude.{◌≡◌, ℕ, ◌<◌, ◌^◌, ◌↔◌, All, IsTrue, IfOk, false, length, slice_index, slice_index_or, vec_len};
ghost use Rattle.mr_event.specs.Order.{HappensBefore};
ghost use Rattle.mr_clocks.specs.Clocks.{AreClocks, IsClockOf, IsUnder, clock_at};
ghost use Rattle.mr_clocks.specs.Whole.{IsNeeded};

use crate::adding::add_last;
use crate::clock::Clock;
use crate::index::Index;
use crate::memos::Memo;
use crate::rows::{Link, Row};
use crate::skips::Skip;
use crate::wakers::Wakers;
use crate::whole::front_at;
use mr_event::{Footprint, OutOfMemory, thread_at};
use std::alloc::Global;
use std::collections::BTreeSet;
use std::marker::Model;

/// Whether step `i` lies under a clock.
pub(crate) fn is_under(run: &[Footprint], clock: &Clock, i: usize) -> bool
    requires { i < length run.now }
    ensures { IsTrue result ↔ IsUnder run.now clock.now i }
{
    i < clock.at(thread_at(run, i)) as usize
}

// Whether step `i` happens before step `k`, of which this is the clock.
fn is_before(run: &[Footprint], clock: &Clock, i: usize, k: usize) -> bool
    requires first { i < length run.now }
    requires second { k < length run.now }
    requires clock { IsClockOf run.now clock.now k }
    ensures { IsTrue result ↔ HappensBefore run.now i k }
{
    if is_under(run, clock, i) {
        return true;
    }
    i < k && thread_at(run, i) == thread_at(run, k)
}

/// The clock of an earlier step.
pub(crate) fn lent<'a>(clocks: &'a [Clock], numbers: &[u32], k: usize) -> &'a Clock
    requires step { k < length numbers.now }
    requires within { slice_index numbers.now k < length clocks.now }
    ensures { result.now ≡ clock_at clocks.now numbers.now k }
{
    &clocks[numbers[k] as usize]
}

// The clocks of these steps joined, with the steps themselves under it.
fn joined(
    alloc: Global,
    run: &[Footprint],
    clocks: &[Clock],
    numbers: &[u32],
    steps: &[usize],
) -> Result<Clock, OutOfMemory>
    requires few { length run.now < 2 ^ 32 }
    requires clocks { AreClocks run.now (length run.now) clocks.now numbers.now }
    requires steps { All (λ s. s < length run.now) steps.now }
    ensures { IfOk result (λ c. (k : ℕ) → IsUnder run.now c k ↔ IsNeeded run.now steps.now k) }
{
    let mut clock = Clock::new(alloc);
    for x in 0..steps.len() {
        let s = steps[x];
        clock.follow(lent(clocks, numbers, s), thread_at(run, s), s as u32)?;
    }
    Ok(clock)
}

// For each step whether it lies under a clock.
fn marks_under(alloc: Global, run: &[Footprint], clock: &Clock) -> Result<Vec<bool>, OutOfMemory>
    ensures length { IfOk result (λ v. vec_len v ≡ length run.now) }
    ensures each { IfOk result
        (λ v. (k : ℕ) → k < length run.now → IsTrue (slice_index_or v.items k false) ↔ IsUnder run.now clock.now k) }
{
    let mut marks = Vec::new(alloc);
    for k in 0..run.len() {
        marks.push(is_under(run, clock, k))?;
    }
    Ok(marks)
}

/// The clocks of the steps of a run so far, for each thread its latest step and those that woke it, and the rows of the
/// steps.
#[derive(Drop)]
pub struct Analysis {
    alloc: Global,
    clocks: Vec<Clock>,
    numbers: Vec<u32>,
    latest: Clock,
    wakers: Wakers,
    hints: Vec<u32>,
    memos: Vec<Memo>,
    index: Index,
    rows: Vec<Row>,
    links: Vec<Link>,
    skips: Vec<Skip>,
}

impl Model for Analysis {
    ghost use Rattle.mr_clocks.specs.Marks.{AreMarked};
    ghost use Rattle.mr_clocks.specs.Memos.{AreMemos};
    ghost use Rattle.mr_clocks.specs.Tracked.{Seen};

    ghost Value = { Seen };

    ghost view = { λ a. (
      a.clocks.items,
      a.numbers.items,
      a.latest,
      a.rows.items,
      a.links.items,
      a.skips.items,
      a.wakers.heads.items,
      a.wakers.links.items,
    ) };

    // Each row is found by its key, and the memos are not newer than the rows.
    ghost invariant = { λ a. AreMarked a.index.shelves.items a.index.marks.keys a.rows.items
        × AreMemos a.rows.items a.memos.items };
}

impl Analysis {
    ghost use Rattle.std.specs.Prelude.{◌≡◌, ℕ, ◌-◌, ◌<◌, ◌^◌, [], ◌↔◌, All, IsTrue, IfOk, OnOk, OnErr, MatchOption, false, length, slice_index_or, take, vec_len};
    ghost use Rattle.mr_event.specs.Order.{thread_at, HappensBefore, IsGreatestPartner, HasNoPartner};
    ghost use Rattle.mr_clocks.specs.Tracked.{Tracks};
    ghost use Rattle.mr_clocks.specs.Whole.{AreFronts, IsNeeded, IsReady};

    /// The analysis of no step.
    pub fn new(alloc: Global) -> Analysis
        ensures { Tracks result [] }
    {
        Analysis {
            alloc,
            clocks: Vec::new(alloc),
            numbers: Vec::new(alloc),
            latest: Clock::new(alloc),
            wakers: Wakers {
                heads: Vec::new(alloc),
                links: Vec::new(alloc),
            },
            hints: Vec::new(alloc),
            memos: Vec::new(alloc),
            index: Index {
                shelves: Vec::new(alloc),
                marks: BTreeSet::new(alloc),
            },
            rows: Vec::new(alloc),
            links: Vec::new(alloc),
            skips: Vec::new(alloc),
        }
    }

    /// Adds the last step of the run, and gives its greatest partner.
    pub fn add(&mut self, run: &[Footprint]) -> Result<Option<usize>, OutOfMemory>
        requires some { 0 < length run.now }
        requires few { length run.now < 2 ^ 32 }
        requires tracks { Tracks self.old (take (length run.now - 1) run.now) }
        ensures partner { IfOk result (λ o. MatchOption o (HasNoPartner run.now (length run.now - 1))
            (λ i. IsGreatestPartner run.now i (length run.now - 1))) }
        ensures tracks { OnOk result (Tracks self.new run.now) }
        ensures err { OnErr result (self.new ≡ self.old) }
    {
        let j = run.len() - 1;
        let count = self.rows.len();
        let reached = self.wakers.heads.len();
        match add_last(
            self.alloc,
            run,
            &mut self.clocks,
            &mut self.numbers,
            &mut self.latest,
            &mut self.wakers,
            &mut self.hints,
            &mut self.memos,
            &mut self.index,
            &mut self.rows,
            &mut self.links,
            &mut self.skips,
            j,
        ) {
            Ok(partner) => Ok(partner),
            Err(fault) => {
                self.rows.truncate(count);
                self.wakers.heads.truncate(reached);
                self.memos.clear();
                Err(fault)
            }
        }
    }

    /// Whether step `i` of the run happens before step `k`.
    pub fn orders(&self, run: &[Footprint], i: usize, k: usize) -> bool
        requires first { i < length run.now }
        requires second { k < length run.now }
        requires tracks { Tracks self.now run.now }
        ensures { IsTrue result ↔ HappensBefore run.now i k }
    {
        is_before(
            run,
            lent(self.clocks.as_slice(), self.numbers.as_slice(), k),
            i,
            k,
        )
    }

    /// The analysis of a whole run.
    pub fn of_run(alloc: Global, run: &[Footprint]) -> Result<Analysis, OutOfMemory>
        requires { length run.now < 2 ^ 32 }
        ensures { IfOk result (λ a. Tracks a run.now) }
    {
        let mut analysis = Analysis::new(alloc);
        for j in 0..run.len() {
            let _partner = analysis.add(&run[..j + 1])?;
        }
        Ok(analysis)
    }

    /// Whether all that happens before step `k` of the run lies before the fronts of the threads. A front is a step of
    /// its thread, or past the run; a thread without one counts as past the run. It looks at each number of the step's
    /// clock once.
    pub fn is_ready(&self, run: &[Footprint], k: usize, fronts: &[usize]) -> bool
        requires step { k < length run.now }
        requires fronts { AreFronts run.now fronts.now }
        requires tracks { Tracks self.now run.now }
        ensures { IsTrue result ↔ IsReady run.now fronts.now k }
    {
        k <= front_at(run, fronts, k)
            && lent(self.clocks.as_slice(), self.numbers.as_slice(), k).is_within(fronts)
    }

    /// For each step of the run whether it is one of these or happens before one.
    pub fn needed(
        &self,
        alloc: Global,
        run: &[Footprint],
        steps: &[usize],
    ) -> Result<Vec<bool>, OutOfMemory>
        requires few { length run.now < 2 ^ 32 }
        requires steps { All (λ s. s < length run.now) steps.now }
        requires tracks { Tracks self.now run.now }
        ensures length { IfOk result (λ v. vec_len v ≡ length run.now) }
        ensures each { IfOk result (λ v. (k : ℕ) → k < length run.now
            → IsTrue (slice_index_or v.items k false) ↔ IsNeeded run.now steps.now k) }
    {
        let clock = joined(
            alloc,
            run,
            self.clocks.as_slice(),
            self.numbers.as_slice(),
            steps,
        )?;
        marks_under(alloc, run, &clock)
    }
}
