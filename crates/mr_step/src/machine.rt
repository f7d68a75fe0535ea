//! The machine and its public calls.
use crate::advance::advance;
use crate::asking::asked;
use crate::copies::copy_last;
use crate::fault::{StepFault, Turn, unmade};
use crate::first::first;
use crate::lending::bytes_from;
use crate::progress::{Progress, line_at, place_at};
use crate::setting::Setting;
use mr_base::{Pointer, Reached, Status, Verdict};
use mr_event::Footprint;
use mr_frame::At;
use mr_runs::View;
use mr_sched::{Ask, Entry};
use mr_turn::{Start, begin};
use mr_typing::Checked;
use std::alloc::{AllocError, Global};
use std::marker::Model;

/// The machine of a program under a schedule. (MiniRust, lang: the machine.)
#[derive(Drop)]
pub struct Machine<'p> {
    setting: Setting<'p>,
    progress: Progress,
    failed: bool,
    alloc: Global,
}

impl<'p> Model for Machine<'p> {
    ghost use Rattle.mr_step.specs.Standing.{Standing};

    ghost Value = { Standing };

    ghost use Rattle.std.specs.Coded.{codes};
    ghost use Rattle.mr_ast.specs.contracts.types.Ty as types;
    ghost use Rattle.mr_ast.specs.contracts.types.Tree as trees;
    ghost use Rattle.mr_ast.specs.contracts.expr.Place as places;
    ghost use Rattle.mr_ast.specs.contracts.expr.Value as values;
    ghost use Rattle.mr_mem.specs.contracts.memory.Memory as memories;

    ghost coded = { Prim.hlevel (
      codes,
      types.the_row.coded,
      trees.the_row.coded,
      places.the_row.coded,
      values.the_row.coded,
      memories.the_row.coded,
    ) };

    ghost use Rattle.mr_step.specs.Kept.{standing_of, IsKept};

    ghost view = { standing_of };

    ghost invariant = { IsKept };
}

impl<'p> Machine<'p> {
    ghost use Rattle.std.specs.Prelude.{◌≡◌, ℕ, ◌<◌, ◌^◌, IfOk, List, None, OnErr, Some, false, length, option_copied, slice_get};
    ghost use Rattle.std.specs.Option.{option_map};
    ghost use Rattle.mr_runs.specs.Pieces.{bytes_of_pieces};
    ghost use Rattle.mr_sync.specs.Tables.{IsEnabled, holder_of, is_enabled, waits};
    ghost use Rattle.mr_plan.specs.Machine.{State, needs};
    ghost use Rattle.mr_plan.specs.Queries.{tables_of};
    ghost use Rattle.mr_exchange.specs.StartSteps.{Own, thread_step};
    ghost use Rattle.mr_turn.specs.Asking.{AsksAnswer};
    ghost use Rattle.mr_exchange.specs.StartBegin.{IsStart};
    ghost use Rattle.mr_exchange.specs.StartStart.{start_fault};
    ghost use Rattle.mr_step.specs.Answers.{GoAnswer, HandAnswer, StartAnswer, StepAnswer, standing};
    ghost use Rattle.mr_step.specs.Standing.{bytes_from, place_in, seen_line};

    /// The machine before the first entry, with these start picks.
    pub fn start(alloc: Global, p: &'p Checked, picks: &[u64]) -> Result<Machine<'p>, StepFault>
        ensures { StartAnswer p.now picks.now result }
    {
        match begin(alloc, p, picks) {
            Ok(start) => Ok(Machine::begun(alloc, p, start)?),
            Err(fault) => Err(unmade(fault)),
        }
    }

    // The machine of a start that is made.
    fn begun(alloc: Global, p: &'p Checked, start: Start<'p>) -> Result<Machine<'p>, AllocError>
        requires { (picks : List ℕ) × (start_fault p.now picks ≡ None) × IsStart p.now picks start }
        ensures { IfOk result (λ m. (picks : List ℕ) → IsStart p.now picks start.entry → m ≡ standing p.now picks) }
    {
        let Start {
            memory,
            functions,
            globals,
            cache,
            stack,
            count,
        } = start;
        let program = p.program();
        prove!(functions.len() == program.functions.len());
        prove!(globals.len() == program.globals.len());
        let progress = first(alloc, memory, stack, count)?;
        let setting = Setting {
            program: p,
            functions,
            globals,
            cache,
        };
        Ok(Machine {
            setting,
            progress,
            failed: false,
            alloc,
        })
    }

    /// One step of the machine. The footprint of a step that completes takes the place of what stood in `foot`. A refused entry changes
    /// nothing. Once a step ran out of memory the machine has failed: it makes no step any more, and tells what it told before that step.
    pub fn step(&mut self, entry: &Entry, foot: &mut Footprint) -> Result<Turn, StepFault>
        requires { self.old.config.completed < 2 ^ 32 }
        ensures { StepAnswer entry.now self.old self.new foot.old foot.new result }
    {
        let before = self.completed();
        let prints = self.lines();
        let turn = self.go(entry)?;
        if self.completed() == before {
            return Ok(turn);
        }
        match self.hand_out(foot, prints) {
            Ok(()) => Ok(turn),
            Err(fault) => Err(fault),
        }
    }

    /// The same, except that no footprint is handed out.
    pub fn go(&mut self, entry: &Entry) -> Result<Turn, StepFault>
        requires { self.old.config.completed < 2 ^ 32 }
        ensures { GoAnswer entry.now self.old self.new result }
    {
        if self.failed {
            return Err(StepFault::Failed);
        }
        let look = self.setting.look();
        match advance(self.alloc, &look, &mut self.progress, entry) {
            Ok(()) => Ok(Turn::behind(self.progress.verdict)),
            Err(StepFault::Memory) => {
                self.failed = true;
                Err(StepFault::Memory)
            }
            Err(StepFault::BadEntry { code, earlier }) => Err(StepFault::BadEntry {
                code,
                earlier,
            }),
            Err(StepFault::Failed) => unreachable!(),
        }
    }

    // A copy of the footprint of the last step, which completed, takes the place of what stood in `foot`. For want of memory the machine
    // fails, and tells what it told before that step, which printed what stands behind so many prints.
    fn hand_out(&mut self, foot: &mut Footprint, prints: usize) -> Result<(), StepFault>
        requires { 0 < self.old.config.completed }
        ensures { HandAnswer prints self.old self.new foot.new result }
    {
        match copy_last(&self.progress.last, foot) {
            Ok(()) => Ok(()),
            Err(AllocError) => {
                self.progress.take_back(prints);
                self.failed = true;
                Err(StepFault::Memory)
            }
        }
    }

    /// What the run has come to.
    pub fn verdict(&self) -> Verdict
        ensures { result ≡ self.now.config.verdict }
    {
        self.progress.verdict
    }

    /// The bytes that the last step speaks of, where it was undefined and speaks of any.
    pub fn about(&self) -> Option<Reached>
        ensures { result ≡ self.now.config.about }
    {
        self.progress.about
    }

    /// How many steps were completed.
    pub fn completed(&self) -> u64
        ensures { result ≡ self.now.config.completed }
    {
        self.progress.completed
    }

    /// The footprint of the last step that completed, where one did.
    pub fn last(&self) -> Option<&Footprint>
        ensures { option_copied result ≡ self.now.config.last }
    {
        match &self.progress.last {
            Some(last) => Some(last.footprint()),
            None => None,
        }
    }

    /// How many prints there are.
    pub fn lines(&self) -> usize
        ensures { result ≡ length self.now.config.output }
    {
        self.progress.output.len()
    }

    /// The thread and the text of a print, counted from 0.
    pub fn line(&self, i: usize) -> Option<(u32, &[u8])>
        ensures { option_map seen_line result ≡ slice_get self.now.config.output i }
    {
        line_at(self.progress.output.as_slice(), i)
    }

    /// How many threads there are, ended ones included; none behind a step that itself stopped.
    pub fn threads(&self) -> u32
        ensures there { (s : State Own) → self.now.config.state ≡ Some s → result ≡ length s.shared.statuses }
        ensures gone { self.now.config.state ≡ None → result ≡ 0 }
    {
        if self.progress.gone {
            0
        } else {
            self.progress.sync.threads()
        }
    }

    /// Whether a thread exists and can go on; none can behind a step that itself stopped.
    pub fn enabled(&self, t: u32) -> bool
        ensures there { (s : State Own) → self.now.config.state ≡ Some s
            → result ≡ is_enabled (slice_get s.shared.statuses t) }
        ensures gone { self.now.config.state ≡ None → result ≡ false }
    {
        !self.progress.gone && matches!(self.progress.sync.status(t), Some(Status::Enabled))
    }

    /// Whether a thread waits for this lock; none does behind a step that itself stopped.
    pub fn waiting(&self, lock: u32, t: u32) -> bool
        ensures there { (s : State Own) → self.now.config.state ≡ Some s → result ≡ waits lock t (tables_of s.shared) }
        ensures gone { self.now.config.state ≡ None → result ≡ false }
    {
        !self.progress.gone && self.progress.sync.waiting(lock, t)
    }

    /// Where a thread stands: the function, the block and the statement, or the terminator, that its next step takes. A thread that ended, or
    /// that there is not, stands nowhere; so does each behind a step that itself stopped.
    #[tactic(auto, using(crate::proofs::PlaceLaws::places_kept))]
    pub fn place(&self, t: u32) -> Option<At>
        ensures there { (s : State Own) → self.now.config.state ≡ Some s → result ≡ place_in (slice_get s.threads t) }
        ensures gone { self.now.config.state ≡ None → result ≡ None }
    {
        if self.progress.gone {
            None
        } else {
            place_at(self.progress.threads.as_slice(), t as usize)
        }
    }

    /// Whether a thread can go on, and what it waits for otherwise; None where there is no such thread, or a step itself stopped.
    pub fn status(&self, t: u32) -> Option<Status>
        ensures there { (s : State Own) → self.now.config.state ≡ Some s → result ≡ slice_get s.shared.statuses t }
        ensures gone { self.now.config.state ≡ None → result ≡ None }
    {
        if self.progress.gone {
            None
        } else {
            self.progress.sync.status(t)
        }
    }

    /// The thread that holds a lock: None exactly where there is no such lock, or it is free, or a step itself stopped.
    pub fn holder(&self, lock: u32) -> Option<u32>
        ensures there { (s : State Own) → self.now.config.state ≡ Some s
            → result ≡ holder_of lock (tables_of s.shared) }
        ensures gone { self.now.config.state ≡ None → result ≡ None }
    {
        if self.progress.gone {
            None
        } else {
            self.progress.sync.holder(lock)
        }
    }

    /// Lends the bytes from a pointer on, where all of them lie in its live allocation; None behind a step that itself
    /// stopped.
    pub fn bytes(&self, p: Pointer, len: u64) -> Option<View<'_>>
        ensures there { (s : State Own) → self.now.config.state ≡ Some s
            → option_map bytes_of_pieces result ≡ bytes_from s.shared.memory p len }
        ensures gone { self.now.config.state ≡ None → result ≡ None }
    {
        if self.progress.gone {
            None
        } else {
            bytes_from(&self.progress.scene.memory, p, len)
        }
    }

    /// Appends to `out` what picks the next step of an enabled thread of a running machine asks for. The answer is 67 or 68 where the step
    /// would create a thread or a lock, and there are as many as may be. An `Err` is for want of memory, and leaves `out` as it was.
    pub fn asks(&self, t: u32, out: &mut Vec<Ask>) -> Result<Option<u8>, AllocError>
        requires working { self.now.failed ≡ false }
        requires enabled { (s : State Own) × (self.now.config.state ≡ Some s) × IsEnabled t (tables_of s.shared) }
        ensures asks { (s : State Own) → self.now.config.state ≡ Some s
            → AsksAnswer s.shared (needs (thread_step self.now.look) s t) out.old.items out.new.items result }
        ensures err { OnErr result (out.new.items ≡ out.old.items) }
    {
        let look = self.setting.look();
        asked(self.alloc, &look, &self.progress, t, out)
    }
}
