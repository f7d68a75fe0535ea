//! What changes in a run.
ghost use Rattle.std.specs.Prelude.{◌≡◌, slice_get};
ghost use Rattle.std.specs.Option.{option_map};
ghost use Rattle.std.specs.Prelude.{map};
ghost use Rattle.mr_step.specs.Kept.{kept_place, printed_of};
ghost use Rattle.mr_step.specs.Standing.{seen_line};

use mr_base::{Reached, Verdict};
use mr_eval::Scene;
use mr_event::Latest;
use mr_frame::{At, Stack};
use mr_sync::SyncTable;

/// A print, with the thread that made it.
#[derive(Drop)]
pub struct Line {
    pub thread: u32,
    pub text: Vec<u8>,
}

/// A thread, by its place in the list of all. The stack of one that ended counts no more.
#[derive(Drop)]
pub struct Thread {
    pub stack: Stack,
    pub ended: bool,
    /// How many allocations it has made.
    pub count: u64,
}

/// Where the machine stands.
#[derive(Drop)]
pub struct Progress {
    /// The memory, with what the last step noted of it.
    pub scene: Scene,
    pub threads: Vec<Thread>,
    pub sync: SyncTable,
    /// Whether a step itself stopped, so that there is no state.
    pub gone: bool,
    pub output: Vec<Line>,
    /// The footprint of the last completed step.
    pub last: Option<Latest>,
    pub completed: u64,
    pub verdict: Verdict,
    /// The bytes that the last step speaks of, where it was undefined and speaks of any.
    pub about: Option<Reached>,
}

impl Progress {
    ghost use Rattle.std.specs.Prelude.{◌≡◌, ◌+◌, ◌<◌, take, true};
    ghost use Rattle.mr_base.specs.declared.reason.Verdict.TheVariants.{Running};
    ghost use Rattle.mr_step.specs.Answers.{IsTakenBack};
    ghost use Rattle.mr_step.specs.Kept.{config_of};

    /// A step itself stops, and speaks of these bytes.
    pub fn stop(&mut self, verdict: Verdict, about: Option<Reached>)
        ensures { self.new ≡ record self.old { gone = true; verdict = verdict; about = about } }
    {
        self.gone = true;
        self.verdict = verdict;
        self.about = about;
    }

    /// The last step, which completed, is told no more, nor what it printed behind so many prints.
    pub fn take_back(&mut self, prints: usize)
        requires { 0 < self.old.completed }
        ensures { IsTakenBack prints (config_of self.old) (config_of self.new) }
    {
        self.output.truncate(prints);
        self.completed -= 1;
        self.verdict = Verdict::Running;
    }
}

/// The thread and the text of a print.
pub fn line_at(lines: &[Line], i: usize) -> Option<(u32, &[u8])>
    ensures { option_map seen_line result ≡ slice_get (map printed_of lines.now) i }
{
    match lines.get(i) {
        None => None,
        Some(line) => Some((line.thread, line.text.as_slice())),
    }
}

/// Where a thread stands, unless it ended.
pub fn place_at(threads: &[Thread], t: usize) -> Option<At>
    ensures { result ≡ kept_place (slice_get threads.now t) }
{
    match threads.get(t) {
        None => None,
        Some(thread) => {
            if thread.ended {
                None
            } else {
                Some(thread.stack.at())
            }
        }
    }
}
