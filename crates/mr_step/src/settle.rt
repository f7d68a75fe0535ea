//! What the turn of a thread leads to.
ghost use Rattle.std.specs.Prelude.{◌≡◌, ◌+◌, ◌++◌, ◌<◌, ◌^◌, OnErr, OnOk, length, map, slice_get, slice_set, if◌then◌else◌};
ghost use Rattle.std.specs.Option.{option_map};
ghost use Rattle.mr_mem.specs.Memory.{leaks};
ghost use Rattle.mr_frame.specs.Kept.{look_of};
ghost use Rattle.mr_base.specs.declared.reason.Verdict.TheVariants as verdict;
ghost use Rattle.mr_plan.specs.Machine.{started_threads};
ghost use Rattle.mr_plan.specs.Runs.{printed_by};
ghost use Rattle.mr_turn.specs.Turning.{own_of, printed_lines};
ghost use Rattle.mr_step.specs.Answers.{KeepsTold};
ghost use Rattle.mr_step.specs.Kept.{config_of, numbered, printed_of, standing_thread};
ghost use Rattle.mr_step.specs.declared.progress.Thread.{Thread as KeptThread};
ghost use Rattle.mr_step.specs.Settling.{CanSettle, IsOn, Settles};

use crate::edition::complete_accesses;
use crate::footprint::{is_end, keep_last, verdict_behind};
use crate::progress::{Line, Progress, Thread};
use mr_base::Verdict;
use mr_eval::Scene;
use mr_frame::{Flow, Look, Stack};
use mr_turn::Deed;
use sqlite_items::Boxed;
use std::alloc::{AllocError, Global};

// The print of a step, where it made one.
fn print(output: &mut Vec<Line>, thread: u32, text: Option<Vec<u8>>) -> Result<(), AllocError>
    ensures ok { OnOk result (map printed_of output.new.items
        ≡ map printed_of output.old.items ++ map (printed_by thread) (printed_lines (option_map (λ t. t.items) text))) }
    ensures err { OnErr result (output.new.items ≡ output.old.items) }
{
    if let Some(text) = text {
        output.push(Line { thread, text })?;
    }
    Ok(())
}

// A thread that was started joins the others.
fn join(threads: &mut Vec<Thread>, started: Option<Boxed<Stack>>) -> Result<(), AllocError>
    ensures { OnOk result (numbered 0 threads.new.items
        ≡ numbered 0 threads.old.items ++ started_threads (option_map (own_of (length threads.old.items)) started)) }
{
    if let Some(stack) = started {
        threads.push(Thread {
            stack: stack.into_inner(),
            ended: false,
            count: 0,
        })?;
    }
    Ok(())
}

// Whether the thread has ended, and how many allocations it has made.
fn mark(threads: &mut Vec<Thread>, thread: u32, ended: bool, count: u64)
    requires { thread < length threads.old.items }
    ensures { (th : KeptThread) → slice_get threads.old.items thread ≡ Some th → numbered 0 threads.new.items
        ≡ slice_set (numbered 0 threads.old.items) thread (standing_thread thread ended count th.stack) }
{
    let one = &mut threads[thread as usize];
    one.ended = ended;
    one.count = count;
}

// A completed step. What the machine tells is changed last, where no memory is asked for any more.
fn complete(
    alloc: Global,
    look: &Look<'_>,
    p: &mut Progress,
    thread: u32,
    deed: Deed,
) -> Result<(), AllocError>
    requires flow { IsOn deed.flow }
    requires at { CanSettle p.old thread }
    ensures ok { OnOk result (Settles (look_of look.now) p.old p.new thread deed) }
    ensures err { OnErr result (KeepsTold (config_of p.old) (config_of p.new)) }
{
    let (number, count) = (p.scene.thread, p.scene.count);
    complete_accesses(look.program.program().edition, &mut p.scene)?;
    let verdict = verdict_behind(p.last.as_ref(), &p.scene, &p.sync);
    keep_last(alloc, &mut p.last, &p.scene, &deed)?;
    mark(&mut p.threads, thread, is_end(deed.flow), count);
    join(&mut p.threads, deed.started)?;
    print(&mut p.output, number, deed.text)?;
    p.verdict = verdict;
    p.completed += 1;
    Ok(())
}

// An exit while a heap allocation is live is a leak.
fn end_of(scene: &Scene) -> Verdict
    ensures { result ≡ (if leaks scene.now.memory then verdict.Leak else verdict.Exit) }
{
    if scene.memory.leaks() {
        Verdict::Leak
    } else {
        Verdict::Exit
    }
}

/// Where the turn of a thread leads, which left this deed beside the scene.
pub fn settle(
    alloc: Global,
    look: &Look<'_>,
    p: &mut Progress,
    thread: u32,
    deed: Deed,
) -> Result<(), AllocError>
    requires { CanSettle p.old thread }
    ensures ok { OnOk result (Settles (look_of look.now) p.old p.new thread deed) }
    ensures err { OnErr result (KeepsTold (config_of p.old) (config_of p.new)) }
{
    match deed.flow {
        Flow::Went | Flow::Ended => complete(alloc, look, p, thread, deed)?,
        Flow::Exit => {
            let verdict = end_of(&p.scene);
            p.stop(verdict, None);
        }
        Flow::Abort => p.stop(Verdict::Abort, None),
    }
    Ok(())
}
