//! What an order of threads becomes.
ghost use Rattle.std.specs.Prelude.{◌≡◌, ℕ, ◌+◌, ◌≤◌, List, None, Some, IfOk};
ghost use Rattle.mr_io.specs.Counts.{Rose};
ghost use Rattle.mr_io.specs.Files.{Contents};
ghost use Rattle.mr_input.specs.Answer.{IsStatus, Tells, TellsOrUnread, told};
ghost use Rattle.mr_input.specs.Inputs.{IsUnreadFault};
ghost use Rattle.mr_show.specs.Filled.{filled_answer, halt_status, order_answer, order_in, wanted_text};

use crate::form::Filling;
use mr_fill::{FilledText, fill_text};
use mr_input::{Refusal, Written};
use mr_io::{FileFault, Files};
use mr_sched::{SchedFault, TOO_LONG};
use mr_wf::Checked;
use std::alloc::Global;

// As many bytes as a schedule's text has at most.
const MAX_ORDER: u64 = 1 << 26;

/// What the order in a file becomes for a program.
pub(crate) fn filled_file<F: Files>(
    alloc: Global,
    files: &mut F,
    filling: Filling,
    p: &Checked,
    order: &str,
) -> Result<Written, Refusal>
    ensures same { F.told files.new ≡ F.told files.old }
    ensures reads { F.reads files.new ≤ F.reads files.old + 1 }
    ensures faults { F.faults files.old ≤ F.faults files.new }
    ensures answer { (contents : Contents) → F.told files.old ≡ Some contents
        → TellsOrUnread (Rose (F.faults files.old) (F.faults files.new))
        (told (order_answer filling p.now) (order_in (contents order.now))) result }
    ensures status { IfOk result (λ a. IsStatus a.status) }
    ensures texts { F.told files.old ≡ None → (order : List ℕ)
        × TellsOrUnread (Rose (F.faults files.old) (F.faults files.new))
        (told (order_answer filling p.now) (order_in (Some order))) result }
    ensures untold { F.told files.old ≡ None → IsUnreadFault result
        → Rose (F.faults files.old) (F.faults files.new) }
{
    let mut text = Vec::new(alloc);
    match files.read(alloc, order, MAX_ORDER, &mut text) {
        Ok(()) => filled(alloc, filling, p, text.as_slice()),
        Err(FileFault::Failed) | Err(FileFault::Missing) => Err(Refusal::ReadSchedule),
        Err(FileFault::Long) => Err(broken(1, TOO_LONG)),
        Err(FileFault::Memory) => Err(Refusal::Memory),
    }
}

// An order's text that is wrong at this line.
fn broken(line: u32, code: u8) -> Refusal
    ensures { result ≡ Refusal.Schedule line code None }
{
    Refusal::Schedule {
        line,
        code,
        earlier: None,
    }
}

// What the order in a text becomes.
fn filled(alloc: Global, filling: Filling, p: &Checked, text: &[u8]) -> Result<Written, Refusal>
    ensures answer { Tells (order_answer filling p.now text.now) result }
    ensures status { IfOk result (λ a. IsStatus a.status) }
    ensures read { ¬ IsUnreadFault result }
{
    match fill_text(alloc, p, text) {
        Ok(text) => wanted(alloc, filling, &text),
        Err(SchedFault::Bad { line, code }) => Err(broken(line, code)),
        Err(SchedFault::Memory) => Err(Refusal::Memory),
    }
}

// 1 where there is a text of where an order can't go on.
fn halt_status(halt: &[u8]) -> u8
    ensures status { result ≡ halt_status halt.now }
    ensures least { result ≤ 1 }
{
    if halt.is_empty() { 0 } else { 1 }
}

// The bytes that are wanted.
fn wanted_bytes(filling: Filling, text: &FilledText) -> &[u8]
    ensures { result.now ≡ wanted_text filling text.now }
{
    match filling {
        Filling::Schedule => text.schedule.as_slice(),
        Filling::Halt => text.halt.as_slice(),
    }
}

// The text that is wanted, with its status. An `Err` is for want of memory.
fn wanted(alloc: Global, filling: Filling, text: &FilledText) -> Result<Written, Refusal>
    ensures answer { Tells (filled_answer filling text.now) result }
    ensures status { IfOk result (λ a. IsStatus a.status) }
    ensures read { ¬ IsUnreadFault result }
{
    let status = halt_status(text.halt.as_slice());
    match Vec::from_slice(alloc, wanted_bytes(filling, text)) {
        Ok(text) => Ok(Written { text, status }),
        Err(_) => Err(Refusal::Memory),
    }
}
