//! The schedule that an order becomes, and where the order can't go on, as they are told.
ghost use Rattle.std.specs.Prelude.{◌≡◌, ◌++◌, ◌^◌, ◌≤◌, IfOk, OnOk, length};
ghost use Rattle.mr_sched.specs.Reading.{Gives};
ghost use Rattle.mr_fill.specs.Filling.{filled};
ghost use Rattle.mr_fill.specs.Told.{halt_line, halt_text, text_by, texts_of};

use crate::filling::{Halt, fill};
use crate::{Turn, read_order};
use mr_labels::{push_number, rule_name};
use mr_sched::{Items, SchedFault, print};
use mr_typing::Checked;
use std::alloc::{AllocError, Global};

/// The texts of a schedule that an order became: the schedule's, and where the order can't go on, which is empty where all
/// its turns are taken.
#[derive(Drop)]
pub struct FilledText {
    pub schedule: Items<u8>,
    pub halt: Items<u8>,
}

/// Appends where an order can't go on, as a comment of an order. An `Err` is for want of memory.
pub fn push_halt(out: &mut Vec<u8>, halt: Halt) -> Result<(), AllocError>
    ensures { OnOk result (out.new.items ≡ out.old.items ++ halt_line halt) }
{
    out.extend_from_slice(b"# line ")?;
    push_number(out, u64::from(halt.line))?;
    out.extend_from_slice(b" can't go on: ")?;
    push_number(out, u64::from(halt.code))?;
    out.push(b' ')?;
    out.extend_from_slice(rule_name(halt.code).as_bytes())?;
    out.push(b'\n')?;
    Ok(())
}

// The same, if there is such a place.
fn push_some_halt(out: &mut Vec<u8>, halt: Option<Halt>) -> Result<(), AllocError>
    ensures { OnOk result (out.new.items ≡ out.old.items ++ halt_text halt) }
{
    match halt {
        Some(halt) => push_halt(out, halt),
        None => Ok(()),
    }
}

// The text of that.
fn halt_text(alloc: Global, halt: Option<Halt>) -> Result<Vec<u8>, AllocError>
    ensures { IfOk result (λ text. text.items ≡ halt_text halt) }
{
    let mut text = Vec::new(alloc);
    push_some_halt(&mut text, halt)?;
    Ok(text)
}

// The texts of the schedule that an order becomes.
fn order_text(alloc: Global, p: &Checked, order: &[Turn]) -> Result<FilledText, AllocError>
    requires { length order.now ≤ 2 ^ 20 }
    ensures { IfOk result (λ text. text ≡ text_by (filled p.now order.now)) }
{
    let filled = fill(alloc, p, order)?;
    let mut schedule = Vec::new(alloc);
    print(alloc, &filled.schedule, &mut schedule)?;
    let halt = halt_text(alloc, filled.halt)?;
    Ok(FilledText {
        schedule: Items::from_vec(schedule),
        halt: Items::from_vec(halt),
    })
}

/// The texts of the schedule that the order in a text becomes for a program, or the first fault of that text.
pub fn fill_text(alloc: Global, p: &Checked, text: &[u8]) -> Result<FilledText, SchedFault>
    ensures { Gives result (texts_of p.now text.now) }
{
    match read_order(alloc, text) {
        Ok(order) => match order_text(alloc, p, order.as_slice()) {
            Ok(text) => Ok(text),
            Err(AllocError) => Err(SchedFault::Memory),
        },
        Err(fault) => Err(fault),
    }
}
