//! Why nothing is told of a trace.
ghost use Rattle.std.specs.Prelude.{◌≡◌, ◌++◌, IfOk, OnOk, codes, decimal};
ghost use Rattle.mr_traced.specs.Faults.{fault_line, line_fault, wrong_text};

use crate::OutOfMemory;
use mr_labels::push_number;
use std::alloc::{AllocError, Global};

/// What is wrong with a file of places.
#[derive(Clone, Copy, Debug, PartialEq, Eq)]
pub enum PlacesFault {
    /// It has more than 2^28 bytes.
    TooLong,
    /// Its first line isn't that of a file of places.
    Header,
    /// This line, counted from 1, is neither a name nor a step, and not empty.
    Line { line: usize },
    /// It has another number of steps than the trace.
    Count { sites: usize, steps: usize },
}

/// Why nothing is told.
#[derive(Clone, Copy, Debug, PartialEq, Eq)]
pub enum Untold {
    /// The bytes of the trace have their first fault at this offset from 0.
    Trace { at: u64, code: u8 },
    /// The file of places has a fault.
    Places { fault: PlacesFault },
    /// Memory ran out.
    Memory,
}

impl From<AllocError> for Untold {
    ghost use Rattle.std.specs.Prelude.{◌≡◌};
    ghost use Rattle.mr_traced.specs.declared.refusal.Untold.TheVariants.{Memory};

    ghost from_gives = { λ _ e. e ≡ Memory };

    fn from(_: AllocError) -> Untold {
        Untold::Memory
    }
}

// Appends what is wrong with a line.
fn push_line_fault(out: &mut Vec<u8>, line: usize, fault: &[u8]) -> Result<(), OutOfMemory>
    ensures { OnOk result (out.new.items ≡ out.old.items ++ line_fault line fault.now) }
{
    push_number(out, line as u64)?;
    out.push(b' ')?;
    out.extend_from_slice(fault)?;
    out.push(b'\n')?;
    Ok(())
}

// Appends that the numbers of steps differ.
fn push_counts(out: &mut Vec<u8>, sites: usize, steps: usize) -> Result<(), OutOfMemory>
    ensures { OnOk result (out.new.items
        ≡ out.old.items ++ (decimal sites ++ codes " steps, and the trace has " ++ decimal steps ++ codes "\n")) }
{
    push_number(out, sites as u64)?;
    out.extend_from_slice(b" steps, and the trace has ")?;
    push_number(out, steps as u64)?;
    out.push(b'\n')?;
    Ok(())
}

// Appends what is wrong.
fn push_wrong(out: &mut Vec<u8>, fault: PlacesFault) -> Result<(), OutOfMemory>
    ensures { OnOk result (out.new.items ≡ out.old.items ++ wrong_text fault) }
{
    match fault {
        PlacesFault::TooLong => push_line_fault(out, 1, b"the file is too long"),
        PlacesFault::Header => push_line_fault(out, 1, b"it isn't `places 2`"),
        PlacesFault::Line { line } => push_line_fault(out, line, b"neither a name nor a step"),
        PlacesFault::Count { sites, steps } => push_counts(out, sites, steps),
    }
}

/// The line that tells a fault of places, ended by LF. An `Err` is for want of memory.
pub fn fault_line(alloc: Global, fault: PlacesFault) -> Result<Vec<u8>, OutOfMemory>
    ensures { IfOk result (λ text. text.items ≡ fault_line fault) }
{
    let mut out = Vec::from_slice(alloc, b"places ")?;
    push_wrong(&mut out, fault)?;
    Ok(out)
}
