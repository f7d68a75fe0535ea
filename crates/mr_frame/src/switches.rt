//! Where a switch goes on.
ghost use Rattle.std.specs.Prelude.{◌≡◌};
ghost use Rattle.mr_eval.specs.Answers.{seen};
ghost use Rattle.mr_eval.specs.Environment.{Tells, env_surround};
ghost use Rattle.mr_typing.specs.Operands.{is_scalar_number};
ghost use Rattle.mr_frame.specs.Effects.{chosen};
ghost use Rattle.mr_frame.specs.Inside.{ValueAt};
ghost use Rattle.mr_frame.specs.Switches.{first_case};

use crate::types::type_with;
use mr_ast::{BlockName, Num, Value};
use mr_eval::{Env, Fault, Notes, scalar_of, value};
use mr_mem::Memory;
use std::alloc::Global;

/// The block of the first case that has the number of the value, and otherwise the other one.
#[tactic(auto, using(crate::proofs::SwitchRuns::switch_laws))]
pub fn switch<'a>(
    alloc: Global,
    e: &Env<'a>,
    m: &Memory,
    n: &mut Notes,
    on: &'a Value,
    cases: &[(Num, BlockName)],
    other: BlockName,
) -> Result<u32, Fault>
    requires { ValueAt e.now on.now is_scalar_number }
    ensures { Tells result (chosen m.now (env_surround e.now) on.now cases.now other (seen n.old))
        (seen n.new) n.new.refused }
{
    let v = value(alloc, e, m, n, on)?;
    let number = scalar_of(type_with(e, on), &v).number();
    Ok(block_for(number, cases, other))
}

// The block of the first case with the number, and otherwise the other one.
fn block_for(number: Num, cases: &[(Num, BlockName)], other: BlockName) -> u32
    ensures { result ≡ first_case number cases.now other }
{
    for (case, block) in cases {
        if *case == number {
            return block.0;
        }
    }
    other.0
}
