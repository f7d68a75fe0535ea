//! A program is checked: the walk that finds its first broken rule, or none.
ghost use Rattle.mr_ast.specs.Shaped.{Shaped};
ghost use Rattle.mr_wf.specs.Answers.{IsCheck};

use crate::fault::{Stopped, WfFault};
use crate::walk::walked;
use mr_ast::Program;
use mr_typing::Checked;
use std::alloc::Global;

/// The program, where it breaks no rule; else its first broken rule in the order of the walk, and the program as it was.
#[tactic(auto, using(crate::proofs::ProgramWalk::walked_well, crate::proofs::ProgramWalk::walked_first))]
pub fn well_formed(alloc: Global, p: Program) -> Result<Checked, WfFault>
    requires { Shaped p }
    ensures { IsCheck p result }
{
    match walked(alloc, &p) {
        Ok(()) => Ok(Checked::new(p)),
        Err(Stopped::At(fault)) => Err(WfFault::Form { fault, program: p }),
        Err(Stopped::Memory) => Err(WfFault::Memory),
    }
}
