//! A program that breaks no rule.
ghost use Rattle.std.specs.Prelude.{◌≡◌};
ghost use Rattle.mr_ast.specs.declared.program.Program.{Program};
ghost use Rattle.mr_typing.specs.Walk.{WellFormed};

use mr_ast::Program;
use std::marker::Model;

/// A well-formed program.
#[derive(Drop)]
pub struct Checked {
    program: Program,
}

impl Model for Checked {
    ghost use Rattle.mr_ast.specs.declared.program.Program.{Program};
    ghost use Rattle.mr_typing.specs.Walk.{WellFormed};

    ghost Value = { Program };

    ghost use Rattle.std.specs.Coded.{codes};
    ghost use Rattle.mr_ast.specs.contracts.types.Ty as types;
    ghost use Rattle.mr_ast.specs.contracts.types.Tree as trees;
    ghost use Rattle.mr_ast.specs.contracts.expr.Place as places;
    ghost use Rattle.mr_ast.specs.contracts.expr.Value as values;

    ghost coded = { Prim.hlevel (
      codes,
      types.the_row.coded,
      trees.the_row.coded,
      places.the_row.coded,
      values.the_row.coded,
    ) };

    ghost view = { λ c. c.program };

    ghost invariant = { λ c. WellFormed c.program };
}

impl Checked {
    /// A program that breaks no rule.
    pub fn new(program: Program) -> Checked
        requires { WellFormed program }
        ensures { result ≡ program }
    {
        Checked { program }
    }

    /// The program.
    pub fn program(&self) -> &Program
        ensures same { result.now ≡ self.now }
        ensures well_formed { WellFormed result.now }
    {
        &self.program
    }
}
