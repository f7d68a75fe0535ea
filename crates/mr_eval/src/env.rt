//! What an evaluation stands in, as a caller gives it.
use mr_ast::{FnName, Local};
use mr_base::Pointer;
use mr_layout::Cache;
use mr_typing::Checked;

/// Where an expression of a function is evaluated: the program, the storage of each local of the function, a pointer to each function
/// and to each global, and the layouts of the program's types.
#[derive(Clone, Copy)]
pub struct Env<'a> {
    pub program: &'a Checked,
    pub function: FnName,
    pub locals: &'a [Option<Pointer>],
    pub functions: &'a [Pointer],
    pub globals: &'a [Pointer],
    pub cache: &'a Cache<'a>,
}

impl<'a> Env<'a> {
    ghost use Rattle.std.specs.Prelude.{◌≡◌};
    ghost use Rattle.mr_typing.specs.Walk.{WellFormed};
    ghost use Rattle.mr_eval.specs.Environment.{env_surround};

    /// The locals of the function.
    pub fn function_locals(&self) -> &'a [Local]
        ensures locals { result.now ≡ (env_surround self.now).locals }
        ensures well_formed { WellFormed self.now.program.now }
    {
        match self
            .program
            .program()
            .functions
            .get(self.function.0 as usize)
        {
            Some(f) => f.locals.as_slice(),
            None => &[],
        }
    }
}
