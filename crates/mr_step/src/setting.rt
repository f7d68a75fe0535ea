//! What does not change in a run, as the machine owns it.
use mr_base::Pointer;
use mr_frame::Look;
use mr_layout::Cache;
use mr_typing::Checked;

/// What each step looks up: the program, the pointers to its functions and globals, and the layouts of its types.
#[derive(Drop)]
pub struct Setting<'p> {
    pub program: &'p Checked,
    pub functions: Vec<Pointer>,
    pub globals: Vec<Pointer>,
    pub cache: Cache<'p>,
}

impl<'p> Setting<'p> {
    ghost use Rattle.std.specs.Prelude.{◌≡◌};
    ghost use Rattle.mr_frame.specs.Kept.{IsReady, look_of};
    ghost use Rattle.mr_step.specs.Kept.{IsSet, setting_look};

    /// The same, lent.
    pub fn look(&self) -> Look<'_>
        requires { IsSet self.now }
        ensures ready { IsReady result }
        ensures look { look_of result ≡ setting_look self.now }
        ensures program { result.program.now ≡ self.now.program.now }
    {
        Look {
            program: self.program,
            functions: self.functions.as_slice(),
            globals: self.globals.as_slice(),
            cache: &self.cache,
        }
    }
}
