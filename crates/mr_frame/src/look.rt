//! What does not change in a run.
use crate::frame::{Frame, function_at};
use mr_ast::{FnName, Function};
use mr_base::Pointer;
use mr_eval::Env;
use mr_layout::Cache;
use mr_typing::Checked;

/// What each step looks up: the program, the pointers to its functions and globals, and the layouts of its types.
#[derive(Clone, Copy)]
pub struct Look<'a> {
    pub program: &'a Checked,
    pub functions: &'a [Pointer],
    pub globals: &'a [Pointer],
    pub cache: &'a Cache<'a>,
}

impl<'a> Look<'a> {
    ghost use Rattle.std.specs.Prelude.{◌≡◌, ◌<◌, [], Some, length, slice_get};
    ghost use Rattle.mr_ast.specs.declared.program.Function.{Function};
    ghost use Rattle.mr_eval.specs.Environment.{env_surround};
    ghost use Rattle.mr_frame.specs.Calling.{look_in};
    ghost use Rattle.mr_frame.specs.Fits.{FitsFrame};
    ghost use Rattle.mr_frame.specs.Frames.{scene_in};
    ghost use Rattle.mr_frame.specs.Inside.{InProgram};
    ghost use Rattle.mr_frame.specs.Kept.{IsReady, frame_of, look_of};

    /// The function of this number.
    pub(crate) fn function(&self, number: u32) -> &'a Function
        requires { number < length self.now.program.now.functions }
        ensures { slice_get self.now.program.now.functions number ≡ Some result.now }
    {
        function_at(self.program.program(), number)
    }

    /// Where the expressions of a frame are evaluated.
    pub(crate) fn env<'e>(&'e self, frame: &'e Frame) -> Env<'e>
        requires { IsReady self.now }
        ensures scene { (fn : Function) → slice_get self.now.program.now.functions frame.now.function ≡ Some fn
            → env_surround result ≡ scene_in (look_of self.now) fn (frame_of frame.now) }
        ensures inside { (h : FitsFrame self.now.program.now (frame_of frame.now)) → InProgram h.function result }
        ensures program { result.program.now ≡ self.now.program.now }
        ensures look { look_in result ≡ look_of self.now }
    {
        Env {
            program: self.program,
            function: FnName(frame.function),
            locals: frame.locals.as_slice(),
            functions: self.functions,
            globals: self.globals,
            cache: self.cache,
        }
    }

    // Where nothing of a frame is read: no local has storage.
    pub(crate) fn bare<'e>(&'e self, f: FnName) -> Env<'e>
        ensures program { result.program.now ≡ self.now.program.now }
        ensures function { result.function ≡ f }
        ensures locals { result.locals.now ≡ [] }
        ensures look { look_in result ≡ look_of self.now }
    {
        Env {
            program: self.program,
            function: f,
            locals: &[],
            functions: self.functions,
            globals: self.globals,
            cache: self.cache,
        }
    }
}
