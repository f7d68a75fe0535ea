//! What is kept of the steps of a run.
ghost use Rattle.std.specs.Prelude.{◌≡◌, ◌++◌, ◌∷◌, [], List, OnErr, OnOk};
ghost use Rattle.mr_event.specs.Footprint.{Footprint as FootprintOf};
ghost use Rattle.mr_run.specs.Records.{HasRoom};

use mr_event::{Footprint, OutOfMemory};

/// What takes the footprint of each step that completes, in order. The caller of a run chooses by type what is kept of
/// its steps.
pub trait Record {
    /// Whether this is what is kept of steps with these footprints.
    ghost keeps: { Self → List FootprintOf → Type 0 };

    /// Takes the footprint of the next step. An `Err` is for want of memory, and leaves what is kept as it was.
    fn keep(&mut self, foot: &Footprint) -> Result<(), OutOfMemory>
        requires { HasRoom (keeps self.old) }
        ensures ok { (steps : List FootprintOf) → keeps self.old steps
            → OnOk result (keeps self.new (steps ++ foot.now ∷ [])) }
        ensures err { (steps : List FootprintOf) → keeps self.old steps → OnErr result (keeps self.new steps) };
}

/// Keeps nothing: for a caller that asks where the run ends, and for a run of one thread, which has no race.
#[derive(Clone, Copy, Debug)]
pub struct Nothing;

impl Record for Nothing {
    ghost keeps = { λ _ _. Unit {0} };

    fn keep(&mut self, _foot: &Footprint) -> Result<(), OutOfMemory> {
        Ok(())
    }
}

// The footprints are kept.
impl Record for Vec<Footprint> {
    ghost keeps = { λ kept steps. kept.items ≡ steps };

    fn keep(&mut self, foot: &Footprint) -> Result<(), OutOfMemory> {
        foot.push_to(self)
    }
}
