//! What a step needs before it acts.
ghost use Rattle.std.specs.Prelude.{◌≡◌};

use mr_sched::Ask;

/// What a step would create.
#[derive(Clone, Copy, Debug, PartialEq, Eq)]
pub enum Creation {
    Nothing,
    Thread,
    Lock,
}

/// What a step needs before it acts.
#[derive(Clone, Copy, Debug, PartialEq, Eq)]
pub struct Needs {
    pub creates: Creation,
    /// What it needs a pick for, where it needs one.
    pub ask: Option<Ask>,
}

/// A pick, or none, and nothing created.
pub fn asking(ask: Option<Ask>) -> Needs
    ensures { result ≡ record { creates = Creation.Nothing; ask = ask } }
{
    Needs {
        creates: Creation::Nothing,
        ask,
    }
}
