//! What an intrinsic did.
use mr_base::Event;
use mr_value::Val;

/// What an intrinsic came to, beside what it changed of memory, of locks and threads, and of the output.
#[derive(Drop)]
pub struct Effect {
    /// Its result, where it gives one.
    pub value: Option<Val>,
    /// What it did to locks and threads.
    pub event: Event,
    /// The thread that it woke, where it woke one.
    pub woken: Option<u32>,
}

impl Effect {
    ghost use Rattle.std.specs.Prelude.{◌≡◌, None};
    ghost use Rattle.mr_base.specs.declared.thread.Event.TheVariants.{Quiet};

    /// A result, and nothing done to locks and threads.
    pub(crate) fn quiet(value: Option<Val>) -> Effect
        ensures { result ≡ record { value = value; event = Quiet; woken = None } }
    {
        Effect {
            value,
            event: Event::Quiet,
            woken: None,
        }
    }

    /// Something done to a lock or a thread, without a result.
    pub(crate) fn noted(event: Event) -> Effect
        ensures { result ≡ record { value = None; event = event; woken = None } }
    {
        Effect {
            value: None,
            event,
            woken: None,
        }
    }
}
