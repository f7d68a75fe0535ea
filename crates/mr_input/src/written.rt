//! What is written of a command, and the exit status.
ghost use Rattle.std.specs.Prelude.{◌≡◌, IfOk};
ghost use Rattle.mr_input.specs.Answer.{Answer, answered, IsStatus, seen, Tells};
ghost use Rattle.mr_input.specs.Inputs.{IsUnreadFault};

use crate::refusal::Refusal;
use std::alloc::AllocError;

/// What is written, and the exit status.
#[derive(Drop)]
pub struct Written {
    pub text: Vec<u8>,
    pub status: u8,
}

/// What was written of a run, or want of memory.
pub fn answered(written: Result<Written, AllocError>) -> Result<Written, Refusal>
    requires { IfOk written (λ a. IsStatus a.status) }
    ensures same { result ≡ answered written }
    ensures answer { (a : Answer) → IfOk written (λ x. seen x ≡ a) → Tells a result }
    ensures status { IfOk result (λ a. IsStatus a.status) }
    ensures read { ¬ IsUnreadFault result }
{
    match written {
        Ok(report) => Ok(report),
        Err(_) => Err(Refusal::Memory),
    }
}
