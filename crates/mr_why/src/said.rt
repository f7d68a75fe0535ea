//! What is said of a code.

/// What is said of a rule or a reason.
#[derive(Clone, Copy)]
pub struct Said {
    /// What it says, in a sentence.
    pub what: &'static str,
    /// What usually causes it.
    pub cause: &'static str,
    /// What to do next.
    pub next: &'static str,
    /// The smallest example.
    pub example: &'static str,
}

/// The entry of a code.
#[derive(Clone, Copy)]
pub struct Why {
    pub code: u16,
    /// The name that is printed behind the code.
    pub name: &'static str,
    pub said: Said,
}
