//! The law of the numbers.
ghost use Rattle.std.specs.Prelude.{◌≡◌, Some};
ghost use Rattle.mr_why.specs.declared.subject.Subject.{Subject};
ghost use Rattle.mr_why.specs.Why.{number_of, subject_of};

/// A law, and no code: each rule, each fault and each reason is found by its number, so that each of them has an entry.
pub fn each_is_found()
    ensures { (s : Subject) → subject_of (number_of s) ≡ Some s }
{}
