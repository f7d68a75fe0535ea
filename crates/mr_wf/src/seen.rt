//! Numbers that were met, to tell where one comes again.
ghost use Rattle.std.specs.Prelude.{◌≡◌, ◌||◌, not, false, IfOk, OnOk};
ghost use Rattle.mr_ast.specs.declared.types.Num.{Num as NumModel};
ghost use Rattle.mr_layout.specs.EnumRules.{same_num};
ghost use Rattle.mr_wf.specs.Seen.{has};

use mr_ast::Num;
use std::alloc::{AllocFailed, Global};
use std::collections::BTreeSet;

/// Some numbers: the magnitudes of those with a minus, and of the others.
#[derive(Drop)]
pub struct Seen {
    negative: BTreeSet<u128>,
    positive: BTreeSet<u128>,
}

impl Seen {
    /// No number.
    pub fn new(alloc: Global) -> Seen
        ensures { (n : NumModel) → has result n ≡ false }
    {
        Seen {
            negative: BTreeSet::new(alloc),
            positive: BTreeSet::new(alloc),
        }
    }

    /// Adds a number, and tells whether it is new.
    pub fn add(&mut self, n: Num) -> Result<bool, AllocFailed<u128>>
        ensures told { IfOk result (λ fresh. fresh ≡ not (has self.old n)) }
        ensures grown { OnOk result ((m : NumModel) → has self.new m ≡ (same_num n m || has self.old m)) }
    {
        if n.neg {
            self.negative.insert(n.mag)
        } else {
            self.positive.insert(n.mag)
        }
    }
}
