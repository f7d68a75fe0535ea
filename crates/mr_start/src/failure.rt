//! Why picks are refused.
use mr_base::AllocId;
use mr_sched::ScheduleRule;

/// The rule that a pick breaks, by its code.
#[derive(Clone, Copy, Debug, PartialEq, Eq)]
pub struct PickFailure {
    pub code: u8,
    /// Of a range that is used again the allocation whose range it overlaps, the least by thread and then by count.
    pub earlier: Option<AllocId>,
}

impl PickFailure {
    ghost use Rattle.std.specs.Prelude.{◌≡◌, None, Some};
    ghost use Rattle.mr_sched.specs.declared.rule.ScheduleRule.TheVariants.{Reused};
    ghost use Rattle.mr_sched.specs.Rules.{code_of};
    ghost use Rattle.mr_start.specs.Judging.{fault_of};

    /// A rule without an identity.
    pub fn of(rule: ScheduleRule) -> PickFailure
        ensures { fault_of result ≡ record { code = code_of rule; earlier = None } }
    {
        PickFailure {
            code: rule.code(),
            earlier: None,
        }
    }

    // The overlap of the range of this allocation.
    pub(crate) fn reused(id: AllocId) -> PickFailure
        ensures { fault_of result ≡ record { code = code_of Reused; earlier = Some id } }
    {
        PickFailure {
            code: ScheduleRule::Reused.code(),
            earlier: Some(id),
        }
    }
}
