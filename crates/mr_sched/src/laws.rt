//! The laws of schedules and their texts.
ghost use Rattle.std.specs.Prelude.{◌≡◌, ◌↔◌, ◌<◌, ◌-◌, List, length, ℕ};
ghost use Rattle.mr_sched.specs.declared.schedule.Entry.{Entry};
ghost use Rattle.mr_sched.specs.declared.schedule.Schedule.{Schedule};
ghost use Rattle.mr_sched.specs.declared.version.Version.{Version};
ghost use Rattle.mr_sched.specs.declared.version.Version.TheVariants.{One};
ghost use Rattle.mr_sched.specs.Faults.{FirstFault};
ghost use Rattle.mr_sched.specs.Reading.{Fault, schedule_of};
ghost use Rattle.mr_sched.specs.Spelling.{Fits, text_of};
ghost use Rattle.mr_sched.specs.Versions.{HoldsEntry, IsWithinLimits, Schedules, groups_of, line_in, text_in};

/// A law: reading gives a schedule and a version exactly where the text is that of the schedule in the version, and a fault exactly
/// where that is the first of the text. So a text has one version and one schedule at most, and a schedule one text in a version.
pub fn one_schedule()
    ensures spelled { (text : List ℕ) (v : Version) (w : Schedule)
        → (schedule_of text ≡ Ok (record { schedule = w; version = v })) ↔ Schedules text v w }
    ensures faulty { (text : List ℕ) (f : Fault) → (schedule_of text ≡ Err f) ↔ FirstFault text f.line f.code }
    ensures one { (text : List ℕ) (u v : Version) (w x : Schedule) → Schedules text u w
        → Schedules text v x → (u ≡ v) × (w ≡ x) }
    ensures one_text { (s t : List ℕ) (v : Version) (w : Schedule) → Schedules s v w → Schedules t v w → s ≡ t }
{}

/// A law: the text of a schedule in a version reads back as the schedule and the version.
pub fn reads_back()
    ensures { (v : Version) (w : Schedule) → Fits w → IsWithinLimits v w
        → schedule_of (text_in v w) ≡ Ok (record { schedule = w; version = v }) }
{}

/// A law: the text in version 1 has a line for each entry.
pub fn line_each()
    ensures { (w : Schedule) → text_in One w ≡ text_of w }
{}

/// A law: the line of an entry is one of those of the text, and holds the entry.
pub fn line_holds()
    ensures { (v : Version) (es : List Entry) (k : ℕ) → k < length es
        → HoldsEntry (groups_of v es) (line_in v es k - 3) k }
{}
