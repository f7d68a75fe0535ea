//! What no call breaks.

ghost use Rattle.mr_sync.specs.Sound.{StaySound};

/// Tables in which each waiting thread waits for a lock with a holder, or for a thread that hasn't ended, stay so.
#[tactic(auto, using(crate::proofs::SoundTables::stay_sound))]
pub fn tables_stay_sound()
    ensures { StaySound }
{}
