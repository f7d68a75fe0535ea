//! What reads files by name.
ghost use Rattle.std.specs.Prelude.{◌≡◌, ℕ, ◌≤◌, Option, None, Some, IsSome, IsErrOf, OnOk, OnErr};
ghost use Rattle.mr_io.specs.Counts.{raised, Rose};
ghost use Rattle.mr_io.specs.Files.{Contents, GainsFile, Grows, IsLonger};

use std::alloc::Global;
use thiserror::Error;

/// Why a file was not read.
#[derive(Debug, Drop, Error)]
pub enum FileFault {
    #[error("the file could not be read")]
    Failed,
    #[error("there is no such file")]
    Missing,
    #[error("the file is too long")]
    Long,
    #[error("out of memory")]
    Memory,
}

/// What reads files by name.
pub trait Files {
    /// What each name holds, where the object tells it.
    ghost told: { Self → Option Contents };

    /// How often a read has failed.
    ghost faults: { Self → ℕ };

    /// How many reads there were.
    ghost reads: { Self → ℕ };

    /// Appends the bytes of a file to `into`, if there are at most `max`. `alloc` gives the memory that is
    /// needed meanwhile.
    fn read(
        &mut self,
        alloc: Global,
        name: &str,
        max: u64,
        into: &mut Vec<u8>,
    ) -> Result<(), FileFault>
        // A read changes no file, and counts whatever it answers.
        ensures contents { told self.new ≡ told self.old }
        ensures counted { reads self.new ≡ raised (reads self.old) }
        ensures faults { faults self.old ≤ faults self.new }

        // What stands in `into` afterwards.
        ensures ok { OnOk result (Grows into.old.items into.new.items) }
        ensures err { OnErr result (into.new.items ≡ into.old.items) }

        // Each answer has its cause. `Memory` may always come.
        ensures whole { (files : Contents) → told self.old ≡ Some files
            → OnOk result (GainsFile files name.now max into.old.items into.new.items) }
        ensures missing { (files : Contents) → told self.old ≡ Some files
            → IsErrOf result FileFault.Missing → files name.now ≡ None }
        ensures long { (files : Contents) → told self.old ≡ Some files
            → IsErrOf result FileFault.Long → IsLonger files name.now max }
        ensures telling { IsErrOf result FileFault.Missing → IsSome (told self.old) }
        ensures failed { IsErrOf result FileFault.Failed → Rose (faults self.old) (faults self.new) }
        ensures quiet { ¬ IsErrOf result FileFault.Failed → faults self.new ≡ faults self.old };
}
