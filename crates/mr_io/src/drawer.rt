//! Files in memory, of which chosen reads fail.
ghost use Rattle.std.specs.Prelude.{◌≡◌, ◌≤◌, ◌↔◌, [], ◌∷◌, ◌++◌, Some, None, IsErrOf, OnOk, OnErr};
ghost use Rattle.std.specs.Option.{option_copied};
ghost use Rattle.mr_io.specs.Counts.{raised};
ghost use Rattle.mr_io.specs.Drawer.{contents_of, FailsNext};
ghost use Rattle.mr_io.specs.Files.{GainsFile, IsLonger};

use crate::OutOfMemory;
use crate::files::{FileFault, Files};
use crate::text::Text;
use sqlite_items::Items;
use std::alloc::Global;

/// A file in memory.
#[derive(Debug, Drop)]
pub struct File {
    pub name: Text,
    pub bytes: Items<u8>,
}

/// Files in memory, of which chosen reads fail.
#[derive(Debug, Drop)]
pub struct Drawer {
    /// Where two have one name, the first is read.
    pub files: Items<File>,
    /// The numbers of the reads that fail. The first read is number 1.
    pub fails: Items<u64>,
    /// How many reads there were. The count stands still at its last value.
    pub calls: u64,
    /// How many of them failed.
    pub faults: u64,
}

impl Drawer {
    /// No file, and no read that fails.
    pub fn new(alloc: Global) -> Drawer
        ensures { result ≡ record { files = []; fails = []; calls = 0; faults = 0 } }
    {
        Drawer {
            files: Items::new(alloc),
            fails: Items::new(alloc),
            calls: 0,
            faults: 0,
        }
    }

    /// Puts a file behind the others.
    pub fn add(&mut self, alloc: Global, name: &str, bytes: &[u8]) -> Result<(), OutOfMemory>
        ensures ok { OnOk result (self.new ≡ record self.old {
          files = self.old.files ++ record { name = name.now; bytes = bytes.now } ∷ [];
        }) }
        ensures err { OnErr result (self.new ≡ self.old) }
    {
        let name = Text::from_str(alloc, name)?;
        let bytes = Items::from_slice(alloc, bytes)?;
        self.files.push(File { name, bytes })
    }
}

impl Files for Drawer {
    ghost told = { λ d. Some (contents_of d.files) };

    ghost faults = { λ d. d.faults };

    ghost reads = { λ d. d.calls };

    fn read(
        &mut self,
        _alloc: Global,
        name: &str,
        max: u64,
        into: &mut Vec<u8>,
    ) -> Result<(), FileFault>
        ensures files { self.new.files ≡ self.old.files }
        ensures fails { self.new.fails ≡ self.old.fails }
        ensures calls { self.new.calls ≡ raised self.old.calls }

        // Chosen reads fail and count, and no others.
        ensures failed { IsErrOf result FileFault.Failed ↔ FailsNext self.old }
        ensures fault { IsErrOf result FileFault.Failed → self.new.faults ≡ raised self.old.faults }
        ensures faults { self.old.faults ≤ self.new.faults }
        ensures no_fault { ¬ IsErrOf result FileFault.Failed → self.new.faults ≡ self.old.faults }

        // Another read answers by what the name holds.
        ensures missing { IsErrOf result FileFault.Missing
            ↔ ((¬ FailsNext self.old) × (contents_of self.old.files name.now ≡ None)) }
        ensures long { IsErrOf result FileFault.Long
            ↔ ((¬ FailsNext self.old) × IsLonger (contents_of self.old.files) name.now max) }
        ensures whole { OnOk result
            (GainsFile (contents_of self.old.files) name.now max into.old.items into.new.items) }
        ensures err { OnErr result (into.new.items ≡ into.old.items) }
    {
        self.calls = self.calls.saturating_add(1);
        if self.fails.as_slice().contains(&self.calls) {
            self.faults = self.faults.saturating_add(1);
            return Err(FileFault::Failed);
        }
        let Some(bytes) = bytes_at(self.files.as_slice(), name) else {
            return Err(FileFault::Missing);
        };
        if bytes.len() as u64 > max {
            return Err(FileFault::Long);
        }
        match into.extend_from_slice(bytes) {
            Ok(()) => Ok(()),
            Err(_) => Err(FileFault::Memory),
        }
    }
}

// The bytes of the first file of the name.
fn bytes_at<'a>(files: &'a [File], name: &str) -> Option<&'a [u8]>
    ensures { option_copied result ≡ contents_of files.now name.now }
{
    files
        .iter()
        .find(|file| file.name.as_str() == name)
        .map(|file| file.bytes.as_slice())
}
