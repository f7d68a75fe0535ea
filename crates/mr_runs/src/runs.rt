//! The list of the bytes of an allocation.
ghost use Rattle.std.specs.Prelude.{◌≡◌, ◌≤◌, ◌+◌, ◌<◌, ◌++◌, length, take, drop, replicate, IfOk, OnOk, OnErr};
ghost use Rattle.mr_base.specs.declared.byte.AbstractByte.TheVariants.{Uninit};
ghost use Rattle.mr_runs.specs.Numbers.{with_provenance};
ghost use Rattle.mr_runs.specs.Pieces.{bytes_of_pieces, AreMaximal};
ghost use Rattle.mr_runs.specs.Ranges.{with_range_replaced};

use crate::OutOfMemory;
use crate::kept::{Kept, put_piece, uninit_runs, write_bytes};
use crate::views::{Piece, View, lend};
use mr_base::{AbstractByte, AllocId};
use std::alloc::Global;
use std::marker::Model;

/// A list of abstract bytes, as an allocation holds them. (MiniRust, memory: abstract bytes.)
///
/// Positions and lengths are in bytes. The only error of its calls is want of memory, and then nothing has changed. The bytes
/// are kept in runs, each under the position where it begins, until a change would copy many that it leaves as they are:
/// from then on each byte has a place for its number, and the runs have none.
#[derive(Drop)]
pub struct Runs {
    kept: Kept,
    len: u64,
    alloc: Global,
}

impl Model for Runs {
    ghost use Rattle.std.specs.Prelude.{List, ◌≡◌};
    ghost use Rattle.mr_base.specs.declared.byte.AbstractByte.{AbstractByte};

    ghost Value = { List AbstractByte };

    ghost use Rattle.mr_runs.specs.Placed.{bytes_in};
    ghost use Rattle.mr_runs.specs.Stamped.{entries_of, IsSound};

    ghost view = { λ r. bytes_in (entries_of r.kept) };

    ghost invariant = { λ r. IsSound r.kept r.len };
}

impl Runs {
    /// A list of `len` uninitialised bytes.
    pub fn uninit(alloc: Global, len: u64) -> Result<Runs, OutOfMemory>
        ensures { IfOk result (λ runs. runs ≡ replicate len Uninit) }
    {
        let runs = uninit_runs(alloc, len)?;
        Ok(Runs {
            kept: Kept::Whole(runs),
            len,
            alloc,
        })
    }

    /// The `len` bytes from the position `from` on, lent in as few pieces as can be. This takes no memory.
    pub fn view(&self, from: u64, len: u64) -> View<'_>
        requires { from + len ≤ length self.now }
        ensures same { bytes_of_pieces result ≡ take len (drop from self.now) }
        ensures maximal { AreMaximal result }
    {
        let _all = self.len();
        lend(&self.kept, from, len)
    }

    /// Puts `bytes` in place of just as many bytes from the position `from` on.
    pub fn write(&mut self, from: u64, bytes: &[AbstractByte]) -> Result<(), OutOfMemory>
        requires { from + length bytes.now ≤ length self.old }
        ensures ok { OnOk result (self.new ≡ with_range_replaced self.old from bytes.now) }
        ensures err { OnErr result (self.new ≡ self.old) }
    {
        let _all = self.len();
        if bytes.is_empty() {
            return Ok(());
        }
        write_bytes(self.alloc, &mut self.kept, self.len, from, bytes)
    }

    /// Puts initialised bytes with these numbers and one provenance in place of just as many bytes from the position `from` on. Where the
    /// bytes there have that provenance too, it takes no memory.
    pub fn write_numbers(
        &mut self,
        from: u64,
        numbers: &[u8],
        provenance: Option<AllocId>,
    ) -> Result<(), OutOfMemory>
        requires { from + length numbers.now ≤ length self.old }
        ensures ok { OnOk result
            (self.new ≡ with_range_replaced self.old from (with_provenance provenance numbers.now)) }
        ensures err { OnErr result (self.new ≡ self.old) }
    {
        let _all = self.len();
        if numbers.is_empty() {
            return Ok(());
        }
        put_piece(
            self.alloc,
            &mut self.kept,
            self.len,
            from,
            Piece::Bytes(numbers, provenance),
        )
    }

    /// Puts `byte` in place of each of the `len` bytes from the position `from` on.
    pub fn fill(&mut self, from: u64, len: u64, byte: AbstractByte) -> Result<(), OutOfMemory>
        requires { from + len ≤ length self.old }
        ensures ok { OnOk result (self.new ≡ with_range_replaced self.old from (replicate len byte)) }
        ensures err { OnErr result (self.new ≡ self.old) }
    {
        let _all = self.len();
        match byte {
            AbstractByte::Uninit => self.fill_uninit(from, len),
            AbstractByte::Init(number, provenance) => {
                let numbers = vec![in self.alloc; number; len as usize]?;
                self.write_numbers(from, numbers.as_slice(), provenance)
            }
        }
    }

    /// Makes the `len` bytes from the position `from` on uninitialised.
    pub fn fill_uninit(&mut self, from: u64, len: u64) -> Result<(), OutOfMemory>
        requires { from + len ≤ length self.old }
        ensures ok { OnOk result (self.new ≡ with_range_replaced self.old from (replicate len Uninit)) }
        ensures err { OnErr result (self.new ≡ self.old) }
    {
        let _all = self.len();
        if len == 0 {
            return Ok(());
        }
        put_piece(
            self.alloc,
            &mut self.kept,
            self.len,
            from,
            Piece::Uninit(len),
        )
    }

    /// Appends the `len` bytes from the position `from` on to `out`.
    pub fn copy_out(
        &self,
        alloc: Global,
        from: u64,
        len: u64,
        out: &mut Vec<AbstractByte>,
    ) -> Result<(), OutOfMemory>
        requires { from + len ≤ length self.now }
        ensures ok { OnOk result (out.new.items ≡ out.old.items ++ take len (drop from self.now)) }
        ensures err { OnErr result (out.new.items ≡ out.old.items) }
    {
        let view = self.view(from, len);
        let mut bytes = Vec::new(alloc);
        for at in 0..len {
            bytes.push(view.byte(at))?;
        }
        out.extend_from_slice(bytes.as_slice())
    }

    /// How many bytes there are.
    pub fn len(&self) -> u64
        ensures { result ≡ length self.now }
    {
        self.len
    }
}
