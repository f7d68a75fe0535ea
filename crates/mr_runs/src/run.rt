//! A run: neighbouring bytes with one mark, as they are kept.
ghost use Rattle.std.specs.Prelude.{◌≡◌, ◌↔◌, ◌+◌, ◌<◌, ◌≤◌, ◌^◌, length, map, take, drop, slice_get, IfNone, IfOk, IfSome, IsTrue, OnErr, OnOk, Option};
ghost use Rattle.mr_base.specs.declared.byte.AbstractByte.TheVariants.{Init};
ghost use Rattle.mr_base.specs.declared.byte.AllocId.{AllocId};
ghost use Rattle.mr_runs.specs.Exchanged.{together};
ghost use Rattle.mr_runs.specs.Contents.{marked_piece};
ghost use Rattle.mr_runs.specs.Growing.{with_numbers};
ghost use Rattle.mr_runs.specs.Numbers.{number_of, with_numbers_at, AreOf, IsInPlace, TakesNumbers};
ghost use Rattle.mr_runs.specs.Pieces.{UninitPiece, bytes_of_piece, mark_of, piece_len};
ghost use Rattle.mr_runs.specs.Ranges.{with_range_replaced};
ghost use Rattle.mr_runs.specs.Seen.{seen_piece};
ghost use Rattle.mr_runs.specs.Windows.{first_piece, piece_past};

use crate::OutOfMemory;
use crate::mark::{Mark, is_same};
use crate::views::Piece;
use mr_base::{AbstractByte, AllocId};
use std::alloc::Global;
use std::marker::Model;

/// How a run keeps the numbers of its bytes: itself, or apart from it, and then it has zeros in their place.
pub(crate) trait Numbers: Drop {
    ghost use Rattle.std.specs.Prelude.{List, ℕ, ◌≡◌, length};

    /// The numbers, as the run has them.
    ghost listed: { Self → List ℕ };

    /// How many there are.
    fn count(&self) -> u64
        ensures { result ≡ length (listed self.now) };
}

impl Numbers for Vec<u8> {
    ghost listed = { λ v. v.items };

    fn count(&self) -> u64 {
        self.len() as u64
    }
}

/// So many numbers, which are kept apart.
#[derive(Drop)]
pub(crate) struct Apart {
    count: u64,
}

impl Numbers for Apart {
    ghost use Rattle.std.specs.Prelude.{replicate};

    ghost listed = { λ a. replicate a.count 0 };

    fn count(&self) -> u64 {
        self.count
    }
}

/// What a run keeps.
#[derive(Drop)]
enum Content<N> {
    Uninit(u64),
    Bytes(N, Option<AllocId>),
}

/// So many uninitialised bytes, or the numbers of initialised ones with their provenance. Contracts see its piece.
#[derive(Drop)]
pub(crate) struct Run<N: Numbers> {
    content: Content<N>,
}

impl<N: Numbers> Model for Run<N> {
    ghost use Rattle.mr_runs.specs.Pieces.{SeenPiece};

    ghost Value = { SeenPiece };

    ghost use Rattle.mr_runs.specs.Contents.{piece_of_content};

    ghost view = { λ r. piece_of_content N.listed r.content };
}

impl<N: Numbers> Run<N> {
    /// So many uninitialised bytes.
    pub(crate) fn uninit(len: u64) -> Run<N>
        ensures { result ≡ UninitPiece len }
    {
        Run {
            content: Content::Uninit(len),
        }
    }

    /// How many bytes there are.
    pub(crate) fn len(&self) -> u64
        ensures { result ≡ piece_len self.now }
    {
        match &self.content {
            Content::Uninit(len) => *len,
            Content::Bytes(numbers, _) => numbers.count(),
        }
    }

    /// What the bytes have in common.
    pub(crate) fn mark(&self) -> Mark
        ensures { result ≡ mark_of self.now }
    {
        match &self.content {
            Content::Uninit(_) => Mark::Uninit,
            Content::Bytes(_, provenance) => Mark::Init(*provenance),
        }
    }
}

impl Run<Apart> {
    /// So many bytes with a mark.
    pub(crate) fn marked(len: u64, mark: Mark) -> Run<Apart>
        ensures { result ≡ marked_piece len mark }
    {
        let content = match mark {
            Mark::Uninit => Content::Uninit(len),
            Mark::Init(provenance) => Content::Bytes(Apart { count: len }, provenance),
        };
        Run { content }
    }

    /// How many bytes there are, and what they have in common. It keeps nothing else.
    pub(crate) fn told(&self) -> (u64, Mark)
        ensures { self.now ≡ marked_piece result.0 result.1 }
    {
        match &self.content {
            Content::Uninit(len) => (*len, Mark::Uninit),
            Content::Bytes(numbers, provenance) => (numbers.count, Mark::Init(*provenance)),
        }
    }
}

impl Run<Vec<u8>> {
    /// The bytes of a piece.
    pub(crate) fn of(alloc: Global, piece: Piece<'_>) -> Result<Run<Vec<u8>>, OutOfMemory>
        ensures { IfOk result (λ run. run ≡ seen_piece piece.entry) }
    {
        match piece {
            Piece::Uninit(len) => Ok(Run::uninit(len)),
            Piece::Bytes(numbers, provenance) => {
                let mut own = Vec::new(alloc);
                own.extend_from_slice(numbers)?;
                Ok(Run {
                    content: Content::Bytes(own, provenance),
                })
            }
        }
    }

    /// The run with the bytes of a piece behind its own; the piece has its mark.
    pub(crate) fn with(self, piece: Piece<'_>) -> Result<Run<Vec<u8>>, OutOfMemory>
        requires { piece_len self + piece_len (seen_piece piece) < 2 ^ 64 }
        ensures { IfOk result (λ run. run ≡ together self (seen_piece piece.entry)) }
    {
        let Run { content } = self;
        match content {
            Content::Uninit(len) => Ok(Run::uninit(len + piece.len())),
            Content::Bytes(mut numbers, provenance) => {
                numbers.extend_from_slice(piece.numbers())?;
                Ok(Run {
                    content: Content::Bytes(numbers, provenance),
                })
            }
        }
    }

    /// The byte at a position, counted from the run's first byte.
    pub(crate) fn byte(&self, at: u64) -> AbstractByte
        requires { at < piece_len self.now }
        ensures { slice_get (bytes_of_piece self.now) at ≡ Some result }
    {
        match &self.content {
            Content::Uninit(_) => AbstractByte::Uninit,
            Content::Bytes(numbers, provenance) => {
                AbstractByte::Init(numbers[at as usize], *provenance)
            }
        }
    }

    /// The `len` bytes from the position `from` on, lent.
    pub(crate) fn part(&self, from: u64, len: u64) -> Piece<'_>
        requires { from + len ≤ piece_len self.now }
        ensures { seen_piece result ≡ first_piece (piece_past self.now from) len }
    {
        match &self.content {
            Content::Uninit(_) => Piece::Uninit(len),
            Content::Bytes(numbers, provenance) => {
                Piece::Bytes(
                    slice_of(numbers.as_slice(), from as usize, len as usize),
                    *provenance,
                )
            }
        }
    }

    /// Whether the bytes may be put in place from a position on: the run's are initialised, there are enough, and all have one
    /// provenance.
    pub(crate) fn takes(&self, at: u64, bytes: &[AbstractByte]) -> bool
        requires { at ≤ piece_len self.now }
        ensures { IsTrue result ↔ IsInPlace self.now at bytes.now }
    {
        match &self.content {
            Content::Uninit(_) => false,
            Content::Bytes(numbers, provenance) => {
                if bytes.len() as u64 > numbers.len() as u64 - at {
                    return false;
                }
                are_all_of(bytes, *provenance)
            }
        }
    }

    /// Puts the numbers of bytes in place from a position on.
    pub(crate) fn put(&mut self, at: u64, bytes: &[AbstractByte])
        requires { IsInPlace self.old at bytes.now }
        ensures bytes_are { bytes_of_piece self.new ≡ with_range_replaced (bytes_of_piece self.old) at bytes.now }
        ensures same { mark_of self.new ≡ mark_of self.old }
        ensures len { piece_len self.new ≡ piece_len self.old }
    {
        match &mut self.content {
            Content::Uninit(_) => unreachable!(),
            Content::Bytes(numbers, _) => put_numbers(numbers.as_mut_slice(), at as usize, bytes),
        }
    }

    /// Whether so many numbers with a provenance may be put in place from a position on: the run's bytes are initialised, there are
    /// enough, and they have the provenance.
    pub(crate) fn takes_numbers(&self, at: u64, count: u64, provenance: Option<AllocId>) -> bool
        requires { at ≤ piece_len self.now }
        ensures { IsTrue result ↔ TakesNumbers self.now at count provenance }
    {
        match &self.content {
            Content::Uninit(_) => false,
            Content::Bytes(numbers, own) => {
                count <= numbers.len() as u64 - at
                    && is_same(Mark::Init(*own), Mark::Init(provenance))
            }
        }
    }

    /// Puts numbers in place from a position on.
    pub(crate) fn put_numbers(&mut self, at: u64, numbers: &[u8])
        requires { (p : Option AllocId) × TakesNumbers self.old at (length numbers.now) p }
        ensures { self.new ≡ with_numbers_at self.old at numbers.now }
    {
        match &mut self.content {
            Content::Uninit(_) => unreachable!(),
            Content::Bytes(own, _) => replace_numbers(own.as_mut_slice(), at as usize, numbers),
        }
    }

    /// Puts numbers behind those of initialised bytes.
    pub(crate) fn grow(&mut self, numbers: &[u8]) -> Result<(), OutOfMemory>
        ensures ok { OnOk result (self.new ≡ with_numbers self.old numbers.now) }
        ensures err { OnErr result (self.new ≡ self.old) }
    {
        match &mut self.content {
            Content::Uninit(_) => Ok(()),
            Content::Bytes(own, _) => own.extend_from_slice(numbers),
        }
    }
}

/// The numbers of bytes.
pub(crate) fn numbers_of(alloc: Global, bytes: &[AbstractByte]) -> Result<Vec<u8>, OutOfMemory>
    ensures { IfOk result (λ numbers. numbers.items ≡ map number_of bytes.now) }
{
    let mut numbers = Vec::new(alloc);
    for byte in bytes {
        numbers.push(number(*byte))?;
    }
    Ok(numbers)
}

/// The provenance that all the bytes have, if there are some and all are initialised.
pub(crate) fn provenance_of(bytes: &[AbstractByte]) -> Option<Option<AllocId>>
    ensures some { IfSome result (λ p. (0 < length bytes.now) × AreOf p bytes.now) }
    ensures none { IfNone result ((p : Option AllocId) → 0 < length bytes.now → AreOf p bytes.now → ⊥) }
{
    match bytes {
        [AbstractByte::Init(_, provenance), ..] => {
            if are_all_of(bytes, *provenance) {
                Some(*provenance)
            } else {
                None
            }
        }
        _ => None,
    }
}

/// A part of a slice.
pub(crate) fn slice_of(numbers: &[u8], from: usize, len: usize) -> &[u8]
    requires { from + len ≤ length numbers.now }
    ensures { result.now ≡ take len (drop from numbers.now) }
{
    &numbers[from..from + len]
}

// Whether all bytes are initialised with the provenance.
fn are_all_of(bytes: &[AbstractByte], provenance: Option<AllocId>) -> bool
    ensures { IsTrue result ↔ AreOf provenance bytes.now }
{
    for byte in bytes {
        if !is_of(*byte, provenance) {
            return false;
        }
    }
    true
}

// Whether the byte is initialised with the provenance.
fn is_of(byte: AbstractByte, provenance: Option<AllocId>) -> bool
    ensures { IsTrue result ↔ (byte ≡ Init (number_of byte) provenance) }
{
    match byte {
        AbstractByte::Uninit => false,
        AbstractByte::Init(_, its) => is_same(Mark::Init(its), Mark::Init(provenance)),
    }
}

// The number of a byte.
fn number(byte: AbstractByte) -> u8
    ensures { result ≡ number_of byte }
{
    match byte {
        AbstractByte::Uninit => 0,
        AbstractByte::Init(number, _) => number,
    }
}

/// Puts the numbers of bytes in place of as many numbers.
pub(crate) fn put_numbers(numbers: &mut [u8], at: usize, bytes: &[AbstractByte])
    requires { at + length bytes.now ≤ length numbers.old }
    ensures { numbers.new ≡ with_range_replaced numbers.old at (map number_of bytes.now) }
{
    for (index, byte) in bytes.iter().enumerate() {
        numbers[at + index] = number(*byte);
    }
}

/// Puts numbers in place of as many others.
pub(crate) fn replace_numbers(numbers: &mut [u8], at: usize, others: &[u8])
    requires { at + length others.now ≤ length numbers.old }
    ensures { numbers.new ≡ with_range_replaced numbers.old at others.now }
{
    for (index, number) in others.iter().enumerate() {
        numbers[at + index] = *number;
    }
}
