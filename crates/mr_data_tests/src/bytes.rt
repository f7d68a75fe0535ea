//! Runs of bytes and views of them.
ghost use Rattle.std.specs.Prelude.{◌≡◌, length, OnOk};

use mr_base::{AbstractByte, AllocId};
use mr_runs::{OutOfMemory, Runs, View};
use std::alloc::Global;
use std::string::String;
use std::test::Fail;

// The allocation of the provenance that bytes have.
const SECOND: AllocId = AllocId {
    thread: 1,
    count: 7,
};

const FIVE: AbstractByte = AbstractByte::Init(5, Some(SECOND));

const SIX: AbstractByte = AbstractByte::Init(6, Some(SECOND));

// Two hexadecimal digits, and behind `@` the allocation of the provenance, where the byte has one.
fn show_byte(told: &mut String, byte: AbstractByte) -> Result<(), OutOfMemory> {
    match byte {
        AbstractByte::Uninit => write!(told, " --"),
        AbstractByte::Init(number, None) => write!(told, " {number:02x}"),
        AbstractByte::Init(number, Some(AllocId { thread, count })) => {
            write!(told, " {number:02x}@{thread}.{count}")
        }
    }
}

// Appends the words of bytes, each behind a blank.
fn show(told: &mut String, bytes: &[AbstractByte]) -> Result<(), OutOfMemory> {
    for byte in bytes {
        show_byte(told, *byte)?;
    }
    Ok(())
}

// Tells a six, four bytes and the second of them.
fn tell_copy(alloc: Global, told: &mut String, runs: &Runs) -> Result<(), OutOfMemory>
    requires { length runs.now ≡ 4 }
{
    let mut bytes = vec![in alloc; SIX]?;
    runs.copy_out(alloc, 0, 4, &mut bytes)?;
    runs.copy_out(alloc, 1, 1, &mut bytes)?;
    show(told, bytes.as_slice())?;
    write!(told, "\n")
}

// Tells the length of a view and its first three pieces.
fn tell_view(told: &mut String, view: &View<'_>) -> Result<(), OutOfMemory> {
    let (first, second, third) = (view.piece(0), view.piece(1), view.piece(2));
    write!(told, "{} {first:?} {second:?} {third:?}\n", view.len())
}

// Tells the middle two of four bytes, and the views of them, of the last and of none.
fn tell_views(told: &mut String, runs: &Runs) -> Result<(), OutOfMemory>
    requires { length runs.now ≡ 4 }
{
    let middle = runs.view(1, 2);
    show(told, &[middle.byte(0), middle.byte(1)])?;
    write!(told, "\n")?;
    tell_view(told, &middle)?;
    tell_view(told, &runs.view(3, 1))?;
    tell_view(told, &View::empty())
}

// The middle two of four bytes are written, and the first of them is made uninitialised again.
fn tell(alloc: Global, told: &mut String, runs: &mut Runs) -> Result<(), OutOfMemory>
    requires { length runs.old ≡ 4 }
{
    runs.write(1, &[FIVE, SIX])?;
    tell_copy(alloc, told, runs)?;
    tell_views(told, runs)?;
    runs.fill_uninit(1, 1)?;
    tell_copy(alloc, told, runs)
}

fn tell_four(alloc: Global, told: &mut String) -> Result<(), OutOfMemory> {
    match Runs::uninit(alloc, 4) {
        Ok(mut runs) => tell(alloc, told, &mut runs),
        Err(fault) => Err(fault),
    }
}

const WANTED: &str = " 06@1.7 -- 05@1.7 06@1.7 -- 05@1.7
 05@1.7 06@1.7
2 Some(Bytes([5, 6], Some(AllocId { thread: 1, count: 7 }))) None None
1 Some(Uninit(1)) None None
0 None None None
 06@1.7 -- -- 06@1.7 -- --
";

#[test]
fn bytes_are_written_and_viewed(rt: HostRuntime) -> Result<(), Fail> {
    let mut told = String::new(rt.alloc());
    tell_four(rt.alloc(), &mut told)?;
    assert_eq!(rt; told.as_str(), WANTED);
    Ok(())
}

/// A change of eight bytes.
#[derive(Clone, Copy)]
enum Change {
    One(u64, AbstractByte),
    Two(u64, [AbstractByte; 2]),
    Fill(u64),
}

// Changes, each after the one before, and the pieces of all bytes behind it.
const CHANGES: [(Change, &str); 5] = [
    (
        Change::Two(
            2,
            [
                AbstractByte::Init(1, Some(SECOND)),
                AbstractByte::Init(2, Some(SECOND)),
            ],
        ),
        " Uninit(2) Bytes([1, 2], Some(AllocId { thread: 1, count: 7 })) Uninit(4)",
    ),
    (
        Change::One(4, AbstractByte::Init(3, Some(SECOND))),
        " Uninit(2) Bytes([1, 2, 3], Some(AllocId { thread: 1, count: 7 })) Uninit(3)",
    ),
    (
        Change::One(3, AbstractByte::Init(9, None)),
        " Uninit(2) Bytes([1], Some(AllocId { thread: 1, count: 7 })) Bytes([9], None) Bytes([3], \
            Some(AllocId { thread: 1, count: 7 })) Uninit(3)",
    ),
    (
        Change::Fill(3),
        " Uninit(2) Bytes([1], Some(AllocId { thread: 1, count: 7 })) Uninit(1) Bytes([3], Some(AllocId { \
            thread: 1, count: 7 })) Uninit(3)",
    ),
    (
        Change::One(3, AbstractByte::Init(2, Some(SECOND))),
        " Uninit(2) Bytes([1, 2, 3], Some(AllocId { thread: 1, count: 7 })) Uninit(3)",
    ),
];

fn make(runs: &mut Runs, change: Change) -> Result<(), OutOfMemory>
    requires { length runs.old ≡ 8 }
    ensures { OnOk result (length runs.new ≡ 8) }
{
    match change {
        Change::One(from, byte) => runs.write(from % 8, &[byte]),
        Change::Two(from, two) => runs.write(from % 7, two.as_slice()),
        Change::Fill(from) => runs.fill_uninit(from % 8, 1),
    }
}

fn tell_pieces(told: &mut String, view: &View<'_>) -> Result<(), OutOfMemory> {
    for n in 0..view.len() as usize {
        let Some(piece) = view.piece(n) else {
            return Ok(());
        };
        write!(told, " {piece:?}")?;
    }
    Ok(())
}

#[test]
fn runs_are_joined_and_split(rt: HostRuntime) -> Result<(), Fail> {
    let mut runs = Runs::uninit(rt.alloc(), 8)?;
    for (change, wanted) in CHANGES {
        make(&mut runs, change)?;
        let mut told = String::new(rt.alloc());
        tell_pieces(&mut told, &runs.view(0, 8))?;
        assert_eq!(rt; told.as_str(), wanted);
    }
    Ok(())
}
