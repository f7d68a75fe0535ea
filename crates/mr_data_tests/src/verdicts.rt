//! Verdicts and statuses are compared, identities put in order, and lists of pairs looked through.
use mr_ast::OutOfMemory;
use mr_base::{AllocId, Pair, Reason, Status, Verdict, any_meeting, any_twice};
use std::string::String;
use std::test::Fail;

// Whether a verdict is equal to its copy and to two others.
fn equal_verdicts() -> [bool; 3] {
    let verdict = Verdict::Undefined(Reason::DataRace);
    let same = verdict;
    [
        verdict == same,
        verdict == Verdict::Undefined(Reason::Overflow),
        verdict == Verdict::Deadlock,
    ]
}

// Whether a status is equal to its copy and to two others.
fn equal_statuses() -> [bool; 3] {
    let status = Status::OnJoin(1);
    let same = status;
    [
        status == same,
        status == Status::OnJoin(2),
        status == Status::OnLock(1),
    ]
}

fn identity(thread: u32, count: u64) -> AllocId {
    AllocId { thread, count }
}

// Whether each of three identities comes before the next one, by thread and then by count.
fn ordered_identities() -> [bool; 2] {
    let (first, second, third) = (identity(0, 9), identity(1, 3), identity(1, 4));
    [first < second, second < third]
}

/// Three pairs, and whether one stands twice among them.
static TWICE: [(Pair, Pair, Pair, bool); 5] = [
    ((0, 2), (0, 1), (0, 3), false),
    ((0, 2), (0, 1), (0, 2), true),
    ((1, 2), (0, 2), (2, 1), false),
    ((1, 7), (0, 7), (1, 7), true),
    ((0, u128::MAX), (1, 0), (0, u128::MAX), true),
];

/// Three ranges, and whether two of them meet.
static MEETING: [(Pair, Pair, Pair, bool); 4] = [
    ((8, 4), (0, 4), (4, 4), false),
    ((8, 4), (0, 5), (4, 4), true),
    ((0, 100), (200, 1), (50, 1), true),
    ((5, 1), (5, 1), (9, 1), true),
];

// The first row that is told otherwise.
fn first_wrong_twice() -> Option<usize> {
    for (n, row) in TWICE.iter().enumerate() {
        let (first, second, third, twice) = *row;
        let mut list = [first, second, third];
        if any_twice(&mut list) != twice {
            return Some(n);
        }
    }
    None
}

// Whether ranges of which none is empty meet.
fn are_meeting(ranges: [Pair; 3]) -> Option<bool> {
    let mut list = ranges;
    if 0 < list[0].1 && 0 < list[1].1 && 0 < list[2].1 {
        Some(any_meeting(&mut list))
    } else {
        None
    }
}

fn first_wrong_meeting() -> Option<usize> {
    for (n, row) in MEETING.iter().enumerate() {
        let (first, second, third, meet) = *row;
        if are_meeting([first, second, third]) != Some(meet) {
            return Some(n);
        }
    }
    None
}

fn tell(told: &mut String) -> Result<(), OutOfMemory> {
    let (verdicts, statuses) = (equal_verdicts(), equal_statuses());
    write!(
        told,
        "{verdicts:?} {statuses:?} {:?}\n",
        ordered_identities()
    )?;
    write!(
        told,
        "{:?} {:?}\n",
        first_wrong_twice(),
        first_wrong_meeting()
    )
}

const WANTED: &str = "[true, false, false] [true, false, false] [true, true]
None None
";

#[test]
fn verdicts_and_pairs(rt: HostRuntime) -> Result<(), Fail> {
    let mut told = String::new(rt.alloc());
    tell(&mut told)?;
    assert_eq!(rt; told.as_str(), WANTED);
    Ok(())
}
