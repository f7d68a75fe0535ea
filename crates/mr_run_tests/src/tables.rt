//! What calls on the tables of threads and locks answer, and what the tables say behind each of them.
ghost use Rattle.std.specs.Prelude.{◌≡◌, IsTrue, Some, false};
ghost use Rattle.mr_sync.specs.Tables.{IsEnabled, any_waits, holder_of, names_waiter};

use mr_sync::{OutOfMemory, Status, SyncTable};
use std::alloc::Global;
use std::test::Fail;

/// A call on the tables.
#[derive(Clone, Copy)]
enum Call {
    Spawn,
    CreateLock,
    Acquire(u32, u32),
    Release(u32, u32, Option<u32>),
    Join(u32, u32),
    End(u32),
}

fn is_enabled(table: &SyncTable, t: u32) -> bool
    ensures { IsTrue result → IsEnabled t table.now }
{
    matches!(table.status(t), Some(Status::Enabled))
}

// Whether no thread waits for the lock.
#[tactic(auto, using(mr_sync::proofs::Waiters::none_waiting))]
fn is_unawaited(table: &SyncTable, lock: u32) -> bool
    ensures { IsTrue result → any_waits lock table.now ≡ false }
{
    for t in 0..table.threads() {
        if table.waiting(lock, t) {
            return false;
        }
    }
    true
}

// Whether a waiting thread is named where one waits, and none where none does.
#[tactic(auto, using(mr_sync::proofs::Waiters::waiter_counts))]
fn names_right(table: &SyncTable, lock: u32, to: Option<u32>) -> bool
    ensures { IsTrue result → names_waiter lock to table.now ≡ any_waits lock table.now }
{
    match to {
        Some(waiter) => table.waiting(lock, waiter),
        None => is_unawaited(table, lock),
    }
}

fn may_release(table: &SyncTable, t: u32, lock: u32, to: Option<u32>) -> bool
    ensures { IsTrue result → holder_of lock table.now ≡ Some t → names_waiter lock to table.now ≡ any_waits lock table.now }
{
    table.holder(lock) != Some(t) || names_right(table, lock, to)
}

fn spawned(table: &mut SyncTable, told: &mut String) -> Result<(), OutOfMemory> {
    if table.threads() < 1024 {
        let number = table.spawn()?;
        write!(told, "{number}")
    } else {
        write!(told, "full")
    }
}

fn created(table: &mut SyncTable, told: &mut String) -> Result<(), OutOfMemory> {
    if table.locks() < 4096 {
        let number = table.create_lock()?;
        write!(told, "{number}")
    } else {
        write!(told, "full")
    }
}

// The end of a thread, with what stands in the list of the woken threads behind the 9 that stood there before.
fn ended(alloc: Global, table: &mut SyncTable, t: u32, told: &mut String) -> Result<(), OutOfMemory>
    requires { IsEnabled t table.old }
{
    let mut woken = Vec::new(alloc);
    woken.push(9)?;
    table.end(t, &mut woken)?;
    write!(told, "{:?}", woken.as_slice())
}

// Makes a call that keeps its condition, and appends its answer.
fn answer(
    alloc: Global,
    table: &mut SyncTable,
    call: Call,
    told: &mut String,
) -> Result<(), OutOfMemory> {
    match call {
        Call::Spawn => spawned(table, told),
        Call::CreateLock => created(table, told),
        Call::Acquire(t, lock) if is_enabled(table, t) => {
            let taken = table.acquire(t, lock);
            write!(told, "{taken:?}")
        }
        Call::Release(t, lock, to) if is_enabled(table, t) && may_release(table, t, lock, to) => {
            let released = table.release(t, lock, to);
            write!(told, "{released:?}")
        }
        Call::Join(t, target) if is_enabled(table, t) => {
            let joined = table.join(t, target);
            write!(told, "{joined:?}")
        }
        Call::End(t) if is_enabled(table, t) => ended(alloc, table, t, told),
        _ => write!(told, "no call"),
    }
}

fn show_status(told: &mut String, status: Option<Status>) -> Result<(), OutOfMemory> {
    match status {
        Some(Status::Enabled) => write!(told, " on"),
        Some(Status::OnJoin(target)) => write!(told, " join{target}"),
        Some(Status::OnLock(lock)) => write!(told, " lock{lock}"),
        Some(Status::Ended) => write!(told, " end"),
        None => write!(told, " -"),
    }
}

fn show_holder(told: &mut String, holder: Option<u32>) -> Result<(), OutOfMemory> {
    match holder {
        Some(t) => write!(told, " {t}"),
        None => write!(told, " -"),
    }
}

// The statuses of the first four threads, the holders of the first two locks, and whether a thread can go on.
fn show_tables(told: &mut String, table: &SyncTable) -> Result<(), OutOfMemory> {
    for t in 0..4 {
        show_status(told, table.status(t))?;
    }
    write!(told, " |")?;
    for lock in 0..2 {
        show_holder(told, table.holder(lock))?;
    }
    write!(
        told,
        " | {} {} {}\n",
        table.threads(),
        table.locks(),
        table.any_enabled()
    )
}

// A line for each call: its answer, and what the tables say behind it.
fn told(alloc: Global, calls: &[Call]) -> Result<String, OutOfMemory> {
    let mut told = String::new(alloc);
    let mut table = SyncTable::new(alloc)?;
    for call in calls {
        answer(alloc, &mut table, *call, &mut told)?;
        show_tables(&mut told, &table)?;
    }
    Ok(told)
}

static CALLS: [(&[Call], &str); 5] = [
    // A lock is handed to the thread that is named, past one that waits longer; the last release frees it.
    (
        &[
            Call::Spawn,
            Call::Spawn,
            Call::CreateLock,
            Call::Acquire(0, 0),
            Call::Acquire(1, 0),
            Call::Acquire(2, 0),
            Call::Release(0, 0, None),
            Call::Release(0, 0, Some(0)),
            Call::Release(0, 0, Some(2)),
            Call::Release(2, 0, Some(1)),
            Call::Release(1, 0, None),
        ],
        "1 on on - - | - - | 2 0 true
2 on on on - | - - | 3 0 true
0 on on on - | - - | 3 1 true
Ok(true) on on on - | 0 - | 3 1 true
Ok(false) on lock0 on - | 0 - | 3 1 true
Ok(false) on lock0 lock0 - | 0 - | 3 1 true
no call on lock0 lock0 - | 0 - | 3 1 true
no call on lock0 lock0 - | 0 - | 3 1 true
Ok(()) on lock0 on - | 2 - | 3 1 true
Ok(()) on on on - | 1 - | 3 1 true
Ok(()) on on on - | - - | 3 1 true
",
    ),
    // Who doesn't hold a lock can't release it, and an unknown lock is told first; an own lock blocks.
    (
        &[
            Call::CreateLock,
            Call::CreateLock,
            Call::Release(0, 0, Some(7)),
            Call::Spawn,
            Call::Acquire(1, 0),
            Call::Release(0, 0, None),
            Call::Release(0, 2, None),
            Call::Acquire(0, 2),
            Call::Acquire(0, 1),
            Call::Acquire(0, 1),
            Call::Acquire(0, 0),
            Call::End(1),
        ],
        "0 on - - - | - - | 1 1 true
1 on - - - | - - | 1 2 true
Err(NotHolder) on - - - | - - | 1 2 true
1 on on - - | - - | 2 2 true
Ok(true) on on - - | 1 - | 2 2 true
Err(NotHolder) on on - - | 1 - | 2 2 true
Err(UnknownLock) on on - - | 1 - | 2 2 true
Err(UnknownLock) on on - - | 1 - | 2 2 true
Ok(true) on on - - | 1 0 | 2 2 true
Ok(false) lock1 on - - | 1 0 | 2 2 true
no call lock1 on - - | 1 0 | 2 2 true
[9] lock1 end - - | 1 0 | 2 2 false
",
    ),
    // All that wait for an end are woken by it, by rising number; a join behind it goes on.
    (
        &[
            Call::Spawn,
            Call::Spawn,
            Call::Spawn,
            Call::Join(3, 1),
            Call::Join(0, 1),
            Call::Join(2, 3),
            Call::End(1),
            Call::Join(3, 1),
            Call::Join(0, 4),
            Call::End(3),
        ],
        "1 on on - - | - - | 2 0 true
2 on on on - | - - | 3 0 true
3 on on on on | - - | 4 0 true
Ok(false) on on on join1 | - - | 4 0 true
Ok(false) join1 on on join1 | - - | 4 0 true
Ok(false) join1 on join3 join1 | - - | 4 0 true
[9, 0, 3] on end join3 on | - - | 4 0 true
Ok(true) on end join3 on | - - | 4 0 true
Err(UnknownThread) on end join3 on | - - | 4 0 true
[9, 2] on end on end | - - | 4 0 true
",
    ),
    // A join of the own thread blocks for ever.
    (
        &[Call::Join(0, 0), Call::Spawn],
        "Ok(false) join0 - - - | - - | 1 0 false
1 join0 on - - | - - | 2 0 true
",
    ),
    (&[], ""),
];

// Asks for one thread and one lock more than there may be.
fn fill(table: &mut SyncTable, told: &mut String) -> Result<(), OutOfMemory> {
    for _ in 0..1024 {
        spawned(table, told)?;
    }
    for _ in 0..4097 {
        created(table, told)?;
    }
    Ok(())
}

fn is_full(table: &SyncTable) -> bool {
    table.threads() == 1024
        && table.locks() == 4096
        && is_enabled(table, 1023)
        && table.status(1024).is_none()
}

// Whether as many threads and locks as there may be are made, and have their numbers.
fn is_filled(alloc: Global) -> Result<bool, OutOfMemory> {
    let mut told = String::new(alloc);
    let mut table = SyncTable::new(alloc)?;
    fill(&mut table, &mut told)?;
    Ok(is_full(&table) && told.ends_with("4095full"))
}

fn is_told(alloc: Global, calls: &[Call], wanted: &str) -> Result<bool, OutOfMemory> {
    let said = told(alloc, calls)?;
    Ok(said.as_str() == wanted)
}

// The first row that is told otherwise.
fn first_wrong(alloc: Global) -> Result<Option<usize>, OutOfMemory> {
    for (n, (calls, wanted)) in CALLS.iter().enumerate() {
        if !is_told(alloc, calls, wanted)? {
            return Ok(Some(n));
        }
    }
    Ok(None)
}

#[test]
fn tables_answer(rt: HostRuntime) -> Result<(), Fail> {
    let (wrong, filled) = (first_wrong(rt.alloc())?, is_filled(rt.alloc())?);
    assert_eq!(rt; (wrong, filled), (None, true));
    Ok(())
}
