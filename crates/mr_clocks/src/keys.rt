//! What two steps may have in common: the keys under which a step is noted, and those that a later step asks.

ghost use Rattle.std.specs.Prelude.{◌≡◌, ◌++◌, IfOk, IsTrue, OnOk, Some, true, false};
ghost use Rattle.std.specs.List.{list_any};
ghost use Rattle.mr_base.specs.Accesses.{conflicts as conflict_of, races as race_of};
ghost use Rattle.mr_base.specs.Identities.{same_id as is_same_id};
ghost use Rattle.mr_event.specs.Footprints.{lock_of, same_number, spawns};
ghost use Rattle.mr_clocks.specs.Keys.{IsWakes, asks as does_ask, creates, end_asked, end_noted, event_asked, event_noted, joins, key_races};
ghost use Rattle.mr_clocks.specs.Keys.{is_shared as has_one_row, keys_asked, keys_noted, lock_key, made_keys, range_keys, spawns_some, stores as does_store, touched_keys};

use mr_base::{Access, AllocId, ranges_meet};
use mr_event::{Event, Footprint, OutOfMemory};
use std::alloc::Global;

/// What two steps may have in common.
#[derive(Clone, Copy, Debug, PartialEq, Eq)]
pub enum Key {
    /// A lock: noted by steps that store nothing, which stand in one row, and by those that store something.
    Lock(u32),
    Storing(u32),
    /// The making of a lock.
    Creation,
    /// The making of a thread.
    Spawning,
    /// A thread that one of them starts or ends, and the other joins: noted by the first, and by the second.
    Starts(u32),
    Joins(u32),
    /// An allocation that one of them made, or touched.
    Made(AllocId),
    Touched(AllocId),
    /// A range of addresses, with what was done to it.
    Range(Access),
    /// A thread that one of them wakes.
    Wakes(u32),
}

/// Whether two accesses are equal.
pub(crate) fn same_access(a: Access, b: Access) -> bool
    ensures { IsTrue result → a ≡ b }
{
    a == b
}

/// Whether two keys are one.
pub(crate) fn same_key(a: Key, b: Key) -> bool
    ensures { IsTrue result → a ≡ b }
{
    a == b
}

// Appends the keys of accesses.
fn add_ranges(keys: &mut Vec<Key>, accesses: &[Access]) -> Result<(), OutOfMemory>
    ensures { OnOk result (keys.new.items ≡ keys.old.items ++ range_keys accesses.now) }
{
    for i in 0..accesses.len() {
        keys.push(Key::Range(accesses[i]))?;
    }
    Ok(())
}

// Appends the keys of allocations that were made.
fn add_made(keys: &mut Vec<Key>, ids: &[AllocId]) -> Result<(), OutOfMemory>
    ensures { OnOk result (keys.new.items ≡ keys.old.items ++ made_keys ids.now) }
{
    for i in 0..ids.len() {
        keys.push(Key::Made(ids[i]))?;
    }
    Ok(())
}

// Appends the keys of allocations that were touched.
fn add_touched(keys: &mut Vec<Key>, ids: &[AllocId]) -> Result<(), OutOfMemory>
    ensures { OnOk result (keys.new.items ≡ keys.old.items ++ touched_keys ids.now) }
{
    for i in 0..ids.len() {
        keys.push(Key::Touched(ids[i]))?;
    }
    Ok(())
}

/// Whether the steps of all threads that are noted under the key stand in one row.
pub(crate) fn is_shared(key: Key) -> bool
    ensures { result ≡ has_one_row key }
{
    match key {
        Key::Lock(_) => true,
        _ => false,
    }
}

// Whether some of the accesses stores.
fn some_stores(accesses: &[Access]) -> bool
    ensures { result ≡ list_any (λ a. a.store) accesses.now }
{
    accesses.iter().any(|a| a.store)
}

// Whether some access of the step stores.
fn stores(step: &Footprint) -> bool
    ensures { result ≡ does_store step.now }
{
    some_stores(step.accesses())
}

// The key of a lock in whose rows a step is noted that acts on it.
fn key_of_lock(storing: bool, lock: u32) -> Key
    ensures { result ≡ lock_key storing lock }
{
    if storing {
        Key::Storing(lock)
    } else {
        Key::Lock(lock)
    }
}

// Appends the keys in whose rows a step with an event is noted, by whether some access of it stores.
fn add_event_noted(keys: &mut Vec<Key>, storing: bool, event: Event) -> Result<(), OutOfMemory>
    ensures { OnOk result (keys.new.items ≡ keys.old.items ++ event_noted storing event) }
{
    match event {
        Event::Quiet => keys.extend_from_slice(&[]),
        Event::CreateLock(lock) => {
            keys.extend_from_slice(&[key_of_lock(storing, lock), Key::Creation])
        }
        Event::Acquire(lock) => keys.extend_from_slice(&[key_of_lock(storing, lock)]),
        Event::Release(lock) => keys.extend_from_slice(&[key_of_lock(storing, lock)]),
        Event::Spawn(thread) => { keys.extend_from_slice(&[Key::Spawning, Key::Starts(thread)]) }
        Event::Join(thread) => keys.extend_from_slice(&[Key::Joins(thread)]),
    }
}

// Appends the keys that a step with an event asks.
fn add_event_asked(keys: &mut Vec<Key>, event: Event) -> Result<(), OutOfMemory>
    ensures { OnOk result (keys.new.items ≡ keys.old.items ++ event_asked event) }
{
    match event {
        Event::Quiet => keys.extend_from_slice(&[]),
        Event::CreateLock(lock) => {
            keys.extend_from_slice(&[Key::Lock(lock), Key::Storing(lock), Key::Creation])
        }
        Event::Acquire(lock) => keys.extend_from_slice(&[Key::Lock(lock), Key::Storing(lock)]),
        Event::Release(lock) => keys.extend_from_slice(&[Key::Lock(lock), Key::Storing(lock)]),
        Event::Spawn(thread) => keys.extend_from_slice(&[Key::Spawning, Key::Joins(thread)]),
        Event::Join(thread) => keys.extend_from_slice(&[Key::Starts(thread)]),
    }
}

// Appends the key in whose row a step that ended its thread is noted.
fn add_end_noted(keys: &mut Vec<Key>, ended: bool, thread: u32) -> Result<(), OutOfMemory>
    ensures { OnOk result (keys.new.items ≡ keys.old.items ++ end_noted ended thread) }
{
    if ended {
        keys.extend_from_slice(&[Key::Starts(thread)])
    } else {
        keys.extend_from_slice(&[])
    }
}

// Appends the key that a step that ended its thread asks.
fn add_end_asked(keys: &mut Vec<Key>, ended: bool, thread: u32) -> Result<(), OutOfMemory>
    ensures { OnOk result (keys.new.items ≡ keys.old.items ++ end_asked ended thread) }
{
    if ended {
        keys.extend_from_slice(&[Key::Joins(thread)])
    } else {
        keys.extend_from_slice(&[])
    }
}

/// The keys in whose rows a step is noted: those under which it is noted but the ones of woken threads.
pub(crate) fn noted_by(alloc: Global, step: &Footprint) -> Result<Vec<Key>, OutOfMemory>
    ensures { IfOk result (λ v. v.items ≡ keys_noted step.now) }
{
    let mut keys = Vec::new(alloc);
    add_event_noted(&mut keys, stores(step), step.event())?;
    add_end_noted(&mut keys, step.ended(), step.thread())?;
    add_made(&mut keys, step.allocated())?;
    add_touched(&mut keys, step.touched())?;
    add_ranges(&mut keys, step.accesses())?;
    Ok(keys)
}

/// The keys but ranges that a step asks.
pub(crate) fn asked_by(alloc: Global, step: &Footprint) -> Result<Vec<Key>, OutOfMemory>
    ensures { IfOk result (λ v. v.items ≡ keys_asked step.now) }
{
    let mut keys = Vec::new(alloc);
    keys.push(Key::Wakes(step.thread()))?;
    add_event_asked(&mut keys, step.event())?;
    add_end_asked(&mut keys, step.ended(), step.thread())?;
    add_made(&mut keys, step.touched())?;
    add_made(&mut keys, step.freed())?;
    add_touched(&mut keys, step.freed())?;
    Ok(keys)
}

// Whether two accesses overlap, and one of them stores.
fn conflict(a: Access, b: Access) -> bool
    ensures { result ≡ conflict_of a b }
{
    (a.store || b.store) && ranges_meet(a.addr, a.len, b.addr, b.len)
}

/// Whether two accesses race.
pub(crate) fn race(a: Access, b: Access) -> bool
    ensures { result ≡ race_of a b }
{
    (!a.atomic || !b.atomic) && conflict(a, b)
}

/// Whether an access races with one of these.
pub(crate) fn races_with(a: Access, others: &[Access]) -> bool
    ensures { result ≡ list_any (race_of a) others.now }
{
    others.iter().any(|b| race(a, *b))
}

// Whether an access conflicts with one of these.
fn conflicts_with(a: Access, others: &[Access]) -> bool
    ensures { result ≡ list_any (conflict_of a) others.now }
{
    others.iter().any(|b| conflict(a, *b))
}

// Whether two allocations are one.
fn same_id(a: AllocId, b: AllocId) -> bool
    ensures { result ≡ is_same_id a b }
{
    a.thread == b.thread && a.count == b.count
}

// Whether an allocation is among these.
fn is_among(a: AllocId, ids: &[AllocId]) -> bool
    ensures { result ≡ list_any (is_same_id a) ids.now }
{
    ids.iter().any(|b| same_id(a, *b))
}

// Whether a step with an event asks a lock.
fn asks_lock(lock: u32, event: Event) -> bool
    ensures { result ≡ same_number (lock_of event) (Some lock) }
{
    match event {
        Event::CreateLock(other) | Event::Acquire(other) | Event::Release(other) => other == lock,
        Event::Quiet | Event::Spawn(_) | Event::Join(_) => false,
    }
}

// Whether an event joins a thread.
fn asks_start(thread: u32, event: Event) -> bool
    ensures { result ≡ joins event thread }
{
    match event {
        Event::Join(joined) => joined == thread,
        _ => false,
    }
}

// Whether an event starts a thread.
fn asks_joins(thread: u32, event: Event) -> bool
    ensures { result ≡ spawns event thread }
{
    match event {
        Event::Spawn(spawned) => spawned == thread,
        _ => false,
    }
}

// Whether an event makes a lock.
fn asks_creation(event: Event) -> bool
    ensures { result ≡ creates event }
{
    match event {
        Event::CreateLock(_) => true,
        _ => false,
    }
}

/// Whether an event makes a thread.
pub(crate) fn asks_spawning(event: Event) -> bool
    ensures { result ≡ spawns_some event }
{
    match event {
        Event::Spawn(_) => true,
        _ => false,
    }
}

/// Whether the step asks the key.
pub(crate) fn asks(key: Key, step: &Footprint) -> bool
    ensures { result ≡ does_ask step.now key }
{
    match key {
        Key::Lock(lock) | Key::Storing(lock) => asks_lock(lock, step.event()),
        Key::Creation => asks_creation(step.event()),
        Key::Spawning => asks_spawning(step.event()),
        Key::Starts(thread) => asks_start(thread, step.event()),
        Key::Joins(thread) => {
            asks_joins(thread, step.event()) || (step.ended() && step.thread() == thread)
        }
        Key::Made(a) => is_among(a, step.touched()) || is_among(a, step.freed()),
        Key::Touched(a) => is_among(a, step.freed()),
        Key::Range(a) => conflicts_with(a, step.accesses()),
        Key::Wakes(thread) => step.thread() == thread,
    }
}

/// Whether an edge to the step may come from an earlier one that is noted under the key, which the step asks: not where
/// the key is a range with which one of its accesses races.
pub(crate) fn may_bind(key: Key, step: &Footprint) -> bool
    ensures { IsTrue (does_ask step.now key) → key_races key step.now ≡ false → IsTrue result }
{
    match key {
        Key::Range(a) => !races_with(a, step.accesses()),
        _ => true,
    }
}

/// Whether some access of the step races with the range that the key names.
pub(crate) fn may_race(key: Key, step: &Footprint) -> bool
    ensures raced { IsTrue result → key_races key step.now ≡ true }
    ensures all { key_races key step.now ≡ true → IsTrue result }
{
    match key {
        Key::Range(a) => races_with(a, step.accesses()),
        _ => false,
    }
}

/// Whether the key is that of a woken thread.
pub(crate) fn is_wakes(key: Key) -> bool
    ensures { result ≡ false → IsWakes key → ⊥ }
{
    match key {
        Key::Wakes(_) => true,
        _ => false,
    }
}
