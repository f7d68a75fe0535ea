//! The tables of threads and locks.

use crate::OutOfMemory;
use crate::status::{append_joiners, is_enabled, wake_joiners};
use mr_base::{Reason, Status};
use std::alloc::Global;
use std::marker::Model;

/// The status of each thread and the holder of each lock. There are at most as many threads and locks as a run may have.
#[derive(Drop)]
pub struct SyncTable {
    statuses: Vec<Status>,
    holders: Vec<Option<u32>>,
}

impl Model for SyncTable {
    ghost use Rattle.std.specs.Prelude.{◌≤◌, length};
    ghost use Rattle.mr_base.specs.Limits.{max_locks, max_threads};
    ghost use Rattle.mr_sync.specs.Tables.{Tables};

    ghost Value = { Tables };

    ghost view = { λ s. record { statuses = s.statuses.items; holders = s.holders.items } };

    ghost invariant = { λ s. (length s.statuses.items ≤ max_threads) × (length s.holders.items ≤ max_locks) };
}

impl SyncTable {
    ghost use Rattle.std.specs.Prelude.{◌≡◌, ◌<◌, ◌++◌, length, slice_get, IfOk, OnOk, OnErr, MatchResult, Some, None, Ok, Err};
    ghost use Rattle.mr_base.specs.Limits.{max_locks, max_threads};
    ghost use Rattle.mr_sync.specs.Tables.{IsEnabled, acquired, any_waits, created, ended, handed, holder_of, is_any_enabled, joined, names_waiter, released, spawned, start_tables, waits};

    /// Thread 0, which is enabled, and no lock.
    pub fn new(alloc: Global) -> Result<SyncTable, OutOfMemory>
        ensures { IfOk result (λ s. s ≡ start_tables) }
    {
        let mut statuses = Vec::new(alloc);
        statuses.push(Status::Enabled)?;
        Ok(SyncTable {
            statuses,
            holders: Vec::new(alloc),
        })
    }

    /// The status of a thread: None exactly where there is no such thread.
    pub fn status(&self, t: u32) -> Option<Status>
        ensures { result ≡ slice_get self.now.statuses t }
    {
        self.statuses.get(t as usize).copied()
    }

    /// How many threads there are, ended ones included.
    pub fn threads(&self) -> u32
        ensures { result ≡ length self.now.statuses }
    {
        self.statuses.len() as u32
    }

    /// How many locks there are.
    pub fn locks(&self) -> u32
        ensures { result ≡ length self.now.holders }
    {
        self.holders.len() as u32
    }

    /// The thread that holds a lock: None exactly where there is no such lock, or it is free.
    pub fn holder(&self, lock: u32) -> Option<u32>
        ensures { result ≡ holder_of lock self.now }
    {
        match self.holders.get(lock as usize) {
            Some(holder) => *holder,
            None => None,
        }
    }

    /// Makes the next thread, and gives its number.
    pub fn spawn(&mut self) -> Result<u32, OutOfMemory>
        requires { length self.old.statuses < max_threads }
        ensures number { IfOk result (λ t. t ≡ (spawned self.old).0) }
        ensures ok { OnOk result (self.new ≡ (spawned self.old).1) }
        ensures err { OnErr result (self.new ≡ self.old) }
    {
        let t = self.statuses.len() as u32;
        self.statuses.push(Status::Enabled)?;
        Ok(t)
    }

    /// Makes the next lock, and gives its number.
    pub fn create_lock(&mut self) -> Result<u32, OutOfMemory>
        requires { length self.old.holders < max_locks }
        ensures number { IfOk result (λ lock. lock ≡ (created self.old).0) }
        ensures ok { OnOk result (self.new ≡ (created self.old).1) }
        ensures err { OnErr result (self.new ≡ self.old) }
    {
        let lock = self.holders.len() as u32;
        self.holders.push(None)?;
        Ok(lock)
    }

    /// Thread `t` takes a free lock, or waits for a taken one, also for its own: false exactly where it waits.
    pub fn acquire(&mut self, t: u32, lock: u32) -> Result<bool, Reason>
        requires { IsEnabled t self.old }
        ensures acquired { MatchResult result (λ b. acquired t lock self.old ≡ Ok (b, self.new))
            (λ r. acquired t lock self.old ≡ Err r) }
        ensures err { OnErr result (self.new ≡ self.old) }
    {
        match self.holders.get(lock as usize) {
            None => Err(Reason::UnknownLock),
            Some(None) => {
                self.holders[lock as usize] = Some(t);
                Ok(true)
            }
            Some(Some(_)) => {
                self.statuses[t as usize] = Status::OnLock(lock);
                Ok(false)
            }
        }
    }

    /// Thread `t` gives a lock back. The waiting thread that `to` names receives it and is enabled; with none it is free.
    /// An unknown lock is told before another holder, and in both cases `to` isn't looked at.
    pub fn release(&mut self, t: u32, lock: u32, to: Option<u32>) -> Result<(), Reason>
        requires enabled { IsEnabled t self.old }
        requires to { holder_of lock self.old ≡ Some t → names_waiter lock to self.old ≡ any_waits lock self.old }
        ensures released { MatchResult result (λ _. released t lock to self.old ≡ Ok self.new)
            (λ r. released t lock to self.old ≡ Err r) }
        ensures err { OnErr result (self.new ≡ self.old) }
    {
        let Some(holder) = self.holders.get(lock as usize) else {
            return Err(Reason::UnknownLock);
        };
        if *holder != Some(t) {
            return Err(Reason::NotHolder);
        }
        self.hand(lock, to);
        Ok(())
    }

    // The waiting thread that is named receives the lock; with none the lock is free.
    fn hand(&mut self, lock: u32, to: Option<u32>)
        requires { lock < length self.old.holders }
        ensures { self.new ≡ handed lock to self.old }
    {
        match to {
            Some(waiter) if self.waiting(lock, waiter) => {
                self.statuses[waiter as usize] = Status::Enabled;
                self.holders[lock as usize] = Some(waiter);
            }
            _ => {
                self.holders[lock as usize] = None;
            }
        }
    }

    /// Thread `t` goes on behind the end of thread `target`, or waits for it: false exactly where it waits.
    pub fn join(&mut self, t: u32, target: u32) -> Result<bool, Reason>
        requires { IsEnabled t self.old }
        ensures joined { MatchResult result (λ b. joined t target self.old ≡ Ok (b, self.new))
            (λ r. joined t target self.old ≡ Err r) }
        ensures err { OnErr result (self.new ≡ self.old) }
    {
        match self.statuses.get(target as usize) {
            None => Err(Reason::UnknownThread),
            Some(Status::Ended) => Ok(true),
            Some(Status::Enabled | Status::OnJoin(_) | Status::OnLock(_)) => {
                self.statuses[t as usize] = Status::OnJoin(target);
                Ok(false)
            }
        }
    }

    /// Thread `t` ends. The threads that wait for that are enabled, and appended to `woken` by rising number.
    pub fn end(&mut self, t: u32, woken: &mut Vec<u32>) -> Result<(), OutOfMemory>
        requires { IsEnabled t self.old }
        ensures ok { OnOk result (self.new ≡ (ended t self.old).0) }
        ensures woken { OnOk result (woken.new.items ≡ woken.old.items ++ (ended t self.old).1) }
        ensures err { OnErr result (self.new ≡ self.old) }
        ensures err_woken { OnErr result (woken.new.items ≡ woken.old.items) }
    {
        append_joiners(self.statuses.as_slice(), t, woken)?;
        self.statuses[t as usize] = Status::Ended;
        wake_joiners(self.statuses.as_mut_slice(), t);
        Ok(())
    }

    /// Whether thread `t` waits for this lock.
    pub fn waiting(&self, lock: u32, t: u32) -> bool
        ensures { result ≡ waits lock t self.now }
    {
        match self.statuses.get(t as usize) {
            Some(Status::OnLock(awaited)) => *awaited == lock,
            _ => false,
        }
    }

    /// Whether some thread can go on.
    pub fn any_enabled(&self) -> bool
        ensures { result ≡ is_any_enabled self.now }
    {
        self.statuses.iter().any(|status| is_enabled(*status))
    }
}
