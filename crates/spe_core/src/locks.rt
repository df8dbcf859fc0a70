//! Numbers of locks.

ghost use Rattle.std.specs.Prelude.{◌≡◌, [], ◌==◌, OnOk, OnErr, length};
ghost use Rattle.spe_core.specs.Locks.{has_lock, with_lock, without_lock};

use std::alloc::{AllocError, Global};
use std::collections::BTreeSet;
use std::marker::Model;

/// Some locks, in the order of their numbers.
#[derive(Drop)]
pub struct Locks {
    set: BTreeSet<u32>,
}

impl Model for Locks {
    ghost use Rattle.std.specs.Prelude.{ℕ, List};
    ghost use Rattle.std.specs.Ordering.{nat_cmp};
    ghost use Rattle.std.specs.BTreeSet.{IsOrdered};

    ghost Value = { List ℕ };

    ghost view = { λ l. l.set.keys };

    ghost invariant = { λ l. IsOrdered nat_cmp l.set };
}

impl Locks {
    /// No locks.
    pub fn new(alloc: Global) -> Locks
        ensures { result ≡ [] }
    {
        Locks {
            set: BTreeSet::new(alloc),
        }
    }

    /// Whether there are none.
    pub fn is_empty(&self) -> bool
        ensures { result ≡ (length self.now == 0) }
    {
        self.set.len() == 0
    }

    /// Whether a lock is among them.
    pub fn has(&self, lock: u32) -> bool
        ensures { result ≡ has_lock lock self.now }
    {
        self.set.contains(&lock)
    }

    /// Adds a lock.
    pub fn put(&mut self, lock: u32) -> Result<(), AllocError>
        ensures ok { OnOk result (self.new ≡ with_lock lock self.old) }
        ensures err { OnErr result (self.new ≡ self.old) }
    {
        let _added = self.set.insert(lock)?;
        Ok(())
    }

    /// Takes a lock out.
    pub fn remove(&mut self, lock: u32)
        ensures { self.new ≡ without_lock lock self.old }
    {
        let _was = self.set.remove(&lock);
    }
}
