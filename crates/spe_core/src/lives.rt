//! The live transactions, by their numbers.

use crate::live::Live;
use spe_model::Bytes;
use spe_stored::Sheets;
use std::alloc::{AllocError, Global};
use std::collections::BTreeMap;
use std::marker::Model;

/// The transactions that are live, by their numbers.
#[derive(Drop)]
pub struct Lives {
    map: BTreeMap<u8, Live>,
}

impl Model for Lives {
    ghost use Rattle.std.specs.Prelude.{ℕ, List};
    ghost use Rattle.std.specs.Ordering.{nat_cmp};
    ghost use Rattle.std.specs.BTreeMap.{IsOrdered};
    ghost use Rattle.spe_core.specs.State.{Live as State};

    ghost Value = { List (ℕ × State) };

    ghost view = { λ l. l.map.entries };

    ghost invariant = { λ l. IsOrdered nat_cmp l.map };
}

impl Lives {
    ghost use Rattle.std.specs.Prelude.{◌≡◌, [], false, IsTrue, OnOk, OnErr, List, Some, ℕ};
    ghost use Rattle.std.specs.Option.{option_copied, option_map};
    ghost use Rattle.spe_core.specs.State.{live_in};
    ghost use Rattle.spe_core.specs.Changed.{with_seen, with_read, with_journalled, with_written, undo_of_live, undone, ended, reading_under, released, writing_under};
    ghost use Rattle.spe_core.specs.Enabled.{another_has, holds};
    ghost use Rattle.spe_core.specs.Locks.{has_lock};
    ghost use Rattle.spe_core.specs.Lives.{updated_in, with_live_in, Leaves};

    /// No transactions.
    pub fn new(alloc: Global) -> Lives
        ensures { result ≡ [] }
    {
        Lives {
            map: BTreeMap::new(alloc),
        }
    }

    /// The transaction of this number, where it is live.
    pub fn get(&self, id: u8) -> Option<&Live>
        ensures { option_copied result ≡ live_in id self.now }
    {
        self.map.get(&id)
    }

    /// Whether a transaction of another number is the writer of a lock.
    pub fn another_writes(&self, id: u8, lock: u32) -> bool
        ensures { result ≡ another_has id (λ t. has_lock lock t.writes) self.now }
    {
        for (other, t) in &self.map {
            if *other != id && t.writes_under(lock) {
                return true;
            }
        }
        false
    }

    /// Whether a transaction of another number holds a lock.
    pub fn another_holds(&self, id: u8, lock: u32) -> bool
        ensures { result ≡ another_has id (holds lock) self.now }
    {
        for (other, t) in &self.map {
            if *other != id && t.holds(lock) {
                return true;
            }
        }
        false
    }

    /// Makes this the transaction of a number.
    pub fn put(&mut self, id: u8, t: Live) -> Result<(), AllocError>
        ensures ok { OnOk result (self.new ≡ with_live_in id t self.old) }
        ensures err { OnErr result (self.new ≡ self.old) }
    {
        let _old = self.map.insert(id, t)?;
        Ok(())
    }

    /// Takes all out.
    pub fn clear(&mut self)
        ensures { self.new ≡ [] }
    {
        self.map.clear();
    }

    /// Whether the transaction of a number is not live, or read or wrote a page already.
    pub fn has_read(&self, id: u8, page: u32) -> bool
        ensures stays { IsTrue result → (bytes : List ℕ) → updated_in id (with_read page bytes) self.now ≡ self.now }
        ensures notes { result ≡ false → (bytes : List ℕ) → updated_in id (with_read page bytes) self.now ≡ updated_in id (with_seen page bytes) self.now }
    {
        match self.map.get(&id) {
            Some(t) => t.has_read(page),
            None => true,
        }
    }

    /// The transaction of a number becomes a reader of a lock.
    pub fn read_under(&mut self, id: u8, lock: u32) -> Result<(), AllocError>
        ensures ok { OnOk result (self.new ≡ updated_in id (reading_under lock) self.old) }
        ensures err { OnErr result (self.new ≡ self.old) }
    {
        let Some(t) = self.map.get_mut(&id) else {
            return Ok(());
        };
        t.read_under(lock)
    }

    /// It becomes the writer of a lock.
    pub fn write_under(&mut self, id: u8, lock: u32) -> Result<(), AllocError>
        ensures ok { OnOk result (self.new ≡ updated_in id (writing_under lock) self.old) }
        ensures err { OnErr result (self.new ≡ self.old) }
    {
        let Some(t) = self.map.get_mut(&id) else {
            return Ok(());
        };
        t.write_under(lock)
    }

    /// It holds a lock no more.
    pub fn release(&mut self, id: u8, lock: u32)
        ensures { self.new ≡ updated_in id (released lock) self.old }
    {
        let Some(t) = self.map.get_mut(&id) else {
            return;
        };
        t.release(lock);
    }

    /// Lists a page as read by the transaction of a number.
    pub fn note_seen(&mut self, id: u8, page: u32, bytes: Bytes) -> Result<(), AllocError>
        ensures ok { OnOk result (self.new ≡ updated_in id (with_seen page bytes) self.old) }
        ensures err { OnErr result (self.new ≡ self.old) }
    {
        let Some(t) = self.map.get_mut(&id) else {
            return Ok(());
        };
        t.note_seen(page, bytes)
    }

    /// Lists a page as journalled by it.
    pub fn note_journalled(&mut self, id: u8, page: u32, bytes: Bytes) -> Result<(), AllocError>
        ensures ok { OnOk result (self.new ≡ updated_in id (with_journalled page bytes) self.old) }
        ensures err { OnErr result (self.new ≡ self.old) }
    {
        let Some(t) = self.map.get_mut(&id) else {
            return Ok(());
        };
        t.note_journalled(page, bytes)
    }

    /// Lists a page as written by it.
    pub fn note_written(&mut self, id: u8, page: u32, bytes: Bytes) -> Result<(), AllocError>
        ensures ok { OnOk result (self.new ≡ updated_in id (with_written page bytes) self.old) }
        ensures err { OnErr result (self.new ≡ self.old) }
    {
        let Some(t) = self.map.get_mut(&id) else {
            return Ok(());
        };
        t.note_written(page, bytes)
    }

    /// The least page that it journalled and wrote, with its bytes before.
    pub fn first_changed(&self, id: u8) -> Option<(u32, &[u8])>
        ensures { option_map (λ p. (p.0, p.1.now)) result ≡ undo_of_live (live_in id self.now) }
    {
        match self.get(id) {
            Some(t) => t.first_changed(),
            None => None,
        }
    }

    /// The least page that it journalled and wrote has its old bytes again.
    pub fn undo(&mut self, id: u8, page: u32)
        ensures { (bytes : List ℕ) → self.new ≡ updated_in id (undone (Some (page, bytes))) self.old }
    {
        let Some(t) = self.map.get_mut(&id) else {
            return;
        };
        t.undo(page);
    }

    /// Ends it, with the list of what it journalled.
    pub fn end(&mut self, alloc: Global, id: u8) -> Option<Sheets>
        ensures ended { self.new ≡ updated_in id ended self.old }
        ensures left { Leaves (live_in id self.old) result }
    {
        let Some(t) = self.map.get_mut(&id) else {
            return None;
        };
        Some(t.end(alloc))
    }
}
