//! The pages that a transaction has journalled.

ghost use Rattle.std.specs.Prelude.{◌≡◌, ◌<◌, ◌≤◌, ◌-◌, ◌++◌, ◌∷◌, [], length, take, vec_capacity};

use spe_model::Bytes;
use std::alloc::{AllocError, Global};
use std::collections::BTreeMap;
use std::marker::Model;

/// The bytes of a page before the transaction, and whether it was written since.
#[derive(Drop)]
pub(crate) struct Saved {
    pub(crate) bytes: Bytes,
    pub(crate) changed: bool,
}

/// The pages that a transaction has journalled, by their numbers, with a list of those that it has written
/// since, in that order. The list has room for each of them.
#[derive(Drop)]
pub(crate) struct SavedPages {
    map: BTreeMap<u32, Saved>,
    changed: Vec<u32>,
}

impl Model for SavedPages {
    ghost use Rattle.std.specs.Prelude.{vec_capacity};
    ghost use Rattle.spe_store.specs.Saved.{AreSaved, SavedPages};

    ghost Value = { SavedPages };

    ghost view = { λ s. record { entries = s.map.entries; changed = s.changed.items } };

    ghost invariant = { λ s. AreSaved (record { entries = s.map.entries; changed = s.changed.items }) (vec_capacity s.changed) };
}

impl SavedPages {
    ghost use Rattle.std.specs.Prelude.{◌≡◌, false, true, length, OnOk, OnErr};
    ghost use Rattle.spe_store.specs.Saved.{Adds, AreJust, IsLast, LastIs, Marks, changed_at, has_saved, no_pages};

    /// None.
    pub(crate) fn none(alloc: Global) -> SavedPages
        ensures { result ≡ no_pages }
    {
        SavedPages {
            map: BTreeMap::new(alloc),
            changed: Vec::new(alloc),
        }
    }

    /// Whether a page is among these.
    pub(crate) fn has(&self, page: u32) -> bool
        ensures { result ≡ has_saved page self.now }
    {
        self.map.contains_key(&page)
    }

    /// One page more, with room to note that it is written.
    pub(crate) fn add(&mut self, page: u32, bytes: Bytes) -> Result<(), AllocError>
        requires { has_saved page self.old ≡ false }
        ensures ok { OnOk result (Adds page bytes self.old self.new) }
        ensures err { OnErr result (self.new ≡ self.old) }
    {
        self.changed.reserve(self.map.len() + 1)?;
        let saved = Saved {
            bytes,
            changed: false,
        };
        let _old = self.map.insert(page, saved)?;
        Ok(())
    }

    /// Notes that a page is written, where it is among these. It takes no memory.
    pub(crate) fn mark(&mut self, page: u32)
        ensures { Marks page true self.old self.new }
    {
        let Some(saved) = self.map.get_mut(&page) else {
            return;
        };
        if saved.changed {
            return;
        }
        saved.changed = true;
        note(&mut self.changed, page);
    }

    /// The page that was written last, with its bytes before.
    pub(crate) fn last_changed(&self) -> Option<(u32, &[u8])>
        ensures { LastIs self.now result }
    {
        let Some(page) = self.changed.last() else {
            return None;
        };
        let Some(saved) = self.map.get(page) else {
            return None;
        };
        Some((*page, saved.bytes.as_slice()))
    }

    /// Notes that the page that was written last is not written any more.
    pub(crate) fn unmark(&mut self, page: u32)
        requires { IsLast page self.old }
        ensures { Marks page false self.old self.new }
    {
        drop_last(&mut self.changed);
        let Some(saved) = self.map.get_mut(&page) else {
            return;
        };
        saved.changed = false;
    }

    /// How many are written.
    pub(crate) fn changed_count(&self) -> usize
        ensures count { result ≡ length self.now.changed }
        ensures each { AreJust (λ p. changed_at p self.now) self.now.changed }
    {
        self.changed.len()
    }
}

// Adds a number, for which there is room.
fn note(list: &mut Vec<u32>, page: u32)
    requires { length list.old.items < vec_capacity list.old }
    ensures items { list.new.items ≡ list.old.items ++ page ∷ [] }
    ensures capacity { vec_capacity list.old ≤ vec_capacity list.new }
{
    let _noted = list.push(page);
}

// Takes the last number off.
fn drop_last(list: &mut Vec<u32>)
    ensures items { list.new.items ≡ take (length list.old.items - 1) list.old.items }
    ensures capacity { vec_capacity list.new ≡ vec_capacity list.old }
{
    let _last = list.pop();
}
