//! The list of commits, with room for those that may follow.

use spe_model::{Commit, Commits};
use std::alloc::{AllocError, Global};
use std::marker::Model;

/// The commits in their order, and room for some more.
#[derive(Drop)]
pub(crate) struct Order {
    list: Vec<Commit>,
}

impl Model for Order {
    ghost use Rattle.std.specs.Prelude.{◌-◌, length, vec_capacity};
    ghost use Rattle.spe_store.specs.Store.{Order};

    ghost Value = { Order };

    ghost view = { λ o. record { rows = o.list.items; room = vec_capacity o.list - length o.list.items } };
}

impl Order {
    ghost use Rattle.std.specs.Prelude.{◌≡◌, ◌+◌, ◌≤◌, ◌<◌, ◌++◌, ◌∷◌, [], length, OnOk};

    /// No commits.
    pub(crate) fn none(alloc: Global) -> Order
        ensures { result.rows ≡ [] }
    {
        Order {
            list: Vec::new(alloc),
        }
    }

    /// How many commits there are.
    pub(crate) fn len(&self) -> usize
        ensures { result ≡ length self.now.rows }
    {
        self.list.len()
    }

    /// Takes room for so many more commits.
    pub(crate) fn reserve(&mut self, more: usize) -> Result<(), AllocError>
        ensures rows { self.new.rows ≡ self.old.rows }
        ensures stays { self.old.room ≤ self.new.room }
        ensures room { OnOk result (more ≤ self.new.room) }
    {
        self.list.reserve(more)
    }

    /// Adds a commit, for which there is room, and answers its number.
    pub(crate) fn push(&mut self, client: u32, tx: u32, ops: u64) -> u64
        requires { 0 < self.old.room }
        ensures number { result ≡ length self.old.rows + 1 }
        ensures rows { self.new.rows ≡ self.old.rows ++ record { client = client; tx = tx; number = length self.old.rows + 1; ops = ops } ∷ [] }
        ensures room { self.old.room ≤ self.new.room + 1 }
    {
        let number = self.list.len() as u64 + 1;
        let _added = self.list.push(Commit {
            client,
            tx,
            number,
            ops,
        });
        number
    }

    /// The commits.
    pub(crate) fn into_commits(self) -> Commits
        ensures { result ≡ self.rows }
    {
        Commits::new(self.list)
    }
}
