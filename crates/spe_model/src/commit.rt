//! The order of commits.

ghost use Rattle.std.specs.Prelude.{◌≡◌};

use std::marker::Model;

/// One commit: whose transaction it was, and when it was made.
#[derive(Clone, Copy, Debug, PartialEq, Eq)]
pub struct Commit {
    /// The client, from 1.
    pub client: u32,
    /// The client's transaction, from 1.
    pub tx: u32,
    /// The commit's number, from 1.
    pub number: u64,
    /// How many operations had been made on the disk when it was acknowledged.
    pub ops: u64,
}

/// Commits in the order of their numbers, seen as a list.
#[derive(Debug, Drop)]
pub struct Commits {
    inner: Vec<Commit>,
}

impl Model for Commits {
    ghost use Rattle.std.specs.Prelude.{List};
    ghost use Rattle.spe_model.specs.declared.commit.Commit.{Commit};

    ghost Value = { List Commit };

    ghost view = { λ t. t.inner.items };
}

impl Commits {
    ghost use Rattle.std.specs.Prelude.{◌≡◌};

    /// These commits.
    pub fn new(inner: Vec<Commit>) -> Commits
        ensures { result ≡ inner.items }
    {
        Commits { inner }
    }

    /// The commits as a slice.
    pub fn as_slice(&self) -> &[Commit]
        ensures { result.now ≡ self.now }
    {
        self.inner.as_slice()
    }
}
