//! Rows as pairs of rowid and payload.

ghost use Rattle.std.specs.Prelude.{◌≡◌, ◌++◌, ◌∷◌, [], map, OnOk};
ghost use Rattle.spe_search.specs.Pairs.{pair_seen};

use spe_model::Bytes;
use std::alloc::{AllocError, Global};
use std::marker::Model;

/// A row: its rowid and its payload, and the leaf page that it was read from.
#[derive(Debug, Drop)]
pub struct Pair {
    pub rowid: i64,
    pub payload: Bytes,
    pub leaf: u32,
}

/// Rows in the order of their rowids, seen as a list of rowids and payloads.
#[derive(Debug, Drop)]
pub struct Pairs {
    inner: Vec<Pair>,
}

impl Model for Pairs {
    ghost use Rattle.std.specs.Prelude.{ℕ, ℤ, List, map};
    ghost use Rattle.spe_search.specs.Pairs.{pair_seen};

    ghost Value = { List (ℤ × List ℕ) };

    ghost view = { λ t. map pair_seen t.inner.items };
}

impl Pairs {
    /// No rows.
    pub fn new(alloc: Global) -> Pairs
        ensures { result ≡ [] }
    {
        Pairs {
            inner: Vec::new(alloc),
        }
    }

    /// The rows as a slice.
    pub fn as_slice(&self) -> &[Pair]
        ensures { map pair_seen result.now ≡ self.now }
    {
        self.inner.as_slice()
    }
}

/// Rows in the order of their rowids with the leaves that they were read from, seen as a list of `Pair`.
#[derive(Debug, Drop)]
pub struct LeafPairs {
    inner: Vec<Pair>,
}

impl Model for LeafPairs {
    ghost use Rattle.std.specs.Prelude.{List};
    ghost use Rattle.spe_search.specs.declared.pairs.Pair.{Pair as Row};

    ghost Value = { List Row };

    ghost view = { λ t. t.inner.items };
}

impl LeafPairs {
    /// No rows.
    pub fn new(alloc: Global) -> LeafPairs
        ensures { result ≡ [] }
    {
        LeafPairs {
            inner: Vec::new(alloc),
        }
    }

    /// Adds a row at the end.
    pub fn push(&mut self, pair: Pair) -> Result<(), AllocError>
        ensures pairs { OnOk result (self.new ≡ self.old ++ pair ∷ []) }
        ensures rows { OnOk result (map pair_seen self.new ≡ map pair_seen self.old ++ pair_seen pair ∷ []) }
    {
        self.inner.push(pair)?;
        Ok(())
    }

    /// The rows as a slice.
    pub fn as_slice(&self) -> &[Pair]
        ensures { result.now ≡ self.now }
    {
        self.inner.as_slice()
    }

    /// The rows without their leaves.
    pub fn into_pairs(self) -> Pairs
        ensures { result ≡ map pair_seen self }
    {
        let LeafPairs { inner } = self;
        Pairs { inner }
    }
}
