//! Transactions.

ghost use Rattle.std.specs.Prelude.{◌≡◌};

use crate::statement::Statements;
use std::marker::Model;

/// Whether a transaction may write.
#[derive(Clone, Copy, Debug, PartialEq, Eq)]
pub enum TxKind {
    ReadWrite,
    ReadOnly,
}

/// How a transaction ends.
#[derive(Clone, Copy, Debug, PartialEq, Eq)]
pub enum End {
    Commit,
    Rollback,
}

/// A transaction: its statements, in order, and its end.
#[derive(Debug, Drop)]
pub struct Tx {
    pub kind: TxKind,
    pub statements: Statements,
    pub end: End,
}

/// The transactions of a client in order, seen as a list.
#[derive(Debug, Drop)]
pub struct Txs {
    inner: Vec<Tx>,
}

impl Model for Txs {
    ghost use Rattle.std.specs.Prelude.{List};
    ghost use Rattle.spe_model.specs.declared.transaction.Tx.{Tx};

    ghost Value = { List Tx };

    ghost view = { λ t. t.inner.items };
}

impl Txs {
    ghost use Rattle.std.specs.Prelude.{◌≡◌};

    /// These transactions.
    pub fn new(inner: Vec<Tx>) -> Txs
        ensures { result ≡ inner.items }
    {
        Txs { inner }
    }

    /// The transactions as a slice.
    pub fn as_slice(&self) -> &[Tx]
        ensures { result.now ≡ self.now }
    {
        self.inner.as_slice()
    }

    /// The transactions themselves.
    pub fn into_vec(self) -> Vec<Tx>
        ensures { result.items ≡ self }
    {
        self.inner
    }
}
