//! Transactions that are gathered item by item.

use crate::part::Item;
use spe_model::{End, Statement, Statements, Tx, TxKind, Txs};
use std::alloc::{AllocError, Global};
use std::marker::Model;

/// A transaction that is open, seen as its kind and its statements so far.
#[derive(Debug, Drop)]
pub struct Open {
    kind: TxKind,
    statements: Vec<Statement>,
}

impl Model for Open {
    ghost use Rattle.spe_script.specs.Script.{Open as Seen};

    ghost Value = { Seen };

    ghost view = { λ o. (o.kind, o.statements.items) };
}

impl Open {
    ghost use Rattle.std.specs.Prelude.{◌≡◌, ◌++◌, ◌∷◌, [], OnOk};
    ghost use Rattle.spe_script.specs.Script.{tx};

    fn new(kind: TxKind, alloc: Global) -> Open
        ensures { result ≡ (kind, []) }
    {
        Open {
            kind,
            statements: Vec::new(alloc),
        }
    }

    fn push(&mut self, statement: Statement) -> Result<(), AllocError>
        ensures { OnOk result (self.new ≡ (self.old.0, self.old.1 ++ (statement ∷ []))) }
    {
        self.statements.push(statement)?;
        Ok(())
    }

    // It ends so.
    fn ended(self, end: End) -> Tx
        ensures { result ≡ tx self end }
    {
        Tx {
            kind: self.kind,
            statements: Statements::new(self.statements),
            end,
        }
    }
}

/// Transactions that are ended, and one that is open, seen as a pair.
#[derive(Debug, Drop)]
pub struct Gathered {
    done: Vec<Tx>,
    current: Option<Open>,
}

impl Model for Gathered {
    ghost use Rattle.spe_script.specs.Gathered.{Gathered as Seen};

    ghost Value = { Seen };

    ghost view = { λ g. (g.done.items, g.current) };
}

impl Gathered {
    ghost use Rattle.std.specs.Prelude.{◌≡◌, ◌++◌, ◌∷◌, [], Some, None, OnOk, IfOk};
    ghost use Rattle.spe_script.specs.declared.part.Item.TheVariants.{Statement as Alone};
    ghost use Rattle.spe_script.specs.Script.{ended, txs_of};
    ghost use Rattle.spe_script.specs.Gathered.{is_open, txs_before, TakesItem};

    /// None so far.
    pub fn new(alloc: Global) -> Gathered
        ensures { result ≡ ([], None) }
    {
        Gathered {
            done: Vec::new(alloc),
            current: None,
        }
    }

    /// Whether a transaction is open.
    pub fn is_open(&self) -> bool
        ensures { result ≡ is_open self.now }
    {
        self.current.is_some()
    }

    // Ends the transaction that is open, if one is.
    fn close(&mut self, end: End) -> Result<(), AllocError>
        ensures { OnOk result (self.new ≡ (self.old.0 ++ ended end self.old.1, None)) }
    {
        match self.current.take() {
            Some(transaction) => {
                self.done.push(transaction.ended(end))?;
                Ok(())
            }
            None => Ok(()),
        }
    }

    // A statement outside is a transaction by itself.
    fn push_alone(&mut self, statement: Statement, alloc: Global) -> Result<(), AllocError>
        ensures { OnOk result (self.new ≡ (self.old.0 ++ txs_of (Alone statement ∷ []) None, self.old.1)) }
    {
        let mut sole = Vec::with_capacity(alloc, 1)?;
        sole.push(statement)?;
        self.done.push(Tx {
            kind: TxKind::ReadWrite,
            statements: Statements::new(sole),
            end: End::Commit,
        })?;
        Ok(())
    }

    // Takes a statement.
    fn push(&mut self, statement: Statement, alloc: Global) -> Result<(), AllocError>
        ensures { OnOk result (TakesItem (Some (Alone statement)) self.old self.new) }
    {
        match &mut self.current {
            Some(transaction) => transaction.push(statement),
            None => self.push_alone(statement, alloc),
        }
    }

    /// Takes the item that follows, if there is one.
    pub fn take(&mut self, item: Option<Item>, alloc: Global) -> Result<(), AllocError>
        ensures { OnOk result (TakesItem item self.old self.new) }
    {
        match item {
            Some(Item::Begin(kind)) => {
                self.current = Some(Open::new(kind, alloc));
                Ok(())
            }
            Some(Item::Close(end)) => self.close(end),
            Some(Item::Statement(statement)) => self.push(statement, alloc),
            None => Ok(()),
        }
    }

    /// All of them, if no item follows.
    pub fn finish(self) -> Result<Txs, AllocError>
        ensures { IfOk result (λ t. t ≡ txs_before self []) }
    {
        let mut gathered = self;
        gathered.close(End::Rollback)?;
        Ok(Txs::new(gathered.done))
    }
}
