//! The tables that a database's schema names.

ghost use Rattle.std.specs.Prelude.{◌≡◌};

use crate::table::{Columns, TableDef};
use std::marker::Model;

/// What the text of a table's definition declares.
#[derive(Debug, Drop)]
pub struct Declaration {
    pub columns: Columns,
    /// The place of the column that is the rowid, counted from 0.
    pub alias: Option<u32>,
}

/// A table and where its tree begins.
#[derive(Debug, Drop)]
pub struct Entry {
    pub table: TableDef,
    /// The page of the tree's root, or 0 where the schema names none.
    pub root: u32,
}

/// The tables of a schema in the order of their rows, seen as a list.
#[derive(Debug, Drop)]
pub struct Catalog {
    inner: Vec<Entry>,
}

impl Model for Catalog {
    ghost use Rattle.std.specs.Prelude.{List};
    ghost use Rattle.spe_model.specs.declared.catalog.Entry.{Entry};

    ghost Value = { List Entry };

    ghost view = { λ t. t.inner.items };
}

impl Catalog {
    /// These tables.
    pub fn new(inner: Vec<Entry>) -> Catalog
        ensures { result ≡ inner.items }
    {
        Catalog { inner }
    }

    /// The tables as a slice.
    pub fn as_slice(&self) -> &[Entry]
        ensures { result.now ≡ self.now }
    {
        self.inner.as_slice()
    }
}
