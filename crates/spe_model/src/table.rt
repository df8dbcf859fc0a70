//! Definitions of tables.

ghost use Rattle.std.specs.Prelude.{◌≡◌};

use crate::lists::Text;
use std::marker::Model;

/// The affinity of a column ("Column Affinity" in SQLite's documents).
#[derive(Clone, Copy, Debug, PartialEq, Eq)]
pub enum Affinity {
    Integer,
    Text,
    Blob,
    Real,
    Numeric,
}

/// Why no statement may use a table, which its file keeps as it is. Where several hold, the lowest
/// number is answered. This project's own.
#[derive(Clone, Copy, Debug, PartialEq, Eq)]
pub enum Closed {
    /// Its name begins with `sqlite_`.
    Reserved = 1,
    /// Its definition uses what is not understood here.
    Definition = 2,
    /// It has an index.
    Indexed = 3,
    /// It has a trigger.
    Triggered = 4,
}

/// A column of a table.
#[derive(Debug, Drop)]
pub struct Column {
    pub name: Text,
    pub affinity: Affinity,
    /// Whether it was declared NOT NULL.
    pub not_null: bool,
}

/// Columns, seen as a list.
#[derive(Debug, Drop)]
pub struct Columns {
    inner: Vec<Column>,
}

impl Model for Columns {
    ghost use Rattle.std.specs.Prelude.{List};
    ghost use Rattle.spe_model.specs.declared.table.Column.{Column};

    ghost Value = { List Column };

    ghost view = { λ t. t.inner.items };
}

impl Columns {
    /// These columns.
    pub fn new(inner: Vec<Column>) -> Columns
        ensures { result ≡ inner.items }
    {
        Columns { inner }
    }

    /// The columns as a slice.
    pub fn as_slice(&self) -> &[Column]
        ensures { result.now ≡ self.now }
    {
        self.inner.as_slice()
    }
}

/// What a table is, as the schema says it.
#[derive(Debug, Drop)]
pub struct TableDef {
    pub name: Text,
    pub columns: Columns,
    /// The place of the column that is the rowid, counted from 0.
    pub alias: Option<u32>,
    /// Why the table is closed to statements, if it is.
    pub closed: Option<Closed>,
}

/// Definitions of tables, seen as a list.
#[derive(Debug, Drop)]
pub struct Tables {
    inner: Vec<TableDef>,
}

impl Model for Tables {
    ghost use Rattle.std.specs.Prelude.{List};
    ghost use Rattle.spe_model.specs.declared.table.TableDef.{TableDef};

    ghost Value = { List TableDef };

    ghost view = { λ t. t.inner.items };
}

impl Tables {
    /// These definitions.
    pub fn new(inner: Vec<TableDef>) -> Tables
        ensures { result ≡ inner.items }
    {
        Tables { inner }
    }

    /// The definitions as a slice.
    pub fn as_slice(&self) -> &[TableDef]
        ensures { result.now ≡ self.now }
    {
        self.inner.as_slice()
    }
}
