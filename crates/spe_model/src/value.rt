//! Values and rows.

ghost use Rattle.std.specs.Prelude.{◌≡◌};

use crate::lists::{Bytes, Text};
use std::marker::Model;

/// What a field of a row holds.
#[derive(Debug, Drop)]
pub enum Value {
    Null,
    /// A whole number.
    Int(i64),
    Text(Text),
    Blob(Bytes),
    /// A float, as its eight bytes in the file, big-endian.
    Real8([u8; 8]),
}

/// The values of one row, seen as a list.
#[derive(Debug, Drop)]
pub struct Values {
    inner: Vec<Value>,
}

impl Model for Values {
    ghost use Rattle.std.specs.Prelude.{List};
    ghost use Rattle.spe_model.specs.declared.value.Value.{Value as Field};

    ghost Value = { List Field };

    ghost view = { λ t. t.inner.items };
}

impl Values {
    /// These values.
    pub fn new(inner: Vec<Value>) -> Values
        ensures { result ≡ inner.items }
    {
        Values { inner }
    }

    /// The values as a slice.
    pub fn as_slice(&self) -> &[Value]
        ensures { result.now ≡ self.now }
    {
        self.inner.as_slice()
    }

    /// The values as a vector.
    pub fn into_vec(self) -> Vec<Value>
        ensures { result.items ≡ self }
    {
        let Values { inner } = self;
        inner
    }
}

/// Rows that are shown, each the values asked for, seen as a list.
#[derive(Debug, Drop)]
pub struct Rows {
    inner: Vec<Values>,
}

impl Model for Rows {
    ghost use Rattle.std.specs.Prelude.{List};
    ghost use Rattle.spe_model.specs.declared.value.Value.{Value as Field};

    ghost Value = { List (List Field) };

    ghost view = { λ t. t.inner.items };
}

impl Rows {
    /// These rows.
    pub fn new(inner: Vec<Values>) -> Rows
        ensures { result ≡ inner.items }
    {
        Rows { inner }
    }

    /// The rows as a slice.
    pub fn as_slice(&self) -> &[Values]
        ensures { result.now ≡ self.now }
    {
        self.inner.as_slice()
    }
}

/// Rows of a table, each its rowid and the values of all its columns, seen as a list.
#[derive(Debug, Drop)]
pub struct TableRows {
    inner: Vec<(i64, Values)>,
}

impl Model for TableRows {
    ghost use Rattle.std.specs.Prelude.{List, ℤ};
    ghost use Rattle.spe_model.specs.declared.value.Value.{Value as Field};

    ghost Value = { List (ℤ × List Field) };

    ghost view = { λ t. t.inner.items };
}

impl TableRows {
    /// These rows.
    pub fn new(inner: Vec<(i64, Values)>) -> TableRows
        ensures { result ≡ inner.items }
    {
        TableRows { inner }
    }

    /// The rows as a slice.
    pub fn as_slice(&self) -> &[(i64, Values)]
        ensures { result.now ≡ self.now }
    {
        self.inner.as_slice()
    }
}
