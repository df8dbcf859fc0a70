//! Statements.

ghost use Rattle.std.specs.Prelude.{◌≡◌};

use crate::lists::{Names, Text};
use crate::value::{Value, Values};
use std::marker::Model;

/// How a rowid is compared with a number.
#[derive(Clone, Copy, Debug, PartialEq, Eq)]
pub enum Op {
    Equal,
    Less,
    LessEqual,
    Greater,
    GreaterEqual,
}

/// A condition: what a name stands for, compared with a number. BETWEEN is two of them.
#[derive(Debug, Drop)]
pub struct Cond {
    pub name: Text,
    pub op: Op,
    pub number: i64,
}

/// A value that a name is set to.
#[derive(Debug, Drop)]
pub struct Set {
    pub name: Text,
    pub value: Value,
}

/// Conditions, seen as a list.
#[derive(Debug, Drop)]
pub struct Conds {
    inner: Vec<Cond>,
}

impl Model for Conds {
    ghost use Rattle.std.specs.Prelude.{List};
    ghost use Rattle.spe_model.specs.declared.statement.Cond.{Cond};

    ghost Value = { List Cond };

    ghost view = { λ t. t.inner.items };
}

impl Conds {
    ghost use Rattle.std.specs.Prelude.{◌≡◌};

    /// These conditions.
    pub fn new(inner: Vec<Cond>) -> Conds
        ensures { result ≡ inner.items }
    {
        Conds { inner }
    }

    /// The conditions as a slice.
    pub fn as_slice(&self) -> &[Cond]
        ensures { result.now ≡ self.now }
    {
        self.inner.as_slice()
    }
}

/// Values that names are set to, seen as a list.
#[derive(Debug, Drop)]
pub struct Sets {
    inner: Vec<Set>,
}

impl Model for Sets {
    ghost use Rattle.std.specs.Prelude.{List};
    ghost use Rattle.spe_model.specs.declared.statement.Set.{Set};

    ghost Value = { List Set };

    ghost view = { λ t. t.inner.items };
}

impl Sets {
    ghost use Rattle.std.specs.Prelude.{◌≡◌};

    /// These values with their names.
    pub fn new(inner: Vec<Set>) -> Sets
        ensures { result ≡ inner.items }
    {
        Sets { inner }
    }

    /// The values with their names as a slice.
    pub fn as_slice(&self) -> &[Set]
        ensures { result.now ≡ self.now }
    {
        self.inner.as_slice()
    }
}

/// A statement. `docs/STATEMENTS.md` says what each means.
#[derive(Debug, Drop)]
pub enum Statement {
    /// Rows with the named values, or with all columns where `all` is true.
    Select {
        table: Text,
        all: bool,
        columns: Names,
        conds: Conds,
    },
    /// How many rows there are.
    Count {
        table: Text,
        conds: Conds,
    },
    /// A new row. Where `listed` is false, the values are those of all columns.
    Insert {
        table: Text,
        listed: bool,
        columns: Names,
        values: Values,
    },
    /// Other values in rows.
    Update {
        table: Text,
        sets: Sets,
        conds: Conds,
    },
    /// Rows go.
    Delete {
        table: Text,
        conds: Conds,
    },
}

/// Statements, seen as a list.
#[derive(Debug, Drop)]
pub struct Statements {
    inner: Vec<Statement>,
}

impl Model for Statements {
    ghost use Rattle.std.specs.Prelude.{List};
    ghost use Rattle.spe_model.specs.declared.statement.Statement.{Statement};

    ghost Value = { List Statement };

    ghost view = { λ t. t.inner.items };
}

impl Statements {
    ghost use Rattle.std.specs.Prelude.{◌≡◌};

    /// These statements.
    pub fn new(inner: Vec<Statement>) -> Statements
        ensures { result ≡ inner.items }
    {
        Statements { inner }
    }

    /// The statements as a slice.
    pub fn as_slice(&self) -> &[Statement]
        ensures { result.now ≡ self.now }
    {
        self.inner.as_slice()
    }
}
