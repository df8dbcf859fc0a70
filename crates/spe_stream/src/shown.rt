//! The rows that were printed, which only proofs read.

ghost use Rattle.std.specs.Prelude.{◌≡◌, ◌++◌, List, []};
ghost use Rattle.spe_model.specs.Database.{Row};
ghost use Rattle.spe_stream.specs.Row.{row_of, rows_in};

use spe_model::TableDef;
use std::marker::Model;

/// The rows of a table whose lines were put to the sink, in their order. It takes no memory, and its functions
/// do nothing when they run.
#[derive(Drop)]
pub struct ShownRows {
    pub ghost rows: { List Row },
}

impl Model for ShownRows {
    ghost use base.Fml.{ftrue};

    ghost also_owns = { λ _. ftrue };
}

/// What is stored of a row of a table.
#[derive(Clone, Copy, Drop)]
pub(crate) struct StoredRow<'a> {
    pub(crate) table: &'a TableDef,
    pub(crate) rowid: i64,
    pub(crate) payload: &'a [u8],
}

impl ShownRows {
    /// No row was shown.
    pub(crate) fn none() -> ShownRows
        ensures { result.rows ≡ [] }
    {
        ShownRows {}
    }

    /// One row was shown more.
    pub(crate) fn with(&self, _row: &StoredRow<'_>) -> ShownRows
        ensures { result.rows ≡ self.now.rows ++ rows_in (row_of _row.now.table.now (_row.now.rowid, _row.now.payload.now)) }
    {
        ShownRows {}
    }
}
