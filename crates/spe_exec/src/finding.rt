//! The table that a statement names.

ghost use Rattle.std.specs.Prelude.{◌≡◌};
ghost use Rattle.std.specs.Option.{option_copied};
ghost use Rattle.spe_model.specs.Statement.{table_name};
ghost use Rattle.spe_exec.specs.Finding.{is_named, entry_named};

use spe_model::{Catalog, Entry, Statement, Text};

/// The table that a statement names.
pub fn table_name(statement: &Statement) -> &Text
    ensures { result.now ≡ table_name statement.now }
{
    match statement {
        Statement::Select { table, .. }
        | Statement::Count { table, .. }
        | Statement::Insert { table, .. }
        | Statement::Update { table, .. }
        | Statement::Delete { table, .. } => table,
    }
}

// Whether a table has this name.
fn is_named(entry: &Entry, name: &Text) -> bool
    ensures { result ≡ is_named name.now entry.now }
{
    entry
        .table
        .name
        .as_str()
        .eq_ignore_ascii_case(name.as_str())
}

/// The first table of a catalog that has this name.
pub fn entry_named<'a>(catalog: &'a Catalog, name: &Text) -> Option<&'a Entry>
    ensures { option_copied result ≡ entry_named name.now catalog.now }
{
    catalog
        .as_slice()
        .iter()
        .find(|entry| is_named(entry, name))
}
