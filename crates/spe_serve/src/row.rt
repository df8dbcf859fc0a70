//! The rows of a table, as the payloads of its tree say them.

ghost use Rattle.std.specs.Prelude.{◌≡◌, ◌≤◌, length, IfOk, OnOk, vec_len};
ghost use Rattle.spe_model.specs.declared.value.Value.TheVariants.{Int};
ghost use Rattle.spe_model.specs.Alias.{with_alias};
ghost use Rattle.spe_model.specs.Database.{padded};
ghost use Rattle.spe_model.specs.Standing.{shown};
ghost use Rattle.spe_search.specs.Pairs.{pair_seen};
ghost use Rattle.spe_serve.specs.Row.{row_of, rows_stored};

use spe_model::{RecordFault, TableDef, TableRows, Value, Values};
use spe_record::decode;
use spe_search::Pair;
use std::alloc::{AllocError, Global};

// The values with NULL for each of so many that is missing.
fn pad(values: &mut Vec<Value>, count: usize) -> Result<(), AllocError>
    requires { vec_len values.old ≤ count }
    ensures { OnOk result (values.new.items ≡ padded values.old.items count) }
{
    while values.len() < count {
        values.push(Value::Null)?;
    }
    Ok(())
}

// Puts the rowid into the column that is another name of it.
fn put_alias(values: &mut [Value], alias: Option<u32>, rowid: i64)
    ensures { values.new ≡ with_alias alias (Int rowid) values.old }
{
    if let Some(place) = alias {
        let place = place as usize;
        if place < values.len() {
            values[place] = Value::Int(rowid);
        }
    }
}

// What is shown of the fields of a row's record.
fn shown(table: &TableDef, rowid: i64, fields: Vec<Value>) -> Result<Values, AllocError>
    requires { vec_len fields ≤ length table.now.columns }
    ensures { IfOk result (λ values. values ≡ shown table.now rowid fields.items) }
{
    let mut values = fields;
    pad(&mut values, table.columns.as_slice().len())?;
    put_alias(values.as_mut_slice(), table.alias, rowid);
    Ok(Values::new(values))
}

// A row with its rowid. `None` where its record is damaged, or has more fields than the table has
// columns.
fn row(alloc: Global, table: &TableDef, pair: &Pair) -> Result<Option<(i64, Values)>, AllocError>
    ensures { IfOk result (λ found. found ≡ row_of table.now (pair_seen pair.now)) }
{
    let fields = match decode(alloc, pair.payload.as_slice()) {
        Ok(fields) => fields.into_vec(),
        Err(RecordFault::Memory) => return Err(AllocError),
        Err(_) => return Ok(None),
    };
    if fields.len() > table.columns.as_slice().len() {
        return Ok(None);
    }
    let values = shown(table, pair.rowid, fields)?;
    Ok(Some((pair.rowid, values)))
}

/// The rows of a table that are stored so: of each its rowid and its values, with NULL for each column
/// that its record lacks and the rowid in the column that is another name of it. In their place the leaf
/// of the first whose record is damaged, or has more fields than the table has columns. ("Record Format"
/// in SQLite's Database File Format.)
pub fn rows(
    alloc: Global,
    table: &TableDef,
    pairs: &[Pair],
) -> Result<Result<TableRows, u32>, AllocError>
    ensures { IfOk result (λ found. found ≡ rows_stored table.now pairs.now) }
{
    let mut found = Vec::new(alloc);
    let mut left = pairs;
    while let [pair, rest @ ..] = left {
        match row(alloc, table, pair)? {
            Some(row) => found.push(row)?,
            None => return Ok(Err(pair.leaf)),
        }
        left = rest;
    }
    Ok(Ok(TableRows::new(found)))
}
