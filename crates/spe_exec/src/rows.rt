//! The row that a record stands for.

ghost use Rattle.std.specs.Prelude.{◌≡◌, IfOk, length};
ghost use Rattle.spe_model.specs.declared.value.Value.TheVariants.{Int};
ghost use Rattle.spe_model.specs.Alias.{with_alias};
ghost use Rattle.spe_model.specs.Database.{padded};
ghost use Rattle.spe_model.specs.Standing.{shown};
ghost use Rattle.spe_search.specs.Pairs.{pair_seen};
ghost use Rattle.spe_exec.specs.Rows.{values_in};

use spe_model::{RecordFault, TableDef, Value, Values};
use spe_record::decode;
use spe_search::Pair;
use std::alloc::{AllocError, Global};

// The values with NULL for each of so many that is missing.
fn pad(values: &mut Vec<Value>, count: usize) -> Result<(), AllocError>
    ensures { IfOk result (λ _. values.new.items ≡ padded values.old.items count) }
{
    while values.len() < count {
        values.push(Value::Null)?;
    }
    Ok(())
}

// Puts the rowid into the column that is another name of it.
fn put_alias(values: &mut [Value], alias: Option<u32>, rowid: i64)
    ensures { values.new ≡ with_alias alias (Int rowid) values.old }
{
    if let Some(place) = alias {
        let place = place as usize;
        if place < values.len() {
            values[place] = Value::Int(rowid);
        }
    }
}

// What is shown of the fields of a row's record.
fn shown(table: &TableDef, rowid: i64, fields: Vec<Value>) -> Result<Values, AllocError>
    ensures { IfOk result (λ values. values ≡ shown table.now rowid fields.items) }
{
    let mut values = fields;
    pad(&mut values, table.columns.as_slice().len())?;
    put_alias(values.as_mut_slice(), table.alias, rowid);
    Ok(Values::new(values))
}

/// The values of a row of a table: those of its record, NULL for each column that the record lacks, and
/// the rowid in the column that is another name of it. `None` where the record is damaged, or has more
/// fields than the table has columns. ("Record Format" in SQLite's Database File Format.)
pub fn values_in(alloc: Global, table: &TableDef, pair: &Pair) -> Result<Option<Values>, AllocError>
    ensures { IfOk result (λ found. found ≡ values_in table.now (pair_seen pair.now)) }
{
    let fields = match decode(alloc, pair.payload.as_slice()) {
        Ok(fields) => fields.into_vec(),
        Err(RecordFault::Memory) => return Err(AllocError),
        Err(_) => return Ok(None),
    };
    if fields.len() > table.columns.as_slice().len() {
        return Ok(None);
    }
    let values = shown(table, pair.rowid, fields)?;
    Ok(Some(values))
}
