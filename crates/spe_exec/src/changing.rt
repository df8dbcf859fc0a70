//! The records of rows that an UPDATE changes.

ghost use Rattle.std.specs.Prelude.{◌≡◌, IfOk, map};
ghost use Rattle.std.specs.Option.{option_copied};
ghost use Rattle.spe_search.specs.Pairs.{pair_seen};
ghost use Rattle.spe_exec.specs.Changing.{AreChanges, AreShortChanges, IsChange, IsGiven, IsShortChange};

use crate::rows::values_in;
use spe_model::{TableDef, Value};
use spe_modify::StoredRow;
use spe_record::encode;
use spe_search::Pair;
use spe_slow::{changed_values, is_too_long};
use std::alloc::{AllocError, Global};

/// What becomes of a stored row.
#[derive(Debug, Drop)]
pub enum Change {
    /// It gets this record.
    Record(StoredRow),
    /// Its record would be longer than any may be.
    Long,
    /// Its record is damaged, or has more fields than the table has columns.
    Damage,
}

/// What becomes of stored rows.
#[derive(Debug, Drop)]
pub enum Changes {
    /// They get these records.
    Records(Vec<StoredRow>),
    /// One record would be longer than any may be.
    Long,
    /// The leaf of a row whose record is damaged, or has more fields than the table has columns.
    Damage(u32),
}

// What becomes of a row that is given these values.
fn change_row(
    alloc: Global,
    table: &TableDef,
    given: &[Option<&Value>],
    pair: &Pair,
) -> Result<Change, AllocError>
    requires given { IsGiven table.now (map option_copied given.now) }
    ensures change { IfOk result (IsChange table.now (map option_copied given.now) (pair_seen pair.now)) }
    ensures short { IfOk result IsShortChange }
{
    let Some(old) = values_in(alloc, table, pair)? else {
        return Ok(Change::Damage);
    };
    let values = changed_values(alloc, given, old.as_slice())?;
    if is_too_long(table, &values) {
        return Ok(Change::Long);
    }
    let record = encode(alloc, &values, table.alias)?;
    Ok(Change::Record(StoredRow {
        rowid: pair.rowid,
        record,
    }))
}

/// What becomes of rows that are given these values.
pub fn change_rows(
    alloc: Global,
    table: &TableDef,
    given: &[Option<&Value>],
    pairs: &[Pair],
) -> Result<Changes, AllocError>
    requires given { IsGiven table.now (map option_copied given.now) }
    ensures changes { IfOk result (AreChanges table.now (map option_copied given.now) (map pair_seen pairs.now)) }
    ensures short { IfOk result AreShortChanges }
{
    let mut made = Vec::new(alloc);
    let mut left = pairs;
    while let [pair, rest @ ..] = left {
        match change_row(alloc, table, given, pair)? {
            Change::Record(stored) => made.push(stored)?,
            Change::Long => return Ok(Changes::Long),
            Change::Damage => return Ok(Changes::Damage(pair.leaf)),
        }
        left = rest;
    }
    Ok(Changes::Records(made))
}
