//! The rows that a statement shows and writes.

ghost use Rattle.std.specs.Prelude.{◌≡◌, ℕ, map, nat_lt, IfOk, Option, if◌then◌else◌};
ghost use Rattle.std.specs.List.{zip};
ghost use Rattle.std.specs.Option.{option_copied, unwrap_or};
ghost use Rattle.spe_model.specs.declared.naming.Named.TheVariants as named;
ghost use Rattle.spe_model.specs.declared.value.Value.{Value};
ghost use Rattle.spe_model.specs.declared.value.Value.TheVariants.{Null, Int};
ghost use Rattle.spe_model.specs.Alias.{is_alias};
ghost use Rattle.spe_model.specs.Naming.{meant_by};
ghost use Rattle.spe_model.specs.Assigned.{assignments, given_to};
ghost use Rattle.spe_model.specs.Rows.{shown};
ghost use Rattle.spe_model.specs.Length.{record_length};
ghost use Rattle.spe_model.specs.Refusals.{most_record};
ghost use Rattle.spe_slow.specs.Rows.{shown_values, new_values, changed_values};

use crate::assigned::given_to;
use crate::length::encoded_length;
use crate::naming::{is_alias, meant_by};
use spe_model::{Copies, Named, Statement, TableDef, Text, Value, Values};
use std::alloc::{AllocError, Global};

/// What names mean.
pub fn meant_by_all(
    alloc: Global,
    table: &TableDef,
    names: &[Text],
) -> Result<Vec<Named>, AllocError>
    ensures { IfOk result (λ found. found.items ≡ map (meant_by table.now) names.now) }
{
    names
        .iter()
        .map(|name| meant_by(table, name))
        .collect(alloc)
}

// What a name stands for in a row.
fn shown(alloc: Global, rowid: &i64, values: &[Value], named: Named) -> Result<Value, AllocError>
    ensures { IfOk result (λ value. value ≡ shown (rowid.now, values.now) named) }
{
    match named {
        Named::Rowid => Ok(Value::Int(*rowid)),
        Named::Column(place) => match values.get(place) {
            Some(value) => value.copy(alloc),
            None => Ok(Value::Null),
        },
        Named::Nothing => Ok(Value::Null),
    }
}

// What names stand for in a row.
fn shown_all(
    alloc: Global,
    rowid: &i64,
    values: &[Value],
    names: &[Named],
) -> Result<Values, AllocError>
    ensures { IfOk result (λ found. found ≡ map (shown (rowid.now, values.now)) names.now) }
{
    let mut found = Vec::new(alloc);
    let mut left = names;
    while let [named, rest @ ..] = left {
        found.push(shown(alloc, rowid, values, *named)?)?;
        left = rest;
    }
    Ok(Values::new(found))
}

/// The values of a row that a SELECT gives: all, or those that are named.
pub fn selected(
    alloc: Global,
    all: bool,
    names: &[Named],
    rowid: &i64,
    values: &Values,
) -> Result<Values, AllocError>
    ensures { IfOk result (λ found. found ≡ shown_values all names.now (rowid.now, values.now)) }
{
    if all {
        values.copy(alloc)
    } else {
        shown_all(alloc, rowid, values.as_slice(), names)
    }
}

// The value that a new row has in a column.
fn new_value(
    alloc: Global,
    table: &TableDef,
    statement: &Statement,
    rowid: i64,
    place: usize,
) -> Result<Value, AllocError>
    ensures { IfOk result (λ value. value ≡ (if is_alias table.now.alias place then Int rowid else unwrap_or (given_to (named.Column place) (assignments table.now statement.now)) Null)) }
{
    if is_alias(table.alias, place) {
        return Ok(Value::Int(rowid));
    }
    match given_to(table, statement, Named::Column(place)) {
        Some(value) => value.copy(alloc),
        None => Ok(Value::Null),
    }
}

/// The values of a new row with this rowid.
pub fn new_values(
    alloc: Global,
    table: &TableDef,
    statement: &Statement,
    rowid: i64,
) -> Result<Values, AllocError>
    ensures { IfOk result (λ values. values ≡ new_values table.now statement.now rowid) }
{
    let mut found = Vec::new(alloc);
    for place in 0..table.columns.as_slice().len() {
        found.push(new_value(alloc, table, statement, rowid, place)?)?;
    }
    Ok(Values::new(found))
}

// What is given to a column, or else what it had.
fn changed_value(alloc: Global, given: Option<&Value>, old: &Value) -> Result<Value, AllocError>
    ensures { IfOk result (λ value. value ≡ unwrap_or (option_copied given.entry) old.now) }
{
    match given {
        Some(value) => value.copy(alloc),
        None => old.copy(alloc),
    }
}

/// The values of a row after an UPDATE that gives its columns these.
pub fn changed_values(
    alloc: Global,
    given: &[Option<&Value>],
    old: &[Value],
) -> Result<Values, AllocError>
    ensures { IfOk result (λ values. values ≡ changed_values (map option_copied given.now) old.now) }
{
    let mut found = Vec::new(alloc);
    for (new, value) in given.iter().zip(old) {
        found.push(changed_value(alloc, *new, value)?)?;
    }
    Ok(Values::new(found))
}

/// The most bytes that the record of a row may have.
const MOST_RECORD: u64 = 1_000_000;

/// Whether the record of a row with these values would have more bytes than any may have.
pub fn is_too_long(table: &TableDef, values: &Values) -> bool
    ensures { result ≡ nat_lt most_record (record_length table.now.alias values.now) }
{
    encoded_length(values, table.alias) > MOST_RECORD
}
