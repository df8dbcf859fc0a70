//! What a statement gives to the columns of its table and to the rowid.

ghost use Rattle.std.specs.Prelude.{◌≡◌, length, slice_get, map, false, IfOk};
ghost use Rattle.std.specs.Option.{option_copied, option_map_or};
ghost use Rattle.spe_model.specs.Naming.{column_at, meant_by, is_same};
ghost use Rattle.spe_model.specs.declared.statement.Set.{Set};
ghost use Rattle.spe_model.specs.Assigned.{places, targets, given_values, assignments, given_to, by_column, given_rowid};

use crate::naming::{column_at, is_same, meant_by};
use spe_model::{Named, Set, Statement, TableDef, Text, Value};
use std::alloc::{AllocError, Global};

#[tactic(auto, using(crate::proofs::AssignedLemmas::length_places))]
/// To how many columns or names a statement gives values.
pub fn target_count(table: &TableDef, statement: &Statement) -> usize
    ensures { result ≡ length (targets table.now statement.now) }
{
    match statement {
        Statement::Insert {
            listed: true,
            columns,
            ..
        } => columns.as_slice().len(),
        Statement::Insert { .. } => table.columns.as_slice().len(),
        Statement::Update { sets, .. } => sets.as_slice().len(),
        _ => 0,
    }
}

/// How many values a statement gives.
pub fn value_count(statement: &Statement) -> usize
    ensures { result ≡ length (given_values statement.now) }
{
    match statement {
        Statement::Insert { values, .. } => values.as_slice().len(),
        Statement::Update { sets, .. } => sets.as_slice().len(),
        _ => 0,
    }
}

// What a name of a number means.
fn named_at(table: &TableDef, names: &[Text], i: usize) -> Option<Named>
    ensures { result ≡ slice_get (map (meant_by table.now) names.now) i }
{
    Some(meant_by(table, names.get(i)?))
}

// What the name of a number is that is set.
fn set_at(table: &TableDef, sets: &[Set], i: usize) -> Option<Named>
    ensures { result ≡ slice_get (map (λ (s : Set). meant_by table.now s.name) sets.now) i }
{
    Some(meant_by(table, &sets.get(i)?.name))
}

// What the column of a number is.
#[tactic(auto, using(crate::proofs::AssignedLemmas::place_within, crate::proofs::AssignedLemmas::place_past))]
fn place_at(table: &TableDef, i: usize) -> Option<Named>
    ensures { result ≡ slice_get (map (column_at table.now) (places table.now)) i }
{
    if i < table.columns.as_slice().len() {
        Some(column_at(table, i))
    } else {
        None
    }
}

/// What the value of a number, counted from 0, is given to.
pub fn target_at(table: &TableDef, statement: &Statement, i: usize) -> Option<Named>
    ensures { result ≡ slice_get (targets table.now statement.now) i }
{
    match statement {
        Statement::Insert {
            listed: true,
            columns,
            ..
        } => named_at(table, columns.as_slice(), i),
        Statement::Insert { .. } => place_at(table, i),
        Statement::Update { sets, .. } => set_at(table, sets.as_slice(), i),
        _ => None,
    }
}

/// The value of a number, counted from 0.
pub fn value_at(statement: &Statement, i: usize) -> Option<&Value>
    ensures { option_copied result ≡ slice_get (given_values statement.now) i }
{
    match statement {
        Statement::Insert { values, .. } => values.as_slice().get(i),
        Statement::Update { sets, .. } => Some(&sets.as_slice().get(i)?.value),
        _ => None,
    }
}

/// Whether the value of a number is given to this.
pub fn goes_to(table: &TableDef, statement: &Statement, i: usize, target: Named) -> bool
    ensures { result ≡ option_map_or (λ t. is_same t target) (slice_get (targets table.now statement.now) i) false }
{
    match target_at(table, statement, i) {
        Some(found) => is_same(found, target),
        None => false,
    }
}

/// The value that is given to a column or to the rowid, if one is: the first.
pub fn given_to<'a>(table: &TableDef, statement: &'a Statement, target: Named) -> Option<&'a Value>
    ensures { option_copied result ≡ given_to target (assignments table.now statement.now) }
{
    for i in 0..value_count(statement) {
        if goes_to(table, statement, i, target) {
            return value_at(statement, i);
        }
    }
    None
}

/// The number that is given to the rowid. Where NULL is, there is none.
pub fn given_rowid(table: &TableDef, statement: &Statement) -> Option<i64>
    ensures { result ≡ given_rowid (assignments table.now statement.now) }
{
    match given_to(table, statement, Named::Rowid)? {
        Value::Int(number) => Some(*number),
        _ => None,
    }
}

/// What is given to each column.
pub fn by_column<'a>(
    alloc: Global,
    table: &TableDef,
    statement: &'a Statement,
) -> Result<Vec<Option<&'a Value>>, AllocError>
    ensures { IfOk result (λ found. map option_copied found.items ≡ by_column table.now (assignments table.now statement.now)) }
{
    let mut found = Vec::new(alloc);
    for place in 0..table.columns.as_slice().len() {
        found.push(given_to(table, statement, Named::Column(place)))?;
    }
    Ok(found)
}
