//! Why a table refuses a statement, as far as its rows are not asked.

ghost use Rattle.std.specs.Prelude.{◌≡◌, ◌+◌, ◌<◌, ℕ, ◌&&◌, not, map, drop, length, slice_get, false, is_some, Option};
ghost use Rattle.std.specs.List.{list_any};
ghost use Rattle.std.specs.Option.{option_copied, option_map_or};
ghost use Rattle.spe_model.specs.declared.naming.Named.TheVariants as named;
ghost use Rattle.spe_model.specs.declared.table.Column.{Column};
ghost use Rattle.spe_model.specs.declared.statement.Set.{Set};
ghost use Rattle.spe_model.specs.declared.statement.Cond.{Cond};
ghost use Rattle.spe_model.specs.Alias.{is_alias};
ghost use Rattle.spe_model.specs.Statement.{table_name, is_write, is_insert, is_update, conds_of, columns_of, cond_name};
ghost use Rattle.spe_model.specs.Naming.{meant_by, is_nothing, is_column, is_same};
ghost use Rattle.spe_model.specs.Assigned.{targets, assignments, given_to, has_twice};
ghost use Rattle.spe_model.specs.Refusals.{has_unknown_name, has_column_condition, is_miscounted, is_misfit_rowid, is_numeric, converts_number, is_misfit_column, is_misfit, has_misfit, is_null, has_null, sets_rowid};
ghost use Rattle.spe_slow.specs.Refused.{rowless_refusal};

use crate::assigned::{given_to, goes_to, target_at, target_count, value_at, value_count};
use crate::naming::{is_alias, is_column, is_nothing, meant_by};
use spe_model::{Affinity, Column, Cond, Named, Refusal, Set, Statement, TableDef, Text, Value};

/// The table that a statement names.
pub fn table_name(statement: &Statement) -> &Text
    ensures { result.now ≡ table_name statement.now }
{
    match statement {
        Statement::Select { table, .. }
        | Statement::Count { table, .. }
        | Statement::Insert { table, .. }
        | Statement::Update { table, .. }
        | Statement::Delete { table, .. } => table,
    }
}

/// Whether a statement writes.
pub fn is_write(statement: &Statement) -> bool
    ensures { result ≡ is_write statement.now }
{
    !matches!(
        statement,
        Statement::Select { .. } | Statement::Count { .. }
    )
}

/// The conditions of a statement, none in an INSERT.
pub fn conds_of(statement: &Statement) -> &[Cond]
    ensures { result.now ≡ conds_of statement.now }
{
    match statement {
        Statement::Select { conds, .. }
        | Statement::Count { conds, .. }
        | Statement::Update { conds, .. }
        | Statement::Delete { conds, .. } => conds.as_slice(),
        Statement::Insert { .. } => &[],
    }
}

fn is_unknown(table: &TableDef, name: &Text) -> bool
    ensures { result ≡ is_nothing (meant_by table.now name.now) }
{
    is_nothing(meant_by(table, name))
}

fn is_any_unknown(table: &TableDef, names: &[Text]) -> bool
    ensures { result ≡ list_any (λ name. is_nothing (meant_by table.now name)) names.now }
{
    names.iter().any(|name| is_unknown(table, name))
}

fn is_any_set_unknown(table: &TableDef, sets: &[Set]) -> bool
    ensures { result ≡ list_any (λ (s : Set). is_nothing (meant_by table.now s.name)) sets.now }
{
    sets.iter().any(|set| is_unknown(table, &set.name))
}

fn is_any_cond_unknown(table: &TableDef, conds: &[Cond]) -> bool
    ensures { result ≡ list_any (λ (c : Cond). is_nothing (meant_by table.now c.name)) conds.now }
{
    conds.iter().any(|cond| is_unknown(table, &cond.name))
}

// Whether one of the names outside the conditions is unknown.
fn has_unknown_column(table: &TableDef, statement: &Statement) -> bool
    ensures { result ≡ list_any (λ name. is_nothing (meant_by table.now name)) (columns_of statement.now) }
{
    match statement {
        Statement::Select {
            all: false,
            columns,
            ..
        }
        | Statement::Insert {
            listed: true,
            columns,
            ..
        } => is_any_unknown(table, columns.as_slice()),
        Statement::Update { sets, .. } => is_any_set_unknown(table, sets.as_slice()),
        _ => false,
    }
}

/// Whether one of the names of a statement means nothing in the table.
#[tactic(auto, unfolding(spe_model::specs::Refusals::has_unknown_name))]
pub fn has_unknown_name(table: &TableDef, statement: &Statement) -> bool
    ensures { result ≡ has_unknown_name table.now statement.now }
{
    has_unknown_column(table, statement) || is_any_cond_unknown(table, conds_of(statement))
}

/// Whether one of the conditions speaks of another column than the rowid.
#[tactic(auto, unfolding(spe_model::specs::Refusals::has_column_condition))]
pub fn has_column_condition(table: &TableDef, statement: &Statement) -> bool
    ensures { result ≡ has_column_condition table.now statement.now }
{
    conds_of(statement)
        .iter()
        .any(|cond| is_column(meant_by(table, &cond.name)))
}

// Whether a value after the i-th is given to the same.
fn comes_again(table: &TableDef, statement: &Statement, i: usize, count: usize) -> bool
    requires within { i < count }
    requires count { count ≡ length (targets table.now statement.now) }
    ensures { result ≡ option_map_or (λ t. list_any (is_same t) (drop (i + 1) (targets table.now statement.now))) (slice_get (targets table.now statement.now) i) false }
{
    match target_at(table, statement, i) {
        Some(target) => (i + 1..count).any(|j| goes_to(table, statement, j, target)),
        None => false,
    }
}

// Whether the rowid or a column is given two values.
fn has_twice(table: &TableDef, statement: &Statement) -> bool
    ensures { result ≡ has_twice (targets table.now statement.now) }
{
    let count = target_count(table, statement);
    for i in 0..count {
        if comes_again(table, statement, i, count) {
            return true;
        }
    }
    false
}

/// Whether there are more or fewer values than columns to put them in, or one place gets two of them.
#[tactic(auto, unfolding(spe_model::specs::Refusals::is_miscounted))]
pub fn is_miscounted(table: &TableDef, statement: &Statement) -> bool
    ensures { result ≡ is_miscounted table.now statement.now }
{
    target_count(table, statement) != value_count(statement) || has_twice(table, statement)
}

fn is_misfit_rowid(value: &Value) -> bool
    ensures { result ≡ is_misfit_rowid value.now }
{
    !matches!(value, Value::Null | Value::Int(_))
}

fn is_numeric(affinity: Affinity) -> bool
    ensures { result ≡ is_numeric affinity }
{
    matches!(
        affinity,
        Affinity::Integer | Affinity::Numeric | Affinity::Real
    )
}

fn converts_number(affinity: Affinity) -> bool
    ensures { result ≡ converts_number affinity }
{
    matches!(affinity, Affinity::Text | Affinity::Real)
}

fn is_misfit_column(affinity: Affinity, value: &Value) -> bool
    ensures { result ≡ is_misfit_column affinity value.now }
{
    match value {
        Value::Null | Value::Blob(_) => false,
        Value::Int(_) => converts_number(affinity),
        Value::Text(_) => is_numeric(affinity),
        Value::Real8(_) => true,
    }
}

// Whether the column of a place does not take a value.
fn is_misfit_place(columns: &[Column], place: usize, value: &Value) -> bool
    ensures { result ≡ option_map_or (λ (c : Column). is_misfit_column c.affinity value.now) (slice_get columns.now place) false }
{
    match columns.get(place) {
        Some(column) => is_misfit_column(column.affinity, value),
        None => false,
    }
}

// Whether what a value is given to does not take it.
fn is_misfit(table: &TableDef, target: Named, value: &Value) -> bool
    ensures { result ≡ is_misfit table.now (target, value.now) }
{
    match target {
        Named::Rowid => is_misfit_rowid(value),
        Named::Column(place) => is_misfit_place(table.columns.as_slice(), place, value),
        Named::Nothing => false,
    }
}

fn is_misfit_at(table: &TableDef, statement: &Statement, i: usize) -> bool
    ensures { result ≡ option_map_or (is_misfit table.now) (slice_get (assignments table.now statement.now) i) false }
{
    let Some(target) = target_at(table, statement, i) else {
        return false;
    };
    match value_at(statement, i) {
        Some(value) => is_misfit(table, target, value),
        None => false,
    }
}

/// Whether a value is given to a column, or to the rowid, that does not take its class.
#[tactic(auto, unfolding(spe_model::specs::Refusals::has_misfit))]
pub fn has_misfit(table: &TableDef, statement: &Statement) -> bool
    ensures { result ≡ has_misfit table.now statement.now }
{
    (0..value_count(statement)).any(|i| is_misfit_at(table, statement, i))
}

// Whether a column is NULL after a statement that gives it this, or nothing.
fn is_null(given: Option<&Value>, statement: &Statement) -> bool
    ensures { result ≡ option_map_or is_null (option_copied given.entry) (is_insert statement.now) }
{
    match given {
        Some(value) => matches!(value, Value::Null),
        None => matches!(statement, Statement::Insert { .. }),
    }
}

// Whether this is so of the column of a place, which is NOT NULL or is not.
fn is_null_at(table: &TableDef, statement: &Statement, place: usize, not_null: bool) -> bool
    ensures { result ≡ not_null && not (is_alias table.now.alias place) && option_map_or is_null (given_to (named.Column place) (assignments table.now statement.now)) (is_insert statement.now) }
{
    not_null
        && !is_alias(table.alias, place)
        && is_null(given_to(table, statement, Named::Column(place)), statement)
}

/// Whether a NOT NULL column that is not the rowid is given NULL, or is left without a value by
/// INSERT.
#[tactic(auto, unfolding(spe_model::specs::Refusals::has_null))]
pub fn has_null(table: &TableDef, statement: &Statement) -> bool
    ensures { result ≡ has_null table.now statement.now }
{
    table.columns.as_slice().iter().enumerate().any(|(place, column)| is_null_at(
        table,
        statement,
        place,
        column.not_null,
    ))
}

/// Whether UPDATE sets the rowid.
#[tactic(auto, unfolding(spe_model::specs::Refusals::sets_rowid))]
pub fn sets_rowid(table: &TableDef, statement: &Statement) -> bool
    ensures { result ≡ sets_rowid table.now statement.now }
{
    matches!(statement, Statement::Update { .. })
        && given_to(table, statement, Named::Rowid).is_some()
}

/// The lowest refusal for which a table gives cause, whatever its rows are.
pub fn rowless_refusal(table: &TableDef, statement: &Statement) -> Option<Refusal>
    ensures { result ≡ rowless_refusal table.now statement.now }
{
    if table.closed.is_some() {
        Some(Refusal::ClosedTable)
    } else if has_unknown_name(table, statement) {
        Some(Refusal::NoColumn)
    } else if has_column_condition(table, statement) {
        Some(Refusal::NotByRowid)
    } else if is_miscounted(table, statement) {
        Some(Refusal::Count)
    } else if has_misfit(table, statement) {
        Some(Refusal::Class)
    } else if has_null(table, statement) {
        Some(Refusal::NotNull)
    } else if sets_rowid(table, statement) {
        Some(Refusal::RowidFixed)
    } else {
        None
    }
}
