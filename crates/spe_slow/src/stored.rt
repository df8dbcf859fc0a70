//! The rows of a table in a map.

ghost use Rattle.std.specs.Prelude.{◌≡◌, not, map, filter, length, nat_lt, IfOk, OnOk, OnErr};
ghost use Rattle.std.specs.List.{list_any};
ghost use Rattle.std.specs.Option.{option_copied};
ghost use Rattle.std.specs.Ordering.{int_cmp};
ghost use Rattle.std.specs.BTreeMap.{is_at, IsOrdered};
ghost use Rattle.std.specs.Map.{set_value};
ghost use Rattle.spe_model.specs.Database.{Row};
ghost use Rattle.spe_model.specs.Conditions.{is_chosen, chosen};
ghost use Rattle.spe_model.specs.Length.{record_length};
ghost use Rattle.spe_model.specs.Refusals.{most_record};
ghost use Rattle.spe_model.specs.Rows.{largest, with_row};
ghost use Rattle.spe_slow.specs.Answers.{is_taken};
ghost use Rattle.spe_slow.specs.Rows.{shown_values, changed_values};
ghost use Rattle.spe_slow.specs.Table.{with_written};

use crate::conditions::is_chosen;
use crate::rows::{changed_values, is_too_long, selected};
use spe_model::{Cond, Named, TableDef, Values};
use std::alloc::{AllocError, Global};
use std::collections::BTreeMap;

/// How many rows conditions choose.
pub fn chosen_count(rows: &BTreeMap<i64, Values>, conds: &[Cond]) -> u64
    ensures { result ≡ length (chosen conds.now rows.now.entries) }
{
    rows.iter().filter(|row| is_chosen(conds, *row.0)).count() as u64
}

/// What a SELECT shows of the rows: all values, or those that are named.
pub fn selected_rows(
    alloc: Global,
    all: bool,
    names: &[Named],
    rows: &BTreeMap<i64, Values>,
    conds: &[Cond],
) -> Result<Vec<Values>, AllocError>
    ensures { IfOk result (λ found. found.items ≡ map (shown_values all names.now) (chosen conds.now rows.now.entries)) }
{
    let mut found = Vec::new(alloc);
    for (rowid, values) in rows {
        let chosen = is_chosen(conds, *rowid);
        if !chosen {
            continue;
        }
        found.push(selected(alloc, all, names, rowid, values)?)?;
    }
    Ok(found)
}

/// The largest rowid, if there is a row.
pub fn largest(rows: &BTreeMap<i64, Values>) -> Option<i64>
    ensures { result ≡ largest rows.now.entries }
{
    match rows.last_key_value() {
        Some((rowid, _)) => Some(*rowid),
        None => None,
    }
}

/// Whether a row has this rowid.
pub fn is_taken(rows: &BTreeMap<i64, Values>, rowid: i64) -> bool
    ensures { result ≡ is_taken rows.now.entries rowid }
{
    rows.contains_key(&rowid)
}

/// Puts a row between those below and those above. Where there is no memory for it, the rows stay.
pub fn put_row(
    rows: &mut BTreeMap<i64, Values>,
    rowid: i64,
    values: Values,
) -> Result<(), AllocError>
    ensures ok { OnOk result (rows.new.entries ≡ with_row (rowid, values) rows.old.entries) }
    ensures err { OnErr result (rows.new.entries ≡ rows.old.entries) }
{
    rows.insert(rowid, values)?;
    Ok(())
}

/// The rows that an UPDATE writes, which gives these to the columns.
pub fn changed_rows(
    alloc: Global,
    given: &[Option<&spe_model::Value>],
    rows: &BTreeMap<i64, Values>,
    conds: &[Cond],
) -> Result<Vec<(i64, Values)>, AllocError>
    ensures rows { IfOk result (λ found. found.items ≡ map (λ (r : Row). (r.0, changed_values (map option_copied given.now) r.1)) (chosen conds.now rows.now.entries)) }
    ensures ordered { OnOk result (IsOrdered int_cmp rows.now) }
{
    let mut found = Vec::new(alloc);
    for (rowid, values) in rows {
        if !is_chosen(conds, *rowid) {
            continue;
        }
        let changed = changed_values(alloc, given, values.as_slice())?;
        found.push((*rowid, changed))?;
    }
    Ok(found)
}

/// Whether one of these rows has too long a record.
pub fn is_any_too_long(table: &TableDef, rows: &[(i64, Values)]) -> bool
    ensures { result ≡ list_any (λ (r : Row). nat_lt most_record (record_length table.now.alias r.1)) rows.now }
{
    rows.iter().any(|row| is_too_long(table, &row.1))
}

// Puts a row in the place of that with its rowid, where there is one.
fn write_row(rows: &mut BTreeMap<i64, Values>, rowid: &i64, values: Values)
    ensures { rows.new.entries ≡ set_value (is_at (int_cmp rowid.now)) rows.old.entries values }
{
    if let Some(slot) = rows.get_mut(rowid) {
        *slot = values;
    }
}

/// Puts rows in the places of those with their rowids.
pub fn write_rows(rows: &mut BTreeMap<i64, Values>, written: Vec<(i64, Values)>)
    ensures { rows.new.entries ≡ with_written rows.old.entries written.items }
{
    for (rowid, values) in written {
        write_row(rows, &rowid, values);
    }
}

/// Takes out the rows that conditions choose.
pub fn remove_chosen(rows: &mut BTreeMap<i64, Values>, conds: &[Cond])
    ensures { rows.new.entries ≡ filter (λ (r : Row). not (is_chosen conds.now r.0)) rows.old.entries }
{
    rows.retain(|rowid, _| !is_chosen(conds, *rowid));
}
