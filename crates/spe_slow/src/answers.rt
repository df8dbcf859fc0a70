//! Statements on the rows of one table.

ghost use Rattle.std.specs.Prelude.{◌≡◌, true, IfOk, OnErr, map, filter, not, length};
ghost use Rattle.spe_model.specs.declared.reply.Reply.TheVariants as replies;
ghost use Rattle.spe_model.specs.Database.{Row};
ghost use Rattle.spe_model.specs.Statement.{is_insert, is_update, conds_of};
ghost use Rattle.spe_model.specs.Conditions.{is_chosen, chosen};
ghost use Rattle.spe_model.specs.Rows.{selected};
ghost use Rattle.spe_slow.specs.Answers.{rows_answer, table_answer, rowid_after, rowid_for, inserted_at};

use crate::assigned::{by_column, given_rowid};
use crate::refused::rowless_refusal;
use crate::rows::{is_too_long, meant_by_all, new_values};
use crate::stored::{
    changed_rows, chosen_count, is_any_too_long, is_taken, largest, put_row, remove_chosen,
    selected_rows, write_rows,
};
use spe_model::{Cond, Refusal, Reply, Rows, Statement, TableDef, Text, Values};
use std::alloc::{AllocError, Global};
use std::collections::BTreeMap;

// The rows that a SELECT shows.
fn select(
    alloc: Global,
    table: &TableDef,
    rows: &BTreeMap<i64, Values>,
    all: bool,
    columns: &[Text],
    conds: &[Cond],
) -> Result<Reply, AllocError>
    ensures { IfOk result (λ reply. reply ≡ replies.Rows (map (selected table.now all columns.now) (chosen conds.now rows.now.entries))) }
{
    let names = meant_by_all(alloc, table, columns)?;
    let found = selected_rows(alloc, all, names.as_slice(), rows, conds)?;
    Ok(Reply::Rows(Rows::new(found)))
}

/// The rowid of a new row to which none is given, by the largest: the next one, or 1 where there is no
/// row. There is none after the largest that 64 bits hold.
pub fn rowid_after(largest: Option<i64>) -> Result<i64, Refusal>
    ensures { result ≡ rowid_after largest }
{
    match largest {
        None => Ok(1),
        Some(i64::MAX) => Err(Refusal::RowidsUsedUp),
        Some(rowid) => Ok(rowid + 1),
    }
}

// The rowid of a new row to which this is given, or none.
fn rowid_for(rows: &BTreeMap<i64, Values>, given: Option<i64>) -> Result<i64, Refusal>
    ensures { result ≡ rowid_for rows.now.entries given }
{
    match given {
        Some(rowid) if is_taken(rows, rowid) => Err(Refusal::RowidTaken),
        Some(rowid) => Ok(rowid),
        None => rowid_after(largest(rows)),
    }
}

// Puts in a new row of this rowid, unless its record is too long.
fn insert_at(
    alloc: Global,
    table: &TableDef,
    rows: &mut BTreeMap<i64, Values>,
    statement: &Statement,
    rowid: i64,
) -> Result<Reply, AllocError>
    ensures answer { IfOk result (λ reply. (rows.new.entries, reply) ≡ inserted_at table.now rows.old.entries statement.now rowid) }
    ensures err { OnErr result (rows.new.entries ≡ rows.old.entries) }
{
    let values = new_values(alloc, table, statement, rowid)?;
    if is_too_long(table, &values) {
        return Ok(Reply::Refused(Refusal::TooLarge));
    }
    put_row(rows, rowid, values)?;
    Ok(Reply::Inserted(rowid))
}

// Carries out an INSERT that only the rows may refuse.
fn insert(
    alloc: Global,
    table: &TableDef,
    rows: &mut BTreeMap<i64, Values>,
    statement: &Statement,
) -> Result<Reply, AllocError>
    requires { is_insert statement.now ≡ true }
    ensures answer { IfOk result (λ reply. (rows.new.entries, reply) ≡ rows_answer table.now rows.old.entries statement.now) }
    ensures err { OnErr result (rows.new.entries ≡ rows.old.entries) }
{
    match rowid_for(rows, given_rowid(table, statement)) {
        Ok(rowid) => insert_at(alloc, table, rows, statement, rowid),
        Err(refusal) => Ok(Reply::Refused(refusal)),
    }
}

// Carries out an UPDATE that only the rows may refuse.
fn update(
    alloc: Global,
    table: &TableDef,
    rows: &mut BTreeMap<i64, Values>,
    statement: &Statement,
    conds: &[Cond],
) -> Result<Reply, AllocError>
    requires update { is_update statement.now ≡ true }
    requires conds { conds.now ≡ conds_of statement.now }
    ensures answer { IfOk result (λ reply. (rows.new.entries, reply) ≡ rows_answer table.now rows.old.entries statement.now) }
    ensures err { OnErr result (rows.new.entries ≡ rows.old.entries) }
{
    let given = by_column(alloc, table, statement)?;
    let changed = changed_rows(alloc, given.as_slice(), rows, conds)?;
    if is_any_too_long(table, changed.as_slice()) {
        return Ok(Reply::Refused(Refusal::TooLarge));
    }
    let count = changed.len() as u64;
    write_rows(rows, changed);
    Ok(Reply::Changed(count))
}

// Carries out a DELETE.
fn delete(rows: &mut BTreeMap<i64, Values>, conds: &[Cond]) -> Reply
    ensures rows { rows.new.entries ≡ filter (λ (r : Row). not (is_chosen conds.now r.0)) rows.old.entries }
    ensures reply { result ≡ replies.Changed (length (chosen conds.now rows.old.entries)) }
{
    let count = chosen_count(rows, conds);
    remove_chosen(rows, conds);
    Reply::Changed(count)
}

// Carries out a statement that only the rows may refuse.
fn carry_out(
    alloc: Global,
    table: &TableDef,
    rows: &mut BTreeMap<i64, Values>,
    statement: &Statement,
) -> Result<Reply, AllocError>
    ensures answer { IfOk result (λ reply. (rows.new.entries, reply) ≡ rows_answer table.now rows.old.entries statement.now) }
    ensures err { OnErr result (rows.new.entries ≡ rows.old.entries) }
{
    match statement {
        Statement::Select {
            all,
            columns,
            conds,
            ..
        } => select(
            alloc,
            table,
            rows,
            *all,
            columns.as_slice(),
            conds.as_slice(),
        ),
        Statement::Count { conds, .. } => Ok(Reply::Count(chosen_count(rows, conds.as_slice()))),
        Statement::Insert { .. } => insert(alloc, table, rows, statement),
        Statement::Update { conds, .. } => {
            update(alloc, table, rows, statement, conds.as_slice())
        }
        Statement::Delete { conds, .. } => Ok(delete(rows, conds.as_slice())),
    }
}

/// Carries out a statement that names this table, in a transaction that may write. A refusal and
/// want of memory leave the rows.
pub fn answer(
    alloc: Global,
    table: &TableDef,
    rows: &mut BTreeMap<i64, Values>,
    statement: &Statement,
) -> Result<Reply, AllocError>
    ensures answer { IfOk result (λ reply. (rows.new.entries, reply) ≡ table_answer table.now rows.old.entries statement.now) }
    ensures err { OnErr result (rows.new.entries ≡ rows.old.entries) }
{
    match rowless_refusal(table, statement) {
        Some(refusal) => Ok(Reply::Refused(refusal)),
        None => carry_out(alloc, table, rows, statement),
    }
}
