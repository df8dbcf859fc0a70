//! A database over maps.

ghost use Rattle.std.specs.Prelude.{◌≡◌, ◌&&◌, ◌<◌, [], length, position, replicate, IfOk, OnErr};
ghost use Rattle.spe_model.specs.declared.transaction.TxKind.TheVariants.{ReadWrite};
ghost use Rattle.spe_model.specs.Statement.{is_read_only, is_write};
ghost use Rattle.spe_model.specs.Meaning.{meaning};
ghost use Rattle.spe_slow.specs.Tables.{is_table, table_for, without_rows, tables_from, held_rows};

use crate::answers::answer;
use crate::naming::agree;
use crate::refused::{is_write, table_name};
use spe_model::{Refusal, Reply, Statement, TableDef, Tables, Text, TxKind, Values};
use std::alloc::{AllocError, Global};
use std::collections::BTreeMap;
use std::marker::Model;

/// A database whose tables hold their rows in maps by rowid: what statements mean, done plainly.
#[derive(Debug, Drop)]
pub struct SlowDb {
    alloc: Global,
    tables: Tables,
    rows: Vec<BTreeMap<i64, Values>>,
}

impl Model for SlowDb {
    ghost use Rattle.std.specs.Prelude.{◌≡◌, length};
    ghost use Rattle.spe_model.specs.Database.{Database};
    ghost use Rattle.spe_slow.specs.Tables.{tables_from, held_rows};

    ghost Value = { Database };

    ghost view = { λ d. tables_from 1 d.tables (held_rows d.rows.items) };

    ghost invariant = { λ d. length d.rows.items ≡ length d.tables };
}

impl SlowDb {
    /// These tables without rows. The schema rowid of the first is 1, that of the next 2, and so on.
    pub fn new(alloc: Global, tables: Tables) -> Result<SlowDb, AllocError>
        ensures { IfOk result (λ database. database ≡ without_rows tables) }
    {
        let rows = no_rows(alloc, tables.as_slice().len())?;
        Ok(SlowDb {
            alloc,
            tables,
            rows,
        })
    }

    /// Carries out a statement of a transaction that may write. It changes nothing where it refuses
    /// and where there is no memory.
    pub fn apply(&mut self, statement: &Statement) -> Result<Reply, AllocError>
        ensures meaning { IfOk result (λ reply. (self.new, reply) ≡ meaning ReadWrite self.old statement.now) }
        ensures err { OnErr result (self.new ≡ self.old) }
    {
        self.apply_in(TxKind::ReadWrite, statement)
    }

    /// Carries out a statement of a transaction of this kind. It changes nothing where it refuses and
    /// where there is no memory.
    pub fn apply_in(&mut self, kind: TxKind, statement: &Statement) -> Result<Reply, AllocError>
        ensures meaning { IfOk result (λ reply. (self.new, reply) ≡ meaning kind self.old statement.now) }
        ensures err { OnErr result (self.new ≡ self.old) }
    {
        apply_to(
            self.alloc,
            self.tables.as_slice(),
            &mut self.rows,
            kind,
            statement,
        )
    }
}

// So many maps without rows.
fn no_rows(alloc: Global, count: usize) -> Result<Vec<BTreeMap<i64, Values>>, AllocError>
    ensures { IfOk result (λ rows. held_rows rows.items ≡ replicate count []) }
{
    let mut rows = Vec::new(alloc);
    for _ in 0..count {
        rows.push(BTreeMap::new(alloc))?;
    }
    Ok(rows)
}

// The place of the first table of a name.
fn table_place(tables: &[TableDef], name: &Text) -> Option<usize>
    ensures { result ≡ position (is_table name.now) tables.now }
{
    tables.iter().position(|table| agree(&table.name, name))
}

// Whether a statement would write in a transaction that may not.
fn is_blocked(kind: TxKind, statement: &Statement) -> bool
    ensures { result ≡ is_read_only kind && is_write statement.now }
{
    matches!(kind, TxKind::ReadOnly) && is_write(statement)
}

// The place of the table that a statement names, or the refusal that goes before those of a table.
fn table_for(tables: &[TableDef], kind: TxKind, statement: &Statement) -> Result<usize, Refusal>
    ensures place { result ≡ table_for kind tables.now statement.now }
    ensures within { IfOk result (λ place. place < length tables.now) }
{
    match table_place(tables, table_name(statement)) {
        _ if is_blocked(kind, statement) => Err(Refusal::ReadOnly),
        Some(place) => Ok(place),
        None => Err(Refusal::NoTable),
    }
}

// Carries out a statement on tables and the rows of each.
fn apply_to(
    alloc: Global,
    tables: &[TableDef],
    rows: &mut [BTreeMap<i64, Values>],
    kind: TxKind,
    statement: &Statement,
) -> Result<Reply, AllocError>
    requires { length rows.old ≡ length tables.now }
    ensures meaning { IfOk result (λ reply. (tables_from 1 tables.now (held_rows rows.new), reply) ≡ meaning kind (tables_from 1 tables.now (held_rows rows.old)) statement.now) }
    ensures err { OnErr result (held_rows rows.new ≡ held_rows rows.old) }
    ensures tables { length rows.new ≡ length tables.now }
{
    match table_for(tables, kind, statement) {
        Ok(place) => answer(alloc, &tables[place], &mut rows[place], statement),
        Err(refusal) => Ok(Reply::Refused(refusal)),
    }
}
