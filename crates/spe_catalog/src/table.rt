//! Tables, open and closed.

ghost use Rattle.std.specs.Prelude.{◌≡◌, ◌&&◌, [], IfOk, OnOk, codes};
ghost use Rattle.spe_model.specs.Definition.{are_distinct, names_of};
ghost use Rattle.spe_model.specs.Schema.{is_of_type, is_own_name, is_declared, declaration_in, columns_in, alias_in};
ghost use Rattle.spe_catalog.specs.Table.{Attaches, AddsOn, MakesTable, first_reason};

use crate::definitions::definition;
use crate::names::NameSet;
use crate::schema::SchemaRow;
use crate::words::agree;
use spe_model::{Closed, Column, Columns, Copies, Declaration, TableDef};
use std::alloc::{AllocError, Global};

/// The tables that have an index or a trigger, by their names.
#[derive(Drop)]
pub struct Attached {
    pub indexed: NameSet,
    pub triggered: NameSet,
}

fn is_on_kind(kind: &[u8], row: &SchemaRow) -> bool
    ensures { result ≡ is_of_type kind.now row.now }
{
    row.kind().as_slice() == kind
}

// Adds the name of the table that an object belongs to, where the object is of this type.
fn add_on(
    alloc: Global,
    kind: &[u8],
    row: &SchemaRow,
    names: &mut NameSet,
) -> Result<(), AllocError>
    ensures { OnOk result (AddsOn kind.now row.now names.old names.new) }
{
    if is_on_kind(kind, row) {
        names.insert(alloc, row.tbl_name().as_str())?;
    }
    Ok(())
}

impl Attached {
    /// None.
    pub fn none(alloc: Global) -> Attached
        ensures { Attaches [] result }
    {
        Attached {
            indexed: NameSet::new(alloc),
            triggered: NameSet::new(alloc),
        }
    }

    /// Adds the table that a row of the schema names with its index or trigger, if it is one's row.
    pub fn add(&mut self, alloc: Global, row: &SchemaRow) -> Result<(), AllocError>
        ensures indexed { OnOk result (AddsOn (codes "index") row.now self.old.indexed self.new.indexed) }
        ensures triggered { OnOk result (AddsOn (codes "trigger") row.now self.old.triggered self.new.triggered) }
    {
        add_on(alloc, b"index", row, &mut self.indexed)?;
        add_on(alloc, b"trigger", row, &mut self.triggered)
    }

    /// Those that these rows of the schema name.
    pub fn new(alloc: Global, rows: &[SchemaRow]) -> Result<Attached, AllocError>
        ensures { IfOk result (Attaches rows.now) }
    {
        let mut attached = Attached::none(alloc);
        let mut left = rows;
        while let [row, rest @ ..] = left {
            attached.add(alloc, row)?;
            left = rest;
        }
        Ok(attached)
    }
}

/// Whether no two columns have names that agree without regard to ASCII case.
pub fn are_distinct(alloc: Global, columns: &[Column]) -> Result<bool, AllocError>
    ensures { IfOk result (λ distinct. distinct ≡ are_distinct (names_of columns.now)) }
{
    let mut names = NameSet::new(alloc);
    let mut left = columns;
    while let [column, rest @ ..] = left {
        if !names.insert(alloc, column.name.as_str())? {
            return Ok(false);
        }
        left = rest;
    }
    Ok(true)
}

// Whether names of SQLite's own tables begin so.
fn is_own_name(name: &[u8]) -> bool
    ensures { result ≡ is_own_name name.now }
{
    let (front, _) = name.split_at(name.len().min(7));
    agree(front, b"sqlite_")
}

// The first reason for which a table is closed.
fn first_reason(
    alloc: Global,
    attached: &Attached,
    is_understood: bool,
    name: &str,
) -> Result<Option<Closed>, AllocError>
    ensures { IfOk result (λ closed. closed ≡ first_reason attached.now is_understood name.now) }
{
    if is_own_name(name.as_bytes()) {
        return Ok(Some(Closed::Reserved));
    }
    if !is_understood {
        return Ok(Some(Closed::Definition));
    }
    if attached.indexed.has(alloc, name)? {
        return Ok(Some(Closed::Indexed));
    }
    if attached.triggered.has(alloc, name)? {
        return Ok(Some(Closed::Triggered));
    }
    Ok(None)
}

// What a row's text declares.
fn declaration_in(alloc: Global, row: &SchemaRow) -> Result<Option<Declaration>, AllocError>
    ensures { IfOk result (λ d. d ≡ declaration_in row.now) }
{
    match row.sql() {
        Some(sql) => definition(alloc, sql.as_str()),
        None => Ok(None),
    }
}

// Whether a text is understood, no two of its columns have one name, and its root is no page of an
// index.
fn is_understood(
    alloc: Global,
    declaration: &Option<Declaration>,
    is_rooted: bool,
) -> Result<bool, AllocError>
    ensures { IfOk result (λ understood. understood ≡ (is_declared declaration.now && is_rooted)) }
{
    match declaration {
        Some(declaration) => {
            let distinct = are_distinct(alloc, declaration.columns.as_slice())?;
            Ok(distinct && is_rooted)
        }
        None => Ok(false),
    }
}

// What a text declares; no columns where it is not understood.
fn parts_of(alloc: Global, declaration: Option<Declaration>) -> Declaration
    ensures { result ≡ record { columns = columns_in declaration; alias = alias_in declaration } }
{
    match declaration {
        Some(declaration) => declaration,
        None => Declaration {
            columns: Columns::new(Vec::new(alloc)),
            alias: None,
        },
    }
}

/// The table of a row of the schema, with the first reason why it is closed, if it is.
///
/// `is_rooted` says whether the row names a root page that is no page of an index. A closed table keeps
/// the columns that its text declares, where that is understood.
pub fn table_of(
    alloc: Global,
    attached: &Attached,
    is_rooted: bool,
    row: &SchemaRow,
) -> Result<TableDef, AllocError>
    ensures { MakesTable attached.now is_rooted row.now result }
{
    let declaration = declaration_in(alloc, row)?;
    let is_understood = is_understood(alloc, &declaration, is_rooted)?;
    let closed = first_reason(alloc, attached, is_understood, row.name().as_str())?;
    let name = row.name().copy(alloc)?;
    let Declaration { columns, alias } = parts_of(alloc, declaration);
    Ok(TableDef {
        name,
        columns,
        alias,
        closed,
    })
}
