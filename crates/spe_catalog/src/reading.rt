//! The rows of the schema table, read one after the other.

ghost use Rattle.std.specs.Prelude.{◌≡◌, IfOk};
ghost use Rattle.spe_model.specs.Schema.{schema_row_of};
ghost use Rattle.spe_search.specs.Pairs.{pair_seen};
ghost use Rattle.spe_catalog.specs.Reading.{Joins, Tells};
ghost use Rattle.spe_catalog.specs.declared.reading.Reading.TheVariants.{Damage};

use crate::names::NameSet;
use crate::schema::{SchemaRow, schema_row};
use spe_search::Pair;
use std::alloc::{AllocError, Global};

/// What rows of the schema table say.
#[derive(Debug, Drop)]
pub enum Reading {
    /// All rows, which are in order.
    Rows(Vec<SchemaRow>),
    /// The leaf of the first that is not: its record is no schema record, its name is that of a table
    /// before it, or its root page has a number past 32 bits.
    Damage(u32),
}

// Whether a row may stand behind others, the names of whose tables it joins.
fn joins(alloc: Global, names: &mut NameSet, row: &SchemaRow) -> Result<bool, AllocError>
    ensures { IfOk result (Joins row.now names.old names.new) }
{
    if !row.is_table() {
        return Ok(true);
    }
    if row.root().is_none() {
        return Ok(false);
    }
    names.insert(alloc, row.name().as_str())
}

// The schema row of a row.
fn row_of(alloc: Global, pair: &Pair) -> Result<Option<SchemaRow>, AllocError>
    ensures { IfOk result (λ row. row ≡ schema_row_of (pair_seen pair.now)) }
{
    schema_row(alloc, pair.rowid, pair.payload.as_slice())
}

fn damage_at(pair: &Pair) -> Reading
    ensures { result ≡ Damage pair.now.leaf }
{
    Reading::Damage(pair.leaf)
}

/// What these rows say.
pub fn read_rows(alloc: Global, pairs: &[Pair]) -> Result<Reading, AllocError>
    ensures { IfOk result (Tells pairs.now) }
{
    let mut names = NameSet::new(alloc);
    let mut rows = Vec::new(alloc);
    let mut left = pairs;
    while let [pair, rest @ ..] = left {
        let Some(row) = row_of(alloc, pair)? else {
            return Ok(damage_at(pair));
        };
        if !joins(alloc, &mut names, &row)? {
            return Ok(damage_at(pair));
        }
        rows.push(row)?;
        left = rest;
    }
    Ok(Reading::Rows(rows))
}
