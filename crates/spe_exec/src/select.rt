//! What a SELECT shows of stored rows.

ghost use Rattle.std.specs.Prelude.{◌≡◌, IfOk};
ghost use Rattle.std.specs.Option.{option_map};
ghost use Rattle.spe_slow.specs.Rows.{shown_values};
ghost use Rattle.spe_search.specs.Pairs.{pair_seen};
ghost use Rattle.spe_exec.specs.Rows.{values_in, Shows};
ghost use Rattle.spe_exec.specs.declared.select.Shown.TheVariants.{Damage};

use crate::rows::values_in;
use spe_model::{Named, TableDef, Values};
use spe_search::Pair;
use spe_slow::selected;
use std::alloc::{AllocError, Global};

/// What is shown of rows.
#[derive(Debug, Drop)]
pub enum Shown {
    /// Of each row, the values that were asked for.
    Rows(Vec<Values>),
    /// The leaf of the first row whose record is damaged, or has more fields than the table has columns.
    Damage(u32),
}

// What is shown of a row.
fn show_row(
    alloc: Global,
    table: &TableDef,
    all: bool,
    names: &[Named],
    pair: &Pair,
) -> Result<Option<Values>, AllocError>
    ensures { IfOk result (λ found. found ≡ option_map (λ values. shown_values all names.now (pair.now.rowid, values)) (values_in table.now (pair_seen pair.now))) }
{
    match values_in(alloc, table, pair)? {
        Some(values) => Ok(Some(selected(alloc, all, names, &pair.rowid, &values)?)),
        None => Ok(None),
    }
}

fn damage_at(pair: &Pair) -> Shown
    ensures { result ≡ Damage pair.now.leaf }
{
    Shown::Damage(pair.leaf)
}

/// What is shown of these rows: all values, or those that are named.
pub fn show(
    alloc: Global,
    table: &TableDef,
    all: bool,
    names: &[Named],
    pairs: &[Pair],
) -> Result<Shown, AllocError>
    ensures { IfOk result (Shows table.now all names.now pairs.now) }
{
    let mut shown = Vec::new(alloc);
    let mut left = pairs;
    while let [pair, rest @ ..] = left {
        match show_row(alloc, table, all, names, pair)? {
            Some(values) => shown.push(values)?,
            None => return Ok(damage_at(pair)),
        }
        left = rest;
    }
    Ok(Shown::Rows(shown))
}
