//! Every search over every tree.

ghost use Rattle.std.specs.Prelude.{◌≡◌, IfOk, None};
ghost use Rattle.spe_space.specs.View.{map_refusal};

use crate::tests::files::{File, TABLES, Table};
use crate::tests::space::{Filling, expect, lay};
use spe_model::Bytes;
use spe_search::{Pair, find, largest, range};
use spe_space::{MapSpace, TreeFault};
use std::alloc::{AllocError, Global};
use std::process::Abort;
use std::test::Fail;

fn page_of(alloc: Global, file: &File, page: u32) -> Result<Vec<u8>, AllocError> {
    let size = if file.large { 65536 } else { 512 };
    let mut bytes = vec![in alloc; 0u8; size]?;
    for (of, at, patch) in file.patches {
        if *of == page {
            lay(&mut bytes, *at, *patch);
        }
    }
    Ok(bytes)
}

/// The pages of a file, none of which was given.
pub fn space_of(alloc: Global, file: &File) -> Result<MapSpace, AllocError>
    ensures { IfOk result (λ s. map_refusal s ≡ None) }
{
    let mut filling = Filling::new(alloc, file.large, file.pages)?;
    for page in 1..=file.pages {
        let bytes = page_of(alloc, file, page)?;
        filling.load(page, &bytes);
    }
    Ok(filling.into_space())
}

fn is_row(pair: &Pair, row: &(i64, &[u8])) -> bool {
    pair.rowid == row.0 && pair.payload.as_slice() == row.1
}

fn are_rows(pairs: &[Pair], rows: &[(i64, &[u8])]) -> bool {
    pairs.len() == rows.len() && pairs.iter().zip(rows).all(|(pair, row)| is_row(pair, row))
}

/// Whether a row was answered with this payload, or that there is none.
pub fn is_found(answer: Result<Option<Bytes>, TreeFault>, payload: Option<&[u8]>) -> bool {
    match (answer, payload) {
        (Ok(Some(bytes)), Some(payload)) => bytes.as_slice() == payload,
        (Ok(None), None) => true,
        _ => false,
    }
}

// Whether `find` gives this payload, or that there is none.
fn finds(
    alloc: Global,
    table: &Table,
    rowid: i64,
    payload: Option<&[u8]>,
) -> Result<bool, AllocError> {
    let mut space = space_of(alloc, &table.file)?;
    Ok(is_found(find(alloc, &mut space, table.root, rowid), payload))
}

// Whether `range` gives these rows.
fn ranges(
    alloc: Global,
    table: &Table,
    (low, high): (i64, i64),
    rows: &[(i64, &[u8])],
) -> Result<bool, AllocError> {
    let mut space = space_of(alloc, &table.file)?;
    match range(alloc, &mut space, table.root, low, high) {
        Ok(pairs) => Ok(are_rows(pairs.as_slice(), rows)),
        Err(_) => Ok(false),
    }
}

// Whether `largest` gives the last rowid.
fn ends(alloc: Global, table: &Table) -> Result<bool, AllocError> {
    let mut space = space_of(alloc, &table.file)?;
    let last = table.rows.last().map(|row| row.0);
    Ok(largest(alloc, &mut space, table.root) == Ok(last))
}

// Whether the rows of a table from one place up to another, without it, lie between two rowids.
fn has_part(
    alloc: Global,
    table: &Table,
    part: &(i64, i64, usize, usize),
) -> Result<bool, AllocError> {
    let (low, high, from, to) = *part;
    match table.rows.get(from..to) {
        Some(rows) => ranges(alloc, table, (low, high), rows),
        None => Ok(false),
    }
}

fn expect_rows(rt: &impl Abort, alloc: Global, table: &Table) -> Result<(), AllocError> {
    for (rowid, payload) in table.rows {
        let holds = finds(alloc, table, *rowid, Some(*payload))?;
        expect(rt, table.name, *rowid, holds);
    }
    Ok(())
}

fn expect_gaps(rt: &impl Abort, alloc: Global, table: &Table) -> Result<(), AllocError> {
    for rowid in table.gaps {
        let holds = finds(alloc, table, *rowid, None)?;
        expect(rt, table.name, *rowid, holds);
    }
    Ok(())
}

fn expect_parts(rt: &impl Abort, alloc: Global, table: &Table) -> Result<(), AllocError> {
    for (row, part) in table.parts.iter().enumerate() {
        let holds = has_part(alloc, table, part)?;
        expect(rt, table.name, row as i64, holds);
    }
    Ok(())
}

fn expect_table(rt: &impl Abort, alloc: Global, table: &Table) -> Result<(), AllocError> {
    let all = ranges(alloc, table, (i64::MIN, i64::MAX), table.rows)?;
    let last = ends(alloc, table)?;
    expect(rt, table.name, 0, all && last);
    expect_rows(rt, alloc, table)?;
    expect_gaps(rt, alloc, table)?;
    expect_parts(rt, alloc, table)
}

#[test]
fn tables(rt: HostRuntime) -> Result<(), Fail> {
    for table in &TABLES {
        expect_table(&rt, rt.alloc(), table)?;
    }
    Ok(())
}
