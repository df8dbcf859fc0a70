//! Several rows of a table of a served database that get other values.

ghost use Rattle.std.specs.Prelude.{◌≡◌, ◌≤◌, false, List, None, length, map, All, OnOk};
ghost use Rattle.spe_model.specs.Database.{Row};
ghost use Rattle.spe_model.specs.Standing.{AreTableRows, IsTableRow};
ghost use Rattle.spe_space.specs.Calls.{Keeps, RefusesTree};
ghost use Rattle.spe_write.specs.Chain.{IsLikelyOfTree};
ghost use Rattle.spe_insert.specs.Insert.{most_pages};
ghost use Rattle.spe_modify.specs.Row.{SparesOthers, WhereOpen};
ghost use Rattle.spe_modify.specs.Rows.{ChangesRows, IsShort, SparesRows, Turns, pages_of_rows, stored_of};

use crate::row::replace_row;
use spe_frame::shifts_law;
use spe_model::Bytes;
use spe_served::table_law;
use spe_space::{PageSpace, TreeFault};
use std::alloc::Global;

/// A row as it is stored: its rowid, and its record. ("Record Format" in SQLite's Database File Format.)
#[derive(Debug, Drop)]
pub struct StoredRow {
    pub rowid: i64,
    pub record: Bytes,
}

// Gives the row that has a rowid other values, where there is one.
fn turn<S: PageSpace>(
    alloc: Global,
    space: &mut S,
    root: u32,
    stored: &StoredRow,
) -> Result<(), TreeFault>
    requires refusal { S.Pages.refusal space.old ≡ None }
    requires most { IsShort stored.now }
    ensures turns { OnOk result (WhereOpen S.Pages space.old space.new root (λ pages table. (row : Row) → IsTableRow table.entry.table (stored_of stored.now) row
        → Turns S.Pages space.old space.new pages table row (most_pages (S.Pages.used space.old) (length stored.now.record)))) }
    ensures few { WhereOpen S.Pages space.old space.new root (λ pages table.
        SparesOthers S.Pages space.old space.new pages table (length stored.now.record)) }
    ensures likely { WhereOpen S.Pages space.old space.new root (λ pages table.
        S.Pages.sealed space.old ≡ false → IsLikelyOfTree S.Pages space.new pages result) }
    ensures kept { Keeps S.Pages space.old space.new }
    ensures refusal { RefusesTree S.Pages space.old space.new result }
{
    shifts_law(space);
    match replace_row(alloc, space, root, stored.rowid, stored.record.as_slice()) {
        Ok(true) => Ok(()),
        Ok(false) => Ok(()),
        Err(fault) => Err(fault),
    }
}

/// Gives rows of the open table whose tree has the page `root` as its root other values, one after the
/// other: each of these takes the place of the row that has its rowid, and where there is none nothing is
/// done.
///
/// For each row at most 128 pages are handed out, and those of its record's overflow chain. The faults
/// are those of `replace_row`; after one some rows may have their other values already.
pub fn replace_rows<S: PageSpace>(
    alloc: Global,
    space: &mut S,
    root: u32,
    stored: &[StoredRow],
) -> Result<(), TreeFault>
    requires refusal { S.Pages.refusal space.old ≡ None }
    requires most { All IsShort stored.now }
    ensures changed { OnOk result (WhereOpen S.Pages space.old space.new root (λ pages table. (rows : List Row) → AreTableRows table.entry.table (map stored_of stored.now) rows
        → ChangesRows S.Pages space.new pages table rows)) }
    ensures few { WhereOpen S.Pages space.old space.new root (λ pages table. (rows : List Row) → AreTableRows table.entry.table (map stored_of stored.now) rows
        → SparesRows S.Pages space.old space.new pages table (pages_of_rows (S.Pages.used space.old) stored.now)) }
    ensures likely { WhereOpen S.Pages space.old space.new root (λ pages table. (rows : List Row) → AreTableRows table.entry.table (map stored_of stored.now) rows
        → S.Pages.sealed space.old ≡ false → IsLikelyOfTree S.Pages space.new pages result) }
    ensures kept { Keeps S.Pages space.old space.new }
    ensures refusal { RefusesTree S.Pages space.old space.new result }
{
    table_law(space);
    shifts_law(space);
    let mut left = stored;
    while let [row, rest @ ..] = left {
        match turn(alloc, space, root, row) {
            Ok(()) => (),
            Err(fault) => return Err(fault),
        }
        left = rest;
    }
    Ok(())
}
