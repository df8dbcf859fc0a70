//! Rows that are taken out of a table of a served database.

ghost use Rattle.std.specs.Prelude.{◌≡◌, true, false, None, IfOk, OnOk};
ghost use Rattle.spe_space.specs.Calls.{Keeps, Reads, RefusesTree};
ghost use Rattle.spe_write.specs.Chain.{IsLikelyOfTree};
ghost use Rattle.spe_modify.specs.Row.{LacksRowid, WhereOpen};
ghost use Rattle.spe_modify.specs.Rows.{SparesRows};
ghost use Rattle.spe_modify.specs.Removal.{Goes, RemovesRow, RemovesRows};

use spe_delete::take_row;
use spe_frame::shifts_law;
use spe_served::table_law;
use spe_space::{PageSpace, TreeFault};
use std::alloc::Global;

/// Takes the row with a rowid out of the open table whose tree has the page `root` as its root, and
/// answers whether it did. False, and nothing is changed, where the table has no row with the rowid.
///
/// The root keeps its number, and no page is handed out; the pages of the row's chain are made free, and
/// so is a leaf whose last row goes, unless the page above it has two children alone. The faults are those
/// of `take_row`: Corrupt names a page that is no legal page of a table, would be the tree's 21st level, or
/// is one of a chain that ends wrong, and it fails as `get`, `put` and `free` do. ("B-tree Pages" in
/// SQLite's Database File Format.)
pub fn remove_row<S: PageSpace>(
    alloc: Global,
    space: &mut S,
    root: u32,
    rowid: i64,
) -> Result<bool, TreeFault>
    requires refusal { S.Pages.refusal space.old ≡ None }
    ensures removed { IfOk result (λ removed. removed ≡ true → WhereOpen S.Pages space.old space.new root (λ pages table.
        RemovesRow S.Pages space.old space.new pages table rowid)) }
    ensures absent { IfOk result (λ removed. removed ≡ false → WhereOpen S.Pages space.old space.new root (λ pages table.
        LacksRowid S.Pages space.old space.new pages table rowid)) }
    ensures idle { IfOk result (λ removed. removed ≡ false → Reads S.Pages space.old space.new) }
    ensures few { WhereOpen S.Pages space.old space.new root (λ pages table.
        SparesRows S.Pages space.old space.new pages table 0) }
    ensures likely { WhereOpen S.Pages space.old space.new root (λ pages table.
        S.Pages.sealed space.old ≡ false → IsLikelyOfTree S.Pages space.new pages result) }
    ensures kept { Keeps S.Pages space.old space.new }
    ensures refusal { RefusesTree S.Pages space.old space.new result }
{
    table_law(space);
    take_row(alloc, space, root, rowid)
}

// Takes the row with a rowid out, where there is one.
fn take_out<S: PageSpace>(
    alloc: Global,
    space: &mut S,
    root: u32,
    rowid: &i64,
) -> Result<(), TreeFault>
    requires refusal { S.Pages.refusal space.old ≡ None }
    ensures goes { OnOk result (WhereOpen S.Pages space.old space.new root (λ pages table.
        Goes S.Pages space.old space.new pages table rowid.now)) }
    ensures few { WhereOpen S.Pages space.old space.new root (λ pages table.
        SparesRows S.Pages space.old space.new pages table 0) }
    ensures likely { WhereOpen S.Pages space.old space.new root (λ pages table.
        S.Pages.sealed space.old ≡ false → IsLikelyOfTree S.Pages space.new pages result) }
    ensures kept { Keeps S.Pages space.old space.new }
    ensures refusal { RefusesTree S.Pages space.old space.new result }
{
    match remove_row(alloc, space, root, *rowid) {
        Ok(true) => Ok(()),
        Ok(false) => Ok(()),
        Err(fault) => Err(fault),
    }
}

/// Takes the rows with these rowids out of the open table whose tree has the page `root` as its root, one
/// after the other; where there is none with a rowid, nothing is done for it.
///
/// No page is handed out. The faults are those of `remove_row`; after one some of the rows may be gone
/// already.
pub fn remove_rows<S: PageSpace>(
    alloc: Global,
    space: &mut S,
    root: u32,
    rowids: &[i64],
) -> Result<(), TreeFault>
    requires refusal { S.Pages.refusal space.old ≡ None }
    ensures removed { OnOk result (WhereOpen S.Pages space.old space.new root (λ pages table.
        RemovesRows S.Pages space.new pages table rowids.now)) }
    ensures few { WhereOpen S.Pages space.old space.new root (λ pages table.
        SparesRows S.Pages space.old space.new pages table 0) }
    ensures likely { WhereOpen S.Pages space.old space.new root (λ pages table.
        S.Pages.sealed space.old ≡ false → IsLikelyOfTree S.Pages space.new pages result) }
    ensures kept { Keeps S.Pages space.old space.new }
    ensures refusal { RefusesTree S.Pages space.old space.new result }
{
    table_law(space);
    shifts_law(space);
    let mut left = rowids;
    while let [rowid, rest @ ..] = left {
        match take_out(alloc, space, root, rowid) {
            Ok(()) => (),
            Err(fault) => return Err(fault),
        }
        left = rest;
    }
    Ok(())
}
