//! A row that is put into a table of a served database, or gets other values there.

ghost use Rattle.std.specs.Prelude.{◌≡◌, ◌≤◌, true, false, None, length, IfOk};
ghost use Rattle.spe_space.specs.Calls.{Keeps, Reads, RefusesTree};
ghost use Rattle.spe_write.specs.Chain.{IsLikelyOfTree};
ghost use Rattle.spe_modify.specs.Row.{ChangesRow, GainsRow, HasRowid, LacksRowid, SparesOthers, WhereOpen};

use spe_insert::{insert, replace};
use spe_served::table_law;
use spe_space::{PageSpace, TreeFault};
use std::alloc::Global;

/// Puts a row into the open table whose tree has the page `root` as its root, and answers whether it
/// did. `record` is the row's record. False, and nothing is put, where the table has a row with the
/// rowid.
///
/// The root keeps its number. At most 128 pages are handed out, and those of the record's overflow
/// chain. The faults are those of `insert`: Corrupt names a page that is no legal page of a table or
/// would be the tree's 21st level, and it fails as `get`, `alloc` and `put` do. ("B-tree Pages" and
/// "Record Format" in SQLite's Database File Format.)
pub fn insert_row<S: PageSpace>(
    alloc: Global,
    space: &mut S,
    root: u32,
    rowid: i64,
    record: &[u8],
) -> Result<bool, TreeFault>
    requires refusal { S.Pages.refusal space.old ≡ None }
    requires most { length «record».now ≤ 2147483647 }
    ensures put { IfOk result (λ added. added ≡ true → WhereOpen S.Pages space.old space.new root (λ pages table.
        GainsRow S.Pages space.new pages table rowid «record».now)) }
    ensures there { IfOk result (λ added. added ≡ false → WhereOpen S.Pages space.old space.new root (λ pages table.
        HasRowid S.Pages space.new pages table rowid)) }
    ensures idle { IfOk result (λ added. added ≡ false → Reads S.Pages space.old space.new) }
    ensures few { WhereOpen S.Pages space.old space.new root (λ pages table.
        SparesOthers S.Pages space.old space.new pages table (length «record».now)) }
    ensures likely { WhereOpen S.Pages space.old space.new root (λ pages table.
        S.Pages.sealed space.old ≡ false → IsLikelyOfTree S.Pages space.new pages result) }
    ensures kept { Keeps S.Pages space.old space.new }
    ensures refusal { RefusesTree S.Pages space.old space.new result }
{
    table_law(space);
    insert(alloc, space, root, rowid, record)
}

/// Gives a row of the open table whose tree has the page `root` as its root other values, and answers
/// whether it did. `record` is the row's new record. False, and nothing is changed, where the table has
/// no row with the rowid.
///
/// The root keeps its number. At most 128 pages are handed out, and those of the new record's overflow
/// chain; then the pages of the old record's chain are made free. The faults are those of `replace`:
/// Corrupt names a page that is no legal page of a table, would be the tree's 21st level, or is one of a
/// chain that ends wrong, and it fails as `get`, `alloc`, `put` and `free` do. ("B-tree Pages" and "Record
/// Format" in SQLite's Database File Format.)
pub fn replace_row<S: PageSpace>(
    alloc: Global,
    space: &mut S,
    root: u32,
    rowid: i64,
    record: &[u8],
) -> Result<bool, TreeFault>
    requires refusal { S.Pages.refusal space.old ≡ None }
    requires most { length «record».now ≤ 2147483647 }
    ensures replaced { IfOk result (λ replaced. replaced ≡ true → WhereOpen S.Pages space.old space.new root (λ pages table.
        ChangesRow S.Pages space.old space.new pages table rowid «record».now)) }
    ensures absent { IfOk result (λ replaced. replaced ≡ false → WhereOpen S.Pages space.old space.new root (λ pages table.
        LacksRowid S.Pages space.old space.new pages table rowid)) }
    ensures idle { IfOk result (λ replaced. replaced ≡ false → Reads S.Pages space.old space.new) }
    ensures few { WhereOpen S.Pages space.old space.new root (λ pages table.
        SparesOthers S.Pages space.old space.new pages table (length «record».now)) }
    ensures likely { WhereOpen S.Pages space.old space.new root (λ pages table.
        S.Pages.sealed space.old ≡ false → IsLikelyOfTree S.Pages space.new pages result) }
    ensures kept { Keeps S.Pages space.old space.new }
    ensures refusal { RefusesTree S.Pages space.old space.new result }
{
    table_law(space);
    replace(alloc, space, root, rowid, record)
}
