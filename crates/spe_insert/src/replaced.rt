//! A row of the tree of a table that gets another payload.

ghost use Rattle.std.specs.Prelude.{◌≡◌, ◌≤◌, true, false, None, length, IfOk};
ghost use Rattle.spe_model.specs.Standing.{pages_of_tree};
ghost use Rattle.spe_space.specs.Calls.{Keeps, Reads, RefusesTree, sight};
ghost use Rattle.spe_frame.specs.Held.{Spares};
ghost use Rattle.spe_write.specs.Chain.{IsLikelyOfTree};
ghost use Rattle.spe_insert.specs.Insert.{Replaced, Unmatched, WhereOwn, most_pages};

use crate::replace_below::replace_below;
use crate::root::raise_root;
use crate::run::ascends_in;
use spe_frame::shifts_law;
use spe_space::{PageSpace, TreeFault};
use std::alloc::Global;

/// Gives the row with a rowid another payload, in the table whose tree has the page `root` as its root, and
/// answers whether it did. False, and nothing is changed, where there is no row with the rowid.
///
/// The root keeps its number. A page is got on the way down, and once more where its child became
/// several; each page that changes is put once, the root of a tree that gets a level more twice. At most
/// 128 pages are handed out, and those of the new payload's chain, before the pages of the old chain are
/// made free. Corrupt names a page that is no legal page of a table, would be the tree's 21st level, or
/// is one of a chain that ends wrong. It fails as `get`, `alloc`, `put` and `free` do. ("B-tree Pages"
/// and "Cell Payload Overflow Pages" in SQLite's Database File Format.)
pub fn replace<S: PageSpace>(
    alloc: Global,
    space: &mut S,
    root: u32,
    rowid: i64,
    payload: &[u8],
) -> Result<bool, TreeFault>
    requires refusal { S.Pages.refusal space.old ≡ None }
    requires most { length payload.now ≤ 2147483647 }
    ensures replaced { IfOk result (λ replaced. replaced ≡ true → WhereOwn S.Pages space.old space.new root (λ pages tree.
        Replaced S.Pages space.old space.new pages root tree rowid payload.now)) }
    ensures absent { IfOk result (λ replaced. replaced ≡ false → WhereOwn S.Pages space.old space.new root (λ pages tree.
        Unmatched S.Pages space.old space.new pages tree rowid)) }
    ensures idle { IfOk result (λ replaced. replaced ≡ false → Reads S.Pages space.old space.new) }
    ensures spares { WhereOwn S.Pages space.old space.new root (λ pages tree.
        Spares S.Pages space.old space.new pages
        (pages_of_tree (S.Pages.used space.old) (sight S.Pages space.old pages) tree)
        (most_pages (S.Pages.used space.old) (length payload.now))) }
    ensures likely { WhereOwn S.Pages space.old space.new root (λ pages tree.
        S.Pages.sealed space.old ≡ false → IsLikelyOfTree S.Pages space.new pages result) }
    ensures kept { Keeps S.Pages space.old space.new }
    ensures refusal { RefusesTree S.Pages space.old space.new result }
{
    shifts_law(space);
    let _usable = space.usable();
    let mut buf = vec![in alloc; 0u8; space.page_size() as usize]?;
    let run = match replace_below(alloc, space, root, 20, rowid, payload, buf.as_mut_slice()) {
        Ok(Some(run)) => run,
        Ok(None) => return Ok(false),
        Err(fault) => return Err(fault),
    };
    if run.cells.as_slice().is_empty() {
        return Ok(true);
    }
    if !ascends_in(run.cells.as_slice()) {
        return Err(TreeFault::Corrupt { page: root });
    }
    match raise_root(space, root, run, buf.as_mut_slice()) {
        Ok(()) => Ok(true),
        Err(fault) => Err(TreeFault::Space(fault)),
    }
}
