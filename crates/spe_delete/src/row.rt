//! A row that is taken out of a table's tree.

ghost use Rattle.std.specs.Prelude.{◌≡◌, true, false, None, IfOk};
ghost use Rattle.spe_model.specs.Standing.{pages_of_tree};
ghost use Rattle.spe_space.specs.Calls.{Keeps, Reads, RefusesTree, sight};
ghost use Rattle.spe_frame.specs.Held.{Spares};
ghost use Rattle.spe_write.specs.Chain.{IsLikelyOfTree};
ghost use Rattle.spe_insert.specs.Insert.{WhereOwn};
ghost use Rattle.spe_delete.specs.Delete.{Missing};
ghost use Rattle.spe_delete.specs.Row.{Taken};

use crate::below::take_below;
use spe_frame::shifts_law;
use spe_space::{PageSpace, TreeFault};
use std::alloc::Global;

/// Takes the row with a rowid out of the table whose tree has the page `root` as its root, and answers
/// whether it did. False, and nothing is put, where there is no row with the rowid.
///
/// The tree keeps its height. A leaf whose last row goes is taken off the page above it and made free,
/// unless that page has two children alone: then the leaf stays, without a cell. A page is got on the way
/// down, the leaf is put once, and so is the page above a leaf that goes; no page is handed out. The root
/// is another page than page 1. Corrupt names a page that is no legal page of a table or would be the
/// tree's 21st level, or a page of a chain that ends wrong. It fails as `get`, `put` and `free` do.
/// ("B-tree Pages" in SQLite's Database File Format.)
pub fn take_row<S: PageSpace>(
    alloc: Global,
    space: &mut S,
    root: u32,
    rowid: i64,
) -> Result<bool, TreeFault>
    requires refusal { S.Pages.refusal space.old ≡ None }
    ensures taken { IfOk result (λ was. was ≡ true → WhereOwn S.Pages space.old space.new root (λ pages tree.
        Taken S.Pages space.old space.new pages root tree rowid)) }
    ensures missing { IfOk result (λ was. was ≡ false → WhereOwn S.Pages space.old space.new root (λ pages tree.
        Missing S.Pages space.old space.new pages tree rowid)) }
    ensures idle { IfOk result (λ was. was ≡ false → Reads S.Pages space.old space.new) }
    ensures spares { WhereOwn S.Pages space.old space.new root (λ pages tree.
        Spares S.Pages space.old space.new pages
        (pages_of_tree (S.Pages.used space.old) (sight S.Pages space.old pages) tree) 0) }
    ensures likely { WhereOwn S.Pages space.old space.new root (λ pages tree.
        S.Pages.sealed space.old ≡ false → IsLikelyOfTree S.Pages space.new pages result) }
    ensures kept { Keeps S.Pages space.old space.new }
    ensures refusal { RefusesTree S.Pages space.old space.new result }
{
    shifts_law(space);
    // A page has 480 usable bytes at least, so the sort of a page is read off its bytes.
    let _usable = space.usable();
    let mut buf = vec![in alloc; 0u8; space.page_size() as usize]?;
    match take_below(alloc, space, root, 20, rowid, buf.as_mut_slice()) {
        Ok(Some(_)) => Ok(true),
        Ok(None) => Ok(false),
        Err(fault) => Err(fault),
    }
}
