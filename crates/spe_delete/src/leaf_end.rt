//! A leaf without a cell that goes from the page above it.

ghost use Rattle.std.specs.Prelude.{◌≡◌, ◌≤◌, false, None, length, IfOk, IfSome};
ghost use Rattle.spe_model.specs.Standing.{all_pages};
ghost use Rattle.spe_space.specs.Calls.{Keeps, Reads, RefusesTree, sight};
ghost use Rattle.spe_frame.specs.Held.{Spares};
ghost use Rattle.spe_write.specs.Chain.{IsLikelyOfTree};
ghost use Rattle.spe_insert.specs.Below.{WhereTree};
ghost use Rattle.spe_insert.specs.Run.{run_of};
ghost use Rattle.spe_delete.specs.Child.{DropsChild, HasEmptyLeaf, KeepsLeaf};

use crate::child::fewer_children;
use crate::merge::merge_pages;
use spe_cut::stretch_law;
use spe_frame::see_page;
use spe_insert::{Run, below_law};
use spe_model::PageCells;
use spe_space::{PageSpace, TreeFault};
use std::alloc::Global;

/// Takes the leaf `leaf`, which has no cell and is the child of `page` in which a rowid belongs, off
/// that page, and makes it free. The answer is what the page holds then: its neighbour has taken the
/// rowids of the leaf. `None`, and nothing is put, where the page would be without a cell then.
///
/// The page is another than page 1; it is got and put once. `buf` is one page long and is written over.
/// Corrupt names the page, where it is no legal interior page of a table or its keys do not ascend. It
/// fails as `get`, `put` and `free` do. ("B-tree Pages" in SQLite's Database File Format.)
pub fn drop_leaf<S: PageSpace>(
    alloc: Global,
    space: &mut S,
    page: u32,
    leaf: u32,
    rowid: i64,
    buf: &mut [u8],
) -> Result<Option<Run>, TreeFault>
    requires size { length buf.old ≡ S.Pages.size space.old }
    ensures dropped { IfOk result (λ left. IfSome left (λ run. WhereTree S.Pages space.old space.new 2 page rowid (λ pages height low high.
        HasEmptyLeaf S.Pages space.old pages height page leaf rowid
        → DropsChild S.Pages space.old space.new pages height low high page (run_of run)))) }
    ensures single { IfOk result (λ left. left ≡ None → WhereTree S.Pages space.old space.new 2 page rowid (λ pages height low high.
        HasEmptyLeaf S.Pages space.old pages height page leaf rowid
        → KeepsLeaf S.Pages space.old space.new pages height page)) }
    ensures idle { IfOk result (λ left. left ≡ None → Reads S.Pages space.old space.new) }
    ensures spares { WhereTree S.Pages space.old space.new 2 page rowid (λ pages height low high.
        HasEmptyLeaf S.Pages space.old pages height page leaf rowid → Spares S.Pages space.old space.new pages
        (all_pages (S.Pages.used space.old) (sight S.Pages space.old pages) height page) 0) }
    ensures likely { WhereTree S.Pages space.old space.new 2 page rowid (λ pages height low high.
        HasEmptyLeaf S.Pages space.old pages height page leaf rowid
        → S.Pages.sealed space.old ≡ false → IsLikelyOfTree S.Pages space.new pages result) }
    ensures kept { Keeps S.Pages space.old space.new }
    ensures refusal { RefusesTree S.Pages space.old space.new result }
{
    below_law(space);
    stretch_law();
    match see_page(space, page, buf) {
        Ok(()) => (),
        Err(fault) => return Err(TreeFault::Space(fault)),
    }
    let usable = space.usable() as usize;
    let node = match fewer_children(alloc, page, buf, usable, rowid) {
        Ok(Some(node)) => node,
        Ok(None) => return Ok(None),
        Err(fault) => return Err(fault),
    };
    match merge_pages(space, page, leaf, &node, buf) {
        Ok(true) => (),
        Ok(false) => return Err(TreeFault::Corrupt { page }),
        Err(fault) => return Err(TreeFault::Space(fault)),
    }
    let PageCells { cells, right, .. } = node;
    Ok(Some(Run { cells, right }))
}
