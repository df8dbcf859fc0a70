//! A leaf without a cell that goes from a page with two children alone.

ghost use Rattle.std.specs.Prelude.{◌≡◌, ◌≢◌, ◌≤◌, ◌⊎◌, ℕ, false, true, None, Ok, length, take, IfErr, IfOk, IfSome};
ghost use Rattle.spe_model.specs.Page.{page_at};
ghost use Rattle.spe_model.specs.Standing.{all_pages};
ghost use Rattle.spe_model.specs.Tree.{header_end, rank};
ghost use Rattle.spe_space.specs.declared.fault.SpaceFault.TheVariants.{Memory};
ghost use Rattle.spe_space.specs.declared.fault.TreeFault.TheVariants.{Corrupt, Space};
ghost use Rattle.spe_space.specs.Calls.{Keeps, Reads, RefusesTree, sight};
ghost use Rattle.spe_format.specs.Canonical.{IsWritable, fits};
ghost use Rattle.spe_frame.specs.Held.{Spares};
ghost use Rattle.spe_cut.specs.Parts.{run_cells};
ghost use Rattle.spe_cut.specs.Run.{Run as AnyRun, alone};
ghost use Rattle.spe_write.specs.Chain.{IsLikelyOfTree};
ghost use Rattle.spe_insert.specs.Below.{WhereTree};
ghost use Rattle.spe_delete.specs.Child.{HasEmptyLeaf, fewer, fewer_of};
ghost use Rattle.spe_mend.specs.Thin.{BecomesThin, HasOtherCells};

use spe_cut::stretch_law;
use spe_delete::merge_pages;
use spe_frame::see_page;
use spe_insert::{Run, below_law, children_of, one_child, place_of};
use spe_model::{Cell, Kind, PageCells};
use spe_space::{PageSpace, TreeFault};
use std::alloc::Global;

// Of two children with a cell between them, the one in which a rowid does not belong; `None` where there is
// another number of cells than one.
fn other_child(cells: &[Cell], right: u32, rowid: i64) -> Option<u32>
    ensures child { IfSome result (λ child. fewer (rank rowid) cells.now right ≡ alone child) }
    ensures one { IfSome result (λ child. length cells.now ≡ 1) }
    ensures other { result ≡ None → length cells.now ≢ 1 }
{
    match cells {
        [cell] => {
            if place_of(cells, rowid) == 0 {
                return Some(right);
            }
            Some(cell.left)
        }
        _ => None,
    }
}

// What a page holds that has one child and no cell.
fn thin_page(alloc: Global, child: u32) -> PageCells
    ensures cells { result ≡ run_cells (alone child) }
    ensures writable { (usable : ℕ) → IsWritable result usable }
    ensures fits { (usable : ℕ) → 480 ≤ usable → fits result 0 usable ≡ true }
{
    let Run { cells, right } = one_child(alloc, child);
    PageCells {
        kind: Kind::TableInterior,
        cells,
        right,
    }
}

// The child that stays on an interior page of two, from a copy of the page; `None` where it has another
// number of cells than one. Corrupt names the page, where it is no legal interior page of a table.
fn child_left(
    alloc: Global,
    page: u32,
    bytes: &[u8],
    usable: usize,
    rowid: i64,
) -> Result<Option<u32>, TreeFault>
    requires low { 480 ≤ usable }
    requires high { usable ≤ 65536 }
    requires inside { usable ≤ length bytes.now }
    ensures child { IfOk result (λ left. IfSome left (λ child. (children : AnyRun) → page_at (take usable bytes.now) (header_end page) ≡ Ok (run_cells children)
        → fewer_of rowid children ≡ alone child)) }
    ensures one { IfOk result (λ left. IfSome left (λ child. (children : AnyRun) → page_at (take usable bytes.now) (header_end page) ≡ Ok (run_cells children)
        → length children.cells ≡ 1)) }
    ensures other { IfOk result (λ left. left ≡ None → (children : AnyRun) → page_at (take usable bytes.now) (header_end page) ≡ Ok (run_cells children)
        → length children.cells ≢ 1) }
    ensures fault { (children : AnyRun) → page_at (take usable bytes.now) (header_end page) ≡ Ok (run_cells children)
        → IfErr result (λ fault. fault ≡ Space Memory) }
    ensures wide { usable ≤ length bytes.now }
    ensures only { IfErr result (λ fault. (fault ≡ Space Memory) ⊎ (fault ≡ Corrupt page)) }
{
    match children_of(alloc, page, bytes, usable) {
        Ok(children) => Ok(other_child(children.cells.as_slice(), children.right, rowid)),
        Err(fault) => Err(fault),
    }
}

/// Takes the leaf `leaf`, which has no cell and is the child of `page` in which a rowid belongs, off that
/// page, which has one cell, and makes it free. The answer is the only child that the page has then: it
/// has taken the rowids of the leaf, and is not put. `None`, and nothing is put, where the page has
/// another number of cells than one.
///
/// The page is another than page 1; it is got and put once. `buf` is one page long and is written over.
/// Corrupt names the page, where it is no legal interior page of a table. It fails as `get`, `put` and
/// `free` do. ("B-tree Pages" in SQLite's Database File Format.)
pub fn drop_only_leaf<S: PageSpace>(
    alloc: Global,
    space: &mut S,
    page: u32,
    leaf: u32,
    rowid: i64,
    buf: &mut [u8],
) -> Result<Option<u32>, TreeFault>
    requires size { length buf.old ≡ S.Pages.size space.old }
    ensures thin { IfOk result (λ left. IfSome left (λ child. WhereTree S.Pages space.old space.new 2 page rowid (λ pages height low high.
        HasEmptyLeaf S.Pages space.old pages height page leaf rowid
        → BecomesThin S.Pages space.old space.new pages height low high page child rowid))) }
    ensures other { IfOk result (λ left. left ≡ None → WhereTree S.Pages space.old space.new 2 page rowid (λ pages height low high.
        HasEmptyLeaf S.Pages space.old pages height page leaf rowid
        → HasOtherCells S.Pages space.old space.new pages height page)) }
    ensures idle { IfOk result (λ left. left ≡ None → Reads S.Pages space.old space.new) }
    ensures spares { WhereTree S.Pages space.old space.new 2 page rowid (λ pages height low high.
        HasEmptyLeaf S.Pages space.old pages height page leaf rowid → Spares S.Pages space.old space.new pages
        (all_pages (S.Pages.used space.old) (sight S.Pages space.old pages) height page) 0) }
    ensures likely { WhereTree S.Pages space.old space.new 2 page rowid (λ pages height low high.
        HasEmptyLeaf S.Pages space.old pages height page leaf rowid
        → S.Pages.sealed space.old ≡ false → IsLikelyOfTree S.Pages space.new pages result) }
    ensures kept { Keeps S.Pages space.old space.new }
    ensures refusal { RefusesTree S.Pages space.old space.new result }
{
    below_law(space);
    stretch_law();
    match see_page(space, page, buf) {
        Ok(()) => (),
        Err(fault) => return Err(TreeFault::Space(fault)),
    }
    let usable = space.usable() as usize;
    let child = match child_left(alloc, page, buf, usable, rowid) {
        Ok(Some(child)) => child,
        Ok(None) => return Ok(None),
        Err(fault) => return Err(fault),
    };
    let node = thin_page(alloc, child);
    match merge_pages(space, page, leaf, &node, buf) {
        Ok(true) => Ok(Some(child)),
        Ok(false) => Err(TreeFault::Corrupt { page }),
        Err(fault) => Err(TreeFault::Space(fault)),
    }
}
