//! Two interior neighbours that become one page.

ghost use Rattle.std.specs.Prelude.{◌≡◌, ◌≤◌, ◌⊎◌, ◌∷◌, [], suc, true, false, Ok, length, IfErr, IfOk, OnOk};
ghost use Rattle.spe_model.specs.Page.{ascends};
ghost use Rattle.spe_model.specs.Paging.{Agrees, Paging};
ghost use Rattle.spe_model.specs.Tree.{node_at};
ghost use Rattle.spe_model.specs.declared.page.Kind.TheVariants.{TableInterior};
ghost use Rattle.spe_space.specs.declared.fault.SpaceFault.TheVariants.{Memory};
ghost use Rattle.spe_space.specs.declared.fault.TreeFault.TheVariants.{Corrupt, Space};
ghost use Rattle.spe_space.specs.Calls.{Keeps, Reads, RefusesTree, sight};
ghost use Rattle.spe_format.specs.Canonical.{AreWritable, IsWritable};
ghost use Rattle.spe_frame.specs.Held.{Shifts, Spares, WhereHeld};
ghost use Rattle.spe_cut.specs.Parts.{run_cells};
ghost use Rattle.spe_cut.specs.Run.{Run as AnyRun, pages_in};
ghost use Rattle.spe_write.specs.Chain.{IsLikelyOfTree};
ghost use Rattle.spe_insert.specs.Run.{run_of};
ghost use Rattle.spe_delete.specs.Join.{Joins, StaysPair, WherePair, two_pages};
ghost use Rattle.spe_delete.specs.JoinCells.{joined_of};

use crate::merge::merge_pages;
use spe_cut::{join_law, room_law};
use spe_frame::see_page;
use spe_insert::{Run, ascends_in, below_law, children_of, run_behind, with_children};
use spe_model::{Kind, PageCells};
use spe_space::{PageSpace, Pages, TreeFault};
use std::alloc::{AllocError, Global};

// The children of two neighbours with a key between them, which is the last child's of the first.
fn joined(alloc: Global, first: Run, key: i64, second: Run) -> Result<Run, AllocError>
    ensures { IfOk result (λ all. run_of all ≡ joined_of (run_of first) key (run_of second)) }
{
    let behind = run_behind(alloc, key, first.right, second)?;
    with_children(behind, 0, first)
}

// What a page is to hold that takes the children of its neighbour, from copies of both. Corrupt names the
// first, where the keys do not ascend.
fn joined_cells(
    alloc: Global,
    page: u32,
    first: Run,
    key: i64,
    second: Run,
    usable: usize,
) -> Result<PageCells, TreeFault>
    requires low { 480 ≤ usable }
    requires first { AreWritable TableInterior usable first.cells }
    requires second { AreWritable TableInterior usable second.cells }
    ensures all { IfOk result (λ node. node ≡ run_cells (joined_of (run_of first) key (run_of second))) }
    ensures writable { IfOk result (λ node. IsWritable node usable) }
    ensures fault { ascends (joined_of (run_of first) key (run_of second)).cells ≡ true → IfErr result (λ fault. fault ≡ Space Memory) }
    ensures only { IfErr result (λ fault. (fault ≡ Space Memory) ⊎ (fault ≡ Corrupt page)) }
{
    room_law();
    let all = joined(alloc, first, key, second)?;
    if !ascends_in(all.cells.as_slice()) {
        return Err(TreeFault::Corrupt { page });
    }
    let Run { cells, right } = all;
    Ok(PageCells {
        kind: Kind::TableInterior,
        cells,
        right,
    })
}

// Copies a page that is held into `buf`, and answers its children.
fn see_children<S: Pages>(
    alloc: Global,
    space: &mut S,
    page: u32,
    buf: &mut [u8],
) -> Result<Run, TreeFault>
    requires size { length buf.old ≡ S.Pages.size space.old }
    ensures node { IfOk result (λ run. (pages : Paging) → Agrees pages (S.Pages.seen space.new)
        → node_at (S.Pages.used space.old) (sight S.Pages space.old pages) page ≡ Ok (run_cells (run_of run))) }
    ensures inside { OnOk result ((pages : Paging) → Agrees pages (S.Pages.seen space.new)
        → S.Pages.used space.old ≤ length (sight S.Pages space.old pages page)) }
    ensures writable { IfOk result (λ run. AreWritable TableInterior (S.Pages.used space.old) run.cells) }
    ensures shifts { WhereHeld S.Pages space.old space.new (page ∷ []) (λ pages.
        Shifts S.Pages space.old space.new pages (page ∷ []) (page ∷ []) 0) }
    ensures likely { WhereHeld S.Pages space.old space.new (page ∷ []) (λ pages. (run : AnyRun)
        → node_at (S.Pages.used space.old) (sight S.Pages space.old pages) page ≡ Ok (run_cells run) → IsLikelyOfTree S.Pages space.new pages result) }
    ensures reads { Reads S.Pages space.old space.new }
    ensures refusal { RefusesTree S.Pages space.old space.new result }
{
    match see_page(space, page, buf) {
        Ok(()) => (),
        Err(fault) => return Err(TreeFault::Space(fault)),
    }
    let usable = space.usable() as usize;
    match children_of(alloc, page, buf, usable) {
        Ok(run) => Ok(run),
        Err(fault) => Err(fault),
    }
}

/// Puts the children of two interior neighbours on the first of them, where they fit that page, makes the
/// second free, and answers whether they fit. Where they don't, nothing is put.
///
/// `key` is the rowid that parts the two on the page above; neither is page 1. Both are got once, and the
/// first is put once. `buf` is one page long and is written over. Corrupt names one of them, where it is
/// no legal interior page of a table or the keys of both do not ascend. It fails as `get`, `put` and
/// `free` do. ("B-tree Pages" in SQLite's Database File Format.)
pub fn join_pages<S: PageSpace>(
    alloc: Global,
    space: &mut S,
    first: u32,
    key: i64,
    second: u32,
    buf: &mut [u8],
) -> Result<bool, TreeFault>
    requires size { length buf.old ≡ S.Pages.size space.old }
    ensures joined { IfOk result (λ fit. fit ≡ true → WherePair S.Pages space.old space.new key first second (λ pages height low high.
        Joins S.Pages space.old space.new pages height low high key first second)) }
    ensures stays { IfOk result (λ fit. fit ≡ false → WherePair S.Pages space.old space.new key first second (λ pages height low high.
        StaysPair S.Pages space.old space.new pages height key first second)) }
    ensures spares { WherePair S.Pages space.old space.new key first second (λ pages height low high.
        Spares S.Pages space.old space.new pages
        (pages_in (S.Pages.used space.old) (sight S.Pages space.old pages) (suc height) (two_pages key first second)) 0) }
    ensures likely { WherePair S.Pages space.old space.new key first second (λ pages height low high.
        S.Pages.sealed space.old ≡ false → IsLikelyOfTree S.Pages space.new pages result) }
    ensures kept { Keeps S.Pages space.old space.new }
    ensures refusal { RefusesTree S.Pages space.old space.new result }
{
    below_law(space);
    join_law();
    let higher = match see_children(alloc, space, second, buf) {
        Ok(higher) => higher,
        Err(fault) => return Err(fault),
    };
    let lower = match see_children(alloc, space, first, buf) {
        Ok(lower) => lower,
        Err(fault) => return Err(fault),
    };
    let usable = space.usable() as usize;
    let node = match joined_cells(alloc, first, lower, key, higher, usable) {
        Ok(node) => node,
        Err(fault) => return Err(fault),
    };
    match merge_pages(space, first, second, &node, buf) {
        Ok(fit) => Ok(fit),
        Err(fault) => Err(TreeFault::Space(fault)),
    }
}
