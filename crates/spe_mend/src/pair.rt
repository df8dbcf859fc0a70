//! Two interior neighbours, of which one has no cell.

ghost use Rattle.std.specs.Prelude.{◌≡◌, ◌≤◌, ◌+◌, ◌⊎◌, ◌∷◌, [], suc, false, true, None, Ok, length, IfErr, IfOk, IfSome, OnOk};
ghost use Rattle.spe_model.specs.Page.{ascends};
ghost use Rattle.spe_model.specs.Paging.{Agrees, Paging};
ghost use Rattle.spe_model.specs.Tree.{node_at};
ghost use Rattle.spe_model.specs.declared.page.Kind.TheVariants.{TableInterior};
ghost use Rattle.spe_space.specs.declared.fault.SpaceFault.TheVariants.{Memory};
ghost use Rattle.spe_space.specs.declared.fault.TreeFault.TheVariants.{Corrupt, Space};
ghost use Rattle.spe_space.specs.Calls.{Keeps, Reads, RefusesTree, sight};
ghost use Rattle.spe_format.specs.Canonical.{AreWritable, IsWritable};
ghost use Rattle.spe_frame.specs.Held.{Shifts, Spares, WhereHeld};
ghost use Rattle.spe_cut.specs.Parts.{need, room, run_cells};
ghost use Rattle.spe_cut.specs.Run.{Run as AnyRun, pages_in};
ghost use Rattle.spe_write.specs.Chain.{IsLikelyOfTree};
ghost use Rattle.spe_insert.specs.Run.{run_of};
ghost use Rattle.spe_delete.specs.Join.{two_pages};
ghost use Rattle.spe_delete.specs.JoinCells.{joined_of};
ghost use Rattle.spe_mend.specs.Pair.{BecomeOne, ShareChildren, WhereThinPair};

use crate::even::lay_evenly;
use spe_cut::{join_law, room_law};
use spe_frame::see_page;
use spe_insert::{Run, ascends_in, below_law, children_of, run_behind, with_children};
use spe_model::Cell;
use spe_space::{PageSpace, Pages, TreeFault};
use std::alloc::{AllocError, Global};

// Whether one of two pages has no cell.
fn is_one_thin(first: &[Cell], second: &[Cell]) -> bool
    ensures thin { result ≡ true → (first.now ≡ []) ⊎ (second.now ≡ []) }
    ensures always { (first.now ≡ []) ⊎ (second.now ≡ []) → result ≡ true }
{
    match first {
        [] => return true,
        _ => (),
    }
    match second {
        [] => true,
        _ => false,
    }
}

// The children of two neighbours with a key between them, which is the last child's of the first.
fn joined(alloc: Global, first: Run, key: i64, second: Run) -> Result<Run, AllocError>
    ensures { IfOk result (λ all. run_of all ≡ joined_of (run_of first) key (run_of second)) }
{
    let behind = run_behind(alloc, key, first.right, second)?;
    with_children(behind, 0, first)
}

// The children of two neighbours, of which one has no cell. Corrupt names the first, where both have one, or
// the keys do not ascend.
fn thin_joined(
    alloc: Global,
    page: u32,
    first: Run,
    key: i64,
    second: Run,
    usable: usize,
) -> Result<Run, TreeFault>
    requires first { AreWritable TableInterior usable first.cells }
    requires second { AreWritable TableInterior usable second.cells }
    requires first_few { need TableInterior first.cells ≤ room TableInterior 0 usable }
    requires second_few { need TableInterior second.cells ≤ room TableInterior 0 usable }
    ensures all { IfOk result (λ all. run_of all ≡ joined_of (run_of first) key (run_of second)) }
    ensures writable { IfOk result (λ all. IsWritable (run_cells (run_of all)) usable) }
    ensures few { IfOk result (λ all. need TableInterior all.cells ≤ room TableInterior 0 usable + 30) }
    ensures fault { (first.cells ≡ []) ⊎ (second.cells ≡ []) → ascends (joined_of (run_of first) key (run_of second)).cells ≡ true
        → IfErr result (λ fault. fault ≡ Space Memory) }
    ensures only { IfErr result (λ fault. (fault ≡ Space Memory) ⊎ (fault ≡ Corrupt page)) }
{
    room_law();
    if !is_one_thin(first.cells.as_slice(), second.cells.as_slice()) {
        return Err(TreeFault::Corrupt { page });
    }
    let all = joined(alloc, first, key, second)?;
    if !ascends_in(all.cells.as_slice()) {
        return Err(TreeFault::Corrupt { page });
    }
    Ok(all)
}

// Copies a page that is held into `buf`, and answers its children.
fn see_children<S: Pages>(
    alloc: Global,
    space: &mut S,
    page: u32,
    buf: &mut [u8],
) -> Result<Run, TreeFault>
    requires size { length buf.old ≡ S.Pages.size space.old }
    ensures node { IfOk result (λ run. (pages : Paging) → Agrees pages (S.Pages.seen space.new)
        → node_at (S.Pages.used space.old) (sight S.Pages space.old pages) page ≡ Ok (run_cells (run_of run))) }
    ensures inside { OnOk result ((pages : Paging) → Agrees pages (S.Pages.seen space.new)
        → S.Pages.used space.old ≤ length (sight S.Pages space.old pages page)) }
    ensures writable { IfOk result (λ run. AreWritable TableInterior (S.Pages.used space.old) run.cells) }
    ensures few { IfOk result (λ run. need TableInterior run.cells ≤ room TableInterior 0 (S.Pages.used space.old)) }
    ensures shifts { WhereHeld S.Pages space.old space.new (page ∷ []) (λ pages.
        Shifts S.Pages space.old space.new pages (page ∷ []) (page ∷ []) 0) }
    ensures likely { WhereHeld S.Pages space.old space.new (page ∷ []) (λ pages. (run : AnyRun)
        → node_at (S.Pages.used space.old) (sight S.Pages space.old pages) page ≡ Ok (run_cells run) → IsLikelyOfTree S.Pages space.new pages result) }
    ensures reads { Reads S.Pages space.old space.new }
    ensures refusal { RefusesTree S.Pages space.old space.new result }
{
    match see_page(space, page, buf) {
        Ok(()) => (),
        Err(fault) => return Err(TreeFault::Space(fault)),
    }
    let usable = space.usable() as usize;
    match children_of(alloc, page, buf, usable) {
        Ok(run) => Ok(run),
        Err(fault) => Err(fault),
    }
}

/// Gives each of two interior neighbours a cell, of which one has a child and no cell. Where all their
/// children fit a page, the first takes them, and the second is made free; else both share them, about as
/// many bytes each. The answer is the key that parts the two then, or `None` where the first has all.
///
/// `key` is the rowid that parts the two on the page above, before the call; neither is page 1. No page is
/// handed out. `buf` is one page long and is written over. Corrupt names one of the two, where it is no
/// legal interior page of a table, or the first, where both have a cell or their keys do not ascend. It
/// fails as `get`, `put` and `free` do. ("B-tree Pages" in SQLite's Database File Format.)
pub fn mend_pages<S: PageSpace>(
    alloc: Global,
    space: &mut S,
    first: u32,
    key: i64,
    second: u32,
    buf: &mut [u8],
) -> Result<Option<i64>, TreeFault>
    requires size { length buf.old ≡ S.Pages.size space.old }
    ensures joined { IfOk result (λ other. other ≡ None → WhereThinPair S.Pages space.old space.new key first second (λ pages height low high.
        BecomeOne S.Pages space.old space.new pages height low high key first second)) }
    ensures shared { IfOk result (λ other. IfSome other (λ other. WhereThinPair S.Pages space.old space.new key first second (λ pages height low high.
        ShareChildren S.Pages space.old space.new pages height low high key other first second))) }
    ensures spares { WhereThinPair S.Pages space.old space.new key first second (λ pages height low high.
        Spares S.Pages space.old space.new pages
        (pages_in (S.Pages.used space.old) (sight S.Pages space.old pages) (suc height) (two_pages key first second)) 0) }
    ensures likely { WhereThinPair S.Pages space.old space.new key first second (λ pages height low high.
        S.Pages.sealed space.old ≡ false → IsLikelyOfTree S.Pages space.new pages result) }
    ensures kept { Keeps S.Pages space.old space.new }
    ensures refusal { RefusesTree S.Pages space.old space.new result }
{
    below_law(space);
    join_law();
    let higher = match see_children(alloc, space, second, buf) {
        Ok(higher) => higher,
        Err(fault) => return Err(fault),
    };
    let lower = match see_children(alloc, space, first, buf) {
        Ok(lower) => lower,
        Err(fault) => return Err(fault),
    };
    let usable = space.usable() as usize;
    let all = match thin_joined(alloc, first, lower, key, higher, usable) {
        Ok(all) => all,
        Err(fault) => return Err(fault),
    };
    match lay_evenly(alloc, space, first, second, all, buf) {
        Ok(Some(other)) => Ok(Some(other)),
        Ok(None) => Ok(None),
        Err(fault) => Err(fault),
    }
}
