//! A run that takes the place of a child on an interior page.

ghost use Rattle.std.specs.Prelude.{◌≡◌, ◌≢◌, ◌≤◌, ◌+◌, ◌⊎◌, ◌∷◌, [], false, true, Ok, length, take, IfOk, IfErr, OnOk};
ghost use Rattle.spe_model.specs.Page.{ascends, page_at};
ghost use Rattle.spe_model.specs.Paging.{Paging};
ghost use Rattle.spe_model.specs.Tree.{header_end};
ghost use Rattle.spe_model.specs.declared.page.Kind.TheVariants.{TableInterior};
ghost use Rattle.spe_space.specs.Calls.{Keeps, RefusesTree, sight};
ghost use Rattle.spe_space.specs.declared.fault.SpaceFault.TheVariants.{Memory};
ghost use Rattle.spe_space.specs.declared.fault.TreeFault.TheVariants.{Corrupt, Space};
ghost use Rattle.spe_format.specs.Canonical.{AreWritable};
ghost use Rattle.spe_frame.specs.Held.{Spares, WhereHeld};
ghost use Rattle.spe_cut.specs.Parts.{need, room, run_cells};
ghost use Rattle.spe_cut.specs.Run.{HoldsRun, Run as AnyRun};
ghost use Rattle.spe_write.specs.Chain.{IsLikelyOfTree};
ghost use Rattle.spe_insert.specs.Below.{IsShort};
ghost use Rattle.spe_insert.specs.Interior.{LaysRun};
ghost use Rattle.spe_insert.specs.Run.{run_of};
ghost use Rattle.spe_insert.specs.Step.{IsBegun, grown_in};

use crate::interior::lay_interior;
use crate::node::header_of;
use crate::place::{place_of, with_children};
use crate::run::{Run, ascends_in, one_child};
use spe_cut::{legal_fits, room_law};
use spe_format::{legal_is_writable, read_page};
use spe_frame::{see_page, shifts_law};
use spe_model::{Kind, PageCells, PageFault};
use spe_space::{PageSpace, SpaceFault, TreeFault};
use std::alloc::{AllocError, Global};

/// The children of an interior page, whose bytes these are. Corrupt names the page, where it is no
/// legal interior page of a table. ("B-tree Pages" in SQLite's Database File Format.)
pub fn children_of(alloc: Global, page: u32, bytes: &[u8], usable: usize) -> Result<Run, TreeFault>
    requires low { 480 ≤ usable }
    requires high { usable ≤ 65536 }
    requires inside { usable ≤ length bytes.now }
    ensures legal { IfOk result (λ run. page_at (take usable bytes.now) (header_end page) ≡ Ok (run_cells (run_of run))) }
    ensures writable { IfOk result (λ run. AreWritable TableInterior usable run.cells) }
    ensures few { IfOk result (λ run. need TableInterior run.cells ≤ room TableInterior 0 usable) }
    ensures fault { (run : AnyRun) → page_at (take usable bytes.now) (header_end page) ≡ Ok (run_cells run)
        → IfErr result (λ fault. fault ≡ Space Memory) }
    ensures only { IfErr result (λ fault. (fault ≡ Space Memory) ⊎ (fault ≡ Corrupt page)) }
{
    let at = header_of(page);
    let node = match read_page(alloc, bytes, at, usable) {
        Ok(node) => node,
        Err(PageFault::Memory) => return Err(TreeFault::Space(SpaceFault::Memory)),
        Err(_) => return Err(TreeFault::Corrupt { page }),
    };
    if node.kind != Kind::TableInterior {
        return Err(TreeFault::Corrupt { page });
    }
    legal_is_writable(&node, bytes, at, usable);
    legal_fits(&node, bytes, at, usable);
    let PageCells { cells, right, .. } = node;
    Ok(Run { cells, right })
}

/// The children with a run in the place of the one in which a rowid belongs, and whether that is the last.
pub fn grown_at(children: Run, rowid: i64, run: Run) -> Result<(Run, bool), AllocError>
    ensures { IfOk result (λ all. run_of all.0 ≡ grown_in (run_of children) rowid (run_of run)) }
{
    let place = place_of(children.cells.as_slice(), rowid);
    let last = place == children.cells.as_slice().len();
    let all = with_children(children, place, run)?;
    Ok((all, last))
}

/// Puts a run on the interior page `page`, which is held, in the place of the child in which the rowid
/// belongs, and answers the run that the page has become. Where the run is one child alone, which
/// then is the one that is there, nothing is put.
///
/// `buf` is one page long and is written over. The page is got once, and each page that changes is put
/// once. Corrupt names the page, where it is no legal interior page of a table or its keys would not
/// ascend. It fails as `get`, `alloc` and `put` do.
pub fn put_run<S: PageSpace>(
    alloc: Global,
    space: &mut S,
    page: u32,
    rowid: i64,
    run: Run,
    buf: &mut [u8],
) -> Result<Run, TreeFault>
    requires size { length buf.old ≡ S.Pages.size space.old }
    requires short { IsShort (S.Pages.used space.old) (run_of run) }
    ensures laid { IfOk result (λ all. WhereHeld S.Pages space.old space.new (page ∷ []) (λ pages. (children : AnyRun)
        → page ≢ 1 → IsBegun (S.Pages.used space.old) (sight S.Pages space.old pages) page children rowid (run_of run)
        → LaysRun S.Pages space.old space.new pages page (grown_in children rowid (run_of run)) (run_of all))) }
    ensures short { IfOk result (λ all. IsShort (S.Pages.used space.old) (run_of all)) }
    ensures spares { WhereHeld S.Pages space.old space.new (page ∷ []) (λ pages.
        page ≢ 1 → Spares S.Pages space.old space.new pages (page ∷ []) 1) }
    ensures likely { WhereHeld S.Pages space.old space.new (page ∷ []) (λ pages. (children : AnyRun)
        → S.Pages.sealed space.old ≡ false → page ≢ 1
        → IsBegun (S.Pages.used space.old) (sight S.Pages space.old pages) page children rowid (run_of run)
        → ascends (grown_in children rowid (run_of run)).cells ≡ true → IsLikelyOfTree S.Pages space.new pages result) }
    ensures kept { Keeps S.Pages space.old space.new }
    ensures refusal { RefusesTree S.Pages space.old space.new result }
{
    shifts_law(space);
    room_law();
    if run.cells.as_slice().is_empty() {
        return Ok(one_child(alloc, page));
    }
    match see_page(space, page, buf) {
        Ok(()) => (),
        Err(fault) => return Err(TreeFault::Space(fault)),
    }
    let usable = space.usable() as usize;
    let children = match children_of(alloc, page, buf, usable) {
        Ok(children) => children,
        Err(fault) => return Err(fault),
    };
    let (all, last) = grown_at(children, rowid, run)?;
    if !ascends_in(all.cells.as_slice()) {
        return Err(TreeFault::Corrupt { page });
    }
    match lay_interior(alloc, space, page, all, last, buf) {
        Ok(all) => Ok(all),
        Err(fault) => Err(fault),
    }
}
