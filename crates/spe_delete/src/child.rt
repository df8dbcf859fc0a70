//! A child that goes from its page.

ghost use Rattle.std.specs.Prelude.{◌≡◌, ◌≢◌, ◌≤◌, ◌⊎◌, ◌∷◌, [], true, false, None, Ok, length, take, IfErr, IfOk, IfSome};
ghost use Rattle.spe_model.specs.Page.{ascends, page_at};
ghost use Rattle.spe_model.specs.Tree.{header_end};
ghost use Rattle.spe_space.specs.declared.fault.SpaceFault.TheVariants.{Memory};
ghost use Rattle.spe_space.specs.declared.fault.TreeFault.TheVariants.{Corrupt, Space};
ghost use Rattle.spe_format.specs.Canonical.{IsWritable, fits};
ghost use Rattle.spe_cut.specs.Parts.{run_cells};
ghost use Rattle.spe_cut.specs.Run.{Run as AnyRun};
ghost use Rattle.spe_insert.specs.Run.{run_of};
ghost use Rattle.spe_delete.specs.Child.{fewer_of};

use crate::cell::take_cell;
use spe_insert::{Run, ascends_in, children_of, place_of};
use spe_model::{Kind, PageCells};
use spe_space::TreeFault;
use std::alloc::Global;

// The children without the one in which a rowid belongs.
fn without_child(children: Run, rowid: i64) -> Run
    requires { 1 ≤ length children.cells }
    ensures { run_of result ≡ fewer_of rowid (run_of children) }
{
    let Run { cells, right } = children;
    let last = cells.as_slice().len() - 1;
    let place = place_of(cells.as_slice(), rowid);
    if place <= last {
        let (cells, _) = take_cell(cells, place);
        return Run { cells, right };
    }
    let (cells, cell) = take_cell(cells, last);
    Run {
        cells,
        right: cell.left,
    }
}

/// What an interior page holds without the child in which a rowid belongs, from a copy of it; `None`
/// where it would be without a cell then. Corrupt names the page, where it is no legal interior page of a table
/// or its keys do not ascend.
pub(crate) fn fewer_children(
    alloc: Global,
    page: u32,
    bytes: &[u8],
    usable: usize,
    rowid: i64,
) -> Result<Option<PageCells>, TreeFault>
    requires low { 480 ≤ usable }
    requires high { usable ≤ 65536 }
    requires inside { usable ≤ length bytes.now }
    ensures less { IfOk result (λ left. IfSome left (λ node. (children : AnyRun) → page_at (take usable bytes.now) (header_end page) ≡ Ok (run_cells children)
        → node ≡ run_cells (fewer_of rowid children))) }
    ensures some { IfOk result (λ left. IfSome left (λ node. (children : AnyRun) → page_at (take usable bytes.now) (header_end page) ≡ Ok (run_cells children)
        → 2 ≤ length children.cells)) }
    ensures writable { IfOk result (λ left. IfSome left (λ node. IsWritable node usable)) }
    ensures fit { IfOk result (λ left. IfSome left (λ node. fits node 0 usable ≡ true)) }
    ensures single { IfOk result (λ left. left ≡ None → (children : AnyRun) → page_at (take usable bytes.now) (header_end page) ≡ Ok (run_cells children)
        → length children.cells ≤ 1) }
    ensures fault { (children : AnyRun) → page_at (take usable bytes.now) (header_end page) ≡ Ok (run_cells children)
        → (1 ≤ length children.cells → ascends (fewer_of rowid children).cells ≡ true) → IfErr result (λ fault. fault ≡ Space Memory) }
    ensures wide { usable ≤ length bytes.now }
    ensures only { IfErr result (λ fault. (fault ≡ Space Memory) ⊎ (fault ≡ Corrupt page)) }
{
    let children = match children_of(alloc, page, bytes, usable) {
        Ok(children) => children,
        Err(fault) => return Err(fault),
    };
    if children.cells.as_slice().len() < 2 {
        return Ok(None);
    }
    let left = without_child(children, rowid);
    if !ascends_in(left.cells.as_slice()) {
        return Err(TreeFault::Corrupt { page });
    }
    let Run { cells, right } = left;
    Ok(Some(PageCells {
        kind: Kind::TableInterior,
        cells,
        right,
    }))
}
