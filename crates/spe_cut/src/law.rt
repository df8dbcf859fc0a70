//! Laws of trees in which a child became a run of children.

ghost use Rattle.std.specs.Prelude.{◌≡◌, ◌≤◌, Ok, take};
ghost use Rattle.spe_model.specs.Page.{page_at};
ghost use Rattle.spe_cut.specs.Parts.{need, room};
ghost use Rattle.spe_cut.specs.Changed.{CellChangesRow, RowIsChanged};
ghost use Rattle.spe_cut.specs.Child.{AboveCells, ChildBecomesRun, ChildOfRun, RowOfChild};
ghost use Rattle.spe_cut.specs.Depth.{FilledTreeIsWide, RootStaysLow, SingleTreeIsWide};
ghost use Rattle.spe_cut.specs.Leaf.{PartsAreRun};
ghost use Rattle.spe_cut.specs.Rows.{CellAddsRow, KeptRowsStay, RowIsPut, RowIsThere, RowsAscend, RunAscends};
ghost use Rattle.spe_cut.specs.Run.{HolderOfRun, KeptRunStays, RunOfHolder};
ghost use Rattle.spe_cut.specs.Split.{HalvesArePair, RunIsCut};

use spe_model::PageCells;

/// A page that holds a run is a tree one level higher, and such a tree's root holds one. A run whose
/// pages keep their bytes stays as it is, and its keys ascend.
pub fn root_law()
    ensures holder { HolderOfRun }
    ensures held { RunOfHolder }
    ensures stays { KeptRunStays }
    ensures ascends { RunAscends }
{}

/// A child is a tree among others. Where it becomes a run, so do all children with it.
pub fn child_law()
    ensures child { ChildOfRun }
    ensures row { RowOfChild }
    ensures above { AboveCells }
    ensures grows { ChildBecomesRun }
{}

/// A run is cut at a cell into halves, and two pages that hold these are a run one level higher.
pub fn split_law()
    ensures halves { RunIsCut }
    ensures pair { HalvesArePair }
{}

/// Leaves that hold the parts of some rows are a run.
pub fn leaf_law()
    ensures parts { PartsAreRun }
{}

/// One row more: in the cells of a leaf, and in all rows where some of them have it.
pub fn row_law()
    ensures added { CellAddsRow }
    ensures put { RowIsPut }
    ensures there { RowIsThere }
    ensures stay { KeptRowsStay }
    ensures ascends { RowsAscend }
{}

/// Another payload in a row: in the cells of a leaf, of which one makes room for another, and in all rows
/// where some of them have it.
pub fn change_law()
    ensures cell { CellChangesRow }
    ensures changed { RowIsChanged }
{}

/// A tree with cells on its interior pages takes many pages, so it never gets too deep.
pub fn depth_law()
    ensures filled { FilledTreeIsWide }
    ensures single { SingleTreeIsWide }
    ensures low { RootStaysLow }
{}

/// The cells of a legal page fit such a page in the one form that is written.
pub fn legal_fits(cells: &PageCells, page: &[u8], at: usize, usable: usize)
    requires { page_at (take usable page.now) at ≡ Ok cells.now }
    ensures { need cells.now.kind cells.now.cells ≤ room cells.now.kind at usable }
{}
