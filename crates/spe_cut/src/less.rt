//! Laws of trees that have a row less, and of runs that have fewer children.

ghost use Rattle.spe_cut.specs.Gone.{CellDropsRow, RowIsGone, RowIsTaken};
ghost use Rattle.spe_cut.specs.Joined.{PairIsWhole, RunIsGathered};
ghost use Rattle.spe_cut.specs.Stretch.{RowOfStretch, RunIsWider, StretchBecomesRun, StretchOfRun};

/// One row less: in the cells of a leaf, whose other cells keep their order, and in all rows where some
/// of them lose it.
pub fn gone_law()
    ensures drops { CellDropsRow }
    ensures taken { RowIsTaken }
    ensures gone { RowIsGone }
{}

/// Some children one behind the other are a run among others. Where they become another run, of fewer
/// children or of more, so do all children with it; and one child may have the bounds of several.
pub fn stretch_law()
    ensures stretch { StretchOfRun }
    ensures row { RowOfStretch }
    ensures becomes { StretchBecomesRun }
    ensures wider { RunIsWider }
{}

/// Two neighbours become one page, and all leaves of a run become one leaf.
pub fn join_law()
    ensures whole { PairIsWhole }
    ensures gathered { RunIsGathered }
{}
