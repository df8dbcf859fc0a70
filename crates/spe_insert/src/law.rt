//! The laws of a row that is put below a page.

ghost use Rattle.spe_insert.specs.Laws.{HaveLaws};

use spe_cut::{change_law, child_law, depth_law, root_law, row_law, split_law};
use spe_frame::shifts_law;
use spe_space::Pages;

/// Changes follow one another, beside more pages and in any order of them; a child is a tree among others,
/// and where it becomes a run, so do all children, which a page or two halves hold; and such a tree
/// never gets too deep.
pub fn below_law<S: Pages>(space: &S)
    ensures { HaveLaws S.Pages }
{
    shifts_law(space);
    root_law();
    child_law();
    split_law();
    row_law();
    change_law();
    depth_law();
}
