//! A tree that is gathered into its root.

ghost use Rattle.std.specs.Prelude.{◌≡◌, ◌≢◌, ◌≤◌, ◌∷◌, true, false, length, OnOk};
ghost use Rattle.spe_space.specs.Calls.{Keeps};
ghost use Rattle.spe_space.specs.Outcome.{refusal_after};
ghost use Rattle.spe_format.specs.Canonical.{IsWritable, fits};
ghost use Rattle.spe_frame.specs.Held.{IsLikely, Spares, WhereHeld};
ghost use Rattle.spe_frame.specs.Times.{Lacks};
ghost use Rattle.spe_delete.specs.Gather.{Gathers};

use crate::pages::give_pages;
use spe_cut::{join_law, row_law};
use spe_frame::shifts_law;
use spe_insert::lay_lower;
use spe_model::PageCells;
use spe_space::{PageSpace, SpaceFault};

/// Puts the cells of all leaves of a tree, which fit one page, on its root `root`, and makes the tree's
/// other pages `others` free, overflow pages apart. So a tree whose rows fit its root has no other page.
///
/// All these pages are held, and none is page 1. The root is put once. `buf` is one page long and is
/// written over. It fails as `put` and `free` do. ("B-tree Pages" in SQLite's Database File Format.)
pub fn put_alone<S: PageSpace>(
    space: &mut S,
    root: u32,
    others: &[u32],
    cells: &PageCells,
    buf: &mut [u8],
) -> Result<(), SpaceFault>
    requires size { length buf.old ≡ S.Pages.size space.old }
    requires cells { IsWritable cells.now (S.Pages.used space.old) }
    requires fits { fits cells.now 0 (S.Pages.used space.old) ≡ true }
    ensures gathered { OnOk result (WhereHeld S.Pages space.old space.new (root ∷ others.now) (λ pages.
        Lacks (root ∷ others.now) 1 → Gathers S.Pages space.old space.new pages root others.now cells.now)) }
    ensures spares { WhereHeld S.Pages space.old space.new (root ∷ others.now) (λ pages.
        Lacks (root ∷ others.now) 1 → Spares S.Pages space.old space.new pages (root ∷ others.now) 0) }
    ensures likely { WhereHeld S.Pages space.old space.new (root ∷ others.now) (λ pages.
        S.Pages.sealed space.old ≡ false → Lacks (root ∷ others.now) 1 → IsLikely S.Pages space.new pages result) }
    ensures kept { Keeps S.Pages space.old space.new }
    ensures refusal { S.Pages.refusal space.new ≡ refusal_after result (S.Pages.refusal space.old) }
{
    shifts_law(space);
    row_law();
    join_law();
    // A page has 480 usable bytes at least, so its interior cells have no chains.
    let _usable = space.usable();
    match lay_lower(space, root, cells, buf) {
        Ok(()) => (),
        Err(fault) => return Err(fault),
    }
    match give_pages(space, others) {
        Ok(()) => Ok(()),
        Err(fault) => Err(fault),
    }
}
