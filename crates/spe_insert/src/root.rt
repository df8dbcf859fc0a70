//! A root that gets a level more.

ghost use Rattle.std.specs.Prelude.{◌≡◌, ◌≢◌, ◌≤◌, [], ◌∷◌, true, false, length, OnOk};
ghost use Rattle.spe_model.specs.Page.{ascends};
ghost use Rattle.spe_model.specs.Paging.{Paging};
ghost use Rattle.spe_space.specs.Calls.{Keeps};
ghost use Rattle.spe_space.specs.Outcome.{refusal_after};
ghost use Rattle.spe_frame.specs.Held.{IsLikely, Spares, WhereHeld};
ghost use Rattle.spe_insert.specs.Below.{IsShort};
ghost use Rattle.spe_insert.specs.Root.{Raises};
ghost use Rattle.spe_insert.specs.Run.{run_of};

use crate::node::lay_lower;
use crate::place::set_child;
use crate::run::Run;
use spe_frame::{lay_page, see_page, shifts_law, take_page};
use spe_model::{Kind, PageCells};
use spe_space::{PageSpace, SpaceFault};

/// Moves what a root has to a new page, and puts on the root the run that it has become, of which that page
/// is the first child now. The root is another page than page 1.
///
/// `buf` is one page long and is written over. The root is got once, and both pages are put once. It
/// fails as `get`, `alloc` and `put` do.
pub fn raise_root<S: PageSpace>(
    space: &mut S,
    root: u32,
    run: Run,
    buf: &mut [u8],
) -> Result<(), SpaceFault>
    requires size { length buf.old ≡ S.Pages.size space.old }
    requires short { IsShort (S.Pages.used space.old) (run_of run) }
    requires some { 1 ≤ length run.cells }
    requires ascends { ascends run.cells ≡ true }
    ensures raised { OnOk result (WhereHeld S.Pages space.old space.new (root ∷ []) (λ pages.
        root ≢ 1 → Raises S.Pages space.old space.new pages root (run_of run))) }
    ensures spares { WhereHeld S.Pages space.old space.new (root ∷ []) (λ pages.
        root ≢ 1 → Spares S.Pages space.old space.new pages (root ∷ []) 1) }
    ensures likely { WhereHeld S.Pages space.old space.new (root ∷ []) (λ pages.
        S.Pages.sealed space.old ≡ false → root ≢ 1 → IsLikely S.Pages space.new pages result) }
    ensures kept { Keeps S.Pages space.old space.new }
    ensures refusal { S.Pages.refusal space.new ≡ refusal_after result (S.Pages.refusal space.old) }
{
    shifts_law(space);
    // A page has 480 usable bytes at least, and so room for the cells of three children.
    let _usable = space.usable();
    match see_page(space, root, buf) {
        Ok(()) => (),
        Err(fault) => return Err(fault),
    }
    let next = match take_page(space) {
        Ok(next) => next,
        Err(fault) => return Err(fault),
    };
    match lay_page(space, next, buf) {
        Ok(()) => (),
        Err(fault) => return Err(fault),
    }
    let Run { cells, right } = set_child(run, 0, next);
    let node = PageCells {
        kind: Kind::TableInterior,
        cells,
        right,
    };
    match lay_lower(space, root, &node, buf) {
        Ok(()) => Ok(()),
        Err(fault) => Err(fault),
    }
}
