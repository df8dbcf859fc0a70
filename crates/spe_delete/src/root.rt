//! A root that gets a level less.

ghost use Rattle.std.specs.Prelude.{◌≡◌, ◌≢◌, ◌≤◌, [], ◌∷◌, false, length, OnOk};
ghost use Rattle.spe_model.specs.Paging.{Paging};
ghost use Rattle.spe_space.specs.Calls.{Keeps};
ghost use Rattle.spe_space.specs.Outcome.{refusal_after};
ghost use Rattle.spe_frame.specs.Held.{IsLikely, Spares, WhereHeld};
ghost use Rattle.spe_delete.specs.Root.{Lowers};

use spe_frame::{give_page, lay_page, see_page, shifts_law};
use spe_space::{PageSpace, SpaceFault};

/// Puts what the page `child` has on the page `root`, whose only child it is, and makes `child` free. So a
/// root keeps its number where its tree gets a level less.
///
/// Both pages are held, and neither is page 1. `buf` is one page long and is written over. The child is
/// got once, and the root is put once. It fails as `get`, `put` and `free` do. ("B-tree Pages" in
/// SQLite's Database File Format.)
pub fn lower_root<S: PageSpace>(
    space: &mut S,
    root: u32,
    child: u32,
    buf: &mut [u8],
) -> Result<(), SpaceFault>
    requires size { length buf.old ≡ S.Pages.size space.old }
    ensures lowered { OnOk result (WhereHeld S.Pages space.old space.new (child ∷ root ∷ []) (λ pages.
        root ≢ 1 → 2 ≤ child → Lowers S.Pages space.old space.new pages root child)) }
    ensures spares { WhereHeld S.Pages space.old space.new (child ∷ root ∷ []) (λ pages.
        root ≢ 1 → 2 ≤ child → Spares S.Pages space.old space.new pages (child ∷ root ∷ []) 0) }
    ensures likely { WhereHeld S.Pages space.old space.new (child ∷ root ∷ []) (λ pages.
        S.Pages.sealed space.old ≡ false → root ≢ 1 → 2 ≤ child → IsLikely S.Pages space.new pages result) }
    ensures kept { Keeps S.Pages space.old space.new }
    ensures refusal { S.Pages.refusal space.new ≡ refusal_after result (S.Pages.refusal space.old) }
{
    shifts_law(space);
    // A page has 480 usable bytes at least, so the cells of an interior page have no chains.
    let _usable = space.usable();
    match see_page(space, child, buf) {
        Ok(()) => (),
        Err(fault) => return Err(fault),
    }
    match lay_page(space, root, buf) {
        Ok(()) => (),
        Err(fault) => return Err(fault),
    }
    match give_page(space, child) {
        Ok(()) => Ok(()),
        Err(fault) => Err(fault),
    }
}
