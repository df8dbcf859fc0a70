//! Two neighbours that become one page.

ghost use Rattle.std.specs.Prelude.{◌≡◌, ◌≢◌, ◌≤◌, [], ◌∷◌, true, false, length, IfOk};
ghost use Rattle.spe_model.specs.Paging.{Paging};
ghost use Rattle.spe_space.specs.Calls.{Keeps};
ghost use Rattle.spe_space.specs.Outcome.{refusal_after};
ghost use Rattle.spe_format.specs.Canonical.{IsWritable, fits};
ghost use Rattle.spe_frame.specs.Held.{IsLikely, Spares, WhereHeld};
ghost use Rattle.spe_insert.specs.Node.{IsUnlaid};
ghost use Rattle.spe_delete.specs.Merge.{KeepsBoth, Merges};

use spe_frame::{give_page, shifts_law};
use spe_insert::lay_node;
use spe_model::PageCells;
use spe_space::{PageSpace, SpaceFault};

/// Puts the cells of two neighbours on the first of them, where they fit that page, makes the second
/// free, and answers whether they fit. Where they don't, nothing is put.
///
/// Both pages are held, and neither is page 1; they may be leaves or interior pages. `buf` is a copy of
/// the first page, and is written over. It fails as `put` and `free` do. ("B-tree Pages" in SQLite's
/// Database File Format.)
pub fn merge_pages<S: PageSpace>(
    space: &mut S,
    first: u32,
    second: u32,
    cells: &PageCells,
    buf: &mut [u8],
) -> Result<bool, SpaceFault>
    requires size { length buf.old ≡ S.Pages.size space.old }
    requires cells { IsWritable cells.now (S.Pages.used space.old) }
    ensures fits { IfOk result (λ fit. first ≢ 1 → fit ≡ fits cells.now 0 (S.Pages.used space.old)) }
    ensures merged { IfOk result (λ fit. fit ≡ true → WhereHeld S.Pages space.old space.new (first ∷ second ∷ []) (λ pages.
        first ≢ 1 → 2 ≤ second → Merges S.Pages space.old space.new pages first second cells.now)) }
    ensures idle { IfOk result (λ fit. fit ≡ false → IsUnlaid S.Pages space.old space.new) }
    ensures kept_both { IfOk result (λ fit. fit ≡ false → WhereHeld S.Pages space.old space.new (first ∷ second ∷ []) (λ pages.
        first ≢ 1 → KeepsBoth S.Pages space.old space.new pages first second)) }
    ensures spares { WhereHeld S.Pages space.old space.new (first ∷ second ∷ []) (λ pages.
        first ≢ 1 → 2 ≤ second → Spares S.Pages space.old space.new pages (first ∷ second ∷ []) 0) }
    ensures likely { WhereHeld S.Pages space.old space.new (first ∷ second ∷ []) (λ pages.
        S.Pages.sealed space.old ≡ false → first ≢ 1 → 2 ≤ second → IsLikely S.Pages space.new pages result) }
    ensures kept { Keeps S.Pages space.old space.new }
    ensures refusal { S.Pages.refusal space.new ≡ refusal_after result (S.Pages.refusal space.old) }
{
    shifts_law(space);
    let fit = match lay_node(space, first, cells, buf) {
        Ok(fit) => fit,
        Err(fault) => return Err(fault),
    };
    if !fit {
        return Ok(false);
    }
    match give_page(space, second) {
        Ok(()) => Ok(true),
        Err(fault) => Err(fault),
    }
}
