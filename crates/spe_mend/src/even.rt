//! The children of two pages, put on one of them or on both.

ghost use Rattle.std.specs.Prelude.{◌≡◌, ◌≢◌, ◌≤◌, ◌+◌, [], ◌∷◌, false, true, None, length, IfOk, IfSome, OnOk};
ghost use Rattle.spe_model.specs.Paging.{Paging};
ghost use Rattle.spe_model.specs.declared.page.Kind.TheVariants.{TableInterior};
ghost use Rattle.spe_space.specs.Calls.{Keeps, RefusesTree};
ghost use Rattle.spe_space.specs.Outcome.{refusal_after};
ghost use Rattle.spe_format.specs.Canonical.{IsWritable, fits};
ghost use Rattle.spe_frame.specs.Held.{IsLikely, Spares, WhereHeld};
ghost use Rattle.spe_cut.specs.Parts.{need, room, run_cells};
ghost use Rattle.spe_write.specs.Chain.{IsLikelyOfTree};
ghost use Rattle.spe_insert.specs.Run.{run_of};
ghost use Rattle.spe_delete.specs.Merge.{Merges};
ghost use Rattle.spe_mend.specs.Pair.{LaysBoth, LaysHalves};

use spe_cut::{Halves, interior_parts};
use spe_frame::{give_page, see_page, shifts_law};
use spe_insert::{Run, lay_lower, lay_node};
use spe_model::{Kind, PageCells};
use spe_space::{PageSpace, Pages, SpaceFault, TreeFault};
use std::alloc::Global;

// Puts cells on two pages that are held. The second is got first, for what lies behind its usable bytes.
fn lay_both<S: Pages>(
    space: &mut S,
    first: u32,
    low: &PageCells,
    second: u32,
    high: &PageCells,
    buf: &mut [u8],
) -> Result<(), SpaceFault>
    requires size { length buf.old ≡ S.Pages.size space.old }
    requires low { IsWritable low.now (S.Pages.used space.old) }
    requires low_fits { fits low.now 0 (S.Pages.used space.old) ≡ true }
    requires high { IsWritable high.now (S.Pages.used space.old) }
    requires high_fits { fits high.now 0 (S.Pages.used space.old) ≡ true }
    ensures laid { OnOk result (WhereHeld S.Pages space.old space.new (first ∷ second ∷ []) (λ pages.
        first ≢ 1 → second ≢ 1 → LaysBoth S.Pages space.old space.new pages first second low.now high.now)) }
    ensures spares { WhereHeld S.Pages space.old space.new (first ∷ second ∷ []) (λ pages.
        first ≢ 1 → second ≢ 1 → Spares S.Pages space.old space.new pages (first ∷ second ∷ []) 0) }
    ensures likely { WhereHeld S.Pages space.old space.new (first ∷ second ∷ []) (λ pages.
        S.Pages.sealed space.old ≡ false → first ≢ 1 → second ≢ 1 → IsLikely S.Pages space.new pages result) }
    ensures kept { Keeps S.Pages space.old space.new }
    ensures refusal { S.Pages.refusal space.new ≡ refusal_after result (S.Pages.refusal space.old) }
{
    shifts_law(space);
    match lay_lower(space, first, low, buf) {
        Ok(()) => (),
        Err(fault) => return Err(fault),
    }
    match see_page(space, second, buf) {
        Ok(()) => (),
        Err(fault) => return Err(fault),
    }
    match lay_lower(space, second, high, buf) {
        Ok(()) => Ok(()),
        Err(fault) => Err(fault),
    }
}

/// Puts children on the first of two pages, where they fit it, and makes the second free; else in halves
/// on both. The answer is the key that parts the halves, or `None` where all fit.
///
/// Both pages are held, and neither is page 1. The children may take 30 bytes more than a page has. `buf`
/// is a copy of the first page, and is written over. It fails as `get`, `put` and `free` do.
pub(crate) fn lay_evenly<S: PageSpace>(
    alloc: Global,
    space: &mut S,
    first: u32,
    second: u32,
    children: Run,
    buf: &mut [u8],
) -> Result<Option<i64>, TreeFault>
    requires size { length buf.old ≡ S.Pages.size space.old }
    requires writable { IsWritable (run_cells (run_of children)) (S.Pages.used space.old) }
    requires few { need TableInterior children.cells ≤ room TableInterior 0 (S.Pages.used space.old) + 30 }
    ensures joined { IfOk result (λ key. key ≡ None → WhereHeld S.Pages space.old space.new (first ∷ second ∷ []) (λ pages.
        first ≢ 1 → 2 ≤ second → Merges S.Pages space.old space.new pages first second (run_cells (run_of children)))) }
    ensures halves { IfOk result (λ key. IfSome key (λ key. WhereHeld S.Pages space.old space.new (first ∷ second ∷ []) (λ pages.
        first ≢ 1 → 2 ≤ second → LaysHalves S.Pages space.old space.new pages first second (run_of children) key))) }
    ensures spares { WhereHeld S.Pages space.old space.new (first ∷ second ∷ []) (λ pages.
        first ≢ 1 → 2 ≤ second → Spares S.Pages space.old space.new pages (first ∷ second ∷ []) 0) }
    ensures likely { WhereHeld S.Pages space.old space.new (first ∷ second ∷ []) (λ pages.
        S.Pages.sealed space.old ≡ false → first ≢ 1 → 2 ≤ second → IsLikelyOfTree S.Pages space.new pages result) }
    ensures kept { Keeps S.Pages space.old space.new }
    ensures refusal { RefusesTree S.Pages space.old space.new result }
{
    shifts_law(space);
    let usable = space.usable();
    let Run { cells, right } = children;
    let node = PageCells {
        kind: Kind::TableInterior,
        cells,
        right,
    };
    let fit = match lay_node(space, first, &node, buf) {
        Ok(fit) => fit,
        Err(fault) => return Err(TreeFault::Space(fault)),
    };
    if fit {
        match give_page(space, second) {
            Ok(()) => return Ok(None),
            Err(fault) => return Err(TreeFault::Space(fault)),
        }
    }
    let PageCells { cells, right, .. } = node;
    let Halves {
        low,
        low_right,
        key,
        high,
        high_right,
    } = interior_parts(alloc, cells, right, usable, false)?;
    let low = PageCells {
        kind: Kind::TableInterior,
        cells: low,
        right: low_right,
    };
    let high = PageCells {
        kind: Kind::TableInterior,
        cells: high,
        right: high_right,
    };
    match lay_both(space, first, &low, second, &high, buf) {
        Ok(()) => Ok(Some(key)),
        Err(fault) => Err(TreeFault::Space(fault)),
    }
}
