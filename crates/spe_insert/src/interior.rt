//! The cells of an interior page, on one page or two.

ghost use Rattle.std.specs.Prelude.{◌≡◌, ◌≢◌, ◌≤◌, ◌+◌, [], ◌∷◌, false, true, length, IfOk};
ghost use Rattle.spe_model.specs.Paging.{Paging};
ghost use Rattle.spe_model.specs.declared.page.Kind.TheVariants.{TableInterior};
ghost use Rattle.spe_space.specs.Calls.{Keeps, RefusesTree};
ghost use Rattle.spe_space.specs.Outcome.{refusal_after};
ghost use Rattle.spe_format.specs.Canonical.{IsWritable, fits};
ghost use Rattle.spe_frame.specs.Held.{IsLikely, Spares, WhereHeld};
ghost use Rattle.spe_cut.specs.Parts.{need, room, run_cells};
ghost use Rattle.spe_write.specs.Chain.{IsLikelyOfTree};
ghost use Rattle.spe_insert.specs.Below.{IsShort};
ghost use Rattle.spe_insert.specs.Interior.{LaysRun, LaysTwo};
ghost use Rattle.spe_insert.specs.Run.{run_of};

use crate::node::{lay_lower, lay_node};
use crate::run::{Run, one_child, run_behind};
use spe_cut::{Halves, interior_parts, room_law};
use spe_frame::{shifts_law, take_page};
use spe_model::{Cells, Kind, PageCells};
use spe_space::{PageSpace, SpaceFault, TreeFault};
use std::alloc::Global;

// Puts the halves of a run on a page that is held and on a new one, and answers the new one.
fn lay_halves<S: PageSpace>(
    space: &mut S,
    page: u32,
    low: &PageCells,
    high: &PageCells,
    buf: &mut [u8],
) -> Result<u32, SpaceFault>
    requires size { length buf.old ≡ S.Pages.size space.old }
    requires low { IsWritable low.now (S.Pages.used space.old) }
    requires low_fits { fits low.now 0 (S.Pages.used space.old) ≡ true }
    requires high { IsWritable high.now (S.Pages.used space.old) }
    requires high_fits { fits high.now 0 (S.Pages.used space.old) ≡ true }
    ensures laid { IfOk result (λ next. WhereHeld S.Pages space.old space.new (page ∷ []) (λ pages.
        page ≢ 1 → LaysTwo S.Pages space.old space.new pages page next low.now high.now)) }
    ensures spares { WhereHeld S.Pages space.old space.new (page ∷ []) (λ pages.
        page ≢ 1 → Spares S.Pages space.old space.new pages (page ∷ []) 1) }
    ensures likely { WhereHeld S.Pages space.old space.new (page ∷ []) (λ pages.
        S.Pages.sealed space.old ≡ false → page ≢ 1 → IsLikely S.Pages space.new pages result) }
    ensures kept { Keeps S.Pages space.old space.new }
    ensures refusal { S.Pages.refusal space.new ≡ refusal_after result (S.Pages.refusal space.old) }
{
    shifts_law(space);
    match lay_lower(space, page, low, buf) {
        Ok(()) => (),
        Err(fault) => return Err(fault),
    }
    let next = match take_page(space) {
        Ok(next) => next,
        Err(fault) => return Err(fault),
    };
    buf.fill(0);
    match lay_lower(space, next, high, buf) {
        Ok(()) => Ok(next),
        Err(fault) => Err(fault),
    }
}

/// Puts the children of an interior page on the page `page`, which is held, where they fit it; else in
/// halves on that page and on a new one. The answer is the run of these pages: one child alone where
/// they fit.
///
/// They may take 30 bytes more than the page has. `buf` is a copy of the page as it is, and is written over. Each page is put once, and page 1 is got once more. With `at_end`
/// the first half takes as many as fit. It fails as `alloc` and `put` do.
pub fn lay_interior<S: PageSpace>(
    alloc: Global,
    space: &mut S,
    page: u32,
    children: Run,
    at_end: bool,
    buf: &mut [u8],
) -> Result<Run, TreeFault>
    requires size { length buf.old ≡ S.Pages.size space.old }
    requires writable { IsWritable (run_cells (run_of children)) (S.Pages.used space.old) }
    requires few { need TableInterior children.cells ≤ room TableInterior 0 (S.Pages.used space.old) + 30 }
    ensures laid { IfOk result (λ run. WhereHeld S.Pages space.old space.new (page ∷ []) (λ pages.
        page ≢ 1 → LaysRun S.Pages space.old space.new pages page (run_of children) (run_of run))) }
    ensures short { IfOk result (λ run. IsShort (S.Pages.used space.old) (run_of run)) }
    ensures spares { WhereHeld S.Pages space.old space.new (page ∷ []) (λ pages.
        page ≢ 1 → Spares S.Pages space.old space.new pages (page ∷ []) 1) }
    ensures likely { WhereHeld S.Pages space.old space.new (page ∷ []) (λ pages.
        S.Pages.sealed space.old ≡ false → page ≢ 1 → IsLikelyOfTree S.Pages space.new pages result) }
    ensures kept { Keeps S.Pages space.old space.new }
    ensures refusal { RefusesTree S.Pages space.old space.new result }
{
    shifts_law(space);
    room_law();
    let usable = space.usable();
    let Run { cells, right } = children;
    let node = PageCells {
        kind: Kind::TableInterior,
        cells,
        right,
    };
    let fit = match lay_node(space, page, &node, buf) {
        Ok(fit) => fit,
        Err(fault) => return Err(TreeFault::Space(fault)),
    };
    if fit {
        return Ok(one_child(alloc, page));
    }
    let PageCells { cells, right, .. } = node;
    let Halves {
        low,
        low_right,
        key,
        high,
        high_right,
    } = interior_parts(alloc, cells, right, usable, at_end)?;
    let low = PageCells {
        kind: Kind::TableInterior,
        cells: low,
        right: low_right,
    };
    let high = PageCells {
        kind: Kind::TableInterior,
        cells: high,
        right: high_right,
    };
    let next = match lay_halves(space, page, &low, &high, buf) {
        Ok(next) => next,
        Err(fault) => return Err(TreeFault::Space(fault)),
    };
    let last = one_child(alloc, next);
    Ok(run_behind(alloc, key, page, last)?)
}
