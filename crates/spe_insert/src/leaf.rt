//! The cells of a leaf, on one page or more.

ghost use Rattle.std.specs.Prelude.{◌≡◌, ◌≢◌, ◌≤◌, ◌<◌, ◌+◌, [], ◌∷◌, false, length, All, IfOk};
ghost use Rattle.spe_model.specs.Paging.{Paging};
ghost use Rattle.spe_space.specs.Calls.{Keeps, RefusesTree};
ghost use Rattle.spe_frame.specs.Held.{Spares, WhereHeld};
ghost use Rattle.spe_model.specs.declared.page.Kind.TheVariants.{TableInterior, TableLeaf};
ghost use Rattle.spe_format.specs.Canonical.{AreWritable, IsWritable};
ghost use Rattle.spe_cut.specs.Parts.{leaf_cells, need, room, without};
ghost use Rattle.spe_write.specs.Chain.{IsLikelyOfTree};
ghost use Rattle.spe_insert.specs.Below.{IsShort, first_child};
ghost use Rattle.spe_insert.specs.Leaf.{IsPart, LaysLeaf, LaysParts};
ghost use Rattle.spe_insert.specs.Run.{run_of};

use crate::node::{lay_lower, lay_node};
use crate::run::{Run, last_key_of, one_child, run_behind};
use spe_cut::{leaf_parts, room_law};
use spe_frame::{shifts_law, take_page};
use spe_model::{Cells, Kind, PageCells};
use spe_space::{PageSpace, TreeFault};
use std::alloc::Global;

/// Puts parts of the cells of a leaf on pages, the first on `page`, which is held, and each other on a
/// new page, and answers them as a run.
///
/// `buf` is one page long; what lies behind its usable bytes is put on the first page, and new pages
/// have zeros there. Each page is put once. It fails as `alloc` and `put` do.
pub fn lay_parts<S: PageSpace>(
    alloc: Global,
    space: &mut S,
    page: u32,
    parts: Vec<Cells>,
    buf: &mut [u8],
) -> Result<Run, TreeFault>
    requires size { length buf.old ≡ S.Pages.size space.old }
    requires some { 1 ≤ length parts.items }
    requires parts { All (IsPart (S.Pages.used space.old)) parts.items }
    ensures laid { IfOk result (λ run. WhereHeld S.Pages space.old space.new (page ∷ []) (λ pages.
        page ≢ 1 → LaysParts S.Pages space.old space.new pages page parts.items (run_of run))) }
    ensures first { IfOk result (λ run. first_child (run_of run) ≡ page) }
    ensures count { IfOk result (λ run. length run.cells + 1 ≡ length parts.items) }
    ensures separators { IfOk result (λ run. AreWritable TableInterior (S.Pages.used space.old) run.cells) }
    ensures spares { WhereHeld S.Pages space.old space.new (page ∷ []) (λ pages.
        page ≢ 1 → Spares S.Pages space.old space.new pages (page ∷ []) (length parts.items)) }
    ensures likely { WhereHeld S.Pages space.old space.new (page ∷ []) (λ pages.
        S.Pages.sealed space.old ≡ false → page ≢ 1 → IsLikelyOfTree S.Pages space.new pages result) }
    ensures kept { Keeps S.Pages space.old space.new }
    ensures refusal { RefusesTree S.Pages space.old space.new result }
{
    shifts_law(space);
    room_law();
    let mut parts = parts;
    let cells = parts.remove(0);
    let key = last_key_of(cells.as_slice());
    let part = PageCells {
        kind: Kind::TableLeaf,
        cells,
        right: 0,
    };
    match lay_lower(space, page, &part, buf) {
        Ok(()) => (),
        Err(fault) => return Err(TreeFault::Space(fault)),
    }
    if parts.is_empty() {
        return Ok(one_child(alloc, page));
    }
    let next = match take_page(space) {
        Ok(next) => next,
        Err(fault) => return Err(TreeFault::Space(fault)),
    };
    buf.fill(0);
    let run = match lay_parts(alloc, space, next, parts, buf) {
        Ok(run) => run,
        Err(fault) => return Err(fault),
    };
    Ok(run_behind(alloc, key, page, run)?)
}

/// Puts the cells of a leaf, of which the one at `place` is new, on the page `page`, which is held, where
/// they fit it; else in two or three parts on that page and on new ones. The answer is the run of
/// these pages: one child alone where they fit.
///
/// `buf` is a copy of the page as it is, and is written over. Each page is put once, and page 1 is
/// got once more. It fails as `alloc` and `put` do.
pub fn lay_leaf<S: PageSpace>(
    alloc: Global,
    space: &mut S,
    page: u32,
    cells: Cells,
    place: usize,
    buf: &mut [u8],
) -> Result<Run, TreeFault>
    requires size { length buf.old ≡ S.Pages.size space.old }
    requires place { place < length cells }
    requires writable { IsWritable (leaf_cells cells) (S.Pages.used space.old) }
    requires fits { need TableLeaf (without place cells) ≤ room TableLeaf 0 (S.Pages.used space.old) }
    ensures laid { IfOk result (λ run. WhereHeld S.Pages space.old space.new (page ∷ []) (λ pages.
        page ≢ 1 → LaysLeaf S.Pages space.old space.new pages page cells (run_of run))) }
    ensures first { IfOk result (λ run. first_child (run_of run) ≡ page) }
    ensures short { IfOk result (λ run. IsShort (S.Pages.used space.old) (run_of run)) }
    ensures spares { WhereHeld S.Pages space.old space.new (page ∷ []) (λ pages.
        page ≢ 1 → Spares S.Pages space.old space.new pages (page ∷ []) 3) }
    ensures likely { WhereHeld S.Pages space.old space.new (page ∷ []) (λ pages.
        S.Pages.sealed space.old ≡ false → page ≢ 1 → IsLikelyOfTree S.Pages space.new pages result) }
    ensures kept { Keeps S.Pages space.old space.new }
    ensures refusal { RefusesTree S.Pages space.old space.new result }
{
    shifts_law(space);
    let usable = space.usable();
    let leaf = PageCells {
        kind: Kind::TableLeaf,
        cells,
        right: 0,
    };
    let fit = match lay_node(space, page, &leaf, buf) {
        Ok(fit) => fit,
        Err(fault) => return Err(TreeFault::Space(fault)),
    };
    if fit {
        return Ok(one_child(alloc, page));
    }
    let PageCells { cells, .. } = leaf;
    let at_end = place + 1 == cells.as_slice().len();
    let parts = leaf_parts(alloc, cells, place, usable, at_end)?;
    match lay_parts(alloc, space, page, parts.into_vec(), buf) {
        Ok(run) => Ok(run),
        Err(fault) => Err(fault),
    }
}
