//! A row that is put into a leaf whose cells stand in the written form.

ghost use Rattle.std.specs.Prelude.{◌≡◌, ◌≢◌, ◌≤◌, ◌++◌, ◌∷◌, [], false, None, List, length, IfOk};
ghost use Rattle.spe_model.specs.Paging.{Paging};
ghost use Rattle.spe_model.specs.Standing.{all_pages};
ghost use Rattle.spe_model.specs.Tree.{rank};
ghost use Rattle.spe_model.specs.declared.page.Cell.{Cell as AnyCell};
ghost use Rattle.spe_model.specs.declared.page.Kind.TheVariants.{TableLeaf};
ghost use Rattle.spe_format.specs.Canonical.{IsWritableCell};
ghost use Rattle.spe_format.specs.Packed.{IsSlot, IsSlotFor, IsWithin};
ghost use Rattle.spe_space.specs.Calls.{Keeps, RefusesTree, sight};
ghost use Rattle.spe_frame.specs.Held.{Spares, WhereHeld};
ghost use Rattle.spe_write.specs.Chain.{IsLikelyOfTree};
ghost use Rattle.spe_insert.specs.Below.{Becomes, IsPage, IsShort, LacksRow, WhereTree, first_child, pages_for};
ghost use Rattle.spe_insert.specs.Leaf.{LaysLeaf};
ghost use Rattle.spe_insert.specs.Edit.{puts};
ghost use Rattle.spe_insert.specs.Run.{run_of};

use crate::cell::write_cell;
use crate::leaf::lay_leaf;
use crate::leaf_step::{leaf_in, with_cell};
use crate::run::{Run, one_child};
use spe_cut::{leaf_law, row_law};
use spe_format::{Slot, put_in_slot};
use spe_frame::{lay_page, shifts_law};
use spe_model::Cell;
use spe_space::{PageSpace, TreeFault};
use std::alloc::Global;

// Puts the cell of a row on the page `page`, which is held and of which `buf` is a copy, in place where it
// fits, else as `lay_leaf` does.
fn lay_packed<S: PageSpace>(
    alloc: Global,
    space: &mut S,
    page: u32,
    rowid: i64,
    slot: Slot,
    cell: Cell,
    buf: &mut [u8],
) -> Result<Run, TreeFault>
    requires size { length buf.old ≡ S.Pages.size space.old }
    requires slot { IsSlotFor buf.old 0 (S.Pages.used space.old) (rank rowid) slot }
    requires within { IsWithin 0 (S.Pages.used space.old) slot }
    requires key { cell.key ≡ rowid }
    requires form { IsWritableCell TableLeaf (S.Pages.used space.old) cell }
    ensures laid { IfOk result (λ run. WhereHeld S.Pages space.old space.new (page ∷ []) (λ pages. (before after : List AnyCell)
        → IsSlot buf.old 0 (S.Pages.used space.old) slot before after → page ≢ 1
        → LaysLeaf S.Pages space.old space.new pages page (before ++ (cell ∷ after)) (run_of run))) }
    ensures first { IfOk result (λ run. first_child (run_of run) ≡ page) }
    ensures short { IfOk result (λ run. IsShort (S.Pages.used space.old) (run_of run)) }
    ensures spares { WhereHeld S.Pages space.old space.new (page ∷ []) (λ pages.
        page ≢ 1 → Spares S.Pages space.old space.new pages (page ∷ []) 3) }
    ensures likely { WhereHeld S.Pages space.old space.new (page ∷ []) (λ pages.
        S.Pages.sealed space.old ≡ false → page ≢ 1 → IsLikelyOfTree S.Pages space.new pages result) }
    ensures kept { Keeps S.Pages space.old space.new }
    ensures refusal { RefusesTree S.Pages space.old space.new result }
{
    shifts_law(space);
    let usable = space.usable() as usize;
    if put_in_slot(buf, 0, usable, slot, &cell) {
        match lay_page(space, page, buf) {
            Ok(()) => return Ok(one_child(alloc, page)),
            Err(fault) => return Err(TreeFault::Space(fault)),
        }
    }
    let cells = match leaf_in(alloc, buf, usable, page) {
        Ok(cells) => cells,
        Err(fault) => return Err(fault),
    };
    let cells = with_cell(cells, slot.place, cell)?;
    match lay_leaf(alloc, space, page, cells, slot.place, buf) {
        Ok(run) => Ok(run),
        Err(fault) => Err(fault),
    }
}

/// Puts a row into a leaf at its place, as `put_in_leaf` does.
pub(crate) fn put_packed<S: PageSpace>(
    alloc: Global,
    space: &mut S,
    page: u32,
    rowid: i64,
    payload: &[u8],
    slot: Slot,
    buf: &mut [u8],
) -> Result<Run, TreeFault>
    requires size { length buf.old ≡ S.Pages.size space.old }
    requires refusal { S.Pages.refusal space.old ≡ None }
    requires most { length payload.now ≤ 2147483647 }
    requires slot { IsSlotFor buf.old 0 (S.Pages.used space.old) (rank rowid) slot }
    requires within { IsWithin 0 (S.Pages.used space.old) slot }
    ensures put { IfOk result (λ run. WhereTree S.Pages space.old space.new 1 page rowid (λ pages height low high.
        IsPage S.Pages space.old pages page buf.old → LacksRow S.Pages space.old pages height page rowid
        → Becomes S.Pages space.old space.new pages height low high page rowid (puts payload.now) (run_of run))) }
    ensures short { IfOk result (λ run. IsShort (S.Pages.used space.old) (run_of run)) }
    ensures spares { WhereTree S.Pages space.old space.new 1 page rowid (λ pages height low high.
        IsPage S.Pages space.old pages page buf.old → LacksRow S.Pages space.old pages height page rowid
        → Spares S.Pages space.old space.new pages
        (all_pages (S.Pages.used space.old) (sight S.Pages space.old pages) height page)
        (pages_for (S.Pages.used space.old) height (length payload.now))) }
    ensures likely { WhereTree S.Pages space.old space.new 1 page rowid (λ pages height low high.
        IsPage S.Pages space.old pages page buf.old → LacksRow S.Pages space.old pages height page rowid
        → S.Pages.sealed space.old ≡ false → IsLikelyOfTree S.Pages space.new pages result) }
    ensures kept { Keeps S.Pages space.old space.new }
    ensures refusal { RefusesTree S.Pages space.old space.new result }
{
    shifts_law(space);
    leaf_law();
    row_law();
    let cell = match write_cell(alloc, space, rowid, payload) {
        Ok(cell) => cell,
        Err(fault) => return Err(fault),
    };
    match lay_packed(alloc, space, page, rowid, slot, cell, buf) {
        Ok(run) => Ok(run),
        Err(fault) => Err(fault),
    }
}
