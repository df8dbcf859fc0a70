//! A row of a leaf that gets another payload.

ghost use Rattle.std.specs.Prelude.{◌≡◌, ◌≤◌, ◌<◌, ℤ, [], drop, true, false, None, length, IfOk, IfSome, OnOk};
ghost use Rattle.spe_model.specs.Standing.{all_pages, chain_pages};
ghost use Rattle.spe_model.specs.Tree.{rank, rest_of};
ghost use Rattle.spe_space.specs.Calls.{Keeps, RefusesTree, sight};
ghost use Rattle.spe_frame.specs.Held.{Shifts, Spares};
ghost use Rattle.spe_write.specs.Chain.{IsLikelyOfTree, WhereChain};
ghost use Rattle.spe_insert.specs.Below.{Becomes, IsPage, IsShort, WhereTree, pages_for};
ghost use Rattle.spe_insert.specs.Edit.{changes};
ghost use Rattle.spe_insert.specs.LeafStep.{IsGap, leads_with};
ghost use Rattle.spe_insert.specs.Place.{place_for};
ghost use Rattle.spe_insert.specs.Replace.{HasRow, StandsAt, with_other};
ghost use Rattle.spe_insert.specs.Run.{run_of};

use crate::cell::write_cell;
use crate::leaf::lay_leaf;
use crate::leaf_step::{leads, leaf_in};
use crate::place::place_of;
use crate::run::Run;
use spe_cut::{change_law, gone_law, leaf_law, root_law, row_law};
use spe_frame::shifts_law;
use spe_model::{Cell, Cells};
use spe_space::{PageSpace, TreeFault};
use spe_write::free_chain;
use std::alloc::{AllocError, Global};

// The place of the cell with a rowid among cells that ascend, or none where no cell has it.
fn spot_of(cells: &[Cell], rowid: i64) -> Option<usize>
    ensures within { IfSome result (λ place. place < length cells.now) }
    ensures there { IfSome result (λ place. leads_with rowid (drop place cells.now) ≡ true) }
    ensures absent { result ≡ None → IsGap (rank rowid) cells.now (place_for (rank rowid) cells.now) }
{
    let place = place_of(cells, rowid);
    let (_, rest) = cells.split_at(place);
    if leads(rest, rowid) {
        return Some(place);
    }
    None
}

// The cells with another one at a place, and the one that stood there.
fn swap_cell(cells: Cells, place: usize, other: Cell) -> Result<(Cells, Cell), AllocError>
    requires { place < length cells }
    ensures all { IfOk result (λ swapped. swapped.0 ≡ with_other place cells other) }
    ensures stood { IfOk result (λ swapped. StandsAt cells place swapped.1) }
    ensures key { (rowid : ℤ) → leads_with rowid (drop place cells) ≡ true → IfOk result (λ swapped. swapped.1.key ≡ rowid) }
{
    let mut all = cells.into_vec();
    let cell = all.remove(place);
    all.insert(place, other)?;
    Ok((Cells::new(all), cell))
}

// Frees the overflow pages of a cell, where it has any.
fn free_rest<S: PageSpace>(alloc: Global, space: &mut S, cell: &Cell) -> Result<(), TreeFault>
    requires { S.Pages.refusal space.old ≡ None }
    ensures freed { OnOk result (WhereChain S.Pages space.old space.new (rest_of cell.now) cell.now.chain (λ pages.
        Shifts S.Pages space.old space.new pages
        (chain_pages (S.Pages.used space.old) (sight S.Pages space.old pages) cell.now) [] 0)) }
    ensures spares { WhereChain S.Pages space.old space.new (rest_of cell.now) cell.now.chain (λ pages.
        Spares S.Pages space.old space.new pages
        (chain_pages (S.Pages.used space.old) (sight S.Pages space.old pages) cell.now) 0) }
    ensures likely { WhereChain S.Pages space.old space.new (rest_of cell.now) cell.now.chain (λ pages.
        S.Pages.sealed space.old ≡ false → IsLikelyOfTree S.Pages space.new pages result) }
    ensures kept { Keeps S.Pages space.old space.new }
    ensures refusal { RefusesTree S.Pages space.old space.new result }
{
    let rest = cell
        .payload
        .saturating_sub(cell.local.as_slice().len() as u64);
    free_chain(alloc, space, cell.chain, rest)
}

/// Gives the row of a leaf that has the rowid another payload, and answers the run that the leaf has
/// become.
///
/// `buf` is a copy of the leaf, which is another page than page 1, and is written over. The chain of the
/// new payload is written first, then each leaf is put once, and last the pages of the old chain are made
/// free. Corrupt names the page, where its bytes are no legal leaf of a table or don't have the rowid, or
/// a page of a chain that ends wrong. It fails as `alloc`, `put`, `get` and `free` do.
pub(crate) fn replace_in_leaf<S: PageSpace>(
    alloc: Global,
    space: &mut S,
    page: u32,
    rowid: i64,
    payload: &[u8],
    buf: &mut [u8],
) -> Result<Run, TreeFault>
    requires size { length buf.old ≡ S.Pages.size space.old }
    requires refusal { S.Pages.refusal space.old ≡ None }
    requires most { length payload.now ≤ 2147483647 }
    ensures put { IfOk result (λ run. WhereTree S.Pages space.old space.new 1 page rowid (λ pages height low high.
        IsPage S.Pages space.old pages page buf.old → HasRow S.Pages space.old pages height page rowid
        → Becomes S.Pages space.old space.new pages height low high page rowid (changes payload.now) (run_of run))) }
    ensures short { IfOk result (λ run. IsShort (S.Pages.used space.old) (run_of run)) }
    ensures spares { WhereTree S.Pages space.old space.new 1 page rowid (λ pages height low high.
        IsPage S.Pages space.old pages page buf.old → HasRow S.Pages space.old pages height page rowid
        → Spares S.Pages space.old space.new pages
        (all_pages (S.Pages.used space.old) (sight S.Pages space.old pages) height page)
        (pages_for (S.Pages.used space.old) height (length payload.now))) }
    ensures likely { WhereTree S.Pages space.old space.new 1 page rowid (λ pages height low high.
        IsPage S.Pages space.old pages page buf.old → HasRow S.Pages space.old pages height page rowid
        → S.Pages.sealed space.old ≡ false → IsLikelyOfTree S.Pages space.new pages result) }
    ensures kept { Keeps S.Pages space.old space.new }
    ensures refusal { RefusesTree S.Pages space.old space.new result }
{
    shifts_law(space);
    root_law();
    leaf_law();
    row_law();
    gone_law();
    change_law();
    let usable = space.usable() as usize;
    let cells = match leaf_in(alloc, buf, usable, page) {
        Ok(cells) => cells,
        Err(fault) => return Err(fault),
    };
    let Some(place) = spot_of(cells.as_slice(), rowid) else {
        return Err(TreeFault::Corrupt { page });
    };
    let cell = match write_cell(alloc, space, rowid, payload) {
        Ok(cell) => cell,
        Err(fault) => return Err(fault),
    };
    let (cells, old) = swap_cell(cells, place, cell)?;
    let run = match lay_leaf(alloc, space, page, cells, place, buf) {
        Ok(run) => run,
        Err(fault) => return Err(fault),
    };
    match free_rest(alloc, space, &old) {
        Ok(()) => Ok(run),
        Err(fault) => Err(fault),
    }
}
