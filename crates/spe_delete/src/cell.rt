//! Cells of a leaf, and the chain of one that goes.

ghost use Rattle.std.specs.Prelude.{◌≡◌, ◌<◌, ◌≤◌, ℤ, [], drop, true, false, None, length, IfSome, OnOk};
ghost use Rattle.spe_model.specs.Standing.{chain_pages};
ghost use Rattle.spe_model.specs.Tree.{rank, rest_of};
ghost use Rattle.spe_space.specs.Calls.{Keeps, RefusesTree, sight};
ghost use Rattle.spe_frame.specs.Held.{Shifts, Spares};
ghost use Rattle.spe_write.specs.Chain.{IsLikelyOfTree, WhereChain};
ghost use Rattle.spe_cut.specs.Parts.{without};
ghost use Rattle.spe_insert.specs.LeafStep.{IsGap, leads_with};
ghost use Rattle.spe_insert.specs.Place.{place_for};
ghost use Rattle.spe_delete.specs.Leaf.{IsAmong};

use spe_insert::{leads, place_of};
use spe_model::{Cell, Cells};
use spe_space::{PageSpace, TreeFault};
use spe_write::free_chain;
use std::alloc::Global;

/// The place of the cell with a rowid among cells that ascend, or None where no cell has it.
pub(crate) fn place_of_row(cells: &[Cell], rowid: i64) -> Option<usize>
    ensures within { IfSome result (λ place. place < length cells.now) }
    ensures there { IfSome result (λ place. leads_with rowid (drop place cells.now) ≡ true) }
    ensures absent { result ≡ None → IsGap (rank rowid) cells.now (place_for (rank rowid) cells.now) }
{
    let place = place_of(cells, rowid);
    let (_, rest) = cells.split_at(place);
    if leads(rest, rowid) {
        return Some(place);
    }
    None
}

/// The cells but the one at a place, and that one.
pub(crate) fn take_cell(cells: Cells, place: usize) -> (Cells, Cell)
    requires { place < length cells }
    ensures rest { result.0 ≡ without place cells }
    ensures among { IsAmong cells place result.1 }
    ensures key { (rowid : ℤ) → leads_with rowid (drop place cells) ≡ true → result.1.key ≡ rowid }
{
    let mut rest = cells.into_vec();
    let cell = rest.remove(place);
    (Cells::new(rest), cell)
}

/// Frees the overflow pages of a cell, where it has any. It fails as `free_chain` does.
pub fn free_cell<S: PageSpace>(alloc: Global, space: &mut S, cell: &Cell) -> Result<(), TreeFault>
    requires { S.Pages.refusal space.old ≡ None }
    ensures freed { OnOk result (WhereChain S.Pages space.old space.new (rest_of cell.now) cell.now.chain (λ pages.
        Shifts S.Pages space.old space.new pages
        (chain_pages (S.Pages.used space.old) (sight S.Pages space.old pages) cell.now) [] 0)) }
    ensures spares { WhereChain S.Pages space.old space.new (rest_of cell.now) cell.now.chain (λ pages.
        Spares S.Pages space.old space.new pages
        (chain_pages (S.Pages.used space.old) (sight S.Pages space.old pages) cell.now) 0) }
    ensures likely { WhereChain S.Pages space.old space.new (rest_of cell.now) cell.now.chain (λ pages.
        S.Pages.sealed space.old ≡ false → IsLikelyOfTree S.Pages space.new pages result) }
    ensures kept { Keeps S.Pages space.old space.new }
    ensures refusal { RefusesTree S.Pages space.old space.new result }
{
    let rest = cell
        .payload
        .saturating_sub(cell.local.as_slice().len() as u64);
    free_chain(alloc, space, cell.chain, rest)
}
