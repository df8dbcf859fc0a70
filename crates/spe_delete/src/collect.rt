//! A walk over a tree that gathers its leaves.

ghost use Rattle.std.specs.Prelude.{◌≡◌, ◌<◌, ◌≤◌, true, false, length, IfOk};
ghost use Rattle.spe_model.specs.declared.page.Kind.TheVariants.{TableLeaf};
ghost use Rattle.spe_space.specs.Calls.{Reads, RefusesTree, sight};
ghost use Rattle.spe_cut.specs.Joined.{cells_below, cells_under};
ghost use Rattle.spe_cut.specs.Parts.{need};
ghost use Rattle.spe_write.specs.Chain.{IsLikelyOfTree};
ghost use Rattle.spe_delete.specs.Leaves.{GathersRun, GathersTree, SeesRun, SeesTree, StaysSound, WhereHeldRun, WhereHeldTree, run_with};

use crate::leaves::{Leaves, add_cells, see_node};
use spe_insert::below_law;
use spe_model::{Cell, Kind, PageCells};
use spe_space::{Pages, TreeFault};
use std::alloc::Global;

/// Gathers the leaves of the tree under the page `page`, at most `levels` levels deep, and answers
/// whether their cells fit a page with those that are there. Where they don't, the walk ends with the
/// first leaf that does not fit.
///
/// `buf` is one page long and is written over. Corrupt names a page that is no legal page of a table or
/// that lies too deep. It fails as `get` does.
#[cycle(below)]
pub(crate) fn gather_below<S: Pages>(
    alloc: Global,
    space: &mut S,
    page: u32,
    levels: u32,
    leaves: &mut Leaves,
    buf: &mut [u8],
) -> Result<bool, TreeFault>
    requires size { length buf.old ≡ S.Pages.size space.old }
    ensures gathers { IfOk result (λ fit. fit ≡ true → WhereHeldTree S.Pages space.old space.new levels page (λ pages height low high.
        GathersTree S.Pages space.old pages height page leaves.old leaves.new)) }
    ensures over { IfOk result (λ fit. fit ≡ false → WhereHeldTree S.Pages space.old space.new levels page (λ pages height low high.
        leaves.old.left < need TableLeaf (cells_under (S.Pages.used space.old) (sight S.Pages space.old pages) height page))) }
    ensures sound { IfOk result (λ fit. StaysSound (S.Pages.used space.old) leaves.old leaves.new) }
    ensures sees { WhereHeldTree S.Pages space.old space.new levels page (λ pages height low high.
        SeesTree S.Pages space.old space.new pages height page) }
    ensures likely { WhereHeldTree S.Pages space.old space.new levels page (λ pages height low high.
        IsLikelyOfTree S.Pages space.new pages result) }
    ensures reads { Reads S.Pages space.old space.new }
    ensures refusal { RefusesTree S.Pages space.old space.new result }
{
    below_law(space);
    if levels == 0 {
        return Err(TreeFault::Corrupt { page });
    }
    let node = match see_node(alloc, space, page, buf) {
        Ok(node) => node,
        Err(fault) => return Err(fault),
    };
    leaves.pages.push(page)?;
    let PageCells { kind, cells, right } = node;
    match kind {
        Kind::TableLeaf => Ok(add_cells(leaves, cells)?),
        Kind::TableInterior => {
            gather_children(
                alloc,
                space,
                cells.as_slice(),
                right,
                levels - 1,
                leaves,
                buf,
            )
        }
        Kind::IndexLeaf | Kind::IndexInterior => Err(TreeFault::Corrupt { page }),
    }
}

// The same for all children of a page, each at most `levels` levels deep.
#[cycle(below)]
fn gather_children<S: Pages>(
    alloc: Global,
    space: &mut S,
    cells: &[Cell],
    right: u32,
    levels: u32,
    leaves: &mut Leaves,
    buf: &mut [u8],
) -> Result<bool, TreeFault>
    requires size { length buf.old ≡ S.Pages.size space.old }
    ensures gathers { IfOk result (λ fit. fit ≡ true → WhereHeldRun S.Pages space.old space.new levels (run_with cells.now right) (λ pages height.
        GathersRun S.Pages space.old pages height (run_with cells.now right) leaves.old leaves.new)) }
    ensures over { IfOk result (λ fit. fit ≡ false → WhereHeldRun S.Pages space.old space.new levels (run_with cells.now right) (λ pages height.
        leaves.old.left < need TableLeaf (cells_below (S.Pages.used space.old) (sight S.Pages space.old pages) height (run_with cells.now right)))) }
    ensures sound { IfOk result (λ fit. StaysSound (S.Pages.used space.old) leaves.old leaves.new) }
    ensures sees { WhereHeldRun S.Pages space.old space.new levels (run_with cells.now right) (λ pages height.
        SeesRun S.Pages space.old space.new pages height (run_with cells.now right)) }
    ensures likely { WhereHeldRun S.Pages space.old space.new levels (run_with cells.now right) (λ pages height.
        IsLikelyOfTree S.Pages space.new pages result) }
    ensures reads { Reads S.Pages space.old space.new }
    ensures refusal { RefusesTree S.Pages space.old space.new result }
{
    below_law(space);
    let mut left = cells;
    'children: while let [cell, rest @ ..] = left {
        match gather_below(alloc, space, cell.left, levels, leaves, buf) {
            Ok(true) => (),
            Ok(false) => return Ok(false),
            Err(fault) => return Err(fault),
        }
        left = rest;
    }
    gather_below(alloc, space, right, levels, leaves, buf)
}
