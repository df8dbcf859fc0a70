//! A row that is taken out of the leaf that has it.

ghost use Rattle.std.specs.Prelude.{◌≡◌, false, None, length, IfOk, IfSome};
ghost use Rattle.spe_model.specs.Standing.{all_pages};
ghost use Rattle.spe_space.specs.Calls.{Keeps, Reads, RefusesTree, sight};
ghost use Rattle.spe_frame.specs.Held.{Spares};
ghost use Rattle.spe_write.specs.Chain.{IsLikelyOfTree};
ghost use Rattle.spe_insert.specs.Below.{IsPage, WhereTree};
ghost use Rattle.spe_delete.specs.Leaf.{DropsCell, IsAbsent};

use crate::cell::{free_cell, place_of_row, take_cell};
use spe_cut::{gone_law, row_law};
use spe_frame::shifts_law;
use spe_insert::{lay_lower, leaf_in};
use spe_model::{Cells, Kind, PageCells};
use spe_space::{PageSpace, TreeFault};
use std::alloc::Global;

/// Takes the row with a rowid out of a leaf, and answers the cells that the leaf has then. `None`, and
/// nothing is changed, where the leaf has no such row.
///
/// `buf` is a copy of the leaf, which is another page than page 1, and is written over. The leaf is put
/// once, and then the pages of the row's chain are made free; no page is handed out. Corrupt names the
/// page, where its bytes are no legal leaf of a table, or a page of a chain that ends wrong. It fails as
/// `put`, `get` and `free` do. ("B-tree Pages" in SQLite's Database File Format.)
pub fn drop_cell<S: PageSpace>(
    alloc: Global,
    space: &mut S,
    page: u32,
    rowid: i64,
    buf: &mut [u8],
) -> Result<Option<Cells>, TreeFault>
    requires size { length buf.old ≡ S.Pages.size space.old }
    requires refusal { S.Pages.refusal space.old ≡ None }
    ensures dropped { IfOk result (λ left. IfSome left (λ cells. WhereTree S.Pages space.old space.new 1 page rowid (λ pages height low high.
        IsPage S.Pages space.old pages page buf.old
        → DropsCell S.Pages space.old space.new pages height low high page rowid cells))) }
    ensures absent { IfOk result (λ left. left ≡ None → WhereTree S.Pages space.old space.new 1 page rowid (λ pages height low high.
        IsPage S.Pages space.old pages page buf.old → IsAbsent S.Pages space.old space.new pages height page rowid)) }
    ensures idle { IfOk result (λ left. left ≡ None → Reads S.Pages space.old space.new) }
    ensures spares { WhereTree S.Pages space.old space.new 1 page rowid (λ pages height low high.
        IsPage S.Pages space.old pages page buf.old → Spares S.Pages space.old space.new pages
        (all_pages (S.Pages.used space.old) (sight S.Pages space.old pages) height page) 0) }
    ensures likely { WhereTree S.Pages space.old space.new 1 page rowid (λ pages height low high.
        IsPage S.Pages space.old pages page buf.old → S.Pages.sealed space.old ≡ false → IsLikelyOfTree S.Pages space.new pages result) }
    ensures kept { Keeps S.Pages space.old space.new }
    ensures refusal { RefusesTree S.Pages space.old space.new result }
{
    shifts_law(space);
    row_law();
    gone_law();
    let usable = space.usable() as usize;
    let cells = match leaf_in(alloc, buf, usable, page) {
        Ok(cells) => cells,
        Err(fault) => return Err(fault),
    };
    let Some(place) = place_of_row(cells.as_slice(), rowid) else {
        return Ok(None);
    };
    let (cells, cell) = take_cell(cells, place);
    let leaf = PageCells {
        kind: Kind::TableLeaf,
        cells,
        right: 0,
    };
    match lay_lower(space, page, &leaf, buf) {
        Ok(()) => (),
        Err(fault) => return Err(TreeFault::Space(fault)),
    }
    match free_cell(alloc, space, &cell) {
        Ok(()) => (),
        Err(fault) => return Err(fault),
    }
    let PageCells { cells, .. } = leaf;
    Ok(Some(cells))
}
