//! A tree whose rows fit its root.

ghost use Rattle.std.specs.Prelude.{◌≡◌, ◌≤◌, ◌+◌, ◌∷◌, [], true, false, length, IfOk, OnOk};
ghost use Rattle.spe_model.specs.Page.{ascends};
ghost use Rattle.spe_model.specs.Standing.{all_pages};
ghost use Rattle.spe_model.specs.declared.page.Kind.TheVariants.{TableLeaf};
ghost use Rattle.spe_space.specs.Calls.{Keeps, Reads, RefusesTree, sight};
ghost use Rattle.spe_format.specs.Canonical.{AreWritable};
ghost use Rattle.spe_frame.specs.Held.{Spares, WhereHeld};
ghost use Rattle.spe_frame.specs.Times.{Lacks};
ghost use Rattle.spe_cut.specs.Parts.{leaf_cells, need, room};
ghost use Rattle.spe_write.specs.Chain.{IsLikelyOfTree};
ghost use Rattle.spe_delete.specs.Gather.{Gathers, IsAlone};
ghost use Rattle.spe_delete.specs.Leaves.{StaysWide, WhereHeldTree};

use crate::collect::gather_below;
use crate::gather::put_alone;
use crate::leaves::Leaves;
use spe_cut::{join_law, room_of, row_law};
use spe_frame::shifts_law;
use spe_insert::{ascends_in, below_law};
use spe_model::{Cell, Cells, Kind, PageCells};
use spe_space::{PageSpace, TreeFault};
use std::alloc::Global;

// Puts the cells of all leaves on the root of their tree, and makes its other pages free. Corrupt names
// the root, where the rowids do not ascend.
fn put_leaves<S: PageSpace>(
    space: &mut S,
    root: u32,
    others: &[u32],
    cells: Vec<Cell>,
    buf: &mut [u8],
) -> Result<(), TreeFault>
    requires size { length buf.old ≡ S.Pages.size space.old }
    requires wide { 480 ≤ S.Pages.used space.old }
    requires writable { AreWritable TableLeaf (S.Pages.used space.old) cells.items }
    requires fits { need TableLeaf cells.items ≤ room TableLeaf 0 (S.Pages.used space.old) }
    ensures gathered { OnOk result (WhereHeld S.Pages space.old space.new (root ∷ others.now) (λ pages.
        Lacks (root ∷ others.now) 1 → Gathers S.Pages space.old space.new pages root others.now (leaf_cells cells.items))) }
    ensures spares { WhereHeld S.Pages space.old space.new (root ∷ others.now) (λ pages.
        Lacks (root ∷ others.now) 1 → Spares S.Pages space.old space.new pages (root ∷ others.now) 0) }
    ensures likely { WhereHeld S.Pages space.old space.new (root ∷ others.now) (λ pages.
        S.Pages.sealed space.old ≡ false → Lacks (root ∷ others.now) 1 → ascends cells.items ≡ true
        → IsLikelyOfTree S.Pages space.new pages result) }
    ensures kept { Keeps S.Pages space.old space.new }
    ensures refusal { RefusesTree S.Pages space.old space.new result }
{
    shifts_law(space);
    if !ascends_in(cells.as_slice()) {
        return Err(TreeFault::Corrupt { page: root });
    }
    let node = PageCells {
        kind: Kind::TableLeaf,
        cells: Cells::new(cells),
        right: 0,
    };
    match put_alone(space, root, others, &node, buf) {
        Ok(()) => Ok(()),
        Err(fault) => Err(TreeFault::Space(fault)),
    }
}

/// Makes the root of a table's tree all of the tree, where the rows fit it, and answers whether it did.
/// False, and nothing is put, where the root is a leaf already or the rows don't fit it.
///
/// The walk ends with the first leaf whose cells don't fit with those before it. The root is another
/// page than page 1 and is put once. Corrupt names a page that is no legal page of a table or would be
/// the tree's 21st level, or the root, where the rowids do not ascend. It fails as `get`, `put` and
/// `free` do. ("B-tree Pages" in SQLite's Database File Format.)
pub fn gather_tree<S: PageSpace>(alloc: Global, space: &mut S, root: u32) -> Result<bool, TreeFault>
    ensures gathered { IfOk result (λ did. did ≡ true → WhereHeldTree S.Pages space.old space.new 20 root (λ pages height low high.
        IsAlone S.Pages space.old space.new pages height low high root)) }
    ensures stays { IfOk result (λ did. did ≡ false → WhereHeldTree S.Pages space.old space.new 20 root (λ pages height low high.
        StaysWide S.Pages space.old space.new pages height root)) }
    ensures idle { IfOk result (λ did. did ≡ false → Reads S.Pages space.old space.new) }
    ensures spares { WhereHeldTree S.Pages space.old space.new 20 root (λ pages height low high.
        Spares S.Pages space.old space.new pages
        (all_pages (S.Pages.used space.old) (sight S.Pages space.old pages) height root) 0) }
    ensures likely { WhereHeldTree S.Pages space.old space.new 20 root (λ pages height low high.
        S.Pages.sealed space.old ≡ false → IsLikelyOfTree S.Pages space.new pages result) }
    ensures kept { Keeps S.Pages space.old space.new }
    ensures refusal { RefusesTree S.Pages space.old space.new result }
{
    below_law(space);
    join_law();
    row_law();
    let usable = space.usable();
    let mut buf = vec![in alloc; 0u8; space.page_size() as usize]?;
    let mut leaves = Leaves {
        cells: Vec::new(alloc),
        pages: Vec::new(alloc),
        left: room_of(Kind::TableLeaf, 0, usable),
    };
    match gather_below(alloc, space, root, 20, &mut leaves, buf.as_mut_slice()) {
        Ok(true) => (),
        Ok(false) => return Ok(false),
        Err(fault) => return Err(fault),
    }
    let Leaves { cells, pages, .. } = leaves;
    let [_, others @ ..] = pages.as_slice() else {
        return Ok(false);
    };
    if others.is_empty() {
        return Ok(false);
    }
    match put_leaves(space, root, others, cells, buf.as_mut_slice()) {
        Ok(()) => Ok(true),
        Err(fault) => Err(fault),
    }
}
