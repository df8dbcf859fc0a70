//! The leaves of a tree as a walk gathers them.

ghost use Rattle.std.specs.Prelude.{◌≡◌, ◌≤◌, ◌<◌, ◌+◌, ◌^◌, ◌++◌, ◌⊎◌, ◌∷◌, [], Ok, true, false, None, length, take, IfErr, IfOk, IfSome, OnOk};
ghost use Rattle.spe_model.specs.Page.{page_at};
ghost use Rattle.spe_model.specs.Paging.{Agrees, Paging};
ghost use Rattle.spe_model.specs.Tree.{header_end, node_at};
ghost use Rattle.spe_model.specs.declared.page.Kind.TheVariants.{TableLeaf};
ghost use Rattle.spe_model.specs.declared.page.PageCells.{PageCells as AnyNode};
ghost use Rattle.spe_space.specs.declared.fault.SpaceFault.TheVariants.{Memory};
ghost use Rattle.spe_space.specs.declared.fault.TreeFault.TheVariants.{Corrupt, Space};
ghost use Rattle.spe_space.specs.Calls.{Reads, RefusesTree, sight};
ghost use Rattle.spe_format.specs.Canonical.{IsWritable};
ghost use Rattle.spe_frame.specs.Held.{Shifts, WhereHeld};
ghost use Rattle.spe_cut.specs.Parts.{need};
ghost use Rattle.spe_write.specs.Chain.{IsLikelyOfTree};
ghost use Rattle.spe_delete.specs.Leaves.{Gains};

use spe_cut::legal_fits;
use spe_format::{cell_length, legal_is_writable, read_page};
use spe_frame::see_page;
use spe_model::{Cell, Cells, Kind, PageCells, PageFault};
use spe_space::{Pages, SpaceFault, TreeFault};
use std::alloc::{AllocError, Global};

/// The cells of leaves and the pages of their tree, in the order of a walk from the root.
#[derive(Debug, Drop)]
pub struct Leaves {
    pub cells: Vec<Cell>,
    pub pages: Vec<u32>,
    /// How many bytes of a page are left for more cells and their offsets.
    pub left: usize,
}

// How many of `room` bytes a leaf has left behind these cells, or None where they take more.
fn room_behind(cells: &[Cell], room: usize) -> Option<usize>
    requires few { need TableLeaf cells.now < 2 ^ 32 }
    ensures left { IfSome result (λ left. left + need TableLeaf cells.now ≡ room) }
    ensures over { result ≡ None → room < need TableLeaf cells.now }
{
    let mut behind = room;
    let mut left = cells;
    'cells: while let [cell, rest @ ..] = left {
        let size = cell_length(Kind::TableLeaf, cell) + 2;
        if size > behind {
            return None;
        }
        behind -= size;
        left = rest;
    }
    Some(behind)
}

/// Adds the cells of a leaf, where they fit with the others, and answers whether they do.
pub(crate) fn add_cells(leaves: &mut Leaves, cells: Cells) -> Result<bool, AllocError>
    requires few { need TableLeaf cells < 2 ^ 32 }
    ensures added { IfOk result (λ fit. fit ≡ true → Gains leaves.old leaves.new cells []) }
    ensures over { IfOk result (λ fit. fit ≡ false → leaves.old.left < need TableLeaf cells) }
    ensures same { IfOk result (λ fit. fit ≡ false → leaves.new ≡ leaves.old) }
{
    let Some(left) = room_behind(cells.as_slice(), leaves.left) else {
        return Ok(false);
    };
    let mut more = cells.into_vec();
    leaves.cells.append(&mut more)?;
    leaves.left = left;
    Ok(true)
}

// What a page holds, from a copy of it. Corrupt names the page, where it is no legal b-tree page.
fn node_in(alloc: Global, page: u32, bytes: &[u8], usable: usize) -> Result<PageCells, TreeFault>
    requires low { 480 ≤ usable }
    requires high { usable ≤ 65536 }
    requires inside { usable ≤ length bytes.now }
    ensures legal { IfOk result (λ node. page_at (take usable bytes.now) (header_end page) ≡ Ok node) }
    ensures writable { IfOk result (λ node. IsWritable node usable) }
    ensures few { IfOk result (λ node. need node.kind node.cells < 2 ^ 32) }
    ensures fault { (node : AnyNode) → page_at (take usable bytes.now) (header_end page) ≡ Ok node
        → IfErr result (λ fault. fault ≡ Space Memory) }
    ensures only { IfErr result (λ fault. (fault ≡ Space Memory) ⊎ (fault ≡ Corrupt page)) }
{
    let at = if page == 1 { 100 } else { 0 };
    let node = match read_page(alloc, bytes, at, usable) {
        Ok(node) => node,
        Err(PageFault::Memory) => return Err(TreeFault::Space(SpaceFault::Memory)),
        Err(_) => return Err(TreeFault::Corrupt { page }),
    };
    legal_is_writable(&node, bytes, at, usable);
    legal_fits(&node, bytes, at, usable);
    Ok(node)
}

/// Copies a page that is held into `buf`, and answers what it holds. Corrupt names the page, where it is
/// no legal b-tree page. It fails as `get` does.
pub(crate) fn see_node<S: Pages>(
    alloc: Global,
    space: &mut S,
    page: u32,
    buf: &mut [u8],
) -> Result<PageCells, TreeFault>
    requires size { length buf.old ≡ S.Pages.size space.old }
    ensures node { IfOk result (λ node. (pages : Paging) → Agrees pages (S.Pages.seen space.new)
        → node_at (S.Pages.used space.old) (sight S.Pages space.old pages) page ≡ Ok node) }
    ensures inside { OnOk result ((pages : Paging) → Agrees pages (S.Pages.seen space.new)
        → S.Pages.used space.old ≤ length (sight S.Pages space.old pages page)) }
    ensures writable { IfOk result (λ node. IsWritable node (S.Pages.used space.old)) }
    ensures few { IfOk result (λ node. need node.kind node.cells < 2 ^ 32) }
    ensures shifts { WhereHeld S.Pages space.old space.new (page ∷ []) (λ pages.
        Shifts S.Pages space.old space.new pages (page ∷ []) (page ∷ []) 0) }
    ensures likely { WhereHeld S.Pages space.old space.new (page ∷ []) (λ pages. (node : AnyNode)
        → node_at (S.Pages.used space.old) (sight S.Pages space.old pages) page ≡ Ok node → IsLikelyOfTree S.Pages space.new pages result) }
    ensures reads { Reads S.Pages space.old space.new }
    ensures refusal { RefusesTree S.Pages space.old space.new result }
{
    match see_page(space, page, buf) {
        Ok(()) => (),
        Err(fault) => return Err(TreeFault::Space(fault)),
    }
    let usable = space.usable() as usize;
    match node_in(alloc, page, buf, usable) {
        Ok(node) => Ok(node),
        Err(fault) => Err(fault),
    }
}
