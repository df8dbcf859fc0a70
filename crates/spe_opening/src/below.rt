//! The interior pages of a table's tree, all of them.

ghost use Rattle.std.specs.Prelude.{◌≡◌, ◌≢◌, ◌≤◌, ◌⊎◌, IfOk, false, length, true};
ghost use Rattle.spe_model.specs.Served.{HasCells};
ghost use Rattle.spe_space.specs.Calls.{Reads, RefusesTree};
ghost use Rattle.spe_opening.specs.Below.{Tests, WhereStands, children};

use crate::node::see_node;
use spe_model::PageCells;
use spe_space::{Pages, SpaceFault, TreeFault};
use std::alloc::{AllocError, Global};

// Whether an interior page has no cell and is not page 1.
fn is_bare(page: u32, node: &PageCells) -> bool
    ensures bare { result ≡ true → (page ≢ 1) × (length node.now.cells ≡ 0) }
    ensures other { result ≡ false → (page ≡ 1) ⊎ (1 ≤ length node.now.cells) }
{
    page != 1 && node.cells.as_slice().is_empty()
}

// The children of an interior page, the right-most last.
fn children_of(alloc: Global, node: &PageCells) -> Result<Vec<u32>, AllocError>
    ensures { IfOk result (λ found. found.items ≡ children node.now.cells node.now.right) }
{
    let mut found = Vec::new(alloc);
    let mut left = node.cells.as_slice();
    while let [cell, rest @ ..] = left {
        found.push(cell.left)?;
        left = rest;
    }
    found.push(node.right)?;
    Ok(found)
}

// Makes sure that each interior page of the tree below a page has a cell; nothing is asked of page 1
// itself. The leaves stand `height` levels below the page, and none of them is got.
pub(crate) fn test_below<S: Pages>(
    alloc: Global,
    space: &mut S,
    page: u32,
    height: u32,
    buf: &mut [u8],
) -> Result<(), TreeFault>
    requires { length buf.old ≡ S.Pages.size space.old }
    ensures tests { WhereStands S.Pages space.old space.new page (λ count pages levels. height ≡ levels
        → Tests (S.Pages.used space.old) count pages (HasCells (S.Pages.used space.old) pages levels page) result) }
    ensures kept { Reads S.Pages space.old space.new }
    ensures refusal { RefusesTree S.Pages space.old space.new result }
{
    if height == 0 {
        return Ok(());
    }
    let node = match see_node(alloc, space, page, buf) {
        Ok(node) => node,
        Err(fault) => return Err(fault),
    };
    if is_bare(page, &node) {
        return Err(TreeFault::Corrupt { page });
    }
    let children = match children_of(alloc, &node) {
        Ok(children) => children,
        Err(_) => return Err(TreeFault::Space(SpaceFault::Memory)),
    };
    let mut left = children.as_slice();
    while let [child, rest @ ..] = left {
        match test_below(alloc, space, *child, height - 1, buf) {
            Ok(()) => (),
            Err(fault) => return Err(fault),
        }
        left = rest;
    }
    Ok(())
}
