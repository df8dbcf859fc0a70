//! How high a table's tree is.

ghost use Rattle.std.specs.Prelude.{◌≡◌, ◌≢◌, ◌<◌, Some, None, IfOk, length};
ghost use Rattle.spe_model.specs.declared.page.Kind.TheVariants.{TableInterior};
ghost use Rattle.spe_space.specs.Calls.{Reads, RefusesTree};
ghost use Rattle.spe_opening.specs.Below.{IsFirst, IsHeight, WhereStands, first_child};

use crate::node::see_node;
use spe_model::{Cell, Kind, PageCells};
use spe_space::{Pages, TreeFault};
use std::alloc::Global;

// The left-most child.
fn first_of(cells: &[Cell], right: u32) -> u32
    ensures { result ≡ first_child cells.now right }
{
    match cells {
        [cell, ..] => cell.left,
        _ => right,
    }
}

// The left-most child of an interior page. `None` for any other page.
fn first_in(node: &PageCells) -> Option<u32>
    ensures { IsFirst node.now result }
{
    match node.kind {
        Kind::TableInterior => Some(first_of(node.cells.as_slice(), node.right)),
        _ => None,
    }
}

// How many levels below a page its leaves stand, which are fewer than so many. One page is got a level,
// the left-most.
pub(crate) fn height_below<S: Pages>(
    alloc: Global,
    space: &mut S,
    page: u32,
    levels: u32,
    buf: &mut [u8],
) -> Result<u32, TreeFault>
    requires { length buf.old ≡ S.Pages.size space.old }
    ensures found { WhereStands S.Pages space.old space.new page (λ count pages height. height < levels → IsHeight count height result) }
    ensures low { IfOk result (λ height. height < levels) }
    ensures kept { Reads S.Pages space.old space.new }
    ensures refusal { RefusesTree S.Pages space.old space.new result }
{
    if levels == 0 {
        return Err(TreeFault::Corrupt { page });
    }
    let node = match see_node(alloc, space, page, buf) {
        Ok(node) => node,
        Err(fault) => return Err(fault),
    };
    let Some(child) = first_in(&node) else {
        return Ok(0);
    };
    match height_below(alloc, space, child, levels - 1, buf) {
        Ok(height) => Ok(height + 1),
        Err(fault) => Err(fault),
    }
}
