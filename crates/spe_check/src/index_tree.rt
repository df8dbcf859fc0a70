//! Trees of indexes.

ghost use Rattle.std.specs.Prelude.{◌≡◌, IfOk};
ghost use Rattle.spe_model.specs.Tree.{rest_of};
ghost use Rattle.spe_check.specs.IndexTree.{level_of, TriesCell, TriesChains, TriesIndex, TriesIndexFrom};
ghost use Rattle.spe_check.specs.Shown.{Walked, RefusesHalt, AsksWithin};

use crate::chain::try_chain;
use crate::halt::Halt;
use crate::page::{copy_met, is_leaf, try_place};
use crate::walk::{Depth, Walk};
use spe_model::{Cell, PageCells};
use spe_space::Pages;

// How many bytes of a cell's payload stand in its chain.
pub fn rest_in(cell: &Cell) -> u64
    ensures { result ≡ rest_of cell.now }
{
    cell.payload
        .saturating_sub(cell.local.as_slice().len() as u64)
}

// Tries the chain of a cell of a page. Its bytes are not kept.
fn try_cell<S: Pages>(space: &mut S, walk: &mut Walk, page: u32, cell: &Cell) -> Result<(), Halt>
    ensures tried { TriesCell S.Pages space.new walk.old.met walk.new.met page cell.now result }
    ensures walked { Walked S.Pages space.old space.new walk.old.met walk.new.met }
    ensures refusal { RefusesHalt S.Pages space.old space.new result }
    ensures asks { AsksWithin walk.old.met result }
{
    try_chain(space, walk, page, cell.chain, rest_in(cell), false)
}

// Tries the chains of the cells of a page.
fn try_chains<S: Pages>(
    space: &mut S,
    walk: &mut Walk,
    page: u32,
    cells: &[Cell],
) -> Result<(), Halt>
    ensures tried { TriesChains S.Pages space.new walk.old.met walk.new.met page cells.now result }
    ensures walked { Walked S.Pages space.old space.new walk.old.met walk.new.met }
    ensures refusal { RefusesHalt S.Pages space.old space.new result }
    ensures asks { AsksWithin walk.old.met result }
{
    let mut left = cells;
    'cells: while let [cell, rest @ ..] = left {
        match try_cell(space, walk, page, cell) {
            Ok(()) => (),
            Err(halt) => return Err(halt),
        }
        left = rest;
    }
    Ok(())
}

// How many levels are left at the first leaf, where none was met before this one.
pub fn level_of(leaf: Option<u32>, levels: u32) -> u32
    ensures { result ≡ level_of leaf levels }
{
    match leaf {
        Some(level) => level,
        None => levels,
    }
}

// Tries the chains of the cells of a leaf, at which so many levels are left.
fn walk_leaf<S: Pages>(
    space: &mut S,
    walk: &mut Walk,
    levels: u32,
    page: u32,
    cells: &[Cell],
) -> Result<u32, Halt>
    ensures tried { TriesChains S.Pages space.new walk.old.met walk.new.met page cells.now result }
    ensures level { IfOk result (λ level. level ≡ levels) }
    ensures walked { Walked S.Pages space.old space.new walk.old.met walk.new.met }
    ensures refusal { RefusesHalt S.Pages space.old space.new result }
    ensures asks { AsksWithin walk.old.met result }
{
    match try_chains(space, walk, page, cells) {
        Ok(()) => Ok(levels),
        Err(halt) => Err(halt),
    }
}

/// Tries the tree of an index from the page `page` on, whose number stands on the page `holder`, and
/// answers how many levels were left at its leaves.
///
/// `depth` says how deep the page stands. Each page is got once.
#[cycle(index)]
pub fn walk_index<S: Pages>(
    space: &mut S,
    walk: &mut Walk,
    depth: Depth,
    holder: u32,
    page: u32,
) -> Result<u32, Halt>
    ensures tried { TriesIndex S.Pages space.new walk.old.met walk.new.met depth.leaf depth.levels holder page result }
    ensures walked { Walked S.Pages space.old space.new walk.old.met walk.new.met }
    ensures refusal { RefusesHalt S.Pages space.old space.new result }
    ensures asks { AsksWithin walk.old.met result }
{
    let mut bytes = walk.buffers.take(space.page_size())?;
    let node = match copy_met(walk.alloc, space, &mut walk.met, holder, page, &mut bytes) {
        Ok(node) => node,
        Err(halt) => return Err(halt),
    };
    walk.buffers.give_back(bytes);
    walk_index_from(space, walk, depth, page, &node)
}

/// Goes on with the tree of an index from the page `page` on, which was met and read already and holds
/// `node`. The page is not got again; the rest is as for `walk_index`.
#[cycle(index)]
pub fn walk_index_from<S: Pages>(
    space: &mut S,
    walk: &mut Walk,
    depth: Depth,
    page: u32,
    node: &PageCells,
) -> Result<u32, Halt>
    ensures tried { TriesIndexFrom S.Pages space.new walk.old.met walk.new.met depth.leaf depth.levels page node.now result }
    ensures walked { Walked S.Pages space.old space.new walk.old.met walk.new.met }
    ensures refusal { RefusesHalt S.Pages space.old space.new result }
    ensures asks { AsksWithin walk.old.met result }
{
    match try_place(false, depth.leaf, depth.levels, page, node.kind) {
        Ok(()) => (),
        Err(halt) => return Err(halt),
    }
    if is_leaf(node.kind) {
        let level = level_of(depth.leaf, depth.levels);
        return walk_leaf(space, walk, level, page, node.cells.as_slice());
    }
    let right = node.right;
    let levels = depth.levels - 1;
    let mut leaf = depth.leaf;
    let mut left = node.cells.as_slice();
    'children: while let [cell, rest @ ..] = left {
        match walk_index(space, walk, Depth { leaf, levels }, page, cell.left) {
            Ok(level) => leaf = Some(level),
            Err(halt) => return Err(halt),
        }
        match try_cell(space, walk, page, cell) {
            Ok(()) => (),
            Err(halt) => return Err(halt),
        }
        left = rest;
    }
    walk_index(space, walk, Depth { leaf, levels }, page, right)
}
