//! Trees of tables.

ghost use Rattle.std.specs.Prelude.{◌≡◌, ◌≤◌, ◌<◌, ◌+◌, ℕ, Bool, true, nat_le, nat_lt, [], ◌∷◌, IfOk, IfErr, OnOk};
ghost use Rattle.spe_format.specs.View.{cell_seen};
ghost use Rattle.spe_model.specs.Tree.{rank, rest_of};
ghost use Rattle.spe_model.specs.Kind.{is_leaf};
ghost use Rattle.spe_model.specs.Walk.{Mark, Keeps, is_within_bounds};
ghost use Rattle.spe_check.specs.Chains.{kept_of};
ghost use Rattle.spe_check.specs.Pages.{TriesPlace};
ghost use Rattle.spe_check.specs.Shown.{Walked, RefusesHalt, AsksWithin};
ghost use Rattle.spe_check.specs.TableTree.{low_of, high_of, Rises, VisitsRow, TakesPayload, TriesLocal, TriesRow, TriesRows, TriesTable, TriesTableFrom};
ghost use Rattle.spe_check.specs.Tries.{IsBroken, Tries};
ghost use Rattle.spe_check.specs.Visitor.{IsOwn};

use crate::chain::{try_chain, try_none};
use crate::halt::Halt;
use crate::index_tree::level_of;
use crate::page::{is_leaf, read_met, try_place};
use crate::rule::try_rule;
use crate::visitor::RowVisitor;
use crate::walk::{Bounds, Depth, Walk};
use spe_format::{LegalPage, Parts};
use spe_space::Pages;
use std::alloc::AllocError;

// Whether a key is above the one to its left, where there is one.
fn is_above(low: Option<i64>, key: i64) -> bool
    ensures { result ≡ nat_le (low_of low) (rank key) }
{
    match low {
        Some(left) => left < key,
        None => true,
    }
}

// Whether a key is at most the one to its right, where there is one.
fn is_up_to(high: Option<i64>, key: i64) -> bool
    ensures { result ≡ nat_lt (rank key) (high_of high) }
{
    match high {
        Some(right) => key <= right,
        None => true,
    }
}

fn is_within(bounds: Bounds, parts: &Parts<'_>) -> bool
    ensures { result ≡ is_within_bounds (low_of bounds.low) (high_of bounds.high) (cell_seen parts.now) }
{
    is_above(bounds.low, parts.key) && is_up_to(bounds.high, parts.key)
}

// Tries whether the key of a cell lies within these bounds.
fn try_bound(bounds: Bounds, page: u32, parts: &Parts<'_>) -> Result<(), Halt>
    ensures tried { (count : ℕ) (met : ℕ → Bool) → Tries count met met (Keeps page 6 (is_within_bounds (low_of bounds.low) (high_of bounds.high) (cell_seen parts.now)) ∷ []) result }
    ensures above { OnOk result (low_of bounds.low ≤ rank parts.now.key) }
    ensures below { OnOk result (rank parts.now.key < high_of bounds.high) }
    ensures broken { IfErr result IsBroken }
{
    try_rule(is_within(bounds, parts), page, 6)
}

// Begins a payload anew with the bytes in its page, where they are wanted.
fn begin(wanted: bool, local: &[u8], payload: &mut Vec<u8>) -> Result<(), AllocError>
    ensures { OnOk result (payload.new.items ≡ kept_of wanted [] local.now) }
{
    payload.clear();
    if wanted {
        payload.extend_from_slice(local)?;
    }
    Ok(())
}

// How many bytes of a cell's payload stand in its chain.
fn rest_in(parts: &Parts<'_>) -> u64
    ensures { result ≡ rest_of (cell_seen parts.now) }
{
    parts.payload.saturating_sub(parts.local.len() as u64)
}

// Tries the chain of a cell, and takes the cell's payload where it is wanted.
fn take_payload<S: Pages>(
    space: &mut S,
    walk: &mut Walk,
    page: u32,
    parts: &Parts<'_>,
    wanted: bool,
) -> Result<(), Halt>
    ensures tried { TakesPayload S.Pages space.new walk.old.met walk.new.met page (cell_seen parts.now) wanted walk.new.payload.items result }
    ensures walked { Walked S.Pages space.old space.new walk.old.met walk.new.met }
    ensures refusal { RefusesHalt S.Pages space.old space.new result }
    ensures asks { AsksWithin walk.old.met result }
{
    begin(wanted, parts.local, &mut walk.payload)?;
    try_chain(space, walk, page, parts.chain, rest_in(parts), wanted)
}

// Has a row visited where the visitor wants it.
fn visit_row<V: RowVisitor>(
    visitor: &mut V,
    page: u32,
    parts: &Parts<'_>,
    payload: &[u8],
) -> Result<(), Halt>
    ensures tried { VisitsRow V.RowVisitor visitor.old visitor.new page parts.now.key payload.now result }
    ensures above { Rises V.RowVisitor visitor.old visitor.new (rank parts.now.key) (rank parts.now.key + 1) result }
    ensures own { IfErr result IsOwn }
    ensures wanted { V.RowVisitor.wanted visitor.new ≡ V.RowVisitor.wanted visitor.old }
{
    if visitor.wants() {
        return visitor.visit(page, parts.key, payload);
    }
    Ok(())
}

// Whether the whole payload of a cell stands in its page.
fn is_local(parts: &Parts<'_>) -> bool
    ensures { result ≡ true → rest_of (cell_seen parts.now) ≡ 0 }
{
    rest_in(parts) == 0
}

// Tries what is behind the bound of a row whose whole payload stands in its page, which is not copied.
fn try_local<V: RowVisitor>(visitor: &mut V, page: u32, parts: &Parts<'_>) -> Result<(), Halt>
    requires { rest_of (cell_seen parts.now) ≡ 0 }
    ensures tried { TriesLocal V.RowVisitor visitor.old visitor.new page (cell_seen parts.now) result }
    ensures above { Rises V.RowVisitor visitor.old visitor.new (rank parts.now.key) (rank parts.now.key + 1) result }
    ensures own { IfErr result IsOwn }
    ensures wanted { V.RowVisitor.wanted visitor.new ≡ V.RowVisitor.wanted visitor.old }
{
    match try_none(page, parts.chain) {
        Ok(()) => (),
        Err(halt) => return Err(halt),
    }
    visit_row(visitor, page, parts, parts.local)
}

// Tries a row of a leaf: its bound, its chain, and what the visitor tries of it.
fn try_row<S: Pages, V: RowVisitor>(
    space: &mut S,
    walk: &mut Walk,
    visitor: &mut V,
    bounds: Bounds,
    page: u32,
    parts: &Parts<'_>,
) -> Result<(), Halt>
    ensures tried { TriesRow S.Pages V.RowVisitor space.new walk.old.met walk.new.met visitor.old visitor.new page (low_of bounds.low) (high_of bounds.high) (cell_seen parts.now) result }
    ensures above { OnOk result (low_of bounds.low ≤ rank parts.now.key) }
    ensures below { OnOk result (rank parts.now.key < high_of bounds.high) }
    ensures rises { Rises V.RowVisitor visitor.old visitor.new (low_of bounds.low) (rank parts.now.key + 1) result }
    ensures wanted { V.RowVisitor.wanted visitor.new ≡ V.RowVisitor.wanted visitor.old }
    ensures walked { Walked S.Pages space.old space.new walk.old.met walk.new.met }
    ensures refusal { RefusesHalt S.Pages space.old space.new result }
    ensures asks { AsksWithin walk.old.met result }
{
    match try_bound(bounds, page, parts) {
        Ok(()) => (),
        Err(halt) => return Err(halt),
    }
    if is_local(parts) {
        return try_local(visitor, page, parts);
    }
    let wanted = visitor.wants();
    match take_payload(space, walk, page, parts, wanted) {
        Ok(()) => (),
        Err(halt) => return Err(halt),
    }
    visit_row(visitor, page, parts, walk.payload.as_slice())
}

fn key_of(parts: &Parts<'_>) -> Option<i64>
    ensures low { low_of result ≡ rank parts.now.key + 1 }
    ensures high { high_of result ≡ rank parts.now.key + 1 }
{
    Some(parts.key)
}

// Tries the rows of a leaf, at which so many levels are left.
fn try_rows<S: Pages, V: RowVisitor>(
    space: &mut S,
    walk: &mut Walk,
    visitor: &mut V,
    levels: u32,
    bounds: Bounds,
    page: u32,
    node: &LegalPage<'_>,
) -> Result<u32, Halt>
    ensures tried { TriesRows S.Pages V.RowVisitor space.new walk.old.met walk.new.met visitor.old visitor.new page (low_of bounds.low) (high_of bounds.high) node.now.cells result }
    ensures level { IfOk result (λ level. level ≡ levels) }
    ensures rises { Rises V.RowVisitor visitor.old visitor.new (low_of bounds.low) (high_of bounds.high) result }
    ensures wanted { V.RowVisitor.wanted visitor.new ≡ V.RowVisitor.wanted visitor.old }
    ensures walked { Walked S.Pages space.old space.new walk.old.met walk.new.met }
    ensures refusal { RefusesHalt S.Pages space.old space.new result }
    ensures asks { AsksWithin walk.old.met result }
{
    let high = bounds.high;
    let mut low = bounds.low;
    let mut index = 0;
    'rows: while let Some(parts) = node.cell(index) {
        let within = Bounds { low, high };
        match try_row(space, walk, visitor, within, page, &parts) {
            Ok(()) => (),
            Err(halt) => return Err(halt),
        }
        low = key_of(&parts);
        index += 1;
    }
    Ok(levels)
}

// Tries the rules of the kind of a page and of its place.
fn try_node(leaf: Option<u32>, levels: u32, page: u32, node: &LegalPage<'_>) -> Result<(), Halt>
    ensures tried { TriesPlace true leaf levels page node.now.kind result }
    ensures some { OnOk result (0 < levels) }
    ensures broken { IfErr result IsBroken }
{
    try_place(true, leaf, levels, page, node.kind())
}

fn has_rows(node: &LegalPage<'_>) -> bool
    ensures { result ≡ is_leaf node.now.kind }
{
    is_leaf(node.kind())
}

/// Tries the tree of a table with its rows from the page `page` on, whose number stands on the page
/// `holder`, and answers how many levels were left at its leaves.
///
/// `depth` says how deep the page stands, and `bounds` the parents' nearest keys on either side. Each
/// page is got once, into a buffer that is used again behind it, and the visitor gets the rows in their
/// order.
#[cycle(table)]
pub fn walk_table<S: Pages, V: RowVisitor>(
    space: &mut S,
    walk: &mut Walk,
    visitor: &mut V,
    depth: Depth,
    bounds: Bounds,
    holder: u32,
    page: u32,
) -> Result<u32, Halt>
    ensures tried { TriesTable S.Pages V.RowVisitor space.new walk.old.met walk.new.met visitor.old visitor.new depth.leaf depth.levels (low_of bounds.low) (high_of bounds.high) holder page result }
    ensures rises { Rises V.RowVisitor visitor.old visitor.new (low_of bounds.low) (high_of bounds.high) result }
    ensures wanted { V.RowVisitor.wanted visitor.new ≡ V.RowVisitor.wanted visitor.old }
    ensures walked { Walked S.Pages space.old space.new walk.old.met walk.new.met }
    ensures refusal { RefusesHalt S.Pages space.old space.new result }
    ensures asks { AsksWithin walk.old.met result }
{
    let mut own = walk.buffers.take(space.page_size())?;
    let node = match read_met(
        walk.alloc,
        space,
        &mut walk.met,
        holder,
        page,
        own.as_mut_slice(),
    ) {
        Ok(node) => node,
        Err(halt) => return Err(halt),
    };
    let found = walk_table_from(space, walk, visitor, depth, bounds, page, &node);
    walk.buffers.give_back(own);
    found
}

/// Goes on with the tree of a table from the page `page` on, which was met and read already and holds
/// `node`. The page is not got again; the rest is as for `walk_table`.
#[cycle(table)]
pub fn walk_table_from<S: Pages, V: RowVisitor>(
    space: &mut S,
    walk: &mut Walk,
    visitor: &mut V,
    depth: Depth,
    bounds: Bounds,
    page: u32,
    node: &LegalPage<'_>,
) -> Result<u32, Halt>
    ensures tried { TriesTableFrom S.Pages V.RowVisitor space.new walk.old.met walk.new.met visitor.old visitor.new depth.leaf depth.levels (low_of bounds.low) (high_of bounds.high) page node.now result }
    ensures rises { Rises V.RowVisitor visitor.old visitor.new (low_of bounds.low) (high_of bounds.high) result }
    ensures wanted { V.RowVisitor.wanted visitor.new ≡ V.RowVisitor.wanted visitor.old }
    ensures walked { Walked S.Pages space.old space.new walk.old.met walk.new.met }
    ensures refusal { RefusesHalt S.Pages space.old space.new result }
    ensures asks { AsksWithin walk.old.met result }
{
    match try_node(depth.leaf, depth.levels, page, node) {
        Ok(()) => (),
        Err(halt) => return Err(halt),
    }
    if has_rows(node) {
        let level = level_of(depth.leaf, depth.levels);
        return try_rows(space, walk, visitor, level, bounds, page, node);
    }
    let levels = depth.levels - 1;
    let high = bounds.high;
    let mut leaf = depth.leaf;
    let mut low = bounds.low;
    let mut index = 0;
    'children: while let Some(parts) = node.cell(index) {
        let child = parts.left;
        let key = key_of(&parts);
        let under = Depth { leaf, levels };
        let left = Bounds { low, high: key };
        match walk_table(space, walk, visitor, under, left, page, child) {
            Ok(level) => leaf = Some(level),
            Err(halt) => return Err(halt),
        }
        match try_bound(Bounds { low, high }, page, &parts) {
            Ok(()) => (),
            Err(halt) => return Err(halt),
        }
        low = key;
        index += 1;
    }
    let right = node.right();
    let under = Depth { leaf, levels };
    let last = Bounds { low, high };
    walk_table(space, walk, visitor, under, last, page, right)
}
