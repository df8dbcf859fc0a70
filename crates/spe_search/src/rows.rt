//! Rows between two rowids.

ghost use Rattle.std.specs.Prelude.{◌≡◌, ◌≤◌, ◌<◌, ◌⊎◌, ◌≢◌, ℕ, ℤ, List, [], ◌∷◌, ◌++◌, None, IfOk, OnOk, length, map, nat_le, ◌&&◌, true, false};
ghost use Rattle.spe_format.specs.View.{cell_seen};
ghost use Rattle.spe_space.specs.Calls.{Reads, RefusesTree};
ghost use Rattle.spe_space.specs.Found.{MissesInChain};
ghost use Rattle.spe_model.specs.Tree.{rank, rest_of};
ghost use Rattle.spe_search.specs.Step.{IsFoundIn};
ghost use Rattle.spe_search.specs.Range.{PushesRow, PushesRows, RowDamage, RowsDamage, AddsOfRow, AddsOfRows, AddsOfLook, AddsOfVisit, AddsOfRange, MissesInRows, MissesInLook, MissesInVisit, MissesInRange, ListsChildren, LooksAtLeaf, LooksAtInterior, LookDamage, Visits, VisitDamage, WalksBelow, FindsRange, FindsBetween};
ghost use Rattle.spe_search.specs.Inside.{MissesTree};
ghost use Rattle.spe_search.specs.Leaves.{TakesRow, TakesRows, TakesVisit, TakesWalk, TellsLeaves};
ghost use Rattle.spe_search.specs.Pairs.{pair_seen};
ghost use Rattle.spe_search.specs.Found.{NamesDamage};
ghost use Rattle.spe_model.specs.declared.page.Kind.TheVariants.{TableLeaf, TableInterior};

use crate::page::{Found, key_of, rank_of};
use crate::pairs::{LeafPairs, Pair, Pairs};
use crate::search::{header_of, whole_of};
use spe_format::{PageView, Parts};
use spe_model::{Bytes, Kind};
use spe_space::{Pages, TreeFault};
use std::alloc::{AllocError, Global};

fn found_in(alloc: Global, parts: &Parts<'_>) -> Result<Found, AllocError>
    ensures { IfOk result (λ found. IsFoundIn found (cell_seen parts.now)) }
{
    let local = Vec::from_slice(alloc, parts.local)?;
    Ok(Found {
        local: Bytes::new(local),
        rest: parts.payload.saturating_sub(parts.local.len() as u64),
        chain: parts.chain,
    })
}

fn is_within(low: u64, key: u64, high: u64) -> bool
    ensures { result ≡ (nat_le low key && nat_le key high) }
{
    low <= key && key <= high
}

// Pushes the row of a cell of the leaf `page`.
fn push_row<S: Pages>(
    alloc: Global,
    space: &mut S,
    page: u32,
    parts: &Parts<'_>,
    buf: &mut [u8],
    out: &mut LeafPairs,
) -> Result<(), TreeFault>
    requires { length buf.old ≡ S.Pages.size space.old }
    ensures rows { PushesRow S.Pages space.old space.new (cell_seen parts.now) (map pair_seen out.old) (map pair_seen out.new) result }
    ensures damage { RowDamage S.Pages space.old space.new page (cell_seen parts.now) result }
    ensures leaf { TakesRow S.Pages space.old space.new page (cell_seen parts.now) out.old out.new result }
    ensures adds { AddsOfRow S.Pages space.old space.new (cell_seen parts.now) }
    ensures page_out { MissesInChain S.Pages space.old space.new (cell_seen parts.now).chain (rest_of (cell_seen parts.now)) result }
    ensures kept { Reads S.Pages space.old space.new }
    ensures refusal { RefusesTree S.Pages space.old space.new result }
{
    let found = found_in(alloc, parts)?;
    let payload = whole_of(space, page, found, buf)?;
    out.push(Pair {
        rowid: parts.key,
        payload,
        leaf: page,
    })?;
    Ok(())
}

// Pushes the rows of the leaf `page` whose ranks are from `low` to `high`.
fn push_rows<S: Pages>(
    alloc: Global,
    space: &mut S,
    page: u32,
    view: &PageView<'_>,
    low: u64,
    high: u64,
    buf: &mut [u8],
    out: &mut LeafPairs,
) -> Result<(), TreeFault>
    requires { length buf.old ≡ S.Pages.size space.old }
    ensures rows { PushesRows S.Pages space.old space.new view.now.cells low high (map pair_seen out.old) (map pair_seen out.new) result }
    ensures damage { RowsDamage S.Pages space.old space.new page view.now.cells result }
    ensures leaf { TakesRows S.Pages space.old space.new page view.now.cells out.old out.new result }
    ensures adds { AddsOfRows S.Pages space.old space.new view.now.cells low high }
    ensures page_out { MissesInRows S.Pages space.old space.new view.now.cells low high result }
    ensures kept { Reads S.Pages space.old space.new }
    ensures refusal { RefusesTree S.Pages space.old space.new result }
{
    let count = view.count();
    let mut index = 0;
    while index < count {
        let Some(parts) = view.cell(index) else {
            return Err(TreeFault::Corrupt { page });
        };
        if is_within(low, key_of(&parts), high) {
            match push_row(alloc, space, page, &parts, buf, out) {
                Ok(()) => (),
                Err(fault) => return Err(fault),
            }
        }
        index += 1;
    }
    Ok(())
}

// Whether the rows up to this rank are under the child of a cell with this key, or under one before it.
fn is_last(high: u64, key: u64) -> bool
    ensures last { result ≡ true → high ≤ key }
    ensures more { result ≡ false → key < high }
{
    high <= key
}

// The children of an interior page under which rows with ranks from `low` to `high` may be. `None`
// where a cell can't be read.
fn children_in(
    alloc: Global,
    view: &PageView<'_>,
    low: u64,
    high: u64,
) -> Result<Option<Vec<u32>>, AllocError>
    ensures { ListsChildren view.now.cells view.now.right low high result }
{
    let mut children = Vec::new(alloc);
    let count = view.count();
    let mut index = 0;
    while index < count {
        let Some(parts) = view.cell(index) else {
            return Ok(None);
        };
        let key = key_of(&parts);
        if low <= key {
            children.push(parts.left)?;
            if is_last(high, key) {
                return Ok(Some(children));
            }
        }
        index += 1;
    }
    children.push(view.right())?;
    Ok(Some(children))
}

// Looks at the page `page`: pushes the rows of a leaf, or lists the children of an interior page.
fn look<S: Pages>(
    alloc: Global,
    space: &mut S,
    page: u32,
    view: &PageView<'_>,
    low: u64,
    high: u64,
    buf: &mut [u8],
    out: &mut LeafPairs,
) -> Result<Vec<u32>, TreeFault>
    requires { length buf.old ≡ S.Pages.size space.old }
    ensures leaf { view.now.kind ≡ TableLeaf → LooksAtLeaf S.Pages space.old space.new view.now.cells low high (map pair_seen out.old) (map pair_seen out.new) result }
    ensures interior { view.now.kind ≡ TableInterior → LooksAtInterior view.now.cells view.now.right low high (map pair_seen out.old) (map pair_seen out.new) result }
    ensures damage { LookDamage S.Pages space.old space.new page view.now result }
    ensures taken { view.now.kind ≡ TableLeaf → TakesRows S.Pages space.old space.new page view.now.cells out.old out.new result }
    ensures none { view.now.kind ≢ TableLeaf → OnOk result (out.new ≡ out.old) }
    ensures adds { AddsOfLook S.Pages space.old space.new view.now low high }
    ensures page_out { MissesInLook S.Pages space.old space.new view.now low high result }
    ensures kept { Reads S.Pages space.old space.new }
    ensures refusal { RefusesTree S.Pages space.old space.new result }
{
    match view.kind() {
        Kind::TableLeaf => {
            push_rows(alloc, space, page, view, low, high, buf, out)?;
            Ok(Vec::new(alloc))
        }
        Kind::TableInterior => match children_in(alloc, view, low, high)? {
            Some(children) => Ok(children),
            None => Err(TreeFault::Corrupt { page }),
        },
        Kind::IndexLeaf | Kind::IndexInterior => Err(TreeFault::Corrupt { page }),
    }
}

// Gets a page, and looks at it.
fn visit<S: Pages>(
    alloc: Global,
    space: &mut S,
    page: u32,
    low: u64,
    high: u64,
    buf: &mut [u8],
    spare: &mut [u8],
    out: &mut LeafPairs,
) -> Result<Vec<u32>, TreeFault>
    requires size { length buf.old ≡ S.Pages.size space.old }
    requires spare { length spare.old ≡ S.Pages.size space.old }
    ensures visits { Visits S.Pages space.old space.new page low high (map pair_seen out.old) (map pair_seen out.new) result }
    ensures damage { VisitDamage S.Pages space.old space.new page result }
    ensures leaves { TakesVisit S.Pages space.old space.new page out.old out.new result }
    ensures adds { AddsOfVisit S.Pages space.old space.new page low high }
    ensures page_out { MissesInVisit S.Pages space.old space.new page low high result }
    ensures kept { Reads S.Pages space.old space.new }
    ensures refusal { RefusesTree S.Pages space.old space.new result }
{
    let usable = space.usable() as usize;
    space.get(page, buf)?;
    let Ok(view) = PageView::new(buf, header_of(page), usable) else {
        return Err(TreeFault::Corrupt { page });
    };
    look(alloc, space, page, &view, low, high, spare, out)
}

// Pushes the rows with ranks from `low` to `high`, at most so many levels below a page.
fn walk<S: Pages>(
    alloc: Global,
    space: &mut S,
    page: u32,
    low: u64,
    high: u64,
    levels: u32,
    buf: &mut [u8],
    spare: &mut [u8],
    out: &mut LeafPairs,
) -> Result<(), TreeFault>
    requires size { length buf.old ≡ S.Pages.size space.old }
    requires spare { length spare.old ≡ S.Pages.size space.old }
    ensures rows { WalksBelow S.Pages space.old space.new page low high levels (map pair_seen out.old) (map pair_seen out.new) result }
    ensures damage { NamesDamage S.Pages space.old space.new page levels result }
    ensures leaves { TakesWalk S.Pages space.old space.new page levels out.old out.new result }
    ensures adds { AddsOfRange S.Pages space.old space.new page low high }
    ensures page_out { MissesInRange S.Pages space.old space.new page low high result }
    ensures kept { Reads S.Pages space.old space.new }
    ensures refusal { RefusesTree S.Pages space.old space.new result }
{
    if levels == 0 {
        return Err(TreeFault::Corrupt { page });
    }
    let children = match visit(alloc, space, page, low, high, buf, spare, out) {
        Ok(children) => children,
        Err(fault) => return Err(fault),
    };
    let mut left = children.as_slice();
    while let [child, rest @ ..] = left {
        match walk(alloc, space, *child, low, high, levels - 1, buf, spare, out) {
            Ok(()) => (),
            Err(fault) => return Err(fault),
        }
        left = rest;
    }
    Ok(())
}

/// The rows with rowids from `low` to `high` of the table whose tree has the page `root` as its root,
/// in the order of their rowids, each with the leaf that it was read from.
///
/// Only the pages are got that the bounds touch, and the overflow pages of the rows. Corrupt and
/// PageOut are as of `find`. Whatever stands under `root`, each row is shown by its leaf, which is met
/// on the walk. ("B-tree Pages" in SQLite's Database File Format.)
pub fn range_with_leaves<S: Pages>(
    alloc: Global,
    space: &mut S,
    root: u32,
    low: i64,
    high: i64,
) -> Result<LeafPairs, TreeFault>
    requires { S.Pages.refusal space.old ≡ None }
    ensures found { FindsBetween S.Pages space.old space.new root low high (map pair_seen) result }
    ensures leaves { TellsLeaves S.Pages space.old space.new root result }
    ensures damage { NamesDamage S.Pages space.old space.new root 20 result }
    ensures adds { AddsOfRange S.Pages space.old space.new root (rank low) (rank high) }
    ensures page_out { MissesInRange S.Pages space.old space.new root (rank low) (rank high) result }
    ensures inside { MissesTree S.Pages space.old space.new root result }
    ensures kept { Reads S.Pages space.old space.new }
    ensures refusal { RefusesTree S.Pages space.old space.new result }
{
    let mut buf = vec![in alloc; 0u8; space.page_size() as usize]?;
    let mut spare = vec![in alloc; 0u8; space.page_size() as usize]?;
    let mut out = LeafPairs::new(alloc);
    match walk(
        alloc,
        space,
        root,
        rank_of(low),
        rank_of(high),
        20,
        buf.as_mut_slice(),
        spare.as_mut_slice(),
        &mut out,
    ) {
        Ok(()) => Ok(out),
        Err(fault) => Err(fault),
    }
}

/// The rows with rowids from `low` to `high` of the table whose tree has the page `root` as its root,
/// in the order of their rowids.
///
/// All is as of `range_with_leaves`, but for the leaves.
pub fn range<S: Pages>(
    alloc: Global,
    space: &mut S,
    root: u32,
    low: i64,
    high: i64,
) -> Result<Pairs, TreeFault>
    requires { S.Pages.refusal space.old ≡ None }
    ensures found { FindsRange S.Pages space.old space.new root low high result }
    ensures damage { NamesDamage S.Pages space.old space.new root 20 result }
    ensures adds { AddsOfRange S.Pages space.old space.new root (rank low) (rank high) }
    ensures page_out { MissesInRange S.Pages space.old space.new root (rank low) (rank high) result }
    ensures inside { MissesTree S.Pages space.old space.new root result }
    ensures kept { Reads S.Pages space.old space.new }
    ensures refusal { RefusesTree S.Pages space.old space.new result }
{
    let rows = range_with_leaves(alloc, space, root, low, high)?;
    Ok(rows.into_pairs())
}
