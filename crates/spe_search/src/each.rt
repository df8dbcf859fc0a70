//! The rows of a table, one by one.

ghost use Rattle.std.specs.Prelude.{◌≡◌, ◌<◌, ℕ, true, None, IfOk, IfErr, length};
ghost use Rattle.spe_format.specs.View.{cell_seen};
ghost use Rattle.spe_model.specs.Tree.{rest_of};
ghost use Rattle.spe_model.specs.declared.page.Kind.TheVariants.{TableInterior};
ghost use Rattle.spe_model.specs.Paging.{Paging, Agrees};
ghost use Rattle.spe_space.specs.Calls.{Reads, RefusesTree, sight};
ghost use Rattle.spe_space.specs.Found.{MissesInChain, OnMissing, ReadsChain};
ghost use Rattle.spe_search.specs.Found.{NamesDamage};
ghost use Rattle.spe_search.specs.Inside.{MissesTree};
ghost use Rattle.spe_search.specs.Range.{RowDamage, RowsDamage};
ghost use Rattle.spe_search.specs.Taking.{ChildrenDamage, Hands, IsOfSpace, MissesBelow, MissesInChildren, MissesInLeaf, TakesBelow, TakesCell, TakesChildren, TakesLeaf, TakesTable};

use crate::search::header_of;
use crate::taker::RowTaker;
use spe_format::{PageView, Parts};
use spe_model::Kind;
use spe_space::{Pages, TreeFault, extend_by_chain, is_amiss};
use std::alloc::Global;

/// The payload of the newest row that has a chain. Its room is used again.
#[derive(Drop)]
pub struct Gathered {
    alloc: Global,
    bytes: Vec<u8>,
}

// How many bytes of a cell's payload stand in its chain.
fn rest_in(parts: &Parts<'_>) -> u64
    ensures { result ≡ rest_of (cell_seen parts.now) }
{
    parts.payload.saturating_sub(parts.local.len() as u64)
}

// Whether the whole payload of a cell stands in its page, and no chain is named.
fn is_local(parts: &Parts<'_>) -> bool
    ensures { result ≡ true → rest_of (cell_seen parts.now) ≡ 0 }
{
    rest_in(parts) == 0 && parts.chain == 0
}

// Gathers the payload of a cell of the leaf `page`.
fn gather<S: Pages>(
    space: &mut S,
    page: u32,
    parts: &Parts<'_>,
    gathered: &mut Gathered,
) -> Result<(), TreeFault>
    ensures whole { ReadsChain S.Pages space.old space.new (cell_seen parts.now).chain (rest_of (cell_seen parts.now)) (λ _. gathered.new.bytes.items) (cell_seen parts.now).local result }
    ensures damage { RowDamage S.Pages space.old space.new page (cell_seen parts.now) result }
    ensures page_out { MissesInChain S.Pages space.old space.new (cell_seen parts.now).chain (rest_of (cell_seen parts.now)) result }
    ensures kept { Reads S.Pages space.old space.new }
    ensures refusal { RefusesTree S.Pages space.old space.new result }
{
    let rest = rest_in(parts);
    if is_amiss(rest, parts.chain) {
        return Err(TreeFault::Corrupt { page });
    }
    let mut buf = vec![in gathered.alloc; 0u8; space.page_size() as usize]?;
    gathered.bytes.clear();
    gathered.bytes.extend_from_slice(parts.local)?;
    extend_by_chain(
        space,
        parts.chain,
        rest,
        buf.as_mut_slice(),
        &mut gathered.bytes,
    )
}

// Hands over the row of a cell of the leaf `page`.
fn hand_row<S: Pages, W, T: RowTaker<W>>(
    space: &mut S,
    taker: &mut T,
    out: &mut W,
    page: u32,
    parts: &Parts<'_>,
    gathered: &mut Gathered,
) -> Result<bool, TreeFault>
    ensures rows { Hands T.RowTaker taker.old out.old taker.new out.new result (TakesCell S.Pages space.old space.new page (cell_seen parts.now) result) }
    ensures damage { RowDamage S.Pages space.old space.new page (cell_seen parts.now) result }
    ensures page_out { MissesInChain S.Pages space.old space.new (cell_seen parts.now).chain (rest_of (cell_seen parts.now)) result }
    ensures kept { Reads S.Pages space.old space.new }
    ensures refusal { RefusesTree S.Pages space.old space.new result }
{
    if is_local(parts) {
        return Ok(taker.take(out, page, parts.key, parts.local));
    }
    match gather(space, page, parts, gathered) {
        Ok(()) => (),
        Err(fault) => return Err(fault),
    }
    Ok(taker.take(out, page, parts.key, gathered.bytes.as_slice()))
}

// Hands over the rows of the leaf `page`.
fn hand_rows<S: Pages, W, T: RowTaker<W>>(
    space: &mut S,
    taker: &mut T,
    out: &mut W,
    page: u32,
    view: &PageView<'_>,
    gathered: &mut Gathered,
) -> Result<bool, TreeFault>
    ensures rows { Hands T.RowTaker taker.old out.old taker.new out.new result (TakesLeaf S.Pages space.old space.new page view.now.cells result) }
    ensures damage { RowsDamage S.Pages space.old space.new page view.now.cells result }
    ensures page_out { MissesInLeaf S.Pages space.old space.new view.now.cells result }
    ensures kept { Reads S.Pages space.old space.new }
    ensures refusal { RefusesTree S.Pages space.old space.new result }
{
    let count = view.count();
    let mut index = 0;
    while index < count {
        let Some(parts) = view.cell(index) else {
            return Err(TreeFault::Corrupt { page });
        };
        match hand_row(space, taker, out, page, &parts, gathered) {
            Ok(true) => (),
            Ok(false) => return Ok(false),
            Err(fault) => return Err(fault),
        }
        index += 1;
    }
    Ok(true)
}

// Gets a page.
fn read_page<S: Pages>(alloc: Global, space: &mut S, page: u32) -> Result<Vec<u8>, TreeFault>
    ensures got { IfOk result (λ bytes. (pages : Paging) → Agrees pages (S.Pages.seen space.new) → bytes.items ≡ sight S.Pages space.old pages page) }
    ensures long { IfOk result (λ bytes. length bytes.items ≡ S.Pages.size space.old) }
    ensures refused { IfErr result IsOfSpace }
    ensures page_out { IfErr result (OnMissing (λ at. at ≡ page)) }
    ensures kept { Reads S.Pages space.old space.new }
    ensures refusal { RefusesTree S.Pages space.old space.new result }
{
    let mut bytes = vec![in alloc; 0u8; space.page_size() as usize]?;
    space.get(page, bytes.as_mut_slice())?;
    Ok(bytes)
}

// Hands over the rows of a table at most so many levels below a page.
#[cycle(below)]
fn hand_below<S: Pages, W, T: RowTaker<W>>(
    space: &mut S,
    taker: &mut T,
    out: &mut W,
    page: u32,
    levels: u32,
    gathered: &mut Gathered,
) -> Result<bool, TreeFault>
    ensures rows { Hands T.RowTaker taker.old out.old taker.new out.new result (TakesBelow S.Pages space.old space.new page levels result) }
    ensures damage { NamesDamage S.Pages space.old space.new page levels result }
    ensures page_out { MissesBelow S.Pages space.old space.new page result }
    ensures kept { Reads S.Pages space.old space.new }
    ensures refusal { RefusesTree S.Pages space.old space.new result }
{
    if levels == 0 {
        return Err(TreeFault::Corrupt { page });
    }
    let usable = space.usable() as usize;
    let bytes = match read_page(gathered.alloc, space, page) {
        Ok(bytes) => bytes,
        Err(fault) => return Err(fault),
    };
    let Ok(view) = PageView::new(bytes.as_slice(), header_of(page), usable) else {
        return Err(TreeFault::Corrupt { page });
    };
    match view.kind() {
        Kind::TableLeaf => hand_rows(space, taker, out, page, &view, gathered),
        Kind::TableInterior => hand_children(space, taker, out, page, levels, &view, gathered),
        Kind::IndexLeaf | Kind::IndexInterior => Err(TreeFault::Corrupt { page }),
    }
}

// Hands over the rows below the children of the page `page`, which stands so many levels high.
#[cycle(below)]
fn hand_children<S: Pages, W, T: RowTaker<W>>(
    space: &mut S,
    taker: &mut T,
    out: &mut W,
    page: u32,
    levels: u32,
    view: &PageView<'_>,
    gathered: &mut Gathered,
) -> Result<bool, TreeFault>
    requires some { 0 < levels }
    requires interior { view.now.kind ≡ TableInterior }
    ensures rows { Hands T.RowTaker taker.old out.old taker.new out.new result (TakesChildren S.Pages space.old space.new page levels view.now result) }
    ensures damage { ChildrenDamage S.Pages space.old space.new page levels view.now result }
    ensures page_out { MissesInChildren S.Pages space.old space.new view.now result }
    ensures kept { Reads S.Pages space.old space.new }
    ensures refusal { RefusesTree S.Pages space.old space.new result }
{
    let levels_below = levels - 1;
    let count = view.count();
    let mut index = 0;
    'children: while index < count {
        let Some(parts) = view.cell(index) else {
            return Err(TreeFault::Corrupt { page });
        };
        match hand_below(space, taker, out, parts.left, levels_below, gathered) {
            Ok(true) => (),
            Ok(false) => return Ok(false),
            Err(fault) => return Err(fault),
        }
        index += 1;
    }
    hand_below(space, taker, out, view.right(), levels_below, gathered)
}

/// Hands the rows of the table whose tree has the page `root` as its root to a taker, in the order of
/// their rowids. The answer says whether the taker wants more, where it had all; where it wants no
/// more before, the walk ends there.
///
/// Each page is got once, and held until its rows were handed over. A payload that stands in its leaf
/// is lent from there; another is gathered in room that is used again. Corrupt and PageOut are as of
/// `find`. Whatever stands under `root`, each row is shown by its leaf, which is met on the walk.
/// ("B-tree Pages" in SQLite's Database File Format.)
pub fn for_each_row<S: Pages, W, T: RowTaker<W>>(
    alloc: Global,
    space: &mut S,
    root: u32,
    taker: &mut T,
    out: &mut W,
) -> Result<bool, TreeFault>
    requires { S.Pages.refusal space.old ≡ None }
    ensures rows { Hands T.RowTaker taker.old out.old taker.new out.new result (TakesTable S.Pages space.old space.new root result) }
    ensures damage { NamesDamage S.Pages space.old space.new root 20 result }
    ensures inside { MissesTree S.Pages space.old space.new root result }
    ensures kept { Reads S.Pages space.old space.new }
    ensures refusal { RefusesTree S.Pages space.old space.new result }
{
    let mut gathered = Gathered {
        alloc,
        bytes: Vec::new(alloc),
    };
    hand_below(space, taker, out, root, 20, &mut gathered)
}
