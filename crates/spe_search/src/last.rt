//! The last row.

ghost use Rattle.std.specs.Prelude.{◌≡◌, ◌≢◌, ℕ, None, length, IfErr};
ghost use Rattle.spe_space.specs.Calls.{Reads, RefusesTree};
ghost use Rattle.spe_space.specs.Found.{OnMissing};
ghost use Rattle.spe_search.specs.Last.{EndsLeaf, FindsEnd, FindsLeft, GivesEnd, GivesLeft, LastBelow, FindsLast, NamesPage, AddsAtEnd, AddsOfLast, MissesAtEnd, MissesInLast};
ghost use Rattle.spe_search.specs.Inside.{MissesTree};

use crate::search::header_of;
use spe_format::PageView;
use spe_model::Kind;
use spe_space::{Pages, TreeFault};
use std::alloc::Global;

/// What stands at the end of a page.
#[derive(Clone, Copy, Debug)]
pub enum End {
    /// The last rowid of a leaf.
    Rows(Option<i64>),
    /// The right-most child of an interior page, and how many children stand before it.
    Children { before: usize, right: u32 },
}

// The end of a leaf. `None` where its last cell can't be read.
fn leaf_end(view: &PageView<'_>) -> Option<End>
    ensures { EndsLeaf view.now.cells result }
{
    let count = view.count();
    if count == 0 {
        return Some(End::Rows(None));
    }
    let Some(parts) = view.cell(count - 1) else {
        return None;
    };
    Some(End::Rows(Some(parts.key)))
}

// The end of a page. `None` where it is no page of a table or its last cell can't be read.
fn end_of(view: &PageView<'_>) -> Option<End>
    ensures { FindsEnd view.now result }
{
    match view.kind() {
        Kind::TableLeaf => leaf_end(view),
        Kind::TableInterior => Some(End::Children {
            before: view.count(),
            right: view.right(),
        }),
        Kind::IndexLeaf | Kind::IndexInterior => None,
    }
}

// The child of the cell at a place. `None` where there is no such cell or it can't be read.
fn left_in(view: &PageView<'_>, place: usize) -> Option<u32>
    ensures { FindsLeft view.now.cells place result }
{
    if place >= view.count() {
        return None;
    }
    let Some(parts) = view.cell(place) else {
        return None;
    };
    Some(parts.left)
}

// Gets a page, and says what stands at its end.
fn end_at<S: Pages>(space: &mut S, page: u32, buf: &mut [u8]) -> Result<End, TreeFault>
    requires { length buf.old ≡ S.Pages.size space.old }
    ensures given { GivesEnd S.Pages space.old space.new page result }
    ensures only { (n : ℕ) → n ≢ page → S.Pages.seen space.new n ≡ S.Pages.seen space.old n }
    ensures page_out { IfErr result (OnMissing (λ at. at ≡ page)) }
    ensures kept { Reads S.Pages space.old space.new }
    ensures refusal { RefusesTree S.Pages space.old space.new result }
{
    let usable = space.usable() as usize;
    space.get(page, buf)?;
    let Ok(view) = PageView::new(buf, header_of(page), usable) else {
        return Err(TreeFault::Corrupt { page });
    };
    match end_of(&view) {
        Some(end) => Ok(end),
        None => Err(TreeFault::Corrupt { page }),
    }
}

// Gets an interior page, and answers the child of the cell at a place.
fn left_at<S: Pages>(
    space: &mut S,
    page: u32,
    place: usize,
    buf: &mut [u8],
) -> Result<u32, TreeFault>
    requires { length buf.old ≡ S.Pages.size space.old }
    ensures given { GivesLeft S.Pages space.old space.new page place result }
    ensures only { (n : ℕ) → n ≢ page → S.Pages.seen space.new n ≡ S.Pages.seen space.old n }
    ensures page_out { IfErr result (OnMissing (λ at. at ≡ page)) }
    ensures kept { Reads S.Pages space.old space.new }
    ensures refusal { RefusesTree S.Pages space.old space.new result }
{
    let usable = space.usable() as usize;
    space.get(page, buf)?;
    let Ok(view) = PageView::new(buf, header_of(page), usable) else {
        return Err(TreeFault::Corrupt { page });
    };
    match left_in(&view, place) {
        Some(child) => Ok(child),
        None => Err(TreeFault::Corrupt { page }),
    }
}

// The last rowid at most so many levels below a page. Where the right-most child has no row, the page
// is got again for the child before it.
fn last_below<S: Pages>(
    space: &mut S,
    page: u32,
    levels: u32,
    buf: &mut [u8],
) -> Result<Option<i64>, TreeFault>
    requires { length buf.old ≡ S.Pages.size space.old }
    ensures found { LastBelow S.Pages space.old space.new page levels result }
    ensures damage { NamesPage S.Pages space.old space.new page levels result }
    ensures adds { AddsAtEnd S.Pages space.old space.new page levels }
    ensures page_out { MissesAtEnd S.Pages space.old space.new page levels result }
    ensures kept { Reads S.Pages space.old space.new }
    ensures refusal { RefusesTree S.Pages space.old space.new result }
{
    if levels == 0 {
        return Err(TreeFault::Corrupt { page });
    }
    let (mut before, mut child) = match end_at(space, page, buf) {
        Ok(End::Rows(last)) => return Ok(last),
        Ok(End::Children { before, right }) => (before, right),
        Err(fault) => return Err(fault),
    };
    'children: loop {
        match last_below(space, child, levels - 1, buf) {
            Ok(None) => (),
            Ok(Some(rowid)) => return Ok(Some(rowid)),
            Err(fault) => return Err(fault),
        }
        if before == 0 {
            return Ok(None);
        }
        before -= 1;
        child = match left_at(space, page, before, buf) {
            Ok(child) => child,
            Err(fault) => return Err(fault),
        };
    }
}

/// The largest rowid in the table whose tree has the page `root` as its root, or `None` where the
/// table has no rows.
///
/// One page is got a level, and another child only where all to its right have no rows. Corrupt names
/// a page that is no legal page of a table, or that would be the tree's 21st level. Where the tree
/// stands, PageOut names one of its pages. ("B-tree Pages" in SQLite's Database File Format.)
pub fn largest<S: Pages>(alloc: Global, space: &mut S, root: u32) -> Result<Option<i64>, TreeFault>
    requires { S.Pages.refusal space.old ≡ None }
    ensures found { FindsLast S.Pages space.old space.new root result }
    ensures damage { NamesPage S.Pages space.old space.new root 20 result }
    ensures adds { AddsOfLast S.Pages space.old space.new root }
    ensures page_out { MissesInLast S.Pages space.old space.new root result }
    ensures inside { MissesTree S.Pages space.old space.new root result }
    ensures kept { Reads S.Pages space.old space.new }
    ensures refusal { RefusesTree S.Pages space.old space.new result }
{
    let mut buf = vec![in alloc; 0u8; space.page_size() as usize]?;
    last_below(space, root, 20, buf.as_mut_slice())
}
