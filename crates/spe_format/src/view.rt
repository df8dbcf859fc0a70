//! A b-tree page that is looked at cell by cell.

ghost use Rattle.std.specs.Prelude.{◌≡◌, ◌≤◌, ◌<◌, ◌⊎◌, None, Ok, IfErr, Err, length, take, slice_index_or};
ghost use Rattle.std.specs.Option.{option_map};
ghost use Rattle.spe_model.specs.Page.{page_at};
ghost use Rattle.spe_model.specs.declared.page.PageCells.{PageCells};
ghost use Rattle.spe_format.specs.View.{cell_from, cell_seen, shown_at, shown_of};

use crate::cell::{Parts, cell_of};
use crate::kind::{array_start_of, kind_named, right_of};
use spe_model::{Kind, PageFault, u16_of};
use std::marker::Model;

/// A b-tree page that lends its cells one by one. Nothing is copied, and no cell is read before it
/// is asked for.
#[derive(Debug, Drop)]
pub struct PageView<'a> {
    page: &'a [u8],
    kind: Kind,
    start: usize,
    count: usize,
    right: u32,
}

impl<'a> Model for PageView<'a> {
    ghost use Rattle.spe_format.specs.View.{Shown, shown_by, IsView};

    ghost Value = { Shown };

    ghost view = { λ v. shown_by v.kind v.page.now v.start v.count v.right };

    ghost invariant = { λ v. IsView v.page.now v.start v.count };
}

// The cell at an offset that is not before `low`.
#[tactic(auto, unfolding(spe_model::specs::Page::placed_at))]
fn parts_from(kind: Kind, page: &[u8], low: usize, offset: usize) -> Option<Parts<'_>>
    requires low { 480 ≤ length page.now }
    requires high { length page.now ≤ 65536 }
    ensures { option_map cell_seen result ≡ cell_from kind page.now low offset }
{
    if offset < low || offset > page.len() {
        return None;
    }
    let (_, tail) = page.split_at(offset);
    let (parts, _) = cell_of(kind, page.len() as u32, tail)?;
    Some(parts)
}

// Looks at a page of usable bytes alone.
#[tactic(auto, unfolding(crate::specs::View::shown_at))]
fn look(page: &[u8], at: usize) -> Result<PageView<'_>, PageFault>
    requires at { (at ≡ 0) ⊎ (at ≡ 100) }
    requires low { 480 ≤ length page.now }
    requires high { length page.now ≤ 65536 }
    ensures { result ≡ shown_at page.now at }
{
    let Some(kind) = kind_named(page[at]) else {
        return Err(PageFault::BadType);
    };
    let start = array_start_of(kind, at);
    let count = usize::from(u16_of(page, at + 3));
    if start + 2 * count > page.len() {
        return Err(PageFault::OffsetOut);
    }
    let right = right_of(kind, page, at);
    Ok(PageView {
        page,
        kind,
        start,
        count,
        right,
    })
}

impl<'a> PageView<'a> {
    /// Looks at the page in the first `usable` bytes, whose header begins at `at`.
    ///
    /// The fault is BadType, or OffsetOut where the array of offsets runs out of the usable bytes.
    pub fn new(page: &'a [u8], at: usize, usable: usize) -> Result<PageView<'a>, PageFault>
        requires at { (at ≡ 0) ⊎ (at ≡ 100) }
        requires low { 480 ≤ usable }
        requires high { usable ≤ 65536 }
        requires inside { usable ≤ length page.now }
        ensures shown { result ≡ shown_at (take usable page.now) at }
        ensures legal { (cells : PageCells) → page_at (take usable page.now) at ≡ Ok cells → result ≡ Ok (shown_of cells) }
        ensures fault { IfErr result (λ f. page_at (take usable page.now) at ≡ Err f) }
    {
        let (page, _) = page.split_at(usable);
        look(page, at)
    }

    /// The kind of the page.
    pub fn kind(&self) -> Kind
        ensures { result ≡ self.now.kind }
    {
        self.kind
    }

    /// The number of cells.
    pub fn count(&self) -> usize
        ensures { result ≡ length self.now.cells }
    {
        self.count
    }

    /// The right-most child, or 0 on a leaf.
    pub fn right(&self) -> u32
        ensures { result ≡ self.now.right }
    {
        self.right
    }

    /// The cell at a place in the order of the array, the first of which is 0.
    ///
    /// `None` where its offset lies before the array's end or the cell runs out of the usable bytes,
    /// which on a legal page is never.
    pub fn cell(&self, index: usize) -> Option<Parts<'a>>
        requires { index < length self.now.cells }
        ensures { option_map cell_seen result ≡ slice_index_or self.now.cells index None }
    {
        let low = self.start + 2 * self.count;
        let offset = u16_of(self.page, self.start + 2 * index);
        parts_from(self.kind, self.page, low, usize::from(offset))
    }
}
