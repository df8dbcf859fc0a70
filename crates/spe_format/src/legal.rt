//! Legal b-tree pages that are looked at cell by cell.

ghost use Rattle.std.specs.Prelude.{◌≡◌, ◌≤◌, ◌<◌, ◌⊎◌, ◌+◌, ◌^◌, IfOk, IfSome, IsTrue, Some, drop, length, slice_get, take};
ghost use Rattle.std.specs.List.{list_all};
ghost use Rattle.std.specs.Option.{option_map};
ghost use Rattle.spe_model.specs.Page.{is_within, numbers, page_at, placed_all};
ghost use Rattle.spe_format.specs.Answers.{GivesPage};
ghost use Rattle.spe_format.specs.Layout.{layout_of};
ghost use Rattle.spe_format.specs.Legal.{Leads, legality_of, sorted_of};
ghost use Rattle.spe_format.specs.Order.{order_of};
ghost use Rattle.spe_format.specs.View.{cell_seen};

use crate::cell::Parts;
use crate::kind::{array_start_of, is_table, kind_named};
use crate::layout::check_layout;
use crate::order::{Order, order_of};
use crate::view::PageView;
use byteorder::{BigEndian, ByteOrder};
use spe_model::{Bytes, Cell, Cells, Kind, PageCells, PageFault, u16_of};
use std::alloc::{AllocError, Global};
use std::marker::Model;

// The big-endian numbers of two bytes each.
fn numbers_of(alloc: Global, bytes: &[u8]) -> Result<Vec<usize>, AllocError>
    ensures { IfOk result (λ v. v.items ≡ numbers bytes.now) }
{
    let mut found = Vec::new(alloc);
    let mut left = bytes;
    while let [_, _, rest @ ..] = left {
        found.push(usize::from(BigEndian::read_u16(left)))?;
        left = rest;
    }
    Ok(found)
}

// Each of the big-endian numbers of two bytes each lies between two numbers.
fn are_within(bytes: &[u8], low: usize, high: usize) -> bool
    ensures { result ≡ list_all (is_within low high) (numbers bytes.now) }
{
    let mut left = bytes;
    while let [_, _, rest @ ..] = left {
        let offset = usize::from(BigEndian::read_u16(left));
        if offset < low || offset > high {
            return false;
        }
        left = rest;
    }
    true
}

// No two cells share a byte: the bytes are marked only where the cells lie in no order.
fn check_overlap(
    alloc: Global,
    order: Order,
    kind: Kind,
    page: &[u8],
    array: &[u8],
) -> Result<(), PageFault>
    requires low { 480 ≤ length page.now }
    requires high { length page.now ≤ 65536 }
    requires within { IsTrue (list_all (is_within 0 (length page.now)) (numbers array.now)) }
    requires order { Some order ≡ option_map order_of (placed_all kind (length page.now) page.now (numbers array.now)) }
    ensures { GivesPage result (layout_of (placed_all kind (length page.now) page.now (numbers array.now))) }
{
    if order.falls {
        return Ok(());
    }
    let offsets = numbers_of(alloc, array)?;
    check_layout(alloc, kind, page, offsets.as_slice())
}

// The cells at the offsets of an array are there, no two share a byte, and a table's keys rise.
fn check_cells(alloc: Global, kind: Kind, page: &[u8], array: &[u8]) -> Result<(), PageFault>
    requires low { 480 ≤ length page.now }
    requires high { length page.now ≤ 65536 }
    requires within { IsTrue (list_all (is_within 0 (length page.now)) (numbers array.now)) }
    ensures { GivesPage result (sorted_of kind (placed_all kind (length page.now) page.now (numbers array.now))) }
{
    let Some(order) = order_of(kind, page, array) else {
        return Err(PageFault::CellOut);
    };
    check_overlap(alloc, order, kind, page, array)?;
    if is_table(kind) && !order.rises {
        return Err(PageFault::OutOfOrder);
    }
    Ok(())
}

// A page of usable bytes alone is legal.
#[tactic(auto, unfolding(spe_model::specs::Page::page_at))]
fn check_page(alloc: Global, page: &[u8], at: usize) -> Result<(), PageFault>
    requires at { (at ≡ 0) ⊎ (at ≡ 100) }
    requires low { 480 ≤ length page.now }
    requires high { length page.now ≤ 65536 }
    ensures { GivesPage result (legality_of (page_at page.now at)) }
{
    let Some(kind) = kind_named(page[at]) else {
        return Err(PageFault::BadType);
    };
    let start = array_start_of(kind, at);
    let end = start + 2 * usize::from(u16_of(page, at + 3));
    if end > page.len() {
        return Err(PageFault::OffsetOut);
    }
    let array = &page[start..end];
    if !are_within(array, end, page.len()) {
        return Err(PageFault::OffsetOut);
    }
    check_cells(alloc, kind, page, array)
}

// A cell with a copy of its local payload.
fn cell_copied(alloc: Global, parts: &Parts<'_>) -> Result<Cell, AllocError>
    ensures { IfOk result (λ cell. cell ≡ cell_seen parts.now) }
{
    Ok(Cell {
        left: parts.left,
        key: parts.key,
        payload: parts.payload,
        local: Bytes::new(Vec::from_slice(alloc, parts.local)?),
        chain: parts.chain,
    })
}

/// A legal b-tree page that lends its cells one by one. No cell is copied.
#[derive(Debug, Drop)]
pub struct LegalPage<'a> {
    view: PageView<'a>,
}

impl<'a> Model for LegalPage<'a> {
    ghost use Rattle.spe_model.specs.declared.page.PageCells.{PageCells};
    ghost use Rattle.spe_format.specs.Legal.{IsLegal, cells_of};

    ghost Value = { PageCells };

    ghost view = { λ v. cells_of v.view };

    ghost invariant = { λ v. IsLegal v.view };
}

impl<'a> LegalPage<'a> {
    /// Looks at the page in the first `usable` bytes, of which there are 480 to 65536. Its header
    /// begins at `at`: at 100 on page 1, else at 0.
    ///
    /// The fault is the lowest that holds. The freeblocks, the count of fragments and the start of
    /// the content are not looked at, so any legal layout is read. Memory is taken only where the
    /// cells don't end each at or before the begin of those before it in the array. (SQLite's
    /// Database File Format, "B-tree Pages".)
    pub fn new(
        alloc: Global,
        page: &'a [u8],
        at: usize,
        usable: usize,
    ) -> Result<LegalPage<'a>, PageFault>
        requires at { (at ≡ 0) ⊎ (at ≡ 100) }
        requires low { 480 ≤ usable }
        requires high { usable ≤ 65536 }
        requires inside { usable ≤ length page.now }
        ensures { GivesPage result (page_at (take usable page.now) at) }
    {
        let (front, _) = page.split_at(usable);
        check_page(alloc, front, at)?;
        match PageView::new(page, at, usable) {
            Ok(view) => Ok(LegalPage { view }),
            Err(fault) => Err(fault),
        }
    }

    /// The kind of the page.
    pub fn kind(&self) -> Kind
        ensures { result ≡ self.now.kind }
    {
        self.view.kind()
    }

    /// The number of cells.
    pub fn count(&self) -> usize
        ensures { result ≡ length self.now.cells }
    {
        self.view.count()
    }

    /// The right-most child, or 0 on a leaf.
    pub fn right(&self) -> u32
        ensures { result ≡ self.now.right }
    {
        self.view.right()
    }

    /// The cell at a place in the order of the array, the first of which is 0, or `None` behind the
    /// last one.
    pub fn cell(&self, index: usize) -> Option<Parts<'a>>
        ensures cell { option_map cell_seen result ≡ slice_get self.now.cells index }
        ensures front { Leads result (drop index self.now.cells) (drop (index + 1) self.now.cells) }
        ensures next { IfSome result (λ _. index + 1 < 2 ^ 64) }
    {
        if index < self.view.count() {
            self.view.cell(index)
        } else {
            None
        }
    }

    /// The page with copies of its cells.
    pub fn copied(&self, alloc: Global) -> Result<PageCells, AllocError>
        ensures { IfOk result (λ page. page ≡ self.now) }
    {
        let mut cells = Vec::new(alloc);
        let mut index = 0;
        while let Some(parts) = self.cell(index) {
            cells.push(cell_copied(alloc, &parts)?)?;
            index += 1;
        }
        Ok(PageCells {
            kind: self.kind(),
            cells: Cells::new(cells),
            right: self.right(),
        })
    }
}
