//! One page on the way to a row.

ghost use Rattle.std.specs.Prelude.{◌≡◌, ◌≢◌, true, false, ◌≤◌, ◌<◌, ◌⊎◌, length, take};
ghost use Rattle.spe_model.specs.Tree.{rank};
ghost use Rattle.spe_model.specs.declared.page.Kind.TheVariants.{TableLeaf, TableInterior};
ghost use Rattle.spe_search.specs.Step.{FindsPlace, FindsRow, FindsChild, Steps, TakesStep};

use spe_format::{PageView, Parts};
use spe_model::{Bytes, Kind};
use std::alloc::{AllocError, Global};

/// A row as far as its leaf has it.
#[derive(Debug, Drop)]
pub struct Found {
    /// The part of the payload that stands in the leaf.
    pub local: Bytes,
    /// How many bytes of the payload stand in overflow pages.
    pub rest: u64,
    /// The first overflow page, or 0.
    pub chain: u32,
}

/// Where a page leads.
#[derive(Debug, Drop)]
pub enum Step {
    /// The page is a leaf without the row.
    Missing,
    /// The page is a leaf with the row.
    Row(Found),
    /// The row belongs under this child.
    Child(u32),
}

/// Why a page leads nowhere.
#[derive(Clone, Copy, Debug, PartialEq, Eq)]
pub enum Flaw {
    /// The page is no legal page of a table.
    Broken,
    /// There was no memory.
    Memory,
}

impl From<AllocError> for Flaw {
    ghost use Rattle.std.specs.Prelude.{◌≡◌};
    ghost use Rattle.spe_search.specs.declared.page.Flaw.TheVariants.{Memory};

    ghost from_gives = { λ _ e. e ≡ Memory };

    fn from(_: AllocError) -> Flaw {
        Flaw::Memory
    }
}

// A rowid as a number from 0 that sorts as it does.
pub fn rank_of(rowid: i64) -> u64
    ensures { result ≡ rank rowid }
{
    rowid.abs_diff(i64::MIN)
}

// The rank of a cell's rowid.
pub fn key_of(parts: &Parts<'_>) -> u64
    ensures { result ≡ rank parts.now.key }
{
    rank_of(parts.key)
}

fn has_rowid(parts: &Parts<'_>, rowid: i64) -> bool
    ensures here { result ≡ true → parts.now.key ≡ rowid }
    ensures other { result ≡ false → parts.now.key ≢ rowid }
{
    parts.key == rowid
}

// The number of cells with a rowid below the one of this rank. `None` where a cell can't be read.
fn place_in(view: &PageView<'_>, key: u64) -> Option<usize>
    ensures { FindsPlace view.now.cells key result }
{
    let mut low = 0;
    let mut high = view.count();
    while low < high {
        let middle = low + (high - low) / 2;
        let Some(parts) = view.cell(middle) else {
            return None;
        };
        if key_of(&parts) < key {
            low = middle + 1;
        } else {
            high = middle;
        }
    }
    Some(low)
}

// The row of a leaf.
fn row_in(alloc: Global, view: &PageView<'_>, rowid: i64) -> Result<Option<Found>, Flaw>
    ensures { FindsRow view.now.cells rowid result }
{
    let Some(place) = place_in(view, rank_of(rowid)) else {
        return Err(Flaw::Broken);
    };
    if place == view.count() {
        return Ok(None);
    }
    let Some(parts) = view.cell(place) else {
        return Err(Flaw::Broken);
    };
    if !has_rowid(&parts, rowid) {
        return Ok(None);
    }
    let local = Vec::from_slice(alloc, parts.local)?;
    Ok(Some(Found {
        local: Bytes::new(local),
        rest: parts.payload.saturating_sub(parts.local.len() as u64),
        chain: parts.chain,
    }))
}

// The child of an interior page under which the rowid of this rank belongs.
fn child_in(view: &PageView<'_>, key: u64) -> Option<u32>
    ensures { FindsChild view.now.cells view.now.right key result }
{
    let Some(place) = place_in(view, key) else {
        return None;
    };
    if place == view.count() {
        return Some(view.right());
    }
    let Some(parts) = view.cell(place) else {
        return None;
    };
    Some(parts.left)
}

fn step_of(alloc: Global, view: &PageView<'_>, rowid: i64) -> Result<Step, Flaw>
    ensures { Steps view.now rowid result }
{
    match view.kind() {
        Kind::TableLeaf => match row_in(alloc, view, rowid) {
            Ok(None) => Ok(Step::Missing),
            Ok(Some(found)) => Ok(Step::Row(found)),
            Err(flaw) => Err(flaw),
        },
        Kind::TableInterior => match child_in(view, rank_of(rowid)) {
            Some(child) => Ok(Step::Child(child)),
            None => Err(Flaw::Broken),
        },
        Kind::IndexLeaf | Kind::IndexInterior => Err(Flaw::Broken),
    }
}

/// Where the page in the first `usable` bytes leads. Its header begins at `at`.
pub fn step_in(
    alloc: Global,
    page: &[u8],
    at: usize,
    usable: usize,
    rowid: i64,
) -> Result<Step, Flaw>
    requires at { (at ≡ 0) ⊎ (at ≡ 100) }
    requires low { 480 ≤ usable }
    requires high { usable ≤ 65536 }
    requires inside { usable ≤ length page.now }
    ensures { TakesStep (take usable page.now) at rowid result }
{
    let Ok(view) = PageView::new(page, at, usable) else {
        return Err(Flaw::Broken);
    };
    step_of(alloc, &view, rowid)
}
