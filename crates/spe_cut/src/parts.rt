//! The cells of a page, cut over several pages.

ghost use Rattle.std.specs.Prelude.{◌≡◌, ◌+◌, ◌*◌, ◌/◌, ◌^◌, ◌<◌, ◌≤◌, ◌⊎◌, ◌∷◌, ◌++◌, [], ℕ, false, length, take, drop, IfOk, OnOk, IfSome, IfNone, SomeIff};
ghost use Rattle.spe_format.specs.Canonical.{IsWritable};
ghost use Rattle.spe_cut.specs.Parts.{AreLeaves, IsHalved, RunIsWritable, RunTakesRoom, SeparatorIsWritable, leaf_cells, need, room, run_cells, without};
ghost use Rattle.spe_cut.specs.Place.{IsCutAt, IsParted, count_within, part_of, parts_at};

use spe_format::cell_length;
use spe_model::{Cell, Cells, Kind};
use std::alloc::{AllocError, Global};
use std::marker::Model;

/// The cells of a leaf in parts, seen as a list of lists of cells.
#[derive(Debug, Drop)]
pub struct CellParts {
    inner: Vec<Cells>,
}

impl Model for CellParts {
    ghost use Rattle.std.specs.Prelude.{List};
    ghost use Rattle.spe_model.specs.declared.page.Cell.{Cell};

    ghost Value = { List (List Cell) };

    ghost view = { λ t. t.inner.items };
}

impl CellParts {
    /// The parts as a slice.
    pub fn as_slice(&self) -> &[Cells]
        ensures { result.now ≡ self.now }
    {
        self.inner.as_slice()
    }

    /// The parts as a vector.
    pub fn into_vec(self) -> Vec<Cells>
        ensures { result.items ≡ self }
    {
        let CellParts { inner } = self;
        inner
    }
}

/// The cells of an interior page in two halves.
#[derive(Debug, Drop)]
pub struct Halves {
    pub low: Cells,
    /// The last child of the first half.
    pub low_right: u32,
    /// The key that parts the halves: no rowid of the first is above it, and each of the second is.
    pub key: i64,
    pub high: Cells,
    pub high_right: u32,
}

/// How many bytes a page has for cells and their offsets of two bytes each. Its header begins at
/// `at`: at 100 on page 1, else at 0.
pub fn room_of(kind: Kind, at: usize, usable: u32) -> usize
    requires at { (at ≡ 0) ⊎ (at ≡ 100) }
    requires low { 480 ≤ usable }
    ensures { result ≡ room kind at usable }
{
    let header = match kind {
        Kind::TableLeaf | Kind::IndexLeaf => 8,
        Kind::TableInterior | Kind::IndexInterior => 12,
    };
    usable as usize - (at + header)
}

// How many bytes cells take with their offsets.
fn need_of(kind: Kind, cells: &[Cell]) -> usize
    requires { need kind cells.now < 2 ^ 32 }
    ensures { result ≡ need kind cells.now }
{
    let mut sum = 0;
    let mut left = cells;
    while let [cell, rest @ ..] = left {
        sum += cell_length(kind, cell) + 2;
        left = rest;
    }
    sum
}

// How many cells from the front take no more than `most` bytes, and how many bytes they take.
fn front_within(kind: Kind, cells: &[Cell], most: usize) -> (usize, usize)
    requires { need kind cells.now < 2 ^ 32 }
    ensures count { result.0 ≡ count_within kind most cells.now }
    ensures taken { result.1 ≡ need kind (take result.0 cells.now) }
{
    let mut count = 0;
    let mut taken = 0;
    let mut left = cells;
    while let [cell, rest @ ..] = left {
        let size = cell_length(kind, cell) + 2;
        if size > most - taken {
            break;
        }
        count += 1;
        taken += size;
        left = rest;
    }
    (count, taken)
}

// Where a cut leaves two parts that are as long as each other as can be, or None where the longer of
// them takes more than `most` bytes. All of the cells take `total`, which is more.
fn middle_of(cells: &[Cell], total: usize, most: usize) -> Option<usize>
    requires total { total ≡ need Kind.TableLeaf cells.now }
    requires over { most < total }
    requires few { total < 2 ^ 32 }
    ensures fits { IfSome result (IsCutAt most cells.now) }
    ensures none { IfNone result ((at : ℕ) → ¬ IsCutAt most cells.now at) }
{
    let (count, taken) = front_within(Kind::TableLeaf, cells, total / 2);
    let longer = taken + 2 + cell_length(Kind::TableLeaf, &cells[count]);
    let shorter = total - taken;
    if longer < shorter {
        return where_fits(count + 1, longer, most);
    }
    where_fits(count, shorter, most)
}

fn where_fits(at: usize, length: usize, most: usize) -> Option<usize>
    ensures { SomeIff result (length ≤ most) at }
{
    if length <= most { Some(at) } else { None }
}

fn cut_place(cells: &[Cell], total: usize, most: usize, at_end: bool) -> Option<usize>
    requires total { total ≡ need Kind.TableLeaf cells.now }
    requires over { most < total }
    requires few { total < 2 ^ 32 }
    ensures fits { IfSome result (IsCutAt most cells.now) }
    ensures none { at_end ≡ false → IfNone result ((at : ℕ) → ¬ IsCutAt most cells.now at) }
{
    if at_end {
        return None;
    }
    middle_of(cells, total, most)
}

fn one_part(alloc: Global, cells: Cells) -> Result<CellParts, AllocError>
    ensures { IfOk result (λ parts. parts ≡ cells ∷ []) }
{
    let mut parts = Vec::new(alloc);
    parts.push(cells)?;
    Ok(CellParts { inner: parts })
}

fn two_parts(alloc: Global, cells: Vec<Cell>, at: usize) -> Result<CellParts, AllocError>
    requires { at ≤ length cells.items }
    ensures { IfOk result (λ parts. parts ≡ take at cells.items ∷ drop at cells.items ∷ []) }
{
    let mut low = cells;
    let high = low.split_off(at)?;
    let mut parts = Vec::new(alloc);
    parts.push(Cells::new(low))?;
    parts.push(Cells::new(high))?;
    Ok(CellParts { inner: parts })
}

// One part more, where there is a cell.
fn push_some(parts: &mut Vec<Cells>, cells: Vec<Cell>) -> Result<(), AllocError>
    ensures { OnOk result (parts.new.items ≡ parts.old.items ++ part_of cells.items) }
{
    if !cells.is_empty() {
        parts.push(Cells::new(cells))?;
    }
    Ok(())
}

// The cells before a place, that at it, and those behind it, as far as there are any.
fn parts_around(alloc: Global, cells: Vec<Cell>, place: usize) -> Result<CellParts, AllocError>
    requires { place < length cells.items }
    ensures { IfOk result (λ parts. parts ≡ parts_at place cells.items) }
{
    let mut before = cells;
    let after = before.split_off(place + 1)?;
    let one = before.split_off(place)?;
    let mut parts = Vec::new(alloc);
    push_some(&mut parts, before)?;
    push_some(&mut parts, one)?;
    push_some(&mut parts, after)?;
    Ok(CellParts { inner: parts })
}

// How many bytes the first half of interior cells takes at most.
fn first_share(total: usize, usable: u32, at_end: bool) -> usize
    requires { 480 ≤ usable }
    ensures { (result ≡ room Kind.TableInterior 0 usable) ⊎ (result ≡ total / 2) }
{
    if at_end {
        return room_of(Kind::TableInterior, 0, usable);
    }
    total / 2
}

// The halves that a cell parts.
fn halves_of(low: Vec<Cell>, middle: Cell, high: Vec<Cell>, right: u32) -> Halves
    ensures low { result.low ≡ low.items }
    ensures high { result.high ≡ high.items }
    ensures child { result.low_right ≡ middle.left }
    ensures key { result.key ≡ middle.key }
    ensures last { result.high_right ≡ right }
{
    Halves {
        low: Cells::new(low),
        low_right: middle.left,
        key: middle.key,
        high: Cells::new(high),
        high_right: right,
    }
}

// The cells before a place and those behind it, the one at it between them.
fn halves_at(cells: Vec<Cell>, at: usize, right: u32) -> Result<Halves, AllocError>
    requires { at < length cells.items }
    ensures { IfOk result (λ halves. IsParted cells.items at right halves) }
{
    let mut low = cells;
    let high = low.split_off(at + 1)?;
    match low.pop() {
        Some(middle) => Ok(halves_of(low, middle, high, right)),
        None => unreachable!(),
    }
}

/// A run in a child's place takes little room, and can be written.
pub fn room_law()
    ensures few { RunTakesRoom }
    ensures writable { RunIsWritable }
    ensures separator { SeparatorIsWritable }
{}

/// The cells of a leaf, one of which is new, in one part where all fit a page that is not page 1,
/// else in two where two such pages can hold them, else in three.
///
/// `place` is that of the new cell, and `usable` the number of usable bytes of a page. With `at_end`
/// the cells before the new one stay together, so that rows which come in ascending order fill their
/// pages; else two parts take about as many bytes each.
pub fn leaf_parts(
    alloc: Global,
    cells: Cells,
    place: usize,
    usable: u32,
    at_end: bool,
) -> Result<CellParts, AllocError>
    requires low { 480 ≤ usable }
    requires high { usable ≤ 65536 }
    requires place { place < length cells }
    requires writable { IsWritable (leaf_cells cells) usable }
    requires fits { need Kind.TableLeaf (without place cells) ≤ room Kind.TableLeaf 0 usable }
    ensures parts { IfOk result (AreLeaves usable cells) }
    ensures three { IfOk result (λ parts. at_end ≡ false → length parts ≡ 3 → (at : ℕ) → ¬ IsCutAt (room Kind.TableLeaf 0 usable) cells at) }
    ensures whole { IfOk result (λ parts. need Kind.TableLeaf cells ≤ room Kind.TableLeaf 0 usable → parts ≡ cells ∷ []) }
{
    let list = cells.as_slice();
    let most = room_of(Kind::TableLeaf, 0, usable);
    let total = need_of(Kind::TableLeaf, list);
    if total <= most {
        return one_part(alloc, cells);
    }
    match cut_place(list, total, most, at_end) {
        Some(at) => two_parts(alloc, cells.into_vec(), at),
        None => parts_around(alloc, cells.into_vec(), place),
    }
}

/// The cells of an interior page that overflow it, in two halves.
///
/// They are at most two cells more than fit a page, and more than fit page 1. `right` is the last
/// child, and `usable` the number of usable bytes of a page. With `at_end` the first half takes as many
/// as fit, so that rows which come in ascending order fill their pages; else the halves take about as
/// many bytes each.
pub fn interior_parts(
    alloc: Global,
    cells: Cells,
    right: u32,
    usable: u32,
    at_end: bool,
) -> Result<Halves, AllocError>
    requires low { 480 ≤ usable }
    requires high { usable ≤ 65536 }
    requires writable { IsWritable (run_cells (record { cells = cells; right = right })) usable }
    requires over { room Kind.TableInterior 100 usable < need Kind.TableInterior cells }
    requires few { need Kind.TableInterior cells ≤ room Kind.TableInterior 0 usable + 30 }
    ensures halves { IfOk result (λ halves. IsHalved usable (record { cells = cells; right = right })
        (record { cells = halves.low; right = halves.low_right }) halves.key (record { cells = halves.high; right = halves.high_right })) }
    ensures many { 8 ≤ length cells }
{
    let list = cells.as_slice();
    let total = need_of(Kind::TableInterior, list);
    let (count, _) = front_within(
        Kind::TableInterior,
        list,
        first_share(total, usable, at_end),
    );
    let at = count.min(list.len() - 2);
    halves_at(cells.into_vec(), at, right)
}
