//! The one form in which b-tree pages are written.

ghost use Rattle.std.specs.Prelude.{◌≡◌, ◌+◌, ◌-◌, ◌*◌, ◌^◌, ◌<◌, ◌≤◌, ◌⊎◌, length, take, Ok, IfSome, IsTrue, SomeIff};
ghost use Rattle.spe_model.specs.Page.{array_start, page_at};
ghost use Rattle.spe_format.specs.Canonical.{splice, type_byte, left_bytes, payload_bytes, key_bytes, chain_bytes, right_bytes, cell_bytes, cells_length, body_bytes, header_bytes, fits, page_written, IsWritable, IsInRange, AreInRange};

use crate::kind::{array_start_of, has_payload, is_leaf, is_table};
use crate::splice::{put_bytes, put_number, put_u16, put_u32, put_zeros};
use crate::varint::varint_length;
use spe_model::{Cell, Kind, PageCells};

fn type_byte_of(kind: Kind) -> u8
    ensures { result ≡ type_byte kind }
{
    match kind {
        Kind::TableLeaf => 13,
        Kind::TableInterior => 5,
        Kind::IndexLeaf => 10,
        Kind::IndexInterior => 2,
    }
}

// Each of these writes one part of a cell, and answers how many bytes that takes.

#[tactic(auto, unfolding(crate::specs::Canonical::left_bytes))]
fn put_left(page: &mut [u8], at: usize, kind: Kind, cell: &Cell) -> usize
    requires { at + length (left_bytes kind cell.now) ≤ length page.old }
    ensures bytes { page.new ≡ splice at (left_bytes kind cell.now) page.old }
    ensures len { result ≡ length (left_bytes kind cell.now) }
{
    if is_leaf(kind) {
        return 0;
    }
    put_u32(page, at, cell.left);
    4
}

#[tactic(auto, unfolding(crate::specs::Canonical::payload_bytes))]
fn put_payload(page: &mut [u8], at: usize, kind: Kind, cell: &Cell) -> usize
    requires { at + length (payload_bytes kind cell.now) ≤ length page.old }
    ensures bytes { page.new ≡ splice at (payload_bytes kind cell.now) page.old }
    ensures len { result ≡ length (payload_bytes kind cell.now) }
{
    if !has_payload(kind) {
        return 0;
    }
    put_number(page, at, cell.payload)
}

#[tactic(auto, unfolding(crate::specs::Canonical::key_bytes))]
fn put_key(page: &mut [u8], at: usize, kind: Kind, cell: &Cell) -> usize
    requires { at + length (key_bytes kind cell.now) ≤ length page.old }
    ensures bytes { page.new ≡ splice at (key_bytes kind cell.now) page.old }
    ensures len { result ≡ length (key_bytes kind cell.now) }
{
    if !is_table(kind) {
        return 0;
    }
    put_number(page, at, cell.key.cast_unsigned())
}

#[tactic(auto, unfolding(crate::specs::Canonical::chain_bytes))]
fn put_chain(page: &mut [u8], at: usize, cell: &Cell)
    requires { at + length (chain_bytes cell.now) ≤ length page.old }
    ensures { page.new ≡ splice at (chain_bytes cell.now) page.old }
{
    if cell.local.as_slice().len() as u64 != cell.payload {
        put_u32(page, at, cell.chain);
    }
}

pub(crate) fn put_cell(page: &mut [u8], at: usize, kind: Kind, cell: &Cell)
    requires { at + length (cell_bytes kind cell.now) ≤ length page.old }
    ensures { page.new ≡ splice at (cell_bytes kind cell.now) page.old }
{
    let payload_at = at + put_left(page, at, kind, cell);
    let key_at = payload_at + put_payload(page, payload_at, kind, cell);
    let local_at = key_at + put_key(page, key_at, kind, cell);
    let local = cell.local.as_slice();
    put_bytes(page, local_at, local);
    put_chain(page, local_at + local.len(), cell);
}

// How many bytes each part of a cell takes.

#[tactic(auto, unfolding(crate::specs::Canonical::left_bytes))]
fn left_length(kind: Kind, cell: &Cell) -> usize
    ensures value { result ≡ length (left_bytes kind cell.now) }
    ensures within { result ≤ 4 }
{
    if is_leaf(kind) { 0 } else { 4 }
}

#[tactic(auto, unfolding(crate::specs::Canonical::payload_bytes))]
fn payload_length(kind: Kind, cell: &Cell) -> usize
    ensures value { result ≡ length (payload_bytes kind cell.now) }
    ensures within { result ≤ 9 }
{
    if has_payload(kind) {
        varint_length(cell.payload)
    } else {
        0
    }
}

#[tactic(auto, unfolding(crate::specs::Canonical::key_bytes))]
fn key_length(kind: Kind, cell: &Cell) -> usize
    ensures value { result ≡ length (key_bytes kind cell.now) }
    ensures within { result ≤ 9 }
{
    if is_table(kind) {
        varint_length(cell.key.cast_unsigned())
    } else {
        0
    }
}

#[tactic(auto, unfolding(crate::specs::Canonical::chain_bytes))]
fn chain_length(cell: &Cell) -> usize
    ensures value { result ≡ length (chain_bytes cell.now) }
    ensures within { result ≤ 4 }
{
    if cell.local.as_slice().len() as u64 == cell.payload {
        0
    } else {
        4
    }
}

/// How many bytes a cell takes on a page of this kind, its offset apart.
pub fn cell_length(kind: Kind, cell: &Cell) -> usize
    ensures { result ≡ length (cell_bytes kind cell.now) }
{
    left_length(kind, cell)
        + payload_length(kind, cell)
        + key_length(kind, cell)
        + cell.local.as_slice().len()
        + chain_length(cell)
}

// What the types of a cell's fields say of it.
pub(crate) fn see_range(cell: &Cell)
    ensures { IsInRange cell.now }
{
    let _left = cell.left;
    let _key = cell.key;
    let _payload = cell.payload;
    let _chain = cell.chain;
}

// How many bytes cells take, without their offsets, or None where with them that is more than there
// are.
fn length_within(kind: Kind, cells: &[Cell], most: usize) -> Option<usize>
    ensures length { SomeIff result (2 * length cells.now + cells_length kind cells.now ≤ most) (cells_length kind cells.now) }
    ensures ranges { IfSome result (λ _. AreInRange cells.now) }
{
    let mut sum = 0;
    let mut room = most;
    let mut left = cells;
    while let [cell, rest @ ..] = left {
        see_range(cell);
        let length = cell_length(kind, cell);
        if room < 2 || length > room - 2 {
            return None;
        }
        sum += length;
        room -= length + 2;
        left = rest;
    }
    Some(sum)
}

#[tactic(auto, unfolding(crate::specs::Canonical::right_bytes))]
fn put_right(page: &mut [u8], at: usize, kind: Kind, right: u32)
    requires { at + length (right_bytes kind right) ≤ length page.old }
    ensures { page.new ≡ splice at (right_bytes kind right) page.old }
{
    if !is_leaf(kind) {
        put_u32(page, at, right);
    }
}

// The header, where the cells take `taken` bytes.
fn put_header(page: &mut [u8], at: usize, usable: usize, cells: &PageCells, taken: usize)
    requires taken { taken ≡ cells_length cells.now.kind cells.now.cells }
    requires within { taken ≤ usable }
    requires room { array_start cells.now.kind at ≤ length page.old }
    ensures bytes { page.new ≡ splice at (header_bytes cells.now usable) page.old }
    ensures range { cells.now.right < 2 ^ 32 }
{
    put_bytes(page, at, &[type_byte_of(cells.kind), 0, 0]);
    put_u16(page, at + 3, cells.cells.as_slice().len());
    put_u16(page, at + 5, usable - taken);
    put_bytes(page, at + 7, &[0]);
    put_right(page, at + 8, cells.kind, cells.right);
}

// The offsets, the unused bytes and the cells, from `start` up to `end`.
fn put_body(page: &mut [u8], start: usize, end: usize, kind: Kind, cells: &[Cell])
    requires fits { start + (2 * length cells.now + cells_length kind cells.now) ≤ end }
    requires inside { end ≤ length page.old }
    ensures { page.new ≡ splice start (body_bytes kind end (end - (start + (2 * length cells.now + cells_length kind cells.now))) cells.now) page.old }
{
    let mut slot = start;
    let mut low = end;
    let mut left = cells;
    while let [cell, rest @ ..] = left {
        low -= cell_length(kind, cell);
        put_cell(page, low, kind, cell);
        put_u16(page, slot, low);
        slot += 2;
        left = rest;
    }
    put_zeros(page, slot, low);
}

/// Writes a b-tree page in its one written form, in place, into the first `usable` bytes, of which
/// there are 480 to 65536. Its header begins at `at`: at 100 on page 1, else at 0. The bytes before
/// that and those behind the usable ones stay.
///
/// The answer is false, and nothing is changed, exactly where the cells and their offsets take more
/// bytes than there are. The cells are gone over twice, and each byte is written once.
pub fn put_page(cells: &PageCells, page: &mut [u8], at: usize, usable: usize) -> bool
    requires at { (at ≡ 0) ⊎ (at ≡ 100) }
    requires low { 480 ≤ usable }
    requires high { usable ≤ 65536 }
    requires inside { usable ≤ length page.old }
    requires cells { IsWritable cells.now usable }
    ensures fits { result ≡ fits cells.now at usable }
    ensures bytes { page.new ≡ page_written cells.now at usable page.old }
    ensures reads_back { IsTrue result → page_at (take usable page.new) at ≡ Ok cells.now }
{
    let list = cells.cells.as_slice();
    let start = array_start_of(cells.kind, at);
    let Some(taken) = length_within(cells.kind, list, usable - start) else {
        return false;
    };
    put_header(page, at, usable, cells, taken);
    put_body(page, start, usable, cells.kind, list);
    true
}
