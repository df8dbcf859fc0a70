//! The place of a row on a leaf whose cells stand in the written form.

ghost use Rattle.std.specs.Prelude.{◌≡◌, ◌≤◌, ◌<◌, ◌⊎◌, IfSome, true, length, take};
ghost use Rattle.spe_model.specs.Tree.{rank};
ghost use Rattle.spe_format.specs.Packed.{EndsTrail, IsCellAt, IsNext, IsSlotFor, IsSlotIn, IsWithin};

use crate::spelled::cell_spelled;
use byteorder::{BigEndian, ByteOrder};
use spe_model::u16_of;

/// A place among the cells of a leaf.
#[derive(Clone, Copy, Debug)]
pub struct Slot {
    /// How many cells there are.
    pub count: usize,
    /// Where the last of them begins, or the end of the usable bytes.
    pub low: usize,
    /// How many cells stand before the place.
    pub place: usize,
    /// Where the last of these begins, or the end of the usable bytes.
    pub end: usize,
}

// A rowid as a number from 0 that sorts as it does.
fn rank_of(rowid: i64) -> u64
    ensures { result ≡ rank rowid }
{
    rowid.abs_diff(i64::MIN)
}

// The rank of the key of the cell that lies, in its written form, between two places.
fn rank_between(page: &[u8], begin: usize, end: usize) -> Option<u64>
    requires low { 480 ≤ length page.now }
    requires high { length page.now ≤ 65536 }
    requires within { end ≤ length page.now }
    ensures { IfSome result (IsCellAt page.now begin end) }
{
    if begin > end {
        return None;
    }
    let (_, tail) = page.split_at(begin);
    let (parts, rest) = cell_spelled(page.len() as u32, tail)?;
    if page.len() - rest.len() != end {
        return None;
    }
    Some(rank_of(parts.key))
}

// Whether a key may stand behind those so far, of which there are `count` and of which `last` is the last.
fn may_follow(count: usize, last: u64, next: u64) -> bool
    ensures { result ≡ true → 0 < count → last < next }
{
    count == 0 || last < next
}

// The place of the key of this rank, with one cell more behind those so far.
fn with_next(slot: Slot, begin: usize, last: u64, next: u64, key: u64) -> Option<Slot>
    requires { slot.count ≤ 65536 }
    ensures { IfSome result (IsNext slot begin last next key) }
{
    if !may_follow(slot.count, last, next) {
        return None;
    }
    let count = slot.count + 1;
    if next > key {
        return Some(Slot {
            count,
            low: begin,
            ..slot
        });
    }
    if next == key || slot.place != slot.count {
        return None;
    }
    Some(Slot {
        count,
        low: begin,
        place: count,
        end: begin,
    })
}

// The place of the key of this rank among the cells at the offsets of an array.
fn slot_among(page: &[u8], array: &[u8], key: u64) -> Option<Slot>
    requires low { 480 ≤ length page.now }
    requires high { length page.now ≤ 65536 }
    requires few { length array.now ≤ 65536 }
    ensures { IfSome result (EndsTrail page.now array.now key) }
{
    let mut slot = Slot {
        count: 0,
        low: page.len(),
        place: 0,
        end: page.len(),
    };
    let mut last = 0;
    let mut left = array;
    while let [_, _, rest @ ..] = left {
        let begin = usize::from(BigEndian::read_u16(left));
        let next = rank_between(page, begin, slot.low)?;
        slot = with_next(slot, begin, last, next, key)?;
        last = next;
        left = rest;
    }
    Some(slot)
}

// The same for a page of usable bytes alone.
fn slot_in(page: &[u8], at: usize, key: u64) -> Option<Slot>
    requires at { (at ≡ 0) ⊎ (at ≡ 100) }
    requires low { 480 ≤ length page.now }
    requires high { length page.now ≤ 65536 }
    ensures slot { IfSome result (IsSlotIn page.now at key) }
    ensures within { IfSome result (IsWithin at (length page.now)) }
{
    if page[at] != 13 {
        return None;
    }
    let start = at + 8;
    let stop = start + 2 * usize::from(u16_of(page, at + 3));
    if stop > page.len() {
        return None;
    }
    let slot = slot_among(page, &page[start..stop], key)?;
    if slot.low < stop {
        return None;
    }
    Some(slot)
}

/// The place for a row with this rowid on the leaf in the first `usable` bytes, whose header begins at
/// `at`, if the page is a legal leaf of a table with no such row and its offsets and cells stand in the
/// written form.
///
/// The header beyond the kind and the number of cells, and the bytes between the offsets and the cells,
/// are not looked at. Each cell is looked at once, and no memory is taken.
pub fn slot_for(page: &[u8], at: usize, usable: usize, rowid: i64) -> Option<Slot>
    requires at { (at ≡ 0) ⊎ (at ≡ 100) }
    requires low { 480 ≤ usable }
    requires high { usable ≤ 65536 }
    requires inside { usable ≤ length page.now }
    ensures slot { IfSome result (IsSlotFor page.now at usable (rank rowid)) }
    ensures within { IfSome result (IsWithin at usable) }
{
    let (front, _) = page.split_at(usable);
    slot_in(front, at, rank_of(rowid))
}
