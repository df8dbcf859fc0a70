//! A cell that is put into a leaf whose cells stand in the written form.

ghost use Rattle.std.specs.Prelude.{◌≡◌, ◌≤◌, ℕ, ◌+◌, ◌-◌, ◌*◌, ◌∷◌, ◌++◌, List, IsTrue, Ok, length, take, slice_range};
ghost use Rattle.spe_model.specs.declared.page.Cell.{Cell as AnyCell};
ghost use Rattle.spe_model.specs.declared.page.Kind.TheVariants.{TableLeaf};
ghost use Rattle.spe_model.specs.Page.{page_at};
ghost use Rattle.spe_format.specs.Canonical.{IsWritable, canonical, cell_bytes, fits, page_written, splice};
ghost use Rattle.spe_format.specs.Packed.{IsSlot, IsWithin, leaf_page, leaf_header, moved_offsets};

use crate::canonical::{cell_length, put_cell, see_range};
use crate::slot::Slot;
use crate::splice::{put_bytes, put_u16, put_zeros};
use spe_model::{Cell, Kind, u16_of};

// Copies the bytes between two places to another place.
fn move_bytes(page: &mut [u8], from: usize, to: usize, at: usize)
    requires order { from ≤ to }
    requires within { to ≤ length page.old }
    requires room { at + (to - from) ≤ length page.old }
    ensures { page.new ≡ splice at (slice_range page.old from to) page.old }
{
    page.copy_within(from..to, at);
}

// Moves offsets by one place, each for a cell that lies so many bytes lower.
fn move_offsets(page: &mut [u8], from: usize, count: usize, by: usize)
    requires { from + 2 * count + 2 ≤ length page.old }
    ensures { page.new ≡ splice (from + 2) (moved_offsets by (slice_range page.old from (from + 2 * count))) page.old }
{
    let mut left = count;
    while left > 0 {
        left -= 1;
        let at = from + 2 * left;
        let offset = usize::from(u16_of(page, at)).saturating_sub(by);
        put_u16(page, at + 2, offset);
    }
}

// The header of a leaf of so many cells, the lowest of which begins at `low`.
fn put_leaf_header(page: &mut [u8], at: usize, count: usize, low: usize)
    requires { at + 8 ≤ length page.old }
    ensures { page.new ≡ splice at (leaf_header count low) page.old }
{
    put_bytes(page, at, &[13, 0, 0]);
    put_u16(page, at + 3, count);
    put_u16(page, at + 5, low);
    put_bytes(page, at + 7, &[0]);
}

// Puts a cell that takes `size` bytes, where there is room for it.
fn put_at(page: &mut [u8], at: usize, slot: Slot, cell: &Cell, size: usize)
    requires size { size ≡ length (cell_bytes TableLeaf cell.now) }
    requires within { IsWithin at (length page.old) slot }
    requires room { at + 8 + 2 * slot.count + 2 + size ≤ slot.low }
    ensures { (usable : ℕ) (before after : List AnyCell) → usable ≤ 65536 → IsSlot page.old at usable slot before after
        → page.new ≡ splice at (canonical (leaf_page (before ++ (cell.now ∷ after))) at usable) page.old }
{
    let from = at + 8 + 2 * slot.place;
    let stop = at + 8 + 2 * slot.count;
    move_offsets(page, from, slot.count - slot.place, size);
    put_u16(page, from, slot.end - size);
    move_bytes(page, slot.low, slot.end, slot.low - size);
    put_cell(page, slot.end - size, Kind::TableLeaf, cell);
    put_zeros(page, stop + 2, slot.low - size);
    put_leaf_header(page, at, slot.count + 1, slot.low - size);
}

/// Puts a cell in its place into the leaf in the first `usable` bytes, of which there are 480 to 65536.
/// Its header begins at `at`. The page is then as `put_page` writes it with these cells.
///
/// The answer is false, and nothing is changed, exactly where that is more than there is room for. Each
/// byte is moved once at most, and no memory is taken.
pub fn put_in_slot(page: &mut [u8], at: usize, usable: usize, slot: Slot, cell: &Cell) -> bool
    requires high { usable ≤ 65536 }
    requires inside { usable ≤ length page.old }
    requires within { IsWithin at usable slot }
    ensures fits { (before after : List AnyCell) → IsSlot page.old at usable slot before after
        → result ≡ fits (leaf_page (before ++ (cell.now ∷ after))) at usable }
    ensures bytes { (before after : List AnyCell) → IsSlot page.old at usable slot before after
        → page.new ≡ page_written (leaf_page (before ++ (cell.now ∷ after))) at usable page.old }
    ensures reads_back { (before after : List AnyCell) → IsSlot page.old at usable slot before after
        → IsWritable (leaf_page (before ++ (cell.now ∷ after))) usable → IsTrue result
        → page_at (take usable page.new) at ≡ Ok (leaf_page (before ++ (cell.now ∷ after))) }
{
    see_range(cell);
    let size = cell_length(Kind::TableLeaf, cell);
    let room = slot.low - (at + 8 + 2 * slot.count);
    let Some(most) = room.checked_sub(2) else {
        return false;
    };
    if size > most {
        return false;
    }
    put_at(page, at, slot, cell, size);
    true
}
