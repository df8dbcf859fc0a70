//! What the kind of a b-tree page decides.

ghost use Rattle.std.specs.Prelude.{◌≡◌, ◌≤◌, ◌+◌, length, IsTrue};
ghost use Rattle.spe_model.specs.Page.{array_start, right_at};
ghost use Rattle.spe_model.specs.Kind.{kind_of, is_leaf, is_table, has_payload, local_of};

use spe_model::{Kind, u32_of};

#[tactic(auto, unfolding(spe_model::specs::Kind::kind_of))]
pub fn kind_named(byte: u8) -> Option<Kind>
    ensures { result ≡ kind_of byte }
{
    match byte {
        13 => Some(Kind::TableLeaf),
        5 => Some(Kind::TableInterior),
        10 => Some(Kind::IndexLeaf),
        2 => Some(Kind::IndexInterior),
        _ => None,
    }
}

pub fn is_leaf(kind: Kind) -> bool
    ensures { result ≡ is_leaf kind }
{
    matches!(kind, Kind::TableLeaf | Kind::IndexLeaf)
}

pub fn is_table(kind: Kind) -> bool
    ensures { result ≡ is_table kind }
{
    matches!(kind, Kind::TableLeaf | Kind::TableInterior)
}

pub fn has_payload(kind: Kind) -> bool
    ensures { result ≡ has_payload kind }
{
    !matches!(kind, Kind::TableInterior)
}

// Where the array of cell offsets starts.
pub fn array_start_of(kind: Kind, at: usize) -> usize
    requires { at ≤ 100 }
    ensures { result ≡ array_start kind at }
{
    if is_leaf(kind) { at + 8 } else { at + 12 }
}

// The right-most child, or 0 on a leaf.
pub fn right_of(kind: Kind, page: &[u8], at: usize) -> u32
    requires { at + 12 ≤ length page.now }
    ensures { result ≡ right_at kind page.now at }
{
    if is_leaf(kind) {
        0
    } else {
        u32_of(page, at + 8)
    }
}

/// How many bytes of a payload of `payload` bytes stand in its cell, on a page of `usable` usable
/// bytes; the rest stands in overflow pages.
///
/// A table's interior page has no payloads. (SQLite's Database File Format, "Cell Payload Overflow
/// Pages".)
#[tactic(auto, unfolding(spe_model::specs::Kind::local_of))]
pub fn local_size(kind: Kind, payload: u64, usable: u32) -> u64
    requires low { 480 ≤ usable }
    requires high { usable ≤ 65536 }
    requires kind { IsTrue (has_payload kind) }
    ensures { result ≡ local_of kind payload usable }
{
    let usable = u64::from(usable);
    let most = if is_table(kind) {
        usable - 35
    } else {
        (usable - 12) * 64 / 255 - 23
    };
    if payload <= most {
        return payload;
    }
    let least = (usable - 12) * 32 / 255 - 23;
    let fitted = least + (payload - least) % (usable - 4);
    if fitted <= most { fitted } else { least }
}
