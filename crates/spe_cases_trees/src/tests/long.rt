//! Rows with overflow pages, and trees that are as deep as can be.

ghost use Rattle.std.specs.Prelude.{◌≡◌, IfOk, None};
ghost use Rattle.spe_space.specs.View.{map_refusal};

use crate::tests::space::{Filling, expect, lay};
use crate::tests::tables::is_found;
use spe_search::{Pair, find, largest, range};
use spe_space::{MapSpace, TreeFault};
use std::alloc::{AllocError, Global};
use std::process::Abort;
use std::test::Fail;

// A row of the rowid 7 in pages of 512 bytes.
struct Long {
    // How many bytes its payload has.
    payload: u32,
    // How many of them stand in the leaf.
    local: u32,
    // How many overflow pages have the others.
    links: u32,
}

static LONGS: [Long; 8] = [
    Long {
        payload: 477,
        local: 477,
        links: 0,
    },
    Long {
        payload: 478,
        local: 39,
        links: 1,
    },
    Long {
        payload: 547,
        local: 39,
        links: 1,
    },
    Long {
        payload: 548,
        local: 40,
        links: 1,
    },
    Long {
        payload: 985,
        local: 477,
        links: 1,
    },
    Long {
        payload: 986,
        local: 39,
        links: 2,
    },
    Long {
        payload: 1055,
        local: 39,
        links: 2,
    },
    Long {
        payload: 1_000_000,
        local: 256,
        links: 1968,
    },
];

/// So many bytes that count up to 250, again and again.
pub fn payload_of(alloc: Global, length: u32) -> Result<Vec<u8>, AllocError> {
    let mut bytes = Vec::new(alloc);
    for i in 0..length {
        bytes.push((i % 251) as u8)?;
    }
    Ok(bytes)
}

// The cell of the row, its length as a varint of three bytes.
fn cell_of(alloc: Global, long: &Long, local: &[u8], first: u32) -> Result<Vec<u8>, AllocError> {
    let length = long.payload;
    let mut cell = Vec::new(alloc);
    cell.extend_from_slice(&[
        (length >> 14 & 0x7f) as u8 | 0x80,
        (length >> 7 & 0x7f) as u8 | 0x80,
        (length & 0x7f) as u8,
        7,
    ])?;
    cell.extend_from_slice(local)?;
    if long.links > 0 {
        cell.extend_from_slice(&first.to_be_bytes())?;
    }
    Ok(cell)
}

// A leaf with this one cell.
fn leaf_of(alloc: Global, cell: &[u8]) -> Result<Vec<u8>, AllocError> {
    let mut page = vec![in alloc; 0u8; 512]?;
    let start = 512usize.saturating_sub(cell.len());
    lay(&mut page, 0, b"\x0d\x00\x00\x00\x01");
    lay(&mut page, 5, &(start as u16).to_be_bytes());
    lay(&mut page, 8, &(start as u16).to_be_bytes());
    lay(&mut page, start, cell);
    Ok(page)
}

/// An overflow page with these bytes, and the page after it.
pub fn link_of(alloc: Global, next: u32, bytes: &[u8]) -> Result<Vec<u8>, AllocError> {
    let mut link = vec![in alloc; 0u8; 512]?;
    lay(&mut link, 0, &next.to_be_bytes());
    lay(&mut link, 4, bytes);
    Ok(link)
}

// Fills the overflow pages from page 3 on, the last of them with the first bytes.
fn load_links(
    alloc: Global,
    filling: &mut Filling,
    first: u32,
    rest: &[u8],
) -> Result<(), AllocError> {
    let mut page = first;
    for bytes in rest.chunks(508) {
        let next = if page > 3 { page.saturating_sub(1) } else { 0 };
        let link = link_of(alloc, next, bytes)?;
        filling.load(page, &link);
        page = next;
    }
    Ok(())
}

// Fills the leaf, page 2, and its overflow pages.
fn load_all(
    alloc: Global,
    filling: &mut Filling,
    long: &Long,
    payload: &[u8],
) -> Result<(), AllocError> {
    let (local, rest) = payload.split_at(payload.len().min(long.local as usize));
    let first = long.links.saturating_add(2);
    let cell = cell_of(alloc, long, local, first)?;
    let leaf = leaf_of(alloc, &cell)?;
    filling.load(2, &leaf);
    load_links(alloc, filling, first, rest)
}

// The row in a leaf, page 2. Its overflow pages come after it, the last of them first.
fn space_of(alloc: Global, long: &Long, payload: &[u8]) -> Result<MapSpace, AllocError>
    ensures { IfOk result (λ s. map_refusal s ≡ None) }
{
    let mut filling = Filling::new(alloc, false, long.links.saturating_add(2))?;
    load_all(alloc, &mut filling, long, payload)?;
    Ok(filling.into_space())
}

// Whether `find` gives the row this payload.
fn finds(alloc: Global, long: &Long, payload: &[u8]) -> Result<bool, AllocError> {
    let mut space = space_of(alloc, long, payload)?;
    Ok(is_found(find(alloc, &mut space, 2, 7), Some(payload)))
}

// Whether these are one row, with this payload.
fn is_only(pairs: &[Pair], payload: &[u8]) -> bool {
    match pairs {
        [pair] => pair.payload.as_slice() == payload,
        _ => false,
    }
}

// Whether `range` gives the row alone, with this payload.
fn ranges(alloc: Global, long: &Long, payload: &[u8]) -> Result<bool, AllocError> {
    let mut space = space_of(alloc, long, payload)?;
    match range(alloc, &mut space, 2, 7, 7) {
        Ok(pairs) => Ok(is_only(pairs.as_slice(), payload)),
        Err(_) => Ok(false),
    }
}

fn long_holds(alloc: Global, long: &Long) -> Result<bool, AllocError> {
    let payload = payload_of(alloc, long.payload)?;
    let found = finds(alloc, long, &payload)?;
    let ranged = ranges(alloc, long, &payload)?;
    Ok(found && ranged)
}

#[test]
fn longs(rt: HostRuntime) -> Result<(), Fail> {
    for long in &LONGS {
        let holds = long_holds(rt.alloc(), long)?;
        expect(&rt, "payload", i64::from(long.payload), holds);
    }
    Ok(())
}

// The page of a level above the lowest, which has the page after it as its right-most child.
fn level_of(alloc: Global, page: u32) -> Result<Vec<u8>, AllocError> {
    let mut bytes = vec![in alloc; 0u8; 512]?;
    let at = if page == 1 { 100 } else { 0 };
    lay(&mut bytes, at, b"\x05\x00\x00\x00\x00\x02\x00\x00");
    lay(&mut bytes, at + 8, &page.wrapping_add(1).to_be_bytes());
    Ok(bytes)
}

// Fills single pages from page 1 down; the lowest is a leaf that has the row 7.
fn load_levels(alloc: Global, filling: &mut Filling, levels: u32) -> Result<(), AllocError> {
    for page in 1..levels {
        let bytes = level_of(alloc, page)?;
        filling.load(page, &bytes);
    }
    let leaf = leaf_of(alloc, b"\x01\x07a")?;
    filling.load(levels, &leaf);
    Ok(())
}

// A tree of these pages.
fn deep_of(alloc: Global, levels: u32) -> Result<MapSpace, AllocError>
    ensures { IfOk result (λ s. map_refusal s ≡ None) }
{
    let mut filling = Filling::new(alloc, false, levels)?;
    load_levels(alloc, &mut filling, levels)?;
    Ok(filling.into_space())
}

// What a search over so many levels answers: the row 7 of them all, or a fault.
#[derive(Clone, Copy, PartialEq, Eq)]
enum Found {
    Seven,
    Fault(TreeFault),
    Other,
}

fn found_of(answer: Result<bool, TreeFault>) -> Found {
    match answer {
        Ok(true) => Found::Seven,
        Ok(false) => Found::Other,
        Err(fault) => Found::Fault(fault),
    }
}

fn find_in(alloc: Global, levels: u32) -> Result<Found, AllocError> {
    let mut space = deep_of(alloc, levels)?;
    let answer = find(alloc, &mut space, 1, 7);
    Ok(found_of(answer.map(|row| row.is_some())))
}

fn range_in(alloc: Global, levels: u32) -> Result<Found, AllocError> {
    let mut space = deep_of(alloc, levels)?;
    let answer = range(alloc, &mut space, 1, 7, 7);
    Ok(found_of(answer.map(|rows| rows.as_slice().len() == 1)))
}

fn largest_in(alloc: Global, levels: u32) -> Result<Found, AllocError> {
    let mut space = deep_of(alloc, levels)?;
    let answer = largest(alloc, &mut space, 1);
    Ok(found_of(answer.map(|rowid| rowid == Some(7))))
}

// Whether each search over so many levels answers this.
fn levels_hold(alloc: Global, levels: u32, wanted: Found) -> Result<bool, AllocError> {
    let found = find_in(alloc, levels)?;
    let ranged = range_in(alloc, levels)?;
    let last = largest_in(alloc, levels)?;
    Ok(found == wanted && ranged == wanted && last == wanted)
}

fn expect_levels(
    rt: &impl Abort,
    alloc: Global,
    levels: u32,
    wanted: Found,
) -> Result<(), AllocError> {
    let holds = levels_hold(alloc, levels, wanted)?;
    expect(rt, "levels", i64::from(levels), holds);
    Ok(())
}

#[test]
fn levels(rt: HostRuntime) -> Result<(), Fail> {
    for levels in 2..21 {
        expect_levels(&rt, rt.alloc(), levels, Found::Seven)?;
    }
    let deep = Found::Fault(TreeFault::Corrupt { page: 21 });
    for levels in 21..23 {
        expect_levels(&rt, rt.alloc(), levels, deep)?;
    }
    Ok(())
}
