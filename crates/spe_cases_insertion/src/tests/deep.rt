//! Trees of many levels that are built by hand, page by page, and get a row behind all others.

ghost use Rattle.std.specs.Prelude.{◌≡◌, IfOk, None, OnOk};
ghost use Rattle.spe_space.specs.View.{map_refusal};

use spe_insert::insert;
use spe_search::{find, largest};
use spe_space::{MapSpace, PageSpace, Pages, SpaceFault, TreeFault};
use std::alloc::{AllocError, Global};
use std::process::Abort;
use std::test::Fail;

// A page of 512 bytes has room for so many children before the last, where each key takes two bytes.
const FULL: u32 = 62;

// And for so many rows with rowids of two bytes and payloads of four.
const ROWS: u32 = 56;

const FIRST_ROW: u32 = 2000;

const NEW_ROW: i64 = 3000;

// The root; the page of each level has the next number.
const ROOT: u32 = 2;

// The pages there are before the row is put.
const PAGES: u32 = 32;

// A tree of so many levels. All its pages are full, but the one above the leaf has room for so many
// children more; the new row makes so many pages more.
struct Tree {
    name: &'static str,
    levels: u32,
    room: u32,
    more: u32,
}

static TREES: [Tree; 5] = [
    Tree {
        name: "a leaf alone",
        levels: 1,
        room: 0,
        more: 2,
    },
    Tree {
        name: "four levels, all are split",
        levels: 4,
        room: 0,
        more: 5,
    },
    Tree {
        name: "nineteen levels, all are split",
        levels: 19,
        room: 0,
        more: 20,
    },
    Tree {
        name: "four levels, the leaf is split",
        levels: 4,
        room: 1,
        more: 1,
    },
    Tree {
        name: "twenty levels, room for one split",
        levels: 20,
        room: 1,
        more: 1,
    },
];

#[derive(Clone, Copy, Debug, PartialEq, Eq)]
struct Outcome {
    added: bool,
    // How many of the first, the last and the new row are found.
    found: u32,
    last: Option<i64>,
    more: u32,
}

// Lays bytes over a page from a place on, as far as they fit.
fn lay(page: &mut [u8], at: u32, bytes: &[u8]) {
    for (i, byte) in bytes.iter().enumerate() {
        if let Some(place) = page.get_mut((at as usize).wrapping_add(i)) {
            *place = *byte;
        }
    }
}

// A number from 128 to 16383 as a varint.
fn varint(number: u32) -> [u8; 2] {
    [128 + (number / 128 % 128) as u8, (number % 128) as u8]
}

// A number as two bytes.
fn short(number: u32) -> [u8; 2] {
    let [_, _, high, low] = number.to_be_bytes();
    [high, low]
}

// The header of a page of so many cells, the last of which begins at `low`.
fn lay_header(page: &mut [u8], kind: u8, cells: u32, low: u32) {
    lay(page, 0, &[kind]);
    lay(page, 3, &short(cells));
    lay(page, 5, &short(low));
}

// Children without a page before the last, one for each key.
fn lay_children(page: &mut [u8], first_key: u32, count: u32, right: u32) {
    lay_header(page, 5, count, 512 - count.min(80) * 6);
    lay(page, 8, &right.to_be_bytes());
    for place in 0..count.min(80) {
        let at = 506 - 6 * place;
        lay(page, 12 + 2 * place, &short(at));
        lay(page, at + 4, &varint(first_key.wrapping_add(place)));
    }
}

// Rows of four zeros each.
fn lay_rows(page: &mut [u8]) {
    lay_header(page, 13, ROWS, 512 - 7 * ROWS);
    for place in 0..ROWS {
        let at = 505 - 7 * place;
        lay(page, 8 + 2 * place, &short(at));
        lay(page, at, &[4]);
        lay(page, at + 1, &varint(FIRST_ROW + place));
    }
}

impl Tree {
    // The page of a level, the root's being 0.
    fn lay_level(&self, page: &mut [u8], level: u32) {
        let below = self.levels.wrapping_sub(level);
        let first_key = 128 + FULL * level.min(20);
        let next = ROOT + level.min(20) + 1;
        match below {
            1 => lay_rows(page),
            2 => lay_children(page, first_key, FULL - self.room.min(FULL), next),
            _ => lay_children(page, first_key, FULL, next),
        }
    }
}

#[tactic(auto, unfolding(spe_model::specs::Header::is_page_size))]
fn new_space(alloc: Global) -> Result<MapSpace, AllocError>
    ensures { IfOk result (λ s. map_refusal s ≡ None) }
{
    MapSpace::new(alloc, 512, PAGES, 256)
}

fn put_levels(alloc: Global, space: &mut MapSpace, tree: &Tree) -> Result<(), SpaceFault>
    requires { map_refusal space.old ≡ None }
    ensures { OnOk result (map_refusal space.new ≡ None) }
{
    for level in 0..tree.levels.min(20) {
        let mut page = vec![in alloc; 0u8; space.page_size() as usize]?;
        tree.lay_level(page.as_mut_slice(), level);
        match space.put(ROOT + level, page.as_slice()) {
            Ok(()) => (),
            Err(fault) => return Err(fault),
        }
    }
    Ok(())
}

// How many rows with these rowids are found.
fn find_each(alloc: Global, space: &mut MapSpace, rowids: &[i64]) -> Result<u32, TreeFault>
    requires { map_refusal space.old ≡ None }
    ensures { OnOk result (map_refusal space.new ≡ None) }
{
    let mut found = 0u32;
    for rowid in rowids {
        match find(alloc, space, ROOT, *rowid) {
            Ok(Some(_)) => found = found.wrapping_add(1),
            Ok(None) => (),
            Err(fault) => return Err(fault),
        }
    }
    Ok(found)
}

// How many pages were handed out, before one more is.
fn pages_more(space: &mut MapSpace) -> Result<u32, TreeFault> {
    match space.alloc() {
        Ok(next) => Ok(next.saturating_sub(PAGES + 1)),
        Err(fault) => Err(TreeFault::Space(fault)),
    }
}

// What is found once the row was put.
fn look_again(alloc: Global, space: &mut MapSpace, added: bool) -> Result<Outcome, TreeFault>
    requires { map_refusal space.old ≡ None }
{
    let rowids = [
        i64::from(FIRST_ROW),
        i64::from(FIRST_ROW + ROWS - 1),
        NEW_ROW,
    ];
    let found = match find_each(alloc, space, &rowids) {
        Ok(found) => found,
        Err(fault) => return Err(fault),
    };
    let last = match largest(alloc, space, ROOT) {
        Ok(last) => last,
        Err(fault) => return Err(fault),
    };
    match pages_more(space) {
        Ok(more) => Ok(Outcome {
            added,
            found,
            last,
            more,
        }),
        Err(fault) => Err(fault),
    }
}

fn put_row(alloc: Global, space: &mut MapSpace, tree: &Tree) -> Result<Outcome, TreeFault>
    requires { map_refusal space.old ≡ None }
{
    match put_levels(alloc, space, tree) {
        Ok(()) => (),
        Err(fault) => return Err(TreeFault::Space(fault)),
    }
    match insert(alloc, space, ROOT, NEW_ROW, &[0; 4]) {
        Ok(added) => look_again(alloc, space, added),
        Err(fault) => Err(fault),
    }
}

fn outcome_of(alloc: Global, tree: &Tree) -> Result<Option<Outcome>, AllocError> {
    let mut space = new_space(alloc)?;
    match put_row(alloc, &mut space, tree) {
        Ok(outcome) => Ok(Some(outcome)),
        Err(_) => Ok(None),
    }
}

fn expect_tree(rt: &impl Abort, alloc: Global, tree: &Tree) -> Result<(), AllocError> {
    let outcome = outcome_of(alloc, tree)?;
    let all = Outcome {
        added: true,
        found: 3,
        last: Some(NEW_ROW),
        more: tree.more,
    };
    assert_eq!(rt; outcome, Some(all), "{}", tree.name);
    Ok(())
}

#[test]
fn deep(rt: HostRuntime) -> Result<(), Fail> {
    for tree in &TREES {
        expect_tree(&rt, rt.alloc(), tree)?;
    }
    Ok(())
}
