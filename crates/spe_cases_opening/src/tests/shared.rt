//! What is read once.

ghost use Rattle.std.specs.Prelude.{◌≡◌, None};
ghost use Rattle.spe_space.specs.View.{map_refusal};

use crate::tests::space::{Patch, space_of};
use spe_model::Entry;
use spe_opening::{Shared, read_shared};
use spe_space::{MapSpace, TreeFault};
use std::alloc::{AllocError, Global};
use std::process::Abort;
use std::test::Fail;

// Ten pages. Page 1 is the leaf of a schema with the tables `t` and `u`, page 2 a node page with the first trunks 3 and 9.
// The root 4 of `t` leads to the leaves 5 and 6, and the root 7 of `u` is a leaf. Pages 8 and 10 are leaves of
// no table.
static PAGES: [Patch; 11] = [
    (1, 100, b"\x0d\x00\x00\x00\x02\x01\xbe\x00\x01\xdf\x01\xbe"),
    (
        1,
        479,
        b"\x1f\x01\x06\x17\x0f\x0f\x01/tablett\x04CREATE TABLE t(x)",
    ),
    (
        1,
        446,
        b"\x1f\x02\x06\x17\x0f\x0f\x01/tableuu\x07CREATE TABLE u(x)",
    ),
    (2, 0, b"\x00\x00\x00\x02\x00\x00\x00\x03\x00\x00\x00\x09"),
    (
        4,
        0,
        b"\x05\x00\x00\x00\x01\x01\xfb\x00\x00\x00\x00\x06\x01\xfb",
    ),
    (4, 507, b"\x00\x00\x00\x05\x01"),
    (5, 0, b"\x0d\x00\x00\x00\x00\x02\x00\x00"),
    (6, 0, b"\x0d\x00\x00\x00\x00\x02\x00\x00"),
    (7, 0, b"\x0d\x00\x00\x00\x00\x02\x00\x00"),
    (8, 0, b"\x0d\x00\x00\x00\x00\x02\x00\x00"),
    (10, 0, b"\x0d\x00\x00\x00\x00\x02\x00\x00"),
];

// An interior page with one cell, which leads to page 8, and to page 10 behind it.
const ONE_CELL: &[u8] = b"\x05\x00\x00\x00\x01\x01\xfb\x00\x00\x00\x00\x0a\x01\xfb";

const TO_8: &[u8] = b"\x00\x00\x00\x08\x01";

// An interior page without a cell, which leads to page 10.
const NO_CELL: &[u8] = b"\x05\x00\x00\x00\x00\x02\x00\x00\x00\x00\x00\x0a";

// Changes, and the page that is named for them, or 0 where all is read.
static CASES: [(&str, &[Patch], u32); 7] = [
    ("as it is", &[], 0),
    ("a bare root of the first table", &[(4, 0, NO_CELL)], 4),
    ("a bare root of the second table", &[(7, 0, NO_CELL)], 7),
    (
        "a bare page behind one with a cell",
        &[(5, 0, ONE_CELL), (5, 507, TO_8), (6, 0, NO_CELL)],
        6,
    ),
    (
        "a bare page in a table that is not understood",
        &[(1, 469, b"X"), (7, 0, NO_CELL)],
        0,
    ),
    ("no leaf but the left-most is read", &[(6, 0, b"\x00")], 0),
    (
        "a node page that names no list",
        &[(2, 0, b"\x00\x00\x00\x00")],
        2,
    ),
];

// The page that is named as corrupt, 0 where all is read, or 99.
fn named_in(found: &Result<Shared, TreeFault>) -> u32 {
    match found {
        Ok(_) => 0,
        Err(TreeFault::Corrupt { page }) => *page,
        Err(TreeFault::Space(_)) => 99,
    }
}

fn named_of(alloc: Global, changes: &[Patch]) -> Result<u32, AllocError> {
    let mut space = space_of(alloc, 10, &PAGES, changes)?;
    Ok(named_in(&read_shared(alloc, &mut space, 2)))
}

fn expect_named<R: Abort>(
    rt: &R,
    alloc: Global,
    name: &str,
    changes: &[Patch],
    page: u32,
) -> Result<(), AllocError> {
    let found = named_of(alloc, changes)?;
    assert!(rt; found == page, "{name}");
    Ok(())
}

#[test]
fn pages_named(rt: HostRuntime) -> Result<(), Fail> {
    for (name, changes, page) in &CASES {
        expect_named(&rt, rt.alloc(), *name, *changes, *page)?;
    }
    Ok(())
}

// Whether a table has this name and root.
fn is_table(entry: &Entry, name: &str, root: u32) -> bool {
    entry.table.name.as_str() == name && entry.root == root
}

// Whether the tables are `t` and `u`, and the first trunks 3 and 9.
fn is_whole(shared: &Shared) -> bool {
    let tables = match shared.catalog.as_slice() {
        [t, u] => is_table(t, "t", 4) && is_table(u, "u", 7),
        _ => false,
    };
    let trunks = match shared.trunks.as_slice() {
        [3, 9] => true,
        _ => false,
    };
    tables && trunks
}

fn is_read(space: &mut MapSpace, alloc: Global) -> bool
    requires { map_refusal space.old ≡ None }
{
    match read_shared(alloc, space, 2) {
        Ok(shared) => is_whole(&shared),
        Err(_) => false,
    }
}

#[test]
fn tables_and_trunks(rt: HostRuntime) -> Result<(), Fail> {
    let mut space = space_of(rt.alloc(), 10, &PAGES, &[])?;
    let found = is_read(&mut space, rt.alloc());
    assert!(rt; found);
    Ok(())
}
