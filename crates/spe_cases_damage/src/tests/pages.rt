//! Pages that are not legal, are of another sort than their tree, or stand at another level than they should.

use super::files::{Case, TWO, file_of, forest, lay, put};
use super::run::{expect, expect_checks};
use std::alloc::{AllocError, Global};
use std::process::Abort;
use std::sync::Wait;
use std::test::Fail;
use std::thread::Threads;

// Rule 3, for each fault of a page.
static UNREADABLE: [Case; 12] = [
    ("a leaf of no kind", &[(3072, b"\x00")], "damage 7 3\n"),
    (
        "an interior page of no kind",
        &[(1536, b"\x04")],
        "damage 4 3\n",
    ),
    (
        "an index page of no kind",
        &[(8192, b"\x0b")],
        "damage 17 3\n",
    ),
    ("the schema of no kind", &[(100, b"\x0c")], "damage 1 3\n"),
    (
        "more offsets than the page has room for",
        &[(3075, b"\x01\x00")],
        "damage 7 3\n",
    ),
    (
        "an offset before the end of the offsets",
        &[(3080, b"\x00\x0b")],
        "damage 7 3\n",
    ),
    (
        "an offset past the page",
        &[(3080, b"\x02\x00")],
        "damage 7 3\n",
    ),
    (
        "a cell that runs out of the page",
        &[(3080, b"\x01\xff")],
        "damage 7 3\n",
    ),
    (
        "two cells that share a byte",
        &[(3082, b"\x010")],
        "damage 7 3\n",
    ),
    (
        "rowids that descend",
        &[(3080, b"\x00b\x011")],
        "damage 7 3\n",
    ),
    ("a rowid twice", &[(3172, b"\x01")], "damage 7 3\n"),
    (
        "keys that descend",
        &[(524, b"\x01\xf6\x01\xfb")],
        "damage 2 3\n",
    ),
];

// Rule 4.
static SORTS: [Case; 5] = [
    (
        "an index leaf in a table",
        &[(4096, b"\x0a\x00\x00\x00\x00")],
        "damage 9 4\n",
    ),
    (
        "an interior index page in a table",
        &[(4096, b"\x02\x00\x00\x00\x00")],
        "damage 9 4\n",
    ),
    (
        "a table leaf in an index",
        &[(8704, b"\x0d\x00\x00\x00\x00")],
        "damage 18 4\n",
    ),
    (
        "an interior table page in an index",
        &[(8704, b"\x05\x00\x00\x00\x00")],
        "damage 18 4\n",
    ),
    (
        "the schema is an index leaf",
        &[(100, b"\x0a\x00\x00\x00\x00")],
        "damage 1 4\n",
    ),
];

// Rule 5.
static LEVELS: [Case; 3] = [
    (
        "a leaf below the level of the first",
        &[
            (3584, b"\x05\x00\x00\x00\x00\x00\x00\x00\x00\x00\x00\x06"),
            (2560, b"\x0d"),
        ],
        "damage 6 5\n",
    ),
    (
        "a leaf above the level of the first",
        &[
            (3072, b"\x05\x00\x00\x00\x00\x00\x00\x00\x00\x00\x00\x06"),
            (2560, b"\x0d"),
        ],
        "damage 8 5\n",
    ),
    (
        "a leaf below the level of the first in an index",
        &[
            (8704, b"\x02\x00\x00\x00\x00\x00\x00\x00\x00\x00\x00\x06"),
            (2560, b"\x0a"),
        ],
        "damage 6 5\n",
    ),
];

#[test]
fn unreadable(rt: HostRuntime) -> Result<(), Fail> {
    let base = forest(rt.alloc())?;
    expect_checks(&rt, rt.alloc(), &base, &UNREADABLE, 5)?;
    Ok(())
}

#[test]
fn sorts(rt: HostRuntime) -> Result<(), Fail> {
    let base = forest(rt.alloc())?;
    expect_checks(&rt, rt.alloc(), &base, &SORTS, 5)?;
    Ok(())
}

#[test]
fn levels(rt: HostRuntime) -> Result<(), Fail> {
    let base = forest(rt.alloc())?;
    expect_checks(&rt, rt.alloc(), &base, &LEVELS, 5)?;
    Ok(())
}

// Where the page of a level from 2 on begins.
fn start_of(level: u8) -> usize {
    usize::from(level).wrapping_add(4).wrapping_mul(512)
}

// The tables `a` and `b` in 30 pages. `a` has so many levels of one page each: page 2 and then the pages from 7 on.
fn tower(alloc: Global, levels: u8) -> Result<Vec<u8>, AllocError> {
    let mut file = file_of(alloc, 30 * 512, &TWO)?;
    lay(&mut file, &[(31, b"\x1e"), (512, b"\x05"), (523, b"\x07")]);
    for level in 2..levels {
        let at = start_of(level);
        put(&mut file, at, 5);
        put(&mut file, at.wrapping_add(11), level.wrapping_add(6));
    }
    put(&mut file, start_of(levels), 13);
    Ok(file)
}

// Numbers of levels, and what is printed of such a file.
static TOWERS: [(u8, u8, &str); 3] = [
    (20, 0, "ok pages 30 tables 2 rows 0 free 2\n"),
    (21, 5, "damage 26 5\n"),
    // the page at the 21st level is an interior page
    (22, 5, "damage 26 5\n"),
];

fn expect_tower<R: Threads + Wait + Sync + Abort>(
    rt: &R,
    alloc: Global,
    case: &(u8, u8, &str),
) -> Result<(), AllocError> {
    let (levels, status, text) = *case;
    let file = tower(alloc, levels)?;
    expect(rt, alloc, &["check", "d.db"], &file, (status, text))
}

#[test]
fn towers(rt: HostRuntime) -> Result<(), Fail> {
    for case in &TOWERS {
        expect_tower(&rt, rt.alloc(), case)?;
    }
    Ok(())
}
