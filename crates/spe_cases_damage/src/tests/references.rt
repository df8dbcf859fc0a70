//! Page numbers that name no page of the file, or a page that was met before.

use super::files::{Case, forest};
use super::run::expect_checks;
use std::test::Fail;

// Rule 1, by the page that names another.
static OUTSIDE: [Case; 11] = [
    ("a child is page 0", &[(1017, b"\x00")], "damage 2 1\n"),
    (
        "the right-most child is past the file",
        &[(523, b"\x14")],
        "damage 2 1\n",
    ),
    (
        "a child in an index is page 0",
        &[(2514, b"\x00")],
        "damage 5 1\n",
    ),
    ("a root is past the file", &[(403, b"\x14")], "damage 1 1\n"),
    (
        "an overflow page is past the file",
        &[(1535, b"\x14")],
        "damage 3 1\n",
    ),
    (
        "the next overflow page is past the file",
        &[(4611, b"\x14")],
        "damage 10 1\n",
    ),
    (
        "an overflow page of an index is past the file",
        &[(2559, b"\x14")],
        "damage 5 1\n",
    ),
    (
        "the first trunk is past the file",
        &[(35, b"\x14")],
        "damage 1 1\n",
    ),
    ("a free leaf is page 0", &[(9227, b"\x00")], "damage 19 1\n"),
    (
        "the next trunk is past the file",
        &[(9219, b"\x14")],
        "damage 19 1\n",
    ),
    (
        "a page number of four large bytes",
        &[(9216, b"\xff\xff\xff\xff")],
        "damage 19 1\n",
    ),
];

// Rule 2, with the page that is met again.
static TWICE: [Case; 13] = [
    (
        "two tables with one root",
        &[(403, b"\x02")],
        "damage 2 2\n",
    ),
    (
        "the schema is the root of a table",
        &[(465, b"\x01")],
        "damage 1 2\n",
    ),
    (
        "a page is a child twice",
        &[(1017, b"\x07")],
        "damage 7 2\n",
    ),
    (
        "a page is its own child",
        &[(1017, b"\x02")],
        "damage 2 2\n",
    ),
    (
        "a leaf of another tree is a child",
        &[(1547, b"\x09")],
        "damage 9 2\n",
    ),
    (
        "a leaf of a table is a child in an index",
        &[(2059, b"\x10")],
        "damage 16 2\n",
    ),
    (
        "an overflow page is a leaf",
        &[(1535, b"\x07")],
        "damage 7 2\n",
    ),
    (
        "an overflow page is its own next",
        &[(4611, b"\x0a")],
        "damage 10 2\n",
    ),
    (
        "two chains in one page",
        &[(8191, b"\x0b")],
        "damage 11 2\n",
    ),
    (
        "the first trunk is a page of a tree",
        &[(35, b"\x02")],
        "damage 2 2\n",
    ),
    (
        "a free leaf is a page of a tree",
        &[(9227, b"\x07")],
        "damage 7 2\n",
    ),
    (
        "a free leaf is its trunk",
        &[(9227, b"\x13")],
        "damage 19 2\n",
    ),
    (
        "a trunk is its own next",
        &[(9219, b"\x13")],
        "damage 19 2\n",
    ),
];

#[test]
fn outside(rt: HostRuntime) -> Result<(), Fail> {
    let base = forest(rt.alloc())?;
    expect_checks(&rt, rt.alloc(), &base, &OUTSIDE, 5)?;
    Ok(())
}

#[test]
fn twice(rt: HostRuntime) -> Result<(), Fail> {
    let base = forest(rt.alloc())?;
    expect_checks(&rt, rt.alloc(), &base, &TWICE, 5)?;
    Ok(())
}
