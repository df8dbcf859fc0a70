//! Keys out of their bounds, and chains of the wrong length.

use super::files::{Case, forest};
use super::run::expect_checks;
use std::test::Fail;

// Rule 6.
static BOUNDS: [Case; 5] = [
    (
        "a rowid above the key to its right",
        &[(3172, b"\x03")],
        "damage 7 6\n",
    ),
    (
        "a rowid that is the key to its left",
        &[(3891, b"\x02")],
        "damage 8 6\n",
    ),
    (
        "a rowid below the key to its left on the last leaf",
        &[(4403, b"\x03")],
        "damage 9 6\n",
    ),
    (
        "a key that is above the key to its right in the parents",
        &[
            (
                3072,
                b"\x05\x00\x00\x00\x01\x00\x00\x00\x00\x00\x00\x00\x01\xfb",
            ),
            (3579, b"\x00\x00\x00\x06\x03"),
            (2560, b"\x0d"),
        ],
        "damage 7 6\n",
    ),
    (
        "a leaf whose rowids belong to the left of its key",
        &[(1018, b"\x03"), (3891, b"\x01"), (3684, b"\x02")],
        "damage 8 6\n",
    ),
];

// Rule 7, with the page that holds the number.
static CHAINS: [Case; 10] = [
    ("no first overflow page", &[(1535, b"\x00")], "damage 3 7\n"),
    (
        "a chain that ends early",
        &[(4611, b"\x00")],
        "damage 10 7\n",
    ),
    ("a chain that goes on", &[(5123, b"\x06")], "damage 11 7\n"),
    (
        "a chain that goes on past the file",
        &[(5120, b"\xff")],
        "damage 11 7\n",
    ),
    (
        "a chain that goes on to a page of a tree",
        &[(5123, b"\x02")],
        "damage 11 7\n",
    ),
    (
        "no first overflow page in an index",
        &[(2559, b"\x00")],
        "damage 5 7\n",
    ),
    (
        "a chain in an index that ends early",
        &[(5635, b"\x00")],
        "damage 12 7\n",
    ),
    (
        "a chain in an index that goes on",
        &[(6147, b"\x06")],
        "damage 13 7\n",
    ),
    (
        "no first overflow page in a closed table",
        &[(8191, b"\x00")],
        "damage 16 7\n",
    ),
    (
        "a chain in a closed table that goes on",
        &[(6659, b"\x06")],
        "damage 14 7\n",
    ),
];

#[test]
fn bounds(rt: HostRuntime) -> Result<(), Fail> {
    let base = forest(rt.alloc())?;
    expect_checks(&rt, rt.alloc(), &base, &BOUNDS, 5)?;
    Ok(())
}

#[test]
fn chains(rt: HostRuntime) -> Result<(), Fail> {
    let base = forest(rt.alloc())?;
    expect_checks(&rt, rt.alloc(), &base, &CHAINS, 5)?;
    Ok(())
}
