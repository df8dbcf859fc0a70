//! Files in which two rules are broken: the walk breaks off at the first.

use super::files::{Case, forest};
use super::run::expect_checks;
use std::test::Fail;

// What is tried first, with the rule that is named and one that is broken too.
static FIRST: [Case; 21] = [
    (
        "the schema's rows before the trees: 9, not 3",
        &[(3072, b"\x00"), (318, b"\x0f")],
        "damage 1 9\n",
    ),
    (
        "the schema's rows in their order: 9, not 8",
        &[(401, b"T"), (315, b"\x0a")],
        "damage 1 9\n",
    ),
    (
        "a schema record before its fields: 8, not 9",
        &[(316, b"\x0a"), (318, b"\x0f")],
        "damage 1 8\n",
    ),
    (
        "the trees in the order of their rows: 1, not 7",
        &[(465, b"\x14"), (1535, b"\x00")],
        "damage 1 1\n",
    ),
    (
        "a page met twice before its sort: 2, not 4",
        &[(2059, b"\x10")],
        "damage 16 2\n",
    ),
    (
        "a page before its sort: 3, not 4",
        &[(4096, b"\x0a\x00\x00\x01\x00")],
        "damage 9 3\n",
    ),
    (
        "the sort before the level: 4, not 5",
        &[
            (3584, b"\x05\x00\x00\x00\x00\x00\x00\x00\x00\x00\x00\x06"),
            (2560, b"\x0a"),
        ],
        "damage 6 4\n",
    ),
    (
        "the level before the rows: 5, not 6",
        &[
            (3584, b"\x05\x00\x00\x00\x00\x00\x00\x00\x00\x00\x00\x06"),
            (2560, b"\x0d\x00\x00\x00\x01\x00\x00\x00\x01\x00"),
            (2816, b"\x00c"),
        ],
        "damage 6 5\n",
    ),
    (
        "a rowid before its record: 6, not 8",
        &[(3172, b"\x03"), (3174, b"\x0a")],
        "damage 7 6\n",
    ),
    (
        "a row before the next row: 8, not 6",
        &[(3381, b"\x0a"), (3172, b"\x03")],
        "damage 7 8\n",
    ),
    (
        "a chain before the record: 7, not 8",
        &[(1535, b"\x00"), (1345, b"\x0a")],
        "damage 3 7\n",
    ),
    (
        "a child before the key behind it: 3, not 6",
        &[
            (
                3072,
                b"\x05\x00\x00\x00\x01\x00\x00\x00\x00\x00\x00\x00\x01\xfb",
            ),
            (3579, b"\x00\x00\x00\x06\x03"),
        ],
        "damage 6 3\n",
    ),
    (
        "a child before the chain behind it: 3, not 7",
        &[(8192, b"\x00"), (2559, b"\x00")],
        "damage 17 3\n",
    ),
    (
        "a chain before the next child: 7, not 3",
        &[(8704, b"\x00"), (2559, b"\x00")],
        "damage 5 7\n",
    ),
    (
        "a key before the next child: 6, not 3",
        &[
            (
                3072,
                b"\x05\x00\x00\x00\x01\x00\x00\x00\x00\x00\x00c\x01\xfb",
            ),
            (3579, b"\x00\x00\x00\x06\x03"),
            (2560, b"\x0d"),
        ],
        "damage 7 6\n",
    ),
    (
        "the children in their order: 3, not 1",
        &[(3072, b"\x00"), (1017, b"\x00")],
        "damage 7 3\n",
    ),
    (
        "the trees before the free list: 3, not 10",
        &[(8704, b"\x00"), (39, b"\x03")],
        "damage 18 3\n",
    ),
    (
        "a trunk met twice before its leaves: 2, not 10",
        &[(35, b"\x02")],
        "damage 2 2\n",
    ),
    (
        "the leaves of a trunk before the next: 2, not 1",
        &[(9227, b"\x07"), (9219, b"\x14")],
        "damage 7 2\n",
    ),
    (
        "the trunks before their number: 2, not 10",
        &[(9227, b"\x07"), (39, b"\x03")],
        "damage 7 2\n",
    ),
    (
        "a place past the file before all else of it: 1, not 7",
        &[(1535, b"\x14"), (4611, b"\x00")],
        "damage 3 1\n",
    ),
];

#[test]
fn first(rt: HostRuntime) -> Result<(), Fail> {
    let base = forest(rt.alloc())?;
    expect_checks(&rt, rt.alloc(), &base, &FIRST, 5)?;
    Ok(())
}
