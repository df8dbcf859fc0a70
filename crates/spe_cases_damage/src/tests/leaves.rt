//! Damage in a schema of two leaves below page 1, which is an interior page.

use super::files::{Case, Patch, lay};
use super::kinds::kinds;
use super::run::expect_checks;
use std::test::Fail;

// The leaf 7 has the rows 1 to 5 and the leaf 10 those from 6 on; the file has 13 pages.
static LEAVES: [Case; 11] = [
    // rule 1, by the row with the root
    (
        "the root of f is past the file",
        &[(3369, b"\x0e")],
        "damage 7 1\n",
    ),
    (
        "the root of g is past the file",
        &[(4888, b"\x0e")],
        "damage 10 1\n",
    ),
    // rule 8
    (
        "a reserved serial type in row 1",
        &[(3404, b"\x0a")],
        "damage 7 8\n",
    ),
    (
        "a reserved serial type in row 8",
        &[(4876, b"\x0a")],
        "damage 10 8\n",
    ),
    (
        "a name that is not UTF-8 in row 13",
        &[(5093, b"\x80")],
        "damage 10 8\n",
    ),
    // rule 9
    (
        "a name that is a blob in row 2",
        &[(3358, b"\x0e")],
        "damage 7 9\n",
    ),
    (
        "a table's name that is a blob in row 6",
        &[(4951, b"\x0e")],
        "damage 10 9\n",
    ),
    (
        "two tables of one name on one leaf",
        &[(3300, b"f")],
        "damage 7 9\n",
    ),
    (
        "two tables of one name on two leaves",
        &[(4886, b"F")],
        "damage 10 9\n",
    ),
    // the first that is broken, as the rows go
    (
        "a record that is none before two tables of one name",
        &[(3404, b"\x0a"), (4886, b"f")],
        "damage 7 8\n",
    ),
    (
        "two tables of one name after a root past the file",
        &[(3369, b"\x0e"), (4886, b"f")],
        "damage 10 9\n",
    ),
];

// The last row names a view instead of an index, in 547 bytes, and the page 13 has 508 of them.
static CHAIN: [Patch; 4] = [
    (4630, b"\x01s"),
    (4979, b"\x84#\x0d\x07\x15\x0f\x0f\x08\x889viewuu"),
    (5024, b"\x0d"),
    (6144, b"\x00"),
];

static SOUND: [Case; 1] = [(
    "a row with a chain",
    &[],
    "ok pages 13 tables 8 rows 3 free 0\n",
)];

static CHAINED: [Case; 4] = [
    (
        "its chain is past the file",
        &[(5024, b"\x0e")],
        "damage 10 1\n",
    ),
    (
        "a text that is not UTF-8 in its chain",
        &[(6655, b"\xff")],
        "damage 10 8\n",
    ),
    (
        "a reserved serial type before its chain",
        &[(4985, b"\x0a")],
        "damage 10 8\n",
    ),
    (
        "a text in a chain that is a blob",
        &[(4988, b"8")],
        "damage 10 9\n",
    ),
];

#[test]
fn leaves(rt: HostRuntime) -> Result<(), Fail> {
    let base = kinds(rt.alloc())?;
    expect_checks(&rt, rt.alloc(), &base, &LEAVES, 5)?;
    Ok(())
}

#[test]
fn chained(rt: HostRuntime) -> Result<(), Fail> {
    let mut base = kinds(rt.alloc())?;
    lay(&mut base, &CHAIN);
    expect_checks(&rt, rt.alloc(), &base, &SOUND, 0)?;
    expect_checks(&rt, rt.alloc(), &base, &CHAINED, 5)?;
    Ok(())
}
