//! Records that are none, and rows of the schema that are none.

use super::files::{Case, forest};
use super::run::expect_checks;
use std::test::Fail;

// Rule 8.
static RECORDS: [Case; 14] = [
    ("a reserved serial type", &[(4405, b"\x0a")], "damage 9 8\n"),
    (
        "another reserved serial type",
        &[(4405, b"\x0b")],
        "damage 9 8\n",
    ),
    (
        "a value longer than the payload",
        &[(4407, b"\x1e")],
        "damage 9 8\n",
    ),
    (
        "a value shorter than the payload",
        &[(4407, b"\x1a")],
        "damage 9 8\n",
    ),
    (
        "a header past the payload",
        &[(1338, b"\x04")],
        "damage 3 8\n",
    ),
    ("a header of no bytes", &[(1338, b"\x00")], "damage 3 8\n"),
    ("a payload of no bytes", &[(1336, b"\x00")], "damage 3 8\n"),
    (
        "a header that ends within a serial type",
        &[(1339, b"\x00\x80")],
        "damage 3 8\n",
    ),
    (
        "a text that is not UTF-8",
        &[(1034, b"\x01\x00"), (1280, b"\x04\x08\x03\x00\x0f\xff")],
        "damage 3 8\n",
    ),
    (
        "more values than columns",
        &[(1034, b"\x01\x00"), (1280, b"\x04\x08\x04\x00\x00\x00")],
        "damage 3 8\n",
    ),
    (
        "a reserved serial type in a record with a chain",
        &[(1345, b"\x0a")],
        "damage 3 8\n",
    ),
    (
        "a reserved serial type in the schema",
        &[(453, b"\x0a")],
        "damage 1 8\n",
    ),
    (
        "a name in the schema that is not UTF-8",
        &[(402, b"\x80")],
        "damage 1 8\n",
    ),
    (
        "six values in the schema",
        &[
            (114, b"\x01\x10"),
            (272, b"\x0f\x04\x07\x17\x0f\x0f\x01\x00\x00indexxi\x05"),
        ],
        "damage 1 8\n",
    ),
];

// Rule 9.
static SCHEMA: [Case; 8] = [
    (
        "four values",
        &[
            (114, b"\x01\x10"),
            (272, b"\x0d\x04\x05\x17\x0f\x0f\x01indexxi\x05"),
        ],
        "damage 1 9\n",
    ),
    (
        "a type that is NULL",
        &[
            (114, b"\x01\x10"),
            (272, b"\x09\x04\x06\x00\x0f\x0f\x01\x00xi\x05"),
        ],
        "damage 1 9\n",
    ),
    ("a name that is a blob", &[(316, b"\x0e")], "damage 1 9\n"),
    (
        "a table's name that is a number",
        &[(317, b"\x01")],
        "damage 1 9\n",
    ),
    ("a root that is a text", &[(318, b"\x0f")], "damage 1 9\n"),
    (
        "a definition that is a blob",
        &[(319, b"8")],
        "damage 1 9\n",
    ),
    ("two tables of one name", &[(401, b"t")], "damage 1 9\n"),
    (
        "two tables of one name in other letters",
        &[(401, b"T")],
        "damage 1 9\n",
    ),
];

#[test]
fn records(rt: HostRuntime) -> Result<(), Fail> {
    let base = forest(rt.alloc())?;
    expect_checks(&rt, rt.alloc(), &base, &RECORDS, 5)?;
    Ok(())
}

#[test]
fn schema(rt: HostRuntime) -> Result<(), Fail> {
    let base = forest(rt.alloc())?;
    expect_checks(&rt, rt.alloc(), &base, &SCHEMA, 5)?;
    Ok(())
}
