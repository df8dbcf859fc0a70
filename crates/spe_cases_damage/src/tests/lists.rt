//! Free lists in stock form and in server form.

use super::files::{Case, forest, two};
use super::run::expect_checks;
use std::test::Fail;

// Rule 10, and what is next to it.
static STOCK: [Case; 7] = [
    (
        "a trunk with more leaves than it has room for",
        &[(9223, b"\x7f")],
        "damage 19 10\n",
    ),
    (
        "a trunk with 2^31 leaves",
        &[(9220, b"\x80")],
        "damage 19 10\n",
    ),
    (
        "a trunk with as many leaves as it has room for",
        &[(9223, b"~")],
        "damage 19 1\n",
    ),
    (
        "more free pages than are counted",
        &[(39, b"\x01")],
        "damage 1 10\n",
    ),
    (
        "fewer free pages than are counted",
        &[(39, b"\x03")],
        "damage 1 10\n",
    ),
    (
        "free pages that no trunk lists",
        &[(35, b"\x00")],
        "damage 1 10\n",
    ),
    (
        "a trunk that is taken for a node page",
        &[(39, b"\x00")],
        "damage 19 11\n",
    ),
];

// Rules 11, 1, 2 and 10 in server form.
static SERVER: [Case; 16] = [
    ("no list", &[(1539, b"\x00")], "damage 4 11\n"),
    ("seventeen lists", &[(1539, b"\x11")], "damage 4 11\n"),
    ("2^24 lists", &[(1536, b"\x01")], "damage 4 11\n"),
    (
        "the node page is past the file",
        &[(35, b"\x07")],
        "damage 1 1\n",
    ),
    (
        "the node page is the schema",
        &[(35, b"\x01")],
        "damage 1 2\n",
    ),
    ("the node page is a root", &[(35, b"\x03")], "damage 3 2\n"),
    (
        "a first trunk is page 0",
        &[(1543, b"\x00")],
        "damage 4 1\n",
    ),
    (
        "a third list without a trunk",
        &[(1539, b"\x03")],
        "damage 4 1\n",
    ),
    (
        "a first trunk is past the file",
        &[(1547, b"\x07")],
        "damage 4 1\n",
    ),
    (
        "two lists with one trunk",
        &[(1547, b"\x05")],
        "damage 5 2\n",
    ),
    (
        "a first trunk is the node page",
        &[(1543, b"\x04")],
        "damage 4 2\n",
    ),
    (
        "a first trunk is a root",
        &[(1547, b"\x02")],
        "damage 2 2\n",
    ),
    (
        "a trunk goes on to that of another list",
        &[(2051, b"\x06")],
        "damage 6 2\n",
    ),
    (
        "a trunk goes on past the file",
        &[(2563, b"\x07")],
        "damage 6 1\n",
    ),
    (
        "a trunk with more leaves than it has room for",
        &[(2055, b"\x7f")],
        "damage 5 10\n",
    ),
    (
        "a free leaf is a root",
        &[(2055, b"\x01"), (2059, b"\x03")],
        "damage 3 2\n",
    ),
];

#[test]
fn stock(rt: HostRuntime) -> Result<(), Fail> {
    let base = forest(rt.alloc())?;
    expect_checks(&rt, rt.alloc(), &base, &STOCK, 5)?;
    Ok(())
}

#[test]
fn server(rt: HostRuntime) -> Result<(), Fail> {
    let base = two(rt.alloc())?;
    expect_checks(&rt, rt.alloc(), &base, &SERVER, 5)?;
    Ok(())
}
