//! Files that are sound, some of them odd.

use super::files::{Case, forest, two};
use super::run::expect_checks;
use std::test::Fail;

// Files with free pages in stock form.
static STOCK: [Case; 13] = [
    ("as it is", &[], "ok pages 19 tables 3 rows 7 free 2\n"),
    (
        "freeblocks, fragments and a start of content that mean nothing",
        &[(3073, b"\xff\xff"), (3077, b"\xff\xff\xff")],
        "ok pages 19 tables 3 rows 7 free 2\n",
    ),
    (
        "a number of pages that is not valid",
        &[(28, b"\xff"), (92, b"\xff")],
        "ok pages 19 tables 3 rows 7 free 2\n",
    ),
    (
        "a record of a closed table that is none",
        &[(7582, b"\x0a")],
        "ok pages 19 tables 3 rows 7 free 2\n",
    ),
    (
        "entries of an index out of order",
        &[(8200, b"\x00\xcf\x015\x01\x9b")],
        "ok pages 19 tables 3 rows 7 free 2\n",
    ),
    (
        "a record with fewer values than columns",
        &[(1336, b"\x02\x08\x02\x00")],
        "ok pages 19 tables 3 rows 7 free 2\n",
    ),
    (
        "an index with the name of a table",
        &[(325, b"t")],
        "ok pages 19 tables 3 rows 7 free 2\n",
    ),
    (
        "a free page in no list",
        &[(9223, b"\x00"), (39, b"\x01")],
        "ok pages 19 tables 3 rows 7 free 1\n",
    ),
    (
        "a last leaf without rows",
        &[(4099, b"\x00\x00")],
        "ok pages 19 tables 3 rows 6 free 2\n",
    ),
    (
        "a table that lost its root",
        &[(403, b"\x00")],
        "ok pages 19 tables 3 rows 5 free 2\n",
    ),
    (
        "an index that became a view",
        &[(320, b"index"), (327, b"\x00")],
        "ok pages 19 tables 3 rows 7 free 2\n",
    ),
    (
        "an index whose pages are of a table, and a table whose pages are of an index",
        &[(403, b"\x05"), (327, b"\x03")],
        "ok pages 19 tables 3 rows 5 free 2\n",
    ),
    (
        "a trunk that goes on to another",
        &[(9223, b"\x00"), (9219, b"\x06")],
        "ok pages 19 tables 3 rows 7 free 2\n",
    ),
];

// Files in server form.
static SERVER: [Case; 7] = [
    ("as it is", &[], "ok pages 6 tables 2 rows 0 free 2\n"),
    (
        "one list",
        &[(1539, b"\x01")],
        "ok pages 6 tables 2 rows 0 free 1\n",
    ),
    (
        "a trunk with a leaf",
        &[(1539, b"\x01"), (2055, b"\x01"), (2059, b"\x06")],
        "ok pages 6 tables 2 rows 0 free 2\n",
    ),
    (
        "a trunk that goes on",
        &[(1539, b"\x01"), (2051, b"\x06")],
        "ok pages 6 tables 2 rows 0 free 2\n",
    ),
    (
        "a row",
        &[
            (512, b"\x0d\x00\x00\x00\x01\x01\xfa\x00\x01\xfa"),
            (1018, b"\x04\x01\x03\x00\x01\x0a"),
        ],
        "ok pages 6 tables 2 rows 1 free 2\n",
    ),
    (
        "no table",
        &[(103, b"\x00\x00")],
        "ok pages 6 tables 0 rows 0 free 2\n",
    ),
    (
        "no free list",
        &[(35, b"\x00")],
        "ok pages 6 tables 2 rows 0 free 0\n",
    ),
];

#[test]
fn stock(rt: HostRuntime) -> Result<(), Fail> {
    let base = forest(rt.alloc())?;
    expect_checks(&rt, rt.alloc(), &base, &STOCK, 0)?;
    Ok(())
}

#[test]
fn server(rt: HostRuntime) -> Result<(), Fail> {
    let base = two(rt.alloc())?;
    expect_checks(&rt, rt.alloc(), &base, &SERVER, 0)?;
    Ok(())
}
