//! What `rows` prints of open tables, and of which it prints nothing.

use super::files::{Patch, forest, two};
use super::kinds::kinds;
use super::run::{expect, with_changes};
use std::alloc::{AllocError, Global};
use std::process::Abort;
use std::sync::Wait;
use std::test::Fail;
use std::thread::Threads;

// A table of the file of many kinds, and what is printed of it.
static KINDS: [(&str, u8, &str); 16] = [
    // quoted names, a type of several words, lengths and comments
    (
        "it's",
        0,
        "-2|5|-2|'x'|r'3ff8000000000000'\n3|NULL|3|'é'|2\nrows 2\n",
    ),
    (
        "IT'S",
        0,
        "-2|5|-2|'x'|r'3ff8000000000000'\n3|NULL|3|'é'|2\nrows 2\n",
    ),
    // a value of each kind, and a column that was added
    (
        "f",
        0,
        "5|NULL|0|1|r'3ff8000000000000'|''|x''|NULL\nrows 1\n",
    ),
    ("sqlite_sequence", 2, "refused closed-table 1\n"),
    ("SQLite_Sequence", 2, "refused closed-table 1\n"),
    ("s", 2, "refused closed-table 2\n"),
    ("w", 2, "refused closed-table 2\n"),
    // its definition and an index
    ("d", 2, "refused closed-table 2\n"),
    // an index and a trigger
    ("n", 2, "refused closed-table 3\n"),
    ("g", 2, "refused closed-table 4\n"),
    // a view, an index, a trigger, the schema table, and nothing
    ("v", 2, "refused no-table\n"),
    ("n1", 2, "refused no-table\n"),
    ("g1", 2, "refused no-table\n"),
    ("sqlite_schema", 2, "refused no-table\n"),
    ("its", 2, "refused no-table\n"),
    ("É", 2, "refused no-table\n"),
];

fn expect_kind<R: Threads + Wait + Sync + Abort>(
    rt: &R,
    alloc: Global,
    file: &[u8],
    case: &(&str, u8, &str),
) -> Result<(), AllocError> {
    let (table, status, text) = *case;
    expect(
        rt,
        alloc,
        &["rows", "kinds.db", table],
        file,
        (status, text),
    )
}

#[test]
fn tables(rt: HostRuntime) -> Result<(), Fail> {
    let file = kinds(rt.alloc())?;
    for case in &KINDS {
        expect_kind(&rt, rt.alloc(), &file, case)?;
    }
    Ok(())
}

#[test]
fn all_tables(rt: HostRuntime) -> Result<(), Fail> {
    let file = kinds(rt.alloc())?;
    let text = "ok pages 13 tables 8 rows 3 free 0\n";
    let words = ["check", "kinds.db"];
    expect(&rt, rt.alloc(), &words, &file, (0, text))?;
    Ok(())
}

type Changed = (&'static str, &'static [Patch], u8, &'static str);

// A change of the file with two tables, in words and in bytes, and what is printed of the table `a` then.
static CHANGED: [Changed; 15] = [
    ("as it is", &[], 0, "rows 0\n"),
    (
        "a row",
        &[
            (512, b"\x0d\x00\x00\x00\x01\x01\xfa\x00\x01\xfa"),
            (1018, b"\x04\x01\x03\x00\x01\x0a"),
        ],
        0,
        "1|1|10\nrows 1\n",
    ),
    ("another name in the text", &[(476, b"z")], 0, "rows 0\n"),
    ("no tables", &[(103, b"\x00\x00")], 2, "refused no-table\n"),
    (
        "the root is an index page",
        &[(512, b"\x0a")],
        2,
        "refused closed-table 2\n",
    ),
    (
        "the root is page 0",
        &[(462, b"\x00")],
        2,
        "refused closed-table 2\n",
    ),
    (
        "the root is below 0",
        &[(462, b"\xff")],
        2,
        "refused closed-table 2\n",
    ),
    (
        "the root is NULL",
        &[
            (447, b">"),
            (453, b"\x00"),
            (462, b"CREATE TABLE a(id INTEGER PRIMARY KEY, v INTEGER)"),
        ],
        2,
        "refused closed-table 2\n",
    ),
    (
        "the text is NULL",
        &[(447, b"\x0e"), (454, b"\x00")],
        2,
        "refused closed-table 2\n",
    ),
    (
        "two columns of one name",
        &[(478, b"V ")],
        2,
        "refused closed-table 2\n",
    ),
    (
        "a text that defines no table",
        &[(463, b"c%")],
        2,
        "refused closed-table 2\n",
    ),
    (
        "a damaged leaf",
        &[(512, b"\x00")],
        2,
        "refused corrupt 2\n",
    ),
    (
        "a damaged leaf of the other table",
        &[(1024, b"\x00")],
        2,
        "refused corrupt 3\n",
    ),
    (
        "a damaged free list",
        &[(1539, b"\x00")],
        2,
        "refused corrupt 4\n",
    ),
    (
        "no tables and a damaged free list",
        &[(103, b"\x00\x00"), (1547, b"\x05")],
        2,
        "refused corrupt 5\n",
    ),
];

fn expect_changed<R: Threads + Wait + Sync + Abort>(
    rt: &R,
    alloc: Global,
    case: &Changed,
) -> Result<(), AllocError> {
    let (_, patches, status, text) = *case;
    let file = with_changes(alloc, &two(alloc)?, patches)?;
    expect(rt, alloc, &["rows", "two.db", "a"], &file, (status, text))
}

#[test]
fn changed(rt: HostRuntime) -> Result<(), Fail> {
    for case in &CHANGED {
        expect_changed(&rt, rt.alloc(), case)?;
    }
    Ok(())
}

// Adds a row whose blob has so many bytes, which are zero.
fn put_zeros(alloc: Global, text: &mut String, rowid: u8, bytes: u32) -> Result<(), AllocError> {
    let start = format!(in alloc; "{rowid}|{rowid}|x'")?;
    text.push_str(start.as_str())?;
    for _ in 0..bytes {
        text.push_str("00")?;
    }
    text.push_str("'\n")
}

// What is printed of the table `t`, and of `c`.
fn five_rows(alloc: Global) -> Result<String, AllocError> {
    let mut text = String::new(alloc);
    for rowid in 1..=5 {
        put_zeros(alloc, &mut text, rowid, 200)?;
    }
    text.push_str("rows 5\n")?;
    Ok(text)
}

fn long_row(alloc: Global) -> Result<String, AllocError> {
    let mut text = String::new(alloc);
    put_zeros(alloc, &mut text, 7, 1200)?;
    text.push_str("8|8|NULL\nrows 2\n")?;
    Ok(text)
}

fn expect_tree<R: Threads + Wait + Sync + Abort>(
    rt: &R,
    alloc: Global,
    table: &str,
    status: u8,
    text: &str,
) -> Result<(), AllocError> {
    let file = forest(alloc)?;
    expect(rt, alloc, &["rows", "d.db", table], &file, (status, text))
}

// Trees of two levels, and a payload with a chain of overflow pages.
#[test]
fn trees(rt: HostRuntime) -> Result<(), Fail> {
    let text = five_rows(rt.alloc())?;
    expect_tree(&rt, rt.alloc(), "t", 0, text.as_str())?;
    let text = long_row(rt.alloc())?;
    expect_tree(&rt, rt.alloc(), "c", 0, text.as_str())?;
    expect_tree(&rt, rt.alloc(), "i", 2, "refused closed-table 3\n")?;
    Ok(())
}
