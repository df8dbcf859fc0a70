//! What `rows` prints of files in memory.

use super::files::{PEOPLE, SIGNS, SIGNS_ROWS, file_of};
use super::run::expect;
use std::alloc::{AllocError, Global};
use std::process::Abort;
use std::sync::Wait;
use std::test::Fail;
use std::thread::Threads;

#[test]
fn people(rt: HostRuntime) -> Result<(), Fail> {
    let file = file_of(rt.alloc(), 1024, &PEOPLE)?;
    let words = ["rows", "people.db", "p"];
    let text = "1|1|'ann'\n2|2|'bob'\n3|3|NULL\nrows 3\n";
    expect(&rt, rt.alloc(), &words, Some(&file), (0, text))?;
    Ok(())
}

// A table of the file with signs, and what is printed of it.
static TABLES: [(&str, u8, &str); 5] = [
    ("p", 0, SIGNS_ROWS),
    ("P", 0, SIGNS_ROWS),
    ("Empty", 0, "rows 0\n"),
    ("eMPTY", 0, "rows 0\n"),
    ("q", 2, "refused no-table\n"),
];

fn expect_table<R: Threads + Wait + Sync + Abort>(
    rt: &R,
    alloc: Global,
    file: &[u8],
    case: &(&str, u8, &str),
) -> Result<(), AllocError> {
    let (table, status, text) = *case;
    let words = ["rows", "signs.db", table];
    expect(rt, alloc, &words, Some(file), (status, text))
}

#[test]
fn tables(rt: HostRuntime) -> Result<(), Fail> {
    let file = file_of(rt.alloc(), 1536, &SIGNS)?;
    for case in &TABLES {
        expect_table(&rt, rt.alloc(), &file, case)?;
    }
    Ok(())
}
