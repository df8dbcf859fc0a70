//! Schemas of files, and node pages.

ghost use Rattle.std.specs.Prelude.{◌≡◌, IfOk, None};
ghost use Rattle.spe_space.specs.View.{map_refusal};

use crate::tests::space::{Filling, expect, lay};
use spe_catalog::read_catalog;
use spe_freelist::read_node;
use spe_model::{Entry, TableDef};
use spe_search::range_with_leaves;
use spe_space::{MapSpace, TreeFault};
use std::alloc::{AllocError, Global};
use std::fmt::Write;
use std::process::Abort;
use std::test::Fail;

// Bytes from a place of a file on.
type Patch = (usize, &'static [u8]);

// Made by sqlite3, in nine pages of 512 bytes. Page 1 is an interior page without a cell, over page 8; its rows name
// tables of each kind, an index, a trigger and a view.
static KINDS: [Patch; 11] = [
    (
        0,
        b"SQLite format 3\x00\x02\x00\x01\x01\x00@  \x00\x00\x00\x08\x00\x00\x00\x09",
    ),
    (43, b"\x08\x00\x00\x00\x04"),
    (59, b"\x01"),
    (
        95,
        b"\x08\x00.c\x01\x05\x00\x00\x00\x00\x02\x00\x00\x00\x00\x00\x08",
    ),
    (512, b"\x0d\x00\x00\x00\x00\x02"),
    (1024, b"\x0d\x00\x00\x00\x00\x02"),
    (1536, b"\x0d\x00\x00\x00\x00\x02"),
    (2048, b"\x0a\x00\x00\x00\x00\x02"),
    (2560, b"\x0d\x00\x00\x00\x00\x02"),
    (3072, b"\x0d\x00\x00\x00\x00\x02"),
    (
        3584,
        b"\x0d\x00\x00\x00\x09\x00\x1f\x00\x01\xb5\x01\x8a\x01i\x01C\x01\"\x00\xdb\x00\xb4\x00q\x00\x1f\x00\x00\x00\x00\x00P\x09\x06\x17++\x01Ytablesqlite_sequencesqlite_sequence\x09CREATE TABLE sqlite_sequence(name,seq)A\x08\x06\x17\x0f\x0f\x01stableff\x07CREATE TABLE f(n INTEGER PRIMARY KEY AUTOINCREMENT)%\x07\x06\x15\x0f\x0f\x08?vieweeCREATE VIEW e AS SELECT 1E\x06\x06\x1b\x0f\x0f\x08ytriggergdCREATE TRIGGER g AFTER INSERT ON d BEGIN SELECT 1; END\x1f\x05\x06\x17\x0f\x0f\x01/tabledd\x06CREATE TABLE d(x)$\x04\x06\x17\x0f\x0f\x019indexic\x05CREATE INDEX i ON c(x)\x1f\x03\x06\x17\x0f\x0f\x01/tablecc\x04CREATE TABLE c(x))\x02\x06\x17\x0f\x0f\x01Ctablebb\x03CREATE TABLE b(x DEFAULT 1)I\x01\x07\x17\x0f\x0f\x01\x81\x01tableaa\x02CREATE TABLE a(id INTEGER PRIMARY KEY, v INTEGER NOT NULL)\x0d\x00\x00\x00\x00\x02",
    ),
];

// The tables that it names: name, root page, the reason why it is closed or 0, and its columns.
const TABLES: &str = "a 2 0 id* v|b 3 2|c 4 3 x|d 6 4 x|f 7 2|sqlite_sequence 9 1 name seq|";

// Page 1 names page 8 up to the key 9, and page 7 above it, which has the row 10 of a table `h`.
static MORE: [Patch; 4] = [
    (103, b"\x00\x01\x01\xfb\x00\x00\x00\x00\x07\x01\xfb"),
    (507, b"\x00\x00\x00\x08\x09"),
    (3075, b"\x00\x01\x01\xdf\x00\x01\xdf"),
    (
        3551,
        b"\x1f\x0a\x06\x17\x0f\x0f\x01/tablehh\x03CREATE TABLE h(x)",
    ),
];

const MORE_TABLES: &str =
    "a 2 0 id* v|b 3 2|c 4 3 x|d 6 4 x|f 7 2|sqlite_sequence 9 1 name seq|h 3 0 x|";

fn lay_all(file: &mut [u8], patches: &[Patch]) {
    for (at, bytes) in patches {
        lay(file, *at, *bytes);
    }
}

fn file_of(alloc: Global, pages: u32, patches: &[Patch]) -> Result<Vec<u8>, AllocError> {
    let mut file = vec![in alloc; 0u8; 512 * pages as usize]?;
    lay_all(&mut file, patches);
    Ok(file)
}

fn space_of(alloc: Global, pages: u32, file: &[u8]) -> Result<MapSpace, AllocError>
    ensures { IfOk result (λ space. map_refusal space ≡ None) }
{
    let mut filling = Filling::new(alloc, false, pages)?;
    for page in 1..=pages {
        let from = 512 * (page as usize - 1);
        if let Some(bytes) = file.get(from..from + 512) {
            filling.load(page, bytes);
        }
    }
    Ok(filling.into_space())
}

// Adds the names of an entry's columns, with a star behind that of the rowid.
fn put_columns(out: &mut String, table: &TableDef) -> Result<(), AllocError> {
    for (place, column) in table.columns.as_slice().iter().enumerate() {
        out.push(' ')?;
        out.push_str(column.name.as_str())?;
        if table.alias.is_some_and(|alias| alias as usize == place) {
            out.push('*')?;
        }
    }
    Ok(())
}

fn put_entry(alloc: Global, out: &mut String, entry: &Entry) -> Result<(), AllocError> {
    let table = &entry.table;
    let closed = match table.closed {
        Some(reason) => reason as u8,
        None => 0,
    };
    let name = table.name.as_str();
    let root = entry.root;
    out.push_str(format!(in alloc; "{name} {root} {closed}")?.as_str())?;
    put_columns(out, table)?;
    out.push('|')
}

fn put_entries(alloc: Global, out: &mut String, entries: &[Entry]) -> Result<(), AllocError> {
    for entry in entries {
        put_entry(alloc, out, entry)?;
    }
    Ok(())
}

// Adds the catalog of a space, nothing where there is none.
fn put_catalog(alloc: Global, out: &mut String, space: &mut MapSpace) -> Result<(), AllocError>
    requires { map_refusal space.old ≡ None }
{
    match read_catalog(alloc, space) {
        Ok(catalog) => put_entries(alloc, out, catalog.as_slice()),
        Err(_) => Ok(()),
    }
}

// The catalog of a file of nine pages in one line, nothing where there is none.
fn shown(alloc: Global, file: &[u8]) -> Result<String, AllocError> {
    let mut found = String::new(alloc);
    let mut space = space_of(alloc, 9, file)?;
    put_catalog(alloc, &mut found, &mut space)?;
    Ok(found)
}

// Whether that is this line.
fn has_tables(alloc: Global, file: &[u8], tables: &str) -> Result<bool, AllocError> {
    let found = shown(alloc, file)?;
    Ok(found.as_str() == tables)
}

// The file of both parts with these changes.
fn changed(alloc: Global, changes: &[Patch]) -> Result<Vec<u8>, AllocError> {
    let mut file = file_of(alloc, 9, &KINDS)?;
    lay_all(&mut file, &MORE);
    lay_all(&mut file, changes);
    Ok(file)
}

fn kinds_hold(alloc: Global) -> Result<bool, AllocError> {
    let file = file_of(alloc, 9, &KINDS)?;
    has_tables(alloc, &file, TABLES)
}

fn more_holds(alloc: Global) -> Result<bool, AllocError> {
    let file = changed(alloc, &[])?;
    has_tables(alloc, &file, MORE_TABLES)
}

#[test]
fn catalog(rt: HostRuntime) -> Result<(), Fail> {
    let kinds = kinds_hold(rt.alloc())?;
    let more = more_holds(rt.alloc())?;
    expect(&rt, "catalog", 9, kinds && more);
    Ok(())
}

// Damage to the schema whose leaves are 8 and 7, and the leaf that is named for it.
static DAMAGES: [(&str, &[Patch], u32); 11] = [
    ("no record in row 3", &[(3948, b"\x0a")], 8),
    ("no record in row 9", &[(3618, b"\x0a")], 8),
    ("no record in row 10", &[(3554, b"\x0a")], 7),
    ("a name that is a blob in row 10", &[(3555, b"\x0e")], 7),
    (
        "a table's name that is a blob in row 3",
        &[(3950, b"\x0e")],
        8,
    ),
    ("two tables of one name on one leaf", &[(3958, b"b")], 8),
    ("two tables of one name on two leaves", &[(3564, b"a")], 7),
    ("the same in other letters", &[(3564, b"A")], 7),
    (
        "a root past 32 bits in row 10",
        &[(3557, b"\x05%"), (3566, b"\x00\x01\x00\x00\x00\x00")],
        7,
    ),
    // The key lies below the row, so a search for its rowid would end on page 7.
    (
        "no record in row 9 under the key 2",
        &[(511, b"\x02"), (3618, b"\x0a")],
        8,
    ),
    (
        "no record in the rows 3 and 10",
        &[(3554, b"\x0a"), (3948, b"\x0a")],
        8,
    ),
];

// The page that is named as corrupt, or 0.
fn corrupt_in<T: Drop>(found: Result<T, TreeFault>) -> u32 {
    match found {
        Err(TreeFault::Corrupt { page }) => page,
        _ => 0,
    }
}

// The page that is named as corrupt in a file of nine pages, or 0.
fn corrupt_of(alloc: Global, file: &[u8]) -> Result<u32, AllocError> {
    let mut space = space_of(alloc, 9, file)?;
    Ok(corrupt_in(read_catalog(alloc, &mut space)))
}

// Whether this page is named in the file with these changes.
fn is_corrupt(alloc: Global, changes: &[Patch], page: u32) -> Result<bool, AllocError> {
    let file = changed(alloc, changes)?;
    Ok(corrupt_of(alloc, &file)? == page)
}

#[test]
fn damages(rt: HostRuntime) -> Result<(), Fail> {
    for (name, changes, page) in &DAMAGES {
        let holds = is_corrupt(rt.alloc(), *changes, *page)?;
        expect(&rt, *name, 0, holds);
    }
    Ok(())
}

// The rowid of a row of the schema, and the leaf that it is read from.
static LEAVES: [(i64, u32); 4] = [(1, 8), (3, 8), (9, 8), (10, 7)];

// The leaf of the row, or 0 where it is not the only one.
fn leaf_of(alloc: Global, space: &mut MapSpace, rowid: i64) -> u32
    requires { map_refusal space.old ≡ None }
{
    match range_with_leaves(alloc, space, 1, rowid, rowid) {
        Ok(pairs) => match pairs.as_slice() {
            [pair] => pair.leaf,
            _ => 0,
        },
        Err(_) => 0,
    }
}

fn leaf_in(alloc: Global, file: &[u8], rowid: i64) -> Result<u32, AllocError> {
    let mut space = space_of(alloc, 9, file)?;
    Ok(leaf_of(alloc, &mut space, rowid))
}

fn expect_leaves(rt: &impl Abort, alloc: Global, file: &[u8]) -> Result<(), AllocError> {
    for (rowid, page) in &LEAVES {
        let found = leaf_in(alloc, file, *rowid)?;
        expect(rt, "leaf", *rowid, found == *page);
    }
    Ok(())
}

#[test]
fn leaves(rt: HostRuntime) -> Result<(), Fail> {
    let file = changed(rt.alloc(), &[])?;
    expect_leaves(&rt, rt.alloc(), &file)?;
    Ok(())
}

// The front of a node page, and the first trunks that it names; none where it is damaged.
static NODES: [(&[u8], &[u32]); 5] = [
    (b"\x00\x00\x00\x02\x00\x00\x00\x05\x00\x00\x00\x06", &[5, 6]),
    (b"\x00\x00\x00\x01\x00\x00\x00\x07", &[7]),
    (b"\x00\x00\x00\x00\x00\x00\x00\x05", &[]),
    (b"\x00\x00\x00\x11\x00\x00\x00\x05", &[]),
    (b"\x00\x00\x00\x02\x00\x00\x00\x05\x00\x00\x00\x00", &[]),
];

// The pages of a file in which page 4 begins so.
fn node_space(alloc: Global, front: &'static [u8]) -> Result<MapSpace, AllocError>
    ensures { IfOk result (λ space. map_refusal space ≡ None) }
{
    let file = file_of(alloc, 6, &[(1536, front)])?;
    space_of(alloc, 6, &file)
}

// Whether the node names these trunks, or is named as damaged where there are none.
fn node_holds(alloc: Global, front: &'static [u8], firsts: &[u32]) -> Result<bool, AllocError> {
    let mut space = node_space(alloc, front)?;
    match read_node(alloc, &mut space, 4) {
        Ok(trunks) => Ok(trunks.as_slice() == firsts),
        Err(fault) => Ok(fault == TreeFault::Corrupt { page: 4 } && firsts.is_empty()),
    }
}

#[test]
fn nodes(rt: HostRuntime) -> Result<(), Fail> {
    for (row, (front, firsts)) in NODES.iter().enumerate() {
        let holds = node_holds(rt.alloc(), *front, *firsts)?;
        expect(&rt, "node page", row as i64, holds);
    }
    Ok(())
}
