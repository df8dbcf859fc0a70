//! Files of pages of 512 bytes, as the bytes that are not zero and where they lie, and the statements
//! that make the same rows.

use crate::tests::steps::Command::{self, Insert};
use crate::tests::steps::Field::{Int, Null, Text, Zeros};

/// The page, the place in it, and the bytes that stand there.
pub type Patch = (u32, usize, &'static [u8]);

/// Pages of zeros but for these bytes.
pub struct File {
    pub pages: u32,
    pub front: &'static [Patch],
    pub rest: &'static [Patch],
    /// What gives tables without rows the rows of the file.
    pub rows: &'static [Command],
}

// Two tables, `a` on page 2 and `b` on page 3, and two free lists. Only page 2 is not here.
const TWO: &[Patch] = &[
    (
        1,
        0,
        b"SQLite format 3\x00\x02\x00\x01\x01\x00@  \x00\x00\x00\x03\x00\x00\x00\x06\x00\x00\x00\x04",
    ),
    (1, 43, b"\x02\x00\x00\x00\x04"),
    (1, 59, b"\x01"),
    (
        1,
        95,
        b"\x03\x00.v\x89\x0d\x00\x00\x00\x02\x01~\x00\x01\xbf\x01~",
    ),
    (
        1,
        382,
        b"?\x02\x06\x17\x0f\x0f\x01otablebb\x03CREATE TABLE b(id INTEGER PRIMARY KEY, v INTEGER)",
    ),
    (
        1,
        447,
        b"?\x01\x06\x17\x0f\x0f\x01otableaa\x02CREATE TABLE a(id INTEGER PRIMARY KEY, v INTEGER)",
    ),
    (3, 0, b"\x0d\x00\x00\x00\x00\x02"),
    (4, 0, b"\x00\x00\x00\x02\x00\x00\x00\x05\x00\x00\x00\x06"),
];

/// Both tables are empty.
pub static EMPTY: File = File {
    pages: 6,
    front: TWO,
    rest: &[(2, 0, b"\x0d\x00\x00\x00\x00\x02")],
    rows: &[],
};

/// `a` has the row (1, 10).
pub static ONE: File = File {
    pages: 6,
    front: TWO,
    rest: &[
        (2, 0, b"\x0d\x00\x00\x00\x01\x01\xfa\x00\x01\xfa"),
        (2, 506, b"\x04\x01\x03\x00\x01\x0a"),
    ],
    rows: &[Insert("a", false, &[], &[Int(1), Int(10)])],
};

/// `a` has a row with the last rowid.
pub static LAST: File = File {
    pages: 6,
    front: TWO,
    rest: &[
        (2, 0, b"\x0d\x00\x00\x00\x01\x01\xf3\x00\x01\xf3"),
        (
            2,
            499,
            b"\x03\xbf\xff\xff\xff\xff\xff\xff\xff\xff\x03\x00\x09",
        ),
    ],
    rows: &[Insert("a", false, &[], &[Int(i64::MAX), Int(1)])],
};

/// The root of `a` is no page of a tree.
pub static SPOILT: File = File {
    pages: 6,
    front: TWO,
    rest: &[(2, 0, &[0xff; 512])],
    rows: &[],
};

/// The root of `a` names page 9 below it.
pub static SHORT: File = File {
    pages: 6,
    front: TWO,
    rest: &[(2, 0, b"\x05\x00\x00\x00\x00\x02\x00\x00\x00\x00\x00\x09")],
    rows: &[],
};

/// On page 7, below the root of `a`, a row has three fields.
pub static LONG: File = File {
    pages: 7,
    front: TWO,
    rest: &[
        (2, 0, b"\x05\x00\x00\x00\x00\x02\x00\x00\x00\x00\x00\x07"),
        (7, 0, b"\x0d\x00\x00\x00\x01\x01\xfa\x00\x01\xfa"),
        (7, 506, b"\x04\x01\x04\x00\x09\x09"),
    ],
    rows: &[],
};

/// Made by sqlite3, but for the tree of `a`, which has two levels. One table has an index and is closed
/// for it, and a row has overflow pages. Page 1 is an interior page.
pub static KINDS: File = File {
    pages: 13,
    front: &[
        (
            1,
            0,
            b"SQLite format 3\x00\x02\x00\x01\x01\x00@  \x00\x00\x00\x04\x00\x00\x00\x0d",
        ),
        (1, 43, b"\x08\x00\x00\x00\x04"),
        (1, 59, b"\x01"),
        (
            1,
            95,
            b"\x04\x00.c\x01\x05\x00\x00\x00\x00\x02\x00\x00\x00\x00\x00\x08",
        ),
        (
            8,
            0,
            b"\x0d\x00\x00\x00\x06\x00m\x00\x01\xbf\x01`\x01\x0f\x00\xd4\x00\x99\x00m",
        ),
        (
            8,
            109,
            b"*\x06\x06\x17\x0f\x15\x01?indexishut\x07CREATE INDEX i ON shut(v)9\x05\x06\x17\x13\x13\x01[tableownown\x06CREATE TABLE own(rowid TEXT, v INTEGER)9\x04\x06\x17\x15\x15\x01Wtableshutshut\x05CREATE TABLE shut(v INTEGER NOT NULL)O\x03\x07\x17\x0f\x0f\x01\x81\x0dtablekk\x04CREATE TABLE k(v TEXT NOT NULL, id INTEGER NOT NULL PRIMARY KEY)]\x02\x07\x17\x15\x15\x01\x81\x1dtableeacheach\x03CREATE TABLE each(i INTEGER NOT NULL, t TEXT, b BLOB, r REAL, n NUMERIC)?\x01\x06\x17\x0f\x0f\x01otableaa\x02CREATE TABLE a(id INTEGER PRIMARY KEY, v INTEGER)",
        ),
    ],
    rest: &[
        // `a`: the key 12 has no row
        (
            2,
            0,
            b"\x05\x00\x00\x00\x02\x01\xee\x00\x00\x00\x00\x0d\x01\xf3\x01\xee",
        ),
        (
            2,
            494,
            b"\x00\x00\x00\x0c\x0c\x00\x00\x00\x0b\xff\xff\xff\xff\xff\xff\xff\xff\xfd",
        ),
        (11, 0, b"\x0d\x00\x00\x00\x02\x01\xe5\x00\x01\xf3\x01\xe5"),
        (
            11,
            485,
            b"\x04\xff\xff\xff\xff\xff\xff\xff\xff\xfd\x03\x00\x01\x02\x03\xc0\x80\x80\x80\x80\x80\x80\x80\x00\x03\x00\x09",
        ),
        (12, 0, b"\x0d\x00\x00\x00\x02\x01\xf5\x00\x01\xfb\x01\xf5"),
        (12, 501, b"\x04\x0a\x03\x00\x01(\x03\x05\x03\x00\x00"),
        (13, 0, b"\x0d\x00\x00\x00\x02\x01\xeb\x00\x01\xfa\x01\xeb"),
        (
            13,
            491,
            b"\x05\xbf\xff\xff\xff\xff\xff\xff\xff\xff\x03\x00\x02\x01,\x04\x14\x03\x00\x01\xf9",
        ),
        // `each`: a record of one field, one of five, and one with two overflow pages
        (
            3,
            0,
            b"\x0d\x00\x00\x00\x03\x01\xbe\x00\x01\xf8\x01\xec\x01\xbe",
        ),
        (3, 446, b"\x87p\x03\x07\x01\x00\x8f\\\x00\x00\x09"),
        (
            3,
            491,
            b"\x09\x0a\x02\x06\x09\x0f\x10\x00\x01x\x00\x00\x05\x06\x01\x05\x01\x00\x00\x00\x07",
        ),
        (9, 3, b"\x0a"),
        // `k`
        (4, 0, b"\x0d\x00\x00\x00\x02\x01\xf3\x00\x01\xfa\x01\xf3"),
        (4, 499, b"\x05\x07\x03\x11\x00yy\x04\x03\x03\x0f\x00x"),
        // `shut` and its index
        (5, 0, b"\x0d\x00\x00\x00\x01\x01\xfc\x00\x01\xfc"),
        (5, 508, b"\x02\x01\x02\x09"),
        (7, 0, b"\x0a\x00\x00\x00\x01\x01\xfc\x00\x01\xfc"),
        (7, 508, b"\x03\x03\x09\x09"),
        // `own`
        (6, 0, b"\x0d\x00\x00\x00\x02\x01\xf2\x00\x01\xf9\x01\xf2"),
        (
            6,
            498,
            b"\x05\x02\x03\x0f\x01q\x05\x05\x01\x03\x0f\x01p\x04",
        ),
    ],
    rows: &[
        Insert("a", false, &[], &[Int(i64::MAX), Int(300)]),
        Insert("a", false, &[], &[Int(20), Int(-7)]),
        Insert("a", false, &[], &[Int(10), Int(40)]),
        Insert("a", false, &[], &[Int(5), Null]),
        Insert("a", false, &[], &[Int(-3), Int(2)]),
        Insert("a", false, &[], &[Int(i64::MIN), Int(1)]),
        Insert("each", true, &["i"], &[Int(7)]),
        Insert(
            "each",
            false,
            &[],
            &[Int(1), Text("x"), Zeros(2), Null, Int(5)],
        ),
        Insert("each", true, &["i", "b"], &[Int(9), Zeros(1000)]),
        Insert("k", false, &[], &[Text("x"), Int(3)]),
        Insert("k", false, &[], &[Text("yy"), Int(7)]),
        Insert("own", false, &[], &[Text("p"), Int(4)]),
        Insert("own", false, &[], &[Text("q"), Int(5)]),
    ],
};
