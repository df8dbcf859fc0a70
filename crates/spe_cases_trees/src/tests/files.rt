//! Files of pages, as the bytes that are not zero and where they lie.

/// The page, the place in it, and the bytes that stand there.
pub type Patch = (u32, usize, &'static [u8]);

/// Pages, of which those up to the root's neighbours are zeros but for these bytes.
#[derive(Clone, Copy)]
pub struct File {
    /// Whether a page has 65536 bytes and not 512.
    pub large: bool,
    pub pages: u32,
    pub patches: &'static [Patch],
}

/// A tree, and what is in it.
pub struct Table {
    pub name: &'static str,
    pub file: File,
    pub root: u32,
    /// All its rows: rowid and payload.
    pub rows: &'static [(i64, &'static [u8])],
    /// Rowids that it has not.
    pub gaps: &'static [i64],
    /// Two rowids, and the first of the rows from one to the other and the end of them.
    pub parts: &'static [(i64, i64, usize, usize)],
}

const EMPTY_LEAF: &[u8] = b"\x0d\x00\x00\x00\x00\x02\x00\x00";

pub static TABLES: [Table; 12] = [
    // Cells in no order, a freeblock between them, and three fragmented bytes.
    Table {
        name: "leaf",
        file: File {
            large: false,
            pages: 2,
            patches: &[
                (
                    2,
                    0,
                    b"\x0d\x01\xd6\x00\x03\x01\xd6\x03\x01\xe0\x01\xf4\x01\xea",
                ),
                (2, 470, b"\x00\x00\x00\x08"),
                (2, 480, b"\x01\x01a"),
                (2, 490, b"\x00\x81H"),
                (2, 500, b"\x02\x03bc"),
            ],
        },
        root: 2,
        rows: &[(1, b"a"), (3, b"bc"), (200, b"")],
        gaps: &[0, 2, 4, 199, 201],
        parts: &[
            (2, 200, 1, 3),
            (1, 199, 0, 2),
            (3, 3, 1, 2),
            (4, 199, 2, 2),
            (5, 1, 0, 0),
        ],
    },
    // A negative rowid, and varints that are longer than need be.
    Table {
        name: "long spellings",
        file: File {
            large: false,
            pages: 2,
            patches: &[
                (2, 0, b"\x0d\x00\x00\x00\x02\x01\xe0\x00\x01\xf4\x01\xe0"),
                (2, 480, b"\x80\x80\x01\x80\x80\x05y"),
                (2, 500, b"\x01\xff\xff\xff\xff\xff\xff\xff\xff\xffx"),
            ],
        },
        root: 2,
        rows: &[(-1, b"x"), (5, b"y")],
        gaps: &[0, -2, 6],
        parts: &[(0, 9, 1, 2)],
    },
    // The first and the last rowid.
    Table {
        name: "ends",
        file: File {
            large: false,
            pages: 2,
            patches: &[
                (
                    2,
                    0,
                    b"\x0d\x00\x00\x00\x03\x01\xe3\x00\x01\xf3\x01\xf1\x01\xe3",
                ),
                (
                    2,
                    483,
                    b"\x04\xbf\xff\xff\xff\xff\xff\xff\xff\xffhigh\x00\x00\x03\xc0\x80\x80\x80\x80\x80\x80\x80\x00low",
                ),
            ],
        },
        root: 2,
        rows: &[(i64::MIN, b"low"), (0, b""), (i64::MAX, b"high")],
        gaps: &[1, -1],
        parts: &[(i64::MIN, 0, 0, 2), (1, i64::MAX, 2, 3)],
    },
    // A leaf without cells.
    Table {
        name: "empty",
        file: File {
            large: false,
            pages: 2,
            patches: &[(2, 0, EMPTY_LEAF)],
        },
        root: 2,
        rows: &[],
        gaps: &[0],
        parts: &[],
    },
    // The same in the largest page, whose cells would begin at 65536, which is written 0.
    Table {
        name: "empty large",
        file: File {
            large: true,
            pages: 2,
            patches: &[(2, 0, b"\x0d\x00\x00\x00\x00\x00\x00\x00")],
        },
        root: 2,
        rows: &[],
        gaps: &[0],
        parts: &[],
    },
    // The last bytes of the largest page.
    Table {
        name: "large",
        file: File {
            large: true,
            pages: 2,
            patches: &[
                (2, 0, b"\x0d\x00\x00\x00\x01\xff\xfc\x00\xff\xfc"),
                (2, 65532, b"\x02\x07ab"),
            ],
        },
        root: 2,
        rows: &[(7, b"ab")],
        gaps: &[6, 8],
        parts: &[],
    },
    // The root is page 1, whose header begins at 100; the key 20 has no row.
    Table {
        name: "two levels",
        file: File {
            large: false,
            pages: 4,
            patches: &[
                (
                    1,
                    100,
                    b"\x05\x00\x00\x00\x02\x01\xf6\x00\x00\x00\x00\x03\x01\xfb\x01\xf6",
                ),
                (1, 502, b"\x00\x00\x00\x02\x14\x00\x00\x00\x04\x0a"),
                (2, 0, b"\x0d\x00\x00\x00\x01\x01\xfd\x00\x01\xfd"),
                (2, 509, b"\x01\x0fd"),
                (3, 0, b"\x0d\x00\x00\x00\x02\x01\xf9\x00\x01\xfd\x01\xf9"),
                (3, 505, b"\x01\x82,f\x01\x15e"),
                (4, 0, b"\x0d\x00\x00\x00\x02\x01\xfa\x00\x01\xfd\x01\xfa"),
                (4, 506, b"\x01\x0ac\x01\x05b"),
            ],
        },
        root: 1,
        rows: &[(5, b"b"), (10, b"c"), (15, b"d"), (21, b"e"), (300, b"f")],
        gaps: &[1, 9, 11, 14, 16, 20, 299, 301],
        parts: &[
            (10, 15, 1, 3),
            (11, 20, 2, 3),
            (20, 21, 3, 4),
            (21, 21, 3, 4),
            (16, 20, 3, 3),
            (300, 301, 4, 5),
            (22, 9, 0, 0),
        ],
    },
    // An interior page without a cell, and an empty leaf between the others.
    Table {
        name: "three levels",
        file: File {
            large: false,
            pages: 7,
            patches: &[
                (
                    2,
                    0,
                    b"\x05\x00\x00\x00\x01\x01\xfb\x00\x00\x00\x00\x04\x01\xfb",
                ),
                (2, 507, b"\x00\x00\x00\x03\x0a"),
                (
                    3,
                    0,
                    b"\x05\x00\x00\x00\x01\x01\xfb\x00\x00\x00\x00\x06\x01\xfb",
                ),
                (3, 507, b"\x00\x00\x00\x05\x04"),
                (4, 0, b"\x05\x00\x00\x00\x00\x02\x00\x00\x00\x00\x00\x07"),
                (5, 0, b"\x0d\x00\x00\x00\x02\x01\xfa\x00\x01\xfd\x01\xfa"),
                (5, 506, b"\x01\x04b\x01\x02a"),
                (6, 0, EMPTY_LEAF),
                (7, 0, b"\x0d\x00\x00\x00\x02\x01\xfa\x00\x01\xfd\x01\xfa"),
                (7, 506, b"\x01\x0cd\x01\x0bc"),
            ],
        },
        root: 2,
        rows: &[(2, b"a"), (4, b"b"), (11, b"c"), (12, b"d")],
        gaps: &[0, 3, 5, 10, 13],
        parts: &[(4, 11, 1, 3), (5, 10, 2, 2)],
    },
    // All leaves but the first are empty.
    Table {
        name: "empty ends",
        file: File {
            large: false,
            pages: 8,
            patches: &[
                (
                    2,
                    0,
                    b"\x05\x00\x00\x00\x01\x01\xfb\x00\x00\x00\x00\x04\x01\xfb",
                ),
                (2, 507, b"\x00\x00\x00\x03\x0a"),
                (
                    3,
                    0,
                    b"\x05\x00\x00\x00\x01\x01\xfb\x00\x00\x00\x00\x06\x01\xfb",
                ),
                (3, 507, b"\x00\x00\x00\x05\x04"),
                (
                    4,
                    0,
                    b"\x05\x00\x00\x00\x01\x01\xfb\x00\x00\x00\x00\x08\x01\xfb",
                ),
                (4, 507, b"\x00\x00\x00\x07\x0c"),
                (5, 0, b"\x0d\x00\x00\x00\x01\x01\xfd\x00\x01\xfd"),
                (5, 509, b"\x01\x02a"),
                (6, 0, EMPTY_LEAF),
                (7, 0, EMPTY_LEAF),
                (8, 0, EMPTY_LEAF),
            ],
        },
        root: 2,
        rows: &[(2, b"a")],
        gaps: &[1, 3, 5, 11, 12, 13],
        parts: &[(3, 99, 1, 1), (0, 2, 0, 1)],
    },
    // The right-most leaf alone is empty.
    Table {
        name: "empty right",
        file: File {
            large: false,
            pages: 5,
            patches: &[
                (
                    2,
                    0,
                    b"\x05\x00\x00\x00\x02\x01\xf6\x00\x00\x00\x00\x05\x01\xfb\x01\xf6",
                ),
                (2, 502, b"\x00\x00\x00\x04\x14\x00\x00\x00\x03\x0a"),
                (3, 0, b"\x0d\x00\x00\x00\x01\x01\xfd\x00\x01\xfd"),
                (3, 509, b"\x01\x01a"),
                (4, 0, b"\x0d\x00\x00\x00\x02\x01\xfa\x00\x01\xfd\x01\xfa"),
                (4, 506, b"\x01\x0cc\x01\x0bb"),
                (5, 0, EMPTY_LEAF),
            ],
        },
        root: 2,
        rows: &[(1, b"a"), (11, b"b"), (12, b"c")],
        gaps: &[2, 10, 13, 21],
        parts: &[(11, 11, 1, 2), (2, 12, 1, 3)],
    },
    // All leaves are empty.
    Table {
        name: "empty tree",
        file: File {
            large: false,
            pages: 4,
            patches: &[
                (
                    2,
                    0,
                    b"\x05\x00\x00\x00\x01\x01\xfb\x00\x00\x00\x00\x04\x01\xfb",
                ),
                (2, 507, b"\x00\x00\x00\x03\x01"),
                (3, 0, EMPTY_LEAF),
                (4, 0, EMPTY_LEAF),
            ],
        },
        root: 2,
        rows: &[],
        gaps: &[1, 2],
        parts: &[],
    },
    // The key is the last rowid, and nothing can be to its right.
    Table {
        name: "last key",
        file: File {
            large: false,
            pages: 4,
            patches: &[
                (
                    2,
                    0,
                    b"\x05\x00\x00\x00\x01\x01\xf3\x00\x00\x00\x00\x04\x01\xf3",
                ),
                (
                    2,
                    499,
                    b"\x00\x00\x00\x03\xbf\xff\xff\xff\xff\xff\xff\xff\xff",
                ),
                (3, 0, b"\x0d\x00\x00\x00\x01\x01\xf5\x00\x01\xf5"),
                (3, 501, b"\x01\xbf\xff\xff\xff\xff\xff\xff\xff\xffz"),
                (4, 0, EMPTY_LEAF),
            ],
        },
        root: 2,
        rows: &[(i64::MAX, b"z")],
        gaps: &[i64::MAX - 1, 0],
        parts: &[(i64::MAX, i64::MAX, 0, 1)],
    },
];
