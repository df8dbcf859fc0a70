//! Database files, as the bytes that are not zero and where they lie. Pages have 512 bytes.

use std::alloc::{AllocError, Global};

/// Bytes from a place on.
pub type Patch = (usize, &'static [u8]);

/// A change in words and in bytes, and what is printed of the changed file.
pub type Case = (&'static str, &'static [Patch], &'static str);

/// A file of so many bytes, all zero but for these.
pub fn file_of(alloc: Global, length: usize, patches: &[Patch]) -> Result<Vec<u8>, AllocError> {
    let mut file = vec![in alloc; 0u8; length]?;
    lay(&mut file, patches);
    Ok(file)
}

/// Puts a byte into its place, where the file has such a place.
pub fn put(file: &mut [u8], at: usize, byte: u8) {
    if let Some(place) = file.get_mut(at) {
        *place = byte;
    }
}

/// Lays patches over a file.
pub fn lay(file: &mut [u8], patches: &[Patch]) {
    for (at, bytes) in patches {
        for (i, byte) in bytes.iter().enumerate() {
            put(file, at.wrapping_add(i), *byte);
        }
    }
}

/// Two empty tables, in server form: the free lists of node page 4 are the trunks 5 and 6.
pub static TWO: [Patch; 8] = [
    (
        0,
        b"SQLite format 3\x00\x02\x00\x01\x01\x00@  \x00\x00\x00\x03\x00\x00\x00\x06\x00\x00\x00\x04",
    ),
    (43, b"\x02\x00\x00\x00\x04"),
    (59, b"\x01"),
    (
        95,
        b"\x03\x00.v\x89\x0d\x00\x00\x00\x02\x01\x7e\x00\x01\xbf\x01\x7e",
    ),
    (
        382,
        b"?\x02\x06\x17\x0f\x0f\x01otablebb\x03CREATE TABLE b(id INTEGER PRIMARY KEY, v INTEGER)",
    ),
    (
        447,
        b"?\x01\x06\x17\x0f\x0f\x01otableaa\x02CREATE TABLE a(id INTEGER PRIMARY KEY, v INTEGER)\x0d\x00\x00\x00\x00\x02",
    ),
    (1024, b"\x0d\x00\x00\x00\x00\x02"),
    (1536, b"\x00\x00\x00\x02\x00\x00\x00\x05\x00\x00\x00\x06"),
];

/// The tables `a` and `b`, which are empty, beside two free lists in server form.
pub fn two(alloc: Global) -> Result<Vec<u8>, AllocError> {
    file_of(alloc, 3072, &TWO)
}

// Trees of two levels, chains and free pages, as sqlite3 lays them out. A page's number is that of its 512 bytes.
static FOREST: [Patch; 35] = [
    // 1: the schema, a leaf with the rows of t, c, i and x, whose roots are 2, 3, 4 and 5
    (
        0,
        b"SQLite format 3\x00\x02\x00\x01\x01\x00@  \x00\x00\x00\x0f\x00\x00\x00\x13\x00\x00\x00\x13\x00\x00\x00\x02\x00\x00\x00\x06\x00\x00\x00\x04",
    ),
    (59, b"\x01"),
    (
        95,
        b"\x0f\x00.c\x01\x0d\x00\x00\x00\x04\x018\x00\x01\xc2\x01\x84\x01^\x018",
    ),
    (
        312,
        b"$\x04\x06\x17\x0f\x0f\x019indexxi\x05CREATE INDEX x ON i(a)",
    ),
    (
        350,
        b"$\x03\x06\x17\x0f\x0f\x019tableii\x04CREATE TABLE i(a BLOB)",
    ),
    (
        388,
        b"<\x02\x06\x17\x0f\x0f\x01itablecc\x03CREATE TABLE c(id INTEGER PRIMARY KEY, b BLOB)",
    ),
    (
        450,
        b"<\x01\x06\x17\x0f\x0f\x01itablett\x02CREATE TABLE t(id INTEGER PRIMARY KEY, b BLOB)",
    ),
    // 2: t, the child 7 up to key 2, the child 8 up to key 4, and the child 9
    (
        512,
        b"\x05\x00\x00\x00\x02\x01\xf6\x00\x00\x00\x00\x09\x01\xfb\x01\xf6",
    ),
    (1017, b"\x08\x04\x00\x00\x00\x07\x02"),
    // 3: c, row 7 of 1,204 bytes with the chain 10 and 11, and row 8
    (1024, b"\x0d\x00\x00\x00\x02\x018\x00\x01=\x018"),
    (1336, b"\x03\x08\x03\x00\x00\x894\x07\x04\x00\x92l"),
    (1535, b"\x0a"),
    // 4: i, the child 15 up to key 3 and the child 16
    (
        1536,
        b"\x05\x00\x00\x00\x01\x01\xfb\x00\x00\x00\x00\x10\x01\xfb",
    ),
    (2046, b"\x0f\x03"),
    // 5: x, the child 17, an entry of 705 bytes with the chain 12 and 13, and the child 18
    (
        2048,
        b"\x02\x00\x00\x00\x01\x01\xcf\x00\x00\x00\x00\x12\x01\xcf",
    ),
    (2514, b"\x11\x85A\x04\x8b\x04\x01"),
    (2559, b"\x0c"),
    // 7, 8, 9: t, rows 1 and 2, 3 and 4, and 5, each of 204 bytes; 6 is free
    (3072, b"\x0d\x00\x00\x00\x02\x00b\x00\x011\x00b"),
    (3170, b"\x81L\x02\x04\x00\x83\x1c"),
    (3377, b"\x81L\x01\x04\x00\x83\x1c"),
    (3584, b"\x0d\x00\x00\x00\x02\x00b\x00\x011\x00b"),
    (3682, b"\x81L\x04\x04\x00\x83\x1c"),
    (3889, b"\x81L\x03\x04\x00\x83\x1c"),
    (4096, b"\x0d\x00\x00\x00\x01\x011\x00\x011"),
    (4401, b"\x81L\x05\x04\x00\x83\x1c"),
    // 10 and 11, 12 and 13, 14: overflow pages
    (4611, b"\x0b"),
    (5635, b"\x0d"),
    (6305, b"\x04"),
    // 15, 16: i, rows 1 to 3, and 4 to 6 of which row 4 has 703 bytes with the chain 14
    (
        7168,
        b"\x0d\x00\x00\x00\x03\x00\xd1\x00\x01\x9b\x016\x00\xd1",
    ),
    (7377, b"c\x03\x03\x81L"),
    (7478, b"c\x02\x03\x81L"),
    (7579, b"c\x01\x03\x81L"),
    (7680, b"\x0d\x00\x00\x00\x03\x00l\x00\x016\x00\xd1\x00l"),
    (7788, b"c\x06\x03\x81L\x01"),
    (7889, b"c\x05\x03\x81L\x01"),
];

static FOREST_END: [Patch; 10] = [
    (7990, b"\x85?\x04\x03\x8b\x04"),
    (8191, b"\x0e"),
    // 17, 18: x, three entries and two
    (
        8192,
        b"\x0a\x00\x00\x00\x03\x00\xcf\x00\x01\x9b\x015\x00\xcf",
    ),
    (8399, b"e\x04\x81L\x01"),
    (8500, b"\x03e\x04\x81L\x01"),
    (8602, b"\x02d\x04\x81L\x09"),
    (8704, b"\x0a\x00\x00\x00\x02\x014\x00\x01\x9a\x014"),
    (9012, b"e\x04\x81L\x01\x01"),
    (9113, b"\x06e\x04\x81L\x01\x01"),
    // 19: the trunk, with the leaf 6
    (
        9215,
        b"\x05\x00\x00\x00\x00\x00\x00\x00\x01\x00\x00\x00\x06",
    ),
];

/// The tables `t` with the rows 1 to 5, `c` with the rows 7 and 8, and `i` with an index.
pub fn forest(alloc: Global) -> Result<Vec<u8>, AllocError> {
    let mut file = file_of(alloc, 9728, &FOREST)?;
    lay(&mut file, &FOREST_END);
    Ok(file)
}
