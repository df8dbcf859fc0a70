//! Database files, as the bytes that are not zero and where they lie.

use std::alloc::{AllocError, Global};

/// Bytes from a place on.
pub type Patch = (usize, &'static [u8]);

// Puts a byte into its place, where the file has such a place.
fn put(file: &mut [u8], at: usize, byte: u8) {
    if let Some(place) = file.get_mut(at) {
        *place = byte;
    }
}

/// Lays patches over a file.
pub fn lay(file: &mut [u8], patches: &[Patch]) {
    for (at, bytes) in patches {
        for (i, byte) in bytes.iter().enumerate() {
            put(file, at.wrapping_add(i), *byte);
        }
    }
}

/// A file of so many bytes, all zero but for these, the later over the earlier.
pub fn file_of(
    alloc: Global,
    length: usize,
    patches: &[Patch],
    later: &[Patch],
) -> Result<Vec<u8>, AllocError> {
    let mut file = vec![in alloc; 0u8; length]?;
    lay(&mut file, patches);
    lay(&mut file, later);
    Ok(file)
}

/// Two empty tables, in server form: the free lists of node page 4 are the trunks 5 and 6. 3,072 bytes.
pub static TWO: [Patch; 8] = [
    (
        0,
        b"SQLite format 3\x00\x02\x00\x01\x01\x00@  \x00\x00\x00\x03\x00\x00\x00\x06\x00\x00\x00\x04",
    ),
    (43, b"\x02\x00\x00\x00\x04"),
    (59, b"\x01"),
    (
        95,
        b"\x03\x00.v\x89\x0d\x00\x00\x00\x02\x01\x7e\x00\x01\xbf\x01\x7e",
    ),
    (
        382,
        b"?\x02\x06\x17\x0f\x0f\x01otablebb\x03CREATE TABLE b(id INTEGER PRIMARY KEY, v INTEGER)",
    ),
    (
        447,
        b"?\x01\x06\x17\x0f\x0f\x01otableaa\x02CREATE TABLE a(id INTEGER PRIMARY KEY, v INTEGER)\x0d\x00\x00\x00\x00\x02",
    ),
    (1024, b"\x0d\x00\x00\x00\x00\x02"),
    (1536, b"\x00\x00\x00\x02\x00\x00\x00\x05\x00\x00\x00\x06"),
];

/// What is other once its free lists are in stock form.
pub static TWO_RELEASED: [Patch; 3] = [
    (
        24,
        b"\x00\x00\x00\x04\x00\x00\x00\x06\x00\x00\x00\x04\x00\x00\x00\x03",
    ),
    (92, b"\x00\x00\x00\x04"),
    (
        1536,
        b"\x00\x00\x00\x00\x00\x00\x00\x02\x00\x00\x00\x05\x00\x00\x00\x06",
    ),
];

/// The table `p` with the rows 1, 2 and 3, in stock form: 1,024 bytes.
pub static PEOPLE: [Patch; 6] = [
    (
        0,
        b"SQLite format 3\x00\x02\x00\x01\x01\x00@  \x00\x00\x00\x02\x00\x00\x00\x02",
    ),
    (43, b"\x01\x00\x00\x00\x04"),
    (59, b"\x01"),
    (
        95,
        b"\x02\x00.v\x89\x0d\x00\x00\x00\x01\x01\xbf\x00\x01\xbf",
    ),
    (
        447,
        b"?\x01\x06\x17\x0f\x0f\x01otablepp\x02CREATE TABLE p(id INTEGER PRIMARY KEY, name TEXT)\x0d\x00\x00\x00\x03\x01\xeb\x00\x01\xf8\x01\xf0\x01\xeb",
    ),
    (
        1003,
        b"\x03\x03\x03\x00\x00\x06\x02\x03\x00\x13bob\x06\x01\x03\x00\x13ann",
    ),
];

/// What is other once it is in server form, with two free lists behind node page 3: 2,560 bytes.
pub static PEOPLE_PREPARED: [Patch; 3] = [
    (24, b"\x00\x00\x00\x03\x00\x00\x00\x05\x00\x00\x00\x03"),
    (92, b"\x00\x00\x00\x03"),
    (1024, b"\x00\x00\x00\x02\x00\x00\x00\x04\x00\x00\x00\x05"),
];

/// What is other once these free lists are in stock form again.
pub static PEOPLE_RELEASED: [Patch; 3] = [
    (
        24,
        b"\x00\x00\x00\x04\x00\x00\x00\x05\x00\x00\x00\x03\x00\x00\x00\x03",
    ),
    (92, b"\x00\x00\x00\x04"),
    (
        1024,
        b"\x00\x00\x00\x00\x00\x00\x00\x02\x00\x00\x00\x04\x00\x00\x00\x05",
    ),
];

/// What is printed of its rows.
pub const PEOPLE_ROWS: &str = "1|1|'ann'\n2|2|'bob'\n3|3|NULL\nrows 3\n";
