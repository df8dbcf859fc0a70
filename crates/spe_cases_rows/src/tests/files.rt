//! Database files, as the bytes that are not zero and where they lie.

use std::alloc::{AllocError, Global};

/// Bytes from a place on.
pub type Patch = (usize, &'static [u8]);

/// A file of so many bytes, all zero but for these.
pub fn file_of(alloc: Global, length: usize, patches: &[Patch]) -> Result<Vec<u8>, AllocError> {
    let mut file = vec![in alloc; 0u8; length]?;
    lay(&mut file, patches);
    Ok(file)
}

/// Puts a byte into its place, where the file has such a place.
pub fn put(file: &mut [u8], at: usize, byte: u8) {
    if let Some(place) = file.get_mut(at) {
        *place = byte;
    }
}

/// Lays patches over a file.
pub fn lay(file: &mut [u8], patches: &[Patch]) {
    for (at, bytes) in patches {
        for (i, byte) in bytes.iter().enumerate() {
            put(file, at.wrapping_add(i), *byte);
        }
    }
}

const HEAD: &[u8] =
    b"\xd9\xd5\x05\xf9\x20\xa1\x63\xd7\xff\xff\xff\xff\x00\x00\x00\x10\x00\x00\x00\x06\x00\x00\x02\x00\x00\x00\x02\x00";

// Adds a record of this page of the file, whose bytes that count for the checksum are zero.
fn push_record(found: &mut Vec<u8>, file: &[u8], page: u8) -> Result<(), AllocError> {
    found.extend_from_slice(&[0, 0, 0, page])?;
    let from = usize::from(page).saturating_sub(1).wrapping_mul(512);
    for byte in file.iter().skip(from).take(512) {
        found.push(*byte)?;
    }
    found.extend_from_slice(&[0, 0, 0, 16])
}

/// A journal of a database of so many pages, with a record of this page of the file.
pub fn journal(alloc: Global, pages: u8, file: &[u8], page: u8) -> Result<Vec<u8>, AllocError> {
    let mut found = file_of(alloc, 512, &[(0, HEAD)])?;
    put(&mut found, 19, pages);
    push_record(&mut found, file, page)?;
    Ok(found)
}

/// Two empty tables, in server form: the free lists of node page 4 are the trunks 5 and 6.
pub static TWO: [Patch; 8] = [
    (
        0,
        b"SQLite format 3\x00\x02\x00\x01\x01\x00@  \x00\x00\x00\x03\x00\x00\x00\x06\x00\x00\x00\x04",
    ),
    (43, b"\x02\x00\x00\x00\x04"),
    (59, b"\x01"),
    (
        95,
        b"\x03\x00.v\x89\x0d\x00\x00\x00\x02\x01\x7e\x00\x01\xbf\x01\x7e",
    ),
    (
        382,
        b"?\x02\x06\x17\x0f\x0f\x01otablebb\x03CREATE TABLE b(id INTEGER PRIMARY KEY, v INTEGER)",
    ),
    (
        447,
        b"?\x01\x06\x17\x0f\x0f\x01otableaa\x02CREATE TABLE a(id INTEGER PRIMARY KEY, v INTEGER)\x0d\x00\x00\x00\x00\x02",
    ),
    (1024, b"\x0d\x00\x00\x00\x00\x02"),
    (1536, b"\x00\x00\x00\x02\x00\x00\x00\x05\x00\x00\x00\x06"),
];

/// The tables `a` and `b`, which are empty, beside two free lists in server form.
pub fn two(alloc: Global) -> Result<Vec<u8>, AllocError> {
    file_of(alloc, 3072, &TWO)
}

/// The table `p` with the rows 1, 2 and 3, in pages of 512 bytes: 1,024 bytes.
pub const PEOPLE: [Patch; 6] = [
    (
        0,
        b"SQLite format 3\x00\x02\x00\x01\x01\x00@  \x00\x00\x00\x02\x00\x00\x00\x02",
    ),
    (43, b"\x01\x00\x00\x00\x04"),
    (59, b"\x01"),
    (
        95,
        b"\x02\x00.v\x89\x0d\x00\x00\x00\x01\x01\xbf\x00\x01\xbf",
    ),
    (
        447,
        b"?\x01\x06\x17\x0f\x0f\x01otablepp\x02CREATE TABLE p(id INTEGER PRIMARY KEY, name TEXT)\x0d\x00\x00\x00\x03\x01\xeb\x00\x01\xf8\x01\xf0\x01\xeb",
    ),
    (
        1003,
        b"\x03\x03\x03\x00\x00\x06\x02\x03\x00\x13bob\x06\x01\x03\x00\x13ann",
    ),
];

/// Made by sqlite3: the tables `p`, with numbers at the ends of their range and texts with quotes and
/// characters past ASCII, and `Empty`, in pages of 512 bytes: 1,536 bytes.
pub const SIGNS: [Patch; 7] = [
    (
        0,
        b"SQLite format 3\x00\x02\x00\x01\x01\x00@  \x00\x00\x00\x03\x00\x00\x00\x03",
    ),
    (43, b"\x02\x00\x00\x00\x04"),
    (59, b"\x01"),
    (
        95,
        b"\x03\x00.c\x01\x0d\x00\x00\x00\x02\x01\x85\x00\x01\xb7\x01\x85",
    ),
    (
        389,
        b"0\x02\x06\x17\x17\x17\x01AtableEmptyEmpty\x03CREATE TABLE Empty(x TEXT)G\x01\x06\x17\x0f\x0f\x01\x7ftablepp\x02CREATE TABLE p(id INTEGER PRIMARY KEY, a INTEGER, b TEXT)\x0d\x00\x00\x00\x07\x01\x9f\x00\x01\xed\x01\xd5\x01\xc7\x01\xb2\x01\xab\x01\x9f\x01\xb9",
    ),
    (
        927,
        b"\x0a\x05\x04\x00\x03\x13\xff\x7f\xffa|b\x05\x04\x04\x00\x09\x0f'\x05\x03\x04\x00\x08\x0f1\x04\xbf\xff\xff\xff\xff\xff\xff\xff\xff\x04\x00\x00\x00\x0c\x02\x04\x00\x06\x0d\x80",
    ),
    (
        981,
        b"\x16\x01\x04\x00\x06!\x7f\xff\xff\xff\xff\xff\xff\xffna\xc3\xafve \xe2\x98\x83\x09\xff\xff\xff\xff\xff\xff\xff\xff\xfb\x04\x00\x01\x15\xffit's\x0d\x00\x00\x00\x00\x02",
    ),
];

/// What is printed of the table `p` of that file.
pub const SIGNS_ROWS: &str =
    "-5|-5|-1|'it''s'\n1|1|9223372036854775807|'naïve ☃'\n2|2|-9223372036854775808|''\n\
         3|3|0|'1'\n4|4|1|''''\n5|5|-32769|'a|b'\n9223372036854775807|9223372036854775807|NULL|NULL\nrows 7\n";
