//! Database files, as the bytes that are not zero and where they lie.

use std::alloc::{AllocError, Global};

/// Bytes from a place on.
pub type Patch = (usize, &'static [u8]);

// Puts a byte into its place, where the file has such a place.
fn put(file: &mut [u8], at: usize, byte: u8) {
    if let Some(place) = file.get_mut(at) {
        *place = byte;
    }
}

fn lay(file: &mut [u8], patches: &[Patch]) {
    for (at, bytes) in patches {
        for (i, byte) in bytes.iter().enumerate() {
            put(file, at.wrapping_add(i), *byte);
        }
    }
}

/// Two empty tables in a file of so many bytes, and these bytes over it.
pub fn two_of(alloc: Global, length: usize, later: &[Patch]) -> Result<Vec<u8>, AllocError> {
    let mut file = vec![in alloc; 0u8; length]?;
    lay(&mut file, &TWO);
    lay(&mut file, later);
    Ok(file)
}

/// How many bytes the file with two empty tables has: six pages of 512.
pub const TWO_LENGTH: usize = 3072;

// Two empty tables, in server form: the free lists of node page 4 are the trunks 5 and 6.
static TWO: [Patch; 8] = [
    (
        0,
        b"SQLite format 3\x00\x02\x00\x01\x01\x00@  \x00\x00\x00\x03\x00\x00\x00\x06\x00\x00\x00\x04",
    ),
    (43, b"\x02\x00\x00\x00\x04"),
    (59, b"\x01"),
    (
        95,
        b"\x03\x00.v\x89\x0d\x00\x00\x00\x02\x01\x7e\x00\x01\xbf\x01\x7e",
    ),
    (
        382,
        b"?\x02\x06\x17\x0f\x0f\x01otablebb\x03CREATE TABLE b(id INTEGER PRIMARY KEY, v INTEGER)",
    ),
    (
        447,
        b"?\x01\x06\x17\x0f\x0f\x01otableaa\x02CREATE TABLE a(id INTEGER PRIMARY KEY, v INTEGER)\x0d\x00\x00\x00\x00\x02",
    ),
    (1024, b"\x0d\x00\x00\x00\x00\x02"),
    (1536, b"\x00\x00\x00\x02\x00\x00\x00\x05\x00\x00\x00\x06"),
];
