//! A database of two empty tables in server form, and rollback journals beside it, byte by byte.

use std::alloc::{AllocError, Global};

/// Bytes from a place on.
pub type Patch = (usize, &'static [u8]);

/// The database, in six pages of 512 bytes: its bytes that are not zero.
pub const TWO: [Patch; 10] = [
    (
        0,
        b"SQLite format 3\x00\x02\x00\x01\x01\x00@  \x00\x00\x00\x03\x00\x00\x00\x06\x00\x00\x00\x04",
    ),
    (43, b"\x02\x00\x00\x00\x04"),
    (59, b"\x01"),
    (
        95,
        b"\x03\x00.v\x89\x0d\x00\x00\x00\x02\x01\x7e\x00\x01\xbf\x01\x7e",
    ),
    (
        382,
        b"?\x02\x06\x17\x0f\x0f\x01otablebb\x03CREATE TABLE b(id INTEGER PRIMARY KEY, v INTEGER)",
    ),
    (
        447,
        b"?\x01\x06\x17\x0f\x0f\x01otableaa\x02CREATE TABLE a(id INTEGER PRIMARY KEY, v INTEGER)",
    ),
    (512, b"\x0d\x00\x00\x00\x00\x02\x00"),
    (1024, b"\x0d\x00\x00\x00\x00\x02\x00"),
    (1536, b"\x00\x00\x00\x02\x00\x00\x00\x05\x00\x00\x00\x06"),
    (3071, b"\x00"),
];

/// Bytes in a page.
pub const PAGE: usize = 512;

// The front of a journal's head: its nonce is 16, and the database had six pages of 512 bytes.
const HEAD: &[u8] =
    b"\xd9\xd5\x05\xf9\x20\xa1\x63\xd7\xff\xff\xff\xff\x00\x00\x00\x10\x00\x00\x00\x06\x00\x00\x02\x00\x00\x00\x02\x00";

/// Lays bytes over a file from a place on.
pub fn lay(file: &mut [u8], at: usize, bytes: &[u8]) {
    for (i, byte) in bytes.iter().enumerate() {
        if let Some(place) = file.get_mut(at.wrapping_add(i)) {
            *place = *byte;
        }
    }
}

/// The database.
pub fn two(alloc: Global) -> Result<Vec<u8>, AllocError> {
    let mut file = vec![in alloc; 0u8; 6 * PAGE]?;
    for (at, bytes) in &TWO {
        lay(&mut file, *at, bytes);
    }
    Ok(file)
}

/// The database with these pages overwritten by bytes `ff`.
pub fn spoilt(alloc: Global, pages: &[usize]) -> Result<Vec<u8>, AllocError> {
    let mut file = two(alloc)?;
    for page in pages {
        let ones = [0xffu8; PAGE];
        lay(&mut file, page.saturating_sub(1).wrapping_mul(PAGE), &ones);
    }
    Ok(file)
}

// Adds a record of a page, as the file has it.
fn push_record(found: &mut Vec<u8>, file: &[u8], page: u8) -> Result<(), AllocError> {
    found.extend_from_slice(&[0, 0, 0, page])?;
    let from = usize::from(page).saturating_sub(1).wrapping_mul(PAGE);
    for byte in file.iter().skip(from).take(PAGE) {
        found.push(*byte)?;
    }
    found.extend_from_slice(&[0, 0, 0, 16])
}

/// A journal with a record of each of these pages, as the database has them. Each has the checksum
/// 16, since the bytes that count are zero.
pub fn journal(alloc: Global, pages: &[u8]) -> Result<Vec<u8>, AllocError> {
    let file = two(alloc)?;
    let mut found = vec![in alloc; 0u8; 512]?;
    lay(&mut found, 0, HEAD);
    for page in pages {
        push_record(&mut found, &file, *page)?;
    }
    Ok(found)
}
