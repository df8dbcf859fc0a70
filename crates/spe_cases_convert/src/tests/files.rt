//! A file of two pages, and what it is to be: page 1 changed, and page 3 added.

ghost use Rattle.std.specs.Prelude.{◌≡◌, length, IfOk};
ghost use Rattle.spe_rewrite.specs.Changes.{AreChanges};

use spe_model::Bytes;
use spe_rewrite::{Change, Changes};
use std::alloc::{AllocError, Global};

/// Bytes in a page.
pub const PAGE: usize = 512;

// The header of page 1 up to its change counter, 3, and its count of pages, 2; and what is there then.
const OLD: &[u8] = b"SQLite format 3\x00\x02\x00\x01\x01\x00@  \x00\x00\x00\x03\x00\x00\x00\x02";

const NEW: &[u8] = b"SQLite format 3\x00\x02\x00\x01\x01\x00@  \x00\x00\x00\x04\x00\x00\x00\x03";

/// Lays bytes over others from a place on.
pub fn lay(bytes: &mut [u8], at: usize, new: &[u8]) {
    for (i, byte) in new.iter().enumerate() {
        if let Some(place) = bytes.get_mut(at.wrapping_add(i)) {
            *place = *byte;
        }
    }
}

// Page 1 with this front, this change counter and a byte 7 at two places that a checksum counts.
fn first(alloc: Global, front: &[u8], change: u8) -> Result<Vec<u8>, AllocError>
    ensures { IfOk result (λ page. length page.items ≡ 512) }
{
    let mut page = vec![in alloc; 0u8; PAGE]?;
    lay(&mut page, 0, front);
    lay(&mut page, 59, &[1]);
    lay(&mut page, 95, &[change]);
    lay(&mut page, 100, &[13, 0, 0, 0, 0, 2, 0]);
    lay(&mut page, 112, &[7]);
    lay(&mut page, 312, &[7]);
    Ok(page)
}

// The page that is added.
fn third(alloc: Global) -> Result<Vec<u8>, AllocError>
    ensures { IfOk result (λ page. length page.items ≡ 512) }
{
    vec![in alloc; 3u8; PAGE]
}

// Lays the pages of the file before or after over zeros.
fn lay_pages(alloc: Global, file: &mut [u8], changed: bool) -> Result<(), AllocError> {
    lay(file, PAGE, &[13, 0, 0, 0, 0, 2, 0]);
    if !changed {
        lay(file, 0, &first(alloc, OLD, 3)?);
        return Ok(());
    }
    lay(file, 0, &first(alloc, NEW, 4)?);
    lay(file, 2 * PAGE, &third(alloc)?);
    Ok(())
}

/// The file before or after, with zeros up to the end of page 3.
pub fn file(alloc: Global, changed: bool) -> Result<Vec<u8>, AllocError>
    ensures { IfOk result (λ file. length file.items ≡ 1536) }
{
    let mut file = vec![in alloc; 0u8; 3 * PAGE]?;
    lay_pages(alloc, &mut file, changed)?;
    Ok(file)
}

/// What is changed.
pub fn changes(alloc: Global) -> Result<Changes, AllocError>
    ensures { IfOk result (AreChanges 512) }
{
    let mut changes = Vec::new(alloc);
    changes.push(Change {
        page: 1,
        bytes: Bytes::new(first(alloc, NEW, 4)?),
    })?;
    changes.push(Change {
        page: 3,
        bytes: Bytes::new(third(alloc)?),
    })?;
    Ok(Changes::new(changes))
}

/// The journal before its cut: the head, whose nonce is 16, and the record of page 1, with the checksum
/// 16 + 7 + 7.
pub fn journal(alloc: Global) -> Result<Vec<u8>, AllocError> {
    let mut journal = vec![in alloc; 0u8; 1032]?;
    lay(
        &mut journal,
        0,
        b"\xd9\xd5\x05\xf9\x20\xa1\x63\xd7\xff\xff\xff\xff\x00\x00\x00\x10\x00\x00\x00\x02\x00\x00\x02\x00\x00\x00\x02\x00",
    );
    lay(&mut journal, 512, &[0, 0, 0, 1]);
    lay(&mut journal, 516, &first(alloc, OLD, 3)?);
    lay(&mut journal, 1028, &[0, 0, 0, 30]);
    Ok(journal)
}
