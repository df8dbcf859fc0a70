//! Operations on files, with their bytes.

ghost use Rattle.std.specs.Prelude.{◌≡◌, take, IfOk};
ghost use Rattle.spe_model.specs.declared.file.FileNo.TheVariants.{Database};
ghost use Rattle.spe_model.specs.Rollback.{write_of};
ghost use Rattle.spe_model.specs.Trace.Operation.{Write as TraceWrite};

use spe_model::{Bytes, FileNo};
use std::alloc::{AllocError, Global};

/// Bytes that are written to a file.
#[derive(Debug, Drop)]
pub struct Write {
    /// The file.
    pub file: FileNo,
    /// From where on the bytes are to lie.
    pub at: u64,
    /// The bytes.
    pub bytes: Bytes,
}

/// One operation on one file.
#[derive(Debug, Drop)]
pub enum Operation {
    /// Bytes are written.
    Write(Write),
    /// This file is cut to at most so many bytes.
    Cut(FileNo, u64),
}

/// Where the bytes of page 1 begin that are ever written.
const REST_AT: usize = 24;

/// Which bytes of a page are written, and from where on.
pub fn part_of(page_size: u32, page: u32, bytes: &[u8]) -> (u64, &[u8])
    ensures { TraceWrite Database result.0 result.1.now ≡ write_of page_size (record { page = page; content = bytes.now }) }
{
    if page == 1 {
        let (_, rest) = bytes.split_at(bytes.len().min(REST_AT));
        return (REST_AT as u64, rest);
    }
    let place = u64::from(page.saturating_sub(1)) * u64::from(page_size);
    (place, bytes)
}

/// The write of a page, of page 1 all but the first 24 bytes.
pub fn page_write(
    alloc: Global,
    page_size: u32,
    page: u32,
    bytes: &[u8],
) -> Result<Write, AllocError>
    ensures { IfOk result (λ write. TraceWrite write.file write.at write.bytes ≡ write_of page_size (record { page = page; content = bytes.now })) }
{
    let (at, bytes) = part_of(page_size, page, bytes);
    Ok(Write {
        file: FileNo::Database,
        at,
        bytes: Bytes::new(Vec::from_slice(alloc, bytes)?),
    })
}

/// The same write once more.
pub fn copy_of(alloc: Global, write: &Write) -> Result<Write, AllocError>
    ensures { IfOk result (λ copy. copy ≡ write.now) }
{
    Ok(Write {
        file: write.file,
        at: write.at,
        bytes: Bytes::new(Vec::from_slice(alloc, write.bytes.as_slice())?),
    })
}

/// The first bytes of a write.
pub fn torn(write: Write, bytes: u64) -> Write
    ensures { result ≡ record write { bytes = take bytes write.bytes } }
{
    let Write {
        file,
        at,
        bytes: whole,
    } = write;
    let mut whole = whole.into_vec();
    whole.truncate(bytes.min(whole.len() as u64) as usize);
    Write {
        file,
        at,
        bytes: Bytes::new(whole),
    }
}
