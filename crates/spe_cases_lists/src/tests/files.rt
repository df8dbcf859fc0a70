//! Databases without tables, as files in memory.

ghost use Rattle.std.specs.Prelude.{◌≡◌, false, IfOk};
ghost use Rattle.spe_disk.specs.Memory.{is_attached};

use spe_disk::{Faults, FileNo, MemDisk};
use spe_model::Numbers;
use std::alloc::{AllocError, Global};
use std::process::Abort;

/// Bytes from a place on.
pub type Patch = (usize, &'static [u8]);

// Bytes in a page.
const PAGE: usize = 512;

// Page 1 of a database without tables, with page size 512. The page count at 28 is not valid.
const FRONT: [Patch; 5] = [
    (
        0,
        b"SQLite format 3\x00\x02\x00\x01\x01\x00@  \x00\x00\x00\x03",
    ),
    (43, b"\x01\x00\x00\x00\x04"),
    (59, b"\x01"),
    (96, b"\x00.v\x89"),
    (100, b"\x0d\x00\x00\x00\x00\x02\x00"),
];

fn lay(file: &mut [u8], at: usize, bytes: &[u8]) {
    for (i, byte) in bytes.iter().enumerate() {
        if let Some(place) = file.get_mut(at.wrapping_add(i)) {
            *place = *byte;
        }
    }
}

/// Lays bytes over a file.
pub fn lay_all(file: &mut [u8], patches: &[Patch]) {
    for (at, bytes) in patches {
        lay(file, *at, bytes);
    }
}

/// Lays numbers from the first to below the last over a file.
pub fn lay_numbers(file: &mut [u8], at: usize, first: u32, last: u32) {
    for number in first..last {
        let place = number.wrapping_sub(first) as usize;
        lay(
            file,
            at.wrapping_add(place.wrapping_mul(4)),
            &number.to_be_bytes(),
        );
    }
}

/// A file of so many pages with these bytes on them.
pub fn file_of(alloc: Global, pages: usize, patches: &[Patch]) -> Result<Vec<u8>, AllocError> {
    let mut file = vec![in alloc; 0u8; pages.wrapping_mul(PAGE)]?;
    lay_all(&mut file, &FRONT);
    lay_all(&mut file, patches);
    Ok(file)
}

/// A disk with this file, of which this operation fails, made all the same or not; none where it is 0.
pub fn disk_of(alloc: Global, file: &[u8], op: u64, made: bool) -> Result<MemDisk, AllocError>
    ensures { IfOk result (λ d. is_attached d ≡ false) }
{
    let mut ops = Vec::new(alloc);
    ops.push(op)?;
    let faults = Faults {
        reads: Numbers::new(Vec::new(alloc)),
        ops: Numbers::new(ops),
        made,
    };
    let mut disk = MemDisk::new(alloc, 1 << 17, 64, faults)?;
    let _ = disk.load(FileNo::Database, file);
    Ok(disk)
}

/// Expects that a step of a case holds.
pub fn expect(rt: &impl Abort, name: &str, step: u64, holds: bool) {
    assert!(rt; holds, "{name} {step}");
}
