//! A disk in memory that tells nothing, and keeps which operations were made; and a file of three pages.

ghost use Rattle.std.specs.Prelude.{◌≡◌, false, true, IfOk, length};
ghost use Rattle.spe_disk.specs.Memory.{is_attached};

use spe_disk::{Disk, Failed, Faults, FileNo, MemDisk};
use spe_model::Numbers;
use std::alloc::{AllocError, Global};

/// Bytes in a page.
pub const PAGE: usize = 512;

// The header of page 1 up to its count of pages, 3.
const FRONT: &[u8] = b"SQLite format 3\x00\x02\x00\x01\x01\x00@  \x00\x00\x00\x03\x00\x00\x00\x03";

/// An operation that was tried.
#[derive(Clone, Copy, PartialEq, Eq)]
pub enum Made {
    /// A write: its file, its place, and how many bytes it has.
    Write(FileNo, u64, usize),
    /// A cut of a file to this many bytes.
    Cut(FileNo, u64),
}

/// A disk in memory, the writes and cuts that were tried, and how many calls failed.
#[derive(Drop)]
pub struct Blind {
    pub disk: MemDisk,
    pub made: Vec<Made>,
    pub reads: u64,
    pub ops: u64,
}

impl Disk for Blind {
    ghost use Rattle.std.specs.Prelude.{None};
    ghost use Rattle.spe_disk.specs.Memory.{is_attached};

    ghost told = { λ b. None };

    ghost attached = { λ b. is_attached b.disk };

    ghost read_faults = { λ b. b.reads };

    ghost op_faults = { λ b. b.ops };

    ghost fresh = { λ b a. tt };

    ghost whole = { λ b. tt };

    fn attach(&mut self, name: &str) -> Result<bool, Failed> {
        let found = self.disk.attach(name);
        if found.is_err() {
            self.reads = self.reads.saturating_add(1);
        }
        found
    }

    fn length(&mut self, file: FileNo) -> Result<Option<u64>, Failed> {
        let found = self.disk.length(file);
        if found.is_err() {
            self.reads = self.reads.saturating_add(1);
        }
        found
    }

    fn read_at(&mut self, file: FileNo, at: u64, buf: &mut [u8]) -> Result<usize, Failed> {
        let found = self.disk.read_at(file, at, buf);
        if found.is_err() {
            self.reads = self.reads.saturating_add(1);
        }
        found
    }

    fn write_at(&mut self, file: FileNo, at: u64, bytes: &[u8]) -> Result<(), Failed> {
        let _ = self.made.push(Made::Write(file, at, bytes.len()));
        let done = self.disk.write_at(file, at, bytes);
        if done.is_err() {
            self.ops = self.ops.saturating_add(1);
        }
        done
    }

    fn cut(&mut self, file: FileNo, length: u64) -> Result<(), Failed> {
        let _ = self.made.push(Made::Cut(file, length));
        let done = self.disk.cut(file, length);
        if done.is_err() {
            self.ops = self.ops.saturating_add(1);
        }
        done
    }

    fn make_journals(&mut self) -> Result<u8, Failed> {
        let made = self.disk.make_journals();
        if made.is_err() {
            self.ops = self.ops.saturating_add(1);
        }
        made
    }
}

// The file: page 1, and two pages of bytes 2 and 3.
fn file(alloc: Global) -> Result<Vec<u8>, AllocError> {
    let mut file = vec![in alloc; 0u8; 3 * PAGE]?;
    for (i, byte) in file.iter_mut().enumerate() {
        *byte = if i < PAGE {
            first(i)
        } else if i < 2 * PAGE {
            2
        } else {
            3
        };
    }
    Ok(file)
}

// A byte of page 1.
fn first(i: usize) -> u8 {
    match FRONT.get(i) {
        Some(byte) => *byte,
        None => match i {
            59 => 1,
            95 => 3,
            100 => 13,
            105 => 2,
            _ => 0,
        },
    }
}

/// The file on such a disk, attached, of which this operation and this reading call fail, 0 for none.
pub fn three_pages(alloc: Global, op: u64, read: u64, made: bool) -> Result<Blind, AllocError>
    ensures attached { IfOk result (λ b. is_attached b.disk ≡ true) }
    ensures reads { IfOk result (λ b. b.reads ≡ 0) }
    ensures ops { IfOk result (λ b. b.ops ≡ 0) }
{
    let faults = Faults {
        reads: Numbers::new(Vec::from_slice(alloc, &[read])?),
        ops: Numbers::new(Vec::from_slice(alloc, &[op])?),
        made,
    };
    let mut disk = MemDisk::new(alloc, 1 << 14, 64, faults)?;
    let bytes = file(alloc)?;
    let _ = disk.load(FileNo::Database, &bytes);
    let _ = disk.attach("three.db");
    Ok(Blind {
        disk,
        made: Vec::new(alloc),
        reads: 0,
        ops: 0,
    })
}
