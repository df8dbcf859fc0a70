//! A disk in memory that tells nothing, and keeps which operations were made.

ghost use Rattle.std.specs.Prelude.{◌≡◌, false, true, IfOk};
ghost use Rattle.spe_disk.specs.Memory.{is_attached};

use super::files::{PAGE, changes, file};
use spe_disk::{Disk, Failed, Faults, FileNo, MemDisk};
use spe_model::Numbers;
use spe_rewrite::{Changes, RewriteFault, make_journals, rewrite};
use std::alloc::{AllocError, Global};

/// An operation that was tried.
#[derive(Clone, Copy, PartialEq, Eq)]
pub enum Made {
    /// A write: its file, its place, and how many bytes it has.
    Write(FileNo, u64, usize),
    /// A cut of a file to this many bytes.
    Cut(FileNo, u64),
}

/// A disk in memory, and the writes and cuts that were tried.
#[derive(Drop)]
pub struct Blind {
    pub disk: MemDisk,
    pub made: Vec<Made>,
}

impl Disk for Blind {
    ghost use Rattle.std.specs.Prelude.{None};
    ghost use Rattle.spe_disk.specs.Memory.{is_attached, read_fault_count, op_fault_count};

    ghost told = { λ b. None };

    ghost attached = { λ b. is_attached b.disk };

    ghost read_faults = { λ b. read_fault_count b.disk };

    ghost op_faults = { λ b. op_fault_count b.disk };

    ghost fresh = { λ b a. tt };

    ghost whole = { λ b. tt };

    fn attach(&mut self, name: &str) -> Result<bool, Failed> {
        self.disk.attach(name)
    }

    fn length(&mut self, file: FileNo) -> Result<Option<u64>, Failed> {
        self.disk.length(file)
    }

    fn read_at(&mut self, file: FileNo, at: u64, buf: &mut [u8]) -> Result<usize, Failed> {
        self.disk.read_at(file, at, buf)
    }

    fn write_at(&mut self, file: FileNo, at: u64, bytes: &[u8]) -> Result<(), Failed> {
        let _ = self.made.push(Made::Write(file, at, bytes.len()));
        self.disk.write_at(file, at, bytes)
    }

    fn cut(&mut self, file: FileNo, length: u64) -> Result<(), Failed> {
        let _ = self.made.push(Made::Cut(file, length));
        self.disk.cut(file, length)
    }

    fn make_journals(&mut self) -> Result<u8, Failed> {
        self.disk.make_journals()
    }
}

/// The file of two pages on such a disk, attached, of which this operation and this reading call fail, 0
/// for none.
pub fn two_pages(alloc: Global, op: u64, read: u64, made: bool) -> Result<Blind, AllocError>
    ensures { IfOk result (λ b. is_attached b.disk ≡ true) }
{
    let faults = Faults {
        reads: Numbers::new(Vec::from_slice(alloc, &[read])?),
        ops: Numbers::new(Vec::from_slice(alloc, &[op])?),
        made,
    };
    let mut disk = MemDisk::new(alloc, 1 << 14, 32, faults)?;
    let bytes = file(alloc, false)?;
    let (pages, _) = bytes.split_at(2 * PAGE);
    let _ = disk.load(FileNo::Database, pages);
    let _ = disk.attach("two.db");
    Ok(Blind {
        disk,
        made: Vec::new(alloc),
    })
}

/// Makes the journals and rewrites the file.
pub fn rewritten(alloc: Global, blind: &mut Blind) -> Result<u64, RewriteFault>
    requires { is_attached blind.old.disk ≡ true }
{
    let changes = changes(alloc)?;
    let made = make_journals(blind, 0)?;
    rewrite(alloc, blind, 512, 2, made, &changes)
}

/// Rewrites nothing.
pub fn untouched(alloc: Global, blind: &mut Blind) -> Result<u64, RewriteFault>
    requires { is_attached blind.old.disk ≡ true }
{
    rewrite(alloc, blind, 512, 2, 9, &Changes::new(Vec::new(alloc)))
}
