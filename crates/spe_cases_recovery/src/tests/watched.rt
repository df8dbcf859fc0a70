//! A disk in memory that keeps which operations were made.

ghost use Rattle.std.specs.Prelude.{◌≡◌, false, true, IfOk};
ghost use Rattle.spe_disk.specs.Memory.{is_attached};

use spe_disk::{Disk, Failed, FileNo, MemDisk};
use spe_model::{RecoverFault, Recovered};
use spe_recover::{Want, recover};
use std::alloc::Global;

/// An operation that was made.
#[derive(Clone, Copy, Debug, PartialEq, Eq)]
pub enum Made {
    /// A write: its file, its place, and how many bytes it has.
    Write(FileNo, u64, usize),
    /// A cut of a file to this many bytes.
    Cut(FileNo, u64),
}

/// A disk in memory, and the operations that were made.
#[derive(Drop)]
pub struct Watched {
    disk: MemDisk,
    made: Vec<Made>,
}

impl Watched {
    ghost use Rattle.std.specs.Prelude.{◌≡◌, false};
    ghost use Rattle.spe_disk.specs.Memory.{is_attached};

    /// Watches a disk.
    pub fn over(alloc: Global, disk: MemDisk) -> Watched
        requires { is_attached disk ≡ false }
        ensures { is_attached result.disk ≡ false }
    {
        Watched {
            disk,
            made: Vec::new(alloc),
        }
    }

    /// Attaches the disk and recovers it.
    pub fn recover(&mut self, alloc: Global) -> Result<Recovered, RecoverFault>
        requires { is_attached self.old.disk ≡ false }
    {
        match self.attach("two.db") {
            Ok(_) => recover(alloc, self, Want::Any),
            Err(_) => Err(RecoverFault::Disk),
        }
    }

    /// The operations that were made.
    pub fn made(&self) -> &[Made] {
        self.made.as_slice()
    }
}

impl Disk for Watched {
    ghost use Rattle.std.specs.Prelude.{Some};
    ghost use Rattle.spe_disk.specs.Memory.{history_of, is_attached, read_fault_count, op_fault_count};

    ghost told = { λ w. Some (history_of w.disk) };

    ghost attached = { λ w. is_attached w.disk };

    ghost read_faults = { λ w. read_fault_count w.disk };

    ghost op_faults = { λ w. op_fault_count w.disk };

    ghost fresh = { λ w a. w.disk.fresh a };

    ghost whole = { λ w. w.disk.whole };

    fn attach(&mut self, name: &str) -> Result<bool, Failed> {
        self.disk.attach(name)
    }

    fn length(&mut self, file: FileNo) -> Result<Option<u64>, Failed> {
        self.disk.length(file)
    }

    fn read_at(&mut self, file: FileNo, at: u64, buf: &mut [u8]) -> Result<usize, Failed> {
        self.disk.read_at(file, at, buf)
    }

    fn write_at(&mut self, file: FileNo, at: u64, bytes: &[u8]) -> Result<(), Failed> {
        let _ = self.made.push(Made::Write(file, at, bytes.len()));
        self.disk.write_at(file, at, bytes)
    }

    fn cut(&mut self, file: FileNo, length: u64) -> Result<(), Failed> {
        let _ = self.made.push(Made::Cut(file, length));
        self.disk.cut(file, length)
    }

    fn make_journals(&mut self) -> Result<u8, Failed> {
        self.disk.make_journals()
    }
}
