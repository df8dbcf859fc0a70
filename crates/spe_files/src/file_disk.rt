//! A disk of real files.

use crate::file_fault::FileFault;
use crate::journals_folder::remove_folder;
use crate::open_files::OpenFiles;
use spe_disk::{Disk, Failed};
use spe_model::FileNo;
use std::alloc::{AllocError, Global};
use std::fs::File;
use std::io;
use std::rt::Files;

/// The files of a database: the file of its name, and its journals in the folder of that name with
/// `-journal` behind it, where journal 3 is `3-journal`.
///
/// Whatever the system refuses is a counted fault, want of memory for a path included. So is, at
/// attaching, a database that is no plain file, and a file in the place of that folder: the journal
/// of another program. One that is cold (`is_cold_journal`) is passed over, as if there were no
/// folder, until journals are to be made, which fails.
#[derive(Drop)]
pub struct FileDisk<'a, R: Files<File = File>> {
    files: OpenFiles<'a, R>,
    attached: bool,
    read_faults: u64,
    op_faults: u64,
    first_fault: Option<FileFault>,
}

impl<'a, R: Files<File = File>> FileDisk<'a, R> {
    ghost use Rattle.std.specs.Prelude.{◌≡◌, ◌≤◌, false};
    ghost use Rattle.spe_model.specs.Faults.{Rose};

    /// The files of no database yet.
    pub fn new(rt: &'a R, alloc: Global) -> Self
        ensures { result.attached ≡ false }
    {
        FileDisk {
            files: OpenFiles::new(rt, alloc),
            attached: false,
            read_faults: 0,
            op_faults: 0,
            first_fault: None,
        }
    }

    /// Why a call failed: the first that did, where there is one.
    pub fn first_fault(&self) -> Option<FileFault> {
        self.first_fault
    }

    /// The path of the file that a fault is of: the journal of another program, or else the database.
    pub fn path(&self, fault: FileFault) -> Result<String, AllocError> {
        self.files.path(fault)
    }

    // Counts a reading call that failed.
    fn count_read_fault(&mut self, why: FileFault) -> Failed
        ensures later { self.old.read_faults ≤ self.new.read_faults }
        ensures rose { Rose self.old.read_faults self.new.read_faults }
        ensures attached { self.new.attached ≡ self.old.attached }
        ensures operations { self.new.op_faults ≡ self.old.op_faults }
    {
        self.read_faults = self.read_faults.saturating_add(1);
        self.first_fault = Some(self.first_fault.unwrap_or(why));
        Failed
    }

    // Counts an operation that failed.
    fn count_op_fault(&mut self, why: FileFault) -> Failed
        ensures later { self.old.op_faults ≤ self.new.op_faults }
        ensures rose { Rose self.old.op_faults self.new.op_faults }
        ensures attached { self.new.attached ≡ self.old.attached }
        ensures readings { self.new.read_faults ≡ self.old.read_faults }
    {
        self.op_faults = self.op_faults.saturating_add(1);
        self.first_fault = Some(self.first_fault.unwrap_or(why));
        Failed
    }
}

impl<R: Files<File = File> + Alloc<A = Global> + Clone + Drop> FileDisk<'_, R> {
    /// Removes the journals and their folder, where every journal is empty and nothing else is in the
    /// folder. `false` where that is not so, and nothing was removed. No fault is counted.
    ///
    /// To be called where the database needs no journals any more: `sqlite3` answers "disk I/O error" for a
    /// database beside which such a folder stands.
    pub fn remove_journals(&self) -> io::Result<bool> {
        let folder = self.files.folder_path()?;
        remove_folder(self.files.runtime(), folder.as_str())
    }
}

impl<R: Files<File = File>> Disk for FileDisk<'_, R> {
    ghost use Rattle.std.specs.Prelude.{None};

    ghost told = { λ _. None };

    ghost attached = { λ d. d.attached };

    ghost read_faults = { λ d. d.read_faults };

    ghost op_faults = { λ d. d.op_faults };

    ghost fresh = { λ d _. tt };

    ghost whole = { λ d. tt };

    fn attach(&mut self, name: &str) -> Result<bool, Failed> {
        self.attached = true;
        match self.files.attach(name) {
            Ok(found) => Ok(found),
            Err(fault) => Err(self.count_read_fault(fault)),
        }
    }

    fn length(&mut self, file: FileNo) -> Result<Option<u64>, Failed> {
        match self.files.length(file) {
            Ok(length) => Ok(length),
            Err(error) => Err(self.count_read_fault(FileFault::from(error))),
        }
    }

    fn read_at(&mut self, file: FileNo, at: u64, buf: &mut [u8]) -> Result<usize, Failed> {
        match self.files.read_at(file, at, buf) {
            Ok(count) => Ok(count),
            Err(error) => Err(self.count_read_fault(FileFault::from(error))),
        }
    }

    fn write_at(&mut self, file: FileNo, at: u64, bytes: &[u8]) -> Result<(), Failed> {
        match self.files.write_at(file, at, bytes) {
            Ok(()) => Ok(()),
            Err(error) => Err(self.count_op_fault(FileFault::from(error))),
        }
    }

    fn cut(&mut self, file: FileNo, length: u64) -> Result<(), Failed> {
        match self.files.cut(file, length) {
            Ok(()) => Ok(()),
            Err(error) => Err(self.count_op_fault(FileFault::from(error))),
        }
    }

    fn make_journals(&mut self) -> Result<u8, Failed> {
        match self.files.make_journals() {
            Ok(made) => Ok(made),
            Err(error) => Err(self.count_op_fault(FileFault::from(error))),
        }
    }
}
