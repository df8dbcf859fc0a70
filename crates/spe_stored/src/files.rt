//! The files of a database, in memory.

ghost use Rattle.std.specs.Prelude.{◌≡◌};
ghost use Rattle.spe_model.specs.Content.{place_of};

use crate::operation::{Operation, Write, part_of};
use crate::stored::{Kept, Stored};
use spe_model::FileNo;
use std::alloc::{AllocError, Global};
use std::marker::Model;

/// The database file and the journals, by their places in a content.
#[derive(Debug, Drop)]
pub struct Files {
    list: Vec<Stored>,
}

impl Model for Files {
    ghost use Rattle.spe_model.specs.Content.{Content};

    ghost Value = { Content };

    ghost view = { λ f. f.list.items };
}

impl Files {
    ghost use Rattle.std.specs.Prelude.{◌≡◌, ◌+◌, ◌≤◌, IfOk, OnOk, OnErr, length};
    ghost use Rattle.spe_model.specs.Content.{bytes_of};
    ghost use Rattle.spe_model.specs.Trace.{made_by};
    ghost use Rattle.spe_model.specs.Trace.Operation.{Cut, Write as TraceWrite};
    ghost use Rattle.spe_model.specs.declared.file.FileNo.TheVariants.{Database};
    ghost use Rattle.spe_model.specs.Recovery.{file_page, file_page_size};
    ghost use Rattle.spe_stored.specs.Stored.{alone};
    ghost use Rattle.spe_model.specs.Rollback.{has_length, write_of};
    ghost use Rattle.spe_stored.specs.Shown.{shown, write_shown};
    ghost use Rattle.spe_stored.specs.Kept.{TakesFileBack, file_taken_back};

    /// The database file alone.
    pub fn alone(alloc: Global, database: Vec<u8>) -> Result<Files, AllocError>
        ensures { IfOk result (λ f. f ≡ alone database.items) }
    {
        let mut list = Vec::with_capacity(alloc, 17)?;
        while list.len() < 17 {
            list.push(Stored::absent(alloc))?;
        }
        list[0] = Stored::holding(database);
        Ok(Files { list })
    }

    /// The bytes of a file, none where it is absent.
    pub fn bytes(&self, file: FileNo) -> &[u8]
        ensures { result.now ≡ bytes_of self.now file }
    {
        match self.list.get(place(file)) {
            Some(held) => held.as_slice(),
            None => &[],
        }
    }

    /// Whether a journal has bytes.
    pub fn has_bytes(&self, id: u8) -> bool
        ensures { result ≡ has_length self.now id }
    {
        !self.bytes(FileNo::Journal(id)).is_empty()
    }

    // Writes bytes to a file, from byte `at` on.
    fn write_at(&mut self, file: FileNo, at: u64, bytes: &[u8]) -> Result<(), AllocError>
        ensures ok { OnOk result (self.new ≡ made_by (TraceWrite file at bytes.now) self.old) }
        ensures err { OnErr result (self.new ≡ self.old) }
    {
        if bytes.is_empty() {
            return Ok(());
        }
        let Some(held) = self.list.get_mut(place(file)) else {
            return Ok(());
        };
        held.write(at as usize, bytes)
    }

    /// Makes a write.
    pub fn write(&mut self, write: &Write) -> Result<(), AllocError>
        ensures ok { OnOk result (self.new ≡ made_by (write_shown write.now) self.old) }
        ensures err { OnErr result (self.new ≡ self.old) }
    {
        self.write_at(write.file, write.at, write.bytes.as_slice())
    }

    /// Writes the bytes of a page to the database file, of page 1 all but the first 24.
    pub fn write_page(&mut self, page_size: u32, page: u32, bytes: &[u8]) -> Result<(), AllocError>
        ensures ok { OnOk result (self.new ≡ made_by (write_of page_size (record { page = page; content = bytes.now })) self.old) }
        ensures err { OnErr result (self.new ≡ self.old) }
    {
        let (at, part) = part_of(page_size, page, bytes);
        self.write_at(FileNo::Database, at, part)
    }

    /// Cuts a file to at most this length.
    pub fn cut(&mut self, file: FileNo, size: u64)
        ensures { self.new ≡ made_by (Cut file size) self.old }
    {
        let Some(held) = self.list.get_mut(place(file)) else {
            return;
        };
        held.cut(size);
    }

    /// Makes an operation.
    pub fn make(&mut self, op: &Operation) -> Result<(), AllocError>
        ensures ok { OnOk result (self.new ≡ made_by (shown op.now) self.old) }
        ensures err { OnErr result (self.new ≡ self.old) }
    {
        match op {
            Operation::Write(write) => self.write(write),
            Operation::Cut(file, size) => {
                self.cut(*file, *size);
                Ok(())
            }
        }
    }

    /// What is lost of a file by a write.
    pub fn keep(&self, alloc: Global, write: &Write) -> Result<Kept, AllocError>
        ensures { IfOk result (λ kept. TakesFileBack kept write.now.file (made_by (write_shown write.now) self.now) self.now) }
    {
        self.keep_at(alloc, write.file, write.at, write.bytes.as_slice())
    }

    /// What is lost of the database file by a write of a page.
    pub fn keep_page(
        &self,
        alloc: Global,
        page_size: u32,
        page: u32,
        bytes: &[u8],
    ) -> Result<Kept, AllocError>
        ensures { IfOk result (λ kept. TakesFileBack kept Database (made_by (write_of page_size (record { page = page; content = bytes.now })) self.now) self.now) }
    {
        let (at, part) = part_of(page_size, page, bytes);
        self.keep_at(alloc, FileNo::Database, at, part)
    }

    // What is lost of a file by a write of bytes, from byte `at` on.
    fn keep_at(
        &self,
        alloc: Global,
        file: FileNo,
        at: u64,
        bytes: &[u8],
    ) -> Result<Kept, AllocError>
        ensures { IfOk result (λ kept. TakesFileBack kept file (made_by (TraceWrite file at bytes.now) self.now) self.now) }
    {
        match self.list.get(place(file)) {
            Some(held) => held.keep(alloc, at as usize, bytes.len()),
            None => Ok(Kept {
                there: false,
                size: 0,
                at: 0,
                bytes: Vec::new(alloc),
            }),
        }
    }

    /// Takes a write of a file back.
    pub fn take_back(&mut self, file: FileNo, kept: &Kept)
        requires { kept.now.at + length kept.now.bytes.items ≤ length (bytes_of self.old file) }
        ensures { self.new ≡ file_taken_back kept.now file self.old }
    {
        let Some(held) = self.list.get_mut(place(file)) else {
            return;
        };
        held.take_back(kept);
    }

    /// The bytes of a page of the database file, as far as the file has it.
    pub fn page(&self, page_size: u32, page: u32) -> &[u8]
        requires { page_size ≡ file_page_size self.now }
        ensures { result.now ≡ file_page self.now page }
    {
        let bytes = self.bytes(FileNo::Database);
        let at = page.saturating_sub(1) as usize * page_size as usize;
        let from = at.min(bytes.len());
        let (_, rest) = bytes.split_at(from);
        let (page, _) = rest.split_at(rest.len().min(page_size as usize));
        page
    }
}

// Where a content has a file.
fn place(file: FileNo) -> usize
    ensures { result ≡ place_of file }
{
    match file {
        FileNo::Database => 0,
        FileNo::Journal(n) => n as usize + 1,
    }
}
