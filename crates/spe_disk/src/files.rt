//! The files of a disk in memory.

ghost use Rattle.std.specs.Prelude.{All, ◌-◌, ◌≡◌, ◌≤◌, ◌<◌, ◌+◌, IfOk, OnOk, OnErr, IsOk, length, replicate, None};
ghost use Rattle.std.specs.Option.{option_copied};
ghost use Rattle.spe_model.specs.Content.{IsFile, place_of, file_of, bytes_of, with_file};
ghost use Rattle.spe_model.specs.Trace.{made_by};
ghost use Rattle.spe_model.specs.declared.file.FileNo.{FileNo};
ghost use Rattle.spe_model.specs.Trace.Operation.{Write, Cut};
ghost use Rattle.spe_disk.specs.Held.{contents, HasRoom, gap_before, room_taken};

use crate::mem_file::MemFile;
use spe_model::FileNo;
use std::alloc::{AllocError, Global};
use std::marker::Model;

/// The database file and the journals, by their places in a content.
#[derive(Debug, Drop)]
pub struct Files {
    list: Vec<MemFile>,
    room: usize,
}

impl Model for Files {
    ghost use Rattle.std.specs.Prelude.{◌≡◌, All, length};
    ghost use Rattle.spe_disk.specs.Held.{HeldFiles, HasRoom, contents};

    ghost Value = { HeldFiles };

    ghost view = { λ f. record { content = contents f.list.items; room = f.room } };

    ghost invariant = { λ f. (length f.list.items ≡ 17) × All (HasRoom f.room) f.list.items };
}

impl Files {
    /// No files.
    pub fn none(alloc: Global) -> Result<Files, AllocError>
        ensures content { IfOk result (λ f. f.content ≡ replicate 17 None) }
        ensures room { IfOk result (λ f. f.room ≡ 0) }
    {
        let mut list = Vec::with_capacity(alloc, 17)?;
        while list.len() < 17 {
            list.push(MemFile::absent(alloc))?;
        }
        Files::of(list)
    }

    /// These files, all seventeen.
    pub fn of(mut list: Vec<MemFile>) -> Result<Files, AllocError>
        requires { length list.items ≡ 17 }
        ensures content { IfOk result (λ f. f.content ≡ contents list.items) }
        ensures room { IfOk result (λ f. f.room ≡ 0) }
    {
        reserve_all(&mut list, 0)?;
        Ok(Files { list, room: 0 })
    }

    /// Takes the memory for this many bytes more, in whichever of the files they will be.
    pub fn reserve(mut self, room: usize) -> Result<Files, AllocError>
        ensures content { IfOk result (λ f. f.content ≡ self.content) }
        ensures room { IfOk result (λ f. f.room ≡ room) }
    {
        reserve_all(&mut self.list, room)?;
        self.room = room;
        Ok(self)
    }

    /// The files in their order.
    pub fn as_slice(&self) -> &[MemFile]
        ensures content { contents result.now ≡ self.now.content }
        ensures count { length result.now ≡ 17 }
    {
        self.list.as_slice()
    }

    /// The bytes of a file, where it is there.
    pub fn get(&self, file: FileNo) -> Option<&[u8]>
        requires { IsFile file }
        ensures { option_copied result ≡ file_of self.now.content file }
    {
        let held = &self.list[place(file)];
        held.bytes()
    }

    /// How many bytes a file has.
    pub fn size(&self, file: FileNo) -> usize
        requires { IsFile file }
        ensures { result ≡ length (bytes_of self.now.content file) }
    {
        let held = &self.list[place(file)];
        held.size()
    }

    /// How many zeros a write puts between the end of its file and its own bytes.
    pub fn gap(&self, file: FileNo, at: u64, bytes: &[u8]) -> usize
        requires { IsFile file }
        ensures { result ≡ gap_before self.now.content file at bytes.now }
    {
        if bytes.is_empty() {
            return 0;
        }
        (at as usize).saturating_sub(self.size(file))
    }

    /// Makes these the bytes of a file.
    pub fn put(&mut self, file: FileNo, bytes: &[u8]) -> Result<(), AllocError>
        requires { IsFile file }
        ensures ok { OnOk result (self.new.content ≡ with_file self.old.content file bytes.now) }
        ensures err { OnErr result (self.new.content ≡ self.old.content) }
        ensures fits { length bytes.now ≤ self.old.room → IsOk result }
        ensures room { OnOk result (self.new.room ≡ self.old.room - length bytes.now) }
    {
        let room = self.room;
        let held = &mut self.list[place(file)];
        if held.put(bytes).is_err() {
            return Err(AllocError);
        }
        self.room = room.saturating_sub(bytes.len());
        Ok(())
    }

    /// Writes bytes to a file from byte `at` on.
    pub fn write(&mut self, file: FileNo, at: u64, bytes: &[u8]) -> Result<(), AllocError>
        requires { IsFile file }
        ensures ok { OnOk result (self.new.content ≡ made_by (Write file at bytes.now) self.old.content) }
        ensures err { OnErr result (self.new.content ≡ self.old.content) }
        ensures fits { room_taken self.old.content file at bytes.now ≤ self.old.room → IsOk result }
        ensures room { OnOk result (self.new.room ≡ self.old.room - room_taken self.old.content file at bytes.now) }
    {
        if bytes.is_empty() {
            return Ok(());
        }
        let gap = self.gap(file, at, bytes);
        let room = self.room;
        let held = &mut self.list[place(file)];
        if held.write(at as usize, bytes).is_err() {
            return Err(AllocError);
        }
        self.room = room.saturating_sub(gap).saturating_sub(bytes.len());
        Ok(())
    }

    /// Cuts a file to at most this length.
    pub fn cut(&mut self, file: FileNo, size: u64)
        requires { IsFile file }
        ensures content { self.new.content ≡ made_by (Cut file size) self.old.content }
        ensures room { self.new.room ≡ self.old.room }
    {
        let held = &mut self.list[place(file)];
        held.cut(size);
    }
}

// Takes the memory for this many bytes more of each file.
fn reserve_all(list: &mut Vec<MemFile>, room: usize) -> Result<(), AllocError>
    ensures same { contents list.new.items ≡ contents list.old.items }
    ensures count { length list.new.items ≡ length list.old.items }
    ensures room { OnOk result (All (HasRoom room) list.new.items) }
{
    for i in 0..list.len() {
        let file = &mut list[i];
        if file.reserve(room).is_err() {
            return Err(AllocError);
        }
    }
    Ok(())
}

/// Where a content has a file.
pub fn place(file: FileNo) -> usize
    requires { IsFile file }
    ensures is { result ≡ place_of file }
    ensures below { result < 17 }
{
    match file {
        FileNo::Database => 0,
        FileNo::Journal(n) => n as usize + 1,
    }
}
