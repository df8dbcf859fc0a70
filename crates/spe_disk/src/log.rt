//! What a disk in memory has been through.

ghost use Rattle.std.specs.Prelude.{◌≡◌, ◌+◌, ◌-◌, ◌<◌, ◌≤◌, ◌∷◌, ◌++◌, [], ◌↔◌, IsTrue, IfOk, All, length, unwrap_or, vec_capacity};
ghost use Rattle.std.specs.Option.{option_copied};
ghost use Rattle.spe_model.specs.Content.{IsFile, with_file};
ghost use Rattle.spe_model.specs.Trace.{Operation, after};
ghost use Rattle.spe_disk.specs.Log.{file_in, FileLiesIn};
ghost use Rattle.spe_disk.specs.Stop.{cut_at};

use crate::entry::{Entry, Span};
use crate::files::{Files, place};
use crate::replay::{first_files, play, tear};
use spe_model::FileNo;
use std::alloc::{AllocError, Global};
use std::marker::Model;

/// The files at first and the operations since, with all their bytes in one store.
#[derive(Debug, Drop)]
pub struct Log {
    left: usize,
    limit: usize,
    store: Vec<u8>,
    firsts: Vec<Option<Span>>,
    entries: Vec<Entry>,
}

impl Model for Log {
    ghost use Rattle.spe_disk.specs.Log.{Logged, files_in, operations_in, IsLog};

    ghost Value = { Logged };

    ghost view = { λ l. record { first = files_in l.store.items l.firsts.items; trace = operations_in l.store.items l.entries.items; left = l.left; limit = l.limit } };

    ghost invariant = { λ l. IsLog l.left l.limit l.store l.firsts.items l.entries };
}

impl Log {
    /// A log that begins with these files and may take `room` bytes and `operations` operations,
    /// with the memory for them.
    pub fn of(
        alloc: Global,
        files: &Files,
        room: usize,
        operations: usize,
    ) -> Result<Log, AllocError>
        ensures first { IfOk result (λ l. l.first ≡ files.now.content) }
        ensures places { IfOk result (λ l. length l.first ≡ 17) }
        ensures trace { IfOk result (λ l. l.trace ≡ []) }
        ensures left { IfOk result (λ l. l.left ≡ room) }
        ensures limit { IfOk result (λ l. l.limit ≡ operations) }
    {
        let mut store = Vec::new(alloc);
        let mut firsts = Vec::with_capacity(alloc, 17)?;
        for file in files.as_slice() {
            let span = keep(&mut store, file.bytes())?;
            firsts.push(span)?;
        }
        store.reserve_exact(room)?;
        let entries = Vec::with_capacity(alloc, operations)?;
        Ok(Log {
            left: room,
            limit: operations,
            store,
            firsts,
            entries,
        })
    }

    /// How many more bytes it may take.
    pub fn left(&self) -> usize
        ensures { result ≡ self.now.left }
    {
        self.left
    }

    /// How many operations it has.
    pub fn count(&self) -> usize
        ensures { result ≡ length self.now.trace }
    {
        self.entries.len()
    }

    /// How many operations it may have.
    pub fn limit(&self) -> usize
        ensures { result ≡ self.now.limit }
    {
        self.limit
    }

    /// Makes these the bytes of a file at first.
    pub fn load(&mut self, file: FileNo, bytes: &[u8])
        requires numbered { IsFile file }
        requires room { length bytes.now ≤ self.old.left }
        ensures first { self.new.first ≡ with_file self.old.first file bytes.now }
        ensures places { length self.new.first ≡ 17 }
        ensures trace { self.new.trace ≡ self.old.trace }
        ensures left { self.new.left ≡ self.old.left - length bytes.now }
        ensures limit { self.new.limit ≡ self.old.limit }
    {
        let span = append(&mut self.store, bytes);
        self.firsts[place(file)] = Some(span);
        self.left -= bytes.len();
    }

    /// Adds a write that has filled this many bytes before it with zeros.
    pub fn add_write(&mut self, file: FileNo, at: u64, bytes: &[u8], filled: usize)
        requires numbered { IsFile file }
        requires room { length bytes.now + filled ≤ self.old.left }
        requires slot { length self.old.trace < self.old.limit }
        ensures first { self.new.first ≡ self.old.first }
        ensures trace { self.new.trace ≡ self.old.trace ++ Operation.Write file at bytes.now ∷ [] }
        ensures left { self.new.left ≡ self.old.left - (length bytes.now + filled) }
        ensures limit { self.new.limit ≡ self.old.limit }
    {
        let span = append(&mut self.store, bytes);
        push(&mut self.entries, Entry::Written(file, at, span));
        self.left -= bytes.len() + filled;
    }

    /// Adds a cut.
    pub fn add_cut(&mut self, file: FileNo, size: u64)
        requires numbered { IsFile file }
        requires slot { length self.old.trace < self.old.limit }
        ensures first { self.new.first ≡ self.old.first }
        ensures trace { self.new.trace ≡ self.old.trace ++ Operation.Cut file size ∷ [] }
        ensures left { self.new.left ≡ self.old.left }
        ensures limit { self.new.limit ≡ self.old.limit }
    {
        push(&mut self.entries, Entry::Cut(file, size));
    }

    /// The files that a stop leaves after this many operations, and this many bytes of the next one
    /// where it is a write.
    pub fn files_at(
        &self,
        alloc: Global,
        operations: usize,
        bytes: usize,
    ) -> Result<Files, AllocError>
        ensures { IfOk result (λ f. f.content ≡ after self.now.first (cut_at self.now.trace operations bytes)) }
    {
        let store = self.store.as_slice();
        let mut files = first_files(alloc, store, self.firsts.as_slice())?;
        let whole = operations.min(self.entries.len());
        let (front, rest) = self.entries.as_slice().split_at(whole);
        play(store, front, &mut files)?;
        tear(store, rest, bytes, &mut files)?;
        Ok(files)
    }
}

// Keeps the bytes of a file, where it is there, behind those in the store.
fn keep(store: &mut Vec<u8>, bytes: Option<&[u8]>) -> Result<Option<Span>, AllocError>
    ensures items { IfOk result (λ _. store.new.items ≡ store.old.items ++ unwrap_or (option_copied bytes.entry) []) }
    ensures file { IfOk result (λ span. file_in store.new.items span ≡ option_copied bytes.entry) }
    ensures lies { IfOk result (FileLiesIn (length store.new.items)) }
{
    match bytes {
        None => Ok(None),
        Some(bytes) => {
            let start = store.len();
            store.extend_from_slice(bytes)?;
            let end = store.len();
            Ok(Some(Span { start, end }))
        }
    }
}

// Adds bytes for which there is room.
fn append(store: &mut Vec<u8>, bytes: &[u8]) -> Span
    requires { length store.old.items + length bytes.now ≤ vec_capacity store.old }
    ensures items { store.new.items ≡ store.old.items ++ bytes.now }
    ensures room { vec_capacity store.old ≤ vec_capacity store.new }
    ensures start { result.start ≡ length store.old.items }
    ensures end { result.end ≡ length store.new.items }
{
    let start = store.len();
    let _added = store.extend_from_slice(bytes);
    let end = store.len();
    Span { start, end }
}

// Adds an entry for which there is room.
fn push(entries: &mut Vec<Entry>, entry: Entry)
    requires { length entries.old.items < vec_capacity entries.old }
    ensures items { entries.new.items ≡ entries.old.items ++ entry ∷ [] }
    ensures room { vec_capacity entries.old ≤ vec_capacity entries.new }
{
    let _added = entries.push(entry);
}
