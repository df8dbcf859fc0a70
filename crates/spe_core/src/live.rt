//! A live transaction.

use crate::locks::Locks;
use spe_model::Bytes;
use spe_stored::Sheets;
use std::alloc::{AllocError, Global};
use std::marker::Model;
use std::mem;

/// How far a transaction is.
#[derive(Clone, Copy, Debug)]
pub enum Phase {
    /// It reads and writes.
    Working,
    /// It gives pages their old bytes back.
    Undoing,
    /// It committed or rolled back.
    Ended,
}

/// A live transaction: the pages that it read as it found them, those that it journalled with their
/// bytes before, those that it wrote, and the locks of which it is a reader or the writer.
#[derive(Drop)]
pub struct Live {
    seen: Sheets,
    journalled: Sheets,
    written: Sheets,
    reads: Locks,
    writes: Locks,
    phase: Phase,
}

impl Model for Live {
    ghost use Rattle.spe_core.specs.State.{Live as State};
    ghost use Rattle.spe_core.specs.Phases.{phase_of};

    ghost Value = { State };

    ghost view = { λ t. record { seen = t.seen; journalled = t.journalled; written = t.written; reads = t.reads; writes = t.writes; phase = phase_of t.phase } };
}

impl Live {
    ghost use Rattle.std.specs.Prelude.{◌≡◌, ◌||◌, ◌&&◌, OnOk, OnErr, length};
    ghost use Rattle.std.specs.Option.{option_copied, option_map};
    ghost use Rattle.spe_stored.specs.Sheets.{sheet_at, has_sheet, with_sheet, without_sheet};
    ghost use Rattle.spe_core.specs.State.{is_working, is_ended, Undoing};
    ghost use Rattle.spe_core.specs.Enabled.{has_changed, holds, holds_none};
    ghost use Rattle.spe_core.specs.Changed.{fresh, undo_of, ended, reading_under, released, writing_under};
    ghost use Rattle.spe_core.specs.Locks.{has_lock};

    /// A transaction that has done nothing yet.
    pub fn new(alloc: Global) -> Live
        ensures { result ≡ fresh }
    {
        Live {
            seen: Sheets::new(alloc),
            journalled: Sheets::new(alloc),
            written: Sheets::new(alloc),
            reads: Locks::new(alloc),
            writes: Locks::new(alloc),
            phase: Phase::Working,
        }
    }

    /// Whether it reads and writes.
    pub fn is_working(&self) -> bool
        ensures { result ≡ is_working self.now }
    {
        matches!(self.phase, Phase::Working)
    }

    /// Whether it committed or rolled back.
    pub fn is_ended(&self) -> bool
        ensures { result ≡ is_ended self.now }
    {
        matches!(self.phase, Phase::Ended)
    }

    /// Whether it wrote a page, or read it as it found it.
    pub fn has_read(&self, page: u32) -> bool
        ensures { result ≡ (has_sheet page self.now.written || has_sheet page self.now.seen) }
    {
        self.written.has(page) || self.seen.has(page)
    }

    /// Whether it journalled a page.
    pub fn has_journalled(&self, page: u32) -> bool
        ensures { result ≡ has_sheet page self.now.journalled }
    {
        self.journalled.has(page)
    }

    /// Whether it wrote a page.
    pub fn has_written(&self, page: u32) -> bool
        ensures { result ≡ has_sheet page self.now.written }
    {
        self.written.has(page)
    }

    /// The bytes that it wrote to a page.
    pub fn written(&self, page: u32) -> Option<&[u8]>
        ensures { option_copied result ≡ sheet_at page self.now.written }
    {
        self.written.get(page)
    }

    /// How many pages it journalled.
    pub fn journalled_len(&self) -> usize
        ensures { result ≡ length self.now.journalled }
    {
        self.journalled.len()
    }

    /// The least page that it journalled and wrote, with its bytes before.
    pub fn first_changed(&self) -> Option<(u32, &[u8])>
        ensures { option_map (λ p. (p.0, p.1.now)) result ≡ undo_of self.now }
    {
        self.journalled.first_among(&self.written)
    }

    /// Whether a page that it journalled is written.
    pub fn has_changed(&self) -> bool
        ensures { result ≡ has_changed self.now }
    {
        self.first_changed().is_some()
    }

    /// Whether it is the writer of a lock.
    pub fn writes_under(&self, lock: u32) -> bool
        ensures { result ≡ has_lock lock self.now.writes }
    {
        self.writes.has(lock)
    }

    /// Whether it is a reader of a lock, or its writer.
    pub fn holds(&self, lock: u32) -> bool
        ensures { result ≡ holds lock self.now }
    {
        self.reads.has(lock) || self.writes.has(lock)
    }

    /// Whether it holds no lock.
    pub fn holds_none(&self) -> bool
        ensures { result ≡ holds_none self.now }
    {
        self.reads.is_empty() && self.writes.is_empty()
    }

    /// Becomes a reader of a lock.
    pub fn read_under(&mut self, lock: u32) -> Result<(), AllocError>
        ensures ok { OnOk result (self.new ≡ reading_under lock self.old) }
        ensures err { OnErr result (self.new ≡ self.old) }
    {
        self.reads.put(lock)
    }

    /// Becomes the writer of a lock.
    pub fn write_under(&mut self, lock: u32) -> Result<(), AllocError>
        ensures ok { OnOk result (self.new ≡ writing_under lock self.old) }
        ensures err { OnErr result (self.new ≡ self.old) }
    {
        self.writes.put(lock)
    }

    /// Holds a lock no more.
    pub fn release(&mut self, lock: u32)
        ensures { self.new ≡ released lock self.old }
    {
        self.reads.remove(lock);
        self.writes.remove(lock);
    }

    /// Lists a page as read.
    pub fn note_seen(&mut self, page: u32, bytes: Bytes) -> Result<(), AllocError>
        ensures ok { OnOk result (self.new ≡ record self.old { seen = with_sheet page bytes self.old.seen }) }
        ensures err { OnErr result (self.new ≡ self.old) }
    {
        self.seen.put(page, bytes)
    }

    /// Lists a page as journalled.
    pub fn note_journalled(&mut self, page: u32, bytes: Bytes) -> Result<(), AllocError>
        ensures ok { OnOk result (self.new ≡ record self.old { journalled = with_sheet page bytes self.old.journalled }) }
        ensures err { OnErr result (self.new ≡ self.old) }
    {
        self.journalled.put(page, bytes)
    }

    /// Lists a page as written.
    pub fn note_written(&mut self, page: u32, bytes: Bytes) -> Result<(), AllocError>
        ensures ok { OnOk result (self.new ≡ record self.old { written = with_sheet page bytes self.old.written }) }
        ensures err { OnErr result (self.new ≡ self.old) }
    {
        self.written.put(page, bytes)
    }

    /// A written page has its old bytes again.
    pub fn undo(&mut self, page: u32)
        ensures { self.new ≡ record self.old { written = without_sheet page self.old.written; phase = Undoing } }
    {
        self.written.remove(page);
        self.phase = Phase::Undoing;
    }

    /// Ends, with the list of what was journalled.
    pub fn end(&mut self, alloc: Global) -> Sheets
        ensures ended { self.new ≡ ended self.old }
        ensures journalled { result ≡ self.old.journalled }
    {
        self.seen = Sheets::new(alloc);
        self.written = Sheets::new(alloc);
        let journalled = mem::replace(&mut self.journalled, Sheets::new(alloc));
        self.phase = Phase::Ended;
        journalled
    }
}
