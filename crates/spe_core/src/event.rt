//! The events of the core.

ghost use Rattle.std.specs.Prelude.{◌≡◌};

use spe_model::Bytes;
use sqlite_items::Boxed;
use std::marker::Model;

/// One event. An `id` is a transaction's, and the number of its journal; pages are numbered from 1.
#[cycle(event)]
#[derive(Drop)]
pub enum Event {
    /// A transaction begins.
    Begin {
        id: u8,
    },
    /// A transaction becomes a reader of a lock.
    GrantRead {
        id: u8,
        lock: u32,
    },
    /// A transaction becomes the writer of a lock.
    GrantWrite {
        id: u8,
        lock: u32,
    },
    /// A page of the file is read.
    Read {
        id: u8,
        page: u32,
    },
    /// The head of the transaction's journal is written.
    OpenJournal {
        id: u8,
    },
    /// A record of a page as the file has it is written at the end of the transaction's journal.
    Journal {
        id: u8,
        page: u32,
    },
    /// The bytes of a page are written to the file.
    WriteBytes {
        id: u8,
        page: u32,
        bytes: Bytes,
    },
    /// The transaction commits: its journal is cut to none.
    CommitCut {
        id: u8,
    },
    /// The least page that was journalled and written gets its old bytes.
    UndoBytes {
        id: u8,
    },
    /// The transaction ends with nothing written: its journal is cut to none.
    RollCut {
        id: u8,
    },
    /// An ended transaction gives a lock back.
    Release {
        id: u8,
        lock: u32,
    },
    /// A read-only transaction enters.
    EnterReadOnly {
        reader: u32,
    },
    /// The number of commits after which it reads is fixed.
    FixSnapshot {
        reader: u32,
    },
    /// A read-only transaction reads a page.
    ReadAt {
        reader: u32,
        page: u32,
    },
    /// A read-only transaction leaves.
    Leave {
        reader: u32,
    },
    /// Old images up to this number of commits go.
    Trim {
        floor: u64,
    },
    /// The process stops, after the first bytes of the write of the event that was to come next.
    Stop {
        next: Option<Boxed<Event>>,
        bytes: u64,
    },
    /// One operation of recovery is made.
    RecoverOp,
}

/// Whether an event was enabled.
#[derive(Clone, Copy, Debug, PartialEq, Eq)]
pub enum Answer {
    /// It was, and was made.
    Done,
    /// It was not, and changed nothing.
    Refused,
}

/// Events in their order, seen as a list.
#[derive(Drop)]
pub struct Events {
    inner: Vec<Event>,
}

impl Model for Events {
    ghost use Rattle.std.specs.Prelude.{List};
    ghost use Rattle.std.specs.Coded.{codes};
    ghost use Rattle.spe_core.specs.declared.event.Event.{Event};
    ghost use Rattle.spe_core.specs.contracts.event.Event as e;

    ghost Value = { List Event };

    ghost coded = { Prim.hlevel (codes, e.the_row.coded) };

    ghost view = { λ t. t.inner.items };
}

impl Events {
    ghost use Rattle.std.specs.Prelude.{◌≡◌};

    /// These events.
    pub fn new(inner: Vec<Event>) -> Events
        ensures { result ≡ inner.items }
    {
        Events { inner }
    }

    /// The events as a slice.
    pub fn as_slice(&self) -> &[Event]
        ensures { result.now ≡ self.now }
    {
        self.inner.as_slice()
    }
}
