//! What became of transactions.

ghost use Rattle.std.specs.Prelude.{◌≡◌};

use crate::reply::Replies;
use std::marker::Model;

/// Why a transaction could not go on.
#[derive(Clone, Copy, Debug, PartialEq, Eq)]
pub enum Cause {
    /// A read from the disk failed.
    Read,
    /// An operation on the disk failed, and no more are made.
    Stopped {
        /// Its number, from 1.
        op: u64,
    },
    /// A page does not hold what it must.
    Corrupt {
        page: u32,
    },
}

/// How a transaction ended. `number` is the number of the commit, and elsewhere of the commits that
/// it saw.
#[derive(Clone, Copy, Debug, PartialEq, Eq)]
pub enum Outcome {
    Commit {
        number: u64,
    },
    Rollback {
        number: u64,
    },
    ReadOnly {
        number: u64,
    },
    /// Another transaction has the lock of a page.
    Busy {
        number: u64,
        page: u32,
        /// The lock word, as it was found.
        word: u64,
    },
    /// The file can take no more pages.
    Full {
        number: u64,
        /// The pages that it has.
        pages: u32,
    },
    Fault {
        number: u64,
        cause: Cause,
    },
    /// Memory ran out.
    Memory {
        number: u64,
    },
}

/// The outcomes of a client's transactions in order, each with the replies to its statements, seen
/// as a list.
#[derive(Debug, Drop)]
pub struct Transcript {
    inner: Vec<(Outcome, Replies)>,
}

impl Model for Transcript {
    ghost use Rattle.std.specs.Prelude.{List};
    ghost use Rattle.spe_model.specs.declared.reply.Reply.{Reply};
    ghost use Rattle.spe_model.specs.declared.transcript.Outcome.{Outcome};

    ghost Value = { List (Outcome × List Reply) };

    ghost view = { λ t. t.inner.items };
}

impl Transcript {
    ghost use Rattle.std.specs.Prelude.{◌≡◌};

    /// These outcomes with their replies.
    pub fn new(inner: Vec<(Outcome, Replies)>) -> Transcript
        ensures { result ≡ inner.items }
    {
        Transcript { inner }
    }

    /// The outcomes with their replies as a slice.
    pub fn as_slice(&self) -> &[(Outcome, Replies)]
        ensures { result.now ≡ self.now }
    {
        self.inner.as_slice()
    }
}

/// The transcripts of clients in order, seen as a list.
#[derive(Debug, Drop)]
pub struct Transcripts {
    inner: Vec<Transcript>,
}

impl Model for Transcripts {
    ghost use Rattle.std.specs.Prelude.{List};
    ghost use Rattle.spe_model.specs.declared.reply.Reply.{Reply};
    ghost use Rattle.spe_model.specs.declared.transcript.Outcome.{Outcome};

    ghost Value = { List (List (Outcome × List Reply)) };

    ghost view = { λ t. t.inner.items };
}

impl Transcripts {
    ghost use Rattle.std.specs.Prelude.{◌≡◌};

    /// These transcripts.
    pub fn new(inner: Vec<Transcript>) -> Transcripts
        ensures { result ≡ inner.items }
    {
        Transcripts { inner }
    }

    /// The transcripts as a slice.
    pub fn as_slice(&self) -> &[Transcript]
        ensures { result.now ≡ self.now }
    {
        self.inner.as_slice()
    }
}
