//! Replies to statements.

ghost use Rattle.std.specs.Prelude.{◌≡◌};

use crate::value::Rows;
use std::marker::Model;
use thiserror::Error;

/// Why a statement changed nothing: the lowest number that holds.
#[derive(Clone, Copy, Debug, PartialEq, Eq, Error)]
pub enum Refusal {
    /// It writes, and its transaction is read-only.
    #[error("the transaction is read-only")]
    ReadOnly = 1,
    /// There is no table of its name.
    #[error("there is no such table")]
    NoTable = 2,
    /// The table is closed to statements.
    #[error("the table is closed to statements")]
    ClosedTable = 3,
    /// A name is neither a column nor a name of the rowid.
    #[error("there is no such column")]
    NoColumn = 4,
    /// A condition is on a column that is not the rowid.
    #[error("a condition may only be on the rowid")]
    NotByRowid = 5,
    /// It has more or fewer values than columns to put them in, or one place gets two of them.
    #[error("there are more or fewer values than columns, or a column is set twice")]
    Count = 6,
    /// A value is of a class that its column, or the rowid, does not take.
    #[error("a value is of a class that its column does not take")]
    Class = 7,
    /// A column declared NOT NULL would hold NULL; the column that is the rowid is not asked.
    #[error("a column that is NOT NULL would hold NULL")]
    NotNull = 8,
    /// UPDATE sets the rowid.
    #[error("the rowid can not be changed")]
    RowidFixed = 9,
    /// A row has the rowid of the one to be inserted.
    #[error("there is a row with this rowid")]
    RowidTaken = 10,
    /// A new row needs a rowid, and the largest one of the table is the last there is, 2^63 - 1.
    #[error("the largest rowid is in use")]
    RowidsUsedUp = 11,
    /// A record to be written has more than 1,000,000 bytes.
    #[error("the record has more than 1000000 bytes")]
    TooLarge = 12,
}

/// What a statement answers.
#[derive(Debug, Drop)]
pub enum Reply {
    /// Of each row that meets the conditions, by ascending rowid, the values that were named.
    Rows(Rows),
    /// How many rows were chosen.
    Count(u64),
    /// How many rows were changed or went.
    Changed(u64),
    /// The rowid of the new row.
    Inserted(i64),
    /// Nothing changed, for this reason.
    Refused(Refusal),
}

/// Replies in the order of their statements, seen as a list.
#[derive(Debug, Drop)]
pub struct Replies {
    inner: Vec<Reply>,
}

impl Model for Replies {
    ghost use Rattle.std.specs.Prelude.{List};
    ghost use Rattle.spe_model.specs.declared.reply.Reply.{Reply};

    ghost Value = { List Reply };

    ghost view = { λ t. t.inner.items };
}

impl Replies {
    ghost use Rattle.std.specs.Prelude.{◌≡◌};

    /// These replies.
    pub fn new(inner: Vec<Reply>) -> Replies
        ensures { result ≡ inner.items }
    {
        Replies { inner }
    }

    /// The replies as a slice.
    pub fn as_slice(&self) -> &[Reply]
        ensures { result.now ≡ self.now }
    {
        self.inner.as_slice()
    }
}
