//! Tables, statements and replies as constants.

use spe_model::{Affinity, Closed, Op, Refusal, TxKind};

/// A value.
#[derive(Clone, Copy)]
pub enum Field {
    Null,
    Int(i64),
    Text(&'static str),
    /// A blob of so many zeros.
    Zeros(usize),
    /// A float.
    Real8([u8; 8]),
}

/// A condition on a name.
pub type Test = (&'static str, Op, i64);

/// The eight bytes of 1.5.
pub const REAL: [u8; 8] = [0x3f, 0xf8, 0, 0, 0, 0, 0, 0];

/// A statement: its table, and the other fields that `spe_model` has, in their order.
#[derive(Clone, Copy)]
pub enum Command {
    Select(&'static str, bool, &'static [&'static str], &'static [Test]),
    Count(&'static str, &'static [Test]),
    Insert(&'static str, bool, &'static [&'static str], &'static [Field]),
    Update(&'static str, &'static [(&'static str, Field)], &'static [Test]),
    Delete(&'static str, &'static [Test]),
}

/// A reply.
#[derive(Clone, Copy)]
pub enum Answer {
    Rows(&'static [&'static [Field]]),
    Counted(u64),
    Changed(u64),
    Inserted(i64),
    Refused(Refusal),
}

/// A statement in a transaction of a kind, and the reply to it.
pub type Step = (TxKind, Command, Answer);

/// Statements on tables without rows.
pub struct Case {
    pub name: &'static str,
    pub steps: &'static [Step],
}

/// A column: its name, its affinity, and whether it is NOT NULL.
pub type Heading = (&'static str, Affinity, bool);

/// A table.
pub struct Plan {
    pub name: &'static str,
    pub headings: &'static [Heading],
    pub alias: Option<u32>,
    pub closed: Option<Closed>,
}

/// The tables of every case.
pub static PLANS: [Plan; 8] = [
    Plan {
        name: "a",
        headings: &[
            ("id", Affinity::Integer, false),
            ("v", Affinity::Integer, false),
        ],
        alias: Some(0),
        closed: None,
    },
    Plan {
        name: "b",
        headings: &[
            ("id", Affinity::Integer, false),
            ("v", Affinity::Integer, false),
        ],
        alias: Some(0),
        closed: None,
    },
    // No column is the rowid.
    Plan {
        name: "each",
        headings: &[
            ("i", Affinity::Integer, true),
            ("t", Affinity::Text, false),
            ("b", Affinity::Blob, false),
            ("r", Affinity::Real, false),
            ("n", Affinity::Numeric, false),
        ],
        alias: None,
        closed: None,
    },
    // The rowid stands in the second column; both are NOT NULL.
    Plan {
        name: "k",
        headings: &[("v", Affinity::Text, true), ("id", Affinity::Integer, true)],
        alias: Some(1),
        closed: None,
    },
    Plan {
        name: "shut",
        headings: &[("v", Affinity::Integer, true)],
        alias: None,
        closed: Some(Closed::Indexed),
    },
    // A column has a name of the rowid.
    Plan {
        name: "own",
        headings: &[
            ("rowid", Affinity::Text, false),
            ("v", Affinity::Integer, false),
        ],
        alias: None,
        closed: None,
    },
    // Two tables of one name.
    Plan {
        name: "twin",
        headings: &[("v", Affinity::Integer, false)],
        alias: None,
        closed: None,
    },
    Plan {
        name: "TWIN",
        headings: &[
            ("v", Affinity::Integer, false),
            ("w", Affinity::Integer, false),
        ],
        alias: None,
        closed: None,
    },
];
