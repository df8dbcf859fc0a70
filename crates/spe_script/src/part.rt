//! What a script is made of.

use spe_model::{End, Statement, TxKind};

/// An item of a script.
#[derive(Debug, Drop)]
pub enum Item {
    /// A transaction begins.
    Begin(TxKind),
    /// It ends.
    Close(End),
    /// A statement in it, or alone.
    Statement(Statement),
}

/// What stands behind the tokens between two semicolons, and its place in bytes, counted from 0.
#[derive(Clone, Copy, Debug, PartialEq, Eq)]
pub enum Border {
    Semicolon(u64),
    TextEnd(u64),
    /// A byte at which no token stands.
    NoToken(u64),
}
