//! The kinds of what transactions do.

/// What a transaction did, but for its end.
#[derive(Clone, Copy, Drop)]
pub(crate) enum Kind {
    Begin,
    Open,
    Journal,
    Write,
    Undo,
    Read,
    Drop,
    Finish,
    Return,
}

/// Whether a commit was made, or the cut of its journal failed.
#[derive(Clone, Copy, Drop)]
pub(crate) enum Ending {
    Commit,
    Break,
}
