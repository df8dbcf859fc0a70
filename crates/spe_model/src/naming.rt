//! What names mean in a table.

/// What a name means in a table.
#[derive(Clone, Copy, Debug, PartialEq, Eq)]
pub enum Named {
    Rowid,
    /// The column at a place, counted from 0.
    Column(usize),
    /// The table has no such name.
    Nothing,
}
