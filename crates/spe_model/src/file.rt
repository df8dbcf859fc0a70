//! The files of a database.

/// A file of a database: the database itself, or one of its rollback journals.
///
/// The journals have the numbers 0 to 15. A call that takes a `FileNo` has that as its condition.
#[derive(Clone, Copy, Debug, PartialEq, Eq)]
pub enum FileNo {
    /// The database file.
    Database,
    /// The rollback journal of this number.
    Journal(u8),
}
