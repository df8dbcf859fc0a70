//! What a check of a database's pages finds.

/// Whether the pages of a database are sound.
#[derive(Clone, Copy, Debug, PartialEq, Eq)]
pub enum Verdict {
    /// They are, and there are so many tables, so many rows in the open ones, and so many free pages.
    Stands { tables: u32, rows: u64, free: u32 },
    /// This page is the first that breaks a rule, by the rule's number.
    Broken { page: u32, rule: u8 },
}
