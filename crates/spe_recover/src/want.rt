//! What is wanted of the recovered pages.

/// What the recovered pages have to be.
#[derive(Clone, Copy, Debug, PartialEq, Eq)]
pub enum Want {
    /// Whatever they are.
    Any,
    /// In server form: offset 32 of page 1 names a page, offset 36 is 0, and the size in pages
    /// counts.
    Prepared,
}
