//! Which pages a search touches, and which rows it gives.

ghost use Rattle.spe_search.specs.Range.{SpansTheTable, TouchesTheTree};

/// The pages that a walk between two rowids touches are pages of the tree.
///
/// The function does nothing: its contract is the law, for a caller that calls it where it needs it.
pub fn touches_the_tree()
    ensures { TouchesTheTree }
{}

/// A walk from the least rowid to the greatest gives all rows of a table.
///
/// The function does nothing: its contract is the law.
pub fn spans_the_table()
    ensures { SpansTheTable }
{}
