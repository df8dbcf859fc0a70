//! A transaction writes pages of the database, and takes them back.

ghost use Rattle.spe_transactions.specs.Steps.{LeastWorks, PutWorks, UndoWorks};

/// A page is written that its transaction has journalled, or one above the recovered pages where it has
/// journalled page 1: whole or torn, the write changes no recovered page.
///
/// The first 24 bytes of page 1 are never written, so the bytes have to begin as the file does. A page
/// may be written again and again.
pub fn page_written()
    ensures work { PutWorks }
{}

/// A page that its transaction has journalled gets its old bytes back: whole or torn, the write changes
/// no recovered page.
///
/// A rollback may undo its pages in any order. It need not undo the pages above the recovered ones.
pub fn page_undone()
    ensures work { UndoWorks }
{}

/// As long as a page is left to undo there is a least one.
pub fn least_page_to_undo()
    ensures least { LeastWorks }
{}
