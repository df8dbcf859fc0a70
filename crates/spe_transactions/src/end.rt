//! A transaction ends.

ghost use Rattle.spe_transactions.specs.Steps.{BareEnds, CommitLeaves, CommitWorks, DropWorks};

/// The journal of a transaction is cut to none: with that it has committed, and what it wrote is laid
/// over the recovered pages.
///
/// Before the cut nothing of it is recovered, after it all, and a cut is never torn. What the other
/// transactions have journalled and written stays.
pub fn journal_cut_at_commit()
    ensures work { CommitWorks }
{}

/// The journal of a transaction is cut to none once each page that it journalled has its old bytes: the
/// recovered pages stay.
///
/// Pages that it wrote above them may stay in the file, where nothing reads them.
pub fn journal_cut_at_rollback()
    ensures work { DropWorks }
{}

/// A transaction whose journal has no bytes has written nothing. It ends without an operation, whether it
/// commits or not, and the recovered pages stay.
pub fn ends_without_journal()
    ensures work { BareEnds }
{}

/// A commit leaves each page that it has not written: so what another transaction has read of those stays
/// right.
pub fn commit_leaves()
    ensures leaves { CommitLeaves }
{}
