//! Files since the opening: what a stop leaves of them at any moment.

ghost use Rattle.std.specs.Prelude.{ℕ, List};
ghost use Rattle.spe_transactions.specs.Growth.{
  AfterCommit,
  BareCommitKept,
  CommitKept,
  CommitStopKept,
  CutsMeet,
  OpeningKept,
  SayingChanges,
  StepKept,
  StopKept,
};

use std::marker::Brand;

/// What is said of the pages after each number of commits, by whoever keeps a list of commits: that they
/// are those of the database after so many of its entries, for instance.
///
/// The pages after n commits are those of the opening with what the first n wrote laid over them. No trace
/// is needed to name them.
pub trait Meeting {
    ghost meets: { ℕ → List (List ℕ) → Type 0 };
}

impl Meeting for Brand {
    ghost meets = { λ n pages. Unit {0} };
}

/// At the opening no commit has ended, and no transaction is at work.
pub fn kept_after_opening<M: Meeting>()
    ensures kept { OpeningKept M.meets }
{}

/// A head, a record, a page, an undone page or the cut at a rollback is made: at each cut of the trace
/// the recovered pages are still those after the commits within it.
pub fn kept_after_step<M: Meeting>()
    ensures kept { StepKept M.meets }
{}

/// The same where such an operation fails, and none, some or all of its bytes were written.
pub fn kept_at_stop<M: Meeting>()
    ensures stopped { StopKept M.meets }
{}

/// The cut at a commit is made: there is one commit more, and each cut of the trace that holds this
/// operation recovers its pages.
pub fn kept_after_commit<M: Meeting>()
    ensures kept { CommitKept M.meets }
{}

/// The cut at a commit fails. It may have been made all the same: in this case alone one commit may count
/// that is not listed.
pub fn kept_at_stopped_commit<M: Meeting>()
    ensures stopped { CommitStopKept M.meets }
{}

/// A transaction commits that has no journal: there is one commit more, with no operation.
pub fn kept_by_commit_without_journal<M: Meeting>()
    ensures kept { BareCommitKept M.meets }
{}

/// Each cut of the trace recovers the pages after the commits within it, and they meet what is said of
/// that number.
pub fn kept_at_cuts<M: Meeting>()
    ensures cuts { CutsMeet M.meets }
{}

/// Something else may be said of the pages, where it is true of those after each number of commits so
/// far: as what is said may name a list that has grown.
pub fn kept_after_another<M: Meeting, O: Meeting>()
    ensures kept { SayingChanges M.meets O.meets }
{}

/// One commit more leaves the pages after those before it, and lays what it wrote over the last of them.
pub fn pages_after_commit()
    ensures after { AfterCommit }
{}
