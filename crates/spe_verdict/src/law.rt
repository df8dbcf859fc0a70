//! The law of verdicts.

ghost use Rattle.spe_verdict.specs.Bounds.{FreeAreFew, RowsAreFew, TablesAreFew};
ghost use Rattle.spe_verdict.specs.Frames.{FramedAreServed};
ghost use Rattle.spe_verdict.specs.Law.{
  BrokenIsTrue,
  LegalStandingAreUnbroken,
  LegalUnbrokenStand,
  StandForOne,
  StandingAreUnbroken,
  StandsIsTrue,
  UnbrokenStand,
  VerdictCounts,
};
ghost use Rattle.spe_verdict.specs.Roots.{ServedAreFramed, ServedForOne, ServedStand};

/// No rule of the walk is broken exactly where the pages stand for a database, and there is one such database
/// at most.
pub fn verdict_law()
    ensures sound { UnbrokenStand }
    ensures complete { StandingAreUnbroken }
    ensures one { StandForOne }
{}

/// A verdict tells whether there is such a database, and counts what it has.
pub fn counts_law()
    ensures counts { VerdictCounts }
    ensures stands { StandsIsTrue }
    ensures broken { BrokenIsTrue }
{}

/// The law of verdicts for pages that begin with a legal header, which says how many bytes of each page are used.
pub fn legal_law()
    ensures sound { LegalUnbrokenStand }
    ensures complete { LegalStandingAreUnbroken }
{}

/// How many tables, rows and free pages there are at most.
pub fn bounds_law()
    ensures tables { TablesAreFew }
    ensures rows { RowsAreFew }
    ensures free { FreeAreFew }
{}

/// Served pages stand, for one database, and are framed for the roots of their schema.
pub fn served_law()
    ensures stand { ServedStand }
    ensures framed { ServedAreFramed }
    ensures one { ServedForOne }
{}

/// Pages that are framed for the roots of their schema are served for the objects of its rows.
pub fn framed_law()
    ensures served { FramedAreServed }
{}
