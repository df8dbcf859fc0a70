//! Cuts of traces.

ghost use Rattle.spe_crash.specs.Trace.{CutIsCovered, WholeIsCut};

/// A trace is a cut of itself, and what a stop leaves of a covered trace is covered.
pub fn cut_is_covered()
    ensures whole { WholeIsCut }
    ensures covered { CutIsCovered }
{}
