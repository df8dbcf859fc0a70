//! Files on which no transaction has begun.

ghost use Rattle.spe_transactions.specs.Steps.{OpeningWorks};

/// After a recovery, where no journal has bytes, the files are those of no transaction at work.
///
/// The page count that page 1 names need not be valid: transactions may then write the pages that there
/// are, and add none.
pub fn at_work_at_opening()
    ensures work { OpeningWorks }
{}
