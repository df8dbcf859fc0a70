//! Recovered pages.

ghost use Rattle.spe_crash.specs.Pages.{QuietIsWhole, RecoveredAreHeaded};

/// Recovered pages begin with a legal header of the file's page size, and where no journal has bytes
/// the file has them all.
pub fn recovered_pages()
    ensures headed { RecoveredAreHeaded }
    ensures whole { QuietIsWhole }
{}
