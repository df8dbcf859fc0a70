//! Writes and cuts of the database.

ghost use Rattle.spe_crash.specs.Write.{SafeWriteKeeps, TornWriteKeeps, TrimKeeps};

/// A write within one page that a hot journal holds, or above the count, changes no recovered page.
pub fn safe_write_keeps()
    ensures keeps { SafeWriteKeeps }
{}

/// The last write of a covered trace changes no recovered page, whatever bytes a stop leaves of it.
pub fn torn_write_keeps()
    ensures keeps { TornWriteKeeps }
{}

/// A cut of the file to its recovered pages changes none of them.
pub fn trim_keeps()
    ensures keeps { TrimKeeps }
{}
