//! What the space over a database file gives.

ghost use Rattle.spe_room.specs.Found.{GivesFound};

/// Over a file that holds the recovered pages, the pages that a space gives are these.
pub fn found_pages()
    ensures { GivesFound }
{}
