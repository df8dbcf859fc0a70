//! The rollback of hot journals.

ghost use Rattle.spe_crash.specs.Rollback.{RollbackKeeps, RollbackIsCovered, RollbackEmpties, RollbackRestores};

/// A rollback keeps the recovered pages, wherever it stops.
pub fn rollback_keeps()
    ensures keeps { RollbackKeeps }
    ensures covered { RollbackIsCovered }
{}

/// A whole rollback leaves no journal, and the recovered pages as those of the file.
pub fn rollback_restores()
    ensures empties { RollbackEmpties }
    ensures restores { RollbackRestores }
{}
