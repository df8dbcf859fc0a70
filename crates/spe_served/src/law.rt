//! One table of served pages gets other rows.

ghost use Rattle.spe_served.specs.Change.{ChangesTable, RootHasOne};
ghost use Rattle.spe_served.specs.Lists.{ListsStand};

use spe_space::Pages;

/// The tree of an open table stands apart from all other pages of a served database. Where it becomes a
/// tree with other rows, and pages in use elsewhere stay, the pages are served for the database with these
/// rows, and have what was read at the opening.
///
/// It is said of spaces whose free pages are those of the lists that page 1 names. A root has one tree.
pub fn table_law<S: Pages>(_space: &S)
    ensures table { ListsStand S.Pages → ChangesTable S.Pages }
    ensures one { RootHasOne }
{}
