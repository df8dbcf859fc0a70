//! Laws of free lists that are put in another form.

ghost use Rattle.spe_convert.specs.Laws.{CountKeeps, PrepareKeeps, ReleaseKeeps};

/// Pages that stand for a database still stand for it once their free lists are put in server form, once
/// they are put in stock form, and once the page count is made valid.
///
/// The trees, the chains and the rows of all objects are as before, since their pages are. Not promised
/// is that the pages can be served, which asks more of the trees.
pub fn lists_keep()
    ensures prepare { PrepareKeeps }
    ensures release { ReleaseKeeps }
    ensures count { CountKeeps }
{}
