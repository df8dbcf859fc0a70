//! That pages may be rewritten so.

ghost use Rattle.spe_rewrite.specs.Laws.{RewriteTurns};

use spe_crash::recovered_pages;
use spe_transactions::{
    at_work_at_opening, ends_without_journal, head_written, journal_cut_at_commit, page_journalled,
    page_written,
};

/// The operations of a rewriting are covered; wherever a stop cuts them the recovered pages are those
/// before, or with the last of them the new ones; and then no transaction is at work.
pub fn rewrite_turns()
    ensures turns { RewriteTurns }
{
    // The law of each step.
    at_work_at_opening();
    head_written();
    page_journalled();
    page_written();
    journal_cut_at_commit();
    ends_without_journal();
}
