//! What several transactions that write at the same time, each with a journal of its own, and stops
//! among them, leave of the recovered pages of a database.
//!
//! Each function here does nothing: its contract is a law, for a caller that calls it where it needs it.
//! Those of `opening`, `journal`, `page` and `end` are about one step, from one content of the files to
//! the next; those of `served` about all that was done to the files since the opening.
#![tactic(auto)]

mod end;
mod journal;
mod opening;
mod page;
mod served;

pub use end::{
    commit_leaves, ends_without_journal, journal_cut_at_commit, journal_cut_at_rollback,
};
pub use journal::{head_written, journal_made, page_journalled, page_journalled_again};
pub use opening::at_work_at_opening;
pub use page::{least_page_to_undo, page_undone, page_written};
pub use served::{
    Meeting, kept_after_another, kept_after_commit, kept_after_opening, kept_after_step,
    kept_at_cuts, kept_at_stop, kept_at_stopped_commit, kept_by_commit_without_journal,
    pages_after_commit,
};
