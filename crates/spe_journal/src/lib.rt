//! The text of a rollback journal: writing its head and its records, and reading what it saves.
//!
//! What is written is the one form that a journal has, and reading gives it back. What is read of
//! any bytes is exactly the hot records: those of the pages that an unfinished transaction saved.
#![tactic(auto)]

mod bytes;
mod head;
mod record;
mod text;

pub use head::{HEAD_BYTES, JournalKind, journal_kind, put_head};
pub use record::{SavedPage, checksum, put_record, record_at};
pub use text::{JournalText, Record, Records};
