//! The printed text of rows, replies and transactions.
//!
//! `print_table` and `render` put the text of a table and of transcripts to a sink, in pieces of some
//! tens of kilobytes, and take no memory. The texts are defined in `specs/`. The text of transcripts
//! tells them: `text_tells_transcripts`.
#![tactic(auto)]

mod law;
mod outcomes;
mod printer;
mod replies;
mod stored;
mod tables;
mod transcripts;
mod values;

pub use law::text_tells_transcripts;
pub use printer::Printer;
pub use replies::put_count;
pub use stored::put_stored;
pub use tables::print_table;
pub use transcripts::render;
