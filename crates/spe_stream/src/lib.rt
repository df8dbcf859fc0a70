//! A table's rows that are put to a sink while they are read.
//!
//! `put_table` walks the tree of a table and prints the line of each row as it is met, and behind a whole
//! walk the line of their number. It keeps no list of rows: of the rows that were printed only proofs have
//! one. What the sink took is the text of the whole table, or the lines of some first rows of it where the
//! walk met a fault, or some first bytes of these where the sink failed.
#![tactic(auto)]

mod shown;
mod stream;
mod table;

pub use shown::ShownRows;
pub use table::{Streamed, put_table};
