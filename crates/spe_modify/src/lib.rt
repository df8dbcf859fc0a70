//! Rows of served databases that change.
//!
//! A row is put into an open table, gets other values, or is taken out, and the pages are then served for
//! the database with this row or without it. It joins what a call does to one tree with what a served
//! database is.
#![tactic(auto)]

mod removal;
mod row;
mod rows;

pub use removal::{remove_row, remove_rows};
pub use row::{insert_row, replace_row};
pub use rows::{StoredRow, replace_rows};
