//! Whether the pages of a database are sound.
//!
//! A walk meets each page once, by a bit for each, and breaks off at the first rule that is broken. What it
//! answers holds for all pages that agree with those that the space gave.
#![tactic(auto)]

mod chain;
mod free_lists;
mod halt;
mod index_tree;
mod met;
mod objects;
mod page;
mod record_rows;
mod rule;
mod schema_rows;
mod table_tree;
mod trunk;
mod verdict;
mod visitor;
mod walk;

pub use spe_room::{DiskSpace, Origin, found_pages};
pub use verdict::check;
