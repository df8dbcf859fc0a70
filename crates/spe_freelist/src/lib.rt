//! The lists of free pages of a database in server form, which is this project's own.
//!
//! A node page names the first trunk of each list. Pages are handed out from a list and taken back, and all
//! other lists stay. What is answered holds for all pages that agree with those that were given; Corrupt
//! names a page that was read, with its cause.
#![tactic(auto)]

mod give;
mod lists;
mod node;
mod step;
mod take;
mod trunk;
mod trunks;

pub use lists::{alloc, free};
pub use node::read_node;
pub use trunks::Trunks;
