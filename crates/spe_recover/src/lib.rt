//! Rolls back all hot journals of a database together.
//!
//! `recover` answers exactly where a database has recovered pages, says what they are, and makes just
//! the operations that write them back. A refusal changes nothing and names the first reason. Wherever
//! recovery breaks off, by a failure or by a stop, the recovered pages are as before.
#![tactic(auto)]

mod clear;
mod failure;
mod heads;
mod known;
mod note;
mod piece;
mod recovery;
mod restore;
mod rolled;
mod scan;
mod seen;
mod survey;
mod want;
mod write_back;

pub use recovery::recover;
pub use want::Want;
