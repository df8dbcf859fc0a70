//! Clients run one after another on one worker, over a store.
//!
//! Whatever fails, the transactions were replied to as one serial run in the order of their commits, and at
//! each cut of what was done to the files the recovered pages are those of the database after the commits
//! within it. All memory for outcomes is taken before the store is opened, so that none is lost.
#![tactic(auto)]

mod clients;
mod place;
mod report;
mod room;
mod running;

pub use clients::{Client, Clients};
pub use report::Report;
pub use running::run_clients;
