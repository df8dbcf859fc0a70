//! Served pages of which one table has other rows.
//!
//! Its function does nothing: its contract is a law, for a caller that calls it where it needs it.
#![tactic(auto)]

mod law;

pub use law::table_law;
