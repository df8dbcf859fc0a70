//! When the pages of a file are sound: no rule of the check is broken exactly where they stand for a database.
//!
//! Each function here does nothing: its contract is a law, for a caller that calls it where it needs it.
#![tactic(auto)]

mod law;

pub use law::{bounds_law, counts_law, framed_law, legal_law, served_law, verdict_law};
