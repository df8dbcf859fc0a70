//! What operations on the files of a database, and stops among them, leave of its recovered pages.
//!
//! Each function here does nothing: its contract is a law, for a caller that calls it where it needs it.
#![tactic(auto)]

mod pages;
mod rollback;
mod trace;
mod write;

pub use pages::recovered_pages;
pub use rollback::{rollback_keeps, rollback_restores};
pub use trace::cut_is_covered;
pub use write::{safe_write_keeps, torn_write_keeps, trim_keeps};
