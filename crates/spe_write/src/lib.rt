//! Writing to pages: chains of overflow pages are written and freed.
//!
//! Each call leaves all pages that are in use elsewhere as they were, whatever it answers.
#![tactic(auto)]

mod chain;
mod link;

pub use chain::{free_chain, write_chain};
