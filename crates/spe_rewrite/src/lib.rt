//! Pages of a recovered database rewritten, and added at its end, in one journalled transaction.
//!
//! `rewrite` saves the old pages in journal 0, writes the changed ones and cuts the journal. Wherever
//! that breaks off, by a failure or by a stop, the recovered pages are all as before; with the cut of
//! the journal they are all as they are to be.
#![tactic(auto)]

mod change;
mod fault;
mod journal;
mod law;
mod make;
mod put;
mod rewriting;

pub use change::{Change, Changes};
pub use fault::RewriteFault;
pub use make::make_journals;
pub use rewriting::rewrite;
