//! Transactions of one client over a store.
//!
//! A pager shows the pages of a transaction to all that works on pages: it reads each page once, and keeps
//! what is put until the transaction ends. A transaction carries out its statements over it. One that is
//! given up has changed nothing. One that commits saves the pages that it changes, then writes all that were
//! put or added, and has one entry more in the list of commits; or it answers why not, and the list is as
//! before. Either way its id is back and the store is idle, unless it has stopped.
#![tactic(auto)]

mod alone;
mod beginning;
mod carrying;
mod commit;
mod ending;
mod fault;
mod fetch;
mod front;
mod leaving;
mod page_set;
mod page_space;
mod pager;
mod paging;
mod passing;
mod put;
mod resting;
mod running;
mod saving;
mod sealing;
mod show;
mod transaction;
mod writing;

pub use alone::alone_law;
pub use beginning::Beginning;
pub use carrying::carry_out;
pub use commit::Ended;
pub use fault::{EndFailed, EndFault};
pub use leaving::Left;
pub use pager::{Pager, Parts};
pub use passing::Passing;
pub use running::{Base, run_tx};
pub use transaction::{Ran, Turn};
