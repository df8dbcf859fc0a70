//! The store: what up to sixteen transactions do to the files of a database at the same time.
//!
//! At every cut of what was done to the files so far the recovered pages are those after the commits whose
//! journal was cut, and these pages are served for what the transactions committed. What each transaction
//! has read is as after all commits, until it has committed. An operation that fails stops the store.
#![tactic(auto)]

mod cut;
mod desk;
mod end;
mod entry;
mod kind;
mod log;
mod opening;
mod order;
mod pass;
mod pool;
mod put;
mod read;
mod save;
mod saved;
mod session;
mod stop;
mod store;
mod story;
mod work;

pub use log::Log;
pub use opening::Opening;
pub use pass::{IDS, IdSeat, Pass};
pub use session::{Receipt, SessionSeat};
pub use stop::{BeginFault, StoreFault};
pub use store::{OpenFault, OpenWhy, Parts, Store};
