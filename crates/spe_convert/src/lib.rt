//! The free lists of a database, which are put in server form and back in stock form.
//!
//! `lists_keep` says that pages whose free lists are put in another form, by the pages that
//! `prepared_changes` and `released_changes` name, stand for the same database, with the same pages
//! free. `read_free` reads the numbers of all free pages, in either form, from the file; `trunk_page`,
//! `node_page`, `front_page` and `counted_page` give the bytes of the pages that change.
//!
//! `prepare` puts the free lists of a recovered database in server form, in one transaction, and before it
//! makes its page count valid, in one more, where it is not: it leaves the old pages, those with a valid
//! page count, or the new ones, and the rows are the same.
//!
//! `release` puts the free lists of a recovered database back in stock form, in one transaction: it
//! leaves the old pages or the new ones, and the rows are the same.
#![tactic(auto)]

mod dealing;
mod fault;
mod free;
mod law;
mod page;
mod preparing;
mod releasing;
mod server;
mod stock;
mod trunk;
mod trunks;

pub use fault::ConvertFault;
pub use free::read_free;
pub use law::lists_keep;
pub use page::{counted_page, front_page, node_page, trunk_page};
pub use preparing::prepare;
pub use releasing::release;
pub use stock::chain_changes;
