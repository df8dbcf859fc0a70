//! Statements on the tables of pages.
//!
//! A statement that reads gets the pages of its table's tree that its conditions touch, and answers what
//! it means on the database for which the pages stand, whatever the pages below a space are, as long as
//! they agree with those that were given. Corrupt names a page with its cause. Want of memory alone is
//! free. An INSERT, an UPDATE and a DELETE answer what they mean on the database for which the pages are
//! served, and they are then served for the database that they mean; a refusal puts nothing.
//! `justified_more` says of the replies of a transaction, one after the other, that they follow from what
//! was given and put.
#![tactic(auto)]

mod bounds;
mod changing;
mod chosen;
mod deleting;
mod finding;
mod inserting;
mod justifying;
mod reads;
mod rows;
mod select;
mod updating;
mod writes;

pub use justifying::justified_more;
pub use reads::read;
pub use writes::run;
