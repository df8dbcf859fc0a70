//! What all transactions share of a database in server form, read once before them: the tables and the
//! first trunks of the free lists.
//!
//! Whoever has it knows that the pages may be served. That they stand for a database is known already;
//! that no interior page of an open table is without a cell is looked at here.
#![tactic(auto)]

mod below;
mod height;
mod node;
mod shared;
mod tables;

pub use shared::{Shared, read_shared};
