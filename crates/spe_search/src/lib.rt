//! Looking up rows in the trees of tables.
//!
//! A search gets one page a level and halves its cells, of which it reads only those that it looks
//! at. Its answer holds for all pages that agree with those that were given; Corrupt names a page
//! with its cause, and PageOut a page that the tree or a row's chain asks for.
#![tactic(auto)]

mod each;
mod last;
mod law;
mod page;
mod pairs;
mod rows;
mod search;
mod taker;

pub use each::for_each_row;
pub use last::largest;
pub use law::{spans_the_table, touches_the_tree};
pub use page::{Flaw, Found, Step, step_in};
pub use pairs::{LeafPairs, Pair, Pairs};
pub use rows::{range, range_with_leaves};
pub use search::find;
pub use taker::RowTaker;
