//! Mending a table's tree behind a row that went.
//!
//! A leaf without a cell goes from a page that has two children alone. The page is thin then: it has one
//! child and no cell. The rows stay the same, and the other leaf is not put. A thin page and its neighbour
//! become one page where their children fit it, else they share their children under a new key; no page
//! is handed out for that, the rows stay the same, and each of the two that is still there has a cell. A page
//! finds such a pair among its children, and what it is to hold with others in their place. That page
//! is not put yet, and neither is the whole way up. Each step says of pages in use elsewhere that they
//! stay, whatever it answers.
#![tactic(auto)]

mod even;
mod pair;
mod stretch;
mod thin;

pub use pair::mend_pages;
pub use stretch::{Pair, pair_at, pair_law, with_pair};
pub use thin::drop_only_leaf;
