//! Taking a row out of a table's tree, and the lower steps of it.
//!
//! A leaf that has the row is put without its cell, and then the pages of its chain are made free. A leaf
//! without a cell goes from the page above it, where that has two cells at least; `take_row` makes these
//! two steps. Two neighbours whose cells fit one page become that page. A root whose only child is left
//! takes what that has, and a root whose tree's rows fit it becomes all of the tree. Each step says of
//! pages in use elsewhere that they stay, whatever it answers.
#![tactic(auto)]

mod below;
mod cell;
mod child;
mod collect;
mod gather;
mod join;
mod leaf;
mod leaf_end;
mod leaves;
mod merge;
mod pages;
mod root;
mod row;
mod small;

pub use cell::free_cell;
pub use gather::put_alone;
pub use join::join_pages;
pub use leaf::drop_cell;
pub use leaf_end::drop_leaf;
pub use merge::merge_pages;
pub use pages::give_pages;
pub use root::lower_root;
pub use row::take_row;
pub use small::gather_tree;
