//! The pure half of changes in the trees of tables: how the cells of a page are cut over pages, what a
//! tree is after one child became a run of children, and what it is with a row or some children less, or
//! with another payload in a row.
//!
//! The laws are the contracts of functions that do nothing, over any pages before and after. The
//! code knows no pages but the cells that it is given.
#![tactic(auto)]

mod law;
mod less;
mod parts;

pub use law::{
    change_law, child_law, depth_law, leaf_law, legal_fits, root_law, row_law, split_law,
};
pub use less::{gone_law, join_law, stretch_law};
pub use parts::{CellParts, Halves, interior_parts, leaf_parts, room_law, room_of};
