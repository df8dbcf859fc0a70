//! Putting a row into a table's tree, and giving one another payload.
//!
//! A row becomes the cell of a leaf. The cells of a page that has one more, or a run of children in the
//! place of one, are put on that page where they fit, else on that page and on new ones, which then are
//! a run in the page's place. Each step says of pages in use elsewhere that they stay, whatever it
//! answers.
#![tactic(auto)]

mod below;
mod cell;
mod down;
mod interior;
mod law;
mod leaf;
mod leaf_step;
mod node;
mod packed_leaf;
mod place;
mod replace_below;
mod replace_leaf;
mod replaced;
mod root;
mod row;
mod run;
mod run_step;

pub use cell::write_cell;
pub use down::look;
pub use interior::lay_interior;
pub use law::below_law;
pub use leaf::{lay_leaf, lay_parts};
pub use leaf_step::{is_same, leads, leaf_in};
pub use node::{lay_lower, lay_node};
pub use place::{place_of, set_child, with_children};
pub use replaced::replace;
pub use root::raise_root;
pub use row::insert;
pub use run::{Run, ascends_in, last_key_of, one_child, run_behind};
pub use run_step::{children_of, grown_at, put_run};
