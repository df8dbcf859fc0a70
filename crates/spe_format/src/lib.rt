//! The bytes of the pages of a database file: varints, and the cells of b-tree pages.
//!
//! Each reader answers exactly what the definitions of `spe_model` say of the bytes, or the lowest
//! fault that holds there; want of memory alone is free.
#![tactic(auto)]

mod canonical;
mod cell;
mod kind;
mod layout;
mod legal;
mod order;
mod packed;
mod page;
mod slot;
mod spelled;
mod splice;
mod varint;
mod view;

pub use canonical::{cell_length, put_page};
pub use cell::Parts;
pub use kind::local_size;
pub use legal::LegalPage;
pub use packed::put_in_slot;
pub use page::{legal_is_writable, read_page};
pub use slot::{Slot, slot_for};
pub use spe_model::{Cell, Cells, Header, HeaderFault, Kind, PageCells, PageFault, page_count};
pub use varint::{put_varint, read_varint, varint_length};
pub use view::PageView;
