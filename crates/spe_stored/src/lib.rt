//! The files of a database in memory: operations that are made, a write that is taken back, and the
//! operations that roll back hot journals. Beside them pages with their bytes, by number.
#![tactic(auto)]

mod bytes;
mod files;
mod operation;
mod plan;
mod sheets;
mod stored;

pub use bytes::{front_of, number_at, page_size};
pub use files::Files;
pub use operation::{Operation, Write, copy_of, page_write, torn};
pub use plan::rule_of;
pub use sheets::Sheets;
pub use stored::Kept;
