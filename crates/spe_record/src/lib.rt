//! Records, the form in which a row's values stand in a database file.
//!
//! Every legal record is read: each serial type, and spellings of numbers longer than need be. The
//! answer is exactly what the definition of a record in `spe_model` says, or its lowest fault; want
//! of memory alone is free.
#![tactic(auto)]

mod counted;
mod fields;
mod length;
mod record;
mod types;
mod values;
mod written;

pub use counted::value_count;
pub use fields::{Field, Fields};
pub use length::encoded_length;
pub use record::decode;
pub use spe_model::RecordFault;
pub use written::encode;
