//! What calls that write to pages leave as it was: all trees, chains and free pages but their own.
//!
//! A call has pages of its own, which are held: in use, each once. `Spares` says, whatever it answers,
//! that pages in use elsewhere were neither given nor put, and `Shifts`, where it ends well, which
//! pages it has then. Both follow one another, and a call on some pages is the same call beside others.
#![tactic(auto)]

mod law;
mod step;

pub use law::{forest_law, frame_law, header_law, shifts_law};
pub use step::{give_page, lay_page, see_page, take_page};
