//! Statements of SQL text.
//!
//! A text is read as the one statement that the grammar of this project makes of its tokens, or is
//! refused at the first place at which no rule admits what stands there. Want of memory alone is free.
#![tactic(auto)]

mod clause;
mod halt;
mod left;
mod number;
mod reading;
mod statement;
mod word;

pub use halt::Halt;
pub use left::Left;
pub use reading::parse;
pub use spe_model::{SqlFault, SqlKind, Statement};
pub use statement::read_statement;
pub use word::is_sign;
