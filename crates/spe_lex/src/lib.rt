//! Tokens of SQL text.
//!
//! A text is cut into its tokens, each the longest that stands there, or is refused at the first byte
//! at which none does. Want of memory alone is free.
#![tactic(auto)]

mod cursor;
mod lexeme;
mod next;
mod piece;
mod quotes;
mod reading;

pub use cursor::Cursor;
pub use lexeme::Lexeme;
pub use next::Next;
pub use reading::{Front, lex, lexemes, read_front};
pub use spe_model::{SqlFault, SqlKind, Token, TokenKind, Tokens};
