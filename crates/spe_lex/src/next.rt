//! What a text begins with.

use crate::lexeme::Lexeme;

/// What the rest of a text begins with, once blanks and comments are passed.
#[derive(Debug, Drop)]
pub enum Next<'a> {
    /// The longest token that stands there.
    Token(Lexeme<'a>),
    /// None stands there: the place of that byte, counted from 0.
    Fault(u64),
    /// The text is read.
    End,
}
