//! All tokens of a text.

ghost use Rattle.std.specs.Prelude.{◌≡◌, IfOk, map, length};
ghost use Rattle.spe_model.specs.Token.{token_of, tokens_of, lexemes_of, AreSpans};
ghost use Rattle.spe_lex.specs.Front.{front_of};
ghost use Rattle.spe_lex.specs.Reading.{IsReading};

use crate::cursor::Cursor;
use crate::lexeme::Lexeme;
use crate::next::Next;
use spe_model::{SqlFault, SqlKind, Token, Tokens};
use std::alloc::{AllocError, Global};

/// The tokens of a text before its first fault.
#[derive(Debug, Drop)]
pub struct Front<'a> {
    /// The tokens with their bytes, in the order of their places.
    pub lexemes: Vec<Lexeme<'a>>,
    /// The place of the first byte at which no token, blank or comment stands, counted from 0.
    pub fault: Option<u64>,
}

/// The tokens of a text up to its first fault, and the place of that fault, where there is one.
pub fn read_front(alloc: Global, text: &str) -> Result<Front<'_>, AllocError>
    ensures { IfOk result (λ f. (f.lexemes.items, f.fault) ≡ front_of text.now) }
{
    let mut found = Vec::new(alloc);
    let mut cursor = Cursor::new(text);
    'tokens: loop {
        match cursor.next() {
            Next::Token(lexeme) => found.push(lexeme)?,
            Next::Fault(at) => {
                return Ok(Front {
                    lexemes: found,
                    fault: Some(at),
                });
            }
            Next::End => {
                return Ok(Front {
                    lexemes: found,
                    fault: None,
                });
            }
        }
    }
}

/// The tokens of a text with their bytes, in the order of their places.
///
/// The fault is at the first byte at which no token, blank or comment stands.
pub fn lexemes(alloc: Global, text: &str) -> Result<Vec<Lexeme<'_>>, SqlFault>
    ensures { IsReading (λ v. v.items) result (lexemes_of text.now) }
{
    match read_front(alloc, text) {
        Ok(front) => match front.fault {
            Some(at) => Err(SqlFault {
                at,
                kind: SqlKind::Token,
            }),
            None => Ok(front.lexemes),
        },
        Err(error) => Err(SqlFault::from(error)),
    }
}

fn tokens(alloc: Global, lexemes: &[Lexeme<'_>]) -> Result<Vec<Token>, AllocError>
    ensures { IfOk result (λ v. v.items ≡ map token_of lexemes.now) }
{
    lexemes.iter().map(|lexeme| lexeme.token()).collect(alloc)
}

/// The tokens of a text, by their places.
///
/// The fault is as of `lexemes`.
pub fn lex(alloc: Global, text: &str) -> Result<Tokens, SqlFault>
    ensures tokens { IsReading (λ t. t) result (tokens_of text.now) }
    ensures spans { IfOk result (AreSpans 0 (length text.now)) }
{
    match lexemes(alloc, text) {
        Ok(found) => Ok(Tokens::new(tokens(alloc, found.as_slice())?)),
        Err(fault) => Err(fault),
    }
}
