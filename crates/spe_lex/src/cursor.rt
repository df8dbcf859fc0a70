//! The tokens of a text, one after the other.

use crate::lexeme::Lexeme;
use crate::next::Next;
use crate::piece::piece;
use std::marker::Model;

/// A place in a text, seen as the tokens that stand behind it up to the first fault, with that fault.
/// It passes each byte once and takes no memory.
#[derive(Debug, Drop)]
pub struct Cursor<'a> {
    left: &'a str,
    at: u64,
}

impl<'a> Model for Cursor<'a> {
    ghost use Rattle.std.specs.Prelude.{◌+◌, ◌<◌, ◌^◌, length};
    ghost use Rattle.spe_lex.specs.Front.{Front as Seen, front_from};

    ghost Value = { Seen };

    ghost view = { λ c. front_from c.at 0 c.left.now };

    ghost invariant = { λ c. c.at + length c.left.now < 2 ^ 63 };
}

impl<'a> Cursor<'a> {
    ghost use Rattle.std.specs.Prelude.{◌≡◌};
    ghost use Rattle.spe_lex.specs.Front.{front_of};
    ghost use Rattle.spe_lex.specs.Begins.{Begins};

    /// The place at which a text begins.
    pub fn new(text: &'a str) -> Cursor<'a>
        ensures { result ≡ front_of text.now }
    {
        Cursor { left: text, at: 0 }
    }

    /// Passes the first token. At a fault and at the end nothing is passed.
    pub fn next(&mut self) -> Next<'a>
        ensures { Begins result self.old self.new }
    {
        let mut left = self.left;
        let mut at = self.at;
        'gaps: while !left.is_empty() {
            let Some((kind, len)) = piece(left.as_bytes()) else {
                return Next::Fault(at);
            };
            let (front, rest) = left.split_at(len);
            let behind = at + len as u64;
            match kind {
                Some(kind) => {
                    self.left = rest;
                    self.at = behind;
                    return Next::Token(Lexeme::new(kind, at, front));
                }
                None => {
                    left = rest;
                    at = behind;
                }
            }
        }
        Next::End
    }
}
