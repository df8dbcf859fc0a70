//! Tokens that are left to be read.

ghost use Rattle.std.specs.Prelude.{◌≡◌};

use spe_lex::Lexeme;
use std::marker::Model;

/// Tokens that are left to be read, seen as a list.
#[derive(Debug, Drop)]
pub struct Left<'a, 'b> {
    tokens: &'a [Lexeme<'b>],
}

impl<'a, 'b> Model for Left<'a, 'b> {
    ghost use Rattle.std.specs.Prelude.{List};
    ghost use Rattle.spe_model.specs.Token.{Lexeme as Seen};

    ghost Value = { List Seen };

    ghost view = { λ l. l.tokens.now };
}

impl<'a, 'b> Left<'a, 'b> {
    // All of these.
    pub fn new(tokens: &'a [Lexeme<'b>]) -> Left<'a, 'b>
        ensures { result ≡ tokens.now }
    {
        Left { tokens }
    }

    // Those that are left.
    pub fn tokens(&self) -> &'a [Lexeme<'b>]
        ensures { result.now ≡ self.now }
    {
        self.tokens
    }

    // Leaves these.
    pub fn set(&mut self, tokens: &'a [Lexeme<'b>])
        ensures { self.new ≡ tokens.now }
    {
        self.tokens = tokens;
    }
}
