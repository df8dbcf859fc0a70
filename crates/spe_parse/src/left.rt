//! Tokens that are left to be read.

use crate::halt::Halt;
use crate::word::{is_name, is_sign, is_word, kind_of};
use spe_lex::Lexeme;
use spe_model::{SqlFault, Text};
use std::alloc::Global;
use std::marker::Model;

/// Tokens that are left to be read, seen as a list. What reading leaves where it stops is not said.
#[derive(Debug, Drop)]
pub struct Left<'l, 't> {
    tokens: &'l [Lexeme<'t>],
}

impl<'l, 't> Model for Left<'l, 't> {
    ghost use Rattle.std.specs.Prelude.{List};
    ghost use Rattle.spe_model.specs.Token.{Lexeme as Seen};

    ghost Value = { List Seen };

    ghost view = { λ l. l.tokens.now };
}

impl<'l, 't> Left<'l, 't> {
    ghost use Rattle.std.specs.Prelude.{◌≡◌, ◌<◌, OnOk, length, drop};
    ghost use Rattle.spe_model.specs.Definition.{is_word, is_sign};
    ghost use Rattle.spe_parse.specs.Part.{halt_at, stands, after, name_at};
    ghost use Rattle.spe_parse.specs.Read.{IsPart};

    /// All of these.
    pub fn new(tokens: &'l [Lexeme<'t>]) -> Left<'l, 't>
        ensures { result ≡ tokens.now }
    {
        Left { tokens }
    }

    /// Those that are left.
    pub fn tokens(&self) -> &'l [Lexeme<'t>]
        ensures { result.now ≡ self.now }
    {
        self.tokens
    }

    /// Passes the first one.
    pub fn pass(&mut self)
        ensures { self.new ≡ drop 1 self.old }
    {
        if let [_, rest @ ..] = self.tokens {
            self.tokens = rest;
        }
    }

    /// Why reading stops where no rule admits what stands at the front.
    pub fn halt(&self) -> Halt
        ensures { result ≡ halt_at self.now }
    {
        match self.tokens {
            [first, ..] => Halt::Fault(SqlFault {
                at: first.at(),
                kind: kind_of(first),
            }),
            [] => Halt::Ends,
        }
    }

    /// Whether this word stands at the front, without quotes and in any case.
    pub fn stands_word(&self, word: &str) -> bool
        ensures { result ≡ stands (is_word word.now) self.now }
    {
        match self.tokens {
            [first, ..] => is_word(word, first),
            [] => false,
        }
    }

    /// Whether this sign stands at the front.
    pub fn stands_sign(&self, sign: &str) -> bool
        ensures { result ≡ stands (is_sign sign.now) self.now }
    {
        match self.tokens {
            [first, ..] => is_sign(sign, first),
            [] => false,
        }
    }

    /// Passes this word, which has to stand at the front.
    pub fn word(&mut self, word: &str) -> Result<(), Halt>
        ensures { IsPart (λ _. self.new) result (after (is_word word.now) self.old) }
    {
        if !self.stands_word(word) {
            return Err(self.halt());
        }
        self.pass();
        Ok(())
    }

    /// Passes this sign, which has to stand at the front.
    pub fn sign(&mut self, sign: &str) -> Result<(), Halt>
        ensures { IsPart (λ _. self.new) result (after (is_sign sign.now) self.old) }
    {
        if !self.stands_sign(sign) {
            return Err(self.halt());
        }
        self.pass();
        Ok(())
    }

    /// Reads a name.
    pub fn name(&mut self, alloc: Global) -> Result<Text, Halt>
        ensures name { IsPart (λ t. (t, self.new)) result (name_at self.old) }
        ensures shorter { OnOk result (length self.new < length self.old) }
    {
        let [first, rest @ ..] = self.tokens else {
            return Err(Halt::Ends);
        };
        if !is_name(first) {
            return Err(self.halt());
        }
        let name = first.unquoted(alloc)?;
        self.tokens = rest;
        Ok(name)
    }
}
