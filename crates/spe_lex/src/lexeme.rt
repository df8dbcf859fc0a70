//! A token with its text.

ghost use Rattle.std.specs.Prelude.{◌≡◌, IfOk};
ghost use Rattle.spe_model.specs.Token.{token_of, unquoted, blob_bytes};
ghost use Rattle.spe_model.specs.declared.token.TokenKind.TheVariants.{Blob, Number};
ghost use Rattle.spe_lex.specs.Lexed.{AreDigits, IsSound};

use crate::quotes::{hex_bytes, unquoted_text};
use spe_model::{Bytes, Text, Token, TokenKind};
use std::alloc::{AllocError, Global};
use std::marker::Model;

/// A token with its text, which is lent by the text that it stands in.
#[derive(Debug, Drop)]
pub struct Lexeme<'a> {
    kind: TokenKind,
    at: u64,
    text: &'a str,
}

impl<'a> Model for Lexeme<'a> {
    ghost use Rattle.spe_model.specs.Token.{Lexeme as Seen};

    ghost Value = { Seen };

    ghost view = { λ x. record { kind = x.kind; at = x.at; text = x.text.now } };

    ghost use Rattle.spe_lex.specs.Lexed.{IsSound};

    ghost invariant = { λ x. IsSound x.kind x.text.now };
}

impl<'a> Lexeme<'a> {
    // A token that begins at a place.
    pub fn new(kind: TokenKind, at: u64, text: &'a str) -> Lexeme<'a>
        requires { IsSound kind text.now }
        ensures { result ≡ record { kind = kind; at = at; text = text.now } }
    {
        Lexeme { kind, at, text }
    }

    /// The kind of the token.
    pub fn kind(&self) -> TokenKind
        ensures { result ≡ self.now.kind }
    {
        self.kind
    }

    /// The place of its first byte, counted from 0.
    pub fn at(&self) -> u64
        ensures { result ≡ self.now.at }
    {
        self.at
    }

    /// Its text, with the quotes that it has.
    pub fn text(&self) -> &'a str
        ensures { result.now ≡ self.now.text }
    {
        self.text
    }

    /// The digits of a number.
    pub fn digits(&self) -> &'a str
        requires { self.now.kind ≡ Number }
        ensures text { result.now ≡ self.now.text }
        ensures decimal { AreDigits result.now }
    {
        self.text
    }

    /// The token by its place.
    pub fn token(&self) -> Token
        ensures { result ≡ token_of self.now }
    {
        Token {
            kind: self.kind,
            at: self.at,
            length: self.text.len() as u64,
        }
    }

    /// What the token means as a name or a string: its text without quotes.
    pub fn unquoted(&self, alloc: Global) -> Result<Text, AllocError>
        ensures { IfOk result (λ t. t ≡ unquoted self.now.text) }
    {
        unquoted_text(alloc, self.text)
    }

    /// What the token means as a blob.
    pub fn blob(&self, alloc: Global) -> Result<Bytes, AllocError>
        requires { self.now.kind ≡ Blob }
        ensures { IfOk result (λ b. b ≡ blob_bytes self.now.text) }
    {
        hex_bytes(alloc, self.text.as_bytes())
    }
}
