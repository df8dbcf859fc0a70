//! Tokens of SQL text, and why a text is refused.

ghost use Rattle.std.specs.Prelude.{◌≡◌};

use std::alloc::{AllocError, AllocFailed};
use std::marker::Model;
use thiserror::Error;

/// The kinds of token. This project's own.
#[derive(Clone, Copy, Debug, PartialEq, Eq)]
pub enum TokenKind {
    /// A bare word.
    Word,
    /// A name in double quotes, back quotes or brackets.
    QuotedName,
    /// A text in single quotes.
    Str,
    /// Hexadecimal digits in single quotes behind an `x`.
    Blob,
    /// Decimal digits.
    Number,
    /// A number with a point or an exponent, which no statement takes.
    Fraction,
    /// A sign of one or two characters.
    Sign,
}

/// A token, by its place in a text.
#[derive(Clone, Copy, Debug, PartialEq, Eq)]
pub struct Token {
    pub kind: TokenKind,
    /// The place of its first byte, counted from 0.
    pub at: u64,
    /// How many bytes it has.
    pub length: u64,
}

/// Tokens in the order of their places, seen as a list.
#[derive(Debug, Drop)]
pub struct Tokens {
    inner: Vec<Token>,
}

impl Model for Tokens {
    ghost use Rattle.std.specs.Prelude.{List};
    ghost use Rattle.spe_model.specs.declared.token.Token.{Token};

    ghost Value = { List Token };

    ghost view = { λ t. t.inner.items };
}

impl Tokens {
    /// These tokens.
    pub fn new(inner: Vec<Token>) -> Tokens
        ensures { result ≡ inner.items }
    {
        Tokens { inner }
    }

    /// The tokens as a slice.
    pub fn as_slice(&self) -> &[Token]
        ensures { result.now ≡ self.now }
    {
        self.inner.as_slice()
    }
}

/// What is wrong with a text. The numbers are this project's own.
#[derive(Clone, Copy, Debug, PartialEq, Eq, Error)]
pub enum SqlKind {
    /// No token begins so, or the one that does is not closed or has a bad body.
    #[error("no token")]
    Token = 1,
    /// No rule admits the token here, or the text ends too early.
    #[error("not expected")]
    Expected = 2,
    /// The same, where the token belongs to the part of SQL that is left out.
    #[error("not supported")]
    Unsupported = 3,
    /// A whole number does not fit 64 bits.
    #[error("a whole number past 64 bits")]
    NumberRange = 4,
    /// There was no memory.
    #[error("out of memory")]
    Memory = 5,
}

/// Why a text is refused, and the place in bytes at which that shows; 0 for want of memory.
#[derive(Clone, Copy, Debug, PartialEq, Eq, Error)]
#[error("{kind} at byte {at}")]
pub struct SqlFault {
    pub at: u64,
    pub kind: SqlKind,
}

impl From<AllocError> for SqlFault {
    ghost use Rattle.spe_model.specs.declared.token.SqlKind.TheVariants.{Memory};

    ghost from_gives = { λ _ e. e.kind ≡ Memory };

    fn from(_: AllocError) -> SqlFault {
        SqlFault {
            at: 0,
            kind: SqlKind::Memory,
        }
    }
}

impl<T: Drop> From<AllocFailed<T>> for SqlFault {
    ghost use Rattle.spe_model.specs.declared.token.SqlKind.TheVariants.{Memory};

    ghost from_gives = { λ _ e. e.kind ≡ Memory };

    fn from(_: AllocFailed<T>) -> SqlFault {
        SqlFault {
            at: 0,
            kind: SqlKind::Memory,
        }
    }
}
