//! Why a script is refused.

ghost use Rattle.std.specs.Prelude.{◌≡◌};

use std::alloc::AllocError;
use thiserror::Error;

/// What is wrong with a script. The numbers are this project's own.
#[derive(Clone, Copy, Debug, PartialEq, Eq, Error)]
pub enum ScriptKind {
    /// The bytes are no text.
    #[error("the script is not UTF-8")]
    NotUtf8 = 1,
    /// No token begins so, or the one that does is not closed or has a bad body.
    #[error("no token")]
    Token = 2,
    /// No rule admits the token here, or the item ends too early.
    #[error("not expected")]
    Expected = 3,
    /// The same, where the token belongs to the part of SQL that is left out.
    #[error("not supported")]
    Unsupported = 4,
    /// A whole number does not fit 64 bits.
    #[error("a whole number past 64 bits")]
    NumberRange = 5,
    /// BEGIN stands inside a transaction.
    #[error("BEGIN inside a transaction")]
    Nested = 6,
    /// COMMIT, END or ROLLBACK stands outside a transaction.
    #[error("the end of a transaction where none is open")]
    NotOpen = 7,
    /// The script has more than 16777216 bytes.
    #[error("the script has more than 16777216 bytes")]
    TooLong = 8,
    /// There was no memory.
    #[error("out of memory")]
    Memory = 9,
}

/// Why a script is refused, and the line on which that shows, counted from 1. The line is 0 where the
/// script as a whole is refused, and for want of memory.
#[derive(Clone, Copy, Debug, PartialEq, Eq, Error)]
#[error("line {line}: {kind}")]
pub struct ScriptError {
    pub line: u64,
    pub kind: ScriptKind,
}

/// The same, by the place in bytes, counted from 0.
#[derive(Clone, Copy, Debug, PartialEq, Eq)]
pub struct Misread {
    pub at: u64,
    pub kind: ScriptKind,
}

impl From<AllocError> for Misread {
    ghost use Rattle.spe_script.specs.declared.fault.ScriptKind.TheVariants.{Memory};

    ghost from_gives = { λ _ e. e.kind ≡ Memory };

    fn from(_: AllocError) -> Misread {
        Misread {
            at: 0,
            kind: ScriptKind::Memory,
        }
    }
}
