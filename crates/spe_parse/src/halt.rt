//! Why reading stops.

ghost use Rattle.std.specs.Prelude.{◌≡◌};

use spe_model::SqlFault;
use std::alloc::{AllocError, AllocFailed};
use thiserror::Error;

/// Why reading stops before a part of a statement is whole.
#[derive(Clone, Copy, Debug, PartialEq, Eq, Error)]
pub enum Halt {
    /// The tokens end where another has to stand.
    #[error("the statement ends too early")]
    Ends,
    /// No rule admits the token at a place, or a number there is out of range.
    #[error("{0}")]
    Fault(#[source] SqlFault),
    /// There was no memory.
    #[error("out of memory")]
    Memory,
}

impl From<AllocError> for Halt {
    ghost use Rattle.spe_parse.specs.declared.halt.Halt.TheVariants.{Memory};

    ghost from_gives = { λ _ e. e ≡ Memory };

    fn from(_: AllocError) -> Halt {
        Halt::Memory
    }
}

impl<T: Drop> From<AllocFailed<T>> for Halt {
    ghost use Rattle.spe_parse.specs.declared.halt.Halt.TheVariants.{Memory};

    ghost from_gives = { λ _ e. e ≡ Memory };

    fn from(_: AllocFailed<T>) -> Halt {
        Halt::Memory
    }
}
