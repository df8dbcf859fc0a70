//! Records.

ghost use Rattle.std.specs.Prelude.{◌≡◌};

use std::alloc::{AllocError, AllocFailed};
use thiserror::Error;

/// Why bytes are no record. Where several hold, the lowest number is answered.
#[derive(Clone, Copy, Debug, PartialEq, Eq, Error)]
pub enum RecordFault {
    /// The header length is cut off, runs past the bytes, or does not end where a serial type ends.
    #[error("the header of the record has a wrong length")]
    HeaderLength = 1,
    /// A serial type is 10 or 11.
    #[error("a serial type is 10 or 11")]
    ReservedType = 2,
    /// The values need more bytes than there are.
    #[error("the values need more bytes than the record has")]
    Short = 3,
    /// The values need fewer bytes than there are.
    #[error("the values need fewer bytes than the record has")]
    Trailing = 4,
    /// A text is not UTF-8.
    #[error("a text is not UTF-8")]
    NotUtf8 = 5,
    /// There was no memory for the values.
    #[error("out of memory")]
    Memory = 6,
}

impl From<AllocError> for RecordFault {
    ghost use Rattle.spe_model.specs.declared.record.RecordFault.TheVariants.{Memory};

    ghost from_gives = { λ _ e. e ≡ Memory };

    fn from(_: AllocError) -> RecordFault {
        RecordFault::Memory
    }
}

impl<T: Drop> From<AllocFailed<T>> for RecordFault {
    ghost use Rattle.spe_model.specs.declared.record.RecordFault.TheVariants.{Memory};

    ghost from_gives = { λ _ e. e ≡ Memory };

    fn from(_: AllocFailed<T>) -> RecordFault {
        RecordFault::Memory
    }
}
