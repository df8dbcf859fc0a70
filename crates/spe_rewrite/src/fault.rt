//! Why pages were not rewritten.

ghost use Rattle.std.specs.Prelude.{◌≡◌};

use spe_disk::Failed;
use std::alloc::{AllocError, AllocFailed};
use thiserror::Error;

/// Why pages were not rewritten.
#[derive(Clone, Copy, Debug, PartialEq, Eq, Error)]
pub enum RewriteFault {
    /// The disk failed.
    #[error("the disk failed")]
    Disk,
    /// There was no memory.
    #[error("out of memory")]
    Memory,
}

impl From<Failed> for RewriteFault {
    ghost use Rattle.spe_rewrite.specs.declared.fault.RewriteFault.TheVariants.{Disk};

    ghost from_gives = { λ _ f. f ≡ Disk };

    fn from(_: Failed) -> RewriteFault {
        RewriteFault::Disk
    }
}

impl From<AllocError> for RewriteFault {
    ghost use Rattle.spe_rewrite.specs.declared.fault.RewriteFault.TheVariants.{Memory};

    ghost from_gives = { λ _ f. f ≡ Memory };

    fn from(_: AllocError) -> RewriteFault {
        RewriteFault::Memory
    }
}

impl<T: Drop> From<AllocFailed<T>> for RewriteFault {
    ghost use Rattle.spe_rewrite.specs.declared.fault.RewriteFault.TheVariants.{Memory};

    ghost from_gives = { λ _ f. f ≡ Memory };

    fn from(_: AllocFailed<T>) -> RewriteFault {
        RewriteFault::Memory
    }
}
