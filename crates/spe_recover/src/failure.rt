//! Why there is no answer from a disk.

ghost use Rattle.std.specs.Prelude.{◌≡◌};

use spe_disk::Failed;
use spe_model::RecoverFault;
use std::alloc::{AllocError, AllocFailed};

/// Why there is no answer from a disk.
#[derive(Clone, Copy, Debug)]
pub enum Failure {
    /// The disk failed.
    Disk,
    /// There was no memory.
    Memory,
}

impl From<Failed> for Failure {
    ghost use Rattle.spe_recover.specs.declared.failure.Failure.TheVariants.{Disk};

    ghost from_gives = { λ _ s. s ≡ Disk };

    fn from(_: Failed) -> Failure {
        Failure::Disk
    }
}

impl From<AllocError> for Failure {
    ghost use Rattle.spe_recover.specs.declared.failure.Failure.TheVariants.{Memory};

    ghost from_gives = { λ _ s. s ≡ Memory };

    fn from(_: AllocError) -> Failure {
        Failure::Memory
    }
}

impl<T: Drop> From<AllocFailed<T>> for Failure {
    ghost use Rattle.spe_recover.specs.declared.failure.Failure.TheVariants.{Memory};

    ghost from_gives = { λ _ s. s ≡ Memory };

    fn from(_: AllocFailed<T>) -> Failure {
        Failure::Memory
    }
}

impl From<Failure> for RecoverFault {
    ghost use Rattle.spe_recover.specs.Known.{of_failure};

    ghost from_gives = { λ s f. f ≡ of_failure s };

    fn from(failure: Failure) -> RecoverFault {
        match failure {
            Failure::Disk => RecoverFault::Disk,
            Failure::Memory => RecoverFault::Memory,
        }
    }
}
